//! The laws of cross-sections and of windows on lists. The functions do nothing: the contract of each is a
//! law.
ghost use Rattle.pl_laws.specs.ListLaws.{ValuesAreSorted, ValuesAreCounted, OrdinalsAreNumbers, OrdinalsArePlaces};
ghost use Rattle.pl_laws.specs.ListLaws.{MeanIsBetween, BinsAreFew, EdgesAscend, BinsLieBetweenEdges, WholeRangeIsAll};
ghost use Rattle.pl_laws.specs.ListLaws.{WholeWinsorizingIsNone, WinsorizedAreBetween};
ghost use Rattle.pl_laws.specs.ListLaws.{RanksAreBetween, DescendingIsNegated, TopsAreMany, FiltersCount};
ghost use Rattle.pl_laws.specs.ListLaws.{GreatestIsLeast, OneIsItself};

/// The values of a cross-section in ascending order are those that counting gives.
pub fn values_are_sorted()
    ensures { ValuesAreSorted }
{}

/// Each place among the values in ascending order has one value, which follows from how many lie below it.
pub fn values_are_counted()
    ensures { ValuesAreCounted }
{}

/// Assets in the order of their values, and of their sids where values are equal, have the ordinal ranks 1, 2
/// and so on.
pub fn ordinals_are_places()
    ensures { OrdinalsArePlaces }
{}

/// The ordinal ranks of m assets are the numbers from 1 to m, each once.
pub fn ordinals_are_numbers()
    ensures { OrdinalsAreNumbers }
{}

/// The mean of a window lies between its least value and its greatest.
pub fn mean_is_between()
    ensures { MeanIsBetween }
{}

/// Quantiles have their number of bins, and a greater value is in no lower one.
pub fn bins_are_few()
    ensures { BinsAreFew }
{}

/// The edges between quantiles ascend.
pub fn edges_ascend()
    ensures { EdgesAscend }
{}

/// A value's quantile is the bin between whose edges it lies; a value on an edge is in the lower bin.
pub fn bins_lie_between_edges()
    ensures { BinsLieBetweenEdges }
{}

/// `percentile_between(0, 100)` keeps each asset.
pub fn whole_range_is_all()
    ensures { WholeRangeIsAll }
{}

/// `winsorize(0, 1)` changes no value.
pub fn whole_winsorizing_is_none()
    ensures { WholeWinsorizingIsNone }
{}

/// A winsorized value lies between two values of the list.
pub fn winsorized_are_between()
    ensures { WinsorizedAreBetween }
{}

/// The ordinal rank lies between the min and the max rank, the average in their middle, and the dense rank is
/// no greater.
pub fn ranks_are_between()
    ensures { RanksAreBetween }
{}

/// A descending rank is the ascending rank among the negatives.
pub fn descending_is_negated()
    ensures { DescendingIsNegated }
{}

/// `top(n)` and `bottom(n)` keep n assets, or all where there are fewer.
pub fn tops_are_many()
    ensures { TopsAreMany }
{}

/// `Any` is `AtLeastN` of one, and `All` is `AtLeastN` of the window's length.
pub fn filters_count()
    ensures { FiltersCount }
{}

/// `WindowMax` is `WindowMin` of the negatives, negated.
pub fn greatest_is_least()
    ensures { GreatestIsLeast }
{}

/// Over one session a mean, a sum and an extremum are the value of that session.
pub fn one_is_itself()
    ensures { OneIsItself }
{}
