//! The laws. The functions do nothing: the contract of each is a law.
ghost use Rattle.pl_invariance.specs.Alone.{NumbersStandAlone};
ghost use Rattle.pl_invariance.specs.Compared.{ChangesHaveNoUnit};
ghost use Rattle.pl_invariance.specs.Ordered.{MediansAreMiddles, PercentilesAreBetween, RankCorrelationsAreBounded, WindowRanksAreRanks};
ghost use Rattle.pl_invariance.specs.Paired.{CorrelationsAreBounded, PairsHaveNoOrder, ValuesExplainThemselves};
ghost use Rattle.pl_invariance.specs.Crossed.{ClipsHaveUnits, CrossesHaveNoUnit, ScreensHaveNoUnit};
ghost use Rattle.pl_invariance.specs.Pipelines.{PipelinesHaveUnits, TablesHaveUnits};
ghost use Rattle.pl_invariance.specs.Priced.{PricesHaveUnits};
ghost use Rattle.pl_invariance.specs.Ranked.{RanksHaveNoUnit};
ghost use Rattle.pl_invariance.specs.Renamed.{SidsAreNames};
ghost use Rattle.pl_invariance.specs.Restated.{SplitsMayBeRestated, WorldsCanBeRestated};
ghost use Rattle.pl_invariance.specs.Fitted.{LinesAreOfLeastSquares};
ghost use Rattle.pl_invariance.specs.Lines.{LinesGoThroughMeans, ScalesAddUp};
ghost use Rattle.pl_invariance.specs.OneAsset.{OneAssetForAll};
ghost use Rattle.pl_invariance.specs.Origins.{PairsHaveNoOrigin};
ghost use Rattle.pl_invariance.specs.Scales.{CorrelationsHaveNoScale, RegressionsHaveUnits};
ghost use Rattle.pl_invariance.specs.Shapes.{RootsHaveUnits, ShapesHaveNoUnit};
ghost use Rattle.pl_invariance.specs.Varied.{VariedValuesExplainThemselves};
ghost use Rattle.pl_invariance.specs.Units.{FormulasHaveUnits, IndicatorsHaveNoUnit};

/// A number beside bars is the same whatever the bars, the adjustments and the labels are. It guards the way
/// of a number to a value: nothing scales or masks it.
pub fn numbers_stand_alone()
    ensures { NumbersStandAlone }
{}

/// Sids that are renamed in ascending order change nothing but the sid of each row. It guards the look-ups by
/// sid and the cross-sections, which know of a sid only which of two is the smaller.
pub fn sids_are_names()
    ensures { SidsAreNames }
{}

/// Prices that are all multiplied by one ratio, those of corrections too, are seen multiplied by it, and
/// volumes stay, where nothing is rounded. It guards what is seen of a bar: the ratios of adjustments are of
/// no unit, and a correction is in that of its bar.
pub fn prices_have_units()
    ensures { PricesHaveUnits }
{}

/// A split may be left out where the bars before it are restated by its ratio: from its day on each bar, and
/// each window of bars, is seen alike, where nothing is rounded. The same holds of a merger and of a
/// dividend. It guards which bars an adjustment acts on, from which session, which columns and by which
/// ratio, and that the order of exact ratios is of no account.
pub fn splits_may_be_restated()
    ensures { SplitsMayBeRestated }
{}

/// The change of a price over a window is the same in every unit: `Returns`, `PercentChange` and
/// `RateOfChangePercentage` of prices that are multiplied by a ratio above 0, where this rounds neither the
/// oldest nor the newest. It guards these formulas, and `quot`: a quotient of one proportion is rounded
/// alike.
pub fn changes_have_no_unit()
    ensures { ChangesHaveNoUnit }
{}

/// The rank of a price is the same in every unit, by each method and in both orders, and so is who is among
/// the first or the last, where a ratio above 0 rounds no value of the cross-section. It guards the ranks,
/// which know of values only which of two is the smaller.
pub fn ranks_have_no_unit()
    ensures { RanksHaveNoUnit }
{}

/// A correlation lies between -1 and 1, by Cauchy and Schwarz. It guards the sums of pairs and the rounding
/// of the root, which leads past neither.
pub fn correlations_are_bounded()
    ensures { CorrelationsAreBounded }
{}

/// So does a correlation of ranks.
pub fn rank_correlations_are_bounded()
    ensures { RankCorrelationsAreBounded }
{}

/// A correlation and a covariance are the same with the two inputs swapped. It guards the sums of pairs.
pub fn pairs_have_no_order()
    ensures { PairsHaveNoOrder }
{}

/// The correlation of values with themselves is 1, and so is the slope, unless all of them are equal. It
/// guards the sign of the root, and which of the two inputs a regression divides by.
pub fn values_explain_themselves()
    ensures { ValuesExplainThemselves }
{}

/// Both are present, so 1, where two of the present values differ. It guards what a correlation is missing
/// for.
pub fn varied_values_explain_themselves()
    ensures { VariedValuesExplainThemselves }
{}

/// A correlation, one of ranks too, and the share of the variance that a line explains are the same where one
/// side is multiplied by a ratio above 0 that rounds none of its values. It guards the spreads that a
/// correlation is divided by, and its sign.
pub fn correlations_have_no_scale()
    ensures { CorrelationsHaveNoScale }
{}

/// A covariance and a slope are multiplied by the ratio by which y is, where nothing is rounded.
pub fn regressions_have_units()
    ensures { RegressionsHaveUnits }
{}

/// Correlations, covariances, slopes and their errors are the same where a constant is added to one side. It
/// guards the spreads, which are of what lies between the values and their means.
pub fn pairs_have_no_origin()
    ensures { PairsHaveNoOrigin }
{}

/// Where x is at its mean, the line of a regression is at the mean of y: exactly before slope and intercept
/// are rounded, and after it within half a millionth for the intercept and half a millionth of the mean of x
/// for the slope. It guards that both are of one line.
pub fn lines_go_through_means()
    ensures { LinesGoThroughMeans }
{}

/// Before its slope and intercept are rounded, the line of a regression is that of least squares: the sum of
/// the squares of what lies between y and it is no greater than that of any other line. It is what the two
/// formulas are defined for, and guards both.
pub fn lines_are_of_least_squares()
    ensures { LinesAreOfLeastSquares }
{}

/// The magnitudes of what a scale gives add up to 1, within half a millionth for each value, where not all
/// values are 0. It guards what the values are divided by.
pub fn scales_add_up()
    ensures { ScalesAddUp }
{}

/// `y.of(sid)` gives each asset that exists the value of y for the asset sid, from wherever it is seen, and
/// none where that asset does not exist. It guards what stands for it: a greatest value of one.
pub fn one_asset_for_all()
    ensures { OneAssetForAll }
{}

/// A percentile of a window lies between its least present value and its greatest, in every hundredth of a
/// percent. It guards the points between neighbors.
pub fn percentiles_are_between()
    ensures { PercentilesAreBetween }
{}

/// The percentile 50 of an odd number of present values is the middle one in ascending order. It guards where
/// the way from the least to the greatest begins and ends.
pub fn medians_are_middles()
    ensures { MediansAreMiddles }
{}

/// The rank in a window is that of the newest value by the average method of a cross-section of the same
/// values, over their number. It guards how ties are ranked.
pub fn window_ranks_are_ranks()
    ensures { WindowRanksAreRanks }
{}

/// What is of the price's unit is scaled with the prices: the latest, the least and the greatest, sums and
/// means, weighted ones too, deviations and bands, where nothing is rounded. It guards these formulas: each
/// is a sum, or a quotient by what has no unit.
pub fn formulas_have_units()
    ensures { FormulasHaveUnits }
{}

/// Where the prices of a window lie is the same in every unit: `RSI`, `FastStochasticOscillator`, `AroonUp`
/// and `AroonDown` of prices that a ratio above 0 does not round.
pub fn indicators_have_no_unit()
    ensures { IndicatorsHaveNoUnit }
{}

/// The shape of a window is the same in every unit: `MaxDrawdown`, `WindowSkewness` and `WindowKurtosis` of
/// prices that a ratio above 0 does not round, and the error of the slope of prices on prices. It guards the
/// powers that these formulas divide by each other, and which value a fall is measured by.
pub fn shapes_have_no_unit()
    ensures { ShapesHaveNoUnit }
{}

/// A deviation with weights that fade, and the error of a slope, are of the price's unit, where the roots
/// have no rest. It guards that the root is of squares, and that weights have no unit.
pub fn roots_have_units()
    ensures { RootsHaveUnits }
{}

/// So are the quantile of a price, whether it lies between two percentiles, how many peers it has, and its
/// z-score where the mean and the deviation are not rounded; its distance from the mean is in its unit.
pub fn crosses_have_no_unit()
    ensures { CrossesHaveNoUnit }
{}

/// A comparison of two prices is the same in every unit, so a screen over it keeps the same assets.
pub fn screens_have_no_unit()
    ensures { ScreensHaveNoUnit }
{}

/// A price that is clipped to bounds in its unit is the same price in every unit. Pipelines have no rule for
/// it, since the bounds of `clip` are numbers, and in another unit they have to be others.
pub fn clips_have_units()
    ensures { ClipsHaveUnits }
{}

/// Each world can be restated so, whichever of an asset's ratios is left out.
pub fn worlds_can_be_restated()
    ensures { WorldsCanBeRestated }
{}

/// Prices in cents in place of dollars: each term of the price's unit is multiplied by 100, each of its square,
/// as a variance, by 10,000, and each term without a unit, as a return, a rank or a comparison, is the same,
/// from wherever it is seen and under each mask and group, where nothing is rounded. It guards what a value is made of: which inputs a kind reads, on
/// which sessions and of which assets, and that nothing mixes a price with a number.
pub fn pipelines_have_units()
    ensures { PipelinesHaveUnits }
{}

/// So the table has the same rows: its screen keeps the same assets, the columns of the price's unit or a
/// power of it are multiplied so, and all others are the same.
pub fn tables_have_units()
    ensures { TablesHaveUnits }
{}
