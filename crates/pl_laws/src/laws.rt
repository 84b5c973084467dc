//! The laws of worlds, terms, tables and texts. The functions do nothing: the contract of each is a law.
ghost use Rattle.pl_spec.specs.Lookups.{BarsAreFound, LabelsAreFound};
ghost use Rattle.pl_laws.specs.Laws.{ValuesAgree, RoundingIsExact, TablesAgree, NodesUnfold};
ghost use Rattle.pl_spec.specs.Buffered.{BufferSteps, BarsAreAlike};
ghost use Rattle.pl_laws.specs.Laws.{TermsAreDistinct, OrderIsOne, OrderIsKept, RootIsGreatest, UsedAreListed};
ghost use Rattle.pl_laws.specs.Laws.{RawWithoutEvents, WindowOfOne, OpenMasksChangeNothing, TablesConcatenate};
ghost use Rattle.pl_laws.specs.AsOfLaws.{AsOfAgrees, TablesAsOf, PartsAsOf};
ghost use Rattle.pl_laws.specs.PermutedLaws.{AgreeingWorldsAreAlike, OrderChangesNothing};
ghost use Rattle.pl_laws.specs.PermutedLaws.{TableRowsInAnyOrder};
ghost use Rattle.pl_laws.specs.LowLaws.{StartsAreFirst, ReachesRise, ReachIsEnough, LowsCover, ReachesCover, ReachesMeet};
ghost use Rattle.pl_laws.specs.DateLaws.{DatesAreRead, DatesAreWritten, DaysHaveOneDate};
ghost use Rattle.pl_laws.specs.SeenLaws.{SeenAgree, NodesAreSeen, SeenFromItself, SteadyTermsStay};
ghost use Rattle.pl_laws.specs.SeenLaws.{StillAssetsStay, StretchesHold, QuietAssetsAreStill};
ghost use Rattle.pl_laws.specs.SeenLaws.{LatestIsTheColumn, SeenIsAsIf, ConesAreNeeded, ConesAreListed};
ghost use Rattle.pl_laws.specs.SeenLaws.{DepthsAreGreatest, SteadyWindowsHaveNoCones};
ghost use Rattle.pl_laws.specs.SidLaws.{SidsAreRead};

/// The rounded quotient is the one nearest number.
pub fn rounding_is_exact()
    ensures { RoundingIsExact }
{}

/// What came to be known later changes no value.
pub fn values_agree()
    ensures { ValuesAgree }
{}

/// A buffered row follows the sessions by the new events alone.
pub fn buffer_steps()
    ensures { BufferSteps }
{}

/// A ratio acts on all buffered rows alike, and all have the same steps.
pub fn bars_are_alike()
    ensures { BarsAreAlike }
{}

/// A numbered term has the value that its node gives over lower numbers.
pub fn nodes_unfold()
    ensures { NodesUnfold }
{}

/// What came to be known later changes no row.
pub fn tables_agree()
    ensures { TablesAgree }
{}

/// The world as of a session agrees with the whole up to it.
pub fn as_of_agrees()
    ensures { AsOfAgrees }
{}

/// The world as of a session has the rows of the whole up to it.
pub fn tables_as_of()
    ensures { TablesAsOf }
{}

/// The parts that are known by a session make the world as of it.
pub fn parts_as_of()
    ensures { PartsAsOf }
{}

/// Worlds in which whatever is looked up is the same have the same tables.
pub fn agreeing_worlds_are_alike()
    ensures { AgreeingWorldsAreAlike }
{}

/// Rows of data in another order change nothing that is looked up.
pub fn order_changes_nothing()
    ensures { OrderChangesNothing }
{}

/// Rows of adjustment tables in another order are the same adjustments of each asset, where no two rows of a
/// table are of one asset and one day.
pub fn table_rows_in_any_order()
    ensures { TableRowsInAnyOrder }
{}

/// No two numbers of a graph have one tree.
pub fn terms_are_distinct()
    ensures { TermsAreDistinct }
{}

/// The adjustments by day are one list.
pub fn order_is_one()
    ensures { OrderIsOne }
{}

/// Adjustments may be brought into their order before others come after them.
pub fn order_is_kept()
    ensures { OrderIsKept }
{}

/// The root is the one greatest number whose square fits.
pub fn root_is_greatest()
    ensures { RootIsGreatest }
{}

/// The list of used terms has exactly the used ones.
pub fn used_are_listed()
    ensures { UsedAreListed }
{}

/// An asset without adjustments is seen as its bars are written.
pub fn raw_without_events()
    ensures { RawWithoutEvents }
{}

/// A window of one session over a term is the term's value.
pub fn window_of_one()
    ensures { WindowOfOne }
{}

/// A mask that every existing asset passes changes no value.
pub fn open_masks_change_nothing()
    ensures { OpenMasksChangeNothing }
{}

/// No bar before a term's reach counts for its value.
pub fn reach_is_enough()
    ensures { ReachIsEnough }
{}

/// What came to be known later changes nothing that is seen from an earlier session.
pub fn seen_agree()
    ensures { SeenAgree }
{}

/// A numbered term, as it is seen, has the value that its node gives over lower numbers, as they are seen.
pub fn nodes_are_seen()
    ensures { NodesAreSeen }
{}

/// From its own session a term is seen as it is.
pub fn seen_from_itself()
    ensures { SeenFromItself }
{}

/// A term that keeps its values, or is of such terms alone, is the same from wherever it is seen.
pub fn steady_terms_stay()
    ensures { SteadyTermsStay }
{}

/// While an asset's bars stand still, so do the values of its terms.
pub fn still_assets_stay()
    ensures { StillAssetsStay }
{}

/// On a stretch of sessions without adjustments the part of a window before it is seen as on its first
/// session, and the part on it is as it is.
pub fn stretches_hold()
    ensures { StretchesHold }
{}

/// An asset without adjustments between two sessions stands still between them.
pub fn quiet_assets_are_still()
    ensures { QuietAssetsAreStill }
{}

/// A window over the latest cells of a column is the window over the column, while the asset exists.
pub fn latest_is_the_column()
    ensures { LatestIsTheColumn }
{}

/// What is computed anew, and what that reads, is computed in any case.
pub fn cones_are_needed()
    ensures { ConesAreNeeded }
{}

/// The lists of what is computed anew, and of what that reads, have exactly their terms.
pub fn cones_are_listed()
    ensures { ConesAreListed }
{}

/// The listed depths are the greatest.
pub fn depths_are_greatest()
    ensures { DepthsAreGreatest }
{}

/// Where all windows hold bars or steady terms, nothing is computed anew.
pub fn steady_windows_have_no_cones()
    ensures { SteadyWindowsHaveNoCones }
{}

/// What is seen from a session is what would have been, had the bars been as they are seen on it.
pub fn seen_is_as_if()
    ensures { SeenIsAsIf }
{}

/// A period starts with the first session of it, and later sessions are of no earlier period.
pub fn starts_are_first()
    ensures { StartsAreFirst }
{}

/// A term reaches no farther back for a later session.
pub fn reaches_rise()
    ensures { ReachesRise }
{}

/// What a computed session reads of a term is computed.
pub fn lows_cover()
    ensures { LowsCover }
{}

/// Neither a session nor a bar that is needed lies before the least reach.
pub fn reaches_cover()
    ensures { ReachesCover }
{}

/// A term reaches exactly as far as what some needed term reads itself.
pub fn reaches_meet()
    ensures { ReachesMeet }
{}

/// A range that is run in pieces gives the rows of the whole.
pub fn tables_concatenate()
    ensures { TablesConcatenate }
{}

/// The raw cell of an asset and session is that of its bar.
pub fn bars_are_found()
    ensures { BarsAreFound }
{}

/// The label of an asset is that of the row that started last.
pub fn labels_are_found()
    ensures { LabelsAreFound }
{}

/// A text is read as a day exactly where it is the date of that day.
pub fn dates_are_read()
    ensures { DatesAreRead }
{}

/// The text of a day is its date.
pub fn dates_are_written()
    ensures { DatesAreWritten }
{}

/// A day has no other date, and there are no dates of other days.
pub fn days_have_one_date()
    ensures { DaysHaveOneDate }
{}

/// A text is read as a sid exactly where it is the text of that number.
pub fn sids_are_read()
    ensures { SidsAreRead }
{}
