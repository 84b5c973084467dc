//! What adjustments are, in plain words. The functions do nothing: the contract of each is a law of
//! the definitions that the contracts of the calls cite.

ghost use Rattle.std.specs.Prelude.{◌≡◌, ◌↔◌, ◌∷◌, ◌<◌, ◌==◌, ℕ, ℤ, All, AllPairs, Some, Ok, Err};
ghost use Rattle.std.specs.Prelude.{List, IsPermutation, filter, length, map, slice_get};
ghost use Rattle.pl_spec.specs.declared.AssetRow.{AssetRow};
ghost use Rattle.pl_spec.specs.declared.BarRow.{BarRow};
ghost use Rattle.pl_spec.specs.declared.RawAdjust.{RawAdjust};
ghost use Rattle.pl_spec.specs.Order.{adjustments_of, with_revisions};
ghost use Rattle.pl_spec.specs.Parts.{ColumnAdjustment, ColumnLabel, ColumnNumber, world_of};
ghost use Rattle.pl_spec.specs.World.{events_of};
ghost use Rattle.pl_records.specs.Reading as reading;
ghost use Rattle.pl_records.specs.Reading.{Judges, Record};
ghost use Rattle.pl_records.specs.RuleTable.{IsFirstBroken};
ghost use Rattle.pl_calendar.specs.Days.{AreDays};
ghost use Rattle.pl_lifetimes.specs.Assets.{AreAssets};
ghost use Rattle.pl_adjust.specs.declared.revisions.Revision.{Revision};
ghost use Rattle.pl_adjust.specs.Columns.{events_at};
ghost use Rattle.pl_adjust.specs.Revised.{AreKnown, ChangeAlike, revised, revised_by, revised_in};
ghost use Rattle.pl_adjust.specs.Revisions.{DataFault, revisions_of, rules, revision_or_rule};
ghost use Rattle.pl_adjust.specs.RevisionRules.{AreRevisionsOf, Breaks, IsNext, IsRevisionsFault};
ghost use Rattle.pl_adjust.specs.Rules.{AreRight, IsFirstFault};
ghost use Rattle.pl_adjust.specs.Tables.{adjustments_in};
ghost use Rattle.pl_adjust.specs.Walk.{Fault, walk};

/// Three tables have adjustments exactly where each of their rows is right. They have a fault
/// exactly where a row breaks that rule and none that is tested before it, and the rows before
/// it are right.
pub fn tables_in_plain_words()
    ensures right { (assets : List AssetRow) (splits mergers dividends : List RawAdjust)
        → ((xs : List ColumnAdjustment) × (adjustments_in assets splits mergers dividends ≡ Ok xs))
        ↔ AreRight (walk splits mergers dividends) }
    ensures fault { (assets : List AssetRow) (splits mergers dividends : List RawAdjust)
        → (fault : Fault) → (adjustments_in assets splits mergers dividends ≡ Err fault)
        ↔ IsFirstFault (walk splits mergers dividends) fault }
{}

/// In a world of parts the adjustments of an asset are those of its column.
pub fn columns_are_sids()
    ensures { (days : List ℤ) (assets : List AssetRow) (labels : List ColumnLabel)
        (texts : List (List ℕ)) (bars : List BarRow) (xs : List ColumnAdjustment)
        (numbers : List ColumnNumber)
        → AllPairs (λ a b. a.sid < b.sid) assets → All (λ x. x.col < length assets) xs
        → (col : ℕ) (a : AssetRow) → slice_get assets col ≡ Some a
        → events_of (world_of days assets labels texts bars xs numbers) a.sid ≡ events_at xs col }
{}

/// In a world of parts whose adjustments are those of three tables, each sid has the adjustments of
/// the tables' rows with that sid in the order in which they act, and no others.
pub fn tables_are_kept()
    ensures { (days : List ℤ) (assets : List AssetRow) (labels : List ColumnLabel)
        (texts : List (List ℕ)) (bars : List BarRow)
        (splits mergers dividends : List RawAdjust) (xs : List ColumnAdjustment) (numbers : List ColumnNumber)
        → AllPairs (λ a b. a.sid < b.sid) assets
        → adjustments_in assets splits mergers dividends ≡ Ok xs
        → (sid : ℕ) → events_of (world_of days assets labels texts bars xs numbers) sid
        ≡ map (λ x. x.event)
        (filter (λ x. x.sid == sid) (adjustments_of assets splits mergers dividends)) }
{}

/// With the revisions of assets beside them, each sid has the adjustments of the tables' rows with that sid
/// and its revisions in the order in which they act, and no others.
pub fn revisions_are_kept()
    ensures { (days : List ℤ) (assets : List AssetRow) (labels : List ColumnLabel)
        (texts : List (List ℕ)) (bars : List BarRow)
        (splits mergers dividends : List RawAdjust) (xs : List ColumnAdjustment)
        (revisions : List Revision) (numbers : List ColumnNumber)
        → AllPairs (λ a b. a.sid < b.sid) assets
        → adjustments_in assets splits mergers dividends ≡ Ok xs → AreKnown assets revisions
        → (sid : ℕ)
        → events_of (world_of days assets labels texts bars (revised_by assets xs revisions) numbers) sid
        ≡ map (λ x. x.event) (filter (λ x. x.sid == sid)
        (with_revisions (adjustments_of assets splits mergers dividends) (map revised revisions))) }
{}

/// A file is read as revisions exactly where it has its header and each further record is the revision of an
/// asset's bar on a session, known later than on its day, not below 0, the only one of that cell and known
/// day; they stand in the order of the file. It has a fault exactly where the header is missing, or where
/// that record breaks that rule and no earlier one, and the records before it are revisions.
pub fn revisions_in_plain_words()
    ensures record { (days : List ℤ) (assets : List AssetRow) → AreDays days → AreAssets assets
        → Judges (IsNext days assets) (λ before r. IsFirstBroken rules (Breaks days assets before r))
        (revision_or_rule days assets) }
    ensures revisions { (days : List ℤ) (assets : List AssetRow) → AreDays days → AreAssets assets
        → (records : List Record) (rows : List Revision) → (revisions_of days assets records ≡ Ok rows)
        ↔ AreRevisionsOf days assets records rows }
    ensures fault { (days : List ℤ) (assets : List AssetRow) → AreDays days → AreAssets assets
        → (records : List Record) (fault : reading.Fault DataFault)
        → (revisions_of days assets records ≡ Err fault)
        ↔ IsRevisionsFault days assets records fault }
{}

/// Records after the first, the header, are in another order read as the same revisions in some order. Beside
/// the same adjustments they do the same to each cell, whenever it is seen.
pub fn revisions_in_any_order()
    ensures revisions { (days : List ℤ) (assets : List AssetRow) (first : Record)
        (records others : List Record) → IsPermutation records others
        → (rows : List Revision) → revisions_of days assets (first ∷ records) ≡ Ok rows
        → (found : List Revision) × (revisions_of days assets (first ∷ others) ≡ Ok found)
        × IsPermutation rows found }
    ensures cells { (days : List ℤ) (assets : List AssetRow) → AreDays days → AreAssets assets
        → (first : Record) (records others : List Record) → IsPermutation records others
        → (old xs : List ColumnAdjustment) → revised_in days assets old (first ∷ records) ≡ Ok xs
        → (ys : List ColumnAdjustment) × (revised_in days assets old (first ∷ others) ≡ Ok ys)
        × ChangeAlike xs ys }
{}
