//! What a bars file says, in plain words, and what the cells of a table of bars are in a world. The
//! functions do nothing: the contract of each is a law of the definitions that the calls' contracts
//! cite.

ghost use Rattle.std.specs.Prelude.{◌≡◌, ◌↔◌, ◌∷◌, ℤ, List, IsPermutation, Ok, Err};
ghost use Rattle.pl_spec.specs.declared.AssetRow.{AssetRow};
ghost use Rattle.pl_spec.specs.declared.BarRow.{BarRow};
ghost use Rattle.pl_records.specs.Reading.{Record, Fault, Judges};
ghost use Rattle.pl_records.specs.RuleTable.{IsFirstBroken};
ghost use Rattle.pl_calendar.specs.Days.{AreDays};
ghost use Rattle.pl_lifetimes.specs.Assets.{AreAssets};
ghost use Rattle.pl_bars.specs.Bars.{bars_of, DataFault, rules, bar_or_rule};
ghost use Rattle.pl_bars.specs.Rules.{AreBarsOf, Breaks, IsBar, IsBarsFault};
ghost use Rattle.pl_bars.specs.Worlds.{CellsAreRaw};

/// A file is read as bars exactly where it has its header and each further record is the bar of an asset on a
/// session, the only one; they are by column and session. It has a fault exactly where the header is missing,
/// or where that record breaks that rule and no earlier one, and the records before it are bars.
pub fn bars_in_plain_words()
    ensures record { (days : List ℤ) (assets : List AssetRow) → AreDays days → AreAssets assets
        → Judges (IsBar days assets) (λ before r. IsFirstBroken rules (Breaks days assets before r))
        (bar_or_rule days assets) }
    ensures bars { (days : List ℤ) (assets : List AssetRow) → AreDays days → AreAssets assets
        → (records : List Record) (bars : List BarRow) → (bars_of days assets records ≡ Ok bars)
        ↔ AreBarsOf days assets records bars }
    ensures fault { (days : List ℤ) (assets : List AssetRow) → AreDays days → AreAssets assets
        → (records : List Record) (fault : Fault DataFault) → (bars_of days assets records ≡ Err fault)
        ↔ IsBarsFault days assets records fault }
{}

/// Records after the first, the header, are in another order read as the same bars.
pub fn bars_in_any_order()
    ensures { (days : List ℤ) (assets : List AssetRow) → AreDays days → (first : Record)
        (records others : List Record) → IsPermutation records others → (bars : List BarRow)
        → bars_of days assets (first ∷ records) ≡ Ok bars → bars_of days assets (first ∷ others) ≡ Ok bars }
{}

/// The cell of a table is the raw cell, of the column's sid, in the world that is made of the
/// table.
pub fn cells_are_raw()
    ensures { CellsAreRaw }
{}
