//! What a numbers file says, in plain words, what the numbers of a table are, and that none looks ahead. The
//! functions do nothing: the contract of each is a law of the definitions that the calls' contracts cite.

ghost use Rattle.std.specs.Prelude.{◌≡◌, ◌↔◌, ◌∷◌, List, IsPermutation, Ok, Err};
ghost use Rattle.pl_spec.specs.Numbers.{NumbersAreFound, NumbersLookBack};
ghost use Rattle.pl_spec.specs.declared.AssetRow.{AssetRow};
ghost use Rattle.pl_records.specs.Reading.{Record, Fault, Judges};
ghost use Rattle.pl_records.specs.RuleTable.{IsFirstBroken};
ghost use Rattle.pl_lifetimes.specs.Assets.{AreAssets};
ghost use Rattle.pl_numbers.specs.Numbers as numbers;
ghost use Rattle.pl_numbers.specs.NumberRules as number_rules;
ghost use Rattle.pl_numbers.specs.NumberLaws.{KnownAreThose, NumbersAreThose};

/// A file is read as numbers exactly where it has its header and each further record is a number of
/// an asset, the only one of its name, asset and day; they stand by name, column and day. It has a
/// fault exactly where the header is missing, or where that record breaks that rule and no earlier
/// one, and the records before it are numbers.
pub fn numbers_in_plain_words()
    ensures record { (assets : List AssetRow) → AreAssets assets
        → Judges (number_rules.IsNumber assets)
        (λ before r. IsFirstBroken numbers.rules (number_rules.Breaks assets before r))
        (numbers.number_or_rule assets) }
    ensures numbers { (assets : List AssetRow) → AreAssets assets → (records : List Record)
        (table : numbers.NumberTable) → (numbers.numbers_of assets records ≡ Ok table)
        ↔ number_rules.AreNumbersOf assets records table }
    ensures fault { (assets : List AssetRow) → AreAssets assets → (records : List Record)
        (fault : Fault numbers.DataFault) → (numbers.numbers_of assets records ≡ Err fault)
        ↔ number_rules.IsNumbersFault assets records fault }
{}

/// Records after the first, the header, are in another order read as the same rows in some order. The names
/// may have other numbers, which go by that order.
pub fn numbers_in_any_order()
    ensures { (assets : List AssetRow) (first : Record) (records others : List Record)
        → IsPermutation records others
        → (table : numbers.NumberTable) → numbers.numbers_of assets (first ∷ records) ≡ Ok table
        → (other : numbers.NumberTable) × (numbers.numbers_of assets (first ∷ others) ≡ Ok other)
        × IsPermutation table.rows other.rows }
{}

/// The number of a column is that of the column's sid.
pub fn numbers_are_those_of_the_sids()
    ensures { NumbersAreThose }
{}

/// The day from which the number of a column was known is that of the column's sid.
pub fn known_days_are_those_of_the_sids()
    ensures { KnownAreThose }
{}

/// The number on a day is the value of the one row that was known last.
pub fn numbers_are_found()
    ensures { NumbersAreFound }
{}

/// Rows that were known later change nothing, nor does the order of rows.
pub fn numbers_look_back()
    ensures { NumbersLookBack }
{}
