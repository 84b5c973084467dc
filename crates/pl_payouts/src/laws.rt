//! What a payouts file says, in plain words. The functions do nothing: the contract of each is a law of the
//! definitions that the reader's contract cites.

ghost use Rattle.std.specs.Prelude.{◌≡◌, ◌↔◌, ◌∷◌, List, IsPermutation, Ok, Err};
ghost use Rattle.pl_spec.specs.declared.AssetRow.{AssetRow};
ghost use Rattle.pl_records.specs.Reading.{Record, Fault, Judges};
ghost use Rattle.pl_records.specs.RuleTable.{IsFirstBroken};
ghost use Rattle.pl_lifetimes.specs.Assets.{AreAssets};
ghost use Rattle.pl_payouts.specs.declared.reading.Dividend.{Dividend};
ghost use Rattle.pl_payouts.specs.Payouts.{DataFault, payouts_of, rules, dividend_or_rule};
ghost use Rattle.pl_payouts.specs.Rules.{ArePayoutsOf, Breaks, IsDividend, IsPayoutsFault};

/// A file is read as payouts exactly where it has its header and each further record is a payout of an asset,
/// above 0; they are in the order of the file. It has a fault exactly where the header is missing, or where
/// that record breaks that rule and no earlier one, and the records before it are payouts.
pub fn payouts_in_plain_words()
    ensures record { (assets : List AssetRow) → AreAssets assets
        → Judges (IsDividend assets) (λ before r. IsFirstBroken rules (Breaks assets before r))
        (dividend_or_rule assets) }
    ensures payouts { (assets : List AssetRow) → AreAssets assets → (records : List Record)
        (rows : List Dividend) → (payouts_of assets records ≡ Ok rows)
        ↔ ArePayoutsOf assets records rows }
    ensures fault { (assets : List AssetRow) → AreAssets assets → (records : List Record)
        (fault : Fault DataFault) → (payouts_of assets records ≡ Err fault)
        ↔ IsPayoutsFault assets records fault }
{}

/// Records after the first, the header, are in another order read as the same payouts in some order. Their
/// numbers go by that order.
pub fn payouts_in_any_order()
    ensures { (assets : List AssetRow) (first : Record) (records others : List Record)
        → IsPermutation records others
        → (rows : List Dividend) → payouts_of assets (first ∷ records) ≡ Ok rows
        → (found : List Dividend) × (payouts_of assets (first ∷ others) ≡ Ok found)
        × IsPermutation rows found }
{}
