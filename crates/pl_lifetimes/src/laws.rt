//! What an assets file says, in plain words. The functions do nothing: the contract of each is a law of
//! the definitions that the calls' contracts cite.

ghost use Rattle.std.specs.Prelude.{◌≡◌, ◌↔◌, ◌∷◌, List, IsPermutation, Ok, Err};
ghost use Rattle.pl_spec.specs.declared.AssetRow.{AssetRow};
ghost use Rattle.pl_records.specs.Reading.{Record, Fault, Judges};
ghost use Rattle.pl_records.specs.RuleTable.{IsFirstBroken};
ghost use Rattle.pl_lifetimes.specs.Assets.{DataFault, assets_of, rules, asset_or_rule};
ghost use Rattle.pl_lifetimes.specs.Rules.{AreAssetsOf, Breaks, IsAsset, IsAssetsFault};

/// A file is read as assets exactly where it has its header and each further record is an asset with a sid of
/// its own; they are by ascending sid. It has a fault exactly where the header is missing, or where that
/// record breaks that rule and no earlier one, and the records before it are assets.
pub fn assets_in_plain_words()
    ensures record { Judges IsAsset (λ before r. IsFirstBroken rules (Breaks before r)) asset_or_rule }
    ensures assets { (records : List Record) (assets : List AssetRow) → (assets_of records ≡ Ok assets)
        ↔ AreAssetsOf records assets }
    ensures fault { (records : List Record) (fault : Fault DataFault) → (assets_of records ≡ Err fault)
        ↔ IsAssetsFault records fault }
{}

/// Records after the first, the header, are in another order read as the same assets.
pub fn assets_in_any_order()
    ensures { (first : Record) (records others : List Record) → IsPermutation records others
        → (assets : List AssetRow) → assets_of (first ∷ records) ≡ Ok assets
        → assets_of (first ∷ others) ≡ Ok assets }
{}
