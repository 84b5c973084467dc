//! What a labels file says, in plain words, what the labels of a table are in a world, and what their
//! fields are. The functions do nothing: the contract of each is a law of the
//! definitions that the calls' contracts cite.

ghost use Rattle.std.specs.Prelude.{◌≡◌, ◌↔◌, ◌∷◌, ℕ, List, IsPermutation, Ok, Err};
ghost use Rattle.csv.specs.Writing.{default_writer, field_text};
ghost use Rattle.pl_spec.specs.declared.AssetRow.{AssetRow};
ghost use Rattle.pl_records.specs.Reading.{Record, Fault, Judges};
ghost use Rattle.pl_records.specs.RuleTable.{IsFirstBroken};
ghost use Rattle.pl_spec.specs.Lines.{quote};
ghost use Rattle.pl_lifetimes.specs.Assets.{AreAssets};
ghost use Rattle.pl_assets.specs.Labels as labels;
ghost use Rattle.pl_assets.specs.LabelRules as label_rules;
ghost use Rattle.pl_assets.specs.LabelWorlds.{LabelsAreThose};

/// A file is read as labels exactly where it has its header and each further record is a label of an asset,
/// the only one of its name, asset and start; they are in the order of the file. It has a fault exactly where
/// the header is missing, or where that record breaks that rule and no earlier one, and the records before it
/// are labels.
pub fn labels_in_plain_words()
    ensures record { (assets : List AssetRow) → AreAssets assets
        → Judges (label_rules.IsLabel assets)
        (λ before r. IsFirstBroken labels.rules (label_rules.Breaks assets before r))
        (labels.label_or_rule assets) }
    ensures labels { (assets : List AssetRow) → AreAssets assets → (records : List Record)
        (table : labels.LabelTable) → (labels.labels_of assets records ≡ Ok table)
        ↔ label_rules.AreLabelsOf assets records table }
    ensures fault { (assets : List AssetRow) → AreAssets assets → (records : List Record)
        (fault : Fault labels.DataFault) → (labels.labels_of assets records ≡ Err fault)
        ↔ label_rules.IsLabelsFault assets records fault }
{}

/// Records after the first, the header, are in another order read as the same rows in some order. The texts
/// may have other codes, which go by that order.
pub fn labels_in_any_order()
    ensures { (assets : List AssetRow) (first : Record) (records others : List Record)
        → IsPermutation records others
        → (table : labels.LabelTable) → labels.labels_of assets (first ∷ records) ≡ Ok table
        → (other : labels.LabelTable) × (labels.labels_of assets (first ∷ others) ≡ Ok other)
        × IsPermutation table.rows other.rows }
{}

/// In a world of parts the label of an asset on a session is that of its column on the session's
/// day.
pub fn labels_are_those_of_the_world()
    ensures { LabelsAreThose }
{}

/// The field of a text is what the crate csv writes for it in a row of several fields.
pub fn fields_are_those_of_csv()
    ensures { (text : List ℕ) → quote text ≡ field_text default_writer text }
{}
