//! Rows of cells, one for each asset: who is kept, and what is given for all, kept or not.
ghost use Rattle.std.specs.Prelude.{◌≡◌, ◌<◌, ℕ, true, pos, get_or, length, IfSome};
ghost use Rattle.pl_spec.specs.Rounding.{IsCell};
ghost use Rattle.pl_terms.specs.Kinds.{kind_of};
ghost use Rattle.pl_assets.specs.Labels.{label_on};
ghost use Rattle.pl_numbers.specs.Numbers.{number_on};
ghost use Rattle.pl_cross.specs.Arrays.{sid_in};
ghost use Rattle.pl_cross.specs.Listing.{labels_in};
ghost use Rattle.pl_values.specs.Arrays.{IsKeep};
ghost use Rattle.pl_values.specs.Families.{is_sids, label_code, sid_flag};
ghost use Rattle.pl_daily.specs.Rows.{is_kept_by, rows_lent, sids_of};

use pl_assets::{Assets, Labels};
use pl_fixed::MISSING;
use pl_numbers::Numbers;
use pl_terms::{Figure, TermKind};
use pl_values::{is_one, label_value, sids_value, truth_of};

/// Whether the asset in a place lives on the day and passes the mask.
pub fn is_kept(assets: &Assets, day: i32, mask: Option<&[i64]>, i: usize) -> bool
    requires asset { i < length assets.now }
    requires mask { IfSome mask (λ m. i < length m.now) }
    ensures { result ≡ is_kept_by assets.now day (labels_in mask.entry) i }
{
    let lives = assets.exists(i, day);
    match mask {
        None => lives,
        Some(cells) => lives && is_one(cells[i]),
    }
}

/// Who lives on the day and passes the mask.
pub(crate) fn keep_row(assets: &Assets, day: i32, mask: Option<&[i64]>, keep: &mut [i64])
    requires long { length keep.old ≡ length assets.now }
    requires mask { IfSome mask (λ m. length m.now ≡ length assets.now) }
    ensures { IsKeep (is_kept_by assets.now day (labels_in mask.entry)) (length assets.now)
        keep.new }
{
    for i in 0..keep.len() {
        keep[i] = truth_of(is_kept(assets, day, mask, i));
    }
}

/// Whether the sids are in the kind's list.
pub(crate) fn sids_row(kind: &TermKind, assets: &Assets, out: &mut [i64])
    requires kind { is_sids (kind_of kind.now) ≡ true }
    requires long { length out.old ≡ length assets.now }
    ensures length { length out.new ≡ length out.old }
    ensures each { (i : ℕ) → i < length out.old
        → get_or out.new i (pos 0) ≡ sid_flag (kind_of kind.now) (sid_in (sids_of assets.now) i) }
{
    for i in 0..out.len() {
        out[i] = sids_value(kind, assets.sid(i));
    }
}

/// Labels under a name by their codes.
pub(crate) fn label_row(labels: &Labels, name: &[u8], day: i32, out: &mut [i64])
    ensures length { length out.new ≡ length out.old }
    ensures each { (i : ℕ) → i < length out.old
        → get_or out.new i (pos 0) ≡ label_code labels.now.texts (label_on labels.now.rows name.now i day) }
    ensures cells { (i : ℕ) → i < length out.old → IsCell (get_or out.new i (pos 0)) }
{
    let number = labels.name_of(name);
    for i in 0..out.len() {
        out[i] = label_value(labels, name, number, i, day);
    }
}

/// Numbers under a name, or their ages; where none are lent, all are missing.
pub(crate) fn known_row(
    numbers: Option<&Numbers>,
    figure: Figure,
    name: &[u8],
    day: i32,
    out: &mut [i64],
)
    ensures length { length out.new ≡ length out.old }
    ensures each { (i : ℕ) → i < length out.old
        → get_or out.new i (pos 0) ≡ number_on figure (rows_lent numbers.entry) name.now i day }
    ensures cells { (i : ℕ) → i < length out.old → IsCell (get_or out.new i (pos 0)) }
{
    match numbers {
        None => out.fill(MISSING),
        Some(lent) => lent_row(lent, figure, name, day, out),
    }
}

// The numbers of a table.
fn lent_row(numbers: &Numbers, figure: Figure, name: &[u8], day: i32, out: &mut [i64])
    ensures length { length out.new ≡ length out.old }
    ensures each { (i : ℕ) → i < length out.old
        → get_or out.new i (pos 0) ≡ number_on figure numbers.now.rows name.now i day }
    ensures cells { (i : ℕ) → i < length out.old → IsCell (get_or out.new i (pos 0)) }
{
    let number = numbers.name_of(name);
    for i in 0..out.len() {
        out[i] = numbers.number_under(figure, name, number, i, day);
    }
}
