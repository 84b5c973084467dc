//! Labels as their codes, and the tests of the texts that they stand for.
ghost use Rattle.std.specs.Prelude.{◌≡◌, ◌<◌, ℕ, bytes_eq, get_or, length, pos, position, true};
ghost use Rattle.pl_terms.specs.Kinds.{kind_of};
ghost use Rattle.pl_spec.specs.Rounding.{IsCell};
ghost use Rattle.pl_assets.specs.Labels.{label_on, names_of};
ghost use Rattle.pl_values.specs.Families.{IsCode, code_cell, code_flag, is_label_test, label_code};

use crate::keeping::truth_of;
use pl_assets::Labels;
use pl_factors::label_test;
use pl_fixed::MISSING;
use pl_terms::TermKind;

/// The label of the asset in a column, under a name on a day counted from 1970-01-01, as arrays hold it: its
/// code, `MISSING` for none. `number` is the name's number among the labels, as `Labels::name_of` gives it.
pub fn label_value(labels: &Labels, name: &[u8], number: Option<u32>, col: usize, day: i32) -> i64
    requires { number ≡ position (bytes_eq name.now) (names_of labels.now.rows) }
    ensures value { result ≡ label_code labels.now.texts (label_on labels.now.rows name.now col day) }
    ensures code { IsCode labels.now.texts result }
    ensures cell { IsCell result }
{
    match number {
        Some(number) => code_value(labels.label_at(number, col, day)),
        None => MISSING,
    }
}

/// Whether the label of a code passes the test: 1 or 0, and 0 for `MISSING`, which is no label.
pub fn label_test_value(kind: &TermKind, labels: &Labels, code: i64) -> i64
    requires kind { is_label_test (kind_of kind.now) ≡ true }
    requires code { IsCode labels.now.texts code }
    ensures { result ≡ code_flag labels.now.texts (kind_of kind.now) code }
{
    let _rows = labels.len();
    if code == MISSING {
        0
    } else {
        truth_of(label_test(kind, labels.text(code as u32)))
    }
}

/// Whether the labels of codes pass the test, one after the other.
pub fn label_test_values(kind: &TermKind, labels: &Labels, codes: &[i64], out: &mut [i64])
    requires kind { is_label_test (kind_of kind.now) ≡ true }
    requires codes { (i : ℕ) → i < length codes.now → IsCode labels.now.texts (get_or codes.now i (pos 0)) }
    requires many { length codes.now ≡ length out.old }
    ensures length { length out.new ≡ length out.old }
    ensures each { (i : ℕ) → i < length out.old → get_or out.new i (pos 0)
        ≡ code_flag labels.now.texts (kind_of kind.now) (get_or codes.now i (pos 0)) }
{
    for i in 0..out.len() {
        out[i] = label_test_value(kind, labels, codes[i]);
    }
}

// A code as a cell.
fn code_value(code: Option<u32>) -> i64
    ensures { result ≡ code_cell code }
{
    match code {
        Some(code) => code as i64,
        None => MISSING,
    }
}
