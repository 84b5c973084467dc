//! The filters over a window: how many of its values are true, or present.
ghost use Rattle.std.specs.Prelude.{◌≡◌, ◌≤◌, [], length, nat_le};
ghost use Rattle.std.specs.List.{All, count_by, list_all};
ghost use Rattle.pl_spec.specs.Limits.{most_window};
ghost use Rattle.pl_spec.specs.Rounding.{IsCell, is_present};
ghost use Rattle.pl_spec.specs.Cells.{present_values, total, count, truth, is_true};
ghost use Rattle.pl_pipeline.specs.Formula.{formula};
ghost use Rattle.pl_pipeline.specs.declared.WindowKind.TheVariants as window;
ghost use Rattle.pl_terms.specs.Kinds.{kind_of};
ghost use Rattle.pl_lanes.specs.Flags.{IsFlag};
ghost use Rattle.pl_factors.specs.Filters.{IsWindowFilter, AreValues, filtered};

use pl_lanes::sum_present;
use pl_terms::TermKind;

/// Whether all values of a window are true, any is, at least n are, or all are present: 1 or 0. It asks for
/// one of these kinds, and for a window of at most 1,260 values: 0 and 1 of a filter, and for `AllPresent`
/// cells. `All`, `Any` and `AtLeastN` are Zipline's filters of these names. It takes no memory.
#[tactic(auto, unfolding(pl_terms::specs::Kinds::kind_of))]
pub fn window_filter(kind: &TermKind, a: &[i64]) -> i64
    requires kind { IsWindowFilter (kind_of kind.now) }
    requires values { AreValues (kind_of kind.now) a.now }
    requires few { length a.now ≤ most_window }
    ensures value { result ≡ filtered (kind_of kind.now) a.now }
    ensures flag { IsFlag result }
{
    match kind {
        TermKind::All => at_least(a.len(), a),
        TermKind::Any => at_least(1, a),
        TermKind::AtLeastN { n } => at_least(*n as usize, a),
        TermKind::AllPresent => all_present(a),
        _ => unreachable!(),
    }
}

// Whether at least n values of a filter are true.
#[tactic(auto, unfolding(pl_pipeline::specs::Formula::formula))]
fn at_least(n: usize, flags: &[i64]) -> i64
    requires flags { All IsFlag flags.now }
    requires few { length flags.now ≤ most_window }
    ensures value { result ≡ formula (window.AtLeastN n) flags.now [] [] }
    ensures flag { IsFlag result }
{
    at_least_of(n, sum_present(flags).0, flags)
}

/// The same from the sum of the values.
pub fn at_least_of(n: usize, sum: i128, flags: &[i64]) -> i64
    requires flags { All IsFlag flags.now }
    requires few { length flags.now ≤ most_window }
    requires sum { sum ≡ total (present_values flags.now) }
    ensures value { result ≡ truth (nat_le n (count_by is_true flags.now)) }
    ensures flag { IsFlag result }
    ensures cell { IsCell result }
{
    if n <= true_count(sum, flags) { 1 } else { 0 }
}

// How many values of a filter are true: their sum.
fn true_count(sum: i128, flags: &[i64]) -> usize
    requires flags { All IsFlag flags.now }
    requires few { length flags.now ≤ most_window }
    requires sum { sum ≡ total (present_values flags.now) }
    ensures { result ≡ count_by is_true flags.now }
{
    sum as usize
}

// Whether no cell is missing.
#[tactic(auto, unfolding(pl_pipeline::specs::Formula::formula))]
fn all_present(cells: &[i64]) -> i64
    requires cells { All IsCell cells.now }
    requires few { length cells.now ≤ most_window }
    ensures value { result ≡ formula window.AllPresent cells.now [] [] }
    ensures flag { IsFlag result }
{
    all_present_of(sum_present(cells).1, cells)
}

/// The same from the number of the present cells.
pub fn all_present_of(number: usize, cells: &[i64]) -> i64
    requires number { number ≡ count cells.now }
    ensures value { result ≡ truth (list_all is_present cells.now) }
    ensures flag { IsFlag result }
    ensures cell { IsCell result }
{
    if number == cells.len() { 1 } else { 0 }
}
