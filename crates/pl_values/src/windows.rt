//! Formulas and filters over windows.
ghost use Rattle.std.specs.Prelude.{◌≡◌};
ghost use Rattle.pl_spec.specs.Rounding.{IsCell};
ghost use Rattle.pl_terms.specs.Kinds.{kind_of};
ghost use Rattle.pl_values.specs.Families.{TakesWindows, windowed};

use pl_factors::{formula, window_filter};
use pl_terms::TermKind;

/// What a formula or a filter gives over the windows of its inputs in order, each oldest first, of at most
/// 1,260 sessions; a window that the kind does not use is not read. A formula's value is a cell in
/// millionths, a filter's 1 or 0. It takes no memory.
#[tactic(auto, unfolding(pl_pipeline::specs::Formula::formula, pl_terms::specs::Kinds::kind_of))]
pub fn window_value(kind: &TermKind, a: &[i64], b: &[i64], c: &[i64]) -> i64
    requires { TakesWindows (kind_of kind.now) a.now b.now c.now }
    ensures value { result ≡ windowed (kind_of kind.now) a.now b.now c.now }
    ensures cell { IsCell result }
{
    match kind {
        TermKind::All | TermKind::Any | TermKind::AtLeastN { .. } | TermKind::AllPresent => {
            window_filter(kind, a)
        }
        _ => formula(kind, a, b, c),
    }
}
