//! Which kinds move with the bars.
ghost use Rattle.std.specs.Prelude.{◌≡◌};
ghost use Rattle.pl_terms.specs.Kinds.{kind_of};
ghost use Rattle.pl_values.specs.Views.{keeps_kind};

use pl_terms::{TermKind, kind_row};

/// Does a term of the kind keep the values of its own sessions, from wherever it is seen? Formulas over
/// windows that give prices or volumes, and operations that give numbers, but a sign, do not.
pub fn keeps_values(kind: &TermKind) -> bool
    ensures { result ≡ keeps_kind (kind_of kind.now) }
{
    kind_row(kind).keeps_values
}
