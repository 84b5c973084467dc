//! Operations on the values of one place.
ghost use Rattle.std.specs.Prelude.{◌≡◌, [], ◌∷◌};
ghost use Rattle.pl_spec.specs.Rounding.{IsCell};
ghost use Rattle.pl_terms.specs.Kinds.{kind_of};
ghost use Rattle.pl_pointwise.specs.Operands.{IsOperation, AreOperands, operation};

use pl_pointwise::pointwise;
use pl_terms::TermKind;

/// What an operation gives on the values of its operands in order; one that the kind does not use is not
/// read. A factor's value is in millionths, a filter's 1 or 0, a classifier's its number or code; a missing
/// one is `MISSING`. It is `pointwise` at one place.
pub fn point_value(kind: &TermKind, x: i64, y: i64, z: i64) -> i64
    requires kind { IsOperation (kind_of kind.now) }
    requires operands { AreOperands (kind_of kind.now) (x ∷ []) (y ∷ []) (z ∷ []) 1 }
    ensures value { result ≡ operation (kind_of kind.now) x y z }
    ensures cell { IsCell result }
{
    let mut out = [0];
    pointwise(kind, &[x], &[y], &[z], &mut out);
    out[0]
}
