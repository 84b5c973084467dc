//! How far cells lie from their mean.

ghost use Rattle.std.specs.Prelude.{◌≡◌, ◌≤◌, length};
ghost use Rattle.std.specs.List.{All};
ghost use Rattle.pl_spec.specs.Limits.{most_window};
ghost use Rattle.pl_spec.specs.Rounding.{IsCell, mul};
ghost use Rattle.pl_pipeline.specs.Formula.{mean, deviation};
ghost use Rattle.pl_factors.specs.Kept.{spreads};
ghost use Rattle.pl_factors.specs.Laws.{shifted};

use crate::deviations::deviation_of;
use crate::running::Running;
use crate::values::mean;
use pl_fixed::{add, mul, sub};

// The root of the mean square of what lies between the present cells and their rounded mean, rounded down.
pub(crate) fn deviation(kept: &Running, a: &[i64]) -> i64
    requires cells { All IsCell a.now }
    requires few { length a.now ≤ most_window }
    requires stands { kept.now ≡ spreads a.now }
    ensures value { result ≡ deviation a.now }
    ensures cell { IsCell result }
{
    deviation_of(kept.main, kept.beside, kept.number, a)
}

// The mean less `k` deviations where `lower` is true, else with them.
pub(crate) fn bollinger(lower: bool, kept: &Running, a: &[i64], k: i64) -> i64
    requires cells { All IsCell a.now }
    requires few { length a.now ≤ most_window }
    requires factor { IsCell k }
    requires stands { kept.now ≡ spreads a.now }
    ensures value { result ≡ shifted lower (mean a.now) (mul k (deviation a.now)) }
    ensures cell { IsCell result }
{
    shifted(lower, mean(kept, a), mul(k, deviation(kept, a)))
}

fn shifted(less: bool, x: i64, y: i64) -> i64
    requires left { IsCell x }
    requires right { IsCell y }
    ensures value { result ≡ shifted less x y }
    ensures cell { IsCell result }
{
    if less { sub(x, y) } else { add(x, y) }
}
