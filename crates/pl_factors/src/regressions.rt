//! The correlation and the regression over windows, from the sums of their pairs.

ghost use Rattle.std.specs.Prelude.{◌≡◌, ◌+◌, ◌<◌, ◌≤◌, ℤ, List, true, length};
ghost use Rattle.std.specs.List.{All};
ghost use Rattle.pl_spec.specs.Limits.{most_window};
ghost use Rattle.pl_spec.specs.Rounding.{IsCell};
ghost use Rattle.pl_terms.specs.Kinds.{kind_of};
ghost use Rattle.pl_regression.specs.Sums.{AreSums};
ghost use Rattle.pl_factors.specs.Kinds.{formula_of};
ghost use Rattle.pl_factors.specs.Lanes.{AreGiven};
ghost use Rattle.pl_factors.specs.Regressions.{is_regression, regression_of, regression_at};

use crate::lanes::window_at;
use pl_regression::{PairSums, correlation, covariance, intercept, slope, slope_error};
use pl_terms::TermKind;

// Is the kind computed from the sums of pairs?
#[tactic(auto, unfolding(pl_terms::specs::Kinds::kind_of))]
pub(crate) fn is_regression(kind: &TermKind) -> bool
    ensures { result ≡ is_regression (kind_of kind.now) }
{
    matches!(
        kind,
        TermKind::Correlation
            | TermKind::Covariance
            | TermKind::RegressionSlope
            | TermKind::RegressionIntercept
            | TermKind::RegressionError
    )
}

// What such a kind gives.
#[tactic(auto, unfolding(pl_terms::specs::Kinds::kind_of, crate::specs::Regressions::regression_of))]
fn regression(kind: &TermKind, sums: &PairSums) -> i64
    requires kind { is_regression (kind_of kind.now) ≡ true }
    requires sums { AreSums sums.now }
    ensures value { result ≡ regression_of (kind_of kind.now) sums.now }
    ensures cell { IsCell result }
{
    match kind {
        TermKind::Correlation => correlation(sums),
        TermKind::Covariance => covariance(sums),
        TermKind::RegressionSlope => slope(sums),
        TermKind::RegressionIntercept => intercept(sums),
        TermKind::RegressionError => slope_error(sums),
        _ => unreachable!(),
    }
}

// The value over the windows of the two inputs: of the first by the second.
pub(crate) fn regression_over(kind: &TermKind, a: &[i64], b: &[i64]) -> i64
    requires kind { is_regression (kind_of kind.now) ≡ true }
    requires cells { All IsCell a.now }
    requires others { All IsCell b.now }
    requires few { length a.now ≤ most_window }
    requires paired { length b.now ≡ length a.now }
    ensures value { (c : List ℤ) → result ≡ formula_of (kind_of kind.now) a.now b.now c }
    ensures cell { IsCell result }
{
    regression(kind, &PairSums::of_windows(b, a))
}

// The values, each from the sums of the windows before.
pub(crate) fn fill_regressions(kind: &TermKind, size: usize, a: &[i64], b: &[i64], out: &mut [i64])
    requires kind { is_regression (kind_of kind.now) ≡ true }
    requires cells { All IsCell a.now }
    requires others { All IsCell b.now }
    requires some { 1 ≤ size }
    requires few { size ≤ most_window }
    requires windows { 0 < length out.old }
    requires long { size + length out.old ≤ length a.now + 1 }
    requires other_long { size + length out.old ≤ length b.now + 1 }
    ensures { AreGiven (regression_at (kind_of kind.now) size a.now b.now) (length out.old) out.new }
{
    let mut sums = PairSums::of_windows(window_at(b, 0, size), window_at(a, 0, size));
    out[0] = regression(kind, &sums);
    for k in 1..out.len() {
        let a_span = window_at(a, k - 1, size + 1);
        let b_span = window_at(b, k - 1, size + 1);
        sums.slide(b_span, a_span);
        out[k] = regression(kind, &sums);
    }
}
