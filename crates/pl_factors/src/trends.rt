//! The line through the cells of a window at their places, from the sums of their pairs.

ghost use Rattle.std.specs.Prelude.{◌≡◌, ◌+◌, ◌<◌, ◌≤◌, ℤ, List, true, length};
ghost use Rattle.std.specs.List.{All};
ghost use Rattle.pl_spec.specs.Limits.{most_window};
ghost use Rattle.pl_spec.specs.Rounding.{IsCell};
ghost use Rattle.pl_terms.specs.Kinds.{kind_of};
ghost use Rattle.pl_regression.specs.Sums.{AreSums};
ghost use Rattle.pl_factors.specs.Kinds.{formula_of};
ghost use Rattle.pl_factors.specs.Lanes.{AreGiven};
ghost use Rattle.pl_factors.specs.Trends.{is_trend, trend_of, trend_at, newest_residual};

use crate::changes::newest;
use crate::lanes::window_at;
use pl_fixed::MISSING;
use pl_regression::{PairSums, r_squared, residual, steepness};
use pl_terms::TermKind;

// Is the kind computed from the sums of cells at their places?
#[tactic(auto, unfolding(pl_terms::specs::Kinds::kind_of))]
pub(crate) fn is_trend(kind: &TermKind) -> bool
    ensures { result ≡ is_trend (kind_of kind.now) }
{
    matches!(
        kind,
        TermKind::WindowSlope | TermKind::WindowResidual | TermKind::WindowRSquared
    )
}

// What such a kind gives.
#[tactic(auto, unfolding(pl_terms::specs::Kinds::kind_of, crate::specs::Trends::trend_of))]
fn trend(kind: &TermKind, sums: &PairSums, a: &[i64]) -> i64
    requires kind { is_trend (kind_of kind.now) ≡ true }
    requires sums { AreSums sums.now }
    requires cells { All IsCell a.now }
    requires few { length a.now ≤ most_window }
    ensures value { result ≡ trend_of (kind_of kind.now) sums.now a.now }
    ensures cell { IsCell result }
{
    match kind {
        TermKind::WindowSlope => steepness(sums),
        TermKind::WindowResidual => newest_residual(sums, a),
        TermKind::WindowRSquared => r_squared(sums),
        _ => unreachable!(),
    }
}

// How far the newest cell lies above the line; `MISSING` where it is.
fn newest_residual(sums: &PairSums, a: &[i64]) -> i64
    requires sums { AreSums sums.now }
    requires cells { All IsCell a.now }
    requires few { length a.now ≤ most_window }
    ensures value { result ≡ newest_residual sums.now a.now }
    ensures cell { IsCell result }
{
    let last = newest(a);
    if last == MISSING {
        return MISSING;
    }
    residual(sums, a.len() as i64, last)
}

// The value over a window.
pub(crate) fn trend_over(kind: &TermKind, a: &[i64]) -> i64
    requires kind { is_trend (kind_of kind.now) ≡ true }
    requires cells { All IsCell a.now }
    requires few { length a.now ≤ most_window }
    ensures value { (b c : List ℤ) → result ≡ formula_of (kind_of kind.now) a.now b c }
    ensures cell { IsCell result }
{
    trend(kind, &PairSums::of_places(a), a)
}

// The values, each from the sums of the window before.
pub(crate) fn fill_trends(kind: &TermKind, size: usize, a: &[i64], out: &mut [i64])
    requires kind { is_trend (kind_of kind.now) ≡ true }
    requires cells { All IsCell a.now }
    requires some { 1 ≤ size }
    requires few { size ≤ most_window }
    requires windows { 0 < length out.old }
    requires long { size + length out.old ≤ length a.now + 1 }
    ensures { AreGiven (trend_at (kind_of kind.now) size a.now) (length out.old) out.new }
{
    let first = window_at(a, 0, size);
    let mut sums = PairSums::of_places(first);
    out[0] = trend(kind, &sums, first);
    for k in 1..out.len() {
        sums.slide_places(window_at(a, k - 1, size + 1));
        out[k] = trend(kind, &sums, window_at(a, k, size));
    }
}
