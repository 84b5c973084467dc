//! The correlation and the regression, from the sums of pairs.

ghost use Rattle.std.specs.Prelude.{◌≡◌, ◌*◌, ◌-◌, ◌^◌, ◌<◌, unsigned_abs, IsTrue};
ghost use Rattle.pl_spec.specs.Rounding.{IsCell};
ghost use Rattle.pl_pipeline.specs.Formula.{correlation, covariance, slope, intercept, slope_error, root_quot};
ghost use Rattle.pl_regression.specs.Sums.{AreSums, AreShort};

use crate::pairs::PairSums;
use pl_fixed::{MISSING, neg};
use pl_wide::{Natural, Whole, quot, root_of_quotient, share_of_root, short_quot};

/// Pearson's correlation, in millionths; `MISSING` where all first or all second values are one.
pub fn correlation(sums: &PairSums) -> i64
    requires { AreSums sums.now }
    ensures value { result ≡ correlation sums.now }
    ensures cell { IsCell result }
{
    if sums.are_short() && sums.is_short_in_squares() {
        short_correlation(sums)
    } else {
        wide_correlation(sums)
    }
}

// The same in 128 bits, unless the spreads are too large for it, or there is none.
fn short_correlation(sums: &PairSums) -> i64
    requires sums { AreSums sums.now }
    requires short { AreShort sums.now }
    requires squares { unsigned_abs sums.now.yy < 2 ^ 113 }
    ensures value { result ≡ correlation sums.now }
    ensures cell { IsCell result }
{
    let x = sums.short_spread_x().unsigned_abs();
    let y = sums.short_spread_y().unsigned_abs();
    let joint = sums.short_joint_spread();
    let size = joint.unsigned_abs();
    if is_divisor(x) && is_divisor(y) && size < SHARE_END {
        let share = share_of_root(size, x, y);
        if joint < 0 { neg(share) } else { share }
    } else {
        wide_correlation(sums)
    }
}

// Is a spread one of values that are not all one, and small enough for a share?
fn is_divisor(spread: u128) -> bool
    ensures some { IsTrue result → 0 < spread }
    ensures small { IsTrue result → spread < 2 ^ 105 }
{
    spread > 0 && spread < SHARE_END
}

// The same in more.
fn wide_correlation(sums: &PairSums) -> i64
    requires { AreSums sums.now }
    ensures value { result ≡ correlation sums.now }
    ensures cell { IsCell result }
{
    let x = sums.spread_x();
    let y = sums.spread_y();
    let joint = sums.joint_spread();
    let square = joint.size().product(joint.size()).times(TRILLION);
    let size = root(&square, &x.size().product(y.size()));
    if joint.is_below() { neg(size) } else { size }
}

/// The covariance, over the number of pairs, in millionths; `MISSING` where there is no pair, or where it is
/// outside the range of cells.
pub fn covariance(sums: &PairSums) -> i64
    requires { AreSums sums.now }
    ensures value { result ≡ covariance sums.now }
    ensures cell { IsCell result }
{
    let number = sums.number() as u128;
    let divisor = Whole::new((number * number * 1_000_000) as i128);
    quot(&sums.joint_spread(), &divisor)
}

/// The slope of the line by least squares that gives the second values of the first, in millionths.
pub fn slope(sums: &PairSums) -> i64
    requires { AreSums sums.now }
    ensures value { result ≡ slope sums.now }
    ensures cell { IsCell result }
{
    if sums.are_short() {
        short_slope(sums)
    } else {
        wide_slope(sums)
    }
}

// The same in 128 bits, unless the rise is too large for it.
fn short_slope(sums: &PairSums) -> i64
    requires sums { AreSums sums.now }
    requires short { AreShort sums.now }
    ensures value { result ≡ slope sums.now }
    ensures cell { IsCell result }
{
    let joint = sums.short_joint_spread();
    if joint.unsigned_abs() < SHARE_END {
        short_quot(joint * MILLION, sums.short_spread_x())
    } else {
        wide_slope(sums)
    }
}

// The same in more.
fn wide_slope(sums: &PairSums) -> i64
    requires { AreSums sums.now }
    ensures value { result ≡ slope sums.now }
    ensures cell { IsCell result }
{
    let rise = sums.joint_spread().times(&Whole::new(MILLION));
    quot(&rise, &sums.spread_x())
}

/// Where that line is at 0, in millionths.
pub fn intercept(sums: &PairSums) -> i64
    requires { AreSums sums.now }
    ensures value { result ≡ intercept sums.now }
    ensures cell { IsCell result }
{
    let x = sums.spread_x();
    let high = sums.whole_y().times(&x);
    let low = sums.joint_spread().times(&sums.whole_x());
    quot(&high.minus(&low), &sums.whole_number().times(&x))
}

/// The standard error of the slope, in millionths; `MISSING` for fewer than 3 pairs, or where all first
/// values are one.
pub fn slope_error(sums: &PairSums) -> i64
    requires { AreSums sums.now }
    ensures value { result ≡ slope_error sums.now }
    ensures cell { IsCell result }
{
    let x = sums.spread_x();
    let y = sums.spread_y();
    let joint = sums.joint_spread();
    let left = left_over(x.size(), y.size(), joint.size());
    let freedom = sums.number().saturating_sub(2) as u64;
    root(
        &left.times(TRILLION),
        &x.size().product(x.size()).times(freedom),
    )
}

const MILLION: i128 = 1_000_000;

const TRILLION: u64 = 1_000_000_000_000;

// Below this are the spreads of which 128 bits have a share.
const SHARE_END: u128 = 1 << 105;

/// The whole number nearest to the root of `a / b`, as a cell; `MISSING` where `b` is 0, or where it is
/// outside the range of cells.
pub fn root(a: &Natural, b: &Natural) -> i64
    requires { a.now < 2 ^ 446 }
    ensures value { result ≡ root_quot a.now b.now }
    ensures cell { IsCell result }
{
    if b.is_zero() {
        MISSING
    } else {
        root_of_quotient(a, b)
    }
}

// The product of two less the square of a third, from 0 on.
fn left_over(x: &Natural, y: &Natural, joint: &Natural) -> Natural
    requires x { x.now < 2 ^ 135 }
    requires y { y.now < 2 ^ 135 }
    requires joint { joint.now < 2 ^ 135 }
    ensures { result ≡ x.now * y.now - joint.now * joint.now }
{
    match x.product(y).minus(&joint.product(joint)) {
        Some(rest) => rest,
        None => Natural::new(0),
    }
}
