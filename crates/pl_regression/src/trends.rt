//! The line by least squares through values at their places, from the sums of their pairs.

ghost use Rattle.std.specs.Prelude.{◌≡◌, ◌≤◌, unsigned_abs};
ghost use Rattle.pl_spec.specs.Rounding.{IsCell, LIMIT};
ghost use Rattle.pl_pipeline.specs.Formula.{steepness, residual, r_squared};
ghost use Rattle.pl_regression.specs.Sums.{AreSums, AreShort};

use crate::pairs::PairSums;
use pl_wide::{Whole, quot, short_quot};

const MILLION: i128 = 1_000_000;

/// The slope of the line, in units of the second values for each unit of the first; `MISSING` where all first
/// values are one.
pub fn steepness(sums: &PairSums) -> i64
    requires { AreSums sums.now }
    ensures value { result ≡ steepness sums.now }
    ensures cell { IsCell result }
{
    if sums.are_short() {
        short_steepness(sums)
    } else {
        wide_steepness(sums)
    }
}

// The same in 128 bits.
fn short_steepness(sums: &PairSums) -> i64
    requires sums { AreSums sums.now }
    requires short { AreShort sums.now }
    ensures value { result ≡ steepness sums.now }
    ensures cell { IsCell result }
{
    short_quot(sums.short_joint_spread(), sums.short_spread_x())
}

// The same in more.
fn wide_steepness(sums: &PairSums) -> i64
    requires { AreSums sums.now }
    ensures value { result ≡ steepness sums.now }
    ensures cell { IsCell result }
{
    quot(&sums.joint_spread(), &sums.spread_x())
}

/// How far a second value lies above the line at a first one; `MISSING` where all first values are one.
pub fn residual(sums: &PairSums, x: i64, y: i64) -> i64
    requires sums { AreSums sums.now }
    requires x { unsigned_abs x ≤ LIMIT }
    requires y { unsigned_abs y ≤ LIMIT }
    ensures value { result ≡ residual sums.now x y }
    ensures cell { IsCell result }
{
    let number = sums.whole_number();
    let spread = sums.spread_x();
    let above = number.times(&Whole::new(y as i128)).minus(&sums.whole_y());
    let along = number.times(&Whole::new(x as i128)).minus(&sums.whole_x());
    let rise = sums.joint_spread().times(&along);
    quot(&above.times(&spread).minus(&rise), &number.times(&spread))
}

/// The square of the correlation, in millionths; `MISSING` where all first or all second values are one.
pub fn r_squared(sums: &PairSums) -> i64
    requires { AreSums sums.now }
    ensures value { result ≡ r_squared sums.now }
    ensures cell { IsCell result }
{
    let joint = sums.joint_spread();
    let square = joint.times(&joint).times(&Whole::new(MILLION));
    quot(&square, &sums.spread_x().times(&sums.spread_y()))
}
