//! The root and the sign of a cell, the greater and the lesser of two cells.
ghost use Rattle.std.specs.Prelude.{◌≡◌, ◌≤◌, ◌*◌, ◌⊎◌};
ghost use Rattle.pl_spec.specs.Rounding.{IsCell, LIMIT, MILLION};
ghost use Rattle.pl_pipeline.specs.Elementary.{sqrt, near_root, sign, maximum, minimum};

use pl_fixed::{MISSING, isqrt};

// The millionths of a unit.
const UNIT: i64 = 1_000_000;

/// The square root, to the nearest millionth; `MISSING` below 0.
#[tactic(auto, unfolding(pl_pipeline::specs::Elementary::sqrt))]
pub fn sqrt(x: i64) -> i64
    requires { IsCell x }
    ensures value { result ≡ sqrt x }
    ensures cell { IsCell result }
{
    if x < 0 {
        MISSING
    } else {
        root(x as u64) as i64
    }
}

// The root of a number of millionths that is not below 0, from that of four times it.
fn root(x: u64) -> u64
    requires { x ≤ LIMIT }
    ensures value { result ≡ near_root (4 * x * MILLION) }
    ensures small { result ≤ LIMIT }
{
    (isqrt(4 * x as u128 * UNIT as u128) + 1) / 2
}

/// -1, 0 or 1, in millionths; `MISSING` stays `MISSING`.
#[tactic(auto, unfolding(pl_pipeline::specs::Elementary::sign))]
pub fn sign(x: i64) -> i64
    requires { IsCell x }
    ensures value { result ≡ sign x }
    ensures cell { IsCell result }
{
    if x == MISSING {
        MISSING
    } else if x < 0 {
        -UNIT
    } else if x > 0 {
        UNIT
    } else {
        0
    }
}

/// The greater of two cells; `MISSING` where one of them is.
#[tactic(auto, unfolding(pl_pipeline::specs::Elementary::maximum))]
pub fn maximum(x: i64, y: i64) -> i64
    requires left { IsCell x }
    requires right { IsCell y }
    ensures value { result ≡ maximum x y }
    ensures one { (result ≡ x) ⊎ (result ≡ y) }
    ensures cell { IsCell result }
{
    if x == MISSING || y == MISSING {
        MISSING
    } else {
        x.max(y)
    }
}

/// The lesser of two cells; `MISSING` where one of them is.
#[tactic(auto, unfolding(pl_pipeline::specs::Elementary::minimum))]
pub fn minimum(x: i64, y: i64) -> i64
    requires left { IsCell x }
    requires right { IsCell y }
    ensures value { result ≡ minimum x y }
    ensures one { (result ≡ x) ⊎ (result ≡ y) }
    ensures cell { IsCell result }
{
    if x == MISSING || y == MISSING {
        MISSING
    } else {
        x.min(y)
    }
}
