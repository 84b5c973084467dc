//! Cells: whole numbers of millionths, or `MISSING`, with their arithmetic, each result rounded once.

ghost use Rattle.std.specs.Prelude.{◌≡◌, ◌≢◌, ◌↔◌, IsTrue};
ghost use Rattle.pl_spec.specs.Rounding.{IsCell, to_cell, quot, add, sub, mul, div, neg};

use crate::rounding::div_round;

/// The cell that stands for no value. It is what NaN is in Zipline.
pub const MISSING: i64 = i64::MIN;

/// The greatest magnitude of a cell, in millionths: 10^11 units.
pub const LIM: i64 = 100_000_000_000_000_000;

// The millionths of a unit.
pub(crate) const UNIT: i128 = 1_000_000;

/// Whether `v` is `MISSING` or from `-LIM` to `LIM`.
pub fn is_cell(v: i64) -> bool
    ensures { IsTrue result ↔ IsCell v }
{
    v == MISSING || (-LIM <= v && v <= LIM)
}

/// `v` as a cell, `MISSING` where it is outside `-LIM` to `LIM`.
#[inline]
#[tactic(auto, unfolding(pl_spec::specs::Rounding::to_cell))]
pub fn to_cell(v: i128) -> i64
    ensures value { result ≡ to_cell v }
    ensures cell { IsCell result }
{
    if -(LIM as i128) <= v && v <= LIM as i128 {
        v as i64
    } else {
        MISSING
    }
}

/// The whole number nearest to `a / b` as a cell, ties away from zero; `MISSING` where `b` is 0, or where it
/// is outside `-LIM` to `LIM`.
#[inline]
#[tactic(auto, unfolding(pl_spec::specs::Rounding::quot))]
pub fn quot(a: i128, b: i128) -> i64
    requires dividend { a ≢ i128.MIN }
    requires divisor { b ≢ i128.MIN }
    ensures value { result ≡ quot a b }
    ensures cell { IsCell result }
{
    if b == 0 {
        MISSING
    } else if b < 0 {
        to_cell(div_round(-a, -b))
    } else {
        to_cell(div_round(a, b))
    }
}

/// The sum of two cells; `MISSING` where one of them is, or where it is outside `-LIM` to `LIM`.
#[tactic(auto, unfolding(pl_spec::specs::Rounding::add))]
pub fn add(a: i64, b: i64) -> i64
    requires left { IsCell a }
    requires right { IsCell b }
    ensures value { result ≡ add a b }
    ensures cell { IsCell result }
{
    if a == MISSING || b == MISSING {
        MISSING
    } else {
        to_cell(a as i128 + b as i128)
    }
}

/// The difference of two cells; `MISSING` where one of them is, or where it is outside `-LIM` to `LIM`.
#[tactic(auto, unfolding(pl_spec::specs::Rounding::sub))]
pub fn sub(a: i64, b: i64) -> i64
    requires left { IsCell a }
    requires right { IsCell b }
    ensures value { result ≡ sub a b }
    ensures cell { IsCell result }
{
    if a == MISSING || b == MISSING {
        MISSING
    } else {
        to_cell(a as i128 - b as i128)
    }
}

/// The product of two cells, in millionths, rounded once; `MISSING` where one of them is, or where it is
/// outside `-LIM` to `LIM`.
#[tactic(auto, unfolding(pl_spec::specs::Rounding::mul))]
pub fn mul(a: i64, b: i64) -> i64
    requires left { IsCell a }
    requires right { IsCell b }
    ensures value { result ≡ mul a b }
    ensures cell { IsCell result }
{
    if a == MISSING || b == MISSING {
        MISSING
    } else {
        to_cell(div_round(a as i128 * b as i128, UNIT))
    }
}

/// The quotient of two cells, in millionths, rounded once; `MISSING` where one of them is, where `b` is 0, or
/// where it is outside `-LIM` to `LIM`.
#[tactic(auto, unfolding(pl_spec::specs::Rounding::div))]
pub fn div(a: i64, b: i64) -> i64
    requires left { IsCell a }
    requires right { IsCell b }
    ensures value { result ≡ div a b }
    ensures cell { IsCell result }
{
    if a == MISSING || b == MISSING {
        MISSING
    } else {
        quot(a as i128 * UNIT, b as i128)
    }
}

/// The cell of the other sign; `MISSING` stays `MISSING`.
#[tactic(auto, unfolding(pl_spec::specs::Rounding::neg))]
pub fn neg(a: i64) -> i64
    requires { IsCell a }
    ensures value { result ≡ neg a }
    ensures cell { IsCell result }
{
    if a == MISSING { MISSING } else { -a }
}
