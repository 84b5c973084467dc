//! The exponential, from its series.
ghost use Rattle.std.specs.Prelude.{◌≡◌, ◌<◌, ◌≤◌, ◌*◌, ◌^◌, ℤ, ◌≤ℤ◌, false};
ghost use Rattle.pl_spec.specs.Rounding.{IsCell, MILLION, is_missing};
ghost use Rattle.pl_pipeline.specs.Elementary.{exp, series, GRAIN};

use pl_fixed::{MISSING, quot};

// The millionths of a unit.
const UNIT: u128 = 1_000_000;

// What a millionth is divided into in the series: 2^45 parts.
const GRAIN: u128 = 35_184_372_088_832;

// Above it the exponential is past the limit of cells, and below its negative it is 0, in millionths.
const MOST: i64 = 26_000_000;

/// The number e to the power of `x`, from 110 terms of its series, rounded once to the millionth; `MISSING`
/// where it is past the limit of cells. No lesser number has a greater one.
pub fn exp(x: i64) -> i64
    requires { IsCell x }
    ensures value { result ≡ exp x }
    ensures cell { IsCell result }
    ensures rises { is_missing result ≡ false → (y : ℤ) → y ≤ℤ x → exp y ≤ℤ result }
{
    exp_of_cell(x)
}

#[tactic(auto, unfolding(pl_pipeline::specs::Elementary::exp))]
fn exp_of_cell(x: i64) -> i64
    requires { IsCell x }
    ensures value { result ≡ exp x }
    ensures cell { IsCell result }
{
    if x == MISSING || x > MOST {
        MISSING
    } else if x < -MOST {
        0
    } else if x < 0 {
        quot((UNIT * UNIT * GRAIN) as i128, series((-x) as u64) as i128)
    } else {
        quot(series(x as u64) as i128, GRAIN as i128)
    }
}

// The first 110 terms of the series, or as many as are not 0.
fn series(v: u64) -> u128
    requires { v ≤ 26000000 }
    ensures value { result ≡ series 110 1 (MILLION * GRAIN) v }
    ensures small { result < 2 ^ 110 }
{
    let mut sum = 0u128;
    let mut term = UNIT * GRAIN;
    let mut k = 1u128;
    'terms: while k <= 110 && term > 0 {
        sum += term;
        term = term * v as u128 / (UNIT * k);
        k += 1;
    }
    sum
}
