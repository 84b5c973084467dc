//! A ratio that acts on many cells.
ghost use Rattle.std.specs.Prelude.{◌≡◌, ◌+◌, ◌/◌, ◌<◌, ◌^◌, IsTrue};
ghost use Rattle.pl_spec.specs.Rounding.{IsCell, scaled};
ghost use Rattle.pl_fixed.specs.Ratios.{signed};

use crate::cell::LIM;
use crate::ratio::Ratio;
use crate::steps::Steps;
use std::marker::Model;
use std::sync::ledger::Ledger;

// The greatest product of a cell's size and a numerator whose double is rounded in 64 bits.
const MOST: u64 = 9_000_000_000_000_000_000;

/// A ratio that is made ready to act on many cells. It multiplies a cell as the ratio itself does, in a
/// fraction of the time.
#[derive(Debug, Drop)]
pub struct ReadyRatio {
    ratio: Ratio,
    num: u64,
    den: u64,
    // The greatest size of a cell that is multiplied in 64 bits.
    most: u64,
    // How often twice the denominator goes into 2^64: quotients are guessed by it.
    inverse: u64,
}

impl Model for ReadyRatio {
    ghost use Rattle.pl_spec.specs.Rounding.{Fraction};

    ghost Value = { Fraction };

    ghost use Rattle.pl_fixed.specs.Ready.{IsReadyRatio};

    ghost view = { λ r. r.ratio };

    ghost invariant = { IsReadyRatio };
}

impl Ratio {
    /// The ratio, made ready to act on many cells.
    pub fn ready(&self) -> ReadyRatio
        ensures { result ≡ self.now }
    {
        let num = self.num() as u64;
        let den = self.den() as u64;
        ReadyRatio {
            ratio: *self,
            num,
            den,
            most: MOST / num,
            inverse: u64::MAX / (2 * den) + 1,
        }
    }
}

impl ReadyRatio {
    /// The cell times the ratio, in millionths, rounded once, ties away from zero: one step. `MISSING` stays
    /// `MISSING`, in one step too; a product outside `-LIM` to `LIM` is `MISSING`.
    #[inline]
    pub fn apply<L: Ledger>(&self, cell: i64, steps: &mut Steps<L>) -> i64
        requires { IsCell cell }
        ensures value { result ≡ scaled self.now cell }
        ensures cell { IsCell result }
        ensures cost { steps.new ≡ steps.old + 1 }
    {
        let size = cell.unsigned_abs();
        if size <= self.most {
            let rounded = quotient(2 * (size * self.num) + self.den, 2 * self.den, self.inverse);
            if rounded <= LIM as u64 {
                steps.tick();
                return with_sign(cell, rounded);
            }
        }
        self.ratio.apply(cell, steps)
    }
}

// `dividend / divisor`, rounded down. A guess is judged and mostly right, in a fraction of the time of a
// division.
#[inline]
fn quotient(dividend: u64, divisor: u64, inverse: u64) -> u64
    requires { 0 < divisor }
    ensures { result ≡ dividend / divisor }
{
    let guess = upper_half(dividend, inverse);
    if is_quotient(dividend, divisor, guess) {
        guess
    } else {
        dividend / divisor
    }
}

// The upper half of a product.
#[inline]
fn upper_half(a: u64, b: u64) -> u64 {
    ((a as u128 * b as u128) >> 64) as u64
}

// Whether a number is `dividend / divisor`, by what it leaves.
#[inline]
fn is_quotient(dividend: u64, divisor: u64, quotient: u64) -> bool
    requires { 0 < divisor }
    ensures { IsTrue result → quotient ≡ dividend / divisor }
{
    match quotient.checked_mul(divisor) {
        Some(product) => product <= dividend && dividend - product < divisor,
        None => false,
    }
}

// A size with the sign of a cell.
#[inline]
fn with_sign(cell: i64, size: u64) -> i64
    requires { size < 2 ^ 63 }
    ensures { result ≡ signed cell size }
{
    if cell < 0 {
        -(size as i64)
    } else {
        size as i64
    }
}
