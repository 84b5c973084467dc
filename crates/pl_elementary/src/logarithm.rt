//! The natural logarithm, from the bits of the binary one.
ghost use Rattle.std.specs.Prelude.{ℕ, ◌≡◌, ◌<◌, ◌≤◌, ◌+◌, ◌*◌, ◌/◌, ◌^◌, nat_lt, if◌then◌else◌, ℤ, pos, ◌-ℤ◌, ◌*ℤ◌, ◌<ℤ◌, ◌≤ℤ◌, unsigned_abs};
ghost use Rattle.pl_spec.specs.Rounding.{IsCell, LIMIT, MILLION, div_round};
ghost use Rattle.pl_pipeline.specs.Elementary.{LN2, log, binary_log, part_log, log_bits};

use pl_fixed::MISSING;

// The logarithm of 2, in parts of 10^18.
const LOG_OF_TWO: i128 = 693_147_180_559_945_309;

// The binary logarithm of a million, in parts of 2^60.
const LOG_OF_UNIT: i128 = 22_979_534_024_119_767_165;

// What the product of both is parts of, in millionths: 2^60 times 10^12.
const PARTS: u128 = 1_152_921_504_606_846_976_000_000_000_000;

// 5^12.
const FIVES: u64 = 244_140_625;

// 1 and 2, as the bits of the logarithm are taken from them.
const ONE: u64 = 4_611_686_018_427_387_904;

const TWO: u64 = 9_223_372_036_854_775_808;

/// The natural logarithm, from 60 bits of the binary one, rounded once to the millionth; `MISSING` unless `x`
/// is above 0. No lesser number has a greater one.
pub fn log(x: i64) -> i64
    requires { IsCell x }
    ensures value { result ≡ log x }
    ensures cell { IsCell result }
    ensures rises { (y : ℤ) → pos 0 <ℤ y → y ≤ℤ x → log y ≤ℤ result }
{
    log_of_cell(x)
}

#[tactic(auto, unfolding(pl_pipeline::specs::Elementary::log))]
fn log_of_cell(x: i64) -> i64
    requires { IsCell x }
    ensures value { result ≡ log x }
    ensures cell { IsCell result }
{
    if x <= 0 {
        MISSING
    } else {
        natural(binary_log(x as u64)) as i64
    }
}

// The natural logarithm of a number of millionths, from its binary one.
fn natural(binary: u128) -> i128
    requires { binary < 2 ^ 66 }
    ensures value { result ≡ div_round ((pos binary -ℤ pos (binary_log MILLION)) *ℤ pos LN2) (2 ^ 60 * 10 ^ 12) }
    ensures small { unsigned_abs result ≤ LIMIT }
{
    nearest((binary as i128 - LOG_OF_UNIT) * LOG_OF_TWO)
}

// A number divided by 2^60 times 10^12, to the nearest, ties away from 0.
fn nearest(product: i128) -> i128
    requires { unsigned_abs product ≤ 2 ^ 66 * LN2 }
    ensures value { result ≡ div_round product (2 ^ 60 * 10 ^ 12) }
    ensures small { unsigned_abs result ≤ LIMIT }
{
    let size = nearest_size(product.unsigned_abs()) as i128;
    if product < 0 { -size } else { size }
}

// The same of a magnitude. Twice the divisor is 2^73 times 5^12: what the shift leaves has 64 bits, so no division
// of 128 bits is left.
fn nearest_size(size: u128) -> u64
    requires { size ≤ 2 ^ 66 * LN2 }
    ensures value { result ≡ (2 * size + 2 ^ 60 * 10 ^ 12) / (2 * (2 ^ 60 * 10 ^ 12)) }
    ensures small { result ≤ LIMIT }
{
    ((2 * size + PARTS) >> 73) as u64 / FIVES
}

// The binary logarithm, in parts of 2^60.
fn binary_log(v: u64) -> u128
    requires some { 0 < v }
    requires small { v ≤ LIMIT }
    ensures value { result ≡ binary_log v }
    ensures small { result < 2 ^ 66 }
{
    let size = 63 - v.leading_zeros();
    size as u128 * 1_152_921_504_606_846_976 + part_log(v << (62 - size)) as u128
}

// That of y / 2^62.
fn part_log(y: u64) -> u64
    requires { y < 2 ^ 63 }
    ensures value { result ≡ part_log y }
    ensures small { result < 2 ^ 60 }
{
    log_bits(squared(y))
}

// The square of y / 2^62, in parts of 2^62.
fn squared(y: u64) -> u64
    requires { y < 2 ^ 63 }
    ensures { result ≡ y * y / 2 ^ 62 }
{
    (y as u128 * y as u128 / ONE as u128) as u64
}

// The first 60 bits, each by one square.
fn log_bits(start: u64) -> u64
    ensures value { result ≡ log_bits 60 start }
    ensures small { result < 2 ^ 60 }
{
    let mut s = start;
    let mut bits = 0u64;
    let mut left = 60u32;
    'bits: while left > 0 {
        left -= 1;
        bits += bit(s) << left;
        s = squared_half(twice_halved(s));
    }
    bits
}

// Whether it is 2 or more.
fn bit(s: u64) -> u64
    ensures { result ≡ s / 2 ^ 63 }
{
    s / TWO
}

// Twice its half, where it is 2 or more; twice itself, where it is less. Both fit.
fn twice_halved(s: u64) -> u64
    ensures { result ≡ 2 * (if nat_lt s (2 ^ 63) then s else s / 2) }
{
    if s < TWO { 2 * s } else { s - s % 2 }
}

// The square of half of it, in parts of 2^62: the upper word of its own square, which takes no shift.
fn squared_half(t: u64) -> u64
    ensures { (y : ℕ) → t ≡ 2 * y → result ≡ y * y / 2 ^ 62 }
{
    ((t as u128 * t as u128) >> 64) as u64
}
