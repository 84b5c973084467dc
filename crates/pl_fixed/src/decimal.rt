//! The decimals of cells, read and written.

ghost use Rattle.std.specs.Prelude.{◌≡◌, ◌≢◌, ◌↔◌, ◌<◌, ◌≤◌, ◌+◌, ◌*◌, ◌^◌, ℕ, ℤ, pos, int_lt, unsigned_abs, List, [], ◌∷◌, ◌++◌, length, take, min};
ghost use Rattle.std.specs.Str.Parse.{AllDigits, digits_value};
ghost use Rattle.std.specs.Fmt.{sign_text};
ghost use Rattle.pl_spec.specs.Rounding.{MILLION, LIMIT, IsCell, div_round};
ghost use Rattle.pl_spec.specs.Decimals.{Decimal, IsDecimal, IsTooLong, IsTooLarge, IsReadAs, signed, cell_text, units_text};
ghost use Rattle.pl_fixed.specs.Reading.{read, unsigned_read, fraction_read, judged, in_range};

use crate::cell::{LIM, MISSING, UNIT};
use crate::digits::{MOST_VALUE, front_number, put, put_decimal, put_six, six_digits, two_digits};
use crate::rounding::{div_round, short_signed};

/// Why bytes are no decimal of a cell. The faults are tested in this order.
#[derive(Clone, Copy, Debug, PartialEq, Eq)]
pub enum DecimalFault {
    /// There are no bytes.
    Empty,
    /// They are no optional `-`, digits, and optionally a point and digits.
    Shape,
    /// There are more than 18 digits after the point.
    TooManyDigits,
    /// The rounded value is outside `-LIM` to `LIM`.
    TooLarge,
}

// As many units as no cell holds: more of them count as these.
const MOST_UNITS: u64 = 1_000_000_000_000;

/// The cell that the bytes write in decimal: an optional `-`, digits, and optionally a point and 1 to 18
/// digits. It is rounded once to millionths, ties away from zero. Leading zeros are accepted; an exponent, a
/// `+` and blanks are not. The error is the first fault in the order of its variants.
pub fn read_decimal(b: &[u8]) -> Result<i64, DecimalFault>
    ensures exact { result ≡ read b.now }
    ensures value { (v : ℤ) → (result ≡ Ok v) ↔ ((d : Decimal) × IsDecimal d b.now × IsReadAs d v) }

    ensures empty { (result ≡ Err DecimalFault.Empty) ↔ (b.now ≡ []) }
    ensures shape { (result ≡ Err DecimalFault.Shape)
        ↔ ((b.now ≢ []) × ((d : Decimal) → ¬ (IsDecimal d b.now))) }
    ensures too_many_digits { (result ≡ Err DecimalFault.TooManyDigits)
        ↔ ((d : Decimal) × IsDecimal d b.now × IsTooLong d) }
    ensures too_large { (result ≡ Err DecimalFault.TooLarge)
        ↔ ((d : Decimal) × IsDecimal d b.now × IsTooLarge d) }
{
    read_bytes(b)
}

#[tactic(auto, unfolding(crate::specs::Reading::read))]
fn read_bytes(b: &[u8]) -> Result<i64, DecimalFault>
    ensures { result ≡ read b.now }
{
    match b {
        [] => Err(DecimalFault::Empty),
        [b'-', unsigned @ ..] => read_unsigned(true, unsigned),
        _ => read_unsigned(false, b),
    }
}

#[inline(always)]
#[tactic(auto, unfolding(crate::specs::Reading::unsigned_read))]
fn read_unsigned(negative: bool, b: &[u8]) -> Result<i64, DecimalFault>
    ensures { result ≡ unsigned_read negative b.now }
{
    let (count, units) = front_number(MOST_UNITS, b);
    if count == 0 {
        return Err(DecimalFault::Shape);
    }
    read_fraction(negative, units, &b[count..])
}

// Of the digits before the rest only their number matters.
#[inline(always)]
#[tactic(auto, unfolding(crate::specs::Reading::fraction_read))]
fn read_fraction(negative: bool, units: u64, rest: &[u8]) -> Result<i64, DecimalFault>
    requires { units ≤ MOST_UNITS }
    ensures { (whole : List ℕ) → units ≡ min MOST_UNITS (digits_value 10 whole)
        → result ≡ fraction_read negative whole rest.now }
{
    match rest {
        [] => judge(negative, units, 0, 0),
        [b'.', fraction @ ..] => read_part(negative, units, fraction),
        _ => Err(DecimalFault::Shape),
    }
}

// The same of what stands after the point: mostly two digits or six, which are read without a loop.
#[inline(always)]
fn read_part(negative: bool, units: u64, fraction: &[u8]) -> Result<i64, DecimalFault>
    requires { units ≤ MOST_UNITS }
    ensures { (whole : List ℕ) → units ≡ min MOST_UNITS (digits_value 10 whole)
        → result ≡ fraction_read negative whole (46 ∷ fraction.now) }
{
    if let Some(part) = two_digits(fraction) {
        return judge(negative, units, part, 2);
    }
    if let Some(part) = six_digits(fraction) {
        return judge(negative, units, part, 6);
    }
    let (digits, part) = front_number(MOST_VALUE, fraction);
    if digits == 0 || digits < fraction.len() {
        return Err(DecimalFault::Shape);
    }
    judge(negative, units, part, digits)
}

// The decimal of so many units, and of so many digits after the point that write the part.
#[inline(always)]
fn judge(negative: bool, units: u64, part: u64, digits: usize) -> Result<i64, DecimalFault>
    requires units { units ≤ MOST_UNITS }
    requires part { part < 10 ^ digits }
    ensures { (d : Decimal) → AllDigits 10 d.fraction → negative ≡ d.negative
        → units ≡ min MOST_UNITS (digits_value 10 d.whole)
        → part ≡ min MOST_VALUE (digits_value 10 d.fraction)
        → digits ≡ length d.fraction → result ≡ judged d }
{
    if digits > 18 {
        return Err(DecimalFault::TooManyDigits);
    }
    if digits <= 6 {
        judge_short(negative, units, part, digits)
    } else {
        judge_long(negative, units, part, digits)
    }
}

// Of at most six digits nothing is rounded, and nothing divided, and 64 bits do.
#[inline(always)]
fn judge_short(negative: bool, units: u64, part: u64, digits: usize) -> Result<i64, DecimalFault>
    requires units { units ≤ MOST_UNITS }
    requires part { part < 10 ^ digits }
    requires digits { digits ≤ 6 }
    ensures { result ≡ in_range
        (div_round (signed negative ((units * 10 ^ digits + part) * MILLION)) (10 ^ digits)) }
{
    in_short_range(
        negative,
        units * 1_000_000 + part * millionths_of_digit(digits),
    )
}

fn judge_long(negative: bool, units: u64, part: u64, digits: usize) -> Result<i64, DecimalFault>
    requires units { units ≤ MOST_UNITS }
    requires part { part < 10 ^ digits }
    requires digits { digits ≤ 18 }
    ensures { result ≡ in_range
        (div_round (signed negative ((units * 10 ^ digits + part) * MILLION)) (10 ^ digits)) }
{
    in_range(rounded(negative, units, part, power_of_ten(digits)))
}

// The cell of so many millionths with a sign.
#[inline(always)]
fn in_short_range(negative: bool, magnitude: u64) -> Result<i64, DecimalFault>
    ensures { result ≡ in_range (signed negative magnitude) }
{
    if magnitude > LIM as u64 {
        Err(DecimalFault::TooLarge)
    } else {
        Ok(short_signed(negative, magnitude))
    }
}

#[tactic(auto, unfolding(crate::specs::Reading::in_range))]
fn in_range(millionths: i128) -> Result<i64, DecimalFault>
    ensures { result ≡ in_range millionths }
{
    if millionths.unsigned_abs() > LIM as u128 {
        Err(DecimalFault::TooLarge)
    } else {
        Ok(millionths as i64)
    }
}

fn power_of_ten(exponent: usize) -> u64
    requires { exponent ≤ 18 }
    ensures value { result ≡ 10 ^ exponent }
    ensures bound { result ≤ MOST_VALUE }
    ensures positive { 0 < result }
{
    10u64.pow(exponent as u32)
}

// How many millionths the last of so many digits after the point stands for.
#[inline(always)]
fn millionths_of_digit(digits: usize) -> u64
    requires { digits ≤ 6 }
    ensures value { result * 10 ^ digits ≡ MILLION }
    ensures bound { result ≤ MILLION }
{
    match digits {
        0 => 1_000_000,
        1 => 100_000,
        2 => 10_000,
        3 => 1_000,
        4 => 100,
        5 => 10,
        _ => 1,
    }
}

// The millionths of `units` and `part` of `scale` parts of a unit, rounded once.
fn rounded(negative: bool, units: u64, part: u64, scale: u64) -> i128
    requires units { units ≤ MOST_UNITS }
    requires part { part ≤ MOST_VALUE }
    requires positive { 0 < scale }
    requires scale { scale ≤ MOST_VALUE }
    ensures { result ≡ div_round (signed negative ((units * scale + part) * MILLION)) scale }
{
    let magnitude = (units as u128 * scale as u128 + part as u128) * UNIT as u128;
    if negative {
        div_round(-(magnitude as i128), scale as i128)
    } else {
        div_round(magnitude as i128, scale as i128)
    }
}

/// Writes the text of a cell at the front of `out`, with exactly six digits after the point and no leading
/// zeros, and gives its length: 0 for `MISSING`. `read_decimal` reads the text of any other cell as that
/// cell.
#[tactic(auto, unfolding(pl_spec::specs::Decimals::cell_text))]
pub fn write_decimal(cell: i64, out: &mut [u8; 32]) -> usize
    requires { IsCell cell }
    ensures within { result ≤ 32 }
    ensures text { take result out.new ≡ cell_text cell }
    ensures reads_back { cell ≢ MISSING
        → (d : Decimal) × IsDecimal d (take result out.new) × IsReadAs d cell }
{
    if cell == MISSING {
        0
    } else {
        write_present(cell, out)
    }
}

fn write_present(cell: i64, out: &mut [u8]) -> usize
    requires room { 32 ≤ length out.old }
    requires small { unsigned_abs cell ≤ LIMIT }
    ensures within { result ≤ 32 }
    ensures text { take result out.new ≡ sign_text (int_lt cell (pos 0)) ++ units_text (unsigned_abs cell) }
{
    let magnitude = cell.unsigned_abs();
    let sign_end = put_sign(cell < 0, out, 0);
    let whole_end = put_decimal(magnitude / UNIT as u64, out, sign_end);
    let point_end = put(b'.', out, whole_end);
    put_six(magnitude % UNIT as u64, out, point_end)
}

fn put_sign(negative: bool, out: &mut [u8], at: usize) -> usize
    requires { at < length out.old }
    ensures end { result ≡ at + length (sign_text negative) }
    ensures text { take result out.new ≡ take at out.old ++ sign_text negative }
{
    if negative { put(b'-', out, at) } else { at }
}
