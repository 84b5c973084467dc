//! Digits at the front of a text, and the numbers that they write.

ghost use Rattle.std.specs.Prelude.{◌≡◌, ◌<◌, ◌≤◌, ◌+◌, ℕ, min, [], ◌∷◌, ◌++◌, length, take, IfSome};
ghost use Rattle.std.specs.List.{list_all};
ghost use Rattle.std.specs.Char.{is_ascii_digit};
ghost use Rattle.std.specs.Str.Parse.{AllDigits, digits_value};
ghost use Rattle.std.specs.Fmt.{decimal};
ghost use Rattle.pl_spec.specs.Dates.{digits};
ghost use Rattle.pl_fixed.specs.Reading.{is_numeral, front_digits};

use crate::day::pair_at;

// The greatest number that `value_up_to` counts to: one digit more still fits 64 bits.
pub(crate) const MOST_VALUE: u64 = 1_000_000_000_000_000_000;

// The numbers of two digits, one after the other.
static PAIRS: [u8; 200] =
    *b"00010203040506070809101112131415161718192021222324252627282930313233343536373839404142434445464748495051525354555657585960616263646566676869707172737475767778798081828384858687888990919293949596979899";

// How many digits stand in front.
pub(crate) fn count_digits(b: &[u8]) -> usize
    ensures { result ≡ length (front_digits b.now) }
{
    b.iter().take_while(|c| c.is_ascii_digit()).count()
}

pub(crate) fn is_numeral(b: &[u8]) -> bool
    ensures { result ≡ is_numeral b.now }
{
    !b.is_empty() && are_digits(b)
}

fn are_digits(b: &[u8]) -> bool
    ensures { result ≡ list_all is_ascii_digit b.now }
{
    b.iter().all(|c| c.is_ascii_digit())
}

// The number that the digits write, or `most` where it is greater.
pub(crate) fn value_up_to(most: u64, digits: &[u8]) -> u64
    requires digits { AllDigits 10 digits.now }
    requires most { most ≤ MOST_VALUE }
    ensures { result ≡ min most (digits_value 10 digits.now) }
{
    let mut value = 0u64;
    for digit in digits {
        value = (value * 10 + u64::from(*digit - b'0')).min(most);
    }
    value
}

// How many digits stand in front, and the number that they write, or `most` where it is greater.
pub(crate) fn front_number(most: u64, b: &[u8]) -> (usize, u64)
    requires { most ≤ MOST_VALUE }
    ensures count { result.0 ≡ length (front_digits b.now) }
    ensures number { result.1 ≡ min most (digits_value 10 (front_digits b.now)) }
{
    if b.len() <= 18 {
        let (count, number) = short_front(b);
        (count, number.min(most))
    } else {
        let count = count_digits(b);
        (count, value_up_to(most, &b[..count]))
    }
}

// The same of so few bytes that the number fits: each is looked at once.
fn short_front(b: &[u8]) -> (usize, u64)
    requires { length b.now ≤ 18 }
    ensures count { result.0 ≡ length (front_digits b.now) }
    ensures number { result.1 ≡ digits_value 10 (front_digits b.now) }
{
    let mut number = 0u64;
    for i in 0..b.len() {
        let byte = b[i];
        if !byte.is_ascii_digit() {
            return (i, number);
        }
        number = number * 10 + u64::from(byte - b'0');
    }
    (b.len(), number)
}

// The number of exactly two digits.
#[inline(always)]
pub(crate) fn two_digits(b: &[u8]) -> Option<u64>
    ensures count { IfSome result (λ _. length b.now ≡ 2) }
    ensures digits { IfSome result (λ _. AllDigits 10 b.now) }
    ensures number { IfSome result (λ n. n ≡ digits_value 10 b.now) }
    ensures small { IfSome result (λ n. n < 100) }
{
    if b.len() != 2 {
        return None;
    }
    let number = pair_at(b, 0)?;
    Some(u64::from(number))
}

// The number of exactly six digits, as many as most decimals have after the point. There is no loop, and the
// pairs do not wait for each other.
#[inline(always)]
pub(crate) fn six_digits(b: &[u8]) -> Option<u64>
    ensures count { IfSome result (λ _. length b.now ≡ 6) }
    ensures digits { IfSome result (λ _. AllDigits 10 b.now) }
    ensures number { IfSome result (λ n. n ≡ digits_value 10 b.now) }
    ensures small { IfSome result (λ n. n < 1_000_000) }
{
    if b.len() != 6 {
        return None;
    }
    let high = pair_at(b, 0)?;
    let middle = pair_at(b, 2)?;
    let low = pair_at(b, 4)?;
    Some(u64::from(high) * 10_000 + u64::from(middle) * 100 + u64::from(low))
}

// Writes a byte at `at`, and gives the place after it.
pub(crate) fn put(byte: u8, out: &mut [u8], at: usize) -> usize
    requires { at < length out.old }
    ensures end { result ≡ at + 1 }
    ensures text { take result out.new ≡ take at out.old ++ byte ∷ [] }
{
    out[at] = byte;
    at + 1
}

// Writes two digits, as they stand in the table.
pub(crate) fn put_pair(n: u64, out: &mut [u8], at: usize) -> usize
    requires small { n < 100 }
    requires room { at + 2 ≤ length out.old }
    ensures end { result ≡ at + 2 }
    ensures text { take result out.new ≡ take at out.old ++ digits 2 n }
{
    let place = n as usize * 2;
    let (tens, ones) = (PAIRS[place], PAIRS[place + 1]);
    let next = put(tens, out, at);
    put(ones, out, next)
}

// Writes the digits of `n`, without zeros in front, two at a time.
pub(crate) fn put_decimal(n: u64, out: &mut [u8], at: usize) -> usize
    requires { at + length (decimal n) ≤ length out.old }
    ensures end { result ≡ at + length (decimal n) }
    ensures text { take result out.new ≡ take at out.old ++ decimal n }
{
    if n < 10 {
        return put(b'0' + n as u8, out, at);
    }
    if n < 100 {
        return put_pair(n, out, at);
    }
    let end = put_decimal(n / 100, out, at);
    put_pair(n % 100, out, end)
}

// Writes six digits, in pairs that do not wait for each other.
pub(crate) fn put_six(n: u64, out: &mut [u8], at: usize) -> usize
    requires small { n < 1_000_000 }
    requires room { at + 6 ≤ length out.old }
    ensures end { result ≡ at + 6 }
    ensures text { take result out.new ≡ take at out.old ++ digits 6 n }
{
    let high = put_pair(n / 10_000, out, at);
    let middle = put_pair(n / 100 % 100, out, high);
    put_pair(n % 100, out, middle)
}
