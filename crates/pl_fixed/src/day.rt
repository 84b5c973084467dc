//! Days, counted from 1970-01-01, and their dates.

ghost use Rattle.std.specs.Prelude.{◌≡◌, ◌<◌, ◌+◌, ◌/◌, ◌%◌, ℕ, ℤ, pos, ◌≤ℤ◌, IfSome, length};
ghost use Rattle.jiff_core.specs.Date.{epoch_day};
ghost use Rattle.pl_spec.specs.Dates.{IsDate, IsDay, date_spelling, date_in, date_text};
ghost use Rattle.pl_spec.specs.Periods.{month_number};
ghost use Rattle.pl_fixed.specs.Pairs.{IsPairAt};

use jiff_core::civil::Date;

/// The day of a date `YYYY-MM-DD` from 1900-01-01 to 2199-12-31, counted from 1970-01-01; `None` for any
/// other bytes.
pub fn read_day(b: &[u8]) -> Option<i32>
    ensures exact { result ≡ date_in b.now }
    ensures found { IfSome result (IsDate b.now) }
    ensures only { (day : ℤ) → IsDate b.now day → result ≡ Some day }
    ensures range { IfSome result IsDay }
{
    day_of(b)
}

fn day_of(b: &[u8]) -> Option<i32>
    ensures found { IfSome result (IsDate b.now) }
    ensures only { (day : ℤ) → IsDate b.now day → result ≡ Some day }
{
    let parts = parts_of(b)?;
    if parts.year < 1900 || parts.year > 2199 {
        return None;
    }
    match Date::new(parts.year as i16, parts.month as i8, parts.day as i8) {
        Ok(date) => Some(date.to_unix_epoch_day()),
        Err(_) => None,
    }
}

// The numbers of a date's text, which may be no date.
#[derive(Clone, Copy)]
struct Parts {
    year: u16,
    month: u8,
    day: u8,
}

fn parts_of(b: &[u8]) -> Option<Parts>
    ensures found { IfSome result (λ p. b.now ≡ date_spelling p.year p.month p.day) }
    ensures bounds { IfSome result (λ p. (p.year < 10_000) × (p.month < 100) × (p.day < 100)) }
    ensures only { (y m d : ℕ) → y < 10_000 → m < 100 → d < 100 → b.now ≡ date_spelling y m d
        → result ≡ Some (record { year = y; month = m; day = d }) }
{
    if b.len() != 10 || b[4] != b'-' || b[7] != b'-' {
        return None;
    }
    let century = pair_at(b, 0)?;
    let rest = pair_at(b, 2)?;
    let month = pair_at(b, 5)?;
    let day = pair_at(b, 8)?;
    Some(Parts {
        year: u16::from(century) * 100 + u16::from(rest),
        month,
        day,
    })
}

// The number in the two digits at a place and after it.
pub(crate) fn pair_at(b: &[u8], place: usize) -> Option<u8>
    requires { place + 1 < length b.now }
    ensures found { IfSome result (IsPairAt b.now place) }
    ensures only { (n : ℕ) → IsPairAt b.now place n → result ≡ Some n }
{
    let tens = b[place];
    let ones = b[place + 1];
    if tens.is_ascii_digit() && ones.is_ascii_digit() {
        Some((tens - b'0') * 10 + (ones - b'0'))
    } else {
        None
    }
}

/// Writes the date `YYYY-MM-DD` of a day, counted from 1970-01-01, from 1900-01-01 to 2199-12-31. `read_day`
/// reads it as that day.
pub fn write_day(day: i32, out: &mut [u8; 10])
    requires { IsDay day }
    ensures text { out.new ≡ date_text day }
    ensures date { IsDate out.new day }
    ensures reads_back { date_in out.new ≡ Some day }
{
    put_date(day, out)
}

#[tactic(auto, unfolding(pl_spec::specs::Dates::digits))]
fn put_date(day: i32, out: &mut [u8; 10])
    requires { IsDay day }
    ensures { IsDate out.new day }
{
    let date = date_of(day);
    let year = date.year as u16;
    let century = (year / 100) as u8;
    let rest = (year % 100) as u8;
    *out = [
        tens(century),
        ones(century),
        tens(rest),
        ones(rest),
        b'-',
        tens(date.month),
        ones(date.month),
        b'-',
        tens(date.day),
        ones(date.day),
    ];
}

/// The number of the month that a day from 1900-01-01 to 2199-12-31, counted from 1970-01-01, is of: twelve
/// for each year of the calendar from year 0 on, and in a year 0 for January.
pub fn month_number(day: i32) -> u32
    requires { IsDay day }
    ensures value { result ≡ month_number day }
    ensures few { result < 26_400 }
{
    let date = date_of(day);
    12 * u32::from(date.year as u16) + u32::from(date.month) - 1
}

fn date_of(day: i32) -> Date
    requires { IsDay day }
    ensures day { epoch_day result ≡ day }
    ensures early { pos 1900 ≤ℤ result.year }
    ensures late { result.year ≤ℤ pos 2199 }
{
    Date::from_unix_epoch_day(day as i64).unwrap()
}

fn tens(n: u8) -> u8
    requires { n < 100 }
    ensures { result ≡ 48 + n / 10 }
{
    b'0' + n / 10
}

fn ones(n: u8) -> u8
    ensures { result ≡ 48 + n % 10 }
{
    b'0' + n % 10
}
