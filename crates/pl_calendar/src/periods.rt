//! Where the years, quarters, months and weeks of days begin in a calendar.

ghost use Rattle.std.specs.Prelude.{◌≡◌, ◌<◌, ◌≤◌, pos, length};
ghost use Rattle.std.specs.Int.RustNames.{int_lt};
ghost use Rattle.pl_spec.specs.Dates.{IsDay};
ghost use Rattle.pl_spec.specs.Periods.{period, period_start};
ghost use Rattle.pl_calendar.specs.Days.{AreDays};

use pl_fixed::{Frequency, month_number};

/// The number of the year, quarter, month or week that a day, counted from 1970-01-01, is of; later periods
/// have greater numbers. 1970-01-01 is a Thursday, and weeks begin on Monday.
pub fn period_of(frequency: Frequency, day: i32) -> i32
    requires { IsDay day }
    ensures { result ≡ period frequency day }
{
    match frequency {
        Frequency::YearStart => (month_number(day) / 12) as i32,
        Frequency::QuarterStart => (month_number(day) / 3) as i32,
        Frequency::MonthStart => month_number(day) as i32,
        Frequency::WeekStart => (day + 3).div_euclid(7),
    }
}

// Whether the day is of an earlier period than the other.
fn is_earlier(frequency: Frequency, day: i32, other: i32) -> bool
    requires day { IsDay day }
    requires other { IsDay other }
    ensures { result ≡ int_lt (period frequency day) (period frequency other) }
{
    period_of(frequency, day) < period_of(frequency, other)
}

// The place of the first day of the period that the day at place i is of.
pub(crate) fn period_start(days: &[i32], frequency: Frequency, i: usize) -> usize
    requires days { AreDays days.now }
    requires within { i < length days.now }
    ensures within { result ≤ i }
    ensures exact { pos result ≡ period_start frequency days.now (pos i) }
{
    let mut low = 0;
    let mut high = i;
    while low < high {
        let middle = low + (high - low) / 2;
        if is_earlier(frequency, days[middle], days[i]) {
            low = middle + 1;
        } else {
            high = middle;
        }
    }
    low
}
