//! What is read of a number on a day: itself, or how old it is.

ghost use Rattle.std.specs.Prelude.{◌≡◌, ◌*◌, ◌≤ℤ◌, if◌then◌else◌, pos};
ghost use Rattle.pl_spec.specs.Dates.{IsDay};
ghost use Rattle.pl_spec.specs.Numbers as spec;
ghost use Rattle.pl_spec.specs.Rounding.{IsCell, MILLION, MISSING, is_missing};
ghost use Rattle.pl_numbers.specs.Numbers.{bare};

use pl_calendar::{days_between, weekdays_between};
use pl_fixed::MISSING;
use pl_spec::Figure;

// A value that was known from a day on, as it is read on a later one.
pub(crate) fn read_of(figure: Figure, value: i64, known: i32, day: i32) -> i64
    requires value { IsCell value }
    requires known { IsDay known }
    requires later { known ≤ℤ day }
    ensures value { result ≡ spec.read_of figure day (bare value known) }
    ensures cell { IsCell result }
{
    match figure {
        Figure::Value => value,
        Figure::Days => aged(value, days_between(known, day)),
        Figure::BusinessDays => aged(value, weekdays_between(known, day)),
    }
}

// The age of a value, in units, where there is one.
fn aged(value: i64, days: u32) -> i64
    ensures value { result ≡ (if is_missing value then MISSING else pos (days * MILLION)) }
    ensures cell { IsCell result }
{
    if value == MISSING {
        MISSING
    } else {
        i64::from(days) * 1_000_000
    }
}
