//! How many days there are from one day on and before a later one.

ghost use Rattle.std.specs.Prelude.{◌≡◌, ◌≤ℤ◌, pos, neg_ℤ};
ghost use Rattle.pl_spec.specs.Ages as spec;
ghost use Rattle.pl_spec.specs.Dates.{IsDay};

/// How many days there are from a day on, which is known, and before a later one. Both are counted from
/// 1970-01-01.
pub fn days_between(known: i32, day: i32) -> u32
    requires known { IsDay known }
    requires later { known ≤ℤ day }
    ensures { result ≡ spec.days_between known day }
{
    (i64::from(day) - i64::from(known)) as u32
}

/// How many of them are from Monday to Friday.
pub fn weekdays_between(known: i32, day: i32) -> u32
    requires known { IsDay known }
    requires later { known ≤ℤ day }
    ensures { result ≡ spec.weekdays_between known day }
{
    weekdays_before(day) - weekdays_before(known)
}

// How many there are from 1900-01-01 on, which is a Monday, and before the day: five in each full week.
fn weekdays_before(day: i32) -> u32
    requires { neg_ℤ (pos 25567) ≤ℤ day }
    ensures { result ≡ spec.weekdays_before (spec.since_monday day) }
{
    let days = (i64::from(day) + 25_567) as u32;
    days / 7 * 5 + (days % 7).min(5)
}
