//! From the bytes of a sessions file to its days.

ghost use Rattle.std.specs.Prelude.{◌≡◌, ◌+◌, ◌<◌, ◌≤◌, length, OnOk};
ghost use Rattle.pl_spec.specs.Limits.{most_sessions};
ghost use Rattle.pl_records.specs.Reading.{Answers, at_line, rows_of};
ghost use Rattle.pl_records.specs.Records.{csv_records};
ghost use Rattle.pl_calendar.specs.Days.{day_in, is_later, day_or_rule, sessions_of};
ghost use Rattle.pl_calendar.specs.Faults.{fault_of};

use crate::MOST_SESSIONS;
use crate::error::CalendarError;
use pl_fixed::read_day;
use pl_records::Records;
use std::alloc::Global;

// The days of a file.
pub(crate) fn read_sessions(alloc: Global, bytes: &[u8]) -> Result<Vec<i32>, CalendarError>
    ensures exact { Answers (λ v. v.items) fault_of result (sessions_of (csv_records bytes.now)) }
{
    let days = read_days(alloc, bytes)?;
    if days.is_empty() {
        return Err(CalendarError::Empty);
    }
    Ok(days)
}

// The days of all records, of which there may be none.
fn read_days(alloc: Global, bytes: &[u8]) -> Result<Vec<i32>, CalendarError>
    ensures { Answers (λ v. v.items) fault_of result (rows_of 1 day_or_rule (csv_records bytes.now)) }
{
    let mut records = Records::new(alloc, bytes);
    let mut days = Vec::new(alloc);
    'rows: while records.next()? {
        let day = next_day(&days, &records)?;
        days.push(day)?;
    }
    Ok(days)
}

// The day of the record that was read last, after the days before it.
#[tactic(auto, unfolding(crate::specs::Days::day_or_rule))]
fn next_day(before: &[i32], row: &Records) -> Result<i32, CalendarError>
    requires { length before.now ≤ most_sessions }
    ensures room { OnOk result (length before.now < most_sessions) }
    ensures exact { Answers (λ d. d) fault_of result
        (at_line (1 + length before.now) (day_or_rule before.now row.now.fields)) }
{
    let line = before.len() as u32 + 1;
    if before.len() >= MOST_SESSIONS {
        return Err(CalendarError::TooMany { line });
    }
    let Some(day) = day_of(row) else {
        return Err(CalendarError::BadDate { line });
    };
    if !is_behind(before, day) {
        return Err(CalendarError::NotAscending { line });
    }
    Ok(day)
}

// The day of the record that was read last, where it is one date.
fn day_of(row: &Records) -> Option<i32>
    ensures { result ≡ day_in row.now.fields }
{
    if row.field_count() == 1 {
        read_day(row.field(0))
    } else {
        None
    }
}

// Whether the day is later than the last of the days.
fn is_behind(days: &[i32], day: i32) -> bool
    ensures { result ≡ is_later days.now day }
{
    match days.last() {
        Some(last) => *last < day,
        None => true,
    }
}
