//! The sessions of the calendar: their days, which ascend. A session is known by its place, from 0.
#![tactic(auto)]

ghost use Rattle.std.specs.Prelude.{◌≡◌, ◌<◌, ◌≤◌, pos, length, slice_get, take, position, Some, IfOk, IfSome};
ghost use Rattle.std.specs.Int.RustNames.{int_le};
ghost use Rattle.std.specs.Ordering.{int_eq};
ghost use Rattle.pl_spec.specs.Limits.{most_sessions};
ghost use Rattle.pl_spec.specs.Dates.{IsDay};
ghost use Rattle.pl_spec.specs.Periods.{period_start};
ghost use Rattle.pl_records.specs.Reading.{Answers};
ghost use Rattle.pl_records.specs.Records.{csv_records};
ghost use Rattle.pl_calendar.specs.Days.{AreDays, sessions_of};
ghost use Rattle.pl_calendar.specs.Faults.{fault_of};

mod ages;
mod error;
pub mod laws;
mod periods;
mod reading;
mod search;

pub use ages::{days_between, weekdays_between};
pub use error::CalendarError;
pub use periods::period_of;
use pl_fixed::{Frequency, Memory};
use std::alloc::Global;
use std::marker::Model;

/// How many sessions there may be. The limit is this project's own.
pub const MOST_SESSIONS: usize = 16_000;

/// The days of the sessions, ascending: from 1 to 16,000 of them, each counted from 1970-01-01 and of the
/// years 1900 to 2199.
#[derive(Debug, Drop)]
pub struct Sessions {
    days: Vec<i32>,
}

impl Model for Sessions {
    ghost use Rattle.std.specs.Prelude.{List, ℤ};
    ghost use Rattle.pl_calendar.specs.Days.{AreDays};

    ghost Value = { List ℤ };

    ghost view = { λ s. s.days.items };

    ghost invariant = { λ s. AreDays s.days.items };
}

impl Sessions {
    /// The sessions of a file: each record is one date, `YYYY-MM-DD`, later than the one before. There is no
    /// header. The error is the first fault of the file, or want of memory.
    pub fn read(alloc: Global, bytes: &[u8]) -> Result<Sessions, CalendarError>
        // The days of the records, or the fault of the first faulty one. Only want of memory may
        // come beside.
        ensures exact { Answers (λ s. s) fault_of result (sessions_of (csv_records bytes.now)) }
        ensures days { IfOk result AreDays }
    {
        let days = reading::read_sessions(alloc, bytes)?;
        Ok(Sessions { days })
    }

    /// The sessions of these days, counted from 1970-01-01, which ascend, each once: 1 to 16,000 of the years
    /// 1900 to 2199.
    pub fn from_days(days: Vec<i32>) -> Sessions
        requires { AreDays days.items }
        ensures { result ≡ days.items }
    {
        Sessions { days }
    }

    /// The first `len` sessions, copied. The only error is want of memory.
    pub fn cut(&self, alloc: Global, len: usize) -> Result<Sessions, Memory>
        requires some { 0 < len }
        requires within { len ≤ length self.now }
        ensures { IfOk result (λ s. s ≡ take len self.now) }
    {
        let days = Vec::from_slice(alloc, &self.days[..len])?;
        Ok(Sessions { days })
    }

    /// How many sessions there are, at least 1. Their days ascend.
    pub fn len(&self) -> usize
        ensures length { result ≡ length self.now }
        ensures days { AreDays self.now }
        ensures some { 0 < result }
        ensures few { result ≤ most_sessions }
    {
        self.days.len()
    }

    /// The day of a session, counted from 1970-01-01.
    pub fn day(&self, i: usize) -> i32
        requires { i < length self.now }
        ensures exact { slice_get self.now i ≡ Some result }
        ensures date { IsDay result }
        ensures few { length self.now ≤ most_sessions }
    {
        self.days[i]
    }

    /// The session of a day, counted from 1970-01-01; `None` where the day is no session. It is found by
    /// bisection.
    pub fn index_of(&self, day: i32) -> Option<usize>
        ensures within { IfSome result (λ i. i < length self.now) }
        ensures exact { result ≡ position (λ d. int_eq d day) self.now }
    {
        search::index_of(&self.days, day)
    }

    /// The first session whose day, counted from 1970-01-01, is this one or a later one; `None` where all are
    /// earlier.
    pub fn first_at_or_after(&self, day: i32) -> Option<usize>
        ensures within { IfSome result (λ i. i < length self.now) }
        ensures exact { result ≡ position (λ d. int_le day d) self.now }
    {
        search::first_at_or_after(&self.days, day)
    }

    /// The first session of the year, quarter, month or week that the day of session i is of. Weeks begin on
    /// Monday. A calendar that begins inside a period starts it there.
    pub fn period_start(&self, frequency: Frequency, i: usize) -> usize
        requires { i < length self.now }
        ensures within { result ≤ i }
        ensures exact { pos result ≡ period_start frequency self.now (pos i) }
    {
        periods::period_start(&self.days, frequency, i)
    }
}
