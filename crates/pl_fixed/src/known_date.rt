//! Dates whose days are known, so that one that comes again is not read again.

ghost use Rattle.std.specs.Prelude.{◌≡◌, Some, None, IfSome, bytes_eq, cond};
ghost use Rattle.pl_spec.specs.Dates.{IsDay, date_in};

use crate::day::{read_day, write_day};

/// The text of a date, `YYYY-MM-DD`, with its day, counted from 1970-01-01.
#[derive(Clone, Copy)]
pub struct KnownDate {
    pub text: [u8; 10],
    pub day: i32,
    ghost written: { date_in text ≡ Some day },
}

impl KnownDate {
    /// The date of a day from 1900-01-01 to 2199-12-31.
    pub fn new(day: i32) -> KnownDate
        requires { IsDay day }
        ensures { result.day ≡ day }
    {
        let mut text = [0; 10];
        write_day(day, &mut text);
        KnownDate { text, day }
    }

    /// The day, where the bytes are this date; `None` for all others, which may be another date.
    pub fn day_of(&self, text: &[u8]) -> Option<i32>
        ensures exact { result ≡ cond (bytes_eq text.now self.now.text) (Some self.now.day) None }
        ensures known { IfSome result (λ day. date_in text.now ≡ Some day) }
    {
        if text == self.text.as_slice() {
            Some(self.day)
        } else {
            None
        }
    }
}

/// The date that was read last. In most files by day a record has the date of the record before it.
#[derive(Clone, Copy)]
pub struct LastDate {
    date: Option<KnownDate>,
}

impl LastDate {
    /// No date yet.
    pub fn new() -> LastDate {
        LastDate { date: None }
    }

    /// The day of a date, as `read_day` reads it. The last date is looked at first, and then it is this one.
    pub fn day_of(&mut self, text: &[u8]) -> Option<i32>
        ensures { result ≡ date_in text.now }
    {
        if let Some(date) = &self.date {
            if let Some(day) = date.day_of(text) {
                return Some(day);
            }
        }
        let day = read_day(text)?;
        self.date = kept_date(text, day);
        Some(day)
    }
}

// A date as it is kept.
fn kept_date(text: &[u8], day: i32) -> Option<KnownDate>
    requires { date_in text.now ≡ Some day }
{
    if text.len() != 10 {
        return None;
    }
    let mut kept = [0; 10];
    kept.copy_from_slice(text);
    Some(KnownDate { text: kept, day })
}
