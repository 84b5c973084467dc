//! The dates of the sessions as they are written. In most files a bar is on the session after that of the
//! bar before it, or on the same, so its date is compared with theirs before it is read.
ghost use Rattle.std.specs.Prelude.{◌≡◌, Some, IfSome};
ghost use Rattle.pl_spec.specs.Dates.{date_in};

use pl_calendar::Sessions;
use pl_fixed::{KnownDate, read_day};
use pl_spec::BarRow;
use std::alloc::{AllocError, Global};

// The dates of the sessions in their order.
pub(crate) fn dates_of(alloc: Global, sessions: &Sessions) -> Result<Vec<KnownDate>, AllocError> {
    let mut dates = Vec::new(alloc);
    for i in 0..sessions.len() {
        dates.push(KnownDate::new(sessions.day(i)))?;
    }
    Ok(dates)
}

// The day of a date after these bars.
pub(crate) fn day_of(before: &[BarRow], dates: &[KnownDate], text: &[u8]) -> Option<i32>
    ensures { result ≡ date_in text.now }
{
    if let [.., last] = before {
        let place = last.session as usize;
        if let Some(day) = day_at(dates, place + 1, text) {
            return Some(day);
        }
        if let Some(day) = day_at(dates, place, text) {
            return Some(day);
        }
    }
    read_day(text)
}

// The day of a date, where it is that of a session.
fn day_at(dates: &[KnownDate], place: usize, text: &[u8]) -> Option<i32>
    ensures { IfSome result (λ day. date_in text.now ≡ Some day) }
{
    let date = dates.get(place)?;
    date.day_of(text)
}
