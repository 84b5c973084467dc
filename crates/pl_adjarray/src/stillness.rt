//! For how long nothing changes in a buffer.
ghost use Rattle.std.specs.Prelude.{◌≡◌, ◌+◌, ◌≤◌, ℕ, [], option_map, slice_get};
ghost use Rattle.pl_adjarray.specs.Inside.{IsReadyBuffer};
ghost use Rattle.pl_adjarray.specs.Stillness.{IsGreatest, IsQuiet, IsStill, effective_within};

use crate::array::AdjustedArray;
use pl_adjust::Adjust;

// How many sessions are near.
const NEAR: usize = 16;

// The day of an adjustment, where there is one.
fn day_of(event: Option<&Adjust>) -> Option<i32>
    ensures { result ≡ option_map (λ e. e.now.day) event.entry }
{
    match event {
        Some(event) => Some(event.day),
        None => None,
    }
}

// The day of the first adjustment of a column's asset that becomes effective on one of the `most` sessions
// after one.
fn first_change(array: &AdjustedArray<'_>, col: u32, session: usize, most: usize) -> Option<i32>
    requires { session + most ≤ array.now.first + array.now.rows }
    ensures { result ≡ option_map (λ e. e.day)
        (slice_get (effective_within array.now session most col) 0) }
{
    let today = array.sessions.day(session);
    let last = array.sessions.day(session + most);
    let events = array.adjustments.events_between(col as usize, today, last);
    day_of(events.first())
}

// On how many sessions after one, up to `most`, no adjustment of a column's asset becomes effective.
fn before_change(array: &AdjustedArray<'_>, col: u32, session: usize, most: usize) -> usize
    requires { session + most ≤ array.now.first + array.now.rows }
    ensures greatest { IsGreatest (λ n. effective_within array.now session n col ≡ []) most result }
    ensures ready { IsReadyBuffer array.now }
{
    let sessions = array.sessions;
    let Some(day) = first_change(array, col, session, most) else {
        return most;
    };
    match sessions.first_at_or_after(day) {
        Some(next) => next - session - 1,
        None => most,
    }
}

// The same. The near sessions are looked at first, since all adjustments between two days are counted.
fn ahead_of(array: &AdjustedArray<'_>, col: u32, session: usize, most: usize) -> usize
    requires { session + most ≤ array.now.first + array.now.rows }
    ensures { IsGreatest (λ n. effective_within array.now session n col ≡ []) most result }
{
    let near = most.min(NEAR);
    let count = before_change(array, col, session, near);
    if count < near {
        count
    } else {
        before_change(array, col, session, most)
    }
}

/// On how many sessions after one, up to `most`, no adjustment of an asset of the buffer becomes effective.
pub(crate) fn still_from(array: &AdjustedArray<'_>, session: usize, most: usize) -> usize
    requires low { array.now.first ≤ session }
    requires high { session + most ≤ array.now.first + array.now.rows }
    ensures few { result ≤ most }
    ensures quiet { IsQuiet array.now session result }
    ensures still { IsStill array.now session result }
    ensures greatest { (n : ℕ) → n ≤ most → IsQuiet array.now session n → n ≤ result }
{
    let mut least = most;
    for i in 0..array.cols.len() {
        least = ahead_of(array, array.cols[i], session, least);
    }
    least
}
