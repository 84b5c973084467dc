//! How a buffer of bars is changed from one session to a later one.

ghost use Rattle.std.specs.Prelude.{◌≡◌, ◌≢◌, ℕ, ◌+◌, ◌*◌, ◌<◌, ◌≤◌, ℤ, Some, length, map, option_to_list, slice_get, sum_by};
ghost use Rattle.pl_spec.specs.Rounding.{IsCell, scaled};
ghost use Rattle.pl_spec.specs.Window.{after_all, effect, effects_in, same_column, step_count};
ghost use Rattle.pl_spec.specs.World.{events_of};
ghost use Rattle.pl_spec.specs.Limits.{saturated};
ghost use Rattle.pl_adjust.specs.Events.{PutCells, PutsCell, effects_of, event_of};
ghost use Rattle.pl_adjarray.specs.Buffered.{HasCells, applied_at, cell_at, col_at, ratio_count, world_of};
ghost use Rattle.pl_adjarray.specs.Traversals.{IsSeen};

use crate::array::AdjustedArray;
use crate::stillness::still_from;
use pl_adjust::{Adjust, Change, ratio_for};
use pl_calendar::Sessions;
use pl_fixed::{Column, Ratio, Steps};
use std::sync::ledger::Ledger;

// Brings a buffer from one session to a later one.
pub(crate) fn follow<L: Ledger>(
    array: &AdjustedArray<'_>,
    scratch: &mut [i64],
    from: usize,
    to: usize,
    steps: &mut Steps<L>,
    applied: &mut u64,
)
    requires order { from ≤ to }
    requires most { to ≤ array.now.first + array.now.rows }
    requires seen { IsSeen array.now scratch.old from applied.old }
    ensures seen { IsSeen array.now scratch.new to applied.new }
    ensures cost { steps.new + applied_at array.now from ≡ steps.old + applied_at array.now to }
{
    let mut session = from;
    while session < to {
        session = move_on(array, scratch, session, to, steps, applied);
    }
}

// Brings a buffer from a session over all on which nothing changes, or else to the next one. Gives the
// session that it came to.
fn move_on<L: Ledger>(
    array: &AdjustedArray<'_>,
    scratch: &mut [i64],
    session: usize,
    to: usize,
    steps: &mut Steps<L>,
    applied: &mut u64,
) -> usize
    requires order { session < to }
    requires most { to ≤ array.now.first + array.now.rows }
    requires seen { IsSeen array.now scratch.old session applied.old }
    ensures later { session < result }
    ensures most { result ≤ to }
    ensures seen { IsSeen array.now scratch.new result applied.new }
    ensures cost { steps.new + applied_at array.now session ≡ steps.old + applied_at array.now result }
{
    let still = still_from(array, session, to - session);
    if still > 0 {
        session + still
    } else {
        step(array, scratch, session, steps, applied);
        session + 1
    }
}

// Brings a buffer from a session to the next one.
fn step<L: Ledger>(
    array: &AdjustedArray<'_>,
    scratch: &mut [i64],
    session: usize,
    steps: &mut Steps<L>,
    applied: &mut u64,
)
    requires more { session < array.now.first + array.now.rows }
    requires seen { IsSeen array.now scratch.old session applied.old }
    ensures seen { IsSeen array.now scratch.new (session + 1) applied.new }
    ensures cost { steps.new + applied_at array.now session
        ≡ steps.old + applied_at array.now (session + 1) }
{
    let today = array.sessions.day(session);
    let next_day = array.sessions.day(session + 1);
    let older = session - array.first + 1;
    slide_all(array, scratch, older, today, next_day, steps, applied);
}

// Brings the first `older` rows of each asset from one day to a later one. Ratios act on all of them,
// and a revision on the row of its own day.
fn slide_all<L: Ledger>(
    array: &AdjustedArray<'_>,
    scratch: &mut [i64],
    older: usize,
    from: i32,
    to: i32,
    steps: &mut Steps<L>,
    applied: &mut u64,
)
    requires room { length scratch.old ≡ array.now.rows * length array.now.cols }
    requires older { older ≤ array.now.rows }
    requires cells { HasCells array.now scratch.old }
    ensures moved { (bar : ℤ) (i j : ℕ) → i < length array.now.cols → j < older
        → slice_get array.now.days (array.now.first + j) ≡ Some bar
        → cell_at scratch.new (i * array.now.rows + j)
        ≡ after_all (cell_at scratch.old (i * array.now.rows + j))
        (effects_in array.now.column bar from to
        (events_of (world_of array.now) (col_at array.now i))) }
    ensures kept { (i j : ℕ) → i < length array.now.cols → older ≤ j → j < array.now.rows
        → cell_at scratch.new (i * array.now.rows + j)
        ≡ cell_at scratch.old (i * array.now.rows + j) }
    ensures cells { HasCells array.now scratch.new }
    ensures cost { (bar : ℤ) → steps.new
        ≡ steps.old + older * sum_by (ratio_count array.now bar from to) array.now.cols }
    ensures tally { (bar : ℤ) → saturated applied.new
        ≡ saturated (applied.old + older * sum_by (ratio_count array.now bar from to) array.now.cols) }
{
    let sessions = array.sessions;
    let column = array.column;
    for i in 0..array.cols.len() {
        let events = array
            .adjustments
            .events_between(array.cols[i] as usize, from, to);
        let rows = Part {
            at: i * array.rows,
            count: older,
            first: array.first,
        };
        slide(scratch, rows, sessions, events, column, steps, applied);
    }
}

// The cells of an asset on some sessions: from which place on they stand, how many they are, and the session
// of the first.
#[derive(Clone, Copy)]
struct Part {
    at: usize,
    count: usize,
    first: usize,
}

// Changes the cells of an asset by each event that acts on the column, one after the other.
fn slide<L: Ledger>(
    cells: &mut [i64],
    part: Part,
    sessions: &Sessions,
    events: &[Adjust],
    column: Column,
    steps: &mut Steps<L>,
    applied: &mut u64,
)
    requires room { part.at + part.count ≤ length cells.old }
    requires cells { (j : ℕ) → j < part.count → IsCell (cell_at cells.old (part.at + j)) }
    requires puts { PutCells (map event_of events.now) }
    ensures moved { (bar : ℤ) (j : ℕ) → j < part.count → slice_get sessions.now (part.first + j) ≡ Some bar
        → cell_at cells.new (part.at + j)
        ≡ after_all (cell_at cells.old (part.at + j)) (effects_of column bar events.now) }
    ensures before { (k : ℕ) → k < part.at → cell_at cells.new k ≡ cell_at cells.old k }
    ensures behind { (k : ℕ) → part.at + part.count ≤ k → cell_at cells.new k ≡ cell_at cells.old k }
    ensures cells { (j : ℕ) → j < part.count → IsCell (cell_at cells.new (part.at + j)) }
    ensures cost { (bar : ℤ) → steps.new
        ≡ steps.old + part.count * step_count (effects_of column bar events.now) }
    ensures tally { (bar : ℤ) → saturated applied.new
        ≡ saturated (applied.old + part.count * step_count (effects_of column bar events.now)) }
{
    for event in events {
        change(cells, part, sessions, event, column, steps, applied);
    }
}

// Changes the cells of an asset by an event, which may leave the column as it is. A ratio acts on bars of
// all days alike.
fn change<L: Ledger>(
    cells: &mut [i64],
    part: Part,
    sessions: &Sessions,
    event: &Adjust,
    column: Column,
    steps: &mut Steps<L>,
    applied: &mut u64,
)
    requires room { part.at + part.count ≤ length cells.old }
    requires cells { (j : ℕ) → j < part.count → IsCell (cell_at cells.old (part.at + j)) }
    requires puts { PutsCell (event_of event.now) }
    ensures moved { (bar : ℤ) (j : ℕ) → j < part.count → slice_get sessions.now (part.first + j) ≡ Some bar
        → cell_at cells.new (part.at + j) ≡ after_all (cell_at cells.old (part.at + j))
        (option_to_list (effect column bar (event_of event.now))) }
    ensures before { (k : ℕ) → k < part.at → cell_at cells.new k ≡ cell_at cells.old k }
    ensures behind { (k : ℕ) → part.at + part.count ≤ k → cell_at cells.new k ≡ cell_at cells.old k }
    ensures cells { (j : ℕ) → j < part.count → IsCell (cell_at cells.new (part.at + j)) }
    ensures cost { (bar : ℤ) → steps.new ≡ steps.old
        + part.count * step_count (option_to_list (effect column bar (event_of event.now))) }
    ensures tally { (bar : ℤ) → saturated applied.new ≡ saturated (applied.old
        + part.count * step_count (option_to_list (effect column bar (event_of event.now)))) }
{
    match event.change {
        Change::Scale(ratio) => match ratio_for(event.kind, ratio, column) {
            Some(factor) => {
                scale(cells, part.at, part.count, factor, steps);
                *applied = applied.saturating_add(part.count as u64);
            }
            None => {}
        },
        Change::Overwrite {
            bar_day,
            column: own,
            value,
        } => {
            if is_same(own, column) {
                put(cells, part, sessions, bar_day, value);
            }
        }
    }
}

fn is_same(a: Column, b: Column) -> bool
    ensures { result ≡ same_column a b }
{
    a == b
}

// Puts a cell into the row of a day, where there is one.
fn put(cells: &mut [i64], part: Part, sessions: &Sessions, bar_day: i32, value: i64)
    requires room { part.at + part.count ≤ length cells.old }
    requires cells { (j : ℕ) → j < part.count → IsCell (cell_at cells.old (part.at + j)) }
    requires cell { IsCell value }
    ensures own { (j : ℕ) → j < part.count → slice_get sessions.now (part.first + j) ≡ Some bar_day
        → cell_at cells.new (part.at + j) ≡ value }
    ensures others { (bar : ℤ) (j : ℕ) → j < part.count → slice_get sessions.now (part.first + j) ≡ Some bar
        → bar ≢ bar_day → cell_at cells.new (part.at + j) ≡ cell_at cells.old (part.at + j) }
    ensures before { (k : ℕ) → k < part.at → cell_at cells.new k ≡ cell_at cells.old k }
    ensures behind { (k : ℕ) → part.at + part.count ≤ k → cell_at cells.new k ≡ cell_at cells.old k }
    ensures cells { (j : ℕ) → j < part.count → IsCell (cell_at cells.new (part.at + j)) }
{
    let _ascending = sessions.len();
    if let Some(session) = sessions.index_of(bar_day) {
        if part.first <= session && session - part.first < part.count {
            cells[part.at + (session - part.first)] = value;
        }
    }
}

// Multiplies the cells from a place on by a ratio. Each is one step.
fn scale<L: Ledger>(cells: &mut [i64], at: usize, count: usize, factor: Ratio, steps: &mut Steps<L>)
    requires room { at + count ≤ length cells.old }
    requires cells { (j : ℕ) → j < count → IsCell (cell_at cells.old (at + j)) }
    ensures scaled { (j : ℕ) → j < count
        → cell_at cells.new (at + j) ≡ scaled factor (cell_at cells.old (at + j)) }
    ensures before { (k : ℕ) → k < at → cell_at cells.new k ≡ cell_at cells.old k }
    ensures behind { (k : ℕ) → at + count ≤ k → cell_at cells.new k ≡ cell_at cells.old k }
    ensures cells { (j : ℕ) → j < count → IsCell (cell_at cells.new (at + j)) }
    ensures cost { steps.new ≡ steps.old + count }
{
    let ready = factor.ready();
    for i in 0..count {
        cells[at + i] = ready.apply(cells[at + i], steps);
    }
}
