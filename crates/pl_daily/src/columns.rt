//! The rings of all bar columns.
ghost use Rattle.std.specs.Prelude.{◌≡◌, ◌+◌, ◌-◌, ◌*◌, ◌≤◌, ◌++◌, ◌∷◌, [], length, min, drop};
ghost use Rattle.circular_buffer.specs.Buffer.{buffer, keep_last};
ghost use Rattle.pl_daily.specs.Rings.{scaling};
ghost use Rattle.pl_daily.specs.Changes.{AreRings, FollowBars, IsHandedIn};
ghost use Rattle.pl_daily.specs.Columns.{AreBarRings, FollowColumns, MayAdvance, SameRoom, day_steps, rings_of};

use crate::bars::read_bars;
use crate::day::Day;
use crate::events::take_events;
use crate::rings::{Rings, push_row};
use circular_buffer::HeapCircularBuffer;
use pl_fixed::{Column, Steps};
use std::sync::ledger::Ledger;

/// The rings of the five bar columns, one for each asset: each has the cells of the last sessions before the
/// last day as they are seen on it, oldest first, in millionths. `calendar` has the days of the last sessions
/// up to that day, counted from 1970-01-01; `row` is room for one cell of each asset.
pub struct BarRings {
    pub calendar: HeapCircularBuffer<i32>,
    pub open_price: Rings,
    pub high: Rings,
    pub low: Rings,
    pub close: Rings,
    pub volume: Rings,
    pub row: Vec<i64>,
}

// One call lets rings go, so that no caller's proof goes into their parts.
impl Drop for BarRings {
    fn drop(self) {
        let BarRings {
            calendar: _calendar,
            open_price: _open_price,
            high: _high,
            low: _low,
            close: _close,
            volume: _volume,
            row: _row,
        } = self;
    }
}

// What a day makes of the rings of a column. The days are those of the sessions of the rings' cells, and the
// row is for the day's bars.
fn advance_rings<L: Ledger>(
    rings: &mut [HeapCircularBuffer<i64>],
    days: &[i32],
    fed: usize,
    day: &Day,
    column: Column,
    row: &mut [i64],
    steps: &mut Steps<L>,
)
    requires rings { AreRings (length row.old) (length days.now) rings.old }
    requires handed_in { IsHandedIn (length row.old) fed day.now.bars.now day.now.events.now }
    ensures follow { FollowBars day.now.bars.now day.now.events.now fed days.now column
        (length days.now) rings.old rings.new }
    ensures rings { AreRings (length row.old) (length days.now) rings.new }
    ensures row { length row.new ≡ length row.old }
    ensures cost { steps.new ≡ steps.old
        + length (scaling column day.now.events.now) * min (length days.now) fed }
{
    read_bars(day.bars, column, row);
    push_row(rings, row);
    take_events(rings, days, fed, day.events, column, steps);
}

// The same of all that the column has. The calendar has the days of more sessions.
fn advance_column<L: Ledger>(
    rings: &mut Rings,
    calendar: &[i32],
    fed: usize,
    day: &Day,
    column: Column,
    row: &mut [i64],
    steps: &mut Steps<L>,
)
    requires { MayAdvance (length row.old) (length calendar.now) fed day.now.bars.now day.now.events.now
        rings.old }
    ensures capacity { rings.new.capacity ≡ rings.old.capacity }
    ensures follow { FollowBars day.now.bars.now day.now.events.now fed
        (drop (length calendar.now - rings.old.capacity) calendar.now) column rings.old.capacity
        rings.old.rings.items rings.new.rings.items }
    ensures rings { AreRings (length row.old) rings.new.capacity rings.new.rings.items }
    ensures row { length row.new ≡ length row.old }
    ensures cost { steps.new ≡ steps.old
        + length (scaling column day.now.events.now) * min rings.old.capacity fed }
{
    // where no window reads the column, nothing is held of it
    if rings.capacity == 0 {
        return;
    }
    let days = &calendar[calendar.len() - rings.capacity..];
    advance_rings(&mut rings.rings, days, fed, day, column, row, steps);
}

// Puts a day after those of the calendar.
fn put_day(calendar: &mut HeapCircularBuffer<i32>, day: &Day)
    ensures { calendar.new ≡ buffer
        (keep_last calendar.old.capacity (calendar.old.items ++ day.now.day ∷ [])) calendar.old.capacity }
{
    calendar.push_back(day.day);
}

impl BarRings {
    /// The rings of the column, one for each asset by ascending sid.
    pub fn of(&self, column: Column) -> &Rings
        ensures { result.now ≡ rings_of self.now column }
    {
        match column {
            Column::OpenPrice => &self.open_price,
            Column::High => &self.high,
            Column::Low => &self.low,
            Column::Close => &self.close,
            Column::Volume => &self.volume,
        }
    }

    /// Takes a day in, before which `fed` days were: its bars become the newest of the rings, as they are
    /// seen on the day, and its adjustments change the older ones. It takes no memory.
    pub fn advance<L: Ledger>(&mut self, day: &Day, fed: usize, steps: &mut Steps<L>)
        requires rings { AreBarRings (length self.old.row.items) self.old }
        requires handed_in { IsHandedIn (length self.old.row.items) fed day.now.bars.now day.now.events.now }
        ensures follow { FollowColumns day.now.day day.now.bars.now day.now.events.now fed self.old self.new }
        ensures rings { AreBarRings (length self.old.row.items) self.new }
        ensures room { SameRoom self.old self.new }
        ensures cost { steps.new ≡ steps.old + day_steps self.old fed day.now.events.now }
    {
        let calendar = self.calendar.make_contiguous();
        let row = self.row.as_mut_slice();
        advance_column(
            &mut self.open_price,
            calendar,
            fed,
            day,
            Column::OpenPrice,
            row,
            steps,
        );
        advance_column(&mut self.high, calendar, fed, day, Column::High, row, steps);
        advance_column(&mut self.low, calendar, fed, day, Column::Low, row, steps);
        advance_column(
            &mut self.close,
            calendar,
            fed,
            day,
            Column::Close,
            row,
            steps,
        );
        advance_column(
            &mut self.volume,
            calendar,
            fed,
            day,
            Column::Volume,
            row,
            steps,
        );
        put_day(&mut self.calendar, day);
    }
}
