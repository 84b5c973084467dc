//! What a run keeps between the sessions.
ghost use Rattle.std.specs.Prelude.{IfOk};
ghost use Rattle.pl_table.specs.Asked.{IsAsked, asked_pipeline};
ghost use Rattle.pl_runner.specs.States.{IsState};

use pl_daily::{Daily, DayBar, DayEvent};
use pl_fixed::Memory;
use pl_table::{Asked, Line};
use std::alloc::Global;

/// What is kept between the sessions: the daily evaluation, for each asset the place of its next bar, and the
/// memory for the bars and the adjustments of a session and for a line of the table.
pub struct RunState<'a> {
    pub(crate) daily: Daily<'a>,
    pub(crate) places: Vec<usize>,
    pub(crate) bars: Vec<DayBar>,
    pub(crate) events: Vec<DayEvent>,
    pub(crate) line: Line,
}

// One call lets it go, so that no run's proof goes into its parts.
impl<'a> Drop for RunState<'a> {
    fn drop(self) {
        let RunState {
            daily: _daily,
            places: _places,
            bars: _bars,
            events: _events,
            line: _line,
        } = self;
    }
}

impl<'a> RunState<'a> {
    /// Takes the memory; no session was fed. The only error is that there is none.
    pub(crate) fn reserve(alloc: Global, asked: &Asked<'a>) -> Result<RunState<'a>, Memory>
        requires { IsAsked asked.now }
        ensures { IfOk result (IsState asked.now.world (asked_pipeline asked.now) 0) }
    {
        let world = &asked.world;
        // the evaluation last: no exit lets it go
        let places = vec![in alloc; 0; world.assets.len()]?;
        let bars = Vec::with_capacity(alloc, world.assets.len())?;
        let events = Vec::with_capacity(alloc, world.adjustments.len())?;
        let line = Line::reserve(alloc)?;
        let daily = Daily::with_numbers(
            alloc,
            asked.checked,
            world.assets,
            world.labels,
            world.numbers,
        )?;
        Ok(RunState {
            daily,
            places,
            bars,
            events,
            line,
        })
    }
}
