//! One session.
ghost use Rattle.std.specs.Prelude.{◌≡◌, ◌<◌, ◌+◌, length};
ghost use Rattle.pl_table.specs.Asked.{IsAsked, asked_pipeline, asked_world};
ghost use Rattle.pl_runner.specs.Feeds.{session_work};
ghost use Rattle.pl_runner.specs.States.{IsState};

use crate::news::{fill_bars, fill_events};
use crate::state::RunState;
use pl_daily::Day;
use pl_fixed::Steps;
use pl_table::Asked;
use std::sync::ledger::Ledger;

/// Feeds a session, before which all earlier ones were fed. Its news take the place of those of the session
/// before it.
pub(crate) fn feed<L: Ledger>(
    asked: &Asked<'_>,
    session: usize,
    state: &mut RunState<'_>,
    steps: &mut Steps<L>,
)
    requires asked { IsAsked asked.now }
    requires session { session < length asked.now.world.sessions.now }
    requires state { IsState asked.now.world (asked_pipeline asked.now) session state.old }
    ensures state { IsState asked.now.world (asked_pipeline asked.now) (session + 1) state.new }
    ensures cost { steps.new ≡ steps.old
        + session_work (asked_world asked.now) (asked_pipeline asked.now) session }
{
    fill_bars(&asked.world, session, &mut state.places, &mut state.bars);
    fill_events(&asked.world, session, &mut state.events);
    let day = Day {
        day: asked.world.sessions.day(session),
        bars: &state.bars,
        events: &state.events,
    };
    match state.daily.advance(&day, steps) {
        Ok(_) => {}
        // the days of sessions ascend
        Err(_) => unreachable!(),
    }
}
