//! Which rows there are.
ghost use Rattle.std.specs.Prelude.{◌≡◌, ◌<◌, pos, length};
ghost use Rattle.pl_spec.specs.World.{exists};
ghost use Rattle.pl_pipeline.specs.Table.{is_kept};
ghost use Rattle.pl_cross.specs.Arrays.{sid_in};
ghost use Rattle.pl_table.specs.Outcomes.{IsOutcome, IsWithin, pipeline_in, sids_in, world_in};
ghost use Rattle.pl_table.specs.Rows.{has_row};

use crate::outcome::{Outcome, cell_at};

/// Does the asset exist on the session, and does the screen keep it?
pub(crate) fn has_row(outcome: &Outcome<'_>, place: usize, session: usize) -> bool
    requires outcome { IsOutcome outcome.now }
    requires place { place < length outcome.now.cols.now }
    requires session { IsWithin outcome.now session }
    ensures { result ≡ has_row (world_in outcome.now) (pipeline_in outcome.now) session
        (sid_in (sids_in outcome.now) place) }
{
    exists(outcome, place, session) && passes(outcome, place, session)
}

// Does the asset exist on the session?
fn exists(outcome: &Outcome<'_>, place: usize, session: usize) -> bool
    requires outcome { IsOutcome outcome.now }
    requires place { place < length outcome.now.cols.now }
    requires session { IsWithin outcome.now session }
    ensures { result ≡ exists (world_in outcome.now) (sid_in (sids_in outcome.now) place) (pos session) }
{
    let day = outcome.asked.world.sessions.day(session);
    outcome
        .asked
        .world
        .assets
        .exists(outcome.cols[place] as usize, day)
}

// Does the screen keep it, where there is one?
fn passes(outcome: &Outcome<'_>, place: usize, session: usize) -> bool
    requires outcome { IsOutcome outcome.now }
    requires place { place < length outcome.now.cols.now }
    requires session { IsWithin outcome.now session }
    ensures { result ≡ is_kept (world_in outcome.now) (pipeline_in outcome.now)
        (pipeline_in outcome.now).screen (pos session) (sid_in (sids_in outcome.now) place) }
{
    match outcome.asked.checked.screen() {
        Some(term) => cell_at(outcome, term, place, session) == 1,
        None => true,
    }
}
