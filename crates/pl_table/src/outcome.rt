//! The values of some sessions, in a workspace.
ghost use Rattle.std.specs.Prelude.{◌≡◌, ◌<◌, ◌≤◌, ◌+◌, ◌-◌, ◌*◌, ℕ, true, pos, length, get_or};
ghost use Rattle.pl_spec.specs.Rounding.{IsCell};
ghost use Rattle.pl_pipeline.specs.Graph.{contains};
ghost use Rattle.pl_terms.specs.Uses.{outputs};
ghost use Rattle.pl_cross.specs.Arrays.{sid_in};
ghost use Rattle.pl_values.specs.Arrays.{cell_of};
ghost use Rattle.pl_table.specs.Outcomes.{IsOutcome, IsWithin, pipeline_in, sids_in, world_in};

use crate::asked::Asked;
use pl_terms::TermId;
use pl_workspace::Workspace;

/// The sessions `from` to `to`, both included, of what a table is asked of, computed for the assets in the
/// columns `cols`: each output's values are in its slot of the workspace.
#[derive(Clone, Copy)]
pub struct Outcome<'a> {
    pub asked: Asked<'a>,
    pub cols: &'a [u32],
    pub from: usize,
    pub to: usize,
    pub workspace: &'a Workspace,
}

/// The sid of the asset in a place.
pub(crate) fn sid_of(outcome: &Outcome<'_>, place: usize) -> u32
    requires outcome { IsOutcome outcome.now }
    requires place { place < length outcome.now.cols.now }
    ensures { result ≡ sid_in (sids_in outcome.now) place }
{
    outcome.asked.world.assets.sid(outcome.cols[place] as usize)
}

/// The cell of an output for the asset in a place on a session.
pub(crate) fn cell_at(outcome: &Outcome<'_>, term: TermId, place: usize, session: usize) -> i64
    requires outcome { IsOutcome outcome.now }
    requires output { contains (outputs (pipeline_in outcome.now)) term.0 ≡ true }
    requires place { place < length outcome.now.cols.now }
    requires session { IsWithin outcome.now session }
    ensures value { result ≡ cell_of (world_in outcome.now) (pipeline_in outcome.now)
        (sids_in outcome.now) term.0 place session }
    ensures cell { IsCell result }
{
    let low = outcome.asked.plan.low_at(term, outcome.from);
    let count = outcome.to + 1 - low;
    let cells = outcome.workspace.array(outcome.asked.plan.slot(term));
    cells[place * count + (session - low)]
}

/// The cells of an output for the asset in a place, on a number of sessions from `first` on.
pub(crate) fn cells_from<'a>(
    outcome: &Outcome<'a>,
    term: TermId,
    place: usize,
    first: usize,
    count: usize,
) -> &'a [i64]
    requires outcome { IsOutcome outcome.now }
    requires output { contains (outputs (pipeline_in outcome.now)) term.0 ≡ true }
    requires place { place < length outcome.now.cols.now }
    requires first { IsWithin outcome.now first }
    requires last { first + count ≤ outcome.now.to + 1 }
    ensures size { length result.now ≡ count }
    ensures each { (j : ℕ) → j < count → get_or result.now j (pos 0) ≡ cell_of (world_in outcome.now)
        (pipeline_in outcome.now) (sids_in outcome.now) term.0 place (first + j) }
{
    let low = outcome.asked.plan.low_at(term, outcome.from);
    let cells = outcome.workspace.array(outcome.asked.plan.slot(term));
    let start = place * (outcome.to + 1 - low) + (first - low);
    &cells[start..start + count]
}
