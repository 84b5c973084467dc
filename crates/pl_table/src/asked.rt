//! What a table is asked of.
ghost use Rattle.pl_world.specs.Worlds.{IsMade};
ghost use Rattle.pl_terms.specs.Checked.{pipeline_of};
ghost use Rattle.pl_planner.specs.Plans.{IsPlanOf};
ghost use Rattle.pl_table.specs.Asked.{IsAsked};

use pl_planner::Plan;
use pl_spec::Format;
use pl_terms::Checked;
use pl_world::World;
use pl_world::laws::parts_make_a_world;

/// What a table is asked of: a world, a checked pipeline, its plan over the world's sessions, and the form in
/// which the rows are written.
#[derive(Clone, Copy)]
pub struct Asked<'a> {
    pub world: World<'a>,
    pub checked: &'a Checked,
    pub plan: &'a Plan,
    pub format: Format,
}

/// What the types keep of the four is at hand after one call. It does nothing: a world whose parts were made
/// for one another and a plan of the pipeline are enough.
pub fn is_asked(asked: &Asked<'_>)
    requires made { IsMade asked.now.world }
    requires plan { IsPlanOf asked.now.world.sessions.now (pipeline_of asked.now.checked.now)
        asked.now.plan.now }
    ensures { IsAsked asked.now }
{
    parts_make_a_world(&asked.world);
    asked.checked.graph();
}
