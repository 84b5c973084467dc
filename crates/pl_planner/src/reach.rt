//! The first session that values need.
ghost use Rattle.std.specs.Prelude.{◌≡◌, ◌<◌, ℕ, List, IfOk, length, pos};
ghost use Rattle.pl_pipeline.specs.Graph.{reach};
ghost use Rattle.pl_pipeline.specs.Lows.{least_reach};
ghost use Rattle.pl_pipeline.specs.Term.{term_at};
ghost use Rattle.pl_terms.specs.Checked.{pipeline_of};
ghost use Rattle.pl_terms.specs.Nodes.{graph_of};
ghost use Rattle.pl_planner.specs.Asked.{AreAsked};
ghost use Rattle.pl_planner.specs.Uses.{AreForOutputs, AreUses, HaveExtras};

use crate::columns::most_back;
use crate::pipeline::are_asked;
use crate::uses::{Use, gather};
use pl_calendar::Sessions;
use pl_fixed::Memory;
use pl_terms::{Checked, TermId};
use std::alloc::Global;

/// The least session that the value of a term on a session needs, of its bars and of the terms that it is of;
/// it is below 0 where there are too few sessions before. The only error is want of memory.
pub fn reach_at(
    alloc: Global,
    checked: &Checked,
    sessions: &Sessions,
    t: TermId,
    session: usize,
) -> Result<i64, Memory>
    requires term { t.0 < length checked.now.graph }
    requires session { session < length sessions.now }
    ensures { IfOk result (λ r. r
        ≡ reach sessions.now (term_at (graph_of checked.now.graph) t.0) (pos session)) }
{
    are_asked(checked, sessions);
    let uses = gather(alloc, checked, sessions, session, Some(t))?;
    Ok(reach_of(checked, sessions, &uses, session))
}

/// The least session that is reached for a session, of the outputs that these are the uses for.
pub(crate) fn reach_of(checked: &Checked, sessions: &Sessions, uses: &[Use], session: usize) -> i64
    requires asked { AreAsked sessions.now (pipeline_of checked.now) }
    requires uses { AreForOutputs sessions.now session (pipeline_of checked.now).graph uses.now }
    requires within { session < length sessions.now }
    ensures { (outputs : List ℕ) → AreUses (pipeline_of checked.now).graph outputs uses.now
        → HaveExtras sessions.now session (pipeline_of checked.now).graph outputs uses.now
        → result ≡ least_reach sessions.now (pipeline_of checked.now).graph outputs (pos session) }
{
    session as i64 - most_back(checked, sessions, uses, session) as i64
}
