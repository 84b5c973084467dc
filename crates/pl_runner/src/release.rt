//! The slots of a chunk's outputs are given back.
ghost use Rattle.std.specs.Prelude.{◌≡◌, ◌<◌, ℕ, length};
ghost use Rattle.pl_pipeline.specs.Graph.{contains};
ghost use Rattle.pl_table.specs.Asked.{IsAsked, asked_pipeline};
ghost use Rattle.pl_terms.specs.Uses.{outputs};
ghost use Rattle.pl_workspace.specs.Slots.{Free, slot_at};
ghost use Rattle.pl_runner.specs.Releases.{HoldOnly};

use pl_table::Asked;
use pl_terms::TermId;
use pl_workspace::Workspace;

/// Releases the outputs: then all slots are free.
pub(crate) fn release_outputs(asked: &Asked<'_>, workspace: &mut Workspace)
    requires asked { IsAsked asked.now }
    requires held { HoldOnly (asked_pipeline asked.now) asked.now.plan.now 0 workspace.old }
    ensures free { (s : ℕ) → s < length workspace.new.slots → slot_at workspace.new s ≡ Free }
    ensures slots { length workspace.new.slots ≡ length workspace.old.slots }
    ensures len { workspace.new.len ≡ workspace.old.len }
{
    for t in 0..asked.checked.graph().len() {
        let term = TermId(t as u8);
        if is_output(asked, term) {
            workspace.release(asked.plan.slot(term));
        }
    }
}

// A used term that no term reads last is an output.
fn is_output(asked: &Asked<'_>, term: TermId) -> bool
    requires asked { IsAsked asked.now }
    ensures { result ≡ contains (outputs (asked_pipeline asked.now)) term.0 }
{
    asked.plan.is_used(term) && asked.plan.last_user(term).is_none()
}
