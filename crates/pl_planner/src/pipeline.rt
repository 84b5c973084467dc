//! What a plan is asked of, and the terms of a checked pipeline by their numbers.

ghost use Rattle.std.specs.Prelude.{◌≡◌, ◌<◌, ◌≤◌, Some, length, slice_get};
ghost use Rattle.pl_spec.specs.Limits.{most_terms};
ghost use Rattle.pl_terms.specs.Checked.{IsChecked, pipeline_of};
ghost use Rattle.pl_terms.specs.Nodes.{node_of};
ghost use Rattle.pl_planner.specs.Asked.{AreAsked};

use pl_calendar::Sessions;
use pl_terms::{Checked, Node, TermId};

/// What the types keep of the two is at hand after one call, which does nothing.
pub(crate) fn are_asked(checked: &Checked, sessions: &Sessions)
    ensures { AreAsked sessions.now (pipeline_of checked.now) }
{
    count(checked);
    sessions.len();
}

/// How many terms there are.
pub fn count(checked: &Checked) -> usize
    ensures count { result ≡ length (pipeline_of checked.now).graph }
    ensures few { result ≤ most_terms }
    ensures checked { IsChecked (pipeline_of checked.now) }
{
    checked.graph().len()
}

/// The node of a number.
pub fn node_at(checked: &Checked, k: usize) -> &Node
    requires within { k < length (pipeline_of checked.now).graph }
    requires few { length (pipeline_of checked.now).graph ≤ most_terms }
    ensures { slice_get (pipeline_of checked.now).graph k ≡ Some (node_of result.now) }
{
    checked.graph().node(TermId(k as u8))
}
