//! What facts are stated of.

ghost use Rattle.std.specs.Prelude.{◌≡◌, ◌<◌, length, slice_get, Some};
ghost use Rattle.pl_world.specs.Worlds.{IsMade};
ghost use Rattle.pl_explain.specs.Given.{IsReady};

use crate::fact_numbers::FactNumbers;
use pl_terms::{Checked, Node, TermId};
use pl_world::World;
use pl_world::laws::parts_make_a_world;

/// A world and a checked pipeline, and what is stated of their facts.
#[derive(Clone, Copy)]
pub(crate) struct Basis<'a> {
    pub(crate) world: World<'a>,
    pub(crate) checked: &'a Checked,
    pub(crate) stated: &'a FactNumbers,
}

/// What the parts of a world and a checked pipeline keep is all that is needed of them.
pub(crate) fn parts_are_ready(world: &World, checked: &Checked)
    requires { IsMade world.now }
    ensures { IsReady world.now checked.now }
{
    parts_make_a_world(world);
    checked.graph();
}

/// The node of a term.
pub(crate) fn node_in(checked: &Checked, t: TermId) -> &Node
    requires { t.0 < length checked.now.graph }
    ensures { slice_get checked.now.graph t.0 ≡ Some result.now }
{
    checked.graph().node(t)
}
