//! The records that numbers beside bars are of.
ghost use Rattle.std.specs.Prelude.{◌≡◌, ◌<◌, false, IfNone, IfSome, length, pos};
ghost use Rattle.pl_spec.specs.Dates.{IsDay};
ghost use Rattle.pl_spec.specs.Parts.{sid_at};
ghost use Rattle.pl_pipeline.specs.Kind.Kind.{Number};
ghost use Rattle.pl_terms.specs.Checked.{pipeline_of};
ghost use Rattle.pl_terms.specs.Kinds.{kind_of};
ghost use Rattle.pl_derivation.specs.Facts.{known_day};
ghost use Rattle.pl_derivation.specs.Facts.Fact.{TermValue};
ghost use Rattle.pl_world.specs.Present.{is_number_kind};
ghost use Rattle.pl_world.specs.Worlds.{world_of};
ghost use Rattle.pl_explain.specs.Given.{IsReady};

use crate::basis::node_in;
use pl_terms::{Checked, Figure, Node, TermId};
use pl_values::{Family, family_of};
use pl_world::{World, exists, number_day};

/// The day from which the number that a term reads for the asset in a column was known, as the session has it; `None`
/// where the term is no number beside bars, none was known by then, or the asset does not exist.
pub(crate) fn known_day(
    world: &World,
    checked: &Checked,
    t: TermId,
    col: usize,
    session: usize,
) -> Option<i32>
    requires ready { IsReady world.now checked.now }
    requires term { t.0 < length checked.now.graph }
    requires col { col < length world.now.assets.now }
    requires session { session < length world.now.sessions.now }
    ensures exact { result ≡ known_day (world_of world.now) (pipeline_of checked.now)
        (TermValue t.0 (sid_at world.now.assets.now col) (pos session)) }
    ensures day { IfSome result IsDay }
{
    if !exists(world, col, session) {
        return None;
    }
    match number_name(node_in(checked, t)) {
        Some((_, name)) => number_day(world, checked, name, col, session),
        None => None,
    }
}

// What a node reads of a number beside bars, and the number of the name.
fn number_name(node: &Node) -> Option<(Figure, u32)>
    ensures some { IfSome result (λ r. kind_of node.now.kind ≡ Number r.0 r.1) }
    ensures none { IfNone result (is_number_kind (kind_of node.now.kind) ≡ false) }
{
    match family_of(&node.kind) {
        Family::Number(figure, name) => Some((figure, name)),
        _ => None,
    }
}
