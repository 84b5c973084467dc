//! Operations on the values of one place, for an asset on all sessions at once.
ghost use Rattle.std.specs.Prelude.{◌≡◌, ℕ, true, length, slice_get};
ghost use Rattle.pl_values.specs.Families.{is_point};
ghost use Rattle.pl_exec.specs.ChunkInputs.{AreGiven, IsLane, IsLent, IsOperand, IsOperandOf, IsReadFrom, node_in, task_in};

use crate::chunk_inputs::{Array, cells_from};
use crate::course::Lane;
use crate::windows::Source;
use pl_pointwise::pointwise;
use pl_values::kind_of;

// The cells of an array for an asset, on the sessions of the course.
fn lane_of<'t>(lane: &Lane<'_>, array: &Array<'t>) -> &'t [i64]
    requires lane { IsLane lane.now }
    requires read { (u : ℕ) × IsReadFrom lane.now.course.now u array.now }
    ensures { (u : ℕ) → IsReadFrom lane.now.course.now u array.now
        → IsOperand lane.now.course.now u lane.now.i result.now }
{
    let after = lane.course.low - array.low;
    cells_from(array, lane.i, after, lane.course.count)
}

/// The cells of an input that is a term; any other is of no matter.
pub(crate) fn operand<'t>(lane: &Lane<'_>, source: &Source<'t>, place: usize) -> &'t [i64]
    requires lane { IsLane lane.now }
    requires lent { IsLent (task_in lane.now.course.now) (node_in lane.now.course.now)
        (slice_get (node_in lane.now.course.now).inputs place) source.now }
    ensures { IsOperandOf lane.now.course.now (slice_get (node_in lane.now.course.now).inputs place)
        lane.now.i result.now }
{
    match source {
        Source::InTerm(array) => lane_of(lane, array),
        Source::InColumn(_) => &[],
        Source::InNone => &[],
    }
}

/// What the operation gives for an asset, whether it is kept or not.
pub(crate) fn point_lane(lane: &Lane<'_>, out: &mut [i64])
    requires lane { IsLane lane.now }
    requires kind { is_point (node_in lane.now.course.now).kind ≡ true }
    requires long { length out.old ≡ lane.now.course.now.count }
    ensures { AreGiven lane.now.course.now lane.now.i out.new }
{
    let first = operand(lane, &lane.sources.first, 0);
    let second = operand(lane, &lane.sources.second, 1);
    let third = operand(lane, &lane.sources.third, 2);
    pointwise(kind_of(lane.course.node), first, second, third, out);
}
