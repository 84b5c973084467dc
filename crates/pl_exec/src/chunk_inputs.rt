//! What a chunk is computed from.
ghost use Rattle.std.specs.Prelude.{◌≡◌, ◌+◌, ◌-◌, ◌*◌, ◌<◌, ◌≤◌, true, drop, get_or, length, pos, slice_get, take, Some};
ghost use Rattle.pl_terms.specs.Nodes.{node_of};
ghost use Rattle.pl_planner.specs.Plans.{is_used, slot_of};
ghost use Rattle.pl_workspace.specs.Slots.{Live, slot_at};
ghost use Rattle.pl_exec.specs.Slotted.{IsHeld};
ghost use Rattle.pl_exec.specs.Tasks.{IsArray, graph_in, low_in};
ghost use Rattle.pl_exec.specs.ChunkInputs.{IsArrayOf, AreChunkInputs, task_of};

use pl_planner::Plan;
use pl_terms::{Checked, Node, TermId};
use pl_workspace::Workspace;
use pl_world::World;

/// The sessions from one to another of a planned pipeline, for the assets in some columns.
#[derive(Clone, Copy)]
pub(crate) struct ChunkInputs<'a> {
    pub(crate) world: World<'a>,
    pub(crate) checked: &'a Checked,
    pub(crate) plan: &'a Plan,
    pub(crate) cols: &'a [u32],
    pub(crate) from: usize,
    pub(crate) to: usize,
}

/// A finished array: the cells of `count` sessions from `low` on, asset by asset.
#[derive(Clone, Copy)]
pub(crate) struct Array<'a> {
    pub(crate) cells: &'a [i64],
    pub(crate) low: usize,
    pub(crate) count: usize,
}

/// The node of a term.
pub(crate) fn node_of<'a>(chunk: &ChunkInputs<'a>, term: TermId) -> &'a Node
    requires { term.0 < length (graph_in (task_of chunk.now)) }
    ensures { slice_get (graph_in (task_of chunk.now)) term.0 ≡ Some (node_of result.now) }
{
    chunk.checked.graph().node(term)
}

/// The first session on which a used term is computed.
pub(crate) fn low_of(chunk: &ChunkInputs<'_>, term: TermId) -> usize
    requires chunk { AreChunkInputs chunk.now }
    requires used { is_used chunk.now.plan.now term.0 ≡ true }
    ensures value { result ≡ low_in (task_of chunk.now) term.0 }
    ensures within { result ≤ chunk.now.from }
{
    chunk.plan.low_at(term, chunk.from)
}

/// The array of a term that is live.
pub(crate) fn array_of<'a>(
    chunk: &ChunkInputs<'_>,
    workspace: &'a Workspace,
    term: TermId,
) -> Array<'a>
    requires chunk { AreChunkInputs chunk.now }
    requires used { is_used chunk.now.plan.now term.0 ≡ true }
    requires held { IsHeld (IsArray (task_of chunk.now) term.0) workspace.now
        (slot_of chunk.now.plan.now term.0) }
    ensures { IsArrayOf (task_of chunk.now) term.0 result }
{
    let low = low_of(chunk, term);
    Array {
        cells: workspace.array(chunk.plan.slot(term)),
        low,
        count: chunk.to + 1 - low,
    }
}

/// The cell of an asset in an array, so many sessions after the first one.
pub(crate) fn cell_at(array: &Array<'_>, i: usize, after: usize) -> i64
    requires { i * array.now.count + after < length array.now.cells.now }
    ensures { result ≡ get_or array.now.cells.now (i * array.now.count + after) (pos 0) }
{
    array.cells[i * array.count + after]
}

/// The cells of an asset in an array, of `count` sessions.
pub(crate) fn cells_from<'t>(array: &Array<'t>, i: usize, after: usize, count: usize) -> &'t [i64]
    requires { i * array.now.count + after + count ≤ length array.now.cells.now }
    ensures { result.now ≡ take count (drop (i * array.now.count + after) array.now.cells.now) }
{
    let start = i * array.count + after;
    &array.cells[start..start + count]
}

/// The last cells of an asset in an array, up to the one so many sessions after the first.
pub(crate) fn cells_up_to<'t>(array: &Array<'t>, i: usize, after: usize, size: usize) -> &'t [i64]
    requires end { i * array.now.count + after + 1 ≤ length array.now.cells.now }
    requires size { size ≤ i * array.now.count + after + 1 }
    ensures { result.now ≡ take size (drop (i * array.now.count + after + 1 - size) array.now.cells.now) }
{
    cells_before(array.cells, i * array.count + after + 1, size)
}

// The last cells before an end.
fn cells_before(cells: &[i64], end: usize, size: usize) -> &[i64]
    requires end { end ≤ length cells.now }
    requires size { size ≤ end }
    ensures { result.now ≡ take size (drop (end - size) cells.now) }
{
    let start = end - size;
    &cells[start..end]
}
