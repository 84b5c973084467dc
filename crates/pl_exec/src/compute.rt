//! One term, with its bar columns in their slots while it is computed.
ghost use Rattle.std.specs.Prelude.{◌≡◌, ◌+◌, ◌*◌, ◌<◌, ◌≤◌, length};
ghost use Rattle.pl_pipeline.specs.Graph.{columns_at};
ghost use Rattle.pl_terms.specs.Nodes.{node_of};
ghost use Rattle.pl_workspace.specs.Slots.{live_count};
ghost use Rattle.pl_exec.specs.Tasks.{assets_in, count_in, graph_in, row_count};
ghost use Rattle.pl_exec.specs.ChunkInputs.{AreFree, HasRows, IsColumnRun, AreChunkInputs, IsRun, new_before, task_of};
ghost use Rattle.pl_exec.specs.Filling.{HaveRows, IsFilled, node_for, new_from, task_for};

use crate::chunk_inputs::{ChunkInputs, node_of};
use crate::columns::{new_count, one_new};
use crate::course::course_of;
use crate::fill::{fill_bars, fill_plain};
use crate::rows::Rows;
use pl_cross::Cross;
use pl_fixed::Steps;
use pl_terms::{Node, TermId};
use pl_workspace::{Buffer, Workspace};
use std::sync::ledger::Ledger;

/// What is counted while a term is computed.
#[derive(Clone, Copy)]
pub(crate) struct Filled {
    /// The slots that are in use.
    pub(crate) held: usize,
    /// The steps of the traversals, or u64's greatest value where there are more.
    pub(crate) applied: u64,
}

/// Term `id` of a chunk, which is `node`.
#[derive(Clone, Copy)]
pub(crate) struct Term<'x> {
    pub(crate) chunk: &'x ChunkInputs<'x>,
    pub(crate) id: TermId,
    pub(crate) node: &'x Node,
}

/// The cells in which the bar columns of three places in a row are traversed: those of a slot where the place
/// has a new column, and else none.
#[derive(Drop)]
pub(crate) struct Cells<'s> {
    pub(crate) first: &'s mut [i64],
    pub(crate) second: &'s mut [i64],
    pub(crate) third: &'s mut [i64],
}

// The term, with all its bar columns in slots.
fn fill_last<L: Ledger>(
    term: &Term<'_>,
    workspace: &Workspace,
    own: &mut [i64],
    first: &mut [i64],
    second: &mut [i64],
    third: &mut [i64],
    steps: &mut Steps<L>,
) -> Filled
    requires run { IsColumnRun term.now.chunk.now workspace.now term.now.id.0 (node_for term.now) }
    requires counted { live_count workspace.now.slots ≤ workspace.now.peak }
    requires room { assets_in (task_for term.now) * count_in (task_for term.now) term.now.id.0
        ≤ length own.old }
    requires first { HasRows (task_for term.now) term.now.id.0 (node_for term.now) 0 first.old }
    requires second { HasRows (task_for term.now) term.now.id.0 (node_for term.now) 1 second.old }
    requires third { HasRows (task_for term.now) term.now.id.0 (node_for term.now) 2 third.old }
    ensures { IsFilled (task_for term.now) term.now.id.0 0 workspace.now workspace.now own.new steps.old
        steps.new result }
{
    let held = workspace.live();
    let course = course_of(term.chunk, term.id, term.node, workspace);
    let applied = fill_bars(&course, own, first, second, third, steps);
    Filled { held, applied }
}

// The term, with the bar columns of the places before `place` in slots: each later place that has a new one
// has a slot too until the term is computed.
fn fill_from<L: Ledger>(
    term: &Term<'_>,
    place: usize,
    workspace: &mut Workspace,
    own: &mut [i64],
    cells: Cells<'_>,
    steps: &mut Steps<L>,
) -> Filled
    requires run { IsColumnRun term.now.chunk.now workspace.old term.now.id.0 (node_for term.now) }
    requires place { place ≤ 3 }
    requires free { AreFree (task_for term.now) workspace.old term.now.id.0
        (new_before (node_for term.now) place) }
    requires counted { live_count workspace.old.slots ≤ workspace.old.peak }
    requires columns { assets_in (task_for term.now) * row_count (task_for term.now) term.now.id.0
        ≤ workspace.old.len }
    requires room { assets_in (task_for term.now) * count_in (task_for term.now) term.now.id.0
        ≤ length own.old }
    requires cells { HaveRows term.now place cells.first.now cells.second.now cells.third.now }
    ensures { IsFilled (task_for term.now) term.now.id.0 (new_from (node_for term.now) place) workspace.old
        workspace.new own.new steps.old steps.new result }
{
    let Cells {
        first,
        second,
        third,
    } = cells;
    if place == 3 {
        return fill_last(term, workspace, own, first, second, third, steps);
    }
    if one_new(term.node, place) == 0 {
        let next = Cells {
            first: second,
            second: third,
            third: &mut [],
        };
        return fill_from(term, place + 1, workspace, own, next, steps);
    }
    let slot = term
        .chunk
        .plan
        .column_slot(term.id, new_count(term.node, place));
    let mut column = workspace.begin(slot);
    let next = Cells {
        first: second,
        second: third,
        third: column.cells_mut(),
    };
    let filled = fill_from(term, place + 1, workspace, own, next, steps);
    workspace.finish(slot, column);
    workspace.release(slot);
    filled
}

// The array of a term over bar columns, with these in their slots while it is computed.
fn fill_columns<L: Ledger>(
    term: &Term<'_>,
    workspace: &mut Workspace,
    own: &mut [i64],
    steps: &mut Steps<L>,
) -> Filled
    requires run { IsColumnRun term.now.chunk.now workspace.old term.now.id.0 (node_for term.now) }
    requires free { AreFree (task_for term.now) workspace.old term.now.id.0 0 }
    requires counted { live_count workspace.old.slots ≤ workspace.old.peak }
    requires columns { assets_in (task_for term.now) * row_count (task_for term.now) term.now.id.0
        ≤ workspace.old.len }
    requires room { assets_in (task_for term.now) * count_in (task_for term.now) term.now.id.0
        ≤ length own.old }
    ensures { IsFilled (task_for term.now) term.now.id.0 (new_from (node_for term.now) 0) workspace.old
        workspace.new own.new steps.old steps.new result }
{
    let cells = Cells {
        first: &mut [],
        second: &mut [],
        third: &mut [],
    };
    fill_from(term, 0, workspace, own, cells, steps)
}

/// The array of a term, with its bar columns in their slots while it is computed.
pub(crate) fn compute<'x, L: Ledger>(
    chunk: &'x ChunkInputs<'x>,
    id: TermId,
    workspace: &mut Workspace,
    own: &mut Buffer,
    cross: &mut Cross,
    rows: &mut Rows,
    steps: &mut Steps<L>,
) -> Filled
    requires chunk { AreChunkInputs chunk.now }
    requires run { IsRun (task_of chunk.now) workspace.old id.0 }
    requires free { AreFree (task_of chunk.now) workspace.old id.0 0 }
    requires counted { live_count workspace.old.slots ≤ workspace.old.peak }
    requires columns { 0 < columns_at (graph_in (task_of chunk.now)) id.0
        → assets_in (task_of chunk.now) * row_count (task_of chunk.now) id.0 ≤ workspace.old.len }
    requires room { assets_in (task_of chunk.now) * count_in (task_of chunk.now) id.0 ≤ length own.old.cells }
    requires cross { assets_in (task_of chunk.now) ≤ cross.old }
    requires rows { assets_in (task_of chunk.now) ≤ rows.old }
    ensures own { (own.new.slot ≡ own.old.slot) × (length own.new.cells ≡ length own.old.cells) }
    ensures filled { IsFilled (task_of chunk.now) id.0 (columns_at (graph_in (task_of chunk.now)) id.0)
        workspace.old workspace.new own.new.cells steps.old steps.new result }
    ensures cross { cross.new ≡ cross.old }
    ensures rows { rows.new ≡ rows.old }
{
    let node = node_of(chunk, id);
    if new_count(node, 3) > 0 {
        let term = Term { chunk, id, node };
        return fill_columns(&term, workspace, own.cells_mut(), steps);
    }
    let held = workspace.live();
    let course = course_of(chunk, id, node, workspace);
    fill_plain(&course, own.cells_mut(), cross, rows);
    Filled { held, applied: 0 }
}
