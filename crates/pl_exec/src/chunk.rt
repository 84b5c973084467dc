//! The used terms of a chunk, one after the other, each in its planned slot.
ghost use Rattle.std.specs.Prelude.{◌≡◌, ◌+◌, ◌<◌, ◌≤◌, ◌&&◌, ℕ, true, length, max, option_map};
ghost use Rattle.pl_pipeline.specs.Graph.{columns_at};
ghost use Rattle.pl_spec.specs.Limits.{saturated};
ghost use Rattle.pl_terms.specs.Checked.{pipeline_of};
ghost use Rattle.pl_terms.specs.Nodes.{number_of};
ghost use Rattle.pl_terms.specs.Uses.{outputs};
ghost use Rattle.pl_world.specs.Worlds.{IsMade};
ghost use Rattle.pl_planner.specs.Columns.{most_held};
ghost use Rattle.pl_planner.specs.Plans.{IsPlanOf, is_used, last_user, slot_of};
ghost use Rattle.pl_workspace.specs.Slots.{Free, live_count, slot_at};
ghost use Rattle.pl_exec.specs.Slotted.{AreApart, AreLive, ends_at, left};
ghost use Rattle.pl_exec.specs.Tasks.{AreColumns, HasRoom, HoldsOutputs, IsArray, assets_in, chunk_steps, graph_in, held_in, kept_in, steps_in, term_steps};
ghost use Rattle.pl_exec.specs.ChunkInputs.{AreChunkInputs, task_of};
ghost use Rattle.pl_exec.specs.Chunks.{task};

use crate::chunk_inputs::ChunkInputs;
use crate::compute::{Filled, compute};
use crate::rows::Rows;
use pl_cross::Cross;
use pl_fixed::Steps;
use pl_planner::Plan;
use pl_terms::{Checked, TermId};
use pl_workspace::Workspace;
use pl_world::World;
use pl_world::laws::parts_make_a_world;
use std::sync::ledger::Ledger;

/// The sessions from one to another, both included, counted from 0.
#[derive(Clone, Copy, Debug, PartialEq, Eq)]
pub struct Chunk {
    pub from: usize,
    pub to: usize,
}

/// What a chunk took.
#[derive(Clone, Copy, Debug, PartialEq, Eq)]
pub struct ChunkReport {
    /// The greatest number of results and bar columns that were held at once.
    pub peak: usize,
    /// The steps of all traversals, or u64's greatest value where there are more.
    pub applied: u64,
}

fn is_last(last: Option<TermId>, k: usize) -> bool
    ensures { result ≡ ends_at (option_map number_of last) k }
{
    match last {
        Some(last) => last.0 as usize == k,
        None => false,
    }
}

// Is term k the last one that uses a used term?
fn ends(chunk: &ChunkInputs<'_>, term: TermId, k: usize) -> bool
    ensures { result ≡ (is_used chunk.now.plan.now term.0
        && ends_at (last_user chunk.now.plan.now term.0) k) }
{
    if chunk.plan.is_used(term) {
        is_last(chunk.plan.last_user(term), k)
    } else {
        false
    }
}

// Term t is released where it ends with term k.
fn release_one(chunk: &ChunkInputs<'_>, t: usize, k: usize, workspace: &mut Workspace)
    requires chunk { AreChunkInputs chunk.now }
    requires term { k < length (graph_in (task_of chunk.now)) }
    requires low { t < k + 1 }
    requires live { AreLive (slot_of chunk.now.plan.now) (IsArray (task_of chunk.now))
        (left (is_used chunk.now.plan.now) (last_user chunk.now.plan.now) k (t)) (k + 1) workspace.old }
    requires apart { AreApart (slot_of chunk.now.plan.now)
        (left (is_used chunk.now.plan.now) (last_user chunk.now.plan.now) k 0) (k + 1) }
    requires counted { live_count workspace.old.slots ≤ workspace.old.peak }
    ensures live { AreLive (slot_of chunk.now.plan.now) (IsArray (task_of chunk.now))
        (left (is_used chunk.now.plan.now) (last_user chunk.now.plan.now) k (t + 1)) (k + 1) workspace.new }
    ensures len { workspace.new.len ≡ workspace.old.len }
    ensures slots { length workspace.new.slots ≡ length workspace.old.slots }
    ensures peak { workspace.new.peak ≡ workspace.old.peak }
    ensures counted { live_count workspace.new.slots ≤ workspace.new.peak }
{
    let term = TermId(t as u8);
    if !ends(chunk, term, k) {
        return;
    }
    workspace.release(chunk.plan.slot(term));
}

// What term k reads last is released.
fn release_ended(chunk: &ChunkInputs<'_>, k: usize, workspace: &mut Workspace)
    requires chunk { AreChunkInputs chunk.now }
    requires term { k < length (graph_in (task_of chunk.now)) }
    requires live { AreLive (slot_of chunk.now.plan.now) (IsArray (task_of chunk.now))
        (left (is_used chunk.now.plan.now) (last_user chunk.now.plan.now) k (0)) (k + 1) workspace.old }
    requires apart { AreApart (slot_of chunk.now.plan.now)
        (left (is_used chunk.now.plan.now) (last_user chunk.now.plan.now) k 0) (k + 1) }
    requires counted { live_count workspace.old.slots ≤ workspace.old.peak }
    ensures live { AreLive (slot_of chunk.now.plan.now) (IsArray (task_of chunk.now))
        (left (is_used chunk.now.plan.now) (last_user chunk.now.plan.now) k (k + 1)) (k + 1) workspace.new }
    ensures len { workspace.new.len ≡ workspace.old.len }
    ensures slots { length workspace.new.slots ≡ length workspace.old.slots }
    ensures peak { workspace.new.peak ≡ workspace.old.peak }
    ensures counted { live_count workspace.new.slots ≤ workspace.new.peak }
{
    for t in 0..k + 1 {
        release_one(chunk, t, k, workspace);
    }
}

// A used term is begun in its slot, computed and finished.
fn add_term<'x, L: Ledger>(
    chunk: &'x ChunkInputs<'x>,
    term: TermId,
    workspace: &mut Workspace,
    cross: &mut Cross,
    rows: &mut Rows,
    steps: &mut Steps<L>,
) -> Filled
    requires chunk { AreChunkInputs chunk.now }
    requires used { is_used chunk.now.plan.now term.0 ≡ true }
    requires live { AreLive (slot_of chunk.now.plan.now) (IsArray (task_of chunk.now))
        (kept_in (task_of chunk.now) (term.0)) (term.0) workspace.old }
    requires counted { live_count workspace.old.slots ≤ workspace.old.peak }
    requires slots { chunk.now.plan.now.bound ≤ length workspace.old.slots }
    requires room { HasRoom (task_of chunk.now) workspace.old.len }
    requires cross { assets_in (task_of chunk.now) ≤ cross.old }
    requires rows { assets_in (task_of chunk.now) ≤ rows.old }
    ensures live { AreLive (slot_of chunk.now.plan.now) (IsArray (task_of chunk.now))
        (kept_in (task_of chunk.now) (term.0)) (term.0 + 1) workspace.new }
    ensures peak { workspace.new.peak ≡ max workspace.old.peak
        (live_count workspace.old.slots + 1 + columns_at (graph_in (task_of chunk.now)) term.0) }
    ensures held { result.held ≡ live_count workspace.old.slots + 1
        + columns_at (graph_in (task_of chunk.now)) term.0 }
    ensures cost { steps.new ≡ steps.old + term_steps (task_of chunk.now) term.0 }
    ensures applied { result.applied ≡ saturated (term_steps (task_of chunk.now) term.0) }
    ensures len { workspace.new.len ≡ workspace.old.len }
    ensures slots { length workspace.new.slots ≡ length workspace.old.slots }
    ensures cross { cross.new ≡ cross.old }
    ensures rows { rows.new ≡ rows.old }
{
    let slot = chunk.plan.slot(term);
    let mut own = workspace.begin(slot);
    let filled = compute(chunk, term, workspace, &mut own, cross, rows, steps);
    workspace.finish(slot, own);
    filled
}

// Term k, and what it reads last is released.
fn run_term<'x, L: Ledger>(
    chunk: &'x ChunkInputs<'x>,
    k: usize,
    workspace: &mut Workspace,
    cross: &mut Cross,
    rows: &mut Rows,
    steps: &mut Steps<L>,
) -> Filled
    requires chunk { AreChunkInputs chunk.now }
    requires term { k < length (graph_in (task_of chunk.now)) }
    requires live { AreLive (slot_of chunk.now.plan.now) (IsArray (task_of chunk.now))
        (kept_in (task_of chunk.now) (k)) (k) workspace.old }
    requires counted { live_count workspace.old.slots ≤ workspace.old.peak }
    requires slots { chunk.now.plan.now.bound ≤ length workspace.old.slots }
    requires room { HasRoom (task_of chunk.now) workspace.old.len }
    requires cross { assets_in (task_of chunk.now) ≤ cross.old }
    requires rows { assets_in (task_of chunk.now) ≤ rows.old }
    ensures live { AreLive (slot_of chunk.now.plan.now) (IsArray (task_of chunk.now))
        (kept_in (task_of chunk.now) (k + 1)) (k + 1) workspace.new }
    ensures counted { live_count workspace.new.slots ≤ workspace.new.peak }
    ensures peak { workspace.new.peak ≡ max workspace.old.peak (held_in (task_of chunk.now) k) }
    ensures held { result.held ≡ held_in (task_of chunk.now) k }
    ensures cost { steps.new ≡ steps.old + steps_in (task_of chunk.now) k }
    ensures applied { result.applied ≡ saturated (steps_in (task_of chunk.now) k) }
    ensures len { workspace.new.len ≡ workspace.old.len }
    ensures slots { length workspace.new.slots ≡ length workspace.old.slots }
    ensures cross { cross.new ≡ cross.old }
    ensures rows { rows.new ≡ rows.old }
{
    let term = TermId(k as u8);
    if !chunk.plan.is_used(term) {
        return Filled {
            held: 0,
            applied: 0,
        };
    }
    let filled = add_term(chunk, term, workspace, cross, rows, steps);
    release_ended(chunk, k, workspace);
    filled
}

// All used terms.
fn run_terms<'x, L: Ledger>(
    chunk: &'x ChunkInputs<'x>,
    workspace: &mut Workspace,
    cross: &mut Cross,
    rows: &mut Rows,
    steps: &mut Steps<L>,
) -> ChunkReport
    requires chunk { AreChunkInputs chunk.now }
    requires live { AreLive (slot_of chunk.now.plan.now) (IsArray (task_of chunk.now))
        (kept_in (task_of chunk.now) (0)) (0) workspace.old }
    requires counted { live_count workspace.old.slots ≤ workspace.old.peak }
    requires slots { chunk.now.plan.now.bound ≤ length workspace.old.slots }
    requires room { HasRoom (task_of chunk.now) workspace.old.len }
    requires cross { assets_in (task_of chunk.now) ≤ cross.old }
    requires rows { assets_in (task_of chunk.now) ≤ rows.old }
    ensures outputs { HoldsOutputs (task_of chunk.now) workspace.new }
    ensures workspace { workspace.new.peak ≡ max workspace.old.peak
        (most_held (graph_in (task_of chunk.now)) (outputs (task_of chunk.now).pipeline)) }
    ensures peak { result.peak ≡ most_held (graph_in (task_of chunk.now)) (outputs (task_of chunk.now).pipeline) }
    ensures applied { result.applied ≡ saturated (chunk_steps (task_of chunk.now)) }
    ensures cost { steps.new ≡ steps.old + chunk_steps (task_of chunk.now) }
    ensures len { workspace.new.len ≡ workspace.old.len }
    ensures slots { length workspace.new.slots ≡ length workspace.old.slots }
    ensures cross { cross.new ≡ cross.old }
    ensures rows { rows.new ≡ rows.old }
{
    let mut peak = 0;
    let mut applied = 0u64;
    for k in 0..term_count(chunk) {
        let filled = run_term(chunk, k, workspace, cross, rows, steps);
        peak = greater(peak, filled.held);
        applied = capped_sum(applied, filled.applied);
    }
    ChunkReport { peak, applied }
}

fn greater(a: usize, b: usize) -> usize
    ensures { result ≡ max a b }
{
    if a < b { b } else { a }
}

fn capped_sum(a: u64, b: u64) -> u64
    ensures { result ≡ saturated (a + b) }
{
    a.saturating_add(b)
}

fn term_count(chunk: &ChunkInputs<'_>) -> usize
    ensures { result ≡ length (graph_in (task_of chunk.now)) }
{
    chunk.checked.graph().len()
}

/// Computes the used terms of a planned pipeline in ascending number over the sessions that a chunk needs,
/// each into its planned slot, and its bar columns into theirs; a result is released after its last user.
/// Then each output is in its slot, asset by asset, from its first computed session to the chunk's last. It
/// takes no memory and cannot fail.
pub fn execute_chunk<L: Ledger>(
    world: &World,
    checked: &Checked,
    plan: &Plan,
    chunk: &Chunk,
    cols: &[u32],
    workspace: &mut Workspace,
    cross: &mut Cross,
    rows: &mut Rows,
    steps: &mut Steps<L>,
) -> ChunkReport
    requires made { IsMade world.now }
    requires plan { IsPlanOf world.now.sessions.now (pipeline_of checked.now) plan.now }
    requires from { plan.now.from ≤ chunk.now.from }
    requires order { chunk.now.from ≤ chunk.now.to }
    requires to { chunk.now.to ≤ plan.now.to }
    requires cols { AreColumns (task world.now checked.now plan.now chunk.now cols.now) }
    requires cross { length cols.now ≤ cross.old }
    requires rows { length cols.now ≤ rows.old }
    requires free { (s : ℕ) → s < length workspace.old.slots → slot_at workspace.old s ≡ Free }
    requires slots { plan.now.bound ≤ length workspace.old.slots }
    requires room { HasRoom (task world.now checked.now plan.now chunk.now cols.now) workspace.old.len }
    ensures outputs { HoldsOutputs (task world.now checked.now plan.now chunk.now cols.now) workspace.new }
    ensures workspace { workspace.new.peak ≡ max workspace.old.peak
        (most_held (pipeline_of checked.now).graph (outputs (pipeline_of checked.now))) }
    ensures peak { result.peak ≡ most_held (pipeline_of checked.now).graph (outputs (pipeline_of checked.now)) }
    ensures applied { result.applied ≡ saturated (chunk_steps
        (task world.now checked.now plan.now chunk.now cols.now)) }
    ensures cost { steps.new ≡ steps.old + chunk_steps
        (task world.now checked.now plan.now chunk.now cols.now) }
    ensures len { workspace.new.len ≡ workspace.old.len }
    ensures slots { length workspace.new.slots ≡ length workspace.old.slots }
    ensures cross { cross.new ≡ cross.old }
    ensures rows { rows.new ≡ rows.old }
{
    parts_make_a_world(world);
    checked.graph().len();
    let inputs = ChunkInputs {
        world: *world,
        checked,
        plan,
        cols,
        from: chunk.from,
        to: chunk.to,
    };
    run_terms(&inputs, workspace, cross, rows, steps)
}
