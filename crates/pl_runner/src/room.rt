//! How long the arrays of a run are at most.
ghost use Rattle.std.specs.Prelude.{◌≡◌, ◌≤◌, ◌<◌, ◌+◌, ◌-◌, ◌^◌, ℕ, true, Some, length, slice_get, vec_capacity};
ghost use Rattle.pl_table.specs.Asked.{IsAsked, asked_pipeline, asked_world};
ghost use Rattle.pl_planner.specs.Plans.{is_used, low_at};
ghost use Rattle.pl_pipeline.specs.Term.{Node};
ghost use Rattle.pl_runner.specs.Chunks as spec;
ghost use Rattle.pl_runner.specs.Room.{HasRoom, IsMost};

use crate::columns::put_columns;
use crate::pieces::{chunk_at, chunk_count};
use pl_exec::Chunk;
use pl_table::Asked;
use pl_terms::TermId;

/// The greatest number of cells that an array of a term or of a bar column has in a chunk of at most `size`
/// sessions. `cols` is used for the assets of the chunks.
pub(crate) fn longest_array(asked: &Asked<'_>, size: usize, cols: &mut Vec<u32>) -> usize
    requires asked { IsAsked asked.now }
    requires some { 1 ≤ size }
    requires few { size < 2 ^ 32 }
    requires room { length asked.now.world.assets.now ≤ vec_capacity cols.old }
    ensures each { let plan = asked.now.plan.now in (i : ℕ) → i < spec.chunk_count plan.from plan.to size
        → HasRoom (asked_world asked.now) (asked_pipeline asked.now) plan
        (spec.chunk_at plan.from plan.to size i) result }
    ensures least { let plan = asked.now.plan.now in (len : ℕ)
        → ((i : ℕ) → i < spec.chunk_count plan.from plan.to size
        → HasRoom (asked_world asked.now) (asked_pipeline asked.now) plan
        (spec.chunk_at plan.from plan.to size i) len) → result ≤ len }
    ensures room { length asked.now.world.assets.now ≤ vec_capacity cols.new }
{
    let mut longest = 0;
    for i in 0..chunk_count(asked.plan.from(), asked.plan.to(), size) {
        let chunk = chunk_at(asked.plan.from(), asked.plan.to(), size, i);
        longest = longest.max(array_of(asked, chunk, cols));
    }
    longest
}

// The number of cells in one chunk.
fn array_of(asked: &Asked<'_>, chunk: Chunk, cols: &mut Vec<u32>) -> usize
    requires asked { IsAsked asked.now }
    requires from { asked.now.plan.now.from ≤ chunk.from }
    requires order { chunk.from ≤ chunk.to }
    requires to { chunk.to ≤ asked.now.plan.now.to }
    requires short { chunk.to < 2 ^ 32 }
    requires room { length asked.now.world.assets.now ≤ vec_capacity cols.old }
    ensures each { HasRoom (asked_world asked.now) (asked_pipeline asked.now) asked.now.plan.now chunk
        result }
    ensures least { (len : ℕ) → HasRoom (asked_world asked.now) (asked_pipeline asked.now)
        asked.now.plan.now chunk len → result ≤ len }
    ensures room { length asked.now.world.assets.now ≤ vec_capacity cols.new }
{
    put_columns(asked, chunk, cols);
    cols.len() * most_rows(asked, chunk)
}

// The greatest number of sessions that a term or one of its bar columns has.
fn most_rows(asked: &Asked<'_>, chunk: Chunk) -> usize
    requires asked { IsAsked asked.now }
    requires from { asked.now.plan.now.from ≤ chunk.from }
    requires order { chunk.from ≤ chunk.to }
    requires to { chunk.to ≤ asked.now.plan.now.to }
    requires short { chunk.to < 2 ^ 32 }
    ensures most { IsMost (asked_pipeline asked.now) asked.now.plan.now chunk
        (length (asked_pipeline asked.now).graph) result }
    ensures few { result < 2 ^ 33 }
{
    let mut most = 0;
    for t in 0..asked.checked.graph().len() {
        let term = TermId(t as u8);
        if asked.plan.is_used(term) {
            most = most.max(rows_of(asked, chunk, term));
        }
    }
    most
}

// The sessions from the first one of a term to the last one of the chunk, and its window before them.
fn rows_of(asked: &Asked<'_>, chunk: Chunk, term: TermId) -> usize
    requires asked { IsAsked asked.now }
    requires from { asked.now.plan.now.from ≤ chunk.from }
    requires order { chunk.from ≤ chunk.to }
    requires to { chunk.to ≤ asked.now.plan.now.to }
    requires short { chunk.to < 2 ^ 32 }
    requires used { is_used asked.now.plan.now term.0 ≡ true }
    ensures value { (n : Node) → slice_get (asked_pipeline asked.now).graph term.0 ≡ Some n
        → result ≡ chunk.to - low_at asked.now.plan.now term.0 chunk.from + n.window }
    ensures few { result < 2 ^ 33 }
{
    let low = asked.plan.low_at(term, chunk.from);
    chunk.to - low + asked.checked.graph().node(term).window as usize
}
