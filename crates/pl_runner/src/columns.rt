//! The assets of a chunk.
ghost use Rattle.std.specs.Prelude.{◌≡◌, ◌≤◌, ◌<◌, length, filter, vec_capacity};
ghost use Rattle.std.specs.List.{range_with_len};
ghost use Rattle.pl_table.specs.Asked.{IsAsked, asked_pipeline, asked_world};
ghost use Rattle.pl_runner.specs.Chunks.{columns_of, lives_within};

use crate::lows::least_low;
use pl_exec::Chunk;
use pl_table::Asked;
use pl_world::exists;

/// Puts the columns of the assets of a chunk, ascending, which exist on a session on which a used term is
/// computed, in place of those that are there. It takes no memory: there is room for all assets.
pub(crate) fn put_columns(asked: &Asked<'_>, chunk: Chunk, cols: &mut Vec<u32>)
    requires asked { IsAsked asked.now }
    requires from { asked.now.plan.now.from ≤ chunk.from }
    requires order { chunk.from ≤ chunk.to }
    requires to { chunk.to ≤ asked.now.plan.now.to }
    requires room { length asked.now.world.assets.now ≤ vec_capacity cols.old }
    ensures cols { cols.new.items
        ≡ columns_of (asked_world asked.now) (asked_pipeline asked.now) asked.now.plan.now chunk }
    ensures room { length asked.now.world.assets.now ≤ vec_capacity cols.new }
{
    let low = least_low(asked, chunk.from);
    put_living(asked, low, chunk.to, cols);
}

// Puts the columns of the assets that exist on one of the sessions `low` to `to`.
fn put_living(asked: &Asked<'_>, low: usize, to: usize, cols: &mut Vec<u32>)
    requires asked { IsAsked asked.now }
    requires to { to < length asked.now.world.sessions.now }
    requires room { length asked.now.world.assets.now ≤ vec_capacity cols.old }
    ensures cols { cols.new.items
        ≡ filter (lives_within (asked_world asked.now) low to)
        (range_with_len 0 (length asked.now.world.assets.now)) }
    ensures room { length asked.now.world.assets.now ≤ vec_capacity cols.new }
{
    cols.clear();
    for col in 0..asked.world.assets.len() {
        if lives_within(asked, col, low, to) {
            cols.push(col as u32).unwrap();
        }
    }
}

// Does the asset exist on one of the sessions?
fn lives_within(asked: &Asked<'_>, col: usize, low: usize, to: usize) -> bool
    requires asked { IsAsked asked.now }
    requires to { to < length asked.now.world.sessions.now }
    requires col { col < length asked.now.world.assets.now }
    ensures { result ≡ lives_within (asked_world asked.now) low to col }
{
    for session in low..to + 1 {
        if exists(&asked.world, col, session) {
            return true;
        }
    }
    false
}
