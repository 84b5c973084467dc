//! Some sessions in a row, over one buffer of bars.

ghost use Rattle.std.specs.Prelude.{◌≡◌, ◌+◌, ◌-◌};
ghost use Rattle.pl_outside.specs.Taken.{Writes};
ghost use Rattle.pl_windows.specs.Chunks.{HasRoom, IsChunk, all_cols};
ghost use Rattle.pl_windows.specs.Ranges.{IsAsked, asked_lines};

use crate::asked::Asked;
use crate::session::write_session;
use pl_adjarray::AdjustedArray;
use pl_fixed::Steps;
use pl_outside::{Failed, Sink};
use pl_table::Line;
use std::sync::ledger::Ledger;

/// The greatest number of sessions of a chunk.
pub(crate) const MOST_SESSIONS: usize = 126;

/// The first and the last session of a chunk.
#[derive(Clone, Copy)]
pub(crate) struct Chunk {
    pub(crate) first: usize,
    pub(crate) last: usize,
}

/// Writes the lines of a chunk, for the columns of all assets. The bars of its sessions and of a window before
/// it are put into the front of the cells that are given, and adjusted there from session to session.
pub(crate) fn write_chunk<O: Sink, L: Ledger>(
    asked: &Asked<'_>,
    chunk: Chunk,
    cols: &[u32],
    bars: &mut [i64],
    line: &mut Line,
    out: &mut O,
    steps: &mut Steps<L>,
) -> Result<(), Failed>
    requires asked { IsAsked asked.now }
    requires chunk { IsChunk asked.now chunk }
    requires cols { cols.now ≡ all_cols asked.now }
    requires room { HasRoom asked.now bars.old }
    ensures { Writes O.taken O.faults O.sound O.room out.old out.new
        (asked_lines asked.now chunk.first (chunk.last + 1 - chunk.first)) result }
{
    let rows = asked.window + (chunk.last - chunk.first);
    let array = AdjustedArray::new(
        asked.world.bars,
        asked.world.adjustments,
        asked.world.sessions,
        asked.column,
        chunk.first - asked.window,
        rows,
        cols,
    );
    let len = rows * cols.len();
    let mut windows = array.traverse(asked.window, &mut bars[..len]);
    for session in chunk.first..chunk.last + 1 {
        windows.advance(steps);
        write_session(asked, session, &windows, line, out)?;
    }
    Ok(())
}
