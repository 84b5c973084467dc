//! The lines of all sessions of a range.

ghost use Rattle.std.specs.Prelude.{◌≡◌, ◌⊎◌, IsErrOf};
ghost use Rattle.pl_outside.specs.Taken.{Writes};
ghost use Rattle.pl_world.specs.Worlds.{IsMade};
ghost use Rattle.pl_table.specs.declared.error.RunError.TheVariants as RunError;
ghost use Rattle.pl_windows.specs.Chunks.{HasRoom, all_cols};
ghost use Rattle.pl_windows.specs.Ranges.{IsAsked, IsRange, asked_text};

use crate::asked::Asked;
use crate::buffers::Buffers;
use crate::chunk::{Chunk, MOST_SESSIONS, write_chunk};
use pl_fixed::Steps;
use pl_outside::{Failed, Sink, write_bytes};
use pl_table::{Line, RunError};
use pl_world::laws::parts_make_a_world;
use std::alloc::Global;
use std::sync::ledger::Ledger;

/// Writes the windows of a bar column, with the header `session,sid,count,cells`: for each session of the
/// range and each asset that exists there, by ascending sid, a line with the newest `count` cells of its
/// window, the oldest first, with semicolons between them. `count` is the window's length on the range's
/// first session, on the first session on which the asset exists, and on each session on which an adjustment
/// or a revision of the asset became effective since the session before; else it is 1. All memory is taken
/// before the first byte. The error is that memory ran out, or that the sink counted a fault, and then a
/// prefix of the text was written.
pub fn write_windows<O: Sink, L: Ledger>(
    alloc: Global,
    asked: &Asked<'_>,
    out: &mut O,
    steps: &mut Steps<L>,
) -> Result<(), RunError>
    requires made { IsMade asked.now.world }
    requires range { IsRange asked.now.world.sessions.now asked.now.window asked.now.from asked.now.to }
    // Where memory ran out nothing was written; else the text is.
    ensures writes { IsErrOf result RunError.Memory
        ⊎ Writes O.taken O.faults O.sound O.room out.old out.new (asked_text asked.now) result }
    ensures memory { IsErrOf result RunError.Memory → out.new ≡ out.old }
{
    parts_make_a_world(&asked.world);
    let buffers = Buffers::reserve(alloc, asked)?;
    let Buffers {
        cols,
        mut bars,
        mut line,
    } = buffers;
    match write_all(asked, &cols, &mut bars, &mut line, out, steps) {
        Ok(()) => Ok(()),
        Err(_) => Err(RunError::WriteFault),
    }
}

// Writes the header, and the lines chunk by chunk.
fn write_all<O: Sink, L: Ledger>(
    asked: &Asked<'_>,
    cols: &[u32],
    bars: &mut [i64],
    line: &mut Line,
    out: &mut O,
    steps: &mut Steps<L>,
) -> Result<(), Failed>
    requires asked { IsAsked asked.now }
    requires cols { cols.now ≡ all_cols asked.now }
    requires room { HasRoom asked.now bars.old }
    ensures { Writes O.taken O.faults O.sound O.room out.old out.new (asked_text asked.now) result }
{
    write_bytes(out, b"session,sid,count,cells\n")?;
    let mut first = asked.from;
    while first <= asked.to {
        let last = asked.to.min(first + (MOST_SESSIONS - 1));
        write_chunk(asked, Chunk { first, last }, cols, bars, line, out, steps)?;
        first = last + 1;
    }
    Ok(())
}
