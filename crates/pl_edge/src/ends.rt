//! How the program ends.

ghost use Rattle.std.specs.Prelude.{◌≡◌, []};
ghost use Rattle.std.specs.Process.{exit_status};
ghost use Rattle.std.specs.Io.Buffered.{writer_buffer, writer_contents};
ghost use Rattle.std.specs.Io.KnownBytes.{Keeps};
ghost use Rattle.pl_outside.specs.Counts.{Rose};
ghost use Rattle.pl_outside.specs.Left.{LeavesSink};
ghost use Rattle.pl_outside.specs.Taken.{IsTold};
ghost use Rattle.pl_edge.specs.Starts.{line_of, status_of};

use crate::command_line::StartError;
use crate::stream::Stream;
use pl_outside::{Sink, write_bytes};
use std::io::{BufWriter, Write};
use std::process::ExitCode;

/// Writes why nothing was run. The status is the same where that can't be written.
pub fn ended<E: Sink>(err: &mut E, why: StartError) -> ExitCode
    ensures status { exit_status result ≡ status_of why }
    ensures told { IsTold E.taken E.faults E.sound E.room err.old err.new (line_of why) }
    ensures err { LeavesSink E.sound E.faults err.old err.new }
{
    let _ = write_bytes(err, why.line());
    ExitCode::from(why.status())
}

/// The status after what was gathered for standard output is written, too. A failure of that changes status 0
/// alone, to 9.
pub fn flushed<W: Write + Drop>(out: &mut Stream<BufWriter<W>>, status: u8) -> u8
    ensures kept { ¬ (status ≡ 0) → result ≡ status }
    ensures well { result ≡ 0 → out.new.faults ≡ out.old.faults }
    ensures failed { ¬ (result ≡ status) → (result ≡ 9) × Rose out.old.faults out.new.faults }

    // Nothing is left in the buffer, unless a fault was counted, and no byte of it is lost.
    ensures written { result ≡ 0 → writer_buffer out.new.to ≡ [] }
    ensures tried { ¬ (Rose out.old.faults out.new.faults) → writer_buffer out.new.to ≡ [] }
    ensures bytes { Keeps (writer_contents W.contents out.old.to) (writer_contents W.contents out.new.to) }
    ensures log { out.new.log.bytes ≡ out.old.log.bytes }
{
    if out.flush().is_err() && status == 0 {
        return 9;
    }
    status
}
