//! A text in pieces.

ghost use Rattle.std.specs.Prelude.{flat_map};
ghost use Rattle.pl_outside.specs.Taken.{Writes};

use crate::faults::Failed;
use crate::sink::Sink;
use crate::writing::write_bytes;

/// Writes the pieces one after the other. `Failed` comes where the sink counted a fault; the pieces after it
/// are not written. It takes no memory.
pub fn write_pieces<O: Sink>(out: &mut O, pieces: &[&str]) -> Result<(), Failed>
    ensures { Writes O.taken O.faults O.sound O.room out.old out.new
        (flat_map (λ p. p.now) pieces.now) result }
{
    for piece in pieces {
        write_bytes(out, piece.as_bytes())?;
    }
    Ok(())
}
