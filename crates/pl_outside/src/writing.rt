//! A text as a whole.

ghost use Rattle.std.specs.Prelude.{◌≡◌, ◌≤◌, ◌+◌, max, length};
ghost use Rattle.pl_outside.specs.Counts.{count_plus};
ghost use Rattle.pl_outside.specs.Taken.{IsWrittenIn, Writes};

use crate::faults::Failed;
use crate::sink::Sink;

/// Writes all of the bytes. `Failed` comes only where the sink counted a fault, and then a prefix of them was
/// taken. It makes at most one call of the sink for each byte, one call where there is no byte, and one call
/// of a sink that takes each piece whole. It takes no memory.
pub fn write_bytes<O: Sink>(out: &mut O, bytes: &[u8]) -> Result<(), Failed>
    ensures writes { Writes O.taken O.faults O.sound O.room out.old out.new bytes.now result }
    ensures calls { O.calls out.new ≤ O.calls out.old + max 1 (length bytes.now) }
    ensures pieces { IsWrittenIn O.whole O.calls out.old out.new 1 }
    ensures empty { length bytes.now ≡ 0 → O.calls out.new ≡ count_plus (O.calls out.old) 1 }
{
    let mut done = out.write(bytes)?;
    while done < bytes.len() {
        done += out.write(&bytes[done..])?;
    }
    Ok(())
}
