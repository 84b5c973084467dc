//! Standard output and standard error.

ghost use Rattle.std.specs.Prelude.{◌≡◌, ◌≤◌, ◌<◌, ◌++◌, [], Some, IfOk, OnOk, take, length, false};
ghost use Rattle.std.specs.Io.Buffered.{writer_buffer, writer_contents};
ghost use Rattle.std.specs.Io.KnownBytes.{Keeps, WriteAppends};
ghost use Rattle.pl_outside.specs.Counts.{HasCause, count_end, moved};

use crate::faults::failed;
use pl_outside::{Failed, Sink, TakenLog};
use std::io::{BufWriter, Write};

/// A writer of the system as a sink. It tells the bytes that it took since it was made. What its writer
/// holds, where that is known, grows by exactly the same.
#[derive(Drop)]
pub struct Stream<W: Write + Drop> {
    to: W,
    log: TakenLog,
    pub(crate) faults: u64,
}

impl<W: Write + Drop> Stream<W> {
    /// Nothing is written yet.
    pub fn new(to: W) -> Stream<W>
        ensures to { result.to ≡ to }
        ensures log { result.log.bytes ≡ [] }
        ensures faults { result.faults ≡ 0 }
    {
        Stream {
            to,
            log: TakenLog::new(),
            faults: 0,
        }
    }
}

impl<W: Write + Drop> Stream<BufWriter<W>> {
    /// Writes what is gathered. `Failed` comes where the writer refused it, and then a fault is counted.
    pub fn flush(&mut self) -> Result<(), Failed>
        ensures written { OnOk result (writer_buffer self.new.to ≡ []) }
        ensures bytes { Keeps (writer_contents W.contents self.old.to)
            (writer_contents W.contents self.new.to) }
        ensures log { self.new.log.bytes ≡ self.old.log.bytes }
        ensures cause { HasCause self.old.faults self.new.faults result }
        ensures quiet { OnOk result (self.new.faults ≡ self.old.faults) }
    {
        match self.to.flush() {
            Ok(()) => Ok(()),
            Err(_) => Err(failed(&mut self.faults)),
        }
    }
}

impl<W: Write + Drop> Sink for Stream<W> {
    ghost taken = { λ s. Some s.log.bytes };

    ghost faults = { λ s. s.faults };

    // it counts no calls, so that their count stands at its end
    ghost calls = { λ _. count_end };

    ghost sound = { λ _. false };

    ghost room = { λ _. 0 };

    // a system takes as much of a piece as it can
    ghost whole = { λ _. false };

    fn write(&mut self, bytes: &[u8]) -> Result<usize, Failed>
        ensures within { IfOk result (λ n. n ≤ length bytes.now) }
        ensures some { IfOk result (λ n. 0 < length bytes.now → 0 < n) }
        ensures bytes { WriteAppends (W.contents self.old.to) (W.contents self.new.to) result bytes.now }
        ensures log { self.new.log.bytes ≡ self.old.log.bytes ++ take (moved result) bytes.now }
        ensures cause { HasCause self.old.faults self.new.faults result }
    {
        match self.to.write(bytes) {
            Ok(0) if !bytes.is_empty() => Err(failed(&mut self.faults)),
            Ok(count) => {
                self.log.takes(&bytes[..count]);
                Ok(count)
            }
            Err(_) => Err(failed(&mut self.faults)),
        }
    }

    ghost use Rattle.std.proofs.Common.{rules};

    ghost sound_tells = { Prim.search rules };
}
