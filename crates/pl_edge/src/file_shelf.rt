//! The files of the disk.

ghost use Rattle.std.specs.Prelude.{◌≡◌, ◌≤◌, ◌↔◌, None, Some, [], IfOk, IsOk, OnErr, false, length};
ghost use Rattle.std.specs.Io.KnownBytes.{ReadConsumes};
ghost use Rattle.pl_outside.specs.Counts.{HasCause, count_end};
ghost use Rattle.pl_outside.specs.Logs.{names_of};

use crate::faults::failed;
use pl_outside::{Failed, GivenLog, Shelf};
use std::fs::{self, File};
use std::io::{self, Read};

/// The files of the disk by their paths, of which the one that was begun last is open. What the disk holds no
/// contract sees; what it gave, the log has.
#[derive(Drop)]
pub struct FileShelf<'a> {
    rt: &'a HostRuntime,
    file: Option<File>,
    log: GivenLog,
    pub(crate) faults: u64,
}

impl<'a> FileShelf<'a> {
    /// No file is begun.
    pub fn new(rt: &'a HostRuntime) -> FileShelf<'a>
        ensures faults { result.faults ≡ 0 }
        ensures log { result.log.files ≡ [] }
    {
        FileShelf {
            rt,
            file: None,
            log: GivenLog::new(),
            faults: 0,
        }
    }
}

impl Shelf for FileShelf<'_> {
    ghost holds = { λ _. None };

    ghost rest = { λ _. [] };

    ghost begun = { λ s. Some (names_of s.log.files) };

    ghost gave = { λ s. s.log.files };

    ghost faults = { λ s. s.faults };

    // it counts neither calls nor bytes, so that their counts stand at their ends
    ghost calls = { λ _. count_end };

    ghost given = { λ _. count_end };

    ghost sound = { λ _. false };

    fn begin(&mut self, name: &str) -> Result<(), Failed> {
        self.log.begins(name.as_bytes());
        keep_opened(fs::open(self.rt, name), &mut self.file, &mut self.faults)
    }

    fn next(&mut self, into: &mut [u8]) -> Result<usize, Failed> {
        let count = match &mut self.file {
            Some(file) => read_piece(file, &mut self.faults, into)?,
            None => 0,
        };
        let ended = count == 0 && !into.is_empty();
        self.log.gives(&into[..count], ended);
        Ok(count)
    }

    ghost use Rattle.std.proofs.Common.{rules};

    ghost sound_tells = { Prim.search rules };
}

// The file that was opened is the one to read, and there is none where it could not be opened.
fn keep_opened<T: Drop>(
    opened: io::Result<T>,
    file: &mut Option<T>,
    faults: &mut u64,
) -> Result<(), Failed>
    ensures ok { IsOk result ↔ IsOk opened }
    ensures kept { IfOk opened (λ f. file.new ≡ Some f) }
    ensures none { OnErr opened (file.new ≡ None) }
    ensures cause { HasCause faults.old faults.new result }
{
    match opened {
        Ok(opened) => {
            *file = Some(opened);
            Ok(())
        }
        Err(_) => {
            *file = None;
            Err(failed(faults))
        }
    }
}

// The next bytes of a reader, as many as it gives.
fn read_piece<R: Read>(from: &mut R, faults: &mut u64, into: &mut [u8]) -> Result<usize, Failed>
    ensures within { IfOk result (λ n. n ≤ length into.old) }
    ensures bytes { ReadConsumes (R.remaining from.old) (R.remaining from.new) result into.new }
    ensures cause { HasCause faults.old faults.new result }
{
    match from.read(into) {
        Ok(count) => Ok(count),
        Err(_) => Err(failed(faults)),
    }
}
