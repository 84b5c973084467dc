//! The words of the command line.

ghost use Rattle.std.specs.Prelude.{◌≡◌, drop, IfErr, IfOk, IsErr, OnOk};
ghost use Rattle.std.specs.IoError.{error_kind};
ghost use Rattle.std.specs.Vec.Iter.{into_iter_items};
ghost use Rattle.pl_edge.specs.Starts.{IsCauseOf, line_of, status_of};

use std::alloc::{AllocFailed, Global};
use std::env::Args;
use std::io::{self, ErrorKind};

/// Why the program can't begin.
#[derive(Clone, Copy, Debug, PartialEq, Eq)]
pub enum StartError {
    /// One of the words is no text in UTF-8.
    NotText,
    /// Memory ran out.
    Memory,
}

impl StartError {
    /// The status with which the program ends: 2 where a word is no text, 10 where memory ran out.
    pub fn status(self) -> u8
        ensures { result ≡ status_of self }
    {
        match self {
            StartError::NotText => 2,
            StartError::Memory => 10,
        }
    }

    /// The line on standard error, with its line end.
    pub fn line(self) -> &'static [u8]
        ensures { result.now ≡ line_of self }
    {
        match self {
            StartError::NotText => b"usage\n",
            StartError::Memory => b"memory\n",
        }
    }
}

impl<T: Drop> From<AllocFailed<T>> for StartError {
    ghost use Rattle.pl_edge.specs.declared.command_line.StartError.TheVariants.{Memory};

    ghost from_gives = { λ _ e. e ≡ Memory };

    fn from(_refused: AllocFailed<T>) -> StartError {
        StartError::Memory
    }
}

/// The words after the program's name, of those that `std::env::args` answered. `NotText` comes where a word
/// is not in UTF-8, `Memory` where memory ran out.
pub fn words(alloc: Global, args: io::Result<Args>) -> Result<Vec<String>, StartError>
    ensures words { IfOk args (λ args. IfOk result (λ words. words.items ≡ drop 1 (into_iter_items args))) }
    ensures refused { IfErr args (λ error.
        IfErr result (IsCauseOf (error_kind error ≡ ErrorKind.OutOfMemory))) }
    ensures none { IfErr args (λ _. IsErr result) }
    ensures memory { OnOk args (IfErr result (λ why. why ≡ StartError.Memory)) }
{
    match args {
        Ok(args) => words_of(alloc, args),
        Err(error) => Err(why_no_words(&error)),
    }
}

fn words_of(alloc: Global, args: Args) -> Result<Vec<String>, StartError>
    ensures words { IfOk result (λ words. words.items ≡ drop 1 (into_iter_items args)) }
    ensures memory { IfErr result (λ why. why ≡ StartError.Memory) }
{
    let mut args = args;
    drop(args.next());
    let mut words = Vec::new(alloc);
    for word in args {
        words.push(word)?;
    }
    Ok(words)
}

// The system's words fail by want of memory or by their bytes alone.
fn why_no_words(error: &io::Error) -> StartError
    ensures { IsCauseOf (error_kind error.now ≡ ErrorKind.OutOfMemory) result }
{
    match error.kind() {
        ErrorKind::OutOfMemory => StartError::Memory,
        _ => StartError::NotText,
    }
}
