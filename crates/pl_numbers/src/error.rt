//! Why a numbers file is refused.
ghost use Rattle.std.specs.Prelude.{◌≡◌};
ghost use Rattle.pl_numbers.specs.declared.error.NumbersError.TheVariants.{Memory};

use std::alloc::{AllocError, AllocFailed};
use thiserror::Error;

/// Why a file has no numbers. `line` is the number of the first faulty record, from 1, where the
/// header is the first; blank lines are no records. Of the faults of a record the first decides, in
/// the order `TooMany`, `BadField`, `UnknownSid`, `Duplicate`.
#[derive(Clone, Copy, Debug, Drop, Error, PartialEq, Eq)]
pub enum NumbersError {
    /// The first record is not `name,sid,known,value`, or there is none.
    #[error("record 1: not the header of numbers")]
    BadHeader,
    /// The record is not a name of the pipeline language, a sid, from 0 to 4294967295, a date of
    /// the years 1900 to 2199 and a field that is empty or the decimal of a cell.
    #[error("record {line}: no number")]
    BadField { line: u32 },
    /// No asset has the sid.
    #[error("record {line}: no asset has the sid")]
    UnknownSid { line: u32 },
    /// A record before has the name, the sid and the date; or, in a second file, the first one has the name.
    #[error("record {line}: the name, the sid and the date stand before")]
    Duplicate { line: u32 },
    /// 2,000,000 numbers stand before this one, those of a first file among them.
    #[error("record {line}: too many numbers")]
    TooMany { line: u32 },
    /// Memory ran out.
    #[error("out of memory")]
    Memory,
}

impl From<AllocError> for NumbersError {
    ghost from_gives = { λ _ e. e ≡ Memory };

    fn from(_error: AllocError) -> NumbersError {
        NumbersError::Memory
    }
}

impl<T: Drop> From<AllocFailed<T>> for NumbersError {
    ghost from_gives = { λ _ e. e ≡ Memory };

    fn from(_failed: AllocFailed<T>) -> NumbersError {
        NumbersError::Memory
    }
}
