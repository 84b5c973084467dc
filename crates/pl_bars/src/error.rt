//! Why a bars file is refused.

ghost use Rattle.std.specs.Prelude.{◌≡◌};
ghost use Rattle.pl_bars.specs.declared.error.BarsError.TheVariants.{Memory};

use std::alloc::{AllocError, AllocFailed};
use thiserror::Error;

/// Why a file has no list of bars. `line` is the number of the first faulty record, from 1, where
/// the header is the first; blank lines are no records. Of the faults of a record the first
/// decides, in the order `TooMany`, `BadField`, `NotSession`, `UnknownSid`, `Negative`,
/// `Duplicate`.
#[derive(Clone, Copy, Debug, Drop, Error, PartialEq, Eq)]
pub enum BarsError {
    /// The first record is not `sid,session,open,high,low,close,volume`, or there is none.
    #[error("record 1: not the header of bars")]
    BadHeader,
    /// The record is not a sid, a date, and five fields that are empty or decimals of a cell.
    #[error("record {line}: no bar")]
    BadField { line: u32 },
    /// The date is no session's.
    #[error("record {line}: no session")]
    NotSession { line: u32 },
    /// No asset has the sid.
    #[error("record {line}: an unknown sid")]
    UnknownSid { line: u32 },
    /// A cell is below 0.
    #[error("record {line}: a cell below 0")]
    Negative { line: u32 },
    /// A record before has the sid and the date.
    #[error("record {line}: the bar stands before")]
    Duplicate { line: u32 },
    /// 4,000,000 bars come before this one.
    #[error("record {line}: too many bars")]
    TooMany { line: u32 },
    /// Memory ran out.
    #[error("out of memory")]
    Memory,
}

impl From<AllocError> for BarsError {
    ghost from_gives = { λ _ e. e ≡ Memory };

    fn from(_error: AllocError) -> BarsError {
        BarsError::Memory
    }
}

impl<T: Drop> From<AllocFailed<T>> for BarsError {
    ghost from_gives = { λ _ e. e ≡ Memory };

    fn from(_failed: AllocFailed<T>) -> BarsError {
        BarsError::Memory
    }
}
