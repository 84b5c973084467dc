//! Why a revisions file is refused.

ghost use Rattle.std.specs.Prelude.{◌≡◌};
ghost use Rattle.pl_adjust.specs.declared.revisions.error.RevisionsError.TheVariants.{Memory};

use std::alloc::{AllocError, AllocFailed};
use thiserror::Error;

/// Why a file has no list of revisions. `line` is the number of the first faulty record, from 1, where
/// the header is the first; blank lines are no records. Of the faults of a record the first
/// decides, in the order `TooMany`, `BadField`, `NotSession`, `UnknownSid`, `Negative`, `TooSoon`,
/// `Duplicate`.
#[derive(Clone, Copy, Debug, Drop, Error, PartialEq, Eq)]
pub enum RevisionsError {
    /// The first record is not `sid,session,column,value,known`, or there is none.
    #[error("record 1: not the header of revisions")]
    BadHeader,
    /// The record is not a sid, a date, the name of a bar column, a field that is empty or the decimal of a
    /// cell, and a date.
    #[error("record {line}: no revision")]
    BadField { line: u32 },
    /// The first date is no session's.
    #[error("record {line}: no session")]
    NotSession { line: u32 },
    /// No asset has the sid.
    #[error("record {line}: an unknown sid")]
    UnknownSid { line: u32 },
    /// The value is below 0.
    #[error("record {line}: a cell below 0")]
    Negative { line: u32 },
    /// The revision is not known later than on the day of its session.
    #[error("record {line}: known too soon")]
    TooSoon { line: u32 },
    /// A record before has the sid, the session, the column and the day from which on it is known.
    #[error("record {line}: the revision stands before")]
    Duplicate { line: u32 },
    /// 200,000 revisions come before this one.
    #[error("record {line}: too many revisions")]
    TooMany { line: u32 },
    /// Memory ran out.
    #[error("out of memory")]
    Memory,
}

impl From<AllocError> for RevisionsError {
    ghost from_gives = { λ _ e. e ≡ Memory };

    fn from(_error: AllocError) -> RevisionsError {
        RevisionsError::Memory
    }
}

impl<T: Drop> From<AllocFailed<T>> for RevisionsError {
    ghost from_gives = { λ _ e. e ≡ Memory };

    fn from(_failed: AllocFailed<T>) -> RevisionsError {
        RevisionsError::Memory
    }
}
