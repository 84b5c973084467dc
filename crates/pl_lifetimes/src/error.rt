//! Why an assets file is refused.

ghost use Rattle.std.specs.Prelude.{◌≡◌};
ghost use Rattle.pl_lifetimes.specs.declared.error.AssetsError.TheVariants.{Memory};

use std::alloc::{AllocError, AllocFailed};
use thiserror::Error;

/// Why a file has no list of assets. `line` is the number of the first faulty record, from 1, where
/// the header is the first; blank lines are no records. Of the faults of a record the first
/// decides, in the order `TooMany`, `BadField`, `StartAfterEnd`, `DuplicateSid`.
#[derive(Clone, Copy, Debug, Drop, Error, PartialEq, Eq)]
pub enum AssetsError {
    /// The first record is not `sid,start,end`, or there is none.
    #[error("record 1: not the header of assets")]
    BadHeader,
    /// The record is not a sid, from 0 to 4294967295, and two dates of the years 1900 to 2199.
    #[error("record {line}: no asset")]
    BadField { line: u32 },
    /// The first day is later than the second.
    #[error("record {line}: the start is later than the end")]
    StartAfterEnd { line: u32 },
    /// A record before has the sid.
    #[error("record {line}: the sid stands before")]
    DuplicateSid { line: u32 },
    /// 8,000 assets come before this one.
    #[error("record {line}: too many assets")]
    TooMany { line: u32 },
    /// Memory ran out.
    #[error("out of memory")]
    Memory,
}

impl From<AllocError> for AssetsError {
    ghost from_gives = { λ _ e. e ≡ Memory };

    fn from(_error: AllocError) -> AssetsError {
        AssetsError::Memory
    }
}

impl<T: Drop> From<AllocFailed<T>> for AssetsError {
    ghost from_gives = { λ _ e. e ≡ Memory };

    fn from(_failed: AllocFailed<T>) -> AssetsError {
        AssetsError::Memory
    }
}
