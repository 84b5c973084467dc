//! Why a sessions file is refused.

ghost use Rattle.std.specs.Prelude.{◌≡◌};
ghost use Rattle.pl_calendar.specs.declared.error.CalendarError.TheVariants.{Memory};

use std::alloc::{AllocError, AllocFailed};
use thiserror::Error;

/// Why a file has no list of sessions. `line` is the number of the first faulty record, from 1;
/// blank lines are no records. Of the faults of a record the first decides, in the order `TooMany`,
/// `BadDate`, `NotAscending`.
#[derive(Clone, Copy, Debug, Drop, Error, PartialEq, Eq)]
pub enum CalendarError {
    /// The record is not one field with a date of the years 1900 to 2199.
    #[error("record {line}: no date")]
    BadDate { line: u32 },
    /// The date is not later than that of the record before.
    #[error("record {line}: not later than the date before")]
    NotAscending { line: u32 },
    /// There is no record.
    #[error("no sessions")]
    Empty,
    /// 16,000 records come before this one.
    #[error("record {line}: too many sessions")]
    TooMany { line: u32 },
    /// Memory ran out.
    #[error("out of memory")]
    Memory,
}

impl From<AllocError> for CalendarError {
    ghost from_gives = { λ _ e. e ≡ Memory };

    fn from(_error: AllocError) -> CalendarError {
        CalendarError::Memory
    }
}

impl<T: Drop> From<AllocFailed<T>> for CalendarError {
    ghost from_gives = { λ _ e. e ≡ Memory };

    fn from(_failed: AllocFailed<T>) -> CalendarError {
        CalendarError::Memory
    }
}
