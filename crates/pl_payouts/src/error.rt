//! Why a payouts file is refused, and why its rows are not written.

ghost use Rattle.std.specs.Prelude.{◌≡◌};

use pl_outside::Failed;
use std::alloc::{AllocError, AllocFailed};
use thiserror::Error;

/// Why a file has no list of payouts. `line` is the number of the first faulty record, from 1,
/// where the header is the first; blank lines are no records. Of the faults of a record the first
/// decides, in the order `TooMany`, `BadField`, `UnknownSid`, `NotPositive`.
#[derive(Clone, Copy, Debug, Drop, Error, PartialEq, Eq)]
pub enum PayoutsError {
    /// The first record is not `sid,ex,amount`, or there is none.
    #[error("record 1: not the header of payouts")]
    BadHeader,
    /// The record is not a sid, a date and the decimal of a cell, which may not be empty.
    #[error("record {line}: no payout")]
    BadField { line: u32 },
    /// No asset has the sid.
    #[error("record {line}: an unknown sid")]
    UnknownSid { line: u32 },
    /// The amount, rounded to millionths, is not above 0.
    #[error("record {line}: an amount that is not above 0")]
    NotPositive { line: u32 },
    /// 200,000 payouts come before this one.
    #[error("record {line}: too many payouts")]
    TooMany { line: u32 },
    /// Memory ran out.
    #[error("out of memory")]
    Memory,
}

impl From<AllocError> for PayoutsError {
    ghost use Rattle.pl_payouts.specs.declared.error.PayoutsError.TheVariants.{Memory};

    ghost from_gives = { λ _ e. e ≡ Memory };

    fn from(_error: AllocError) -> PayoutsError {
        PayoutsError::Memory
    }
}

impl<T: Drop> From<AllocFailed<T>> for PayoutsError {
    ghost use Rattle.pl_payouts.specs.declared.error.PayoutsError.TheVariants.{Memory};

    ghost from_gives = { λ _ e. e ≡ Memory };

    fn from(_failed: AllocFailed<T>) -> PayoutsError {
        PayoutsError::Memory
    }
}

/// Why the rows of payouts are not written to their end.
#[derive(Clone, Copy, Debug, PartialEq, Eq)]
pub enum PayoutsOut {
    /// The sink counted a fault.
    WriteFault,
    /// Memory ran out. `write_payouts` takes none, and never answers this.
    Memory,
}

impl From<Failed> for PayoutsOut {
    ghost use Rattle.pl_payouts.specs.declared.error.PayoutsOut.TheVariants.{WriteFault};

    ghost from_gives = { λ _ e. e ≡ WriteFault };

    fn from(_fault: Failed) -> PayoutsOut {
        PayoutsOut::WriteFault
    }
}
