//! Why packed bars are refused.

ghost use Rattle.std.specs.Prelude.{◌≡◌};

use pl_fixed::Memory;
use std::alloc::{AllocError, AllocFailed};
use thiserror::Error;

/// Why bytes are not read as packed bars: the first of these that holds, in this order.
#[derive(Clone, Copy, Debug, Drop, Error, PartialEq, Eq)]
pub enum UnpackError {
    /// They do not begin as packed bars do.
    #[error("no packed bars")]
    NotPacked,
    /// The bars were judged against other sessions.
    #[error("packed for other sessions")]
    OtherSessions,
    /// The bars were judged against other assets.
    #[error("packed for other assets")]
    OtherAssets,
    /// There are more or fewer bytes than the count of bars asks for, or it is above 4,000,000.
    #[error("not the length of its bars")]
    BadLength,
    /// The bar of this number, from 1, does not stand after the one before it, is of no asset or session, or
    /// has a number that is no cell.
    #[error("bar {bar}: out of order, or no bar of an asset on a session")]
    BadBar { bar: u32 },
    /// The sums of the bars or the digest are others.
    #[error("damaged")]
    Damaged,
    /// Memory ran out.
    #[error("out of memory")]
    Memory,
}

impl From<AllocError> for UnpackError {
    ghost use Rattle.pl_packed.specs.declared.error.UnpackError.TheVariants.{Memory};

    ghost from_gives = { λ _ e. e ≡ Memory };

    fn from(_error: AllocError) -> UnpackError {
        UnpackError::Memory
    }
}

impl<T: Drop> From<AllocFailed<T>> for UnpackError {
    ghost use Rattle.pl_packed.specs.declared.error.UnpackError.TheVariants.{Memory};

    ghost from_gives = { λ _ e. e ≡ Memory };

    fn from(_failed: AllocFailed<T>) -> UnpackError {
        UnpackError::Memory
    }
}

impl From<Memory> for UnpackError {
    ghost use Rattle.pl_packed.specs.declared.error.UnpackError.TheVariants.{Memory};

    ghost from_gives = { λ _ e. e ≡ Memory };

    fn from(_error: Memory) -> UnpackError {
        UnpackError::Memory
    }
}
