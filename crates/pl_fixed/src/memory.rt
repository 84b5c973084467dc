//! The error of calls that can fail by want of memory alone.

use std::alloc::{AllocError, AllocFailed};

/// Memory ran out. It is the error of calls that fail for no other reason.
#[derive(Clone, Copy, Debug, PartialEq, Eq)]
pub struct Memory;

impl From<AllocError> for Memory {
    fn from(_error: AllocError) -> Memory {
        Memory
    }
}

impl<T: Drop> From<AllocFailed<T>> for Memory {
    fn from(_failed: AllocFailed<T>) -> Memory {
        Memory
    }
}
