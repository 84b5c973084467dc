//! Why a labels file is refused.

ghost use Rattle.std.specs.Prelude.{◌≡◌};
ghost use Rattle.pl_assets.specs.declared.labels.error.LabelsError.TheVariants.{Memory};

use std::alloc::{AllocError, AllocFailed};
use thiserror::Error;

/// Why a file has no labels. `line` is the number of the first faulty record, from 1, where the
/// header is the first; blank lines are no records. Of the faults of a record the first decides, in
/// the order `TooMany`, `BadField`, `LabelTooLong`, `UnknownSid`, `DuplicateStart`.
#[derive(Clone, Copy, Debug, Drop, Error, PartialEq, Eq)]
pub enum LabelsError {
    /// The first record is not `name,sid,start,label`, or there is none.
    #[error("record 1: not the header of labels")]
    BadHeader,
    /// The record is not a name of the pipeline language, a sid, from 0 to 4294967295, a date of
    /// the years 1900 to 2199 and a label of printable ASCII.
    #[error("record {line}: no label")]
    BadField { line: u32 },
    /// The label has more than 64 bytes.
    #[error("record {line}: the label is too long")]
    LabelTooLong { line: u32 },
    /// No asset has the sid.
    #[error("record {line}: no asset has the sid")]
    UnknownSid { line: u32 },
    /// A record before has the name, the sid and the date.
    #[error("record {line}: the name, the sid and the start stand before")]
    DuplicateStart { line: u32 },
    /// 200,000 labels come before this one.
    #[error("record {line}: too many labels")]
    TooMany { line: u32 },
    /// Memory ran out.
    #[error("out of memory")]
    Memory,
}

impl From<AllocError> for LabelsError {
    ghost from_gives = { λ _ e. e ≡ Memory };

    fn from(_error: AllocError) -> LabelsError {
        LabelsError::Memory
    }
}

impl<T: Drop> From<AllocFailed<T>> for LabelsError {
    ghost from_gives = { λ _ e. e ≡ Memory };

    fn from(_failed: AllocFailed<T>) -> LabelsError {
        LabelsError::Memory
    }
}
