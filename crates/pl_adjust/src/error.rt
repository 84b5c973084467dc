//! Why rows are no adjustments.

ghost use Rattle.std.specs.Prelude.{◌≡◌};
ghost use Rattle.pl_adjust.specs.declared.error.AdjustError.TheVariants.{Memory};

use pl_outside::Table;
use std::alloc::{AllocError, AllocFailed};

/// Why the rows of three tables are no adjustments: the first fault of their rows, splits before mergers and
/// these before dividends, with the table and the id of its row. Of the faults of a row the first decides, in
/// the order `TooMany`, `BadEffective`, `BadRatio`.
#[derive(Clone, Copy, Debug, PartialEq, Eq)]
pub enum AdjustError {
    /// The day of the row, that of its seconds since 1970-01-01, is not of the years 1900 to 2199.
    BadEffective { table: Table, id: i64 },
    /// A part of the row's ratio is not from 1 to 10^9.
    BadRatio { table: Table, id: i64 },
    /// The tables have more than 1,000,000 rows in all.
    TooMany,
    /// Memory ran out.
    Memory,
}

impl From<AllocError> for AdjustError {
    ghost from_gives = { λ _ e. e ≡ Memory };

    fn from(_error: AllocError) -> AdjustError {
        AdjustError::Memory
    }
}

impl<T: Drop> From<AllocFailed<T>> for AdjustError {
    ghost from_gives = { λ _ e. e ≡ Memory };

    fn from(_failed: AllocFailed<T>) -> AdjustError {
        AdjustError::Memory
    }
}
