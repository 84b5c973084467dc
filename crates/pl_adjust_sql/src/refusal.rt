//! Why a table isn't read.

ghost use Rattle.std.specs.Prelude.{◌≡◌};

use sqlite::{Error, ErrorCode};
use std::alloc::{AllocError, AllocFailed};

/// Why a table isn't read or made.
#[derive(Clone, Copy, Debug, PartialEq, Eq)]
pub enum TableError {
    /// SQLite refused the statement, or a value of its answer is no integer.
    Refused,
    /// Memory ran out.
    Memory,
}

impl From<Error> for TableError {
    ghost use Rattle.pl_adjust_sql.specs.Refusals.{table_error};

    ghost from_gives = { λ e t. t ≡ table_error e };

    fn from(error: Error) -> TableError {
        match error {
            Error::SqliteFailure(ErrorCode::OutOfMemory) => TableError::Memory,
            _ => TableError::Refused,
        }
    }
}

impl From<AllocError> for TableError {
    ghost use Rattle.pl_adjust_sql.specs.declared.refusal.TableError.TheVariants.{Memory};

    ghost from_gives = { λ _ t. t ≡ Memory };

    fn from(_refused: AllocError) -> TableError {
        TableError::Memory
    }
}

impl<T: Drop> From<AllocFailed<T>> for TableError {
    ghost use Rattle.pl_adjust_sql.specs.declared.refusal.TableError.TheVariants.{Memory};

    ghost from_gives = { λ _ t. t ≡ Memory };

    fn from(_refused: AllocFailed<T>) -> TableError {
        TableError::Memory
    }
}
