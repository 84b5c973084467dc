//! Why no derivation is made.

ghost use Rattle.std.specs.Prelude.{◌≡◌};

use pl_fixed::Memory;
use std::alloc::AllocFailed;

/// Why there is no derivation.
#[derive(Clone, Copy, Debug, PartialEq, Eq)]
pub enum ExplainError {
    /// It has more than 100,000 lines.
    TooLong,
    /// Memory ran out.
    Memory,
}

impl From<Memory> for ExplainError {
    ghost use Rattle.pl_derivation.specs.declared.error.ExplainError.TheVariants.{Memory};

    ghost from_gives = { λ _ e. e ≡ Memory };

    fn from(_refused: Memory) -> ExplainError {
        ExplainError::Memory
    }
}

impl<T: Drop> From<AllocFailed<T>> for ExplainError {
    ghost use Rattle.pl_derivation.specs.declared.error.ExplainError.TheVariants.{Memory};

    ghost from_gives = { λ _ e. e ≡ Memory };

    fn from(_failed: AllocFailed<T>) -> ExplainError {
        ExplainError::Memory
    }
}
