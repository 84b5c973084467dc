//! Why the writing of a table ended early.

ghost use Rattle.std.specs.Prelude.{◌≡◌};

use pl_fixed::Memory;
use std::alloc::AllocError;

/// Why a run ended early.
#[derive(Clone, Copy, Debug, PartialEq, Eq)]
pub enum RunError {
    /// The sink counted a fault; a prefix of the text was written.
    WriteFault,
    /// Memory ran out, which comes only before the first byte.
    Memory,
}

impl From<AllocError> for RunError {
    ghost use Rattle.pl_table.specs.declared.error.RunError.TheVariants.{Memory};

    ghost from_gives = { λ _ e. e ≡ Memory };

    fn from(_refused: AllocError) -> RunError {
        RunError::Memory
    }
}

impl From<Memory> for RunError {
    ghost use Rattle.pl_table.specs.declared.error.RunError.TheVariants.{Memory};

    ghost from_gives = { λ _ e. e ≡ Memory };

    fn from(_refused: Memory) -> RunError {
        RunError::Memory
    }
}
