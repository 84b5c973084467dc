//! Why bytes are no script.

ghost use Rattle.std.specs.Prelude.{◌≡◌};

use pl_grammar::Place;
use std::alloc::AllocError;

/// Why bytes are no script. `parse` answers the fault that is the first in the text; at one token the order
/// is LongStatement, NumberTooLarge, Unexpected, TooDeep.
#[derive(Clone, Copy, Debug, Drop, PartialEq, Eq)]
pub enum SyntaxError {
    /// A byte begins or continues no token: a stray byte, `!` without `=`, a byte that a string can't hold,
    /// the end of the file in a string, the 33rd byte of a name.
    BadByte(Place),
    /// The tokens up to this one begin no script. The end of the file counts as a token, at its place.
    Unexpected(Place),
    /// This token opens the 33rd construct inside one another, of `~`, prefix `-`, groups and arguments.
    TooDeep(Place),
    /// A number has more than 18 digits after its point, or its value rounded to millionths passes 10^17.
    NumberTooLarge(Place),
    /// The file has more than 262,144 bytes.
    TooLong,
    /// This is the 1,025th token of a statement, its `;` included.
    LongStatement(Place),
    /// Memory ran out.
    Memory,
}

impl From<AllocError> for SyntaxError {
    ghost use Rattle.pl_syntax.specs.declared.error.SyntaxError.TheVariants.{Memory};

    ghost from_gives = { λ _ e. e ≡ Memory };

    fn from(_error: AllocError) -> SyntaxError {
        SyntaxError::Memory
    }
}
