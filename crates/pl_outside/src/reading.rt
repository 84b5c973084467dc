//! A file as a whole.

ghost use Rattle.std.specs.Prelude.{◌≡◌, ◌≤◌, ◌<◌, ◌+◌, ◌^◌, ◌∷◌, ◌↔◌, ℕ, List, [], Some, None, length, IfOk, IsTrue, IsSome, IsSomeAnd, IsErrOf};
ghost use Rattle.std.specs.Option.{ForSome};
ghost use Rattle.pl_outside.specs.Counts.{Rose, count_plus};
ghost use Rattle.pl_outside.specs.Files.{BeginsAll};
ghost use Rattle.pl_outside.specs.Logs.{Given, begins};
ghost use Rattle.pl_outside.specs.Reads.{IsGiven, IsReadWhole};

use crate::faults::{Failed, Memory};
use crate::shelf::Shelf;
use crate::taking::read_pieces;
use std::alloc::{AllocError, Global};

/// Why a file isn't read.
#[derive(Clone, Copy, Debug, PartialEq, Eq)]
pub enum ReadError {
    /// The shelf counted a fault.
    Failed,
    /// The file has more bytes than are allowed.
    TooLong,
    /// Memory ran out.
    Memory,
}

impl From<Failed> for ReadError {
    ghost use Rattle.pl_outside.specs.declared.reading.ReadError.TheVariants.{Failed};

    ghost from_gives = { λ _ e. e ≡ Failed };

    fn from(_fault: Failed) -> ReadError {
        ReadError::Failed
    }
}

impl From<AllocError> for ReadError {
    ghost use Rattle.pl_outside.specs.declared.reading.ReadError.TheVariants.{Memory};

    ghost from_gives = { λ _ e. e ≡ Memory };

    fn from(_refused: AllocError) -> ReadError {
        ReadError::Memory
    }
}

impl From<Memory> for ReadError {
    ghost use Rattle.pl_outside.specs.declared.reading.ReadError.TheVariants.{Memory};

    ghost from_gives = { λ _ e. e ≡ Memory };

    fn from(_refused: Memory) -> ReadError {
        ReadError::Memory
    }
}

/// The whole bytes of the named file, if there are at most `cap`, which is below 2^32.
///
/// The error is `Failed` only where the shelf counted a fault, over a sound shelf exactly where the name
/// isn't held; `TooLong` where `cap + 1` bytes were given; `Memory` where memory for the bytes ran out. It
/// makes at most `cap + 2` calls of the shelf.
pub fn read_file<S: Shelf>(
    alloc: Global,
    shelf: &mut S,
    name: &str,
    cap: usize,
) -> Result<Vec<u8>, ReadError>
    requires { cap < 2 ^ 32 }
    ensures within { IfOk result (λ bytes. length bytes.items ≤ cap) }
    ensures exact { ForSome (S.holds shelf.old)
        (λ files. IfOk result (λ bytes. files name.now ≡ Some bytes.items)) }

    // whatever the shelf is, a failure has its cause
    ensures failed { IsErrOf result ReadError.Failed → Rose (S.faults shelf.old) (S.faults shelf.new) }
    ensures later { S.faults shelf.old ≤ S.faults shelf.new }
    ensures too_long { IsErrOf result ReadError.TooLong
        → S.given shelf.new ≡ count_plus (S.given shelf.old) (cap + 1) }

    // where what the shelf holds is known, each answer but Failed and Memory is by the file's length
    ensures absent { ForSome (S.holds shelf.old)
        (λ files. files name.now ≡ None → IsErrOf result ReadError.Failed) }
    ensures longer { ForSome (S.holds shelf.old) (λ files. IsErrOf result ReadError.TooLong
        → IsSomeAnd (files name.now) (λ bytes. cap < length bytes)) }
    ensures whole { ForSome (S.holds shelf.old)
        (λ files. ¬ IsErrOf result ReadError.Failed → ¬ IsErrOf result ReadError.Memory
        → IsReadWhole cap (files name.now) result) }

    // over a sound shelf a failure comes exactly where the name isn't held
    ensures misses { IsTrue (S.sound shelf.old) → ForSome (S.holds shelf.old) (λ files.
        IsErrOf result ReadError.Failed ↔ (files name.now ≡ None)) }
    ensures quiet { IsTrue (S.sound shelf.old) → ForSome (S.holds shelf.old) (λ files. IsSome (files name.now)
        → S.faults shelf.new ≡ S.faults shelf.old) }

    // whatever the shelf is, the bytes are those that it gave of this name, from its beginning to its end
    ensures given { IsGiven cap (S.gave shelf.old) (S.gave shelf.new) name.now result }

    // with any answer the name was begun, once, and no other
    ensures named { BeginsAll (S.begun shelf.old) (S.begun shelf.new) (name.now ∷ []) }
    ensures keeps { S.holds shelf.new ≡ S.holds shelf.old }
    ensures stays { S.sound shelf.new ≡ S.sound shelf.old }
    ensures calls { S.calls shelf.new ≤ S.calls shelf.old + (cap + 2) }
{
    let mut bytes = Vec::new(alloc);
    read_pieces(shelf, name, cap, &mut bytes)?;
    Ok(bytes)
}
