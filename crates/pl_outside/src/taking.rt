//! A file that is handed on piece by piece.

ghost use Rattle.std.specs.Prelude.{◌≡◌, ◌≤◌, ◌<◌, ◌+◌, ◌^◌, ◌++◌, ◌∷◌, ◌↔◌, ℕ, List, [], Some, None, length, IfOk, IsTrue, IsSome, IsSomeAnd, IsErrOf};
ghost use Rattle.std.specs.Option.{ForSome};
ghost use Rattle.pl_outside.specs.Counts.{Rose, count_plus};
ghost use Rattle.pl_outside.specs.Files.{BeginsAll};
ghost use Rattle.pl_outside.specs.Logs.{Given, begins};
ghost use Rattle.pl_outside.specs.Takes.{IsTaken};

use crate::faults::Memory;
use crate::reading::ReadError;
use crate::shelf::Shelf;

// how many bytes are asked for at once
const PIECE: usize = 65_536;

/// What takes the bytes of a file as they are given.
pub trait Taker {
    /// Whether the second is the first after these bytes.
    ghost after: { Self → List ℕ → Self → Type 0 };

    /// Takes the next bytes.
    fn take(&mut self, piece: &[u8]) -> Result<(), Memory>
        ensures { IfOk result (λ _. after self.old piece.now self.new) };

    // No bytes change nothing.
    ghost none: { (taker : Self) → after taker [] taker };

    // Bytes may be given in two parts.
    ghost joined: { (a b c : Self) (xs ys : List ℕ) → after a xs b → after b ys c → after a (xs ++ ys) c };
}

impl Taker for Vec<u8> {
    ghost use Rattle.std.proofs.Common.{ap, sym, append_assoc, ◌∙◌};
    ghost use Rattle.std.proofs.lemmas.List.{append-nil};

    ghost after = { λ old bytes new. new.items ≡ old.items ++ bytes };

    fn take(&mut self, piece: &[u8]) -> Result<(), Memory> {
        self.extend_from_slice(piece)?;
        Ok(())
    }

    ghost none = { λ v. sym (append-nil v.items) };

    ghost joined = { λ a b c xs ys first second.
        second ∙ ap (λ bytes. bytes ++ ys) first ∙ append_assoc a.items xs ys };
}

/// Hands the whole bytes of the named file on, if there are at most `cap`, which is below 2^32.
///
/// It holds no more than a piece. The error is `Failed` only where the shelf counted a fault, over a sound
/// shelf exactly where the name isn't held; `TooLong` where `cap + 1` bytes were given; `Memory` where they
/// weren't taken for want of it. It makes at most `cap + 2` calls of the shelf.
pub fn read_pieces<S: Shelf, T: Taker>(
    shelf: &mut S,
    name: &str,
    cap: usize,
    into: &mut T,
) -> Result<(), ReadError>
    requires { cap < 2 ^ 32 }
    ensures failed { IsErrOf result ReadError.Failed → Rose (S.faults shelf.old) (S.faults shelf.new) }
    ensures later { S.faults shelf.old ≤ S.faults shelf.new }
    ensures too_long { IsErrOf result ReadError.TooLong
        → S.given shelf.new ≡ count_plus (S.given shelf.old) (cap + 1) }
    ensures absent { ForSome (S.holds shelf.old)
        (λ files. files name.now ≡ None → IsErrOf result ReadError.Failed) }
    ensures longer { ForSome (S.holds shelf.old) (λ files. IsErrOf result ReadError.TooLong
        → IsSomeAnd (files name.now) (λ bytes. cap < length bytes)) }
    ensures misses { IsTrue (S.sound shelf.old) → ForSome (S.holds shelf.old) (λ files.
        IsErrOf result ReadError.Failed ↔ (files name.now ≡ None)) }
    ensures quiet { IsTrue (S.sound shelf.old) → ForSome (S.holds shelf.old) (λ files. IsSome (files name.now)
        → S.faults shelf.new ≡ S.faults shelf.old) }
    ensures given { IsTaken cap (S.gave shelf.old) (S.gave shelf.new) name.now
        (λ bytes. T.after into.old bytes into.new)
        (λ bytes. ForSome (S.holds shelf.old) (λ files. files name.now ≡ Some bytes)) result }
    ensures named { BeginsAll (S.begun shelf.old) (S.begun shelf.new) (name.now ∷ []) }
    ensures keeps { S.holds shelf.new ≡ S.holds shelf.old }
    ensures stays { S.sound shelf.new ≡ S.sound shelf.old }
    ensures calls { S.calls shelf.new ≤ S.calls shelf.old + (cap + 2) }
{
    shelf.begin(name)?;
    read_rest(shelf, cap, into)
}

// Hands on what is left of the file that was begun.
fn read_rest<S: Shelf, T: Taker>(shelf: &mut S, cap: usize, into: &mut T) -> Result<(), ReadError>
    requires { cap < 2 ^ 32 }
    ensures failed { IsErrOf result ReadError.Failed → Rose (S.faults shelf.old) (S.faults shelf.new) }
    ensures later { S.faults shelf.old ≤ S.faults shelf.new }
    ensures too_long { IsErrOf result ReadError.TooLong
        → S.given shelf.new ≡ count_plus (S.given shelf.old) (cap + 1) }
    ensures longer { ForSome (S.holds shelf.old)
        (λ files. IsErrOf result ReadError.TooLong → cap < length (S.rest shelf.old)) }
    ensures blameless { IsTrue (S.sound shelf.old)
        → ¬ IsErrOf result ReadError.Failed × (S.faults shelf.new ≡ S.faults shelf.old) }
    ensures given { (files : List Given) (name : List ℕ) → S.gave shelf.old ≡ begins files name
        → IsTaken cap files (S.gave shelf.new) name (λ bytes. T.after into.old bytes into.new)
        (λ bytes. ForSome (S.holds shelf.old) (λ _. S.rest shelf.old ≡ bytes)) result }
    ensures named { S.begun shelf.new ≡ S.begun shelf.old }
    ensures keeps { S.holds shelf.new ≡ S.holds shelf.old }
    ensures stays { S.sound shelf.new ≡ S.sound shelf.old }
    ensures calls { S.calls shelf.new ≤ S.calls shelf.old + (cap + 1) }
{
    let mut piece = [0u8; PIECE];
    let mut count = 0;
    while count <= cap {
        let most = (cap + 1 - count).min(PIECE);
        let got = shelf.next(&mut piece[..most])?;
        if got == 0 {
            return Ok(());
        }
        into.take(&piece[..got])?;
        count += got;
    }
    Err(ReadError::TooLong)
}
