//! Where files are read.

ghost use Rattle.std.specs.Prelude.{◌≡◌, ◌≤◌, ◌<◌, ◌++◌, ◌∷◌, ◌↔◌, ℕ, List, Option, None, Bool, [], take, length, IfOk, IsTrue, IsOk, IsErr, IsSome};
ghost use Rattle.std.specs.Option.{ForSome};
ghost use Rattle.pl_outside.specs.Counts.{HasCause, count_plus, moved};
ghost use Rattle.pl_outside.specs.Files.{Files, Begins, BeginsAll};
ghost use Rattle.pl_outside.specs.Logs.{Given, GivesIn, begins};

use crate::faults::Failed;

/// Files by name, which are read one at a time from the front.
///
/// What a sound shelf holds is known. It counts a fault or answers Failed only at the beginning of a name
/// that it doesn't hold.
pub trait Shelf {
    /// The bytes of each name, where they are known.
    ghost holds: { Self → Option Files };

    /// What is left of the file that was begun last, and nothing where no file is begun. It counts only where
    /// what the shelf holds is known.
    ghost rest: { Self → List ℕ };

    /// The names that were begun, in their order and as often as they were begun, as long as they are known.
    ghost begun: { Self → Option (List (List ℕ)) };

    /// What it gave, file by file, whatever it is; the file that was begun last stands first.
    ghost gave: { Self → List Given };

    /// How many faults it has counted, up to the count's end.
    ghost faults: { Self → ℕ };

    /// How many calls it has taken, up to the count's end.
    ghost calls: { Self → ℕ };

    /// How many bytes it has given, up to the count's end.
    ghost given: { Self → ℕ };

    /// Whether it is sound.
    ghost sound: { Self → Bool };

    /// Starts the named file at its first byte. A name that isn't held is a fault, and then no file is begun.
    fn begin(&mut self, name: &str) -> Result<(), Failed>
        ensures begins { ForSome (holds self.old) (λ files. Begins (files name.now) (rest self.new) result) }
        ensures named { BeginsAll (begun self.old) (begun self.new) (name.now ∷ []) }
        ensures logged { gave self.new ≡ begins (gave self.old) name.now }
        ensures cause { HasCause (faults self.old) (faults self.new) result }
        ensures misses { IsTrue (sound self.old)
            → ForSome (holds self.old) (λ files. IsErr result ↔ (files name.now ≡ None)) }
        ensures quiet { IsTrue (sound self.old)
            → ForSome (holds self.old)
            (λ files. IsSome (files name.now) → faults self.new ≡ faults self.old) }
        ensures counted { calls self.new ≡ count_plus (calls self.old) 1 }
        ensures given { given self.new ≡ given self.old }
        ensures keeps { holds self.new ≡ holds self.old }
        ensures stays { sound self.new ≡ sound self.old };

    /// Gives the next bytes of the file that was begun, at the front of `into`, and says how many: none for a
    /// nonempty `into` is the end of the file. After a failure what is left is as before.
    fn next(&mut self, into: &mut [u8]) -> Result<usize, Failed>
        ensures within { IfOk result (λ n. n ≤ length into.old) }
        ensures piece { ForSome (holds self.old)
            (λ files. rest self.old ≡ take (moved result) into.new ++ rest self.new) }
        ensures named { begun self.new ≡ begun self.old }
        ensures logged { GivesIn (gave self.old) (gave self.new) into.new result }
        ensures ends { ForSome (holds self.old)
            (λ files. IfOk result (λ n. n ≡ 0 → 0 < length into.old → rest self.old ≡ [])) }
        ensures cause { HasCause (faults self.old) (faults self.new) result }
        ensures blameless { IsTrue (sound self.old) → IsOk result × (faults self.new ≡ faults self.old) }
        ensures counted { calls self.new ≡ count_plus (calls self.old) 1 }
        ensures given { given self.new ≡ count_plus (given self.old) (moved result) }
        ensures keeps { holds self.new ≡ holds self.old }
        ensures stays { sound self.new ≡ sound self.old };

    // What a sound shelf holds is known.
    ghost sound_tells: { (shelf : Self) → IsTrue (sound shelf) → IsSome (holds shelf) };
}
