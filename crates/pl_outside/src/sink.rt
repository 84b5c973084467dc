//! What takes bytes.

ghost use Rattle.std.specs.Prelude.{◌≡◌, ◌≤◌, ◌<◌, ◌+◌, ℕ, List, Option, None, Ok, take, length, IfOk, IsTrue, Bool, true, false, IsSome};
ghost use Rattle.pl_outside.specs.Counts.{HasCause, count_plus, count_end, moved};
ghost use Rattle.pl_outside.specs.Taken.{TakesAll, IsBlameless};

use crate::faults::Failed;

/// What takes bytes, one piece after another.
///
/// What a sound sink took is known, and it has a room, a number of bytes. It counts a fault or answers Failed
/// only where a piece is longer than its room.
pub trait Sink {
    /// The bytes taken so far, where they are known.
    ghost taken: { Self → Option (List ℕ) };

    /// How many faults it has counted, up to the count's end.
    ghost faults: { Self → ℕ };

    /// How many calls it has taken, up to the count's end.
    ghost calls: { Self → ℕ };

    /// Whether it is sound.
    ghost sound: { Self → Bool };

    /// How many more bytes it has room for. It counts only where the sink is sound.
    ghost room: { Self → ℕ };

    /// Whether it takes each piece whole, or fails.
    ghost whole: { Self → Bool };

    /// Takes bytes from the front of the piece, and says how many. To take nothing of a nonempty piece is a
    /// fault.
    fn write(&mut self, bytes: &[u8]) -> Result<usize, Failed>
        ensures within { IfOk result (λ n. n ≤ length bytes.now) }
        ensures some { IfOk result (λ n. 0 < length bytes.now → 0 < n) }
        ensures taken { TakesAll (taken self.old) (taken self.new) (take (moved result) bytes.now) }
        ensures cause { HasCause (faults self.old) (faults self.new) result }
        ensures blameless { IsBlameless (sound self.old) (room self.old) (length bytes.now)
            (faults self.old) (faults self.new) result }
        ensures room { IsTrue (sound self.old) → room self.new + moved result ≡ room self.old }
        ensures counted { calls self.new ≡ count_plus (calls self.old) 1 }
        ensures whole { IsTrue (whole self.old) → IfOk result (λ n. n ≡ length bytes.now) }
        ensures stays { sound self.new ≡ sound self.old }
        ensures stays_whole { whole self.new ≡ whole self.old };

    // What a sound sink took is known.
    ghost sound_tells: { (sink : Self) → IsTrue (sound sink) → IsSome (taken sink) };
}

/// A sink that takes all and never fails, and keeps nothing. Its count of faults is 0.
#[derive(Clone, Copy, Debug, PartialEq, Eq)]
pub struct NullSink;

impl Sink for NullSink {
    ghost taken = { λ _. None };

    ghost faults = { λ _. 0 };

    // it counts no calls, so that their count stands at its end
    ghost calls = { λ _. count_end };

    ghost sound = { λ _. false };

    ghost room = { λ _. 0 };

    ghost whole = { λ _. true };

    fn write(&mut self, bytes: &[u8]) -> Result<usize, Failed>
        ensures { result ≡ Ok (length bytes.now) }
    {
        Ok(bytes.len())
    }

    ghost use Rattle.std.proofs.Common.{rules};

    ghost sound_tells = { Prim.search rules };
}
