//! Two sums of words, by which damage is found.

ghost use Rattle.std.specs.Prelude.{◌≡◌, ℕ, List, [], ◌∷◌, ◌++◌};
ghost use Rattle.pl_packed.specs.Summed.{AreSums};

// The sum of the words so far, and that of those sums, of 64 bits each.
#[derive(Clone, Copy)]
pub(crate) struct Sums {
    pub plain: u64,
    pub weighed: u64,
}

impl Sums {
    // Of no word.
    pub(crate) fn none() -> Sums
        ensures { AreSums result [] }
    {
        Sums {
            plain: 0,
            weighed: 0,
        }
    }

    // With one word more.
    fn and(self, word: u64) -> Sums
        ensures { (words : List ℕ) → AreSums self words → AreSums result (words ++ word ∷ []) }
    {
        let plain = self.plain.wrapping_add(word);
        Sums {
            plain,
            weighed: self.weighed.wrapping_add(plain),
        }
    }

    // With six words more.
    pub(crate) fn and_six(self, six: &[u64; 6]) -> Sums
        ensures { (words : List ℕ) → AreSums self words → AreSums result (words ++ six.now) }
    {
        let [a, b, c, d, e, f] = *six;
        self.and(a).and(b).and(c).and(d).and(e).and(f)
    }
}
