//! The bytes of a name or a string.

ghost use Rattle.std.specs.Prelude.{◌≡◌};

use std::marker::Model;

/// A name, or the bytes between the quotes of a string: seen as its bytes.
#[derive(Drop, Debug)]
pub struct Word {
    text: Vec<u8>,
}

impl Model for Word {
    ghost use Rattle.std.specs.Prelude.{List, ℕ};

    ghost Value = { List ℕ };

    ghost view = { λ w. w.text.items };
}

impl Word {
    /// The word with these bytes.
    pub fn new(text: Vec<u8>) -> Word
        ensures { result ≡ text.items }
    {
        Word { text }
    }

    /// Lends the bytes.
    pub fn bytes(&self) -> &[u8]
        ensures { result.now ≡ self.now }
    {
        self.text.as_slice()
    }
}
