//! The form of names in the pipeline language.

ghost use Rattle.std.specs.Prelude.{◌≡◌};
ghost use Rattle.std.specs.List.{list_all};
ghost use Rattle.pl_spec.specs.Names.{is_name, is_keyword, starts_word, is_word_byte};

/// Whether a text is a name of the pipeline language: a letter or `_`, then letters, digits or `_`, all
/// ASCII, at most 32 bytes, and none of the keywords `pipeline`, `let`, `column` and `screen`.
pub fn is_name(b: &[u8]) -> bool
    ensures { result ≡ is_name b.now }
{
    match b {
        [] => false,
        [first, rest @ ..] => {
            starts_word(*first) && are_word_bytes(rest) && rest.len() < 32 && !is_keyword(b)
        }
    }
}

fn starts_word(b: u8) -> bool
    ensures { result ≡ starts_word b }
{
    matches!(b, b'a'..=b'z' | b'A'..=b'Z' | b'_')
}

fn is_word_byte(b: u8) -> bool
    ensures { result ≡ is_word_byte b }
{
    starts_word(b) || b.is_ascii_digit()
}

fn are_word_bytes(b: &[u8]) -> bool
    ensures { result ≡ list_all is_word_byte b.now }
{
    b.iter().all(|c| is_word_byte(*c))
}

fn is_keyword(b: &[u8]) -> bool
    ensures { result ≡ is_keyword b.now }
{
    b == b"pipeline".as_slice()
        || b == b"let".as_slice()
        || b == b"column".as_slice()
        || b == b"screen".as_slice()
}
