//! What is at the front of a text.

ghost use Rattle.std.specs.Prelude.{◌≡◌, ◌+◌, ◌^◌, ◌<◌, ◌≤◌, length};
ghost use Rattle.std.specs.List.{take_while};
ghost use Rattle.pl_syntax.specs.Bytes.{is_text_byte, pairs, is_sign};
ghost use Rattle.pl_spec.specs.Names.{is_digit, starts_word, is_word_byte};
ghost use Rattle.pl_syntax.specs.Front.{fraction_behind, text_end, sign_front, word_front, front};

/// The form of a token, with its lengths in bytes.
#[derive(Clone, Copy)]
pub(crate) enum Form {
    Word(usize),
    /// The digits, and the digits after a point, 0 where there is no point.
    Number(usize, usize),
    /// A string with its quotes.
    Text(usize),
    One(u8),
    /// A sign of two bytes, the second an `=`.
    Two(u8),
}

/// What is at the front of a text that begins with no gap.
#[derive(Clone, Copy)]
pub(crate) enum Found {
    End,
    /// The byte at this index begins or continues no token.
    Bad(usize),
    Token(Form),
}

fn is_digit_byte(b: u8) -> bool
    ensures { result ≡ is_digit b }
{
    b >= b'0' && b <= b'9'
}

fn starts_a_word(b: u8) -> bool
    ensures { result ≡ starts_word b }
{
    (b >= b'a' && b <= b'z') || (b >= b'A' && b <= b'Z') || b == b'_'
}

fn is_in_word(b: u8) -> bool
    ensures { result ≡ is_word_byte b }
{
    starts_a_word(b) || is_digit_byte(b)
}

fn is_in_text(b: u8) -> bool
    ensures { result ≡ is_text_byte b }
{
    b >= b' ' && b <= b'~' && b != b'"' && b != b'\\'
}

// How many bytes of a word stand at the front.
fn word_length(bytes: &[u8]) -> usize
    ensures { result ≡ length (take_while is_word_byte bytes.now) }
{
    bytes.iter().take_while(|b| is_in_word(**b)).count()
}

fn digits_length(bytes: &[u8]) -> usize
    ensures { result ≡ length (take_while is_digit bytes.now) }
{
    bytes.iter().take_while(|b| is_digit_byte(**b)).count()
}

fn text_length(bytes: &[u8]) -> usize
    ensures { result ≡ length (take_while is_text_byte bytes.now) }
{
    bytes.iter().take_while(|b| is_in_text(**b)).count()
}

fn can_pair(b: u8) -> bool
    ensures { result ≡ pairs b }
{
    (b >= b'<' && b <= b'>') || b == b'!'
}

fn is_one_sign(b: u8) -> bool
    ensures { result ≡ is_sign b }
{
    b == b'&' || (b >= b'(' && b <= b'/') || (b >= b';' && b <= b'>') || b == b'|' || b == b'~'
}

// A word of so many bytes: at most 32 of them.
fn word_of(length: usize) -> Found
    ensures { result ≡ word_front length }
{
    if length <= 32 {
        Found::Token(Form::Word(length))
    } else {
        Found::Bad(32)
    }
}

// A number of so many whole digits, by what stands after them.
fn number_of(digits: usize, behind: &[u8]) -> Found
    ensures { result ≡ fraction_behind digits behind.now }
{
    match behind {
        [b'.', decimals @ ..] => Found::Token(Form::Number(digits, digits_length(decimals))),
        _ => Found::Token(Form::Number(digits, 0)),
    }
}

// A text of so many bytes, its first quote included, by what stands after them.
fn text_of(length: usize, behind: &[u8]) -> Found
    requires { length ≤ 2 ^ 32 }
    ensures { result ≡ text_end length behind.now }
{
    match behind {
        [b'"', ..] => Found::Token(Form::Text(length + 1)),
        _ => Found::Bad(length),
    }
}

// A sign, by the byte after it.
fn sign_of(b: u8, behind: &[u8]) -> Found
    ensures { result ≡ sign_front b behind.now }
{
    match behind {
        [b'=', ..] if can_pair(b) => Found::Token(Form::Two(b)),
        _ => {
            if is_one_sign(b) {
                Found::Token(Form::One(b))
            } else {
                Found::Bad(0)
            }
        }
    }
}

// What is at the front of a text that begins with no gap.
#[tactic(auto, unfolding(crate::specs::Front::front))]
pub(crate) fn front_of(bytes: &[u8]) -> Found
    requires { length bytes.now < 2 ^ 32 }
    ensures { result ≡ front bytes.now }
{
    match bytes {
        [] => Found::End,
        [b, rest @ ..] => {
            if starts_a_word(*b) {
                word_of(word_length(bytes))
            } else if is_digit_byte(*b) {
                let digits = digits_length(bytes);
                number_of(digits, &bytes[digits..])
            } else if *b == b'"' {
                let inside = text_length(rest);
                text_of(inside + 1, &rest[inside..])
            } else {
                sign_of(*b, rest)
            }
        }
    }
}
