//! The tokens.

ghost use Rattle.std.specs.Prelude.{◌≡◌, ◌+◌, ◌-◌, ◌<◌, ◌≤◌, List, ℕ, length, take, drop, IfOk};
ghost use Rattle.pl_syntax.specs.Tokens.{Front, token_in, word_token, one_token, two_token};
ghost use Rattle.pl_syntax.specs.Code.{token_of};

use crate::front::Form;
use crate::word::Word;
use pl_fixed::{DecimalFault, read_decimal};
use pl_grammar::BinarySign;
use std::alloc::{AllocError, Global};

/// A token. A number is in millionths; `-` is `Operator(Sub)` before an operand, too.
#[derive(Drop, Debug)]
pub enum Token {
    Name(Word),
    Number(i64),
    /// A number with more than 18 digits after its point, or past the greatest cell.
    LargeNumber,
    Text(Word),
    Operator(BinarySign),
    Tilde,
    Dot,
    Open,
    Close,
    Comma,
    Assign,
    Semicolon,
    PipelineWord,
    LetWord,
    ColumnWord,
    ScreenWord,
}

fn copied(alloc: Global, bytes: &[u8]) -> Result<Word, AllocError>
    ensures { IfOk result (λ word. word ≡ bytes.now) }
{
    let mut text = Vec::new(alloc);
    text.extend_from_slice(bytes)?;
    Ok(Word::new(text))
}

// A keyword, or a name.
fn word_at(alloc: Global, bytes: &[u8]) -> Result<Token, AllocError>
    ensures { IfOk result (λ token. token_of token ≡ word_token bytes.now) }
{
    if bytes == b"pipeline".as_slice() {
        Ok(Token::PipelineWord)
    } else if bytes == b"let".as_slice() {
        Ok(Token::LetWord)
    } else if bytes == b"column".as_slice() {
        Ok(Token::ColumnWord)
    } else if bytes == b"screen".as_slice() {
        Ok(Token::ScreenWord)
    } else {
        Ok(Token::Name(copied(alloc, bytes)?))
    }
}

// A number of so many digits, and so many after its point.
fn number_at(bytes: &[u8]) -> Token
    requires { (whole : ℕ) × (fraction : ℕ) × (rest : List ℕ)
        × Front bytes.now rest (Form.Number whole fraction) }
    ensures { (whole fraction : ℕ) (rest : List ℕ) → Front bytes.now rest (Form.Number whole fraction)
        → token_of result ≡ token_in (Form.Number whole fraction) bytes.now }
{
    match read_decimal(bytes) {
        Ok(value) => Token::Number(value),
        Err(DecimalFault::TooManyDigits | DecimalFault::TooLarge) => Token::LargeNumber,
        Err(DecimalFault::Empty) => unreachable!(),
        Err(DecimalFault::Shape) => unreachable!(),
    }
}

// A sign of one byte.
fn one_sign(b: u8) -> Token
    ensures { token_of result ≡ one_token b }
{
    match b {
        b'&' => Token::Operator(BinarySign::And),
        b'(' => Token::Open,
        b')' => Token::Close,
        b'*' => Token::Operator(BinarySign::Mul),
        b'+' => Token::Operator(BinarySign::Add),
        b',' => Token::Comma,
        b'-' => Token::Operator(BinarySign::Sub),
        b'.' => Token::Dot,
        b'/' => Token::Operator(BinarySign::Div),
        b';' => Token::Semicolon,
        b'<' => Token::Operator(BinarySign::Less),
        b'=' => Token::Assign,
        b'>' => Token::Operator(BinarySign::Greater),
        b'|' => Token::Operator(BinarySign::Or),
        _ => Token::Tilde,
    }
}

// A sign of two bytes, by its first.
fn two_sign(b: u8) -> Token
    ensures { token_of result ≡ two_token b }
{
    match b {
        b'<' => Token::Operator(BinarySign::LessEqual),
        b'=' => Token::Operator(BinarySign::Equal),
        b'>' => Token::Operator(BinarySign::GreaterEqual),
        _ => Token::Operator(BinarySign::NotEqual),
    }
}

// The token of this form, of its own bytes.
pub(crate) fn token_from(alloc: Global, form: Form, bytes: &[u8]) -> Result<Token, AllocError>
    requires { (rest : List ℕ) × Front bytes.now rest form }
    ensures { IfOk result (λ token. token_of token ≡ token_in form bytes.now) }
{
    match form {
        Form::Word(_) => word_at(alloc, bytes),
        Form::Number(..) => Ok(number_at(bytes)),
        Form::Text(length) => Ok(Token::Text(copied(alloc, &bytes[1..length - 1])?)),
        Form::One(b) => Ok(one_sign(b)),
        Form::Two(b) => Ok(two_sign(b)),
    }
}
