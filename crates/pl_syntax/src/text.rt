//! A text, read token by token.

ghost use Rattle.std.specs.Prelude.{◌≡◌, ◌+◌, ◌-◌, ◌^◌, ◌<◌, ◌≤◌, ℕ, List, length, take, drop, IfOk};
ghost use Rattle.std.specs.List.{take_while};
ghost use Rattle.pl_grammar.specs.Tree.{Lexeme};
ghost use Rattle.pl_grammar.specs.Faults.{Tail};
ghost use Rattle.pl_syntax.specs.Bytes.{Stops, is_blank, no_line_end, begins_gap};
ghost use Rattle.pl_syntax.specs.Tokens.{form_length};
ghost use Rattle.pl_syntax.specs.Front.{gap_front};
ghost use Rattle.pl_syntax.specs.Text.{after_byte, after, Read};
ghost use Rattle.pl_syntax.specs.Code.{HasRoom, IsNext};

use crate::front::{Form, Found, front_of};
use crate::token::{Token, token_from};
use pl_grammar::Place;
use std::alloc::{AllocError, Global};

/// What is left of a text, and the place of its first byte.
#[derive(Drop)]
pub struct Text<'a> {
    pub bytes: &'a [u8],
    pub place: Place,
}

/// What comes next in a text.
#[derive(Drop, Debug)]
pub enum Next {
    /// The end of the text, just past its last byte.
    End(Place),
    /// A byte that begins or continues no token, or the end of the text in a string.
    Bad(Place),
    Token(Place, Token),
}

// The place after a byte.
fn place_behind(place: Place, b: u8) -> Place
    requires line { place.line < 2 ^ 32 - 1 }
    requires col { place.col < 2 ^ 32 - 1 }
    ensures { result ≡ after_byte b place }
{
    if b == b'\n' {
        Place {
            line: place.line + 1,
            col: 1,
        }
    } else {
        Place {
            line: place.line,
            col: place.col + 1,
        }
    }
}

// The place after these bytes.
fn place_after(place: Place, bytes: &[u8]) -> Place
    requires { HasRoom place bytes.now }
    ensures { result ≡ after bytes.now place }
{
    let mut here = place;
    for b in bytes {
        here = place_behind(here, *b);
    }
    here
}

fn is_blank_byte(b: u8) -> bool
    ensures { result ≡ is_blank b }
{
    b == b' ' || b == b'\t' || b == b'\r' || b == b'\n'
}

fn comment_length(bytes: &[u8]) -> usize
    ensures { result ≡ length (take_while no_line_end bytes.now) }
{
    bytes.iter().take_while(|b| **b != b'\n').count()
}

// How many bytes of a gap stand in front: a blank, or a comment, or none.
fn gap_length(bytes: &[u8]) -> usize
    requires { length bytes.now < 2 ^ 32 }
    ensures { result ≡ gap_front bytes.now }
{
    match bytes {
        [] => 0,
        [b, rest @ ..] => {
            if is_blank_byte(*b) {
                1
            } else if *b == b'#' {
                comment_length(rest) + 1
            } else {
                0
            }
        }
    }
}

// How many bytes a form has.
fn length_of(form: Form) -> usize
    requires { form_length form < 2 ^ 32 }
    ensures { result ≡ form_length form }
{
    match form {
        Form::Word(length) | Form::Text(length) | Form::Number(length, 0) => length,
        Form::Number(digits, decimals) => digits + 1 + decimals,
        Form::One(_) => 1,
        Form::Two(_) => 2,
    }
}

impl<'a> Text<'a> {
    // Goes on over so many bytes.
    fn skip(&mut self, count: usize)
        requires room { HasRoom self.old.place self.old.bytes.now }
        requires within { count ≤ length self.old.bytes.now }
        ensures place { self.new.place ≡ after (take count self.old.bytes.now) self.old.place }
        ensures bytes { self.new.bytes.now ≡ drop count self.old.bytes.now }
        ensures room { HasRoom self.new.place self.new.bytes.now }
    {
        self.place = place_after(self.place, &self.bytes[..count]);
        self.bytes = &self.bytes[count..];
    }

    // Goes over the blanks and comments in front.
    fn skip_gap(&mut self)
        requires { HasRoom self.old.place self.old.bytes.now }
        ensures reads { (ts : List Lexeme) (tail : Tail) → Read self.new.place self.new.bytes.now ts tail
            → Read self.old.place self.old.bytes.now ts tail }
        ensures tight { Stops begins_gap self.new.bytes.now }
        ensures fewer { length self.new.bytes.now ≤ length self.old.bytes.now }
        ensures room { HasRoom self.new.place self.new.bytes.now }
    {
        let mut count = gap_length(self.bytes);
        while count > 0 {
            self.skip(count);
            count = gap_length(self.bytes);
        }
    }

    /// What comes next, after blanks and comments. After a token the text goes on after it. The only error is
    /// want of memory, for the bytes of a name or a string.
    pub fn next(&mut self, alloc: Global) -> Result<Next, AllocError>
        requires { HasRoom self.old.place self.old.bytes.now }
        ensures { IfOk result
            (λ next. IsNext self.old.place self.old.bytes.now next self.new.place self.new.bytes.now) }
    {
        self.skip_gap();
        let place = self.place;
        match front_of(self.bytes) {
            Found::End => Ok(Next::End(place)),
            Found::Bad(index) => {
                self.skip(index);
                Ok(Next::Bad(self.place))
            }
            Found::Token(form) => {
                let count = length_of(form);
                let token = token_from(alloc, form, &self.bytes[..count])?;
                self.skip(count);
                Ok(Next::Token(place, token))
            }
        }
    }
}
