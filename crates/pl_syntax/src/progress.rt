//! How far a script is read.

ghost use Rattle.std.specs.Prelude.{◌≡◌, ◌≤◌, ◌<◌};
ghost use Rattle.pl_grammar.specs.Faults.{most_tokens, token_too_large, token_counted};
ghost use Rattle.pl_syntax.specs.Code.{token_of};

use crate::stage::Stage;
use crate::token::Token;

// Where the reader stands, how many tokens of its statement have come, and which version was named, 0 for
// none.
#[derive(Drop)]
pub(crate) struct Progress {
    pub(crate) stage: Stage,
    pub(crate) count: usize,
    pub(crate) version: u32,
    ghost few: { count ≤ most_tokens },
}

pub(crate) fn is_too_large(token: &Token) -> bool
    ensures { result ≡ token_too_large (token_of token.now) }
{
    matches!(token, Token::LargeNumber)
}

// How many tokens of its statement have come with this one, 0 after its `;`.
pub(crate) fn count_with(token: &Token, count: usize) -> usize
    requires { count < most_tokens }
    ensures value { result ≡ token_counted count (token_of token.now) }
    ensures few { result ≤ most_tokens }
{
    match token {
        Token::Semicolon => 0,
        _ => count + 1,
    }
}
