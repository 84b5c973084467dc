//! Pipeline files: bytes are read as a script, and a script is written as its one canonical text. Scripts
//! are equal where they are the same but for places.
//!
//! docs/LANGUAGE.md gives the language. `specs/Tokens` has the forms of tokens, taken longest first, and what
//! each is to the grammar; `specs/Text` says what a whole text is: tokens with gaps round them, and after
//! them its end or the first byte that begins or continues no token. What the bytes spell, and which fault is
//! the first, is defined in `specs/Spells` over these and the grammar of `pl_grammar`.
#![tactic(auto)]

mod equal;
mod error;
mod front;
mod machine;
mod parser;
mod progress;
mod script;
mod stack;
mod stage;
mod text;
mod token;
mod token_laws;
mod tree;
mod word;
mod writer;

pub use error::SyntaxError;
pub use parser::{MOST_BYTES, one_script_spelled, parse, texts_say};
pub use pl_grammar::{BinarySign, Place, PrefixSign};
pub use script::{Script, Statement};
pub use text::{Next, Text};
pub use token::Token;
pub use token_laws::{each_is_read, one_reading};
pub use tree::{Arg, ArgList, Expr, ExprNode};
pub use word::Word;
pub use writer::{print, scripts_are_spelled};
