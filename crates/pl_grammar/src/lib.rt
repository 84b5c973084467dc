//! The grammar of pipeline files over tokens: its rules by cases, the first fault of a text, the machine
//! that reads it token by token, and what is proved of them.
//!
//! The definitions are in `specs/`. `Grammar` and `Script` are the rules; `Faults` says which fault is the
//! first; `Machine` has the moves that the parser makes; `Printed` is the canonical form. The functions here
//! do nothing: the contract of each is a law of the definitions.
#![tactic(auto)]

ghost use Rattle.pl_grammar.specs.Laws.{VerdictIsRight, OneScript};

/// A place in a text: its line, and its column in bytes, both counted from 1.
#[derive(Clone, Copy, Debug, PartialEq, Eq)]
pub struct Place {
    pub line: u32,
    pub col: u32,
}

/// The signs before an operand: `-` (`Minus`) and `~` (`Not`).
#[derive(Clone, Copy, Debug, PartialEq, Eq)]
pub enum PrefixSign {
    Minus,
    Not,
}

/// The signs between two operands: `|`, `&`, the six comparisons, `+`, `-`, `*` and `/`.
#[derive(Clone, Copy, Debug, PartialEq, Eq)]
pub enum BinarySign {
    Or,
    And,
    Less,
    LessEqual,
    Greater,
    GreaterEqual,
    Equal,
    NotEqual,
    Add,
    Sub,
    Mul,
    Div,
}

/// The verdict of the machine over tokens is the one script that they spell, or their first fault.
pub fn verdict_is_right()
    ensures { VerdictIsRight }
{}

/// The same tokens spell no two scripts.
pub fn one_script()
    ensures { OneScript }
{}
