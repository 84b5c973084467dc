//! The nodes.

ghost use Rattle.std.specs.Prelude.{◌≡◌};
ghost use Rattle.pl_syntax.specs.Rows.{args_of};

use crate::word::Word;
use pl_grammar::{BinarySign, Place, PrefixSign};

/// An expression, at the place of its token: the operator; the NAME of a call or member; the literal or
/// name itself.
#[cycle(tree)]
#[derive(Drop, Debug)]
pub struct Expr {
    pub place: Place,
    pub node: ExprNode,
}

/// The nodes of expressions. Parentheses leave none.
#[cycle(tree)]
#[derive(Drop, Debug)]
pub enum ExprNode {
    /// A number in millionths.
    Number(i64),
    /// A string, without its quotes.
    Text(Word),
    Name(Word),
    Call {
        name: Word,
        args: ArgList,
    },
    Prefix {
        sign: PrefixSign,
        operand: Box<Expr>,
    },
    Binary {
        sign: BinarySign,
        left: Box<Expr>,
        right: Box<Expr>,
    },
    /// A member, with arguments where it was written with parentheses.
    Member {
        object: Box<Expr>,
        name: Word,
        args: Option<ArgList>,
    },
}

/// An argument, with its name where it is given by name.
#[cycle(tree)]
#[derive(Drop, Debug)]
pub struct Arg {
    pub name: Option<Word>,
    pub expr: Expr,
}

/// The arguments of a call, in the order written.
#[cycle(tree)]
#[derive(Drop, Debug)]
pub struct ArgList {
    pub(crate) args: Vec<Arg>,
}

impl ArgList {
    /// Lends the arguments, in the order written, those by place and those by name.
    pub fn as_slice(&self) -> &[Arg]
        ensures { result.now ≡ args_of self.now }
    {
        self.args.as_slice()
    }
}
