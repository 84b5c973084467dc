//! Equality of scripts, places aside.

ghost use Rattle.std.specs.Prelude.{◌≡◌, ◌↔◌, List, true, ℕ, Option};
ghost use Rattle.pl_grammar.specs.Places.{bare, bare_args};
ghost use Rattle.pl_grammar.specs.Whole.{bare_statement, bare_script};
ghost use Rattle.pl_syntax.specs.Plain.{plain, args_tree};
ghost use Rattle.pl_syntax.specs.Statements.{statement_of, statements_of};
ghost use Rattle.pl_syntax.specs.Scripts.{parsed, printed_text};
ghost use Rattle.pl_syntax.specs.Spells.{SameScript};
ghost use Rattle.std.specs.Str.{bytes_eq};
ghost use Rattle.std.specs.Option.{option_map};
ghost use Rattle.std.specs.Cmp.{on_per, on_equiv, partial_equiv_from_equiv};
ghost use Rattle.std.specs.Cmp.Lexicographic.{nat_list_eq_equiv};

use crate::script::{Script, Statement};
use crate::tree::{Arg, ArgList, Expr, ExprNode};
use crate::word::Word;
use pl_grammar::{BinarySign, PrefixSign};

fn same_words(a: &Word, b: &Word) -> bool
    ensures { (result ≡ true) ↔ (a.now ≡ b.now) }
{
    a.bytes() == b.bytes()
}

fn same_prefixes(a: PrefixSign, b: PrefixSign) -> bool
    ensures { (result ≡ true) ↔ (a ≡ b) }
{
    a == b
}

fn same_signs(a: BinarySign, b: BinarySign) -> bool
    ensures { (result ≡ true) ↔ (a ≡ b) }
{
    a == b
}

// Do both arguments have no name, or the same?
fn same_names(a: &Option<Word>, b: &Option<Word>) -> bool
    ensures { (result ≡ true) ↔ (a.now ≡ b.now) }
{
    match a {
        Some(x) => match b {
            Some(y) => same_words(x, y),
            None => false,
        },
        None => b.is_none(),
    }
}

#[cycle(equal)]
#[tactic(auto, unfolding(pl_grammar::specs::Places::bare))]
fn same_expr(a: &Expr, b: &Expr) -> bool
    ensures { (result ≡ true) ↔ (bare (plain a.now) ≡ bare (plain b.now)) }
{
    match (&a.node, &b.node) {
        (ExprNode::Number(x), ExprNode::Number(y)) => x == y,
        (ExprNode::Text(x), ExprNode::Text(y)) => same_words(x, y),
        (ExprNode::Name(x), ExprNode::Name(y)) => same_words(x, y),
        (ExprNode::Call { name: x, args: xs }, ExprNode::Call { name: y, args: ys }) => {
            same_words(x, y) && same_args(xs, ys)
        }
        (
            ExprNode::Prefix {
                sign: x,
                operand: d,
            },
            ExprNode::Prefix {
                sign: y,
                operand: e,
            },
        ) => same_prefixes(*x, *y) && same_expr(d, e),
        (
            ExprNode::Binary {
                sign: x,
                left: l,
                right: r,
            },
            ExprNode::Binary {
                sign: y,
                left: m,
                right: s,
            },
        ) => same_signs(*x, *y) && same_expr(l, m) && same_expr(r, s),
        (
            ExprNode::Member {
                object: d,
                name: x,
                args: xs,
            },
            ExprNode::Member {
                object: e,
                name: y,
                args: ys,
            },
        ) => same_words(x, y) && same_expr(d, e) && same_lists(xs, ys),
        _ => false,
    }
}

// Do both have no parentheses, or the same arguments?
#[cycle(equal)]
fn same_lists(a: &Option<ArgList>, b: &Option<ArgList>) -> bool
    ensures { (result ≡ true) ↔ (option_map (λ l. bare_args (args_tree l)) a.now
        ≡ option_map (λ l. bare_args (args_tree l)) b.now) }
{
    match a {
        Some(xs) => match b {
            Some(ys) => same_args(xs, ys),
            None => false,
        },
        None => b.is_none(),
    }
}

#[cycle(equal)]
fn same_arg(a: &Arg, b: &Arg) -> bool
    ensures { (result ≡ true) ↔ ((a.now.name ≡ b.now.name)
        × (bare (plain a.now.expr) ≡ bare (plain b.now.expr))) }
{
    same_names(&a.name, &b.name) && same_expr(&a.expr, &b.expr)
}

#[cycle(equal)]
fn same_args(a: &ArgList, b: &ArgList) -> bool
    ensures { (result ≡ true) ↔ (bare_args (args_tree a.now) ≡ bare_args (args_tree b.now)) }
{
    let mut rest = b.args.as_slice();
    for arg in &a.args {
        match rest {
            [first, more @ ..] => {
                if !same_arg(arg, first) {
                    return false;
                }
                rest = more;
            }
            [] => return false,
        }
    }
    rest.is_empty()
}

fn same_statement(a: &Statement, b: &Statement) -> bool
    ensures { (result ≡ true) ↔ (bare_statement (statement_of a.now) ≡ bare_statement (statement_of b.now)) }
{
    match (a, b) {
        (
            Statement::Let {
                name: x,
                expr: d,
                ..
            },
            Statement::Let {
                name: y,
                expr: e,
                ..
            },
        ) => { same_words(x, y) && same_expr(d, e) }
        (
            Statement::Column {
                name: x,
                expr: d,
                ..
            },
            Statement::Column {
                name: y,
                expr: e,
                ..
            },
        ) => same_words(x, y) && same_expr(d, e),
        (Statement::Screen { expr: d, .. }, Statement::Screen { expr: e, .. }) => same_expr(d, e),
        _ => false,
    }
}

// Are the statements the same, places aside?
fn same_statements(a: &[Statement], b: &[Statement]) -> bool
    ensures { (result ≡ true) ↔ (bare_script (statements_of a.now) ≡ bare_script (statements_of b.now)) }
{
    let mut rest = b;
    for statement in a {
        match rest {
            [first, more @ ..] => {
                if !same_statement(statement, first) {
                    return false;
                }
                rest = more;
            }
            [] => return false,
        }
    }
    rest.is_empty()
}

fn same_scripts(a: &Script, b: &Script) -> bool
    ensures { (result ≡ true) ↔ SameScript (parsed a.now) (parsed b.now) }
{
    a.version() == b.version() && same_statements(a.statements(), b.statements())
}

/// Scripts are equal where they say the same, at whatever places of their files: their versions are the same,
/// and so are their statements but for places; and so their canonical texts are.
impl PartialEq for Script {
    ghost eq = { λ a b. bytes_eq (printed_text a) (printed_text b) };

    ghost laws = { on_per printed_text (partial_equiv_from_equiv nat_list_eq_equiv) };

    fn eq(&self, other: &Script) -> bool
        ensures same { (result ≡ true) ↔ SameScript (parsed self.now) (parsed other.now) }
        ensures text { result ≡ bytes_eq (printed_text self.now) (printed_text other.now) }
    {
        same_scripts(self, other)
    }
}

impl Eq for Script {
    ghost laws = { on_equiv printed_text nat_list_eq_equiv };
}
