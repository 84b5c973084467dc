//! Whether a script speaks of numbers beside bars.
ghost use Rattle.std.specs.Prelude.{◌≡◌};
ghost use Rattle.pl_grammar.specs.Machine.{args_of};
ghost use Rattle.pl_syntax.specs.Frames.{args_list};
ghost use Rattle.pl_syntax.specs.Plain.{plain};
ghost use Rattle.pl_syntax.specs.Scripts.{parsed};
ghost use Rattle.pl_syntax.specs.Statements.{statements_of};
ghost use Rattle.pl_check.specs.Numbered as spec;

use crate::expressions::slice_of;
use crate::statements::expr_of;
use pl_syntax::{Arg, Expr, ExprNode, Place, Script, Statement};

// The first call of `number` in an expression.
#[cycle(first_in)]
#[tactic(auto, unfolding(crate::specs::Numbered::calls))]
fn first_in(expr: &Expr) -> Option<Place>
    ensures { result ≡ spec.first_place (spec.calls (plain expr.entry.now)) }
{
    match &expr.node {
        ExprNode::Number(_) | ExprNode::Text(_) | ExprNode::Name(_) => None,
        ExprNode::Prefix { operand, .. } => first_in(operand),
        ExprNode::Binary { left, right, .. } => match first_in(left) {
            Some(place) => Some(place),
            None => first_in(right),
        },
        ExprNode::Member { object, args, .. } => match first_in(object) {
            Some(place) => Some(place),
            None => match args {
                Some(list) => first_among(slice_of(list)),
                None => None,
            },
        },
        ExprNode::Call { name, .. } if name.bytes() == b"number".as_slice() => Some(expr.place),
        ExprNode::Call { args, .. } => first_among(slice_of(args)),
    }
}

// The first in arguments.
#[cycle(first_in)]
#[tactic(auto, unfolding(crate::specs::Numbered::calls_among))]
fn first_among(args: &[Arg]) -> Option<Place>
    ensures { result ≡ spec.first_place (spec.calls_among (args_of (args_list args.entry.now))) }
{
    match args {
        [] => None,
        [first, rest @ ..] => match first_in(&first.expr) {
            Some(place) => Some(place),
            None => first_among(rest),
        },
    }
}

// The first in statements.
#[tactic(auto, unfolding(crate::specs::Numbered::statement_calls))]
fn first_stated(statements: &[Statement]) -> Option<Place>
    ensures { result ≡ spec.first_place (spec.statement_calls (statements_of statements.entry.now)) }
{
    match statements {
        [] => None,
        [first, rest @ ..] => match first_in(expr_of(first)) {
            Some(place) => Some(place),
            None => first_stated(rest),
        },
    }
}

/// The place of the first call of the function `number`, in the order of the text, whether a column uses it
/// or not; none where there is no such call. It is where a fault of that call would be.
#[tactic(auto, unfolding(crate::specs::Numbered::first_number))]
pub fn first_number(script: &Script) -> Option<Place>
    ensures { result ≡ spec.first_number (parsed script.now) }
{
    first_stated(script.statements())
}
