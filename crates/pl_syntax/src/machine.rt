//! The machine: what is open, and each token's move.

ghost use Rattle.std.specs.Prelude.{◌≡◌, ◌++◌, ◌∷◌, [], Some, None, IfOk, IfErr, OnOk};
ghost use Rattle.pl_grammar.specs.Machine.{join, close, operand, is_wanted, literal, named_move, sign_move, operator_move, behind, at, dot_move, callee, open_move, applied, shut, shut_empty, next_arg, name_arg, close_move, comma_move, assign_move, move};
ghost use Rattle.pl_grammar.specs.Machine as m;
ghost use Rattle.pl_grammar.specs.Tree.{mark};
ghost use Rattle.pl_syntax.specs.Plain.{plain};
ghost use Rattle.pl_syntax.specs.Open.{open_in};
ghost use Rattle.pl_syntax.specs.Frames.{frame_of, call_of, mode_of, shown, shown_callee, callee_of, args_list, Moves};
ghost use Rattle.pl_syntax.specs.Code.{token_of};
ghost use Rattle.pl_syntax.specs.declared.machine.MoveError.TheVariants.{Memory};

use crate::stack::{
    Called, Callee, Frame, Stack, frame_level_of, is_ended, left_level_of, level_of,
    prefix_level_of,
};
use crate::token::Token;
use crate::tree::{Arg, ArgList, Expr, ExprNode};
use crate::word::Word;
use pl_grammar::{BinarySign, Place, PrefixSign};
use std::alloc::{AllocError, AllocFailed, Global};

/// The state of the machine.
#[derive(Drop)]
pub(crate) enum Mode {
    Wanted,
    ArgWanted,
    Named {
        place: Place,
        name: Word,
    },
    ArgNamed {
        place: Place,
        name: Word,
    },
    Membered {
        place: Place,
        object: Box<Expr>,
        name: Word,
    },
    Given {
        expr: Expr,
    },
    Dotted {
        object: Box<Expr>,
    },
}

/// Why there is no move.
#[derive(Drop)]
pub(crate) enum MoveError {
    Unexpected,
    Memory,
}

impl From<AllocError> for MoveError {
    ghost from_gives = { λ _ e. e ≡ Memory };

    fn from(_error: AllocError) -> MoveError {
        MoveError::Memory
    }
}

impl<T: Drop> From<AllocFailed<T>> for MoveError {
    ghost from_gives = { λ _ e. e ≡ Memory };

    fn from(_error: AllocFailed<T>) -> MoveError {
        MoveError::Memory
    }
}

fn boxed(alloc: Global, expr: Expr) -> Result<Box<Expr>, AllocError>
    ensures { IfOk result (λ boxed. boxed.value ≡ expr) }
{
    Ok(Box::new(alloc, expr)?)
}

// The construct with its operand.
fn joined(alloc: Global, frame: Frame, expr: Expr) -> Result<Expr, AllocError>
    ensures { IfOk result (λ joined. plain joined ≡ join (frame_of frame) (plain expr)) }
{
    match frame {
        Frame::Prefixed { place, sign } => {
            let operand = boxed(alloc, expr)?;
            Ok(Expr {
                place,
                node: ExprNode::Prefix { sign, operand },
            })
        }
        Frame::Behind { place, sign, left } => match boxed(alloc, expr) {
            Ok(right) => Ok(Expr {
                place,
                node: ExprNode::Binary { sign, left, right },
            }),
            Err(error) => {
                drop(left);
                Err(error)
            }
        },
        frame => {
            drop(frame);
            Ok(expr)
        }
    }
}

/// An operand with its level, after what it ended.
#[derive(Drop)]
pub(crate) struct Ended {
    pub(crate) height: u8,
    pub(crate) expr: Expr,
}

// Ends the constructs of this level and above that the operand ends.
pub(crate) fn end_constructs(
    alloc: Global,
    stack: &mut Stack,
    level: u8,
    operand: Expr,
) -> Result<Ended, MoveError>
    ensures ok { IfOk result (λ c. close level 8 (plain operand) (open_in stack.old)
        ≡ record { height = c.height; tree = plain c.expr; frames = (open_in stack.new) }) }
    ensures err { IfErr result (λ e. e ≡ Memory) }
{
    let mut height = 8;
    let mut expr = operand;
    while let Some(frame) = stack.pop() {
        if !is_ended(&frame, level) {
            return match stack.push(frame) {
                Ok(()) => Ok(Ended { height, expr }),
                Err(_) => {
                    drop(expr);
                    Err(MoveError::Memory)
                }
            };
        }
        height = frame_level_of(&frame);
        expr = joined(alloc, frame, expr)?;
    }
    Ok(Ended { height, expr })
}

// Is an operand wanted?
fn wants(mode: &Mode) -> bool
    ensures { result ≡ is_wanted (mode_of mode.now) }
{
    matches!(mode, Mode::Wanted | Mode::ArgWanted)
}

// The operand that was read.
pub(crate) fn operand_of(mode: Mode) -> Option<Expr>
    ensures { shown result ≡ operand (mode_of mode) }
{
    match mode {
        Mode::Named { place, name } | Mode::ArgNamed { place, name } => {
            Some(Expr {
                place,
                node: ExprNode::Name(name),
            })
        }
        Mode::Membered {
            place,
            object,
            name,
        } => {
            Some(Expr {
                place,
                node: ExprNode::Member {
                    object,
                    name,
                    args: None,
                },
            })
        }
        Mode::Given { expr } => Some(expr),
        mode => {
            drop(mode);
            None
        }
    }
}

// One construct more is open, and the machine stands so.
fn opened(stack: &mut Stack, frame: Frame, mode: Mode) -> Result<Mode, MoveError>
    ensures { Moves result (open_in stack.new)
        (Some (at (mode_of mode) (frame_of frame ∷ open_in stack.old))) }
{
    match stack.push(frame) {
        Ok(()) => Ok(mode),
        Err(_) => {
            drop(mode);
            Err(MoveError::Memory)
        }
    }
}

// A literal.
fn at_literal(stack: &mut Stack, mode: Mode, expr: Expr) -> Result<Mode, MoveError>
    ensures { Moves result (open_in stack.new)
        (literal (plain expr) (is_wanted (mode_of mode)) (open_in stack.old)) }
{
    let wanted = wants(&mode);
    drop(mode);
    if wanted {
        Ok(Mode::Given { expr })
    } else {
        drop(expr);
        Err(MoveError::Unexpected)
    }
}

// A name.
fn at_name(stack: &mut Stack, mode: Mode, place: Place, name: Word) -> Result<Mode, MoveError>
    ensures { Moves result (open_in stack.new) (named_move place name (mode_of mode) (open_in stack.old)) }
{
    match mode {
        Mode::Wanted => Ok(Mode::Named { place, name }),
        Mode::ArgWanted => Ok(Mode::ArgNamed { place, name }),
        Mode::Dotted { object } => Ok(Mode::Membered {
            place,
            object,
            name,
        }),
        mode => {
            drop(mode);
            drop(name);
            Err(MoveError::Unexpected)
        }
    }
}

// A prefix sign where an operand is wanted.
fn at_sign(
    stack: &mut Stack,
    wanted: bool,
    place: Place,
    sign: PrefixSign,
) -> Result<Mode, MoveError>
    ensures { Moves result (open_in stack.new) (sign_move place sign wanted (open_in stack.old)) }
{
    if wanted && stack.asked() <= prefix_level_of(sign) {
        opened(stack, Frame::Prefixed { place, sign }, Mode::Wanted)
    } else {
        Err(MoveError::Unexpected)
    }
}

// A binary sign behind its left operand.
fn put_behind(
    alloc: Global,
    stack: &mut Stack,
    ended: Ended,
    place: Place,
    sign: BinarySign,
) -> Result<Mode, MoveError>
    ensures { Moves result (open_in stack.new) (behind place sign
        (record { height = ended.height; tree = plain ended.expr; frames = (open_in stack.old) })) }
{
    let Ended { height, expr } = ended;
    if left_level_of(sign) <= height {
        let left = boxed(alloc, expr)?;
        opened(stack, Frame::Behind { place, sign, left }, Mode::Wanted)
    } else {
        drop(expr);
        Err(MoveError::Unexpected)
    }
}

// A binary sign, or the sign `-` before an operand.
fn at_operator(
    alloc: Global,
    stack: &mut Stack,
    mode: Mode,
    place: Place,
    sign: BinarySign,
) -> Result<Mode, MoveError>
    ensures { Moves result (open_in stack.new)
        (operator_move place sign (operand (mode_of mode)) (is_wanted (mode_of mode)) (open_in stack.old)) }
{
    let wanted = wants(&mode);
    match operand_of(mode) {
        Some(expr) => {
            let ended = end_constructs(alloc, stack, level_of(sign), expr)?;
            put_behind(alloc, stack, ended, place, sign)
        }
        None => match sign {
            BinarySign::Sub => at_sign(stack, wanted, place, PrefixSign::Minus),
            _ => Err(MoveError::Unexpected),
        },
    }
}

// A dot.
fn at_dot(alloc: Global, stack: &mut Stack, mode: Mode) -> Result<Mode, MoveError>
    ensures { Moves result (open_in stack.new) (dot_move (operand (mode_of mode)) (open_in stack.old)) }
{
    match operand_of(mode) {
        Some(expr) => Ok(Mode::Dotted {
            object: boxed(alloc, expr)?,
        }),
        None => Err(MoveError::Unexpected),
    }
}

// What a `(` may call here.
fn callee_of_mode(mode: Mode) -> Option<Callee>
    ensures { shown_callee result ≡ callee (mode_of mode) }
{
    match mode {
        Mode::Named { place, name } | Mode::ArgNamed { place, name } => {
            Some(Callee::Function { place, name })
        }
        Mode::Membered {
            place,
            object,
            name,
        } => Some(Callee::Method {
            place,
            object,
            name,
        }),
        mode => {
            drop(mode);
            None
        }
    }
}

// A `(`.
fn at_open(alloc: Global, stack: &mut Stack, mode: Mode) -> Result<Mode, MoveError>
    ensures { Moves result (open_in stack.new)
        (open_move (is_wanted (mode_of mode)) (callee (mode_of mode)) (open_in stack.old)) }
{
    if wants(&mode) {
        drop(mode);
        return opened(stack, Frame::Group, Mode::Wanted);
    }
    match callee_of_mode(mode) {
        Some(callee) => {
            let call = Called {
                callee,
                args: Vec::new(alloc),
                name: None,
            };
            opened(stack, Frame::Call(call), Mode::ArgWanted)
        }
        None => Err(MoveError::Unexpected),
    }
}

// The call with the arguments that it has.
fn called(call: Called) -> Expr
    ensures { plain result ≡ applied (callee_of call.callee) (args_list call.args.items) }
{
    let Called { callee, args, name } = call;
    drop(name);
    let args = ArgList { args };
    match callee {
        Callee::Function { place, name } => Expr {
            place,
            node: ExprNode::Call { name, args },
        },
        Callee::Method {
            place,
            object,
            name,
        } => {
            Expr {
                place,
                node: ExprNode::Member {
                    object,
                    name,
                    args: Some(args),
                },
            }
        }
    }
}

fn push_arg(args: &mut Vec<Arg>, arg: Arg) -> Result<(), AllocError>
    ensures { OnOk result (args.new.items ≡ args.old.items ++ arg ∷ []) }
{
    args.push(arg)?;
    Ok(())
}

// The call with one argument more, which is this.
fn with_arg(call: Called, expr: Expr) -> Result<Called, MoveError>
    ensures ok { IfOk result (λ more. call_of more ≡ m.Call (callee_of call.callee)
        (args_list call.args.items ++ record { name = call.name; tree = plain expr } ∷ []) None) }
    ensures err { IfErr result (λ e. e ≡ Memory) }
{
    let Called { callee, args, name } = call;
    let mut args = args;
    match push_arg(&mut args, Arg { name, expr }) {
        Ok(()) => Ok(Called {
            callee,
            args,
            name: None,
        }),
        Err(_) => {
            drop(callee);
            drop(args);
            Err(MoveError::Memory)
        }
    }
}

// A `)` after an operand that ended all but a parenthesis.
fn shut_by(stack: &mut Stack, expr: Expr) -> Result<Mode, MoveError>
    ensures { Moves result (open_in stack.new) (shut (plain expr) (open_in stack.old)) }
{
    match stack.pop() {
        Some(Frame::Group) => Ok(Mode::Given { expr }),
        Some(Frame::Call(call)) => Ok(Mode::Given {
            expr: called(with_arg(call, expr)?),
        }),
        frame => {
            drop(frame);
            drop(expr);
            Err(MoveError::Unexpected)
        }
    }
}

// A `)` after the `(` of a call.
fn shut_empty_by(stack: &mut Stack) -> Result<Mode, MoveError>
    ensures { Moves result (open_in stack.new) (shut_empty m.ArgWanted (open_in stack.old)) }
{
    match stack.pop() {
        Some(Frame::Call(call)) => {
            if call.args.is_empty() {
                Ok(Mode::Given { expr: called(call) })
            } else {
                drop(call);
                Err(MoveError::Unexpected)
            }
        }
        frame => {
            drop(frame);
            Err(MoveError::Unexpected)
        }
    }
}

// A comma after an operand that ended all but a parenthesis.
fn next_by(stack: &mut Stack, expr: Expr) -> Result<Mode, MoveError>
    ensures { Moves result (open_in stack.new) (next_arg (plain expr) (open_in stack.old)) }
{
    match stack.pop() {
        Some(Frame::Call(call)) => {
            let call = with_arg(call, expr)?;
            opened(stack, Frame::Call(call), Mode::ArgWanted)
        }
        frame => {
            drop(frame);
            drop(expr);
            Err(MoveError::Unexpected)
        }
    }
}

// An `=` after the name of an argument.
fn name_by(stack: &mut Stack, word: Word) -> Result<Mode, MoveError>
    ensures { Moves result (open_in stack.new) (name_arg word (open_in stack.old)) }
{
    match stack.pop() {
        Some(Frame::Call(Called { callee, args, name })) => {
            drop(name);
            let call = Called {
                callee,
                args,
                name: Some(word),
            };
            opened(stack, Frame::Call(call), Mode::Wanted)
        }
        frame => {
            drop(frame);
            drop(word);
            Err(MoveError::Unexpected)
        }
    }
}

// A `)`.
fn at_close(alloc: Global, stack: &mut Stack, mode: Mode) -> Result<Mode, MoveError>
    ensures { Moves result (open_in stack.new)
        (close_move (operand (mode_of mode)) (mode_of mode) (open_in stack.old)) }
{
    match mode {
        Mode::ArgWanted => shut_empty_by(stack),
        mode => match operand_of(mode) {
            Some(expr) => {
                let ended = end_constructs(alloc, stack, 0, expr)?;
                shut_by(stack, ended.expr)
            }
            None => Err(MoveError::Unexpected),
        },
    }
}

// A comma.
fn at_comma(alloc: Global, stack: &mut Stack, mode: Mode) -> Result<Mode, MoveError>
    ensures { Moves result (open_in stack.new) (comma_move (operand (mode_of mode)) (open_in stack.old)) }
{
    match operand_of(mode) {
        Some(expr) => {
            let ended = end_constructs(alloc, stack, 0, expr)?;
            next_by(stack, ended.expr)
        }
        None => Err(MoveError::Unexpected),
    }
}

// An `=`.
fn at_assign(stack: &mut Stack, mode: Mode) -> Result<Mode, MoveError>
    ensures { Moves result (open_in stack.new) (assign_move (mode_of mode) (open_in stack.old)) }
{
    match mode {
        Mode::ArgNamed { name, .. } => name_by(stack, name),
        mode => {
            drop(mode);
            Err(MoveError::Unexpected)
        }
    }
}

// A token's move.
pub(crate) fn moved(
    alloc: Global,
    stack: &mut Stack,
    mode: Mode,
    place: Place,
    token: Token,
) -> Result<Mode, MoveError>
    ensures { Moves result (open_in stack.new)
        (move (mark place (token_of token)) (mode_of mode) (open_in stack.old)) }
{
    match token {
        Token::Name(name) => at_name(stack, mode, place, name),
        Token::Number(value) => at_literal(
            stack,
            mode,
            Expr {
                place,
                node: ExprNode::Number(value),
            },
        ),
        Token::LargeNumber => {
            drop(mode);
            Err(MoveError::Unexpected)
        }
        Token::Text(text) => at_literal(
            stack,
            mode,
            Expr {
                place,
                node: ExprNode::Text(text),
            },
        ),
        Token::Operator(sign) => at_operator(alloc, stack, mode, place, sign),
        Token::Tilde => {
            let wanted = wants(&mode);
            drop(mode);
            at_sign(stack, wanted, place, PrefixSign::Not)
        }
        Token::Dot => at_dot(alloc, stack, mode),
        Token::Open => at_open(alloc, stack, mode),
        Token::Close => at_close(alloc, stack, mode),
        Token::Comma => at_comma(alloc, stack, mode),
        Token::Assign => at_assign(stack, mode),
        _ => {
            drop(mode);
            Err(MoveError::Unexpected)
        }
    }
}
