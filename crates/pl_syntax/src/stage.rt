//! The stages of a script round its expressions, and each token's move.

ghost use Rattle.std.specs.Prelude.{◌≡◌, Some, OnOk, ◌++◌, ◌∷◌, []};
ghost use Rattle.pl_grammar.specs.Tree.{mark};
ghost use Rattle.pl_grammar.specs.Machine.{finished, operand, move, at};
ghost use Rattle.pl_grammar.specs.Script.{token_version, version_of, version_or, opening_move, version_move, given_move, between_move, name_move, assign_head, ended, within_move, script_move, stage_depth, LetHead, ColumnHead};
ghost use Rattle.pl_grammar.specs.Script as g;
ghost use Rattle.pl_syntax.specs.Code.{token_of};
ghost use Rattle.pl_syntax.specs.Frames.{mode_of};
ghost use Rattle.pl_syntax.specs.Open.{open_in};
ghost use Rattle.pl_syntax.specs.Statements.{statement_of, statements_of, head_of};
ghost use Rattle.pl_syntax.specs.Stages.{stage_of, StageMoves, Finishes};

use crate::machine::{Mode, MoveError, end_constructs, moved, operand_of};
use crate::script::{Head, Statement, stated};
use crate::stack::Stack;
use crate::token::Token;
use crate::tree::Expr;
use pl_grammar::Place;
use std::alloc::{AllocError, Global};

/// The state of the reader of a script.
#[derive(Drop)]
pub(crate) enum Stage {
    Opening,
    VersionWanted,
    VersionGiven,
    Between {
        statements: Vec<Statement>,
    },
    LetWanted {
        statements: Vec<Statement>,
    },
    ColumnWanted {
        statements: Vec<Statement>,
    },
    AssignWanted {
        statements: Vec<Statement>,
        head: Head,
    },
    Within {
        statements: Vec<Statement>,
        head: Head,
        mode: Mode,
        stack: Stack,
    },
}

// The versions in millionths.
const FIRST: i64 = 1_000_000;

const SECOND: i64 = 2_000_000;

const THIRD: i64 = 3_000_000;

const FOURTH: i64 = 4_000_000;

// The version that a number names; 0 for none.
fn version_of(value: i64) -> u32
    ensures { result ≡ version_of value }
{
    if value == FIRST {
        1
    } else if value == SECOND {
        2
    } else if value == THIRD {
        3
    } else if value == FOURTH {
        4
    } else {
        0
    }
}

// The version that was named before, or else that of the token.
pub(crate) fn version_with(token: &Token, version: u32) -> u32
    ensures { result ≡ version_or version (token_version (token_of token.now)) }
{
    match token {
        Token::Number(value) if version == 0 => version_of(*value),
        _ => version,
    }
}

fn at_opening(token: Token) -> Result<Stage, MoveError>
    ensures { StageMoves result (opening_move (token_of token)) }
{
    match token {
        Token::PipelineWord => Ok(Stage::VersionWanted),
        _ => Err(MoveError::Unexpected),
    }
}

fn at_version(token: Token) -> Result<Stage, MoveError>
    ensures { StageMoves result (version_move (token_of token)) }
{
    match token {
        Token::Number(value) => {
            if version_of(value) != 0 {
                Ok(Stage::VersionGiven)
            } else {
                Err(MoveError::Unexpected)
            }
        }
        _ => Err(MoveError::Unexpected),
    }
}

fn at_version_end(alloc: Global, token: Token) -> Result<Stage, MoveError>
    ensures { StageMoves result (given_move (token_of token)) }
{
    match token {
        Token::Semicolon => Ok(Stage::Between {
            statements: Vec::new(alloc),
        }),
        _ => Err(MoveError::Unexpected),
    }
}

// The first token of a statement.
fn at_statement(
    alloc: Global,
    statements: Vec<Statement>,
    place: Place,
    token: Token,
) -> Result<Stage, MoveError>
    ensures { StageMoves result (between_move (statements_of statements.items) place (token_of token)) }
{
    match token {
        Token::LetWord => Ok(Stage::LetWanted { statements }),
        Token::ColumnWord => Ok(Stage::ColumnWanted { statements }),
        Token::ScreenWord => Ok(Stage::Within {
            statements,
            head: Head::Screen { place },
            mode: Mode::Wanted,
            stack: Stack::new(alloc),
        }),
        _ => Err(MoveError::Unexpected),
    }
}

fn at_let_name(statements: Vec<Statement>, place: Place, token: Token) -> Result<Stage, MoveError>
    ensures { StageMoves result (name_move
        (λ n. g.AssignWanted (statements_of statements.items) (LetHead place n)) (token_of token)) }
{
    match token {
        Token::Name(name) => Ok(Stage::AssignWanted {
            statements,
            head: Head::Let { place, name },
        }),
        _ => Err(MoveError::Unexpected),
    }
}

fn at_column_name(
    statements: Vec<Statement>,
    place: Place,
    token: Token,
) -> Result<Stage, MoveError>
    ensures { StageMoves result (name_move
        (λ n. g.AssignWanted (statements_of statements.items) (ColumnHead place n)) (token_of token)) }
{
    match token {
        Token::Name(name) => Ok(Stage::AssignWanted {
            statements,
            head: Head::Column { place, name },
        }),
        _ => Err(MoveError::Unexpected),
    }
}

fn at_head_end(
    alloc: Global,
    statements: Vec<Statement>,
    head: Head,
    token: Token,
) -> Result<Stage, MoveError>
    ensures { StageMoves result (assign_head (statements_of statements.items) (head_of head)
        (token_of token)) }
{
    match token {
        Token::Assign => Ok(Stage::Within {
            statements,
            head,
            mode: Mode::Wanted,
            stack: Stack::new(alloc),
        }),
        token => {
            drop(token);
            drop(statements);
            drop(head);
            Err(MoveError::Unexpected)
        }
    }
}

// The expression that was read, where it may end here.
fn finished_expr(alloc: Global, mode: Mode, stack: &mut Stack) -> Result<Expr, MoveError>
    ensures { Finishes result (finished (operand (mode_of mode)) (open_in stack.old)) }
{
    match operand_of(mode) {
        Some(expr) => {
            let ended = end_constructs(alloc, stack, 0, expr)?;
            match stack.pop() {
                None => Ok(ended.expr),
                Some(frame) => {
                    drop(frame);
                    drop(ended);
                    Err(MoveError::Unexpected)
                }
            }
        }
        None => Err(MoveError::Unexpected),
    }
}

// One more statement.
fn with_statement(statements: Vec<Statement>, statement: Statement) -> Result<Stage, MoveError>
    ensures { StageMoves result (Some (g.Between (statements_of statements.items
        ++ (statement_of statement ∷ [])))) }
{
    let mut statements = statements;
    match add(&mut statements, statement) {
        Ok(()) => Ok(Stage::Between { statements }),
        Err(_) => {
            drop(statements);
            Err(MoveError::Memory)
        }
    }
}

fn add(statements: &mut Vec<Statement>, statement: Statement) -> Result<(), AllocError>
    ensures { OnOk result (statements.new.items ≡ statements.old.items ++ (statement ∷ [])) }
{
    statements.push(statement)?;
    Ok(())
}

// The `;` of a statement.
fn at_end(
    alloc: Global,
    statements: Vec<Statement>,
    head: Head,
    mode: Mode,
    stack: Stack,
) -> Result<Stage, MoveError>
    ensures { StageMoves result (ended (statements_of statements.items) (head_of head)
        (finished (operand (mode_of mode)) (open_in stack)) (token_of Token.Semicolon)) }
{
    let mut stack = stack;
    let finished = finished_expr(alloc, mode, &mut stack);
    drop(stack);
    match finished {
        Ok(expr) => with_statement(statements, stated(head, expr)),
        Err(error) => {
            drop(statements);
            drop(head);
            Err(error)
        }
    }
}

// A token within an expression.
fn at_expression(
    alloc: Global,
    statements: Vec<Statement>,
    head: Head,
    mode: Mode,
    stack: Stack,
    place: Place,
    token: Token,
) -> Result<Stage, MoveError>
    ensures { StageMoves result (within_move (statements_of statements.items) (head_of head)
        (finished (operand (mode_of mode)) (open_in stack)) (token_of token)
        (move (mark place (token_of token)) (mode_of mode) (open_in stack))) }
{
    match token {
        Token::Semicolon => at_end(alloc, statements, head, mode, stack),
        token => {
            let mut stack = stack;
            match moved(alloc, &mut stack, mode, place, token) {
                Ok(mode) => Ok(Stage::Within {
                    statements,
                    head,
                    mode,
                    stack,
                }),
                Err(error) => {
                    drop(statements);
                    drop(head);
                    drop(stack);
                    Err(error)
                }
            }
        }
    }
}

// A token's move.
#[tactic(auto, unfolding(pl_grammar::specs::Script::script_move))]
pub(crate) fn stage_after(
    alloc: Global,
    stage: Stage,
    place: Place,
    token: Token,
) -> Result<Stage, MoveError>
    ensures { StageMoves result (script_move (mark place (token_of token)) (stage_of stage)) }
{
    match stage {
        Stage::Opening => at_opening(token),
        Stage::VersionWanted => at_version(token),
        Stage::VersionGiven => at_version_end(alloc, token),
        Stage::Between { statements } => at_statement(alloc, statements, place, token),
        Stage::LetWanted { statements } => at_let_name(statements, place, token),
        Stage::ColumnWanted { statements } => at_column_name(statements, place, token),
        Stage::AssignWanted { statements, head } => at_head_end(alloc, statements, head, token),
        Stage::Within {
            statements,
            head,
            mode,
            stack,
        } => at_expression(alloc, statements, head, mode, stack, place, token),
    }
}

// How many of the constructs that the limit counts are open.
pub(crate) fn depth_in(stage: &Stage) -> usize
    ensures { result ≡ stage_depth (stage_of stage.now) }
{
    match stage {
        Stage::Within { stack, .. } => stack.depth(),
        _ => 0,
    }
}
