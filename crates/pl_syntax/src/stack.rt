//! What is open: a stack, the innermost on top.

ghost use Rattle.std.specs.Prelude.{◌≡◌, IfOk, OnOk, MatchOption, [], ◌∷◌};
ghost use Rattle.pl_grammar.specs.Tree.{level, left_level, right_level, prefix_level};
ghost use Rattle.pl_grammar.specs.Machine.{ends, frame_level, asked, depth};
ghost use Rattle.pl_syntax.specs.Frames.{frame_of, frames_of};

use crate::tree::{Arg, Expr};
use crate::word::Word;
use pl_grammar::{BinarySign, Place, PrefixSign};
use std::alloc::{AllocError, Global};

/// What a list of arguments belongs to.
#[derive(Drop)]
pub(crate) enum Callee {
    Function {
        place: Place,
        name: Word,
    },
    Method {
        place: Place,
        object: Box<Expr>,
        name: Word,
    },
}

/// What is open.
#[derive(Drop)]
pub(crate) enum Frame {
    Prefixed {
        place: Place,
        sign: PrefixSign,
    },
    Behind {
        place: Place,
        sign: BinarySign,
        left: Box<Expr>,
    },
    Group,
    Call(Called),
}

/// A call that is open: the arguments before this one, and its name where it has one.
#[derive(Drop)]
pub(crate) struct Called {
    pub(crate) callee: Callee,
    pub(crate) args: Vec<Arg>,
    pub(crate) name: Option<Word>,
}

// The level of a binary sign.
pub(crate) fn level_of(sign: BinarySign) -> u8
    ensures { result ≡ level sign }
{
    match sign {
        BinarySign::Or => 1,
        BinarySign::And => 2,
        BinarySign::Less
        | BinarySign::LessEqual
        | BinarySign::Greater
        | BinarySign::GreaterEqual
        | BinarySign::Equal
        | BinarySign::NotEqual => 4,
        BinarySign::Add | BinarySign::Sub => 5,
        BinarySign::Mul | BinarySign::Div => 6,
    }
}

// The level that a binary sign asks of its left operand: its own, but that comparisons don't chain.
pub(crate) fn left_level_of(sign: BinarySign) -> u8
    ensures { result ≡ left_level sign }
{
    match level_of(sign) {
        4 => 5,
        level => level,
    }
}

// The level that a binary sign asks of its right operand.
pub(crate) fn right_level_of(sign: BinarySign) -> u8
    ensures { result ≡ right_level sign }
{
    level_of(sign) + 1
}

// The level of a prefix sign.
pub(crate) fn prefix_level_of(sign: PrefixSign) -> u8
    ensures { result ≡ prefix_level sign }
{
    match sign {
        PrefixSign::Not => 3,
        PrefixSign::Minus => 7,
    }
}

// The level of a construct; 0 for what a parenthesis ends.
pub(crate) fn frame_level_of(frame: &Frame) -> u8
    ensures { result ≡ frame_level (frame_of frame.now) }
{
    match frame {
        Frame::Prefixed { sign, .. } => prefix_level_of(*sign),
        Frame::Behind { sign, .. } => level_of(*sign),
        Frame::Group | Frame::Call(_) => 0,
    }
}

// Is the construct ended by a sign of this level after its operand?
pub(crate) fn is_ended(frame: &Frame, level: u8) -> bool
    ensures { result ≡ ends level (frame_of frame.now) }
{
    match frame {
        Frame::Prefixed { sign, .. } => level <= prefix_level_of(*sign),
        Frame::Behind { sign, .. } => level <= level_of(*sign),
        Frame::Group | Frame::Call(_) => false,
    }
}

// The level that the place inside the construct asks.
fn asked_in(frame: &Frame) -> u8
    ensures { result ≡ asked (frame_of frame.now ∷ []) }
{
    match frame {
        Frame::Prefixed { sign, .. } => prefix_level_of(*sign),
        Frame::Behind { sign, .. } => right_level_of(*sign),
        Frame::Group | Frame::Call(_) => 1,
    }
}

// Does the limit count the construct?
fn counts(frame: &Frame) -> usize
    ensures { result ≡ depth (frame_of frame.now ∷ []) }
{
    match frame {
        Frame::Behind { .. } => 0,
        Frame::Prefixed { .. } | Frame::Group | Frame::Call(_) => 1,
    }
}

/// What is open, `open_in` the grammar's list of frames, the innermost first.
#[derive(Drop)]
pub(crate) struct Stack {
    frames: Vec<Frame>,
    opened: usize,
    ghost counted: { opened ≡ depth (frames_of frames.items) },
}

impl Stack {
    ghost use Rattle.pl_syntax.specs.Open.{open_in};

    // Nothing is open.
    #[tactic(auto, unfolding(crate::specs::Open::open_in, crate::specs::Frames::frames_of, crate::specs::Frames::frames_onto))]
    pub(crate) fn new(alloc: Global) -> Stack
        ensures { open_in result ≡ [] }
    {
        Stack {
            frames: Vec::new(alloc),
            opened: 0,
        }
    }

    // One more is open.
    pub(crate) fn push(&mut self, frame: Frame) -> Result<(), AllocError>
        ensures { OnOk result (open_in self.new ≡ frame_of frame ∷ open_in self.old) }
    {
        let more = counts(&frame);
        self.frames.push(frame)?;
        self.opened += more;
        Ok(())
    }

    // The innermost is taken off.
    pub(crate) fn pop(&mut self) -> Option<Frame>
        ensures { MatchOption result ((open_in self.old ≡ []) × (open_in self.new ≡ []))
            (λ frame. open_in self.old ≡ frame_of frame ∷ open_in self.new) }
    {
        match self.frames.pop() {
            Some(frame) => {
                self.opened -= counts(&frame);
                Some(frame)
            }
            None => None,
        }
    }

    // How many of the constructs that the limit counts are open.
    #[tactic(auto, unfolding(crate::specs::Open::open_in))]
    pub(crate) fn depth(&self) -> usize
        ensures { result ≡ depth (open_in self.now) }
    {
        self.opened
    }

    // The level that the place inside the innermost asks.
    pub(crate) fn asked(&self) -> u8
        ensures { result ≡ asked (open_in self.now) }
    {
        match self.frames.last() {
            Some(frame) => asked_in(frame),
            None => 1,
        }
    }
}
