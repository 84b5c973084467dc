//! The sessions.

ghost use Rattle.std.specs.Prelude.{◌≡◌, ◌++◌, ◌<◌, length, OnOk, IfOk};
ghost use Rattle.pl_parts.specs.Parts.{world_of};
ghost use Rattle.pl_cut.specs.Cuts.{cut};
ghost use Rattle.pl_parts.specs.Spans.{span_of};
ghost use Rattle.pl_parts.specs.Kept.{text_at};
ghost use Rattle.pl_parts.specs.Texts.{session_line, sessions_text};

use crate::parts::Parts;
use crate::put::{put_day, put_end};
use crate::span::Span;
use pl_calendar::Sessions;
use pl_fixed::Memory;
use std::alloc::{AllocError, Global};

/// The sessions of a cut, which are all: a date in each line, and no header. The only error is want of
/// memory.
pub fn sessions_text(alloc: Global, world: &Parts<'_>, _span: Span) -> Result<Vec<u8>, Memory>
    ensures { IfOk result (λ v. v.items ≡ sessions_text (cut (world_of world.now) (span_of _span))) }
{
    let mut out = Vec::new(alloc);
    for i in 0..world.sessions.len() {
        put_session(&mut out, world.sessions, i)?;
    }
    Ok(out)
}

fn put_session(out: &mut Vec<u8>, sessions: &Sessions, i: usize) -> Result<(), AllocError>
    requires { i < length sessions.now }
    ensures { OnOk result (out.new.items ≡ out.old.items ++ text_at session_line sessions.now i) }
{
    put_day(out, sessions.day(i))?;
    put_end(out)
}
