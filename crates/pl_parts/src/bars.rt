//! The bars.

ghost use Rattle.std.specs.Prelude.{◌≡◌, ◌++◌, ◌<◌, pos, List, All, decimal, length, slice_index_or, OnOk, IfOk};
ghost use Rattle.pl_spec.specs.declared.AssetRow.{AssetRow};
ghost use Rattle.pl_spec.specs.Parts.{bar_of, sid_at};
ghost use Rattle.pl_spec.specs.Rounding.{IsCell};
ghost use Rattle.pl_parts.specs.Parts.{world_of, IsMade};
ghost use Rattle.pl_cut.specs.Cuts.{cut, is_bar_in};
ghost use Rattle.pl_parts.specs.Spans.{span_of};
ghost use Rattle.pl_parts.specs.Kept.{if_kept, keeps_bar, text_at};
ghost use Rattle.pl_parts.specs.Texts.{bar_line, bars_text, behind_comma, day_text, prices_text};

use crate::parts::Parts;
use crate::put::{put, put_end, put_further_cell, put_further_day, put_number};
use crate::span::{Span, is_of, sid_of};
use pl_bars::BarRow;
use pl_fixed::Memory;
use std::alloc::{AllocError, Global};

/// The bars of a cut, with the header `sid,session,open,high,low,close,volume`. The only error is want of
/// memory.
pub fn bars_text(alloc: Global, world: &Parts<'_>, span: Span) -> Result<Vec<u8>, Memory>
    requires made { IsMade world.now }
    ensures { IfOk result (λ v. v.items ≡ bars_text (cut (world_of world.now) (span_of span))) }
{
    let mut out = Vec::new(alloc);
    put(&mut out, b"sid,session,open,high,low,close,volume\n")?;
    for i in 0..world.bars.len() {
        put_kept_bar(&mut out, world, span, i)?;
    }
    Ok(out)
}

fn put_kept_bar(
    out: &mut Vec<u8>,
    world: &Parts<'_>,
    span: Span,
    i: usize,
) -> Result<(), AllocError>
    requires made { IsMade world.now }
    requires within { i < length world.now.bars.now }
    ensures { OnOk result (out.new.items ≡ out.old.items
        ++ text_at (λ b. if_kept (keeps_bar (world_of world.now) (span_of span))
        (bar_line world.now.sessions.now) (bar_of world.now.assets.now b)) world.now.bars.now i) }
{
    let bar = world.bars.row(i);
    if !keeps_bar(world, span, bar) {
        return Ok(());
    }
    put_bar(out, world, bar)
}

fn keeps_bar(world: &Parts<'_>, span: Span, bar: BarRow) -> bool
    requires made { IsMade world.now }
    requires col { bar.col < length world.now.assets.now }
    ensures { result ≡ keeps_bar (world_of world.now) (span_of span) (bar_of world.now.assets.now bar) }
{
    is_of(world, span, bar.col as usize) && is_bar_in(span, bar)
}

fn is_bar_in(span: Span, bar: BarRow) -> bool
    ensures { (assets : List AssetRow) → result ≡ is_bar_in (span_of span) (bar_of assets bar) }
{
    let session = bar.session as usize;
    span.first <= session && session < span.last
}

fn put_bar(out: &mut Vec<u8>, world: &Parts<'_>, bar: BarRow) -> Result<(), AllocError>
    requires col { bar.col < length world.now.assets.now }
    requires session { bar.session < length world.now.sessions.now }
    requires cells { All IsCell bar.cells }
    ensures { OnOk result (out.new.items ≡ out.old.items
        ++ bar_line world.now.sessions.now (bar_of world.now.assets.now bar)) }
{
    put_front(out, world, bar)?;
    put_prices(out, bar)?;
    put_further_cell(out, bar.cells[4])?;
    put_end(out)
}

// The sid and the day of the session.
fn put_front(out: &mut Vec<u8>, world: &Parts<'_>, bar: BarRow) -> Result<(), AllocError>
    requires col { bar.col < length world.now.assets.now }
    requires session { bar.session < length world.now.sessions.now }
    ensures { OnOk result (out.new.items ≡ out.old.items ++ (decimal (sid_at world.now.assets.now bar.col)
        ++ behind_comma (day_text (slice_index_or world.now.sessions.now bar.session (pos 0))))) }
{
    put_number(out, u64::from(sid_of(world, bar.col as usize)))?;
    put_further_day(out, day_of(world, bar.session as usize))
}

fn day_of(world: &Parts<'_>, session: usize) -> i32
    requires { session < length world.now.sessions.now }
    ensures { result ≡ slice_index_or world.now.sessions.now session (pos 0) }
{
    world.sessions.day(session)
}

fn put_prices(out: &mut Vec<u8>, bar: BarRow) -> Result<(), AllocError>
    requires cells { All IsCell bar.cells }
    ensures { (assets : List AssetRow) → OnOk result
        (out.new.items ≡ out.old.items ++ prices_text (bar_of assets bar)) }
{
    put_further_cell(out, bar.cells[0])?;
    put_further_cell(out, bar.cells[1])?;
    put_further_cell(out, bar.cells[2])?;
    put_further_cell(out, bar.cells[3])
}
