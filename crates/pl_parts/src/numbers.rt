//! The numbers.

ghost use Rattle.std.specs.Prelude.{◌≡◌, ◌++◌, ◌<◌, decimal, length, slice_get, Some, OnOk, IfOk};
ghost use Rattle.pl_spec.specs.Parts.{number_of, sid_at};
ghost use Rattle.pl_spec.specs.Rounding.{IsCell};
ghost use Rattle.pl_numbers.specs.NumberRowsShown.{shown_at};
ghost use Rattle.pl_parts.specs.Parts.{world_of, IsMade};
ghost use Rattle.pl_cut.specs.Cuts.{cut, is_newest_number, is_number_in};
ghost use Rattle.pl_parts.specs.Spans.{span_of};
ghost use Rattle.pl_parts.specs.Kept.{if_kept, keeps_number, text_at};
ghost use Rattle.pl_parts.specs.Texts.{behind_comma, day_text, number_line, numbers_text};

use crate::parts::Parts;
use crate::put::{put, put_end, put_further_cell, put_further_day, put_further_number};
use crate::span::{Span, is_of, sid_of};
use pl_fixed::Memory;
use pl_numbers::NumberAt;
use std::alloc::{AllocError, Global};

/// The numbers of a cut, with the header `name,sid,known,value`. The only error is want of memory.
pub fn numbers_text(alloc: Global, world: &Parts<'_>, span: Span) -> Result<Vec<u8>, Memory>
    requires made { IsMade world.now }
    ensures { IfOk result (λ v. v.items ≡ numbers_text (cut (world_of world.now) (span_of span))) }
{
    let mut out = Vec::new(alloc);
    put(&mut out, b"name,sid,known,value\n")?;
    for i in 0..world.numbers.len() {
        put_kept_number(&mut out, world, span, i)?;
    }
    Ok(out)
}

fn put_kept_number(
    out: &mut Vec<u8>,
    world: &Parts<'_>,
    span: Span,
    i: usize,
) -> Result<(), AllocError>
    requires made { IsMade world.now }
    requires within { i < length world.now.numbers.now.rows }
    ensures { OnOk result (out.new.items ≡ out.old.items
        ++ text_at (λ r. if_kept (keeps_number (world_of world.now) (span_of span)) number_line
        (number_of world.now.assets.now r)) world.now.numbers.now.rows i) }
{
    let row = world.numbers.row(i);
    if !keeps_number(world, span, i, &row) {
        return Ok(());
    }
    put_number(out, world, &row)
}

fn put_number(out: &mut Vec<u8>, world: &Parts<'_>, row: &NumberAt<'_>) -> Result<(), AllocError>
    requires col { row.now.col < length world.now.assets.now }
    requires cell { IsCell row.now.value }
    ensures { OnOk result (out.new.items ≡ out.old.items
        ++ number_line (number_of world.now.assets.now (shown_at row.now))) }
{
    put_front(out, world, row)?;
    put_further_cell(out, row.value)?;
    put_end(out)
}

// The name, the sid and the day from which on it is known.
fn put_front(out: &mut Vec<u8>, world: &Parts<'_>, row: &NumberAt<'_>) -> Result<(), AllocError>
    requires { row.now.col < length world.now.assets.now }
    ensures { OnOk result (out.new.items ≡ out.old.items
        ++ (row.now.name.now ++ behind_comma (decimal (sid_at world.now.assets.now row.now.col))
        ++ behind_comma (day_text row.now.known))) }
{
    put(out, row.name)?;
    put_further_number(out, u64::from(sid_of(world, row.col as usize)))?;
    put_further_day(out, row.known)
}

fn keeps_number(world: &Parts<'_>, span: Span, i: usize, row: &NumberAt<'_>) -> bool
    requires made { IsMade world.now }
    requires row { slice_get world.now.numbers.now.rows i ≡ Some (shown_at row.now) }
    requires col { row.now.col < length world.now.assets.now }
    ensures { result ≡ keeps_number (world_of world.now) (span_of span)
        (number_of world.now.assets.now (shown_at row.now)) }
{
    is_of(world, span, row.col as usize) && is_number_in(world, span, i, row)
}

fn is_number_in(world: &Parts<'_>, span: Span, i: usize, row: &NumberAt<'_>) -> bool
    requires made { IsMade world.now }
    requires row { slice_get world.now.numbers.now.rows i ≡ Some (shown_at row.now) }
    requires col { row.now.col < length world.now.assets.now }
    ensures { result ≡ is_number_in (world_of world.now).numbers (span_of span)
        (number_of world.now.assets.now (shown_at row.now)) }
{
    row.known <= span.last_day
        && (span.first_day < row.known || is_newest_number(world, i, row, span.first_day))
}

fn is_newest_number(world: &Parts<'_>, i: usize, row: &NumberAt<'_>, day: i32) -> bool
    requires made { IsMade world.now }
    requires row { slice_get world.now.numbers.now.rows i ≡ Some (shown_at row.now) }
    requires col { row.now.col < length world.now.assets.now }
    ensures { result ≡ is_newest_number (world_of world.now).numbers day
        (number_of world.now.assets.now (shown_at row.now)) }
{
    world.numbers.is_newest(i, day)
}
