//! The labels.

ghost use Rattle.std.specs.Prelude.{◌≡◌, ◌++◌, ◌<◌, length, slice_get, Some, OnOk, IfOk};
ghost use Rattle.pl_spec.specs.Lines.{quote};
ghost use Rattle.pl_spec.specs.Parts.{label_of};
ghost use Rattle.pl_assets.specs.LabelRowsShown.{shown_at};
ghost use Rattle.pl_parts.specs.Parts.{world_of, IsMade};
ghost use Rattle.pl_cut.specs.Cuts.{cut, is_label_in, is_newest_label};
ghost use Rattle.pl_parts.specs.Spans.{span_of};
ghost use Rattle.pl_parts.specs.Kept.{if_kept, keeps_label, text_at};
ghost use Rattle.pl_parts.specs.Texts.{label_line, labels_text};

use crate::parts::Parts;
use crate::put::{put, put_end, put_further, put_further_day, put_further_number};
use crate::span::{Span, is_of, sid_of};
use pl_assets::LabelAt;
use pl_fixed::Memory;
use std::alloc::{AllocError, Global};

/// The labels of a cut, with the header `name,sid,start,label`. The only error is want of memory.
pub fn labels_text(alloc: Global, world: &Parts<'_>, span: Span) -> Result<Vec<u8>, Memory>
    requires made { IsMade world.now }
    ensures { IfOk result (λ v. v.items ≡ labels_text (cut (world_of world.now) (span_of span))) }
{
    let mut out = Vec::new(alloc);
    put(&mut out, b"name,sid,start,label\n")?;
    for i in 0..world.labels.len() {
        put_kept_label(&mut out, world, span, i)?;
    }
    Ok(out)
}

fn put_kept_label(
    out: &mut Vec<u8>,
    world: &Parts<'_>,
    span: Span,
    i: usize,
) -> Result<(), AllocError>
    requires made { IsMade world.now }
    requires within { i < length world.now.labels.now.rows }
    ensures { OnOk result (out.new.items ≡ out.old.items
        ++ text_at (λ r. if_kept (keeps_label (world_of world.now) (span_of span)) label_line
        (label_of world.now.assets.now r)) world.now.labels.now.rows i) }
{
    let row = world.labels.row(i);
    if !keeps_label(world, span, i, &row) {
        return Ok(());
    }
    put_label(out, world, &row)
}

fn put_label(out: &mut Vec<u8>, world: &Parts<'_>, row: &LabelAt<'_>) -> Result<(), AllocError>
    requires col { row.now.col < length world.now.assets.now }
    requires field { row.now.field.now ≡ quote row.now.text.now }
    ensures { OnOk result (out.new.items ≡ out.old.items
        ++ label_line (label_of world.now.assets.now (shown_at row.now))) }
{
    put(out, row.name)?;
    put_further_number(out, u64::from(sid_of(world, row.col as usize)))?;
    put_further_day(out, row.start)?;
    put_further(out, row.field)?;
    put_end(out)
}

fn keeps_label(world: &Parts<'_>, span: Span, i: usize, row: &LabelAt<'_>) -> bool
    requires made { IsMade world.now }
    requires row { slice_get world.now.labels.now.rows i ≡ Some (shown_at row.now) }
    requires col { row.now.col < length world.now.assets.now }
    ensures { result ≡ keeps_label (world_of world.now) (span_of span)
        (label_of world.now.assets.now (shown_at row.now)) }
{
    is_of(world, span, row.col as usize) && is_label_in(world, span, i, row)
}

fn is_label_in(world: &Parts<'_>, span: Span, i: usize, row: &LabelAt<'_>) -> bool
    requires made { IsMade world.now }
    requires row { slice_get world.now.labels.now.rows i ≡ Some (shown_at row.now) }
    requires col { row.now.col < length world.now.assets.now }
    ensures { result ≡ is_label_in (world_of world.now).labels (span_of span)
        (label_of world.now.assets.now (shown_at row.now)) }
{
    row.start <= span.last_day
        && (span.first_day < row.start || is_newest_label(world, i, row, span.first_day))
}

fn is_newest_label(world: &Parts<'_>, i: usize, row: &LabelAt<'_>, day: i32) -> bool
    requires made { IsMade world.now }
    requires row { slice_get world.now.labels.now.rows i ≡ Some (shown_at row.now) }
    requires col { row.now.col < length world.now.assets.now }
    ensures { result ≡ is_newest_label (world_of world.now).labels day
        (label_of world.now.assets.now (shown_at row.now)) }
{
    world.labels.is_newest(i, day)
}
