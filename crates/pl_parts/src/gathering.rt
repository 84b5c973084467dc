//! The adjustments of a kind that a cut keeps.

ghost use Rattle.std.specs.Prelude.{◌≡◌, ◌++◌, ◌<◌, [], ◌∷◌, All, length, map, filter, OnOk, IfOk};
ghost use Rattle.pl_adjust.specs.Events.{PutsCell, event_of};
ghost use Rattle.pl_parts.specs.Parts.{world_of, IsMade};
ghost use Rattle.pl_cut.specs.Cuts.{cut, is_change_in, is_event_in};
ghost use Rattle.pl_parts.specs.Spans.{span_of};
ghost use Rattle.pl_parts.specs.Kept.{if_kept, keeps_event, rows_kept, shown, text_at};
ghost use Rattle.pl_parts.specs.Texts.{is_kind, of_sid, rows_in};

use crate::parts::Parts;
use crate::span::{Span, lives_in};
use pl_adjust::{Adjust, Change, Kind};
use std::alloc::{AllocError, Global};

/// An adjustment of the asset of a sid.
#[derive(Clone, Copy, Debug)]
pub(crate) struct Row {
    pub(crate) sid: u32,
    pub(crate) adjust: Adjust,
}

// The adjustments of a kind of a cut, one asset after the other.
pub(crate) fn rows_in(
    alloc: Global,
    world: &Parts<'_>,
    span: Span,
    kind: Kind,
) -> Result<Vec<Row>, AllocError>
    requires made { IsMade world.now }
    ensures rows { IfOk result (λ rows.
        shown rows.items ≡ rows_in kind (cut (world_of world.now) (span_of span))) }
    ensures cells { IfOk result (λ rows. All (λ x. PutsCell x.event) (shown rows.items)) }
{
    let mut rows = Vec::new(alloc);
    for col in 0..world.assets.len() {
        add_asset(&mut rows, world, span, kind, col)?;
    }
    Ok(rows)
}

// Those of the asset in a column, after the others.
fn add_asset(
    rows: &mut Vec<Row>,
    world: &Parts<'_>,
    span: Span,
    kind: Kind,
    col: usize,
) -> Result<(), AllocError>
    requires made { IsMade world.now }
    requires col { col < length world.now.assets.now }
    ensures rows { OnOk result (shown rows.new.items ≡ shown rows.old.items
        ++ text_at (rows_kept kind (world_of world.now) (span_of span)) world.now.assets.now col) }
    ensures cells { All (λ x. PutsCell x.event) (shown rows.old.items)
        → OnOk result (All (λ x. PutsCell x.event) (shown rows.new.items)) }
{
    let asset = world.assets.row(col);
    if !lives_in(span, asset) {
        return Ok(());
    }
    add_rows(rows, world.adjustments.of_col(col), span, kind, asset.sid)
}

fn add_rows(
    rows: &mut Vec<Row>,
    adjusts: &[Adjust],
    span: Span,
    kind: Kind,
    sid: u32,
) -> Result<(), AllocError>
    ensures { OnOk result (shown rows.new.items ≡ shown rows.old.items
        ++ map (of_sid sid) (filter (keeps_event kind (span_of span)) (map event_of adjusts.now))) }
{
    for i in 0..adjusts.len() {
        add_kept(rows, adjusts[i], span, kind, sid)?;
    }
    Ok(())
}

fn add_kept(
    rows: &mut Vec<Row>,
    adjust: Adjust,
    span: Span,
    kind: Kind,
    sid: u32,
) -> Result<(), AllocError>
    ensures { OnOk result (shown rows.new.items ≡ shown rows.old.items
        ++ if_kept (keeps_event kind (span_of span)) (λ e. of_sid sid e ∷ []) (event_of adjust)) }
{
    if !keeps(kind, span, &adjust) {
        return Ok(());
    }
    rows.push(Row { sid, adjust })?;
    Ok(())
}

fn keeps(kind: Kind, span: Span, adjust: &Adjust) -> bool
    ensures { result ≡ keeps_event kind (span_of span) (event_of adjust.now) }
{
    is_event_in(span, adjust) && is_kind(kind, adjust.kind)
}

fn is_event_in(span: Span, adjust: &Adjust) -> bool
    ensures { result ≡ is_event_in (span_of span) (event_of adjust.now) }
{
    span.first_day < adjust.day && adjust.day <= span.last_day && is_change_in(span, adjust)
}

fn is_change_in(span: Span, adjust: &Adjust) -> bool
    ensures { result ≡ is_change_in (span_of span) (event_of adjust.now).change }
{
    match adjust.change {
        Change::Scale(_) => true,
        Change::Overwrite { bar_day, .. } => {
            span.first_day <= bar_day && bar_day < span.last_day
        }
    }
}

fn is_kind(kind: Kind, other: Kind) -> bool
    ensures { result ≡ is_kind kind other }
{
    match (kind, other) {
        (Kind::Split, Kind::Split) => true,
        (Kind::Merger, Kind::Merger) => true,
        (Kind::Dividend, Kind::Dividend) => true,
        (Kind::Revision, Kind::Revision) => true,
        _ => false,
    }
}
