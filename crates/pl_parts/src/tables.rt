//! The tables of splits, mergers and dividends, and the revisions.

ghost use Rattle.std.specs.Prelude.{◌≡◌, ◌++◌, ◌+◌, ◌<◌, pos, ◌*ℤ◌, decimal, length, OnOk, IfOk};
ghost use Rattle.std.specs.Fmt.{signed_decimal};
ghost use Rattle.pl_spec.specs.declared.AdjustmentKind.TheVariants.{Revision};
ghost use Rattle.pl_spec.specs.Names.{column_name};
ghost use Rattle.pl_adjust.specs.Events.{PutsCell, event_of};
ghost use Rattle.pl_parts.specs.Parts.{world_of, IsMade};
ghost use Rattle.pl_cut.specs.Cuts.{cut};
ghost use Rattle.pl_parts.specs.Spans.{span_of};
ghost use Rattle.pl_parts.specs.Texts.{behind_comma, of_sid, ratio_line, ratio_text, ratios_text, revised_text, revision_line, revisions_text};

use crate::gathering::{Row, rows_in};
use crate::parts::Parts;
use crate::put::{
    put, put_end, put_further, put_further_cell, put_further_day, put_further_number,
    put_further_signed, put_number,
};
use crate::span::Span;
use pl_adjust::{Adjust, Change, Kind};
use pl_fixed::{Column, Memory};
use std::alloc::{AllocError, Global};

/// The splits, mergers or dividends of a cut as a table, with the header `id,effective_date,num,den,sid`: the
/// ids count from 1, and a row is effective from the midnight of its day on, in seconds since 1970-01-01. The
/// only error is want of memory.
pub fn ratios_text(
    alloc: Global,
    world: &Parts<'_>,
    span: Span,
    kind: Kind,
) -> Result<Vec<u8>, Memory>
    requires made { IsMade world.now }
    ensures { IfOk result (λ v. v.items ≡ ratios_text kind (cut (world_of world.now) (span_of span))) }
{
    let rows = rows_in(alloc, world, span, kind)?;
    let mut out = Vec::new(alloc);
    put(&mut out, b"id,effective_date,num,den,sid\n")?;
    for i in 0..rows.len() {
        put_ratio(&mut out, i as u64 + 1, &rows[i])?;
    }
    Ok(out)
}

const SECONDS_A_DAY: i64 = 86_400;

fn put_ratio(out: &mut Vec<u8>, number: u64, row: &Row) -> Result<(), AllocError>
    ensures { OnOk result (out.new.items ≡ out.old.items
        ++ ratio_line number (of_sid row.now.sid (event_of row.now.adjust))) }
{
    put_front(out, number, row.adjust.day)?;
    put_parts(out, &row.adjust)?;
    put_further_number(out, u64::from(row.sid))?;
    put_end(out)
}

// The number, and the seconds from 1970-01-01 to the day.
fn put_front(out: &mut Vec<u8>, number: u64, day: i32) -> Result<(), AllocError>
    ensures { OnOk result (out.new.items ≡ out.old.items
        ++ (decimal number ++ behind_comma (signed_decimal (day *ℤ pos 86400)))) }
{
    put_number(out, number)?;
    put_further_signed(out, seconds_of(day))
}

fn seconds_of(day: i32) -> i64
    ensures { result ≡ day *ℤ pos 86400 }
{
    day as i64 * SECONDS_A_DAY
}

fn put_parts(out: &mut Vec<u8>, adjust: &Adjust) -> Result<(), AllocError>
    ensures { OnOk result (out.new.items ≡ out.old.items ++ ratio_text (event_of adjust.now).change) }
{
    match adjust.change {
        Change::Scale(ratio) => {
            put_further_number(out, ratio.num() as u64)?;
            put_further_number(out, ratio.den() as u64)
        }
        Change::Overwrite { .. } => put(out, b",,"),
    }
}

/// The revisions of a cut, with the header `sid,session,column,value,known`. The only error is want of
/// memory.
pub fn revisions_text(alloc: Global, world: &Parts<'_>, span: Span) -> Result<Vec<u8>, Memory>
    requires made { IsMade world.now }
    ensures { IfOk result (λ v. v.items ≡ revisions_text (cut (world_of world.now) (span_of span))) }
{
    let rows = rows_in(alloc, world, span, Kind::Revision)?;
    let mut out = Vec::new(alloc);
    put(&mut out, b"sid,session,column,value,known\n")?;
    for i in 0..rows.len() {
        put_revision(&mut out, &rows[i])?;
    }
    Ok(out)
}

fn put_revision(out: &mut Vec<u8>, row: &Row) -> Result<(), AllocError>
    requires cell { PutsCell (event_of row.now.adjust) }
    ensures { OnOk result (out.new.items ≡ out.old.items
        ++ revision_line (of_sid row.now.sid (event_of row.now.adjust))) }
{
    put_number(out, u64::from(row.sid))?;
    put_revised(out, &row.adjust)?;
    put_further_day(out, row.adjust.day)?;
    put_end(out)
}

fn put_revised(out: &mut Vec<u8>, adjust: &Adjust) -> Result<(), AllocError>
    requires cell { PutsCell (event_of adjust.now) }
    ensures { OnOk result (out.new.items ≡ out.old.items ++ revised_text (event_of adjust.now).change) }
{
    match adjust.change {
        Change::Overwrite {
            bar_day,
            column,
            value,
        } => {
            put_further_day(out, bar_day)?;
            put_further(out, name_of(column).as_bytes())?;
            put_further_cell(out, value)
        }
        Change::Scale(_) => put(out, b",,,"),
    }
}

fn name_of(column: Column) -> &'static str
    ensures { result.now ≡ column_name column }
{
    match column {
        Column::OpenPrice => "open",
        Column::High => "high",
        Column::Low => "low",
        Column::Close => "close",
        Column::Volume => "volume",
    }
}
