//! From the bytes of a labels file to its rows.

ghost use Rattle.std.specs.Prelude.{◌≡◌, ◌+◌, ◌<◌, ◌≤◌, [], length, option_map, OnOk, OnSome, IfOk};
ghost use Rattle.std.specs.List.{list_any};
ghost use Rattle.pl_spec.specs.Limits.{most_labels};
ghost use Rattle.pl_records.specs.Reading.{Answers, at_line, field, rows_of};
ghost use Rattle.pl_records.specs.Records.{csv_records};
ghost use Rattle.pl_records.specs.Sorted.{AreKeys};
ghost use Rattle.pl_assets.specs.Labels.{is_from, is_printable, label_in, label_rows_in, label_or_rule, texts_of};
ghost use Rattle.pl_assets.specs.LabelFaults.{fault_of};
ghost use Rattle.pl_assets.specs.LabelPlaces.{AreNumbered, key_of, shown_rows};
ghost use Rattle.pl_assets.specs.LabelStarts.{label_from, row_from};

use crate::labels::error::LabelsError;
use crate::labels::order::{key, key_of};
use crate::labels::rows::LabelRows;
use crate::{LONGEST_LABEL, MOST_LABELS};
use pl_fixed::{is_name, read_day, read_sid};
use pl_lifetimes::Assets;
use pl_records::Records;
use std::alloc::Global;
use std::collections::HashSet;

// The labels of a file in its order.
#[tactic(auto, unfolding(crate::specs::Labels::label_rows_in))]
pub(crate) fn read_rows(
    alloc: Global,
    bytes: &[u8],
    assets: &Assets,
) -> Result<LabelRows, LabelsError>
    ensures exact { Answers shown_rows fault_of result
        (label_rows_in assets.now (csv_records bytes.now)) }
    ensures numbered { IfOk result AreNumbered }
    ensures texts { IfOk result (λ t. t.texts ≡ texts_of (shown_rows t)) }
{
    let mut records = Records::new(alloc, bytes);
    if !records.read_header(&[b"name", b"sid", b"start", b"label"])? {
        return Err(LabelsError::BadHeader);
    }
    rows_behind(alloc, &mut records, assets)
}

// The labels of the records after the header.
fn rows_behind(
    alloc: Global,
    records: &mut Records,
    assets: &Assets,
) -> Result<LabelRows, LabelsError>
    ensures exact { Answers shown_rows fault_of result
        (rows_of 2 (label_or_rule assets.now) records.old.left) }
    ensures numbered { IfOk result AreNumbered }
    ensures texts { IfOk result (λ t. t.texts ≡ texts_of (shown_rows t)) }
{
    let mut rows = LabelRows::new(alloc);
    let mut keys = HashSet::new(alloc);
    put_rows(&mut rows, &mut keys, records, assets)?;
    Ok(rows)
}

// Puts the rows of the records after the header where there is none yet, and their keys beside them.
fn put_rows(
    rows: &mut LabelRows,
    keys: &mut HashSet<u128>,
    records: &mut Records,
    assets: &Assets,
) -> Result<(), LabelsError>
    requires none { shown_rows rows.old ≡ [] }
    requires numbered { AreNumbered rows.old }
    requires texts { rows.old.texts ≡ texts_of (shown_rows rows.old) }
    requires keys { AreKeys key_of keys.old rows.old.places.items }
    ensures exact { Answers (λ u. shown_rows rows.new) fault_of result
        (rows_of 2 (label_or_rule assets.now) records.old.left) }
    ensures numbered { OnOk result (AreNumbered rows.new) }
    ensures texts { OnOk result (rows.new.texts ≡ texts_of (shown_rows rows.new)) }
{
    'rows: while records.next()? {
        let start = next_start(rows, keys, records, assets)?;
        let place = rows.push(records.field(0), start.col, start.day, records.field(3))?;
        keys.insert(key_of(&place))?;
    }
    Ok(())
}

// From when on a record gives a label, and to which column.
#[derive(Clone, Copy)]
struct ColumnStart {
    col: u32,
    day: i32,
}

// The start of the label of the record that was read last, after the rows before it, whose keys
// are given.
#[tactic(auto, unfolding(crate::specs::Labels::label_or_rule))]
fn next_start(
    before: &LabelRows,
    keys: &HashSet<u128>,
    row: &Records,
    assets: &Assets,
) -> Result<ColumnStart, LabelsError>
    requires numbered { AreNumbered before.now }
    requires few { length (shown_rows before.now) ≤ most_labels }
    requires keys { AreKeys key_of keys.now before.now.places.items }
    ensures room { OnOk result (length (shown_rows before.now) < most_labels) }
    ensures four { OnOk result (length row.now.fields ≡ 4) }
    ensures exact { Answers (row_from row.now.fields) fault_of result
        (at_line (2 + length (shown_rows before.now))
        (label_or_rule assets.now (shown_rows before.now) row.now.fields)) }
{
    let line = before.places.len() as u32 + 2;
    if before.places.len() >= MOST_LABELS {
        return Err(LabelsError::TooMany { line });
    }
    let Some(start) = start_of(row) else {
        return Err(LabelsError::BadField { line });
    };
    if row.field(3).len() > LONGEST_LABEL {
        return Err(LabelsError::LabelTooLong { line });
    }
    let Some(col) = assets.col_of(start.sid) else {
        return Err(LabelsError::UnknownSid { line });
    };
    if is_known(before, keys, row.field(0), col, start.day) {
        return Err(LabelsError::DuplicateStart { line });
    }
    Ok(ColumnStart {
        col: col as u32,
        day: start.day,
    })
}

// Whether a row has the name, the column and the day.
fn is_known(rows: &LabelRows, keys: &HashSet<u128>, name: &[u8], col: usize, day: i32) -> bool
    requires numbered { AreNumbered rows.now }
    requires few { length (shown_rows rows.now) ≤ most_labels }
    requires keys { AreKeys key_of keys.now rows.now.places.items }
    ensures { result ≡ list_any (is_from name.now col day) (shown_rows rows.now) }
{
    match rows.names.number_of(name) {
        Some(number) => keys.contains(&key(number as u32, col, day)),
        None => false,
    }
}

// The sid and the day of a record.
#[derive(Clone, Copy)]
struct SidStart {
    sid: u32,
    day: i32,
}

// The sid and the day of the record that was read last, where it is a label.
#[tactic(auto, unfolding(crate::specs::Labels::label_in))]
fn start_of(row: &Records) -> Option<SidStart>
    ensures four { OnSome result (length row.now.fields ≡ 4) }
    ensures exact { option_map (label_from row.now.fields) result ≡ label_in row.now.fields }
{
    if row.field_count() != 4 || !is_name(row.field(0)) || !is_printable(row.field(3)) {
        return None;
    }
    let sid = read_sid(row.field(1))?;
    let day = read_day(row.field(2))?;
    Some(SidStart { sid, day })
}

fn is_printable(text: &[u8]) -> bool
    ensures { result ≡ is_printable text.now }
{
    text.iter().all(|b| matches!(*b, b' '..=b'~'))
}
