//! Reads the records of a numbers file one after the other, up to the first fault.
ghost use Rattle.std.specs.Prelude.{◌≡◌, ◌+◌, ◌++◌, ◌∷◌, ◌<◌, ◌≤◌, ◌^◌, not, [], drop, length, bytes_eq, IfOk, IfSome, IsTrue, OnOk, OnSome, option_map};
ghost use Rattle.std.specs.List.{list_any, position_or_len};
ghost use Rattle.pl_spec.specs.Limits.{most_assets, most_numbers};
ghost use Rattle.pl_records.specs.Reading.{Answers, at_line, has_header, rows_of};
ghost use Rattle.pl_records.specs.Records.{csv_records};
ghost use Rattle.pl_lifetimes.specs.Assets.{col_in};
ghost use Rattle.pl_numbers.specs.Numbers.{header, is_from, number_in, number_rows_in, number_or_rule};
ghost use Rattle.pl_numbers.specs.NumberFaults.{fault_of};
ghost use Rattle.pl_numbers.specs.NumberPlaces.{AreNumbered, AreSeen, IsNumberAfter, key_next, key_of, number_from, row_from, shown_rows};

use crate::MOST_NUMBERS;
use crate::error::NumbersError;
use crate::last::Last;
use crate::rows::{NumberRows, Place, key};
use crate::seen::Seen;
use pl_bars::read_cell;
use pl_fixed::read_sid;
use pl_lifetimes::Assets;
use pl_records::Records;
use std::alloc::{AllocError, Global};

// The numbers of a file in its order, or its first fault.
#[tactic(auto, unfolding(crate::specs::Numbers::number_rows_in))]
pub(crate) fn read_rows(
    alloc: Global,
    bytes: &[u8],
    assets: &Assets,
) -> Result<NumberRows, NumbersError>
    ensures exact { Answers shown_rows fault_of result (number_rows_in assets.now (csv_records bytes.now)) }
    ensures numbered { IfOk result AreNumbered }
{
    let mut records = Records::new(alloc, bytes);
    if !reads_header(&mut records)? {
        return Err(NumbersError::BadHeader);
    }
    rows_behind(alloc, &mut records, assets)
}

// Reads the first record; whether it is the header.
pub(crate) fn reads_header(records: &mut Records) -> Result<bool, AllocError>
    ensures header { IfOk result (λ b. b ≡ has_header header records.old.left) }
    ensures rest { IfOk result (λ b. IsTrue b → records.new.left ≡ drop 1 records.old.left) }
{
    records.read_header(&[b"name", b"sid", b"known", b"value"])
}

// The numbers of the records after the header.
fn rows_behind(
    alloc: Global,
    records: &mut Records,
    assets: &Assets,
) -> Result<NumberRows, NumbersError>
    ensures exact { Answers shown_rows fault_of result
        (rows_of 2 (number_or_rule assets.now) records.old.left) }
    ensures numbered { IfOk result AreNumbered }
{
    let mut rows = NumberRows::new(alloc);
    let mut seen = Seen::new(alloc);
    put_rows(&mut rows, &mut seen, records, assets)?;
    Ok(rows)
}

// Puts the rows of the records after the header where there is none yet, and their keys beside them.
fn put_rows(
    rows: &mut NumberRows,
    seen: &mut Seen,
    records: &mut Records,
    assets: &Assets,
) -> Result<(), NumbersError>
    requires none { shown_rows rows.old ≡ [] }
    requires numbered { AreNumbered rows.old }
    requires seen { AreSeen seen.old.keys rows.old.places.items }
    ensures exact { Answers (λ u. shown_rows rows.new) fault_of result
        (rows_of 2 (number_or_rule assets.now) records.old.left) }
    ensures numbered { OnOk result (AreNumbered rows.new) }
    ensures seen { OnOk result (AreSeen seen.new.keys rows.new.places.items) }
{
    'rows: while records.next()? {
        let number = next_number(rows, seen, records, assets)?;
        rows.push(records.field(0), number)?;
    }
    Ok(())
}

// The number of a record: the number of its name, its column, the day from which it counts and its cell.
#[derive(Clone, Copy)]
pub(crate) struct NextNumber {
    pub(crate) name: u32,
    pub(crate) col: u32,
    pub(crate) known: i32,
    pub(crate) value: i64,
}

// The number of the record that was read last, after the rows before it, whose keys are given.
#[tactic(auto, unfolding(crate::specs::Numbers::number_or_rule))]
fn next_number(
    before: &NumberRows,
    seen: &mut Seen,
    row: &Records,
    assets: &Assets,
) -> Result<NextNumber, NumbersError>
    requires numbered { AreNumbered before.now }
    requires few { length (shown_rows before.now) ≤ most_numbers }
    requires seen { AreSeen seen.old.keys before.now.places.items }
    ensures next { IfOk result (IsNumberAfter before.now seen.new.keys row.now.fields) }
    ensures exact { Answers (row_from row.now.fields) fault_of result
        (at_line (2 + length (shown_rows before.now))
        (number_or_rule assets.now (shown_rows before.now) row.now.fields)) }
{
    let line = before.places.len() as u32 + 2;
    if before.places.len() >= MOST_NUMBERS {
        return Err(NumbersError::TooMany { line });
    }
    let Some(fields) = fields_of(row, &mut Last::new()) else {
        return Err(NumbersError::BadField { line });
    };
    let Some(col) = col_of(&before.places, assets, fields.sid) else {
        return Err(NumbersError::UnknownSid { line });
    };
    let next = NextNumber {
        name: before.number_of(row.field(0)) as u32,
        col: col as u32,
        known: fields.known,
        value: fields.value,
    };
    if !is_new(before, seen, row.field(0), next)? {
        return Err(NumbersError::Duplicate { line });
    }
    Ok(next)
}

// Whether no row has the name, the column and the day. From then on they are known.
fn is_new(
    before: &NumberRows,
    seen: &mut Seen,
    name: &[u8],
    next: NextNumber,
) -> Result<bool, AllocError>
    requires numbered { AreNumbered before.now }
    requires name { next.name ≡ position_or_len (bytes_eq name.now) before.now.names }
    requires seen { AreSeen seen.old.keys before.now.places.items }
    ensures new { IfOk result (λ b. b
        ≡ not (list_any (is_from name.now next.col next.known) (shown_rows before.now))) }
    ensures seen { IfOk result (λ b. IsTrue b → (p : Place) → key_of p ≡ key_next next
        → AreSeen seen.new.keys (before.now.places.items ++ p ∷ [])) }
{
    let key = key(next.name, next.col as usize, next.known);
    seen.insert(&before.places, key)
}

// The column of a sid, if an asset has it. In most files a record is of the asset of the record before it or
// of the next one, so these are tried before it is searched for.
pub(crate) fn col_of(before: &[Place], assets: &Assets, sid: u32) -> Option<usize>
    ensures few { IfSome result (λ i. i < most_assets) }
    ensures exact { result ≡ col_in assets.now sid }
{
    match before {
        [.., last] => assets.col_near(last.col, sid),
        [] => assets.col_of(sid),
    }
}

// The sid, the day and the cell of a record.
#[derive(Clone, Copy)]
pub(crate) struct Fields {
    pub(crate) sid: u32,
    pub(crate) known: i32,
    pub(crate) value: i64,
}

// The fields of the record that was read last, where it is a number; `last` is of one before it, and then its
// own.
#[tactic(auto, unfolding(crate::specs::Numbers::number_in))]
pub(crate) fn fields_of(row: &Records, last: &mut Last) -> Option<Fields>
    ensures four { OnSome result (length row.now.fields ≡ 4) }
    ensures exact { option_map (number_from row.now.fields) result ≡ number_in row.now.fields }
{
    if row.field_count() != 4 || !last.is_name(row.field(0)) {
        return None;
    }
    let sid = read_sid(row.field(1))?;
    let known = last.day_of(row.field(2))?;
    let value = read_cell(row.field(3))?;
    Some(Fields { sid, known, value })
}
