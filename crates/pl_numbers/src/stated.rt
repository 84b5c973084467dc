//! Reads the records of a numbers file, with no look at which of the rows have one key.
ghost use Rattle.std.specs.Prelude.{◌≡◌, ◌≤◌, ◌<◌, [], length, bytes_eq, IfOk, IfSome, IsTrue, OnOk, OnSome, Ok, Some};
ghost use Rattle.std.specs.List.{position_or_len};
ghost use Rattle.pl_spec.specs.Limits.{most_numbers};
ghost use Rattle.pl_records.specs.Reading.{field, rows_of};
ghost use Rattle.pl_records.specs.Records.{csv_records};
ghost use Rattle.pl_numbers.specs.Numbers.{row_of};
ghost use Rattle.pl_numbers.specs.NumberPlaces.{AreNumbered, AreStated, row_from, shown_rows, states};

use crate::MOST_NUMBERS;
use crate::last::Last;
use crate::reading::{NextNumber, col_of, fields_of, reads_header};
use crate::rows::NumberRows;
use pl_lifetimes::Assets;
use pl_records::Records;
use std::alloc::{AllocError, Global};

// The rows of a file in its order, some of which may have one key; `None` where another rule is broken.
pub(crate) fn stated_rows(
    alloc: Global,
    bytes: &[u8],
    assets: &Assets,
) -> Result<Option<NumberRows>, AllocError>
    ensures { IfOk result (λ o. IfSome o (AreStated assets.now (csv_records bytes.now))) }
{
    let mut rows = NumberRows::new(alloc);
    match put_file(alloc, bytes, assets, &mut rows) {
        Ok(true) => Ok(Some(rows)),
        Ok(false) => {
            drop(rows);
            Ok(None)
        }
        Err(error) => {
            drop(rows);
            Err(error)
        }
    }
}

// Puts the rows of a file where there is none yet; whether each of its records has one.
fn put_file(
    alloc: Global,
    bytes: &[u8],
    assets: &Assets,
    rows: &mut NumberRows,
) -> Result<bool, AllocError>
    requires none { shown_rows rows.old ≡ [] }
    requires numbered { AreNumbered rows.old }
    ensures { IfOk result (λ b. IsTrue b → AreStated assets.now (csv_records bytes.now) rows.new) }
{
    let mut records = Records::new(alloc, bytes);
    if !reads_header(&mut records)? {
        return Ok(false);
    }
    put_stated(rows, &mut records, assets)
}

// Puts the rows of the records after the header where there is none yet; whether all have one.
fn put_stated(
    rows: &mut NumberRows,
    records: &mut Records,
    assets: &Assets,
) -> Result<bool, AllocError>
    requires none { shown_rows rows.old ≡ [] }
    requires numbered { AreNumbered rows.old }
    ensures exact { IfOk result (λ b. IsTrue b
        → rows_of 2 (states assets.now) records.old.left ≡ Ok (shown_rows rows.new)) }
    ensures few { OnOk result (length (shown_rows rows.new) ≤ most_numbers) }
    ensures numbered { OnOk result (AreNumbered rows.new) }
{
    let mut last = Last::new();
    'rows: while records.next()? {
        let Some(number) = stated_number(rows, records, assets, &mut last) else {
            return Ok(false);
        };
        rows.push(records.field(0), number)?;
    }
    Ok(true)
}

// The number of the record that was read last, after the rows before it, if there is room for it.
fn stated_number(
    before: &NumberRows,
    row: &Records,
    assets: &Assets,
    last: &mut Last,
) -> Option<NextNumber>
    requires { AreNumbered before.now }
    ensures room { OnSome result (length (shown_rows before.now) < most_numbers) }
    ensures four { OnSome result (length row.now.fields ≡ 4) }
    ensures name { IfSome result (λ n. n.name
        ≡ position_or_len (bytes_eq (field row.now.fields 0)) before.now.names) }
    ensures exact { IfSome result (λ n.
        row_of assets.now row.now.fields ≡ Some (row_from row.now.fields n)) }
{
    if before.places.len() >= MOST_NUMBERS {
        return None;
    }
    let fields = fields_of(row, last)?;
    let col = col_of(&before.places, assets, fields.sid)?;
    Some(NextNumber {
        name: before.number_of(row.field(0)) as u32,
        col: col as u32,
        known: fields.known,
        value: fields.value,
    })
}
