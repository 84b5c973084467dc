//! The fields of a record of a bar.

ghost use Rattle.std.specs.Prelude.{◌≡◌, length};
ghost use Rattle.std.specs.List.{list_any};
ghost use Rattle.pl_bars.specs.Bars.{cell_in, cells_in, fields_in, is_negative};
ghost use Rattle.pl_bars.specs.ColumnNames.{column_in};

use crate::dates::day_of;
use pl_fixed::{Column, KnownDate, MISSING, read_decimal, read_sid};
use pl_records::Records;
use pl_spec::BarRow;

// What a record of a bar says: a sid, a day and the cells open, high, low, close and volume.
#[derive(Clone, Copy)]
pub(crate) struct Fields {
    pub sid: u32,
    pub day: i32,
    pub cells: [i64; 5],
}

// The fields of the record that was read last, after these bars, where they are those of a bar.
#[tactic(auto, unfolding(crate::specs::Bars::fields_in))]
pub(crate) fn fields_of(row: &Records, before: &[BarRow], dates: &[KnownDate]) -> Option<Fields>
    ensures { result ≡ fields_in row.now.fields }
{
    if row.field_count() != 7 {
        return None;
    }
    let sid = read_sid(row.field(0))?;
    let day = day_of(before, dates, row.field(1))?;
    let cells = cells_of(row)?;
    Some(Fields { sid, day, cells })
}

fn cells_of(row: &Records) -> Option<[i64; 5]>
    requires { length row.now.fields ≡ 7 }
    ensures { result ≡ cells_in row.now.fields }
{
    let open = read_cell(row.field(2))?;
    let high = read_cell(row.field(3))?;
    let low = read_cell(row.field(4))?;
    let close = read_cell(row.field(5))?;
    let volume = read_cell(row.field(6))?;
    Some([open, high, low, close, volume])
}

/// The cell of a field, in millionths: `MISSING` where the text is empty, else the decimal. `None` where it
/// is neither, or its rounded value is no cell.
#[tactic(auto, unfolding(crate::specs::Bars::cell_in))]
pub fn read_cell(text: &[u8]) -> Option<i64>
    ensures { result ≡ cell_in text.now }
{
    if text.is_empty() {
        return Some(MISSING);
    }
    read_decimal(text).ok()
}

/// The bar column of a name: `open`, `high`, `low`, `close` or `volume`, in small letters. `None` for any
/// other text.
#[tactic(auto, unfolding(crate::specs::ColumnNames::column_in))]
pub fn read_column(text: &[u8]) -> Option<Column>
    ensures { result ≡ column_in text.now }
{
    if text == b"open".as_slice() {
        Some(Column::OpenPrice)
    } else if text == b"high".as_slice() {
        Some(Column::High)
    } else if text == b"low".as_slice() {
        Some(Column::Low)
    } else if text == b"close".as_slice() {
        Some(Column::Close)
    } else if text == b"volume".as_slice() {
        Some(Column::Volume)
    } else {
        None
    }
}

// Whether one of the cells is below 0.
pub(crate) fn has_negative(cells: &[i64]) -> bool
    ensures { result ≡ list_any is_negative cells.now }
{
    cells.iter().any(|cell| is_below_0(*cell))
}

/// Whether a cell is below 0. `MISSING` is not.
pub fn is_below_0(cell: i64) -> bool
    ensures { result ≡ is_negative cell }
{
    cell < 0 && cell != MISSING
}
