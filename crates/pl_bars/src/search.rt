//! Where a bar is among the rows.

ghost use Rattle.std.specs.Prelude.{◌≡◌, ◌<◌, ◌≤◌, length};
ghost use Rattle.pl_spec.specs.Rounding.{IsCell};
ghost use Rattle.pl_spec.specs.World.{column_number};
ghost use Rattle.pl_bars.specs.Bars.{AreBars, cell_at, is_before};
ghost use Rattle.pl_bars.specs.BarPoint.{BarPoint};

use crate::onward::row_onward;
use pl_fixed::MISSING;
use pl_spec::{BarRow, Column};

// The cell of the bar of the column on the session, missing where there is none.
pub(crate) fn cell_at(rows: &[BarRow], col: usize, session: usize, column: Column) -> i64
    requires { AreBars rows.now }
    ensures value { result ≡ cell_at rows.now col column session }
    ensures cell { IsCell result }
{
    let mut place = 0;
    match row_onward(rows, col, session, &mut place) {
        Some(i) => rows[i].cells[place_of(column)],
        None => MISSING,
    }
}

// The place of the first bar that stands at the column and session or after them.
pub(crate) fn point_of(rows: &[BarRow], col: usize, session: usize) -> usize
    requires { AreBars rows.now }
    ensures within { result ≤ length rows.now }
    ensures point { BarPoint col session rows.now result }
{
    rows.partition_point(|row| stands_before(row, col, session))
}

pub(crate) fn stands_before(row: &BarRow, col: usize, session: usize) -> bool
    ensures { result ≡ is_before col session row.now }
{
    (row.col as usize) < col || row.col as usize == col && (row.session as usize) < session
}

// The place of a column's cell in a bar.
pub(crate) fn place_of(column: Column) -> usize
    ensures value { result ≡ column_number column }
    ensures few { result < 5 }
{
    match column {
        Column::OpenPrice => 0,
        Column::High => 1,
        Column::Low => 2,
        Column::Close => 3,
        Column::Volume => 4,
    }
}
