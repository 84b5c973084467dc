//! The bars of a day.
ghost use Rattle.std.specs.Prelude.{◌≡◌, ℕ, ◌<◌, pos, length, get_or, slice_set, All, AllPairs};
ghost use Rattle.pl_spec.specs.Rounding.{IsCell, MISSING};
ghost use Rattle.pl_bars.specs.Bars.{cell_of};
ghost use Rattle.pl_daily.specs.Days.{bar_row, cell_brought};

use crate::day::DayBar;
use pl_fixed::{Column, MISSING};

/// The cells of a column that a day's bars have, one for each asset, missing where there is no bar.
pub(crate) fn read_bars(bars: &[DayBar], column: Column, row: &mut [i64])
    requires ascend { AllPairs (λ b c. b.col < c.col) bars.now }
    requires within { All (λ b. b.col < length row.old) bars.now }
    requires cells { All (λ b. All IsCell b.cells) bars.now }
    ensures count { length row.new ≡ length row.old }
    ensures each { (i : ℕ) → i < length row.old
        → get_or row.new i (pos 0) ≡ cell_brought column bars.now i }
    ensures cells { All IsCell row.new }
{
    clear(row);
    for k in 0..bars.len() {
        let bar = bars[k];
        let cell = bar_cell(&bar, column);
        put(row, bar.col as usize, cell);
    }
}

fn clear(row: &mut [i64])
    ensures count { length row.new ≡ length row.old }
    ensures each { (i : ℕ) → i < length row.old → get_or row.new i (pos 0) ≡ MISSING }
    ensures cells { All IsCell row.new }
{
    for i in 0..row.len() {
        row[i] = MISSING;
    }
}

/// Puts a cell in a place.
pub(crate) fn put(cells: &mut [i64], i: usize, cell: i64)
    requires { i < length cells.old }
    ensures { cells.new ≡ slice_set cells.old i cell }
{
    cells[i] = cell;
}

fn bar_cell(bar: &DayBar, column: Column) -> i64
    requires { All IsCell bar.now.cells }
    ensures value { result ≡ cell_of column (bar_row 0 bar.now) }
    ensures cell { IsCell result }
{
    match column {
        Column::OpenPrice => bar.cells[0],
        Column::High => bar.cells[1],
        Column::Low => bar.cells[2],
        Column::Close => bar.cells[3],
        Column::Volume => bar.cells[4],
    }
}
