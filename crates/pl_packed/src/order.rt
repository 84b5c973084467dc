//! Whether a bar may stand after the bars before it.

ghost use Rattle.std.specs.Prelude.{◌≡◌, ◌↔◌, IsTrue, length};
ghost use Rattle.std.specs.List.{list_all};
ghost use Rattle.pl_bars.specs.Bars.{is_bar_cell};
ghost use Rattle.pl_bars.specs.BarPoint.{IsAfter};
ghost use Rattle.pl_packed.specs.Fit.{IsBar, IsNext};

use crate::bar::key;
use pl_fixed::{LIM, MISSING};
use pl_spec::BarRow;

pub(crate) fn is_next(before: &[BarRow], bar: &BarRow, cols: usize, sessions: usize) -> bool
    requires { length bar.now.cells ≡ 5 }
    ensures { IsTrue result ↔ IsNext cols sessions before.now bar.now }
{
    is_after(before, bar) && is_bar(bar, cols, sessions)
}

fn is_after(before: &[BarRow], bar: &BarRow) -> bool
    ensures { IsTrue result ↔ IsAfter bar.now before.now }
{
    let count = before.len();
    count == 0 || key(&before[count - 1]) < key(bar)
}

fn is_bar(bar: &BarRow, cols: usize, sessions: usize) -> bool
    requires { length bar.now.cells ≡ 5 }
    ensures { IsTrue result ↔ IsBar cols sessions bar.now }
{
    if bar.col as usize >= cols {
        return false;
    }
    if bar.session as usize >= sessions {
        return false;
    }
    are_cells(&bar.cells)
}

fn are_cells(cells: &[i64]) -> bool
    ensures { result ≡ list_all is_bar_cell cells.now }
{
    cells.iter().all(|cell| is_bar_cell(*cell))
}

fn is_bar_cell(cell: i64) -> bool
    ensures { result ≡ is_bar_cell cell }
{
    cell == MISSING || (0 <= cell && cell <= LIM)
}
