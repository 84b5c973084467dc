//! Cells of a bar column written for many sessions at once.

ghost use Rattle.std.specs.Prelude.{◌≡◌, ℕ, ◌+◌, ◌*◌, ◌^◌, ◌<◌, ◌≤◌, IsTrue, length, pos, slice_index, slice_index_or};
ghost use Rattle.pl_spec.specs.Rounding.{IsCell};
ghost use Rattle.pl_bars.specs.Bars.{AreBars, cell_at};
ghost use Rattle.pl_bars.specs.BarPoint.{BarPoint, IsStretch};

use crate::onward::{is_bar_of, likely_point};
use crate::search::place_of;
use crate::starts::Starts;
use pl_fixed::MISSING;
use pl_spec::{BarRow, Column};

// Writes the cells of some columns on sessions from the first one on, column by column.
pub(crate) fn fill_assets(
    bars: &[BarRow],
    starts: &Starts,
    column: Column,
    first: usize,
    rows: usize,
    cols: &[u32],
    into: &mut [i64],
)
    requires bars { AreBars bars.now }
    requires size { length into.old ≡ rows * length cols.now }
    requires range { first + rows ≤ 2 ^ 32 }
    ensures values { (i k : ℕ) → i < length cols.now → k < rows
        → slice_index_or into.new (i * rows + k) (pos 0)
        ≡ cell_at bars.now (slice_index cols.now i) column (first + k) }
    ensures cells { (i k : ℕ) → i < length cols.now → k < rows
        → IsCell (slice_index_or into.new (i * rows + k) (pos 0)) }
{
    for (i, col) in cols.iter().enumerate() {
        let part = &mut into[i * rows..(i + 1) * rows];
        fill_asset(bars, starts, *col as usize, column, first, part);
    }
}

// Writes the cells of a column on sessions from the first one on.
fn fill_asset(
    bars: &[BarRow],
    starts: &Starts,
    col: usize,
    column: Column,
    first: usize,
    into: &mut [i64],
)
    requires bars { AreBars bars.now }
    requires range { first + length into.old ≤ 2 ^ 32 }
    ensures values { (k : ℕ) → k < length into.old
        → slice_index_or into.new k (pos 0) ≡ cell_at bars.now col column (first + k) }
    ensures cells { (k : ℕ) → k < length into.old → IsCell (slice_index_or into.new k (pos 0)) }
{
    let at = likely_point(bars, starts, col, first);
    if is_stretch(bars, at, col, first, into.len()) {
        copy_stretch(bars, at, col, column, first, into);
    } else {
        fill_by_session(bars, at, col, column, first, into);
    }
}

// Whether the bars at a point are those of the column on so many sessions. The last of them tells, since
// they stand by session.
fn is_stretch(bars: &[BarRow], at: usize, col: usize, first: usize, count: usize) -> bool
    requires bars { AreBars bars.now }
    requires within { at ≤ length bars.now }
    requires point { BarPoint col first bars.now at }
    requires range { first + count ≤ 2 ^ 32 }
    ensures { IsTrue result → IsStretch col first bars.now at count }
{
    if count == 0 {
        return false;
    }
    let last = count - 1;
    last < bars.len() - at && is_bar_of(&bars[at + last], col, first + last)
}

// Writes the cells of a column whose bars stand one after the other.
fn copy_stretch(
    bars: &[BarRow],
    at: usize,
    col: usize,
    column: Column,
    first: usize,
    into: &mut [i64],
)
    requires bars { AreBars bars.now }
    requires stretch { IsStretch col first bars.now at (length into.old) }
    ensures values { (k : ℕ) → k < length into.old
        → slice_index_or into.new k (pos 0) ≡ cell_at bars.now col column (first + k) }
    ensures cells { (k : ℕ) → k < length into.old → IsCell (slice_index_or into.new k (pos 0)) }
{
    let place = place_of(column);
    for k in 0..into.len() {
        into[k] = bars[at + k].cells[place];
    }
}

// Writes the cells of a column session by session, from the first one's point on.
fn fill_by_session(
    bars: &[BarRow],
    point: usize,
    col: usize,
    column: Column,
    first: usize,
    into: &mut [i64],
)
    requires bars { AreBars bars.now }
    requires within { point ≤ length bars.now }
    requires point { BarPoint col first bars.now point }
    requires range { first + length into.old ≤ 2 ^ 32 }
    ensures values { (k : ℕ) → k < length into.old
        → slice_index_or into.new k (pos 0) ≡ cell_at bars.now col column (first + k) }
    ensures cells { (k : ℕ) → k < length into.old → IsCell (slice_index_or into.new k (pos 0)) }
{
    let mut at = point;
    for k in 0..into.len() {
        let (cell, next) = step(bars, at, col, first + k, column);
        into[k] = cell;
        at = next;
    }
}

// The cell of the column on the session, whose bar stands at the point where there is one, and the
// next session's point.
fn step(bars: &[BarRow], at: usize, col: usize, session: usize, column: Column) -> (i64, usize)
    requires bars { AreBars bars.now }
    requires within { at ≤ length bars.now }
    requires point { BarPoint col session bars.now at }
    ensures value { result.0 ≡ cell_at bars.now col column session }
    ensures cell { IsCell result.0 }
    ensures within { result.1 ≤ length bars.now }
    ensures point { BarPoint col (session + 1) bars.now result.1 }
{
    if at < bars.len() && bars[at].col as usize == col && bars[at].session as usize == session {
        (bars[at].cells[place_of(column)], at + 1)
    } else {
        (MISSING, at)
    }
}
