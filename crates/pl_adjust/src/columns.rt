//! Adjustments by the columns of their assets.

ghost use Rattle.std.specs.Prelude.{◌≡◌, ◌≤ℤ◌, map, AllPairs, IfOk};
ghost use Rattle.std.specs.List.Sorted.{IsNonDecreasing};
ghost use Rattle.pl_adjust.specs.Events.{PutCells, event_of};
ghost use Rattle.pl_adjust.specs.Columns.{AreKept, AreStarts, IsByPlace, IsEnd, IsStart, events_at, in_columns};
ghost use Rattle.pl_adjust.specs.Rows.{row_of};

use crate::adjust::Adjust;
use std::alloc::{AllocError, Global};

// An adjustment of the asset in a column.
#[derive(Clone, Copy)]
pub(crate) struct Row {
    pub(crate) col: usize,
    pub(crate) adjust: Adjust,
}

// The rows by asset column, those of an asset by day, and those of a day as they stood.
pub(crate) fn by_place(mut rows: Vec<Row>) -> Result<Vec<Row>, AllocError>
    ensures { IfOk result (λ sorted. IsByPlace (map row_of rows.items) (map row_of sorted.items)) }
{
    rows.sort_by_key(|row| (row.col, row.adjust.day))?;
    Ok(rows)
}

// The asset columns of the rows.
pub(crate) fn cols_of(alloc: Global, rows: &[Row]) -> Result<Vec<usize>, AllocError>
    ensures { IfOk result (λ cols. cols.items ≡ map (λ r. r.col) rows.now) }
{
    rows.iter().map(|row| row.col).collect(alloc)
}

// The adjustments of the rows.
pub(crate) fn adjusts_of(alloc: Global, rows: &[Row]) -> Result<Vec<Adjust>, AllocError>
    ensures { IfOk result (λ adjusts. adjusts.items ≡ map (λ r. r.adjust) rows.now) }
{
    rows.iter().map(|row| row.adjust).collect(alloc)
}

// The place of the first adjustment of each of the first columns.
pub(crate) fn starts_of(
    alloc: Global,
    cols: &[usize],
    count: usize,
) -> Result<Vec<usize>, AllocError>
    requires { IsNonDecreasing cols.now }
    ensures { IfOk result (λ starts. AreStarts cols.now starts.items) }
{
    let mut starts = Vec::new(alloc);
    for col in 0..count {
        starts.push(first_from(cols, col))?;
    }
    Ok(starts)
}

// The place of the first adjustment of a column or of those after it.
fn first_from(cols: &[usize], col: usize) -> usize
    requires { IsNonDecreasing cols.now }
    ensures { IsStart cols.now col result }
{
    cols.partition_point(|c| *c < col)
}

// The place after the last adjustment of a column and of those before it.
fn first_behind(cols: &[usize], col: usize) -> usize
    requires { IsNonDecreasing cols.now }
    ensures { IsEnd cols.now col result }
{
    cols.partition_point(|c| *c <= col)
}

// The same two, looked up where they were found before.
fn start_of(cols: &[usize], starts: &[usize], col: usize) -> usize
    requires rise { IsNonDecreasing cols.now }
    requires starts { AreStarts cols.now starts.now }
    ensures { IsStart cols.now col result }
{
    match starts.get(col) {
        Some(start) => *start,
        None => first_from(cols, col),
    }
}

fn end_of(cols: &[usize], starts: &[usize], col: usize) -> usize
    requires rise { IsNonDecreasing cols.now }
    requires starts { AreStarts cols.now starts.now }
    ensures { IsEnd cols.now col result }
{
    if col < starts.len() {
        match starts.get(col + 1) {
            Some(end) => *end,
            None => first_behind(cols, col),
        }
    } else {
        first_behind(cols, col)
    }
}

// The adjustments of the asset in a column.
pub(crate) fn of_col<'a>(
    cols: &[usize],
    starts: &[usize],
    adjusts: &'a [Adjust],
    col: usize,
) -> &'a [Adjust]
    requires kept { AreKept cols.now adjusts.now }
    requires starts { AreStarts cols.now starts.now }
    ensures events { map event_of result.now ≡ events_at (in_columns cols.now adjusts.now) col }
    ensures in_order { AllPairs (λ a b. a.day ≤ℤ b.day) result.now }
    ensures cells { PutCells (map event_of result.now) }
{
    let from = start_of(cols, starts, col);
    let to = end_of(cols, starts, col);
    &adjusts[from..to]
}
