//! The adjustments that are known by a day.

ghost use Rattle.std.specs.Prelude.{◌≡◌, filter, IfOk};
ghost use Rattle.std.specs.Int.RustNames.{int_le};
ghost use Rattle.pl_adjust.specs.Rows.{rows_in};

use crate::adjust::Adjust;
use crate::columns::Row;
use std::alloc::{AllocError, Global};

// The adjustments whose day is at most `day`, with their columns.
pub(crate) fn rows_by(
    alloc: Global,
    cols: &[usize],
    adjusts: &[Adjust],
    day: i32,
) -> Result<Vec<Row>, AllocError>
    ensures { IfOk result (λ rows.
        rows.items ≡ filter (λ r. int_le r.adjust.day day) (rows_in cols.now adjusts.now)) }
{
    cols.iter()
        .zip(adjusts)
        .map(|(col, adjust)| Row {
            col: *col,
            adjust: *adjust,
        })
        .filter(|row| row.adjust.day <= day)
        .collect(alloc)
}
