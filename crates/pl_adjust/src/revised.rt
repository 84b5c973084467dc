//! The revisions of a file as adjustments with their columns.

ghost use Rattle.std.specs.Prelude.{◌≡◌, ◌++◌, map, IfOk, OnOk};
ghost use Rattle.pl_adjust.specs.Columns.{col_in};
ghost use Rattle.pl_adjust.specs.Events.{event_of};
ghost use Rattle.pl_adjust.specs.Revised.{AreKnown, IsKnown, revised, revised_columns};
ghost use Rattle.pl_adjust.specs.Rows.{row_of, rows_in};

use crate::adjust::{Adjust, Change};
use crate::columns::Row;
use crate::revisions::Revision;
use pl_lifetimes::Assets;
use pl_spec::AdjustmentKind as Kind;
use std::alloc::{AllocError, Global};

// The adjustments with the columns at their places.
pub(crate) fn rows_of(
    alloc: Global,
    cols: &[usize],
    adjusts: &[Adjust],
) -> Result<Vec<Row>, AllocError>
    ensures { IfOk result (λ rows. rows.items ≡ rows_in cols.now adjusts.now) }
{
    cols.iter()
        .zip(adjusts)
        .map(|(col, adjust)| Row {
            col: *col,
            adjust: *adjust,
        })
        .collect(alloc)
}

// Puts the revisions after the rows.
pub(crate) fn add_rows(
    assets: &Assets,
    revisions: &[Revision],
    rows: &mut Vec<Row>,
) -> Result<(), AllocError>
    requires { AreKnown assets.now revisions.now }
    ensures { OnOk result (map row_of rows.new.items
        ≡ map row_of rows.old.items ++ revised_columns assets.now revisions.now) }
{
    for revision in revisions {
        rows.push(Row {
            col: col_of(assets, revision.sid),
            adjust: adjust_of(revision),
        })?;
    }
    Ok(())
}

// The column of the asset that has the sid.
fn col_of(assets: &Assets, sid: u32) -> usize
    requires { IsKnown assets.now sid }
    ensures { result ≡ col_in assets.now sid }
{
    match assets.col_of(sid) {
        Some(col) => col,
        None => unreachable!(),
    }
}

// It acts from the day on which it is known.
fn adjust_of(revision: &Revision) -> Adjust
    ensures { event_of result ≡ (revised revision.now).event }
{
    Adjust {
        day: revision.known,
        kind: Kind::Revision,
        change: Change::Overwrite {
            bar_day: revision.bar_day,
            column: revision.column,
            value: revision.value,
        },
    }
}
