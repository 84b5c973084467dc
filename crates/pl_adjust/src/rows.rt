//! From the rows of three tables to adjustments with their columns.

ghost use Rattle.std.specs.Prelude.{◌≡◌, ◌+◌, ◌<◌, ◌^◌, ◌++◌, true, false, map, length};
ghost use Rattle.std.specs.Prelude.{IfSome, IfNone, IfOk, OnOk};
ghost use Rattle.std.specs.Int.RustNames.{unsigned_abs};
ghost use Rattle.pl_spec.specs.Order.{adjustment_in, day_of_time, is_of};
ghost use Rattle.pl_adjust.specs.Events.{event_of};
ghost use Rattle.pl_adjust.specs.Columns.{col_in};
ghost use Rattle.pl_adjust.specs.Faults.{MeetsFault};
ghost use Rattle.pl_adjust.specs.Rows.{row_of};
ghost use Rattle.pl_adjust.specs.Tables.{of_rows, of_walk};
ghost use Rattle.pl_adjust.specs.Walk.{fault_at, first_fault, in_table, is_effective, kind_of};
ghost use Rattle.pl_adjust.specs.Walk.{walk};

use crate::MOST_ROWS;
use crate::adjust::{Adjust, Change};
use crate::columns::Row;
use crate::error::AdjustError;
use pl_fixed::Ratio;
use pl_lifetimes::Assets;
use pl_outside::Table;
use pl_spec::{AdjustmentKind as Kind, RawAdjust};
use std::alloc::Global;

const SECONDS_A_DAY: i64 = 86_400;

// 1900-01-01 and 2199-12-31.
const FIRST_DAY: i64 = -25_567;

const LAST_DAY: i64 = 84_005;

// The adjustments of the tables' rows in their order, those of unknown sids left out.
pub(crate) fn rows_of(
    alloc: Global,
    assets: &Assets,
    splits: &[RawAdjust],
    mergers: &[RawAdjust],
    dividends: &[RawAdjust],
) -> Result<Vec<Row>, AdjustError>
    ensures rows { IfOk result (λ rows. map row_of rows.items
        ≡ of_walk assets.now splits.now mergers.now dividends.now) }
    ensures fault { MeetsFault result (first_fault 0 (walk splits.now mergers.now dividends.now)) }
{
    let mut rows = Vec::new(alloc);
    read_table(assets, Table::Splits, splits, 0, &mut rows)?;
    read_table(assets, Table::Mergers, mergers, splits.len(), &mut rows)?;
    read_table(
        assets,
        Table::Dividends,
        dividends,
        splits.len() + mergers.len(),
        &mut rows,
    )?;
    Ok(rows)
}

// Appends the adjustments of a table whose rows stand after so many others.
fn read_table(
    assets: &Assets,
    table: Table,
    raw: &[RawAdjust],
    before: usize,
    rows: &mut Vec<Row>,
) -> Result<(), AdjustError>
    requires { before + length raw.now < 2 ^ 64 }
    ensures rows { OnOk result (map row_of rows.new.items
        ≡ map row_of rows.old.items ++ of_rows assets.now (kind_of table) raw.now) }
    ensures fault { MeetsFault result (first_fault before (in_table table raw.now)) }
{
    for (i, row) in raw.iter().enumerate() {
        let adjust = adjust_of(table, row, before + i)?;
        if let Some(col) = col_of(assets, row) {
            rows.push(Row { col, adjust })?;
        }
    }
    Ok(())
}

// The adjustment of a row that stands after so many others.
#[tactic(auto, unfolding(crate::specs::Walk::fault_at))]
fn adjust_of(table: Table, row: &RawAdjust, before: usize) -> Result<Adjust, AdjustError>
    ensures adjust { IfOk result (λ a.
        event_of a ≡ (adjustment_in (kind_of table) row.now).event) }
    ensures fault { MeetsFault result (fault_at before (record { table = table; row = row.now })) }
{
    if before >= MOST_ROWS {
        return Err(AdjustError::TooMany);
    }
    let Some(day) = day_of(row.effective) else {
        return Err(AdjustError::BadEffective { table, id: row.id });
    };
    let Some(ratio) = Ratio::new(row.num, row.den) else {
        return Err(AdjustError::BadRatio { table, id: row.id });
    };
    Ok(Adjust {
        day,
        kind: kind_of(table),
        change: Change::Scale(ratio),
    })
}

// The day of a time in seconds, where it is one from 1900-01-01 to 2199-12-31.
fn day_of(time: i64) -> Option<i32>
    ensures some { IfSome result (λ day.
        (is_effective time ≡ true) × (day ≡ day_of_time time)) }
    ensures none { IfNone result (is_effective time ≡ false) }
{
    let day = time.div_euclid(SECONDS_A_DAY);
    if FIRST_DAY <= day && day <= LAST_DAY {
        Some(day as i32)
    } else {
        None
    }
}

// What the rows of a table are.
fn kind_of(table: Table) -> Kind
    ensures { result ≡ kind_of table }
{
    match table {
        Table::Splits => Kind::Split,
        Table::Mergers => Kind::Merger,
        Table::Dividends => Kind::Dividend,
    }
}

// The column of the row's asset, if the sid is one of an asset.
fn col_of(assets: &Assets, row: &RawAdjust) -> Option<usize>
    ensures some { IfSome result (λ col. (is_of assets.now row.now ≡ true)
        × (col ≡ col_in assets.now (unsigned_abs row.now.sid))) }
    ensures none { IfNone result (is_of assets.now row.now ≡ false) }
{
    // Where there are assets, their sids are numbers of 32 bits.
    if assets.len() == 0 {
        return None;
    }
    match u32::try_from(row.sid) {
        Ok(sid) => assets.col_of(sid),
        Err(_) => None,
    }
}
