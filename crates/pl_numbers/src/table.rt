//! The table of a numbers file.
ghost use Rattle.std.specs.Prelude.{◌<◌, length, All, IfOk, IfSome};
ghost use Rattle.pl_records.specs.Reading.{Answers};
ghost use Rattle.pl_records.specs.Records.{csv_records};
ghost use Rattle.pl_numbers.specs.Numbers.{numbers_of};
ghost use Rattle.pl_numbers.specs.NumberFaults.{fault_of};
ghost use Rattle.pl_numbers.specs.BesidePlaces.{AreNamed};
ghost use Rattle.pl_numbers.specs.NumberPlaces.{IsTable, IsTableOf, shown_rows, table_in};

use crate::error::NumbersError;
use crate::order;
use crate::reading::read_rows;
use crate::rows::NumberRows;
use crate::stated::stated_rows;
use pl_lifetimes::Assets;
use std::alloc::{AllocError, Global};

// The table of a file, or its first fault. To know of each record whether its key is new takes a set of
// keys, so a file is first read without, and its keys are looked at when they are sorted. Only a file with
// a fault is read again, with the set.
pub(crate) fn read_table(
    alloc: Global,
    bytes: &[u8],
    assets: &Assets,
) -> Result<NumberRows, NumbersError>
    ensures exact { Answers table_in fault_of result (numbers_of assets.now (csv_records bytes.now)) }
    ensures table { IfOk result IsTable }
    ensures named { IfOk result AreNamed }
    ensures cols { IfOk result (λ t. All (λ r. r.col < length assets.now) (shown_rows t)) }
{
    if let Some(rows) = faultless_table(alloc, bytes, assets)? {
        return Ok(rows);
    }
    exact_table(alloc, bytes, assets)
}

// The table of a file without a fault; `None` for others.
fn faultless_table(
    alloc: Global,
    bytes: &[u8],
    assets: &Assets,
) -> Result<Option<NumberRows>, AllocError>
    ensures table { IfOk result (λ o. IfSome o (IsTableOf assets.now (csv_records bytes.now))) }
    ensures named { IfOk result (λ o. IfSome o AreNamed) }
{
    let stated = stated_rows(alloc, bytes, assets)?;
    match stated {
        Some(rows) => Ok(order::in_order(rows)),
        None => Ok(None),
    }
}

// The table of a file, or its first fault.
#[tactic(auto, unfolding(crate::specs::Numbers::numbers_of))]
fn exact_table(alloc: Global, bytes: &[u8], assets: &Assets) -> Result<NumberRows, NumbersError>
    ensures exact { Answers table_in fault_of result (numbers_of assets.now (csv_records bytes.now)) }
    ensures table { IfOk result IsTable }
    ensures named { IfOk result AreNamed }
    ensures cols { IfOk result (λ t. All (λ r. r.col < length assets.now) (shown_rows t)) }
{
    let read = read_rows(alloc, bytes, assets)?;
    let rows = order::sorted(read);
    Ok(rows)
}
