//! From the bytes of an assets file to its rows.

ghost use Rattle.std.specs.Prelude.{◌≡◌, ◌+◌, ◌<◌, ◌≤◌, [], ◌∷◌, ◌++◌, length, OnOk, IfOk};
ghost use Rattle.pl_spec.specs.Limits.{most_assets};
ghost use Rattle.pl_records.specs.Reading.{Answers, at_line, rows_of};
ghost use Rattle.pl_records.specs.Sorted.{AreKeys, HasOwnKeys, sorted_by};
ghost use Rattle.pl_records.specs.Records.{csv_records};
ghost use Rattle.pl_lifetimes.specs.Assets.{asset_in, assets_of, rows_in, asset_or_rule, sid_of};
ghost use Rattle.pl_lifetimes.specs.Faults.{fault_of};

use crate::MOST_ASSETS;
use crate::error::AssetsError;
use pl_fixed::{read_day, read_sid};
use pl_records::Records;
use pl_spec::AssetRow;
use std::alloc::Global;
use std::collections::HashSet;

// The assets of a file by ascending sid.
#[tactic(auto, unfolding(crate::specs::Assets::assets_of))]
pub(crate) fn read_assets(alloc: Global, bytes: &[u8]) -> Result<Vec<AssetRow>, AssetsError>
    ensures { Answers (λ v. v.items) fault_of result (assets_of (csv_records bytes.now)) }
{
    let mut rows = read_rows(alloc, bytes)?;
    sort_by_sid(&mut rows);
    Ok(rows)
}

fn sort_by_sid(rows: &mut [AssetRow])
    requires { HasOwnKeys sid_of rows.old }
    ensures { rows.new ≡ sorted_by sid_of rows.old }
{
    rows.sort_unstable_by_key(|row| row.sid);
}

// The assets in the order of the file.
#[tactic(auto, unfolding(crate::specs::Assets::rows_in))]
fn read_rows(alloc: Global, bytes: &[u8]) -> Result<Vec<AssetRow>, AssetsError>
    ensures { Answers (λ v. v.items) fault_of result (rows_in (csv_records bytes.now)) }
{
    let mut records = Records::new(alloc, bytes);
    if !records.read_header(&[b"sid", b"start", b"end"])? {
        return Err(AssetsError::BadHeader);
    }
    rows_behind(alloc, &mut records)
}

// The assets of the records after the header.
fn rows_behind(alloc: Global, records: &mut Records) -> Result<Vec<AssetRow>, AssetsError>
    ensures { Answers (λ v. v.items) fault_of result (rows_of 2 asset_or_rule records.old.left) }
{
    let mut rows = Vec::new(alloc);
    let mut sids = HashSet::new(alloc);
    'rows: while records.next()? {
        let asset = next_asset(&rows, &mut sids, records)?;
        rows.push(asset)?;
    }
    Ok(rows)
}

// The asset of the record that was read last, after the assets before it, whose sids are given.
#[tactic(auto, unfolding(crate::specs::Assets::asset_or_rule))]
fn next_asset(
    before: &[AssetRow],
    sids: &mut HashSet<u32>,
    row: &Records,
) -> Result<AssetRow, AssetsError>
    requires few { length before.now ≤ most_assets }
    requires sids { AreKeys sid_of sids.old before.now }
    ensures room { OnOk result (length before.now < most_assets) }
    ensures sids { IfOk result (λ a. AreKeys sid_of sids.new (before.now ++ a ∷ [])) }
    ensures exact { Answers (λ a. a) fault_of result
        (at_line (2 + length before.now) (asset_or_rule before.now row.now.fields)) }
{
    let line = before.len() as u32 + 2;
    if before.len() >= MOST_ASSETS {
        return Err(AssetsError::TooMany { line });
    }
    let Some(asset) = asset_of(row) else {
        return Err(AssetsError::BadField { line });
    };
    if asset.start > asset.end {
        return Err(AssetsError::StartAfterEnd { line });
    }
    let is_new = sids.insert(asset.sid)?;
    if !is_new {
        return Err(AssetsError::DuplicateSid { line });
    }
    Ok(asset)
}

// The asset of the record that was read last, where it is a sid and two dates.
fn asset_of(row: &Records) -> Option<AssetRow>
    ensures { result ≡ asset_in row.now.fields }
{
    if row.field_count() != 3 {
        return None;
    }
    let sid = read_sid(row.field(0))?;
    let start = read_day(row.field(1))?;
    let end = read_day(row.field(2))?;
    Some(AssetRow { sid, start, end })
}
