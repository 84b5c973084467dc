//! From the bytes of a payouts file to its rows.

ghost use Rattle.std.specs.Prelude.{◌≡◌, ◌+◌, ◌<◌, ◌≤◌, length, OnOk};
ghost use Rattle.pl_spec.specs.Limits.{most_payouts};
ghost use Rattle.pl_records.specs.Reading.{Answers, at_line, rows_of};
ghost use Rattle.pl_records.specs.Records.{csv_records};
ghost use Rattle.pl_lifetimes.specs.Assets.{AreAssets};
ghost use Rattle.pl_payouts.specs.Payouts.{amount_in, dividend_in, is_above_0, payouts_of, dividend_or_rule};
ghost use Rattle.pl_payouts.specs.Faults.{fault_of};

use crate::MOST_PAYOUTS;
use crate::error::PayoutsError;
use pl_fixed::{read_day, read_decimal, read_sid};
use pl_lifetimes::Assets;
use pl_records::Records;
use std::alloc::Global;

// What a record says of a payout; its number is its place.
#[derive(Clone, Copy, Debug, Drop)]
pub(crate) struct Dividend {
    pub sid: u32,
    pub ex: i32,
    pub amount: i64,
}

// The payouts of a file.
#[tactic(auto, unfolding(crate::specs::Payouts::payouts_of))]
pub(crate) fn read_payouts(
    alloc: Global,
    bytes: &[u8],
    assets: &Assets,
) -> Result<Vec<Dividend>, PayoutsError>
    ensures exact { Answers (λ v. v.items) fault_of result (payouts_of assets.now (csv_records bytes.now)) }
    ensures assets { AreAssets assets.now }
{
    let _assets = assets.len();
    let mut records = Records::new(alloc, bytes);
    if !records.read_header(&[b"sid", b"ex", b"amount"])? {
        return Err(PayoutsError::BadHeader);
    }
    rows_behind(alloc, &mut records, assets)
}

// The payouts of the records after the header.
fn rows_behind(
    alloc: Global,
    records: &mut Records,
    assets: &Assets,
) -> Result<Vec<Dividend>, PayoutsError>
    ensures { Answers (λ v. v.items) fault_of result
        (rows_of 2 (dividend_or_rule assets.now) records.old.left) }
{
    let mut rows = Vec::new(alloc);
    'rows: while records.next()? {
        let dividend = next_dividend(&rows, records, assets)?;
        rows.push(dividend)?;
    }
    Ok(rows)
}

// The payout of the record that was read last, after those before it.
#[tactic(auto, unfolding(crate::specs::Payouts::dividend_or_rule))]
fn next_dividend(
    before: &[Dividend],
    row: &Records,
    assets: &Assets,
) -> Result<Dividend, PayoutsError>
    requires { length before.now ≤ most_payouts }
    ensures room { OnOk result (length before.now < most_payouts) }
    ensures exact { Answers (λ d. d) fault_of result
        (at_line (2 + length before.now) (dividend_or_rule assets.now before.now row.now.fields)) }
{
    let line = before.len() as u32 + 2;
    if before.len() >= MOST_PAYOUTS {
        return Err(PayoutsError::TooMany { line });
    }
    let Some(dividend) = dividend_of(row) else {
        return Err(PayoutsError::BadField { line });
    };
    if assets.col_of(dividend.sid).is_none() {
        return Err(PayoutsError::UnknownSid { line });
    }
    if !is_above_0(dividend.amount) {
        return Err(PayoutsError::NotPositive { line });
    }
    Ok(dividend)
}

// The payout of the record that was read last, where it is a sid, a date and a decimal.
#[tactic(auto, unfolding(crate::specs::Payouts::dividend_in))]
fn dividend_of(row: &Records) -> Option<Dividend>
    ensures { result ≡ dividend_in row.now.fields }
{
    if row.field_count() != 3 {
        return None;
    }
    let sid = read_sid(row.field(0))?;
    let ex = read_day(row.field(1))?;
    let amount = amount_of(row.field(2))?;
    Some(Dividend { sid, ex, amount })
}

fn amount_of(text: &[u8]) -> Option<i64>
    ensures { result ≡ amount_in text.now }
{
    read_decimal(text).ok()
}

fn is_above_0(amount: i64) -> bool
    ensures { result ≡ is_above_0 amount }
{
    amount > 0
}
