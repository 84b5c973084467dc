//! Cash payouts as rows of the table of dividends. A payout of so much a share, to whom the share
//! belonged before the ex day, takes that much off the price: earlier prices are seen times
//! `(close - amount) / close`, where the close is that of the last session before the ex day.
//! Zipline's writer of adjustments keeps this ratio as a float; here it is exact, or the payout is
//! skipped with the reason.
#![tactic(auto)]

ghost use Rattle.std.specs.Prelude.{◌≡◌, ◌+◌, ◌<◌, ◌≤◌, length, slice_get, option_map, Some, IfOk};
ghost use Rattle.pl_spec.specs.Limits.{most_payouts};
ghost use Rattle.pl_records.specs.Reading.{Answers};
ghost use Rattle.pl_records.specs.Records.{csv_records};
ghost use Rattle.pl_payouts.specs.Payouts.{AreKnown, ArePayouts, IsPayout, numbered, payouts_of};
ghost use Rattle.pl_payouts.specs.Faults.{fault_of};

mod error;
pub mod laws;
mod line;
mod ratio;
mod reading;
mod writing;

pub use error::{PayoutsError, PayoutsOut};
use pl_lifetimes::Assets;
pub use ratio::{Skip, ratio_of};
use reading::Dividend;
use std::alloc::Global;
use std::marker::Model;
pub use writing::write_payouts;

/// How many payouts a file may have. The limit is this project's own.
pub const MOST_PAYOUTS: usize = 200_000;

/// A cash payout of `amount` millionths of a unit of money a share of the asset `sid`. `ex` is the
/// ex day, the first day on which the share is traded without it, counted from 1970-01-01. `number`
/// is the payout's place in its file, from 1 and without the header.
#[derive(Clone, Copy, Debug, PartialEq, Eq)]
pub struct Payout {
    pub number: u32,
    pub sid: u32,
    pub ex: i32,
    pub amount: i64,
}

/// The payouts of a file in its order, at most 200,000 of them.
#[derive(Debug, Drop)]
pub struct Payouts {
    rows: Vec<Dividend>,
}

impl Model for Payouts {
    ghost use Rattle.std.specs.Prelude.{List};
    ghost use Rattle.pl_payouts.specs.declared.reading.Dividend.{Dividend};
    ghost use Rattle.pl_payouts.specs.Payouts.{ArePayouts};

    ghost Value = { List Dividend };

    ghost view = { λ p. p.rows.items };

    ghost invariant = { λ p. ArePayouts p.rows.items };
}

impl Payouts {
    /// The payouts of a file: the header `sid,ex,amount`, and in each further record the sid of an asset, a
    /// date and a decimal above 0, in any order. A payout may be there twice, and counts twice. The error is
    /// the first fault of the file, or want of memory.
    pub fn read(alloc: Global, bytes: &[u8], assets: &Assets) -> Result<Payouts, PayoutsError>
        // The payouts of the records, or the fault of the first faulty one. Only want of memory may
        // come beside.
        ensures exact { Answers (λ p. p) fault_of result (payouts_of assets.now (csv_records bytes.now)) }
        ensures payouts { IfOk result ArePayouts }
        // Each is of an asset.
        ensures known { IfOk result (AreKnown assets.now) }
    {
        let rows = reading::read_payouts(alloc, bytes, assets)?;
        Ok(Payouts { rows })
    }

    /// How many payouts there are.
    pub fn len(&self) -> usize
        ensures length { result ≡ length self.now }
        ensures payouts { ArePayouts self.now }
        ensures few { result ≤ most_payouts }
    {
        self.rows.len()
    }

    /// A payout by its place in the file, from 0; its `number` is one more.
    pub fn get(&self, i: usize) -> Payout
        requires { i < length self.now }
        ensures exact { option_map (numbered (i + 1)) (slice_get self.now i) ≡ Some result }
        ensures payout { IsPayout result }
    {
        let row = self.rows[i];
        Payout {
            number: i as u32 + 1,
            sid: row.sid,
            ex: row.ex,
            amount: row.amount,
        }
    }
}
