//! The assets: their sids and the days on which they exist. A column is the place of an asset among
//! them by ascending sid, from 0.
#![tactic(auto)]

ghost use Rattle.std.specs.Prelude.{◌≡◌, ◌<◌, ◌≤◌, ◌^◌, All, length, slice_get, Some, IfOk, IfSome, option_map};
ghost use Rattle.pl_spec.specs.Limits.{most_assets};
ghost use Rattle.pl_records.specs.Reading.{Answers};
ghost use Rattle.pl_spec.specs.World.{lives_on};
ghost use Rattle.pl_records.specs.Records.{csv_records};
ghost use Rattle.pl_lifetimes.specs.Assets.{AreAssets, assets_of, col_in, sid_of};
ghost use Rattle.pl_lifetimes.specs.Faults.{fault_of};

mod error;
pub mod laws;
mod reading;
mod search;

pub use error::AssetsError;
use pl_fixed::Memory;
pub use pl_spec::AssetRow;
use std::alloc::Global;
use std::marker::Model;

/// How many assets there may be. The limit is this project's own.
pub const MOST_ASSETS: usize = 8_000;

/// The assets by ascending sid, at most 8,000 of them.
#[derive(Debug, Drop)]
pub struct Assets {
    rows: Vec<AssetRow>,
}

impl Model for Assets {
    ghost use Rattle.std.specs.Prelude.{List};
    ghost use Rattle.pl_spec.specs.declared.AssetRow.{AssetRow};
    ghost use Rattle.pl_lifetimes.specs.Assets.{AreAssets};

    ghost Value = { List AssetRow };

    ghost view = { λ a. a.rows.items };

    ghost invariant = { λ a. AreAssets a.rows.items };
}

impl Assets {
    /// The assets of a file: the header `sid,start,end`, and in each further record a sid and two dates
    /// `YYYY-MM-DD`, in any order of sids. The error is the first fault of the file, or want of memory.
    pub fn read(alloc: Global, bytes: &[u8]) -> Result<Assets, AssetsError>
        // The assets of the records, or the fault of the first faulty one. Only want of memory may
        // come beside.
        ensures exact { Answers (λ a. a) fault_of result (assets_of (csv_records bytes.now)) }
        ensures assets { IfOk result AreAssets }
    {
        let rows = reading::read_assets(alloc, bytes)?;
        Ok(Assets { rows })
    }

    /// The assets of these rows, which are by ascending sid, each sid once: at most 8,000 of them.
    pub fn from_rows(rows: Vec<AssetRow>) -> Assets
        requires { AreAssets rows.items }
        ensures { result ≡ rows.items }
    {
        Assets { rows }
    }

    /// A copy of the assets, which outlives them. The only error is want of memory.
    pub fn copy(&self, alloc: Global) -> Result<Assets, Memory>
        ensures { IfOk result (λ a. a ≡ self.now) }
    {
        let rows = Vec::from_slice(alloc, &self.rows)?;
        Ok(Assets { rows })
    }

    /// How many assets there are. Their sids ascend, and are numbers of 32 bits.
    pub fn len(&self) -> usize
        ensures length { result ≡ length self.now }
        ensures assets { AreAssets self.now }
        ensures few { result ≤ most_assets }
        ensures small { All (λ a. a.sid < 2 ^ 32) self.now }
    {
        self.rows.len()
    }

    /// The sid of the asset in a column.
    pub fn sid(&self, col: usize) -> u32
        requires { col < length self.now }
        ensures { option_map sid_of (slice_get self.now col) ≡ Some result }
    {
        self.rows[col].sid
    }

    /// The asset in a column.
    pub fn row(&self, col: usize) -> AssetRow
        requires { col < length self.now }
        ensures { slice_get self.now col ≡ Some result }
    {
        self.rows[col]
    }

    /// The column of the asset with a sid; `None` where no asset has it. It is found by bisection.
    pub fn col_of(&self, sid: u32) -> Option<usize>
        ensures within { IfSome result (λ i. i < length self.now) }
        ensures few { IfSome result (λ i. i < most_assets) }
        ensures exact { result ≡ col_in self.now sid }
    {
        search::col_of(&self.rows, sid)
    }

    /// The same. The asset in the column `near` and the one after it are looked at before it is searched for.
    pub fn col_near(&self, near: u32, sid: u32) -> Option<usize>
        ensures within { IfSome result (λ i. i < length self.now) }
        ensures few { IfSome result (λ i. i < most_assets) }
        ensures exact { result ≡ col_in self.now sid }
    {
        search::col_near(&self.rows, near, sid)
    }

    /// Whether the asset in a column exists on a day, counted from 1970-01-01: later than its start, and up
    /// to its end, as in Zipline. The day need not be a session.
    pub fn exists(&self, col: usize, day: i32) -> bool
        requires { col < length self.now }
        ensures exact { option_map (lives_on day) (slice_get self.now col) ≡ Some result }
        ensures assets { AreAssets self.now }
    {
        search::lives(self.rows[col], day)
    }
}
