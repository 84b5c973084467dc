//! The daily bars: five cells for an asset on a session. A bar is known by the column of its asset,
//! a place among the assets, and by its session, a place among the sessions.
#![tactic(auto)]

ghost use Rattle.std.specs.Prelude.{◌≡◌, ℕ, ◌+◌, ◌*◌, ◌^◌, ◌<◌, ◌≤◌, ◌++◌, List, length, pos, slice_get, slice_index, slice_index_or, Some, IfOk, All};
ghost use Rattle.pl_records.specs.Reading.{Answers, Record};
ghost use Rattle.pl_spec.specs.AsOf.{bars_before};
ghost use Rattle.pl_spec.specs.Rounding.{IsCell};
ghost use Rattle.pl_records.specs.Records.{csv_records};
ghost use Rattle.pl_bars.specs.Bars.{AreBars, bars_of, cell_at, cells_at};
ghost use Rattle.pl_bars.specs.Faults.{fault_of};
ghost use Rattle.pl_bars.specs.InPieces.{AreKept, AreRowsOf};

mod bar_set;
mod cut;
mod dates;
mod error;
mod fields;
mod filling;
mod judged;
pub mod laws;
mod onward;
mod pieces;
mod places;
mod reading;
mod search;
mod starts;

pub use error::BarsError;
pub use fields::{is_below_0, read_cell, read_column};
use judged::Judged;
pub use pieces::BarsReader;
use pl_calendar::Sessions;
use pl_fixed::Memory;
use pl_lifetimes::Assets;
pub use pl_spec::BarRow;
use pl_spec::Column;
use reading::ordered;
use starts::Starts;
use std::alloc::Global;
use std::marker::Model;

/// How many bars there may be. The limit is this project's own.
pub const MOST_BARS: usize = 4_000_000;

// The fewest bytes that a bar takes: one digit, a date, six commas and the end of the line.
const FEWEST_BYTES: usize = 18;

/// The bars, at most 4,000,000 of them, by ascending column and then session. Their cells are millionths,
/// missing or at least 0.
#[derive(Debug, Drop)]
pub struct Bars {
    rows: Vec<BarRow>,
    starts: Starts,
}

impl Model for Bars {
    ghost use Rattle.std.specs.Prelude.{List};
    ghost use Rattle.pl_spec.specs.declared.BarRow.{BarRow};
    ghost use Rattle.pl_bars.specs.Bars.{AreBars};

    ghost Value = { List BarRow };

    ghost view = { λ b. b.rows.items };

    ghost invariant = { λ b. AreBars b.rows.items };
}

impl Bars {
    /// The bars of a file: the header `sid,session,open,high,low,close,volume`, and in each further record a
    /// sid, the date of a session and five decimals or empty fields, in any order. An empty field is missing,
    /// a volume's too, which in Zipline's reader is 0. The error is the first fault of the file, or want of
    /// memory.
    pub fn read(
        alloc: Global,
        bytes: &[u8],
        sessions: &Sessions,
        assets: &Assets,
    ) -> Result<Bars, BarsError>
        // The bars of the records, or the fault of the first faulty one. Only want of memory may
        // come beside.
        ensures exact { Answers (λ b. b) fault_of result
            (bars_of sessions.now assets.now (csv_records bytes.now)) }
        ensures bars { IfOk result AreBars }
        // Each stands in the column of an asset, and on a session.
        ensures cols { IfOk result (All (λ b. b.col < length assets.now)) }
        ensures sessions { IfOk result (All (λ b. b.session < length sessions.now)) }
    {
        let room = (bytes.len() / FEWEST_BYTES).min(MOST_BARS);
        let judged = Judged::new(alloc, room, sessions, assets)?;
        Bars::behind(alloc, judged, bytes, sessions, assets)
    }

    // The bars of the records that were judged and then those of a text.
    fn behind(
        alloc: Global,
        mut judged: Judged,
        text: &[u8],
        sessions: &Sessions,
        assets: &Assets,
    ) -> Result<Bars, BarsError>
        requires kept { AreKept sessions.now assets.now judged }
        requires rows { (front : List Record)
            × AreRowsOf sessions.now assets.now judged.headed judged.rows.items front }
        ensures exact { (front : List Record)
            → AreRowsOf sessions.now assets.now judged.headed judged.rows.items front
            → Answers (λ b. b) fault_of result
            (bars_of sessions.now assets.now (front ++ csv_records text.now)) }
        ensures bars { IfOk result AreBars }
        ensures cols { IfOk result (All (λ b. b.col < length assets.now)) }
        ensures sessions { IfOk result (All (λ b. b.session < length sessions.now)) }
    {
        let _count = sessions.len();
        judged.judge(alloc, text, sessions, assets)?;
        if !judged.headed {
            return Err(BarsError::BadHeader);
        }
        let rows = ordered(judged.rows, judged.rise);
        let starts = Starts::new(alloc, &rows, assets.len())?;
        Ok(Bars { rows, starts })
    }

    /// The bars of these rows, which are by ascending column and then session, one for each: at most
    /// 4,000,000, whose cells are `MISSING` or at least 0.
    pub fn from_rows(rows: Vec<BarRow>) -> Bars
        requires { AreBars rows.items }
        ensures { result ≡ rows.items }
    {
        Bars {
            rows,
            starts: Starts::unknown(),
        }
    }

    /// The bars of the sessions below `sessions`, copied. The only error is want of memory.
    pub fn cut(&self, alloc: Global, sessions: usize) -> Result<Bars, Memory>
        ensures { IfOk result (λ b. b ≡ bars_before sessions self.now) }
    {
        let rows = cut::rows_before(alloc, &self.rows, sessions)?;
        Ok(Bars {
            rows,
            starts: Starts::unknown(),
        })
    }

    /// How many bars there are. They are by ascending column and then session.
    pub fn len(&self) -> usize
        ensures length { result ≡ length self.now }
        ensures bars { AreBars self.now }
    {
        self.rows.len()
    }

    /// The bar of a place among them, from 0.
    pub fn row(&self, i: usize) -> BarRow
        requires { i < length self.now }
        ensures bar { slice_get self.now i ≡ Some result }
        ensures cells { All IsCell result.cells }
    {
        self.rows[i]
    }

    /// One cell of the bar of the asset in a column on a session, in millionths; `MISSING` where there is no
    /// bar.
    pub fn get(&self, col: usize, session: usize, column: Column) -> i64
        ensures value { result ≡ cell_at self.now col column session }
        ensures cell { IsCell result }
    {
        search::cell_at(&self.rows, col, session, column)
    }

    /// The five cells of that bar, found by one search: open, high, low, close, volume.
    pub fn cells(&self, col: usize, session: usize) -> [i64; 5]
        ensures { result ≡ cells_at self.now col session }
    {
        let mut place = 0;
        self.cells_onward(col, session, &mut place)
    }

    /// Writes the cells of a bar column for the assets `cols` on `rows` sessions from `first` on, in
    /// millionths: all of the first asset in the order of the sessions, then those of the next one. A session
    /// past the last has `MISSING`.
    pub fn fill_column(
        &self,
        column: Column,
        first: usize,
        rows: usize,
        cols: &[u32],
        into: &mut [i64],
    )
        requires size { length into.old ≡ rows * length cols.now }
        requires range { first + rows ≤ 2 ^ 32 }
        ensures values { (i k : ℕ) → i < length cols.now → k < rows
            → slice_index_or into.new (i * rows + k) (pos 0)
            ≡ cell_at self.now (slice_index cols.now i) column (first + k) }
        ensures cells { (i k : ℕ) → i < length cols.now → k < rows
            → IsCell (slice_index_or into.new (i * rows + k) (pos 0)) }
    {
        filling::fill_assets(&self.rows, &self.starts, column, first, rows, cols, into)
    }
}
