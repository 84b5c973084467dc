//! Adjustments: what splits, mergers, dividends and revisions make of earlier bars, and when.
#![tactic(auto)]

ghost use Rattle.std.specs.Prelude.{◌≡◌, ◌<◌, ◌≤ℤ◌, ◌&&◌, [], length, map, filter, All, AllPairs, IfOk, OnErr};
ghost use Rattle.std.specs.Int.RustNames.{int_lt, int_le};
ghost use Rattle.pl_records.specs.Reading.{Answers};
ghost use Rattle.pl_records.specs.Records.{csv_records};
ghost use Rattle.pl_spec.specs.AsOf.{adjustments_by};
ghost use Rattle.pl_adjust.specs.Events.{PutCells, PutsCell, event_of};
ghost use Rattle.std.specs.List.Sorted.{IsSorted};
ghost use Rattle.pl_adjust.specs.Columns.{IsByPlace, AreByDay, events_at, place_cmp};
ghost use Rattle.pl_adjust.specs.Faults.{fault_of};
ghost use Rattle.pl_adjust.specs.Revised.{AreKnown, revised_by, revised_columns, revised_in};
ghost use Rattle.pl_adjust.specs.RevisionFaults as revision_faults;
ghost use Rattle.pl_adjust.specs.Rows.{row_of};
ghost use Rattle.pl_adjust.specs.Tables.{adjustments_in};

mod adjust;
mod columns;
mod cut;
mod error;
pub mod laws;
mod revised;
mod revisions;
mod rows;
mod seen;

pub use adjust::{Adjust, Change, Effect, effect_for, ratio_for};
use columns::Row;
pub use error::AdjustError;
use pl_calendar::Sessions;
use pl_fixed::Memory;
use pl_lifetimes::Assets;
pub use pl_spec::AdjustmentKind as Kind;
use pl_spec::RawAdjust;
pub use revisions::{MOST_REVISIONS, RevisionsError};
use revisions::{Revision, read_revisions};
pub use seen::seen_now;
use std::alloc::{AllocError, Global};
use std::marker::Model;

/// How many rows the three tables may have together. The limit is this project's own.
pub const MOST_ROWS: usize = 1_000_000;

/// The adjustments of the assets, by asset column, which is the place of an asset by ascending sid, from 0.
/// Those of an asset are in the order in which they act.
#[derive(Debug, Drop)]
pub struct Adjustments {
    cols: Vec<usize>,
    // Where the adjustments of the first columns begin, so that they need no search.
    starts: Vec<usize>,
    adjusts: Vec<Adjust>,
}

impl Model for Adjustments {
    ghost use Rattle.std.specs.Prelude.{List};
    ghost use Rattle.pl_spec.specs.Parts.{ColumnAdjustment};
    ghost use Rattle.pl_adjust.specs.Columns.{AreKept, AreStarts, in_columns};

    ghost Value = { List ColumnAdjustment };

    ghost view = { λ a. in_columns a.cols.items a.adjusts.items };

    ghost invariant = { λ a. AreKept a.cols.items a.adjusts.items × AreStarts a.cols.items a.starts.items };
}

impl Adjustments {
    /// No adjustments: each bar is seen as it was written.
    pub fn none(alloc: Global) -> Adjustments
        ensures { result ≡ [] }
    {
        Adjustments {
            cols: Vec::new(alloc),
            starts: Vec::new(alloc),
            adjusts: Vec::new(alloc),
        }
    }

    /// The adjustments of the rows of three tables. A row acts from the day of its effective time on, which
    /// is in seconds since 1970-01-01. The rows are tested in the order of the tables and then in their own;
    /// those whose sid is of no asset are tested too, and left out. The error is the first fault, or want of
    /// memory.
    pub fn from_rows(
        alloc: Global,
        assets: &Assets,
        splits: &[RawAdjust],
        mergers: &[RawAdjust],
        dividends: &[RawAdjust],
    ) -> Result<Adjustments, AdjustError>
        // The adjustments of the rows, or their first fault. Only want of memory may come beside.
        ensures exact { Answers (λ a. a) fault_of result
            (adjustments_in assets.now splits.now mergers.now dividends.now) }
        ensures in_order { IfOk result AreByDay }
        // Each is of the column of an asset.
        ensures cols { IfOk result (All (λ x. x.col < length assets.now)) }
    {
        let rows = rows::rows_of(alloc, assets, splits, mergers, dividends)?;
        let made = Adjustments::of_rows(alloc, rows, assets.len())?;
        Ok(made)
    }

    /// Adds the revisions of a file: from the day on which it is known each overwrites the cell that it
    /// names. The header is `sid,session,column,value,known`; each further record has the sid of an asset,
    /// the date of a session, the name of a bar column, a decimal of at least 0 or an empty field, which
    /// takes the cell away, and a later date. The error is the first fault of the file, or want of memory,
    /// and after it the adjustments are as before. Revisions are this project's own.
    pub fn add_revisions(
        &mut self,
        bytes: &[u8],
        sessions: &Sessions,
        assets: &Assets,
    ) -> Result<(), RevisionsError>
        // These adjustments and the revisions of the records, or the fault of the first faulty one. Only
        // want of memory may come beside.
        ensures exact { Answers (λ x. self.new) revision_faults.fault_of result
            (revised_in sessions.now assets.now self.old (csv_records bytes.now)) }
        ensures kept { OnErr result (self.new ≡ self.old) }
        ensures cols { All (λ x. x.col < length assets.now) self.old
            → All (λ x. x.col < length assets.now) self.new }
    {
        let alloc = *self.cols.allocator();
        let revisions = read_revisions(alloc, bytes, sessions, assets)?;
        *self = self.with_revisions(alloc, &revisions, assets)?;
        Ok(())
    }

    // These adjustments and the revisions.
    fn with_revisions(
        &self,
        alloc: Global,
        revisions: &[Revision],
        assets: &Assets,
    ) -> Result<Adjustments, AllocError>
        requires known { AreKnown assets.now revisions.now }
        requires cells { All (λ x. PutsCell x.event) (revised_columns assets.now revisions.now) }
        ensures { IfOk result (λ made. made ≡ revised_by assets.now self.now revisions.now) }
    {
        let mut rows = revised::rows_of(alloc, &self.cols, &self.adjusts)?;
        revised::add_rows(assets, revisions, &mut rows)?;
        Adjustments::of_rows(alloc, rows, assets.len())
    }

    // The adjustments of rows, and where those of so many columns begin.
    fn of_rows(alloc: Global, rows: Vec<Row>, count: usize) -> Result<Adjustments, AllocError>
        requires { All (λ x. PutsCell x.event) (map row_of rows.items) }
        ensures { IfOk result (λ made. IsByPlace (map row_of rows.items) made) }
    {
        let sorted = columns::by_place(rows)?;
        Adjustments::of_sorted(alloc, &sorted, count)
    }

    // The same of rows that stand by column and day.
    fn of_sorted(alloc: Global, rows: &[Row], count: usize) -> Result<Adjustments, AllocError>
        requires sorted { IsSorted place_cmp (map row_of rows.now) }
        requires cells { All (λ x. PutsCell x.event) (map row_of rows.now) }
        ensures { IfOk result (λ made. made ≡ map row_of rows.now) }
    {
        let cols = columns::cols_of(alloc, rows)?;
        let adjusts = columns::adjusts_of(alloc, rows)?;
        let starts = columns::starts_of(alloc, &cols, count)?;
        Ok(Adjustments {
            cols,
            starts,
            adjusts,
        })
    }

    /// The adjustments whose day, counted from 1970-01-01, is at most `day`, copied. The only error is want
    /// of memory.
    pub fn cut(&self, alloc: Global, day: i32) -> Result<Adjustments, Memory>
        ensures { IfOk result (λ a. a ≡ adjustments_by day self.now) }
    {
        let rows = cut::rows_by(alloc, &self.cols, &self.adjusts, day)?;
        let kept = Adjustments::of_sorted(alloc, &rows, self.starts.len())?;
        Ok(kept)
    }

    /// How many adjustments there are. Those of an asset are by day, and what overwrites a cell is a cell.
    pub fn len(&self) -> usize
        ensures length { result ≡ length self.now }
        ensures in_order { AreByDay self.now }
        ensures cells { All (λ x. PutsCell x.event) self.now }
    {
        self.cols.len()
    }

    /// The adjustments of the asset in a column in the order in which they act: by day, on one day splits
    /// before mergers, these before dividends and these before revisions, each in the order of its table or
    /// file.
    pub fn of_col(&self, col: usize) -> &[Adjust]
        ensures events { map event_of result.now ≡ events_at self.now col }
        ensures in_order { AllPairs (λ a b. a.day ≤ℤ b.day) result.now }
        ensures cells { PutCells (map event_of result.now) }
    {
        columns::of_col(&self.cols, &self.starts, &self.adjusts, col)
    }

    /// Those of them whose days, counted from 1970-01-01, are later than `after` and at most `to`, in that
    /// order.
    pub fn events_between(&self, col: usize, after: i32, to: i32) -> &[Adjust]
        ensures events { map event_of result.now
            ≡ filter (λ e. int_lt after e.day && int_le e.day to) (events_at self.now col) }
        ensures cells { PutCells (map event_of result.now) }
    {
        seen::between(self.of_col(col), after, to)
    }
}
