//! Numbers beside bars, as a company's earnings or a score: each of a name and an asset, from the day on
//! which it was known.
#![tactic(auto)]

ghost use Rattle.std.specs.Prelude.{◌≡◌, ℕ, ◌+◌, ◌<◌, ◌≤◌, [], length, pos, position, slice_get, slice_index_or, bytes_eq, Some, All, IfOk, IfSome, option_map};
ghost use Rattle.pl_spec.specs.AsOf.{column_numbers_by};
ghost use Rattle.pl_spec.specs.Dates.{IsDay};
ghost use Rattle.pl_spec.specs.Rounding.{IsCell};
ghost use Rattle.pl_records.specs.Reading.{Answers};
ghost use Rattle.pl_records.specs.Records.{csv_records};
ghost use Rattle.pl_numbers.specs.Numbers.{AreNumbers, known_on, number_on, numbers_of};
ghost use Rattle.pl_numbers.specs.Beside.{numbers_beside};
ghost use Rattle.pl_numbers.specs.NumberFaults.{fault_of};
ghost use Rattle.pl_numbers.specs.NumberRowsShown.{is_newest_in, shown_at};

mod cut;
mod error;
mod join;
mod last;
pub mod laws;
mod named;
mod order;
mod read;
mod reading;
mod rows;
mod search;
mod seen;
mod stated;
mod table;

pub use error::NumbersError;
use pl_calendar::Sessions;
use pl_fixed::Memory;
use pl_lifetimes::Assets;
pub use pl_spec::Figure;
pub use rows::NumberAt;
use rows::NumberRows;
use std::alloc::Global;
use std::marker::Model;

/// How many numbers there may be.
pub const MOST_NUMBERS: usize = 2_000_000;

/// The numbers of the assets, by name, column and day: at most 2,000,000 rows. Each name has a number, which
/// counts from 0 in the order in which the names first stood in the file.
#[derive(Debug)]
pub struct Numbers {
    rows: NumberRows,
}

// One call lets numbers go, so that no caller's proof goes into their parts.
impl Drop for Numbers {
    fn drop(self) {
        let Numbers { rows: _rows } = self;
    }
}

impl Model for Numbers {
    ghost use Rattle.pl_numbers.specs.Numbers.{NumberTable};
    ghost use Rattle.pl_numbers.specs.NumberPlaces.{IsTable, table_in};

    ghost Value = { NumberTable };

    ghost view = { λ n. table_in n.rows };

    ghost invariant = { λ n. IsTable n.rows };
}

impl Numbers {
    /// No names and no rows.
    pub fn none(alloc: Global) -> Numbers
        ensures names { result.names ≡ [] }
        ensures rows { result.rows ≡ [] }
    {
        Numbers {
            rows: NumberRows::new(alloc),
        }
    }

    /// The numbers of a file: the header `name,sid,known,value`, and in each further record a name, the sid
    /// of an asset, a date and a decimal. From the date on the asset has the number; an empty field says that
    /// it has none.
    pub fn read(alloc: Global, bytes: &[u8], assets: &Assets) -> Result<Numbers, NumbersError>
        // The numbers of the records, or the fault of the first faulty one. Only want of memory may
        // come beside.
        ensures exact { Answers (λ n. n) fault_of result
            (numbers_of assets.now (csv_records bytes.now)) }
        ensures numbers { IfOk result AreNumbers }
        // Each stands in the column of an asset, and each name has a row.
        ensures cols { IfOk result (λ n. All (λ r. r.col < length assets.now) n.rows) }
        ensures named { IfOk result (λ n. length n.names ≤ length n.rows) }
    {
        let rows = table::read_table(alloc, bytes, assets)?;
        Ok(Numbers { rows })
    }

    /// These numbers with those of a second file, which has the form of a first one. A name has rows in one
    /// of the two alone.
    pub fn with_file(
        self,
        alloc: Global,
        bytes: &[u8],
        assets: &Assets,
    ) -> Result<Numbers, NumbersError>
        requires named { length self.names ≤ length self.rows }
        requires cols { All (λ r. r.col < length assets.now) self.rows }
        ensures exact { Answers (λ n. n) fault_of result
            (numbers_beside self assets.now (csv_records bytes.now)) }
        ensures cols { IfOk result (λ n. All (λ r. r.col < length assets.now) n.rows) }
    {
        let Numbers { rows: first } = self;
        let rows = join::with_file(alloc, first, bytes, assets)?;
        Ok(Numbers { rows })
    }

    /// The rows that were known by a day, counted from 1970-01-01. All names stay, so that each keeps its
    /// number. The only error is want of memory.
    pub fn cut(&self, alloc: Global, day: i32) -> Result<Numbers, Memory>
        ensures rows { IfOk result (λ n. n.rows ≡ column_numbers_by day self.now.rows) }
        ensures names { IfOk result (λ n. n.names ≡ self.now.names) }
    {
        let rows = cut::rows_by(alloc, &self.rows, day)?;
        Ok(Numbers { rows })
    }

    /// How many rows there are. No two of them have one name, column and day.
    pub fn len(&self) -> usize
        ensures length { result ≡ length self.now.rows }
        ensures numbers { AreNumbers self.now }
    {
        self.rows.places.len()
    }

    /// The row of a place among them, from 0.
    pub fn row(&self, i: usize) -> NumberAt<'_>
        requires { i < length self.now.rows }
        ensures row { slice_get self.now.rows i ≡ Some (shown_at result) }
        ensures cell { IsCell result.value }
    {
        self.rows.row(i)
    }

    /// Whether of the rows with the name and the column of row i none that was known by the day, counted from
    /// 1970-01-01, was known later than row i.
    pub fn is_newest(&self, i: usize, day: i32) -> bool
        requires { i < length self.now.rows }
        ensures { option_map (is_newest_in self.now.rows day) (slice_get self.now.rows i) ≡ Some result }
    {
        search::is_newest(&self.rows, i, day)
    }

    /// The number of a name, if a row has it.
    pub fn name_of(&self, name: &[u8]) -> Option<u32>
        ensures within { IfSome result (λ number. number < length self.now.names) }
        ensures exact { result ≡ position (bytes_eq name.now) self.now.names }
    {
        match self.rows.names.number_of(name) {
            Some(number) => Some(number as u32),
            None => None,
        }
    }

    /// What is read of a column under a name on a day, in the row that was known last by then; missing where
    /// there is none.
    pub fn number_on(&self, figure: Figure, name: u32, col: usize, day: i32) -> i64
        requires { name < length self.now.names }
        ensures value { result
            ≡ number_on figure self.now.rows (slice_index_or self.now.names name []) col day }
        ensures cell { IsCell result }
    {
        search::number_on(&self.rows, figure, name, col, day)
    }

    /// The day from which that row counts, where there is one.
    pub fn known_on(&self, name: u32, col: usize, day: i32) -> Option<i32>
        requires { name < length self.now.names }
        ensures exact { result
            ≡ known_on self.now.rows (slice_index_or self.now.names name []) col day }
        ensures day { IfSome result IsDay }
    {
        search::known_on(&self.rows, name, col, day)
    }

    /// Writes what is read of a column under a name on sessions from the first one on. The rows of the column
    /// are gone over once.
    pub fn fill(
        &self,
        figure: Figure,
        name: u32,
        col: usize,
        sessions: &Sessions,
        first: usize,
        into: &mut [i64],
    )
        requires name { name < length self.now.names }
        requires range { first + length into.old ≤ length sessions.now }
        ensures values { (k : ℕ) → k < length into.old → slice_index_or into.new k (pos 0)
            ≡ number_on figure self.now.rows (slice_index_or self.now.names name []) col
            (slice_index_or sessions.now (first + k) (pos 0)) }
        ensures cells { (k : ℕ) → k < length into.old
            → IsCell (slice_index_or into.new k (pos 0)) }
    {
        search::fill(&self.rows, figure, name, col, sessions, first, into);
    }
}
