//! The labels of assets: read from a file or put together row by row, and looked up by day.

ghost use Rattle.std.specs.Prelude.{◌≡◌, ◌<◌, ◌≤◌, ◌++◌, ◌∷◌, ◌==◌, [], length, position, slice_get, slice_index_or, bytes_eq, Some, All, Contains, IfOk, IfSome, IsTrue, OnOk, OnErr, option_map, option_and_then};
ghost use Rattle.std.specs.List.{list_any, position_or_len};
ghost use Rattle.pl_records.specs.Reading.{Answers};
ghost use Rattle.pl_spec.specs.AsOf.{labels_by};
ghost use Rattle.pl_spec.specs.Lines.{quote};
ghost use Rattle.pl_records.specs.Records.{csv_records};
ghost use Rattle.pl_lifetimes.specs.Assets.{sid_of};
ghost use Rattle.pl_assets.specs.Labels.{AreLabels, MayFollow, is_printable, label_on, label_row, labels_of, names_of, no_labels, with_label};
ghost use Rattle.pl_assets.specs.LabelFaults.{fault_of};
ghost use Rattle.pl_assets.specs.LabelRowsShown.{is_newest_in, shown_at};
ghost use Rattle.pl_spec.specs.Limits.{most_label_bytes};

mod error;
mod order;
mod reading;
mod rows;
mod texts;

pub use error::LabelsError;
use pl_fixed::Memory;
use pl_lifetimes::Assets;
pub use rows::LabelAt;
use rows::LabelRows;
use std::alloc::Global;
use std::marker::Model;
pub use texts::Texts;

/// The labels of the assets, by column: at most 200,000 rows. A label has a name, and each name has a number;
/// each text that is not empty has a code. Both count from 0, in the order in which the rows came.
#[derive(Debug)]
pub struct Labels {
    rows: LabelRows,
    // The numbers of the rows, by name, then column and then start.
    order: Vec<u32>,
}

// One call lets labels go, so that no caller's proof goes into their parts.
impl Drop for Labels {
    fn drop(self) {
        let Labels {
            rows: _rows,
            order: _order,
        } = self;
    }
}

impl Model for Labels {
    ghost use Rattle.pl_assets.specs.Labels.{LabelTable};
    ghost use Rattle.pl_assets.specs.LabelPlaces.{IsTable, table_in};

    ghost Value = { LabelTable };

    ghost view = { λ l. table_in l.rows };

    ghost invariant = { λ l. IsTable l.rows l.order.items };
}

impl Labels {
    /// No labels: no asset has one under any name.
    pub fn none(alloc: Global) -> Labels
        ensures { result ≡ no_labels }
    {
        Labels {
            rows: LabelRows::new(alloc),
            order: Vec::new(alloc),
        }
    }

    /// The labels of a file: the header `name,sid,start,label`, and in each further record a name, the sid of
    /// an asset, a date and a label of at most 64 bytes. From the date on the asset has the label; an empty
    /// one says that it has none. The error is the first fault of the file, or want of memory.
    #[tactic(auto, unfolding(crate::specs::Labels::labels_of))]
    pub fn read(alloc: Global, bytes: &[u8], assets: &Assets) -> Result<Labels, LabelsError>
        // The labels of the records, or the fault of the first faulty one. Only want of memory may
        // come beside.
        ensures exact { Answers (λ l. l) fault_of result
            (labels_of assets.now (csv_records bytes.now)) }
        ensures labels { IfOk result AreLabels }
        // Each stands in the column of an asset.
        ensures cols { IfOk result (λ l. All (λ r. r.col < length assets.now) l.rows) }
    {
        let rows = reading::read_rows(alloc, bytes, assets)?;
        let order = order::order_of(alloc, &rows.places)?;
        Ok(Labels { rows, order })
    }

    /// Puts one row after the others: from the day `start` on, counted from 1970-01-01, the asset of the sid
    /// has the label under the name. The error is want of memory, or of the codes of 32 bits; then the labels
    /// stay as they were.
    pub fn add(
        &mut self,
        assets: &Assets,
        name: &[u8],
        sid: u32,
        start: i32,
        label: &[u8],
    ) -> Result<(), Memory>
        requires asset { IsTrue (list_any (λ a. sid_of a == sid) assets.now) }
        requires row { MayFollow self.old.rows (label_row assets.now name.now sid start label.now) }
        ensures row { OnOk result (self.new.rows
            ≡ self.old.rows ++ label_row assets.now name.now sid start label.now ∷ []) }
        // A text that is new and not empty stands after the others.
        ensures texts { OnOk result (self.new.texts ≡ with_label self.old.texts label.now) }
        ensures kept { OnErr result (self.new ≡ self.old) }
    {
        let col = column_of(assets, sid);
        self.order.reserve(1)?;
        self.rows.push(name, col, start, label)?;
        order::insert_last(&self.rows.places, &mut self.order);
        Ok(())
    }

    /// The rows that start by the day, counted from 1970-01-01. All texts stay, so that each keeps its code.
    /// The only error is want of memory.
    pub fn cut(&self, alloc: Global, day: i32) -> Result<Labels, Memory>
        ensures rows { IfOk result (λ l. l.rows ≡ labels_by day self.now.rows) }
        ensures texts { IfOk result (λ l. l.texts ≡ self.now.texts) }
    {
        let rows = self.rows.cut(alloc, day)?;
        let order = order::order_of(alloc, &rows.places)?;
        Ok(Labels { rows, order })
    }

    /// How many rows there are. No two of them have one name, column and start.
    pub fn len(&self) -> usize
        ensures length { result ≡ length self.now.rows }
        ensures labels { AreLabels self.now }
    {
        self.rows.places.len()
    }

    /// The row of a place among them, from 0, in the order of the file.
    pub fn row(&self, i: usize) -> LabelAt<'_>
        requires { i < length self.now.rows }
        ensures row { slice_get self.now.rows i ≡ Some (shown_at result) }
        ensures field { result.field.now ≡ quote result.text.now }
    {
        self.rows.row(i)
    }

    /// Whether of the rows with the name and the column of row i none that starts by the day, counted from
    /// 1970-01-01, starts later than row i.
    pub fn is_newest(&self, i: usize, day: i32) -> bool
        requires { i < length self.now.rows }
        ensures { option_map (is_newest_in self.now.rows day) (slice_get self.now.rows i) ≡ Some result }
    {
        order::is_newest(&self.rows, &self.order, i, day)
    }

    /// The number of a name, from 0; `None` where no row has it.
    pub fn name_of(&self, name: &[u8]) -> Option<u32>
        ensures within { IfSome result (λ number. number < length (names_of self.now.rows)) }
        ensures exact { result ≡ position (bytes_eq name.now) (names_of self.now.rows) }
    {
        match self.rows.names.number_of(name) {
            Some(number) => Some(number as u32),
            None => None,
        }
    }

    /// The code of the label of the asset in a column, under the name of a number, on a day counted from
    /// 1970-01-01: that of the row that started last. `None` where no row started by the day, or the text of
    /// that row is empty.
    pub fn label_at(&self, name: u32, col: usize, day: i32) -> Option<u32>
        requires { name < length (names_of self.now.rows) }
        ensures code { result ≡ option_and_then (λ text. position (bytes_eq text) self.now.texts)
            (label_on self.now.rows (slice_index_or (names_of self.now.rows) name []) col day) }
        ensures within { IfSome result (λ code. code < length self.now.texts) }
        // Each label has a code, so that none is missing.
        ensures known { IfSome
            (label_on self.now.rows (slice_index_or (names_of self.now.rows) name []) col day)
            (Contains self.now.texts) }
    {
        match order::last_started(&self.rows, &self.order, name, col, day) {
            Some(place) => place.code,
            None => None,
        }
    }

    /// The text of a code: 1 to 64 bytes from the space to `~`.
    pub fn text(&self, code: u32) -> &[u8]
        requires { code < length self.now.texts }
        ensures exact { result.now ≡ slice_index_or self.now.texts code [] }
        ensures printable { IsTrue (is_printable result.now) }
        ensures short { length result.now ≤ most_label_bytes }
    {
        self.rows.texts.text(code as usize)
    }

    /// The text of a code as a field of csv: in quotes, each quote in it doubled, where it holds a
    /// comma or a quote; a label holds no end of a line.
    pub fn csv_text(&self, code: u32) -> &[u8]
        requires { code < length self.now.texts }
        ensures { result.now ≡ quote (slice_index_or self.now.texts code []) }
    {
        self.rows.texts.field(code as usize)
    }
}

// The column of the asset that has the sid.
fn column_of(assets: &Assets, sid: u32) -> u32
    requires { IsTrue (list_any (λ a. sid_of a == sid) assets.now) }
    ensures { result ≡ position_or_len (λ a. sid_of a == sid) assets.now }
{
    match assets.col_of(sid) {
        Some(col) => col as u32,
        None => unreachable!(),
    }
}
