//! Rows of labels, with their distinct names and texts.

ghost use Rattle.std.specs.Prelude.{◌≡◌, ◌+◌, ◌<◌, ◌≤◌, ◌^◌, not, [], ◌∷◌, ◌++◌, length, slice_get, Some, All, IfOk, IfSome, OnOk, OnErr};
ghost use Rattle.std.specs.Int.RustNames.{int_le};
ghost use Rattle.pl_spec.specs.AsOf.{labels_by};
ghost use Rattle.pl_spec.specs.Lines.{quote};
ghost use Rattle.pl_assets.specs.Labels.{with_label};
ghost use Rattle.pl_assets.specs.LabelPlaces.{AreNumbered, IsBehind, IsPlace, KeepsFront, row_at, shown_rows, text_in};
ghost use Rattle.pl_assets.specs.LabelRowsShown.{shown_at};
ghost use Rattle.pl_spec.specs.Limits.{most_labels};

use crate::labels::texts::{LabelTexts, Texts};
use std::alloc::{AllocError, Global};

// A row of labels: the number of its name, its column, its first day and the code of its text,
// which an empty text lacks.
#[derive(Clone, Copy, Debug)]
pub(crate) struct Place {
    pub(crate) name: u32,
    pub(crate) col: u32,
    pub(crate) start: i32,
    pub(crate) code: Option<u32>,
}

/// A row of labels: from the day `start` on, counted from 1970-01-01, the asset in the column has the text
/// under the name; an empty one says that it has none. `field` is the text as a field of csv.
#[derive(Clone, Copy, Debug)]
pub struct LabelAt<'a> {
    pub name: &'a [u8],
    pub col: u32,
    pub start: i32,
    pub text: &'a [u8],
    pub field: &'a [u8],
}

// Rows of labels, one after the other, with their distinct names and texts.
#[derive(Debug, Drop)]
pub(crate) struct LabelRows {
    pub(crate) names: Texts,
    pub(crate) texts: LabelTexts,
    pub(crate) places: Vec<Place>,
}

impl LabelRows {
    // No rows.
    pub(crate) fn new(alloc: Global) -> LabelRows
        ensures names { result.names ≡ [] }
        ensures texts { result.texts ≡ [] }
        ensures places { result.places.items ≡ [] }
    {
        LabelRows {
            names: Texts::new(alloc),
            texts: LabelTexts::new(alloc),
            places: Vec::new(alloc),
        }
    }

    // The rows that start by the day, with all texts.
    pub(crate) fn cut(&self, alloc: Global, day: i32) -> Result<LabelRows, AllocError>
        requires numbered { AreNumbered self.now }
        requires few { length self.now.places.items ≤ most_labels }
        ensures numbered { IfOk result AreNumbered }
        ensures rows { IfOk result (λ t. shown_rows t ≡ labels_by day (shown_rows self.now)) }
        ensures texts { IfOk result (λ t. t.texts ≡ self.now.texts) }
    {
        let mut rows = LabelRows {
            names: Texts::new(alloc),
            texts: self.texts.copy(alloc)?,
            places: Vec::new(alloc),
        };
        for place in &self.places {
            rows.take(self, place, day)?;
        }
        Ok(rows)
    }

    // A row of others, whose texts these rows have, after these, if it starts by the day.
    fn take(&mut self, from: &LabelRows, place: &Place, day: i32) -> Result<(), AllocError>
        requires numbered { AreNumbered self.old }
        requires few { length self.old.places.items < most_labels }
        requires place { IsPlace from.now.names from.now.texts place.now }
        requires texts { self.old.texts ≡ from.now.texts }
        ensures numbered { OnOk result (AreNumbered self.new) }
        ensures rows { OnOk result (shown_rows self.new ≡ shown_rows self.old
            ++ labels_by day (row_at from.now.names from.now.texts place.now ∷ [])) }
        ensures texts { OnOk result (self.new.texts ≡ from.now.texts) }
        ensures few { OnOk result
            (length self.new.places.items ≤ length self.old.places.items + 1) }
    {
        if starts_later(place, day) {
            return Ok(());
        }
        let name = from.names.text(place.name as usize);
        self.push(name, place.col, place.start, from.text_of(place))?;
        Ok(())
    }

    // The text of a row.
    pub(crate) fn text_of(&self, place: &Place) -> &[u8]
        requires { IsPlace self.now.names self.now.texts place.now }
        ensures { result.now ≡ text_in self.now.texts place.now.code }
    {
        match place.code {
            Some(code) => self.texts.text(code as usize),
            None => &[],
        }
    }

    // The text of a row as a field of csv.
    pub(crate) fn field_of(&self, place: &Place) -> &[u8]
        requires { IsPlace self.now.names self.now.texts place.now }
        ensures { result.now ≡ quote (text_in self.now.texts place.now.code) }
    {
        match place.code {
            Some(code) => self.texts.field(code as usize),
            None => &[],
        }
    }

    // The row of a number, counted from 0.
    pub(crate) fn row(&self, i: usize) -> LabelAt<'_>
        requires places { All (IsPlace self.now.names self.now.texts) self.now.places.items }
        requires within { i < length self.now.places.items }
        ensures row { slice_get (shown_rows self.now) i ≡ Some (shown_at result) }
        ensures field { result.field.now ≡ quote result.text.now }
    {
        let place = &self.places[i];
        LabelAt {
            name: self.names.text(place.name as usize),
            col: place.col,
            start: place.start,
            text: self.text_of(place),
            field: self.field_of(place),
        }
    }

    // One row after the others. Where memory runs out, none is added.
    pub(crate) fn push(
        &mut self,
        name: &[u8],
        col: u32,
        start: i32,
        text: &[u8],
    ) -> Result<Place, AllocError>
        requires numbered { AreNumbered self.old }
        requires few { length self.old.places.items < most_labels }
        ensures numbered { AreNumbered self.new }
        ensures place { IfOk result (λ p. IsBehind self.old self.new p) }
        ensures row { OnOk result (shown_rows self.new
            ≡ shown_rows self.old
            ++ record { name = name.now; col = col; start = start; text = text.now } ∷ []) }
        ensures texts { OnOk result (self.new.texts ≡ with_label self.old.texts text.now) }
        ensures kept { OnErr result (shown_rows self.new ≡ shown_rows self.old) }
        ensures texts_kept { OnErr result (self.new.texts ≡ self.old.texts) }
        ensures places_kept { OnErr result (self.new.places.items ≡ self.old.places.items) }
    {
        let names = self.names.len();
        let texts = self.texts.len();
        let place = self.put(name, col, start, text);
        if place.is_err() {
            self.names.truncate(names);
            self.texts.truncate(texts);
        }
        place
    }

    // The same, but where memory runs out, a name and a text may stay after the others.
    fn put(&mut self, name: &[u8], col: u32, start: i32, text: &[u8]) -> Result<Place, AllocError>
        requires numbered { AreNumbered self.old }
        requires few { length self.old.places.items < most_labels }
        ensures numbered { OnOk result (AreNumbered self.new) }
        ensures place { IfOk result (λ p. IsBehind self.old self.new p) }
        ensures row { OnOk result (shown_rows self.new
            ≡ shown_rows self.old
            ++ record { name = name.now; col = col; start = start; text = text.now } ∷ []) }
        ensures texts { OnOk result (self.new.texts ≡ with_label self.old.texts text.now) }
        ensures front { OnErr result (KeepsFront self.old self.new) }
    {
        let number = self.names.insert(name)? as u32;
        let code = code_of(&mut self.texts, text)?;
        let place = Place {
            name: number,
            col,
            start,
            code,
        };
        self.places.push(place)?;
        Ok(place)
    }
}

fn starts_later(place: &Place, day: i32) -> bool
    ensures { result ≡ not (int_le place.now.start day) }
{
    place.start > day
}

// The code of a text, which is added if it is new; an empty text has none.
fn code_of(texts: &mut LabelTexts, text: &[u8]) -> Result<Option<u32>, AllocError>
    requires { length texts.old ≤ 2 ^ 32 }
    ensures texts { OnOk result (texts.new ≡ with_label texts.old text.now) }
    ensures code { IfOk result (λ code. text_in texts.new code ≡ text.now) }
    ensures known { IfOk result (λ code. IfSome code (λ c. c < length texts.new)) }
    ensures few { length texts.new ≤ 2 ^ 32 }
    ensures err { OnErr result (texts.new ≡ texts.old) }
{
    if text.is_empty() {
        return Ok(None);
    }
    let code = texts.insert(text)?;
    Ok(Some(code as u32))
}
