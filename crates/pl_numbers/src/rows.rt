//! Rows of numbers, as they are kept.
ghost use Rattle.std.specs.Prelude.{◌≡◌, ◌+◌, ◌∷◌, ◌++◌, ◌<◌, ◌≤◌, ◌^◌, [], length, pos, ◌+ℤ◌, slice_get, Some, bytes_eq, OnOk};
ghost use Rattle.std.specs.List.{position_or_len};
ghost use Rattle.pl_spec.specs.Limits.{most_numbers};
ghost use Rattle.pl_assets.specs.LabelPlaces.{key};
ghost use Rattle.pl_assets.specs.Labels.{with_text};
ghost use Rattle.pl_spec.specs.Rounding.{IsCell};
ghost use Rattle.pl_numbers.specs.NumberPlaces.{AreNumbered, IsTable, key_next, key_of, shown_rows};
ghost use Rattle.pl_numbers.specs.NumberRowsShown.{shown_at};

use crate::reading::NextNumber;
use pl_assets::Texts;
use std::alloc::{AllocError, Global};

// A row of numbers: the number of its name, its column, the day from which it counts and its cell.
#[derive(Clone, Copy, Debug)]
pub(crate) struct Place {
    pub(crate) name: u32,
    pub(crate) col: u32,
    pub(crate) known: i32,
    pub(crate) value: i64,
}

const _: () = prove!(size_of::<Place>() == 24);

/// A row of numbers: from the day `known` on, counted from 1970-01-01, the asset in the column has the value
/// under the name, in millionths; `MISSING` says that it has none.
#[derive(Clone, Copy, Debug)]
pub struct NumberAt<'a> {
    pub name: &'a [u8],
    pub col: u32,
    pub known: i32,
    pub value: i64,
}

// Rows of numbers with their distinct names.
#[derive(Debug)]
pub(crate) struct NumberRows {
    pub(crate) names: Texts,
    pub(crate) places: Vec<Place>,
}

// One call lets rows go, so that no exit of their readers goes into their parts.
impl Drop for NumberRows {
    fn drop(self) {
        let NumberRows {
            names: _names,
            places: _places,
        } = self;
    }
}

impl NumberRows {
    // No rows.
    pub(crate) fn new(alloc: Global) -> NumberRows
        ensures names { result.names ≡ [] }
        ensures places { result.places.items ≡ [] }
    {
        NumberRows {
            names: Texts::new(alloc),
            places: Vec::new(alloc),
        }
    }

    // The names, and the rows under their numbers.
    pub(crate) fn into_parts(self) -> (Texts, Vec<Place>)
        ensures names { result.0 ≡ self.names }
        ensures places { result.1 ≡ self.places }
    {
        let NumberRows { names, places } = self;
        (names, places)
    }

    // The row of a place, from 0.
    pub(crate) fn row(&self, i: usize) -> NumberAt<'_>
        requires table { IsTable self.now }
        requires within { i < length self.now.places.items }
        ensures row { slice_get (shown_rows self.now) i ≡ Some (shown_at result) }
        ensures cell { IsCell result.value }
    {
        let place = self.places[i];
        NumberAt {
            name: self.names.text(place.name as usize),
            col: place.col,
            known: place.known,
            value: place.value,
        }
    }

    // The number of a name; that of a new one is how many there are. In most files a record has the name of
    // the record before, so that is tried first.
    pub(crate) fn number_of(&self, name: &[u8]) -> usize
        requires { AreNumbered self.now }
        ensures { result ≡ position_or_len (bytes_eq name.now) self.now.names }
    {
        if let [.., last] = self.places.as_slice() {
            let same = last.name as usize;
            if self.names.text(same) == name {
                return same;
            }
        }
        match self.names.number_of(name) {
            Some(number) => number,
            None => self.names.len(),
        }
    }

    // One row after the others.
    pub(crate) fn push(&mut self, name: &[u8], next: NextNumber) -> Result<(), AllocError>
        requires numbered { AreNumbered self.old }
        requires name { next.name ≡ position_or_len (bytes_eq name.now) self.old.names }
        requires col { next.col < 2 ^ 32 }
        ensures numbered { OnOk result (AreNumbered self.new) }
        ensures rows { OnOk result (shown_rows self.new ≡ shown_rows self.old
            ++ record { name = name.now; col = next.col; known = next.known; value = next.value } ∷ []) }
        ensures places { OnOk result (self.new.places.items ≡ self.old.places.items
            ++ record { name = next.name; col = next.col; known = next.known; value = next.value } ∷ []) }
    {
        put_name(&mut self.names, name, next.name)?;
        self.places.push(Place {
            name: next.name,
            col: next.col,
            known: next.known,
            value: next.value,
        })?;
        Ok(())
    }
}

// Puts a name after the others, if its number says that it is new.
fn put_name(names: &mut Texts, name: &[u8], number: u32) -> Result<(), AllocError>
    requires { number ≡ position_or_len (bytes_eq name.now) names.old }
    ensures { OnOk result (names.new ≡ with_text names.old name.now) }
{
    if (number as usize) < names.len() {
        return Ok(());
    }
    names.insert(name)?;
    Ok(())
}

// A number that rises by the number of the name, then by column, and then by day.
pub(crate) fn key(name: u32, col: usize, day: i32) -> u128
    ensures { result ≡ key name col day }
{
    ((name as u128) << 96) + ((col as u128) << 32) + days_on(day) as u128
}

// Days are counted from the first one that there is.
fn days_on(day: i32) -> u32
    ensures { pos result ≡ day +ℤ pos (2 ^ 31) }
{
    day.cast_unsigned().wrapping_add(1 << 31)
}

pub(crate) fn key_of(place: &Place) -> u128
    ensures { result ≡ key_of place.now }
{
    key(place.name, place.col as usize, place.known)
}
