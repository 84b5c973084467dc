//! The number of a column on a day, and its age.
ghost use Rattle.std.specs.Prelude.{◌≡◌, ◌+◌, ◌<◌, ◌≤◌, ◌≤ℤ◌, [], ℕ, ℤ, FitsSigned, IsTrue, length, nat_le, pos, slice_get, slice_index_or, Some, IfSome, option_map};
ghost use Rattle.std.specs.Int.{w32};
ghost use Rattle.pl_spec.specs.Dates.{IsDay};
ghost use Rattle.pl_spec.specs.Rounding.{IsCell};
ghost use Rattle.pl_assets.specs.LabelPlaces.{key};
ghost use Rattle.pl_numbers.specs.Numbers.{known_on, number_on};
ghost use Rattle.pl_numbers.specs.NumberPlaces.{AllLow, IsNewest, IsTable, KeyPoint, Rise, key_of, shown_rows};
ghost use Rattle.pl_numbers.specs.NumberRowsShown.{is_newest_in};

use crate::read::read_of;
use crate::rows::{NumberRows, Place, key, key_of};
use pl_calendar::Sessions;
use pl_fixed::MISSING;
use pl_spec::Figure;

// What is read of the row under the name that was known last in the column by the day.
pub(crate) fn number_on(rows: &NumberRows, figure: Figure, name: u32, col: usize, day: i32) -> i64
    requires table { IsTable rows.now }
    requires name { name < length rows.now.names }
    ensures value { result
        ≡ number_on figure (shown_rows rows.now) (slice_index_or rows.now.names name []) col day }
    ensures cell { IsCell result }
{
    let end = point_of(&rows.places, key(name, col, day));
    value_before(rows, figure, name, col, end, day)
}

// The day from which the row under the name counts that was known last in the column by the day.
pub(crate) fn known_on(rows: &NumberRows, name: u32, col: usize, day: i32) -> Option<i32>
    requires table { IsTable rows.now }
    requires name { name < length rows.now.names }
    ensures exact { result ≡ known_on (shown_rows rows.now) (slice_index_or rows.now.names name []) col day }
    ensures day { IfSome result IsDay }
{
    let end = point_of(&rows.places, key(name, col, day));
    let newest = newest_before(rows, name, col, end);
    match newest {
        Some(place) => Some(place.known),
        None => None,
    }
}

// Whether no row of the name and the column of row i, which was known by the day, was known later than it.
pub(crate) fn is_newest(rows: &NumberRows, i: usize, day: i32) -> bool
    requires table { IsTable rows.now }
    requires within { i < length rows.now.places.items }
    ensures { option_map (is_newest_in (shown_rows rows.now) day) (slice_get (shown_rows rows.now) i)
        ≡ Some result }
{
    let place = rows.places[i];
    match known_on(rows, place.name, place.col as usize, day) {
        Some(known) => known <= place.known,
        None => true,
    }
}

// How many of the rows have no greater key.
fn point_of(places: &[Place], key: u128) -> usize
    requires { Rise places.now }
    ensures within { result ≤ length places.now }
    ensures point { KeyPoint places.now key result }
{
    places.partition_point(|place| key_of(place) <= key)
}

// The same, from a place on before which they have none.
fn point_onward(places: &[Place], from: usize, key: u128) -> usize
    requires rise { Rise places.now }
    requires within { from ≤ length places.now }
    requires low { AllLow places.now key from }
    ensures within { result ≤ length places.now }
    ensures point { KeyPoint places.now key result }
{
    let mut at = from;
    while at < places.len() && is_low(&places[at], key) {
        at += 1;
    }
    at
}

fn is_low(place: &Place, key: u128) -> bool
    ensures { result ≡ nat_le (key_of place.now) key }
{
    key_of(place) <= key
}

// The last row before a place, where it is of the name and the column: of a day whose key has its point
// there, that is the row that was known last.
fn newest_before(rows: &NumberRows, name: u32, col: usize, end: usize) -> Option<Place>
    requires table { IsTable rows.now }
    requires name { name < length rows.now.names }
    requires within { end ≤ length rows.now.places.items }
    ensures newest { (day : ℤ) → FitsSigned w32 day → KeyPoint rows.now.places.items (key name col day) end
        → IsNewest rows.now name col day result }
    ensures by_then { (day : ℤ) → FitsSigned w32 day → KeyPoint rows.now.places.items (key name col day) end
        → IfSome result (λ p. p.known ≤ℤ day) }
    ensures cell { IfSome result (λ p. IsCell p.value) }
    ensures day { IfSome result (λ p. IsDay p.known) }
{
    if end == 0 {
        return None;
    }
    let place = rows.places[end - 1];
    if place.name == name && place.col as usize == col {
        Some(place)
    } else {
        None
    }
}

// What is read of that row on the day.
fn value_before(
    rows: &NumberRows,
    figure: Figure,
    name: u32,
    col: usize,
    end: usize,
    day: i32,
) -> i64
    requires table { IsTable rows.now }
    requires name { name < length rows.now.names }
    requires within { end ≤ length rows.now.places.items }
    requires point { KeyPoint rows.now.places.items (key name col day) end }
    ensures value { result
        ≡ number_on figure (shown_rows rows.now) (slice_index_or rows.now.names name []) col day }
    ensures cell { IsCell result }
{
    match newest_before(rows, name, col, end) {
        Some(place) => read_of(figure, place.value, place.known, day),
        None => MISSING,
    }
}

// Writes the numbers of a column on sessions from the first one on, whose days ascend, so that the rows are
// gone over once.
pub(crate) fn fill(
    rows: &NumberRows,
    figure: Figure,
    name: u32,
    col: usize,
    sessions: &Sessions,
    first: usize,
    into: &mut [i64],
)
    requires table { IsTable rows.now }
    requires name { name < length rows.now.names }
    requires range { first + length into.old ≤ length sessions.now }
    ensures values { (k : ℕ) → k < length into.old → slice_index_or into.new k (pos 0)
        ≡ number_on figure (shown_rows rows.now) (slice_index_or rows.now.names name []) col
        (slice_index_or sessions.now (first + k) (pos 0)) }
    ensures cells { (k : ℕ) → k < length into.old → IsCell (slice_index_or into.new k (pos 0)) }
{
    let _count = sessions.len();
    let mut at = point_of(&rows.places, key(name, col, i32::MIN));
    for k in 0..into.len() {
        let day = sessions.day(first + k);
        at = point_onward(&rows.places, at, key(name, col, day));
        into[k] = value_before(rows, figure, name, col, at, day);
    }
}
