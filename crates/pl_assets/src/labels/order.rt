//! The order of label rows by name, column and day, in which a label is searched for.

ghost use Rattle.std.specs.Prelude.{◌≡◌, ◌+◌, ◌^◌, ◌-◌, ◌<◌, ◌≤◌, length, pos, ◌+ℤ◌, vec_len, vec_capacity, slice_get, Some, IfOk, option_map};
ghost use Rattle.pl_records.specs.Sorted.{HasOwnKeys, sorted_by};
ghost use Rattle.pl_assets.specs.LabelPlaces.{AreNumbered, Ascend, IsLastStarted, IsOrder, KeyPoint, key, key_at, key_of, numbers, shown_rows};
ghost use Rattle.pl_assets.specs.LabelRowsShown.{is_newest_in};
ghost use Rattle.pl_spec.specs.Limits.{most_labels};

use crate::labels::rows::{LabelRows, Place};
use std::alloc::{AllocError, Global};

// A number that rises by the number of the name, then by column, and then by day.
pub(crate) fn key(name: u32, col: usize, day: i32) -> u128
    ensures { result ≡ key name col day }
{
    ((name as u128) << 96) + ((col as u128) << 32) + days_on(day) as u128
}

// Days are counted from the first one that there is.
fn days_on(day: i32) -> u32
    ensures { pos result ≡ day +ℤ pos (2 ^ 31) }
{
    day.cast_unsigned().wrapping_add(1 << 31)
}

pub(crate) fn key_of(place: &Place) -> u128
    ensures { result ≡ key_of place.now }
{
    key(place.name, place.col as usize, place.start)
}

// The key of a row by its number, 0 where there is none.
#[tactic(auto, unfolding(crate::specs::LabelPlaces::key_at))]
fn key_at(places: &[Place], i: u32) -> u128
    ensures { result ≡ key_at places.now i }
{
    match places.get(i as usize) {
        Some(place) => key_of(place),
        None => 0,
    }
}

// The numbers of all rows, by the keys of the rows.
pub(crate) fn order_of(alloc: Global, places: &[Place]) -> Result<Vec<u32>, AllocError>
    requires few { length places.now ≤ most_labels }
    requires own { HasOwnKeys key_of places.now }
    ensures { IfOk result (λ v. IsOrder places.now (length places.now) v.items) }
{
    sorted_numbers(alloc, places)
}

fn sorted_numbers(alloc: Global, places: &[Place]) -> Result<Vec<u32>, AllocError>
    requires few { length places.now ≤ most_labels }
    requires own { HasOwnKeys key_of places.now }
    ensures { IfOk result (λ v.
        v.items ≡ sorted_by (key_at places.now) (numbers (length places.now))) }
{
    let mut order = numbers_below(alloc, places.len())?;
    sort_by_key(places, &mut order);
    Ok(order)
}

#[tactic(auto, unfolding(crate::specs::LabelPlaces::numbers))]
fn numbers_below(alloc: Global, n: usize) -> Result<Vec<u32>, AllocError>
    requires { n ≤ most_labels }
    ensures { IfOk result (λ v. v.items ≡ numbers n) }
{
    let mut order = Vec::with_capacity(alloc, n)?;
    for i in 0..n {
        order.push(i as u32)?;
    }
    Ok(order)
}

fn sort_by_key(places: &[Place], order: &mut [u32])
    requires { HasOwnKeys (key_at places.now) order.old }
    ensures { order.new ≡ sorted_by (key_at places.now) order.old }
{
    order.sort_unstable_by_key(|i| key_at(places, *i));
}

// Puts the number of the last row, whose key no other has, into the order of the others.
pub(crate) fn insert_last(places: &[Place], order: &mut Vec<u32>)
    requires some { 0 < length places.now }
    requires few { length places.now ≤ most_labels }
    requires room { vec_len order.old < vec_capacity order.old }
    requires own { HasOwnKeys key_of places.now }
    requires others { IsOrder places.now (length places.now - 1) order.old.items }
    ensures { IsOrder places.now (length places.now) order.new.items }
{
    let last = places.len() - 1;
    let at = point_of(places, order, key_of(&places[last]));
    match order.insert(at, last as u32) {
        Ok(()) => {}
        Err(_) => unreachable!(),
    }
}

// How many of the rows in the order have no greater key.
fn point_of(places: &[Place], order: &[u32], key: u128) -> usize
    requires { Ascend places.now order.now }
    ensures within { result ≤ length order.now }
    ensures point { KeyPoint places.now key order.now result }
{
    order.partition_point(|i| key_at(places, *i) <= key)
}

// The row under the name that started last in the column by the day.
pub(crate) fn last_started(
    rows: &LabelRows,
    order: &[u32],
    name: u32,
    col: usize,
    day: i32,
) -> Option<Place>
    requires numbered { AreNumbered rows.now }
    requires order { IsOrder rows.now.places.items (length rows.now.places.items) order.now }
    ensures { IsLastStarted rows.now.places.items name col day result }
{
    let end = point_of(&rows.places, order, key(name, col, day));
    if end == 0 {
        return None;
    }
    let place = rows.places[order[end - 1] as usize];
    if place.name == name && place.col as usize == col {
        Some(place)
    } else {
        None
    }
}

// Whether no row of the name and the column of row i, which has started by the day, starts later than it.
pub(crate) fn is_newest(rows: &LabelRows, order: &[u32], i: usize, day: i32) -> bool
    requires numbered { AreNumbered rows.now }
    requires order { IsOrder rows.now.places.items (length rows.now.places.items) order.now }
    requires within { i < length rows.now.places.items }
    ensures { option_map (is_newest_in (shown_rows rows.now) day) (slice_get (shown_rows rows.now) i)
        ≡ Some result }
{
    let place = rows.places[i];
    match last_started(rows, order, place.name, place.col as usize, day) {
        Some(last) => last.start <= place.start,
        None => true,
    }
}
