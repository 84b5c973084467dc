//! Points on the way through the values of one group in order, and what they part. No group is sorted for
//! them: one value is selected at a time.
ghost use Rattle.std.specs.Prelude.{◌≡◌, ◌≤◌, ◌<◌, ◌+◌, ◌-◌, ◌*◌, ◌/◌, ◌*ℤ◌, ◌+ℤ◌, ◌&&◌, ℕ, pos, All, length, get_or, unsigned_abs};
ghost use Rattle.std.specs.Int.{int_max, int_min};
ghost use Rattle.std.specs.Int.RustNames.{int_le};
ghost use Rattle.pl_spec.specs.Limits.{most_assets};
ghost use Rattle.pl_spec.specs.Rounding.{LIMIT, MILLION};
ghost use Rattle.pl_spec.specs.Cells.{truth};
ghost use Rattle.pl_pipeline.specs.Order as spec;
ghost use Rattle.pl_pipeline.specs.Cross.{array_at, values};
ghost use Rattle.pl_pipeline.specs.Kind.CrossKind.{Bottom, PercentileBetween, Winsorize};
ghost use Rattle.pl_cross.specs.Listing.{entries_of, is_before, HasCell, HaveOwnPlaces, AreAnswers};

use crate::listing::Listed;
use crate::places::clear;
use crate::sorting::{nth, precedes};
use pl_fixed::quot;

// The hundredths of a percent.
const WHOLE: usize = 10_000;

// The millionths of a unit.
const MILLION: usize = 1_000_000;

/// The value in a place in ascending order, and 0 behind the last one.
pub(crate) fn value_at(group: &[Listed], scratch: &mut [Listed], place: usize) -> i64
    requires cells { All HasCell group.now }
    requires own { HaveOwnPlaces group.now }
    requires room { length group.now ≤ length scratch.old }
    ensures value { result ≡ spec.value_at (values (entries_of group.now)) place }
    ensures size { unsigned_abs result ≤ LIMIT }
{
    if place < group.len() {
        nth(group, scratch, place).value
    } else {
        0
    }
}

// A value times its weight.
fn weighted(value: i64, weight: usize) -> i128
    requires value { unsigned_abs value ≤ LIMIT }
    requires weight { weight ≤ 10_000 }
    ensures value { result ≡ value *ℤ pos weight }
    ensures size { unsigned_abs result ≤ 10000 * LIMIT }
{
    value as i128 * weight as i128
}

// 10,000 times the point that lies so many 10,000ths of the way from one value to another.
fn mixed(below: i64, above: i64, rest: usize) -> i128
    requires below { unsigned_abs below ≤ LIMIT }
    requires above { unsigned_abs above ≤ LIMIT }
    requires rest { rest ≤ 10_000 }
    ensures value { result ≡ below *ℤ pos (10000 - rest) +ℤ above *ℤ pos rest }
    ensures size { unsigned_abs result ≤ 2 * 10000 * LIMIT }
{
    weighted(below, WHOLE - rest) + weighted(above, rest)
}

// 10,000 times the point that lies so many 10,000ths of a place above the least value.
fn edge(group: &[Listed], scratch: &mut [Listed], point: usize) -> i128
    requires cells { All HasCell group.now }
    requires own { HaveOwnPlaces group.now }
    requires room { length group.now ≤ length scratch.old }
    ensures value { result ≡ spec.edge (values (entries_of group.now)) point 10000 }
    ensures size { unsigned_abs result ≤ 2 * 10000 * LIMIT }
{
    let place = point / WHOLE;
    let rest = point - place * WHOLE;
    let below = value_at(group, scratch, place);
    let above = value_at(group, scratch, place + 1);
    mixed(below, above, rest)
}

/// The point so many hundredths of a percent of the way from the least value to the greatest.
pub(crate) fn percentile(percent: u32, group: &[Listed], scratch: &mut [Listed]) -> i64
    requires percent { percent ≤ 10_000 }
    requires few { length group.now ≤ most_assets }
    requires some { 0 < length group.now }
    requires cells { All HasCell group.now }
    requires own { HaveOwnPlaces group.now }
    requires room { length group.now ≤ length scratch.old }
    ensures { result ≡ spec.percentile percent (values (entries_of group.now)) }
{
    let point = percent as usize * (group.len() - 1);
    quot(edge(group, scratch, point), 10_000)
}

// Each value, but not below the least nor above the greatest.
fn draw_in(least: i64, greatest: i64, group: &[Listed], answers: &mut [i64])
    requires room { length answers.old ≡ length group.now }
    ensures { (k : ℕ) (d : Listed) → k < length group.now
        → array_at answers.new k ≡ int_max least (int_min greatest (get_or group.now k d).value) }
{
    for i in 0..group.len() {
        answers[i] = least.max(greatest.min(group[i].value));
    }
}

/// Each value, but not below the one `low` millionths of the way through the sorted values, nor above that at
/// `high`.
pub(crate) fn winsorize(
    low: u32,
    high: u32,
    group: &[Listed],
    scratch: &mut [Listed],
    answers: &mut [i64],
)
    requires right { low < high }
    requires high { high ≤ MILLION }
    requires few { length group.now ≤ most_assets }
    requires cells { All HasCell group.now }
    requires own { HaveOwnPlaces group.now }
    requires scratch { length group.now ≤ length scratch.old }
    requires room { length answers.old ≡ length group.now }
    ensures { AreAnswers (Winsorize low high) (λ e. entries_of group.now) group.now answers.new }
{
    let least = value_at(group, scratch, low as usize * group.len() / MILLION);
    let greatest = value_at(group, scratch, last_within(high, group.len()));
    draw_in(least, greatest, group, answers);
}

// The last place so many millionths of the way through so many values.
fn last_within(high: u32, count: usize) -> usize
    requires high { high ≤ MILLION }
    requires count { count ≤ most_assets }
    ensures { result ≡ (high * count + MILLION - 1) / MILLION - 1 }
{
    ((high as usize * count + MILLION - 1) / MILLION).saturating_sub(1)
}

// Whether the value lies between the others.
fn is_between(low: i128, value: i128, high: i128) -> bool
    ensures { result ≡ (int_le low value && int_le value high) }
{
    low <= value && value <= high
}

// 1 where it holds, and 0 elsewhere.
fn mark(holds: bool) -> i64
    ensures { result ≡ truth holds }
{
    holds as i64
}

// Whether 10,000 times each value lies between two points.
fn mark_between(low: i128, high: i128, group: &[Listed], answers: &mut [i64])
    requires cells { All HasCell group.now }
    requires room { length answers.old ≡ length group.now }
    ensures { (k : ℕ) (d : Listed) → k < length group.now
        → array_at answers.new k ≡ truth (int_le low ((get_or group.now k d).value *ℤ pos 10000)
        && int_le ((get_or group.now k d).value *ℤ pos 10000) high) }
{
    for i in 0..group.len() {
        answers[i] = mark(is_between(low, weighted(group[i].value, WHOLE), high));
    }
}

/// Whether each value lies between the points at so many hundredths of a percent.
pub(crate) fn between(
    low: u32,
    high: u32,
    group: &[Listed],
    scratch: &mut [Listed],
    answers: &mut [i64],
)
    requires low { low ≤ 10_000 }
    requires high { high ≤ 10_000 }
    requires few { length group.now ≤ most_assets }
    requires some { 0 < length group.now }
    requires cells { All HasCell group.now }
    requires own { HaveOwnPlaces group.now }
    requires scratch { length group.now ≤ length scratch.old }
    requires room { length answers.old ≡ length group.now }
    ensures { AreAnswers (PercentileBetween low high) (λ e. entries_of group.now) group.now answers.new }
{
    let last = group.len() - 1;
    let least = edge(group, scratch, low as usize * last);
    let greatest = edge(group, scratch, high as usize * last);
    mark_between(least, greatest, group, answers);
}

// Whether each asset comes before another.
fn mark_before(other: Listed, group: &[Listed], answers: &mut [i64])
    requires room { length answers.old ≡ length group.now }
    ensures { (k : ℕ) (d : Listed) → k < length group.now
        → array_at answers.new k ≡ truth (is_before other (get_or group.now k d)) }
{
    for i in 0..group.len() {
        answers[i] = mark(precedes(group[i], other));
    }
}

/// Whether each asset is among the first `n` in order.
pub(crate) fn first(n: u32, group: &[Listed], scratch: &mut [Listed], answers: &mut [i64])
    requires own { HaveOwnPlaces group.now }
    requires scratch { length group.now ≤ length scratch.old }
    requires room { length answers.old ≡ length group.now }
    ensures { AreAnswers (Bottom n) (λ e. entries_of group.now) group.now answers.new }
{
    let n = n as usize;
    if n < group.len() {
        mark_before(nth(group, scratch, n), group, answers);
    } else {
        clear(answers, 1);
    }
}
