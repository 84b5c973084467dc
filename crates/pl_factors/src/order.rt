//! The values of a window in order: a point between the least and the greatest one, a rank, the deepest fall.

ghost use Rattle.std.specs.Prelude.{◌≡◌, ◌+◌, ◌*◌, ◌<◌, ◌≤◌, ℤ, pos, ◌*ℤ◌, ◌≤ℤ◌, unsigned_abs, List, IsPermutation, AllPairs, if◌then◌else◌, length, get_or};
ghost use Rattle.std.specs.List.{All};
ghost use Rattle.pl_spec.specs.Limits.{most_window};
ghost use Rattle.pl_spec.specs.Rounding.{IsCell, LIMIT, MISSING, is_missing};
ghost use Rattle.pl_spec.specs.Cells.{present_values};
ghost use Rattle.pl_pipeline.specs.Formula.{newest, rank_among, drawdown};
ghost use Rattle.pl_pipeline.specs.Order.{percentile};
ghost use Rattle.pl_factors.specs.Falls.{AreFalls};

use crate::changes::newest;
use pl_fixed::{MISSING, quot};
use pl_lanes::sum_present;
use pl_regression::twice_rank;

// The point so many hundredths of a percent of the way from the least of present cells in order to the
// greatest.
pub(crate) fn point_of(percent: u32, values: &[i64]) -> i64
    requires percent { percent ≤ 10_000 }
    requires some { 1 ≤ length values.now }
    requires few { length values.now ≤ most_window }
    requires small { All (λ v. unsigned_abs v ≤ LIMIT) values.now }
    requires order { AllPairs (λ x y. x ≤ℤ y) values.now }
    ensures value { (vs : List ℤ) → IsPermutation vs values.now → result ≡ percentile percent vs }
    ensures cell { IsCell result }
{
    let way = percent as usize * (values.len() - 1);
    let place = way / 10_000;
    let rest = way % 10_000;
    quot(
        times(values, place, 10_000 - rest) + times(values, place + 1, rest),
        10_000,
    )
}

// A value times so many ten thousandths, or 0 where there are none.
fn times(values: &[i64], place: usize, parts: usize) -> i128
    requires there { 0 < parts → place < length values.now }
    requires parts { parts ≤ 10_000 }
    requires small { All (λ v. unsigned_abs v ≤ LIMIT) values.now }
    ensures value { result ≡ get_or values.now place (pos 0) *ℤ pos parts }
    ensures small { unsigned_abs result ≤ LIMIT * 10_000 }
{
    if parts == 0 {
        0
    } else {
        values[place] as i128 * parts as i128
    }
}

// The average rank of the newest cell over the number of the present ones.
pub(crate) fn window_rank(a: &[i64]) -> i64
    requires cells { All IsCell a.now }
    requires few { length a.now ≤ most_window }
    ensures value { result ≡ if is_missing (newest a.now) then MISSING
        else rank_among (newest a.now) (present_values a.now) }
    ensures cell { IsCell result }
{
    let x = newest(a);
    if x == MISSING {
        return MISSING;
    }
    let (_, count) = sum_present(a);
    quot((twice_rank(x, a) * 1_000_000) as i128, (2 * count) as i128)
}

// The greatest cell so far, how far the deepest cell lies below the greatest one up to it, and its place.
#[derive(Clone, Copy)]
struct Falls {
    peak: i64,
    deepest: i64,
    place: usize,
}

// The deepest fall of the cells from the greatest one before, over the cell at its end.
pub(crate) fn max_drawdown(a: &[i64]) -> i64
    requires cells { All IsCell a.now }
    ensures value { result ≡ drawdown a.now }
    ensures cell { IsCell result }
{
    let mut falls = Falls {
        peak: MISSING,
        deepest: MISSING,
        place: 0,
    };
    for at in 0..a.len() {
        falls = next_falls(falls, a, at);
    }
    if falls.peak == MISSING {
        MISSING
    } else {
        quot(falls.deepest as i128 * 1_000_000, a[falls.place] as i128)
    }
}

// With one cell more.
#[inline(always)]
fn next_falls(falls: Falls, a: &[i64], at: usize) -> Falls
    requires cells { All IsCell a.now }
    requires at { at < length a.now }
    requires falls { AreFalls a.now at falls }
    ensures { AreFalls a.now (at + 1) result }
{
    let x = a[at];
    if x == MISSING {
        return falls;
    }
    let peak = falls.peak.max(x);
    let fall = peak - x;
    if fall > falls.deepest {
        Falls {
            peak,
            deepest: fall,
            place: at,
        }
    } else {
        Falls {
            peak,
            deepest: falls.deepest,
            place: falls.place,
        }
    }
}
