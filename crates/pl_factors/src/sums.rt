//! The sums of a window, from those of the window before it. Both windows are one list: all but its last
//! cell, and all but its first.

ghost use Rattle.std.specs.Prelude.{◌≡◌, ◌+◌, ◌≤◌, length};
ghost use Rattle.std.specs.List.{All};
ghost use Rattle.pl_spec.specs.Limits.{most_window};
ghost use Rattle.pl_spec.specs.Rounding.{IsCell};
ghost use Rattle.pl_spec.specs.Cells.{present_values, total, count};
ghost use Rattle.pl_pipeline.specs.Formula.{products, places, differences};
ghost use Rattle.pl_factors.specs.Terms.{total_swings};
ghost use Rattle.pl_factors.specs.Spans.{before, after};

use crate::averages::product;
use crate::changes::swing;
use crate::parts::{moved, part, presence};

pub(crate) fn next_sum(sum: i128, a: &[i64]) -> i128
    requires cells { All IsCell a.now }
    requires some { 2 ≤ length a.now }
    requires few { length a.now ≤ most_window + 1 }
    requires is { sum ≡ total (present_values (before a.now)) }
    ensures { result ≡ total (present_values (after a.now)) }
{
    moved(sum, part(a[0]), part(a[a.len() - 1]))
}

pub(crate) fn next_count(kept: usize, a: &[i64]) -> usize
    requires cells { All IsCell a.now }
    requires some { 2 ≤ length a.now }
    requires few { length a.now ≤ most_window + 1 }
    requires is { kept ≡ count (before a.now) }
    ensures { result ≡ count (after a.now) }
{
    kept + presence(a[a.len() - 1]) - presence(a[0])
}

pub(crate) fn next_products(sum: i128, a: &[i64], b: &[i64]) -> i128
    requires cells { All IsCell a.now }
    requires others { All IsCell b.now }
    requires some { 2 ≤ length a.now }
    requires few { length a.now ≤ most_window + 1 }
    requires paired { length b.now ≡ length a.now }
    requires is { sum ≡ total (products (before a.now) (before b.now)) }
    ensures { result ≡ total (products (after a.now) (after b.now)) }
{
    let last = a.len() - 1;
    moved(sum, product(a[0], b[0]), product(a[last], b[last]))
}

// Each cell comes one place nearer to the oldest.
pub(crate) fn next_placed(placed: i128, sum: i128, a: &[i64]) -> i128
    requires cells { All IsCell a.now }
    requires some { 2 ≤ length a.now }
    requires few { length a.now ≤ most_window + 1 }
    requires placed { placed ≡ total (products (places (before a.now)) (before a.now)) }
    requires sum { sum ≡ total (present_values (before a.now)) }
    ensures { result ≡ total (products (places (after a.now)) (after a.now)) }
{
    let last = a.len() - 1;
    moved(placed, sum, product(last as i64, a[last]))
}

// How far the cells fell where `falls` is true, else how far they rose.
#[inline(always)]
pub(crate) fn next_swings(falls: bool, kept: i128, a: &[i64]) -> i128
    requires cells { All IsCell a.now }
    requires some { 2 ≤ length a.now }
    requires few { length a.now ≤ most_window + 1 }
    requires is { kept ≡ total_swings falls (differences (before a.now)) }
    ensures { result ≡ total_swings falls (differences (after a.now)) }
{
    let last = a.len() - 1;
    moved(
        kept,
        swing(falls, a[0], a[1]),
        swing(falls, a[last - 1], a[last]),
    )
}
