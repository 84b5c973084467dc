//! The greatest and the least cell of a window, from those of the window before it. Both windows are one
//! list: all but its
//! last cell, and all but its first. The whole window is read only where the extreme leaves it.

ghost use Rattle.std.specs.Prelude.{◌≡◌, ◌≤◌, length};
ghost use Rattle.std.specs.List.{All};
ghost use Rattle.pl_spec.specs.Rounding.{IsCell};
ghost use Rattle.pl_lanes.specs.Heights.{best_of};
ghost use Rattle.pl_factors.specs.Kept.{kept_best, range};
ghost use Rattle.pl_factors.specs.Laws.{least_of, better};
ghost use Rattle.pl_factors.specs.Spans.{before, after};

use crate::running::Running;
use pl_fixed::MISSING;
use pl_lanes::{best_present, max_present, min_present};

// The least cell where `low` is true, else the greatest.
pub(crate) fn best_kept(low: bool, a: &[i64]) -> Running
    requires cells { All IsCell a.now }
    ensures { result ≡ kept_best low a.now }
{
    Running {
        main: best_present(low, a) as i128,
        beside: 0,
        number: 0,
    }
}

pub(crate) fn range_of(low: &[i64], high: &[i64]) -> Running
    requires lows { All IsCell low.now }
    requires highs { All IsCell high.now }
    ensures { result ≡ range low.now high.now }
{
    Running {
        main: min_present(low) as i128,
        beside: max_present(high) as i128,
        number: 0,
    }
}

#[inline(always)]
pub(crate) fn next_kept(low: bool, kept: &Running, a: &[i64]) -> Running
    requires cells { All IsCell a.now }
    requires some { 2 ≤ length a.now }
    requires stands { kept.now ≡ kept_best low (before a.now) }
    ensures { result ≡ kept_best low (after a.now) }
{
    Running {
        main: next_best(low, kept.main as i64, a) as i128,
        beside: 0,
        number: 0,
    }
}

pub(crate) fn next_range(kept: &Running, low: &[i64], high: &[i64]) -> Running
    requires lows { All IsCell low.now }
    requires highs { All IsCell high.now }
    requires low { 2 ≤ length low.now }
    requires high { 2 ≤ length high.now }
    requires stands { kept.now ≡ range (before low.now) (before high.now) }
    ensures { result ≡ range (after low.now) (after high.now) }
{
    let main = next_best(true, kept.main as i64, low) as i128;
    let beside = next_best(false, kept.beside as i64, high) as i128;
    Running {
        main,
        beside,
        number: 0,
    }
}

#[inline(always)]
fn next_best(low: bool, best: i64, a: &[i64]) -> i64
    requires cells { All IsCell a.now }
    requires some { 2 ≤ length a.now }
    requires is { best ≡ best_of low (before a.now) }
    ensures { result ≡ best_of low (after a.now) }
{
    if a[0] == best && best != MISSING {
        best_present(low, &a[1..])
    } else {
        better(low, best, a[a.len() - 1])
    }
}

#[inline(always)]
fn better(low: bool, best: i64, x: i64) -> i64
    ensures { result ≡ better low best x }
{
    if low { lesser(best, x) } else { best.max(x) }
}

// The lesser of two cells; the other where one is missing.
fn lesser(x: i64, y: i64) -> i64
    ensures { result ≡ least_of x y }
{
    if x == MISSING {
        y
    } else if y == MISSING {
        x
    } else {
        x.min(y)
    }
}
