//! What is kept of windows, from what was kept of those before.

ghost use Rattle.std.specs.Prelude.{◌≡◌, ◌+◌, ◌≤◌, length};
ghost use Rattle.std.specs.List.{All};
ghost use Rattle.pl_spec.specs.Limits.{most_window};
ghost use Rattle.pl_spec.specs.Rounding.{IsCell};
ghost use Rattle.pl_factors.specs.Kept.{sums, spreads, weighted, placed, swings};
ghost use Rattle.pl_factors.specs.Spans.{before, after};

use crate::running::Running;
use crate::sums;

pub(crate) fn next_sums(kept: &Running, a: &[i64]) -> Running
    requires cells { All IsCell a.now }
    requires some { 2 ≤ length a.now }
    requires few { length a.now ≤ most_window + 1 }
    requires stands { kept.now ≡ sums (before a.now) }
    ensures { result ≡ sums (after a.now) }
{
    let main = sums::next_sum(kept.main, a);
    let number = sums::next_count(kept.number, a);
    Running {
        main,
        beside: 0,
        number,
    }
}

pub(crate) fn next_spreads(kept: &Running, a: &[i64]) -> Running
    requires cells { All IsCell a.now }
    requires some { 2 ≤ length a.now }
    requires few { length a.now ≤ most_window + 1 }
    requires stands { kept.now ≡ spreads (before a.now) }
    ensures { result ≡ spreads (after a.now) }
{
    let main = sums::next_sum(kept.main, a);
    let beside = sums::next_products(kept.beside, a, a);
    let number = sums::next_count(kept.number, a);
    Running {
        main,
        beside,
        number,
    }
}

pub(crate) fn next_weighted(kept: &Running, a: &[i64], w: &[i64]) -> Running
    requires cells { All IsCell a.now }
    requires weights { All IsCell w.now }
    requires some { 2 ≤ length a.now }
    requires few { length a.now ≤ most_window + 1 }
    requires paired { length w.now ≡ length a.now }
    requires stands { kept.now ≡ weighted (before a.now) (before w.now) }
    ensures { result ≡ weighted (after a.now) (after w.now) }
{
    let main = sums::next_sum(kept.main, w);
    let beside = sums::next_products(kept.beside, a, w);
    Running {
        main,
        beside,
        number: 0,
    }
}

pub(crate) fn next_placed(kept: &Running, a: &[i64]) -> Running
    requires cells { All IsCell a.now }
    requires some { 2 ≤ length a.now }
    requires few { length a.now ≤ most_window + 1 }
    requires stands { kept.now ≡ placed (before a.now) }
    ensures { result ≡ placed (after a.now) }
{
    let main = sums::next_sum(kept.main, a);
    let beside = sums::next_placed(kept.beside, kept.main, a);
    Running {
        main,
        beside,
        number: 0,
    }
}

pub(crate) fn next_swings(kept: &Running, a: &[i64]) -> Running
    requires cells { All IsCell a.now }
    requires some { 2 ≤ length a.now }
    requires few { length a.now ≤ most_window + 1 }
    requires stands { kept.now ≡ swings (before a.now) }
    ensures { result ≡ swings (after a.now) }
{
    let main = sums::next_swings(false, kept.main, a);
    let beside = sums::next_swings(true, kept.beside, a);
    Running {
        main,
        beside,
        number: 0,
    }
}
