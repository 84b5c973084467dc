//! The value of a formula from what is kept of its windows.

ghost use Rattle.std.specs.Prelude.{◌≡◌, ◌≤◌, ◌*◌, ◌/◌, ◌+◌, nat_le, pos, ◌*ℤ◌, ◌+ℤ◌, ◌-ℤ◌, length};
ghost use Rattle.std.specs.List.{All, count_by, list_all};
ghost use Rattle.pl_spec.specs.Limits.{most_window};
ghost use Rattle.pl_spec.specs.Rounding.{IsCell, MILLION, quot, to_cell, is_present};
ghost use Rattle.pl_pipeline.specs.Formula.{HUNDRED, mean, if_any, products, places, weighted_mean};
ghost use Rattle.pl_pipeline.specs.Formula.{differences, gains, losses, newest, of_all};
ghost use Rattle.pl_spec.specs.Cells.{present_values, total, count, truth, is_true};
ghost use Rattle.pl_lanes.specs.Flags.{IsFlag};
ghost use Rattle.pl_factors.specs.Kept.{sums, weighted, placed, swings};

use crate::changes::{newest, strength_of};
use crate::ranges::stochastic_of;
use crate::running::Running;
use crate::windows::{all_present_of, at_least_of};
use pl_fixed::{MISSING, quot, to_cell};

// The sum of the present cells over their number.
pub(crate) fn mean(kept: &Running, a: &[i64]) -> i64
    requires cells { All IsCell a.now }
    requires few { length a.now ≤ most_window }
    requires main { kept.now.main ≡ total (present_values a.now) }
    requires number { kept.now.number ≡ count a.now }
    ensures value { result ≡ mean a.now }
    ensures cell { IsCell result }
{
    quot(kept.main, kept.number as i128)
}

// The sum of the present cells; `MISSING` where none is.
pub(crate) fn window_sum(kept: &Running, a: &[i64]) -> i64
    requires stands { kept.now ≡ sums a.now }
    ensures value { result ≡ if_any a.now (to_cell (total (present_values a.now))) }
    ensures cell { IsCell result }
{
    if kept.number == 0 {
        MISSING
    } else {
        to_cell(kept.main)
    }
}

// The sum of the products over that of the weights.
pub(crate) fn weighted_mean(kept: &Running, a: &[i64], w: &[i64]) -> i64
    requires cells { All IsCell a.now }
    requires weights { All IsCell w.now }
    requires few { length a.now ≤ most_window }
    requires paired { length w.now ≡ length a.now }
    requires stands { kept.now ≡ weighted a.now w.now }
    ensures value { result ≡ weighted_mean a.now w.now }
    ensures cell { IsCell result }
{
    quot(kept.beside, kept.main)
}

// The sum of the products over the number of the sessions.
pub(crate) fn average_dollar_volume(kept: &Running, a: &[i64], b: &[i64]) -> i64
    requires cells { All IsCell a.now }
    requires volumes { All IsCell b.now }
    requires few { length a.now ≤ most_window }
    requires paired { length b.now ≡ length a.now }
    requires stands { kept.now ≡ weighted a.now b.now }
    ensures value { result ≡ quot (total (products a.now b.now)) (pos (length a.now * MILLION)) }
    ensures cell { IsCell result }
{
    quot(kept.beside, a.len() as i128 * 1_000_000)
}

// The mean in which a cell counts as often as its place from the oldest.
pub(crate) fn linear_weighted(kept: &Running, a: &[i64]) -> i64
    requires cells { All IsCell a.now }
    requires few { length a.now ≤ most_window }
    requires stands { kept.now ≡ placed a.now }
    ensures value { result
        ≡ quot (total (products (places a.now) a.now)) (pos (length a.now * (length a.now + 1) / 2)) }
    ensures cell { IsCell result }
{
    quot(kept.beside, (a.len() * (a.len() + 1) / 2) as i128)
}

// How far the cells rose, of how far they rose and fell, in hundredths.
pub(crate) fn relative_strength(kept: &Running, a: &[i64]) -> i64
    requires cells { All IsCell a.now }
    requires few { length a.now ≤ most_window }
    requires stands { kept.now ≡ swings a.now }
    ensures value { result ≡ quot (gains (differences a.now) *ℤ HUNDRED)
        (gains (differences a.now) +ℤ losses (differences a.now)) }
    ensures cell { IsCell result }
{
    strength_of(kept.main, kept.beside)
}

// Whether at least `n` values of a filter are true: their sum is the number of the true ones.
pub(crate) fn at_least(kept: &Running, n: usize, flags: &[i64]) -> i64
    requires flags { All IsFlag flags.now }
    requires few { length flags.now ≤ most_window }
    requires stands { kept.now ≡ sums flags.now }
    ensures value { result ≡ truth (nat_le n (count_by is_true flags.now)) }
    ensures cell { IsCell result }
{
    at_least_of(n, kept.main, flags)
}

// Whether no cell is missing.
pub(crate) fn all_present(kept: &Running, a: &[i64]) -> i64
    requires stands { kept.now ≡ sums a.now }
    ensures value { result ≡ truth (list_all is_present a.now) }
    ensures cell { IsCell result }
{
    all_present_of(kept.number, a)
}

// The greatest cell, or the least.
pub(crate) fn extreme(kept: &Running) -> i64
    requires { IsCell kept.now.main }
    ensures value { result ≡ kept.now.main }
    ensures cell { IsCell result }
{
    kept.main as i64
}

// How far the last close lies above the lowest low, of the way to the highest high, in hundredths.
pub(crate) fn stochastic(kept: &Running, close: &[i64]) -> i64
    requires closes { All IsCell close.now }
    requires low { IsCell kept.now.main }
    requires high { IsCell kept.now.beside }
    ensures value { result ≡ of_all (newest close.now) kept.now.main kept.now.beside
        (quot ((newest close.now -ℤ kept.now.main) *ℤ HUNDRED) (kept.now.beside -ℤ kept.now.main)) }
    ensures cell { IsCell result }
{
    stochastic_of(newest(close), kept.main as i64, kept.beside as i64)
}
