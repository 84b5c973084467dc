//! The ranks of cells among those of a window, and their correlation.

ghost use Rattle.std.specs.Prelude.{◌≡◌, ◌+◌, ◌*◌, ◌≤◌, ◌&&◌, length, take};
ghost use Rattle.std.specs.List.{All};
ghost use Rattle.pl_spec.specs.Limits.{most_window};
ghost use Rattle.pl_spec.specs.Rounding.{IsCell, is_present};
ghost use Rattle.pl_spec.specs.Cells.{present_values};
ghost use Rattle.pl_pipeline.specs.Formula.{correlation, pair_sums, present_pairs, ranked, sums_of_pairs};
ghost use Rattle.pl_pipeline.specs.Order.{twice_rank};
ghost use Rattle.pl_regression.specs.Ranks.{share, twice_ranks, firsts, seconds};

use crate::formulas::correlation;
use crate::pairs::PairSums;
use pl_fixed::MISSING;

// How many cells the longest window has.
const MOST_CELLS: usize = 1_260;

/// Twice the average rank of `x` among the cells that are present, which is from 1 for the least.
pub fn twice_rank(x: i64, cells: &[i64]) -> usize
    requires cells { All IsCell cells.now }
    requires few { length cells.now ≤ most_window }
    ensures value { result ≡ twice_rank x (present_values cells.now) }
    ensures few { result ≤ 2 * length cells.now + 1 }
{
    let mut rank = 1;
    for at in 0..cells.len() {
        rank += share(x, cells[at]);
    }
    rank
}

#[inline(always)]
#[tactic(auto, unfolding(crate::specs::Ranks::share))]
fn share(x: i64, y: i64) -> usize
    requires cell { IsCell y }
    ensures value { result ≡ share x y }
    ensures few { result ≤ 2 }
{
    if y == MISSING {
        0
    } else if y < x {
        2
    } else if y == x {
        1
    } else {
        0
    }
}

/// The correlation of the average ranks of the pairs of two windows, Spearman's, in millionths; `MISSING` where
/// all first or all second values are one.
pub fn rank_correlation(xs: &[i64], ys: &[i64]) -> i64
    requires cells { All IsCell xs.now }
    requires others { All IsCell ys.now }
    requires few { length xs.now ≤ most_window }
    requires paired { length ys.now ≡ length xs.now }
    ensures value { result ≡ correlation (sums_of_pairs (ranked (present_pairs xs.now ys.now))) }
    ensures cell { IsCell result }
{
    let mut first = [0i64; MOST_CELLS];
    let mut second = [0i64; MOST_CELLS];
    let count = gather(xs, ys, &mut first, &mut second);
    correlation_of_ranks(&first[..count], &second[..count])
}

// Both cells are there.
fn are_present(x: i64, y: i64) -> bool
    ensures { result ≡ (is_present x && is_present y) }
{
    x != MISSING && y != MISSING
}

// Writes the cells of the pairs to the front, and answers how many they are.
fn gather(xs: &[i64], ys: &[i64], first: &mut [i64], second: &mut [i64]) -> usize
    requires cells { All IsCell xs.now }
    requires others { All IsCell ys.now }
    requires paired { length ys.now ≡ length xs.now }
    requires first { length xs.now ≤ length first.old }
    requires second { length xs.now ≤ length second.old }
    ensures few { result ≤ length xs.now }
    ensures first { take result first.new ≡ firsts (present_pairs xs.now ys.now) }
    ensures second { take result second.new ≡ seconds (present_pairs xs.now ys.now) }
    ensures first_long { length first.new ≡ length first.old }
    ensures second_long { length second.new ≡ length second.old }
{
    let mut count = 0;
    for at in 0..xs.len() {
        if are_present(xs[at], ys[at]) {
            first[count] = xs[at];
            second[count] = ys[at];
            count += 1;
        }
    }
    count
}

// The correlation of the ranks of cells that are all present.
fn correlation_of_ranks(first: &[i64], second: &[i64]) -> i64
    requires first { All IsCell first.now }
    requires second { All IsCell second.now }
    requires first_there { present_values first.now ≡ first.now }
    requires second_there { present_values second.now ≡ second.now }
    requires few { length first.now ≤ most_window }
    requires paired { length second.now ≡ length first.now }
    ensures value { result ≡ correlation (pair_sums (twice_ranks first.now) (twice_ranks second.now)) }
    ensures cell { IsCell result }
{
    let mut first_ranks = [0i64; MOST_CELLS];
    let mut second_ranks = [0i64; MOST_CELLS];
    fill_ranks(first, &mut first_ranks);
    fill_ranks(second, &mut second_ranks);
    let count = first.len();
    correlation(&PairSums::of_windows(&first_ranks[..count], &second_ranks[..count]))
}

// Writes twice the ranks of cells that are all present to the front.
fn fill_ranks(values: &[i64], out: &mut [i64])
    requires cells { All IsCell values.now }
    requires there { present_values values.now ≡ values.now }
    requires few { length values.now ≤ most_window }
    requires room { length values.now ≤ length out.old }
    ensures ranks { take (length values.now) out.new ≡ twice_ranks values.now }
    ensures long { length out.new ≡ length out.old }
{
    for at in 0..values.len() {
        out[at] = twice_rank(values[at], values) as i64;
    }
}
