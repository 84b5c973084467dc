//! Where in a window its greatest and its least cell are, from where they were in the window before it. Both
//! windows are one list: all but its last cell, and all but its first.

ghost use Rattle.std.specs.Prelude.{◌≡◌, ◌≤◌, ◌<◌, ◌↔◌, ◌⊎◌, true, false, length};
ghost use Rattle.std.specs.List.{All};
ghost use Rattle.pl_spec.specs.Limits.{most_window};
ghost use Rattle.pl_spec.specs.Rounding.{IsCell, MISSING, is_missing};
ghost use Rattle.pl_spec.specs.Cells.{count};
ghost use Rattle.pl_pipeline.specs.Formula.{place_of, place_number};
ghost use Rattle.pl_lanes.specs.Heights.{rank, best_of};
ghost use Rattle.pl_factors.specs.Terms.{first_place};
ghost use Rattle.pl_factors.specs.Kept.{placed_best};
ghost use Rattle.pl_factors.specs.Spans.{before, after};

use crate::places::{first_place, place_number, place_of};
use crate::running::Running;
use pl_fixed::MISSING;
use pl_lanes::best_present;

// The least cell where `low` is true, else the greatest, and its first place.
pub(crate) fn placed_best(low: bool, a: &[i64]) -> Running
    requires cells { All IsCell a.now }
    ensures { result ≡ placed_best low a.now }
{
    let best = best_present(low, a);
    Running {
        main: best as i128,
        beside: 0,
        number: first_place(best, a),
    }
}

#[inline(always)]
pub(crate) fn next_placed_best(low: bool, kept: &Running, a: &[i64]) -> Running
    requires cells { All IsCell a.now }
    requires some { 2 ≤ length a.now }
    requires stands { kept.now ≡ placed_best low (before a.now) }
    ensures { result ≡ placed_best low (after a.now) }
{
    let best = kept.main as i64;
    if kept.number == 0 && best != MISSING {
        placed_best(low, &a[1..])
    } else {
        joined(low, best, kept.number, a)
    }
}

// The best cell does not leave, or there is none.
#[inline(always)]
fn joined(low: bool, best: i64, place: usize, a: &[i64]) -> Running
    requires cells { All IsCell a.now }
    requires some { 2 ≤ length a.now }
    requires best { best ≡ best_of low (before a.now) }
    requires place { place ≡ first_place (best_of low (before a.now)) (before a.now) }
    requires stays { (0 < place) ⊎ (best ≡ MISSING) }
    ensures { result ≡ placed_best low (after a.now) }
{
    let last = a[a.len() - 1];
    if is_better(low, last, best) {
        Running {
            main: last as i128,
            beside: 0,
            number: a.len() - 2,
        }
    } else {
        Running {
            main: best as i128,
            beside: 0,
            number: place.saturating_sub(1),
        }
    }
}

#[inline(always)]
fn is_better(low: bool, x: i64, best: i64) -> bool
    requires cell { IsCell x }
    requires best { IsCell best }
    ensures yes { result ≡ true → rank low best < rank low x }
    ensures no { result ≡ false → rank low x ≤ rank low best }
{
    if low {
        if x == MISSING {
            false
        } else if best == MISSING {
            true
        } else {
            x < best
        }
    } else {
        x > best
    }
}

// A place in hundredths of the way from the oldest cell to the newest.
pub(crate) fn place_value(kept: &Running, a: &[i64]) -> i64
    requires few { length a.now ≤ most_window }
    requires cell { IsCell kept.now.main }
    requires known { (is_missing kept.now.main ≡ true) ↔ (count a.now ≡ 0) }
    requires place { kept.now.number ≡ first_place kept.now.main a.now }
    ensures value { result ≡ place_of kept.now.main a.now }
    ensures cell { IsCell result }
{
    place_of(kept.main as i64, kept.number, a)
}

// A place from 1 for the oldest cell.
pub(crate) fn numbered_place(kept: &Running, a: &[i64]) -> i64
    requires few { length a.now ≤ most_window }
    requires cell { IsCell kept.now.main }
    requires known { (is_missing kept.now.main ≡ true) ↔ (count a.now ≡ 0) }
    requires place { kept.now.number ≡ first_place kept.now.main a.now }
    ensures value { result ≡ place_number kept.now.main a.now }
    ensures cell { IsCell result }
{
    place_number(kept.main as i64, kept.number, a)
}
