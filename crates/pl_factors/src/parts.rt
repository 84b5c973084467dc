//! What a cell adds to a sum and to a count, and how a sum moves.

ghost use Rattle.std.specs.Prelude.{◌≡◌, ◌≤◌, ◌*◌, unsigned_abs};
ghost use Rattle.pl_spec.specs.Limits.{most_window};
ghost use Rattle.pl_spec.specs.Rounding.{IsCell, LIMIT};
ghost use Rattle.pl_factors.specs.Spans.{part, presence};
ghost use Rattle.pl_factors.specs.Laws.{moved};

use pl_fixed::MISSING;

// The cell, and 0 where it is missing.
#[tactic(auto, unfolding(crate::specs::Spans::part))]
pub(crate) fn part(x: i64) -> i128
    requires { IsCell x }
    ensures value { result ≡ part x }
    ensures small { unsigned_abs result ≤ LIMIT }
{
    if x == MISSING { 0 } else { x as i128 }
}

// 1, and 0 where the cell is missing.
#[tactic(auto, unfolding(crate::specs::Spans::presence))]
pub(crate) fn presence(x: i64) -> usize
    ensures value { result ≡ presence x }
    ensures few { result ≤ 1 }
{
    if x == MISSING { 0 } else { 1 }
}

// The sum, less what leaves it, and with what enters.
pub(crate) fn moved(sum: i128, leaves: i128, enters: i128) -> i128
    requires sum { unsigned_abs sum ≤ most_window * (LIMIT * LIMIT) }
    requires leaves { unsigned_abs leaves ≤ LIMIT * LIMIT }
    requires enters { unsigned_abs enters ≤ LIMIT * LIMIT }
    ensures { result ≡ moved sum leaves enters }
{
    sum - leaves + enters
}
