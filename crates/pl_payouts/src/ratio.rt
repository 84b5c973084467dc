//! The ratio of a payout in lowest terms, or why it has none.

ghost use Rattle.std.specs.Prelude.{◌≡◌, ◌↔◌, ◌+◌, ◌<◌, ◌≤◌, ◌≢◌, ◌||◌, ℤ, pos, ◌-ℤ◌, ◌<ℤ◌, length, All, IfSome, Result};
ghost use Rattle.std.specs.Int.{IsGcd};
ghost use Rattle.std.specs.Int.RustNames.{unsigned_abs};
ghost use Rattle.std.specs.Ordering.{int_eq};
ghost use Rattle.pl_spec.specs.Rounding.{IsCell, Fraction, is_missing};
ghost use Rattle.pl_spec.specs.declared.RawAdjust.{RawAdjust};
ghost use Rattle.pl_payouts.specs.declared.ratio.Skip.{Skip};
ghost use Rattle.pl_payouts.specs.Payouts.{IsPayout};
ghost use Rattle.pl_adjust.specs.Revised.{IsKnown};
ghost use Rattle.pl_payouts.specs.Ratios.{close_before, effective_of, last_before, lowest, ratio_in, ratio_over, row_unless_fine};
ghost use Rattle.pl_payouts.specs.RatioRules.{ComesTo};

use crate::Payout;
use pl_bars::Bars;
use pl_calendar::Sessions;
use pl_fixed::MISSING;
use pl_lifetimes::Assets;
use pl_spec::{Column, RawAdjust};

const SECONDS_A_DAY: i64 = 86_400;

// The greatest part of a ratio of adjustments.
const MOST_PART: u64 = 1_000_000_000;

/// Why a payout has no row. The reasons are tested in this order.
#[derive(Clone, Copy, Debug, PartialEq, Eq)]
pub enum Skip {
    /// No session is before the ex day.
    NoSession,
    /// The asset has no bar on the last session before it, or its close there is missing or 0.
    NoClose,
    /// The amount is the close or more.
    NotBelow,
    /// In lowest terms the ratio has a part above 10^9, which no row of adjustments may have.
    TooFine,
}

/// The row of a payout in the table of dividends, or why it has none. `effective` is the midnight
/// of the ex day in seconds since 1970-01-01, `num / den` is `(close - amount) / close` in lowest
/// terms, where the close is the raw one of the last session before the ex day, and `id` is the
/// payout's number.
pub fn ratio_of(
    payout: &Payout,
    sessions: &Sessions,
    assets: &Assets,
    bars: &Bars,
) -> Result<RawAdjust, Skip>
    requires payout { IsPayout payout.now }
    requires known { IsKnown assets.now payout.now.sid }
    requires cols { All (λ b. b.col < length assets.now) bars.now }
    ensures exact { result ≡ ratio_in sessions.now assets.now bars.now payout.now }
    // Each reason exactly where it is the first, and the row exactly where there is none.
    ensures plain { (answer : Result RawAdjust Skip)
        → (result ≡ answer) ↔ ComesTo sessions.now assets.now bars.now payout.now answer }
{
    let _sessions = sessions.len();
    find_ratio(payout, sessions, assets, bars)
}

#[tactic(auto, unfolding(crate::specs::Ratios::ratio_in))]
fn find_ratio(
    payout: &Payout,
    sessions: &Sessions,
    assets: &Assets,
    bars: &Bars,
) -> Result<RawAdjust, Skip>
    requires payout { IsPayout payout.now }
    requires known { IsKnown assets.now payout.now.sid }
    requires cols { All (λ b. b.col < length assets.now) bars.now }
    ensures { result ≡ ratio_in sessions.now assets.now bars.now payout.now }
{
    match close_before(payout, sessions, assets, bars) {
        Some(close) => ratio_over(payout, close),
        None => Err(Skip::NoSession),
    }
}

// The raw close of the asset on the last session before the ex day, if there is such a session.
fn close_before(payout: &Payout, sessions: &Sessions, assets: &Assets, bars: &Bars) -> Option<i64>
    requires known { IsKnown assets.now payout.now.sid }
    requires cols { All (λ b. b.col < length assets.now) bars.now }
    ensures exact { result ≡ close_before sessions.now assets.now bars.now payout.now }
    ensures cell { IfSome result IsCell }
{
    let _assets = assets.len();
    let session = last_before(sessions, payout.ex)?;
    let col = assets.col_of(payout.sid).unwrap();
    Some(bars.get(col, session, Column::Close))
}

// The last session before the day.
fn last_before(sessions: &Sessions, day: i32) -> Option<usize>
    ensures { result ≡ last_before sessions.now day }
{
    let count = sessions.len();
    let behind = sessions.first_at_or_after(day).unwrap_or(count);
    behind.checked_sub(1)
}

// The row of a payout, or why it has none, where there is a session before its ex day.
#[tactic(auto, unfolding(crate::specs::Ratios::ratio_over))]
fn ratio_over(payout: &Payout, close: i64) -> Result<RawAdjust, Skip>
    requires payout { IsPayout payout.now }
    requires close { IsCell close }
    ensures { result ≡ ratio_over payout.now close }
{
    if is_no_close(close) {
        return Err(Skip::NoClose);
    }
    if close <= payout.amount {
        return Err(Skip::NotBelow);
    }
    row_of(payout, parts_over(payout.amount, close))
}

fn is_no_close(close: i64) -> bool
    ensures { result ≡ (is_missing close || int_eq close (pos 0)) }
{
    close == MISSING || close == 0
}

// What an amount leaves of the close, over the close.
fn parts_over(amount: i64, close: i64) -> Parts
    requires amount { pos 0 <ℤ amount }
    requires below { amount <ℤ close }
    ensures num { result.num ≡ (lowest (unsigned_abs (close -ℤ amount)) (unsigned_abs close)).num }
    ensures den { result.den ≡ (lowest (unsigned_abs (close -ℤ amount)) (unsigned_abs close)).den }
{
    let rest = close - amount;
    lowest(rest.unsigned_abs(), close.unsigned_abs())
}

// The row of a payout with the ratio of these parts, unless one of them is too large.
fn row_of(payout: &Payout, parts: Parts) -> Result<RawAdjust, Skip>
    requires { IsPayout payout.now }
    ensures { result ≡ row_unless_fine payout.now (record { num = parts.num; den = parts.den }) }
{
    if parts.num > MOST_PART || parts.den > MOST_PART {
        return Err(Skip::TooFine);
    }
    Ok(RawAdjust {
        id: payout.number as i64,
        effective: effective_of(payout),
        num: parts.num as i64,
        den: parts.den as i64,
        sid: payout.sid as i64,
    })
}

// The midnight of the ex day, in seconds since 1970-01-01.
pub(crate) fn effective_of(payout: &Payout) -> i64
    requires { IsPayout payout.now }
    ensures { result ≡ effective_of payout.now }
{
    payout.ex as i64 * SECONDS_A_DAY
}

// The numerator and the denominator of a fraction.
#[derive(Clone, Copy)]
struct Parts {
    num: u64,
    den: u64,
}

// The fraction a / b in lowest terms.
#[tactic(auto, unfolding(crate::specs::Ratios::lowest))]
fn lowest(a: u64, b: u64) -> Parts
    requires { 0 < b }
    ensures num { result.num ≡ (lowest a b).num }
    ensures den { result.den ≡ (lowest a b).den }
{
    let divisor = greatest_divisor(a, b);
    Parts {
        num: a / divisor,
        den: b / divisor,
    }
}

// The greatest number that divides both.
fn greatest_divisor(a: u64, b: u64) -> u64
    ensures { IsGcd a b result }
{
    let mut x = a;
    let mut y = b;
    while y != 0 {
        let rest = x % y;
        x = y;
        y = rest;
    }
    x
}
