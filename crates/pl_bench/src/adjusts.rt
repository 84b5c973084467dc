//! The adjustments.

ghost use Rattle.std.specs.Prelude.{◌≡◌, ◌-◌, ◌<◌, pos, length, All, IfOk};
ghost use Rattle.pl_adjust.specs.Columns.{by_place};
ghost use Rattle.pl_adjust.specs.Tables.{of_walk};
ghost use Rattle.pl_adjust.specs.declared.error.AdjustError.TheVariants as AdjustError;
ghost use Rattle.pl_adjust.specs.Rules.{AreRight};
ghost use Rattle.pl_adjust.specs.Walk.{walk};
ghost use Rattle.pl_bench.specs.Draws.{behind, drawn};
ghost use Rattle.pl_bench.specs.StatedWorld.{adjust, adjustments_from, stated_assets, stated_days};

use crate::draws::Draws;
use pl_adjust::laws::tables_in_plain_words;
use pl_adjust::{AdjustError, Adjustments};
use pl_assets::Assets;
use pl_calendar::Sessions;
use pl_fixed::Memory;
use pl_spec::RawAdjust;
use std::alloc::Global;

const SECONDS_A_DAY: i64 = 86_400;

// How often a split, a merger and a dividend follow one another.
const TURNS: u32 = 100;

/// The adjustments: a split, a merger and a dividend in turn.
pub(crate) fn draw_adjustments(
    alloc: Global,
    sessions: &Sessions,
    assets: &Assets,
    draws: &mut Draws,
) -> Result<Adjustments, Memory>
    requires sessions { sessions.now ≡ stated_days }
    requires assets { assets.now ≡ stated_assets }
    ensures adjustments { IfOk result (λ a. a ≡ adjustments_from draws.old) }
    ensures cols { IfOk result (All (λ x. x.col < length assets.now)) }
{
    let mut splits = Vec::new(alloc);
    let mut mergers = Vec::new(alloc);
    let mut dividends = Vec::new(alloc);
    for turn in 0..TURNS {
        let id = 3 * i64::from(turn);
        splits.push(draw_adjust(id, 1, 2, sessions, draws))?;
        mergers.push(draw_adjust(id + 1, 9, 10, sessions, draws))?;
        dividends.push(draw_dividend(id + 2, sessions, draws))?;
    }
    adjustments_of(alloc, assets, &splits, &mergers, &dividends)
}

// A row, which draws its sid and then the session from whose midnight on it acts.
fn draw_adjust(id: i64, num: i64, den: i64, sessions: &Sessions, draws: &mut Draws) -> RawAdjust
    requires { sessions.now ≡ stated_days }
    ensures row { result ≡ adjust draws.old id num den }
    ensures draws { draws.new ≡ behind draws.old 2 }
{
    let sid = i64::from(1 + draws.draw(400));
    let session = 1 + draws.draw(599);
    let effective = i64::from(sessions.day(session as usize)) * SECONDS_A_DAY;
    RawAdjust {
        id,
        effective,
        num,
        den,
        sid,
    }
}

// A dividend, which also draws by how many thousandths it lowers what is seen.
fn draw_dividend(id: i64, sessions: &Sessions, draws: &mut Draws) -> RawAdjust
    requires { sessions.now ≡ stated_days }
    ensures row { result ≡ adjust draws.old id (pos (1000 - drawn draws.old 2 30)) (pos 1000) }
    ensures draws { draws.new ≡ behind draws.old 3 }
{
    let row = draw_adjust(id, 1000, 1000, sessions, draws);
    RawAdjust {
        num: 1000 - i64::from(draws.draw(30)),
        ..row
    }
}

// The adjustments of tables in which each row is right.
fn adjustments_of(
    alloc: Global,
    assets: &Assets,
    splits: &[RawAdjust],
    mergers: &[RawAdjust],
    dividends: &[RawAdjust],
) -> Result<Adjustments, Memory>
    requires { AreRight (walk splits.now mergers.now dividends.now) }
    ensures adjustments { IfOk result (λ a. a
        ≡ by_place (of_walk assets.now splits.now mergers.now dividends.now)) }
    ensures cols { IfOk result (All (λ x. x.col < length assets.now)) }
{
    tables_in_plain_words();
    match Adjustments::from_rows(alloc, assets, splits, mergers, dividends) {
        Ok(adjustments) => Ok(adjustments),
        Err(error) => Err(want_of_memory(error)),
    }
}

// Right rows have no fault, so that an error of theirs is want of memory.
fn want_of_memory(error: AdjustError) -> Memory
    requires { error ≡ AdjustError.Memory }
{
    match error {
        AdjustError::Memory => Memory,
        _ => unreachable!(),
    }
}
