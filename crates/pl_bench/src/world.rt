//! The stated world: a large world that anyone can make anew from a number, for measures of a run.
//!
//! It has 400 assets over 600 weekdays from 2020-01-01 on, a sector for each asset, a bar for each asset and
//! session, and 300 adjustments. All that varies is drawn by a linear congruential generator whose state
//! begins with the number. The world is this project's own, and no market's.

ghost use Rattle.std.specs.Prelude.{◌≡◌, ◌<◌, All, IfOk, length};
ghost use Rattle.pl_world.specs.Worlds.{owned_world, IsOwnedMade};
ghost use Rattle.pl_bench.specs.StatedWorld.{IsStated, stated_world};
ghost use Rattle.pl_bench.specs.StatedWorld.{stated_adjustments, stated_assets, stated_bars};
ghost use Rattle.pl_bench.specs.StatedWorld.{stated_days, stated_labels};

use crate::draws::Draws;
use crate::{adjusts, bars, sectors, sessions};
use pl_adjust::Adjustments;
use pl_assets::{Assets, Labels};
use pl_bars::Bars;
use pl_calendar::Sessions;
use pl_fixed::Memory;
use pl_numbers::Numbers;
use pl_world::OwnedWorld;
use std::alloc::Global;

/// How many assets there are; their sids are 1, 2 and so on.
pub const ASSETS: u32 = 400;

/// How many sessions there are.
pub const SESSIONS: u32 = 600;

// What is drawn for assets over sessions.
#[derive(Drop)]
struct Drawn {
    labels: Labels,
    bars: Bars,
    adjustments: Adjustments,
}

// Draws it in its order, from the state that is the number.
fn draw(alloc: Global, number: u32, sessions: &Sessions, assets: &Assets) -> Result<Drawn, Memory>
    requires sessions { sessions.now ≡ stated_days }
    requires assets { assets.now ≡ stated_assets }
    ensures labels { IfOk result (λ d. d.labels ≡ stated_labels number) }
    ensures bars { IfOk result (λ d. d.bars ≡ stated_bars number) }
    ensures adjustments { IfOk result (λ d. d.adjustments ≡ stated_adjustments number) }
    ensures cols { IfOk result (λ d. All (λ x. x.col < length assets.now) d.adjustments) }
{
    let mut draws = Draws::new(number);
    let labels = sectors::draw_sectors(alloc, assets, sessions.day(0), &mut draws)?;
    let bars = bars::draw_bars(alloc, &mut draws)?;
    let adjustments = adjusts::draw_adjustments(alloc, sessions, assets, &mut draws)?;
    Ok(Drawn {
        labels,
        bars,
        adjustments,
    })
}

/// The stated world of a number, made anew in memory: 400 assets over 600 sessions with all their bars, a
/// sector each under one name, and 300 adjustments. It is the same on every machine. The only error is want
/// of memory.
pub fn make_world(alloc: Global, number: u32) -> Result<OwnedWorld, Memory>
    ensures stated { IfOk result (IsStated number) }
    ensures world { IfOk result (λ w. owned_world w ≡ stated_world number) }
    // Its parts were made for its own sessions and assets.
    ensures made { IfOk result IsOwnedMade }
{
    let sessions = sessions::make_sessions(alloc)?;
    let assets = sessions::make_assets(alloc, &sessions)?;
    let drawn = draw(alloc, number, &sessions, &assets)?;
    let numbers = Numbers::none(alloc);
    Ok(OwnedWorld {
        sessions,
        assets,
        labels: drawn.labels,
        bars: drawn.bars,
        adjustments: drawn.adjustments,
        numbers,
    })
}
