//! What of a world is known by a session.

ghost use Rattle.std.specs.Prelude.{◌<◌, length, IfOk};
ghost use Rattle.pl_world.specs.Worlds.{IsMade, IsOwnedMade};
ghost use Rattle.pl_world.specs.Known.{IsKnown, ShowsSameUpTo};

use crate::laws::parts_make_a_world;
use crate::owned::OwnedWorld;
use crate::world::World;
use pl_fixed::Memory;
use std::alloc::Global;

/// The world as of a session, copied: its sessions up to that one, the bars of the sessions before it, the
/// label rows, the adjustments and the numbers that count by its day, all assets, and all label texts with
/// their codes. The only error is want of memory.
pub fn asof_world(alloc: Global, world: &World, session: usize) -> Result<OwnedWorld, Memory>
    requires made { IsMade world.now }
    requires within { session < length world.now.sessions.now }
    ensures known { IfOk result (IsKnown world.now session) }
    // Its parts were made for its own sessions and assets.
    ensures made { IfOk result IsOwnedMade }
    // Its rows up to the session are those of the whole world, and are written alike.
    ensures same { IfOk result (ShowsSameUpTo world.now session) }
{
    parts_make_a_world(world);
    let day = world.sessions.day(session);
    let sessions = world.sessions.cut(alloc, session + 1)?;
    let assets = world.assets.copy(alloc)?;
    let labels = world.labels.cut(alloc, day)?;
    let bars = world.bars.cut(alloc, session)?;
    let adjustments = world.adjustments.cut(alloc, day)?;
    let numbers = world.numbers.cut(alloc, day)?;
    Ok(OwnedWorld {
        sessions,
        assets,
        labels,
        bars,
        adjustments,
        numbers,
    })
}
