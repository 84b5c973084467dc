//! Whether an asset exists on a session.

ghost use Rattle.std.specs.Prelude.{◌≡◌, ◌<◌, pos, length};
ghost use Rattle.pl_spec.specs.Parts.{sid_at};
ghost use Rattle.pl_spec.specs.World.{exists};
ghost use Rattle.pl_lifetimes.specs.Assets.{AreAssets};
ghost use Rattle.pl_world.specs.Worlds.{world_of};

use crate::world::World;

/// Whether the asset in column `col` exists on a session: later than its start day, and up to its end.
pub fn exists(world: &World, col: usize, session: usize) -> bool
    requires col { col < length world.now.assets.now }
    requires session { session < length world.now.sessions.now }
    ensures value { result ≡ exists (world_of world.now)
        (sid_at world.now.assets.now col) (pos session) }
    ensures assets { AreAssets world.now.assets.now }
{
    let day = world.sessions.day(session);
    world.assets.exists(col, day)
}
