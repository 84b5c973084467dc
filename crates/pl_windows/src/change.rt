//! How many cells of a window are told.

ghost use Rattle.std.specs.Prelude.{◌≡◌, ◌<◌, ◌≤◌, length, pos};
ghost use Rattle.pl_spec.specs.Parts.{sid_at};
ghost use Rattle.pl_spec.specs.Window.{before};
ghost use Rattle.pl_spec.specs.World.{exists};
ghost use Rattle.pl_windows.specs.Ranges.{IsAsked, IsSession, asked_world};
ghost use Rattle.pl_windows.specs.Windows.{is_changed, is_whole, told};

use crate::asked::Asked;
use crate::line::Place;
use pl_world::exists;

/// How many of the newest cells of an asset's window are told on a session on which it exists.
pub(crate) fn cells_told(asked: &Asked<'_>, place: Place) -> usize
    requires asked { IsAsked asked.now }
    requires session { IsSession asked.now place.session }
    requires col { place.col < length asked.now.world.assets.now }
    ensures value { result ≡ told (asked_world asked.now) asked.now.window asked.now.from
        (sid_at asked.now.world.assets.now place.col) place.session }
    ensures some { 1 ≤ result }
    ensures most { result ≤ asked.now.window }
{
    if is_whole(asked, place) {
        asked.window
    } else {
        1
    }
}

// Whether the whole window is told.
#[tactic(auto, unfolding(crate::specs::Windows::is_whole))]
fn is_whole(asked: &Asked<'_>, place: Place) -> bool
    requires asked { IsAsked asked.now }
    requires session { IsSession asked.now place.session }
    requires col { place.col < length asked.now.world.assets.now }
    ensures { result ≡ is_whole (asked_world asked.now) asked.now.from
        (sid_at asked.now.world.assets.now place.col) place.session }
{
    if place.session == asked.from {
        return true;
    }
    !existed(asked, place) || is_changed(asked, place)
}

// Whether the asset existed on the session before.
fn existed(asked: &Asked<'_>, place: Place) -> bool
    requires asked { IsAsked asked.now }
    requires session { IsSession asked.now place.session }
    requires col { place.col < length asked.now.world.assets.now }
    ensures { result ≡ exists (asked_world asked.now) (sid_at asked.now.world.assets.now place.col)
        (before (pos place.session) 1) }
{
    exists(&asked.world, place.col, place.session - 1)
}

// Whether an adjustment or a revision of the asset became effective since the session before.
fn is_changed(asked: &Asked<'_>, place: Place) -> bool
    requires asked { IsAsked asked.now }
    requires session { IsSession asked.now place.session }
    requires col { place.col < length asked.now.world.assets.now }
    ensures { result ≡ is_changed (asked_world asked.now) (sid_at asked.now.world.assets.now place.col)
        (pos place.session) }
{
    let sessions = asked.world.sessions;
    let before = sessions.day(place.session - 1);
    let day = sessions.day(place.session);
    !asked
        .world
        .adjustments
        .events_between(place.col, before, day)
        .is_empty()
}
