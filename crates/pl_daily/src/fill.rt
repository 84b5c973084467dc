//! A day's terms and reaches, in the room that is held for them.
ghost use Rattle.std.specs.Prelude.{◌≡◌, ◌<◌, List, length};
ghost use Rattle.pl_terms.specs.Checked.{pipeline_of};
ghost use Rattle.pl_daily.specs.Days.{FedDay};
ghost use Rattle.pl_daily.specs.Reaches.{FollowFirst};
ghost use Rattle.pl_daily.specs.Room.{IsRoom};
ghost use Rattle.pl_daily.specs.Steps.{sessions_of};
ghost use Rattle.pl_daily.specs.Terms.{AreStarts, AreTerms, FollowTerms, IsPlaced, assets_at, pipeline_at, rooms};

use crate::reaches::advance_reaches;
use crate::room::Room;
use crate::starts::StartCells;
use crate::term_day::TermCells;
use crate::terms::{Lent, advance_terms};
use pl_terms::Checked;

/// Takes the day into all used terms, which the rings of bars have already.
pub(crate) fn fill_terms(
    lent: &Lent<'_>,
    terms: &mut Vec<TermCells>,
    starts: &mut Vec<StartCells>,
    room: &mut Room,
)
    requires placed { (next : FedDay) × (days : List FedDay)
        × IsPlaced lent.now terms.old.items starts.old.items next days }
    requires terms { AreTerms (assets_at lent.now) (pipeline_at lent.now) lent.now.bars.now terms.old.items }
    requires starts { AreStarts (assets_at lent.now) (pipeline_at lent.now) starts.old.items }
    requires room { IsRoom (assets_at lent.now) (length (pipeline_at lent.now).graph) room.old }
    ensures follow { FollowTerms lent.now terms.old.items starts.old.items terms.new.items starts.new.items }
    ensures terms { AreTerms (assets_at lent.now) (pipeline_at lent.now) lent.now.bars.now terms.new.items }
    ensures rooms { rooms terms.new.items ≡ rooms terms.old.items }
    ensures starts { AreStarts (assets_at lent.now) (pipeline_at lent.now) starts.new.items }
    ensures room { IsRoom (assets_at lent.now) (length (pipeline_at lent.now).graph) room.new }
{
    advance_terms(lent, terms, starts, room);
}

// The sessions of starts.
fn put_sessions(starts: &[StartCells], sessions: &mut [usize])
    requires { length sessions.old ≡ length starts.now }
    ensures { sessions.new ≡ sessions_of starts.now }
{
    for k in 0..sessions.len() {
        sessions[k] = starts[k].session;
    }
}

/// Takes in the session numbered `fed`, whose starts are given.
pub(crate) fn take_reaches(
    checked: &Checked,
    starts: &[StartCells],
    fed: usize,
    room: &mut Room,
    since: &mut Vec<Option<usize>>,
)
    requires starts { length starts.now ≡ length (pipeline_of checked.now).graph }
    requires room { length room.old.sessions.items ≡ length (pipeline_of checked.now).graph }
    requires since { length since.old.items ≡ length (pipeline_of checked.now).graph }
    ensures long { length since.new.items ≡ length (pipeline_of checked.now).graph }
    ensures follow { FollowFirst (pipeline_of checked.now) (sessions_of starts.now) fed since.old.items
        since.new.items }
    ensures sessions { length room.new.sessions.items ≡ length (pipeline_of checked.now).graph }
    ensures rest { room.new ≡ record room.old { sessions = room.new.sessions } }
{
    put_sessions(starts, &mut room.sessions);
    advance_reaches(checked, &room.sessions, fed, since);
}
