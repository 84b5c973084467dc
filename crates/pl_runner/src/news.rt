//! The news of a session: the bars of the session before it, and the adjustments since then.
ghost use Rattle.std.specs.Prelude.{◌≡◌, ◌≤◌, ◌<◌, ◌+◌, ◌^◌, ◌++◌, ◌≤ℤ◌, length, map, filter, AllPairs, vec_len, vec_capacity, None, All};
ghost use Rattle.std.specs.List.{range_with_len};
ghost use Rattle.pl_spec.specs.Rounding.{IsCell};
ghost use Rattle.pl_adjust.specs.Events.{event_of};
ghost use Rattle.pl_daily.specs.Changes.{column_event};
ghost use Rattle.pl_runner.specs.Feeds.{is_due};
ghost use Rattle.pl_runner.specs.Days.{bars_due, col_due, events_due, in_col};
ghost use Rattle.pl_runner.specs.Days as spec;

use pl_adjust::Adjust;
use pl_bars::Bars;
use pl_daily::{DayBar, DayEvent};
use pl_world::World;

// The bar of the asset in a column; its cells are missing where there is none. It is looked up from the
// asset's place.
fn bar_at(bars: &Bars, col: usize, session: usize, place: &mut usize) -> DayBar
    requires { col < 2 ^ 32 }
    ensures { result ≡ spec.bar_at bars.now session col }
{
    DayBar {
        col: col as u32,
        cells: bars.cells_onward(col, session, place),
    }
}

/// Puts the bars of the session before this one in place of those that are there. There is room for them.
/// Each asset has a place among all bars, from where its next one is looked up.
pub(crate) fn fill_bars(
    world: &World<'_>,
    session: usize,
    places: &mut [usize],
    bars: &mut Vec<DayBar>,
)
    requires places { length world.now.assets.now ≤ length places.old }
    requires room { length world.now.assets.now ≤ vec_capacity bars.old }
    ensures bars { bars.new.items ≡ bars_due world.now.bars.now (length world.now.assets.now) session }
    ensures places { length places.new ≡ length places.old }
    ensures room { length world.now.assets.now ≤ vec_capacity bars.new }
{
    bars.clear();
    if session > 0 {
        for col in 0..world.assets.len() {
            let bar = bar_at(world.bars, col, session - 1, &mut places[col]);
            bars.push(bar).unwrap();
        }
    }
}

// The adjustments at the front whose days are at most this one.
fn up_to(adjusts: &[Adjust], day: i32) -> &[Adjust]
    requires { AllPairs (λ a b. a.day ≤ℤ b.day) adjusts.now }
    ensures { map event_of result.now ≡ filter (is_due None day) (map event_of adjusts.now) }
{
    &adjusts[..adjusts.partition_point(|adjust| adjust.day <= day)]
}

// The adjustments of the asset in a column that come to be known on a session. On the first one these are all
// up to its day.
fn due<'a>(world: &World<'a>, col: usize, session: usize) -> &'a [Adjust]
    requires { session < length world.now.sessions.now }
    ensures { map event_of result.now ≡ col_due world.now.sessions.now world.now.adjustments.now session col }
{
    let day = world.sessions.day(session);
    if session == 0 {
        up_to(world.adjustments.of_col(col), day)
    } else {
        let before = world.sessions.day(session - 1);
        world.adjustments.events_between(col, before, day)
    }
}

// Puts the adjustments of the asset in a column after those that are there.
fn put_events(col: u32, adjusts: &[Adjust], events: &mut Vec<DayEvent>)
    requires { vec_len events.old + length adjusts.now ≤ vec_capacity events.old }
    ensures events { map column_event events.new.items
        ≡ map column_event events.old.items ++ map (in_col col) (map event_of adjusts.now) }
    ensures count { vec_len events.new ≡ vec_len events.old + length adjusts.now }
    ensures room { vec_capacity events.old ≤ vec_capacity events.new }
{
    for adjust in adjusts {
        events
            .push(DayEvent {
                col,
                adjust: *adjust,
            })
            .unwrap();
    }
}

/// Puts the adjustments that come to be known on a session in place of those that are there. There is room
/// for them.
pub(crate) fn fill_events(world: &World<'_>, session: usize, events: &mut Vec<DayEvent>)
    requires session { session < length world.now.sessions.now }
    requires room { length world.now.adjustments.now ≤ vec_capacity events.old }
    ensures events { map column_event events.new.items ≡ events_due world.now.sessions.now
        world.now.adjustments.now (length world.now.assets.now) session }
    ensures room { length world.now.adjustments.now ≤ vec_capacity events.new }
{
    events.clear();
    for col in 0..world.assets.len() {
        put_events(col as u32, due(world, col, session), events);
    }
}
