//! What a day's adjustments make of rings of bars.
ghost use Rattle.std.specs.Prelude.{◌≡◌, ℕ, ◌+◌, ◌*◌, ◌<◌, ◌==◌, true, [], ◌∷◌, min, length, map, get_or, option_to_list, All};
ghost use Rattle.std.specs.List.{list_any};
ghost use Rattle.pl_spec.specs.Rounding.{IsCell};
ghost use Rattle.pl_spec.specs.Window.{after_all, changed as change, effect, step_count, step_of};
ghost use Rattle.pl_adjust.specs.Events.{IsPut, PutsCell, effect_of, event_of};
ghost use Rattle.pl_adjust.specs.Columns.{events_at};
ghost use Rattle.pl_daily.specs.Rings.{changed_cells, known_days, scaling};
ghost use Rattle.pl_daily.specs.Changes.{AreRings, IsRing, changed, column_event, ring_at};

use crate::bars::put;
use crate::day::DayEvent;
use circular_buffer::HeapCircularBuffer;
use pl_adjust::{Adjust, Effect, effect_for};
use pl_fixed::{Column, Steps};
use std::sync::ledger::Ledger;

// The cell after an effect.
fn after<L: Ledger>(cell: i64, effect: Effect, steps: &mut Steps<L>) -> i64
    requires cell { IsCell cell }
    requires put { IsPut effect }
    ensures value { result ≡ change cell (effect_of effect) }
    ensures cell { IsCell result }
    ensures cost { steps.new ≡ steps.old + step_of (effect_of effect) }
{
    match effect {
        Effect::Scale(ratio) => ratio.apply(cell, steps),
        Effect::Put(value) => value,
    }
}

// The cell of a bar after an adjustment, which may leave it as it is.
fn adjusted<L: Ledger>(
    cell: i64,
    adjust: &Adjust,
    bar_day: i32,
    column: Column,
    steps: &mut Steps<L>,
) -> i64
    requires cell { IsCell cell }
    requires put { PutsCell (event_of adjust.now) }
    ensures value { result
        ≡ after_all cell (option_to_list (effect column bar_day (event_of adjust.now))) }
    ensures cell { IsCell result }
    ensures cost { steps.new
        ≡ steps.old + step_count (option_to_list (effect column bar_day (event_of adjust.now))) }
{
    match effect_for(adjust, bar_day, column) {
        Some(effect) => after(cell, effect, steps),
        None => cell,
    }
}

// What an adjustment makes of the cells of the sessions of these days, of which the last ones were fed.
fn change_cells<L: Ledger>(
    cells: &mut [i64],
    days: &[i32],
    fed: usize,
    event: &DayEvent,
    column: Column,
    steps: &mut Steps<L>,
)
    requires days { length days.now ≡ length cells.old }
    requires cells { All IsCell cells.old }
    requires put { PutsCell (event_of event.now.adjust) }
    ensures value { cells.new
        ≡ changed_cells column (event_of event.now.adjust ∷ []) (known_days fed days.now) cells.old }
    ensures cells { All IsCell cells.new }
    ensures cost { steps.new
        ≡ steps.old + length (scaling column (event.now ∷ [])) * min (length cells.old) fed }
{
    let from = cells.len() - fed.min(cells.len());
    for i in from..cells.len() {
        let cell = adjusted(cells[i], &event.adjust, days[i], column, steps);
        put(cells, i, cell);
    }
}

// What an event makes of a ring.
fn take_event<L: Ledger>(
    ring: &mut HeapCircularBuffer<i64>,
    days: &[i32],
    fed: usize,
    event: &DayEvent,
    column: Column,
    steps: &mut Steps<L>,
)
    requires ring { IsRing (length days.now) ring.old }
    requires put { PutsCell (event_of event.now.adjust) }
    ensures value { ring.new
        ≡ changed column (event_of event.now.adjust ∷ []) (known_days fed days.now) ring.old }
    ensures ring { IsRing (length days.now) ring.new }
    ensures cost { steps.new
        ≡ steps.old + length (scaling column (event.now ∷ [])) * min (length days.now) fed }
{
    change_cells(ring.make_contiguous(), days, fed, event, column, steps);
}

/// What a day's events make of the rings of a column, in their order. The days are those of the sessions of
/// the rings' cells, of which the last ones were fed.
pub(crate) fn take_events<L: Ledger>(
    rings: &mut [HeapCircularBuffer<i64>],
    days: &[i32],
    fed: usize,
    events: &[DayEvent],
    column: Column,
    steps: &mut Steps<L>,
)
    requires rings { AreRings (length rings.old) (length days.now) rings.old }
    requires within { All (λ e. e.col < length rings.old) events.now }
    requires put { All (λ e. PutsCell (event_of e.adjust)) events.now }
    ensures each { (i : ℕ) → i < length rings.old → ring_at rings.new i ≡ changed column
        (events_at (map column_event events.now) i) (known_days fed days.now) (ring_at rings.old i) }
    ensures rings { AreRings (length rings.old) (length days.now) rings.new }
    ensures cost { steps.new
        ≡ steps.old + length (scaling column events.now) * min (length days.now) fed }
{
    for event in events {
        take_event(
            &mut rings[event.col as usize],
            days,
            fed,
            event,
            column,
            steps,
        );
    }
}

/// Marks the assets that have events, by column.
pub(crate) fn mark_changed(events: &[DayEvent], changed: &mut [bool])
    requires { All (λ e. e.col < length changed.old) events.now }
    ensures long { length changed.new ≡ length changed.old }
    ensures marked { (i : ℕ) → i < length changed.old
        → get_or changed.new i true ≡ list_any (λ e. e.col == i) events.now }
{
    changed.fill(false);
    for event in events {
        changed[event.col as usize] = true;
    }
}
