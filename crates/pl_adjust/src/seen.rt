//! A cell as it is seen from a later day.

ghost use Rattle.std.specs.Prelude.{◌≡◌, ◌+◌, ◌≤ℤ◌, ◌&&◌, option_to_list};
ghost use Rattle.std.specs.Prelude.{AllPairs, filter, length, map, take_while};
ghost use Rattle.std.specs.Int.RustNames.{int_lt, int_le};
ghost use Rattle.pl_spec.specs.Rounding.{IsCell};
ghost use Rattle.pl_spec.specs.Window.{after_all, changed, effect, effects_in, step_count, step_of};
ghost use Rattle.pl_adjust.specs.Events.{IsPut, PutCells, PutsCell, effect_of, event_of};

use crate::adjust::{Adjust, Effect, effect_for};
use pl_fixed::{Column, Steps};
use std::sync::ledger::Ledger;

/// The cell of a bar column in a bar of the day `bar_day` as it is seen on `day`, in millionths; both are
/// counted from 1970-01-01. Each adjustment of the list that acts on it later than the one day and by the
/// other changes it, one after the other. Each product is rounded, and is one step; to overwrite is none.
pub fn seen_now<L: Ledger>(
    cell: i64,
    bar_day: i32,
    day: i32,
    list: &[Adjust],
    column: Column,
    steps: &mut Steps<L>,
) -> i64
    requires cell { IsCell cell }
    requires cells { PutCells (map event_of list.now) }
    requires in_order { AllPairs (λ a b. a.day ≤ℤ b.day) list.now }
    ensures value { result
        ≡ after_all cell (effects_in column bar_day bar_day day (map event_of list.now)) }
    ensures cell { IsCell result }
    ensures cost { steps.new
        ≡ steps.old + step_count (effects_in column bar_day bar_day day (map event_of list.now)) }
{
    let mut seen = cell;
    for adjust in between(list, bar_day, day) {
        seen = adjusted(seen, adjust, bar_day, column, steps);
    }
    seen
}

// The cell after an adjustment, which may leave it as it is.
fn adjusted<L: Ledger>(
    cell: i64,
    adjust: &Adjust,
    bar_day: i32,
    column: Column,
    steps: &mut Steps<L>,
) -> i64
    requires cell { IsCell cell }
    requires put { PutsCell (event_of adjust.now) }
    ensures value { result
        ≡ after_all cell (option_to_list (effect column bar_day (event_of adjust.now))) }
    ensures cell { IsCell result }
    ensures cost { steps.new
        ≡ steps.old + step_count (option_to_list (effect column bar_day (event_of adjust.now))) }
{
    match effect_for(adjust, bar_day, column) {
        Some(effect) => changed(cell, effect, steps),
        None => cell,
    }
}

// The cell after an effect.
fn changed<L: Ledger>(cell: i64, effect: Effect, steps: &mut Steps<L>) -> i64
    requires cell { IsCell cell }
    requires put { IsPut effect }
    ensures value { result ≡ changed cell (effect_of effect) }
    ensures cell { IsCell result }
    ensures cost { steps.new ≡ steps.old + step_of (effect_of effect) }
{
    match effect {
        Effect::Scale(ratio) => ratio.apply(cell, steps),
        Effect::Put(value) => value,
    }
}

// The adjustments later than one day and at most as late as another.
pub(crate) fn between(list: &[Adjust], low: i32, high: i32) -> &[Adjust]
    requires { AllPairs (λ a b. a.day ≤ℤ b.day) list.now }
    ensures { result.now ≡ filter (λ a. int_lt low a.day && int_le a.day high) list.now }
{
    let from = list.partition_point(|adjust| adjust.day <= low);
    let later = &list[from..];
    &later[..count_by(later, high)]
}

// How many adjustments at the front act by the day. They are few, so they are not searched.
fn count_by(list: &[Adjust], day: i32) -> usize
    ensures { result ≡ length (take_while (λ a. int_le a.day day) list.now) }
{
    list.iter().take_while(|adjust| adjust.day <= day).count()
}
