//! The cells of a bar as a later session sees it.
ghost use Rattle.std.specs.Prelude.{◌≡◌, ◌<◌, ◌+◌, All, IfOk, OnOk, length, map, option_to_list, pos};
ghost use Rattle.pl_spec.specs.Rounding.{IsCell};
ghost use Rattle.pl_spec.specs.Parts.{sid_at};
ghost use Rattle.pl_spec.specs.Window.{changed, effect, effects, step_count, step_of};
ghost use Rattle.pl_adjust.specs.Events.{IsPut, PutCells, PutsCell, effect_of, effects_of, event_of};
ghost use Rattle.pl_derivation.specs.Right.{after_each, seen_cells};
ghost use Rattle.pl_lifetimes.specs.Assets.{AreAssets};
ghost use Rattle.pl_world.specs.Worlds.{world_of, IsMade};
ghost use Rattle.pl_explain.specs.Given.{GrowsBy};

use pl_adjust::{Adjust, Effect, effect_for};
use pl_fixed::{Column, Memory, Steps};
use pl_world::World;
use std::alloc::Global;
use std::sync::ledger::Ledger;

/// The cell of the bar of an earlier session, and what it is after each adjustment in turn that acts on it
/// until it is seen on this session, in millionths. Each product is one step. The only error is want of
/// memory.
pub(crate) fn seen_cells<L: Ledger>(
    alloc: Global,
    world: &World,
    column: Column,
    col: usize,
    bar: usize,
    session: usize,
    steps: &mut Steps<L>,
) -> Result<Vec<i64>, Memory>
    requires made { IsMade world.now }
    requires assets { AreAssets world.now.assets.now }
    requires col { col < length world.now.assets.now }
    requires bar { bar < session }
    requires session { session < length world.now.sessions.now }
    ensures value { IfOk result (λ v. v.items
        ≡ seen_cells (world_of world.now) (sid_at world.now.assets.now col) column (pos bar) (pos session)) }
    ensures cells { IfOk result (λ v. All IsCell v.items) }
    ensures cost { OnOk result (steps.new ≡ steps.old + step_count (effects (world_of world.now)
        (sid_at world.now.assets.now col) column (pos bar) (pos session))) }
{
    let bar_day = world.sessions.day(bar);
    let day = world.sessions.day(session);
    let cell = world.bars.get(col, bar, column);
    let list = world.adjustments.events_between(col, bar_day, day);
    after_each(alloc, cell, list, bar_day, column, steps)
}

// A cell, and what it is after each adjustment that acts on it.
fn after_each<L: Ledger>(
    alloc: Global,
    cell: i64,
    list: &[Adjust],
    bar_day: i32,
    column: Column,
    steps: &mut Steps<L>,
) -> Result<Vec<i64>, Memory>
    requires cell { IsCell cell }
    requires put { PutCells (map event_of list.now) }
    ensures value { IfOk result (λ v. v.items ≡ after_each cell (effects_of column bar_day list.now)) }
    ensures cells { IfOk result (λ v. All IsCell v.items) }
    ensures cost { OnOk result (steps.new
        ≡ steps.old + step_count (effects_of column bar_day list.now)) }
{
    let mut seen = cell;
    let mut cells = Vec::new(alloc);
    cells.push(seen)?;
    for adjust in list {
        seen = push_changed(&mut cells, seen, adjust, bar_day, column, steps)?;
    }
    Ok(cells)
}

// Puts what a cell is after an adjustment after the others, and gives it, where the adjustment acts on it.
fn push_changed<L: Ledger>(
    cells: &mut Vec<i64>,
    cell: i64,
    adjust: &Adjust,
    bar_day: i32,
    column: Column,
    steps: &mut Steps<L>,
) -> Result<i64, Memory>
    requires cell { IsCell cell }
    requires put { PutsCell (event_of adjust.now) }
    requires cells { All IsCell cells.old.items }
    ensures value { IfOk result (λ x. GrowsBy cell
        (effect column bar_day (event_of adjust.now)) cells.old.items cells.new.items x) }
    ensures cell { IfOk result IsCell }
    ensures cells { OnOk result (All IsCell cells.new.items) }
    ensures cost { OnOk result (steps.new
        ≡ steps.old + step_count (option_to_list (effect column bar_day (event_of adjust.now)))) }
{
    match effect_for(adjust, bar_day, column) {
        None => Ok(cell),
        Some(effect) => {
            let next = changed(cell, effect, steps);
            cells.push(next)?;
            Ok(next)
        }
    }
}

// The cell after an effect.
fn changed<L: Ledger>(cell: i64, effect: Effect, steps: &mut Steps<L>) -> i64
    requires cell { IsCell cell }
    requires put { IsPut effect }
    ensures value { result ≡ changed cell (effect_of effect) }
    ensures cell { IsCell result }
    ensures cost { steps.new ≡ steps.old + step_of (effect_of effect) }
{
    match effect {
        Effect::Scale(ratio) => ratio.apply(cell, steps),
        Effect::Put(value) => value,
    }
}
