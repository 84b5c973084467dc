//! The bars that an evaluation reads, and what it makes of a mask.

ghost use Rattle.std.specs.Prelude.{◌≡◌, ◌+◌, ◌<◌, ◌≤◌, All, IfOk, OnOk, length, pos};
ghost use Rattle.pl_spec.specs.Cells.{is_true};
ghost use Rattle.pl_spec.specs.Parts.{sid_at};
ghost use Rattle.pl_spec.specs.Rounding.{IsCell};
ghost use Rattle.pl_pipeline.specs.Value.{seen_window};
ghost use Rattle.pl_spec.specs.Window.{effects, seen_cell, step_count};
ghost use Rattle.pl_lifetimes.specs.Assets.{AreAssets};
ghost use Rattle.pl_world.specs.Worlds.{world_of, IsMade};
ghost use Rattle.pl_model.specs.WindowSteps.{window_steps};

use pl_adjust::seen_now;
use pl_fixed::{Column, Memory, Steps};
use pl_world::World;
use std::alloc::Global;
use std::sync::ledger::Ledger;

/// Whether a mask of this value lets the asset pass.
pub(crate) fn is_true(value: i64) -> bool
    ensures { result ≡ is_true value }
{
    value == 1
}

/// The sessions of a window of bars: so many before one, seen from that one or a later one.
#[derive(Clone, Copy)]
pub(crate) struct Span {
    pub(crate) size: usize,
    pub(crate) session: usize,
    pub(crate) view: usize,
}

/// The cell of the bar of an earlier session as it is seen on this one.
pub(crate) fn seen_cell<L: Ledger>(
    world: &World,
    column: Column,
    col: usize,
    bar_session: usize,
    session: usize,
    steps: &mut Steps<L>,
) -> i64
    requires made { IsMade world.now }
    requires assets { AreAssets world.now.assets.now }
    requires col { col < length world.now.assets.now }
    requires bar_session { bar_session < session }
    requires session { session < length world.now.sessions.now }
    ensures value { result ≡ seen_cell (world_of world.now)
        (sid_at world.now.assets.now col) column (pos bar_session) (pos session) }
    ensures cell { IsCell result }
    ensures cost { steps.new ≡ steps.old + step_count (effects (world_of world.now)
        (sid_at world.now.assets.now col) column (pos bar_session) (pos session)) }
{
    let cell = world.bars.get(col, bar_session, column);
    let bar_day = world.sessions.day(bar_session);
    let day = world.sessions.day(session);
    seen_now(
        cell,
        bar_day,
        day,
        world.adjustments.of_col(col),
        column,
        steps,
    )
}

/// The cells of a bar column on the sessions before one, as they are seen from a session.
pub(crate) fn bars_before<L: Ledger>(
    alloc: Global,
    world: &World,
    column: Column,
    span: Span,
    col: usize,
    steps: &mut Steps<L>,
) -> Result<Vec<i64>, Memory>
    requires made { IsMade world.now }
    requires col { col < length world.now.assets.now }
    requires view { span.session ≤ span.view }
    requires within { span.view < length world.now.sessions.now }
    requires size { span.size ≤ span.session }
    ensures value { IfOk result (λ v. v.items ≡ seen_window (world_of world.now) column span.size
        (sid_at world.now.assets.now col) (pos span.session) (pos span.view)) }
    ensures cells { IfOk result (λ v. All IsCell v.items) }
    ensures cost { OnOk result (steps.new ≡ steps.old + window_steps (world_of world.now) column span.size
        (sid_at world.now.assets.now col) (pos span.session) (pos span.view)) }
{
    let _assets = world.assets.len();
    let mut cells = Vec::new(alloc);
    for bar_session in span.session - span.size..span.session {
        cells.push(seen_cell(world, column, col, bar_session, span.view, steps))?;
    }
    Ok(cells)
}
