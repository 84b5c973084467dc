//! What a run reads and judges before its first row.

ghost use Rattle.std.specs.Prelude.{◌≡◌, ◌<◌, [], length, All, IfOk, IfErr, IfSome};
ghost use Rattle.pl_terms.specs.Checked.{pipeline_of};
ghost use Rattle.pl_planner.specs.Plans.{IsPlanOf};
ghost use Rattle.pl_words.specs.Views.{run_of, world_names_of};
ghost use Rattle.pl_world.specs.Worlds.{AreMadeFor, IsOwnedMade};
ghost use Rattle.pl_load.specs.declared.fault.Fault.TheVariants.{Memory};
ghost use Rattle.pl_load.specs.Views.{shelf_change, keeper_change};
ghost use Rattle.pl_load.specs.Parts.{IsWorldLoad, IsRowsLoad, IsRevisedLoad, IsFiguresLoad};
ghost use Rattle.pl_load.specs.Loads.{IsData, IsKnown, IsLoad, IsReadyRun};

use crate::fault::Fault;
use crate::inputs::{
    read_assets, read_bars, read_evaluated, read_labels, read_numbers, read_results,
    read_revisions, read_sessions,
};
use crate::range::{judge_dates, judge_plan};
use crate::tables::read_adjustments;
use pl_adjust::Adjustments;
use pl_assets::{Assets, Labels};
use pl_bars::Bars;
use pl_calendar::Sessions;
use pl_numbers::Numbers;
use pl_outside::{AdjustKeeper, Shelf};
use pl_planner::Plan;
use pl_terms::Checked;
use pl_words::{RunRequest, WorldNames};
use pl_world::{OwnedWorld, asof_world};
use std::alloc::Global;

/// What was read and judged for a table: the pipeline, its world, and its plan over the range. With `--asof`
/// the world is the one that is known by that session.
pub struct Loaded {
    pub checked: Checked,
    pub world: OwnedWorld,
    pub plan: Plan,
}

// One call lets it go, so that no caller's proof goes into its parts.
impl Drop for Loaded {
    fn drop(self) {
        let Loaded {
            checked: _checked,
            world: _world,
            plan: _plan,
        } = self;
    }
}

/// The world of a run, and the plan over its sessions.
#[derive(Drop)]
pub(crate) struct PlannedWorld {
    pub(crate) world: OwnedWorld,
    pub(crate) plan: Plan,
}

/// The rows of a world, beside its sessions and its assets.
#[derive(Drop)]
pub(crate) struct WorldRows {
    pub(crate) labels: Labels,
    pub(crate) numbers: Numbers,
    pub(crate) bars: Bars,
    pub(crate) adjustments: Adjustments,
}

/// Reads and judges all that a run asks for, each file whole before the next one: the pipeline file, the
/// sessions, assets, labels, numbers, results, bars, adjustments and revisions, and then the range. Labels,
/// numbers, results, adjustments and revisions are read only where they are asked for. The fault is the first
/// one in this order, or want of memory.
pub fn load<S: Shelf, K: AdjustKeeper>(
    alloc: Global,
    request: &RunRequest<'_>,
    shelf: &mut S,
    keeper: &mut K,
) -> Result<Loaded, Fault>
    ensures load { IsLoad (shelf_change S.Shelf shelf.old shelf.new)
        (keeper_change K.AdjustKeeper keeper.old keeper.new)
        (run_of request.now) result }
    ensures ready { IfOk result IsReadyRun }
{
    let checked = read_evaluated(alloc, shelf, request.pipeline, &request.world)?;
    let planned = load_world(alloc, request, &checked, shelf, keeper)?;
    let PlannedWorld { world, plan } = planned;
    Ok(Loaded {
        checked,
        world,
        plan,
    })
}

// The world of a run and its plan, for the pipeline that was read before.
fn load_world<S: Shelf, K: AdjustKeeper>(
    alloc: Global,
    request: &RunRequest<'_>,
    checked: &Checked,
    shelf: &mut S,
    keeper: &mut K,
) -> Result<PlannedWorld, Fault>
    ensures load { IsWorldLoad (shelf_change S.Shelf shelf.old shelf.new)
        (keeper_change K.AdjustKeeper keeper.old keeper.new)
        (run_of request.now) (pipeline_of checked.now) result }
    ensures made { IfOk result (λ w. IsOwnedMade w.world) }
    ensures plan { IfOk result (λ w. IsPlanOf w.world.sessions (pipeline_of checked.now) w.plan) }
{
    let world = read_world(alloc, &request.world, shelf, keeper)?;
    let range = judge_dates(
        &request.from,
        &request.to,
        request.options.as_of,
        &world.sessions,
    )?;
    let plan = judge_plan(alloc, checked, &world.sessions, range)?;
    let known = known_world(alloc, world, range.as_of)?;
    Ok(PlannedWorld { world: known, plan })
}

// What is known of a world by a session; the world itself where none is asked for.
fn known_world(
    alloc: Global,
    world: OwnedWorld,
    session: Option<usize>,
) -> Result<OwnedWorld, Fault>
    requires made { IsOwnedMade world }
    requires within { IfSome session (λ d. d < length world.sessions) }
    ensures known { IfOk result (IsKnown world session) }
    ensures made { IfOk result IsOwnedMade }
    ensures memory { IfErr result (λ fault. fault ≡ Memory) }
{
    match session {
        None => Ok(world),
        Some(session) => Ok(asof_world(alloc, &world.world(), session)?),
    }
}

/// The world of these names, each part judged before the next one is begun.
pub(crate) fn read_world<S: Shelf, K: AdjustKeeper>(
    alloc: Global,
    names: &WorldNames<'_>,
    shelf: &mut S,
    keeper: &mut K,
) -> Result<OwnedWorld, Fault>
    ensures data { IsData (shelf_change S.Shelf shelf.old shelf.new)
        (keeper_change K.AdjustKeeper keeper.old keeper.new)
        (world_names_of names.now) result }
    ensures made { IfOk result IsOwnedMade }
{
    let sessions = read_sessions(alloc, shelf, names.sessions)?;
    let assets = read_assets(alloc, shelf, names.assets)?;
    let rows = read_rows(alloc, names, &sessions, &assets, shelf, keeper)?;
    let WorldRows {
        labels,
        numbers,
        bars,
        adjustments,
    } = rows;
    Ok(OwnedWorld {
        sessions,
        assets,
        labels,
        bars,
        adjustments,
        numbers,
    })
}

// The rows of the world of these names, for the sessions and the assets that were read before.
fn read_rows<S: Shelf, K: AdjustKeeper>(
    alloc: Global,
    names: &WorldNames<'_>,
    sessions: &Sessions,
    assets: &Assets,
    shelf: &mut S,
    keeper: &mut K,
) -> Result<WorldRows, Fault>
    ensures rows { IsRowsLoad (shelf_change S.Shelf shelf.old shelf.new)
        (keeper_change K.AdjustKeeper keeper.old keeper.new)
        (world_names_of names.now) sessions.now assets.now result }
    ensures made { IfOk result (λ r.
        AreMadeFor sessions.now assets.now r.labels.rows r.bars r.adjustments r.numbers.rows) }
{
    let labels = read_labels(alloc, shelf, names.labels, assets)?;
    let numbers = read_figures(alloc, names, assets, shelf)?;
    let bars = read_bars(alloc, shelf, names.bars, sessions, assets)?;
    let adjustments = read_revised(alloc, names, sessions, assets, shelf, keeper)?;
    Ok(WorldRows {
        labels,
        numbers,
        bars,
        adjustments,
    })
}

// The numbers of the world of these names with its results, after the labels.
fn read_figures<S: Shelf>(
    alloc: Global,
    names: &WorldNames<'_>,
    assets: &Assets,
    shelf: &mut S,
) -> Result<Numbers, Fault>
    ensures figures { IsFiguresLoad (shelf_change S.Shelf shelf.old shelf.new)
        (world_names_of names.now) assets.now result }
    ensures cols { IfOk result (λ numbers. All (λ r. r.col < length assets.now) numbers.rows) }
{
    let first = read_numbers(alloc, shelf, names.numbers, assets)?;
    read_results(alloc, shelf, names.results, assets, first)
}

// The adjustments of the world of these names with their revisions, after the labels, numbers and bars.
fn read_revised<S: Shelf, K: AdjustKeeper>(
    alloc: Global,
    names: &WorldNames<'_>,
    sessions: &Sessions,
    assets: &Assets,
    shelf: &mut S,
    keeper: &mut K,
) -> Result<Adjustments, Fault>
    ensures revised { IsRevisedLoad (shelf_change S.Shelf shelf.old shelf.new)
        (keeper_change K.AdjustKeeper keeper.old keeper.new)
        (world_names_of names.now) sessions.now assets.now result }
    ensures cols { IfOk result (All (λ x. x.col < length assets.now)) }
{
    let loaded = read_adjustments(alloc, keeper, names.adjustments, assets)?;
    read_revisions(alloc, shelf, names.revisions, sessions, assets, loaded)
}
