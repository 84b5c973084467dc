//! What the derivation of a cell reads and judges.

ghost use Rattle.std.specs.Prelude.{IfOk};
ghost use Rattle.pl_words.specs.Views.{explain_of};
ghost use Rattle.pl_load.specs.Views.{shelf_change, keeper_change};
ghost use Rattle.pl_load.specs.Celled.{IsCellLoad, IsExplainable};

use crate::cell_place::{CellPlace, judge_cell};
use crate::fault::Fault;
use crate::inputs::read_evaluated;
use crate::loading::read_world;
use pl_outside::{AdjustKeeper, Shelf};
use pl_terms::Checked;
use pl_words::ExplainRequest;
use pl_world::OwnedWorld;
use std::alloc::Global;

/// A cell, and the pipeline and the world that it is of.
pub struct LoadedCell {
    pub checked: Checked,
    pub world: OwnedWorld,
    pub cell: CellPlace,
}

// One call lets it go, so that no caller's proof goes into its parts.
impl Drop for LoadedCell {
    fn drop(self) {
        let LoadedCell {
            checked: _checked,
            world: _world,
            cell: _cell,
        } = self;
    }
}

/// Reads and judges all that the derivation of a cell asks for, in this order: the pipeline file, the files
/// and tables of the world, and the cell. The fault is the first one, or want of memory.
pub fn load_cell<S: Shelf, K: AdjustKeeper>(
    alloc: Global,
    request: &ExplainRequest<'_>,
    shelf: &mut S,
    keeper: &mut K,
) -> Result<LoadedCell, Fault>
    ensures load { IsCellLoad (shelf_change S.Shelf shelf.old shelf.new)
        (keeper_change K.AdjustKeeper keeper.old keeper.new)
        (explain_of request.now) result }
    ensures explainable { IfOk result IsExplainable }
{
    let checked = read_evaluated(alloc, shelf, request.pipeline, &request.world)?;
    let world = read_world(alloc, &request.world, shelf, keeper)?;
    let cell = judge_cell(alloc, request, &checked, &world.sessions, &world.assets)?;
    Ok(LoadedCell {
        checked,
        world,
        cell,
    })
}
