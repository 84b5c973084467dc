//! The memory of a run.
ghost use Rattle.std.specs.Prelude.{◌≡◌, ◌<◌, ◌≤◌, ◌^◌, IfOk};
ghost use Rattle.pl_table.specs.Asked.{IsAsked, asked_pipeline, asked_world};
ghost use Rattle.pl_runner.specs.Buffers.{AreBuffers, IsNoMore};

use crate::room::longest_array;
use pl_cross::Cross;
use pl_exec::Rows;
use pl_fixed::Memory;
use pl_table::{Asked, Line, tile_len};
use pl_workspace::Workspace;
use std::alloc::Global;

/// All that a run works with, of the size that its largest chunk needs: the slots of the arrays, a
/// cross-section and the rows of a session, the assets of a chunk, and a tile and a line of the table.
#[derive(Drop)]
pub struct Buffers {
    pub(crate) workspace: Workspace,
    pub(crate) cross: Cross,
    pub(crate) rows: Rows,
    pub(crate) cols: Vec<u32>,
    pub(crate) tile: Vec<i64>,
    pub(crate) line: Line,
}

impl Buffers {
    /// Takes the memory for the chunks of at most `size` sessions. The only error is that there is none.
    pub(crate) fn reserve(alloc: Global, asked: &Asked<'_>, size: usize) -> Result<Buffers, Memory>
        requires asked { IsAsked asked.now }
        requires some { 1 ≤ size }
        requires few { size < 2 ^ 32 }
        ensures buffers { IfOk result
            (AreBuffers (asked_world asked.now) (asked_pipeline asked.now) asked.now.plan.now size) }
        ensures least { IfOk result
            (IsNoMore (asked_world asked.now) (asked_pipeline asked.now) asked.now.plan.now size) }
    {
        let assets = asked.world.assets.len();
        let mut cols = Vec::with_capacity(alloc, assets)?;
        let longest = longest_array(asked, size, &mut cols);
        let Ok(workspace) = Workspace::reserve(alloc, asked.plan.bound(), longest) else {
            return Err(Memory);
        };
        Ok(Buffers {
            workspace,
            cross: Cross::reserve(alloc, assets)?,
            rows: Rows::reserve(alloc, assets)?,
            cols,
            tile: vec![in alloc; 0i64; tile_len(assets, asked.checked.columns())]?,
            line: Line::reserve(alloc)?,
        })
    }
}
