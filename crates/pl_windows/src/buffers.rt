//! The memory of all chunks.

ghost use Rattle.std.specs.Prelude.{◌≡◌, ◌<◌, ◌^◌, IfOk};
ghost use Rattle.std.specs.List.{range_with_len};
ghost use Rattle.pl_windows.specs.Chunks.{AreBuffers};
ghost use Rattle.pl_windows.specs.Ranges.{IsAsked};

use crate::asked::Asked;
use crate::chunk::MOST_SESSIONS;
use pl_fixed::Memory;
use pl_table::Line;
use std::alloc::Global;

/// The columns of all assets, their bars on the sessions of the largest chunk and of a window before it, and
/// a line.
#[derive(Drop)]
pub(crate) struct Buffers {
    pub(crate) cols: Vec<u32>,
    pub(crate) bars: Vec<i64>,
    pub(crate) line: Line,
}

impl Buffers {
    /// Takes the memory. The only error is that there is none.
    pub(crate) fn reserve(alloc: Global, asked: &Asked<'_>) -> Result<Buffers, Memory>
        requires { IsAsked asked.now }
        ensures { IfOk result (AreBuffers asked.now) }
    {
        let assets = asked.world.assets.len();
        let sessions = MOST_SESSIONS.min(asked.to + 1 - asked.from);
        let rows = asked.window + (sessions - 1);
        Ok(Buffers {
            cols: columns(alloc, assets)?,
            bars: vec![in alloc; 0i64; rows * assets]?,
            line: Line::reserve(alloc)?,
        })
    }
}

fn columns(alloc: Global, count: usize) -> Result<Vec<u32>, Memory>
    requires { count < 2 ^ 32 }
    ensures { IfOk result (λ cols. cols.items ≡ range_with_len 0 count) }
{
    let mut cols = Vec::with_capacity(alloc, count)?;
    for col in 0..count {
        cols.push(col as u32)?;
    }
    Ok(cols)
}
