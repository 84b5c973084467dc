//! What is held of a term from day to day.
ghost use Rattle.std.specs.Prelude.{◌≡◌, ◌<◌, length, All, IfOk};
ghost use Rattle.pl_spec.specs.Rounding.{IsCell};
ghost use Rattle.pl_daily.specs.Held.{AreTermCells, BeginsTerm, FollowTerm};

use crate::rings::{Rings, push_row};
use crate::term_day::TermCells;
use pl_fixed::Memory;
use std::alloc::Global;

/// What is held of a term before the first day, whose empty value is `empty`. The capacity is that of its
/// rings, in sessions, 0 where no window is over it. The only error is want of memory.
pub fn begin_term(
    alloc: Global,
    assets: usize,
    capacity: usize,
    empty: i64,
) -> Result<TermCells, Memory>
    requires { IsCell empty }
    ensures cells { IfOk result (AreTermCells assets) }
    ensures capacity { IfOk result (λ t. t.rings.capacity ≡ capacity) }
    ensures begins { IfOk result (BeginsTerm assets empty) }
{
    let row = vec![in alloc; empty; assets]?;
    let rings = Rings::new(alloc, ring_count(assets, capacity), capacity, empty)?;
    Ok(TermCells { row, rings })
}

// How many rings there are: one for each asset, and none without room.
fn ring_count(assets: usize, capacity: usize) -> usize
    ensures { 0 < capacity → result ≡ assets }
{
    if capacity == 0 { 0 } else { assets }
}

/// Takes the cells of the next day in. It takes no memory.
/// `row` has one for each asset by ascending sid.
pub fn put_term(cells: &mut TermCells, row: &[i64])
    requires cells { AreTermCells (length row.now) cells.old }
    requires row { All IsCell row.now }
    ensures follow { FollowTerm row.now cells.old cells.new }
    ensures cells { AreTermCells (length row.now) cells.new }
    ensures capacity { cells.new.rings.capacity ≡ cells.old.rings.capacity }
{
    cells.row.copy_from_slice(row);
    if cells.rings.capacity > 0 {
        push_row(&mut cells.rings.rings, row);
    }
}
