//! Rings before the first day.
ghost use Rattle.std.specs.Prelude.{◌≡◌, ◌≤◌, length, IfOk};
ghost use Rattle.pl_spec.specs.Rounding.{MISSING};
ghost use Rattle.pl_daily.specs.Changes.{AreRings};
ghost use Rattle.pl_daily.specs.Columns.{AreBarRings, BeginColumns, BeginRings, HasRoom};

use crate::columns::BarRings;
use crate::rings::Rings;
use circular_buffer::HeapCircularBuffer;
use pl_fixed::{MISSING, Memory};
use std::alloc::Global;

/// How many sessions the rings of each bar column have: 0 where no window reads it.
#[derive(Clone, Copy, Debug, PartialEq, Eq)]
pub struct Capacities {
    pub open_price: usize,
    pub high: usize,
    pub low: usize,
    pub close: usize,
    pub volume: usize,
}

// A calendar of so many days, none of which was fed.
fn calendar_of(alloc: Global, capacity: usize) -> Result<HeapCircularBuffer<i32>, Memory>
    ensures full { IfOk result (λ b. length b.items ≡ capacity) }
    ensures room { IfOk result (λ b. b.capacity ≡ capacity) }
{
    let mut calendar = HeapCircularBuffer::with_capacity(alloc, capacity)?;
    for _ in 0..capacity {
        calendar.push_back(0);
    }
    Ok(calendar)
}

// The rings of a column: all cells are missing.
fn rings_of(alloc: Global, assets: usize, capacity: usize) -> Result<Rings, Memory>
    ensures capacity { IfOk result (λ r. r.capacity ≡ capacity) }
    ensures rings { IfOk result (λ r. AreRings assets capacity r.rings.items) }
    ensures begins { IfOk result (λ r. BeginRings assets capacity r.rings.items) }
{
    Rings::new(alloc, assets, capacity, MISSING)
}

/// Rings of these capacities, in sessions, one for each asset and column, into which no day was taken: every
/// cell is `MISSING`. The only error is want of memory.
pub fn begin_rings(alloc: Global, assets: usize, capacities: Capacities) -> Result<BarRings, Memory>
    ensures rings { IfOk result (AreBarRings assets) }
    ensures room { IfOk result (HasRoom capacities) }
    ensures begins { IfOk result (BeginColumns assets) }
{
    let most = capacities
        .open_price
        .max(capacities.high)
        .max(capacities.low);
    let depth = most.max(capacities.close).max(capacities.volume);
    Ok(BarRings {
        calendar: calendar_of(alloc, depth)?,
        open_price: rings_of(alloc, assets, capacities.open_price)?,
        high: rings_of(alloc, assets, capacities.high)?,
        low: rings_of(alloc, assets, capacities.low)?,
        close: rings_of(alloc, assets, capacities.close)?,
        volume: rings_of(alloc, assets, capacities.volume)?,
        row: vec![in alloc; 0; assets]?,
    })
}
