//! Rings of cells: one for each asset.
ghost use Rattle.std.specs.Prelude.{◌≡◌, ℕ, ◌<◌, ◌≤◌, ◌+◌, ◌++◌, pos, length, get_or, replicate, IfOk};
ghost use Rattle.circular_buffer.specs.Buffer.{buffer, keep_last};
ghost use Rattle.pl_daily.specs.Rows.{ending};
ghost use Rattle.pl_spec.specs.Rounding.{IsCell};
ghost use Rattle.pl_daily.specs.Changes.{AreRings, pushed, ring_at};

use circular_buffer::HeapCircularBuffer;
use pl_fixed::Memory;
use std::alloc::Global;

/// Rings of one capacity, one for each asset by column; each is full.
pub struct Rings {
    pub capacity: usize,
    pub rings: Vec<HeapCircularBuffer<i64>>,
}

// One call lets rings go, so that no caller's proof goes into their parts.
impl Drop for Rings {
    fn drop(self) {
        let Rings {
            capacity: _capacity,
            rings: _rings,
        } = self;
    }
}

// A ring that is full of one cell.
fn full_ring(alloc: Global, capacity: usize, cell: i64) -> Result<HeapCircularBuffer<i64>, Memory>
    ensures { IfOk result (λ b. b ≡ buffer (replicate capacity cell) capacity) }
{
    let mut ring = HeapCircularBuffer::with_capacity(alloc, capacity)?;
    for _ in 0..capacity {
        ring.push_back(cell);
    }
    Ok(ring)
}

impl Rings {
    /// Rings of `capacity` cells, one for each asset, that are full of one cell. The only error is want of
    /// memory.
    pub fn new(alloc: Global, assets: usize, capacity: usize, cell: i64) -> Result<Rings, Memory>
        requires { IsCell cell }
        ensures capacity { IfOk result (λ r. r.capacity ≡ capacity) }
        ensures items { IfOk result (λ r. r.rings.items
            ≡ replicate assets (buffer (replicate capacity cell) capacity)) }
        ensures rings { IfOk result (λ r. AreRings assets capacity r.rings.items) }
    {
        let mut rings = Vec::new(alloc);
        for _ in 0..assets {
            let ring = full_ring(alloc, capacity, cell)?;
            rings.push(ring)?;
        }
        Ok(Rings { capacity, rings })
    }
}

/// Puts a cell at the end of each ring, asset by asset; the oldest one leaves it.
pub fn push_row(rings: &mut [HeapCircularBuffer<i64>], row: &[i64])
    requires { length row.now ≡ length rings.old }
    ensures count { length rings.new ≡ length rings.old }
    ensures each { (i : ℕ) → i < length rings.old
        → ring_at rings.new i ≡ pushed (get_or row.now i (pos 0)) (ring_at rings.old i) }
{
    for i in 0..rings.len() {
        rings[i].push_back(row[i]);
    }
}

/// The cells of a ring up to the one that is so many before its newest, oldest first: as many as `window`
/// has.
pub fn copy_window(ring: &HeapCircularBuffer<i64>, after: usize, window: &mut [i64])
    requires { length window.old + after ≤ length ring.now.items }
    ensures { window.new ≡ ending (length window.old) after ring.now.items }
{
    let (front, back) = ring.as_slices();
    copy_ending(front, back, after, window);
}

// The same of two runs, of which the second stands after the first.
fn copy_ending(front: &[i64], back: &[i64], after: usize, window: &mut [i64])
    requires { length window.old + after ≤ length front.now + length back.now }
    ensures { window.new ≡ ending (length window.old) after (front.now ++ back.now) }
{
    if after < back.len() {
        copy_last(front, &back[..back.len() - after], window);
    } else {
        copy_last(&front[..front.len() + back.len() - after], &[], window);
    }
}

// The last cells of two runs, of which the second stands after the first.
fn copy_last(front: &[i64], back: &[i64], window: &mut [i64])
    requires { length window.old ≤ length front.now + length back.now }
    ensures { window.new ≡ keep_last (length window.old) (front.now ++ back.now) }
{
    let ahead = window.len().saturating_sub(back.len());
    let behind = window.len() - ahead;
    window[..ahead].copy_from_slice(&front[front.len() - ahead..]);
    window[ahead..].copy_from_slice(&back[back.len() - behind..]);
}
