//! Slots of cells: their memory is taken once, lent out to be written, given back, read and lent out again.
//! No cell is
//! copied, and how many slots are in use is counted.
#![tactic(auto)]

ghost use Rattle.std.specs.Prelude.{◌≡◌, ◌<◌, pos, length, slice_set, IfOk};
ghost use Rattle.pl_workspace.specs.Slots.{Slots, Free, Begun, Live, fresh, live_count, slot_at, with_slot, IsLive};
ghost use Rattle.std.specs.Borrow.{sem};
ghost use Rattle.pl_workspace.specs.Lending.{LendsCells};

use std::alloc::Global;
use std::marker::Model;
use std::mem;

/// Memory ran out. It is the error of `reserve` alone.
#[derive(Clone, Copy, Debug, PartialEq, Eq)]
pub struct Memory;

/// A slot that is begun has lent its cells out.
#[derive(Drop)]
enum Slot {
    Free(Vec<i64>),
    Begun,
    Live(Vec<i64>),
}

/// The cells of one slot, handed out to be written and then given back by `finish`.
#[derive(Drop)]
pub struct Buffer {
    slot: usize,
    cells: Vec<i64>,
}

impl Model for Buffer {
    ghost use Rattle.pl_workspace.specs.Slots.{Lent};

    ghost Value = { Lent };

    ghost view = { λ b. record { slot = b.slot; cells = b.cells.items } };
}

impl Buffer {
    /// The cells as they are now.
    pub fn cells(&self) -> &[i64]
        ensures { result.now ≡ self.now.cells }
    {
        &self.cells
    }

    /// The cells, to be written: what is written through the slice is what the buffer then holds.
    pub fn cells_mut(&mut self) -> &mut [i64]
        ensures* writes_back { sem 𝓛 (LendsCells self.entry result) }
        ensures value { result.now ≡ self.old.cells }
    {
        &mut self.cells
    }
}

/// Slots by number, each free, begun or live, all of one length in cells; and the greatest number of slots
/// that were in use, which is begun or live, at once.
#[derive(Drop)]
pub struct Workspace {
    slots: Vec<Slot>,
    len: usize,
    live: usize,
    peak: usize,
}

impl Model for Workspace {
    ghost use Rattle.pl_workspace.specs.Slots.{Slots};

    ghost Value = { Slots };

    ghost use Rattle.pl_workspace.specs.Inside.{slots_of, AreCounted};

    ghost view = { slots_of };

    ghost invariant = { AreCounted };
}

impl Workspace {
    /// Takes the memory of all slots, numbered from 0, each of `len` cells. No other call takes any. The only
    /// error is that there is none.
    pub fn reserve(alloc: Global, slots: usize, len: usize) -> Result<Workspace, Memory>
        ensures { IfOk result (λ w. w ≡ fresh slots len) }
    {
        let Ok(mut held) = Vec::with_capacity(alloc, slots) else {
            return Err(Memory);
        };
        for _ in 0..slots {
            let Ok(cells) = vec![in alloc; 0i64; len] else {
                return Err(Memory);
            };
            if held.push(Slot::Free(cells)).is_err() {
                return Err(Memory);
            }
        }
        Ok(Workspace {
            slots: held,
            len,
            live: 0,
            peak: 0,
        })
    }

    /// Hands out the cells of a free slot, whatever they hold. The slot is begun until `finish` takes them
    /// back.
    pub fn begin(&mut self, slot: usize) -> Buffer
        requires { slot_at self.old slot ≡ Free }
        ensures changed { self.new ≡ with_slot self.old slot Begun }
        ensures slot { result.slot ≡ slot }
        ensures cells { length result.cells ≡ self.old.len }
    {
        let Slot::Free(cells) = mem::replace(&mut self.slots[slot], Slot::Begun) else {
            unreachable!()
        };
        self.live += 1;
        self.peak = self.peak.max(self.live);
        Buffer { slot, cells }
    }

    /// Takes the cells of a begun slot back and keeps them: the slot is live.
    pub fn finish(&mut self, slot: usize, buffer: Buffer)
        requires within { slot < length self.old.slots }
        requires begun { slot_at self.old slot ≡ Begun }
        requires same { buffer.slot ≡ slot }
        requires whole { length buffer.cells ≡ self.old.len }
        ensures { self.new ≡ with_slot self.old slot (Live buffer.cells) }
    {
        let Buffer { slot: _, cells } = buffer;
        self.slots[slot] = Slot::Live(cells);
    }

    /// Frees a live slot.
    pub fn release(&mut self, slot: usize)
        requires { IsLive (slot_at self.old slot) }
        ensures { self.new ≡ with_slot self.old slot Free }
    {
        let Slot::Live(cells) = mem::replace(&mut self.slots[slot], Slot::Begun) else {
            unreachable!()
        };
        self.slots[slot] = Slot::Free(cells);
        self.live -= 1;
    }

    /// The cells that were finished in a live slot, all of them.
    pub fn array(&self, slot: usize) -> &[i64]
        requires { IsLive (slot_at self.now slot) }
        ensures { slot_at self.now slot ≡ Live result.now }
    {
        match &self.slots[slot] {
            Slot::Live(cells) => cells,
            _ => unreachable!(),
        }
    }

    /// How many slots are begun or live.
    pub fn live(&self) -> usize
        ensures { result ≡ live_count self.now.slots }
    {
        self.live
    }

    /// The greatest number of slots that were begun or live at once.
    pub fn peak(&self) -> usize
        ensures { result ≡ self.now.peak }
    {
        self.peak
    }
}
