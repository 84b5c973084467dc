//! The slot of each term and of its bar columns: of those that are free the lowest.

ghost use Rattle.std.specs.Prelude.{◌≡◌, ℕ, ◌+◌, ◌<◌, ◌≤◌, ◌^◌, IfOk, false, true, get_or, length, replicate, sum_by};
ghost use Rattle.pl_spec.specs.Limits.{most_terms};
ghost use Rattle.pl_planner.specs.Slotting.{AreSlotted, IsSlotted, IsTaken, Takes, one, own_slot};

use crate::columns::{either, is_kept};
use crate::uses::Use;
use std::alloc::{AllocError, Global};

// Room for the slots of all terms, and of one more with five bar columns.
const MOST_TAKEN: usize = 262;

/// The slots of the values of a term, and of its bar columns while it is computed.
#[derive(Clone, Copy)]
pub(crate) struct TermSlots {
    pub(crate) own: usize,
    pub(crate) columns: [usize; 5],
}

// The slots of the terms below k that are still to be read.
fn mark_taken(uses: &[Use], slots: &[TermSlots], k: usize, taken: &mut [bool])
    requires fresh { taken.old ≡ replicate (most_terms + 6) false }
    requires uses { k ≤ length uses.now }
    requires slots { k ≤ length slots.now }
    requires few { (t : ℕ) → own_slot slots.now t ≤ most_terms }
    ensures { IsTaken uses.now slots.now k k taken.new }
{
    for t in 0..k {
        let slot = slots[t].own;
        taken[slot] = either(taken[slot], is_kept(uses, k, t));
    }
}

fn first_free(taken: &[bool]) -> usize
    ensures before { (i : ℕ) → i < result → get_or taken.now i false ≡ true }
    ensures free { get_or taken.now result false ≡ false }
    ensures within { result ≤ length taken.now }
{
    for slot in 0..taken.len() {
        if !taken[slot] {
            return slot;
        }
    }
    taken.len()
}

// The lowest slot that isn't taken, which is then.
fn take_free(taken: &mut [bool]) -> usize
    requires { sum_by one taken.old < length taken.old }
    ensures { Takes taken.old taken.new result }
{
    let slot = first_free(taken);
    taken[slot] = true;
    slot
}

// The slots of term k, where those below it have theirs.
fn slot_term(uses: &[Use], slots: &[TermSlots], k: usize) -> TermSlots
    requires uses { k < length uses.now }
    requires slots { k ≡ length slots.now }
    requires few_terms { k < most_terms }
    requires so_far { AreSlotted uses.now slots.now }
    ensures { IsSlotted uses.now slots.now k result }
{
    let mut taken = [false; MOST_TAKEN];
    mark_taken(uses, slots, k, &mut taken);
    let own = take_free(&mut taken);
    let first = take_free(&mut taken);
    let second = take_free(&mut taken);
    let third = take_free(&mut taken);
    let fourth = take_free(&mut taken);
    let fifth = take_free(&mut taken);
    TermSlots {
        own,
        columns: [first, second, third, fourth, fifth],
    }
}

/// The slots of the terms by number.
pub(crate) fn slot_terms(alloc: Global, uses: &[Use]) -> Result<Vec<TermSlots>, AllocError>
    requires { length uses.now ≤ most_terms }
    ensures slotted { IfOk result (λ slots. AreSlotted uses.now slots.items) }
    ensures size { IfOk result (λ slots. length slots.items ≡ length uses.now) }
{
    let mut slots = Vec::with_capacity(alloc, uses.len())?;
    for k in 0..uses.len() {
        slots.push(slot_term(uses, &slots, k))?;
    }
    Ok(slots)
}
