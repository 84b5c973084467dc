//! A sink in memory.

ghost use Rattle.std.specs.Prelude.{◌≡◌, ◌+◌, ◌-◌, ◌==◌, ◌||◌, ◌++◌, [], Some, take, length, min, OnOk, OnErr, IfOk, if◌then◌else◌, is_err, nat_lt};
ghost use Rattle.pl_outside.specs.Calls.{never_fails, next_fails, no_calls, one_more};
ghost use Rattle.pl_outside.specs.Counts.{moved};

use crate::call_log::CallLog;
use crate::faults::{Failed, Memory};
use crate::sink::Sink;
use std::alloc::Global;
use std::marker::Model;

/// A sink that keeps what it takes. It is sound exactly where `failing` is empty: a write fails exactly where
/// its number is in that list or the piece is longer than the room, which is what was reserved and isn't yet
/// taken. It takes each piece whole where `piece` is 0.
#[derive(Drop)]
pub struct MemorySink {
    bytes: Vec<u8>,
    room: usize,
    piece: usize,
    calls: CallLog,
}

impl Model for MemorySink {
    ghost use Rattle.std.specs.Prelude.{◌≤◌, ◌+◌, vec_len, vec_capacity};
    ghost use Rattle.pl_outside.specs.SinkState.{SinkState};

    ghost Value = { SinkState };

    ghost view = { λ a. record { taken = a.bytes.items; room = a.room; piece = a.piece; calls = a.calls } };

    ghost invariant = { λ a. vec_len a.bytes + a.room ≤ vec_capacity a.bytes };
}

impl MemorySink {
    /// A sink without room. `failing` holds the numbers of the writes that are to fail, counted from 1. A
    /// write takes at most `piece` bytes, or any number of them where `piece` is 0.
    pub fn new(alloc: Global, failing: Vec<u64>, piece: usize) -> MemorySink
        ensures { result ≡ record { taken = []; room = 0; piece = piece; calls = no_calls failing.items } }
    {
        MemorySink {
            bytes: Vec::new(alloc),
            room: 0,
            piece,
            calls: CallLog::new(failing),
        }
    }

    /// Adds so many bytes to the room. All memory of the sink is taken here; the only error is that there is
    /// none, and then the room is as before.
    pub fn reserve(&mut self, bytes: usize) -> Result<(), Memory>
        ensures ok { OnOk result (self.new ≡ record self.old { room = self.old.room + bytes }) }
        ensures err { OnErr result (self.new ≡ self.old) }
    {
        let room = self.room.checked_add(bytes).ok_or(Memory)?;
        self.bytes.try_reserve(room)?;
        self.room = room;
        Ok(())
    }

    /// The bytes taken so far.
    pub fn bytes(&self) -> &[u8]
        ensures { result.now ≡ self.now.taken }
    {
        self.bytes.as_slice()
    }
}

impl Sink for MemorySink {
    ghost taken = { λ sink. Some sink.taken };

    ghost faults = { λ sink. sink.calls.faults };

    ghost calls = { λ sink. sink.calls.made };

    ghost sound = { λ sink. never_fails sink.calls };

    ghost room = { λ sink. sink.room };

    ghost whole = { λ sink. sink.piece == 0 };

    fn write(&mut self, bytes: &[u8]) -> Result<usize, Failed>
        ensures fails { is_err result
            ≡ (next_fails self.old.calls || nat_lt self.old.room (length bytes.now)) }
        ensures count { IfOk result (λ n. n
            ≡ (if self.old.piece == 0 then length bytes.now else min (length bytes.now) self.old.piece)) }
        ensures after { self.new ≡ record self.old {
          taken = self.old.taken ++ take (moved result) bytes.now;
          room = self.old.room - moved result;
          calls = one_more self.old.calls (is_err result);
        } }
    {
        self.calls.take_call()?;
        if bytes.len() > self.room {
            self.calls.count_fault();
            return Err(Failed);
        }
        let count = if self.piece == 0 {
            bytes.len()
        } else {
            bytes.len().min(self.piece)
        };
        self.bytes.extend_from_slice(&bytes[..count]).unwrap();
        self.room -= count;
        Ok(count)
    }

    ghost use Rattle.std.proofs.Common.{rules};

    ghost sound_tells = { Prim.search rules };
}
