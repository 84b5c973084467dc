//! Files in memory.

ghost use Rattle.std.specs.Prelude.{◌≡◌, ◌||◌, ◌++◌, ℕ, [], List, Option, Some, None, length, take, drop, min, OnOk, OnErr, IfOk, if◌then◌else◌, is_err, is_none, unwrap_or, bytes_eq, string_bytes};
ghost use Rattle.pl_outside.specs.Calls.{never_fails, next_fails, no_calls, one_more};
ghost use Rattle.pl_outside.specs.Counts.{count_plus, moved};
ghost use Rattle.pl_outside.specs.Logs.{GivesIn, begins, names_of};
ghost use Rattle.pl_outside.specs.ShelfState.{held};

use crate::call_log::CallLog;
use crate::faults::{Failed, Memory};
use crate::files::{File, place_of, put_file};
use crate::logs::GivenLog;
use crate::shelf::Shelf;
use std::alloc::Global;
use std::marker::Model;

/// Files by name. It is sound exactly where `failing` is empty: a call fails exactly where its number is in
/// that list or a name to begin isn't held.
#[derive(Drop)]
pub struct MemoryShelf {
    files: Vec<File>,
    begun: Option<usize>,
    read: usize,
    given: u64,
    calls: CallLog,
    log: GivenLog,
}

impl Model for MemoryShelf {
    ghost use Rattle.pl_outside.specs.ShelfState.{ShelfState};

    ghost Value = { ShelfState };

    ghost use Rattle.pl_outside.specs.MemoryShelf.{state_of, IsReading};

    ghost view = { state_of };

    ghost invariant = { IsReading };
}

impl MemoryShelf {
    /// A shelf without files. `failing` holds the numbers of the calls of `begin` and `next` that are to
    /// fail, counted from 1 over both together.
    pub fn new(alloc: Global, failing: Vec<u64>) -> MemoryShelf
        ensures { result ≡ record {
          files = [];
          rest = [];
          gave = [];
          given = 0;
          calls = no_calls failing.items;
        } }
    {
        MemoryShelf {
            files: Vec::new(alloc),
            begun: None,
            read: 0,
            given: 0,
            calls: CallLog::new(failing),
            log: GivenLog::new(),
        }
    }

    /// Puts a file there, in the place of the one that has the name. No file is begun then. The only error is
    /// want of memory, and after it the shelf is as before.
    pub fn put(&mut self, name: String, bytes: Vec<u8>) -> Result<(), Memory>
        ensures held { OnOk result ((other : List ℕ) → held self.new.files other
            ≡ (if bytes_eq (string_bytes name) other then Some bytes.items else held self.old.files other)) }
        ensures ok { OnOk result (self.new ≡ record self.old { files = self.new.files; rest = [] }) }
        ensures err { OnErr result (self.new ≡ self.old) }
    {
        put_file(&mut self.files, name, bytes)?;
        self.begun = None;
        Ok(())
    }
}

impl Shelf for MemoryShelf {
    ghost holds = { λ shelf. Some (held shelf.files) };

    ghost rest = { λ shelf. shelf.rest };

    ghost begun = { λ shelf. Some (names_of shelf.gave) };

    ghost gave = { λ shelf. shelf.gave };

    ghost faults = { λ shelf. shelf.calls.faults };

    ghost calls = { λ shelf. shelf.calls.made };

    ghost given = { λ shelf. shelf.given };

    ghost sound = { λ shelf. never_fails shelf.calls };

    fn begin(&mut self, name: &str) -> Result<(), Failed>
        ensures fails { is_err result
            ≡ (next_fails self.old.calls || is_none (held self.old.files name.now)) }
        ensures after { self.new ≡ record self.old {
          rest = if is_err result then [] else unwrap_or (held self.old.files name.now) [];
          gave = begins self.old.gave name.now;
          calls = one_more self.old.calls (is_err result);
        } }
    {
        self.log.begins(name.as_bytes());
        self.begun = None;
        self.read = 0;
        self.calls.take_call()?;
        self.begun = place_of(&self.files, name);
        if self.begun.is_none() {
            self.calls.count_fault();
            return Err(Failed);
        }
        Ok(())
    }

    fn next(&mut self, into: &mut [u8]) -> Result<usize, Failed>
        ensures fails { is_err result ≡ next_fails self.old.calls }
        ensures count { IfOk result (λ n. n ≡ min (length self.old.rest) (length into.old)) }
        ensures into { into.new ≡ take (moved result) self.old.rest ++ drop (moved result) into.old }
        ensures logged { GivesIn self.old.gave self.new.gave into.new result }
        ensures after { self.new ≡ record self.old {
          rest = drop (moved result) self.old.rest;
          gave = self.new.gave;
          given = count_plus self.old.given (moved result);
          calls = one_more self.old.calls (is_err result);
        } }
    {
        self.calls.take_call()?;
        let Some(place) = self.begun else {
            self.log.gives(&[], !into.is_empty());
            return Ok(0);
        };
        let left = &self.files[place].bytes[self.read..];
        let count = left.len().min(into.len());
        into[..count].copy_from_slice(&left[..count]);
        self.read += count;
        self.given = self.given.saturating_add(count as u64);
        let ended = count == 0 && !into.is_empty();
        self.log.gives(&into[..count], ended);
        Ok(count)
    }

    ghost use Rattle.std.proofs.Common.{rules};

    ghost sound_tells = { Prim.search rules };
}
