//! Rows of adjustments in memory.

ghost use Rattle.std.specs.Prelude.{◌≡◌, ◌++◌, ◌↔◌, [], Some, IsTrue, IsErrOf, if◌then◌else◌, is_ok, string_bytes};
ghost use Rattle.pl_outside.specs.Calls.{never_fails, next_fails, no_calls, one_more};
ghost use Rattle.pl_outside.specs.KeeperState.{kept};
ghost use Rattle.pl_outside.specs.Lists.{IsAscending};
ghost use Rattle.pl_outside.specs.Logs.{Loads};

use crate::call_log::CallLog;
use crate::keeper::{AdjustKeeper, KeepError, Table};
use crate::logs::LoadedLog;
use pl_spec::RawAdjust;
use std::alloc::Global;
use std::marker::Model;

/// Three lists of rows under one name, and empty lists under each other name. It is sound exactly where
/// `failing` is empty: a load fails exactly where its number is in that list.
#[derive(Drop)]
pub struct MemoryKeeper {
    name: String,
    splits: Vec<RawAdjust>,
    mergers: Vec<RawAdjust>,
    dividends: Vec<RawAdjust>,
    calls: CallLog,
    log: LoadedLog,
    ghost splits_ascend: { IsAscending splits.items },
    ghost mergers_ascend: { IsAscending mergers.items },
    ghost dividends_ascend: { IsAscending dividends.items },
}

impl Model for MemoryKeeper {
    ghost use Rattle.pl_outside.specs.KeeperState.{KeeperState};

    ghost Value = { KeeperState };

    ghost use Rattle.pl_outside.specs.MemoryKeeper.{state_of};

    ghost view = { state_of };
}

impl MemoryKeeper {
    /// A keeper of these lists, each in ascending id with distinct ids. `failing` holds the numbers of the
    /// loads that are to fail, counted from 1.
    pub fn new(
        name: String,
        splits: Vec<RawAdjust>,
        mergers: Vec<RawAdjust>,
        dividends: Vec<RawAdjust>,
        failing: Vec<u64>,
    ) -> MemoryKeeper
        requires splits { IsAscending splits.items }
        requires mergers { IsAscending mergers.items }
        requires dividends { IsAscending dividends.items }
        ensures name { result.name ≡ string_bytes name }
        ensures splits { result.splits ≡ splits.items }
        ensures mergers { result.mergers ≡ mergers.items }
        ensures dividends { result.dividends ≡ dividends.items }
        ensures calls { result.calls ≡ no_calls failing.items }
        ensures loaded { result.loaded ≡ [] }
    {
        MemoryKeeper {
            name,
            splits,
            mergers,
            dividends,
            calls: CallLog::new(failing),
            log: LoadedLog::new(),
        }
    }

    /// The rows of that name and table.
    fn rows(&self, name: &str, table: Table) -> &[RawAdjust]
        ensures { result.now ≡ kept self.now name.now table }
    {
        if self.name.as_str() != name {
            return &[];
        }
        match table {
            Table::Splits => &self.splits,
            Table::Mergers => &self.mergers,
            Table::Dividends => &self.dividends,
        }
    }
}

impl AdjustKeeper for MemoryKeeper {
    ghost lists = { λ keeper. Some (kept keeper) };

    ghost loaded = { λ keeper. keeper.loaded };

    ghost faults = { λ keeper. keeper.calls.faults };

    ghost calls = { λ keeper. keeper.calls.made };

    ghost sound = { λ keeper. never_fails keeper.calls };

    fn load(
        &mut self,
        _alloc: Global,
        name: &str,
        table: Table,
        into: &mut Vec<RawAdjust>,
    ) -> Result<(), KeepError>
        ensures fails { IsErrOf result KeepError.Failed ↔ IsTrue (next_fails self.old.calls) }
        ensures rows { into.new.items
            ≡ (if is_ok result then into.old.items ++ kept self.old name.now table else into.old.items) }
        ensures logged { Loads self.old.loaded self.new.loaded name.now table
            into.old.items into.new.items result }
        ensures after { self.new ≡ record self.old {
          loaded = self.new.loaded;
          calls = one_more self.old.calls (next_fails self.old.calls);
        } }
    {
        self.calls.take_call()?;
        let before = into.len();
        into.extend_from_slice(self.rows(name, table))?;
        self.log.loads(name.as_bytes(), &table, &into[before..]);
        Ok(())
    }

    ghost use Rattle.std.proofs.Common.{rules};
    ghost use Rattle.pl_outside.specs.KeeperState.{kept-ascends};

    ghost sound_tells = { Prim.search rules };

    ghost lists_ascend = { Prim.search (rules, kept-ascends) };
}
