//! A keeper in memory that records which tables were loaded.

use pl_outside::{AdjustKeeper, KeepError, MemoryKeeper, RawAdjust, Table};
use std::alloc::Global;

/// A keeper, and the tables that were loaded, a line each. Contracts see nothing of it but its faults.
#[derive(Drop)]
pub(crate) struct RecordedKeeper {
    keeper: MemoryKeeper,
    loaded: Vec<u8>,
    faults: u64,
}

impl RecordedKeeper {
    pub(crate) fn new(alloc: Global, keeper: MemoryKeeper) -> RecordedKeeper {
        RecordedKeeper {
            keeper,
            loaded: Vec::new(alloc),
            faults: 0,
        }
    }

    /// The tables that were loaded so far.
    pub(crate) fn loaded(&self) -> &[u8] {
        &self.loaded
    }
}

impl AdjustKeeper for RecordedKeeper {
    ghost use Rattle.std.specs.Prelude.{None, false};
    ghost use Rattle.std.proofs.Common.{rules};
    ghost use Rattle.pl_outside.specs.Counts.{count_end};

    ghost lists = { λ _. None };

    ghost loaded = { λ k. k.keeper.loaded };

    ghost faults = { λ k. k.faults };

    ghost calls = { λ _. count_end };

    ghost sound = { λ _. false };

    fn load(
        &mut self,
        alloc: Global,
        name: &str,
        table: Table,
        into: &mut Vec<RawAdjust>,
    ) -> Result<(), KeepError> {
        let line = match table {
            Table::Splits => "splits\n",
            Table::Mergers => "mergers\n",
            Table::Dividends => "dividends\n",
        };
        self.loaded.extend_from_slice(line.as_bytes())?;
        let answer = self.keeper.load(alloc, name, table, into);
        if let Err(KeepError::Failed) = answer {
            self.faults = self.faults.saturating_add(1);
        }
        answer
    }

    ghost sound_tells = { Prim.search rules };

    ghost lists_ascend = { Prim.search rules };
}
