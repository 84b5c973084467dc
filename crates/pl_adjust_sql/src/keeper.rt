//! The keeper over one connection.

ghost use Rattle.std.specs.Prelude.{◌≡◌, ℕ, List, [], None, Err, OnOk, OnErr, string_bytes, false};
ghost use Rattle.sqlite.specs.State.{HasCleanDisk};
ghost use Rattle.sqlite.specs.Held.{state};
ghost use Rattle.sqlite.specs.Table.{Table as Stored};
ghost use Rattle.pl_outside.specs.Counts.{count_end, count_plus};
ghost use Rattle.pl_outside.specs.Logs.{Loads};
ghost use Rattle.pl_adjust_sql.specs.Tables.{statement_of, IsFound};
ghost use Rattle.pl_adjust_sql.specs.Reads.{AppendsAnswer, AppendsRows, count_after};
ghost use Rattle.pl_adjust_sql.specs.Refusals.{IsRefused};

use crate::read::read_table;
use crate::refusal::TableError;
use pl_outside::{AdjustKeeper, KeepError, LoadedLog, RawAdjust, Table};
use sqlite::{Alter, Connection};
use std::alloc::Global;

/// The tables of one connection, under one name. A load by another name, and each refusal of a statement or a
/// value, is a counted fault. As a keeper it says nothing of what it holds: what a load appends is what
/// `read_table` does, and its log has it.
#[derive(Drop)]
pub struct SqlKeeper<S: Alter> {
    connection: Connection<S>,
    name: String,
    log: LoadedLog,
    pub(crate) faults: u64,
}

impl<S: Alter> SqlKeeper<S> {
    /// The keeper of the connection's tables under this name, with no fault counted yet.
    pub fn new(connection: Connection<S>, name: String) -> SqlKeeper<S>
        ensures connection { result.connection ≡ connection }
        ensures name { result.name ≡ name }
        ensures log { result.log.tables ≡ [] }
        ensures faults { result.faults ≡ 0 }
    {
        SqlKeeper {
            connection,
            name,
            log: LoadedLog::new(),
            faults: 0,
        }
    }
}

fn failed(faults: &mut u64) -> KeepError
    ensures failed { result ≡ KeepError.Failed }
    ensures count { faults.new ≡ count_plus faults.old 1 }
{
    *faults = faults.saturating_add(1);
    KeepError::Failed
}

impl<S: Alter> AdjustKeeper for SqlKeeper<S> {
    ghost lists = { λ _. None };

    ghost loaded = { λ keeper. keeper.log.tables };

    ghost faults = { λ keeper. keeper.faults };

    // it counts no calls, so that their count stands at its end
    ghost calls = { λ _. count_end };

    ghost sound = { λ _. false };

    fn load(
        &mut self,
        alloc: Global,
        name: &str,
        table: Table,
        into: &mut Vec<RawAdjust>,
    ) -> Result<(), KeepError>
        ensures other { ¬ (string_bytes self.old.name ≡ name.now) → result ≡ Err KeepError.Failed }
        ensures statement { HasCleanDisk (state S.Store self.new.connection)
            → OnOk result (AppendsAnswer table
            (state S.Store self.old.connection) (state S.Store self.new.connection)
            into.old.items into.new.items) }
        ensures rows { HasCleanDisk (state S.Store self.new.connection)
            → (stored : Stored) (places : List ℕ)
            → IsFound (state S.Store self.old.connection).now.schema table stored places
            → OnOk result (AppendsRows places ((state S.Store self.old.connection).now.trees stored.tree)
            into.old.items into.new.items) }
        ensures refused { HasCleanDisk (state S.Store self.new.connection)
            → string_bytes self.old.name ≡ name.now
            → result ≡ Err KeepError.Failed
            → IsRefused (statement_of table)
            (state S.Store self.old.connection) (state S.Store self.new.connection) }
        ensures same { OnErr result (into.new.items ≡ into.old.items) }
        ensures logged { Loads self.old.log.tables self.new.log.tables name.now table
            into.old.items into.new.items result }
        ensures count { self.new.faults ≡ count_after self.old.faults result }
        ensures name { self.new.name ≡ self.old.name }
    {
        if self.name.as_str() != name {
            return Err(failed(&mut self.faults));
        }
        let before = into.len();
        match read_table(alloc, &mut self.connection, table, into) {
            Ok(()) => {
                self.log.loads(name.as_bytes(), &table, &into[before..]);
                Ok(())
            }
            Err(TableError::Memory) => Err(KeepError::Memory),
            Err(TableError::Refused) => Err(failed(&mut self.faults)),
        }
    }

    ghost use Rattle.std.proofs.Common.{rules};

    ghost sound_tells = { Prim.search rules };

    ghost lists_ascend = { Prim.search rules };
}
