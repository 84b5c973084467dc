//! Which tables a read finds, and how their rows are kept. The functions do nothing: their contracts are laws
//! of what SQLite's clauses say of an open database.
ghost use Rattle.std.specs.Prelude.{◌≡◌, ◌+◌, ℕ, pos, false, IsTrue, List};
ghost use Rattle.sqlite.specs.Held.{state};
ghost use Rattle.sqlite_value.specs.Order.{Row as Entry};
ghost use Rattle.sqlite_value.specs.declared.value.Value.TheVariants.{Int};
ghost use Rattle.sqlite.specs.Table.{Table as Stored};
ghost use Rattle.sqlite_trees.specs.Tree.{rowid, IsTable};
ghost use Rattle.sqlite_trees.specs.Objects.{catalog_tree};
ghost use Rattle.sqlite_rules.specs.Lists.{Has};
ghost use Rattle.pl_outside.specs.declared.keeper.Table.{Table};
ghost use Rattle.pl_adjust_sql.specs.Tables.{IsFound};
ghost use Rattle.pl_adjust_sql.specs.Created.{created_table, created_places, IsListed};

use sqlite::{Alter, Connection};

/// In an open database, whoever wrote it, a table that `sqlite_schema` lists by the documented statement is
/// found by its name, whatever else is listed, and its rows are in the tree that the row's rowid numbers.
pub fn listed_tables_are_found<S: Alter>(connection: &Connection<S>)
    ensures { IsTrue (state S.Store connection.now).is_open → (table : Table) (row : Entry)
        → Has ((state S.Store connection.now).now.trees catalog_tree) row → IsListed table row
        → (tree : ℕ) × (rowid row ≡ Int (pos (tree + 1)))
        × IsFound (state S.Store connection.now).now.schema table (created_table table tree) created_places }
{
    let _schema = connection.schema();
}

/// The rowids of a found table's rows rise, and so no id comes twice that is the rowid, while the transaction
/// of the store isn't broken. (A store's failure breaks it, and a rollback mends it.)
pub fn stored_rows_rise<S: Alter>(connection: &Connection<S>)
    ensures { (S.Store.view connection.now.store).is_broken ≡ false
        → (table : Table) (stored : Stored) (places : List ℕ)
        → IsFound (state S.Store connection.now).now.schema table stored places
        → IsTable ((state S.Store connection.now).now.trees stored.tree) }
{
    let _schema = connection.schema();
}
