//! The documented statements that make the tables.

ghost use Rattle.std.specs.Prelude.{◌≡◌, ◌≤◌, ℕ, List, OnOk};
ghost use Rattle.sqlite.specs.State.{HasCleanDisk};
ghost use Rattle.sqlite.specs.Held.{state};
ghost use Rattle.sqlite.specs.Table.{Table as Stored};
ghost use Rattle.sqlite.specs.View.{doubt};
ghost use Rattle.pl_outside.specs.declared.keeper.Table.{Table as Name};
ghost use Rattle.pl_adjust_sql.specs.Tables.{IsFound};
ghost use Rattle.pl_adjust_sql.specs.Refusals.{RefusesToMake};
ghost use Rattle.pl_adjust_sql.specs.Created.{created_table, created_places, create_statement_of};

use crate::refusal::TableError;
use pl_outside::Table;
use sqlite::{Alter, Connection};

/// Makes the table by the documented statement, whatever other tables there are. `Refused` comes where SQLite
/// refuses the statement, as where something has the name, and `Memory` where memory runs out.
pub fn create_table<S: Alter>(
    connection: &mut Connection<S>,
    table: Table,
) -> Result<(), TableError>
    ensures made { HasCleanDisk (state S.Store connection.new) → OnOk result ((tree : ℕ)
        × IsFound (state S.Store connection.new).now.schema table (created_table table tree) created_places) }
    ensures kept { HasCleanDisk (state S.Store connection.new)
        → (other : Name) (stored : Stored) (places : List ℕ)
        → IsFound (state S.Store connection.old).now.schema other stored places
        → OnOk result (IsFound (state S.Store connection.new).now.schema other stored places) }
    ensures refused { HasCleanDisk (state S.Store connection.new) → result ≡ Err TableError.Refused
        → RefusesToMake (create_statement_of table)
        (state S.Store connection.old) (state S.Store connection.new) }
    ensures clean { doubt (state S.Store connection.old).is_clean
        ≤ doubt (state S.Store connection.new).is_clean }
{
    connection.execute(create_statement_of(table), &[])?;
    Ok(())
}

/// Makes the tables `splits`, `mergers` and `dividends`, in this order. The error is that of the first one
/// that is not made; after it some may be there.
pub fn create_tables<S: Alter>(connection: &mut Connection<S>) -> Result<(), TableError>
    ensures made { HasCleanDisk (state S.Store connection.new) → OnOk result ((table : Name) → (tree : ℕ)
        × IsFound (state S.Store connection.new).now.schema table (created_table table tree) created_places) }
{
    create_table(connection, Table::Splits)?;
    create_table(connection, Table::Mergers)?;
    create_table(connection, Table::Dividends)?;
    Ok(())
}

fn create_statement_of(table: Table) -> &'static str
    ensures { result.now ≡ create_statement_of table }
{
    match table {
        Table::Splits => {
            "CREATE TABLE splits (id INTEGER PRIMARY KEY, effective_date INTEGER NOT NULL,\n  \
             num INTEGER NOT NULL, den INTEGER NOT NULL, sid INTEGER NOT NULL) STRICT"
        }
        Table::Mergers => {
            "CREATE TABLE mergers (id INTEGER PRIMARY KEY, effective_date INTEGER NOT NULL,\n  \
             num INTEGER NOT NULL, den INTEGER NOT NULL, sid INTEGER NOT NULL) STRICT"
        }
        Table::Dividends => {
            "CREATE TABLE dividends (id INTEGER PRIMARY KEY, effective_date INTEGER NOT NULL,\n  \
             num INTEGER NOT NULL, den INTEGER NOT NULL, sid INTEGER NOT NULL) STRICT"
        }
    }
}
