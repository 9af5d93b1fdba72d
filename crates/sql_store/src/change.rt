//! Writes and deletes rows in a transaction.
ghost use Rattle.std.specs.Prelude.{is_ok};
ghost use Rattle.sqlite.specs.Held.{state};
ghost use Rattle.sqlite.specs.Values.{bound};
ghost use Rattle.sql_rows.specs.Written.{IsKeyOf, Removed, AddedBy, Replaced};
ghost use Rattle.sql_store.specs.Store.{WritesInTransaction};

use crate::transaction::execute;
use sql_rows::{Fault, Table};
use sqlite::types::ValueRef;
use sqlite::{Alter, Connection};

/// Deletes the row with this key, if there is one.
pub(crate) fn take<S: Alter>(
    conn: &mut Connection<S>,
    table: Table,
    key: &[ValueRef<'_>],
) -> Result<(), Fault>
    ensures { WritesInTransaction (state S.Store conn.old)
        (state S.Store conn.new) (is_ok result) (Removed table (bound key.now)) }
{
    execute(conn, table.delete_text(), key)?;
    Ok(())
}

/// Inserts a row.
fn insert<S: Alter>(
    conn: &mut Connection<S>,
    table: Table,
    row: &[ValueRef<'_>],
) -> Result<(), Fault>
    ensures { WritesInTransaction (state S.Store conn.old)
        (state S.Store conn.new) (is_ok result) (AddedBy table (bound row.now)) }
{
    execute(conn, table.insert_text(), row)?;
    Ok(())
}

/// Writes a row, replacing the one with its key: in one statement, if the table has no other unique
/// columns.
pub(crate) fn replace<S: Alter>(
    conn: &mut Connection<S>,
    table: Table,
    key: &[ValueRef<'_>],
    row: &[ValueRef<'_>],
) -> Result<(), Fault>
    requires { IsKeyOf table (bound key.now) (bound row.now) }
    ensures { WritesInTransaction (state S.Store conn.old)
        (state S.Store conn.new)
        (is_ok result) (Replaced table (bound key.now) (bound row.now)) }
{
    match table.replace_text() {
        Some(text) => {
            execute(conn, text, row)?;
        }
        None => {
            take(conn, table, key)?;
            insert(conn, table, row)?;
        }
    }
    Ok(())
}
