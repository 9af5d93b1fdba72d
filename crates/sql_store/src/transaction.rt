//! Begins and ends transactions, and executes statements in them.
ghost use Rattle.std.specs.Prelude.{◌≡◌, ◌⊎◌, false, true, Err, IsTrue, OnErr, OnOk};
ghost use Rattle.sqlite.specs.Held.{state};
ghost use Rattle.sqlite.specs.State.{ExecutesInside, HasCleanDisk, IsRolledBack, IsUnchanged, Shows, Survives};
ghost use Rattle.sqlite.specs.Values.{bound};
ghost use Rattle.sql_store.specs.Transactions.{HasEnded, IsUndone, StaysInside};

use sql_rows::Fault;
use sqlite::types::ValueRef;
use sqlite::{Alter, Connection, Error, ErrorCode};

/// Begins a transaction.
pub(crate) fn begin<S: Alter>(conn: &mut Connection<S>) -> Result<(), Fault>
    ensures begun { HasCleanDisk (state S.Store conn.new) → OnOk result
        (Shows (state S.Store conn.old) (state S.Store conn.new) (state S.Store conn.old).now
        (state S.Store conn.old).committed true) }
    ensures err { HasCleanDisk (state S.Store conn.new) → OnErr result
        (IsUnchanged (state S.Store conn.old) (state S.Store conn.new)
        ⊎ IsRolledBack (state S.Store conn.old) (state S.Store conn.new)) }
    ensures survives { Survives (state S.Store conn.old) (state S.Store conn.new) (λ _. ⊥) }
{
    conn.execute("BEGIN", &[])?;
    Ok(())
}

/// Commits the transaction, or rolls it back.
pub(crate) fn commit<S: Alter>(conn: &mut Connection<S>) -> Result<(), Fault>
    ensures committed { HasCleanDisk (state S.Store conn.new) → OnOk result
        (Shows (state S.Store conn.old) (state S.Store conn.new) (state S.Store conn.old).now
        (state S.Store conn.old).now false) }
    ensures err { HasCleanDisk (state S.Store conn.new)
        → OnErr result (HasEnded (state S.Store conn.old) (state S.Store conn.new)) }
    ensures survives { Survives (state S.Store conn.old) (state S.Store conn.new)
        (λ db. db ≡ (state S.Store conn.old).now.trees) }
{
    conn.execute("COMMIT", &[])?;
    Ok(())
}

/// Rolls back the transaction, if there is one.
pub(crate) fn roll_back<S: Alter>(conn: &mut Connection<S>)
    ensures undone { HasCleanDisk (state S.Store conn.new)
        → IsUndone (state S.Store conn.old) (state S.Store conn.new) }
    ensures survives { Survives (state S.Store conn.old) (state S.Store conn.new) (λ _. ⊥) }
{
    if !conn.is_autocommit() {
        // A failure ends the transaction too.
        let _ = conn.execute("ROLLBACK", &[]);
    }
}

/// Executes a statement in a transaction. Refuses outside of one, where a write would be committed.
pub(crate) fn execute<S: Alter>(
    conn: &mut Connection<S>,
    sql: &str,
    params: &[ValueRef<'_>],
) -> Result<usize, Error>
    requires { StaysInside sql.now }
    ensures ended { (state S.Store conn.old).in_transaction ≡ false
        → (result ≡ Err (Error.SqliteFailure ErrorCode.TransactionState)) × (conn.new ≡ conn.old) }
    ensures runs { HasCleanDisk (state S.Store conn.new)
        → IsTrue (state S.Store conn.old).in_transaction → ExecutesInside 0 sql.now (bound params.now)
        (state S.Store conn.old) (state S.Store conn.new) result }
    ensures survives { Survives (state S.Store conn.old) (state S.Store conn.new) (λ _. ⊥) }
{
    if conn.is_autocommit() {
        return Err(Error::SqliteFailure(ErrorCode::TransactionState));
    }
    conn.execute(sql, params)
}
