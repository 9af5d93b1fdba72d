//! Commits batches of changes: each in a transaction of its own, or several in one.
ghost use Rattle.std.specs.Prelude.{◌≡◌, false, IsTrue, OnErr, OnOk, is_ok};
ghost use Rattle.sqlite.specs.Held.{state};
ghost use Rattle.sqlite.specs.State.{HasCleanDisk, Shows, Survives};
ghost use Rattle.numbers.specs.Abstraction.{subject_of};
ghost use Rattle.settle.specs.Abstraction.{spid_of, lrn_of, code_of, block_of, block_row_of, broadcast_row_of, broadcast_key_of, wait_key_of};
ghost use Rattle.settle.specs.Changes.{changes_of, AppliesChanges};
ghost use Rattle.sql_store.specs.Store.{CommitLeaves, HasStoreTables, AppliesInTransaction, HasCommitted, HasEndedGroup, HasWritten, HasWrittenOver, IsIdle};
ghost use Rattle.sql_store.specs.Transactions.{HasEnded, IsUndone};
ghost use Rattle.sql_store.specs.Changes.{singles, lists, replaced, with_changes, all_made, if_some, with_carrier, with_lrn, with_code, with_block, clock_made, with_version, without_version, with_broadcast, without_broadcast, with_wait, without_wait};

use crate::database::Database;
use crate::kept::{Kept, clock};
use crate::rows::{
    delete_broadcast, delete_version, delete_wait, put_block, put_broadcast, put_carrier,
    put_clock, put_code, put_lrn, put_set, put_set_alone, put_version, put_wait,
};
use crate::transaction;
use delivery::Broadcast;
use numbers::{BlockId, CodeId, Lrn, Spid, Subject};
use settle::{BlockRow, BroadcastKey, Changes, ClockMove, ClockRow, VersionRow, WaitKey};
use sql_rows::{Fault, StoredClock};
use sqlite::{Alter, Connection};
use windows::WindowSet;

// Deletes the rows with these ids first, because the subjects that their new rows hold must be
// unique.
fn clear_versions<S: Alter>(
    conn: &mut Connection<S>,
    rows: &[(u64, VersionRow)],
) -> Result<(), Fault>
    ensures { AppliesInTransaction (state S.Store conn.old)
        (state S.Store conn.new)
        (is_ok result) (all_made (λ p. without_version p.0) rows.now) }
{
    for row in rows {
        delete_version(conn, row.0)?;
    }
    Ok(())
}

fn put_versions<S: Alter>(conn: &mut Connection<S>, rows: &[(u64, VersionRow)]) -> Result<(), Fault>
    ensures { AppliesInTransaction (state S.Store conn.old)
        (state S.Store conn.new)
        (is_ok result) (all_made (λ p. with_version p.0 p.1) rows.now) }
{
    for row in rows {
        put_version(conn, row.0, &row.1)?;
    }
    Ok(())
}

// Replaces the rows with these ids. The row of one version takes its subject from no other.
fn replace_versions<S: Alter>(
    conn: &mut Connection<S>,
    rows: &[(u64, VersionRow)],
) -> Result<(), Fault>
    ensures { AppliesInTransaction (state S.Store conn.old)
        (state S.Store conn.new) (is_ok result) (replaced rows.now) }
{
    if let [row] = rows {
        return put_version(conn, row.0, &row.1);
    }
    clear_versions(conn, rows)?;
    put_versions(conn, rows)
}

fn put_broadcasts<S: Alter>(
    conn: &mut Connection<S>,
    rows: &[(BroadcastKey, Broadcast)],
) -> Result<(), Fault>
    ensures { AppliesInTransaction (state S.Store conn.old)
        (state S.Store conn.new) (is_ok result)
        (all_made (λ p. with_broadcast (broadcast_key_of p.0) (broadcast_row_of p.1)) rows.now) }
{
    for row in rows {
        put_broadcast(conn, row.0, &row.1)?;
    }
    Ok(())
}

fn put_waits<S: Alter>(conn: &mut Connection<S>, rows: &[(WaitKey, Subject)]) -> Result<(), Fault>
    ensures { AppliesInTransaction (state S.Store conn.old)
        (state S.Store conn.new)
        (is_ok result) (all_made (λ p. with_wait (wait_key_of p.0) (subject_of p.1)) rows.now) }
{
    for row in rows {
        put_wait(conn, row.0, row.1)?;
    }
    Ok(())
}

fn delete_broadcasts<S: Alter>(conn: &mut Connection<S>, keys: &[BroadcastKey]) -> Result<(), Fault>
    ensures { AppliesInTransaction (state S.Store conn.old)
        (state S.Store conn.new)
        (is_ok result) (all_made (λ k. without_broadcast (broadcast_key_of k)) keys.now) }
{
    for key in keys {
        delete_broadcast(conn, *key)?;
    }
    Ok(())
}

fn delete_waits<S: Alter>(conn: &mut Connection<S>, keys: &[WaitKey]) -> Result<(), Fault>
    ensures { AppliesInTransaction (state S.Store conn.old)
        (state S.Store conn.new)
        (is_ok result) (all_made (λ k. without_wait (wait_key_of k)) keys.now) }
{
    for key in keys {
        delete_wait(conn, *key)?;
    }
    Ok(())
}

fn register<S: Alter>(conn: &mut Connection<S>, carrier: Option<Spid>) -> Result<(), Fault>
    ensures { AppliesInTransaction (state S.Store conn.old)
        (state S.Store conn.new)
        (is_ok result) (if_some (λ k. with_carrier (spid_of k)) carrier) }
{
    match carrier {
        Some(spid) => put_carrier(conn, spid),
        None => Ok(()),
    }
}

fn assign_lrn<S: Alter>(conn: &mut Connection<S>, owned: Option<(Lrn, Spid)>) -> Result<(), Fault>
    ensures { AppliesInTransaction (state S.Store conn.old)
        (state S.Store conn.new)
        (is_ok result) (if_some (λ e. with_lrn (lrn_of e.0) (spid_of e.1)) owned) }
{
    match owned {
        Some((lrn, owner)) => put_lrn(conn, lrn, owner),
        None => Ok(()),
    }
}

fn open_code<S: Alter>(
    conn: &mut Connection<S>,
    opened: Option<(CodeId, Spid)>,
) -> Result<(), Fault>
    ensures { AppliesInTransaction (state S.Store conn.old)
        (state S.Store conn.new)
        (is_ok result) (if_some (λ e. with_code (code_of e.0) (spid_of e.1)) opened) }
{
    match opened {
        Some((code, owner)) => put_code(conn, code, owner),
        None => Ok(()),
    }
}

fn donate<S: Alter>(
    conn: &mut Connection<S>,
    donated: Option<(BlockId, BlockRow)>,
) -> Result<(), Fault>
    ensures { AppliesInTransaction (state S.Store conn.old)
        (state S.Store conn.new)
        (is_ok result) (if_some (λ e. with_block (block_of e.0) (block_row_of e.1)) donated) }
{
    match donated {
        Some((block, row)) => put_block(conn, block, &row),
        None => Ok(()),
    }
}

// Writes the clock's row. `row` is the row before: a clock move keeps its windows, and new windows
// keep its minute and its next id. Without a row, only the new windows are written.
fn set_clock<S: Alter>(
    conn: &mut Connection<S>,
    moved: Option<ClockMove>,
    set: Option<WindowSet>,
    row: Option<ClockRow>,
) -> Result<(), Fault>
    ensures { AppliesInTransaction (state S.Store conn.old)
        (state S.Store conn.new) (is_ok result) (clock_made moved set row) }
{
    match (moved, set, row) {
        (None, None, _) => Ok(()),
        (Some(_), None, None) => Ok(()),
        (Some(moved), None, Some(row)) => put_clock(
            conn,
            &StoredClock {
                minute: moved.minute,
                next_id: moved.next_id,
                present: row.present.number,
            },
        ),
        (Some(moved), Some(set), _) => put_set(
            conn,
            &StoredClock {
                minute: moved.minute,
                next_id: moved.next_id,
                present: set.number,
            },
            &set.windows,
        ),
        (None, Some(set), Some(row)) => put_set(
            conn,
            &StoredClock {
                minute: row.minute,
                next_id: row.next_id,
                present: set.number,
            },
            &set.windows,
        ),
        (None, Some(set), None) => put_set_alone(conn, set),
    }
}

// Writes the optional single rows of a batch, such as the clock's.
fn write_singles<S: Alter>(
    conn: &mut Connection<S>,
    changes: &Changes,
    row: Option<ClockRow>,
) -> Result<(), Fault>
    ensures { AppliesInTransaction (state S.Store conn.old)
        (state S.Store conn.new) (is_ok result) (singles changes.now row) }
{
    register(conn, changes.carrier)?;
    assign_lrn(conn, changes.lrn)?;
    open_code(conn, changes.code)?;
    donate(conn, changes.block)?;
    set_clock(conn, changes.clock, changes.set, row)?;
    Ok(())
}

// Writes all other rows, and then deletes rows.
fn write_lists<S: Alter>(conn: &mut Connection<S>, changes: &Changes) -> Result<(), Fault>
    ensures { AppliesInTransaction (state S.Store conn.old)
        (state S.Store conn.new) (is_ok result) (lists changes.now) }
{
    replace_versions(conn, changes.versions.as_slice())?;
    put_broadcasts(conn, changes.broadcasts.as_slice())?;
    put_waits(conn, changes.waits.as_slice())?;
    delete_broadcasts(conn, changes.deleted_broadcasts.as_slice())?;
    delete_waits(conn, changes.deleted_waits.as_slice())?;
    Ok(())
}

// Writes all rows of a batch.
fn write_rows<S: Alter>(
    conn: &mut Connection<S>,
    changes: &Changes,
    row: Option<ClockRow>,
) -> Result<(), Fault>
    ensures { AppliesInTransaction (state S.Store conn.old)
        (state S.Store conn.new) (is_ok result) (with_changes changes.now row) }
{
    write_singles(conn, changes, row)?;
    write_lists(conn, changes)?;
    Ok(())
}

// Writes all rows of a batch in the transaction, which it begins if necessary. If a write fails, the
// transaction is rolled back. `row` is the clock's row, for changes that depend on it.
fn write_or_undo<S: Alter>(
    conn: &mut Connection<S>,
    changes: &Changes,
    row: Option<ClockRow>,
) -> Result<(), Fault>
    requires { IsTrue (state S.Store conn.old).is_open → HasStoreTables (state S.Store conn.old) }
    ensures { HasWrittenOver (state S.Store conn.old) (state S.Store conn.new) (is_ok result)
        (with_changes changes.now row) }
{
    if conn.is_autocommit() {
        transaction::begin(conn)?;
    }
    if let Err(fault) = write_rows(conn, changes, row) {
        transaction::roll_back(conn);
        return Err(fault);
    }
    Ok(())
}

/// Writes all changes in the transaction, which it begins if necessary. If a write fails, the
/// transaction is rolled back. Reads the clock's row first: a shut connection fails there, and
/// nothing is written to it.
pub(crate) fn write<S: Alter>(db: &mut Database<S>, changes: &Changes) -> Result<(), Fault>
    ensures { HasWritten (state S.Store db.old.conn) (state S.Store db.new.conn) (is_ok result)
        (AppliesChanges (changes_of changes.now)) }
{
    let row = clock(db)?;
    let before = db.kept.take();
    write_or_undo(&mut db.conn, changes, row)?;
    db.kept = before.after(changes, row);
    Ok(())
}

// Commits the transaction, or rolls it back.
fn commit_written<S: Alter>(db: &mut Database<S>) -> Result<(), Fault>
    ensures committed { HasCleanDisk (state S.Store db.new.conn) → OnOk result
        (Shows (state S.Store db.old.conn) (state S.Store db.new.conn) (state S.Store db.old.conn).now
        (state S.Store db.old.conn).now false) }
    ensures err { HasCleanDisk (state S.Store db.new.conn) → OnErr result
        (HasEnded (state S.Store db.old.conn) (state S.Store db.new.conn)) }
    ensures survives { Survives (state S.Store db.old.conn) (state S.Store db.new.conn)
        (λ trees. trees ≡ (state S.Store db.old.conn).now.trees) }
{
    // A failure may roll back to another row, or shut the connection.
    let kept = db.kept.take();
    transaction::commit(&mut db.conn)?;
    db.kept = kept;
    Ok(())
}

/// Applies all changes in one transaction, or none.
pub(crate) fn commit<S: Alter>(db: &mut Database<S>, changes: &Changes) -> Result<(), Fault>
    requires { IsTrue (state S.Store db.old.conn).is_open → IsIdle (state S.Store db.old.conn) }
    ensures committed { HasCommitted (state S.Store db.old.conn) (state S.Store db.new.conn)
        (is_ok result) (AppliesChanges (changes_of changes.now)) }
    ensures left { CommitLeaves (state S.Store db.old.conn) (state S.Store db.new.conn)
        (AppliesChanges (changes_of changes.now)) }
{
    write(db, changes)?;
    commit_written(db)
}

/// Rolls back the transaction, if there is one.
pub(crate) fn undo<S: Alter>(db: &mut Database<S>)
    ensures undone { HasCleanDisk (state S.Store db.new.conn)
        → IsUndone (state S.Store db.old.conn) (state S.Store db.new.conn) }
    ensures survives { Survives (state S.Store db.old.conn) (state S.Store db.new.conn) (λ _. ⊥) }
{
    db.kept = Kept::none();
    transaction::roll_back(&mut db.conn);
}

/// Commits the transaction, if one has begun, or rolls it back. Reads the clock's row first: a shut
/// connection fails there.
pub(crate) fn end<S: Alter>(db: &mut Database<S>) -> Result<(), Fault>
    ensures { HasEndedGroup (state S.Store db.old.conn) (state S.Store db.new.conn) (is_ok result) }
{
    if let Err(fault) = clock(db) {
        undo(db);
        return Err(fault);
    }
    if db.conn.is_autocommit() {
        return Ok(());
    }
    commit_written(db)
}
