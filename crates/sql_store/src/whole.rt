//! Reads all rows of a database once.
ghost use Rattle.std.specs.Prelude.{◌≡◌, true, false, None, IsTrue, IfOk, OnOk, is_ok};
ghost use Rattle.std.specs.List.{list_all};
ghost use Rattle.sqlite.specs.Held.{state};
ghost use Rattle.sql_store.specs.Store.{HasStoreTables, HasQueried, content_at};
ghost use Rattle.sql_store.specs.Whole.{HasPresentSet, IsMoved, IsRead, ReadsAdded, ReadsAll, ReadsRegistry, ReadsVersions};

use crate::database::Database;
use crate::kept::Kept;
use crate::lookups;
use crate::opening_watcher::OpeningWatcher;
use crate::through::read_table;
use delivery::Broadcast;
use numbers::{BlockId, CodeId, Lrn, Routing, Spid, Subject};
use settle::{BlockRow, BroadcastKey, NumberedRow, WaitKey};
use sql_rows::{Fault, FromRow, OldClock, OldVersion, StoredClock, Table};
use sqlite::Alter;
use windows::WindowSet;

// Reads a table, and notes each row with `watcher`. Returns whether it has no row.
fn read<T: FromRow + Drop, S: Alter, N: OpeningWatcher>(
    db: &mut Database<S>,
    table: Table,
    watcher: &mut N,
) -> Result<bool, Fault>
    ensures value { IsTrue (state S.Store db.new.conn).is_open
        → IfOk result (IsRead table T.seen_in (state S.Store db.old.conn).now.trees) }
    ensures queried { HasQueried (state S.Store db.old.conn) (state S.Store db.new.conn) (is_ok result) }
{
    db.kept = Kept::none();
    read_table::<T, S, N>(&mut db.conn, table, watcher)
}

fn are_blank(tables: &[bool]) -> bool
    ensures { result ≡ list_all (λ b. b) tables.now }
{
    tables.iter().all(|is_blank| *is_blank)
}

// Reads carriers, routing numbers, codes and blocks. Returns whether their tables have no row.
fn read_registry<S: Alter, N: OpeningWatcher>(
    db: &mut Database<S>,
    watcher: &mut N,
) -> Result<bool, Fault>
    ensures value { IsTrue (state S.Store db.new.conn).is_open
        → IfOk result (ReadsRegistry (state S.Store db.old.conn).now.trees) }
    ensures queried { HasQueried (state S.Store db.old.conn) (state S.Store db.new.conn) (is_ok result) }
{
    let carriers = read::<Spid, S, N>(db, Table::Carrier, watcher)?;
    let lrns = read::<(Lrn, Spid), S, N>(db, Table::Lrn, watcher)?;
    let codes = read::<(CodeId, Spid), S, N>(db, Table::Code, watcher)?;
    let blocks = read::<(BlockId, BlockRow), S, N>(db, Table::Block, watcher)?;
    Ok(are_blank(&[carriers, lrns, codes, blocks]))
}

// Reads versions, broadcasts, pending downloads and the clock. Returns whether their tables have no
// row.
fn read_versions<S: Alter, N: OpeningWatcher>(
    db: &mut Database<S>,
    watcher: &mut N,
) -> Result<bool, Fault>
    ensures value { IsTrue (state S.Store db.new.conn).is_open
        → IfOk result (ReadsVersions (state S.Store db.old.conn).now.trees) }
    ensures queried { HasQueried (state S.Store db.old.conn) (state S.Store db.new.conn) (is_ok result) }
{
    let versions = read::<NumberedRow, S, N>(db, Table::Version, watcher)?;
    let broadcasts = read::<(BroadcastKey, Broadcast), S, N>(db, Table::Broadcast, watcher)?;
    let waits = read::<(WaitKey, Subject), S, N>(db, Table::Wait, watcher)?;
    let clock = read::<(u64, StoredClock), S, N>(db, Table::Clock, watcher)?;
    Ok(are_blank(&[versions, broadcasts, waits, clock]))
}

// Reads the routings that versions send and the sets of windows. Returns whether there are none.
fn read_added<S: Alter, N: OpeningWatcher>(
    db: &mut Database<S>,
    watcher: &mut N,
) -> Result<bool, Fault>
    ensures value { IsTrue (state S.Store db.new.conn).is_open
        → IfOk result (ReadsAdded (state S.Store db.old.conn).now.trees) }
    ensures queried { HasQueried (state S.Store db.old.conn) (state S.Store db.new.conn) (is_ok result) }
{
    let nexts = read::<(u64, Routing), S, N>(db, Table::NextRouting, watcher)?;
    let sets = read::<WindowSet, S, N>(db, Table::WindowSet, watcher)?;
    Ok(are_blank(&[nexts, sets]))
}

// Checks that the tables of earlier schemas have no row. A row in them is a fault.
fn see_moved<S: Alter, N: OpeningWatcher>(
    db: &mut Database<S>,
    watcher: &mut N,
) -> Result<(), Fault>
    ensures value { IsTrue (state S.Store db.new.conn).is_open
        → OnOk result (IsMoved (state S.Store db.old.conn).now.trees) }
    ensures queried { HasQueried (state S.Store db.old.conn) (state S.Store db.new.conn) (is_ok result) }
{
    let versions = read::<OldVersion, S, N>(db, Table::OldVersion, watcher)?;
    let clock = read::<OldClock, S, N>(db, Table::OldClock, watcher)?;
    if !are_blank(&[versions, clock]) {
        return Err(Fault::Device);
    }
    Ok(())
}

// Checks that the clock's row and its set of windows are there, the row only if there are rows.
fn see_clock<S: Alter>(db: &mut Database<S>, is_blank: bool) -> Result<(), Fault>
    ensures begun { IsTrue (state S.Store db.new.conn).is_open
        → OnOk result ((content_at (state S.Store db.old.conn)).clock ≡ None
        → is_blank ≡ true) }
    ensures present { IsTrue (state S.Store db.new.conn).is_open
        → OnOk result (HasPresentSet (state S.Store db.old.conn).now.trees) }
    ensures queried { HasQueried (state S.Store db.old.conn) (state S.Store db.new.conn) (is_ok result) }
{
    let clock = lookups::clock(db)?;
    if clock.is_none() && !is_blank {
        return Err(Fault::Device);
    }
    Ok(())
}

/// Reads every row once, and notes each with `watcher`. Returns whether the database has no row. A
/// row that cannot be read is a fault of the device, and so are a row in a table of an earlier
/// schema, a clock's row whose set of windows is missing, and any row without a clock's row.
pub(crate) fn read_all<S: Alter, N: OpeningWatcher>(
    db: &mut Database<S>,
    watcher: &mut N,
) -> Result<bool, Fault>
    ensures value { IsTrue (state S.Store db.new.conn).is_open
        → IfOk result (ReadsAll (state S.Store db.old.conn).now.trees) }
    ensures queried { HasQueried (state S.Store db.old.conn) (state S.Store db.new.conn) (is_ok result) }
{
    let registry = read_registry(db, watcher)?;
    let versions = read_versions(db, watcher)?;
    let added = read_added(db, watcher)?;
    see_moved(db, watcher)?;
    let is_blank = are_blank(&[registry, versions, added]);
    see_clock(db, is_blank)?;
    Ok(is_blank)
}
