//! Migrates a file with an earlier schema to the present one, in one transaction.
ghost use Rattle.std.specs.Prelude.{◌≡◌, ◌⊎◌, ◌<◌, ℕ, List, false, [], Err, IsTrue, IfOk, OnErr, OnOk, is_ok, map};
ghost use Rattle.sqlite.specs.Given.{HasGiven, IsPlain};
ghost use Rattle.sqlite.specs.Listing.{understood};
ghost use Rattle.sqlite.specs.State.{HasCleanDisk, IsRolledBack, Survives};
ghost use Rattle.sql_rows.specs.Versions.{old_version_in};
ghost use Rattle.sql_store.specs.Through.{HasReadAll, IsOnlyRead};
ghost use Rattle.sqlite.specs.Held.{state};
ghost use Rattle.sqlite.specs.Program.{overlay};
ghost use Rattle.sqlite.specs.Query.{IsAnswer};
ghost use Rattle.sql_rows.specs.Found.{IsListAnswer};
ghost use Rattle.sql_rows.specs.Statements.{query_of};
ghost use Rattle.sql_rows.specs.Migration.{IsCleared, IsMade, IsTableOf, schema_after, schema_before, schema_of};
ghost use Rattle.sql_store.specs.Changes.{if_some, with_set};
ghost use Rattle.sql_rows.specs.Content.{stored_clock};
ghost use Rattle.version.specs.Abstraction.{windows_of};
ghost use Rattle.sql_store.specs.Migration.{MigratesInTransaction, AreIdsOf, ArePutBut, HasIds, AreStayingRead, IsBarePut, IsBegun, IsBegunAs, IsCarried, AreRowsCopied, AreTablesCreated, IsIndexed, IsMovedFrom, HasSchemaVersion, IsOldPut, IsOldDeleted, IsMigrated, AreTreesMigrated, IsSentRead, AreOldRowsDeleted, HasMigrated, HasTheseWindows, HasDifferentWindows};
ghost use Rattle.sql_store.specs.Store.{HasQueried, IsSetPut, AppliesInTransaction, WritesInTransaction};
ghost use Rattle.sql_store.specs.Whole.{AreRegistryRead, IsRead};

use crate::change::{replace, take};
use crate::file_fault::FileFault;
use crate::opening_watcher::OpeningWatcher;
use crate::rows::put_set;
use crate::through::{next_read, read_table};
use crate::transaction::{self, execute};
use delivery::Broadcast;
use numbers::{BlockId, CodeId, Lrn, Routing, Spid, Subject};
use settle::{BlockRow, BroadcastKey, VersionRow, WaitKey};
use sql_rows::{
    Fault, FromRow, NewTable, OldClock, OldTable, OldVersion, Query, SchemaVersion, StoredClock,
    Table, all, fits, index_text, number, sole, spid_bytes, version_params,
};
use sqlite::{Alter, Connection, Row, Rows};
use std::alloc::Global;
use windows::Windows;

fn make<S: Alter>(conn: &mut Connection<S>, table: NewTable) -> Result<(), Fault>
    ensures { MigratesInTransaction (IsBegun (schema_before table))
        (state S.Store conn.old)
        (state S.Store conn.new) (is_ok result) (IsMade table) }
{
    execute(conn, table.create_text(), &[])?;
    Ok(())
}

fn make_index<S: Alter>(conn: &mut Connection<S>) -> Result<(), Fault>
    ensures { MigratesInTransaction (IsBegun (schema_after NewTable.Clock))
        (state S.Store conn.old) (state S.Store conn.new) (is_ok result) IsIndexed }
{
    execute(conn, index_text(), &[])?;
    Ok(())
}

// Creates the tables of the sets of windows, of the versions that name their set, and of the clock.
fn make_set_tables<S: Alter>(conn: &mut Connection<S>) -> Result<(), Fault>
    ensures { MigratesInTransaction (IsBegun (schema_of SchemaVersion.Modify))
        (state S.Store conn.old)
        (state S.Store conn.new) (is_ok result) (AreTablesCreated SchemaVersion.Modify) }
{
    make(conn, NewTable::WindowSet)?;
    make(conn, NewTable::Version)?;
    make(conn, NewTable::Clock)?;
    make_index(conn)?;
    Ok(())
}

fn make_all_tables<S: Alter>(conn: &mut Connection<S>) -> Result<(), Fault>
    ensures { MigratesInTransaction (IsBegun (schema_of SchemaVersion.First))
        (state S.Store conn.old)
        (state S.Store conn.new) (is_ok result) (AreTablesCreated SchemaVersion.First) }
{
    make(conn, NewTable::NextRouting)?;
    make_set_tables(conn)?;
    Ok(())
}

// Creates the tables that an earlier schema lacks.
fn create_tables<S: Alter>(
    conn: &mut Connection<S>,
    schema_version: SchemaVersion,
) -> Result<(), Fault>
    ensures { MigratesInTransaction (IsBegun (schema_of schema_version))
        (state S.Store conn.old)
        (state S.Store conn.new) (is_ok result) (AreTablesCreated schema_version) }
{
    match schema_version {
        SchemaVersion::First => make_all_tables(conn),
        SchemaVersion::Modify => make_set_tables(conn),
    }
}

// Writes a version's row. The routing that the version sends stays in its own table.
fn put_bare<S: Alter>(conn: &mut Connection<S>, id: u64, row: &VersionRow) -> Result<(), Fault>
    ensures { WritesInTransaction (state S.Store conn.old)
        (state S.Store conn.new) (is_ok result) (IsBarePut id row.now) }
{
    if !fits(id, row) {
        return Err(Fault::Device);
    }
    let old = spid_bytes(row.version.old_provider.number);
    let new = spid_bytes(row.version.new_provider.number);
    let params = version_params(id, row, &old, &new);
    replace(conn, Table::Version, &[number(id)], &params)?;
    Ok(())
}

// Copies the version with this id from the table of earlier schemas.
fn put_old<S: Alter>(conn: &mut Connection<S>, id: u64) -> Result<(), Fault>
    ensures { WritesInTransaction (state S.Store conn.old)
        (state S.Store conn.new) (is_ok result) (IsOldPut id) }
{
    if id >= 9223372036854775808 {
        return Err(Fault::Device);
    }
    let rows = conn.query_all(Query::OldVersionNumbered.text(), &[number(id)])?;
    let Some(found) = sole::<OldVersion>(rows.as_slice())? else {
        return Err(Fault::Device);
    };
    put_bare(conn, id, &found.version.row)?;
    Ok(())
}

// Copies the versions with these ids, one at a time. Notes each with `watcher`.
fn put_each<S: Alter, N: OpeningWatcher>(
    conn: &mut Connection<S>,
    ids: &[u64],
    watcher: &mut N,
) -> Result<(), Fault>
    ensures { WritesInTransaction (state S.Store conn.old)
        (state S.Store conn.new) (is_ok result) (ArePutBut [] ids.now) }
{
    for id in ids {
        put_old(conn, *id)?;
        watcher.row();
    }
    Ok(())
}

// Writes the windows of the clock's row as set 1.
fn put_first_set<S: Alter>(conn: &mut Connection<S>, clock: Option<OldClock>) -> Result<(), Fault>
    ensures applies { AppliesInTransaction (state S.Store conn.old)
        (state S.Store conn.new) (is_ok result)
        (if_some (λ c. with_set (stored_clock c.minute.number c.next_id 1) (windows_of c.windows))
        clock) }
    ensures others { WritesInTransaction (state S.Store conn.old)
        (state S.Store conn.new) (is_ok result) IsSetPut }
{
    match clock {
        Some(clock) => put_set(
            conn,
            &StoredClock {
                minute: clock.minute,
                next_id: clock.next_id,
                present: 1,
            },
            &clock.windows,
        ),
        None => Ok(()),
    }
}

fn clear<S: Alter>(conn: &mut Connection<S>, table: OldTable) -> Result<(), Fault>
    ensures { WritesInTransaction (state S.Store conn.old)
        (state S.Store conn.new) (is_ok result) (IsCleared table) }
{
    execute(conn, table.clear_text(), &[])?;
    Ok(())
}

// Deletes the version with this id from the table of earlier schemas.
fn delete_old<S: Alter>(conn: &mut Connection<S>, id: u64) -> Result<(), Fault>
    ensures { WritesInTransaction (state S.Store conn.old)
        (state S.Store conn.new) (is_ok result) (IsOldDeleted id) }
{
    if id >= 9223372036854775808 {
        return Err(Fault::Device);
    }
    take(conn, Table::OldVersion, &[number(id)])
}

// Deletes the versions with these ids from the table of earlier schemas, one at a time. Notes each
// with `watcher`.
fn delete_each<S: Alter, N: OpeningWatcher>(
    conn: &mut Connection<S>,
    ids: &[u64],
    watcher: &mut N,
) -> Result<(), Fault>
    ensures { WritesInTransaction (state S.Store conn.old)
        (state S.Store conn.new) (is_ok result) AreOldRowsDeleted }
{
    for id in ids {
        delete_old(conn, *id)?;
        watcher.row();
    }
    Ok(())
}

// Empties the versions' table of earlier schemas; `ids` are its ids. Deletes each by its id first:
// one statement that deletes a million writes a log many times the size of the file.
fn clear_versions<S: Alter, N: OpeningWatcher>(
    conn: &mut Connection<S>,
    ids: &[u64],
    watcher: &mut N,
) -> Result<(), Fault>
    ensures { WritesInTransaction (state S.Store conn.old)
        (state S.Store conn.new) (is_ok result) (IsCleared OldTable.Version) }
{
    delete_each(conn, ids, watcher)?;
    clear(conn, OldTable::Version)?;
    Ok(())
}

// Copies the versions with these ids and the clock's row into the tables of the present schema, and
// empties the tables of the earlier one.
fn copy_rows<S: Alter, N: OpeningWatcher>(
    conn: &mut Connection<S>,
    ids: &[u64],
    clock: Option<OldClock>,
    watcher: &mut N,
) -> Result<(), Fault>
    ensures { WritesInTransaction (state S.Store conn.old)
        (state S.Store conn.new) (is_ok result) (AreRowsCopied ids.now clock) }
{
    put_each(conn, ids, watcher)?;
    put_first_set(conn, clock)?;
    clear_versions(conn, ids, watcher)?;
    clear(conn, OldTable::Clock)?;
    Ok(())
}

fn migrate_tables<S: Alter, N: OpeningWatcher>(
    conn: &mut Connection<S>,
    schema_version: SchemaVersion,
    ids: &[u64],
    clock: Option<OldClock>,
    watcher: &mut N,
) -> Result<(), Fault>
    ensures { MigratesInTransaction (IsBegunAs schema_version) (state S.Store
        conn.old)
        (state S.Store conn.new) (is_ok result) (IsMigrated schema_version ids.now clock) }
{
    create_tables(conn, schema_version)?;
    copy_rows(conn, ids, clock, watcher)?;
    Ok(())
}

// Migrates in one transaction: creates the tables of the present schema, copies the versions with
// these ids and the clock's row, and empties the tables of the earlier schema.
fn move_rows<S: Alter, N: OpeningWatcher>(
    conn: &mut Connection<S>,
    schema_version: SchemaVersion,
    ids: &[u64],
    clock: Option<OldClock>,
    watcher: &mut N,
) -> Result<(), Fault>
    requires old { IsTrue (state S.Store conn.old).is_open
        → HasSchemaVersion schema_version (state S.Store conn.old) }
    requires idle { conn.old.in_transaction ≡ false }
    ensures moves { HasMigrated (AreTreesMigrated schema_version ids.now clock)
        (state S.Store conn.old) (state S.Store conn.new) (is_ok result) }
    ensures idle { IsTrue (state S.Store conn.new).is_open
        → (state S.Store conn.new).in_transaction ≡ false }
{
    transaction::begin(conn)?;
    if let Err(fault) = migrate_tables(conn, schema_version, ids, clock, watcher) {
        transaction::roll_back(conn);
        return Err(fault);
    }
    transaction::commit(conn)
}

// Returns the rows of a table in a file with this schema.
fn select_old<S: Alter>(
    conn: &mut Connection<S>,
    schema_version: SchemaVersion,
    table: Table,
) -> Result<Vec<Row>, Fault>
    requires has { IsTableOf table schema_version }
    requires old { IsTrue (state S.Store conn.old).is_open
        → HasSchemaVersion schema_version (state S.Store conn.old) }
    requires idle { conn.old.in_transaction ≡ false }
    ensures value { IsTrue (state S.Store conn.new).is_open
        → IfOk result (λ rows. IsAnswer (query_of (Query.All table))
        (overlay (state S.Store conn.old).now.trees []) [] rows.items) }
    ensures queried { HasQueried (state S.Store conn.old) (state S.Store conn.new) (is_ok result) }
    ensures idle { conn.new.in_transaction ≡ false }
{
    let rows = conn.query_all(Query::All(table).text(), &[])?;
    Ok(rows)
}

// Like `select_old`, and reads each row. A row that cannot be read is a fault of the device.
fn read_old<T: FromRow + Drop, S: Alter>(
    conn: &mut Connection<S>,
    schema_version: SchemaVersion,
    table: Table,
) -> Result<Vec<T>, Fault>
    requires has { IsTableOf table schema_version }
    requires old { IsTrue (state S.Store conn.old).is_open
        → HasSchemaVersion schema_version (state S.Store conn.old) }
    requires idle { conn.old.in_transaction ≡ false }
    ensures value { IsTrue (state S.Store conn.new).is_open
        → IfOk result (λ items. IsListAnswer (Query.All table) T.seen_in
        (state S.Store conn.old).now.trees [] (map T.seen items.items)) }
    ensures queried { HasQueried (state S.Store conn.old) (state S.Store conn.new) (is_ok result) }
    ensures idle { conn.new.in_transaction ≡ false }
{
    let rows = select_old(conn, schema_version, table)?;
    let items = all(*rows.allocator(), rows.as_slice())?;
    Ok(items)
}

// Reads each version, notes it with `watcher`, and returns their ids.
fn ids_among<S: Alter, N: OpeningWatcher>(
    alloc: Global,
    rows: &mut Rows<'_, S>,
    watcher: &mut N,
) -> Result<Vec<u64>, Fault>
    ensures same_reference { rows.new.conn.ghost_name ≡ rows.old.conn.ghost_name }
    ensures all { HasCleanDisk (state S.Store rows.new.conn.now) → IfOk result (λ ids.
        (sql : List ℕ) → IsPlain (understood (state S.Store rows.old.conn.now).now.schema sql)
        → HasGiven S.Store sql [] rows.old.conn.now []
        → HasReadAll old_version_in sql (state S.Store rows.old.conn.now)
        (state S.Store rows.new.conn.now) (AreIdsOf ids.items)) }
    ensures err { HasCleanDisk (state S.Store rows.new.conn.now) → OnErr result
        (IsOnlyRead S.Store rows.old.conn.now rows.new.conn.now
        ⊎ IsRolledBack (state S.Store rows.old.conn.now) (state S.Store rows.new.conn.now)) }
    ensures mode { rows.old.conn.now.in_transaction ≡ false
        → rows.new.conn.now.in_transaction ≡ false }
    ensures survives { Survives (state S.Store rows.old.conn.now)
        (state S.Store rows.new.conn.now) (λ _. ⊥) }
{
    let mut ids = Vec::new(alloc);
    'rows: for _ in 0..usize::MAX {
        let Some(row) = next_read::<OldVersion, S>(rows)? else {
            return Ok(ids);
        };
        ids.push(row.version.id)?;
        watcher.row();
    }
    Err(Fault::Device)
}

// Reads each version of a file with this schema, and returns their ids. Keeps no more than the ids
// in memory.
fn ids_of<S: Alter, N: OpeningWatcher>(
    alloc: Global,
    conn: &mut Connection<S>,
    schema_version: SchemaVersion,
    watcher: &mut N,
) -> Result<Vec<u64>, Fault>
    requires old { IsTrue (state S.Store conn.old).is_open
        → HasSchemaVersion schema_version (state S.Store conn.old) }
    requires idle { conn.old.in_transaction ≡ false }
    ensures value { IsTrue (state S.Store conn.new).is_open → IfOk result (λ ids.
        HasIds ids.items (state S.Store conn.old).now.trees) }
    ensures queried { HasQueried (state S.Store conn.old) (state S.Store conn.new) (is_ok result) }
    ensures idle { conn.new.in_transaction ≡ false }
{
    let mut rows = conn.query(Query::All(Table::OldVersion).text(), &[])?;
    ids_among(alloc, &mut rows, watcher)
}

// ---- the tables that are not migrated

// Reads a table that is not migrated.
fn see<T: FromRow + Drop, S: Alter, N: OpeningWatcher>(
    conn: &mut Connection<S>,
    schema_version: SchemaVersion,
    table: Table,
    watcher: &mut N,
) -> Result<(), Fault>
    requires has { IsTableOf table schema_version }
    requires old { IsTrue (state S.Store conn.old).is_open
        → HasSchemaVersion schema_version (state S.Store conn.old) }
    requires idle { conn.old.in_transaction ≡ false }
    ensures value { IsTrue (state S.Store conn.new).is_open
        → OnOk result (IsRead table T.seen_in (state S.Store conn.old).now.trees false) }
    ensures queried { HasQueried (state S.Store conn.old) (state S.Store conn.new) (is_ok result) }
    ensures idle { conn.new.in_transaction ≡ false }
{
    read_table::<T, S, N>(conn, table, watcher)?;
    Ok(())
}

// Reads carriers, routing numbers, codes and blocks.
#[tactic(auto, using(crate::proofs::MigrationLemmas::old_still))]
fn see_registry<S: Alter, N: OpeningWatcher>(
    conn: &mut Connection<S>,
    schema_version: SchemaVersion,
    watcher: &mut N,
) -> Result<(), Fault>
    requires old { IsTrue (state S.Store conn.old).is_open
        → HasSchemaVersion schema_version (state S.Store conn.old) }
    requires idle { conn.old.in_transaction ≡ false }
    ensures value { IsTrue (state S.Store conn.new).is_open
        → OnOk result (AreRegistryRead (state S.Store conn.old).now.trees) }
    ensures queried { HasQueried (state S.Store conn.old) (state S.Store conn.new) (is_ok result) }
    ensures idle { conn.new.in_transaction ≡ false }
{
    see::<Spid, S, N>(conn, schema_version, Table::Carrier, watcher)?;
    see::<(Lrn, Spid), S, N>(conn, schema_version, Table::Lrn, watcher)?;
    see::<(CodeId, Spid), S, N>(conn, schema_version, Table::Code, watcher)?;
    see::<(BlockId, BlockRow), S, N>(conn, schema_version, Table::Block, watcher)?;
    Ok(())
}

// Reads what is sent: the broadcasts, the pending downloads, and the routings that versions send,
// if the schema has a table of those.
#[tactic(auto, using(crate::proofs::MigrationLemmas::old_still))]
fn see_sent<S: Alter, N: OpeningWatcher>(
    conn: &mut Connection<S>,
    schema_version: SchemaVersion,
    watcher: &mut N,
) -> Result<(), Fault>
    requires old { IsTrue (state S.Store conn.old).is_open
        → HasSchemaVersion schema_version (state S.Store conn.old) }
    requires idle { conn.old.in_transaction ≡ false }
    ensures value { IsTrue (state S.Store conn.new).is_open
        → OnOk result (IsSentRead schema_version (state S.Store conn.old).now.trees) }
    ensures queried { HasQueried (state S.Store conn.old) (state S.Store conn.new) (is_ok result) }
    ensures idle { conn.new.in_transaction ≡ false }
{
    see::<(BroadcastKey, Broadcast), S, N>(conn, schema_version, Table::Broadcast, watcher)?;
    see::<(WaitKey, Subject), S, N>(conn, schema_version, Table::Wait, watcher)?;
    let SchemaVersion::Modify = schema_version else {
        return Ok(());
    };
    see::<(u64, Routing), S, N>(conn, SchemaVersion::Modify, Table::NextRouting, watcher)?;
    Ok(())
}

// Reads the tables that are not migrated. A row that cannot be read is a fault of the device.
#[tactic(auto, using(crate::proofs::MigrationLemmas::old_still))]
fn see_staying<S: Alter, N: OpeningWatcher>(
    conn: &mut Connection<S>,
    schema_version: SchemaVersion,
    watcher: &mut N,
) -> Result<(), Fault>
    requires old { IsTrue (state S.Store conn.old).is_open
        → HasSchemaVersion schema_version (state S.Store conn.old) }
    requires idle { conn.old.in_transaction ≡ false }
    ensures value { IsTrue (state S.Store conn.new).is_open
        → OnOk result (AreStayingRead schema_version (state S.Store conn.old).now.trees) }
    ensures queried { HasQueried (state S.Store conn.old) (state S.Store conn.new) (is_ok result) }
    ensures idle { conn.new.in_transaction ≡ false }
{
    see_registry(conn, schema_version, watcher)?;
    see_sent(conn, schema_version, watcher)?;
    Ok(())
}

// ---- the whole migration

// Returns whether these windows are the file's, if it has a clock.
fn has_windows<S: Alter>(
    conn: &mut Connection<S>,
    schema_version: SchemaVersion,
    windows: &Windows,
) -> Result<bool, Fault>
    requires old { IsTrue (state S.Store conn.old).is_open
        → HasSchemaVersion schema_version (state S.Store conn.old) }
    requires idle { conn.old.in_transaction ≡ false }
    ensures own { IsTrue (state S.Store conn.new).is_open → IfOk result (λ are_own. IsTrue are_own
        → HasTheseWindows (windows_of windows.now) (state S.Store conn.old).now.trees) }
    ensures others { IsTrue (state S.Store conn.new).is_open → IfOk result (λ are_own.
        are_own ≡ false
        → HasDifferentWindows (windows_of windows.now) (state S.Store conn.old).now.trees) }
    ensures queried { HasQueried (state S.Store conn.old) (state S.Store conn.new) (is_ok result) }
    ensures idle { conn.new.in_transaction ≡ false }
{
    let clocks: Vec<OldClock> = read_old(conn, schema_version, Table::OldClock)?;
    match clocks.as_slice() {
        [] => Ok(true),
        [clock] => Ok(clock.windows == *windows),
        _ => Err(Fault::Device),
    }
}

// Migrates the versions and the clock.
#[tactic(auto, using(crate::proofs::MigrationLemmas::old_still))]
fn carry_over<S: Alter, N: OpeningWatcher>(
    alloc: Global,
    conn: &mut Connection<S>,
    schema_version: SchemaVersion,
    watcher: &mut N,
) -> Result<(), Fault>
    requires old { IsTrue (state S.Store conn.old).is_open
        → HasSchemaVersion schema_version (state S.Store conn.old) }
    requires idle { conn.old.in_transaction ≡ false }
    ensures moves { HasMigrated (IsCarried schema_version) (state S.Store conn.old)
        (state S.Store conn.new) (is_ok result) }
    ensures idle { IsTrue (state S.Store conn.new).is_open
        → (state S.Store conn.new).in_transaction ≡ false }
{
    let ids = ids_of(alloc, conn, schema_version, watcher)?;
    let clocks: Vec<OldClock> = read_old(conn, schema_version, Table::OldClock)?;
    match clocks.as_slice() {
        [] => move_rows(conn, schema_version, ids.as_slice(), None, watcher),
        [clock] => move_rows(conn, schema_version, ids.as_slice(), Some(*clock), watcher),
        _ => Err(Fault::Device),
    }
}

/// Migrates a file with an earlier schema in one transaction: its windows become set 1, each
/// version names that set, and the tables of the earlier schema are emptied. Reads every row first.
/// A row that cannot be read is a fault of the device, and other windows than the file's are
/// refused; neither changes anything. Notes each row with `watcher` when it is read, and each
/// version again when it is copied and when it is deleted.
#[tactic(auto, using(crate::proofs::MigrationLemmas::old_still))]
pub(crate) fn migrate<S: Alter, N: OpeningWatcher>(
    alloc: Global,
    conn: &mut Connection<S>,
    schema_version: SchemaVersion,
    windows: &Windows,
    watcher: &mut N,
) -> Result<(), FileFault>
    requires old { IsTrue (state S.Store conn.old).is_open
        → HasSchemaVersion schema_version (state S.Store conn.old) }
    requires idle { conn.old.in_transaction ≡ false }
    ensures moves { HasMigrated (IsMovedFrom schema_version (windows_of windows.now))
        (state S.Store conn.old) (state S.Store conn.new) (is_ok result) }
    ensures differ { result ≡ Err FileFault.WindowsDiffer → IsTrue (state S.Store conn.new).is_open
        → HasDifferentWindows (windows_of windows.now) (state S.Store conn.old).now.trees }
    ensures idle { IsTrue (state S.Store conn.new).is_open
        → (state S.Store conn.new).in_transaction ≡ false }
{
    see_staying(conn, schema_version, watcher)?;
    if !has_windows(conn, schema_version, windows)? {
        return Err(FileFault::WindowsDiffer);
    }
    carry_over(alloc, conn, schema_version, watcher)?;
    Ok(())
}
