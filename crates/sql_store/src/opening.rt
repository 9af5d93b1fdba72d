//! Opens a store over a database.
ghost use Rattle.std.specs.Prelude.{◌≡◌, ◌⊎◌, ◌≤◌, true, false, IsTrue, IfOk, IfErr};
ghost use Rattle.sqlite.specs.Held.{IsNew, state};
ghost use Rattle.sqlite.specs.State.{HasCleanDisk};
ghost use Rattle.sqlite.specs.Steps.{over_memory};
ghost use Rattle.sqlite.specs.Tree.{Trees};
ghost use Rattle.sqlite_catalog.specs.Listing.{IsSound};
ghost use Rattle.sqlite_trees.specs.View.{IsClean, doubt};
ghost use Rattle.model.specs.Content.{empty_content};
ghost use Rattle.sql_rows.specs.Content.{content_in};
ghost use Rattle.sql_rows.specs.Faults.{fault_of, store_fault_of};
ghost use Rattle.sql_rows.specs.Tables.{no_schema, the_schema};
ghost use Rattle.sql_rows.specs.Migration.{schema_of};
ghost use Rattle.sql_store.specs.Fresh.{IsFresh};
ghost use Rattle.sql_store.specs.Store.{IsIdle};
ghost use Rattle.sql_store.specs.Migration.{IsMovedFrom, HasDifferentWindows};
ghost use Rattle.sql_store.specs.Opened.{HadOtherWindows, HasSameRows, IsRefusedAs, IsTakenAs, IsCrashStateOfOpen, WasOpened};
ghost use Rattle.sql_store.specs.Refusal.{IsLeftClean, IsLeftUsable, may_leave_of, trees_of};
ghost use Rattle.version.specs.Abstraction.{windows_of};
ghost use Rattle.sql_store.specs.Whole.{IsBegunOrEmpty, IsWhole, ReadsAll};

use crate::SqlStore;
use crate::database::Database;
use crate::file_fault::FileFault;
use crate::group::Group;
use crate::migration::migrate;
use crate::opening_watcher::{OpeningWatcher, Unwatched};
use crate::refused::Refused;
use crate::schema::{is_ours, schema_version_of};
use crate::whole::read_all;
use settle::StoreFault;
use sql_rows::{Fault, SchemaVersion};
use sqlite::{Alter, Connection, Error, MemStore};
use sqlite_schema::schema::Schema;
use std::alloc::Global;
use windows::Windows;

// The tables of the first schema and their indexes, then the tables added later, as a migration
// adds them. So each tree has the number that the schema gives it.
const TABLES: &str = "\
    BEGIN; \
    CREATE TABLE carrier (spid TEXT NOT NULL PRIMARY KEY) STRICT; \
    CREATE TABLE lrn (lrn INTEGER PRIMARY KEY, spid TEXT NOT NULL) STRICT; \
    CREATE TABLE code (code INTEGER PRIMARY KEY, spid TEXT NOT NULL) STRICT; \
    CREATE TABLE block (block INTEGER PRIMARY KEY, donor TEXT NOT NULL, last INTEGER) STRICT; \
    CREATE TABLE version (id INTEGER PRIMARY KEY, subject INTEGER NOT NULL, old TEXT NOT NULL, \
    new TEXT NOT NULL, due INTEGER NOT NULL, lrn INTEGER, cic INTEGER, old_at INTEGER, new_at \
    INTEGER, status TEXT NOT NULL, sends TEXT NOT NULL, since INTEGER NOT NULL, attempt INTEGER \
    NOT NULL, release INTEGER, spent INTEGER NOT NULL, protective INTEGER NOT NULL, \
    cancelled_by TEXT, deadline INTEGER, holds INTEGER NOT NULL UNIQUE, opens INTEGER NOT NULL \
    UNIQUE) STRICT; \
    CREATE TABLE broadcast (id INTEGER NOT NULL, attempt INTEGER NOT NULL, minute INTEGER NOT \
    NULL, subject INTEGER NOT NULL, action TEXT NOT NULL, lrn INTEGER, cic INTEGER, open \
    INTEGER NOT NULL, any INTEGER NOT NULL, PRIMARY KEY (id, attempt)) STRICT; \
    CREATE TABLE wait (spid TEXT NOT NULL, minute INTEGER NOT NULL, id INTEGER NOT NULL, \
    attempt INTEGER NOT NULL, subject INTEGER NOT NULL, PRIMARY KEY (spid, minute, id, \
    attempt)) STRICT; \
    CREATE TABLE clock (one INTEGER PRIMARY KEY, now INTEGER NOT NULL, next_id INTEGER NOT \
    NULL, initial_concurrence INTEGER NOT NULL, final_concurrence INTEGER NOT NULL, \
    conflict_restriction INTEGER NOT NULL, conflict_resolution INTEGER NOT NULL, \
    conflict_expiration INTEGER NOT NULL, cancellation_initial INTEGER NOT NULL, \
    cancellation_final INTEGER NOT NULL, pending_retention INTEGER NOT NULL, broadcast INTEGER \
    NOT NULL) STRICT; \
    CREATE INDEX version_deadline ON version (deadline); \
    CREATE INDEX wait_subject ON wait (subject, spid); \
    CREATE INDEX wait_broadcast ON wait (id, attempt); \
    CREATE TABLE next_routing (id INTEGER PRIMARY KEY, lrn INTEGER NOT NULL, cic INTEGER) \
    STRICT; \
    CREATE TABLE window_set (number INTEGER PRIMARY KEY, initial_concurrence INTEGER NOT NULL, \
    final_concurrence INTEGER NOT NULL, conflict_restriction INTEGER NOT NULL, \
    conflict_resolution INTEGER NOT NULL, conflict_expiration INTEGER NOT NULL, \
    cancellation_initial INTEGER NOT NULL, cancellation_final INTEGER NOT NULL, \
    pending_retention INTEGER NOT NULL, broadcast INTEGER NOT NULL) STRICT; \
    CREATE TABLE version2 (id INTEGER PRIMARY KEY, subject INTEGER NOT NULL, old TEXT NOT NULL, \
    new TEXT NOT NULL, due INTEGER NOT NULL, lrn INTEGER, cic INTEGER, old_at INTEGER, new_at \
    INTEGER, status TEXT NOT NULL, sends TEXT NOT NULL, since INTEGER NOT NULL, attempt INTEGER \
    NOT NULL, release INTEGER, spent INTEGER NOT NULL, protective INTEGER NOT NULL, \
    cancelled_by TEXT, deadline INTEGER, holds INTEGER NOT NULL UNIQUE, opens INTEGER NOT NULL \
    UNIQUE, held INTEGER NOT NULL) STRICT; \
    CREATE TABLE clock2 (one INTEGER PRIMARY KEY, now INTEGER NOT NULL, next_id INTEGER NOT \
    NULL, present INTEGER NOT NULL) STRICT; \
    CREATE INDEX version2_deadline ON version2 (deadline); \
    COMMIT";

// Returns whether a schema lists nothing.
fn is_blank(schema: &Schema) -> bool
    ensures yes { IsTrue result → schema.now ≡ no_schema }
    ensures no { result ≡ false → ¬ (schema.now ≡ no_schema) }
{
    schema.tables.is_empty() && schema.indexes.is_empty() && schema.views.is_empty()
}

// Returns the store's fault for an error of the database: `NoMemory` for a failed allocation,
// otherwise `Storage`.
pub(crate) fn fault_of(error: Error) -> StoreFault
    ensures { result ≡ store_fault_of (fault_of error) }
{
    StoreFault::from(Fault::from(error))
}

impl<S: Alter + Drop> SqlStore<S> {
    // Rolls back, and checks the database again as when files are opened: its schema, its rules and
    // the order of its rows.
    fn checked(alloc: Global, conn: Connection<S>) -> Result<Connection<S>, (StoreFault, S)>
        ensures opened { IfOk result (λ c. HasCleanDisk (state S.Store c)
            → WasOpened (state S.Store c)) }
        ensures fresh { IfOk result IsNew }
        ensures trees { IfOk result (λ c. HasCleanDisk (state S.Store c)
            → (state S.Store c).now.trees ≡ (state S.Store conn).committed.trees) }
        ensures honest { IfOk result (λ c. HasCleanDisk (state S.Store c)
            → HasCleanDisk (state S.Store conn)) }
        ensures err_honest { IfErr result (λ e. IsClean (S.Store.view e.1)
            → HasCleanDisk (state S.Store conn)) }
        ensures kept { IfErr result (λ e. IsClean (S.Store.view e.1) → IsTrue (S.Store.view
            e.1).is_open → (S.Store.view e.1).trees ≡ (state S.Store conn).committed.trees) }
        ensures crash { IfErr result (λ e. (db : Trees) → S.Store.recovers e.1 db
            → (state S.Store conn).may_leave db) }
    {
        let store = conn.into_store();
        if store.is_broken() {
            return Err((StoreFault::Storage, store));
        }
        match Connection::over(alloc, store) {
            Ok(conn) => Ok(conn),
            Err((error, store)) => Err((fault_of(error), store)),
        }
    }

    fn of(db: Database<S>) -> SqlStore<S>
        requires { IsTrue (state S.Store db.conn).is_open → IsIdle (state S.Store db.conn) }
        ensures db { result.db ≡ db }
        ensures none { IsFresh result }
    {
        SqlStore {
            db,
            failures: 0,
            group: Group::None,
        }
    }

    // Takes a newly opened connection, if its tables are the schema's.
    fn with_tables(conn: Connection<S>) -> Result<SqlStore<S>, Connection<S>>
        requires opened { HasCleanDisk (state S.Store conn) → WasOpened (state S.Store conn) }
        requires fresh { IsNew conn }
        ensures same { IfOk result (λ s. s.db.conn ≡ conn) }
        ensures ours { IfOk result (λ s. (state S.Store conn).now.schema ≡ the_schema) }
        ensures none { IfOk result (λ s. IsFresh s) }
        ensures err { IfErr result (λ e. e ≡ conn) }
    {
        if is_ours(conn.schema()) {
            let db = Database::of(conn);
            Ok(SqlStore::of(db))
        } else {
            Err(conn)
        }
    }

    // Reads every row once, and notes each with `watcher`. Returns whether the database has no row.
    // Refuses a row that cannot be read, and returns the database with that fault.
    fn read<N: OpeningWatcher>(
        mut self,
        watcher: &mut N,
    ) -> Result<(SqlStore<S>, bool), (StoreFault, S)>
        ensures open { IfOk result (λ e. HasCleanDisk (state S.Store e.0.db.conn) → IsTrue (state
            S.Store self.db.conn).is_open → IsTrue (state S.Store e.0.db.conn).is_open) }
        ensures now { IfOk result (λ e. IsTrue (state S.Store e.0.db.conn).is_open → (state S.Store
            e.0.db.conn).now.trees ≡ (state S.Store self.db.conn).now.trees) }
        ensures reads { IfOk result (λ e. IsTrue (state S.Store e.0.db.conn).is_open → ReadsAll (state
            S.Store e.0.db.conn).now.trees e.1) }
        ensures none { IfOk result (λ e. (e.0.failures ≡ self.failures) × (e.0.group ≡ self.group)) }
        ensures clean { IfOk result (λ e. doubt (state S.Store self.db.conn).is_clean ≤ doubt (state
            S.Store e.0.db.conn).is_clean) }
        ensures err_clean { IfErr result (λ e. doubt (state S.Store self.db.conn).is_clean ≤ doubt
            (S.Store.view e.1).is_clean) }
        ensures err { IfErr result (λ e. IsClean (S.Store.view e.1) → IsTrue (S.Store.view
            e.1).is_open → (S.Store.view e.1).trees ≡ (state S.Store self.db.conn).committed.trees) }
        ensures crash { IfErr result (λ e. IsClean (S.Store.view e.1) → (db : Trees)
            → S.Store.recovers e.1 db → (state S.Store self.db.conn).may_leave db) }
    {
        match read_all(&mut self.db, watcher) {
            Ok(blank) => Ok((self, blank)),
            Err(fault) => Err((StoreFault::from(fault), self.release().into_store())),
        }
    }

    // Creates the tables in one transaction, and takes the connection as an empty store.
    fn create<N: OpeningWatcher>(
        alloc: Global,
        mut conn: Connection<S>,
        watcher: &mut N,
    ) -> Result<SqlStore<S>, (StoreFault, S)>
        ensures open { IfOk result (λ s. HasCleanDisk (state S.Store s.db.conn) → IsTrue (state
            S.Store s.db.conn).is_open) }
        ensures content { IfOk result (λ s. HasCleanDisk (state S.Store s.db.conn) → content_in
            (state S.Store s.db.conn).now.trees ≡ empty_content) }
        ensures whole { IfOk result (λ s. HasCleanDisk (state S.Store s.db.conn)
            → IsWhole (state S.Store s.db.conn).now.trees) }
        ensures none { IfOk result (λ s. IsFresh s) }
        ensures honest { IfOk result (λ s. HasCleanDisk (state S.Store s.db.conn)
            → HasCleanDisk (state S.Store conn)) }
        ensures err_honest { IfErr result (λ e. IsClean (S.Store.view e.1)
            → HasCleanDisk (state S.Store conn)) }
    {
        if let Err(error) = conn.execute_batch(TABLES) {
            return Err((fault_of(error), conn.into_store()));
        }
        let made = SqlStore::checked(alloc, conn)?;
        match SqlStore::with_tables(made) {
            Ok(it) => match it.read(watcher) {
                Ok((it, true)) => Ok(it),
                Ok((it, false)) => Err((StoreFault::Storage, it.release().into_store())),
                Err(refused) => Err(refused),
            },
            Err(conn) => Err((StoreFault::Storage, conn.into_store())),
        }
    }

    // Migrates a database with an earlier schema, and takes it. Notes each row with `watcher`.
    fn moved<N: OpeningWatcher>(
        alloc: Global,
        mut conn: Connection<S>,
        schema_version: SchemaVersion,
        windows: &Windows,
        watcher: &mut N,
    ) -> Result<SqlStore<S>, (FileFault, S)>
        requires opened { HasCleanDisk (state S.Store conn) → WasOpened (state S.Store conn) }
        requires fresh { IsNew conn }
        requires form { (state S.Store conn).now.schema ≡ schema_of schema_version }
        ensures open { IfOk result (λ s. HasCleanDisk (state S.Store s.db.conn) → IsTrue (state
            S.Store s.db.conn).is_open) }
        ensures moved { IfOk result (λ s. IsTrue (state S.Store s.db.conn).is_open
            → IsMovedFrom schema_version (windows_of windows.now) (state S.Store conn).now.trees
            (state S.Store s.db.conn).now.trees) }
        ensures none { IfOk result (λ s. IsFresh s) }
        ensures honest { IfOk result (λ s. HasCleanDisk (state S.Store s.db.conn)
            → HasCleanDisk (state S.Store conn)) }
        ensures err_honest { IfErr result (λ e. IsClean (S.Store.view e.1)
            → HasCleanDisk (state S.Store conn)) }
        ensures err { IfErr result (λ e. IsClean (S.Store.view e.1) → IsTrue (S.Store.view
            e.1).is_open → (S.Store.view e.1).trees ≡ (state S.Store conn).now.trees) }
        ensures crash { IfErr result (λ e. IsClean (S.Store.view e.1) → (db : Trees)
            → S.Store.recovers e.1 db → (state S.Store conn).may_leave db
            ⊎ IsMovedFrom schema_version (windows_of windows.now) (state S.Store conn).now.trees db) }
        ensures differ { IfErr result (λ e. e.0 ≡ FileFault.WindowsDiffer
            → IsClean (S.Store.view e.1) → IsTrue (S.Store.view e.1).is_open
            → HasDifferentWindows (windows_of windows.now) (state S.Store conn).now.trees) }
    {
        match migrate(alloc, &mut conn, schema_version, windows, watcher) {
            Ok(()) => {
                let db = Database::of(conn);
                Ok(SqlStore::of(db))
            }
            Err(fault) => Err((fault, conn.into_store())),
        }
    }

    // Takes a connection to a database with the present schema. Notes each row with `watcher`.
    pub(crate) fn found<N: OpeningWatcher>(
        conn: Connection<S>,
        watcher: &mut N,
    ) -> Result<SqlStore<S>, (StoreFault, Refused<S>)>
        requires opened { HasCleanDisk (state S.Store conn) → WasOpened (state S.Store conn) }
        requires fresh { IsNew conn }
        ensures open { IfOk result (λ s. HasCleanDisk (state S.Store s.db.conn) → IsTrue (state
            S.Store s.db.conn).is_open) }
        ensures ours { IfOk result (λ s. (state S.Store conn).now.schema ≡ the_schema) }
        ensures now { IfOk result (λ s. HasCleanDisk (state S.Store s.db.conn)
            → (state S.Store s.db.conn).now.trees ≡ (state S.Store conn).now.trees) }
        ensures whole { IfOk result (λ s. HasCleanDisk (state S.Store s.db.conn)
            → IsWhole (state S.Store s.db.conn).now.trees) }
        ensures begun { IfOk result (λ s. HasCleanDisk (state S.Store s.db.conn)
            → IsBegunOrEmpty (state S.Store s.db.conn).now.trees) }
        ensures none { IfOk result (λ s. IsFresh s) }
        ensures honest { IfOk result (λ s. HasCleanDisk (state S.Store s.db.conn)
            → HasCleanDisk (state S.Store conn)) }
        ensures err_honest { IfErr result (λ e. IsLeftClean S.Store e.1
            → HasCleanDisk (state S.Store conn)) }
        ensures err { IfErr result (λ e. IsLeftUsable S.Store e.1
            → trees_of S.Store e.1 ≡ (state S.Store conn).now.trees) }
        ensures crash { IfErr result (λ e. IsLeftClean S.Store e.1 → (db : Trees)
            → may_leave_of S.Store e.1 db → (state S.Store conn).may_leave db) }
    {
        match SqlStore::with_tables(conn) {
            Ok(it) => match it.read(watcher) {
                Ok((it, _blank)) => Ok(it),
                Err((fault, store)) => Err((fault, Refused::Store(store))),
            },
            Err(conn) => Err((StoreFault::Storage, Refused::Connection(conn))),
        }
    }

    // Takes a newly opened connection, by the tables that it lists. Notes each row with `watcher`.
    pub(crate) fn opened<N: OpeningWatcher>(
        alloc: Global,
        conn: Connection<S>,
        windows: &Windows,
        watcher: &mut N,
    ) -> Result<SqlStore<S>, (FileFault, Refused<S>)>
        requires opened { HasCleanDisk (state S.Store conn) → WasOpened (state S.Store conn) }
        requires fresh { IsNew conn }
        ensures open { IfOk result (λ s. HasCleanDisk (state S.Store s.db.conn) → IsTrue (state
            S.Store s.db.conn).is_open) }
        ensures taken { IfOk result (λ s. HasCleanDisk (state S.Store s.db.conn)
            → IsTakenAs (windows_of windows.now) (state S.Store conn).now.trees
            (state S.Store s.db.conn).now.trees) }
        ensures none { IfOk result (λ s. IsFresh s) }
        ensures honest { IfOk result (λ s. HasCleanDisk (state S.Store s.db.conn)
            → HasCleanDisk (state S.Store conn)) }
        ensures err_honest { IfErr result (λ e. IsLeftClean S.Store e.1
            → HasCleanDisk (state S.Store conn)) }
        ensures refused { IfErr result (λ e. IsLeftClean S.Store e.1
            → IsRefusedAs S.Store (windows_of windows.now) (state S.Store conn).now.trees
            e.0 e.1) }
    {
        if let Some(schema_version) = schema_version_of(conn.schema()) {
            return match SqlStore::moved(alloc, conn, schema_version, windows, watcher) {
                Ok(it) => Ok(it),
                Err((fault, store)) => Err((fault, Refused::Store(store))),
            };
        }
        if is_blank(conn.schema()) {
            return match SqlStore::create(alloc, conn, watcher) {
                Ok(it) => Ok(it),
                Err((fault, store)) => Err((FileFault::from(fault), Refused::Store(store))),
            };
        }
        match SqlStore::found(conn, watcher) {
            Ok(it) => Ok(it),
            Err((fault, refused)) => Err((FileFault::from(fault), refused)),
        }
    }

    /// Takes a connection as a store, after rolling back what is not committed and checking the
    /// database again. A database without tables becomes an empty store. One with the present
    /// schema keeps every row, after each has been read. One with an earlier schema that was created
    /// with these windows is migrated in one transaction. Notes each row with `watcher` when it is
    /// read, copied or deleted.
    ///
    /// # Errors
    ///
    /// - `WindowsDiffer` if the database has an earlier schema and was created with other windows.
    /// - `Storage` if it has other tables, a row that cannot be read, or no present set of windows,
    ///   or the device failed.
    /// - `NoMemory` if an allocation fails.
    ///
    /// What is returned with the fault is as the last commit left it.
    pub fn adopt<N: OpeningWatcher>(
        alloc: Global,
        conn: Connection<S>,
        windows: &Windows,
        watcher: &mut N,
    ) -> Result<SqlStore<S>, (FileFault, Refused<S>)>
        ensures open { IfOk result (λ s. HasCleanDisk (state S.Store s.db.conn) → IsTrue (state
            S.Store s.db.conn).is_open) }
        // This holds by the tables of the last commit, because what is not committed is rolled
        // back.
        ensures taken { IfOk result (λ s. HasCleanDisk (state S.Store s.db.conn)
            → IsTakenAs (windows_of windows.now) (state S.Store conn).committed.trees
            (state S.Store s.db.conn).now.trees) }
        ensures none { IfOk result (λ s. IsFresh s) }
        ensures honest { IfOk result (λ s. HasCleanDisk (state S.Store s.db.conn)
            → HasCleanDisk (state S.Store conn)) }
        ensures err_honest { IfErr result (λ e. IsLeftClean S.Store e.1
            → HasCleanDisk (state S.Store conn)) }
        // This holds if the database lists tables; those of an empty database may have been
        // created.
        ensures kept { IfErr result (λ e. ¬ IsSound no_schema (state S.Store conn).committed.trees
            → IsLeftUsable S.Store e.1
            → HasSameRows (state S.Store conn).committed.trees (trees_of S.Store e.1)) }
        // A crash leaves what it might leave before, or the whole migrated database.
        ensures crash { IfErr result (λ e. ¬ IsSound no_schema (state S.Store conn).committed.trees
            → IsLeftClean S.Store e.1 → (db : Trees) → may_leave_of S.Store e.1 db
            → (state S.Store conn).may_leave db
            ⊎ IsCrashStateOfOpen (windows_of windows.now) (state S.Store conn).committed.trees db) }
        ensures differ { IfErr result (λ e. e.0 ≡ FileFault.WindowsDiffer
            → IsLeftUsable S.Store e.1 → HadOtherWindows (windows_of windows.now)
            (state S.Store conn).committed.trees) }
    {
        match SqlStore::checked(alloc, conn) {
            Ok(conn) => match SqlStore::opened(alloc, conn, windows, watcher) {
                Ok(it) => Ok(it),
                Err(refused) => Err(refused),
            },
            Err((fault, store)) => Err((FileFault::from(fault), Refused::Store(store))),
        }
    }

    /// Returns the connection, for other uses of the database.
    pub fn release(self) -> Connection<S>
        ensures { result ≡ self.db.conn }
    {
        let SqlStore {
            db: Database { conn, kept: _ },
            failures: _,
            group: _,
        } = self;
        conn
    }
}

impl SqlStore<MemStore> {
    /// Creates an empty store in memory.
    ///
    /// # Errors
    ///
    /// `NoMemory` if an allocation fails.
    pub fn in_memory(alloc: Global) -> Result<SqlStore<MemStore>, StoreFault>
        ensures open { IfOk result (λ s. IsTrue (state over_memory s.db.conn).is_open) }
        ensures content { IfOk result (λ s. content_in (state over_memory s.db.conn).now.trees
            ≡ empty_content) }
        ensures none { IfOk result (λ s. IsFresh s) }
    {
        match Connection::open_in_memory(alloc) {
            Ok(conn) => match SqlStore::create(alloc, conn, &mut Unwatched) {
                Ok(it) => Ok(it),
                Err((fault, _store)) => Err(fault),
            },
            Err(_refused) => Err(StoreFault::NoMemory),
        }
    }
}
