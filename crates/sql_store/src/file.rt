//! Opens and closes a store over the file at a path.
ghost use Rattle.std.specs.Prelude.{◌≡◌, ◌≢◌, [], IsTrue, IfErr, IfOk};
ghost use Rattle.model.specs.Content.{empty_content};
ghost use Rattle.sql_rows.specs.Content.{content_in};
ghost use Rattle.sqlite.specs.Closing.{IsCopied};
ghost use Rattle.sqlite.specs.Files.{HoldsDatabase, IsClosed, file_state, over_files};
ghost use Rattle.sqlite.specs.State.{HasCleanDisk};
ghost use Rattle.sqlite.specs.Tree.{Trees};
ghost use Rattle.sqlite.specs.WalFiles.{image_at};
ghost use Rattle.sqlite.specs.WalReads.{AreClean};
ghost use Rattle.sql_store.specs.Fresh.{IsFresh};
ghost use Rattle.sql_store.specs.Files.{IsKeptAt, IsRefusedAt};
ghost use Rattle.sql_store.specs.Opened.{HasSameRows, IsTakenAs};
ghost use Rattle.sql_store.specs.Whole.{IsBegunOrEmpty};
ghost use Rattle.version.specs.Abstraction.{windows_of};

use crate::SqlStore;
use crate::file_fault::FileFault;
use crate::opening::fault_of;
use crate::opening_watcher::OpeningWatcher;
use crate::refused::Refused;
use settle::StoreFault;
use sqlite::{Alter, Connection, FileFrom, FileStore, Files, Leftover, Start};
use sqlite_disk::Disk;
use std::fs;
use std::io::ErrorKind;
use std::rt::Files as FileSystem;
use windows::Windows;

/// What is returned with the fault if a file could not be opened.
#[derive(Drop)]
pub enum Unopened<S: Alter, L> {
    /// The files, if they were opened and hold no database.
    Files(L),
    /// The database that the files hold.
    Database(Refused<S>),
}

/// The store over the file at a path.
pub type StoreAt<S> = SqlStore<FileStore<FileFrom<S>>>;

/// What `SqlStore::at` returns with the fault.
pub type UnopenedAt<S> = Unopened<FileStore<FileFrom<S>>, Option<Leftover<FileFrom<S>>>>;

impl<S: Start> SqlStore<FileStore<FileFrom<S>>> {
    /// Opens the file at `path` as a store, or creates it. A new file is an empty store. A file
    /// with the present schema keeps every row. A file with an earlier schema is migrated in one
    /// transaction if it was created with these windows. `start` says what is assumed of the file,
    /// and of a write that a crash interrupts, as in `sqlite`. Checks the database once, and reads
    /// each row once. Notes each row with `watcher` when it is read, copied or deleted.
    ///
    /// # Errors
    ///
    /// - `WindowsDiffer` if the file has an earlier schema and was created with other windows.
    /// - `Storage` if the file is no database, has other tables, a row that cannot be read, or no
    ///   present set of windows, or the device failed.
    /// - `NoMemory` if an allocation fails.
    ///
    /// A refused database with tables is returned unchanged.
    pub fn at<N: OpeningWatcher>(
        rt: &HostRuntime,
        path: &str,
        start: S,
        windows: &Windows,
        watcher: &mut N,
    ) -> Result<StoreAt<S>, (FileFault, UnopenedAt<S>)>
        ensures open { IfOk result (λ s. HasCleanDisk (file_state s.db.conn) → IsTrue (file_state
            s.db.conn).is_open) }
        // This holds of an empty file.
        ensures new { IfOk result (λ s. HasCleanDisk (file_state s.db.conn)
            → (image_at S.Start).db ≡ []
            → content_in (file_state s.db.conn).now.trees ≡ empty_content) }
        // This holds of a file with a database, by the tables that it lists.
        ensures taken { IfOk result (λ s. HasCleanDisk (file_state s.db.conn) → (db : Trees)
            → HoldsDatabase (image_at S.Start) db
            → IsTakenAs (windows_of windows.now) db (file_state s.db.conn).now.trees) }
        ensures none { IfOk result (λ s. IsFresh s) }
        // Nothing of the database is lost, and only a file with other windows is refused for them.
        ensures refused { IfErr result (λ e. (db : Trees) → HoldsDatabase (image_at S.Start) db
            → IsRefusedAt over_files (windows_of windows.now) db e.0 e.1) }
    {
        match Connection::open_from(rt, path, false, start) {
            Ok(conn) => match SqlStore::opened(rt.alloc(), conn, windows, watcher) {
                Ok(it) => Ok(it),
                Err((fault, refused)) => Err((fault, Unopened::Database(refused))),
            },
            Err((error, left)) => Err((FileFault::from(fault_of(error)), Unopened::Files(left))),
        }
    }

    /// Opens the file at `path` as a store if it has the present schema. Creates no file and no
    /// table, migrates nothing and keeps every row. `start` is as for `at`. Checks the database
    /// once, and reads each row once. Notes each row with `watcher`.
    ///
    /// # Errors
    ///
    /// - `Storage` if there is no file, or the file is empty, is no database, has other tables or an
    ///   earlier schema, a row that cannot be read, or no present set of windows, or the device
    ///   failed.
    /// - `NoMemory` if an allocation fails.
    ///
    /// A refused database is returned unchanged.
    pub fn existing_at<N: OpeningWatcher>(
        rt: &HostRuntime,
        path: &str,
        start: S,
        watcher: &mut N,
    ) -> Result<StoreAt<S>, (FileFault, UnopenedAt<S>)>
        ensures open { IfOk result (λ s. HasCleanDisk (file_state s.db.conn) → IsTrue (file_state
            s.db.conn).is_open) }
        ensures same { IfOk result (λ s. HasCleanDisk (file_state s.db.conn) → (db : Trees)
            → HoldsDatabase (image_at S.Start) db
            → HasSameRows db (file_state s.db.conn).now.trees) }
        ensures begun { IfOk result (λ s. HasCleanDisk (file_state s.db.conn)
            → IsBegunOrEmpty (file_state s.db.conn).now.trees) }
        ensures none { IfOk result (λ s. IsFresh s) }
        ensures refused { IfErr result (λ e. (db : Trees) → HoldsDatabase (image_at S.Start) db
            → IsKeptAt over_files db e.1) }
        ensures fault { IfErr result (λ e. e.0 ≢ FileFault.WindowsDiffer) }
    {
        if let Err(fault) = find_file(rt, path) {
            return Err((fault, Unopened::Files(None)));
        }
        match Connection::open_from(rt, path, false, start) {
            Ok(conn) => match SqlStore::found(conn, watcher) {
                Ok(it) => Ok(it),
                Err((fault, refused)) => Err((FileFault::from(fault), Unopened::Database(refused))),
            },
            Err((error, left)) => Err((FileFault::from(fault_of(error)), Unopened::Files(left))),
        }
    }
}

/// Returns whether there is a file at `path`, as success or a fault. Creates nothing.
///
/// Not proved: whether there is one.
///
/// # Errors
///
/// - `Storage` if there is no file, or its folder cannot be searched.
/// - `NoMemory` if an allocation fails.
pub fn find_file<T: FileSystem>(rt: &T, path: &str) -> Result<(), FileFault>
    ensures { IfErr result (λ fault. fault ≢ FileFault.WindowsDiffer) }
{
    match fs::exists(rt, path) {
        Ok(true) => Ok(()),
        Err(error) if error.kind() == ErrorKind::OutOfMemory => Err(FileFault::NoMemory),
        _ => Err(FileFault::Storage),
    }
}

impl<D: Disk + Drop> SqlStore<FileStore<D>> {
    /// Copies the log into the file, and returns both. The file by itself holds the last commit
    /// then.
    ///
    /// # Errors
    ///
    /// `Storage` if the device failed. The database is returned, and its file and log hold the last
    /// commit.
    pub fn close_files(self) -> Result<Files<D>, (StoreFault, FileStore<D>)>
        // The file by itself holds the last commit, now and after a crash.
        ensures copied { IfOk result (λ files. AreClean D.Disk files.log files.db
            → IsCopied self.db.conn files) }
        ensures usable { IfOk result (λ files. IsTrue (D.Disk.is_usable files.log)
            × IsTrue (D.Disk.is_usable files.db)) }
        ensures err { IfErr result (λ e. IsClosed self.db.conn e.1) }
    {
        match self.release().close_files() {
            Ok(files) => Ok(files),
            Err((error, store)) => Err((fault_of(error), store)),
        }
    }
}
