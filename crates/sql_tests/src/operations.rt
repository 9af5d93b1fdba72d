//! Operations on a database, and the one function that runs them on a database in files.
//!
//! A call that needs files to hold a database, or a database to be a store, takes long to prove. So
//! only `with_database` makes such a call of the first kind, and only `run_over_store` of the second.
use crate::messages::{Messages, Output, send_messages};
use crate::rows::rows_of;
use crate::window_sets::is_set_committed;
use settle::Store;
use sql_store::{SqlStore, Unwatched};
use sqlite::{Alter, Connection, FileStore, Files, Options};
use sqlite_disk::Disk;
use std::alloc::Global;
use windows::Windows;

/// The windows of the tests, in minutes.
pub const WINDOWS: &str =
    "initial_concurrence = 60\nfinal_concurrence = 60\nconflict_restriction = 30\nconflict_resolution = 120\nconflict_expiration = 1000\ncancellation_initial = 60\ncancellation_final = 60\npending_retention = 500\nbroadcast = 15\n";

/// Options that keep the commits of a request from copying the log into the database file.
pub const WITHOUT_CHECKPOINTS: Options = Options {
    cache_pages: 100,
    spill_pages: 100,
    checkpoint_frames: 1000,
    seed: 7,
};

/// Options that make each commit write the log first, and then copy it into the database file.
pub const WITH_CHECKPOINTS: Options = Options {
    cache_pages: 2,
    spill_pages: 2,
    checkpoint_frames: 1,
    seed: 7,
};

/// Options of the same kind, with a cache that holds every page, so that a request makes few other
/// calls.
pub const LARGE_CACHE: Options = Options {
    cache_pages: 100,
    spill_pages: 100,
    checkpoint_frames: 1,
    seed: 7,
};

/// Options that make a group of a few messages write pages to the log before its end.
pub const SMALL_CACHE: Options = Options {
    cache_pages: 8,
    spill_pages: 8,
    checkpoint_frames: 1000,
    seed: 7,
};

/// An operation on a database.
#[derive(Clone, Copy)]
pub enum Operation<'a> {
    /// Reads the rows of these queries.
    Rows(&'a [&'a str]),
    /// Executes statements, as by hand.
    Statements(&'a str),
    /// Opens the database as a store, and sends messages to a register over it.
    Send(Messages<'a>),
    /// Opens the database as a store, and commits a set of windows to it.
    WindowSet,
}

// Sends messages to a register over a store, or commits a set of windows to it.
fn over_store<T: Store>(
    alloc: Global,
    mut store: T,
    windows: &Windows,
    messages: Option<Messages<'_>>,
) -> (Option<Output>, T) {
    match messages {
        Some(messages) => send_messages(alloc, store, windows, messages),
        None => {
            let is_accepted = is_set_committed(alloc, &mut store, windows) == Some(true);
            (Some(Output::of(Vec::new(alloc), is_accepted)), store)
        }
    }
}

// Opens a database as a store, and runs an operation over it. Returns the database afterwards.
fn run_over_store<S: Alter + Drop>(
    alloc: Global,
    conn: Connection<S>,
    windows: &Windows,
    messages: Option<Messages<'_>>,
) -> (Option<Output>, S) {
    match SqlStore::adopt(alloc, conn, windows, &mut Unwatched) {
        Ok(store) => {
            let (output, store) = over_store(alloc, store, windows, messages);
            (output, store.release().into_store())
        }
        Err((_fault, refused)) => (None, refused.into_store()),
    }
}

// Runs an operation. Returns the database without a further call of what it is stored in.
fn execute<S: Alter + Drop>(
    alloc: Global,
    mut conn: Connection<S>,
    operation: Operation<'_>,
) -> (Option<Output>, S) {
    let messages = match operation {
        Operation::Rows(queries) => {
            let rows = rows_of(alloc, &mut conn, queries);
            let output = rows.map(|rows| Output::of(rows, true));
            return (output, conn.into_store());
        }
        Operation::Statements(statements) => {
            let is_done = conn.execute_batch(statements).is_ok();
            let output = Output::of(Vec::new(alloc), is_done);
            return (Some(output), conn.into_store());
        }
        Operation::Send(messages) => Some(messages),
        Operation::WindowSet => None,
    };
    match Windows::from_toml(alloc, WINDOWS) {
        Ok(windows) => run_over_store(alloc, conn, &windows, messages),
        Err(_fault) => (None, conn.into_store()),
    }
}

// Opens a connection over files. Returns the files if they are refused or stop.
fn connect<F: Disk + Drop>(
    alloc: Global,
    files: Files<F>,
    options: Options,
) -> Result<Connection<FileStore<F>>, Files<F>> {
    if !files.log.may_be_used() || !files.db.may_be_used() {
        return Err(files);
    }
    match Connection::open_files(alloc, files, options) {
        Ok(conn) => Ok(conn),
        Err((_error, left)) => Err(left.into_files()),
    }
}

/// Runs an operation on a database in files. Returns its output, and the files afterwards.
///
/// The output is `None` if the files are refused or stop first.
pub fn with_database<F: Disk + Drop>(
    alloc: Global,
    files: Files<F>,
    options: Options,
    operation: Operation<'_>,
) -> (Option<Output>, Files<F>) {
    match connect(alloc, files, options) {
        Ok(conn) => {
            let (output, store) = execute(alloc, conn, operation);
            (output, store.close())
        }
        Err(files) => (None, files),
    }
}
