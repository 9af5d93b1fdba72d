//! Examines a file that was refused.
use crate::cause::Cause;
use crate::reason::Reason;
use crate::rows::{reason_of_clock, unread_row};
use crate::schema::{have_moved, schema_cause};
use sql_store::SqlStore;
use sqlite::{Alter, Connection, Error, MemStore, Unknown};
use sqlite_schema::schema::Schema;
use std::alloc::{AllocError, Global};
use std::fs;
use std::fs::File;
use std::io::Read;
use std::os::unix::fs::MetadataExt;
use std::rt::Files;

// What an SQLite database begins with.
const MAGIC: &[u8; 16] = b"SQLite format 3\0";

// Returns why a file does not begin as a database does, if it does not.
fn reason_of_head<T: Files>(rt: &T, path: &str) -> Result<Option<Reason>, Reason> {
    let mut file = File::options().read(true).write(true).open(rt, path)?;
    let mut head = [0; 16];
    let found = match file.read(&mut head)? {
        0 => Some(Reason::Empty),
        _ if head == *MAGIC => None,
        _ => Some(Reason::NotADatabase),
    };
    Ok(found)
}

// Returns whether a journal with content lies beside a file.
fn has_journal(rt: &HostRuntime, path: &str) -> Result<bool, Reason> {
    let real = fs::canonicalize(rt, path)?;
    let real = real.as_str();
    let Ok(journal) = format!(in rt.alloc(); "{real}-journal") else {
        return Err(Reason::NoMemory);
    };
    match fs::symlink_metadata(rt, journal.as_str()) {
        Ok(found) => Ok(!found.is_file() || found.len() > 0),
        Err(_) => Ok(false),
    }
}

// Returns why a file is refused before it is read as a database, if it is.
fn reason_outside(rt: &HostRuntime, path: &str) -> Result<Option<Reason>, Reason> {
    let found = fs::metadata(rt, path)?;
    if !found.is_file() {
        return Ok(Some(Reason::NotAFile));
    }
    if found.nlink() != 1 {
        return Ok(Some(Reason::SecondName));
    }
    if has_journal(rt, path)? {
        return Ok(Some(Reason::Journal));
    }
    reason_of_head(rt, path)
}

// Returns the schema of a register's file, in an empty database in memory.
fn model(alloc: Global) -> Result<Connection<MemStore>, Reason> {
    match SqlStore::in_memory(alloc) {
        Ok(store) => Ok(store.release()),
        Err(_) => Err(Reason::NoMemory),
    }
}

// Returns why the schema of a database is refused, if it is. Tables in other places are refused
// unless they may have moved.
fn cause_of_schema(
    alloc: Global,
    schema: &Schema,
    may_have_moved: bool,
) -> Result<Option<Cause>, Error> {
    let model = match model(alloc) {
        Ok(model) => model,
        Err(reason) => return Ok(Some(Cause::Plain(reason))),
    };
    if let Some(cause) = schema_cause(alloc, schema, model.schema())? {
        return Ok(Some(cause));
    }
    if !may_have_moved && have_moved(schema, model.schema()) {
        return Ok(Some(Cause::Plain(Reason::Moved)));
    }
    Ok(None)
}

// Returns why an open database is refused.
fn cause_within<S: Alter>(
    alloc: Global,
    conn: &mut Connection<S>,
    may_have_moved: bool,
) -> Result<Cause, Error> {
    if let Some(cause) = cause_of_schema(alloc, conn.schema(), may_have_moved)? {
        return Ok(cause);
    }
    if let Some(cause) = unread_row(alloc, conn)? {
        return Ok(cause);
    }
    Ok(Cause::Plain(reason_of_clock(conn)?))
}

// Opens a database, and returns why it is refused.
fn cause_of_database(rt: &HostRuntime, path: &str, may_have_moved: bool) -> Result<Cause, Error> {
    match Connection::open_from(rt, path, false, Unknown) {
        Ok(mut conn) => cause_within(rt.alloc(), &mut conn, may_have_moved),
        Err((error, _left)) => Err(error),
    }
}

// Returns why the file at `path` is refused.
fn cause_of_file(rt: &HostRuntime, path: &str, may_have_moved: bool) -> Cause {
    match reason_outside(rt, path) {
        Ok(Some(reason)) | Err(reason) => Cause::Plain(reason),
        Ok(None) => match cause_of_database(rt, path, may_have_moved) {
            Ok(cause) => cause,
            Err(error) => Cause::Plain(Reason::from(error)),
        },
    }
}

/// Returns why the file at `path` is refused as a register's, by examining it after the refusal.
/// Creates no file but the log of an existing one, and changes no row.
pub fn cause_at(rt: &HostRuntime, path: &str) -> Cause {
    cause_of_file(rt, path, false)
}

/// Returns why the file at `path` is refused as a register's whose tables may have moved, as
/// `cause_at` does.
pub fn cause_of_moved(rt: &HostRuntime, path: &str) -> Cause {
    cause_of_file(rt, path, true)
}

/// Returns why the file at `path` cannot be read, if it cannot.
pub fn reason_of_plain_file<T: Files>(rt: &T, path: &str) -> Option<Reason> {
    match fs::metadata(rt, path) {
        Ok(found) if found.is_dir() => Some(Reason::NotAFile),
        Ok(_) => match File::open(rt, path) {
            Ok(_file) => None,
            Err(error) => Some(Reason::from(error)),
        },
        Err(error) => Some(Reason::from(error)),
    }
}
