//! A database file and its log in memory. Either can be made to stop, or to fail once.
use crate::flaky_file::FlakyFile;
use crate::messages::{Messages, Output, Requests};
use crate::operations::{Operation, WITHOUT_CHECKPOINTS, with_database};
use crate::rows::{FORMATS, QUERIES};
use sqlite::{Files, Options};
use sqlite_disk::{Disk, Fuse, Memory};
use std::alloc::Global;

/// A file in memory that passes on a number of calls, and fails each later one.
pub type Fused = Fuse<Memory>;

/// The bytes of a database file and of its log.
#[derive(Drop)]
pub struct FileBytes {
    pub log: Vec<u8>,
    pub db: Vec<u8>,
}

/// A number of calls of each file.
#[derive(Clone, Copy)]
pub struct Calls {
    pub log: u64,
    pub db: u64,
}

/// More calls than any file gets.
pub const UNLIMITED: Calls = Calls {
    log: u64::MAX,
    db: u64::MAX,
};

/// Copies bytes.
pub fn copy_bytes(alloc: Global, bytes: &[u8]) -> Option<Vec<u8>> {
    let mut copy = Vec::new(alloc);
    copy.extend_from_slice(bytes).ok()?;
    Some(copy)
}

/// Copies the bytes of a log and of a database file.
pub fn copy_files(alloc: Global, log: &[u8], db: &[u8]) -> Option<FileBytes> {
    Some(FileBytes {
        log: copy_bytes(alloc, log)?,
        db: copy_bytes(alloc, db)?,
    })
}

// Creates a file with these bytes, which survive a crash.
fn new_file(alloc: Global, bytes: &[u8]) -> Option<Memory> {
    let mut file = Memory::new(alloc);
    file.write_at(0, bytes).ok()?;
    file.sync().ok()?;
    Some(file)
}

/// Creates files with these bytes that pass on this many calls.
pub fn new_files(alloc: Global, file_bytes: &FileBytes, calls: Calls) -> Option<Files<Fused>> {
    Some(Files {
        log: Fuse::new(new_file(alloc, &file_bytes.log)?, calls.log),
        db: Fuse::new(new_file(alloc, &file_bytes.db)?, calls.db),
    })
}

/// A run of an operation on files that do not stop.
#[derive(Drop)]
pub struct Run {
    pub output: Output,
    /// The bytes afterwards.
    pub file_bytes: FileBytes,
    /// How many calls the files got.
    pub calls: Calls,
    /// Whether a call failed.
    pub has_failed: bool,
}

/// Runs an operation on a database in these bytes, whose files each fail the call after `calls`.
pub fn run_failing(
    alloc: Global,
    file_bytes: &FileBytes,
    options: Options,
    operation: Operation<'_>,
    calls: Calls,
) -> Option<Run> {
    let files = Files {
        log: FlakyFile::new(new_file(alloc, &file_bytes.log)?, calls.log),
        db: FlakyFile::new(new_file(alloc, &file_bytes.db)?, calls.db),
    };
    let (output, files) = with_database(alloc, files, options, operation);
    let (log, db) = (&files.log, &files.db);
    Some(Run {
        output: output?,
        file_bytes: copy_files(alloc, log.inner().bytes(), db.inner().bytes())?,
        calls: Calls {
            log: log.calls(),
            db: db.calls(),
        },
        has_failed: log.has_failed() || db.has_failed(),
    })
}

/// Runs an operation on a database in these bytes.
pub fn run_in(
    alloc: Global,
    file_bytes: &FileBytes,
    options: Options,
    operation: Operation<'_>,
) -> Option<Run> {
    run_failing(alloc, file_bytes, options, operation, UNLIMITED)
}

/// Sends requests to a register in these bytes, each with a commit of its own.
pub fn send_in(
    alloc: Global,
    file_bytes: &FileBytes,
    options: Options,
    batches: &[Requests<'_>],
) -> Option<Run> {
    let messages = Messages {
        batches,
        is_grouped: false,
    };
    run_in(alloc, file_bytes, options, Operation::Send(messages))
}

/// Returns the content of these bytes, in the present format or an older one: every row, and the
/// schema.
pub fn rows_in(alloc: Global, file_bytes: &FileBytes) -> Option<Vec<u8>> {
    for count in FORMATS {
        let operation = Operation::Rows(QUERIES.get(..count)?);
        if let Some(run) = run_in(alloc, file_bytes, WITHOUT_CHECKPOINTS, operation) {
            return Some(run.output.text);
        }
    }
    None
}

/// Returns the bytes of a new register that accepted these batches of requests.
pub fn files_after(alloc: Global, batches: &[Requests<'_>], options: Options) -> Option<FileBytes> {
    let run = send_in(alloc, &copy_files(alloc, &[], &[])?, options, batches)?;
    run.output.is_accepted.then_some(run.file_bytes)
}
