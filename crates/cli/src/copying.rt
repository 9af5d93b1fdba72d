//! Copies a register's file beside the program that has it open.
ghost use Rattle.std.specs.Prelude.{IfErr, IfOk};
ghost use Rattle.cli.specs.Copies.{ArePathsOf};
ghost use Rattle.cli.specs.Faults.{IsOfBackup, IsOfCopying};

use crate::checking::summarize;
use crate::fault::Fault;
use crate::running::fault_of_file;
use sql_store::find_file;
use std::alloc::{AllocError, Global};
use std::fs::File;
use std::io::{ErrorKind, Read, Write};
use std::{fs, io};

// How often a copy is begun before it fails.
const ROUNDS: usize = 100;

// How many bytes a log begins with that change whenever it begins anew.
const HEADER_SIZE: u64 = 32;

/// The paths of a database file and of its log.
#[derive(Drop)]
pub(crate) struct RegisterPaths {
    pub file: String,
    pub log: String,
}

impl RegisterPaths {
    /// Returns the paths for a file at `path`.
    ///
    /// # Errors
    ///
    /// `AllocError` if an allocation fails.
    pub fn new(alloc: Global, path: &str) -> Result<RegisterPaths, AllocError>
        ensures { IfOk result (ArePathsOf path.now) }
    {
        Ok(RegisterPaths {
            file: format!(in alloc; "{path}")?,
            log: format!(in alloc; "{path}-wal")?,
        })
    }
}

/// Returns the fault of a file that could not be read or written.
pub(crate) fn fault_of(error: io::Error, fault: Fault) -> Fault
    requires { IsOfCopying fault }
    ensures { IsOfCopying result }
{
    match error.kind() {
        ErrorKind::OutOfMemory => Fault::NoMemory,
        _ => fault,
    }
}

// Returns what the log at `path` begins with: its header, or less if there is no whole one.
fn header_of(rt: &HostRuntime, path: &str) -> Result<Vec<u8>, Fault>
    ensures { IfErr result IsOfCopying }
{
    let mut header = Vec::new(rt.alloc());
    let file = match File::open(rt, path) {
        Ok(file) => file,
        Err(error) if error.kind() == ErrorKind::NotFound => return Ok(header),
        Err(error) => return Err(fault_of(error, Fault::Read)),
    };
    match file.take(HEADER_SIZE).read_to_end(&mut header) {
        Ok(_) => Ok(header),
        Err(error) => Err(fault_of(error, Fault::Read)),
    }
}

// Copies a file.
fn copy_file(rt: &HostRuntime, from: &str, to: &str) -> Result<(), Fault>
    ensures { IfErr result IsOfCopying }
{
    match fs::copy(rt, from, to) {
        Ok(_) => Ok(()),
        Err(error) => Err(fault_of(error, Fault::Write)),
    }
}

/// Removes a file, if it is there.
pub(crate) fn remove_file(rt: &HostRuntime, path: &str) -> Result<(), Fault>
    ensures { IfErr result IsOfCopying }
{
    match fs::remove_file(rt, path) {
        Ok(()) => Ok(()),
        Err(error) if error.kind() == ErrorKind::NotFound => Ok(()),
        Err(error) => Err(fault_of(error, Fault::Write)),
    }
}

// Copies the file and then the log. Returns whether the log did not begin anew meanwhile: only then
// the copy of the log has all that was moved from it into the file.
fn copy_once(rt: &HostRuntime, from: &RegisterPaths, to: &RegisterPaths) -> Result<bool, Fault>
    ensures { IfErr result IsOfCopying }
{
    remove_file(rt, to.log.as_str())?;
    let before = header_of(rt, from.log.as_str())?;
    copy_file(rt, from.file.as_str(), to.file.as_str())?;
    if !before.is_empty() {
        copy_file(rt, from.log.as_str(), to.log.as_str())?;
    }
    let after = header_of(rt, from.log.as_str())?;
    Ok(before.as_slice() == after.as_slice())
}

/// Copies a database file and its log, also while a program writes to them. Begins again, up to 100
/// times, if the log was moved into the file meanwhile. The copy has every commit that had lasted
/// when copying began; each commit is there as a whole or not at all. An earlier copy is written
/// over.
///
/// Not proved: what the files hold. Of a copy that fails, a part may be left.
///
/// # Errors
///
/// - `Read` if a log cannot be read, or was moved into the file each time.
/// - `Write` if the file or the log cannot be copied.
/// - `NoMemory` if an allocation fails.
pub(crate) fn copy_register(
    rt: &HostRuntime,
    from: &RegisterPaths,
    to: &RegisterPaths,
) -> Result<(), Fault>
    ensures { IfErr result IsOfCopying }
{
    for _ in 0..ROUNDS {
        if copy_once(rt, from, to)? {
            return Ok(());
        }
    }
    Err(Fault::Read)
}

// Writes the file at `path` through to its disk.
fn sync_file(rt: &HostRuntime, path: &str) -> Result<(), Fault>
    ensures { IfErr result IsOfCopying }
{
    match File::open(rt, path) {
        Ok(file) => match file.sync_all() {
            Ok(()) => Ok(()),
            Err(error) => Err(fault_of(error, Fault::Write)),
        },
        Err(error) => Err(fault_of(error, Fault::Write)),
    }
}

/// Opens a new file, reads each of its rows, writes its summary as `check` does, and removes its log,
/// which has been moved into it.
///
/// # Errors
///
/// - `Open(Storage)` if the file is refused as by `SqlStore::existing_at`.
/// - `Write` if the summary cannot be written, or the log removed.
/// - `Open(NoMemory)` or `NoMemory` if an allocation fails.
pub(crate) fn finish<W: Write>(
    rt: &HostRuntime,
    new: &RegisterPaths,
    writer: &mut W,
) -> Result<(), Fault>
    ensures { IfErr result IsOfBackup }
{
    summarize(rt, new.file.as_str(), writer)?;
    remove_file(rt, new.log.as_str())?;
    sync_file(rt, new.file.as_str())
}

// Makes a copy that needs no log, and writes its summary.
fn make_copy<W: Write>(
    rt: &HostRuntime,
    from: &RegisterPaths,
    to: &RegisterPaths,
    writer: &mut W,
) -> Result<(), Fault>
    ensures { IfErr result IsOfBackup }
{
    copy_register(rt, from, to)?;
    finish(rt, to, writer)
}

/// Checks that nothing is at `path`. Something there is `Write`.
pub(crate) fn check_free(rt: &HostRuntime, path: &str) -> Result<(), Fault>
    ensures { IfErr result IsOfCopying }
{
    match fs::exists(rt, path) {
        Ok(false) => Ok(()),
        Ok(true) => Err(Fault::Write),
        Err(error) => Err(fault_of(error, Fault::Write)),
    }
}

/// Returns the paths of the file for `to` while it is made.
pub(crate) fn part_of(alloc: Global, to: &str) -> Result<RegisterPaths, AllocError> {
    let part = format!(in alloc; "{to}.part")?;
    RegisterPaths::new(alloc, part.as_str())
}

/// Removes a file that is being made, and its log, if they are there.
pub(crate) fn remove_part(rt: &HostRuntime, part: &RegisterPaths) -> Result<(), Fault>
    ensures { IfErr result IsOfCopying }
{
    let removed = remove_file(rt, part.file.as_str());
    remove_file(rt, part.log.as_str())?;
    removed
}

/// Gives a file that is whole its name.
pub(crate) fn rename_part(rt: &HostRuntime, part: &RegisterPaths, to: &str) -> Result<(), Fault>
    ensures { IfErr result IsOfCopying }
{
    match fs::rename(rt, part.file.as_str(), to) {
        Ok(()) => Ok(()),
        Err(error) => Err(fault_of(error, Fault::Write)),
    }
}

/// Copies the register in the file at `db` to a file at `to`, also while a program has it open.
/// Opens the copy, reads each of its rows, writes its summary as `check` does, and moves its log into
/// its file. `to` appears when the copy is whole: until then it is `to.part`, which is removed if
/// copying fails. It has every commit that had lasted when copying began.
///
/// Not proved: what the files hold.
///
/// # Errors
///
/// - `Open(Storage)` if there is no file at `db`, or the copy is refused as by
///   `SqlStore::existing_at`.
/// - `Read` if the log of `db` cannot be read, or was moved into its file each time of 100.
/// - `Write` if there is a file at `to`, or the copy or the summary cannot be written.
/// - `Open(NoMemory)` or `NoMemory` if an allocation fails.
pub(crate) fn back_up<W: Write>(
    rt: &HostRuntime,
    db: &str,
    to: &str,
    writer: &mut W,
) -> Result<(), Fault>
    ensures { IfErr result IsOfBackup }
{
    let alloc = rt.alloc();
    find_file(rt, db).map_err(fault_of_file)?;
    check_free(rt, to)?;
    let (Ok(from), Ok(part)) = (RegisterPaths::new(alloc, db), part_of(alloc, to)) else {
        return Err(Fault::NoMemory);
    };
    if let Err(fault) = make_copy(rt, &from, &part, writer) {
        let _ = remove_part(rt, &part);
        return Err(fault);
    }
    rename_part(rt, &part, to)
}
