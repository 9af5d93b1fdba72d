//! Copies a register's file into a folder made for it.
ghost use Rattle.std.specs.Prelude.{◌≡◌, ℕ, IfErr, IfOk, string_bytes};
ghost use Rattle.cli.specs.Copies.{IsSnapshot};
ghost use Rattle.cli.specs.Faults.{IsOfBackup, IsOfCopying};

use crate::copying::{RegisterPaths, copy_register, fault_of, remove_file};
use crate::fault::Fault;
use crate::running::fault_of_file;
use sql_store::find_file;
use std::alloc::{AllocError, Global};
use std::fs;
use std::io::ErrorKind;

// How many names are tried for a folder.
const MOST_FOLDERS: usize = 1000;

/// A folder for a copy, and the paths of the copy.
#[derive(Drop)]
pub(crate) struct Snapshot {
    folder: String,
    copy: RegisterPaths,
}

impl Snapshot {
    // Returns the paths of the folder with this number, for a copy of the file at `db`.
    fn numbered(alloc: Global, db: &str, number: usize) -> Result<Snapshot, AllocError>
        ensures { IfOk result (IsSnapshot db.now number) }
    {
        let folder = format!(in alloc; "{db}.snapshot-{number}")?;
        let path = folder.as_str();
        let file = format!(in alloc; "{path}/register.db")?;
        let copy = RegisterPaths::new(alloc, file.as_str())?;
        Ok(Snapshot { folder, copy })
    }

    // Makes a folder beside the file at `db`, with a name that is free.
    fn new(rt: &HostRuntime, db: &str) -> Result<Snapshot, Fault>
        ensures beside { IfOk result (λ snapshot. (number : ℕ) × IsSnapshot db.now number snapshot) }
        ensures fault { IfErr result IsOfCopying }
    {
        for number in 1..MOST_FOLDERS {
            let Ok(snapshot) = Snapshot::numbered(rt.alloc(), db, number) else {
                return Err(Fault::NoMemory);
            };
            match fs::create_dir(rt, snapshot.folder.as_str()) {
                Ok(()) => return Ok(snapshot),
                Err(error) if error.kind() == ErrorKind::AlreadyExists => {}
                Err(error) => return Err(fault_of(error, Fault::Write)),
            }
        }
        Err(Fault::Write)
    }

    /// Copies the file at `db` and its log, also while a program writes to them, into a folder
    /// beside the file: that disk has room for such a file, and those who may read the file may read
    /// the folder. If copying fails, nothing is left.
    ///
    /// # Errors
    ///
    /// - `Open(Storage)` if there is no file at `db`.
    /// - `Read` if the log cannot be read, or was moved into the file each time of 100.
    /// - `Write` if the folder or the copy cannot be made.
    /// - `NoMemory` if an allocation fails.
    pub fn take(rt: &HostRuntime, db: &str) -> Result<Snapshot, Fault>
        ensures beside { IfOk result (λ snapshot. (number : ℕ) × IsSnapshot db.now number snapshot) }
        ensures fault { IfErr result IsOfBackup }
    {
        find_file(rt, db).map_err(fault_of_file)?;
        let Ok(from) = RegisterPaths::new(rt.alloc(), db) else {
            return Err(Fault::NoMemory);
        };
        let snapshot = Snapshot::new(rt, db)?;
        match copy_register(rt, &from, &snapshot.copy) {
            Ok(()) => Ok(snapshot),
            Err(fault) => {
                snapshot.remove(rt);
                Err(fault)
            }
        }
    }

    /// Returns the path of the copy.
    pub fn path(&self) -> &str
        ensures { result.now ≡ string_bytes self.now.copy.file }
    {
        self.copy.file.as_str()
    }

    /// Removes the copy and its folder. A failure is ignored.
    pub fn remove(&self, rt: &HostRuntime) {
        let _file = remove_file(rt, self.copy.file.as_str());
        let _log = remove_file(rt, self.copy.log.as_str());
        let _folder = fs::remove_dir(rt, self.folder.as_str());
    }
}
