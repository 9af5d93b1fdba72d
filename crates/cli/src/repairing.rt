//! Writes the rows of a register's file whose tables have moved into a new file.
ghost use Rattle.std.specs.Prelude.{IfErr};
ghost use Rattle.cli.specs.Faults.{IsOfBackup};

use crate::copying::{RegisterPaths, check_free, finish, part_of, remove_part, rename_part};
use crate::fault::Fault;
use crate::over_file::{StoreTask, over_open};
use crate::running::{fault_of_file, open_fault};
use register::OpenFault;
use repair::{RegisterRows, read_file, write_rows};
use settle::{Store, StoreFault};
use sql_store::{SqlStore, Unwatched, find_file};
use sqlite::Unknown;
use std::io::Write;

// Returns the fault of a file that could not be read, or of a new one that could not be written.
fn fault_of(fault: StoreFault) -> Fault
    ensures { IsOfBackup result }
{
    Fault::Open(OpenFault::from(fault))
}

// Writes all rows into an empty store.
#[derive(Drop)]
struct RowsTask<'a> {
    rows: &'a RegisterRows,
}

impl StoreTask for RowsTask<'_> {
    type Output = ();

    ghost may_end = { λ _. IsOfBackup };

    fn run<S: Store>(&mut self, rt: &HostRuntime, mut store: S) -> (S, Result<(), Fault>) {
        let written = write_rows(rt.alloc(), self.rows, &mut store);
        (store, written.map_err(fault_of))
    }
}

// Writes all rows into a new file, and moves its log into it.
fn write_new(rt: &HostRuntime, rows: &RegisterRows, path: &str) -> Result<(), Fault>
    ensures { IfErr result IsOfBackup }
{
    let Some(present) = rows.present_set() else {
        return Err(Fault::Open(OpenFault::Storage));
    };
    let opened = SqlStore::at(rt, path, Unknown, &present.windows, &mut Unwatched);
    let store = opened.map_err(open_fault)?;
    over_open(rt, store, &mut RowsTask { rows })
}

// Makes the new file, and writes its summary.
fn make_new<W: Write>(
    rt: &HostRuntime,
    rows: &RegisterRows,
    part: &RegisterPaths,
    writer: &mut W,
) -> Result<(), Fault>
    ensures { IfErr result IsOfBackup }
{
    remove_part(rt, part)?;
    write_new(rt, rows, part.file.as_str())?;
    finish(rt, part, writer)
}

/// Reads the rows of the register in the file at `db`, wherever its tables are, and writes them into a
/// new file at `to`. Then opens that, reads each of its rows, and writes its summary as `check` does.
/// `to` appears when the file is whole: until then it is `to.part`, which is removed if writing fails.
/// Creates no file but the log of `db`, and changes no row there. Keeps all rows in memory.
///
/// Not proved: what the files hold.
///
/// # Errors
///
/// - `Open(Storage)` if `db` is refused as by `read_file`, its rows as by `write_rows`, or the new
///   file as by `SqlStore::existing_at`.
/// - `Write` if there is a file at `to`, or the file or the summary cannot be written.
/// - `Open(NoMemory)` or `NoMemory` if an allocation fails.
pub(crate) fn repair_file<W: Write>(
    rt: &HostRuntime,
    db: &str,
    to: &str,
    writer: &mut W,
) -> Result<(), Fault>
    ensures { IfErr result IsOfBackup }
{
    find_file(rt, db).map_err(fault_of_file)?;
    check_free(rt, to)?;
    let Ok(part) = part_of(rt.alloc(), to) else {
        return Err(Fault::NoMemory);
    };
    let rows = read_file(rt, db).map_err(fault_of)?;
    if let Err(fault) = make_new(rt, &rows, &part, writer) {
        let _ = remove_part(rt, &part);
        return Err(fault);
    }
    rename_part(rt, &part, to)
}
