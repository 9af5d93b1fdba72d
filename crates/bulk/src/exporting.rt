//! Exports: writes everything in force.
ghost use Rattle.std.specs.Prelude.{◌≡◌};
ghost use Rattle.model.specs.State.{State};
ghost use Rattle.register.specs.Refinement.{Refines};
ghost use Rattle.settle.specs.StoreContract.{PreservesStore, ReportsStorage};
ghost use Rattle.bulk.specs.Exports.{Exports};
ghost use Rattle.bulk.specs.Faults.{FailsWith, IsAvailable, IsUnwritten};

use crate::asking::rows_in_force;
use crate::fault::{BulkFault, FaultKind};
use crate::line::LineBuffer;
use crate::watching::{RowWatcher, Unwatched};
use crate::writing::send_file;
use register::Register;
use settle::Store;
use std::alloc::Global;
use std::io::Write;

/// The first line of an export.
const HEADER: &str = "subject,lrn,cic";

/// Like `export`. Notes each row that is written with the watcher.
pub fn export_watched<S: Store, W: Write, N: RowWatcher>(
    alloc: Global,
    register: &mut Register<S>,
    writer: &mut W,
    watcher: &mut N,
) -> Result<u64, BulkFault>
    ensures exports { S.IsUsable register.new.store → (st : State)
        → Refines (S.content register.old.store) st
        → Exports result st (W.contents writer.old) (W.contents writer.new) }
    ensures kept { S.IsUsable register.new.store → (st : State)
        → Refines (S.content register.old.store) st → Refines (S.content register.new.store) st }
    // Whether or not the store is usable, before or afterwards.
    ensures unwritten { IsUnwritten result (W.contents writer.old) (W.contents writer.new) }
    ensures preserves { PreservesStore S.StoreModel register.old.store register.new.store
        (IsAvailable result) (ReportsStorage (S.IsUsable register.new.store)
        (S.content register.old.store) (FailsWith FaultKind.Storage result)) }
{
    let (mut line, rows) = match (LineBuffer::new(alloc), rows_in_force(register)) {
        (Ok(line), Ok(rows)) => (line, rows),
        (Err(_), _) => return Err(BulkFault::at_start(FaultKind::NoMemory)),
        (_, Err(kind)) => return Err(BulkFault::at_start(kind)),
    };
    match send_file(&mut line, HEADER, &rows, writer, watcher) {
        Ok(rows) => Ok(rows),
        Err(rows) => Err(BulkFault {
            kind: FaultKind::Write,
            rows,
        }),
    }
}

/// Writes everything in force: the header `subject,lrn,cic`, then a row for each subject, ordered
/// by subject. Returns the number of rows. Flushes each row before the next. Settles every subject
/// first.
///
/// # Errors
///
/// Each has the number of rows flushed in full.
/// - `Storage` or `NoMemory`, before anything is written.
/// - `Write` if the writer fails.
pub fn export<S: Store, W: Write>(
    alloc: Global,
    register: &mut Register<S>,
    writer: &mut W,
) -> Result<u64, BulkFault>
    ensures exports { S.IsUsable register.new.store → (st : State)
        → Refines (S.content register.old.store) st
        → Exports result st (W.contents writer.old) (W.contents writer.new) }
    ensures kept { S.IsUsable register.new.store → (st : State)
        → Refines (S.content register.old.store) st → Refines (S.content register.new.store) st }
    // Whether or not the store is usable, before or afterwards.
    ensures unwritten { IsUnwritten result (W.contents writer.old) (W.contents writer.new) }
    ensures preserves { PreservesStore S.StoreModel register.old.store register.new.store
        (IsAvailable result) (ReportsStorage (S.IsUsable register.new.store)
        (S.content register.old.store) (FailsWith FaultKind.Storage result)) }
{
    export_watched(alloc, register, writer, &mut Unwatched)
}
