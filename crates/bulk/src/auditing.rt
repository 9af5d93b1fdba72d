//! Audits: compares a carrier's copy with the register.
ghost use Rattle.std.specs.Prelude.{◌≡◌, ◌≢◌, ◌⊎◌, Err, IfErr, IfOk, IfSome, false, map, true};
ghost use Rattle.numbers.specs.Abstraction.{subject_of};
ghost use Rattle.delivery.specs.Mirrors.{in_force_of};
ghost use Rattle.model.specs.State.{State, all_in_force, is_carrier};
ghost use Rattle.register.specs.Refinement.{Refines};
ghost use Rattle.settle.specs.StoreContract.{PreservesStore, ReportsStorage};
ghost use Rattle.bulk.specs.Audits.{Audits, AreDistinct, subjects_in};
ghost use Rattle.bulk.specs.Comparing.{AreCompared, ComparesFile, IsNotCompared};
ghost use Rattle.bulk.specs.Faults.{FailsWith, IsAvailable, IsAvailableKind, IsUnavailableKind, IsUnwritten};
ghost use Rattle.bulk.specs.Findings.{awaited};

use crate::asking::{rows_in_force, subjects_waiting};
use crate::copy::read_copy;
use crate::fault::{BulkFault, FaultKind};
use crate::finding::SubjectFinding;
use crate::line::LineBuffer;
use crate::rows::open;
use crate::sides::{add_in_force, add_waiting, copy_sides, findings_in};
use crate::watching::{RowWatcher, Unwatched};
use crate::writing::send_file;
use delivery::RoutedRow;
use numbers::{Spid, Subject};
use register::Register;
use settle::Store;
use std::alloc::Global;
use std::io::{Read, Write};

/// The first line of an audit.
const HEADER: &str = "subject,finding";

/// The register's side of an audit.
#[derive(Drop)]
struct RegisterSide {
    in_force: Vec<RoutedRow>,
    waiting: Vec<Subject>,
}

// Reads the register's side of an audit for a carrier.
fn side_for<S: Store>(register: &mut Register<S>, carrier: Spid) -> Result<RegisterSide, FaultKind>
    ensures side { IfOk result (λ side. S.IsUsable register.new.store → (st : State)
        → Refines (S.content register.old.store) st
        → (map in_force_of side.in_force.items ≡ all_in_force st)
        × (map subject_of side.waiting.items ≡ awaited st carrier.number)
        × (is_carrier st carrier.number ≡ true)) }
    ensures unknown { result ≡ Err FaultKind.UnknownCarrier → S.IsUsable register.new.store
        → (st : State) → Refines (S.content register.old.store) st
        → is_carrier st carrier.number ≡ false }
    ensures kept { S.IsUsable register.new.store → (st : State)
        → Refines (S.content register.old.store) st → Refines (S.content register.new.store) st }
    ensures kinds { IfErr result (λ kind. IsUnavailableKind kind ⊎ (kind
        ≡ FaultKind.UnknownCarrier)) }
    ensures preserves { PreservesStore S.StoreModel register.old.store register.new.store
        (IfErr result IsAvailableKind) (ReportsStorage (S.IsUsable register.new.store) (S.content register.old.store)
        (result ≡ Err FaultKind.Storage)) }
{
    let waiting = match subjects_waiting(register, carrier) {
        Ok(waiting) => waiting,
        Err(kind) => return Err(kind),
    };
    match rows_in_force(register) {
        Ok(in_force) => Ok(RegisterSide { in_force, waiting }),
        Err(kind) => Err(kind),
    }
}

// Returns the findings on a copy with these entries, ordered by subject.
fn compare<N: RowWatcher>(
    alloc: Global,
    side: &RegisterSide,
    entries: &[RoutedRow],
    watcher: &mut N,
) -> Result<Vec<SubjectFinding>, FaultKind>
    ensures compared { IfOk result (λ findings. AreDistinct (subjects_in entries.now)
        × AreCompared side.now.in_force.items side.now.waiting.items entries.now
        findings.items) }
    ensures duplicate { result ≡ Err FaultKind.BadFile → ¬ (AreDistinct (subjects_in entries.now)) }
    ensures kinds { IfErr result
        (λ kind. (kind ≡ FaultKind.BadFile) ⊎ (kind ≡ FaultKind.NoMemory)) }
{
    let mut all = copy_sides(alloc, entries, watcher)?;
    add_in_force(&mut all, &side.in_force)?;
    add_waiting(&mut all, &side.waiting)?;
    let findings = findings_in(alloc, &all)?;
    Ok(findings)
}

// Returns the findings on the copy that `reader` supplies.
fn compare_file<R: Read + Drop, N: RowWatcher>(
    alloc: Global,
    side: &RegisterSide,
    reader: R,
    watcher: &mut N,
) -> Result<Vec<SubjectFinding>, FaultKind>
    ensures compared { IfOk result (λ findings. IfSome (R.remaining reader) (λ bytes. ComparesFile
        side.now.in_force.items side.now.waiting.items bytes findings.items)) }
    ensures other { IfErr result (λ kind. IfSome (R.remaining reader) (IsNotCompared kind)) }
    ensures kinds { IfErr result (λ kind. kind ≢ FaultKind.Storage) }
{
    let mut reader = open(alloc, reader);
    let entries = read_copy(alloc, &mut reader, watcher)?;
    compare(alloc, side, &entries, watcher)
}

/// Like `audit`. Notes each row that is read or written with the watcher, and again if it is bad.
pub fn audit_watched<S: Store, R: Read + Drop, W: Write, N: RowWatcher>(
    alloc: Global,
    register: &mut Register<S>,
    carrier: Spid,
    reader: R,
    writer: &mut W,
    watcher: &mut N,
) -> Result<u64, BulkFault>
    ensures audits { S.IsUsable register.new.store → (st : State)
        → Refines (S.content register.old.store) st
        → IfSome (R.remaining reader) (λ bytes. Audits st carrier.number bytes
        (W.contents writer.old) (W.contents writer.new) result) }
    ensures kept { S.IsUsable register.new.store → (st : State)
        → Refines (S.content register.old.store) st → Refines (S.content register.new.store) st }
    // Whether or not the store is usable, before or afterwards.
    ensures unwritten { IsUnwritten result (W.contents writer.old) (W.contents writer.new) }
    ensures preserves { PreservesStore S.StoreModel register.old.store register.new.store
        (IsAvailable result) (ReportsStorage (S.IsUsable register.new.store)
        (S.content register.old.store) (FailsWith FaultKind.Storage result)) }
{
    let (mut line, side) = match (LineBuffer::new(alloc), side_for(register, carrier)) {
        (Ok(line), Ok(side)) => (line, side),
        (Err(_), _) => return Err(BulkFault::at_start(FaultKind::NoMemory)),
        (_, Err(kind)) => return Err(BulkFault::at_start(kind)),
    };
    let findings = match compare_file(alloc, &side, reader, watcher) {
        Ok(findings) => findings,
        Err(kind) => return Err(BulkFault::at_start(kind)),
    };
    match send_file(&mut line, HEADER, &findings, writer, watcher) {
        Ok(rows) => Ok(rows),
        Err(rows) => Err(BulkFault {
            kind: FaultKind::Write,
            rows,
        }),
    }
}

/// Compares a carrier's copy, a file in the format of an export, with the register. Writes the
/// header `subject,finding`, then a row for each finding, ordered by subject, and returns the
/// number of rows. Flushes each row before the next. Settles every subject first, and keeps the
/// copy and the register's side in memory.
///
/// # Errors
///
/// Each has the number of rows flushed in full; only `Write` has written anything.
/// - `UnknownCarrier` if the carrier is not registered, judged before the file is read.
/// - `BadHeader` if the first row is not an export's header; `BadFile` if a row is not an export's,
///   or a subject occurs twice.
/// - `Read` or `Write` if the reader or the writer fails; `Storage`, `NoMemory`.
pub fn audit<S: Store, R: Read + Drop, W: Write>(
    alloc: Global,
    register: &mut Register<S>,
    carrier: Spid,
    reader: R,
    writer: &mut W,
) -> Result<u64, BulkFault>
    ensures audits { S.IsUsable register.new.store → (st : State)
        → Refines (S.content register.old.store) st
        → IfSome (R.remaining reader) (λ bytes. Audits st carrier.number bytes
        (W.contents writer.old) (W.contents writer.new) result) }
    ensures kept { S.IsUsable register.new.store → (st : State)
        → Refines (S.content register.old.store) st → Refines (S.content register.new.store) st }
    // Whether or not the store is usable, before or afterwards.
    ensures unwritten { IsUnwritten result (W.contents writer.old) (W.contents writer.new) }
    ensures preserves { PreservesStore S.StoreModel register.old.store register.new.store
        (IsAvailable result) (ReportsStorage (S.IsUsable register.new.store)
        (S.content register.old.store) (FailsWith FaultKind.Storage result)) }
{
    audit_watched(alloc, register, carrier, reader, writer, &mut Unwatched)
}
