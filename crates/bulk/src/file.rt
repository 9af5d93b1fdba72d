//! Runs bulk files.
ghost use Rattle.std.specs.Prelude.{◌≡◌, ◌⊎◌, ◌∷◌, false, List, IfSome, IfErr, OnOk};
ghost use Rattle.model.specs.State.{State};
ghost use Rattle.register.specs.Refinement.{Refines};
ghost use Rattle.settle.specs.StoreContract.{PreservesStore, ReportsStorage};
ghost use Rattle.bulk.specs.Faults.{FailsWith, IsAvailable, IsUnread};
ghost use Rattle.bulk.specs.Noting.{ReportsNoting};
ghost use Rattle.bulk.specs.Requests.{header};
ghost use Rattle.bulk.specs.Rows.{Row, HasRows, IsPlain};
ghost use Rattle.bulk.specs.Running.{RefinesReachable, LacksHeader, Reports, ReportsUntil, RunsFile, RunsFileUntil};

use crate::fault::{BulkFault, FaultKind};
use crate::fields::is_header;
use crate::line::LineBuffer;
use crate::mistake::header_mistake_in;
use crate::rows::{first_row, open};
use crate::running::run_rows;
use crate::watching::{RowWatcher, Unwatched, note_mistake};
use csv::Reader;
use register::Register;
use settle::Store;
use std::alloc::Global;
use std::io::{Read, Write};

/// The first line of a report.
const HEADER: &str = "row,subject,result,id";

// Reads the header of a bulk file.
fn read_header<R: Read, N: RowWatcher>(
    alloc: Global,
    reader: &mut Reader<R>,
    watcher: &mut N,
) -> Result<(), FaultKind>
    requires { IsPlain reader.old }
    ensures plain { OnOk result (IsPlain reader.new) }
    ensures header { OnOk result ((rows : List Row) → HasRows R.remaining reader.old rows
        → (others : List Row) × (rows ≡ header ∷ others)
        × HasRows R.remaining reader.new others) }
    ensures other { IfErr result (λ kind. ((kind ≡ FaultKind.BadHeader)
        × ((rows : List Row) → HasRows R.remaining reader.old rows → LacksHeader rows))
        ⊎ IsUnread kind) }
{
    let row = first_row(alloc, reader)?;
    if is_header(&row) {
        Ok(())
    } else {
        note_mistake(watcher, 0, &row, header_mistake_in(&row));
        Err(FaultKind::BadHeader)
    }
}

// Runs the rows after the header, and writes the report.
fn report_rows<S: Store, R: Read, W: Write, N: RowWatcher>(
    alloc: Global,
    register: &mut Register<S>,
    line: &mut LineBuffer,
    reader: &mut Reader<R>,
    writer: &mut W,
    watcher: &mut N,
) -> Result<u64, BulkFault>
    requires { IsPlain reader.old }
    ensures reports { S.IsUsable register.new.store → (st : State)
        → Refines (S.content register.old.store) st → (rows : List Row)
        → HasRows R.remaining reader.old rows → Reports st rows (S.content register.new.store)
        (W.contents writer.old) (W.contents writer.new) result }
    ensures until { S.IsUsable register.old.store → S.HasHonestDevice register.new.store
        → S.IsUsable register.new.store
        ⊎ ((st : State) → Refines (S.content register.old.store) st
        → (rows : List Row) → HasRows R.remaining reader.old rows
        → ReportsUntil st rows (W.contents writer.old) (W.contents writer.new) result) }
    ensures state { S.IsUsable register.new.store → (st : State)
        → Refines (S.content register.old.store) st
        → RefinesReachable st (S.content register.new.store) }
    ensures noted { line.old.has_refusal ≡ false → OnOk result (ReportsNoting
        (W.contents writer.old) (W.contents writer.new) line.new.has_refusal) }
    ensures preserves { PreservesStore S.StoreModel register.old.store register.new.store
        (IsAvailable result) (ReportsStorage (S.IsUsable register.new.store)
        (S.content register.old.store) (FailsWith FaultKind.Storage result)) }
{
    line.set_first(HEADER);
    match line.send(writer) {
        Ok(()) => run_rows(alloc, register, line, reader, writer, watcher),
        Err(kind) => Err(BulkFault::at_start(kind)),
    }
}

/// Like `run_noting_refusals`. Notes each row with the watcher, and again if it is bad.
pub fn run_watched<S: Store, R: Read + Drop, W: Write, N: RowWatcher>(
    alloc: Global,
    register: &mut Register<S>,
    reader: R,
    writer: &mut W,
    watcher: &mut N,
) -> (Result<u64, BulkFault>, bool)
    ensures runs { S.IsUsable register.new.store → (st : State)
        → Refines (S.content register.old.store) st
        → IfSome (R.remaining reader) (λ bytes. RunsFile st bytes (S.content register.new.store)
        (W.contents writer.old) (W.contents writer.new) result.0) }
    // If the store shuts over an honest device: the lines up to then are those of a run.
    ensures until { S.IsUsable register.old.store → S.HasHonestDevice register.new.store
        → S.IsUsable register.new.store
        ⊎ ((st : State) → Refines (S.content register.old.store) st
        → IfSome (R.remaining reader) (λ bytes. RunsFileUntil st bytes (W.contents writer.old)
        (W.contents writer.new) result.0)) }
    ensures state { S.IsUsable register.new.store → (st : State)
        → Refines (S.content register.old.store) st
        → RefinesReachable st (S.content register.new.store) }
    ensures noted { OnOk result.0 (ReportsNoting (W.contents writer.old) (W.contents writer.new)
        result.1) }
    ensures preserves { PreservesStore S.StoreModel register.old.store register.new.store
        (IsAvailable result.0) (ReportsStorage (S.IsUsable register.new.store)
        (S.content register.old.store) (FailsWith FaultKind.Storage result.0)) }
{
    let mut line = match LineBuffer::new(alloc) {
        Ok(line) => line,
        Err(_) => return (Err(BulkFault::at_start(FaultKind::NoMemory)), false),
    };
    let mut reader = open(alloc, reader);
    match read_header(alloc, &mut reader, watcher) {
        Ok(()) => {
            let ran = report_rows(alloc, register, &mut line, &mut reader, writer, watcher);
            (ran, line.has_refusal)
        }
        Err(kind) => (Err(BulkFault::at_start(kind)), false),
    }
}

/// Like `run_file`, and also returns whether some line of the report has a result other than `ok`.
pub fn run_noting_refusals<S: Store, R: Read + Drop, W: Write>(
    alloc: Global,
    register: &mut Register<S>,
    reader: R,
    writer: &mut W,
) -> (Result<u64, BulkFault>, bool)
    ensures runs { S.IsUsable register.new.store → (st : State)
        → Refines (S.content register.old.store) st
        → IfSome (R.remaining reader) (λ bytes. RunsFile st bytes (S.content register.new.store)
        (W.contents writer.old) (W.contents writer.new) result.0) }
    // If the store shuts over an honest device: the lines up to then are those of a run.
    ensures until { S.IsUsable register.old.store → S.HasHonestDevice register.new.store
        → S.IsUsable register.new.store
        ⊎ ((st : State) → Refines (S.content register.old.store) st
        → IfSome (R.remaining reader) (λ bytes. RunsFileUntil st bytes (W.contents writer.old)
        (W.contents writer.new) result.0)) }
    ensures state { S.IsUsable register.new.store → (st : State)
        → Refines (S.content register.old.store) st
        → RefinesReachable st (S.content register.new.store) }
    ensures noted { OnOk result.0 (ReportsNoting (W.contents writer.old) (W.contents writer.new)
        result.1) }
    ensures preserves { PreservesStore S.StoreModel register.old.store register.new.store
        (IsAvailable result.0) (ReportsStorage (S.IsUsable register.new.store)
        (S.content register.old.store) (FailsWith FaultKind.Storage result.0)) }
{
    run_watched(alloc, register, reader, writer, &mut Unwatched)
}

/// Runs a bulk file and writes its report: the header `row,subject,result,id`, then a line for each
/// command. Returns the number of lines after the header.
///
/// A file begins with the header `caller,action,subject,old,new,due,lrn,cic,flag`. Each row after
/// it, counted from 1, requests one of ten actions for a number, or for each number of a range,
/// ascending. A line has the row, the telephone number, `ok` or the refusal's name, and after `ok`
/// the version's id. A row that is no request is reported as `bad_row`. Each line is flushed before
/// the next command; memory does not grow with the number of rows.
///
/// # Errors
///
/// - `BadHeader` if the file does not begin with the header. Nothing is executed or written.
/// - `Storage`, `NoMemory`, `Read` or `Write`, with the number of lines flushed in full. Their
///   commands were executed, and if the writer failed one more.
pub fn run_file<S: Store, R: Read + Drop, W: Write>(
    alloc: Global,
    register: &mut Register<S>,
    reader: R,
    writer: &mut W,
) -> Result<u64, BulkFault>
    ensures runs { S.IsUsable register.new.store → (st : State)
        → Refines (S.content register.old.store) st
        → IfSome (R.remaining reader) (λ bytes. RunsFile st bytes (S.content register.new.store)
        (W.contents writer.old) (W.contents writer.new) result) }
    // If the store shuts over an honest device: the lines up to then are those of a run.
    ensures until { S.IsUsable register.old.store → S.HasHonestDevice register.new.store
        → S.IsUsable register.new.store
        ⊎ ((st : State) → Refines (S.content register.old.store) st
        → IfSome (R.remaining reader) (λ bytes. RunsFileUntil st bytes (W.contents writer.old)
        (W.contents writer.new) result)) }
    ensures state { S.IsUsable register.new.store → (st : State)
        → Refines (S.content register.old.store) st
        → RefinesReachable st (S.content register.new.store) }
    ensures preserves { PreservesStore S.StoreModel register.old.store register.new.store
        (IsAvailable result) (ReportsStorage (S.IsUsable register.new.store)
        (S.content register.old.store) (FailsWith FaultKind.Storage result)) }
{
    let (ran, _has_refusal) = run_noting_refusals(alloc, register, reader, writer);
    ran
}
