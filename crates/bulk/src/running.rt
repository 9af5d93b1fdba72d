//! Runs the rows of a bulk file.
ghost use Rattle.std.specs.Prelude.{◌≡◌, ◌⊎◌, List, ◌+◌, ◌<◌, ◌≤◌, ◌^◌, ⊤, [], ◌∷◌, Some, Option, IfOk, IfErr, OnErr, OnOk, string_bytes};
ghost use Rattle.std.specs.Io.KnownBytes.{Appends};
ghost use Rattle.csv.specs.Records.{fields_of};
ghost use Rattle.model.specs.State.{State};
ghost use Rattle.http_messages.specs.Sending.{AppendsPrefix};
ghost use Rattle.register.specs.Refinement.{Refines};
ghost use Rattle.settle.specs.StoreContract.{PreservesStore, ReportsStorage};
ghost use Rattle.bulk.specs.Faults.{FailsWith, IsAvailable};
ghost use Rattle.bulk.specs.Requests.{ParsesRow};
ghost use Rattle.bulk.specs.Noting.{SendsNoting};
ghost use Rattle.bulk.specs.Report.{CommandTask, tasks_of};
ghost use Rattle.bulk.specs.Rows.{Row, HasRows, IsPlain};
ghost use Rattle.bulk.specs.Running.{RefinesReachable, RunsRows, RunsRowsUntil, RunsTo, RunsUntil, SendsOne};
ghost use Rattle.bulk.specs.declared.request.BulkRequest.{BulkRequest as BulkRequestImpl};

use crate::fault::{BulkFault, FaultKind};
use crate::fields::read_request;
use crate::line::LineBuffer;
use crate::making::execute;
use crate::mistake::mistake_in;
use crate::request::BulkRequest;
use crate::rows::next_row;
use crate::watching::{RowWatcher, note_mistake};
use csv::{ByteRecord, Reader};
use numbers::Tn;
use register::Register;
use settle::Store;
use std::alloc::Global;
use std::io::{Read, Write};

// Sends a line after `count` others. Returns the number of lines then.
fn send_line<W: Write>(line: &LineBuffer, writer: &mut W, count: u64) -> Result<u64, BulkFault>
    requires { count + 1 < 2 ^ 64 }
    ensures { SendsOne (W.contents writer.old) (W.contents writer.new)
        (string_bytes line.now.text) count result }
{
    match line.send(writer) {
        Ok(()) => Ok(count + 1),
        Err(kind) => Err(BulkFault { kind, rows: count }),
    }
}

// Executes a request for one of its numbers, and sends the line for it.
fn run_number<S: Store, W: Write>(
    register: &mut Register<S>,
    line: &mut LineBuffer,
    writer: &mut W,
    row: u64,
    request: &BulkRequest,
    tn: Tn,
    count: u64,
) -> Result<u64, BulkFault>
    requires { count + 1 < 2 ^ 64 }
    ensures runs { S.IsUsable register.new.store → (st : State)
        → Refines (S.content register.old.store) st
        → RunsTo st (CommandTask row request.now.caller.number tn.number request.now.operation ∷ [])
        (S.content register.new.store) (W.contents writer.old) (W.contents writer.new)
        count result }
    ensures until { S.IsUsable register.old.store → S.HasHonestDevice register.new.store
        → S.IsUsable register.new.store
        ⊎ ((st : State) → Refines (S.content register.old.store) st
        → RunsUntil st (CommandTask row request.now.caller.number tn.number
        request.now.operation ∷ []) (W.contents writer.old) (W.contents writer.new) count result) }
    ensures count { IfOk result (λ k. k ≡ count + 1) }
    ensures noted { OnOk result (SendsNoting (W.contents writer.old) (W.contents writer.new)
        line.old.has_refusal line.new.has_refusal) }
    ensures preserves { PreservesStore S.StoreModel register.old.store register.new.store
        (IsAvailable result) (ReportsStorage (S.IsUsable register.new.store)
        (S.content register.old.store) (FailsWith FaultKind.Storage result)) }
{
    match execute(register, line, row, request.caller, tn, &request.operation) {
        Ok(()) => send_line(line, writer, count),
        Err(kind) => Err(BulkFault { kind, rows: count }),
    }
}

// Executes a request for each of its numbers, ascending.
fn run_request<S: Store, W: Write>(
    register: &mut Register<S>,
    line: &mut LineBuffer,
    writer: &mut W,
    row: u64,
    request: &BulkRequest,
    count: u64,
) -> Result<u64, BulkFault>
    requires { count + 1001 < 2 ^ 64 }
    ensures runs { S.IsUsable register.new.store → (st : State)
        → Refines (S.content register.old.store) st
        → RunsTo st (tasks_of row (Some request.now)) (S.content register.new.store)
        (W.contents writer.old) (W.contents writer.new) count result }
    ensures until { S.IsUsable register.old.store → S.HasHonestDevice register.new.store
        → S.IsUsable register.new.store
        ⊎ ((st : State) → Refines (S.content register.old.store) st
        → RunsUntil st (tasks_of row (Some request.now)) (W.contents writer.old)
        (W.contents writer.new) count result) }
    ensures few { IfOk result (λ k. k ≤ count + 1000) }
    ensures noted { OnOk result (SendsNoting (W.contents writer.old) (W.contents writer.new)
        line.old.has_refusal line.new.has_refusal) }
    ensures preserves { PreservesStore S.StoreModel register.old.store register.new.store
        (IsAvailable result) (ReportsStorage (S.IsUsable register.new.store)
        (S.content register.old.store) (FailsWith FaultKind.Storage result)) }
{
    let mut written = count;
    let numbers = request.numbers;
    for number in numbers.first.number..numbers.last.number + 1 {
        let tn = numbers.at(number);
        written = run_number(register, line, writer, row, request, tn, written)?;
    }
    Ok(written)
}

// Runs a row, which has a request or is bad.
fn run_row<S: Store, W: Write, N: RowWatcher>(
    register: &mut Register<S>,
    line: &mut LineBuffer,
    writer: &mut W,
    watcher: &mut N,
    row: u64,
    raw: &ByteRecord,
    count: u64,
) -> Result<u64, BulkFault>
    requires { count + 1001 < 2 ^ 64 }
    ensures runs { (o : Option BulkRequestImpl) × ParsesRow (fields_of raw.now) o
        × (S.IsUsable register.new.store → (st : State) → Refines (S.content register.old.store) st
        → RunsTo st (tasks_of row o) (S.content register.new.store) (W.contents writer.old)
        (W.contents writer.new) count result)
        × (S.IsUsable register.old.store → S.HasHonestDevice register.new.store
        → S.IsUsable register.new.store
        ⊎ ((st : State) → Refines (S.content register.old.store) st
        → RunsUntil st (tasks_of row o) (W.contents writer.old) (W.contents writer.new) count
        result)) }
    ensures few { IfOk result (λ k. k ≤ count + 1000) }
    ensures noted { OnOk result (SendsNoting (W.contents writer.old) (W.contents writer.new)
        line.old.has_refusal line.new.has_refusal) }
    ensures preserves { PreservesStore S.StoreModel register.old.store register.new.store
        (IsAvailable result) (ReportsStorage (S.IsUsable register.new.store)
        (S.content register.old.store) (FailsWith FaultKind.Storage result)) }
{
    match read_request(raw) {
        Some(request) => run_request(register, line, writer, row, &request, count),
        None => {
            note_mistake(watcher, row, raw, mistake_in(raw));
            line.set_bad(row);
            send_line(line, writer, count)
        }
    }
}

// The most rows of a file, so that the count of their lines cannot overflow.
const MOST_ROWS: u64 = 1 << 50;

/// Runs all rows that `reader` supplies. Notes each with the watcher before it runs.
pub fn run_rows<S: Store, R: Read, W: Write, N: RowWatcher>(
    alloc: Global,
    register: &mut Register<S>,
    line: &mut LineBuffer,
    reader: &mut Reader<R>,
    writer: &mut W,
    watcher: &mut N,
) -> Result<u64, BulkFault>
    requires { IsPlain reader.old }
    ensures runs { S.IsUsable register.new.store → (st : State)
        → Refines (S.content register.old.store) st → (rows : List Row)
        → HasRows R.remaining reader.old rows → RunsRows st rows (S.content register.new.store)
        (W.contents writer.old) (W.contents writer.new) result }
    ensures until { S.IsUsable register.old.store → S.HasHonestDevice register.new.store
        → S.IsUsable register.new.store
        ⊎ ((st : State) → Refines (S.content register.old.store) st
        → (rows : List Row) → HasRows R.remaining reader.old rows
        → RunsRowsUntil st rows (W.contents writer.old) (W.contents writer.new) result) }
    ensures state { S.IsUsable register.new.store → (st : State)
        → Refines (S.content register.old.store) st
        → RefinesReachable st (S.content register.new.store) }
    ensures noted { OnOk result (SendsNoting (W.contents writer.old) (W.contents writer.new)
        line.old.has_refusal line.new.has_refusal) }
    ensures preserves { PreservesStore S.StoreModel register.old.store register.new.store
        (IsAvailable result) (ReportsStorage (S.IsUsable register.new.store)
        (S.content register.old.store) (FailsWith FaultKind.Storage result)) }
{
    let mut raw = ByteRecord::new(alloc);
    let mut count = 0;
    for row in 1..MOST_ROWS {
        match next_row(reader, &mut raw) {
            Ok(true) => {
                watcher.row(row);
                match run_row(register, line, writer, watcher, row, &raw, count) {
                    Ok(done) => count = done,
                    Err(fault) => return Err(fault),
                }
            }
            Ok(false) => return Ok(count),
            Err(kind) => return Err(BulkFault { kind, rows: count }),
        }
    }
    Err(BulkFault {
        kind: FaultKind::NoMemory,
        rows: count,
    })
}
