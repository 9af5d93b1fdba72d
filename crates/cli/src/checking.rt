//! Writes what a file holds, or why it is refused.
ghost use Rattle.std.specs.Prelude.{◌≡◌, IfErr, IfOk, OnOk, string_bytes};
ghost use Rattle.std.specs.Io.KnownBytes.{Appends};
ghost use Rattle.cli.specs.Checking.{IsSummary, ShowsRows, ShowsSummary, due_line, refusal_line, rows_line, summary_text};
ghost use Rattle.cli.specs.Faults.{IsOfShowing};

use crate::fault::Fault;
use crate::over_file::{StoreTask, over_existing};
use diagnosis::{Cause, cause_at};
use http_messages::send_all;
use invariants::{Flaw, find_flaw};
use numbers::Minute;
use register::OpenFault;
use settle::Store;
use sql_store::Unwatched;
use std::alloc::{AllocError, Global};
use std::io::Write;

/// What a register holds.
#[derive(Clone, Copy, Debug, PartialEq, Eq)]
pub(crate) struct Summary {
    pub(crate) minute: Minute,
    /// The number of the present set of windows.
    pub(crate) set: u16,
    /// The id of the next version.
    pub(crate) next_id: u64,
    /// The number of registered carriers.
    pub(crate) carriers: usize,
    /// The id of the version with the earliest deadline that is not after the minute.
    pub(crate) due: Option<u64>,
}

// Returns the summary of a store. A store without a clock's row has none, and is refused with
// `Storage`.
fn summary_of<S: Store>(store: &mut S) -> Result<Summary, OpenFault>
    ensures value { S.IsUsable store.new → IfOk result (IsSummary (S.content store.old)) }
    ensures same { S.IsUsable store.new → S.content store.new ≡ S.content store.old }
{
    let Some(clock) = store.clock()? else {
        return Err(OpenFault::Storage);
    };
    let carriers = store.carriers()?;
    let due = store.least_due(clock.minute)?;
    Ok(Summary {
        minute: clock.minute,
        set: clock.present.number,
        next_id: clock.next_id,
        carriers: carriers.len(),
        due: due.map(|version| version.id),
    })
}

// Returns the line about what is due.
fn due_line(alloc: Global, due: Option<u64>) -> Result<String, AllocError>
    ensures { IfOk result (λ line. string_bytes line ≡ due_line due) }
{
    match due {
        Some(id) => format!(in alloc; "due {id}\n"),
        None => format!(in alloc; "due none\n"),
    }
}

// Returns the text of a summary: a name and a value on each line.
fn summary_text(alloc: Global, summary: &Summary) -> Result<String, AllocError>
    ensures { IfOk result (λ text. string_bytes text ≡ summary_text summary.now) }
{
    let minute = summary.minute.number;
    let set = summary.set;
    let next_id = summary.next_id;
    let carriers = summary.carriers;
    let due = due_line(alloc, summary.due)?;
    let due = due.as_str();
    format!(in alloc; "minute {minute}\nset {set}\nnext_id {next_id}\ncarriers {carriers}\n{due}")
}

// Writes the summary of a store.
fn show_summary<S: Store, W: Write>(
    alloc: Global,
    store: &mut S,
    writer: &mut W,
) -> Result<(), Fault>
    ensures shows { S.IsUsable store.new → OnOk result
        (ShowsSummary (S.content store.old) (W.contents writer.old) (W.contents writer.new)) }
    ensures same { S.IsUsable store.new → S.content store.new ≡ S.content store.old }
    ensures fault { IfErr result IsOfShowing }
{
    let summary = match summary_of(store) {
        Ok(summary) => summary,
        Err(fault) => return Err(Fault::Open(fault)),
    };
    let Ok(text) = summary_text(alloc, &summary) else {
        return Err(Fault::NoMemory);
    };
    match send_all(writer, text.as_bytes(), true) {
        Ok(()) => Ok(()),
        Err(_) => Err(Fault::Write),
    }
}

// Writes the summary.
#[derive(Drop)]
struct SummaryTask<'a, W> {
    writer: &'a mut W,
}

impl<W: Write> StoreTask for SummaryTask<'_, W> {
    type Output = ();

    ghost may_end = { λ _. IsOfShowing };

    fn run<S: Store>(&mut self, rt: &HostRuntime, mut store: S) -> (S, Result<(), Fault>) {
        let shown = show_summary(rt.alloc(), &mut store, self.writer);
        (store, shown)
    }
}

// Opens the file at `path`, writes its summary, and closes it.
pub(crate) fn summarize<W: Write>(rt: &HostRuntime, path: &str, writer: &mut W) -> Result<(), Fault>
    ensures { IfErr result IsOfShowing }
{
    over_existing(rt, path, &mut Unwatched, &mut SummaryTask { writer })
}

// Returns the line for a refused file.
fn refusal_line(alloc: Global, cause: &Cause) -> Result<String, AllocError>
    ensures { IfOk result (λ line. string_bytes line ≡ refusal_line cause.now) }
{
    let words = cause.words(alloc)?;
    let words = words.as_str();
    format!(in alloc; "refused {words}\n")
}

// Writes the line for a refused file.
fn show_refusal<W: Write>(alloc: Global, cause: &Cause, writer: &mut W) -> Result<(), Fault>
    ensures shows { OnOk result
        (Appends (W.contents writer.old) (W.contents writer.new) (refusal_line cause.now)) }
    ensures fault { IfErr result IsOfShowing }
{
    let Ok(line) = refusal_line(alloc, cause) else {
        return Err(Fault::NoMemory);
    };
    match send_all(writer, line.as_bytes(), true) {
        Ok(()) => Ok(()),
        Err(_) => Err(Fault::Write),
    }
}

// Returns the line about the rows: that they keep the invariants, or their first flaw.
fn rows_line(alloc: Global, flaw: Option<Flaw>) -> Result<String, AllocError>
    ensures { IfOk result (λ line. string_bytes line ≡ rows_line flaw) }
{
    let Some(flaw) = flaw else {
        return format!(in alloc; "rows sound\n");
    };
    let words = flaw.words(alloc)?;
    let words = words.as_str();
    format!(in alloc; "rows {words}\n")
}

// Writes whether the rows of a store keep the invariants. Returns their first flaw, if they have
// one.
fn show_rows<S: Store, W: Write>(
    alloc: Global,
    store: &mut S,
    writer: &mut W,
) -> Result<Option<Flaw>, Fault>
    ensures shows { S.IsUsable store.new → IfOk result
        (ShowsRows (S.content store.old) (W.contents writer.old) (W.contents writer.new)) }
    ensures same { S.IsUsable store.new → S.content store.new ≡ S.content store.old }
    ensures fault { IfErr result IsOfShowing }
{
    let flaw = match find_flaw(alloc, store) {
        Ok(flaw) => flaw,
        Err(fault) => return Err(Fault::Open(OpenFault::from(fault))),
    };
    let Ok(line) = rows_line(alloc, flaw) else {
        return Err(Fault::NoMemory);
    };
    match send_all(writer, line.as_bytes(), true) {
        Ok(()) => Ok(flaw),
        Err(_) => Err(Fault::Write),
    }
}

// Writes the summary of a store, and whether its rows keep the invariants. Returns their first flaw,
// if they have one.
fn show_inspection<S: Store, W: Write>(
    alloc: Global,
    store: &mut S,
    writer: &mut W,
) -> Result<Option<Flaw>, Fault>
    ensures { IfErr result IsOfShowing }
{
    show_summary(alloc, store, writer)?;
    show_rows(alloc, store, writer)
}

// Writes the summary and whether the rows keep the invariants.
#[derive(Drop)]
struct InspectionTask<'a, W> {
    writer: &'a mut W,
}

impl<W: Write> StoreTask for InspectionTask<'_, W> {
    type Output = Option<Flaw>;

    ghost may_end = { λ _. IsOfShowing };

    fn run<S: Store>(
        &mut self,
        rt: &HostRuntime,
        mut store: S,
    ) -> (S, Result<Option<Flaw>, Fault>) {
        let shown = show_inspection(rt.alloc(), &mut store, self.writer);
        (store, shown)
    }
}

// Opens the file at `path`, writes its summary and whether its rows keep the invariants, and closes
// it. Returns the first flaw of the rows, if they have one.
fn inspect<W: Write>(rt: &HostRuntime, path: &str, writer: &mut W) -> Result<Option<Flaw>, Fault>
    ensures { IfErr result IsOfShowing }
{
    over_existing(rt, path, &mut Unwatched, &mut InspectionTask { writer })
}

/// Writes what the register in the file at `path` holds: its minute, the number of its present set
/// of windows, the id of its next version, the number of its carriers, and the id of the first
/// version that is due at its minute; and then whether its rows keep the invariants. If the file is
/// refused, writes why. Creates no file but the log of an existing one, and changes no row.
///
/// # Errors
///
/// - `Open(Storage)` if there is no file, the file has an earlier format or no clock's row, or as
///   for `SqlStore::existing_at`; or after all lines, if the rows have a flaw.
/// - `Open(NoMemory)` or `NoMemory` if an allocation fails.
/// - `Write` if the writer fails. A prefix may be written.
pub(crate) fn check_file<W: Write>(
    rt: &HostRuntime,
    path: &str,
    writer: &mut W,
) -> Result<(), Fault>
    ensures { IfErr result IsOfShowing }
{
    match inspect(rt, path, writer) {
        Ok(None) => Ok(()),
        Ok(Some(_)) => Err(Fault::Open(OpenFault::Storage)),
        Err(fault) => {
            if fault == Fault::Open(OpenFault::Storage) {
                show_refusal(rt.alloc(), &cause_at(rt, path), writer)?;
            }
            Err(fault)
        }
    }
}
