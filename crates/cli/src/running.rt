//! Executes command lines.
ghost use Rattle.std.specs.Prelude.{◌≡◌, ◌≢◌, ◌≤◌, [], Err, IfErr, IfOk, IfSome, IsOk, IsSome, IsTrue, OnOk, map, true};
ghost use Rattle.model.specs.Content.{Content, empty_content};
ghost use Rattle.sqlite.specs.Files.{file_state, over_files};
ghost use Rattle.sqlite.specs.State.{HasCleanDisk};
ghost use Rattle.sqlite.specs.WalFiles.{image_at};
ghost use Rattle.std.specs.IoError.{error_kind};
ghost use Rattle.std.specs.Io.Buffered.{writer_buffer, writer_contents, writer_inner};
ghost use Rattle.model.specs.State.{State, first_state};
ghost use Rattle.settle.specs.Reads.{HasDeviceFailed};
ghost use Rattle.hub.specs.Crashes.{LeavesContent};
ghost use Rattle.model.specs.Windows.{Windows as WindowsModel};
ghost use Rattle.version.specs.Abstraction.{windows_of};
ghost use Rattle.register.specs.Refinement.{Refines};
ghost use Rattle.sql_rows.specs.Content.{content_in};
ghost use Rattle.sql_store.specs.Groups.{is_sound};
ghost use Rattle.sql_store.specs.Store.{left_by};
ghost use Rattle.cli.specs.Feeding.{Feeds, FeedsInGroups, io_of_feed, outcome_of, outcome_of_groups};
ghost use Rattle.cli.specs.Faults.{IsOfCommands, IsOfFeeding, IsOfFile, IsOfNewFeeding, IsOfOpening, IsOfReading, IsOfServing, IsOfWindows, JudgesRows, MayEnd, MayEndAs, MayEndLine, MayEndListening, MayEndOverFile, fault_of_opening, outcome_of_commands};
ghost use Rattle.cli.specs.Reporting.{Ends};
ghost use Rattle.cli.specs.WindowsFile.{DefinesWindows, IsFaultOfBytes};

use crate::checking::check_file;
use crate::copying::back_up;
use crate::explaining::explain;
use crate::fault::Fault;
use crate::listening::{limits_of, listen};
use crate::opening_reporter::OpeningReporter;
use crate::over_file::{StoreTask, over_existing, over_open};
use crate::repairing::repair_file;
use crate::reporting::{report_outcome, report_usage};
use crate::row_reporter::RowReporter;
use crate::showing::{present_set, show_windows};
use crate::snapshot::Snapshot;
use crate::writing_page::write_report;
use api::{End, NoTicks, Options, Served, serve};
use bulk::{BulkFault, FaultKind, RowWatcher, audit_watched, export_watched, run_watched};
use command_line::parse::{CommandLine, Parsed, Subcommand, WindowsSource, parse};
use hub::{FeedFault, Limits, feed as feed_groups};
use numbers::Spid;
use register::{OpenFault, Register};
use settle::Store;
use sql_store::{FileFault, OpeningWatcher, SqlStore, StoreAt, UnopenedAt, find_file};
use sqlite::{Start, Unknown};
use std::alloc::Global;
use std::convert::AsStr;
use std::fs::File;
use std::io::{BufWriter, ErrorKind, Read, Write};
use std::rt::Files;
use std::{fs, io};
use store::MemoryStore;
use windows::{WindowFault, Windows};

// Returns the fault for a file that could not be read.
fn read_fault(error: io::Error) -> Fault
    ensures memory { error_kind error ≡ ErrorKind.OutOfMemory → result ≡ Fault.NoMemory }
    ensures read { error_kind error ≢ ErrorKind.OutOfMemory → result ≡ Fault.Read }
    ensures only { IsOfReading result }
{
    match error.kind() {
        ErrorKind::OutOfMemory => Fault::NoMemory,
        _ => Fault::Read,
    }
}

// Returns the windows that these bytes of a file define.
fn windows_in(alloc: Global, bytes: &[u8]) -> Result<Windows, Fault>
    ensures ok { IfOk result (DefinesWindows bytes.now) }
    ensures fault { IfErr result (IsFaultOfBytes bytes.now) }
{
    let Ok(text) = str::from_utf8(bytes) else {
        return Err(Fault::Windows(WindowFault::Syntax));
    };
    match Windows::from_toml(alloc, text) {
        Ok(windows) => Ok(windows),
        Err(fault) => Err(Fault::Windows(fault)),
    }
}

// Returns the windows of the file at `path`. No clause knows the bytes that a file has.
fn windows_at<T: Files + AllocGlobal>(rt: &T, path: &str) -> Result<Windows, Fault>
    ensures { IfErr result IsOfWindows }
{
    match fs::read(rt, path) {
        Ok(bytes) => windows_in(rt.alloc(), bytes.as_slice()),
        Err(error) => Err(read_fault(error)),
    }
}

// Returns how serving ended. A refused message is the program's fault.
fn serving_outcome(served: Result<Served, api::Fault>) -> Result<(), Fault>
    ensures outcome { result ≡ outcome_of served }
    ensures fault { IfErr result IsOfServing }
{
    match served {
        Ok(served) => match served.end {
            End::Input | End::Closed => Ok(()),
            End::Refused(fault) => Err(Fault::Message(fault)),
        },
        Err(api::Fault::Read(_)) => Err(Fault::Read),
        Err(api::Fault::Write(_)) => Err(Fault::Write),
        Err(api::Fault::Memory(_)) => Err(Fault::NoMemory),
    }
}

// The size of the buffer for answers, in bytes.
const BUFFER_SIZE: usize = 65_536;

// Serves `reader` to `writer` over a register. If the content refines the first state for some
// windows and the device never failed, the answers are the machine's from there on. Unless a write
// fails, all of them reach the writer after the buffer.
fn feed_to<S: Store, R: Read, W: Write + Drop>(
    alloc: Global,
    register: &mut Register<S>,
    reader: &mut R,
    writer: &mut BufWriter<W>,
) -> Result<(), Fault>
    ensures usable { S.IsUsable register.new.store → S.IsUsable register.old.store }
    ensures honest { S.HasHonestDevice register.new.store → S.HasHonestDevice register.old.store }
    ensures rises { S.failed register.old.store ≤ S.failed register.new.store }
    ensures feeds { S.IsUsable register.new.store → S.failed register.old.store ≡ 0
        → S.failed register.new.store ≡ 0 → (w : WindowsModel)
        → Refines (S.content register.old.store) (first_state w)
        → IfSome (R.remaining reader.old)
        (λ input. Feeds w (io_of_feed input (R.remaining reader.new)
        (writer_contents W.contents writer.old) (W.contents (writer_inner writer.new)))
        (writer_buffer writer.new) result) }
    ensures fault { IfErr result IsOfServing }
{
    let options = Options { clock_route: true };
    let served = serve(alloc, register, &mut NoTicks, &options, reader, writer);
    match writer.flush() {
        Ok(()) => serving_outcome(served),
        Err(_) => Err(Fault::Write),
    }
}

// Serves `reader` to `writer` over a store, and returns the store. If the store was empty and its
// device never failed, the answers are those of the machine from its first state on.
fn feed_over<S: Store, R: Read, W: Write + Drop>(
    alloc: Global,
    store: S,
    windows: &Windows,
    reader: &mut R,
    writer: &mut BufWriter<W>,
) -> (S, Result<(), Fault>)
    ensures usable { S.IsUsable result.0 → S.IsUsable store }
    ensures honest { S.HasHonestDevice result.0 → S.HasHonestDevice store }
    ensures feeds { S.IsUsable result.0 → S.failed result.0 ≡ 0
        → S.content store ≡ empty_content → IfSome (R.remaining reader.old) (λ input.
        Feeds (windows_of windows.now) (io_of_feed input (R.remaining reader.new)
        (writer_contents W.contents writer.old) (W.contents (writer_inner writer.new)))
        (writer_buffer writer.new) result.1) }
    ensures fault { IfErr result.1 IsOfFeeding }
    ensures new { S.IsUsable result.0 → S.failed result.0 ≡ 0 → S.content store ≡ empty_content
        → IfErr result.1 IsOfNewFeeding }
{
    match Register::open(alloc, store, windows) {
        Ok(register) => {
            let mut register = register;
            let outcome = feed_to(alloc, &mut register, reader, writer);
            (register.close(), outcome)
        }
        Err((store, fault)) => (store, Err(Fault::Open(fault))),
    }
}

/// Serves the messages of `reader` to `writer` over a new register in memory, with these windows
/// and `POST /clock`. The answers are those of the machine from its first state on. Unless a write
/// fails, all of them reach the writer after the buffer.
///
/// # Errors
///
/// - `Message` if the input ends with a message refused with `BadHead`, `TooLarge` or `CutBody`; it
///   is answered too.
/// - `Read` or `Write` if the reader or the writer fails.
/// - `NoMemory`, or `Open` while the register is opened, if an allocation fails.
pub fn feed<R: Read, W: Write + Drop>(
    alloc: Global,
    windows: &Windows,
    reader: &mut R,
    writer: &mut BufWriter<W>,
) -> Result<(), Fault>
    ensures feeds { IfSome (R.remaining reader.old) (λ input.
        Feeds (windows_of windows.now) (io_of_feed input (R.remaining reader.new)
        (writer_contents W.contents writer.old) (W.contents (writer_inner writer.new)))
        (writer_buffer writer.new) result) }
    ensures fault { IfErr result IsOfNewFeeding }
{
    let store = MemoryStore::new(alloc);
    let (_store, outcome) = feed_over(alloc, store, windows, reader, writer);
    outcome
}

// Returns how feeding in groups of commits ended. A refused message is the program's fault.
fn feeding_outcome(fed: Result<End, FeedFault>) -> Result<(), Fault>
    ensures outcome { result ≡ outcome_of_groups fed }
    ensures fault { IfErr result IsOfServing }
{
    match fed {
        Ok(End::Input | End::Closed) => Ok(()),
        Ok(End::Refused(fault)) => Err(Fault::Message(fault)),
        Err(FeedFault::Read) => Err(Fault::Read),
        Err(FeedFault::Write) => Err(Fault::Write),
        Err(FeedFault::NoMemory) => Err(Fault::NoMemory),
    }
}

// Feeds `reader` to a register in groups of commits. The answers are the machine's from each state
// that the content refined.
fn feed_groups_to<S: Store, R: Read, W: Write>(
    alloc: Global,
    register: &mut Register<S>,
    reader: &mut R,
    writer: &mut W,
) -> Result<(), Fault>
    ensures usable { S.IsUsable register.new.store → S.IsUsable register.old.store }
    ensures honest { S.HasHonestDevice register.new.store → S.HasHonestDevice register.old.store }
    ensures rises { S.failed register.old.store ≤ S.failed register.new.store }
    ensures feeds { S.IsUsable register.new.store → (st : State)
        → Refines (S.content register.old.store) st
        → IfSome (R.remaining reader.old)
        (λ input. FeedsInGroups (S.failed register.old.store) (S.failed register.new.store) st
        (S.content register.new.store) (io_of_feed input (R.remaining reader.new)
        (W.contents writer.old) (W.contents writer.new)) result) }
    ensures lasts { LeavesContent S.StoreModel register.old.store register.new.store }
    ensures fault { IfErr result IsOfServing }
{
    let fed = feed_groups(alloc, register, reader, writer);
    feeding_outcome(fed)
}

// Feeds `reader` to a store in groups of commits, and returns the store. If the store was empty, the
// answers are those of the machine from its first state on.
fn feed_in_groups<S: Store, R: Read, W: Write>(
    alloc: Global,
    store: S,
    windows: &Windows,
    reader: &mut R,
    writer: &mut W,
) -> (S, Result<(), Fault>)
    ensures usable { S.IsUsable result.0 → S.IsUsable store }
    ensures honest { S.HasHonestDevice result.0 → S.HasHonestDevice store }
    ensures rises { S.failed store ≤ S.failed result.0 }
    ensures feeds { S.IsUsable result.0 → S.content store ≡ empty_content
        → IfSome (R.remaining reader.old)
        (λ input. FeedsInGroups (S.failed store) (S.failed result.0)
        (first_state (windows_of windows.now)) (S.content result.0)
        (io_of_feed input (R.remaining reader.new) (W.contents writer.old)
        (W.contents writer.new)) result.1) }
    ensures lasts { LeavesContent S.StoreModel store result.0 }
    ensures fault { IfErr result.1 IsOfFeeding }
{
    match Register::open(alloc, store, windows) {
        Ok(register) => {
            let mut register = register;
            let outcome = feed_groups_to(alloc, &mut register, reader, writer);
            (register.close(), outcome)
        }
        Err((store, fault)) => (store, Err(Fault::Open(fault))),
    }
}

/// Feeds the messages of `reader` to a register in the file at `path`, which `SqlStore::at` opens,
/// in groups of commits, with `POST /clock`. Returns the store and how feeding ended. Notes each row
/// of the file with `watcher` while the file is opened.
///
/// Messages that arrive together share a commit, and their responses are written after it. After
/// `Write`, what was written is a prefix of the responses. All messages that are answered there have
/// been executed, and perhaps more of the same group.
///
/// The answers are those of the machine from its first state on if the file was new, its disk
/// returned what was written, and the store is usable afterwards. A crash then leaves the state after
/// all messages that were executed, and so all that was answered.
///
/// # Errors
///
/// Those of `SqlStore::at`.
pub fn feed_at<S: Start, R: Read, W: Write, N: OpeningWatcher>(
    rt: &HostRuntime,
    path: &str,
    start: S,
    windows: &Windows,
    reader: &mut R,
    writer: &mut W,
    watcher: &mut N,
) -> Result<(StoreAt<S>, Result<(), Fault>), (FileFault, UnopenedAt<S>)>
    ensures feeds { IfOk result (λ r. HasCleanDisk (file_state r.0.db.conn)
        → IsTrue (is_sound r.0.group) → IsTrue (file_state r.0.db.conn).is_open
        → (image_at S.Start).db ≡ [] → IfSome (R.remaining reader.old) (λ input.
        FeedsInGroups 0 r.0.failures (first_state (windows_of windows.now))
        (content_in (file_state r.0.db.conn).now.trees)
        (io_of_feed input (R.remaining reader.new) (W.contents writer.old)
        (W.contents writer.new)) r.1)) }
    // What was answered lasts: a crash leaves the content that `feeds` speaks of.
    ensures lasts { IfOk result (λ r. IsTrue (is_sound r.0.group)
        → IsTrue (file_state r.0.db.conn).is_open → (m : Content)
        → left_by over_files r.0.db.conn m
        → m ≡ content_in (file_state r.0.db.conn).now.trees) }
    ensures fault { IfOk result (λ r. IfErr r.1 IsOfFeeding) }
{
    let store = SqlStore::at(rt, path, start, windows, watcher)?;
    Ok(feed_in_groups(rt.alloc(), store, windows, reader, writer))
}

// Like `feed`, to a writer without a buffer. Discards what a failed write leaves in the buffer.
fn feed_buffered<R: Read, W: Write>(
    alloc: Global,
    windows: &Windows,
    reader: &mut R,
    writer: &mut W,
) -> Result<(), Fault>
    ensures { IfErr result IsOfNewFeeding }
{
    let Ok(mut buffered) = BufWriter::with_capacity(alloc, BUFFER_SIZE, writer) else {
        return Err(Fault::NoMemory);
    };
    let outcome = feed(alloc, windows, reader, &mut buffered);
    let (_writer, _unwritten) = buffered.into_parts();
    outcome
}

// Like `feed_at`, and closes the file.
fn feed_and_close<R: Read, W: Write, N: OpeningWatcher>(
    rt: &HostRuntime,
    path: &str,
    windows: &Windows,
    reader: &mut R,
    writer: &mut W,
    watcher: &mut N,
) -> Result<(), Fault>
    ensures { IfErr result IsOfFeeding }
{
    let fed = feed_at(rt, path, Unknown, windows, reader, writer, watcher);
    let (store, outcome) = fed.map_err(open_fault)?;
    let closed = close(store);
    outcome?;
    closed
}

// Serves the messages of a file, and discards the answers.
fn feed_file<T: Files + AllocGlobal, S: Store>(
    rt: &T,
    register: &mut Register<S>,
    path: &str,
) -> Result<(), Fault>
    ensures { IfErr result IsOfServing }
{
    let mut file = match File::open(rt, path) {
        Ok(file) => file,
        Err(error) => return Err(read_fault(error)),
    };
    let mut sink = io::sink();
    feed_groups_to(rt.alloc(), register, &mut file, &mut sink)
}

// Returns how the work on a file ended, as the program's outcome.
fn file_outcome(ran: Result<u64, BulkFault>) -> Result<(), Fault>
    ensures done { OnOk ran (IsOk result) }
    ensures broken { IfErr ran (λ fault. result ≡ Err (Fault.File fault.kind)) }
{
    match ran {
        Ok(_) => Ok(()),
        Err(fault) => Err(Fault::File(fault.kind)),
    }
}

// Returns how a run of a file of commands ended. A refused row is a fault if `strict`.
fn commands_outcome(
    strict: bool,
    ran: Result<u64, BulkFault>,
    has_refusal: bool,
) -> Result<(), Fault>
    ensures outcome { result ≡ outcome_of_commands strict ran has_refusal }
    ensures fault { IfErr result (IsOfCommands strict) }
{
    file_outcome(ran)?;
    if strict && has_refusal {
        return Err(Fault::RowsRefused);
    }
    Ok(())
}

// Runs a file of commands over a register, and writes its report.
fn run_commands<S: Store, R: Read, W: Write, N: RowWatcher>(
    alloc: Global,
    register: &mut Register<S>,
    strict: bool,
    reader: &mut R,
    writer: &mut W,
    watcher: &mut N,
) -> Result<(), Fault>
    ensures rows { JudgesRows strict (W.contents writer.old) (W.contents writer.new) result }
    ensures fault { IfErr result (IsOfCommands strict) }
{
    let (ran, has_refusal) = run_watched(alloc, register, reader, writer, watcher);
    commands_outcome(strict, ran, has_refusal)
}

// Opens the port, and serves its connections. Appends to the file `log`, if there is one, or writes
// to standard error if it is `-`.
fn listen_logging<S: Store, W: Write>(
    rt: &HostRuntime,
    register: &mut Register<S>,
    port: u16,
    connections: Option<u16>,
    limits: Limits,
    log: Option<&str>,
    writer: &mut W,
) -> Result<(), Fault>
    ensures fault { IfErr result MayEndListening }
    ensures storage { IfErr result (λ fault. fault ≡ Fault.Open OpenFault.Storage
        → HasDeviceFailed (S.failed register.old.store) (S.failed register.new.store)) }
    ensures rises { S.failed register.old.store ≤ S.failed register.new.store }
{
    match log {
        None => {
            let mut sink = io::sink();
            listen(rt, register, port, connections, limits, writer, &mut sink)
        }
        Some(path) if path == "-" => {
            let stderr = rt.stderr();
            let mut errors = io::writer(&stderr);
            listen(rt, register, port, connections, limits, writer, &mut errors)
        }
        Some(path) => match File::options().append(true).create(true).open(rt, path) {
            Ok(mut file) => listen(rt, register, port, connections, limits, writer, &mut file),
            Err(_) => Err(Fault::Write),
        },
    }
}

// Compares the copy of a carrier with a register.
fn audit_copy<S: Store, R: Read, W: Write>(
    rt: &HostRuntime,
    register: &mut Register<S>,
    line: &CommandLine<'_>,
    spid: &str,
    reader: &mut R,
    writer: &mut W,
) -> Result<(), Fault>
    ensures { IfErr result IsOfFile }
{
    let Some(carrier) = Spid::read(spid) else {
        return Err(Fault::File(FaultKind::UnknownCarrier));
    };
    let mut reporter = RowReporter::new(rt, line, FaultKind::BadFile.name());
    let audited = audit_watched(rt.alloc(), register, carrier, reader, writer, &mut reporter);
    file_outcome(audited)
}

// Serves the file of `--feed` to a register, and then executes the subcommand. Without a failure of
// the device, `storage` does not come.
fn run_on<S: Store, R: Read, W: Write>(
    rt: &HostRuntime,
    register: &mut Register<S>,
    line: &CommandLine<'_>,
    reader: &mut R,
    writer: &mut W,
) -> Result<(), Fault>
    ensures fault { IfErr result (MayEndOverFile line.now) }
    ensures new { S.failed register.new.store ≡ 0 → IfErr result (MayEnd line.now) }
{
    let alloc = rt.alloc();
    if let Some(path) = line.feed {
        feed_file(rt, register, path)?;
    }
    match line.subcommand {
        Subcommand::Feed => feed_groups_to(alloc, register, reader, writer),
        Subcommand::Serve {
            port,
            connections,
            limits,
            log,
        } => {
            let limits = limits_of(limits);
            listen_logging(rt, register, port, connections, limits, log, writer)
        }
        Subcommand::Bulk { strict } => {
            let mut reporter = RowReporter::new(rt, line, "bad_row");
            run_commands(alloc, register, strict, reader, writer, &mut reporter)
        }
        Subcommand::Export => {
            let mut reporter = RowReporter::new(rt, line, FaultKind::BadFile.name());
            file_outcome(export_watched(alloc, register, writer, &mut reporter))
        }
        Subcommand::Audit { spid } => audit_copy(rt, register, line, spid, reader, writer),
    }
}

// Executes a command line over a store, and returns the store.
fn run_over<S: Store, R: Read, W: Write>(
    rt: &HostRuntime,
    store: S,
    windows: &Windows,
    line: &CommandLine<'_>,
    reader: &mut R,
    writer: &mut W,
) -> (S, Result<(), Fault>)
    ensures fault { IfErr result.1 (MayEndOverFile line.now) }
    ensures new { S.IsUsable result.0 → S.failed result.0 ≡ 0 → S.content store ≡ empty_content
        → IfErr result.1 (MayEnd line.now) }
{
    match Register::open(rt.alloc(), store, windows) {
        Ok(register) => {
            let mut register = register;
            let outcome = run_on(rt, &mut register, line, reader, writer);
            (register.close(), outcome)
        }
        Err((store, fault)) => (store, Err(Fault::Open(fault))),
    }
}

// Returns the program's fault for a file that could not be opened.
pub(crate) fn fault_of_file(fault: FileFault) -> Fault
    ensures { result ≡ fault_of_opening fault }
{
    Fault::Open(match fault {
        FileFault::WindowsDiffer => OpenFault::WindowsDiffer,
        FileFault::Storage => OpenFault::Storage,
        FileFault::NoMemory => OpenFault::NoMemory,
    })
}

// Returns the fault for a file that could not be opened, and closes what is open of it.
pub(crate) fn open_fault(refused: (FileFault, UnopenedAt<Unknown>)) -> Fault
    ensures { result ≡ fault_of_opening refused.0 }
{
    let (fault, _left) = refused;
    fault_of_file(fault)
}

// Closes the file of `--db`.
pub(crate) fn close(store: StoreAt<Unknown>) -> Result<(), Fault>
    ensures { IfErr result IsOfOpening }
{
    match store.close_files() {
        Ok(_files) => Ok(()),
        Err((fault, left)) => {
            drop(left.close());
            Err(Fault::Open(OpenFault::from(fault)))
        }
    }
}

// Finds the file of `--db`, if the command line wants it to exist.
fn find_if_wanted(rt: &HostRuntime, path: &str, line: &CommandLine<'_>) -> Result<(), Fault>
    ensures { IfErr result (MayEndOverFile line.now) }
{
    if !line.existing {
        return Ok(());
    }
    match find_file(rt, path) {
        Ok(()) => Ok(()),
        Err(fault) => Err(fault_of_file(fault)),
    }
}

// Executes a command line over a store with these windows.
#[derive(Drop)]
struct LineTask<'w, 'l, 'c, 'i, 'o, R, W> {
    windows: &'w Windows,
    line: &'l CommandLine<'c>,
    reader: &'i mut R,
    writer: &'o mut W,
}

impl<R: Read, W: Write> StoreTask for LineTask<'_, '_, '_, '_, '_, R, W> {
    type Output = ();

    ghost may_end = { λ task. MayEndOverFile task.line.now };

    fn run<S: Store>(&mut self, rt: &HostRuntime, store: S) -> (S, Result<(), Fault>) {
        run_over(rt, store, self.windows, self.line, self.reader, self.writer)
    }
}

// Opens the file at `path`, executes a command line over it, and closes it.
fn run_and_close<R: Read, W: Write, N: OpeningWatcher>(
    rt: &HostRuntime,
    path: &str,
    windows: &Windows,
    line: &CommandLine<'_>,
    reader: &mut R,
    writer: &mut W,
    watcher: &mut N,
) -> Result<(), Fault>
    ensures { IfErr result (MayEndOverFile line.now) }
{
    let opened = SqlStore::at(rt, path, Unknown, windows, watcher);
    let store = opened.map_err(open_fault)?;
    let mut task = LineTask {
        windows,
        line,
        reader,
        writer,
    };
    over_open(rt, store, &mut task)
}

// Executes a command line over the file of `--db`, and closes it. A plain `feed` calls the function
// whose contract states its answers.
fn run_at<R: Read, W: Write>(
    rt: &HostRuntime,
    path: &str,
    windows: &Windows,
    line: &CommandLine<'_>,
    reader: &mut R,
    writer: &mut W,
) -> Result<(), Fault>
    ensures { IfErr result (MayEndOverFile line.now) }
{
    find_if_wanted(rt, path, line)?;
    let mut reporter = OpeningReporter::new(rt, line);
    match (line.subcommand, line.feed) {
        (Subcommand::Feed, None) => {
            feed_and_close(rt, path, windows, reader, writer, &mut reporter)
        }
        _ => run_and_close(rt, path, windows, line, reader, writer, &mut reporter),
    }
}

// Executes a command line over a store with its present windows, and returns the store.
fn run_present<S: Store, R: Read, W: Write>(
    rt: &HostRuntime,
    mut store: S,
    line: &CommandLine<'_>,
    reader: &mut R,
    writer: &mut W,
) -> (S, Result<(), Fault>)
    ensures { IfErr result.1 (MayEndOverFile line.now) }
{
    match present_set(&mut store) {
        Ok(set) => run_over(rt, store, &set.windows, line, reader, writer),
        Err(fault) => (store, Err(Fault::Open(fault))),
    }
}

// Executes a command line over a store with its present windows.
#[derive(Drop)]
struct PresentTask<'l, 'c, 'i, 'o, R, W> {
    line: &'l CommandLine<'c>,
    reader: &'i mut R,
    writer: &'o mut W,
}

impl<R: Read, W: Write> StoreTask for PresentTask<'_, '_, '_, '_, R, W> {
    type Output = ();

    ghost may_end = { λ task. MayEndOverFile task.line.now };

    fn run<S: Store>(&mut self, rt: &HostRuntime, store: S) -> (S, Result<(), Fault>) {
        run_present(rt, store, self.line, self.reader, self.writer)
    }
}

// Executes a command line over an existing file with its present windows, and closes the file.
fn run_present_at<R: Read, W: Write>(
    rt: &HostRuntime,
    path: &str,
    line: &CommandLine<'_>,
    reader: &mut R,
    writer: &mut W,
) -> Result<(), Fault>
    ensures { IfErr result (MayEndOverFile line.now) }
{
    let mut reporter = OpeningReporter::new(rt, line);
    let mut task = PresentTask {
        line,
        reader,
        writer,
    };
    over_existing(rt, path, &mut reporter, &mut task)
}

// Executes a command line over a new register in memory.
fn run_in_memory<R: Read, W: Write>(
    rt: &HostRuntime,
    windows: &Windows,
    line: &CommandLine<'_>,
    reader: &mut R,
    writer: &mut W,
) -> Result<(), Fault>
    ensures { IfErr result (MayEnd line.now) }
{
    let store = MemoryStore::new(rt.alloc());
    let (_store, outcome) = run_over(rt, store, windows, line, reader, writer);
    outcome
}

// Executes a command line with the windows of the file at `windows`, over the file at `db`. A plain
// `feed` calls the function whose contract states its answers.
fn run_with<R: Read, W: Write>(
    rt: &HostRuntime,
    windows: &str,
    db: Option<&str>,
    line: &CommandLine<'_>,
    reader: &mut R,
    writer: &mut W,
) -> Result<(), Fault>
    requires { IsSome db → IsSome line.now.db }
    ensures { IfErr result (MayEnd line.now) }
{
    let windows = windows_at(rt, windows)?;
    match (line.subcommand, line.feed, db) {
        (_, _, Some(path)) => run_at(rt, path, &windows, line, reader, writer),
        (Subcommand::Feed, None, None) => feed_buffered(rt.alloc(), &windows, reader, writer),
        _ => run_in_memory(rt, &windows, line, reader, writer),
    }
}

// Executes a command line over the file at `db`, which is its own or a copy of it.
fn run_over_file<R: Read, W: Write>(
    rt: &HostRuntime,
    db: Option<&str>,
    line: &CommandLine<'_>,
    reader: &mut R,
    writer: &mut W,
) -> Result<(), Fault>
    requires { IsSome db → IsSome line.now.db }
    ensures { IfErr result (MayEnd line.now) }
{
    match line.windows {
        WindowsSource::File(windows) => run_with(rt, windows, db, line, reader, writer),
        WindowsSource::Database(own) => {
            run_present_at(rt, db.unwrap_or(own), line, reader, writer)
        }
    }
}

// Executes a command line over a copy of the file at `db`, and removes the copy.
fn run_on_snapshot<R: Read, W: Write>(
    rt: &HostRuntime,
    db: &str,
    line: &CommandLine<'_>,
    reader: &mut R,
    writer: &mut W,
) -> Result<(), Fault>
    requires wanted { line.now.snapshot ≡ true }
    requires file { IsSome line.now.db }
    ensures { IfErr result (MayEndLine line.now) }
{
    let snapshot = match Snapshot::take(rt, db) {
        Ok(snapshot) => snapshot,
        Err(fault) => return Err(fault),
    };
    let outcome = run_over_file(rt, Some(snapshot.path()), line, reader, writer);
    snapshot.remove(rt);
    outcome
}

// Executes a command line, over a copy of its file if it wants one.
fn run_line<R: Read, W: Write>(
    rt: &HostRuntime,
    line: &CommandLine<'_>,
    reader: &mut R,
    writer: &mut W,
) -> Result<(), Fault>
    ensures { IfErr result (MayEndLine line.now) }
{
    match line.db {
        Some(db) if line.snapshot => run_on_snapshot(rt, db, line, reader, writer),
        db => run_over_file(rt, db, line, reader, writer),
    }
}

// Executes what the words of a command line ask for.
fn run_parsed<R: Read, W: Write>(
    rt: &HostRuntime,
    parsed: &Parsed<'_>,
    reader: &mut R,
    writer: &mut W,
) -> Result<(), Fault>
    ensures { IfErr result (MayEndAs parsed.now) }
{
    match parsed {
        Parsed::Windows(line) => show_windows(rt, line.db, writer),
        Parsed::Check(line) => check_file(rt, line.db, writer),
        Parsed::Backup { line, to } => back_up(rt, line.db, to, writer),
        Parsed::Repair { line, to } => repair_file(rt, line.db, to, writer),
        Parsed::Report { line, to, number } => write_report(rt, line.db, to, *number),
        Parsed::Line(line) => run_line(rt, line, reader, writer),
    }
}

/// Executes the words of a command line, starting with the program's name, and returns the exit
/// status:
/// - 0 after success or help;
/// - 1 if a file or a message was refused;
/// - 2 for a mistake in the command line;
/// - 3 if an allocation, a read or a write failed.
///
/// With 1 and 3, writes `npacd: ` and the fault's name as one line to `errors`, unless that fails,
/// and then explains the fault where `--explain` says.
///
/// Reads the windows file first, then the file of `--db`, then that of `--feed`, and then executes
/// the subcommand. With `--snapshot` it copies the file of `--db` before it reads any. Stops at the
/// first fault.
pub fn run<S: AsStr, R: Read, W: Write, E: Write>(
    rt: &HostRuntime,
    words: &[S],
    reader: &mut R,
    writer: &mut W,
    errors: &mut E,
) -> u8
    ensures { Ends (map S.text words.now) (E.contents errors.old) (E.contents errors.new) result }
{
    match parse(rt.alloc(), words) {
        Ok(parsed) => {
            let outcome = run_parsed(rt, &parsed, reader, writer);
            let status = report_outcome(errors, outcome);
            explain(rt, &parsed, outcome);
            status
        }
        Err(usage) => report_usage(writer, errors, &usage),
    }
}
