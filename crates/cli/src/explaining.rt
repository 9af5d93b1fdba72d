//! Explains a fault: what it is about, and why.
ghost use Rattle.std.specs.Prelude.{◌≡◌, IfOk, string_bytes};
ghost use Rattle.cli.specs.Explaining.{explanation_line, file_words, message_words, window_words};

use crate::fault::Fault;
use crate::snapshot::Snapshot;
use api::MessageFault;
use bulk::FaultKind;
use command_line::parse::{CommandLine, Parsed, Subcommand, WindowsSource};
use diagnosis::{Cause, Reason, cause_at, cause_of_moved, reason_of_plain_file};
use http_messages::send_all;
use register::OpenFault;
use std::alloc::{AllocError, Global};
use std::fs::File;
use std::io;
use windows::WindowFault;

// What a fault is about, and why it came.
#[derive(Debug, Drop)]
struct Explanation<'a> {
    /// The path of a file, or the name of a stream or an option.
    about: &'a str,
    words: String,
}

const INPUT: &str = "standard input";

const OUTPUT: &str = "standard output";

const MEMORY: &str = "memory";

/// Returns a text in memory of its own.
pub(crate) fn text_of(alloc: Global, words: &str) -> Result<String, AllocError>
    ensures { IfOk result (λ text. string_bytes text ≡ words.now) }
{
    let mut text = String::new(alloc);
    text.push_str(words)?;
    Ok(text)
}

// Returns the words for a fault of the windows file.
fn window_words(fault: WindowFault) -> &'static str
    ensures { result.now ≡ window_words fault }
{
    match fault {
        WindowFault::Syntax => "it is not TOML in UTF-8",
        WindowFault::MissingKey => "one of the nine windows is missing",
        WindowFault::UnknownKey => "it has a key that is none of the nine windows",
        WindowFault::NotWhole => "a window is not a whole number",
        WindowFault::OutOfRange => "a window is not from 1 to 525600 minutes",
        WindowFault::NoMemory => "an allocation failed",
    }
}

// Returns the words for a refused message.
fn message_words(fault: MessageFault) -> &'static str
    ensures { result.now ≡ message_words fault }
{
    match fault {
        MessageFault::BadHead => "the head of a message is not HTTP, or is too long",
        MessageFault::TooLarge => "the body of a message is too large",
        MessageFault::CutBody => "it ends within the body of a message",
        MessageFault::BadRequest => "the body of a message is not what its path asks",
        MessageFault::NoPath => "a message has no path of this program",
        MessageFault::BadMethod => "a message has another method than its path",
    }
}

// Returns the words for a file of commands, an export or an audit that ended early.
fn file_words(kind: FaultKind) -> &'static str
    ensures { result.now ≡ file_words kind }
{
    match kind {
        FaultKind::BadHeader => "its first row is not the header",
        FaultKind::BadFile => "a row is not an export's, or its subject is there twice",
        FaultKind::UnknownCarrier => "this carrier is not registered",
        FaultKind::Storage => "the device failed",
        FaultKind::NoMemory => "an allocation failed",
        FaultKind::Read => "it cannot be read",
        FaultKind::Write => "it cannot be written",
    }
}

// Returns what a fault of a file of commands, an export or an audit is about.
fn subject_of_file_fault<'a>(kind: FaultKind, db: Option<&'a str>) -> &'a str {
    match kind {
        FaultKind::BadHeader | FaultKind::BadFile | FaultKind::Read => INPUT,
        FaultKind::UnknownCarrier => "--spid",
        FaultKind::Storage => db.unwrap_or(MEMORY),
        FaultKind::NoMemory => MEMORY,
        FaultKind::Write => OUTPUT,
    }
}

// Returns where the messages of a command line come from.
fn messages_of<'a>(line: &CommandLine<'a>) -> &'a str {
    match (line.subcommand, line.feed) {
        (_, None) => INPUT,
        (Subcommand::Feed, Some(_)) => "standard input, or the file of --feed",
        (_, Some(path)) => path,
    }
}

// Returns where a fault is explained.
fn explain_path<'a>(parsed: &Parsed<'a>) -> Option<&'a str> {
    match parsed {
        Parsed::Windows(line)
        | Parsed::Check(line)
        | Parsed::Backup { line, .. }
        | Parsed::Repair { line, .. }
        | Parsed::Report { line, .. } => line.explain,
        Parsed::Line(line) => line.explain,
    }
}

// Returns the path of the database file.
fn db_path<'a>(parsed: &Parsed<'a>) -> Option<&'a str> {
    match parsed {
        Parsed::Windows(line)
        | Parsed::Check(line)
        | Parsed::Backup { line, .. }
        | Parsed::Repair { line, .. }
        | Parsed::Report { line, .. } => Some(line.db),
        Parsed::Line(line) => line.db,
    }
}

// Returns the path of the windows file.
fn windows_path<'a>(parsed: &Parsed<'a>) -> Option<&'a str> {
    match parsed {
        Parsed::Line(
            CommandLine {
                windows: WindowsSource::File(path),
                ..
            },
        ) => Some(*path),
        _ => None,
    }
}

// Returns where messages come from.
fn messages_source<'a>(parsed: &Parsed<'a>) -> &'a str {
    match parsed {
        Parsed::Line(line) => messages_of(line),
        _ => INPUT,
    }
}

// Returns the path of the file of `--feed`.
fn feed_path<'a>(parsed: &Parsed<'a>) -> Option<&'a str> {
    match parsed {
        Parsed::Line(line) => line.feed,
        _ => None,
    }
}

// Returns the path of the database file if a copy of it is read.
fn copied_path<'a>(parsed: &Parsed<'a>) -> Option<&'a str> {
    match parsed {
        Parsed::Backup { line, .. } => Some(line.db),
        Parsed::Line(line) if line.snapshot => line.db,
        _ => None,
    }
}
// Returns the first of the files that cannot be read, and why.
fn unread_file<'a>(rt: &HostRuntime, parsed: &Parsed<'a>) -> Option<(&'a str, Reason)> {
    for path in [windows_path(parsed), feed_path(parsed)] {
        if let Some(path) = path {
            if let Some(reason) = reason_of_plain_file(rt, path) {
                return Some((path, reason));
            }
        }
    }
    None
}

// Explains a failed read.
fn explain_read<'a>(rt: &HostRuntime, parsed: &Parsed<'a>) -> (&'a str, &'static str) {
    match (unread_file(rt, parsed), copied_path(parsed)) {
        (Some((path, reason)), _) => (path, reason.words()),
        (None, Some(path)) => (
            path,
            "its log cannot be read, or was moved into it in each of 100 tries",
        ),
        (None, None) => (INPUT, "it cannot be read, or a file broke off"),
    }
}

// Explains a failed write. If a command line reads a copy, nothing else is written with this fault.
fn explain_write<'a>(parsed: &Parsed<'a>) -> (&'a str, &'static str) {
    match parsed {
        Parsed::Line(
            CommandLine {
                db: Some(path),
                snapshot: true,
                ..
            },
        ) => (*path, "no copy of it can be made beside it"),
        _ => (
            "standard output, or the file of --log or --to",
            "it cannot be written",
        ),
    }
}

// Explains a fault whose words are the same for every file.
fn explain_plainly<'a>(
    rt: &HostRuntime,
    parsed: &Parsed<'a>,
    fault: Fault,
) -> (&'a str, &'static str) {
    match fault {
        Fault::Windows(fault) => (windows_path(parsed).unwrap_or(INPUT), window_words(fault)),
        Fault::Open(OpenFault::WindowsDiffer) => (
            windows_path(parsed).unwrap_or(INPUT),
            "its windows are not the present ones of the database",
        ),
        Fault::Open(OpenFault::Storage) => (db_path(parsed).unwrap_or(MEMORY), "the device failed"),
        Fault::Message(fault) => (messages_source(parsed), message_words(fault)),
        Fault::File(kind) => (
            subject_of_file_fault(kind, db_path(parsed)),
            file_words(kind),
        ),
        Fault::RowsRefused => (INPUT, "a row was refused: the report says which"),
        Fault::Listen => ("--port", "it is in use, or this user may not open it"),
        Fault::Read => explain_read(rt, parsed),
        Fault::Write => explain_write(parsed),
        Fault::Open(OpenFault::NoMemory) | Fault::NoMemory => (MEMORY, "an allocation failed"),
    }
}

// Returns why the file at `path` was refused. Examines a copy if a copy was refused. A repair takes
// tables in other places.
fn cause_of(rt: &HostRuntime, parsed: &Parsed<'_>, path: &str) -> Cause {
    if matches!(parsed, Parsed::Repair { .. }) {
        return cause_of_moved(rt, path);
    }
    if copied_path(parsed).is_none() {
        return cause_at(rt, path);
    }
    match Snapshot::take(rt, path) {
        Ok(snapshot) => {
            let cause = cause_at(rt, snapshot.path());
            snapshot.remove(rt);
            cause
        }
        Err(_) => cause_at(rt, path),
    }
}

// Explains a fault. Examines the files that it may be about.
fn explanation_of<'a>(
    rt: &HostRuntime,
    parsed: &Parsed<'a>,
    fault: Fault,
) -> Result<Explanation<'a>, AllocError> {
    match (fault, db_path(parsed)) {
        (Fault::Open(OpenFault::Storage), Some(path)) => Ok(Explanation {
            about: path,
            words: cause_of(rt, parsed, path).words(rt.alloc())?,
        }),
        _ => {
            let (about, words) = explain_plainly(rt, parsed, fault);
            let words = text_of(rt.alloc(), words)?;
            Ok(Explanation { about, words })
        }
    }
}

// Returns the line of an explanation: the program's name, the fault's, what the fault is about, and
// why it came.
fn explanation_line(
    alloc: Global,
    name: &str,
    explanation: &Explanation<'_>,
) -> Result<String, AllocError>
    ensures { IfOk result (λ line. string_bytes line
        ≡ explanation_line name.now explanation.now.about.now (string_bytes explanation.now.words)) }
{
    let about = explanation.about;
    let words = explanation.words.as_str();
    format!(in alloc; "npacd: {name}: {about}: {words}\n")
}

/// Appends a line to the file at `path`, or writes it to standard error if that is `-`. A failure is
/// ignored.
pub(crate) fn append_line(rt: &HostRuntime, path: &str, line: &str) {
    if path == "-" {
        let stderr = rt.stderr();
        let mut errors = io::writer(&stderr);
        let _sent = send_all(&mut errors, line.as_bytes(), true);
        return;
    }
    if let Ok(mut file) = File::options().append(true).create(true).open(rt, path) {
        let _sent = send_all(&mut file, line.as_bytes(), true);
    }
}

// Appends the line of an explanation. A failure is ignored.
fn append(rt: &HostRuntime, path: &str, name: &str, explanation: &Explanation<'_>) {
    if let Ok(line) = explanation_line(rt.alloc(), name, explanation) {
        append_line(rt, path, line.as_str());
    }
}

/// Appends a line to the file at `path`, or writes it to standard error if that is `-`: the name of
/// a fault, what it is about, and why it came. A failure is ignored.
pub(crate) fn append_explanation(
    rt: &HostRuntime,
    path: &str,
    name: &str,
    about: &str,
    words: String,
) {
    append(rt, path, name, &Explanation { about, words });
}

// Explains a fault in one line of the file at `path`, or of standard error.
fn explain_at(rt: &HostRuntime, parsed: &Parsed<'_>, fault: Fault, path: &str) {
    if let Ok(explanation) = explanation_of(rt, parsed, fault) {
        append(rt, path, fault.name(), &explanation);
    }
}

/// Explains how a command line was executed, if it ended with a fault: what the fault is about, and
/// why it came, in one line where `--explain` says. Examines the files that it may be about, after
/// the fault. A failure is ignored.
///
/// Not proved: that the words are those of the files.
pub(crate) fn explain(rt: &HostRuntime, parsed: &Parsed<'_>, outcome: Result<(), Fault>) {
    if let (Err(fault), Some(path)) = (outcome, explain_path(parsed)) {
        explain_at(rt, parsed, fault, path);
    }
}
