//! Parses command lines.
ghost use Rattle.std.specs.Prelude.{◌≡◌, ◌≢◌, ◌↔◌, ◌⊎◌, IfErr, IfOk, IsTrue, codes, map, string_bytes};
ghost use Rattle.std.specs.List.{list_any};
ghost use Rattle.std.specs.Str.{bytes_eq};
ghost use Rattle.clap.specs.Values.{kind_of};
ghost use Rattle.clap.specs.declared.error.kind.ErrorKind.TheVariants.{DisplayHelp, DisplayVersion, OutOfMemory as NoRoom};
ghost use Rattle.command_line.specs.CommandLine.{IsLine, IsNoLine, HasSecond, wants_present, wants_snapshot};
ghost use Rattle.command_line.specs.Usage.{AsksForHelp, ExplainsMistake, IsMistake, IsUsage, mistake_text};

use crate::command::npacd;
use crate::options::parsed_of;
use clap::Error;
use clap::error::ErrorKind;
use numbers::Tn;
use std::alloc::Global;
use std::convert::AsStr;

/// How many connections are served at once, how many messages share a commit, and how many seconds
/// each connection may wait: for the rest of a message, for the next message, and until the client
/// takes further bytes.
#[derive(Clone, Copy, PartialEq, Eq, Debug)]
pub struct ServeLimits {
    pub at_once: u16,
    pub group: u16,
    pub message: u16,
    pub idle: u16,
    pub sending: u16,
}

/// A subcommand with its own options.
#[derive(Clone, Copy, PartialEq, Eq, Debug)]
pub enum Subcommand<'a> {
    /// Serves standard input to standard output.
    Feed,
    /// Serves connections to a port of this machine: `connections` of them, or without end.
    Serve {
        port: u16,
        connections: Option<u16>,
        limits: ServeLimits,
        /// The path of the log, `-` for standard error, or `None` for no log.
        log: Option<&'a str>,
    },
    /// Runs the bulk file on standard input, and writes its report to standard output.
    Bulk {
        /// Whether a refused row is a fault.
        strict: bool,
    },
    /// Writes everything in force to standard output.
    Export,
    /// Compares the copy on standard input with the register, and writes the findings to standard
    /// output.
    Audit {
        /// The SPID of the carrier whose copy it is, as written on the command line.
        spid: &'a str,
    },
}

/// Where the windows of a register are.
#[derive(Clone, Copy, PartialEq, Eq, Debug)]
pub enum WindowsSource<'a> {
    /// In the windows file at this path.
    File(&'a str),
    /// In the database file at this path, whose present windows they are.
    Database(&'a str),
}

/// A valid command line over a register.
#[derive(Clone, Copy, PartialEq, Eq, Debug)]
pub struct CommandLine<'a> {
    pub subcommand: Subcommand<'a>,
    pub windows: WindowsSource<'a>,
    /// The path of the file with messages to serve first, if there is one.
    pub feed: Option<&'a str>,
    /// The path of the database file, or `None` for a register in memory.
    pub db: Option<&'a str>,
    /// Whether the database file has to exist.
    pub existing: bool,
    /// The path of the file to which the explanation of a fault is appended, `-` for standard error,
    /// or `None` for no explanation.
    pub explain: Option<&'a str>,
    /// Whether standard error gets the number of rows so far, a second apart.
    pub progress: bool,
    /// Whether the subcommand is executed over a copy of the database file.
    pub snapshot: bool,
}

/// A valid command line over an existing file, which opens no register.
#[derive(Clone, Copy, PartialEq, Eq, Debug)]
pub struct FileLine<'a> {
    /// The path of the database file.
    pub db: &'a str,
    /// The path of the file to which the explanation of a fault is appended, `-` for standard error,
    /// or `None` for no explanation.
    pub explain: Option<&'a str>,
}

/// What the words of a command line ask for.
#[derive(Clone, Copy, PartialEq, Eq, Debug)]
pub enum Parsed<'a> {
    /// Writes the present windows of a database file to standard output.
    Windows(FileLine<'a>),
    /// Writes what a database file holds, or why it is refused, to standard output.
    Check(FileLine<'a>),
    /// Copies a database file, also while a program has it open.
    Backup {
        line: FileLine<'a>,
        /// The path of the copy, where nothing is yet.
        to: &'a str,
    },
    /// Writes the rows of a database file, wherever its tables are, into a new file.
    Repair {
        line: FileLine<'a>,
        /// The path of the new file, where nothing is yet.
        to: &'a str,
    },
    /// Writes a page about a database file.
    Report {
        line: FileLine<'a>,
        /// The path of the page.
        to: &'a str,
        /// The number whose life is shown, if there is one.
        number: Option<Tn>,
    },
    /// Executes a subcommand over a register.
    Line(CommandLine<'a>),
}

/// A text for the user and the exit status: 0 for help, 2 for a mistake, 3 without a text if an
/// allocation failed.
#[derive(Debug, Drop)]
pub struct Usage {
    pub text: String,
    pub status: u8,
}

/// Returns the usage for a failed allocation.
pub fn no_memory(alloc: Global) -> Usage
    ensures { result.status ≡ 3 }
{
    Usage {
        text: String::new(alloc),
        status: 3,
    }
}

/// Returns the usage for a mistake that `clap` does not detect, with its text.
pub fn mistake(alloc: Global, why: &str) -> Usage
    ensures status { IsMistake result.status }
    ensures text { result.status ≡ 2 → string_bytes result.text ≡ why.now }
{
    let mut text = String::new(alloc);
    match text.push_str(why) {
        Ok(()) => Usage { text, status: 2 },
        Err(_) => no_memory(alloc),
    }
}

fn usage_of(alloc: Global, error: &Error) -> Usage
    ensures status { IsUsage result.status }
    ensures memory { kind_of error.now ≡ NoRoom → result.status ≡ 3 }
    ensures help { result.status ≡ 0
        → (kind_of error.now ≡ DisplayHelp) ⊎ (kind_of error.now ≡ DisplayVersion) }
    ensures mistake { result.status ≡ 2
        → (kind_of error.now ≢ DisplayHelp) × (kind_of error.now ≢ DisplayVersion) }
{
    if error.kind() == ErrorKind::OutOfMemory {
        return no_memory(alloc);
    }
    match error.to_string(alloc) {
        Ok(text) => Usage {
            text,
            status: if error.use_stderr() { 2 } else { 0 },
        },
        Err(_) => no_memory(alloc),
    }
}

// Returns whether the word after the program's name is `name`. That holds for a subcommand that
// `clap` found.
fn is_second<S: AsStr>(words: &[S], name: &str) -> bool
    ensures { IsTrue result ↔ HasSecond (map S.text words.now) name.now }
{
    match words {
        [_, second, ..] => second.as_str() == name,
        _ => false,
    }
}

// Returns whether a word is `--present-windows`.
fn is_present_flag<S: AsStr>(word: &S) -> bool
    ensures { result ≡ bytes_eq (S.text word.now) (codes "--present-windows") }
{
    word.as_str() == "--present-windows"
}

// Returns whether some word is `--present-windows`.
fn has_present_flag<S: AsStr>(words: &[S]) -> bool
    ensures { result
        ≡ list_any (λ word. bytes_eq (S.text word) (codes "--present-windows")) words.now }
{
    words.iter().any(|word| is_present_flag(word))
}

// Returns whether `--present-windows` is among the words.
fn wants_present<S: AsStr>(words: &[S]) -> bool
    ensures { result ≡ wants_present (map S.text words.now) }
{
    has_present_flag(words)
}

// Returns whether a word is `--snapshot`.
fn is_snapshot_flag<S: AsStr>(word: &S) -> bool
    ensures { result ≡ bytes_eq (S.text word.now) (codes "--snapshot") }
{
    word.as_str() == "--snapshot"
}

// Returns whether some word is `--snapshot`.
fn has_snapshot_flag<S: AsStr>(words: &[S]) -> bool
    ensures { result ≡ list_any (λ word. bytes_eq (S.text word) (codes "--snapshot")) words.now }
{
    words.iter().any(|word| is_snapshot_flag(word))
}

// Returns whether `--snapshot` is among the words.
fn wants_snapshot<S: AsStr>(words: &[S]) -> bool
    ensures { result ≡ wants_snapshot (map S.text words.now) }
{
    has_snapshot_flag(words)
}

// Returns the usage for words that `clap` accepts and that are no command line.
fn no_line(alloc: Global, present: bool, snapshot: bool) -> Usage
    ensures status { IsMistake result.status }
    ensures text { result.status ≡ 2 → string_bytes result.text ≡ mistake_text present snapshot }
{
    if present {
        return mistake(
            alloc,
            "error: --windows stands beside --present-windows, or a number is not in digits\n",
        );
    }
    if snapshot {
        return mistake(alloc, "error: --snapshot stands without --db\n");
    }
    mistake(alloc, "error: a number is written in digits\n")
}

/// Parses the words of a command line, starting with the program's name.
///
/// # Errors
///
/// A text for the user with an exit status:
/// - 0 if the words ask for help or for the version;
/// - 2 if `clap` refuses them, with its text, if a number is not written in digits, if both
///   `--windows` and `--present-windows` are given, or `--snapshot` without `--db`;
/// - 3 if an allocation failed.
pub fn parse<'a, S: AsStr>(alloc: Global, words: &'a [S]) -> Result<Parsed<'a>, Usage>
    ensures line { IfOk result (IsLine (map S.text words.entry.now)) }
    ensures status { IfErr result (λ usage. IsUsage usage.status) }
    ensures help { IfErr result (λ usage. usage.status ≡ 0
        → AsksForHelp (map S.text words.entry.now)) }
    ensures mistake { IfErr result (λ usage. usage.status ≡ 2
        → ExplainsMistake (map S.text words.entry.now) (string_bytes usage.text)) }
    ensures refused { IfErr result (λ usage. usage.status ≢ 3
        → IsNoLine (map S.text words.entry.now)) }
{
    let present = wants_present(words);
    let command = match npacd(alloc, present) {
        Ok(command) => command,
        Err(_) => return Err(no_memory(alloc)),
    };
    let matches = match command.try_get_matches_from(words) {
        Ok(matches) => matches,
        Err(error) => return Err(usage_of(alloc, &error)),
    };
    match matches.subcommand() {
        Some((name, found)) if is_second(words, name) => match parsed_of(present, name, found) {
            Ok(parsed) => Ok(parsed),
            Err(_) => Err(no_line(alloc, present, wants_snapshot(words))),
        },
        _ => Err(no_memory(alloc)),
    }
}
