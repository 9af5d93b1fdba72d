//! Reads the options of a subcommand.
ghost use Rattle.std.specs.Prelude.{◌≡◌, IfErr, IfOk, option_map, codes};
ghost use Rattle.http_messages.specs.Fields.{number_of as number_in};
ghost use Rattle.clap.specs.Words.{first_of, rows_of, found_of};
ghost use Rattle.command_line.specs.CommandLine.{AreLimits, AreNoLimits, AreNoWindows, AreWindowsIn, IsLineOf, IsOverFile, IsOverNoFile, IsNoLineOf, IsNoNumber, IsNoParsedOf, IsNoSubcommand, IsNoTn, IsTnIfAny, IsNumberIfAny, IsNumberOr, IsParsedOf, IsSubcommand, has_flag, number_under, small_number};

use crate::parse::{CommandLine, FileLine, Parsed, ServeLimits, Subcommand, WindowsSource};
use clap::ArgMatches;
use http_messages::read_number;
use numbers::Tn;

// How many connections are served at once, unless the command line says it.
const AT_ONCE: u16 = 128;

// How many messages share a commit at most, unless the command line says it.
const GROUP: u16 = 256;

// How many seconds a message may take, unless the command line says it.
const MESSAGE_SECONDS: u16 = 10;

// How many seconds a connection may stay silent between messages, unless the command line says it.
const IDLE_SECONDS: u16 = 30;

// How many seconds a client may take no bytes, unless the command line says it.
const SENDING_SECONDS: u16 = 10;

/// The fault that `clap` found no known subcommand, or not its options.
#[derive(Clone, Copy, PartialEq, Eq, Debug)]
pub struct NoLine;

fn text_of<'a>(matches: &ArgMatches<'a>, id: &str) -> Option<&'a str>
    ensures { option_map (λ s. s.now) result ≡ first_of id.now (rows_of (found_of matches.now)) }
{
    matches.get_str(id)
}

// Returns whether a flag is given.
fn has_flag(matches: &ArgMatches<'_>, id: &str) -> bool
    ensures { result ≡ has_flag id.now (rows_of (found_of matches.now)) }
{
    match text_of(matches, id) {
        Some(text) => text == "true",
        None => false,
    }
}

// Returns the number below 2^16 that a text has in digits, if it is one.
fn number_of(text: &str) -> Option<u16>
    ensures { result ≡ small_number (number_in text.now) }
{
    let number = read_number(text.as_bytes())?;
    if number > 65_535 {
        return None;
    }
    Some(number as u16)
}

// Returns the number given for an option.
fn number_under(matches: &ArgMatches<'_>, id: &str) -> Option<u16>
    ensures { result ≡ number_under id.now (rows_of (found_of matches.now)) }
{
    number_of(text_of(matches, id)?)
}

// Returns the number given for an option, or `None` if the option is not given.
fn number_if_any(matches: &ArgMatches<'_>, id: &str) -> Result<Option<u16>, NoLine>
    ensures given { IfOk result (IsNumberIfAny id.now (rows_of (found_of matches.now))) }
    ensures none { IfErr result (λ _. IsNoNumber id.now (rows_of (found_of matches.now))) }
{
    if text_of(matches, id).is_none() {
        return Ok(None);
    }
    match number_under(matches, id) {
        Some(number) => Ok(Some(number)),
        None => Err(NoLine),
    }
}

// Returns the number given for an option, or `default` if the option is not given.
fn number_or(matches: &ArgMatches<'_>, id: &str, default: u16) -> Result<u16, NoLine>
    ensures given { IfOk result (IsNumberOr id.now default (rows_of (found_of matches.now))) }
    ensures none { IfErr result (λ _. IsNoNumber id.now (rows_of (found_of matches.now))) }
{
    Ok(number_if_any(matches, id)?.unwrap_or(default))
}

// Returns the limits of `serve`.
fn limits_of(matches: &ArgMatches<'_>) -> Result<ServeLimits, NoLine>
    ensures given { IfOk result (AreLimits (rows_of (found_of matches.now))) }
    ensures none { IfErr result (λ _. AreNoLimits (rows_of (found_of matches.now))) }
{
    Ok(ServeLimits {
        at_once: number_or(matches, "at-once", AT_ONCE)?,
        group: number_or(matches, "group", GROUP)?,
        message: number_or(matches, "message-limit", MESSAGE_SECONDS)?,
        idle: number_or(matches, "idle-limit", IDLE_SECONDS)?,
        sending: number_or(matches, "sending-limit", SENDING_SECONDS)?,
    })
}

// Returns the port, the number of connections, the limits and the log of `serve`.
fn serve_of<'a>(matches: &ArgMatches<'a>) -> Result<Subcommand<'a>, NoLine>
    ensures given { IfOk result (IsSubcommand (codes "serve") (rows_of (found_of matches.now))) }
    ensures none { IfErr result (λ _. IsNoSubcommand (codes "serve")
        (rows_of (found_of matches.now))) }
{
    let Some(port) = number_under(matches, "port") else {
        return Err(NoLine);
    };
    let connections = number_if_any(matches, "connections")?;
    Ok(Subcommand::Serve {
        port,
        connections,
        limits: limits_of(matches)?,
        log: text_of(matches, "log"),
    })
}

// Returns the carrier of `audit`.
fn audit_of<'a>(matches: &ArgMatches<'a>) -> Result<Subcommand<'a>, NoLine>
    ensures given { IfOk result (IsSubcommand (codes "audit") (rows_of (found_of matches.now))) }
    ensures none { IfErr result (λ _. IsNoSubcommand (codes "audit")
        (rows_of (found_of matches.now))) }
{
    match text_of(matches, "spid") {
        Some(spid) => Ok(Subcommand::Audit { spid }),
        None => Err(NoLine),
    }
}

fn subcommand_of<'a>(name: &str, matches: &ArgMatches<'a>) -> Result<Subcommand<'a>, NoLine>
    ensures given { IfOk result (IsSubcommand name.now (rows_of (found_of matches.now))) }
    ensures none { IfErr result (λ _. IsNoSubcommand name.now (rows_of (found_of matches.now))) }
{
    if name == "feed" {
        return Ok(Subcommand::Feed);
    }
    if name == "bulk" {
        let strict = has_flag(matches, "strict");
        return Ok(Subcommand::Bulk { strict });
    }
    if name == "export" {
        return Ok(Subcommand::Export);
    }
    if name == "audit" {
        return audit_of(matches);
    }
    if name == "serve" {
        return serve_of(matches);
    }
    Err(NoLine)
}

// Returns where the windows are. `present` says whether `--present-windows` is given.
fn source_of<'a>(present: bool, matches: &ArgMatches<'a>) -> Result<WindowsSource<'a>, NoLine>
    ensures given { IfOk result (AreWindowsIn present (rows_of (found_of matches.now))) }
    ensures none { IfErr result (λ _. AreNoWindows present (rows_of (found_of matches.now))) }
{
    let windows = text_of(matches, "windows");
    if !present {
        return match windows {
            Some(path) => Ok(WindowsSource::File(path)),
            None => Err(NoLine),
        };
    }
    match (windows, text_of(matches, "db")) {
        (None, Some(path)) => Ok(WindowsSource::Database(path)),
        _ => Err(NoLine),
    }
}

// Returns the command line of a subcommand over a register, and its matches.
fn line_of<'a>(
    present: bool,
    name: &str,
    matches: &ArgMatches<'a>,
) -> Result<CommandLine<'a>, NoLine>
    ensures given { IfOk result (IsLineOf present name.now (rows_of (found_of matches.now))) }
    ensures none { IfErr result (λ _. IsNoLineOf present name.now (rows_of (found_of matches.now))) }
{
    let subcommand = subcommand_of(name, matches)?;
    let snapshot = has_flag(matches, "snapshot");
    let db = text_of(matches, "db");
    if snapshot && db.is_none() {
        return Err(NoLine);
    }
    match source_of(present, matches) {
        Ok(windows) => Ok(CommandLine {
            subcommand,
            windows,
            feed: text_of(matches, "feed"),
            db,
            existing: has_flag(matches, "existing"),
            explain: text_of(matches, "explain"),
            progress: has_flag(matches, "progress"),
            snapshot,
        }),
        Err(_) => Err(NoLine),
    }
}

// Returns the file of a subcommand that opens no register.
fn over_file<'a>(matches: &ArgMatches<'a>) -> Result<FileLine<'a>, NoLine>
    ensures given { IfOk result (IsOverFile (rows_of (found_of matches.now))) }
    ensures none { IfErr result (λ _. IsOverNoFile (rows_of (found_of matches.now))) }
{
    match text_of(matches, "db") {
        Some(db) => Ok(FileLine {
            db,
            explain: text_of(matches, "explain"),
        }),
        None => Err(NoLine),
    }
}

// Returns the line of `windows`.
fn windows_of<'a>(present: bool, matches: &ArgMatches<'a>) -> Result<Parsed<'a>, NoLine>
    ensures given { IfOk result
        (IsParsedOf present (codes "windows") (rows_of (found_of matches.now))) }
    ensures none { IfErr result (λ _. IsNoParsedOf present (codes "windows")
        (rows_of (found_of matches.now))) }
{
    match over_file(matches) {
        Ok(line) => Ok(Parsed::Windows(line)),
        Err(_) => Err(NoLine),
    }
}

// Returns the line of `check`.
fn check_of<'a>(present: bool, matches: &ArgMatches<'a>) -> Result<Parsed<'a>, NoLine>
    ensures given { IfOk result
        (IsParsedOf present (codes "check") (rows_of (found_of matches.now))) }
    ensures none { IfErr result (λ _. IsNoParsedOf present (codes "check")
        (rows_of (found_of matches.now))) }
{
    match over_file(matches) {
        Ok(line) => Ok(Parsed::Check(line)),
        Err(_) => Err(NoLine),
    }
}

// Returns the telephone number given for `--number`, or `None` if it is not given.
fn tn_if_any(matches: &ArgMatches<'_>) -> Result<Option<Tn>, NoLine>
    ensures given { IfOk result (IsTnIfAny (rows_of (found_of matches.now))) }
    ensures none { IfErr result (λ _. IsNoTn (rows_of (found_of matches.now))) }
{
    match text_of(matches, "number") {
        Some(text) => match Tn::read(text) {
            Some(tn) => Ok(Some(tn)),
            None => Err(NoLine),
        },
        None => Ok(None),
    }
}

// Returns the files and the number of `report`.
fn report_of<'a>(present: bool, matches: &ArgMatches<'a>) -> Result<Parsed<'a>, NoLine>
    ensures given { IfOk result
        (IsParsedOf present (codes "report") (rows_of (found_of matches.now))) }
    ensures none { IfErr result (λ _. IsNoParsedOf present (codes "report")
        (rows_of (found_of matches.now))) }
{
    let number = tn_if_any(matches)?;
    match (over_file(matches), text_of(matches, "to")) {
        (Ok(line), Some(to)) => Ok(Parsed::Report { line, to, number }),
        _ => Err(NoLine),
    }
}

// Returns the line of `backup`.
fn backup_of<'a>(present: bool, matches: &ArgMatches<'a>) -> Result<Parsed<'a>, NoLine>
    ensures given { IfOk result
        (IsParsedOf present (codes "backup") (rows_of (found_of matches.now))) }
    ensures none { IfErr result (λ _. IsNoParsedOf present (codes "backup")
        (rows_of (found_of matches.now))) }
{
    let line = over_file(matches)?;
    match text_of(matches, "to") {
        Some(to) => Ok(Parsed::Backup { line, to }),
        None => Err(NoLine),
    }
}

// Returns the line of `repair`.
fn repair_of<'a>(present: bool, matches: &ArgMatches<'a>) -> Result<Parsed<'a>, NoLine>
    ensures given { IfOk result
        (IsParsedOf present (codes "repair") (rows_of (found_of matches.now))) }
    ensures none { IfErr result (λ _. IsNoParsedOf present (codes "repair")
        (rows_of (found_of matches.now))) }
{
    let line = over_file(matches)?;
    match text_of(matches, "to") {
        Some(to) => Ok(Parsed::Repair { line, to }),
        None => Err(NoLine),
    }
}

/// Returns what a subcommand and its matches ask for. `present` says whether `--present-windows` is
/// given.
pub fn parsed_of<'a>(
    present: bool,
    name: &str,
    matches: &ArgMatches<'a>,
) -> Result<Parsed<'a>, NoLine>
    ensures given { IfOk result (IsParsedOf present name.now (rows_of (found_of matches.now))) }
    ensures none { IfErr result (λ _. IsNoParsedOf present name.now
        (rows_of (found_of matches.now))) }
{
    if name == "windows" {
        return windows_of(present, matches);
    }
    if name == "check" {
        return check_of(present, matches);
    }
    if name == "backup" {
        return backup_of(present, matches);
    }
    if name == "repair" {
        return repair_of(present, matches);
    }
    if name == "report" {
        return report_of(present, matches);
    }
    match line_of(present, name, matches) {
        Ok(line) => Ok(Parsed::Line(line)),
        Err(_) => Err(NoLine),
    }
}
