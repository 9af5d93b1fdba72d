//! Reports how the program ends, and returns its exit status.
ghost use Rattle.std.specs.Prelude.{◌≡◌, OnErr, OnOk, string_bytes};
ghost use Rattle.std.specs.Io.KnownBytes.{Appends};
ghost use Rattle.http_messages.specs.Sending.{AppendsPrefix};
ghost use Rattle.cli.specs.Reporting.{ReportsFault, ReportsMistake, ReportsOutcome, ReportsUsage, line_of};

use crate::fault::Fault;
use command_line::parse::Usage;
use http_messages::send_all;
use std::io;
use std::io::Write;

// Writes one line of the program's name and `name`.
fn write_line<E: Write>(errors: &mut E, name: &str) -> io::Result<()>
    ensures ok { OnOk result (Appends (E.contents errors.old) (E.contents errors.new)
        (line_of name.now)) }
    ensures err { OnErr result (AppendsPrefix (E.contents errors.old) (E.contents errors.new)
        (line_of name.now)) }
{
    send_all(errors, "npacd: ".as_bytes(), false)?;
    send_all(errors, name.as_bytes(), false)?;
    send_all(errors, "\n".as_bytes(), true)
}

/// Reports a fault in one line on `errors`. Returns the fault's exit status, or 3 if the line
/// cannot be written.
pub fn report_fault<E: Write>(errors: &mut E, fault: Fault) -> u8
    ensures { ReportsFault fault (E.contents errors.old) (E.contents errors.new) result }
{
    match write_line(errors, fault.name()) {
        Ok(()) => fault.status(),
        Err(_) => 3,
    }
}

/// Reports how a command line was executed: nothing and 0 on success, otherwise the fault.
pub fn report_outcome<E: Write>(errors: &mut E, outcome: Result<(), Fault>) -> u8
    ensures { ReportsOutcome outcome (E.contents errors.old) (E.contents errors.new) result }
{
    match outcome {
        Ok(()) => 0,
        Err(fault) => report_fault(errors, fault),
    }
}

// Reports a mistake in the command line on `errors`.
fn report_mistake<E: Write>(errors: &mut E, text: &str) -> u8
    ensures { ReportsMistake text.now (E.contents errors.old) (E.contents errors.new) result }
{
    match send_all(errors, text.as_bytes(), true) {
        Ok(()) => 2,
        Err(_) => 3,
    }
}

/// Reports why there is no command line to execute: help goes to `writer` with status 0, a mistake
/// to `errors` with status 2. If an allocation failed or help cannot be written, reports that
/// fault.
pub fn report_usage<W: Write, E: Write>(writer: &mut W, errors: &mut E, usage: &Usage) -> u8
    ensures { ReportsUsage usage.now.status (string_bytes usage.now.text) (W.contents writer.old)
        (W.contents writer.new) (E.contents errors.old) (E.contents errors.new) result }
{
    let text = usage.text.as_str();
    match usage.status {
        0 => match send_all(writer, text.as_bytes(), true) {
            Ok(()) => 0,
            Err(_) => report_fault(errors, Fault::Write),
        },
        2 => report_mistake(errors, text),
        _ => report_fault(errors, Fault::NoMemory),
    }
}
