//! Declares the command line for `clap`.
ghost use Rattle.std.specs.Prelude.{◌≡◌, IfOk, codes, false};
ghost use Rattle.clap.specs.Words.{app_of, rule_of, new_app, with_rule, with_subcommand};
ghost use Rattle.clap.specs.declared.builder.command.Command.TheViews.{out-Command};
ghost use Rattle.command_line.specs.CommandLine.{audit_app, bulk_app, file_app, flag_rule, npacd_app, number_rule, option_rule, plain_app, reading_app, report_app, serve_app, with_database, with_files, with_inspection, with_limits, with_serving, with_sources, with_version, with_wanted_subcommand, writing_app};

use clap::builder::ValueParser;
use clap::{Arg, ArgAction, Command};
use std::alloc::{AllocError, Global};

// The version that `--version` prints after the program's name.
const VERSION: &str = "0.1.0";

// Creates an option `--id VALUE` with its line of help.
fn option<'a>(alloc: Global, id: &'a str, value: &'a str, help: &'a str, required: bool) -> Arg<'a>
    ensures rule { rule_of result ≡ option_rule id.entry.now required }
    ensures local { result.global ≡ false }
{
    Arg::new(alloc, id)
        .long(id)
        .value_name(value)
        .help(help)
        .required(required)
}

// Creates an option with a whole number from 1 to `most` as its value.
fn number_up_to<'a>(
    alloc: Global,
    most: u64,
    id: &'a str,
    value: &'a str,
    help: &'a str,
    required: bool,
) -> Arg<'a>
    ensures rule { rule_of result ≡ number_rule id.entry.now most required }
    ensures local { result.global ≡ false }
{
    let parser = ValueParser::unsigned(1, most);
    option(alloc, id, value, help, required).value_parser(parser)
}

// Creates an option with a whole number from 1 to 65535 as its value.
fn number<'a>(alloc: Global, id: &'a str, value: &'a str, help: &'a str, required: bool) -> Arg<'a>
    ensures rule { rule_of result ≡ number_rule id.entry.now 65535 required }
    ensures local { result.global ≡ false }
{
    number_up_to(alloc, 65_535, id, value, help, required)
}

// Adds an option to a command.
fn with_option<'a>(
    alloc: Global,
    command: Command<'a>,
    id: &'a str,
    value: &'a str,
    help: &'a str,
    required: bool,
) -> Result<Command<'a>, AllocError>
    requires { (out-Command command).has_globals ≡ false }
    ensures { IfOk result (λ c.
        (app_of c ≡ with_rule (app_of command.entry) (option_rule id.entry.now required))
        × ((out-Command c).has_globals ≡ false)) }
{
    command.arg(option(alloc, id, value, help, required))
}

// Creates a flag `--id` with its line of help.
fn flag<'a>(alloc: Global, id: &'a str, help: &'a str) -> Arg<'a>
    ensures rule { rule_of result ≡ flag_rule id.entry.now }
    ensures local { result.global ≡ false }
{
    Arg::new(alloc, id)
        .long(id)
        .help(help)
        .action(ArgAction::SetTrue)
}

// Adds a flag to a command.
fn with_flag<'a>(
    alloc: Global,
    command: Command<'a>,
    id: &'a str,
    help: &'a str,
) -> Result<Command<'a>, AllocError>
    requires { (out-Command command).has_globals ≡ false }
    ensures { IfOk result (λ c.
        (app_of c ≡ with_rule (app_of command.entry) (flag_rule id.entry.now))
        × ((out-Command c).has_globals ≡ false)) }
{
    command.arg(flag(alloc, id, help))
}

// Adds the options that say where the windows are: a file of theirs, or, if `present`, the database.
fn with_sources<'a>(
    alloc: Global,
    command: Command<'a>,
    present: bool,
) -> Result<Command<'a>, AllocError>
    requires { (out-Command command).has_globals ≡ false }
    ensures { IfOk result (λ c. (app_of c ≡ with_sources present (app_of command.entry))
        × ((out-Command c).has_globals ≡ false)) }
{
    let help = "The windows, in TOML";
    let command = with_option(alloc, command, "windows", "FILE", help, !present)?;
    let help = "Go on with the present windows of the database, in place of --windows";
    with_flag(alloc, command, "present-windows", help)
}

// Adds the options of a database, which is `required` or not. `help` is the help of `--db`.
fn with_database<'a>(
    alloc: Global,
    command: Command<'a>,
    required: bool,
    help: &'a str,
) -> Result<Command<'a>, AllocError>
    requires { (out-Command command).has_globals ≡ false }
    ensures { IfOk result (λ c. (app_of c ≡ with_database required (app_of command.entry))
        × ((out-Command c).has_globals ≡ false)) }
{
    let command = with_option(alloc, command, "db", "FILE", help, required)?;
    let help = "Refuse a database that does not exist";
    let command = with_flag(alloc, command, "existing", help)?;
    let help = "Append a line that explains a fault; - is standard error";
    with_option(alloc, command, "explain", "FILE", help, false)
}

// Creates a subcommand with the options that each subcommand over a register has.
fn plain<'a>(
    alloc: Global,
    present: bool,
    name: &'a str,
    about: &'a str,
) -> Result<Command<'a>, AllocError>
    ensures { IfOk result
        (λ c. (app_of c ≡ plain_app present name.entry.now) × ((out-Command c).has_globals ≡ false)) }
{
    let command = Command::new(alloc, name).about(about);
    let command = with_sources(alloc, command, present)?;
    let help = "HTTP messages that are served first, their answers dropped";
    let command = with_option(alloc, command, "feed", "FILE", help, false)?;
    let help = "The database of the register, in place of memory";
    let command = with_database(alloc, command, present, help)?;
    let help = "Write the rows so far to standard error, a second apart";
    with_flag(alloc, command, "progress", help)
}

// Adds an option with a whole number from 1 to `most` to a command.
fn with_number<'a>(
    alloc: Global,
    command: Command<'a>,
    most: u64,
    id: &'a str,
    value: &'a str,
    help: &'a str,
) -> Result<Command<'a>, AllocError>
    requires { (out-Command command).has_globals ≡ false }
    ensures { IfOk result (λ c.
        (app_of c ≡ with_rule (app_of command.entry) (number_rule id.entry.now most false))
        × ((out-Command c).has_globals ≡ false)) }
{
    command.arg(number_up_to(alloc, most, id, value, help, false))
}

// Adds the options that limit connections, and how many messages share a commit.
fn with_limits<'a>(alloc: Global, command: Command<'a>) -> Result<Command<'a>, AllocError>
    requires { (out-Command command).has_globals ≡ false }
    ensures { IfOk result (λ c. (app_of c ≡ with_limits (app_of command.entry))
        × ((out-Command c).has_globals ≡ false)) }
{
    let help = "Serve so many connections at once; 128 if not given";
    let command = with_number(alloc, command, 1024, "at-once", "M", help)?;
    let help = "Execute up to so many messages in one commit; 256 if not given";
    let command = with_number(alloc, command, 256, "group", "N", help)?;
    let help = "Close a connection whose message takes longer; 10 if not given";
    let command = with_number(alloc, command, 65_535, "message-limit", "SECONDS", help)?;
    let help = "Close a connection that is silent for longer between messages; 30 if not given";
    let command = with_number(alloc, command, 65_535, "idle-limit", "SECONDS", help)?;
    let help = "Close a connection that takes no bytes of a response for longer; 10 if not given";
    with_number(alloc, command, 65_535, "sending-limit", "SECONDS", help)
}

// Creates the subcommand that listens to a port.
fn serve<'a>(alloc: Global, present: bool) -> Result<Command<'a>, AllocError>
    ensures { IfOk result (λ c. (app_of c ≡ serve_app present) × ((out-Command c).has_globals ≡ false)) }
{
    let command = plain(
        alloc,
        present,
        "serve",
        "Serve connections to a port of this machine",
    )?;
    let port = number(alloc, "port", "PORT", "The port of 127.0.0.1", true);
    let connections = number(
        alloc,
        "connections",
        "N",
        "End after so many connections",
        false,
    );
    let log = option(
        alloc,
        "log",
        "FILE",
        "Append a line for each connection; - is standard error",
        false,
    );
    with_limits(alloc, command.arg(port)?.arg(connections)?.arg(log)?)
}

// Creates a subcommand that only reads the register.
fn reading<'a>(
    alloc: Global,
    present: bool,
    name: &'a str,
    about: &'a str,
) -> Result<Command<'a>, AllocError>
    ensures { IfOk result
        (λ c. (app_of c ≡ reading_app present name.entry.now) × ((out-Command c).has_globals ≡ false)) }
{
    let command = plain(alloc, present, name, about)?;
    let help = "Read a copy of the database, also while a program has it open";
    with_flag(alloc, command, "snapshot", help)
}

// Creates the subcommand that compares a carrier's copy.
fn audit<'a>(alloc: Global, present: bool) -> Result<Command<'a>, AllocError>
    ensures { IfOk result (λ c. (app_of c ≡ audit_app present) × ((out-Command c).has_globals ≡ false)) }
{
    let about = "Compare a carrier's copy with what is in force";
    let command = reading(alloc, present, "audit", about)?;
    let spid = option(alloc, "spid", "SPID", "The carrier whose copy it is", true);
    command.arg(spid)
}

// Creates the subcommand that runs a file of commands.
fn bulk<'a>(alloc: Global, present: bool) -> Result<Command<'a>, AllocError>
    ensures { IfOk result
        (λ c. (app_of c ≡ bulk_app present) × ((out-Command c).has_globals ≡ false)) }
{
    let about = "Run a bulk file, and write its report";
    let command = plain(alloc, present, "bulk", about)?;
    let help = "End with status 1 if a row is refused";
    with_flag(alloc, command, "strict", help)
}

// Creates a subcommand over an existing database, which opens no register.
fn over_file<'a>(alloc: Global, name: &'a str, about: &'a str) -> Result<Command<'a>, AllocError>
    ensures { IfOk result
        (λ c. (app_of c ≡ file_app name.entry.now) × ((out-Command c).has_globals ≡ false)) }
{
    let command = Command::new(alloc, name).about(about);
    let help = "The database of the register, which exists";
    with_database(alloc, command, true, help)
}

// Creates a subcommand over an existing database that writes a file too. `help` is the help of `--to`.
fn writing<'a>(
    alloc: Global,
    name: &'a str,
    about: &'a str,
    help: &'a str,
) -> Result<Command<'a>, AllocError>
    ensures { IfOk result
        (λ c. (app_of c ≡ writing_app name.entry.now) × ((out-Command c).has_globals ≡ false)) }
{
    let command = over_file(alloc, name, about)?;
    with_option(alloc, command, "to", "FILE", help, true)
}

// Creates the subcommand that writes a page about a file.
fn report<'a>(alloc: Global) -> Result<Command<'a>, AllocError>
    ensures { IfOk result (λ c. (app_of c ≡ report_app) × ((out-Command c).has_globals ≡ false)) }
{
    let about = "Write a page about a database: what is stuck, and what ends soon";
    let help = "The page, which replaces the file";
    let command = writing(alloc, "report", about, help)?;
    let help = "Show the life of this number too";
    with_option(alloc, command, "number", "TN", help, false)
}

fn with<'a>(command: Command<'a>, part: Command<'a>) -> Result<Command<'a>, AllocError>
    requires { (out-Command part).has_globals ≡ false }
    ensures { IfOk result
        (λ c. app_of c ≡ with_subcommand (app_of command.entry) (app_of part.entry).top) }
{
    command.subcommand(part)
}

fn top<'a>(alloc: Global) -> Command<'a>
    ensures { app_of result ≡ with_wanted_subcommand (with_version (new_app (codes "npacd"))) }
{
    Command::new(alloc, "npacd")
        .about("Number portability clearinghouse")
        .version(VERSION)
        .subcommand_required(true)
}

// Adds a subcommand without other options.
fn with_plain<'a>(
    alloc: Global,
    command: Command<'a>,
    present: bool,
    name: &'a str,
    about: &'a str,
) -> Result<Command<'a>, AllocError>
    ensures { IfOk result (λ c.
        app_of c ≡ with_subcommand (app_of command.entry) (plain_app present name.entry.now).top) }
{
    let part = plain(alloc, present, name, about)?;
    with(command, part)
}

fn with_serve<'a>(
    alloc: Global,
    command: Command<'a>,
    present: bool,
) -> Result<Command<'a>, AllocError>
    ensures { IfOk result (λ c. app_of c ≡ with_subcommand (app_of command.entry) (serve_app present).top) }
{
    let part = serve(alloc, present)?;
    with(command, part)
}

fn with_export<'a>(
    alloc: Global,
    command: Command<'a>,
    present: bool,
) -> Result<Command<'a>, AllocError>
    ensures { IfOk result (λ c. app_of c
        ≡ with_subcommand (app_of command.entry) (reading_app present (codes "export")).top) }
{
    let part = reading(alloc, present, "export", "Write everything in force")?;
    with(command, part)
}

fn with_audit<'a>(
    alloc: Global,
    command: Command<'a>,
    present: bool,
) -> Result<Command<'a>, AllocError>
    ensures { IfOk result (λ c. app_of c ≡ with_subcommand (app_of command.entry) (audit_app present).top) }
{
    let part = audit(alloc, present)?;
    with(command, part)
}

fn with_bulk<'a>(
    alloc: Global,
    command: Command<'a>,
    present: bool,
) -> Result<Command<'a>, AllocError>
    ensures { IfOk result (λ c.
        app_of c ≡ with_subcommand (app_of command.entry) (bulk_app present).top) }
{
    let part = bulk(alloc, present)?;
    with(command, part)
}

fn with_over_file<'a>(
    alloc: Global,
    command: Command<'a>,
    name: &'a str,
    about: &'a str,
) -> Result<Command<'a>, AllocError>
    ensures { IfOk result (λ c.
        app_of c ≡ with_subcommand (app_of command.entry) (file_app name.entry.now).top) }
{
    let part = over_file(alloc, name, about)?;
    with(command, part)
}

fn with_backup<'a>(alloc: Global, command: Command<'a>) -> Result<Command<'a>, AllocError>
    ensures { IfOk result (λ c. app_of c
        ≡ with_subcommand (app_of command.entry) (writing_app (codes "backup")).top) }
{
    let about = "Copy a database, also while a program has it open";
    let help = "The copy, which does not exist yet";
    let part = writing(alloc, "backup", about, help)?;
    with(command, part)
}

fn with_repair<'a>(alloc: Global, command: Command<'a>) -> Result<Command<'a>, AllocError>
    ensures { IfOk result (λ c. app_of c
        ≡ with_subcommand (app_of command.entry) (writing_app (codes "repair")).top) }
{
    let about = "Write the rows of a database whose tables moved, as by a VACUUM, into a new one";
    let help = "The new database, which does not exist yet";
    let part = writing(alloc, "repair", about, help)?;
    with(command, part)
}

fn with_report<'a>(alloc: Global, command: Command<'a>) -> Result<Command<'a>, AllocError>
    ensures { IfOk result (λ c. app_of c ≡ with_subcommand (app_of command.entry) report_app.top) }
{
    let part = report(alloc)?;
    with(command, part)
}

// Adds the subcommands that open no register.
fn with_inspection<'a>(alloc: Global, command: Command<'a>) -> Result<Command<'a>, AllocError>
    ensures { IfOk result (λ c. app_of c ≡ with_inspection (app_of command.entry)) }
{
    let about = "Write the present windows of a database, as a windows file";
    let command = with_over_file(alloc, command, "windows", about)?;
    let about = "Say what a database holds, or why it is refused";
    let command = with_over_file(alloc, command, "check", about)?;
    let command = with_backup(alloc, command)?;
    let command = with_repair(alloc, command)?;
    with_report(alloc, command)
}

// Adds the subcommands that serve messages.
fn with_serving<'a>(
    alloc: Global,
    command: Command<'a>,
    present: bool,
) -> Result<Command<'a>, AllocError>
    ensures { IfOk result (λ c. app_of c ≡ with_serving present (app_of command.entry)) }
{
    let command = with_plain(
        alloc,
        command,
        present,
        "feed",
        "Serve standard input to standard output",
    )?;
    with_serve(alloc, command, present)
}

// Adds the subcommands that read and write files.
fn with_files<'a>(
    alloc: Global,
    command: Command<'a>,
    present: bool,
) -> Result<Command<'a>, AllocError>
    ensures { IfOk result (λ c. app_of c ≡ with_files present (app_of command.entry)) }
{
    let command = with_bulk(alloc, command, present)?;
    let command = with_export(alloc, command, present)?;
    with_audit(alloc, command, present)
}

/// Creates the whole command. `present` says whether `--present-windows` is given: `--db` is then
/// required, and otherwise `--windows`.
pub fn npacd<'a>(alloc: Global, present: bool) -> Result<Command<'a>, AllocError>
    ensures { IfOk result (λ c. app_of c ≡ npacd_app present) }
{
    let command = with_serving(alloc, top(alloc), present)?;
    let command = with_files(alloc, command, present)?;
    with_inspection(alloc, command)
}
