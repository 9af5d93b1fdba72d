//! Plays a story, connection by connection. A file of commands, an export or an audit may take the
//! place of a connection.
use crate::fault::Fault;
use api::{End, NoTicks, Options, Served, serve};
use bulk::{BulkFault, FaultKind, audit, export, run_file};
use numbers::Spid;
use register::Register;
use settle::Store;
use sql_store::SqlStore;
use std::alloc::Global;
use std::io;
use std::io::{Read, Write};
use store::MemoryStore;
use windows::Windows;

/// The byte between the connections of a story.
pub const BREAK: u8 = 30;

/// The byte before a file in place of a connection.
pub const FILE: u8 = 29;

/// A reader of bytes, in pieces of at most this size.
#[derive(Drop)]
pub struct Pieces<'a> {
    pub rest: &'a [u8],
    pub size: usize,
}

impl<'a> Pieces<'a> {
    /// Creates a reader of all the bytes in one piece.
    pub fn whole(rest: &'a [u8]) -> Pieces<'a> {
        Pieces {
            rest,
            size: usize::MAX,
        }
    }
}

impl Read for Pieces<'_> {
    fn read(&mut self, buf: &mut [u8]) -> io::Result<usize> {
        let count = self.rest.len().min(buf.len()).min(self.size);
        let (piece, rest) = self.rest.split_at(count);
        buf[..count].copy_from_slice(piece);
        self.rest = rest;
        Ok(count)
    }
}

fn end_name(end: End) -> &'static str {
    match end {
        End::Input => "input",
        End::Closed => "closed",
        End::Refused(fault) => fault.name(),
    }
}

// Returns how many messages were answered, and how serving ended.
fn outcome_of(served: Result<Served, api::Fault>) -> (u64, &'static str) {
    match served {
        Ok(served) => (served.count, end_name(served.end)),
        Err(api::Fault::Read(count)) => (count, "read"),
        Err(api::Fault::Write(count)) => (count, "write"),
        Err(api::Fault::Memory(count)) => (count, "no_memory"),
    }
}

// Returns how many rows were written after the header, and how the file ended.
fn outcome_of_file(written: Result<u64, BulkFault>) -> (u64, &'static str) {
    match written {
        Ok(rows) => (rows, "written"),
        Err(fault) => (fault.rows, fault.kind.name()),
    }
}

// Audits the copy of the carrier that is named.
fn audit_copy<S: Store>(
    alloc: Global,
    register: &mut Register<S>,
    name: &str,
    copy: Pieces<'_>,
    output: &mut Vec<u8>,
) -> Result<u64, BulkFault> {
    match Spid::read(name) {
        Some(carrier) => audit(alloc, register, carrier, copy, output),
        None => Err(BulkFault {
            kind: FaultKind::UnknownCarrier,
            rows: 0,
        }),
    }
}

// Runs a file of commands, exports, or audits a copy, as the line before the bytes says.
fn write_file<S: Store>(
    alloc: Global,
    register: &mut Register<S>,
    line: &[u8],
    file: Pieces<'_>,
    output: &mut Vec<u8>,
) -> Result<u64, BulkFault> {
    match line.strip_prefix(b"audit ") {
        Some(name) => {
            let name = str::from_utf8(name).unwrap_or("");
            audit_copy(alloc, register, name, file, output)
        }
        None if line == b"bulk ".as_slice() => run_file(alloc, register, file, output),
        None => export(alloc, register, output),
    }
}

// Splits off the first line.
fn split_line(bytes: &[u8]) -> (&[u8], &[u8]) {
    for (place, byte) in bytes.iter().enumerate() {
        if *byte == b'\n' {
            let after = bytes.get(place.saturating_add(1)..);
            return (
                bytes.split_at(place.min(bytes.len())).0,
                after.unwrap_or(&[]),
            );
        }
    }
    (bytes, &[])
}

fn serve_messages<S: Store>(
    alloc: Global,
    register: &mut Register<S>,
    mut connection: Pieces<'_>,
    output: &mut Vec<u8>,
) -> (u64, &'static str) {
    let options = Options { clock_route: true };
    let reader = &mut connection;
    outcome_of(serve(alloc, register, &mut NoTicks, &options, reader, output))
}

/// Serves a connection or a file, and appends what it writes. Returns how many messages were
/// answered or rows written, and how it ended.
pub fn serve_connection<S: Store>(
    alloc: Global,
    register: &mut Register<S>,
    connection: Pieces<'_>,
    output: &mut Vec<u8>,
) -> (u64, &'static str) {
    match connection.rest.split_first() {
        Some((first, file)) if *first == FILE => {
            let (line, rest) = split_line(file);
            let file = Pieces {
                rest,
                size: connection.size,
            };
            outcome_of_file(write_file(alloc, register, line, file, output))
        }
        _ => serve_messages(alloc, register, connection, output),
    }
}

/// Writes the line that follows the responses of a connection.
pub fn write_end(output: &mut Vec<u8>, count: u64, ending: &str) -> io::Result<()> {
    writeln!(output, "\n{count} answered, {ending}")
}

fn serve_story<S: Store>(
    alloc: Global,
    register: &mut Register<S>,
    story: &[u8],
    size: usize,
) -> io::Result<Vec<u8>> {
    let mut output = Vec::new(alloc);
    for rest in story.split(|byte| *byte == BREAK) {
        let (count, ending) = serve_connection(alloc, register, Pieces { rest, size }, &mut output);
        write_end(&mut output, count, ending)?;
    }
    Ok(output)
}

/// Opens a new register in memory.
pub fn new_register(alloc: Global, windows: &Windows) -> Result<Register<MemoryStore>, Fault> {
    match Register::open(alloc, MemoryStore::new(alloc), windows) {
        Ok(register) => Ok(register),
        Err((_store, fault)) => Err(Fault::from(fault)),
    }
}

// Plays a story over a store, in pieces of at most this size. Returns the responses, and the store
// afterwards.
fn play_over<S: Store>(
    alloc: Global,
    windows: &Windows,
    store: S,
    story: &[u8],
    size: usize,
) -> (Result<Vec<u8>, Fault>, S) {
    match Register::open(alloc, store, windows) {
        Ok(mut register) => {
            let output = serve_story(alloc, &mut register, story, size);
            (output.map_err(Fault::Io), register.close())
        }
        Err((store, fault)) => (Err(Fault::from(fault)), store),
    }
}

/// Returns the responses to a story's connections, which are served in order to a new register in
/// memory, in pieces of at most this size, and how often its store failed.
pub fn play(
    alloc: Global,
    windows: &Windows,
    story: &[u8],
    size: usize,
) -> Result<(Vec<u8>, u64), Fault> {
    let (output, store) = play_over(alloc, windows, MemoryStore::new(alloc), story, size);
    Ok((output?, store.failures()))
}

/// Returns the responses of a new register over a database in memory, and how often its store
/// failed.
pub fn play_stored(
    alloc: Global,
    windows: &Windows,
    story: &[u8],
) -> Result<(Vec<u8>, u64), Fault> {
    let store = SqlStore::in_memory(alloc)?;
    let (output, store) = play_over(alloc, windows, store, story, usize::MAX);
    let failures = store.failures();
    let _database = store.release().into_store();
    Ok((output?, failures))
}
