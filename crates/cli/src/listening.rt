//! Serves connections to a port of this machine.
ghost use Rattle.std.specs.Prelude.{◌≡◌, IfErr, IfOk, string_bytes};
ghost use Rattle.settle.specs.Reads.{HasDeviceFailed};
ghost use Rattle.hub.specs.Rows.{RowsFollow};
ghost use Rattle.hub.specs.Waits.{AreLimits};
ghost use Rattle.cli.specs.Listening.{IsBeforeServing, ReportsListening, listening_line};

use crate::fault::Fault;
use api::MachineMinutes;
use command_line::parse::ServeLimits;
use connections::{ServerFault, Service, serve_many};
use http_messages::send_all;
use hub::Limits;
use mio::net::TcpListener;
use register::{OpenFault, Register};
use settle::Store;
use std::alloc::{AllocError, Global};
use std::io::Write;
use std::net::{Ipv4Addr, Net, SocketAddr};
use std::time::Clock;

// Returns the line for an open port.
fn listening_line(alloc: Global, port: u16) -> Result<String, AllocError>
    ensures { IfOk result (λ line. string_bytes line ≡ listening_line port) }
{
    format!(in alloc; "listening on 127.0.0.1:{port}\n")
}

// Writes the line for an open port, and flushes.
fn report_listening<W: Write>(alloc: Global, port: u16, writer: &mut W) -> Result<(), Fault>
    ensures reports { ReportsListening port (W.contents writer.old) (W.contents writer.new) result }
    ensures before { IfErr result IsBeforeServing }
{
    let line = match listening_line(alloc, port) {
        Ok(line) => line,
        Err(_) => return Err(Fault::NoMemory),
    };
    match send_all(writer, line.as_bytes(), true) {
        Ok(()) => Ok(()),
        Err(_) => Err(Fault::Write),
    }
}

// Returns the limits of connections that the command line gives.
pub(crate) fn limits_of(limits: ServeLimits) -> Limits
    ensures { AreLimits limits.at_once limits.group limits.message limits.idle 1 limits.sending 2
        result }
{
    Limits::new(
        usize::from(limits.at_once),
        u64::from(limits.group),
        u64::from(limits.message),
        u64::from(limits.idle),
        u64::from(limits.sending),
    )
}

/// Listens at a port of 127.0.0.1, writes the line `listening on 127.0.0.1:PORT` to `writer`, and
/// then serves connections, as `serve_many` does, with a line in `log` for each.
///
/// The content afterwards refines a state that the machine can reach. Not proved: the address that
/// is bound, and that the line is flushed before the first connection is accepted.
///
/// # Errors
///
/// - `Listen` if the port cannot be opened. Nothing is written.
/// - `NoMemory` if an allocation fails before the first connection is accepted.
/// - `Write` if the writer fails. A prefix of the line may be written.
/// - `Read` if the system does not report what is ready.
/// - `Open(Storage)` if the device failed, and the store did not answer after that.
///
/// After `Listen`, `NoMemory` and `Write`, no connection was accepted and the register is as it was.
pub fn listen<T: AllocGlobal + Net + Clock, S: Store, W: Write, L: Write>(
    rt: &T,
    register: &mut Register<S>,
    port: u16,
    connections: Option<u16>,
    limits: Limits,
    writer: &mut W,
    log: &mut L,
) -> Result<(), Fault>
    ensures reports { ReportsListening port (W.contents writer.old) (W.contents writer.new) result }
    ensures untouched { IfErr result
        (λ fault. IsBeforeServing fault → register.new ≡ register.old) }
    ensures storage { IfErr result (λ fault. fault ≡ Fault.Open OpenFault.Storage
        → HasDeviceFailed (S.failed register.old.store) (S.failed register.new.store)) }
    ensures follows { RowsFollow S.StoreModel register.old.store register.new.store }
{
    let address = SocketAddr::from((Ipv4Addr::LOCALHOST, port));
    let listener = match TcpListener::bind(rt, address) {
        Ok(listener) => listener,
        Err(_) => return Err(Fault::Listen),
    };
    let alloc = rt.alloc();
    report_listening(alloc, port, writer)?;
    let mut ticks = MachineMinutes { clock: rt };
    let service = Service {
        listener,
        connections,
        limits,
    };
    match serve_many(rt, alloc, service, register, &mut ticks, log) {
        Ok(()) => Ok(()),
        Err(ServerFault::NoMemory) => Err(Fault::NoMemory),
        Err(ServerFault::Poll) => Err(Fault::Read),
        Err(ServerFault::Storage) => Err(Fault::Open(OpenFault::Storage)),
    }
}
