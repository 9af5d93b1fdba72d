//! Feeds the messages of a reader to a register, in groups of commits.
ghost use Rattle.std.specs.Prelude.{◌≡◌, ◌≢◌, ◌<◌, ◌≤◌, [], Some, length, true, vec_len, IfOk, IfErr, IfSome, OnErr, OnOk};
ghost use Rattle.std.specs.Io.KnownBytes.{Keeps};
ghost use Rattle.std.specs.IoError.{error_kind};
ghost use Rattle.http_messages.specs.Sending.{AppendsPrefix};
ghost use Rattle.model.specs.State.{State};
ghost use Rattle.register.specs.Refinement.{Refines};
ghost use Rattle.settle.specs.StoreContract.{BeginsNoGroup, EndsNoGroup};
ghost use Rattle.hub.specs.Connections.{HasNothingAhead, StaysInStep, connection_of, kept_of, new_connection};
ghost use Rattle.hub.specs.Crashes.{LeavesContent, LeavesFirstMessages, LeavesFirstOf};
ghost use Rattle.hub.specs.Feeding.{FeedsTo, GoesOn, IsSent, ReadsSome, Receives, io_of};
ghost use Rattle.hub.specs.Rows.{RowsFollow};

use crate::connection::{Connection, Phase};
use api::{End, Executor, NoTicks, Options, TurnLimit};
use http_messages::send_whole;
use register::Register;
use settle::Store;
use std::alloc::{AllocError, Global};
use std::io;
use std::io::{ErrorKind, Read, Write};

// How many bytes are read at once.
const READ_SIZE: usize = 65_536;

// How much a group of commits takes.
const GROUP: TurnLimit = TurnLimit {
    messages: 256,
    output: 65_536,
};

/// Why feeding ended early.
#[derive(Clone, Copy, Debug, PartialEq, Eq)]
pub enum FeedFault {
    /// The reader failed.
    Read,
    /// The writer failed.
    Write,
    /// An allocation failed, or there were too many messages to count.
    NoMemory,
}

// Reads once. Retries an interrupted read, as often as the standard library's own readers do.
fn read_some<R: Read>(reader: &mut R, buffer: &mut [u8]) -> io::Result<usize>
    requires room { 0 < length buffer.old }
    ensures ok { IfOk result (λ n.
        ReadsSome (R.remaining reader.old) (R.remaining reader.new) buffer.new n) }
    ensures err { OnErr result (Keeps (R.remaining reader.old) (R.remaining reader.new)) }
    ensures retried { IfErr result (λ e. error_kind e ≢ ErrorKind.Interrupted) }
{
    'tries: for _ in 0..u64::MAX {
        match reader.read(buffer) {
            Ok(n) => return Ok(n),
            Err(e) if e.kind() == ErrorKind::Interrupted => {}
            Err(e) => return Err(e),
        }
    }
    Err(ErrorKind::Other.into())
}

// Executes messages that have arrived, ahead.
fn execute_some<S: Store>(
    connection: &mut Connection,
    executor: &mut Executor,
    register: &mut Register<S>,
)
    requires ahead { HasNothingAhead connection.old }
    ensures goes_on { GoesOn true (Some []) S.StoreModel register.old.store register.new.store
        (connection_of connection.old) (kept_of connection.new) }
    ensures stays { connection_of connection.new ≡ connection_of connection.old }
    ensures follows { RowsFollow S.StoreModel register.old.store register.new.store }
    ensures left { LeavesFirstOf S.StoreModel register.old.store register.new.store
        (connection_of connection.old) }
    ensures begins { BeginsNoGroup S.StoreModel register.old.store register.new.store }
    ensures ends { EndsNoGroup S.StoreModel register.old.store register.new.store }
{
    let options = Options { clock_route: true };
    if connection.has_work() {
        // A lost response ends the connection.
        let _ = connection.execute_ahead(executor, register, &mut NoTicks, &options, GROUP);
    }
}

// The connection between a reader and a writer, and what serving it needs.
#[derive(Drop)]
struct Feeder {
    connection: Connection,
    executor: Executor,
    scratch: Vec<u8>,
    ghost room: { 0 < vec_len scratch },
}

impl Feeder {
    fn new(alloc: Global) -> Result<Feeder, AllocError>
        ensures connection { IfOk result
            (λ feeder. connection_of feeder.connection ≡ new_connection) }
        ensures ahead { IfOk result (λ feeder. HasNothingAhead feeder.connection) }
    {
        Ok(Feeder {
            connection: Connection::new(alloc),
            executor: Executor::new(alloc)?,
            scratch: vec![in alloc; 0; READ_SIZE]?,
        })
    }

    // Executes messages in one group of commits. Returns whether its commits last. If not, nothing
    // has changed.
    fn execute_group<S: Store>(&mut self, register: &mut Register<S>) -> bool
        requires ahead { HasNothingAhead self.old.connection }
        ensures goes_on { GoesOn true (Some []) S.StoreModel register.old.store register.new.store
            (connection_of self.old.connection) (connection_of self.new.connection) }
        ensures follows { RowsFollow S.StoreModel register.old.store register.new.store }
        ensures left { LeavesFirstOf S.StoreModel register.old.store register.new.store
            (connection_of self.old.connection) }
        ensures ahead { HasNothingAhead self.new.connection }
    {
        let Ok(true) = register.begin_group() else {
            return false;
        };
        execute_some(&mut self.connection, &mut self.executor, register);
        match register.end_group() {
            Ok(()) => {
                self.connection.keep_ahead();
                true
            }
            Err(_) => {
                self.connection.drop_ahead();
                false
            }
        }
    }

    // Executes messages in one group of commits. Without a group, or if it does not last, each of
    // them commits by itself.
    fn execute<S: Store>(&mut self, register: &mut Register<S>)
        requires ahead { HasNothingAhead self.old.connection }
        ensures goes_on { GoesOn true (Some []) S.StoreModel register.old.store register.new.store
            (connection_of self.old.connection) (connection_of self.new.connection) }
        ensures follows { RowsFollow S.StoreModel register.old.store register.new.store }
        ensures left { LeavesFirstOf S.StoreModel register.old.store register.new.store
            (connection_of self.old.connection) }
        ensures ahead { HasNothingAhead self.new.connection }
    {
        if !self.execute_group(register) {
            execute_some(&mut self.connection, &mut self.executor, register);
            self.connection.keep_ahead();
        }
    }

    // Writes what is to be sent.
    fn send<W: Write>(&mut self, writer: &mut W) -> Result<(), FeedFault>
        ensures sent { OnOk result (IsSent (connection_of self.old.connection)
            (connection_of self.new.connection) (W.contents writer.old) (W.contents writer.new)) }
        ensures part { OnErr result (AppendsPrefix (W.contents writer.old) (W.contents writer.new)
            (connection_of self.old.connection).unsent) }
        ensures fault { IfErr result (λ fault. fault ≡ FeedFault.Write) }
        ensures ahead { StaysInStep self.old.connection self.new.connection }
    {
        let unsent = self.connection.unsent();
        let count = unsent.len();
        match send_whole(writer, unsent, true) {
            Ok(()) => {}
            Err(_) => return Err(FeedFault::Write),
        }
        self.connection.advance(count);
        Ok(())
    }

    // Reads once.
    fn receive<R: Read>(&mut self, reader: &mut R) -> Result<(), FeedFault>
        ensures received { Receives result (R.remaining reader.old) (R.remaining reader.new)
            (connection_of self.old.connection) (connection_of self.new.connection) }
        ensures ahead { StaysInStep self.old.connection self.new.connection }
    {
        match read_some(reader, &mut self.scratch) {
            Ok(0) => {
                self.connection.end_input();
                Ok(())
            }
            Ok(count) => match self.connection.receive(&self.scratch[..count]) {
                Ok(()) => Ok(()),
                Err(_) => Err(FeedFault::NoMemory),
            },
            Err(_) => Err(FeedFault::Read),
        }
    }
}

/// Executes the messages of `reader` in order, and writes their responses to `writer`. Reads up to
/// 64 KiB at once, and reads more only if no whole message is left of that.
///
/// If the store has groups of commits, the whole messages that have been read share one: at most 256,
/// and until their responses are more than 64 KiB. Their responses are written after the group has
/// ended, at once, and the writer is flushed. If the group does not last, each of its messages is
/// executed again, and commits by itself. `POST /clock` is served, and no minute is supplied.
///
/// # Errors
///
/// - `Read` if the reader fails. No whole message is left of what was read.
/// - `Write` if the writer fails. All messages whose responses were written have been executed, and
///   some more may have been: those of the same group.
/// - `NoMemory` if an allocation fails, or after 2^64 - 1 reads and groups. If a response was lost,
///   its message has been executed, or refused; it is the last.
pub fn feed<S: Store, R: Read, W: Write>(
    alloc: Global,
    register: &mut Register<S>,
    reader: &mut R,
    writer: &mut W,
) -> Result<End, FeedFault>
    // Every message, its response, and what has been read and written.
    ensures feeds { S.IsUsable register.new.store → (st : State)
        → Refines (S.content register.old.store) st
        → IfSome (R.remaining reader.old)
        (λ input. FeedsTo result (S.failed register.old.store) (S.failed register.new.store) st
        (S.content register.new.store) (io_of input (R.remaining reader.new)
        (W.contents writer.old) (W.contents writer.new))) }
    ensures follows { RowsFollow S.StoreModel register.old.store register.new.store }
    // A crash leaves what it could leave before, or what the first messages lead to.
    ensures left { LeavesFirstMessages S.StoreModel register.old.store register.new.store
        (R.remaining reader.old) }
    // What was answered lasts: a crash leaves the content that `feeds` speaks of.
    ensures lasts { LeavesContent S.StoreModel register.old.store register.new.store }
{
    let Ok(mut feeder) = Feeder::new(alloc) else {
        return Err(FeedFault::NoMemory);
    };
    for _ in 0..u64::MAX {
        match feeder.connection.phase() {
            Phase::Open if feeder.connection.wants_input() => match feeder.receive(reader) {
                Ok(()) => {}
                Err(unread) => return Err(unread),
            },
            Phase::Open => {
                feeder.execute(register);
                match feeder.send(writer) {
                    Ok(()) => {}
                    Err(unwritten) => return Err(unwritten),
                }
            }
            Phase::Ended(end) => return Ok(end),
            Phase::Stopped | Phase::Lost => break,
        }
    }
    Err(FeedFault::NoMemory)
}
