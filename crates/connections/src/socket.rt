//! The socket of a connection: the only place where a socket meets the connection of its key.
ghost use Rattle.std.specs.Prelude.{◌≤◌, IfSome, length};

use hub::{Ending, Member, Stage};
use mio::event::Event;
use mio::net::TcpStream;
use std::io;
use std::io::{ErrorKind, Read, Write};
use std::net::{Shutdown, SocketAddr};
use std::time::Duration;

// Whether the socket may be read or written. The system reports changes, so what it reported holds
// until a call would block.
#[derive(Clone, Copy, Debug)]
struct Readiness {
    is_readable: bool,
    is_writable: bool,
    // The client sends no more, so that its end is still to be read after a short read.
    has_hung_up: bool,
}

/// A socket that was accepted.
#[derive(Drop)]
pub struct Socket {
    pub stream: TcpStream,
    pub address: SocketAddr,
    /// The connections are numbered as they are accepted, from 1.
    pub number: u64,
    /// Whether it is in the queue of those with work.
    pub is_queued: bool,
    readiness: Readiness,
    // Whether its sending side is shut down.
    is_shut: bool,
}

/// A connection of the hub with its socket.
pub type Peer = Member<Socket>;

impl Socket {
    /// Creates the socket of a connection whose first message may have arrived.
    pub fn new(stream: TcpStream, address: SocketAddr, number: u64) -> Socket {
        Socket {
            stream,
            address,
            number,
            is_queued: false,
            readiness: Readiness {
                is_readable: true,
                is_writable: true,
                has_hung_up: false,
            },
            is_shut: false,
        }
    }

    /// Notes what the system reports.
    pub fn note(&mut self, event: &Event) {
        if event.is_readable() || event.is_read_closed() || event.is_error() {
            self.readiness.is_readable = true;
        }
        if event.is_writable() || event.is_write_closed() || event.is_error() {
            self.readiness.is_writable = true;
        }
        if event.is_read_closed() {
            self.readiness.has_hung_up = true;
        }
    }
}

/// Returns whether a turn would do something.
pub fn has_work(peer: &Peer) -> bool {
    let readiness = peer.peer.readiness;
    match peer.stage() {
        Stage::Talking => {
            peer.has_work()
                || readiness.is_readable && peer.wants_input()
                || readiness.is_writable && peer.has_unsent()
        }
        Stage::Discarding => readiness.is_readable || !peer.peer.is_shut,
        Stage::Done => true,
    }
}

// Notes a failed read or write. What would block waits for the next event, and what was interrupted
// for the next turn. After any other fault nobody is there.
fn note_fault(peer: &mut Peer, fault: &io::Error, is_read: bool) {
    match fault.kind() {
        ErrorKind::WouldBlock if is_read => {
            peer.peer.readiness.is_readable = false;
            peer.peer.readiness.has_hung_up = false;
        }
        ErrorKind::WouldBlock => peer.peer.readiness.is_writable = false,
        ErrorKind::Interrupted => {}
        _ => peer.close(Ending::Broken),
    }
}

// Reads once into `scratch`. Returns how many bytes were read, 0 at the end, or `None` if none were
// there.
fn read(peer: &mut Peer, scratch: &mut [u8]) -> Option<usize>
    ensures { IfSome result (λ count. count ≤ length scratch.new) }
{
    match peer.peer.stream.read(scratch) {
        Ok(count) => {
            let readiness = &mut peer.peer.readiness;
            readiness.is_readable = count == scratch.len() || readiness.has_hung_up;
            Some(count)
        }
        Err(fault) => {
            note_fault(peer, &fault, true);
            None
        }
    }
}

/// Reads once, if the connection waits for bytes.
pub fn read_more(peer: &mut Peer, scratch: &mut [u8], now: Duration) {
    if !peer.peer.readiness.is_readable || !peer.wants_input() {
        return;
    }
    let Some(count) = read(peer, scratch) else {
        return;
    };
    match peer.stage() {
        Stage::Talking => peer.receive(&scratch[..count], now),
        Stage::Discarding | Stage::Done => {
            if count == 0 {
                peer.close(Ending::Closed);
            }
        }
    }
}

// Writes once.
fn send(peer: &mut Peer, now: Duration) {
    match peer.peer.stream.write(peer.connection.unsent()) {
        Ok(0) => peer.close(Ending::Broken),
        Ok(count) => peer.advance(count, now),
        Err(fault) => note_fault(peer, &fault, false),
    }
}

/// Writes once, if bytes are unsent. After the last response, shuts the sending side down, so that
/// the client sees the end.
pub fn write_more(peer: &mut Peer, now: Duration) {
    if matches!(peer.stage(), Stage::Talking) {
        if peer.has_unsent() && peer.peer.readiness.is_writable {
            send(peer, now);
        }
        peer.end_if_sent(now);
    }
    if matches!(peer.stage(), Stage::Discarding) && !peer.peer.is_shut {
        peer.peer.is_shut = true;
        match peer.peer.stream.shutdown(Shutdown::Write) {
            Ok(()) => peer.peer.readiness.is_readable = true,
            Err(_) => peer.close(Ending::Broken),
        }
    }
}
