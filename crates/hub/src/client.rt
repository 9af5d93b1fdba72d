//! A client whose bytes are known.
ghost use Rattle.std.specs.Prelude.{◌≡◌, ◌≤◌, [], vec_len};
ghost use Rattle.hub.specs.Connections.{connection_of, new_connection};

use crate::connection::Connection;
use std::alloc::Global;

/// A client of a connection: the stream that it sends, how much of it has arrived, and what it has
/// received.
#[derive(Drop)]
pub struct Client {
    pub connection: Connection,
    pub stream: Vec<u8>,
    pub arrived: usize,
    pub received: Vec<u8>,
    ghost arrived_within: { arrived ≤ vec_len stream },
}

impl Client {
    /// Creates a client that sends `stream`. Nothing of it has arrived.
    pub fn new(alloc: Global, stream: Vec<u8>) -> Client
        ensures connection { connection_of result.connection ≡ new_connection }
        ensures stream { result.stream ≡ stream }
        ensures arrived { result.arrived ≡ 0 }
        ensures received { result.received.items ≡ [] }
    {
        Client {
            connection: Connection::new(alloc),
            stream,
            arrived: 0,
            received: Vec::new(alloc),
        }
    }

    /// Returns the client's connection.
    pub fn connection(&self) -> &Connection
        ensures { result.now ≡ self.now.connection }
    {
        &self.connection
    }

    /// Returns what the client has received.
    pub fn received(&self) -> &[u8]
        ensures { result.now ≡ self.now.received.items }
    {
        &self.received
    }
}
