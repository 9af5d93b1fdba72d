//! Accepts the connections of a listener.
use crate::socket::Socket;
use mio::net::TcpListener;
use std::io::ErrorKind;
use std::time::Duration;

// How long no connection is accepted after one could not be, in milliseconds.
const ACCEPT_PAUSE: u64 = 100;

/// The listener, and how many connections it may still accept.
#[derive(Drop)]
pub struct Acceptor {
    listener: TcpListener,
    /// Whether a connection may be there to accept.
    pub is_ready: bool,
    /// None is accepted before this time, since the last one could not be.
    pub not_before: Duration,
    // How many were accepted.
    accepted: u64,
    // How many more are accepted, if that is bounded.
    left: Option<u16>,
    /// A connection that was accepted while all places were taken.
    pub waiting: Option<Socket>,
}

impl Acceptor {
    /// Creates the acceptor of as many connections as `connections` says, or without end.
    pub fn new(listener: TcpListener, connections: Option<u16>) -> Acceptor {
        Acceptor {
            listener,
            is_ready: true,
            not_before: Duration::ZERO,
            accepted: 0,
            left: connections,
            waiting: None,
        }
    }

    /// Accepts no further connection, and closes one that waits.
    pub fn close(&mut self) {
        self.left = Some(0);
        self.waiting = None;
    }

    /// Returns whether no connection is accepted any more, and none waits.
    pub fn is_closed(&self) -> bool {
        self.left == Some(0) && self.waiting.is_none()
    }

    fn may_accept(&self, now: Duration) -> bool {
        self.is_ready && now >= self.not_before && self.left != Some(0)
    }

    /// Returns whether a connection waits, or may be there to accept.
    pub fn may_have_one(&self, now: Duration) -> bool {
        self.waiting.is_some() || self.may_accept(now)
    }

    /// Accepts a connection, if one is there, and counts it.
    pub fn accept(&mut self, now: Duration) {
        if !self.may_accept(now) {
            return;
        }
        match self.listener.accept() {
            Ok((stream, address)) => {
                // Otherwise a second small write waits for the client's acknowledgement.
                let _ = stream.set_nodelay(true);
                self.accepted = self.accepted.saturating_add(1);
                self.waiting = Some(Socket::new(stream, address, self.accepted));
                self.left = self.left.map(|left| left.saturating_sub(1));
            }
            Err(fault) if fault.kind() == ErrorKind::WouldBlock => self.is_ready = false,
            Err(_) => {
                self.not_before = now.saturating_add(Duration::from_millis(ACCEPT_PAUSE));
            }
        }
    }
}
