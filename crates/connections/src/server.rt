//! The event loop: serves the connections of a port in turns.
ghost use Rattle.std.specs.Prelude.{◌≡◌, ◌≢◌, ◌≤◌, Err};
ghost use Rattle.settle.specs.Reads.{HasDeviceFailed};
ghost use Rattle.hub.specs.Crashes.{LeavesContent};
ghost use Rattle.hub.specs.Rows.{RowsFollow};

use crate::acceptor::Acceptor;
use crate::log::{log_connection, log_failure};
use crate::socket::{Socket, has_work, read_more, write_more};
use api::Ticks;
use hub::{Ending, Hub, Limits, Member, Stage, Wait};
use mio::net::TcpListener;
use mio::{Events, Interest, Poll, Token};
use register::Register;
use settle::{Store, StoreFault};
use std::alloc::{AllocError, Global};
use std::collections::VecDeque;
use std::io::Write;
use std::net::Net;
use std::time::{Clock, Duration};
use std::{io, mem};

// The token of the listener. That of a connection is its key.
const LISTENER: Token = Token(usize::MAX);

// How many bytes are read at once.
const READ_SIZE: usize = 65_536;

// How many events are taken at once.
const EVENTS: usize = 256;

// How long the loop sleeps at most while all places are taken and a connection waits, in
// milliseconds.
const FULL_PAUSE: u64 = 250;

/// Why serving ended early.
#[derive(Clone, Copy, Debug, PartialEq, Eq)]
pub enum ServerFault {
    /// An allocation failed before the first connection was accepted.
    NoMemory,
    /// The system does not report what is ready.
    Poll,
    /// The store does not answer. All responses were sent, as far as the clients took them.
    Storage,
}

impl From<AllocError> for ServerFault {
    ghost use Rattle.std.specs.Prelude.{◌≡◌};
    ghost use Rattle.connections.specs.declared.server.ServerFault.TheVariants.{NoMemory};

    ghost from_gives = { λ _ fault. fault ≡ NoMemory };

    fn from(_fault: AllocError) -> ServerFault {
        ServerFault::NoMemory
    }
}

impl From<io::Error> for ServerFault {
    ghost use Rattle.std.specs.Prelude.{◌≡◌};
    ghost use Rattle.connections.specs.declared.server.ServerFault.TheVariants.{Poll as NoPoll};

    ghost from_gives = { λ _ fault. fault ≡ NoPoll };

    fn from(_fault: io::Error) -> ServerFault {
        ServerFault::Poll
    }
}

// The connections with their sockets, and what serving them needs.
#[derive(Drop)]
struct Server {
    poll: Poll,
    acceptor: Acceptor,
    hub: Hub<Socket>,
    // The keys of those with work, and of those that have their turn.
    queue: VecDeque<usize>,
    turns: Vec<usize>,
    scratch: Vec<u8>,
    now: Duration,
    // No deadline is before this time.
    next_deadline: Duration,
    alloc: Global,
}

impl Server {
    fn new(
        alloc: Global,
        poll: Poll,
        listener: TcpListener,
        connections: Option<u16>,
        limits: Limits,
    ) -> Result<Server, AllocError> {
        Ok(Server {
            poll,
            acceptor: Acceptor::new(listener, connections),
            hub: Hub::new(alloc, limits)?,
            queue: VecDeque::with_capacity(alloc, limits.at_once)?,
            turns: Vec::with_capacity(alloc, limits.at_once)?,
            scratch: vec![in alloc; 0; READ_SIZE]?,
            now: Duration::ZERO,
            next_deadline: Duration::MAX,
            alloc,
        })
    }

    // Puts a connection into the queue if it has work and is not there.
    fn enqueue(&mut self, key: usize) {
        if let Some(peer) = self.hub.members.get_mut(key)
            && !peer.peer.is_queued
            && has_work(peer)
        {
            peer.peer.is_queued = self.queue.push_back(key).is_ok();
        }
    }

    // Notes the deadline of a connection.
    fn note_deadline(&mut self, key: usize) {
        if let Some(peer) = self.hub.members.get(key) {
            let deadline = peer.deadline(&self.hub.limits);
            self.next_deadline = self.next_deadline.min(deadline);
        }
    }

    // Gives an accepted connection a place. One that the system does not watch is closed.
    fn insert(&mut self, accepted: Socket) {
        let mut socket = accepted;
        let key = self.hub.members.vacant_key();
        let interests = Interest::READABLE | Interest::WRITABLE;
        let registry = self.poll.registry();
        if registry
            .register(&mut socket.stream, Token(key), interests)
            .is_err()
        {
            return;
        }
        let peer = Member::new(self.alloc, socket, self.now);
        if self.hub.members.insert(peer).is_ok() {
            self.note_deadline(key);
            self.enqueue(key);
        }
    }

    // Returns the connection that has been idle longest, and since when. One in the queue is not
    // idle: a message may have arrived.
    fn longest_idle(&self) -> Option<(usize, Duration)> {
        let mut longest: Option<(usize, Duration)> = None;
        for (key, peer) in self.hub.members.iter() {
            let is_idle = !peer.peer.is_queued && peer.wait() == Wait::Idle;
            let since = peer.wait_start();
            if is_idle && longest.is_none_or(|(_, earliest)| since < earliest) {
                longest = Some((key, since));
            }
        }
        longest
    }

    // Closes the connection that has been idle longest, if it has been so for a while.
    fn close_longest_idle(&mut self) {
        let Some((key, since)) = self.longest_idle() else {
            return;
        };
        if self.now < since.saturating_add(self.hub.limits.idle_when_full) {
            return;
        }
        if let Some(peer) = self.hub.members.get_mut(key) {
            peer.close(Ending::Idle);
        }
        self.enqueue(key);
    }

    fn has_place(&self) -> bool {
        self.hub.members.len() < self.hub.limits.at_once
    }

    // Accepts connections while places are free. One more is accepted and waits, so that an idle
    // connection is closed only if another waits.
    fn accept_new(&mut self) {
        for _ in 0..self.hub.limits.at_once {
            if self.acceptor.waiting.is_none() {
                self.acceptor.accept(self.now);
            }
            if !self.has_place() {
                break;
            }
            match self.acceptor.waiting.take() {
                Some(accepted) => self.insert(accepted),
                None => break,
            }
        }
        if self.acceptor.waiting.is_some() || self.now < self.acceptor.not_before {
            self.close_longest_idle();
        }
    }

    // Begins the turns of the connections in the queue, as many as share a group of commits: reads once
    // for each.
    fn begin_turns(&mut self) {
        let most = if self.hub.limits.group > 1 {
            self.hub.limits.group as usize
        } else {
            usize::MAX
        };
        for _ in 0..self.queue.len().min(most) {
            if let Some(key) = self.queue.pop_front()
                && let Some(peer) = self.hub.members.get_mut(key)
            {
                peer.peer.is_queued = false;
                read_more(peer, &mut self.scratch, self.now);
                let _ = self.turns.push(key);
            }
        }
    }

    // Ends the turn of a connection: writes once. Then removes it if it is done, or puts it into the
    // queue if it has work.
    fn end_turn<L: Write>(&mut self, key: usize, failures: u64, log: &mut L) {
        let Some(peer) = self.hub.members.get_mut(key) else {
            return;
        };
        if peer.take_failure() {
            log_failure(self.alloc, peer.peer.number, failures, log);
        }
        write_more(peer, self.now);
        if matches!(peer.stage(), Stage::Done) {
            log_connection(self.alloc, peer, self.now, log);
            drop(self.hub.members.try_remove(key));
            return;
        }
        self.note_deadline(key);
        self.enqueue(key);
    }

    // Ends the turns.
    fn end_turns<L: Write>(&mut self, failures: u64, log: &mut L) {
        let mut turns = mem::replace(&mut self.turns, Vec::new(self.alloc));
        for key in turns.iter() {
            self.end_turn(*key, failures, log);
        }
        turns.clear();
        self.turns = turns;
    }

    // Gives each connection in the queue one turn. If the device failed meanwhile, looks whether the
    // store still answers.
    fn round<S: Store, T: Ticks, L: Write>(
        &mut self,
        register: &mut Register<S>,
        ticks: &mut T,
        log: &mut L,
    ) -> Result<(), ServerFault>
        ensures follows { RowsFollow S.StoreModel register.old.store register.new.store }
        ensures storage { result ≡ Err ServerFault.Storage
            → HasDeviceFailed (S.failed register.old.store) (S.failed register.new.store) }
        ensures memory { result ≢ Err ServerFault.NoMemory }
    {
        let failures = register.failures();
        self.begin_turns();
        self.hub.round(&self.turns, register, ticks, self.now);
        self.end_turns(register.failures(), log);
        if register.failures() == failures {
            return Ok(());
        }
        match register.probe() {
            Err(StoreFault::Storage) => Err(ServerFault::Storage),
            Ok(()) | Err(StoreFault::NoMemory) => Ok(()),
        }
    }

    // Closes the connections whose time is up, and finds the next deadline.
    fn close_expired(&mut self) {
        if self.now < self.next_deadline {
            return;
        }
        self.next_deadline = Duration::MAX;
        for key in 0..self.hub.limits.at_once {
            if let Some(peer) = self.hub.members.get_mut(key)
                && peer.deadline(&self.hub.limits) <= self.now
            {
                peer.expire();
            }
            self.enqueue(key);
            self.note_deadline(key);
        }
    }

    // Returns how long the loop may sleep, or `None` if nothing but an event ends its sleep.
    fn timeout(&self) -> Option<Duration> {
        if !self.queue.is_empty() || self.has_place() && self.acceptor.may_have_one(self.now) {
            return Some(Duration::ZERO);
        }
        let mut wake = self.next_deadline;
        if self.acceptor.is_ready && self.now < self.acceptor.not_before {
            wake = wake.min(self.acceptor.not_before);
        }
        if self.acceptor.waiting.is_some() {
            wake = wake.min(self.now.saturating_add(Duration::from_millis(FULL_PAUSE)));
        }
        if wake == Duration::MAX {
            return None;
        }
        Some(wake.saturating_sub(self.now))
    }

    // Notes what the system reports. A token may be that of a later connection at the same place,
    // which then has one turn too many.
    fn note(&mut self, events: &Events) {
        for event in events {
            let token = event.token();
            if token == LISTENER {
                self.acceptor.is_ready = true;
            } else if let Some(peer) = self.hub.members.get_mut(token.0) {
                peer.peer.note(event);
                self.enqueue(token.0);
            }
        }
    }

    // Sleeps until something is to be done, and notes it.
    fn wait<C: Clock>(&mut self, events: &mut Events, clock: &C) -> io::Result<()> {
        let timeout = self.timeout();
        self.poll.poll(events, timeout)?;
        if let Ok(now) = clock.monotonic() {
            self.now = now;
        }
        self.note(events);
        Ok(())
    }

    // Serves until all connections have ended, or the store does not answer after a failure.
    fn run<S: Store, T: Ticks, C: Clock, L: Write>(
        &mut self,
        events: &mut Events,
        register: &mut Register<S>,
        ticks: &mut T,
        clock: &C,
        log: &mut L,
    ) -> Result<(), ServerFault>
        ensures follows { RowsFollow S.StoreModel register.old.store register.new.store }
        ensures storage { result ≡ Err ServerFault.Storage
            → HasDeviceFailed (S.failed register.old.store) (S.failed register.new.store) }
        ensures memory { result ≢ Err ServerFault.NoMemory }
    {
        for _ in 0..u64::MAX {
            if self.acceptor.is_closed() && self.hub.members.is_empty() {
                break;
            }
            self.wait(events, clock)?;
            self.accept_new();
            self.round(register, ticks, log)?;
            self.close_expired();
        }
        Ok(())
    }

    // Executes no further message, sends what is unsent, and closes all connections.
    fn end<C: Clock, L: Write>(
        &mut self,
        events: &mut Events,
        clock: &C,
        log: &mut L,
    ) -> io::Result<()> {
        self.acceptor.close();
        for key in 0..self.hub.limits.at_once {
            if let Some(peer) = self.hub.members.get_mut(key) {
                peer.stop(self.now);
            }
            self.enqueue(key);
            self.note_deadline(key);
        }
        for _ in 0..u64::MAX {
            if self.hub.members.is_empty() {
                break;
            }
            self.wait(events, clock)?;
            self.begin_turns();
            self.end_turns(0, log);
            self.close_expired();
        }
        Ok(())
    }
}

/// What is served: the connections of a listener, and within which limits.
#[derive(Drop)]
pub struct Service {
    pub listener: TcpListener,
    /// How many connections are served, if that is bounded.
    pub connections: Option<u16>,
    pub limits: Limits,
}

/// Serves the connections of a listener, without `POST /clock`: as many as `connections` says, or
/// without end; at once, as many as `limits` says. Messages are executed one after another, some of
/// each connection in turn.
///
/// Writes a line to `log` for each connection that has ended, and for each turn of a connection in
/// which the device failed. A line that cannot be written is lost.
///
/// The content afterwards refines a state that the machine can reach, and a crash leaves it. Not
/// proved: what is read from and written to the sockets, and when; what is written to the log.
///
/// # Errors
///
/// - `NoMemory` if an allocation fails before the first connection is accepted.
/// - `Poll` if the system does not report what is ready.
/// - `Storage` if the device failed, and the store did not answer a look-up after that. What was
///   unsent was sent first.
pub fn serve_many<N: Net + Clock, S: Store, T: Ticks, L: Write>(
    rt: &N,
    alloc: Global,
    service: Service,
    register: &mut Register<S>,
    ticks: &mut T,
    log: &mut L,
) -> Result<(), ServerFault>
    ensures follows { RowsFollow S.StoreModel register.old.store register.new.store }
    // A crash afterwards leaves the content, so all that was executed.
    ensures lasts { LeavesContent S.StoreModel register.old.store register.new.store }
    ensures untouched { result ≡ Err ServerFault.NoMemory → register.new ≡ register.old }
    ensures storage { result ≡ Err ServerFault.Storage
        → HasDeviceFailed (S.failed register.old.store) (S.failed register.new.store) }
{
    let Service {
        mut listener,
        connections,
        limits,
    } = service;
    let poll = Poll::new(rt)?;
    poll.registry()
        .register(&mut listener, LISTENER, Interest::READABLE)?;
    let mut events = Events::with_capacity(alloc, EVENTS)?;
    let mut server = Server::new(alloc, poll, listener, connections, limits)?;
    let served = server.run(&mut events, register, ticks, rt, log);
    if let Err(ServerFault::Storage) = served {
        let _ = server.end(&mut events, rt, log);
    }
    served
}
