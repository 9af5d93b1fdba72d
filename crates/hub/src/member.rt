//! A connection of a hub: its messages, how far it is from being closed, and its times.
ghost use Rattle.std.specs.Prelude.{◌≡◌, ◌⊎◌, ◌+◌, None, false, length, min, nat_eq, not};
ghost use Rattle.std.specs.Duration.{as_nanos, max_nanos};
ghost use Rattle.settle.specs.StoreContract.{BeginsNoGroup, EndsNoGroup};
ghost use Rattle.hub.specs.Connections.{HasNothingAhead, StaysInStep, connection_of, kept_of, with_bytes, with_sent};
ghost use Rattle.hub.specs.Feeding.{GoesOn};
ghost use Rattle.hub.specs.Rows.{RowsFollow};
ghost use Rattle.hub.specs.Waits.{limit_of, start_of, wait_of};

use crate::connection::{Connection, Phase};
use crate::limits::{Limits, Wait};
use api::{End, Executor, Options, Tally, Ticks, TurnLimit};
use register::Register;
use settle::Store;
use std::alloc::Global;
use std::mem;
use std::time::Duration;

/// How far a connection is from being closed.
#[derive(Clone, Copy, Debug, PartialEq, Eq)]
pub enum Stage {
    /// Messages and responses pass.
    Talking,
    /// All responses were sent. Input is discarded.
    Discarding,
    /// To be closed.
    Done,
}

/// How a connection ended.
#[derive(Clone, Copy, Debug, PartialEq, Eq)]
pub enum Ending {
    /// The client ended its input, and got all responses.
    Ended,
    /// A message asked for `connection: close`.
    Closed,
    /// A message was refused with `bad_head`, `too_large` or `cut_body`.
    Refused,
    /// The client was silent between messages.
    Idle,
    /// A message did not arrive in time.
    Message,
    /// The client took no bytes of a response.
    Sending,
    /// The socket failed.
    Broken,
    /// An allocation failed.
    NoMemory,
    /// The store has shut.
    Storage,
}

/// A connection, what its caller keeps with it, and the times that bound it, by a clock that never
/// goes back.
#[derive(Drop)]
pub struct Member<P: Drop> {
    /// What the caller keeps: a socket, say.
    pub peer: P,
    /// The connection. Its times are noted only by the member's own calls.
    pub connection: Connection,
    stage: Stage,
    // How it ended, if it has.
    ending: Option<Ending>,
    opened_at: Duration,
    // What was executed, and what was with that executed ahead.
    tally: Tally,
    tally_ahead: Tally,
    // Whether the device failed meanwhile.
    has_met_failure: bool,
    // When the message at hand began, bytes were sent, messages were executed or discarding began:
    // the latest of these.
    since: Duration,
    // When bytes were sent last, or began to wait.
    sent_at: Duration,
}

impl<P: Drop> Member<P> {
    /// Creates a connection that opens at `now`.
    pub fn new(alloc: Global, peer: P, now: Duration) -> Member<P>
        ensures peer { result.peer ≡ peer }
        ensures ahead { HasNothingAhead result.connection }
    {
        Member {
            peer,
            connection: Connection::new(alloc),
            stage: Stage::Talking,
            ending: None,
            opened_at: now,
            tally: Tally::EMPTY,
            tally_ahead: Tally::EMPTY,
            has_met_failure: false,
            since: now,
            sent_at: now,
        }
    }

    /// Returns how far it is from being closed.
    pub fn stage(&self) -> Stage
        ensures { result ≡ self.now.stage }
    {
        self.stage
    }

    /// Returns how it ended, if it has.
    pub fn ending(&self) -> Option<Ending>
        ensures { result ≡ self.now.ending }
    {
        self.ending
    }

    /// Returns what was executed.
    pub fn tally(&self) -> &Tally
        ensures { result.now ≡ self.now.tally }
    {
        &self.tally
    }

    /// Returns whether the device failed while its messages were executed, since this was asked last.
    pub fn take_failure(&mut self) -> bool {
        mem::replace(&mut self.has_met_failure, false)
    }

    /// Returns for how long it has been open at `now`.
    pub fn open_for(&self, now: Duration) -> Duration {
        now.saturating_sub(self.opened_at)
    }

    fn is_talking(&self) -> bool {
        matches!(self.stage, Stage::Talking)
    }

    /// Returns whether bytes are to be sent.
    pub fn has_unsent(&self) -> bool
        ensures { result ≡ not (nat_eq (length (connection_of self.now.connection).unsent) 0) }
    {
        !self.connection.unsent().is_empty()
    }

    /// Returns whether a turn may execute a message.
    pub fn has_work(&self) -> bool {
        self.is_talking() && self.connection.has_work()
    }

    /// Returns whether it waits for bytes to arrive: those of a message, or the end of the input.
    pub fn wants_input(&self) -> bool {
        match self.stage {
            Stage::Talking => self.connection.wants_input(),
            Stage::Discarding => true,
            Stage::Done => false,
        }
    }

    /// Returns what the connection waits for.
    pub fn wait(&self) -> Wait
        ensures { result ≡ wait_of self.now.stage (connection_of self.now.connection) }
    {
        match self.stage {
            Stage::Talking if self.has_unsent() => Wait::Sending,
            Stage::Talking if self.connection.unread().is_empty() => Wait::Idle,
            Stage::Talking => Wait::Message,
            Stage::Discarding | Stage::Done => Wait::Discarding,
        }
    }

    /// Returns when the present wait began.
    pub fn wait_start(&self) -> Duration
        ensures { result ≡ start_of self.now
            (wait_of self.now.stage (connection_of self.now.connection)) }
    {
        match self.wait() {
            Wait::Sending => self.sent_at,
            Wait::Idle | Wait::Message | Wait::Discarding => self.since,
        }
    }

    /// Returns when the present wait is over: its start and its limit.
    pub fn deadline(&self, limits: &Limits) -> Duration
        ensures { let wait = wait_of self.now.stage (connection_of self.now.connection) in
            as_nanos result ≡ min (as_nanos (start_of self.now wait)
            + as_nanos (limit_of limits.now wait)) max_nanos }
    {
        self.wait_start().saturating_add(limits.limit(self.wait()))
    }

    // Notes how the connection ends. The first reason counts.
    fn note_ending(&mut self, ending: Ending)
        ensures stage { self.new.stage ≡ self.old.stage }
        ensures connection { self.new.connection ≡ self.old.connection }
    {
        if self.ending.is_none() {
            self.ending = Some(ending);
        }
    }

    /// Closes the connection, for this reason unless it has ended.
    pub fn close(&mut self, ending: Ending)
        ensures stage { self.new.stage ≡ Stage.Done }
        ensures connection { self.new.connection ≡ self.old.connection }
    {
        self.note_ending(ending);
        self.stage = Stage::Done;
    }

    /// Closes the connection since its wait is over.
    pub fn expire(&mut self)
        ensures stage { self.new.stage ≡ Stage.Done }
        ensures connection { self.new.connection ≡ self.old.connection }
    {
        self.close(match self.wait() {
            Wait::Idle => Ending::Idle,
            Wait::Message => Ending::Message,
            Wait::Sending | Wait::Discarding => Ending::Sending,
        });
    }

    // Begins to discard input, or closes the connection.
    fn finish(&mut self, ending: Ending, discards: bool, now: Duration)
        ensures { self.new.connection ≡ self.old.connection }
    {
        self.note_ending(ending);
        self.since = now;
        self.stage = if discards {
            Stage::Discarding
        } else {
            Stage::Done
        };
    }

    /// Ends the connection if it executes no further message and nothing is unsent. Then its sending
    /// side is to be shut down, or it is to be closed. Closing at once, with input unread, would reset
    /// it, and a reset can overtake a response.
    pub fn end_if_sent(&mut self, now: Duration)
        ensures { self.new.connection ≡ self.old.connection }
    {
        if !self.is_talking() || self.has_unsent() {
            return;
        }
        match self.connection.phase() {
            Phase::Open => {}
            Phase::Ended(End::Input) => self.finish(Ending::Ended, false, now),
            Phase::Lost => self.finish(Ending::NoMemory, false, now),
            Phase::Ended(End::Closed) => self.finish(Ending::Closed, true, now),
            Phase::Ended(End::Refused(_)) => self.finish(Ending::Refused, true, now),
            Phase::Stopped => self.finish(Ending::Storage, true, now),
        }
    }

    /// Executes no further message. The connection ends once what is unsent was sent.
    pub fn stop(&mut self, now: Duration) {
        if self.is_talking() {
            self.connection.stop();
            self.end_if_sent(now);
        }
    }

    /// Takes bytes that have arrived: none at the end of the input. If an allocation fails, the
    /// connection is closed.
    pub fn receive(&mut self, bytes: &[u8], now: Duration)
        ensures arrives { (connection_of self.new.connection
            ≡ with_bytes (connection_of self.old.connection) bytes.now)
            ⊎ ((connection_of self.new.connection ≡ connection_of self.old.connection)
            × (self.new.stage ≡ Stage.Done)) }
        ensures ahead { StaysInStep self.old.connection self.new.connection }
    {
        if bytes.is_empty() {
            self.connection.end_input();
            return;
        }
        if self.connection.unread().is_empty() {
            self.since = now;
        }
        if self.connection.receive(bytes).is_err() {
            self.close(Ending::NoMemory);
        }
    }

    /// Notes that the first `count` unsent bytes were sent.
    pub fn advance(&mut self, count: usize, now: Duration)
        ensures sent { connection_of self.new.connection
            ≡ with_sent (connection_of self.old.connection) count }
        ensures ahead { StaysInStep self.old.connection self.new.connection }
    {
        self.connection.advance(count);
        self.sent_at = now;
        self.since = now;
    }

    /// Executes the messages of one turn ahead, within the limit, unless some were already.
    pub fn execute_ahead<S: Store, T: Ticks>(
        &mut self,
        executor: &mut Executor,
        register: &mut Register<S>,
        ticks: &mut T,
        limit: TurnLimit,
    )
        ensures goes_on { GoesOn false None S.StoreModel register.old.store register.new.store
            (kept_of self.old.connection) (kept_of self.new.connection) }
        ensures stays { connection_of self.new.connection ≡ connection_of self.old.connection }
        ensures follows { RowsFollow S.StoreModel register.old.store register.new.store }
        ensures begins { BeginsNoGroup S.StoreModel register.old.store register.new.store }
        ensures ends { EndsNoGroup S.StoreModel register.old.store register.new.store }
    {
        if !self.is_talking() || self.connection.has_ahead() || !self.connection.has_work() {
            return;
        }
        executor.tally = self.tally;
        let failures = register.failures();
        let options = Options { clock_route: false };
        // A lost response ends the connection.
        let _ = self
            .connection
            .execute_ahead(executor, register, ticks, &options, limit);
        self.tally_ahead = executor.tally;
        self.has_met_failure |= register.failures() != failures;
    }

    /// Keeps what was executed ahead. The responses are to be sent.
    pub fn keep_ahead(&mut self, now: Duration)
        ensures kept { connection_of self.new.connection ≡ kept_of self.old.connection }
        ensures ahead { HasNothingAhead self.new.connection }
    {
        if !self.connection.has_ahead() {
            return;
        }
        // A turn without a message does not end the wait for the rest of one.
        if self.tally_ahead.messages != self.tally.messages {
            self.since = now;
        }
        self.connection.keep_ahead();
        self.tally = self.tally_ahead;
        self.sent_at = now;
    }

    /// Drops what was executed ahead. The messages are unread.
    pub fn drop_ahead(&mut self)
        ensures dropped { connection_of self.new.connection ≡ connection_of self.old.connection }
        ensures ahead { HasNothingAhead self.new.connection }
    {
        self.connection.drop_ahead();
    }
}
