//! A connection as two byte lists: what has arrived, and what is to be sent.
ghost use Rattle.std.specs.Prelude.{◌≡◌, ◌≤◌, ◌⊎◌, [], Some, drop, length, true, false, IfOk, OnOk, OnErr};
ghost use Rattle.model.specs.State.{State};
ghost use Rattle.settle.specs.StoreContract.{AddsOnlyCrashStates, BeginsNoGroup, EndsNoGroup};
ghost use Rattle.register.specs.Refinement.{Refines};
ghost use Rattle.api.specs.Crashes.{LeavesPrefix};
ghost use Rattle.api.specs.Executing.{Executes, PausesAt, Progresses, consumed_of};
ghost use Rattle.api.specs.Serving.{WritesUntil};
ghost use Rattle.hub.specs.Connections.{HasNothingAhead, StaysInStep, connection_of, has_work, is_open, kept_of, may_go_on, new_connection, phase_after, wanted_after, wants_input, with_end, with_executed, with_input, with_sent, with_stop};
ghost use Rattle.hub.specs.Rows.{RowsFollow};

use crate::byte_queue::ByteQueue;
use api::{End, Executed, Executor, Lost, Options, Progress, Ticks, TurnLimit};
use register::Register;
use settle::Store;
use std::alloc::{AllocError, Global};

/// How far a connection is.
#[derive(Clone, Copy, Debug, PartialEq, Eq)]
pub enum Phase {
    /// Messages are executed.
    Open,
    /// No further message is executed, since the connection was stopped.
    Stopped,
    /// No further message is executed, for this reason.
    Ended(End),
    /// A response was lost because an allocation failed. No further message is executed.
    Lost,
}

/// A connection: the bytes that have arrived and were not executed, and the bytes that are to be
/// sent. It knows neither a socket nor the time.
///
/// Messages are executed ahead: their responses are not sent before `keep_ahead`, and after
/// `drop_ahead` the messages are unread again.
#[derive(Drop)]
pub struct Connection {
    phase: Phase,
    // With fewer bytes of input no message is whole.
    wanted: usize,
    has_ended: bool,
    input: ByteQueue,
    // The bytes that are to be sent, or the responses to what was executed ahead.
    output: ByteQueue,
    // What was executed ahead.
    ahead: Option<Result<Executed, Lost>>,
}

// Returns how far a connection is after messages were executed.
fn phase_of(progress: Progress) -> Phase
    ensures { result ≡ phase_after progress }
{
    match progress {
        Progress::Wants { .. } | Progress::Paused => Phase::Open,
        Progress::Ended(end) => Phase::Ended(end),
    }
}

// Returns with how many bytes a message may be whole after messages were executed.
fn wanted_of(progress: Progress) -> usize
    ensures { result ≡ wanted_after progress }
{
    match progress {
        Progress::Wants { wanted } => wanted,
        Progress::Paused | Progress::Ended(_) => 1,
    }
}

impl Connection {
    /// Creates a connection before anything arrives.
    pub fn new(alloc: Global) -> Connection
        ensures connection { connection_of result ≡ new_connection }
        ensures ahead { HasNothingAhead result }
    {
        Connection {
            phase: Phase::Open,
            wanted: 1,
            has_ended: false,
            input: ByteQueue::new(alloc),
            output: ByteQueue::new(alloc),
            ahead: None,
        }
    }

    /// Returns how far the connection is.
    pub fn phase(&self) -> Phase
        ensures { result ≡ (connection_of self.now).phase }
    {
        self.phase
    }

    /// Returns the bytes that have arrived and were not executed.
    pub fn unread(&self) -> &[u8]
        ensures { result.now ≡ (connection_of self.now).unread }
    {
        self.input.as_slice()
    }

    /// Returns the bytes that are to be sent.
    pub fn unsent(&self) -> &[u8]
        ensures { result.now ≡ (connection_of self.now).unsent }
    {
        match self.ahead {
            None => self.output.as_slice(),
            Some(_) => &[],
        }
    }

    /// Returns whether messages were executed ahead.
    pub fn has_ahead(&self) -> bool
        ensures { result ≡ false → HasNothingAhead self.now }
    {
        self.ahead.is_some()
    }

    /// Returns whether no more input will arrive.
    pub fn has_ended(&self) -> bool
        ensures { result ≡ (connection_of self.now).has_ended }
    {
        self.has_ended
    }

    // Returns whether a message may be whole, or the input is at its end.
    fn may_go_on(&self) -> bool
        ensures { result ≡ may_go_on (connection_of self.now) }
    {
        self.has_ended || self.wanted <= self.unread().len()
    }

    // Returns whether messages are executed.
    fn is_open(&self) -> bool
        ensures { result ≡ is_open self.now.phase }
    {
        matches!(self.phase, Phase::Open)
    }

    /// Returns whether `execute_ahead` may find a message, a refusal, or the end of the input, and
    /// nothing is unsent.
    pub fn has_work(&self) -> bool
        ensures { result ≡ has_work (connection_of self.now) }
    {
        self.is_open() && self.may_go_on() && self.unsent().is_empty()
    }

    /// Returns whether more has to arrive before the next message is whole.
    ///
    /// Whoever asks this before each read holds no more than one message and one read.
    pub fn wants_input(&self) -> bool
        ensures { result ≡ wants_input (connection_of self.now) }
    {
        self.is_open() && !self.may_go_on()
    }

    /// Takes bytes that have arrived. After the end of the input, or of the messages, they are
    /// dropped.
    ///
    /// # Errors
    ///
    /// `AllocError` if an allocation fails. Nothing is taken.
    pub fn receive(&mut self, bytes: &[u8]) -> Result<(), AllocError>
        ensures taken { OnOk result
            (connection_of self.new ≡ with_input (connection_of self.old) bytes.now) }
        ensures refused { OnErr result (connection_of self.new ≡ connection_of self.old) }
        ensures ahead { StaysInStep self.old self.new }
    {
        if self.has_ended || !self.is_open() {
            return Ok(());
        }
        self.input.add(bytes)
    }

    /// Notes that no more input will arrive.
    pub fn end_input(&mut self)
        ensures ended { connection_of self.new ≡ with_end (connection_of self.old) }
        ensures ahead { StaysInStep self.old self.new }
    {
        self.has_ended = true;
    }

    /// Executes the whole messages that have arrived, within the limit, as `Executor::execute` does,
    /// ahead.
    ///
    /// # Errors
    ///
    /// `Lost` if memory for the responses cannot grow. With `keep_ahead`, the connection is
    /// `Phase::Lost`: one message more was executed, or refused, than is answered.
    pub fn execute_ahead<S: Store, T: Ticks>(
        &mut self,
        executor: &mut Executor,
        register: &mut Register<S>,
        ticks: &mut T,
        options: &Options,
        limit: TurnLimit,
    ) -> Result<Executed, Lost>
        requires work { has_work (connection_of self.old) ≡ true }
        ensures executes { S.IsUsable register.new.store → (st : State)
            → Refines (S.content register.old.store) st
            → Executes result options.now.clock_route self.old.has_ended
            (S.failed register.old.store) (S.failed register.new.store) st
            (S.content register.new.store)
            (record {
              input = (connection_of self.old).unread;
              unread = Some (drop (consumed_of result) (connection_of self.old).unread);
              ticks_before = T.remaining ticks.old;
              ticks_after = T.remaining ticks.new;
              written_before = Some (connection_of self.old).unsent;
              written_after = Some (kept_of self.new).unsent;
            }) }
        ensures stays { connection_of self.new ≡ connection_of self.old }
        ensures ahead { kept_of self.new
            ≡ with_executed (connection_of self.old) result (kept_of self.new).unsent }
        ensures within { IfOk result (λ done.
            (done.consumed ≤ length (connection_of self.old).unread)
            × (done.count ≤ limit.messages)) }
        ensures pauses { IfOk result (PausesAt limit (kept_of self.new).unsent) }
        ensures progress { IfOk result
            (Progresses limit self.old.has_ended (connection_of self.old).unread []) }
        ensures until { S.IsUsable register.old.store → S.HasHonestDevice register.new.store
            → S.IsUsable register.new.store
            ⊎ ((st : State) → Refines (S.content register.old.store) st
            → WritesUntil options.now.clock_route (S.failed register.old.store) st
            (connection_of self.old).unread (T.remaining ticks.old)
            (Some (connection_of self.old).unsent) (Some (kept_of self.new).unsent)) }
        ensures left { AddsOnlyCrashStates S.StoreModel register.old.store register.new.store
            (λ m. S.IsUsable register.old.store × ((st : State)
            → Refines (S.content register.old.store) st
            → LeavesPrefix options.now.clock_route (S.failed register.old.store) st
            (connection_of self.old).unread (T.remaining ticks.old)
            (connection_of self.old).unsent (kept_of self.new).unsent m)) }
        ensures follows { RowsFollow S.StoreModel register.old.store register.new.store }
        ensures begins { BeginsNoGroup S.StoreModel register.old.store register.new.store }
        ensures ends { EndsNoGroup S.StoreModel register.old.store register.new.store }
    {
        self.output.clear();
        let input = self.input.as_slice();
        let output = &mut self.output.bytes;
        let result = executor.execute(
            register,
            ticks,
            options,
            input,
            self.has_ended,
            limit,
            output,
        );
        self.ahead = Some(result);
        result
    }

    // Takes what was executed from the input.
    fn note_executed(&mut self, executed: &Result<Executed, Lost>)
        ensures connection { connection_of self.new ≡ with_executed (connection_of self.old)
            executed.now (connection_of self.old).unsent }
        ensures ahead { StaysInStep self.old self.new }
    {
        match executed {
            Ok(done) => {
                self.input.take(done.consumed);
                self.wanted = wanted_of(done.progress);
                self.phase = phase_of(done.progress);
            }
            Err(_) => self.phase = Phase::Lost,
        }
    }

    /// Keeps what was executed ahead: the messages are no longer unread, and their responses are to
    /// be sent.
    pub fn keep_ahead(&mut self)
        ensures kept { connection_of self.new ≡ kept_of self.old }
        ensures ahead { HasNothingAhead self.new }
    {
        if let Some(executed) = self.ahead.take() {
            self.note_executed(&executed);
        }
    }

    /// Drops what was executed ahead: its responses are not sent, and the messages are unread.
    pub fn drop_ahead(&mut self)
        ensures dropped { connection_of self.new ≡ connection_of self.old }
        ensures ahead { HasNothingAhead self.new }
    {
        if self.ahead.take().is_some() {
            self.output.clear();
        }
    }

    /// Notes that the first `count` unsent bytes were sent: all of them if there are fewer.
    pub fn advance(&mut self, count: usize)
        ensures sent { connection_of self.new ≡ with_sent (connection_of self.old) count }
        ensures ahead { StaysInStep self.old self.new }
    {
        if self.ahead.is_none() {
            self.output.take(count);
        }
    }

    /// Executes no further message. What is unsent is still to be sent.
    pub fn stop(&mut self)
        ensures stopped { connection_of self.new ≡ with_stop (connection_of self.old) }
        ensures ahead { StaysInStep self.old self.new }
    {
        if self.is_open() {
            self.phase = Phase::Stopped;
        }
    }
}
