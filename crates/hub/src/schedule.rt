//! Plays schedules over connections whose bytes are known.
ghost use Rattle.std.specs.Prelude.{◌≡◌, ℕ, List, ◌++◌, OnOk, OnErr};
ghost use Rattle.model.specs.State.{State};
ghost use Rattle.register.specs.Refinement.{Refines};
ghost use Rattle.api.specs.Run.{Exchange};
ghost use Rattle.hub.specs.Rows.{RowsFollow};
ghost use Rattle.hub.specs.Schedules.{AreAnswered, Happens, HappensAt, HasTurn, IsAnswered, Plays, TakesSteps, TakesTurns, client_of, exchanges_at, with_arrived, with_ended, with_received};

use crate::client::Client;
use api::{Executor, Options, Ticks, TurnLimit};
use register::Register;
use settle::Store;
use std::alloc::AllocError;

// With more bytes of responses than this, a turn ends.
const OUTPUT_LIMIT: usize = 65_536;

/// What happens to a client.
#[derive(Clone, Copy, Debug, PartialEq, Eq)]
pub enum Event {
    /// The next `count` bytes of its stream arrive, or all that are left.
    Arrives { count: usize },
    /// Its input ends: no more of its stream will arrive.
    Ends,
    /// Its connection executes at most `most` messages, if it has work. Their responses are to be
    /// sent.
    TakesTurn { most: u64 },
    /// It receives `count` bytes, or all that are to be sent.
    Receives { count: usize },
}

/// An event, and the place of its client.
#[derive(Clone, Copy, Debug, PartialEq, Eq)]
pub struct ScheduledEvent {
    pub place: usize,
    pub event: Event,
}

impl Client {
    // The next bytes of the stream arrive.
    fn arrive(&mut self, count: usize) -> Result<(), AllocError>
        ensures arrived { OnOk result (client_of self.new ≡ with_arrived (client_of self.old) count) }
        ensures refused { OnErr result (client_of self.new ≡ client_of self.old) }
    {
        if self.connection.has_ended() {
            return Ok(());
        }
        let end = self.arrived + count.min(self.stream.len() - self.arrived);
        self.connection.receive(&self.stream[self.arrived..end])?;
        self.arrived = end;
        Ok(())
    }

    // The input ends.
    fn end(&mut self)
        ensures { client_of self.new ≡ with_ended (client_of self.old) }
    {
        self.connection.end_input();
    }

    // Bytes are sent.
    fn receive(&mut self, count: usize) -> Result<(), AllocError>
        ensures received { OnOk result
            (client_of self.new ≡ with_received (client_of self.old) count) }
        ensures refused { OnErr result (client_of self.new ≡ client_of self.old) }
    {
        let unsent = self.connection.unsent();
        let count = count.min(unsent.len());
        self.received.extend_from_slice(&unsent[..count])?;
        self.connection.advance(count);
        Ok(())
    }

    // The connection has a turn.
    fn turn<S: Store, T: Ticks>(
        &mut self,
        executor: &mut Executor,
        register: &mut Register<S>,
        ticks: &mut T,
        options: &Options,
        most: u64,
    )
        ensures turn { HasTurn most (client_of self.old) (client_of self.new) }
        ensures law { S.IsUsable register.new.store → (st : State)
            → Refines (S.content register.old.store) st
            → (earlier : List Exchange) → IsAnswered (client_of self.old) earlier
            → TakesSteps options.now.clock_route (S.failed register.old.store)
            (S.failed register.new.store) st (S.content register.new.store)
            (T.remaining ticks.old) (T.remaining ticks.new)
            (λ xs. IsAnswered (client_of self.new) (earlier ++ xs)) }
        ensures follows { RowsFollow S.StoreModel register.old.store register.new.store }
    {
        let limit = TurnLimit {
            messages: most,
            output: OUTPUT_LIMIT,
        };
        if self.connection.has_work() {
            // A lost response ends the connection.
            let _ = self
                .connection
                .execute_ahead(executor, register, ticks, options, limit);
            self.connection.keep_ahead();
        }
    }

    // The event happens.
    fn meet<S: Store, T: Ticks>(
        &mut self,
        executor: &mut Executor,
        register: &mut Register<S>,
        ticks: &mut T,
        options: &Options,
        event: Event,
    ) -> Result<(), AllocError>
        ensures happens { OnOk result (Happens event (client_of self.old) (client_of self.new)) }
        ensures refused { OnErr result (client_of self.new ≡ client_of self.old) }
        ensures law { S.IsUsable register.new.store → (st : State)
            → Refines (S.content register.old.store) st
            → (earlier : List Exchange) → IsAnswered (client_of self.old) earlier
            → TakesSteps options.now.clock_route (S.failed register.old.store)
            (S.failed register.new.store) st (S.content register.new.store)
            (T.remaining ticks.old) (T.remaining ticks.new)
            (λ xs. IsAnswered (client_of self.new) (earlier ++ xs)) }
        ensures follows { RowsFollow S.StoreModel register.old.store register.new.store }
    {
        match event {
            Event::Arrives { count } => self.arrive(count)?,
            Event::Ends => self.end(),
            Event::TakesTurn { most } => self.turn(executor, register, ticks, options, most),
            Event::Receives { count } => self.receive(count)?,
        }
        Ok(())
    }
}

// The event happens to the client at its place, if there is one.
fn meet_at<S: Store, T: Ticks>(
    clients: &mut [Client],
    executor: &mut Executor,
    register: &mut Register<S>,
    ticks: &mut T,
    options: &Options,
    scheduled: ScheduledEvent,
) -> Result<(), AllocError>
    ensures happens { OnOk result
        (HappensAt scheduled.place scheduled.event clients.old clients.new) }
    ensures law { S.IsUsable register.new.store → (st : State)
        → Refines (S.content register.old.store) st
        → (earlier : ℕ → List Exchange) → AreAnswered clients.old earlier
        → TakesTurns options.now.clock_route (S.failed register.old.store)
        (S.failed register.new.store) st (S.content register.new.store)
        (T.remaining ticks.old) (T.remaining ticks.new)
        (λ turns. AreAnswered clients.new (λ place. earlier place ++ exchanges_at place turns)) }
    ensures follows { RowsFollow S.StoreModel register.old.store register.new.store }
{
    if scheduled.place < clients.len() {
        let client = &mut clients[scheduled.place];
        client.meet(executor, register, ticks, options, scheduled.event)
    } else {
        Ok(())
    }
}

/// Plays a schedule: one event after another, each at the client at its place. An event at a place
/// where there is no client does nothing.
///
/// # Errors
///
/// `AllocError` if an allocation fails. The events before it have happened, and no later one.
pub fn play<S: Store, T: Ticks>(
    clients: &mut [Client],
    executor: &mut Executor,
    register: &mut Register<S>,
    ticks: &mut T,
    options: &Options,
    schedule: &[ScheduledEvent],
) -> Result<(), AllocError>
    ensures plays { OnOk result (Plays schedule.now clients.old clients.new) }
    // All that is executed is one chain of steps, and each client gets the responses to its own
    // messages.
    ensures law { S.IsUsable register.new.store → (st : State)
        → Refines (S.content register.old.store) st
        → (earlier : ℕ → List Exchange) → AreAnswered clients.old earlier
        → TakesTurns options.now.clock_route (S.failed register.old.store)
        (S.failed register.new.store) st (S.content register.new.store)
        (T.remaining ticks.old) (T.remaining ticks.new)
        (λ turns. AreAnswered clients.new (λ place. earlier place ++ exchanges_at place turns)) }
    ensures follows { RowsFollow S.StoreModel register.old.store register.new.store }
{
    for scheduled in schedule {
        meet_at(clients, executor, register, ticks, options, *scheduled)?;
    }
    Ok(())
}
