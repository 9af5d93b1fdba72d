//! The serving loop: reads messages, executes them, and writes the responses.
ghost use Rattle.std.specs.Prelude.{◌≡◌, ◌≤◌, ℕ, List, [], Option, Some, None, option_map, IfSome, ◌⊎◌};
ghost use Rattle.numbers.specs.declared.minute.Minute.{Minute as MinuteImpl};
ghost use Rattle.model.specs.State.{State};
ghost use Rattle.register.specs.Refinement.{Refines};
ghost use Rattle.api.specs.Serving.{RefinesReachable, Serves, WritesUntil};
ghost use Rattle.api.specs.Ticks.{ConsumesTick};

use crate::executor::{Executor, next_of};
use http_messages::{Arrived, MessageFault, NextFault, ReadBuffer, send_whole};
use numbers::Minute;
use register::Register;
use settle::Store;
use std::alloc::Global;
use std::io::{Read, Write};

/// Supplies the minutes at which messages are executed.
pub trait Ticks {
    // What the coming calls of `next` return, in order, if that is known.
    ghost remaining: { Self → Option (List (Option ℕ)) } = { λ _. None };

    /// Returns the minute to which the clock moves before the next message, if there is one.
    fn next(&mut self) -> Option<Minute>
        ensures { ConsumesTick (remaining self.old) (option_map (λ (m : MinuteImpl). m.number)
            result) (remaining self.new) };
}

/// Supplies no minute, so that only `POST /clock` moves the clock.
#[derive(Clone, Copy, Debug, PartialEq, Eq)]
pub struct NoTicks;

impl Ticks for NoTicks {
    ghost remaining = { λ _. Some [] };

    fn next(&mut self) -> Option<Minute> {
        None
    }
}

/// The optional parts of the interface.
#[derive(Clone, Copy, Debug, PartialEq, Eq)]
pub struct Options {
    /// Whether `POST /clock` is served.
    pub clock_route: bool,
}

/// Why serving ended without a fault.
#[derive(Clone, Copy, Debug, PartialEq, Eq)]
pub enum End {
    /// The input ended.
    Input,
    /// A message asked to close the connection, or was of HTTP/1.0.
    Closed,
    /// A message was refused with this fault; nothing after it is read.
    Refused(MessageFault),
}

/// How many messages were answered, counting a refused one, and why serving ended.
#[derive(Clone, Copy, Debug, PartialEq, Eq)]
pub struct Served {
    pub count: u64,
    pub end: End,
}

/// What failed, and how many messages had been answered in full.
#[derive(Clone, Copy, Debug, PartialEq, Eq)]
pub enum Fault {
    /// The reader failed.
    Read(u64),
    /// The writer failed.
    Write(u64),
    /// An allocation failed, or there were too many messages to count.
    Memory(u64),
}

// Returns whether a whole message has arrived.
fn is_message(arrived: &Arrived) -> bool {
    matches!(arrived, Arrived::Message { .. })
}

/// Serves the messages of `reader` in order, and writes their responses to `writer`.
///
/// Before a message is executed, the clock moves to the next minute of `ticks`; a minute below the
/// present one is ignored. If the move fails with `Storage` or `NoMemory`, that is the response and
/// the message is not executed. A message refused with `BadHead`, `TooLarge` or `CutBody` takes no
/// minute, and nothing after it is read.
///
/// Each response goes to the writer before the next message is executed. The writer is flushed
/// before the reader is asked for more and when serving ends, but not while the next message has
/// already been read in full. So a buffered writer collects the responses to messages that arrive
/// together, and a client that waits for a response gets it.
///
/// # Errors
///
/// - `Read` if the reader fails, `Memory` if a buffer cannot be allocated or after 2^64 - 1
///   messages. The message being read has not been executed.
/// - `Write` if the writer fails. Unless it was refused as above, the message whose response was
///   cut short had its step: it was executed, or the move of the clock failed.
pub fn serve<S: Store, T: Ticks, R: Read, W: Write>(
    alloc: Global,
    register: &mut Register<S>,
    ticks: &mut T,
    options: &Options,
    reader: &mut R,
    writer: &mut W,
) -> Result<Served, Fault>
    // If the store is usable when serving ends and the reader's bytes are known: every message, its
    // response, and what has been read, supplied and written when serving ends.
    ensures serves { S.IsUsable register.new.store → (st : State)
        → Refines (S.content register.old.store) st
        → IfSome (R.remaining reader.old)
        (λ input. Serves result options.now.clock_route (S.failed register.old.store)
        (S.failed register.new.store) st (S.content register.new.store)
        (record {
          input = input;
          unread = R.remaining reader.new;
          ticks_before = T.remaining ticks.old;
          ticks_after = T.remaining ticks.new;
          written_before = W.contents writer.old;
          written_after = W.contents writer.new;
        })) }
    // If the store shuts over an honest device: the responses up to some `Storage` or `NoMemory`
    // are those of a run.
    ensures until { S.IsUsable register.old.store → S.HasHonestDevice register.new.store
        → S.IsUsable register.new.store
        ⊎ ((st : State) → Refines (S.content register.old.store) st
        → IfSome (R.remaining reader.old)
        (λ input. WritesUntil options.now.clock_route (S.failed register.old.store) st input
        (T.remaining ticks.old) (W.contents writer.old) (W.contents writer.new))) }
    // If the store is usable when serving ends, even if the bytes are not known: the content
    // refines a state that some inputs lead to.
    ensures state { S.IsUsable register.new.store → (st : State)
        → Refines (S.content register.old.store) st
        → RefinesReachable st (S.content register.new.store) }
    // Serving does not make a shut store usable or a dishonest device honest, nor does it forget a
    // failure.
    ensures usable { S.IsUsable register.new.store → S.IsUsable register.old.store }
    ensures rises { S.failed register.old.store ≤ S.failed register.new.store }
    ensures honest { S.HasHonestDevice register.new.store → S.HasHonestDevice register.old.store }
{
    let (Ok(mut buffer), Ok(mut executor)) = (ReadBuffer::new(alloc), Executor::new(alloc)) else {
        return Err(Fault::Memory(0));
    };
    let clock = options.clock_route;
    // Nothing has been read yet.
    let mut arrived = Arrived::Part { wanted: 1 };
    for count in 0..u64::MAX {
        match executor.next_message(&mut arrived, &mut buffer, reader) {
            Ok(()) => {}
            Err(NextFault::Read) => return Err(Fault::Read(count)),
            Err(NextFault::Memory) => return Err(Fault::Memory(count)),
        }
        let Ok(next) = next_of(&arrived) else {
            let end = End::Input;
            return Ok(Served { count, end });
        };
        let end = executor.respond(register, clock, ticks, buffer.buffered(), &next);
        buffer.discard(next.end);
        let following = executor.arrived_in(buffer.buffered());
        // Flush before a read: it may block on a client that is waiting for these responses.
        let flushes = end.is_some() || !is_message(&following);
        match send_whole(writer, executor.response.text.as_bytes(), flushes) {
            Ok(()) => {}
            Err(_) => return Err(Fault::Write(count)),
        }
        if let Some(end) = end {
            let count = count + 1;
            return Ok(Served { count, end });
        }
        arrived = following;
    }
    Err(Fault::Memory(u64::MAX))
}
