//! Executes the messages that have arrived.
ghost use Rattle.std.specs.Prelude.{◌≡◌, ◌≤◌, ◌<◌, ◌^◌, ℕ, Option, Some, None, string_bytes, length, vec_len, drop, option_map, IfOk, IfSome, OnOk, ◌⊎◌};
ghost use Rattle.model.specs.State.{State};
ghost use Rattle.settle.specs.StoreContract.{AddsOnlyCrashStates, BeginsNoGroup, EndsNoGroup};
ghost use Rattle.register.specs.Refinement.{Refines};
ghost use Rattle.http_messages.specs.ReadBuffer.{buffered_bytes, remaining_input};
ghost use Rattle.http_messages.specs.Reading.{IsAtHand, IsBufferedAhead, IsRead, message_length};
ghost use Rattle.std.specs.Io.KnownBytes.{Keeps};
ghost use Rattle.http_messages.specs.Table.{table};
ghost use Rattle.json_api.specs.ResponseBuffers.{HasCapacity};
ghost use Rattle.api.specs.Crashes.{LeavesNext, LeavesPrefix};
ghost use Rattle.api.specs.Executing.{Executes, IsNextOf, IsReady, PausesAt, Progresses, StaysWithin, body_of, consumed_of, read_as};
ghost use Rattle.api.specs.Serving.{IsUnavailableResponse, RefinesReachable, Responds, WritesUntil, end_of};
ghost use Rattle.api.specs.Step.{IsUnavailableText};

use crate::call::write_response;
use crate::reply::put_refused;
use crate::serving::{End, Options, Ticks};
use crate::tally::Tally;
use crate::tick::move_clock;
use http_messages::{
    Arrived, NextFault, NextMessage, ReadBuffer, Request, Route, next_arrived, next_message, router,
};
use httparse::spans::{EMPTY_HEADER_SPAN, HeaderSpan};
use json_api::{Failure, ResponseBuffer};
use matchit::Router;
use numbers::Spid;
use register::Register;
use settle::Store;
use std::alloc::{AllocError, Global};
use std::io::Read;

/// The most header fields that a message may have.
const FIELD_LIMIT: usize = 64;

/// What is left of the bytes after the messages that were executed.
#[derive(Clone, Copy, Debug, PartialEq, Eq)]
pub enum Progress {
    /// A part of a message, or nothing yet. It stays so with fewer than `wanted` bytes.
    Wants { wanted: usize },
    /// Not known: as much was executed as the limit allows.
    Paused,
    /// Nothing that is executed.
    Ended(End),
}

/// How many messages were answered, counting a refused one; how many bytes they had, without those
/// of a refused one; and what is left.
#[derive(Clone, Copy, Debug, PartialEq, Eq)]
pub struct Executed {
    pub count: u64,
    pub consumed: usize,
    pub progress: Progress,
}

/// How much is executed at once.
#[derive(Clone, Copy, Debug, PartialEq, Eq)]
pub struct TurnLimit {
    /// The most messages.
    pub messages: u64,
    /// With more bytes of output than this, no further message is executed.
    pub output: usize,
}

/// How many messages were answered before the one whose response could not be appended.
#[derive(Clone, Copy, Debug, PartialEq, Eq)]
pub struct Lost {
    pub count: u64,
}

/// Executes messages. It holds the paths and the buffers that all connections share.
#[derive(Drop)]
pub struct Executor {
    pub(crate) alloc: Global,
    pub(crate) router: Router<Route>,
    pub(crate) headers: Vec<HeaderSpan>,
    pub(crate) response: ResponseBuffer,
    /// What `execute` has executed since this was set last. It is not part of any contract.
    pub tally: Tally,
    ghost paths: { router ≡ table },
    ghost fields: { vec_len headers ≡ 64 },
    ghost capacity: { HasCapacity 512 response },
}

// Moves the clock to the minute that `ticks` supplies, executes the message, and writes the
// response to `response`. If the clock cannot be moved, that failure is the response and the
// message is not executed.
// Inlined: every message passes here, and each call clears and moves its result.
#[inline(always)]
fn tick_and_answer<S: Store, T: Ticks>(
    alloc: Global,
    register: &mut Register<S>,
    clock: bool,
    ticks: &mut T,
    request: &Request,
    body: &[u8],
    response: &mut ResponseBuffer,
)
    requires { HasCapacity 512 response.old }
    ensures capacity { HasCapacity 512 response.new }
    ensures usable { S.IsUsable register.new.store → S.IsUsable register.old.store }
    ensures rises { S.failed register.old.store ≤ S.failed register.new.store }
    ensures honest { S.HasHonestDevice register.new.store → S.HasHonestDevice register.old.store }
    ensures begins { BeginsNoGroup S.StoreModel register.old.store register.new.store }
    ensures ends { EndsNoGroup S.StoreModel register.old.store register.new.store }
    ensures stays { S.IsUsable register.old.store → S.HasHonestDevice register.new.store
        → IsUnavailableText (string_bytes response.new.text) ⊎ S.IsUsable register.new.store }
    ensures left { AddsOnlyCrashStates S.StoreModel register.old.store register.new.store
        (λ m. S.IsUsable register.old.store
        × LeavesNext clock (T.remaining ticks.old) (T.remaining ticks.new)
        (S.content register.old.store) m (NextMessage.Message request.now) body.now) }
    ensures responds { S.IsUsable register.new.store
        → Responds clock (T.remaining ticks.old) (T.remaining ticks.new)
        (S.failed register.old.store) (S.failed register.new.store)
        (NextMessage.Message request.now) body.now (string_bytes response.new.text)
        (S.content register.old.store) (S.content register.new.store) }
{
    let tick = ticks.next();
    match move_clock(register, tick) {
        Ok(()) => write_response(alloc, register, clock, request, body, response),
        Err(refusal) => put_refused(response, Failure::Refused(refusal)),
    }
}

// What is answered next: a message or a refusal, and where the body begins and ends.
#[derive(Clone, Copy, Debug)]
pub(crate) struct Next {
    pub message: NextMessage,
    pub head: usize,
    pub end: usize,
}

impl Next {
    // Returns who sent the message, if that is known.
    fn caller(&self) -> Option<Spid> {
        match self.message {
            NextMessage::Message(request) => request.caller,
            NextMessage::Refused(_) => None,
        }
    }
}

// Returns what is answered next, or what is left if nothing is.
#[inline(always)]
pub(crate) fn next_of(arrived: &Arrived) -> Result<Next, Progress>
    requires { message_length arrived.now < 2 ^ 64 }
    ensures { IsNextOf arrived.now result }
{
    match arrived {
        Arrived::Message { request, head } => Ok(Next {
            message: NextMessage::Message(*request),
            head: *head,
            end: *head + request.length,
        }),
        Arrived::Refused(fault) => Ok(Next {
            message: NextMessage::Refused(*fault),
            head: 0,
            end: 0,
        }),
        Arrived::Nothing => Err(Progress::Ended(End::Input)),
        Arrived::Part { wanted } => Err(Progress::Wants { wanted: *wanted }),
    }
}

impl Executor {
    /// Creates an executor.
    ///
    /// # Errors
    ///
    /// `AllocError` if an allocation fails.
    pub fn new(alloc: Global) -> Result<Executor, AllocError> {
        let Ok(router) = router(alloc) else {
            return Err(AllocError);
        };
        Ok(Executor {
            alloc,
            router,
            headers: vec![in alloc; EMPTY_HEADER_SPAN; FIELD_LIMIT]?,
            response: ResponseBuffer::new(alloc)?,
            tally: Tally::EMPTY,
        })
    }

    // Returns what the bytes that have been read begin with.
    #[tactic(auto, using(crate::proofs::NextLemmas::is_ready))]
    pub(crate) fn arrived_in(&mut self, bytes: &[u8]) -> Arrived
        ensures ready { IsReady bytes.now result }
        ensures response { self.new.response ≡ self.old.response }
    {
        next_arrived(bytes, false, &mut self.headers, &self.router)
    }

    // Reads the next message into `arrived`.
    #[inline(never)]
    fn read_next<R: Read>(
        &mut self,
        arrived: &mut Arrived,
        buffer: &mut ReadBuffer,
        reader: &mut R,
    ) -> Result<(), NextFault>
        requires ahead { length (buffered_bytes buffer.old) ≤ 8192 }
        ensures input { Keeps (remaining_input buffer.old (R.remaining reader.old))
            (remaining_input buffer.new (R.remaining reader.new)) }
        ensures at_hand { OnOk result
            (IsAtHand (buffered_bytes buffer.new) (R.remaining reader.new) arrived.new) }
        ensures ahead { OnOk result (IsBufferedAhead (buffered_bytes buffer.new) arrived.new) }
        ensures read { IfSome (remaining_input buffer.old (R.remaining reader.old))
            (λ input. IsRead (read_as result arrived.new) input (R.remaining reader.new)) }
    {
        match next_message(buffer, &mut self.headers, &self.router, reader) {
            Ok(next) => {
                *arrived = next;
                Ok(())
            }
            Err(fault) => Err(fault),
        }
    }

    // Reads the next message into `arrived`, unless a message is ready there.
    #[inline(always)]
    pub(crate) fn next_message<R: Read>(
        &mut self,
        arrived: &mut Arrived,
        buffer: &mut ReadBuffer,
        reader: &mut R,
    ) -> Result<(), NextFault>
        requires ready { IsReady (buffered_bytes buffer.old) arrived.old }
        requires ahead { length (buffered_bytes buffer.old) ≤ 8192 }
        ensures input { Keeps (remaining_input buffer.old (R.remaining reader.old))
            (remaining_input buffer.new (R.remaining reader.new)) }
        ensures at_hand { OnOk result
            (IsAtHand (buffered_bytes buffer.new) (R.remaining reader.new) arrived.new) }
        ensures ahead { OnOk result (IsBufferedAhead (buffered_bytes buffer.new) arrived.new) }
        ensures read { IfSome (remaining_input buffer.old (R.remaining reader.old))
            (λ input. IsRead (read_as result arrived.new) input (R.remaining reader.new)) }
    {
        match arrived {
            Arrived::Message { .. } => Ok(()),
            Arrived::Refused(_) | Arrived::Nothing | Arrived::Part { .. } => {
                self.read_next(arrived, buffer, reader)
            }
        }
    }

    // Answers what is next in the bytes, and leaves the response in `self.response`. Returns why
    // serving ends if it is the last one.
    // Inlined: every message passes here, and each call clears and moves its result.
    #[inline(always)]
    pub(crate) fn respond<S: Store, T: Ticks>(
        &mut self,
        register: &mut Register<S>,
        clock: bool,
        ticks: &mut T,
        bytes: &[u8],
        next: &Next,
    ) -> Option<End>
        requires body { next.now.head ≤ next.now.end }
        requires within { next.now.end ≤ length bytes.now }
        ensures end { result ≡ end_of next.now.message }
        ensures usable { S.IsUsable register.new.store → S.IsUsable register.old.store }
        ensures rises { S.failed register.old.store ≤ S.failed register.new.store }
        ensures honest { S.HasHonestDevice register.new.store
            → S.HasHonestDevice register.old.store }
        ensures begins { BeginsNoGroup S.StoreModel register.old.store register.new.store }
        ensures ends { EndsNoGroup S.StoreModel register.old.store register.new.store }
        ensures stays { S.IsUsable register.old.store → S.HasHonestDevice register.new.store
            → IsUnavailableResponse next.now.message (string_bytes self.new.response.text)
            ⊎ S.IsUsable register.new.store }
        ensures left { AddsOnlyCrashStates S.StoreModel register.old.store register.new.store
            (λ m. S.IsUsable register.old.store
            × LeavesNext clock (T.remaining ticks.old) (T.remaining ticks.new)
            (S.content register.old.store) m next.now.message (body_of next.now bytes.now)) }
        ensures responds { S.IsUsable register.new.store
            → Responds clock (T.remaining ticks.old) (T.remaining ticks.new)
            (S.failed register.old.store) (S.failed register.new.store) next.now.message
            (body_of next.now bytes.now) (string_bytes self.new.response.text)
            (S.content register.old.store) (S.content register.new.store) }
    {
        match &next.message {
            NextMessage::Message(request) => {
                let body = &bytes[next.head..next.end];
                let response = &mut self.response;
                tick_and_answer(self.alloc, register, clock, ticks, request, body, response);
                if request.closes {
                    Some(End::Closed)
                } else {
                    None
                }
            }
            NextMessage::Refused(fault) => {
                put_refused(&mut self.response, Failure::Message(*fault));
                Some(End::Refused(*fault))
            }
        }
    }

    /// Executes the whole messages at the start of `input`, within the limit, and appends each
    /// response to `output` before the next message is executed. `has_ended` says that no more input
    /// follows.
    ///
    /// Each message takes a minute of `ticks` first, as in `serve`. What is refused with `BadHead`,
    /// `TooLarge` or `CutBody` takes none, is answered, and ends the messages.
    ///
    /// # Errors
    ///
    /// `Lost` if `output` cannot grow. The message was executed, or refused; nothing of its response
    /// is appended.
    pub fn execute<S: Store, T: Ticks>(
        &mut self,
        register: &mut Register<S>,
        ticks: &mut T,
        options: &Options,
        input: &[u8],
        has_ended: bool,
        limit: TurnLimit,
        output: &mut Vec<u8>,
    ) -> Result<Executed, Lost>
        // If the store is usable afterwards: every message that was executed, its response, and
        // what is left of the input.
        ensures executes { S.IsUsable register.new.store → (st : State)
            → Refines (S.content register.old.store) st
            → Executes result options.now.clock_route has_ended
            (S.failed register.old.store) (S.failed register.new.store) st
            (S.content register.new.store)
            (record {
              input = input.now;
              unread = Some (drop (consumed_of result) input.now);
              ticks_before = T.remaining ticks.old;
              ticks_after = T.remaining ticks.new;
              written_before = Some output.old.items;
              written_after = Some output.new.items;
            }) }
        ensures within { IfOk result
            (λ done. (done.consumed ≤ length input.now) × (done.count ≤ limit.messages)) }
        ensures pauses { IfOk result (PausesAt limit output.new.items) }
        ensures output { StaysWithin limit.output output.old.items output.new.items }
        ensures progress { IfOk result
            (Progresses limit has_ended input.now output.old.items) }
        // If the store shuts over an honest device: the responses up to some `Storage` or
        // `NoMemory` are those of a run.
        ensures until { S.IsUsable register.old.store → S.HasHonestDevice register.new.store
            → S.IsUsable register.new.store
            ⊎ ((st : State) → Refines (S.content register.old.store) st
            → WritesUntil options.now.clock_route (S.failed register.old.store) st input.now
            (T.remaining ticks.old) (Some output.old.items) (Some output.new.items)) }
        ensures state { S.IsUsable register.new.store → (st : State)
            → Refines (S.content register.old.store) st
            → RefinesReachable st (S.content register.new.store) }
        // Over an honest device: a crash leaves what it could leave before, or what a prefix of the
        // messages leads to.
        ensures left { AddsOnlyCrashStates S.StoreModel register.old.store register.new.store
            (λ m. S.IsUsable register.old.store × ((st : State)
            → Refines (S.content register.old.store) st
            → LeavesPrefix options.now.clock_route (S.failed register.old.store) st input.now
            (T.remaining ticks.old) output.old.items output.new.items m)) }
        ensures usable { S.IsUsable register.new.store → S.IsUsable register.old.store }
        ensures rises { S.failed register.old.store ≤ S.failed register.new.store }
        ensures honest { S.HasHonestDevice register.new.store
            → S.HasHonestDevice register.old.store }
        ensures begins { BeginsNoGroup S.StoreModel register.old.store register.new.store }
        ensures ends { EndsNoGroup S.StoreModel register.old.store register.new.store }
    {
        let clock = options.clock_route;
        let mut consumed = 0;
        for count in 0..limit.messages {
            if output.len() > limit.output {
                return Ok(Executed {
                    count,
                    consumed,
                    progress: Progress::Paused,
                });
            }
            let rest = &input[consumed..];
            let arrived = next_arrived(rest, has_ended, &mut self.headers, &self.router);
            let next = match next_of(&arrived) {
                Ok(next) => next,
                Err(progress) => {
                    return Ok(Executed {
                        count,
                        consumed,
                        progress,
                    });
                }
            };
            let end = self.respond(register, clock, ticks, rest, &next);
            if output
                .extend_from_slice(self.response.text.as_bytes())
                .is_err()
            {
                return Err(Lost { count });
            }
            self.tally
                .note(next.caller(), self.response.text.as_bytes());
            consumed += next.end;
            if let Some(end) = end {
                return Ok(Executed {
                    count: count + 1,
                    consumed,
                    progress: Progress::Ended(end),
                });
            }
        }
        Ok(Executed {
            count: limit.messages,
            consumed,
            progress: Progress::Paused,
        })
    }
}
