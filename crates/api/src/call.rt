//! Executes one message and writes its response.
ghost use Rattle.std.specs.Prelude.{◌≡◌, ℕ, ◌+◌, ◌*◌, ◌≤◌, List, Some, None, option_map, true, length, string_bytes, IfOk, IfErr, OnOk, ◌⊎◌};
ghost use Rattle.model.specs.State.{State, all_in_force};
ghost use Rattle.register.specs.Refinement.{Refines};
ghost use Rattle.register.specs.Crashes.{KeepsOrTakesStep, KeepsState};
ghost use Rattle.requests.specs.Calls.{called_of, input_of};
ghost use Rattle.http_messages.specs.Table.{allows_method as takes_method, offered_route};
ghost use Rattle.json_api.specs.Failures.{failure_text};
ghost use Rattle.json_api.specs.Forms.{ApiCall as ApiCallModel, RegisterCall, api_call_model as asked_model, json_of};
ghost use Rattle.json_api.specs.ResponseBuffers.{HasCapacity, IsEmpty, IsWritten};
ghost use Rattle.api.specs.Crashes.{LeavesCall, LeavesDispatched, LeavesStep};
ghost use Rattle.api.specs.ReplyBounds.{HasCapacityFor, AreReplyBounds};
ghost use Rattle.settle.specs.StoreContract.{AddsOnlyCrashStates, BeginsNoGroup, EndsNoGroup, IsAvailable, PreservesStore};
ghost use Rattle.api.specs.Step.{Step, Dispatches, DispatchesCallOn, IsCallerAdmitted, IsCallerRefused, BodyAsks, IdAsks, NumberAsks, CountAsks, PathAsks, Performs, IsPerformed, IsUnavailableRefusal, response_text, IsReplyAvailable, IsUnavailableText};

use crate::query::query;
use crate::reply::{ReplyBounds, put_refused, put_reply, put_success, reserve_body};
use http_messages::{MessageFault, Request, Route, allows_method, offered_route};
use json_api::{
    ApiCall, Failure, Fields, Flat, ResponseBuffer, api_call_of, json, plain_acknowledgement,
    plain_call, plain_query,
};
use model::Refusal;
use numbers::{Spid, Tn};
use register::Register;
use requests::{Call, Command};
use settle::Store;
use std::alloc::Global;

// Returns the route and the caller of a message. Judges the path first, then the method, then the
// caller.
fn route_and_caller(request: &Request, clock: bool) -> Result<(Route, Spid), MessageFault>
    ensures ok { IfOk result (λ found. (offered_route clock request.now.route ≡ Some found.0)
        × (takes_method found.0 request.now.method ≡ true)
        × (request.now.caller ≡ Some found.1)) }
    ensures err { IfErr result (λ fault. (from to : ℕ) (st : State) (body : List ℕ)
        → Dispatches from to st (offered_route clock request.now.route) request.now.method
        request.now.caller body (failure_text (Failure.Message fault)) st) }
{
    let Some(route) = offered_route(request.route, clock) else {
        return Err(MessageFault::NoPath);
    };
    if !allows_method(route, request.method) {
        return Err(MessageFault::BadMethod);
    }
    match request.caller {
        Some(caller) => Ok((route, caller)),
        None => Err(MessageFault::BadRequest),
    }
}

// Returns how many versions are in force.
fn count_rows<S: Store>(register: &mut Register<S>) -> Result<usize, Refusal>
    ensures kept { S.IsUsable register.new.store → (st : State)
        → Refines (S.content register.old.store) st → Refines (S.content register.new.store) st }
    ensures preserves { PreservesStore S.StoreModel register.old.store
        register.new.store (IsAvailable result) ⊥ }
    ensures left { AddsOnlyCrashStates S.StoreModel register.old.store register.new.store
        (λ m. S.IsUsable register.old.store × KeepsState (S.content register.old.store) m) }
    ensures count { IfOk result (λ count. S.IsUsable register.new.store → (st : State)
        → Refines (S.content register.old.store) st → length (all_in_force st) ≡ count) }
    ensures unavailable { IfErr result (λ refusal. S.IsUsable register.new.store → (st : State)
        → Refines (S.content register.old.store) st
        → IsUnavailableRefusal (S.failed register.old.store) (S.failed register.new.store)
        refusal) }
{
    match register.in_force() {
        Ok(rows) => Ok(rows.len()),
        Err(refusal) => Err(refusal),
    }
}

// Decides whether the caller may make the call, for calls whose caller the register does not judge.
// Only the administrator moves the clock; only a caller that the register knows sees the ids of a
// number.
fn admit<S: Store>(register: &mut Register<S>, caller: Spid, call: &Call) -> Result<(), Refusal>
    ensures kept { S.IsUsable register.new.store → (st : State)
        → Refines (S.content register.old.store) st → Refines (S.content register.new.store) st }
    ensures preserves { PreservesStore S.StoreModel register.old.store
        register.new.store (IsAvailable result) ⊥ }
    ensures left { AddsOnlyCrashStates S.StoreModel register.old.store register.new.store
        (λ m. S.IsUsable register.old.store × KeepsState (S.content register.old.store) m) }
    ensures ok { OnOk result (S.IsUsable register.new.store → (st : State)
        → Refines (S.content register.old.store) st
        → IsCallerAdmitted st caller.number (called_of call.now)) }
    ensures err { IfErr result (λ refusal. S.IsUsable register.new.store → (st : State)
        → Refines (S.content register.old.store) st
        → IsCallerRefused (S.failed register.old.store) (S.failed register.new.store) st
        caller.number (called_of call.now) refusal) }
{
    match call {
        Call::Clock { .. } if caller != Spid::NPAC => Err(Refusal::NotAdmin),
        Call::Number { .. } => register.knows(caller),
        _ => Ok(()),
    }
}

// The most ids in the reply to a donation.
const MOST_IDS: usize = 100;

// Returns how many rows, ids or downloads the reply to `call` may have: rows for a registration,
// ids for a donation, downloads for a fetch.
fn bounds_of<S: Store>(register: &mut Register<S>, call: &Call) -> Result<ReplyBounds, Refusal>
    ensures kept { S.IsUsable register.new.store → (st : State)
        → Refines (S.content register.old.store) st → Refines (S.content register.new.store) st }
    ensures preserves { PreservesStore S.StoreModel register.old.store
        register.new.store (IsAvailable result) ⊥ }
    ensures left { AddsOnlyCrashStates S.StoreModel register.old.store register.new.store
        (λ m. S.IsUsable register.old.store × KeepsState (S.content register.old.store) m) }
    ensures bounds { IfOk result (λ bounds. S.IsUsable register.new.store → (st : State)
        → Refines (S.content register.old.store) st
        → AreReplyBounds st (called_of call.now) bounds) }
    ensures unavailable { IfErr result (λ refusal. S.IsUsable register.new.store → (st : State)
        → Refines (S.content register.old.store) st
        → IsUnavailableRefusal (S.failed register.old.store) (S.failed register.new.store)
        refusal) }
{
    match call {
        Call::Command(Command::RegisterCarrier { .. }) => {
            let rows = count_rows(register)?;
            Ok(ReplyBounds {
                rows,
                ..ReplyBounds::NONE
            })
        }
        Call::Command(Command::Donate { .. }) => Ok(ReplyBounds {
            ids: MOST_IDS,
            ..ReplyBounds::NONE
        }),
        Call::Downloads { count } => Ok(ReplyBounds {
            downloads: *count,
            ..ReplyBounds::NONE
        }),
        _ => Ok(ReplyBounds::NONE),
    }
}

// Reserves memory for the reply to `call` before the call is made, because nothing may fail after
// it.
fn reserve_reply<S: Store>(
    register: &mut Register<S>,
    call: &Call,
    response: &mut ResponseBuffer,
) -> Result<ReplyBounds, Refusal>
    requires empty { IsEmpty response.old }
    requires capacity { HasCapacity 512 response.old }
    ensures empty { IsEmpty response.new }
    ensures capacity { HasCapacity 512 response.new }
    ensures reserved { IfOk result (λ bounds. HasCapacityFor bounds response.new) }
    ensures kept { S.IsUsable register.new.store → (st : State)
        → Refines (S.content register.old.store) st → Refines (S.content register.new.store) st }
    ensures preserves { PreservesStore S.StoreModel register.old.store
        register.new.store (IsAvailable result) ⊥ }
    ensures left { AddsOnlyCrashStates S.StoreModel register.old.store register.new.store
        (λ m. S.IsUsable register.old.store × KeepsState (S.content register.old.store) m) }
    ensures bounds { IfOk result (λ bounds. S.IsUsable register.new.store → (st : State)
        → Refines (S.content register.old.store) st
        → AreReplyBounds st (called_of call.now) bounds) }
    ensures unavailable { IfErr result (λ refusal. S.IsUsable register.new.store → (st : State)
        → Refines (S.content register.old.store) st
        → IsUnavailableRefusal (S.failed register.old.store) (S.failed register.new.store)
        refusal) }
{
    let bounds = bounds_of(register, call)?;
    reserve_body(response, bounds)?;
    Ok(bounds)
}

// Makes a call that its caller may make, and writes the reply.
fn answer_admitted<S: Store>(
    register: &mut Register<S>,
    caller: Spid,
    call: &Call,
    response: &mut ResponseBuffer,
) -> Result<(), Failure>
    requires empty { IsEmpty response.old }
    requires capacity { HasCapacity 512 response.old }
    ensures ok { OnOk result (IsWritten response.new) }
    ensures capacity { HasCapacity 512 response.new }
    ensures preserves { PreservesStore S.StoreModel register.old.store
        register.new.store (IsReplyAvailable result) ⊥ }
    ensures left { AddsOnlyCrashStates S.StoreModel register.old.store register.new.store
        (λ m. S.IsUsable register.old.store × KeepsOrTakesStep (S.content register.old.store)
        (input_of caller.number (called_of call.now)) m) }
    ensures performs { S.IsUsable register.new.store → (st : State)
        → Refines (S.content register.old.store) st
        → IsCallerAdmitted st caller.number (called_of call.now)
        → IsPerformed (S.failed register.old.store) (S.failed register.new.store)
        (S.content register.new.store) st caller.number (RegisterCall (called_of call.now))
        (response_text result (string_bytes response.new.body)) }
{
    let bounds = reserve_reply(register, call, response)?;
    // A reply is large: `?` would move it more often.
    match register.answer(caller, call) {
        Ok(reply) => put_reply(response, &reply, bounds),
        Err(refusal) => Err(Failure::Refused(refusal)),
    }
}

// Makes a call if its caller may make it.
// Inlined: every message passes here, and each call clears and moves its result.
#[inline(always)]
fn answer<S: Store>(
    register: &mut Register<S>,
    caller: Spid,
    call: &Call,
    response: &mut ResponseBuffer,
) -> Result<(), Failure>
    requires empty { IsEmpty response.old }
    requires capacity { HasCapacity 512 response.old }
    ensures ok { OnOk result (IsWritten response.new) }
    ensures capacity { HasCapacity 512 response.new }
    ensures preserves { PreservesStore S.StoreModel register.old.store
        register.new.store (IsReplyAvailable result) ⊥ }
    ensures left { AddsOnlyCrashStates S.StoreModel register.old.store register.new.store
        (λ m. S.IsUsable register.old.store × LeavesCall (S.content register.old.store) m
        caller.number (RegisterCall (called_of call.now))) }
    ensures performs { S.IsUsable register.new.store
        → Performs (S.failed register.old.store) (S.failed register.new.store)
        (S.content register.old.store) (S.content register.new.store) caller.number
        (RegisterCall (called_of call.now))
        (response_text result (string_bytes response.new.body)) }
{
    admit(register, caller, call)?;
    answer_admitted(register, caller, call, response)
}

// Executes what a body asks.
fn answer_asked<S: Store>(
    alloc: Global,
    register: &mut Register<S>,
    caller: Spid,
    asked: &ApiCall<'_>,
    response: &mut ResponseBuffer,
) -> Result<(), Failure>
    requires empty { IsEmpty response.old }
    requires capacity { HasCapacity 512 response.old }
    ensures ok { OnOk result (IsWritten response.new) }
    ensures capacity { HasCapacity 512 response.new }
    ensures preserves { PreservesStore S.StoreModel register.old.store
        register.new.store (IsReplyAvailable result) ⊥ }
    ensures left { AddsOnlyCrashStates S.StoreModel register.old.store register.new.store
        (λ m. S.IsUsable register.old.store × LeavesCall (S.content register.old.store) m
        caller.number (asked_model asked.now)) }
    ensures performs { S.IsUsable register.new.store
        → Performs (S.failed register.old.store) (S.failed register.new.store)
        (S.content register.old.store) (S.content register.new.store) caller.number
        (asked_model asked.now) (response_text result (string_bytes response.new.body)) }
{
    match asked {
        ApiCall::Call(call) => answer(register, caller, call, response),
        ApiCall::Uri(uri) => query(alloc, register, caller, uri, response),
    }
}

// Executes what the members of a body ask on a route.
fn answer_fields<S: Store, F: Fields>(
    alloc: Global,
    register: &mut Register<S>,
    route: Route,
    caller: Spid,
    fields: &F,
    response: &mut ResponseBuffer,
) -> Result<(), Failure>
    requires empty { IsEmpty response.old }
    requires capacity { HasCapacity 512 response.old }
    ensures ok { OnOk result (IsWritten response.new) }
    ensures capacity { HasCapacity 512 response.new }
    ensures preserves { PreservesStore S.StoreModel register.old.store
        register.new.store (IsReplyAvailable result) ⊥ }
    ensures left { AddsOnlyCrashStates S.StoreModel register.old.store register.new.store
        (λ m. S.IsUsable register.old.store × ((body : List ℕ)
        → json_of body ≡ Some (F.value fields.now)
        → LeavesDispatched (S.content register.old.store) m (BodyAsks route body)
        caller.number)) }
    ensures calls { S.IsUsable register.new.store → (body : List ℕ)
        → json_of body ≡ Some (F.value fields.now)
        → DispatchesCallOn (S.failed register.old.store) (S.failed register.new.store)
        (S.content register.old.store) (S.content register.new.store) (BodyAsks route body)
        caller.number (response_text result (string_bytes response.new.body)) }
{
    match api_call_of(alloc, route, fields) {
        Ok(Some(asked)) => answer_asked(alloc, register, caller, &asked, response),
        Ok(None) => Err(Failure::Message(MessageFault::BadRequest)),
        Err(_) => Err(Failure::Refused(Refusal::NoMemory)),
    }
}

// Parses a body that `Flat` cannot read as a tree, and executes what it asks.
#[cold]
#[inline(never)]
fn answer_tree<S: Store>(
    alloc: Global,
    register: &mut Register<S>,
    route: Route,
    caller: Spid,
    body: &[u8],
    response: &mut ResponseBuffer,
) -> Result<(), Failure>
    requires empty { IsEmpty response.old }
    requires capacity { HasCapacity 512 response.old }
    ensures ok { OnOk result (IsWritten response.new) }
    ensures capacity { HasCapacity 512 response.new }
    ensures preserves { PreservesStore S.StoreModel register.old.store
        register.new.store (IsReplyAvailable result) ⊥ }
    ensures left { AddsOnlyCrashStates S.StoreModel register.old.store register.new.store
        (λ m. S.IsUsable register.old.store × LeavesDispatched (S.content register.old.store) m
        (BodyAsks route body.now) caller.number) }
    ensures calls { S.IsUsable register.new.store
        → DispatchesCallOn (S.failed register.old.store) (S.failed register.new.store)
        (S.content register.old.store) (S.content register.new.store) (BodyAsks route body.now)
        caller.number (response_text result (string_bytes response.new.body)) }
{
    match json(alloc, body) {
        Ok(Some(value)) => answer_fields(alloc, register, route, caller, &value, response),
        Ok(None) => Err(Failure::Message(MessageFault::BadRequest)),
        Err(refused) => Err(Failure::from(refused)),
    }
}

// Parses a body that is not written plainly, and executes what it asks.
#[inline(never)]
fn answer_parsed<S: Store>(
    alloc: Global,
    register: &mut Register<S>,
    route: Route,
    caller: Spid,
    body: &[u8],
    response: &mut ResponseBuffer,
) -> Result<(), Failure>
    requires empty { IsEmpty response.old }
    requires capacity { HasCapacity 512 response.old }
    ensures ok { OnOk result (IsWritten response.new) }
    ensures capacity { HasCapacity 512 response.new }
    ensures preserves { PreservesStore S.StoreModel register.old.store
        register.new.store (IsReplyAvailable result) ⊥ }
    ensures left { AddsOnlyCrashStates S.StoreModel register.old.store register.new.store
        (λ m. S.IsUsable register.old.store × LeavesDispatched (S.content register.old.store) m
        (BodyAsks route body.now) caller.number) }
    ensures calls { S.IsUsable register.new.store
        → DispatchesCallOn (S.failed register.old.store) (S.failed register.new.store)
        (S.content register.old.store) (S.content register.new.store) (BodyAsks route body.now)
        caller.number (response_text result (string_bytes response.new.body)) }
{
    let mut flat = Flat::new();
    if flat.read(body) {
        answer_fields(alloc, register, route, caller, &flat, response)
    } else {
        answer_tree(alloc, register, route, caller, body, response)
    }
}

// Parses the body of a message on a route, and executes what it asks.
// Inlined: every message passes here, and each call clears and moves its result.
#[inline(always)]
fn answer_body<S: Store>(
    alloc: Global,
    register: &mut Register<S>,
    route: Route,
    caller: Spid,
    body: &[u8],
    response: &mut ResponseBuffer,
) -> Result<(), Failure>
    requires empty { IsEmpty response.old }
    requires capacity { HasCapacity 512 response.old }
    ensures ok { OnOk result (IsWritten response.new) }
    ensures capacity { HasCapacity 512 response.new }
    ensures preserves { PreservesStore S.StoreModel register.old.store
        register.new.store (IsReplyAvailable result) ⊥ }
    ensures left { AddsOnlyCrashStates S.StoreModel register.old.store register.new.store
        (λ m. S.IsUsable register.old.store × LeavesDispatched (S.content register.old.store) m
        (BodyAsks route body.now) caller.number) }
    ensures calls { S.IsUsable register.new.store
        → DispatchesCallOn (S.failed register.old.store) (S.failed register.new.store)
        (S.content register.old.store) (S.content register.new.store) (BodyAsks route body.now)
        caller.number (response_text result (string_bytes response.new.body)) }
{
    match route {
        Route::Query => {
            if let Some(uri) = plain_query(body) {
                return query(alloc, register, caller, uri, response);
            }
        }
        Route::Acknowledge => {
            if let Some(call) = &plain_acknowledgement(body) {
                return answer(register, caller, call, response);
            }
        }
        _ => {
            if let Some(call) = &plain_call(route, body) {
                return answer(register, caller, call, response);
            }
        }
    }
    answer_parsed(alloc, register, route, caller, body, response)
}

// Returns the call of a version's path. Refuses a path without an id, and a body that is not empty.
fn version_call(id: Option<u64>, body: &[u8]) -> Result<Call, MessageFault>
    ensures ok { IfOk result (λ call. IdAsks id body.now (RegisterCall (called_of call))) }
    ensures err { IfErr result (λ fault. (fault ≡ MessageFault.BadRequest)
        × ((asked : ApiCallModel) → ¬ (IdAsks id body.now asked))) }
{
    match id {
        Some(id) if body.is_empty() => Ok(Call::Version { id }),
        _ => Err(MessageFault::BadRequest),
    }
}

// Returns the call of a number's path. Refuses a path without a valid telephone number, and a body
// that is not empty.
fn number_call(number: Option<u64>, body: &[u8]) -> Result<Call, MessageFault>
    ensures ok { IfOk result (λ call. NumberAsks number body.now (RegisterCall (called_of call))) }
    ensures err { IfErr result (λ fault. (fault ≡ MessageFault.BadRequest)
        × ((asked : ApiCallModel) → ¬ (NumberAsks number body.now asked))) }
{
    match number {
        Some(number) if body.is_empty() => match Tn::new(number) {
            Some(tn) => Ok(Call::Number { tn }),
            None => Err(MessageFault::BadRequest),
        },
        _ => Err(MessageFault::BadRequest),
    }
}

// The most downloads in one response.
const MOST_DOWNLOADS: u64 = 100;

// Returns the call of the path of a carrier's downloads. Refuses a count that is not from 1 to 100,
// and a body that is not empty.
fn downloads_call(count: Option<u64>, body: &[u8]) -> Result<Call, MessageFault>
    ensures ok { IfOk result (λ call. CountAsks count body.now (RegisterCall (called_of call))) }
    ensures err { IfErr result (λ fault. (fault ≡ MessageFault.BadRequest)
        × ((asked : ApiCallModel) → ¬ (CountAsks count body.now asked))) }
{
    match count {
        Some(count) if 1 <= count && count <= MOST_DOWNLOADS && body.is_empty() => {
            Ok(Call::Downloads {
                count: count as usize,
            })
        }
        _ => Err(MessageFault::BadRequest),
    }
}

// Executes what a message asks on a route.
// Inlined: every message passes here, and each call clears and moves its result.
#[inline(always)]
fn answer_message<S: Store>(
    alloc: Global,
    register: &mut Register<S>,
    route: Route,
    caller: Spid,
    body: &[u8],
    response: &mut ResponseBuffer,
) -> Result<(), Failure>
    requires empty { IsEmpty response.old }
    requires capacity { HasCapacity 512 response.old }
    ensures ok { OnOk result (IsWritten response.new) }
    ensures capacity { HasCapacity 512 response.new }
    ensures preserves { PreservesStore S.StoreModel register.old.store
        register.new.store (IsReplyAvailable result) ⊥ }
    ensures left { AddsOnlyCrashStates S.StoreModel register.old.store register.new.store
        (λ m. S.IsUsable register.old.store × LeavesDispatched (S.content register.old.store) m
        (PathAsks route body.now) caller.number) }
    ensures calls { S.IsUsable register.new.store
        → DispatchesCallOn (S.failed register.old.store) (S.failed register.new.store)
        (S.content register.old.store) (S.content register.new.store) (PathAsks route body.now)
        caller.number (response_text result (string_bytes response.new.body)) }
{
    match route {
        Route::Version(id) => answer(register, caller, &version_call(id, body)?, response),
        Route::Number(number) => answer(register, caller, &number_call(number, body)?, response),
        Route::Downloads(count) => answer(
            register,
            caller,
            &downloads_call(count, body)?,
            response,
        ),
        _ => answer_body(alloc, register, route, caller, body, response),
    }
}

// Inlined: every message passes here, and each call clears and moves its result.
#[inline(always)]
fn reply<S: Store>(
    alloc: Global,
    register: &mut Register<S>,
    clock: bool,
    request: &Request,
    body: &[u8],
    response: &mut ResponseBuffer,
) -> Result<(), Failure>
    requires empty { IsEmpty response.old }
    requires capacity { HasCapacity 512 response.old }
    ensures ok { OnOk result (IsWritten response.new) }
    ensures capacity { HasCapacity 512 response.new }
    ensures preserves { PreservesStore S.StoreModel register.old.store
        register.new.store (IsReplyAvailable result) ⊥ }
    ensures left { AddsOnlyCrashStates S.StoreModel register.old.store register.new.store
        (λ m. S.IsUsable register.old.store
        × LeavesStep clock None (S.content register.old.store) m request.now body.now) }
    ensures step { S.IsUsable register.new.store → (st : State)
        → Refines (S.content register.old.store) st → (after : State)
        × Step clock None (S.failed register.old.store) (S.failed register.new.store) st request.now
        body.now (response_text result (string_bytes response.new.body)) after
        × Refines (S.content register.new.store) after }
{
    match route_and_caller(request, clock) {
        Ok((route, caller)) => { answer_message(alloc, register, route, caller, body, response) }
        Err(fault) => Err(Failure::Message(fault)),
    }
}

/// Executes a message without a supplied minute, and writes its response. Reserves all memory of
/// the response before execution; for a query, which changes nothing, after the look-up. `clock`
/// says whether `POST /clock` is offered.
// Inlined: every message passes here, and each call clears and moves its result.
#[inline(always)]
pub fn write_response<S: Store>(
    alloc: Global,
    register: &mut Register<S>,
    clock: bool,
    request: &Request,
    body: &[u8],
    response: &mut ResponseBuffer,
)
    requires capacity { HasCapacity 512 response.old }
    ensures capacity { HasCapacity 512 response.new }
    ensures usable { S.IsUsable register.new.store → S.IsUsable register.old.store }
    ensures rises { S.failed register.old.store ≤ S.failed register.new.store }
    ensures honest { S.HasHonestDevice register.new.store → S.HasHonestDevice register.old.store }
    ensures begins { BeginsNoGroup S.StoreModel register.old.store register.new.store }
    ensures ends { EndsNoGroup S.StoreModel register.old.store register.new.store }
    ensures stays { S.IsUsable register.old.store → S.HasHonestDevice register.new.store
        → IsUnavailableText (string_bytes response.new.text) ⊎ S.IsUsable register.new.store }
    ensures left { AddsOnlyCrashStates S.StoreModel register.old.store register.new.store
        (λ m. S.IsUsable register.old.store
        × LeavesStep clock None (S.content register.old.store) m request.now body.now) }
    ensures step { S.IsUsable register.new.store → (st : State)
        → Refines (S.content register.old.store) st → (after : State)
        × Step clock None (S.failed register.old.store) (S.failed register.new.store) st request.now
        body.now (string_bytes response.new.text) after
        × Refines (S.content register.new.store) after }
{
    response.clear();
    match reply(alloc, register, clock, request, body, response) {
        Ok(()) => put_success(response),
        Err(failure) => put_refused(response, failure),
    }
}
