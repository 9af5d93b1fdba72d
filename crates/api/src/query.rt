//! Queries: where calls to the number of a `tel` URI are routed.
ghost use Rattle.std.specs.Prelude.{◌≡◌, ◌≤◌, string_bytes, IfErr, IfSome, IfNone, OnOk};
ghost use Rattle.requests.specs.Calls.{answer_of};
ghost use Rattle.telnp.specs.Abstraction.{uri_of};
ghost use Rattle.json_api.specs.Forms.{UriQuery};
ghost use Rattle.json_api.specs.ResponseBuffers.{HasCapacity, IsEmpty, IsWritten};
ghost use Rattle.json_api.specs.Texts.{looked_up, uri_text};
ghost use Rattle.register.specs.Crashes.{KeepsState};
ghost use Rattle.settle.specs.StoreContract.{AddsOnlyCrashStates, PreservesStore};
ghost use Rattle.api.specs.Step.{Performs, AsksFor, IsReturnedAsIs, response_text, IsReplyAvailable};

use json_api::{Failure, ResponseBuffer, URI_CAPACITY, put_looked_up, put_uri};
use model::Refusal;
use numbers::{Spid, Tn};
use register::Register;
use requests::Answer;
use settle::Store;
use std::alloc::Global;
use telnp::TelUri;

// Reserves memory for a URI and writes it.
fn put_text(response: &mut ResponseBuffer, uri: &str) -> Result<(), Failure>
    requires empty { IsEmpty response.old }
    requires capacity { HasCapacity 512 response.old }
    ensures ok { OnOk result (IsWritten response.new) }
    ensures capacity { HasCapacity 512 response.new }
    ensures body { OnOk result (string_bytes response.new.body ≡ uri_text uri.now) }
    ensures unavailable { IfErr result (λ failure. failure ≡ Failure.Refused Refusal.NoMemory) }
{
    response.take(uri.len() + URI_CAPACITY)?;
    put_uri(&mut response.body, uri);
    Ok(())
}

// Writes the response to a query by the URI `text`. `answer` is the register's answer on its
// number.
fn put_routed(
    alloc: Global,
    text: &str,
    uri: &TelUri<'_>,
    answer: Answer,
    response: &mut ResponseBuffer,
) -> Result<(), Failure>
    requires same { (uri_of uri.now).text ≡ text.now }
    requires empty { IsEmpty response.old }
    requires capacity { HasCapacity 512 response.old }
    ensures ok { OnOk result (IsWritten response.new) }
    ensures capacity { HasCapacity 512 response.new }
    ensures body { OnOk result (string_bytes response.new.body
        ≡ uri_text (looked_up (uri_of uri.now) (answer_of answer))) }
    ensures unavailable { IfErr result (λ failure. failure ≡ Failure.Refused Refusal.NoMemory) }
{
    match answer {
        Answer::Closed => put_text(response, text),
        Answer::Open(routing) => Ok(put_looked_up(alloc, response, uri, routing)?),
    }
}

// Returns the telephone number to ask the register for. A URI that has been looked up already
// (`npdi`) has none.
fn queried_number(uri: &TelUri<'_>) -> Option<Tn>
    ensures some { IfSome result (λ tn. AsksFor (uri_of uri.now) tn.number) }
    ensures none { IfNone result (IsReturnedAsIs (uri_of uri.now)) }
{
    if uri.has_npdi() {
        return None;
    }
    uri.tn()
}

/// Executes a query. Judges the caller first, then the URI, then the code of its number.
pub fn query<S: Store>(
    alloc: Global,
    register: &mut Register<S>,
    caller: Spid,
    text: &str,
    response: &mut ResponseBuffer,
) -> Result<(), Failure>
    requires empty { IsEmpty response.old }
    requires capacity { HasCapacity 512 response.old }
    ensures ok { OnOk result (IsWritten response.new) }
    ensures capacity { HasCapacity 512 response.new }
    ensures preserves { PreservesStore S.StoreModel register.old.store
        register.new.store (IsReplyAvailable result) ⊥ }
    ensures left { AddsOnlyCrashStates S.StoreModel register.old.store register.new.store
        (λ m. S.IsUsable register.old.store × KeepsState (S.content register.old.store) m) }
    ensures performs { S.IsUsable register.new.store
        → Performs (S.failed register.old.store) (S.failed register.new.store)
        (S.content register.old.store) (S.content register.new.store) caller.number
        (UriQuery text.now) (response_text result (string_bytes response.new.body)) }
{
    let read = TelUri::read(text);
    let uri = match &read {
        Ok(uri) => uri,
        Err(fault) => {
            register.knows(caller)?;
            return Err(Failure::Uri(*fault));
        }
    };
    let Some(tn) = queried_number(uri) else {
        register.knows(caller)?;
        return put_text(response, text);
    };
    match register.query(caller, tn) {
        Ok(answer) => put_routed(alloc, text, uri, answer, response),
        Err(refusal) => Err(Failure::Refused(refusal)),
    }
}
