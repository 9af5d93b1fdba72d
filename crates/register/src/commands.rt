//! Decides requests whose subjects are settled, and commits their changes.
ghost use Rattle.settle.specs.StoreContract.{IsAvailable, AddsOnlyCrashStates, PreservesStore, IsReadOnly};
ghost use Rattle.std.specs.Prelude.{◌≡◌, Err, OnOk};
ghost use Rattle.model.specs.History.{CommandRequest};
ghost use Rattle.model.specs.Refusals.{RequestFrom};
ghost use Rattle.requests.specs.Calls.{command_of, replied, reply_of};
ghost use Rattle.settle.specs.Changes.{changes_of, no_changes};
ghost use Rattle.register.specs.Crashes.{TakesSettledStep};
ghost use Rattle.register.specs.Deciding.{Decides};
ghost use Rattle.register.specs.Requesting.{request_of};
ghost use Rattle.register.specs.Settling.{SimulatesSettledStep, ReportsOnceSettled};

use crate::acknowledgement::acknowledge;
use crate::change::change_version;
use crate::clock::set_windows;
use crate::create::create;
use crate::pooling::{assign, donate, release};
use crate::registration::{open_code, register_carrier, register_routing_number};
use crate::request::Request;
use model::Refusal;
use numbers::Spid;
use pool::Donation;
use requests::{Command, Reply};
use settle::{Changes, Store};
use std::alloc::Global;

// Decides the command: returns the reply and stages the changes. Commits nothing.
//
// Each kind of command stays a call: inlined, its large locals would cost all the others. This match
// is inlined, because a reply is large and each return moves it.
#[inline(always)]
fn decide_command<S: Store>(
    alloc: Global,
    store: &mut S,
    changes: &mut Changes,
    caller: Spid,
    command: &Command,
) -> Result<Reply, Refusal>
    requires { changes_of changes.old ≡ no_changes }
    ensures decides { S.IsUsable store.new → Decides (S.content store.old)
        (RequestFrom caller.number (CommandRequest (command_of command.now)))
        (changes_of changes.new) result }
    ensures read_only { IsReadOnly S.StoreModel store.old store.new (IsAvailable result)
        (ReportsOnceSettled (S.IsUsable store.new) (S.content store.old)
        (RequestFrom caller.number (CommandRequest (command_of command.now)))
        (result ≡ Err Refusal.Storage)) }
    ensures open { OnOk result (S.HasHonestDevice store.new → S.IsUsable store.new) }
{
    match command {
        Command::RegisterCarrier { spid } => {
            register_carrier(alloc, store, changes, caller, *spid)
        },
        Command::RegisterRoutingNumber { lrn } => {
            register_routing_number(store, changes, caller, *lrn)
        }
        Command::OpenCode { code, spid } => open_code(store, changes, caller, *code, *spid),
        Command::Create(ported) => create(store, changes, caller, ported),
        Command::OnVersion { id, command } => {
            change_version(alloc, store, changes, caller, *id, *command)
        }
        Command::Donate {
            block,
            used,
            routing,
        } => {
            let donation = Donation {
                block: *block,
                used,
                routing: *routing,
            };
            donate(alloc, store, changes, caller, &donation)
        }
        Command::Assign(assignment) => assign(alloc, store, changes, caller, assignment),
        Command::Release { block } => release(alloc, store, changes, caller, *block),
        Command::SetWindows { windows } => set_windows(store, changes, caller, windows),
    }
}

// Decides the request: returns the reply and stages the changes. Commits nothing.
#[inline(always)]
fn decide<S: Store>(
    alloc: Global,
    store: &mut S,
    changes: &mut Changes,
    caller: Spid,
    request: Request<'_>,
) -> Result<Reply, Refusal>
    requires { changes_of changes.old ≡ no_changes }
    ensures decides { S.IsUsable store.new → Decides (S.content store.old)
        (RequestFrom caller.number (request_of request.entry)) (changes_of changes.new) result }
    ensures read_only { IsReadOnly S.StoreModel store.old store.new (IsAvailable result)
        (ReportsOnceSettled (S.IsUsable store.new) (S.content store.old)
        (RequestFrom caller.number (request_of request.entry)) (result ≡ Err Refusal.Storage)) }
    ensures open { OnOk result (S.HasHonestDevice store.new → S.IsUsable store.new) }
{
    match request {
        Request::Command(command) => decide_command(alloc, store, changes, caller, command),
        Request::Acknowledge { id, attempt } => acknowledge(store, changes, caller, id, attempt),
    }
}

/// Executes a request whose subjects are settled: decides it, then commits its changes in one
/// commit. Empties `changes` first, which keeps its buffer from one request to the next.
///
/// Inlined into the calls of the register, because a reply is large and each return moves it.
#[inline(always)]
pub fn execute<S: Store>(
    alloc: Global,
    store: &mut S,
    changes: &mut Changes,
    caller: Spid,
    request: Request<'_>,
) -> Result<Reply, Refusal>
    ensures answers { S.IsUsable store.new
        → SimulatesSettledStep (S.content store.old) (S.content store.new)
        (RequestFrom caller.number (request_of request.entry)) (replied reply_of result) }
    ensures left { AddsOnlyCrashStates S.StoreModel store.old store.new
        (λ m. S.IsUsable store.old × TakesSettledStep (S.content store.old)
        (RequestFrom caller.number (request_of request.entry)) m) }
    ensures preserves { PreservesStore S.StoreModel store.old store.new
        (IsAvailable result) (ReportsOnceSettled (S.IsUsable store.new) (S.content store.old)
        (RequestFrom caller.number (request_of request.entry)) (result ≡ Err Refusal.Storage)) }
{
    changes.clear();
    let reply = decide(alloc, store, changes, caller, request)?;
    store.commit(changes)?;
    Ok(reply)
}
