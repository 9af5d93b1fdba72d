//! Acknowledges downloads whose versions are settled.
ghost use Rattle.settle.specs.StoreContract.{IsAvailable, AddsOnlyCrashStates, PreservesStore};
ghost use Rattle.std.specs.Prelude.{◌≡◌, Err, List, true};
ghost use Rattle.numbers.specs.Abstraction.{subject_of};
ghost use Rattle.model.specs.Abstraction.{status_of};
ghost use Rattle.model.specs.History.{AcknowledgementRequest};
ghost use Rattle.model.specs.Refusals.{RequestFrom};
ghost use Rattle.model.specs.State.{State, view_of as view_in};
ghost use Rattle.model.specs.Versions.{Broadcast};
ghost use Rattle.model.specs.Windows.{Windows};
ghost use Rattle.version.specs.Abstraction.{version_of};
ghost use Rattle.version.specs.Acknowledging.{is_sending};
ghost use Rattle.requests.specs.Calls.{replied, reply_of, view_of};
ghost use Rattle.register.specs.Crashes.{TakesSettledStep};
ghost use Rattle.register.specs.Settling.{SimulatesSettledStep, ReportsOnceSettled};

use crate::commands::execute;
use crate::request::Request;
use model::Refusal;
use numbers::Spid;
use requests::{Reply, VersionView};
use settle::{Changes, Store};
use std::alloc::Global;
use version::Version;

// Returns the view of a version that is being sent. It has no phase, at any minute.
fn view_while_sent(id: u64, version: &Version) -> VersionView
    ensures { is_sending (status_of version.now.status) ≡ true → (st : State)
        (broadcasts : List Broadcast) (windows : Windows)
        → view_of result
        ≡ view_in st (record {
          subject = subject_of version.now.subject;
          version = version_of id broadcasts windows version.now;
        }) }
{
    VersionView {
        id,
        version: *version,
        phase: None,
    }
}

/// Acknowledges a download whose version is settled: in one call of the store if the store takes
/// it, otherwise as any request is executed.
///
/// Inlined into the call of the register, because a reply is large and each return moves it.
#[inline(always)]
pub fn acknowledge_settled<S: Store>(
    alloc: Global,
    store: &mut S,
    changes: &mut Changes,
    spid: Spid,
    id: u64,
    attempt: u64,
) -> Result<Reply, Refusal>
    ensures answers { S.IsUsable store.new
        → SimulatesSettledStep (S.content store.old) (S.content store.new)
        (RequestFrom spid.number (AcknowledgementRequest id attempt)) (replied reply_of result) }
    ensures left { AddsOnlyCrashStates S.StoreModel store.old store.new
        (λ m. S.IsUsable store.old × TakesSettledStep (S.content store.old)
        (RequestFrom spid.number (AcknowledgementRequest id attempt)) m) }
    ensures preserves { PreservesStore S.StoreModel store.old store.new
        (IsAvailable result) (ReportsOnceSettled (S.IsUsable store.new) (S.content store.old)
        (RequestFrom spid.number (AcknowledgementRequest id attempt))
        (result ≡ Err Refusal.Storage)) }
{
    if let Some(row) = store.take_shared(spid, id, attempt)? {
        return Ok(Reply::Shown(view_while_sent(id, &row.version)));
    }
    execute(
        alloc,
        store,
        changes,
        spid,
        Request::Acknowledge { id, attempt },
    )
}
