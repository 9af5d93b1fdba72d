//! Judges the rows of pending downloads.
ghost use Rattle.std.specs.Prelude.{◌≡◌, IfOk};
ghost use Rattle.model.specs.Content.{ClockRow as ClockModel};
ghost use Rattle.numbers.specs.Abstraction.{subject_of};
ghost use Rattle.settle.specs.Abstraction.{spid_of};
ghost use Rattle.settle.specs.Reads.{Reflects};
ghost use Rattle.invariants.specs.Flaws.{Judges};
ghost use Rattle.invariants.specs.Sound.{HasBroadcast, HaveBroadcasts, HaveBroadcastsAbout, HaveBroadcastsFor};

use crate::columns::is_of_broadcast;
use crate::flaw::Flaw;
use delivery::DownloadKey;
use numbers::{Spid, Subject};
use settle::{BroadcastKey, Store, StoreFault};

// Returns whether a download about the subject has its broadcast.
fn has_broadcast<S: Store>(
    store: &mut S,
    subject: Subject,
    download: DownloadKey,
) -> Result<bool, StoreFault>
    ensures value { S.IsUsable store.new → IfOk result (λ yes.
        Reflects yes (HasBroadcast (S.content store.old) (subject_of subject)
        download.minute.number download.id download.attempt)) }
    ensures same { S.IsUsable store.new
        → S.IsUsable store.old × (S.content store.new ≡ S.content store.old) }
{
    let (id, attempt) = (download.id, download.attempt);
    let broadcast = store.broadcast(BroadcastKey { id, attempt })?;
    Ok(is_of_broadcast(download.minute, subject, broadcast))
}

// Returns the first flaw of the downloads of the subject that are pending for the carrier.
fn flaw_about<S: Store>(
    store: &mut S,
    spid: Spid,
    subject: Subject,
) -> Result<Option<Flaw>, StoreFault>
    ensures value { S.IsUsable store.new → (clock : ClockModel)
        → IfOk result (Judges (S.content store.old) clock
        (HaveBroadcastsAbout (S.content store.old) (spid_of spid) (subject_of subject))) }
    ensures same { S.IsUsable store.new
        → S.IsUsable store.old × (S.content store.new ≡ S.content store.old) }
{
    let downloads = store.waits_about(spid, subject)?;
    for download in downloads.as_slice() {
        if !has_broadcast(store, subject, *download)? {
            return Ok(Some(Flaw::Download {
                spid,
                id: download.id,
                attempt: download.attempt,
            }));
        }
    }
    Ok(None)
}

// Returns the first flaw of the downloads that are pending for the carrier.
fn flaw_for<S: Store>(store: &mut S, spid: Spid) -> Result<Option<Flaw>, StoreFault>
    ensures value { S.IsUsable store.new → (clock : ClockModel)
        → IfOk result (Judges (S.content store.old) clock
        (HaveBroadcastsFor (S.content store.old) (spid_of spid))) }
    ensures same { S.IsUsable store.new
        → S.IsUsable store.old × (S.content store.new ≡ S.content store.old) }
{
    let subjects = store.waits(spid)?;
    for subject in &subjects {
        if let Some(flaw) = flaw_about(store, spid, *subject)? {
            return Ok(Some(flaw));
        }
    }
    Ok(None)
}

/// Returns the first flaw of the downloads that are pending for registered carriers.
///
/// # Errors
///
/// The store's.
pub(crate) fn find_in_downloads<S: Store>(store: &mut S) -> Result<Option<Flaw>, StoreFault>
    ensures value { S.IsUsable store.new → (clock : ClockModel)
        → IfOk result
        (Judges (S.content store.old) clock (HaveBroadcasts (S.content store.old))) }
    ensures same { S.IsUsable store.new
        → S.IsUsable store.old × (S.content store.new ≡ S.content store.old) }
{
    let carriers = store.carriers()?;
    for spid in &carriers {
        if let Some(flaw) = flaw_for(store, *spid)? {
            return Ok(Some(flaw));
        }
    }
    Ok(None)
}
