//! Reads the life of one number: its versions, and what they sent.
ghost use Rattle.std.specs.Prelude.{◌≡◌, ◌++◌, ◌∷◌, [], IfOk, OnOk};
ghost use Rattle.numbers.specs.Abstraction.{subject_of};
ghost use Rattle.settle.specs.Abstraction.{broadcast_key_of};
ghost use Rattle.report.specs.Figures.{number_of};
ghost use Rattle.report.specs.Life.{AddsSent, AreSent, IsSent, is_of, key_if_kept, keys_up_to};

use delivery::Broadcast;
use numbers::{Spid, Subject, Tn};
use settle::{BroadcastKey, NumberedRow, Store, StoreFault};
use std::alloc::{AllocError, Global};

/// A broadcast that is open, or pending for some carrier.
#[derive(Debug, Drop)]
pub struct Sent {
    pub key: BroadcastKey,
    pub broadcast: Broadcast,
    /// The registered carriers for which it is pending, ascending.
    pub pending: Vec<Spid>,
}

/// The versions of one number, and what they sent.
#[derive(Debug, Drop)]
pub struct Life {
    pub number: Option<Tn>,
    /// The versions, ascending by id.
    pub versions: Vec<NumberedRow>,
    /// Their broadcasts that are open or pending for some carrier, in the order of the versions,
    /// and of each by attempt.
    pub sent: Vec<Sent>,
}

// Returns whether `subject` is the number, if there is one.
pub(crate) fn is_of(number: Option<Tn>, subject: Subject) -> bool
    ensures { result ≡ is_of (number_of number) (subject_of subject) }
{
    match (number, subject) {
        (Some(number), Subject::Number(tn)) => tn.number == number.number,
        _ => false,
    }
}

// Appends a broadcast.
fn push(sent: &mut Vec<Sent>, one: Sent) -> Result<(), AllocError>
    ensures { OnOk result (sent.new.items ≡ sent.old.items ++ one ∷ []) }
{
    Ok(sent.push(one)?)
}

// Appends the broadcast with this key, if it is open or pending.
fn add_attempt<S: Store>(
    store: &mut S,
    sent: &mut Vec<Sent>,
    key: BroadcastKey,
) -> Result<(), StoreFault>
    ensures sent { S.IsUsable store.new
        → OnOk result (AddsSent (S.content store.old)
        (key_if_kept (S.content store.old) (broadcast_key_of key)) sent.old.items sent.new.items) }
    ensures same { S.IsUsable store.new
        → S.IsUsable store.old × (S.content store.new ≡ S.content store.old) }
{
    let Some(broadcast) = store.broadcast(key)? else {
        return Ok(());
    };
    let pending = store.waiters(broadcast.minute, key)?;
    let one = Sent {
        key,
        broadcast,
        pending,
    };
    Ok(push(sent, one)?)
}

// Returns a version's id, and the number of its attempts.
fn attempts_of(version: &NumberedRow) -> (u64, u64)
    ensures { result ≡ (version.now.id, version.now.row.attempt) }
{
    (version.id, version.row.version.attempt)
}

// Appends the broadcasts of a version's attempts that are open or pending.
fn add_sent<S: Store>(
    store: &mut S,
    sent: &mut Vec<Sent>,
    id: u64,
    attempts: u64,
) -> Result<(), StoreFault>
    ensures sent { S.IsUsable store.new
        → OnOk result (AddsSent (S.content store.old)
        (keys_up_to (S.content store.old) id attempts)
        sent.old.items sent.new.items) }
    ensures same { S.IsUsable store.new
        → S.IsUsable store.old × (S.content store.new ≡ S.content store.old) }
{
    for earlier in 0..attempts {
        let attempt = earlier + 1;
        add_attempt(store, sent, BroadcastKey { id, attempt })?;
    }
    Ok(())
}

/// Reads the broadcasts of these versions that are open or pending for some carrier.
///
/// # Errors
///
/// The store's, or `NoMemory` if an allocation fails.
pub(crate) fn read_sent<S: Store>(
    alloc: Global,
    store: &mut S,
    versions: &[NumberedRow],
) -> Result<Vec<Sent>, StoreFault>
    ensures value { S.IsUsable store.new
        → IfOk result (λ sent. AreSent (S.content store.old) versions.now sent.items) }
    ensures same { S.IsUsable store.new
        → S.IsUsable store.old × (S.content store.new ≡ S.content store.old) }
{
    let mut sent = Vec::new(alloc);
    for version in versions {
        let (id, attempts) = attempts_of(version);
        add_sent(store, &mut sent, id, attempts)?;
    }
    Ok(sent)
}
