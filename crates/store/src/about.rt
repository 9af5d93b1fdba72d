//! The pending broadcasts of each subject.
ghost use Rattle.std.specs.Prelude.{◌≡◌, true, false, IfSome, IfOk, OnOk, OnErr, filter};
ghost use Rattle.std.specs.List.Sorted.{IsStrictlySortedBy};
ghost use Rattle.std.specs.Ordering.{eq_by_cmp, on};
ghost use Rattle.numbers.specs.Abstraction.{subject_of, key_of};
ghost use Rattle.settle.specs.Lists.{items_of};
ghost use Rattle.store.specs.QueueRows.{queue_key_of};
ghost use Rattle.store.specs.WaitRows.{Download as BroadcastModel, download_cmp, is_for};
ghost use Rattle.store.specs.About.{has, key_in, keys_in, about_of, IsKey, IsOnly, IsSameIndex, IsPresence};
ghost use Rattle.store.specs.Ranks.{subject_at};

use crate::keys::{Rank, RowKey, is_subject};
use crate::near::NearMap;
use crate::short::ShortMinute;
use crate::waiting::Waiting;
use delivery::DownloadKey;
use numbers::{Spid, Subject};
use settle::Few;
use std::alloc::{AllocError, Global};
use std::collections::BTreeMap;

/// The pending broadcasts of one subject, in 24 bytes.
///
/// Most subjects have one, so that more are boxed. The one has the fields of its key: its minute,
/// which is beside the variant's tag, then its version's id and its attempt.
#[derive(Drop)]
pub enum Broadcasts {
    One(ShortMinute, u64, u64),
    More(Box<BTreeMap<DownloadKey, ()>>),
}

// Returns the key with these fields.
fn key_with(minute: ShortMinute, id: u64, attempt: u64) -> DownloadKey
    ensures { result ≡ key_in minute id attempt }
{
    DownloadKey {
        minute: minute.minute(),
        id,
        attempt,
    }
}

impl Broadcasts {
    // Returns the only broadcast of a subject.
    fn one(key: DownloadKey) -> Broadcasts
        ensures { (q : BroadcastModel)
            → has result q ≡ eq_by_cmp download_cmp (queue_key_of key) q }
    {
        Broadcasts::One(ShortMinute::of(key.minute), key.id, key.attempt)
    }

    // Adds a broadcast. Changes nothing if an allocation fails.
    fn add(&mut self, alloc: Global, key: DownloadKey) -> Result<(), AllocError>
        ensures ok { OnOk result
            (IsPresence (has self.old) (has self.new) (queue_key_of key) true) }
        ensures err { OnErr result
            ((q : BroadcastModel) → has self.new q ≡ has self.old q) }
    {
        match self {
            Broadcasts::One(minute, id, attempt) => {
                let own = key_with(*minute, *id, *attempt);
                if own != key {
                    let mut more = BTreeMap::new(alloc);
                    let _ = more.insert(own, ())?;
                    let _ = more.insert(key, ())?;
                    *self = Broadcasts::More(Box::new(alloc, more)?);
                }
            }
            Broadcasts::More(more) => {
                let _ = more.insert(key, ())?;
            }
        }
        Ok(())
    }

    // Deletes a broadcast if another one stays. Returns whether none stays.
    fn remove(&mut self, key: DownloadKey) -> bool
        ensures others { result ≡ false
            → IsPresence (has self.old) (has self.new) (queue_key_of key) false }
        ensures none { result ≡ true
            → IsPresence (has self.old) (λ _. false) (queue_key_of key) false }
    {
        match self {
            Broadcasts::One(minute, id, attempt) => key_with(*minute, *id, *attempt) == key,
            Broadcasts::More(more) => {
                let _ = more.remove(&key);
                more.is_empty()
            }
        }
    }
}

/// Returns the subject's key in the index.
pub fn rank_of(subject: Subject) -> u64
    ensures { result ≡ key_of subject }
{
    Rank::of(subject).number
}

/// Adds a broadcast of the subject. Changes nothing if an allocation fails.
pub fn add_broadcast(
    about: &mut NearMap<u64, Broadcasts>,
    alloc: Global,
    subject: Subject,
    key: DownloadKey,
) -> Result<(), AllocError>
    ensures ok { OnOk result (IsKey (about_of about.old.entries) (about_of about.new.entries)
        (subject_of subject) (queue_key_of key) true) }
    ensures err { OnErr result
        (IsSameIndex (about_of about.old.entries) (about_of about.new.entries)) }
{
    let rank = rank_of(subject);
    if let Some(broadcasts) = about.get_mut(&rank) {
        return broadcasts.add(alloc, key);
    }
    match about.insert(rank, Broadcasts::one(key)) {
        Ok(_) => Ok(()),
        Err(_) => Err(AllocError),
    }
}

/// Deletes a broadcast of the subject.
pub fn remove_broadcast(about: &mut NearMap<u64, Broadcasts>, subject: Subject, key: DownloadKey)
    ensures { IsKey (about_of about.old.entries) (about_of about.new.entries)
        (subject_of subject) (queue_key_of key) false }
{
    let rank = rank_of(subject);
    if let Some(broadcasts) = about.get_mut(&rank) {
        if broadcasts.remove(key) {
            let _ = about.remove(&rank);
        }
    }
}

/// Returns the key of the only broadcast of the subject at this place, if it has this version's id
/// and this attempt.
pub fn only_broadcast(
    about: &NearMap<u64, Broadcasts>,
    rank: Rank,
    id: u64,
    attempt: u64,
) -> Option<DownloadKey>
    ensures { IfSome result (IsOnly (about_of about.now.entries) (subject_at rank) id attempt) }
{
    let Some(Broadcasts::One(minute, own, sent)) = about.get(&rank.number) else {
        return None;
    };
    if *own == id && *sent == attempt {
        Some(key_with(*minute, id, attempt))
    } else {
        None
    }
}

// Returns whether the broadcast is of this subject and pending for the carrier.
fn is_for(
    rows: &NearMap<RowKey, Waiting>,
    broadcast: DownloadKey,
    carrier: Spid,
    subject: Subject,
) -> bool
    ensures { result ≡ is_for rows.now.entries broadcast carrier subject }
{
    let key = RowKey {
        minute: broadcast.minute.number,
        id: broadcast.id,
        attempt: broadcast.attempt,
    };
    match rows.get(&key) {
        None => false,
        Some(row) => is_subject(row.subject_for(carrier), subject),
    }
}

/// Returns those of the broadcasts that are of the subject and pending for the carrier, earliest
/// first.
pub fn pending_among(
    alloc: Global,
    rows: &NearMap<RowKey, Waiting>,
    broadcasts: &Broadcasts,
    carrier: Spid,
    subject: Subject,
) -> Result<Few<DownloadKey>, AllocError>
    ensures { IfOk result (λ found.
        (items_of found ≡ filter (λ k. is_for rows.now.entries k carrier subject)
        (keys_in broadcasts.now))
        × IsStrictlySortedBy (on queue_key_of download_cmp) (keys_in broadcasts.now)) }
{
    match broadcasts {
        Broadcasts::One(minute, id, attempt) => {
            let key = key_with(*minute, *id, *attempt);
            if is_for(rows, key, carrier, subject) {
                Ok(Few::One([key]))
            } else {
                Ok(Few::Empty)
            }
        }
        Broadcasts::More(more) => {
            let mut found = Few::Empty;
            for key in more.keys() {
                if is_for(rows, *key, carrier, subject) {
                    found.push(alloc, *key)?;
                }
            }
            Ok(found)
        }
    }
}
