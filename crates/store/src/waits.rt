//! The pending downloads.
ghost use Rattle.std.specs.Prelude.{◌≡◌, ◌==◌, ℕ, Some, None, IfSome, IfNone, IfOk, OnOk, OnErr, is_some, option_map, ◌≤◌, length, take};
ghost use Rattle.std.specs.List.{list_any};
ghost use Rattle.std.specs.FinMap.{get, empty};
ghost use Rattle.std.specs.Ordering.{on, nat_cmp};
ghost use Rattle.std.specs.BTreeMap.{keys, IsOrdered};
ghost use Rattle.numbers.specs.Abstraction.{subject_of, key_of};
ghost use Rattle.numbers.specs.declared.spid.Spid.{Spid as SpidImpl};
ghost use Rattle.model.specs.Content.{empty_content, wait_key};
ghost use Rattle.settle.specs.Lists.{items_of};
ghost use Rattle.settle.specs.Reads.{AreWaitingSubjects, AreFirst, AreWaitsAbout};
ghost use Rattle.settle.specs.Abstraction.{spid_of, wait_key_of};
ghost use Rattle.store.specs.Maps.{set};
ghost use Rattle.store.specs.BroadcastRows.{broadcasts_of};
ghost use Rattle.store.specs.QueueRows.{queue_key_of, has_key, sent_of, download_at, pending_at, IsCursor, AreOf};
ghost use Rattle.store.specs.About.{about_of, AreKeysAdded, AreKeysKept, AreKeysRemoved};
ghost use Rattle.store.specs.Ranks.{subject_at};
ghost use Rattle.store.specs.Sharing.{TakesWait};
ghost use Rattle.store.specs.Batch.{AreNew};
ghost use Rattle.store.specs.WaitRows.{row_key_of, download_of, wait_for};

use crate::about::{
    Broadcasts, add_broadcast, only_broadcast, pending_among, rank_of, remove_broadcast,
};
use crate::carriers::Carriers;
use crate::keys::{BroadcastId, Rank, RowKey, queue_key};
use crate::near::NearMap;
use crate::packed_broadcast::PackedBroadcast;
use crate::queue_order::QueueOrder;
use crate::runs::run_length;
use crate::waiting::Waiting;
use delivery::{Download, DownloadKey};
use numbers::{Minute, Spid, Subject};
use settle::{Few, WaitKey};
use std::alloc::{AllocError, Global};
use std::collections::BTreeMap;
use std::hash::BuildHasherDefault;
use std::marker::Model;

/// The pending downloads: for each broadcast one row with its subject and carriers, and indexes of
/// the broadcasts by subject and in the order of queues.
///
/// A broadcast has one subject. No register writes downloads of one broadcast under two subjects; a
/// second subject is refused like a failed allocation.
#[derive(Drop)]
pub struct Waits {
    alloc: Global,
    rows: NearMap<RowKey, Waiting>,
    about: NearMap<u64, Broadcasts>,
    order: QueueOrder,
}

impl Model for Waits {
    ghost use Rattle.std.specs.FinMap.{FinMap};
    ghost use Rattle.numbers.specs.Subjects.{Subject};
    ghost use Rattle.model.specs.Content.{wait_cmp};
    ghost use Rattle.store.specs.WaitRows.{AreAbout, AboutIsNeeded, waits_of, rows_of};
    ghost use Rattle.store.specs.WaitRows.{coded_waits};
    ghost use Rattle.store.specs.About.{about_of};
    ghost use Rattle.store.specs.QueueRows.{HasKeysOf, has_key};

    ghost Value = { FinMap wait_cmp Subject };

    ghost coded = { coded_waits };

    ghost view = { λ w. waits_of (rows_of w.rows.entries) };

    ghost invariant = { λ w. (AreAbout (rows_of w.rows.entries) (about_of w.about.entries)
        × AboutIsNeeded (rows_of w.rows.entries) (about_of w.about.entries))
        × HasKeysOf (rows_of w.rows.entries) (has_key w.order) };
}

// Returns the key of the download's broadcast.
fn broadcast_of(key: WaitKey) -> RowKey
    ensures { row_key_of result ≡ download_of (wait_key_of key) }
{
    RowKey {
        minute: key.minute.number,
        id: key.id,
        attempt: key.attempt,
    }
}

// Returns the key of the carrier's download of the broadcast.
fn wait_key(key: DownloadKey, carrier: Spid) -> WaitKey
    ensures { wait_key_of result ≡ wait_for (queue_key_of key) carrier.number }
{
    WaitKey {
        carrier,
        minute: key.minute,
        id: key.id,
        attempt: key.attempt,
    }
}

// Adds the download's broadcast to both indexes, or to none if an allocation fails.
fn add_keys(
    about: &mut NearMap<u64, Broadcasts>,
    order: &mut QueueOrder,
    alloc: Global,
    subject: Subject,
    key: WaitKey,
) -> Result<(), AllocError>
    ensures ok { OnOk result
        (AreKeysAdded (subject_of subject) (download_of (wait_key_of key))
        (about_of about.old.entries) (about_of about.new.entries) (has_key order.old)
        (has_key order.new)) }
    ensures err { OnErr result
        (AreKeysKept (download_of (wait_key_of key)) (about_of about.old.entries)
        (about_of about.new.entries) (has_key order.old) (has_key order.new)) }
{
    let own = queue_key(key);
    order.put(own)?;
    match add_broadcast(about, alloc, subject, own) {
        Ok(_) => Ok(()),
        Err(_) => {
            order.delete(own);
            Err(AllocError)
        }
    }
}

// Deletes the download's broadcast from both indexes. If an allocation fails, the order may keep
// it.
fn remove_keys(
    about: &mut NearMap<u64, Broadcasts>,
    order: &mut QueueOrder,
    subject: Subject,
    key: WaitKey,
)
    ensures { AreKeysRemoved (subject_of subject) (download_of (wait_key_of key))
        (about_of about.old.entries) (about_of about.new.entries) (has_key order.old)
        (has_key order.new) }
{
    remove_broadcast(about, subject, queue_key(key));
    order.delete(queue_key(key));
}

// Returns the download with what its broadcast says of it, if the broadcast is there.
fn download_at(
    broadcasts: &NearMap<BroadcastId, PackedBroadcast>,
    key: DownloadKey,
) -> Option<Download>
    ensures { option_map sent_of result ≡ download_at (broadcasts_of broadcasts.now) key }
{
    let row = broadcasts.get(&BroadcastId {
        id: key.id,
        attempt: key.attempt,
    })?;
    let broadcast = row.unpacked();
    Some(Download {
        id: key.id,
        attempt: key.attempt,
        minute: key.minute,
        subject: broadcast.subject,
        action: broadcast.action,
        routing: broadcast.routing,
    })
}

// Returns the subjects, ascending.
fn ascending(alloc: Global, subjects: &BTreeMap<Subject, ()>) -> Result<Vec<Subject>, AllocError>
    ensures { IfOk result (λ found. (found.items ≡ keys subjects.now)
        × IsOrdered (on key_of nat_cmp) subjects.now) }
{
    let mut found = Vec::new(alloc);
    for subject in subjects.keys() {
        found.push(*subject)?;
    }
    Ok(found)
}

impl Waits {
    /// Creates an empty table.
    pub fn new(alloc: Global) -> Waits
        ensures { result ≡ empty }
    {
        Waits {
            alloc,
            rows: NearMap::with_hasher(alloc, BuildHasherDefault::new()),
            about: NearMap::with_hasher(alloc, BuildHasherDefault::new()),
            order: QueueOrder::new(alloc),
        }
    }

    /// Returns the subject of a pending download.
    pub fn get(&self, key: WaitKey) -> Option<Subject>
        ensures { option_map subject_of result ≡ get self.now (wait_key_of key) }
    {
        self.rows.get(&broadcast_of(key))?.subject_for(key.carrier)
    }

    /// Returns the carriers for which the download's broadcast is pending.
    pub fn carriers_of(&self, key: WaitKey) -> &[Spid]
        ensures { (carrier : ℕ)
            → is_some (get self.now (wait_for (download_of (wait_key_of key)) carrier))
            ≡ list_any (λ (k : SpidImpl). carrier == k.number) result.now }
    {
        match self.rows.get(&broadcast_of(key)) {
            None => &[],
            Some(row) => row.carriers(),
        }
    }

    /// Adds a pending download, and returns its subject if it was pending already. Changes nothing
    /// if an allocation fails, or if the broadcast has another subject.
    pub fn put(&mut self, key: WaitKey, subject: Subject) -> Result<Option<Subject>, AllocError>
        ensures before { IfOk result
            (λ before. option_map subject_of before ≡ get self.old (wait_key_of key)) }
        ensures same { IfOk result
            (λ before. IfSome before (λ was. subject_of was ≡ subject_of subject)) }
        ensures ok { OnOk result
            (self.new ≡ set self.old (wait_key_of key) (Some (subject_of subject))) }
        ensures err { OnErr result (self.new ≡ self.old) }
    {
        let broadcast = broadcast_of(key);
        if let Some(row) = self.rows.get_mut(&broadcast) {
            return row.add(self.alloc, key.carrier, subject);
        }
        let row = Waiting::of(key.carrier, subject);
        add_keys(&mut self.about, &mut self.order, self.alloc, subject, key)?;
        match self.rows.insert(broadcast, row) {
            Ok(_) => Ok(None),
            Err(_) => {
                remove_keys(&mut self.about, &mut self.order, subject, key);
                Err(AllocError)
            }
        }
    }

    /// Adds the downloads, from the first one on, that are of the broadcast of `key` and of
    /// `subject`, with ascending carriers. Returns how many it added: none if the broadcast has a
    /// row. Changes nothing if an allocation fails.
    pub fn put_run(
        &mut self,
        key: WaitKey,
        subject: Subject,
        downloads: &[(WaitKey, Subject)],
    ) -> Result<usize, AllocError>
        ensures inside { IfOk result (λ count. count ≤ length downloads.now) }
        ensures new { IfOk result (λ count. AreNew (take count downloads.now) self.old self.new) }
        ensures same { IfOk result (λ count.
            AreOf (download_of (wait_key_of key)) (take count downloads.now)) }
        ensures refused { OnErr result (self.new ≡ self.old) }
    {
        let broadcast = broadcast_of(key);
        if self.rows.contains_key(&broadcast) {
            return Ok(0);
        }
        let count = run_length(key, subject, downloads);
        let row = Waiting::of_all(self.alloc, subject, &downloads[..count])?;
        add_keys(&mut self.about, &mut self.order, self.alloc, subject, key)?;
        match self.rows.insert(broadcast, row) {
            Ok(_) => Ok(count),
            Err(_) => {
                remove_keys(&mut self.about, &mut self.order, subject, key);
                Err(AllocError)
            }
        }
    }

    /// Deletes a download, if it is pending.
    pub fn delete(&mut self, key: WaitKey)
        ensures { self.new ≡ set self.old (wait_key_of key) None }
    {
        let broadcast = broadcast_of(key);
        let Some(row) = self.rows.get_mut(&broadcast) else {
            return;
        };
        row.take(key.carrier);
        if row.carriers().is_empty() {
            let subject = row.subject();
            let _ = self.rows.remove(&broadcast);
            remove_keys(&mut self.about, &mut self.order, subject, key);
        }
    }

    /// Deletes the carrier's download of the only broadcast of the subject at this place, and returns
    /// its minute. Returns `None` and changes nothing unless the broadcast has this version's id and
    /// this attempt, and is pending for the carrier and for another registered one.
    pub fn take_shared(
        &mut self,
        registered: &Carriers,
        rank: Rank,
        carrier: Spid,
        id: u64,
        attempt: u64,
    ) -> Option<Minute>
        ensures none { IfNone result (self.new ≡ self.old) }
        ensures some { IfSome result
            (λ minute. TakesWait registered.now self.old self.new (subject_at rank)
            (wait_key carrier.number minute.number id attempt)) }
    {
        let key = only_broadcast(&self.about, rank, id, attempt)?;
        let row = self.rows.get_mut(&RowKey {
            minute: key.minute.number,
            id,
            attempt,
        })?;
        if !row.is_shared(registered, carrier) {
            return None;
        }
        row.take(carrier);
        Some(key.minute)
    }

    /// Returns the downloads of the subject that are pending for the carrier, earliest first.
    pub fn about(
        &self,
        alloc: Global,
        carrier: Spid,
        subject: Subject,
    ) -> Result<Few<DownloadKey>, AllocError>
        ensures { IfOk result (λ downloads.
            AreWaitsAbout (record empty_content { waits = self.now }) (spid_of carrier)
            (subject_of subject) (items_of downloads)) }
    {
        match self.about.get(&rank_of(subject)) {
            None => Ok(Few::Empty),
            Some(broadcasts) => pending_among(alloc, &self.rows, broadcasts, carrier, subject),
        }
    }

    /// Returns the key of the first broadcast from `start` on that is pending for the carrier. If
    /// none is, returns the last key of all broadcasts, or `start` if that key is before `start`.
    /// If an allocation fails, returns `start`.
    pub fn first_from(&mut self, start: DownloadKey, carrier: Spid) -> DownloadKey
        requires { IsCursor self.old carrier.number (queue_key_of start) }
        ensures own { IsCursor self.old carrier.number (queue_key_of result) }
        ensures same { self.new ≡ self.old }
    {
        if self.order.sort().is_err() {
            return start;
        }
        let mut last = start;
        for (key, _) in self.order.sorted.range(start..) {
            last = *key;
            if self.get(wait_key(*key, carrier)).is_some() {
                return last;
            }
        }
        last
    }

    /// Returns the subjects with downloads pending for the carrier, ascending, without duplicates.
    /// All these downloads are from `start` on.
    pub fn subjects_from(
        &mut self,
        alloc: Global,
        start: DownloadKey,
        carrier: Spid,
    ) -> Result<Vec<Subject>, AllocError>
        requires { IsCursor self.old carrier.number (queue_key_of start) }
        ensures found { IfOk result (λ subjects.
            AreWaitingSubjects (record empty_content { waits = self.old }) (spid_of carrier)
            subjects.items) }
        ensures same { self.new ≡ self.old }
    {
        self.order.sort()?;
        let mut subjects = BTreeMap::new(alloc);
        for (key, _) in self.order.sorted.range(start..) {
            if let Some(subject) = self.get(wait_key(*key, carrier)) {
                let _ = subjects.insert(subject, ())?;
            }
        }
        ascending(alloc, &subjects)
    }

    // Returns the download of the broadcast, if it is pending for the carrier and its row is in
    // `broadcasts`.
    fn pending_at(
        &self,
        broadcasts: &NearMap<BroadcastId, PackedBroadcast>,
        key: DownloadKey,
        carrier: Spid,
    ) -> Option<Download>
        ensures { option_map sent_of result
            ≡ pending_at self.now (broadcasts_of broadcasts.now) carrier.number key }
    {
        if self.get(wait_key(key, carrier)).is_some() {
            download_at(broadcasts, key)
        } else {
            None
        }
    }

    /// Returns the first `many` downloads of the carrier's queue, or all if there are fewer. All
    /// pending ones are from `start` on.
    pub fn front_from(
        &mut self,
        alloc: Global,
        broadcasts: &NearMap<BroadcastId, PackedBroadcast>,
        start: DownloadKey,
        carrier: Spid,
        many: usize,
    ) -> Result<Vec<Download>, AllocError>
        requires { IsCursor self.old carrier.number (queue_key_of start) }
        ensures found { IfOk result (λ downloads.
            AreFirst (record empty_content {
              waits = self.old;
              broadcasts = broadcasts_of broadcasts.now;
            }) (spid_of carrier) many downloads.items) }
        ensures same { self.new ≡ self.old }
    {
        self.order.sort()?;
        let mut found = Vec::new(alloc);
        for (key, _) in self.order.sorted.range(start..) {
            if found.len() == many {
                return Ok(found);
            }
            if let Some(download) = self.pending_at(broadcasts, *key, carrier) {
                found.push(download)?;
            }
        }
        Ok(found)
    }
}
