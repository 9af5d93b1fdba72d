//! The carriers' queues of pending downloads.
ghost use Rattle.std.specs.Prelude.{◌≡◌, ◌==◌, ℕ, Some, None, IfSome, IfNone, IfOk, OnOk, OnErr, is_some, option_map, ◌≤◌, true, length, take};
ghost use Rattle.std.specs.List.{list_any};
ghost use Rattle.numbers.specs.declared.spid.Spid.{Spid as SpidImpl};
ghost use Rattle.store.specs.WaitRows.{Download as DownloadModel, download_cmp, download_of, wait_for};
ghost use Rattle.std.specs.FinMap.{FinMap, get, empty};
ghost use Rattle.std.specs.Ordering.{is_le};
ghost use Rattle.numbers.specs.Abstraction.{subject_of};
ghost use Rattle.numbers.specs.Subjects.{Subject as SubjectModel};
ghost use Rattle.model.specs.Content.{wait_cmp, wait_key, empty_content};
ghost use Rattle.settle.specs.Lists.{items_of};
ghost use Rattle.settle.specs.Reads.{AreWaitingSubjects, AreFirst, AreWaitsAbout};
ghost use Rattle.settle.specs.Abstraction.{spid_of, wait_key_of};
ghost use Rattle.store.specs.Batch.{AreNew};
ghost use Rattle.store.specs.Maps.{set};
ghost use Rattle.store.specs.BroadcastRows.{broadcasts_of};
ghost use Rattle.store.specs.QueueRows.{queue_key_of, AreCursors, IsCursor, AreUpTo};
ghost use Rattle.store.specs.Ranks.{subject_at};
ghost use Rattle.store.specs.Sharing.{TakesWait};

use crate::carriers::Carriers;
use crate::keys::{BroadcastId, Rank, queue_key};
use crate::near::NearMap;
use crate::packed_broadcast::PackedBroadcast;
use crate::waits::Waits;
use delivery::{Download, DownloadKey};
use numbers::{Minute, Spid, Subject};
use settle::{Few, WaitKey};
use std::alloc::{AllocError, Global};
use std::collections::HashMap;
use std::marker::Model;

/// The pending downloads, and a cursor for each carrier whose queue was read.
///
/// All broadcasts that are pending for someone have one order, by their minutes. Each download that
/// is pending for a carrier is at the carrier's cursor or after it. A look-up in a queue begins at
/// the cursor and moves it to the carrier's first pending download. So a look-up reads the
/// carrier's downloads, and skips those broadcasts after its first one that are pending for others
/// only. A carrier that keeps up skips each of them once. A download before the cursor, which
/// registers rarely send, moves the cursor back.
#[derive(Drop)]
pub struct Queues {
    waits: Waits,
    // By the number of the carrier. Without a cursor a carrier's queue is read from the first
    // broadcast on.
    cursors: HashMap<u32, DownloadKey>,
    // No cursor is after it, so that a download from it on moves no cursor back.
    latest: DownloadKey,
}

impl Model for Queues {
    ghost use Rattle.std.specs.FinMap.{FinMap};
    ghost use Rattle.numbers.specs.Subjects.{Subject};
    ghost use Rattle.model.specs.Content.{wait_cmp};
    ghost use Rattle.store.specs.WaitRows.{coded_waits};
    ghost use Rattle.store.specs.QueueRows.{queue_key_of, AreCursors, AreUpTo};

    ghost Value = { FinMap wait_cmp Subject };

    ghost coded = { coded_waits };

    ghost view = { λ q. q.waits };

    ghost invariant = { λ q. AreCursors q.cursors.entries q.waits
        × AreUpTo q.cursors.entries (queue_key_of q.latest) };
}

// The least key that a broadcast can have.
const FIRST: DownloadKey = DownloadKey {
    minute: Minute::ZERO,
    id: 0,
    attempt: 0,
};

// Moves the carrier's cursor back to a new download, if the download is before it.
fn move_back(cursors: &mut HashMap<u32, DownloadKey>, key: WaitKey)
    ensures cursors { (waits : FinMap wait_cmp SubjectModel) (s : SubjectModel)
        → AreCursors cursors.old.entries waits
        → AreCursors cursors.new.entries (set waits (wait_key_of key) (Some s)) }
    ensures latest { (latest : DownloadModel) → AreUpTo cursors.old.entries latest
        → AreUpTo cursors.new.entries latest }
{
    let own = queue_key(key);
    if let Some(cursor) = cursors.get_mut(&key.carrier.number) {
        if own < *cursor {
            *cursor = own;
        }
    }
}

// Moves the cursor of each download's carrier back to the download, if the download is before it.
fn move_all_back(cursors: &mut HashMap<u32, DownloadKey>, downloads: &[(WaitKey, Subject)])
    ensures cursors { (old new : FinMap wait_cmp SubjectModel) → AreNew downloads.now old new
        → AreCursors cursors.old.entries old → AreCursors cursors.new.entries new }
    ensures latest { (latest : DownloadModel) → AreUpTo cursors.old.entries latest
        → AreUpTo cursors.new.entries latest }
{
    for (key, _) in downloads {
        move_back(cursors, *key);
    }
}

// Returns a key that no download pending for the carrier is before.
fn cursor_of(cursors: &HashMap<u32, DownloadKey>, carrier: Spid) -> DownloadKey
    ensures { (waits : FinMap wait_cmp SubjectModel) → AreCursors cursors.now.entries waits
        → IsCursor waits carrier.number (queue_key_of result) }
{
    match cursors.get(&carrier.number) {
        None => FIRST,
        Some(cursor) => *cursor,
    }
}

// Moves the carrier's cursor to its first pending download, and returns the download's key. If none
// is pending, moves it to the last broadcast. If an allocation fails, the cursor stays.
fn move_cursor(
    waits: &mut Waits,
    cursors: &mut HashMap<u32, DownloadKey>,
    carrier: Spid,
) -> DownloadKey
    requires { AreCursors cursors.old.entries waits.old }
    ensures same { waits.new ≡ waits.old }
    ensures cursors { AreCursors cursors.new.entries waits.old }
    ensures own { IsCursor waits.old carrier.number (queue_key_of result) }
    ensures latest { (latest : DownloadModel) → AreUpTo cursors.old.entries latest
        → is_le (download_cmp (queue_key_of result) latest) ≡ true
        → AreUpTo cursors.new.entries latest }
{
    let cursor = cursor_of(cursors, carrier);
    let first = waits.first_from(cursor, carrier);
    if first != cursor {
        let _ = cursors.insert(carrier.number, first);
    }
    first
}

impl Queues {
    /// Creates empty queues.
    pub fn new(alloc: Global) -> Queues
        ensures { result ≡ empty }
    {
        Queues {
            waits: Waits::new(alloc),
            cursors: HashMap::new(alloc),
            latest: FIRST,
        }
    }

    // Moves the carrier's cursor to its first pending download, and returns a key that no download
    // pending for the carrier is before.
    fn start_of(&mut self, carrier: Spid) -> DownloadKey
        ensures own { IsCursor self.new carrier.number (queue_key_of result) }
        ensures same { self.new ≡ self.old }
    {
        let start = move_cursor(&mut self.waits, &mut self.cursors, carrier);
        if self.latest < start {
            self.latest = start;
        }
        start
    }

    /// Returns the subject of a pending download.
    pub fn get(&self, key: WaitKey) -> Option<Subject>
        ensures { option_map subject_of result ≡ get self.now (wait_key_of key) }
    {
        self.waits.get(key)
    }

    /// Returns the carriers for which the download's broadcast is pending.
    pub fn carriers_of(&self, key: WaitKey) -> &[Spid]
        ensures { (carrier : ℕ)
            → is_some (get self.now (wait_for (download_of (wait_key_of key)) carrier))
            ≡ list_any (λ (k : SpidImpl). carrier == k.number) result.now }
    {
        self.waits.carriers_of(key)
    }

    /// Adds a pending download, and returns its subject if it was pending already. Changes nothing
    /// if an allocation fails, or if the broadcast has another subject.
    pub fn put(&mut self, key: WaitKey, subject: Subject) -> Result<Option<Subject>, AllocError>
        ensures before { IfOk result
            (λ before. option_map subject_of before ≡ get self.old (wait_key_of key)) }
        ensures same { IfOk result
            (λ before. IfSome before (λ was. subject_of was ≡ subject_of subject)) }
        ensures ok { OnOk result
            (self.new ≡ set self.old (wait_key_of key) (Some (subject_of subject))) }
        ensures err { OnErr result (self.new ≡ self.old) }
    {
        let before = self.waits.put(key, subject)?;
        // A new download is seldom before a cursor.
        if queue_key(key) < self.latest {
            move_back(&mut self.cursors, key);
        }
        Ok(before)
    }

    /// Adds the downloads, from the first one on, that are of the broadcast of `key` and of
    /// `subject`, with ascending carriers. Returns how many it added: none if the broadcast has a
    /// row. Changes nothing if an allocation fails.
    pub fn put_run(
        &mut self,
        key: WaitKey,
        subject: Subject,
        downloads: &[(WaitKey, Subject)],
    ) -> Result<usize, AllocError>
        ensures inside { IfOk result (λ count. count ≤ length downloads.now) }
        ensures new { IfOk result (λ count. AreNew (take count downloads.now) self.old self.new) }
        ensures refused { OnErr result (self.new ≡ self.old) }
    {
        let count = self.waits.put_run(key, subject, downloads)?;
        if queue_key(key) < self.latest {
            move_all_back(&mut self.cursors, &downloads[..count]);
        }
        Ok(count)
    }

    /// Deletes a download, if it is pending.
    pub fn delete(&mut self, key: WaitKey)
        ensures { self.new ≡ set self.old (wait_key_of key) None }
    {
        self.waits.delete(key);
    }

    /// Deletes the carrier's download of the only broadcast of the subject at this place, and returns
    /// its minute. Returns `None` and changes nothing unless the broadcast has this version's id and
    /// this attempt, and is pending for the carrier and for another registered one.
    // Inlined: a row is large, and each return moves it.
    #[inline(always)]
    pub fn take_shared(
        &mut self,
        registered: &Carriers,
        rank: Rank,
        carrier: Spid,
        id: u64,
        attempt: u64,
    ) -> Option<Minute>
        ensures none { IfNone result (self.new ≡ self.old) }
        ensures some { IfSome result
            (λ minute. TakesWait registered.now self.old self.new (subject_at rank)
            (wait_key carrier.number minute.number id attempt)) }
    {
        self.waits
            .take_shared(registered, rank, carrier, id, attempt)
    }

    /// Returns the downloads of the subject that are pending for the carrier, earliest first.
    pub fn about(
        &self,
        alloc: Global,
        carrier: Spid,
        subject: Subject,
    ) -> Result<Few<DownloadKey>, AllocError>
        ensures { IfOk result (λ downloads.
            AreWaitsAbout (record empty_content { waits = self.now }) (spid_of carrier)
            (subject_of subject) (items_of downloads)) }
    {
        self.waits.about(alloc, carrier, subject)
    }

    /// Returns the subjects with downloads pending for the carrier, ascending, without duplicates.
    pub fn subjects(&mut self, alloc: Global, carrier: Spid) -> Result<Vec<Subject>, AllocError>
        ensures found { IfOk result (λ subjects.
            AreWaitingSubjects (record empty_content { waits = self.old }) (spid_of carrier)
            subjects.items) }
        ensures same { self.new ≡ self.old }
    {
        let start = self.start_of(carrier);
        self.waits.subjects_from(alloc, start, carrier)
    }

    /// Returns the first `many` downloads of the carrier's queue, or all if there are fewer. Reads
    /// their subjects, actions and routings from `broadcasts`.
    pub fn front(
        &mut self,
        alloc: Global,
        broadcasts: &NearMap<BroadcastId, PackedBroadcast>,
        carrier: Spid,
        many: usize,
    ) -> Result<Vec<Download>, AllocError>
        ensures found { IfOk result (λ downloads.
            AreFirst (record empty_content {
              waits = self.old;
              broadcasts = broadcasts_of broadcasts.now;
            }) (spid_of carrier) many downloads.items) }
        ensures same { self.new ≡ self.old }
    {
        let start = self.start_of(carrier);
        self.waits
            .front_from(alloc, broadcasts, start, carrier, many)
    }
}
