//! Lists of rows, sorted in code.
ghost use Rattle.std.specs.Prelude.{◌≡◌, ◌==◌, false, IsTrue, IfOk, filter, is_ok, map};
ghost use Rattle.std.specs.List.{list_all};
ghost use Rattle.sqlite.specs.Held.{state};
ghost use Rattle.numbers.specs.Abstraction.{subject_of};
ghost use Rattle.settle.specs.Lists.{items_of};
ghost use Rattle.settle.specs.Abstraction.{broadcast_key_of, spid_of, wait_key_of};
ghost use Rattle.std.specs.List.Sorted.{IsPermutation, IsStrictlySortedBy};
ghost use Rattle.model.specs.Content.{broadcast_cmp};
ghost use Rattle.settle.specs.Reads.{AreWaitingSubjects, AreCarriers, AreOpenBroadcasts, AreWaiters, AreWaitsAbout, is_last_wait};
ghost use Rattle.sql_store.specs.Lists.{download_of, is_waiting};
ghost use Rattle.sql_store.specs.Store.{HasStoreTables, HasQueried, content_at};

use crate::database::Database;
use crate::kept;
use crate::order::put_in_order;
use crate::select::{find, find_all};
use delivery::{Broadcast, DownloadKey};
use numbers::{Minute, Spid, Subject};
use settle::{BroadcastKey, Few, WaitKey};
use sql_rows::{Fault, Query, Table, broadcast_key, spid_bytes, subject, text, truth, wait_key};
use sqlite::Alter;
use std::alloc::Global;

/// Returns all registered carriers, ascending.
pub(crate) fn carriers<S: Alter>(db: &mut Database<S>) -> Result<Vec<Spid>, Fault>
    ensures value { IsTrue (state S.Store db.new.conn).is_open
        → IfOk result (λ carriers. AreCarriers (content_at (state S.Store db.old.conn))
        carriers.items) }
    ensures queried { HasQueried (state S.Store db.old.conn) (state S.Store db.new.conn) (is_ok result) }
{
    let mut carriers: Vec<Spid> = find_all(db, Query::All(Table::Carrier), &[])?;
    put_in_order(&mut carriers);
    Ok(carriers)
}

pub(crate) fn downloads_of(
    alloc: Global,
    waits: &[(WaitKey, Subject)],
) -> Result<Vec<DownloadKey>, Fault>
    ensures { IfOk result (λ downloads. downloads.items ≡ map download_of waits.now) }
{
    let mut downloads = Vec::with_capacity(alloc, waits.len())?;
    for (key, _) in waits {
        downloads.push(DownloadKey {
            minute: key.minute,
            id: key.id,
            attempt: key.attempt,
        })?;
    }
    Ok(downloads)
}

fn subjects_of(alloc: Global, waits: &[(WaitKey, Subject)]) -> Result<Vec<Subject>, Fault>
    ensures { IfOk result (λ subjects. subjects.items ≡ map (λ w. w.1) waits.now) }
{
    let mut subjects = Vec::with_capacity(alloc, waits.len())?;
    for (_, subject) in waits {
        subjects.push(*subject)?;
    }
    Ok(subjects)
}

/// Returns the downloads of `of` that are pending for `spid`, earliest first.
pub(crate) fn waits_about<S: Alter>(
    db: &mut Database<S>,
    spid: Spid,
    of: Subject,
) -> Result<Few<DownloadKey>, Fault>
    ensures value { IsTrue (state S.Store db.new.conn).is_open
        → IfOk result (λ downloads. AreWaitsAbout (content_at (state S.Store db.old.conn))
        (spid_of spid) (subject_of of) (items_of downloads)) }
    ensures queried { HasQueried (state S.Store db.old.conn) (state S.Store db.new.conn) (is_ok result) }
{
    let bytes = spid_bytes(spid.number);
    let params = [subject(of), text(&bytes)];
    let waits: Vec<(WaitKey, Subject)> = find_all(db, Query::WaitsAbout, &params)?;
    let mut downloads = downloads_of(*waits.allocator(), waits.as_slice())?;
    put_in_order(&mut downloads);
    Ok(Few::Many(downloads))
}

/// Returns the subjects with downloads pending for `spid`, ascending, without duplicates.
pub(crate) fn waits<S: Alter>(db: &mut Database<S>, spid: Spid) -> Result<Vec<Subject>, Fault>
    ensures value { IsTrue (state S.Store db.new.conn).is_open
        → IfOk result (λ subjects. AreWaitingSubjects (content_at (state S.Store db.old.conn))
        (spid_of spid)
        subjects.items) }
    ensures queried { HasQueried (state S.Store db.old.conn) (state S.Store db.new.conn) (is_ok result) }
{
    let bytes = spid_bytes(spid.number);
    let waits: Vec<(WaitKey, Subject)> = find_all(db, Query::WaitsFor, &[text(&bytes)])?;
    let mut subjects = subjects_of(*waits.allocator(), waits.as_slice())?;
    put_in_order(&mut subjects);
    Ok(subjects)
}

fn is_waiting(waits: &[(WaitKey, Subject)], minute: Minute, carrier: Spid) -> bool
    ensures { result ≡ is_waiting waits.now minute.number carrier }
{
    waits
        .iter()
        .any(|(key, _)| key.minute == minute && key.carrier == carrier)
}

fn waiting_among(
    alloc: Global,
    carriers: &[Spid],
    waits: &[(WaitKey, Subject)],
    minute: Minute,
) -> Result<Vec<Spid>, Fault>
    ensures { IfOk result (λ waiters.
        waiters.items ≡ filter (is_waiting waits.now minute.number) carriers.now) }
{
    let mut waiters = Vec::new(alloc);
    for carrier in carriers {
        if is_waiting(waits, minute, *carrier) {
            waiters.push(*carrier)?;
        }
    }
    Ok(waiters)
}

/// Returns the registered carriers for which the broadcast `key`, sent at `minute`, is pending,
/// ascending.
pub(crate) fn waiters<S: Alter>(
    db: &mut Database<S>,
    minute: Minute,
    key: BroadcastKey,
) -> Result<Vec<Spid>, Fault>
    ensures value { IsTrue (state S.Store db.new.conn).is_open
        → IfOk result (λ carriers. AreWaiters (content_at (state S.Store db.old.conn)) minute.number
        key.id key.attempt carriers.items) }
    ensures queried { HasQueried (state S.Store db.old.conn) (state S.Store db.new.conn) (is_ok result) }
{
    let carriers = kept::carriers(db)?;
    let alloc = *carriers.allocator();
    if key.id >= 9_223_372_036_854_775_808 || key.attempt >= 9_223_372_036_854_775_808 {
        return Ok(Vec::new(alloc));
    }
    let waits: Vec<(WaitKey, Subject)> = find_all(db, Query::WaitsOf, &broadcast_key(key))?;
    let waiters = waiting_among(alloc, carriers.as_slice(), waits.as_slice(), minute)?;
    Ok(waiters)
}

fn are_all(carriers: &[Spid], carrier: Spid) -> bool
    ensures { result ≡ list_all (λ c. c.number == carrier.number) carriers.now }
{
    carriers.iter().all(|other| *other == carrier)
}

// Returns whether `wait` is the last pending download of its broadcast, by the downloads of all
// carriers.
fn is_last_of_all<S: Alter>(db: &mut Database<S>, wait: WaitKey) -> Result<bool, Fault>
    ensures value { IsTrue (state S.Store db.new.conn).is_open
        → IfOk result (λ last. last ≡ is_last_wait (content_at (state S.Store db.old.conn))
        (wait_key_of wait)) }
    ensures queried { HasQueried (state S.Store db.old.conn) (state S.Store db.new.conn) (is_ok result) }
{
    let key = BroadcastKey {
        id: wait.id,
        attempt: wait.attempt,
    };
    let waiters = waiters(db, wait.minute, key)?;
    Ok(are_all(waiters.as_slice(), wait.carrier))
}

/// Returns whether `wait` is the last pending download of its broadcast: no other registered
/// carrier has one.
///
/// Reads one download of another carrier. Reads them all only if this carrier is not registered,
/// which never holds in a register's file.
pub(crate) fn is_last_wait<S: Alter>(db: &mut Database<S>, wait: WaitKey) -> Result<bool, Fault>
    ensures value { IsTrue (state S.Store db.new.conn).is_open
        → IfOk result (λ last. last ≡ is_last_wait (content_at (state S.Store db.old.conn))
        (wait_key_of wait)) }
    ensures queried { HasQueried (state S.Store db.old.conn) (state S.Store db.new.conn) (is_ok result) }
{
    if wait.id >= 9_223_372_036_854_775_808 || wait.attempt >= 9_223_372_036_854_775_808 {
        return is_last_of_all(db, wait);
    }
    let bytes = spid_bytes(wait.carrier.number);
    let params = wait_key(wait, &bytes);
    let found: Option<(WaitKey, Subject)> = find(db, Query::WaitOfAnother, &params)?;
    let Some((other, _)) = found else {
        return Ok(true);
    };
    if kept::carrier(db, other.carrier)? {
        return Ok(false);
    }
    is_last_of_all(db, wait)
}

fn rise(broadcasts: &[(BroadcastKey, Broadcast)]) -> bool
    ensures { IsTrue result → IsStrictlySortedBy (λ a b. broadcast_cmp (broadcast_key_of a.0)
        (broadcast_key_of b.0)) broadcasts.now }
{
    let mut at = 1;
    while at < broadcasts.len() {
        if broadcasts[at - 1].0 >= broadcasts[at].0 {
            return false;
        }
        at += 1;
    }
    true
}

fn put_in_order_by_key(broadcasts: &mut Vec<(BroadcastKey, Broadcast)>)
    ensures { IsPermutation broadcasts.old.items broadcasts.new.items }
{
    broadcasts.sort_unstable_by_key(|broadcast| broadcast.0);
}

/// Returns all open broadcasts, ordered by key.
pub(crate) fn open_broadcasts<S: Alter>(
    db: &mut Database<S>,
) -> Result<Vec<(BroadcastKey, Broadcast)>, Fault>
    ensures value { IsTrue (state S.Store db.new.conn).is_open
        → IfOk result (λ broadcasts. AreOpenBroadcasts (content_at (state S.Store db.old.conn))
        broadcasts.items) }
    ensures queried { HasQueried (state S.Store db.old.conn) (state S.Store db.new.conn) (is_ok result) }
{
    let mut broadcasts: Vec<(BroadcastKey, Broadcast)> = find_all(
        db,
        Query::BroadcastsByOpen,
        &[truth(true)],
    )?;
    put_in_order_by_key(&mut broadcasts);
    if !rise(broadcasts.as_slice()) {
        return Err(Fault::Device);
    }
    Ok(broadcasts)
}
