//! Reads the first downloads of a carrier's queue.
ghost use Rattle.std.specs.Prelude.{◌≡◌, ◌<◌, ◌++◌, false, IsTrue, IfOk, IfSome, OnOk, is_ok, option_to_list};
ghost use Rattle.sqlite.specs.Held.{state};
ghost use Rattle.sqlite.specs.State.{HasCleanDisk};
ghost use Rattle.settle.specs.Reads.{AreFirst};
ghost use Rattle.settle.specs.Abstraction.{spid_of};
ghost use Rattle.sql_store.specs.Queues.{AreFirstWithBroadcasts, AreQueued, IsNext};
ghost use Rattle.sql_store.specs.Store.{HasStoreTables, HasQueried, content_at};

use crate::database::Database;
use crate::lists::downloads_of;
use crate::lookups::broadcast;
use crate::order::put_in_order;
use crate::select::find_all;
use delivery::{Download, DownloadKey};
use numbers::{Spid, Subject};
use settle::{BroadcastKey, WaitKey};
use sql_rows::{Fault, Query, number, spid_bytes, text};
use sqlite::Alter;
use std::alloc::Global;

// Returns all downloads pending for a carrier, in the order of its queue.
fn queue<S: Alter>(db: &mut Database<S>, spid: Spid) -> Result<Vec<DownloadKey>, Fault>
    ensures value { IsTrue (state S.Store db.new.conn).is_open
        → IfOk result (λ waits. AreQueued (content_at (state S.Store db.old.conn)) (spid_of spid) ⊥
        waits.items) }
    ensures queried { HasQueried (state S.Store db.old.conn) (state S.Store db.new.conn) (is_ok result) }
{
    let bytes = spid_bytes(spid.number);
    let found: Vec<(WaitKey, Subject)> = find_all(db, Query::WaitsFor, &[text(&bytes)])?;
    let mut waits = downloads_of(*found.allocator(), found.as_slice())?;
    put_in_order(&mut waits);
    Ok(waits)
}

// Returns the first `many` rows of a carrier's queue, in order, and whether these are all.
fn page<S: Alter>(
    db: &mut Database<S>,
    spid: Spid,
    many: u64,
) -> Result<(Vec<DownloadKey>, bool), Fault>
    requires few { many < 9223372036854775808 }
    ensures value { IsTrue (state S.Store db.new.conn).is_open
        → IfOk result (λ page. AreQueued (content_at (state S.Store db.old.conn)) (spid_of spid)
        (page.1 ≡ false) page.0.items) }
    ensures queried { HasQueried (state S.Store db.old.conn) (state S.Store db.new.conn) (is_ok result) }
{
    let bytes = spid_bytes(spid.number);
    let params = [text(&bytes), number(many)];
    let found: Vec<(WaitKey, Subject)> = find_all(db, Query::WaitsFirst, &params)?;
    let is_all = (found.len() as u64) < many;
    let mut waits = downloads_of(*found.allocator(), found.as_slice())?;
    put_in_order(&mut waits);
    Ok((waits, is_all))
}

// Returns the pending download as its broadcast's row describes it, or `None` if it has no
// broadcast.
fn next<S: Alter>(db: &mut Database<S>, wait: DownloadKey) -> Result<Option<Download>, Fault>
    ensures value { IsTrue (state S.Store db.new.conn).is_open
        → IfOk result (IsNext (content_at (state S.Store db.old.conn)) wait) }
    ensures queried { HasQueried (state S.Store db.old.conn) (state S.Store db.new.conn) (is_ok result) }
{
    let key = BroadcastKey {
        id: wait.id,
        attempt: wait.attempt,
    };
    let found = broadcast(db, key)?;
    match found {
        Some(row) => Ok(Some(Download {
            id: wait.id,
            attempt: wait.attempt,
            minute: wait.minute,
            subject: row.subject,
            action: row.action,
            routing: row.routing,
        })),
        None => Ok(None),
    }
}

fn put_behind(downloads: &mut Vec<Download>, download: Option<Download>) -> Result<(), Fault>
    ensures { OnOk result (downloads.new.items ≡ downloads.old.items ++ option_to_list download) }
{
    if let Some(download) = download {
        downloads.push(download)?;
    }
    Ok(())
}

// Returns the first `many` pending downloads that have a broadcast, or all if there are fewer.
fn first_downloads<S: Alter>(
    alloc: Global,
    db: &mut Database<S>,
    waits: &[DownloadKey],
    many: usize,
) -> Result<Vec<Download>, Fault>
    requires open { HasCleanDisk (state S.Store db.old.conn)
        → IsTrue (state S.Store db.old.conn).is_open }
    ensures value { IsTrue (state S.Store db.new.conn).is_open
        → IfOk result (λ downloads. AreFirstWithBroadcasts (content_at (state S.Store db.old.conn)) many
        waits.now downloads.items) }
    ensures queried { HasQueried (state S.Store db.old.conn) (state S.Store db.new.conn) (is_ok result) }
{
    let mut downloads = Vec::new(alloc);
    for wait in waits {
        if downloads.len() >= many {
            return Ok(downloads);
        }
        let download = next(db, *wait)?;
        put_behind(&mut downloads, download)?;
    }
    Ok(downloads)
}

// Returns the first downloads by the first rows of the queue. Returns `None` if some of these have
// no broadcast and there may be more rows.
fn first_page<S: Alter>(
    db: &mut Database<S>,
    spid: Spid,
    many: usize,
) -> Result<Option<Vec<Download>>, Fault>
    requires few { many < 9223372036854775808 }
    ensures value { IsTrue (state S.Store db.new.conn).is_open
        → IfOk result (λ found. IfSome found (λ downloads. AreFirst (content_at (state S.Store
        db.old.conn)) (spid_of spid) many downloads.items)) }
    ensures queried { HasQueried (state S.Store db.old.conn) (state S.Store db.new.conn) (is_ok result) }
{
    let (waits, is_all) = page(db, spid, many as u64)?;
    let downloads = first_downloads(*waits.allocator(), db, waits.as_slice(), many)?;
    if is_all || downloads.len() >= many {
        Ok(Some(downloads))
    } else {
        Ok(None)
    }
}

// Returns the first downloads by all rows of the queue.
fn first_of_all<S: Alter>(
    db: &mut Database<S>,
    spid: Spid,
    many: usize,
) -> Result<Vec<Download>, Fault>
    ensures value { IsTrue (state S.Store db.new.conn).is_open
        → IfOk result (λ downloads. AreFirst (content_at (state S.Store db.old.conn)) (spid_of spid)
        many downloads.items) }
    ensures queried { HasQueried (state S.Store db.old.conn) (state S.Store db.new.conn) (is_ok result) }
{
    let waits = queue(db, spid)?;
    let downloads = first_downloads(*waits.allocator(), db, waits.as_slice(), many)?;
    Ok(downloads)
}

/// Returns the first `many` downloads of the queue of `spid`, or all if there are fewer.
///
/// Reads `many` rows of the queue, each with its broadcast. Reads the whole queue only if one of
/// these rows has no broadcast, which never holds in a register's file.
pub(crate) fn front<S: Alter>(
    db: &mut Database<S>,
    spid: Spid,
    many: usize,
) -> Result<Vec<Download>, Fault>
    ensures value { IsTrue (state S.Store db.new.conn).is_open
        → IfOk result (λ downloads. AreFirst (content_at (state S.Store db.old.conn)) (spid_of spid)
        many downloads.items) }
    ensures queried { HasQueried (state S.Store db.old.conn) (state S.Store db.new.conn) (is_ok result) }
{
    if many >= 9_223_372_036_854_775_808 {
        return first_of_all(db, spid, many);
    }
    match first_page(db, spid, many)? {
        Some(downloads) => Ok(downloads),
        None => first_of_all(db, spid, many),
    }
}
