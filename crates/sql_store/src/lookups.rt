//! Reads rows by their keys.
ghost use Rattle.std.specs.Prelude.{◌≡◌, false, IsTrue, IfOk, OnOk, is_ok, is_some, option_map};
ghost use Rattle.std.specs.FinMap.{get};
ghost use Rattle.sqlite.specs.Held.{state};
ghost use Rattle.sqlite.specs.State.{HasCleanDisk};
ghost use Rattle.sqlite.specs.Values.{bound};
ghost use Rattle.numbers.specs.Abstraction.{routing_of, subject_of};
ghost use Rattle.model.specs.Abstraction.{status_of};
ghost use Rattle.version.specs.Abstraction.{windows_of};
ghost use Rattle.sql_rows.specs.Clocks.{clock_of};
ghost use Rattle.sql_rows.specs.Content.{IsRoutedAs, clocks_in, nexts_in};
ghost use Rattle.sql_rows.specs.Versions.{modified_to, next_of};
ghost use Rattle.sql_store.specs.Found.{IsVersionFound};
ghost use Rattle.settle.specs.Abstraction.{spid_of, lrn_of, code_of, block_of, block_row_of, clock_row_of, broadcast_row_of, broadcast_key_of};
ghost use Rattle.settle.specs.Reads.{IsInForce, IsOpen, IsLeastDue};
ghost use Rattle.sql_store.specs.Store.{HasStoreTables, HasQueried, content_at};
ghost use Rattle.sql_store.specs.Whole.{HasPresentSet};

use crate::database::Database;
use crate::select::find;
use delivery::Broadcast;
use model::{Send, Status};
use numbers::{BlockId, CodeId, Lrn, Minute, Routing, Spid, Subject};
use settle::{BlockRow, BroadcastKey, ClockRow, NumberedRow, VersionRow};
use sql_rows::{Fault, Query, StoredClock, minute, number, spid_bytes, subject, text};
use sqlite::Alter;
use sqlite::types::ValueRef;
use version::Version;
use windows::{WindowSet, Windows};

/// Returns whether `spid` is a registered carrier.
pub(crate) fn carrier<S: Alter>(db: &mut Database<S>, spid: Spid) -> Result<bool, Fault>
    ensures value { IsTrue (state S.Store db.new.conn).is_open
        → IfOk result (λ found. found ≡ is_some (get (content_at (state S.Store
        db.old.conn)).carriers (spid_of spid))) }
    ensures queried { HasQueried (state S.Store db.old.conn) (state S.Store db.new.conn) (is_ok result) }
{
    let bytes = spid_bytes(spid.number);
    let found: Option<Spid> = find(db, Query::CarrierNamed, &[text(&bytes)])?;
    Ok(found.is_some())
}

/// Returns the carrier that registered `lrn`, if one did.
pub(crate) fn lrn<S: Alter>(db: &mut Database<S>, lrn: Lrn) -> Result<Option<Spid>, Fault>
    ensures value { IsTrue (state S.Store db.new.conn).is_open
        → IfOk result (λ o. option_map spid_of o ≡ get (content_at (state S.Store db.old.conn)).lrns
        (lrn_of lrn)) }
    ensures queried { HasQueried (state S.Store db.old.conn) (state S.Store db.new.conn) (is_ok result) }
{
    let found: Option<(Lrn, Spid)> = find(db, Query::LrnNumbered, &[number(lrn.number)])?;
    Ok(found.map(|(_, owner)| owner))
}

/// Returns the carrier that holds `code`, if the code is open.
pub(crate) fn code<S: Alter>(db: &mut Database<S>, code: CodeId) -> Result<Option<Spid>, Fault>
    ensures value { IsTrue (state S.Store db.new.conn).is_open
        → IfOk result (λ o. option_map spid_of o ≡ get (content_at (state S.Store db.old.conn)).codes
        (code_of code)) }
    ensures queried { HasQueried (state S.Store db.old.conn) (state S.Store db.new.conn) (is_ok result) }
{
    let found: Option<(CodeId, Spid)> = find(
        db,
        Query::CodeNumbered,
        &[number(u64::from(code.number))],
    )?;
    Ok(found.map(|(_, owner)| owner))
}

/// Returns the row of `block`, if the block has been donated.
pub(crate) fn block<S: Alter>(
    db: &mut Database<S>,
    block: BlockId,
) -> Result<Option<BlockRow>, Fault>
    ensures value { IsTrue (state S.Store db.new.conn).is_open
        → IfOk result (λ o. option_map block_row_of o ≡ get (content_at (state S.Store
        db.old.conn)).blocks (block_of block)) }
    ensures queried { HasQueried (state S.Store db.old.conn) (state S.Store db.new.conn) (is_ok result) }
{
    let found: Option<(BlockId, BlockRow)> = find(
        db,
        Query::BlockNumbered,
        &[number(u64::from(block.number))],
    )?;
    Ok(found.map(|(_, row)| row))
}

/// Returns the windows of set `of`, if there is one.
pub(crate) fn window_set<S: Alter>(db: &mut Database<S>, of: u16) -> Result<Option<Windows>, Fault>
    ensures value { IsTrue (state S.Store db.new.conn).is_open
        → IfOk result (λ o. option_map windows_of o ≡ get (content_at (state S.Store
        db.old.conn)).sets of) }
    ensures queried { HasQueried (state S.Store db.old.conn) (state S.Store db.new.conn) (is_ok result) }
{
    let params = [number(u64::from(of))];
    let found: Option<WindowSet> = find(db, Query::WindowSetNumbered, &params)?;
    Ok(found.map(|set| set.windows))
}

// Returns the clock's row as stored.
fn stored_clock<S: Alter>(db: &mut Database<S>) -> Result<Option<StoredClock>, Fault>
    ensures value { IsTrue (state S.Store db.new.conn).is_open
        → IfOk result (λ o. option_map clock_of o
        ≡ get (clocks_in ((state S.Store db.old.conn).now.trees 21)) 0) }
    ensures queried { HasQueried (state S.Store db.old.conn) (state S.Store db.new.conn) (is_ok result) }
{
    let found: Option<(u64, StoredClock)> = find(db, Query::ClockNumbered, &[number(0)])?;
    Ok(found.map(|(_, row)| row))
}

/// Returns the clock's row, if it has been written, with the windows of the set that it names. A set
/// that is missing is a fault of the device.
pub(crate) fn clock<S: Alter>(db: &mut Database<S>) -> Result<Option<ClockRow>, Fault>
    ensures value { IsTrue (state S.Store db.new.conn).is_open
        → IfOk result (λ o. option_map clock_row_of o ≡ (content_at (state S.Store
        db.old.conn)).clock) }
    ensures present { IsTrue (state S.Store db.new.conn).is_open
        → OnOk result (HasPresentSet (state S.Store db.old.conn).now.trees) }
    ensures queried { HasQueried (state S.Store db.old.conn) (state S.Store db.new.conn) (is_ok result) }
{
    let stored = stored_clock(db)?;
    let Some(row) = stored else {
        return Ok(None);
    };
    let found = window_set(db, row.present)?;
    match found {
        Some(windows) => Ok(Some(ClockRow {
            minute: row.minute,
            next_id: row.next_id,
            present: WindowSet {
                number: row.present,
                windows,
            },
        })),
        None => Err(Fault::Device),
    }
}

// Returns the routing that the version with this id sends, if it sends one.
fn next_routing<S: Alter>(db: &mut Database<S>, id: u64) -> Result<Option<Routing>, Fault>
    ensures value { IsTrue (state S.Store db.new.conn).is_open
        → IfOk result (λ o. option_map routing_of o
        ≡ get (nexts_in ((state S.Store db.old.conn).now.trees 16)) id) }
    ensures queried { HasQueried (state S.Store db.old.conn) (state S.Store db.new.conn) (is_ok result) }
{
    if id >= 9_223_372_036_854_775_808 {
        // No row has such an id, but only a look-up detects a shut connection.
        clock(db)?;
        return Ok(None);
    }
    let found: Option<(u64, Routing)> = find(db, Query::NextRoutingNumbered, &[number(id)])?;
    Ok(found.map(|(_, routing)| routing))
}

fn is_modified(status: Status) -> bool
    ensures { result ≡ is_some (next_of (status_of status)) }
{
    matches!(status, Status::SendingModify { .. })
}

fn modified_to(row: &VersionRow, routing: Routing) -> VersionRow
    ensures { result ≡ modified_to (routing_of routing) row.now }
{
    VersionRow {
        version: Version {
            status: Status::from(Send::Modify(routing)),
            ..row.version
        },
        deadline: row.deadline,
        is_in_force: row.is_in_force,
        is_open: row.is_open,
    }
}

// Returns the row with the routing that its version sends, which is in a table of its own.
fn whole<S: Alter>(db: &mut Database<S>, found: NumberedRow) -> Result<NumberedRow, Fault>
    requires open { HasCleanDisk (state S.Store db.old.conn)
        → IsTrue (state S.Store db.old.conn).is_open }
    ensures value { IsTrue (state S.Store db.new.conn).is_open
        → IfOk result (IsRoutedAs (state S.Store db.old.conn).now.trees found) }
    ensures queried { HasQueried (state S.Store db.old.conn) (state S.Store db.new.conn) (is_ok result) }
{
    if !is_modified(found.row.version.status) {
        return Ok(found);
    }
    let next = next_routing(db, found.id)?;
    match next {
        Some(routing) => Ok(NumberedRow {
            id: found.id,
            row: modified_to(&found.row, routing),
        }),
        None => Ok(found),
    }
}

// Returns the only version that answers a query, if there is one, with the routing that it sends.
fn find_whole<S: Alter>(
    db: &mut Database<S>,
    query: Query,
    params: &[ValueRef<'_>],
) -> Result<Option<NumberedRow>, Fault>
    ensures value { IsTrue (state S.Store db.new.conn).is_open
        → IfOk result (IsVersionFound query (state S.Store db.old.conn).now.trees
        (bound params.now)) }
    ensures queried { HasQueried (state S.Store db.old.conn) (state S.Store db.new.conn) (is_ok result) }
{
    let found: Option<NumberedRow> = find(db, query, params)?;
    match found {
        Some(bare) => {
            let row = whole(db, bare)?;
            Ok(Some(row))
        }
        None => Ok(None),
    }
}

/// Returns the version with this id, if there is one.
pub(crate) fn version<S: Alter>(db: &mut Database<S>, id: u64) -> Result<Option<VersionRow>, Fault>
    ensures value { IsTrue (state S.Store db.new.conn).is_open
        → IfOk result (λ o. o ≡ get (content_at (state S.Store db.old.conn)).versions id) }
    ensures queried { HasQueried (state S.Store db.old.conn) (state S.Store db.new.conn) (is_ok result) }
{
    if id >= 9_223_372_036_854_775_808 {
        // No row has such an id, but only a look-up detects a shut connection.
        clock(db)?;
        return Ok(None);
    }
    let found = find_whole(db, Query::VersionNumbered, &[number(id)])?;
    Ok(found.map(|version| version.row))
}

/// Returns the version of `of` that is in force, if there is one.
pub(crate) fn version_in_force<S: Alter>(
    db: &mut Database<S>,
    of: Subject,
) -> Result<Option<NumberedRow>, Fault>
    ensures value { IsTrue (state S.Store db.new.conn).is_open
        → IfOk result (IsInForce (content_at (state S.Store db.old.conn)) (subject_of of)) }
    ensures queried { HasQueried (state S.Store db.old.conn) (state S.Store db.new.conn) (is_ok result) }
{
    let found = find_whole(db, Query::VersionInForce, &[subject(of)])?;
    Ok(found)
}

/// Returns the open version of `of`, if there is one.
pub(crate) fn open_version<S: Alter>(
    db: &mut Database<S>,
    of: Subject,
) -> Result<Option<NumberedRow>, Fault>
    ensures value { IsTrue (state S.Store db.new.conn).is_open
        → IfOk result (IsOpen (content_at (state S.Store db.old.conn)) (subject_of of)) }
    ensures queried { HasQueried (state S.Store db.old.conn) (state S.Store db.new.conn) (is_ok result) }
{
    let found = find_whole(db, Query::VersionOpen, &[subject(of)])?;
    Ok(found)
}

/// Returns the version with the earliest deadline, if that minute is not after `now`.
pub(crate) fn least_due<S: Alter>(
    db: &mut Database<S>,
    now: Minute,
) -> Result<Option<NumberedRow>, Fault>
    ensures value { IsTrue (state S.Store db.new.conn).is_open
        → IfOk result (IsLeastDue (content_at (state S.Store db.old.conn)) now.number) }
    ensures queried { HasQueried (state S.Store db.old.conn) (state S.Store db.new.conn) (is_ok result) }
{
    let found = find_whole(db, Query::VersionDue, &[minute(now)])?;
    Ok(found)
}

/// Returns the broadcast `key`, if it is open or still pending for some carrier.
pub(crate) fn broadcast<S: Alter>(
    db: &mut Database<S>,
    key: BroadcastKey,
) -> Result<Option<Broadcast>, Fault>
    ensures value { IsTrue (state S.Store db.new.conn).is_open
        → IfOk result (λ o. option_map broadcast_row_of o ≡ get (content_at (state S.Store
        db.old.conn)).broadcasts (broadcast_key_of key)) }
    ensures queried { HasQueried (state S.Store db.old.conn) (state S.Store db.new.conn) (is_ok result) }
{
    if key.id >= 9_223_372_036_854_775_808 || key.attempt >= 9_223_372_036_854_775_808 {
        // No row has such a key, but only a look-up detects a shut connection.
        clock(db)?;
        return Ok(None);
    }
    let params = [number(key.id), number(key.attempt)];
    let found: Option<(BroadcastKey, Broadcast)> = find(db, Query::BroadcastKeyed, &params)?;
    Ok(found.map(|(_, broadcast)| broadcast))
}
