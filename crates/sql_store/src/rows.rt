//! Writes or deletes a row of each table.
ghost use Rattle.std.specs.Prelude.{◌≡◌, ◌<◌, Some, None, is_ok};
ghost use Rattle.sqlite.specs.Held.{state};
ghost use Rattle.numbers.specs.Abstraction.{routing_of, subject_of};
ghost use Rattle.settle.specs.Abstraction.{spid_of, lrn_of, code_of, block_of, block_row_of, broadcast_row_of, broadcast_key_of, wait_key_of};
ghost use Rattle.sql_store.specs.Store.{IsNextPut, IsSetPut, AppliesInTransaction, WritesInTransaction};
ghost use Rattle.model.specs.Abstraction.{status_of};
ghost use Rattle.version.specs.Abstraction.{windows_of};
ghost use Rattle.sql_rows.specs.Clocks.{clock_of};
ghost use Rattle.sql_rows.specs.Versions.{next_of};
ghost use Rattle.sql_store.specs.Changes.{with_carrier, with_lrn, with_code, with_block, with_clock, with_set, with_set_alone, with_version, without_version, with_broadcast, without_broadcast, with_wait, without_wait};

use crate::change::{replace, take};
use delivery::Broadcast;
use model::Status;
use numbers::{BlockId, CodeId, Lrn, Routing, Spid, Subject};
use settle::{BlockRow, BroadcastKey, VersionRow, WaitKey};
use sql_rows::{
    Fault, StoredClock, Table, block_params, broadcast_key, broadcast_params, clock_params, fits,
    fits_block, is_set_number, next_params, number, set_params, spid_bytes, text, version_params,
    wait_key, wait_params,
};
use sqlite::{Alter, Connection};
use windows::{WindowSet, Windows};

/// Writes a registered carrier.
pub(crate) fn put_carrier<S: Alter>(conn: &mut Connection<S>, spid: Spid) -> Result<(), Fault>
    ensures { AppliesInTransaction (state S.Store conn.old)
        (state S.Store conn.new) (is_ok result) (with_carrier (spid_of spid)) }
{
    let bytes = spid_bytes(spid.number);
    replace(conn, Table::Carrier, &[text(&bytes)], &[text(&bytes)])?;
    Ok(())
}

/// Writes an LRN and the carrier that registered it.
pub(crate) fn put_lrn<S: Alter>(
    conn: &mut Connection<S>,
    lrn: Lrn,
    owner: Spid,
) -> Result<(), Fault>
    ensures { AppliesInTransaction (state S.Store conn.old)
        (state S.Store conn.new) (is_ok result) (with_lrn (lrn_of lrn) (spid_of owner)) }
{
    let bytes = spid_bytes(owner.number);
    let key = number(lrn.number);
    replace(conn, Table::Lrn, &[key], &[key, text(&bytes)])?;
    Ok(())
}

/// Writes a code and its holder.
pub(crate) fn put_code<S: Alter>(
    conn: &mut Connection<S>,
    code: CodeId,
    owner: Spid,
) -> Result<(), Fault>
    ensures { AppliesInTransaction (state S.Store conn.old)
        (state S.Store conn.new) (is_ok result) (with_code (code_of code) (spid_of owner)) }
{
    let bytes = spid_bytes(owner.number);
    let key = number(u64::from(code.number));
    replace(conn, Table::Code, &[key], &[key, text(&bytes)])?;
    Ok(())
}

/// Writes the row of a donated block.
pub(crate) fn put_block<S: Alter>(
    conn: &mut Connection<S>,
    block: BlockId,
    row: &BlockRow,
) -> Result<(), Fault>
    ensures { AppliesInTransaction (state S.Store conn.old)
        (state S.Store conn.new)
        (is_ok result) (with_block (block_of block) (block_row_of row.now)) }
{
    if !fits_block(row) {
        return Err(Fault::Device);
    }
    let bytes = spid_bytes(row.donor.number);
    let key = u64::from(block.number);
    let params = block_params(key, row, &bytes);
    replace(conn, Table::Block, &[number(key)], &params)?;
    Ok(())
}

/// Writes the clock's row, with the number of its windows.
pub(crate) fn put_clock<S: Alter>(conn: &mut Connection<S>, row: &StoredClock) -> Result<(), Fault>
    ensures { AppliesInTransaction (state S.Store conn.old)
        (state S.Store conn.new) (is_ok result) (with_clock (clock_of row.now)) }
{
    if row.next_id >= 9_223_372_036_854_775_808 || !is_set_number(row.present) {
        return Err(Fault::Device);
    }
    replace(conn, Table::Clock, &[number(0)], &clock_params(row))?;
    Ok(())
}

/// Writes a set of windows, and leaves the clock's row.
pub(crate) fn put_set_alone<S: Alter>(conn: &mut Connection<S>, set: WindowSet) -> Result<(), Fault>
    ensures { AppliesInTransaction (state S.Store conn.old)
        (state S.Store conn.new)
        (is_ok result) (with_set_alone set.number (windows_of set.windows)) }
{
    if !is_set_number(set.number) {
        return Err(Fault::Device);
    }
    let key = number(u64::from(set.number));
    replace(conn, Table::WindowSet, &[key], &set_params(&set))?;
    Ok(())
}

/// Writes a set of windows, and the clock's row with its number, which makes it the present set.
pub(crate) fn put_set<S: Alter>(
    conn: &mut Connection<S>,
    row: &StoredClock,
    windows: &Windows,
) -> Result<(), Fault>
    ensures applies { AppliesInTransaction (state S.Store conn.old)
        (state S.Store conn.new)
        (is_ok result) (with_set (clock_of row.now) (windows_of windows.now)) }
    ensures others { WritesInTransaction (state S.Store conn.old)
        (state S.Store conn.new) (is_ok result) IsSetPut }
{
    if row.next_id >= 9_223_372_036_854_775_808 || !is_set_number(row.present) {
        return Err(Fault::Device);
    }
    let set = WindowSet {
        number: row.present,
        windows: *windows,
    };
    let key = number(u64::from(row.present));
    replace(conn, Table::WindowSet, &[key], &set_params(&set))?;
    replace(conn, Table::Clock, &[number(0)], &clock_params(row))?;
    Ok(())
}

fn put_routing<S: Alter>(conn: &mut Connection<S>, id: u64, routing: Routing) -> Result<(), Fault>
    requires { id < 9223372036854775808 }
    ensures { WritesInTransaction (state S.Store conn.old)
        (state S.Store conn.new) (is_ok result) (IsNextPut id (Some (routing_of routing))) }
{
    let params = next_params(id, routing);
    replace(conn, Table::NextRouting, &[number(id)], &params)?;
    Ok(())
}

fn delete_routing<S: Alter>(conn: &mut Connection<S>, id: u64) -> Result<(), Fault>
    requires { id < 9223372036854775808 }
    ensures { WritesInTransaction (state S.Store conn.old)
        (state S.Store conn.new) (is_ok result) (IsNextPut id None) }
{
    take(conn, Table::NextRouting, &[number(id)])?;
    Ok(())
}

// Writes the routing that the version sends, or deletes the routing stored for it.
fn put_next<S: Alter>(conn: &mut Connection<S>, id: u64, status: Status) -> Result<(), Fault>
    requires { id < 9223372036854775808 }
    ensures { WritesInTransaction (state S.Store conn.old)
        (state S.Store conn.new) (is_ok result) (IsNextPut id (next_of (status_of status))) }
{
    match status {
        Status::SendingModify { cic, lrn } => put_routing(conn, id, Routing { lrn, cic }),
        _ => delete_routing(conn, id),
    }
}

/// Writes a version's row, and the routing that it sends.
pub(crate) fn put_version<S: Alter>(
    conn: &mut Connection<S>,
    id: u64,
    row: &VersionRow,
) -> Result<(), Fault>
    ensures { AppliesInTransaction (state S.Store conn.old)
        (state S.Store conn.new) (is_ok result) (with_version id row.now) }
{
    if !fits(id, row) {
        return Err(Fault::Device);
    }
    let old = spid_bytes(row.version.old_provider.number);
    let new = spid_bytes(row.version.new_provider.number);
    let params = version_params(id, row, &old, &new);
    replace(conn, Table::Version, &[number(id)], &params)?;
    put_next(conn, id, row.version.status)?;
    Ok(())
}

/// Deletes a version's row. A routing stored for it stays, and belongs to no version.
pub(crate) fn delete_version<S: Alter>(conn: &mut Connection<S>, id: u64) -> Result<(), Fault>
    ensures { AppliesInTransaction (state S.Store conn.old)
        (state S.Store conn.new) (is_ok result) (without_version id) }
{
    if id >= 9_223_372_036_854_775_808 {
        return Err(Fault::Device);
    }
    take(conn, Table::Version, &[number(id)])?;
    Ok(())
}

/// Writes a broadcast's row.
pub(crate) fn put_broadcast<S: Alter>(
    conn: &mut Connection<S>,
    key: BroadcastKey,
    broadcast: &Broadcast,
) -> Result<(), Fault>
    ensures { AppliesInTransaction (state S.Store conn.old)
        (state S.Store conn.new)
        (is_ok result) (with_broadcast (broadcast_key_of key) (broadcast_row_of broadcast.now)) }
{
    if key.id >= 9_223_372_036_854_775_808 || key.attempt >= 9_223_372_036_854_775_808 {
        return Err(Fault::Device);
    }
    let columns = broadcast_key(key);
    let params = broadcast_params(key, broadcast);
    replace(conn, Table::Broadcast, &columns, &params)?;
    Ok(())
}

/// Deletes a broadcast's row.
pub(crate) fn delete_broadcast<S: Alter>(
    conn: &mut Connection<S>,
    key: BroadcastKey,
) -> Result<(), Fault>
    ensures { AppliesInTransaction (state S.Store conn.old)
        (state S.Store conn.new) (is_ok result) (without_broadcast (broadcast_key_of key)) }
{
    if key.id >= 9_223_372_036_854_775_808 || key.attempt >= 9_223_372_036_854_775_808 {
        return Err(Fault::Device);
    }
    take(conn, Table::Broadcast, &broadcast_key(key))?;
    Ok(())
}

/// Writes a pending download.
pub(crate) fn put_wait<S: Alter>(
    conn: &mut Connection<S>,
    key: WaitKey,
    of: Subject,
) -> Result<(), Fault>
    ensures { AppliesInTransaction (state S.Store conn.old)
        (state S.Store conn.new)
        (is_ok result) (with_wait (wait_key_of key) (subject_of of)) }
{
    if key.id >= 9_223_372_036_854_775_808 || key.attempt >= 9_223_372_036_854_775_808 {
        return Err(Fault::Device);
    }
    let bytes = spid_bytes(key.carrier.number);
    let columns = wait_key(key, &bytes);
    let params = wait_params(key, of, &bytes);
    replace(conn, Table::Wait, &columns, &params)?;
    Ok(())
}

/// Deletes a pending download.
pub(crate) fn delete_wait<S: Alter>(conn: &mut Connection<S>, key: WaitKey) -> Result<(), Fault>
    ensures { AppliesInTransaction (state S.Store conn.old)
        (state S.Store conn.new) (is_ok result) (without_wait (wait_key_of key)) }
{
    if key.id >= 9_223_372_036_854_775_808 || key.attempt >= 9_223_372_036_854_775_808 {
        return Err(Fault::Device);
    }
    let bytes = spid_bytes(key.carrier.number);
    take(conn, Table::Wait, &wait_key(key, &bytes))?;
    Ok(())
}
