//! Writes the register's replies as responses.
ghost use Rattle.std.specs.Prelude.{◌≡◌, ℕ, ◌+◌, ◌*◌, ◌<◌, ◌≤◌, length, map, string_bytes, IfErr, OnOk, OnErr};
ghost use Rattle.requests.specs.Calls.{view_of, reply_of, in_force_of, download_of};
ghost use Rattle.json_api.specs.Failures.{failure_text};
ghost use Rattle.json_api.specs.ResponseBuffers.{HasCapacity, IsEmpty, IsWritten};
ghost use Rattle.json_api.specs.Texts.{registered_text, donated_text, ids_text, now_text, windows_set_text, view_text, downloads_text};
ghost use Rattle.api.specs.ReplyBounds.{HasCapacityFor};
ghost use Rattle.api.specs.Step.{Outgrows, success, reply_text};

use delivery::{Download, RoutedRow};
use json_api::{
    DOWNLOAD_CAPACITY, Failure, ID_CAPACITY, ROW_CAPACITY, ResponseBuffer, put_donated,
    put_downloads, put_failure, put_ids, put_now, put_opened_code, put_registered,
    put_routing_number, put_version, put_windows_set,
};
use model::Refusal;
use numbers::{BlockId, Minute, Spid};
use requests::{Ids, Reply, VersionView};

// The most rows, downloads or ids of a reply.
const MOST: usize = 1 << 40;

/// How many rows, downloads and ids the reply to a call may have.
#[derive(Clone, Copy, Debug)]
pub struct ReplyBounds {
    pub rows: usize,
    pub downloads: usize,
    pub ids: usize,
}

impl ReplyBounds {
    /// The bounds of a reply without rows, downloads and ids.
    pub const NONE: ReplyBounds = ReplyBounds {
        rows: 0,
        downloads: 0,
        ids: 0,
    };
}

/// Reserves memory for a body with the rows, downloads and ids of `bounds`.
pub fn reserve_body(response: &mut ResponseBuffer, bounds: ReplyBounds) -> Result<(), Refusal>
    requires empty { IsEmpty response.old }
    requires capacity { HasCapacity 512 response.old }
    ensures ok { OnOk result (HasCapacityFor bounds response.new) }
    ensures err { IfErr result (λ refusal. refusal ≡ Refusal.NoMemory) }
    ensures empty { IsEmpty response.new }
    ensures capacity { (n : ℕ) → HasCapacity n response.old → HasCapacity n response.new }
{
    // Most replies fit into the memory that each response has.
    if bounds.rows == 0 && bounds.downloads == 0 && bounds.ids == 0 {
        return Ok(());
    }
    if bounds.rows > MOST || bounds.downloads > MOST || bounds.ids > MOST {
        return Err(Refusal::NoMemory);
    }
    let listed = bounds.rows * ROW_CAPACITY + bounds.downloads * DOWNLOAD_CAPACITY;
    response.take(64 + listed + bounds.ids * ID_CAPACITY)?;
    Ok(())
}

// Writes the reply to a registration. Its rows were counted before, so there are never more than
// the reserved memory holds, and no message gets this `Storage`.
fn put_starting_rows(
    response: &mut ResponseBuffer,
    spid: Spid,
    rows: &[RoutedRow],
    bounds: ReplyBounds,
) -> Result<(), Failure>
    requires empty { IsEmpty response.old }
    requires capacity { HasCapacity 512 response.old }
    requires bounds { HasCapacityFor bounds response.old }
    ensures ok { OnOk result (IsWritten response.new) }
    ensures capacity { HasCapacity 512 response.new }
    ensures body { OnOk result
        (string_bytes response.new.body ≡ registered_text spid.number (map in_force_of rows.now)) }
    ensures more { OnErr result (bounds.rows < length rows.now) }
{
    if rows.len() > bounds.rows {
        return Err(Failure::Refused(Refusal::Storage));
    }
    put_registered(&mut response.body, spid, rows);
    Ok(())
}

// Writes the reply to a fetch. The register returns no more downloads than were asked for, so no
// message gets this `Storage`.
fn put_fetched(
    response: &mut ResponseBuffer,
    downloads: &[Download],
    bounds: ReplyBounds,
) -> Result<(), Failure>
    requires empty { IsEmpty response.old }
    requires capacity { HasCapacity 512 response.old }
    requires bounds { HasCapacityFor bounds response.old }
    ensures ok { OnOk result (IsWritten response.new) }
    ensures capacity { HasCapacity 512 response.new }
    ensures body { OnOk result
        (string_bytes response.new.body ≡ downloads_text (map download_of downloads.now)) }
    ensures more { OnErr result (bounds.downloads < length downloads.now) }
{
    if downloads.len() > bounds.downloads {
        return Err(Failure::Refused(Refusal::Storage));
    }
    put_downloads(&mut response.body, downloads);
    Ok(())
}

// Writes the reply to a donation. Memory was reserved for 100 ids, the most of a donation, so no
// message gets this `Storage`.
fn put_donation(
    response: &mut ResponseBuffer,
    block: BlockId,
    ids: &[u64],
    bounds: ReplyBounds,
) -> Result<(), Failure>
    requires empty { IsEmpty response.old }
    requires capacity { HasCapacity 512 response.old }
    requires bounds { HasCapacityFor bounds response.old }
    ensures ok { OnOk result (IsWritten response.new) }
    ensures capacity { HasCapacity 512 response.new }
    ensures body { OnOk result
        (string_bytes response.new.body ≡ donated_text block.number ids.now) }
    ensures more { OnErr result (bounds.ids < length ids.now) }
{
    if ids.len() > bounds.ids {
        return Err(Failure::Refused(Refusal::Storage));
    }
    put_donated(&mut response.body, block, ids);
    Ok(())
}

// Inlined: a reply is then not written to memory.
#[inline(always)]
fn put_shown(response: &mut ResponseBuffer, view: &VersionView)
    requires empty { IsEmpty response.old }
    requires capacity { HasCapacity 512 response.old }
    ensures written { IsWritten response.new }
    ensures capacity { HasCapacity 512 response.new }
    ensures body { string_bytes response.new.body ≡ view_text (view_of view.now) }
{
    put_version(&mut response.body, view);
}

fn put_found(response: &mut ResponseBuffer, ids: Ids)
    requires empty { IsEmpty response.old }
    requires capacity { HasCapacity 512 response.old }
    ensures written { IsWritten response.new }
    ensures capacity { HasCapacity 512 response.new }
    ensures body { string_bytes response.new.body ≡ ids_text ids.in_force ids.opened }
{
    put_ids(&mut response.body, ids);
}

fn put_moved(response: &mut ResponseBuffer, now: Minute)
    requires empty { IsEmpty response.old }
    requires capacity { HasCapacity 512 response.old }
    ensures written { IsWritten response.new }
    ensures capacity { HasCapacity 512 response.new }
    ensures body { string_bytes response.new.body ≡ now_text now.number }
{
    put_now(&mut response.body, now);
}

fn put_set(response: &mut ResponseBuffer, now: Minute, number: u16)
    requires empty { IsEmpty response.old }
    requires capacity { HasCapacity 512 response.old }
    ensures written { IsWritten response.new }
    ensures capacity { HasCapacity 512 response.new }
    ensures body { string_bytes response.new.body ≡ windows_set_text now.number number }
{
    put_windows_set(&mut response.body, now, number);
}

/// Writes a reply. Fails only if it has more rows, downloads or ids than `bounds`.
// Inlined: a reply is then not written to memory.
#[inline(always)]
pub fn put_reply(
    response: &mut ResponseBuffer,
    reply: &Reply,
    bounds: ReplyBounds,
) -> Result<(), Failure>
    requires empty { IsEmpty response.old }
    requires capacity { HasCapacity 512 response.old }
    requires bounds { HasCapacityFor bounds response.old }
    ensures ok { OnOk result (IsWritten response.new) }
    ensures capacity { HasCapacity 512 response.new }
    ensures text { OnOk result
        (success (string_bytes response.new.body) ≡ reply_text (reply_of reply.now)) }
    ensures more { OnErr result (Outgrows bounds (reply_of reply.now)) }
{
    match reply {
        Reply::Registered { spid, rows } => put_starting_rows(response, *spid, rows, bounds),
        Reply::Fetched(downloads) => put_fetched(response, downloads, bounds),
        Reply::Donated { block, ids } => put_donation(response, *block, ids, bounds),
        Reply::RoutingNumberRegistered { lrn, spid } => {
            put_routing_number(&mut response.body, *lrn, *spid);
            Ok(())
        }
        Reply::CodeOpened { code, spid } => {
            put_opened_code(&mut response.body, *code, *spid);
            Ok(())
        }
        Reply::Shown(view) => {
            put_shown(response, view);
            Ok(())
        }
        Reply::Found(ids) => {
            put_found(response, *ids);
            Ok(())
        }
        Reply::Moved(now) => {
            put_moved(response, *now);
            Ok(())
        }
        Reply::WindowsSet { now, number } => {
            put_set(response, *now, *number);
            Ok(())
        }
    }
}

/// Writes the response to a message that was not executed.
pub fn put_refused(response: &mut ResponseBuffer, failure: Failure)
    requires capacity { HasCapacity 512 response.old }
    ensures capacity { HasCapacity 512 response.new }
    ensures text { string_bytes response.new.text ≡ failure_text failure }
{
    response.clear();
    put_failure(&mut response.body, failure);
    response.finish(failure.status());
}

/// Writes the response to a message that was executed.
#[tactic(auto, unfolding(crate::specs::Step::success))]
pub fn put_success(response: &mut ResponseBuffer)
    requires written { IsWritten response.old }
    requires capacity { HasCapacity 512 response.old }
    ensures capacity { HasCapacity 512 response.new }
    ensures text { string_bytes response.new.text ≡ success (string_bytes response.old.body) }
{
    response.finish(200);
}
