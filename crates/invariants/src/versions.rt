//! Judges the rows of versions.
ghost use Rattle.std.specs.Prelude.{◌≡◌, ◌+◌, None, Some, IfOk};
ghost use Rattle.std.specs.FinMap.{get};
ghost use Rattle.model.specs.Content.{ClockRow as ClockModel};
ghost use Rattle.numbers.specs.Subjects.{Block};
ghost use Rattle.settle.specs.Abstraction.{block_of, clock_row_of};
ghost use Rattle.settle.specs.Reads.{Reflects};
ghost use Rattle.invariants.specs.Flaws.{Judges};
ghost use Rattle.invariants.specs.Seen.{AreAllSeen};
ghost use Rattle.invariants.specs.Sound.{AreGivenSound, AreVersionsSound, HasRow, HasSending, IsGiven, IsUnderBlock, IsUpToLast, IsVersionSound};

use crate::columns::{column_flaw, is_sent};
use crate::flaw::Flaw;
use crate::seen::Seen;
use numbers::{BlockId, Minute, Subject};
use settle::{BroadcastKey, ClockRow, Store, StoreFault, VersionRow};
use std::alloc::Global;
use version::FIRST_ID;

// Returns whether the version, if it is sending, has its open broadcast.
fn has_sending<S: Store>(store: &mut S, id: u64, row: &VersionRow) -> Result<bool, StoreFault>
    ensures value { S.IsUsable store.new
        → IfOk result (λ yes. Reflects yes (HasSending (S.content store.old) id row.now)) }
    ensures same { S.IsUsable store.new
        → S.IsUsable store.old × (S.content store.new ≡ S.content store.old) }
{
    let Some(send) = row.version.status.sends() else {
        return Ok(true);
    };
    let attempt = row.version.attempt;
    let broadcast = store.broadcast(BroadcastKey { id, attempt })?;
    Ok(is_sent(row, send, broadcast))
}

// Returns whether the version is of the block.
fn is_of_block(row: &VersionRow, block: BlockId) -> bool
    ensures { Reflects result (row.now.subject ≡ Block (block_of block)) }
{
    match row.version.subject {
        Subject::Block(own) => own.number == block.number,
        Subject::Number(_) => false,
    }
}

// Returns whether the row of a block names a version of the block, with this id or a later one.
fn is_up_to_last<S: Store>(store: &mut S, id: u64, block: BlockId) -> Result<bool, StoreFault>
    ensures value { S.IsUsable store.new
        → IfOk result (λ yes. Reflects yes (IsUpToLast (S.content store.old) id (block_of block))) }
    ensures same { S.IsUsable store.new
        → S.IsUsable store.old × (S.content store.new ≡ S.content store.old) }
{
    let Some(donated) = store.block(block)? else {
        return Ok(false);
    };
    let Some(last) = donated.last else {
        return Ok(false);
    };
    let Some(row) = store.version(last)? else {
        return Ok(false);
    };
    Ok(id <= last && is_of_block(&row, block))
}

// Returns whether the version, if it is a block's, is under the row of that block.
fn is_under_block<S: Store>(store: &mut S, id: u64, row: &VersionRow) -> Result<bool, StoreFault>
    ensures value { S.IsUsable store.new
        → IfOk result (λ yes. Reflects yes (IsUnderBlock (S.content store.old) id row.now)) }
    ensures same { S.IsUsable store.new
        → S.IsUsable store.old × (S.content store.new ≡ S.content store.old) }
{
    match row.version.subject {
        Subject::Block(block) => is_up_to_last(store, id, block),
        Subject::Number(_) => Ok(true),
    }
}

// Returns the first flaw of a version with this row, if it has one.
fn version_flaw<S: Store>(
    store: &mut S,
    now: Minute,
    id: u64,
    row: &VersionRow,
) -> Result<Option<Flaw>, StoreFault>
    ensures value { S.IsUsable store.new → (clock : ClockModel) → clock.minute ≡ now.number
        → get (S.content store.old).versions id ≡ Some row.now
        → IfOk result (Judges (S.content store.old) clock
        (IsVersionSound (S.content store.old) clock id row.now)) }
    ensures same { S.IsUsable store.new
        → S.IsUsable store.old × (S.content store.new ≡ S.content store.old) }
{
    let Some(windows) = store.window_set(row.version.held)? else {
        return Ok(Some(Flaw::Set(id)));
    };
    if let Some(flaw) = column_flaw(now, id, row, &windows) {
        return Ok(Some(flaw));
    }
    if !has_sending(store, id, row)? {
        return Ok(Some(Flaw::Sending(id)));
    }
    if !is_under_block(store, id, row)? {
        return Ok(Some(Flaw::Block(id)));
    }
    Ok(None)
}

// Reads the version with the next id. Returns its first flaw, if it has one.
fn next_flaw<S: Store>(
    store: &mut S,
    seen: &mut Seen,
    now: Minute,
    id: u64,
) -> Result<Option<Flaw>, StoreFault>
    ensures value { S.IsUsable store.new → (clock : ClockModel) → clock.minute ≡ now.number
        → IsGiven clock id → AreAllSeen (S.content store.old) id seen.old
        → IfOk result (Judges (S.content store.old) clock
        (HasRow (S.content store.old) id (IsVersionSound (S.content store.old) clock id)
        × AreAllSeen (S.content store.old) (id + 1) seen.new)) }
    ensures same { S.IsUsable store.new
        → S.IsUsable store.old × (S.content store.new ≡ S.content store.old) }
{
    let Some(row) = store.version(id)? else {
        return Ok(Some(Flaw::Gap(id)));
    };
    if let Some(flaw) = version_flaw(store, now, id, &row)? {
        return Ok(Some(flaw));
    }
    Ok(seen.add(id, &row)?)
}

// Returns the first flaw of the versions whose ids were given, if they have one.
fn given_flaw<S: Store>(
    alloc: Global,
    store: &mut S,
    clock: &ClockRow,
) -> Result<Option<Flaw>, StoreFault>
    ensures value { S.IsUsable store.new → get (S.content store.old).versions 0 ≡ None
        → IfOk result (Judges (S.content store.old) (clock_row_of clock.now)
        (AreGivenSound (S.content store.old) (clock_row_of clock.now))) }
    ensures same { S.IsUsable store.new
        → S.IsUsable store.old × (S.content store.new ≡ S.content store.old) }
{
    let mut seen = Seen::new(alloc);
    for id in FIRST_ID..clock.next_id {
        if let Some(flaw) = next_flaw(store, &mut seen, clock.minute, id)? {
            return Ok(Some(flaw));
        }
    }
    Ok(None)
}

// Returns whether no version has this id.
fn is_free<S: Store>(store: &mut S, id: u64) -> Result<bool, StoreFault>
    ensures value { S.IsUsable store.new → IfOk result
        (λ yes. Reflects yes (get (S.content store.old).versions id ≡ None)) }
    ensures same { S.IsUsable store.new
        → S.IsUsable store.old × (S.content store.new ≡ S.content store.old) }
{
    Ok(store.version(id)?.is_none())
}

/// Returns the first flaw of the versions, if they have one.
///
/// # Errors
///
/// The store's, or `NoMemory` if an allocation fails.
pub(crate) fn find_in_versions<S: Store>(
    alloc: Global,
    store: &mut S,
    clock: &ClockRow,
) -> Result<Option<Flaw>, StoreFault>
    ensures value { S.IsUsable store.new
        → IfOk result (Judges (S.content store.old) (clock_row_of clock.now)
        (AreVersionsSound (S.content store.old) (clock_row_of clock.now))) }
    ensures same { S.IsUsable store.new
        → S.IsUsable store.old × (S.content store.new ≡ S.content store.old) }
{
    if !is_free(store, 0)? {
        return Ok(Some(Flaw::Stranger(0)));
    }
    if !is_free(store, clock.next_id)? {
        return Ok(Some(Flaw::Stranger(clock.next_id)));
    }
    given_flaw(alloc, store, clock)
}
