//! Decides commands on blocks.
ghost use Rattle.settle.specs.StoreContract.{IsAnswer, IsAvailable, IsReadOnly, ReportsStorage};
ghost use Rattle.std.specs.Prelude.{◌≡◌, ◌+◌, ◌≤◌, ℕ, Err, Some, IfOk, OnOk, map, length, vec_len};
ghost use Rattle.std.specs.FinMap.{keys};
ghost use Rattle.model.specs.Statuses.{Create};
ghost use Rattle.model.specs.Commands.{Release};
ghost use Rattle.model.specs.Conditions.{limit};
ghost use Rattle.model.specs.History.{CommandRequest};
ghost use Rattle.model.specs.Refusals.{RequestFrom};
ghost use Rattle.version.specs.declared.version.Version.{Version as VersionImpl};
ghost use Rattle.version.specs.Abstraction.{windows_of};
ghost use Rattle.pool.specs.Assignments.{command_of as assignment_of};
ghost use Rattle.pool.specs.Donations.{command_of as donation_of};
ghost use Rattle.settle.specs.Changes.{changes_of, clock_move_of, no_changes};
ghost use Rattle.settle.specs.Sending.{begun_of, sends_changes};
ghost use Rattle.settle.specs.Abstraction.{block_of, block_row_of, clock_row_of};
ghost use Rattle.register.specs.Deciding.{Decides};
ghost use Rattle.register.specs.Pooling.{block_changes};

use crate::blocks::find_block;
use crate::looking::is_lrn_of;
use crate::query::is_known;
use model::{Refusal, Send};
use numbers::{BlockId, Spid};
use pool::{Assignment, Donation};
use requests::{Reply, VersionView};
use settle::{
    BlockRow, Changes, ClockMove, ClockRow, Store, StoreFault, begin_sending_each, stage_transition,
};
use std::alloc::{AllocError, Global};
use version::Version;

// Returns the move of the clock's row past the ids of these versions.
fn past_ids(clock: &ClockRow, made: &[(u64, Version)]) -> ClockMove
    ensures { clock.now.next_id + length made.now ≤ limit
        → clock_move_of result
        ≡ record {
          minute = clock.now.minute.number;
          next_id = clock.now.next_id + length made.now;
        } }
{
    ClockMove {
        minute: clock.minute,
        next_id: clock.next_id.saturating_add(made.len() as u64),
    }
}

// Stages the rows of versions that begin to send as they are made, the block's row, and the clock's
// row past their ids.
fn stage_made<S: Store>(
    alloc: Global,
    store: &mut S,
    changes: &mut Changes,
    made: &[(u64, Version)],
    block: (BlockId, BlockRow),
    clock: &ClockRow,
) -> Result<(), StoreFault>
    requires { changes_of changes.old ≡ no_changes }
    ensures value { S.IsUsable store.new → clock.now.next_id + length made.now ≤ limit
        → OnOk result (changes_of changes.new ≡ block_changes
        (sends_changes clock.now.minute.number Create
        (map (begun_of (windows_of clock.now.present.windows)) made.now)
        (keys (S.content store.old).carriers))
        (Some (block_of block.0, block_row_of block.1))
        (record {
          minute = clock.now.minute.number;
          next_id = clock.now.next_id + length made.now;
        })) }
    ensures read_only { IsReadOnly S.StoreModel
        store.old store.new (IsAnswer result) (result ≡ Err StoreFault.Storage) }
{
    let all_carriers = store.carriers()?;
    let windows = &clock.present.windows;
    begin_sending_each(
        alloc,
        changes,
        made,
        Send::Create,
        clock.minute,
        windows,
        &all_carriers,
    )?;
    changes.block = Some(block);
    changes.clock = Some(past_ids(clock, made));
    Ok(())
}

// Returns the ids of the versions.
fn ids_of(alloc: Global, made: &[(u64, Version)]) -> Result<Vec<u64>, AllocError>
    ensures { IfOk result (λ ids. ids.items ≡ map (λ (e : ℕ × VersionImpl). e.0) made.now) }
{
    made.iter().map(|entry| entry.0).collect(alloc)
}

/// Decides a donation: a carrier gives a block to the pool. The reply has the ids of the versions
/// that protect the used numbers, ordered by number. Stages the changes, and commits nothing.
#[tactic(auto, using(crate::proofs::EveryCall::Deciding::decides_fault))]
#[inline(never)]
pub fn donate<S: Store>(
    alloc: Global,
    store: &mut S,
    changes: &mut Changes,
    caller: Spid,
    donation: &Donation<'_>,
) -> Result<Reply, Refusal>
    requires { changes_of changes.old ≡ no_changes }
    ensures decides { S.IsUsable store.new → Decides (S.content store.old)
        (RequestFrom caller.number (CommandRequest (donation_of donation.now)))
        (changes_of changes.new) result }
    ensures read_only { IsReadOnly S.StoreModel store.old store.new (IsAvailable result)
        (ReportsStorage (S.IsUsable store.new) (S.content store.old)
        (result ≡ Err Refusal.Storage)) }
    ensures open { OnOk result (S.HasHonestDevice store.new → S.IsUsable store.new) }
{
    let is_known = store.carrier(caller)?;
    let found = find_block(store, is_known, donation.block)?;
    let is_lrn_good = is_lrn_of(store, donation.routing.lrn, caller)?;
    let clock = &found.clock;
    let facts = found.read.facts(is_lrn_good, clock.next_id);
    let plan = donation.plan(alloc, caller, &facts, clock.minute, &clock.present)?;
    let ids = ids_of(alloc, &plan.versions)?;
    let row = BlockRow {
        donor: caller,
        last: None,
    };
    stage_made(
        alloc,
        store,
        changes,
        &plan.versions,
        (donation.block, row),
        clock,
    )?;
    Ok(Reply::Donated {
        block: donation.block,
        ids,
    })
}

/// Decides an assignment: the administrator gives a donated block to a carrier. The reply shows the
/// block's version, which sends its create. Stages the changes, and commits nothing.
#[tactic(auto, using(crate::proofs::EveryCall::Deciding::decides_fault))]
#[inline(never)]
pub fn assign<S: Store>(
    alloc: Global,
    store: &mut S,
    changes: &mut Changes,
    caller: Spid,
    assignment: &Assignment,
) -> Result<Reply, Refusal>
    requires { changes_of changes.old ≡ no_changes }
    ensures decides { S.IsUsable store.new → Decides (S.content store.old)
        (RequestFrom caller.number (CommandRequest (assignment_of assignment.now)))
        (changes_of changes.new) result }
    ensures read_only { IsReadOnly S.StoreModel store.old store.new (IsAvailable result)
        (ReportsStorage (S.IsUsable store.new) (S.content store.old)
        (result ≡ Err Refusal.Storage)) }
    ensures open { OnOk result (S.HasHonestDevice store.new → S.IsUsable store.new) }
{
    let is_known = store.carrier(assignment.holder)?;
    let found = find_block(store, is_known, assignment.block)?;
    let is_lrn_good = is_lrn_of(store, assignment.routing.lrn, assignment.holder)?;
    let clock = &found.clock;
    let facts = found.read.facts(is_lrn_good, clock.next_id);
    let version = assignment.made(caller, &facts, clock.minute, &clock.present)?;
    let id = clock.next_id;
    let row = BlockRow {
        donor: version.old_provider,
        last: Some(id),
    };
    stage_made(
        alloc,
        store,
        changes,
        &[(id, version)],
        (assignment.block, row),
        clock,
    )?;
    Ok(Reply::Shown(VersionView::of(id, &version, clock.minute, &clock.present.windows)))
}

/// Decides a release: the holder of a block, or the administrator, gives it back to the pool. The
/// reply shows the block's version, which sends its delete. Stages the changes, and commits
/// nothing.
#[tactic(auto, using(crate::proofs::EveryCall::Deciding::decides_fault))]
#[inline(never)]
pub fn release<S: Store>(
    alloc: Global,
    store: &mut S,
    changes: &mut Changes,
    caller: Spid,
    block: BlockId,
) -> Result<Reply, Refusal>
    requires { changes_of changes.old ≡ no_changes }
    ensures decides { S.IsUsable store.new → Decides (S.content store.old)
        (RequestFrom caller.number (CommandRequest (Release block.number))) (changes_of changes.new)
        result }
    ensures read_only { IsReadOnly S.StoreModel store.old store.new (IsAvailable result)
        (ReportsStorage (S.IsUsable store.new) (S.content store.old)
        (result ≡ Err Refusal.Storage)) }
    ensures open { OnOk result (S.HasHonestDevice store.new → S.IsUsable store.new) }
{
    let is_known = is_known(store, caller)?;
    let found = find_block(store, is_known, block)?;
    let last = found.read.last;
    let clock = &found.clock;
    let facts = found.read.facts(true, clock.next_id);
    let transition = pool::release(caller, &facts, clock.minute, &clock.present)?;
    let Some((id, _)) = last else {
        unreachable!();
    };
    stage_transition(store, changes, id, &transition, clock)?;
    Ok(Reply::Shown(VersionView::of(
        id,
        &transition.version,
        clock.minute,
        &clock.present.windows,
    )))
}
