//! Writes the rows of a register into an empty store.
ghost use Rattle.std.specs.Prelude.{◌≡◌, List, OnErr, OnOk};
ghost use Rattle.model.specs.Content.{empty_content};
ghost use Rattle.settle.specs.StoreContract.{HasGroup, IsAnswer, PreservesStore};
ghost use Rattle.repair.specs.Entries.{Entry};
ghost use Rattle.repair.specs.Contents.{HasExactly, IsContentOf, IsContentWith, IsPresent, entries_of};
ghost use Rattle.repair.specs.Order.{AreAscending};

use crate::order::are_ascending;
use crate::row::{RegisterRow, RegisterRows};
use settle::{Changes, ClockMove, Store, StoreFault};
use std::alloc::Global;
use windows::WindowSet;

// Writes the rows one after the other.
fn write_each<S: Store>(
    alloc: Global,
    rows: &[RegisterRow],
    store: &mut S,
) -> Result<(), StoreFault>
    requires { AreAscending (entries_of rows.now) }
    ensures written { S.IsUsable store.new → S.content store.old ≡ empty_content
        → OnOk result (HasExactly (entries_of rows.now) (S.content store.new)) }
    ensures preserves { PreservesStore S.StoreModel store.old store.new (IsAnswer result) ⊥ }
{
    let mut changes = Changes::none(alloc);
    for row in rows {
        row.stage(&mut changes)?;
        store.commit(&changes)?;
    }
    Ok(())
}

// Writes the clock's row, after the sets of windows.
fn write_clock<S: Store>(
    alloc: Global,
    moved: ClockMove,
    present: WindowSet,
    store: &mut S,
) -> Result<(), StoreFault>
    ensures written { (entries : List Entry) → S.IsUsable store.new
        → HasExactly entries (S.content store.old) → IsPresent entries present.number present
        → OnOk result (IsContentWith entries moved.minute.number moved.next_id present.number
        (S.content store.new)) }
    ensures preserves { PreservesStore S.StoreModel store.old store.new (IsAnswer result) ⊥ }
{
    let mut changes = Changes::none(alloc);
    changes.clock = Some(moved);
    changes.set = Some(present);
    store.commit(&changes)?;
    Ok(())
}

// Writes all rows.
fn write_all<S: Store>(alloc: Global, all: &RegisterRows, store: &mut S) -> Result<(), StoreFault>
    ensures written { S.IsUsable store.new → S.content store.old ≡ empty_content
        → OnOk result (IsContentOf all.now (S.content store.new)) }
    ensures preserves { PreservesStore S.StoreModel store.old store.new (IsAnswer result) ⊥ }
{
    let rows = all.rows.as_slice();
    if !are_ascending(rows) {
        return Err(StoreFault::Storage);
    }
    let Some(present) = all.present_set() else {
        return Err(StoreFault::Storage);
    };
    write_each(alloc, rows, store)?;
    let moved = ClockMove {
        minute: all.minute,
        next_id: all.next_id,
    };
    write_clock(alloc, moved, present, store)
}

/// Writes all rows into an empty store, in one group of commits.
///
/// # Errors
///
/// - `Storage` if the rows are not ascending by table and key, two rows have one key, no row is the
///   present set of windows, the store has no groups or has begun one, or the device fails.
/// - `NoMemory` if an allocation fails.
///
/// No row is written then.
pub fn write_rows<S: Store>(
    alloc: Global,
    rows: &RegisterRows,
    store: &mut S,
) -> Result<(), StoreFault>
    ensures written { S.IsUsable store.new → S.content store.old ≡ empty_content
        → OnOk result (IsContentOf rows.now (S.content store.new)) }
    // The rows outlast a crash.
    ensures lasts { OnOk result (¬ HasGroup S.StoreModel store.new) }
    ensures refused { OnErr result (S.IsUsable store.new
        → S.content store.new ≡ S.content store.old) }
    ensures usable { S.IsUsable store.new → S.IsUsable store.old }
    ensures honest { S.HasHonestDevice store.new → S.HasHonestDevice store.old }
    ensures stays { OnOk result (S.IsUsable store.old → S.HasHonestDevice store.new
        → S.IsUsable store.new) }
{
    if !store.begin_group()? {
        return Err(StoreFault::Storage);
    }
    if let Err(fault) = write_all(alloc, rows, store) {
        let _ = store.undo_group();
        return Err(fault);
    }
    store.end_group()?;
    Ok(())
}
