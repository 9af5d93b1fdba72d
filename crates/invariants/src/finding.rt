//! Finds the first flaw of all rows.
ghost use Rattle.std.specs.Prelude.{◌≡◌, IfOk};
ghost use Rattle.invariants.specs.Flaws.{JudgesRows};

use crate::downloads::find_in_downloads;
use crate::flaw::Flaw;
use crate::versions::find_in_versions;
use settle::{Store, StoreFault};
use std::alloc::Global;

/// Returns the first flaw of the rows, or `None` if they keep the invariants. Changes nothing.
///
/// Reads each version and each pending download once, with its windows, its broadcast and its
/// block. Keeps the subject of each version in force and of each open one.
///
/// Not judged: rows that no look-up lists, which are versions with ids beyond the next one and
/// downloads of no registered carrier.
///
/// # Errors
///
/// The store's. `Storage` also if there is no clock's row, `NoMemory` also if an allocation fails.
pub fn find_flaw<S: Store>(alloc: Global, store: &mut S) -> Result<Option<Flaw>, StoreFault>
    ensures value { S.IsUsable store.new → IfOk result (JudgesRows (S.content store.old)) }
    ensures same { S.IsUsable store.new
        → S.IsUsable store.old × (S.content store.new ≡ S.content store.old) }
{
    let Some(clock) = store.clock()? else {
        return Err(StoreFault::Storage);
    };
    if let Some(flaw) = find_in_versions(alloc, store, &clock)? {
        return Ok(Some(flaw));
    }
    find_in_downloads(store)
}
