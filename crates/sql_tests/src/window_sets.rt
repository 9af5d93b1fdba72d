//! Tests a commit of a set of windows to a store that has no clock's row yet.
use crate::files::{copy_files, run_in};
use crate::operations::{Operation, WINDOWS, WITHOUT_CHECKPOINTS};
use settle::{Changes, Store};
use std::alloc::Global;
use store::MemoryStore;
use windows::{WindowSet, Windows};

/// Commits a set of windows by itself. Returns whether the set is read again, without a clock's row
/// and without a counted failure.
pub fn is_set_committed<S: Store>(alloc: Global, store: &mut S, windows: &Windows) -> Option<bool> {
    let windows = *windows;
    let changes = Changes {
        set: Some(WindowSet { number: 7, windows }),
        ..Changes::none(alloc)
    };
    store.commit(&changes).ok()?;
    let is_read = store.window_set(7).ok()? == Some(windows) && store.clock().ok()?.is_none();
    Some(is_read && store.failures() == 0)
}

// Commits the set to a store in memory, and to one in a new database.
fn are_committed(alloc: Global) -> Option<[bool; 2]> {
    let windows = Windows::from_toml(alloc, WINDOWS).ok()?;
    let in_memory = is_set_committed(alloc, &mut MemoryStore::new(alloc), &windows)?;
    let empty = copy_files(alloc, &[], &[])?;
    let run = run_in(alloc, &empty, WITHOUT_CHECKPOINTS, Operation::WindowSet)?;
    Some([in_memory, run.output.is_accepted])
}

#[test]
fn a_set_without_a_clock_is_committed(rt: HostRuntime) {
    assert_eq!(rt; are_committed(rt.alloc()), Some([true; 2]));
}
