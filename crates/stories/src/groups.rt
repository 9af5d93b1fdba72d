//! Plays a story over a database in groups of commits.
use crate::fault::Fault;
use crate::played_story::PlayedStory;
use crate::store_faults::play_until_failure;
use register::Register;
use settle::Store;
use sql_store::SqlStore;
use std::alloc::Global;
use std::ops::Range;
use store::{Failing, Flaky};
use windows::Windows;

// How many messages a group has.
const SIZES: [usize; 4] = [1, 2, 7, 64];

// How many messages a group has in which a call fails.
const FAILING_SIZE: usize = 7;

// Sends messages in one group, up to one during which a call fails. Returns which one is to be sent
// next: if the group does not last, its first. Returns `None` if a message is answered differently
// than in the story, or if the store has no groups.
fn play_group<S: Store>(
    alloc: Global,
    register: &mut Register<S>,
    played: &PlayedStory,
    places: Range<usize>,
) -> Option<usize> {
    let first = places.start;
    let begun = register.begin_group();
    let next = play_until_failure(alloc, register, played, places)?;
    match (begun, register.end_group()) {
        (Ok(false), _) => None,
        (Ok(true), Err(_fault)) => Some(first),
        _ => Some(next),
    }
}

// Plays the story in groups of at most `size` messages. Returns whether each message, as it is sent
// last, is answered as in the story. At most one call fails.
fn play_groups<S: Store>(
    alloc: Global,
    register: &mut Register<S>,
    played: &PlayedStory,
    size: usize,
) -> bool {
    let mut first = 0usize;
    for _ in 0..=played.len() {
        let end = first.saturating_add(size).min(played.len());
        match play_group(alloc, register, played, first..end) {
            Some(next) => first = next,
            None => return false,
        }
    }
    first == played.len()
}

// Plays the story over a store, which may fail once. Returns whether each message is answered as in
// the story, unless the register could not be opened, and the store afterwards.
fn play_over<S: Store>(
    alloc: Global,
    windows: &Windows,
    store: S,
    played: &PlayedStory,
    size: usize,
) -> (bool, S) {
    match Register::open(alloc, store, windows) {
        Ok(mut register) => {
            let is_same = play_groups(alloc, &mut register, played, size);
            (is_same, register.close())
        }
        Err((store, _fault)) => (store.failures() == 1, store),
    }
}

/// Returns the size of groups in which a database answers the story differently, or fails, if one
/// does.
pub fn first_wrong_size(
    alloc: Global,
    windows: &Windows,
    played: &PlayedStory,
) -> Result<Option<usize>, Fault> {
    for size in SIZES {
        let store = SqlStore::in_memory(alloc)?;
        let (is_same, store) = play_over(alloc, windows, store, played, size);
        let failures = store.failures();
        let _database = store.release().into_store();
        if !is_same || failures > 0 {
            return Ok(Some(size));
        }
    }
    Ok(None)
}

/// Plays the story with one failing call in each run: the first call of the database, and then each
/// call `stride` calls later. Returns the number of calls before the first one after which the story
/// is answered differently, if there is one.
pub fn first_wrong_failure(
    alloc: Global,
    windows: &Windows,
    played: &PlayedStory,
    stride: u64,
) -> Result<Option<u64>, Fault> {
    for run in 0..u64::MAX {
        let before = run.saturating_mul(stride);
        let store = Flaky::new(SqlStore::in_memory(alloc)?, before, Failing::Once);
        let (is_same, store) = play_over(alloc, windows, store, played, FAILING_SIZE);
        let failures = store.failures();
        let _database = store.into_store().release().into_store();
        if !is_same {
            return Ok(Some(before));
        }
        if failures == 0 {
            break;
        }
    }
    Ok(None)
}
