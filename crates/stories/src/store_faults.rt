//! Plays a story to a store that fails.
use crate::fault::Fault;
use crate::played_story::PlayedStory;
use crate::story::new_register;
use register::{OpenFault, Register};
use settle::Store;
use sql_store::SqlStore;
use std::alloc::Global;
use std::ops::Range;
use store::{Failing, Flaky, MemoryStore};
use windows::Windows;

/// The response to a message during which a call of the store failed.
const STORAGE: &[u8] =
    b"HTTP/1.1 503 Service Unavailable\r\ncontent-type: application/json\r\ncontent-length: 31\r\n\r\n{\"error\":\"storage\",\"number\":29}";

/// The store under a register.
#[derive(Clone, Copy, Debug, PartialEq, Eq)]
pub enum StoreKind {
    Memory,
    Database,
}

/// The result of a story whose store failed.
#[derive(Clone, Copy, Debug, PartialEq, Eq)]
pub enum SweepResult {
    /// Each message was answered as it should be, whichever of this many calls failed.
    Consistent(u64),
    /// A message was answered differently, with the call after this many failing.
    Mismatch(u64),
}

// Which call fails, and the first message during which it may.
#[derive(Clone, Copy)]
struct FaultPlan {
    failing: Failing,
    before: u64,
    first: usize,
}

// The result of a run with a call that was to fail.
#[derive(Clone, Copy, Debug, PartialEq, Eq)]
enum RunOutcome {
    // No call failed.
    NoFailure,
    // A call failed during this message, and every message was answered as it should be.
    Failure(usize),
    Mismatch,
}

/// A story, and whether each of its messages calls the store.
#[derive(Drop)]
pub struct StoreCalls<'a> {
    pub played: &'a PlayedStory,
    calls_store: Vec<bool>,
}

// Returns the present windows of a store, or those for a new one.
fn present_in<S: Store>(store: &mut S, windows: &Windows) -> Windows {
    match store.clock() {
        Ok(Some(row)) => row.present.windows,
        _ => *windows,
    }
}

// Returns whether a register over a store answers these messages as the story does, and the store
// afterwards.
fn continue_over<S: Store>(
    alloc: Global,
    windows: &Windows,
    played: &PlayedStory,
    store: S,
    places: Range<usize>,
) -> (bool, S) {
    let mut store = store;
    let present = present_in(&mut store, windows);
    match Register::open(alloc, store, &present) {
        Ok(mut register) => {
            let is_same = played.has_same_responses(alloc, &mut register, places.start, places.end);
            (is_same, register.close())
        }
        Err((store, _fault)) => (false, store),
    }
}

/// Plays messages up to one that is answered with `storage`. Returns its place, or that after the
/// last. Returns `None` if an earlier one is answered differently than in the story.
pub fn play_until_failure<S: Store>(
    alloc: Global,
    register: &mut Register<S>,
    played: &PlayedStory,
    places: Range<usize>,
) -> Option<usize> {
    let end = places.end;
    for place in places {
        let responses = played.serve_between(alloc, register, place, place.saturating_add(1));
        if responses.as_slice() == STORAGE {
            return Some(place);
        }
        if responses.as_slice() != played.response(place) {
            return None;
        }
    }
    Some(end)
}

impl StoreCalls<'_> {
    // Returns the response to a message with a store whose calls all fail.
    fn response_of_dead_store(&self, place: usize) -> &[u8] {
        match self.calls_store.get(place) {
            Some(true) => STORAGE,
            _ => self.played.response(place),
        }
    }

    // Returns whether the messages from this one on get that response.
    fn is_unavailable_from<S: Store>(
        &self,
        alloc: Global,
        register: &mut Register<S>,
        from: usize,
    ) -> bool {
        let responses = self
            .played
            .serve_between(alloc, register, from, self.played.len());
        let mut rest = responses.as_slice();
        for place in from..self.played.len() {
            match rest.strip_prefix(self.response_of_dead_store(place)) {
                Some(after) => rest = after,
                None => return false,
            }
        }
        rest.is_empty()
    }

    // Plays the story with this register, and returns the message during which the call failed.
    // After a single failure, sends that message again and plays to the end. If all later calls
    // fail, checks that the other responses say so.
    fn play<S: Store>(
        &self,
        alloc: Global,
        register: &mut Register<S>,
        plan: FaultPlan,
    ) -> Option<usize> {
        if !self
            .played
            .has_same_responses(alloc, register, 0, plan.first)
        {
            return None;
        }
        let rest = plan.first..self.played.len();
        let failed_at = play_until_failure(alloc, register, self.played, rest)?;
        let is_expected = match plan.failing {
            Failing::Once => {
                self.played
                    .has_same_responses(alloc, register, failed_at, self.played.len())
            }
            Failing::Always => self.is_unavailable_from(alloc, register, failed_at),
        };
        if is_expected { Some(failed_at) } else { None }
    }

    // Returns the result of a run whose call failed during this message, if it did, and the store
    // below.
    fn outcome_of<S: Store>(
        &self,
        alloc: Global,
        windows: &Windows,
        store: Flaky<S>,
        failed_at: Option<usize>,
        failing: Failing,
    ) -> (RunOutcome, S) {
        let failures = store.failures();
        let store = store.into_store();
        match failed_at {
            None => (RunOutcome::Mismatch, store),
            Some(place) if place == self.played.len() => {
                let outcome = if failures == 0 {
                    RunOutcome::NoFailure
                } else {
                    RunOutcome::Mismatch
                };
                (outcome, store)
            }
            Some(place) if failing == Failing::Once => (
                outcome_of_single_failure(place, failures),
                store,
            ),
            Some(place) => self.recover(alloc, windows, store, place),
        }
    }

    // Mends the store: sends the message during which the call failed again, and all later ones.
    fn recover<S: Store>(
        &self,
        alloc: Global,
        windows: &Windows,
        store: S,
        place: usize,
    ) -> (RunOutcome, S) {
        let places = place..self.played.len();
        let (is_same, store) = continue_over(alloc, windows, self.played, store, places);
        if is_same {
            (RunOutcome::Failure(place), store)
        } else {
            (RunOutcome::Mismatch, store)
        }
    }

    // Plays the story over an empty store, and returns the store.
    fn play_over<S: Store>(
        &self,
        alloc: Global,
        windows: &Windows,
        store: S,
        plan: FaultPlan,
    ) -> (RunOutcome, S) {
        let store = Flaky::new(store, plan.before, plan.failing);
        match Register::open(alloc, store, windows) {
            Ok(mut register) => {
                let failed_at = self.play(alloc, &mut register, plan);
                self.outcome_of(alloc, windows, register.close(), failed_at, plan.failing)
            }
            Err((store, OpenFault::Storage)) => self.recover(alloc, windows, store.into_store(), 0),
            Err((store, _fault)) => (RunOutcome::Mismatch, store.into_store()),
        }
    }

    fn play_once(
        &self,
        alloc: Global,
        windows: &Windows,
        kind: StoreKind,
        plan: FaultPlan,
    ) -> Result<RunOutcome, Fault> {
        match kind {
            StoreKind::Memory => {
                let (outcome, _store) = self.play_over(
                    alloc,
                    windows,
                    MemoryStore::new(alloc),
                    plan,
                );
                Ok(outcome)
            }
            StoreKind::Database => {
                let store = SqlStore::in_memory(alloc)?;
                let (outcome, store) = self.play_over(alloc, windows, store, plan);
                let _database = store.release().into_store();
                Ok(outcome)
            }
        }
    }

    /// Plays the story with a failing call in each run: the first call, and then each call `stride`
    /// calls later, until a run has no failure. For each call one run fails once, and another fails
    /// from then on until the store is mended. Returns how many calls failed.
    pub fn sweep(
        &self,
        alloc: Global,
        windows: &Windows,
        kind: StoreKind,
        stride: u64,
    ) -> Result<SweepResult, Fault> {
        let mut first = 0;
        for run_count in 0..u64::MAX {
            let before = run_count.saturating_mul(stride);
            for failing in [Failing::Once, Failing::Always] {
                let plan = FaultPlan {
                    failing,
                    before,
                    first,
                };
                match self.play_once(alloc, windows, kind, plan)? {
                    RunOutcome::NoFailure => return Ok(SweepResult::Consistent(run_count)),
                    RunOutcome::Failure(place) => first = place,
                    RunOutcome::Mismatch => return Ok(SweepResult::Mismatch(before)),
                }
            }
        }
        Ok(SweepResult::Consistent(u64::MAX))
    }
}

// Returns the result of a run that was to fail once.
fn outcome_of_single_failure(place: usize, failures: u64) -> RunOutcome {
    if failures == 1 {
        RunOutcome::Failure(place)
    } else {
        RunOutcome::Mismatch
    }
}

// Returns whether a message calls the store, all of whose calls fail, if its response agrees; and
// the store afterwards.
fn send_to_dead_store(
    alloc: Global,
    windows: &Windows,
    played: &PlayedStory,
    store: MemoryStore,
    place: usize,
) -> (Option<bool>, MemoryStore) {
    let mut store = store;
    let present = present_in(&mut store, windows);
    // The first call reads the clock, as the register is opened.
    match Register::open(alloc, Flaky::new(store, 1, Failing::Always), &present) {
        Ok(mut register) => {
            let responses = played.serve_between(
                alloc,
                &mut register,
                place,
                place.saturating_add(1),
            );
            let store = register.close();
            let has_called = store.failures() > 0;
            let expected = if has_called {
                STORAGE
            } else {
                played.response(place)
            };
            let is_expected = responses.as_slice() == expected;
            (is_expected.then_some(has_called), store.into_store())
        }
        Err((store, _fault)) => (None, store.into_store()),
    }
}

/// Plays the story with each message sent twice: to a store whose calls all fail, and to the same
/// store once it is mended. Returns `None` if a message is answered differently than it should be.
pub fn find_store_calls<'a>(
    alloc: Global,
    windows: &Windows,
    played: &'a PlayedStory,
) -> Result<Option<StoreCalls<'a>>, Fault> {
    let mut calls_store = Vec::new(alloc);
    let mut store = new_register(alloc, windows)?.close();
    for place in 0..played.len() {
        let (calls, dead) = send_to_dead_store(alloc, windows, played, store, place);
        let next = place.saturating_add(1);
        let (is_same, recovered) = continue_over(alloc, windows, played, dead, place..next);
        let Some(calls) = calls else {
            return Ok(None);
        };
        if !is_same {
            return Ok(None);
        }
        let Ok(()) = calls_store.push(calls) else {
            return Err(Fault::Memory);
        };
        store = recovered;
    }
    Ok(Some(StoreCalls {
        played,
        calls_store,
    }))
}
