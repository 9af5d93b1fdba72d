//! Tests windows that end together while the commit of each firing fails in turn.
use crate::commands::add_creates;
use crate::fixture::new_register;
use crate::over_flaky::{Commits, Failure, RegisterTask, over_flaky};
use model::{Refusal, Status};
use numbers::Spid;
use register::Register;
use settle::Store;
use std::alloc::Global;
use std::cell::Cell;
use store::{Failing, MemoryStore};

// The number of versions.
const COUNT: u64 = 10;

// How the versions are created, and what follows the fetch that fails.
#[derive(Clone, Copy)]
struct Scenario {
    // The minutes between two creates.
    interval: u64,
    // Whether the versions are shown before the next fetch, or after it.
    is_shown_first: bool,
}

static SCENARIOS: [Scenario; 4] = [
    Scenario {
        interval: 0,
        is_shown_first: true,
    },
    Scenario {
        interval: 0,
        is_shown_first: false,
    },
    Scenario {
        interval: 1,
        is_shown_first: true,
    },
    Scenario {
        interval: 1,
        is_shown_first: false,
    },
];

// Returns a store after the creates, at a minute after the last end.
fn store_after_creates(alloc: Global, interval: u64) -> Option<MemoryStore> {
    let mut register = new_register(alloc)?;
    match add_creates(alloc, &mut register, (COUNT, interval, 200)) {
        Some(()) => Some(register.close()),
        None => None,
    }
}

// Returns whether a fetch returns no downloads, or `Some(false)` if it is answered with `storage`.
fn is_fetch_successful<S: Store>(register: &mut Register<S>) -> Option<bool> {
    match register.fetch(Spid::read("AAAA")?, 10) {
        Ok(downloads) => downloads.is_empty().then_some(true),
        Err(Refusal::Storage) => Some(false),
        Err(_) => None,
    }
}

// Returns whether each version is shown as canceled at its own minute.
fn are_all_shown_canceled<S: Store>(register: &mut Register<S>, interval: u64) -> Option<bool> {
    let caller = Spid::read("AAAA")?;
    for number in 0..COUNT {
        let version = register
            .version(caller, number.saturating_add(1))
            .ok()?
            .version;
        let since = number.saturating_mul(interval).saturating_add(120);
        if version.status != Status::Canceled || version.since.number != since {
            return Some(false);
        }
    }
    Some(true)
}

// Returns whether all is right after the fetch that fails: each version is canceled, and no
// download is pending.
fn is_recovered<S: Store>(register: &mut Register<S>, scenario: Scenario) -> Option<bool> {
    let is_shown = !scenario.is_shown_first || are_all_shown_canceled(register, scenario.interval)?;
    let is_fetched = is_fetch_successful(register)?;
    Some(is_shown && is_fetched && are_all_shown_canceled(register, scenario.interval)?)
}

// The outcome of a fetch with a store call that may fail.
#[derive(Clone, Copy)]
enum FetchOutcome {
    Succeeded,
    // The commit of this firing failed.
    CommitFailed(u64),
    // A call other than a commit failed.
    ReadFailed,
}

// A fetch, and what follows if it failed.
#[derive(Drop)]
struct Fetching<'a> {
    scenario: Scenario,
    commits: Commits<'a>,
}

impl RegisterTask for Fetching<'_> {
    type Output = FetchOutcome;

    fn run<S: Store>(&mut self, register: &mut Register<S>) -> Option<FetchOutcome> {
        let is_successful = is_fetch_successful(register)?;
        let (requested, committed) = (self.commits.requested.get(), self.commits.committed.get());
        if is_successful {
            return if (requested, committed) == (COUNT, COUNT) {
                Some(FetchOutcome::Succeeded)
            } else {
                None
            };
        }
        if !is_recovered(register, self.scenario)? {
            None
        } else if requested == committed {
            Some(FetchOutcome::ReadFailed)
        } else {
            Some(FetchOutcome::CommitFailed(requested))
        }
    }
}

// Fetches over a store whose call number `before` + 1 fails.
fn run_with_failure(
    alloc: Global,
    scenario: Scenario,
    commits: Commits<'_>,
    before: u64,
) -> Option<FetchOutcome> {
    let store = store_after_creates(alloc, scenario.interval)?;
    commits.requested.set(0);
    commits.committed.set(0);
    let failure = Failure {
        before,
        failing: Failing::Once,
    };
    let mut task = Fetching { scenario, commits };
    let (outcome, _) = over_flaky(alloc, store, failure, commits, &mut task)?;
    Some(outcome)
}

// Returns how many firings failed, one in each run, from the first to the last.
fn count_failed_firings(alloc: Global, scenario: Scenario, commits: Commits<'_>) -> Option<u64> {
    let mut firings = 0u64;
    for before in 1..u64::MAX {
        match run_with_failure(alloc, scenario, commits, before)? {
            FetchOutcome::Succeeded => return Some(firings),
            FetchOutcome::ReadFailed => {}
            FetchOutcome::CommitFailed(number) if number == firings.saturating_add(1) => firings =
                number,
            FetchOutcome::CommitFailed(_) => return None,
        }
    }
    None
}

// Returns the first scenario with a firing that never fails, or with a wrong response.
fn first_wrong_scenario(alloc: Global) -> Option<usize> {
    let (requested, committed) = (Cell::new(0), Cell::new(0));
    let commits = Commits {
        requested: &requested,
        committed: &committed,
    };
    for (place, scenario) in SCENARIOS.iter().enumerate() {
        if count_failed_firings(alloc, *scenario, commits) != Some(COUNT) {
            return Some(place);
        }
    }
    None
}

#[test]
fn a_fetch_may_fail_at_each_firing(rt: HostRuntime) {
    assert_eq!(rt; first_wrong_scenario(rt.alloc()), None);
}
