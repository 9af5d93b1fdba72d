//! Works over a register whose store fails at one call, or from then on, and counts its commits.
//!
//! A function that makes such a store a `Store` takes minutes to prove. So only `over_flaky` does.
use crate::fixture::open_register;
use register::Register;
use settle::Store;
use std::alloc::Global;
use std::cell::Cell;
use store::{CommitCounter, Failing, Flaky, MemoryStore};

/// What is done with a register.
pub trait RegisterTask {
    /// What it returns.
    type Output: Drop;

    /// Does it.
    fn run<S: Store>(&mut self, register: &mut Register<S>) -> Option<Self::Output>;
}

/// The store call number `before` + 1 fails, once or from then on. The first call opens the register.
#[derive(Clone, Copy)]
pub struct Failure {
    pub before: u64,
    pub failing: Failing,
}

impl Failure {
    /// No call fails.
    pub const NONE: Failure = Failure {
        before: u64::MAX,
        failing: Failing::Once,
    };
}

/// The commits that the register asked for, and those that the store made.
#[derive(Clone, Copy)]
pub struct Commits<'a> {
    pub requested: &'a Cell<u64>,
    pub committed: &'a Cell<u64>,
}

/// Opens a register over a store that fails so, does something with it, and returns the store below.
pub fn over_flaky<T: RegisterTask>(
    alloc: Global,
    store: MemoryStore,
    failure: Failure,
    commits: Commits<'_>,
    task: &mut T,
) -> Option<(T::Output, MemoryStore)> {
    let inner = CommitCounter {
        store,
        commits: commits.committed,
    };
    let outer = CommitCounter {
        store: Flaky::new(inner, failure.before, failure.failing),
        commits: commits.requested,
    };
    let mut register = open_register(alloc, outer)?;
    let output = task.run(&mut register)?;
    let CommitCounter { store: flaky, .. } = register.close();
    let CommitCounter { store, .. } = flaky.into_store();
    Some((output, store))
}
