//! Tests that a register counts the failures of its device, and says whether its store answers.
use crate::over_flaky::{Commits, Failure, RegisterTask, over_flaky};
use register::Register;
use settle::{Store, StoreFault};
use std::alloc::Global;
use std::cell::Cell;
use store::{Failing, MemoryStore};

// What a probe said, and the count of failures after it.
type Probe = (Result<(), StoreFault>, u64);

// Two probes.
#[derive(Drop)]
struct ProbesTwice;

impl RegisterTask for ProbesTwice {
    type Output = [Probe; 2];

    fn run<S: Store>(&mut self, register: &mut Register<S>) -> Option<[Probe; 2]> {
        let first = register.probe();
        let count = register.failures();
        let second = register.probe();
        Some([(first, count), (second, register.failures())])
    }
}

// Probes a register twice whose device fails at the first call after it is opened.
fn probe_twice(alloc: Global) -> Option<[Probe; 2]> {
    let (requested, committed) = (Cell::new(0), Cell::new(0));
    let commits = Commits {
        requested: &requested,
        committed: &committed,
    };
    let failure = Failure {
        before: 2,
        failing: Failing::Once,
    };
    let store = MemoryStore::new(alloc);
    let (probes, _) = over_flaky(alloc, store, failure, commits, &mut ProbesTwice)?;
    Some(probes)
}

#[test]
fn a_probe_reports_a_failure(rt: HostRuntime) {
    let expected = [(Err(StoreFault::Storage), 1), (Ok(()), 1)];
    assert!(rt; probe_twice(rt.alloc()) == Some(expected));
}
