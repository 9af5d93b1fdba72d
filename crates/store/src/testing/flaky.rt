//! A store whose device fails at a chosen call.
ghost use Rattle.std.specs.Prelude.{◌≡◌, ◌≤◌, ◌+◌, ◌-◌, ◌^◌, min, ℕ, Err, Some, OnOk, OnErr};
ghost use Rattle.model.specs.Content.{Content};
ghost use Rattle.settle.specs.StoreContract.{CountsFailure};
ghost use Rattle.settle.specs.Reads.{HasDeviceFailed};
ghost use Rattle.store.specs.Countdown.{after_failing, one_fewer};

use delivery::{Broadcast, Download, DownloadKey, RoutedRow};
use numbers::{BlockId, CodeId, Lrn, Minute, Spid, Subject};
use settle::{
    BlockRow, BroadcastKey, Changes, ClockRow, Few, NumberedRow, Store, StoreFault, StoreModel,
    VersionRow, WaitKey,
};
use version::NumberInUse;
use windows::Windows;

/// How often a device fails.
#[derive(Clone, Copy, Debug, PartialEq, Eq)]
pub enum Failing {
    /// One call fails, and no call after it.
    Once,
    /// All calls fail from then on.
    Always,
}

/// A store over another one. One of its calls fails as if the device had failed: it does not reach
/// the store below, and the count of failures rises by one. If it ends a group, the group below is
/// undone.
#[derive(Drop)]
pub struct Flaky<S: Store> {
    store: S,
    // The number of calls before the one that fails, if one is to fail.
    before: Option<u64>,
    failing: Failing,
    failures: u64,
}

impl<S: Store> Flaky<S> {
    /// Creates a store that passes `before` calls to the store below and fails at the next one.
    pub fn new(store: S, before: u64, failing: Failing) -> Flaky<S>
        ensures store { result.store ≡ store }
        ensures before { result.before ≡ Some before }
        ensures failing { result.failing ≡ failing }
        ensures none { result.failures ≡ 0 }
    {
        Flaky {
            store,
            before: Some(before),
            failing,
            failures: 0,
        }
    }

    /// Returns the store below.
    pub fn into_store(self) -> S
        ensures { result ≡ self.store }
    {
        let Flaky { store, .. } = self;
        store
    }

    // Counts a failure.
    fn fail(&mut self) -> StoreFault
        ensures fault { result ≡ StoreFault.Storage }
        ensures same { self.new.store ≡ self.old.store }
        ensures one { self.new.failures ≡ min (self.old.failures + 1) (2 ^ 64 - 1) }
        ensures before { self.new.before ≡ self.old.before }
        ensures failing { self.new.failing ≡ self.old.failing }
        ensures rises { self.old.failures ≤ self.new.failures }
        ensures risen { HasDeviceFailed self.old.failures self.new.failures }
    {
        self.failures = self.failures.saturating_add(1);
        StoreFault::Storage
    }

    // Precedes each call. Returns `Err` for the call that fails, which does not reach the store
    // below.
    fn count_down(&mut self) -> Result<(), StoreFault>
        ensures same { self.new.store ≡ self.old.store }
        ensures rises { self.old.failures ≤ self.new.failures }
        ensures fault { OnErr result (result ≡ Err StoreFault.Storage) }
        ensures risen { OnErr result (HasDeviceFailed self.old.failures self.new.failures) }
        ensures calm { OnOk result (self.new.failures ≡ self.old.failures) }
        ensures fails { OnErr result (self.old.before ≡ Some 0) }
        ensures next { OnErr result (self.new.before ≡ after_failing self.old.failing) }
        ensures others { OnOk result (¬ (self.old.before ≡ Some 0)) }
        ensures passes { OnOk result (self.new.before ≡ one_fewer self.old.before) }
        ensures failing { self.new.failing ≡ self.old.failing }
        ensures one { OnErr result (self.new.failures ≡ min (self.old.failures + 1) (2 ^ 64 - 1)) }
    {
        match self.before {
            None => Ok(()),
            Some(0) => {
                self.before = match self.failing {
                    Failing::Once => None,
                    Failing::Always => Some(0),
                };
                Err(self.fail())
            }
            Some(before) => {
                self.before = Some(before - 1);
                Ok(())
            }
        }
    }
}

// Returns what the store below returned, and counts its failures too.
fn counted<A>(failures: &mut u64, answer: Result<A, StoreFault>) -> Result<A, StoreFault>
    ensures same { result ≡ answer }
    ensures counts { CountsFailure answer failures.old failures.new }
    ensures rises { failures.old ≤ failures.new }
    ensures risen { answer ≡ Err StoreFault.Storage → HasDeviceFailed failures.old failures.new }
{
    match answer {
        Err(StoreFault::Storage) => {
            *failures = failures.saturating_add(1);
            Err(StoreFault::Storage)
        }
        answer => answer,
    }
}

impl<S: Store> StoreModel for Flaky<S> {
    ghost content = { λ s. S.content s.store };

    ghost IsUsable = { λ s. S.IsUsable s.store };

    ghost HasHonestDevice = { λ s. S.HasHonestDevice s.store };

    ghost IsCrashState = { λ s. S.IsCrashState s.store };

    ghost IsInGroup = { λ s. S.IsInGroup s.store };

    ghost failed = { λ s. s.failures };

    ghost faults = { λ s. S.faults s.store };

    ghost use Rattle.store.specs.Countdown.{CountsDown};

    ghost IsStep = { λ old new tells.
        CountsDown old.before old.failing new.before tells (new.store ≡ old.store)
        × (new.failing ≡ old.failing) };
}

impl<S: Store> Store for Flaky<S> {
    ghost leaves_content = { λ s. S.leaves_content s.store };

    ghost leaves_start = { λ s. S.leaves_start s.store };

    ghost usable_is_honest = { λ s. S.usable_is_honest s.store };

    fn clock(&mut self) -> Result<Option<ClockRow>, StoreFault> {
        self.count_down()?;
        counted(&mut self.failures, self.store.clock())
    }

    fn carrier(&mut self, spid: Spid) -> Result<bool, StoreFault> {
        self.count_down()?;
        counted(&mut self.failures, self.store.carrier(spid))
    }

    fn lrn(&mut self, lrn: Lrn) -> Result<Option<Spid>, StoreFault> {
        self.count_down()?;
        counted(&mut self.failures, self.store.lrn(lrn))
    }

    fn code(&mut self, code: CodeId) -> Result<Option<Spid>, StoreFault> {
        self.count_down()?;
        counted(&mut self.failures, self.store.code(code))
    }

    fn block(&mut self, block: BlockId) -> Result<Option<BlockRow>, StoreFault> {
        self.count_down()?;
        counted(&mut self.failures, self.store.block(block))
    }

    fn window_set(&mut self, number: u16) -> Result<Option<Windows>, StoreFault> {
        self.count_down()?;
        counted(&mut self.failures, self.store.window_set(number))
    }

    fn version(&mut self, id: u64) -> Result<Option<VersionRow>, StoreFault> {
        self.count_down()?;
        counted(&mut self.failures, self.store.version(id))
    }

    fn version_in_force(&mut self, subject: Subject) -> Result<Option<NumberedRow>, StoreFault> {
        self.count_down()?;
        counted(&mut self.failures, self.store.version_in_force(subject))
    }

    fn open_version(&mut self, subject: Subject) -> Result<Option<NumberedRow>, StoreFault> {
        self.count_down()?;
        counted(&mut self.failures, self.store.open_version(subject))
    }

    fn least_due(&mut self, now: Minute) -> Result<Option<NumberedRow>, StoreFault> {
        self.count_down()?;
        counted(&mut self.failures, self.store.least_due(now))
    }

    fn broadcast(&mut self, key: BroadcastKey) -> Result<Option<Broadcast>, StoreFault> {
        self.count_down()?;
        counted(&mut self.failures, self.store.broadcast(key))
    }

    fn waits_about(
        &mut self,
        spid: Spid,
        subject: Subject,
    ) -> Result<Few<DownloadKey>, StoreFault> {
        self.count_down()?;
        counted(&mut self.failures, self.store.waits_about(spid, subject))
    }

    fn waits(&mut self, spid: Spid) -> Result<Vec<Subject>, StoreFault> {
        self.count_down()?;
        counted(&mut self.failures, self.store.waits(spid))
    }

    fn front(&mut self, spid: Spid, many: usize) -> Result<Vec<Download>, StoreFault> {
        self.count_down()?;
        counted(&mut self.failures, self.store.front(spid, many))
    }

    fn waiters(&mut self, minute: Minute, key: BroadcastKey) -> Result<Vec<Spid>, StoreFault> {
        self.count_down()?;
        counted(&mut self.failures, self.store.waiters(minute, key))
    }

    fn is_last_wait(&mut self, wait: WaitKey) -> Result<bool, StoreFault> {
        self.count_down()?;
        counted(&mut self.failures, self.store.is_last_wait(wait))
    }

    fn carriers(&mut self) -> Result<Vec<Spid>, StoreFault> {
        self.count_down()?;
        counted(&mut self.failures, self.store.carriers())
    }

    fn open_broadcasts(&mut self) -> Result<Vec<(BroadcastKey, Broadcast)>, StoreFault> {
        self.count_down()?;
        counted(&mut self.failures, self.store.open_broadcasts())
    }

    fn in_force(&mut self) -> Result<Vec<RoutedRow>, StoreFault> {
        self.count_down()?;
        counted(&mut self.failures, self.store.in_force())
    }

    fn in_block(&mut self, block: BlockId) -> Result<Vec<NumberInUse>, StoreFault> {
        self.count_down()?;
        counted(&mut self.failures, self.store.in_block(block))
    }

    fn commit(&mut self, changes: &Changes) -> Result<(), StoreFault> {
        self.count_down()?;
        counted(&mut self.failures, self.store.commit(changes))
    }

    fn take_shared(
        &mut self,
        carrier: Spid,
        id: u64,
        attempt: u64,
    ) -> Result<Option<VersionRow>, StoreFault> {
        self.count_down()?;
        counted(
            &mut self.failures,
            self.store.take_shared(carrier, id, attempt),
        )
    }

    fn begin_group(&mut self) -> Result<bool, StoreFault> {
        self.count_down()?;
        counted(&mut self.failures, self.store.begin_group())
    }

    // The end that fails undoes the group below.
    fn end_group(&mut self) -> Result<(), StoreFault> {
        if let Err(fault) = self.count_down() {
            let _ = self.store.undo_group();
            return Err(fault);
        }
        counted(&mut self.failures, self.store.end_group())
    }

    // The undoing that fails has undone the group below.
    fn undo_group(&mut self) -> Result<(), StoreFault> {
        if let Err(fault) = self.count_down() {
            let _ = self.store.undo_group();
            return Err(fault);
        }
        counted(&mut self.failures, self.store.undo_group())
    }

    fn failures(&self) -> u64 {
        self.failures
    }
}
