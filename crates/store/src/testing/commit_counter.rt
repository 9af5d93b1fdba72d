//! A store that counts its commits.

use delivery::{Broadcast, Download, DownloadKey, RoutedRow};
use numbers::{BlockId, CodeId, Lrn, Minute, Spid, Subject};
use settle::{
    BlockRow, BroadcastKey, Changes, ClockRow, Few, NumberedRow, Store, StoreFault, StoreModel,
    VersionRow, WaitKey,
};
use std::cell::Cell;
use version::NumberInUse;
use windows::Windows;

/// A store over another one that counts its calls of `commit`, and those of `take_shared` that change
/// something, in a shared cell.
///
/// Not proved: the count.
#[derive(Drop)]
pub struct CommitCounter<'a, S: Store> {
    pub store: S,
    pub commits: &'a Cell<u64>,
}

impl<S: Store> StoreModel for CommitCounter<'_, S> {
    ghost content = { λ s. S.content s.store };

    ghost IsUsable = { λ s. S.IsUsable s.store };

    ghost HasHonestDevice = { λ s. S.HasHonestDevice s.store };

    ghost IsCrashState = { λ s m. S.IsCrashState s.store m };

    ghost IsInGroup = { λ s m. S.IsInGroup s.store m };

    ghost failed = { λ s. S.failed s.store };

    ghost faults = { λ s. S.faults s.store };
}

impl<S: Store> Store for CommitCounter<'_, S> {
    ghost leaves_content = { λ s m usable alone left. S.leaves_content s.store m usable alone left };

    ghost leaves_start = { λ s start m inside left. S.leaves_start s.store start m inside left };

    ghost usable_is_honest = { λ s usable. S.usable_is_honest s.store usable };

    fn clock(&mut self) -> Result<Option<ClockRow>, StoreFault> {
        self.store.clock()
    }

    fn carrier(&mut self, spid: Spid) -> Result<bool, StoreFault> {
        self.store.carrier(spid)
    }

    fn lrn(&mut self, lrn: Lrn) -> Result<Option<Spid>, StoreFault> {
        self.store.lrn(lrn)
    }

    fn code(&mut self, code: CodeId) -> Result<Option<Spid>, StoreFault> {
        self.store.code(code)
    }

    fn block(&mut self, block: BlockId) -> Result<Option<BlockRow>, StoreFault> {
        self.store.block(block)
    }

    fn window_set(&mut self, number: u16) -> Result<Option<Windows>, StoreFault> {
        self.store.window_set(number)
    }

    fn version(&mut self, id: u64) -> Result<Option<VersionRow>, StoreFault> {
        self.store.version(id)
    }

    fn version_in_force(&mut self, subject: Subject) -> Result<Option<NumberedRow>, StoreFault> {
        self.store.version_in_force(subject)
    }

    fn open_version(&mut self, subject: Subject) -> Result<Option<NumberedRow>, StoreFault> {
        self.store.open_version(subject)
    }

    fn least_due(&mut self, now: Minute) -> Result<Option<NumberedRow>, StoreFault> {
        self.store.least_due(now)
    }

    fn broadcast(&mut self, key: BroadcastKey) -> Result<Option<Broadcast>, StoreFault> {
        self.store.broadcast(key)
    }

    fn waits_about(
        &mut self,
        spid: Spid,
        subject: Subject,
    ) -> Result<Few<DownloadKey>, StoreFault> {
        self.store.waits_about(spid, subject)
    }

    fn waits(&mut self, spid: Spid) -> Result<Vec<Subject>, StoreFault> {
        self.store.waits(spid)
    }

    fn front(&mut self, spid: Spid, many: usize) -> Result<Vec<Download>, StoreFault> {
        self.store.front(spid, many)
    }

    fn waiters(&mut self, minute: Minute, key: BroadcastKey) -> Result<Vec<Spid>, StoreFault> {
        self.store.waiters(minute, key)
    }

    fn is_last_wait(&mut self, wait: WaitKey) -> Result<bool, StoreFault> {
        self.store.is_last_wait(wait)
    }

    fn carriers(&mut self) -> Result<Vec<Spid>, StoreFault> {
        self.store.carriers()
    }

    fn open_broadcasts(&mut self) -> Result<Vec<(BroadcastKey, Broadcast)>, StoreFault> {
        self.store.open_broadcasts()
    }

    fn in_force(&mut self) -> Result<Vec<RoutedRow>, StoreFault> {
        self.store.in_force()
    }

    fn in_block(&mut self, block: BlockId) -> Result<Vec<NumberInUse>, StoreFault> {
        self.store.in_block(block)
    }

    fn commit(&mut self, changes: &Changes) -> Result<(), StoreFault> {
        self.commits.set(self.commits.get().saturating_add(1));
        self.store.commit(changes)
    }

    fn take_shared(
        &mut self,
        carrier: Spid,
        id: u64,
        attempt: u64,
    ) -> Result<Option<VersionRow>, StoreFault> {
        let taken = self.store.take_shared(carrier, id, attempt);
        if let Ok(Some(_)) = &taken {
            self.commits.set(self.commits.get().saturating_add(1));
        }
        taken
    }

    fn begin_group(&mut self) -> Result<bool, StoreFault> {
        self.store.begin_group()
    }

    fn end_group(&mut self) -> Result<(), StoreFault> {
        self.store.end_group()
    }

    fn undo_group(&mut self) -> Result<(), StoreFault> {
        self.store.undo_group()
    }

    fn failures(&self) -> u64 {
        self.store.failures()
    }
}
