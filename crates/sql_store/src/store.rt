//! The store over a database of SQL.
ghost use Rattle.std.specs.Prelude.{◌≡◌, ◌≤◌, false, IsTrue};
ghost use Rattle.sqlite.specs.Held.{state};
ghost use Rattle.settle.specs.StoreContract.{CountsFailure};
ghost use Rattle.settle.specs.Reads.{HasDeviceFailed};
ghost use Rattle.sql_store.specs.Groups.{IsCounted, has_begun, idle_if_unbegun, reported};
ghost use Rattle.sql_store.specs.Store.{IsIdle};

use crate::database::Database;
use crate::group::Group;
use crate::{blocks, commit, kept, lists, lookups, queue, routed};
use delivery::{Broadcast, Download, DownloadKey, RoutedRow};
use numbers::{BlockId, CodeId, Lrn, Minute, Spid, Subject};
use settle::{
    BlockRow, BroadcastKey, Changes, ClockRow, Few, NumberedRow, Store, StoreFault, StoreModel,
    VersionRow, WaitKey,
};
use sql_rows::Fault;
use sqlite::Alter;
use version::NumberInUse;
use windows::Windows;

/// The rows of a register in the tables of a database. `S` stores the database: in a file, or in
/// memory.
///
/// The count of failures rises by one with each result of the database that is neither success nor
/// a failed allocation. It also rises with each stored value that is not of its column's type.
pub struct SqlStore<S: Alter> {
    pub(crate) db: Database<S>,
    pub(crate) failures: u64,
    pub(crate) group: Group,
    ghost idle: { has_begun group ≡ false → IsTrue (state S.Store db.conn).is_open → IsIdle (state S.Store db.conn) } by { idle_if_unbegun _ _ },
}

// Returns the fault as the store reports it, and counts it if it is one of the device.
fn report(failures: &mut u64, fault: Fault) -> StoreFault
    ensures device { fault ≡ Fault.Device → result ≡ StoreFault.Storage }
    ensures memory { fault ≡ Fault.Memory → result ≡ StoreFault.NoMemory }
    ensures counts { CountsFailure (reported result) failures.old failures.new }
    ensures rises { failures.old ≤ failures.new }
    ensures storage { result ≡ StoreFault.Storage → HasDeviceFailed failures.old failures.new }
{
    match fault {
        Fault::Memory => StoreFault::NoMemory,
        Fault::Device => {
            *failures = failures.saturating_add(1);
            StoreFault::Storage
        }
    }
}

// Returns the result as the store reports it, and counts each failure of the device. In a group that
// has failed, returns its first fault instead.
fn counted<A: Drop>(
    failures: &mut u64,
    group: &mut Group,
    answer: Result<A, Fault>,
) -> Result<A, StoreFault>
    ensures { IsCounted answer result group.old group.new failures.old failures.new }
{
    match answer {
        Ok(found) => match *group {
            Group::Failed(fault) => Err(report(failures, fault)),
            Group::None | Group::Begun => Ok(found),
        },
        Err(fault) => {
            if *group == Group::Begun {
                *group = Group::Failed(fault);
            }
            Err(report(failures, fault))
        }
    }
}

impl<S: Alter> StoreModel for SqlStore<S> {
    ghost use Rattle.sqlite.specs.State.{HasCleanDisk};
    ghost use Rattle.sql_store.specs.Store.{left_by};
    ghost use Rattle.sql_store.specs.Groups.{has_begun, is_sound};
    ghost use Rattle.sql_rows.specs.Content.{content_in};
    ghost use Rattle.sqlite.specs.Held.{state};
    ghost use Rattle.std.specs.Prelude.{IsTrue};

    ghost content = { λ s. content_in (state S.Store s.db.conn).now.trees };

    ghost IsUsable = { λ s. IsTrue (is_sound s.group) × IsTrue (state S.Store s.db.conn).is_open };

    ghost HasHonestDevice = { λ s. HasCleanDisk (state S.Store s.db.conn) };

    ghost IsCrashState = { λ s. left_by S.Store s.db.conn };

    ghost IsInGroup = { λ s m. IsTrue (has_begun s.group) × IsTrue (state S.Store s.db.conn).is_open × (m ≡ content_in (state S.Store s.db.conn).committed.trees) };

    ghost failed = { λ s. s.failures };

    ghost faults = { λ s. (state S.Store s.db.conn).faults };
}

impl<S: Alter> Store for SqlStore<S> {
    ghost use Rattle.std.specs.Prelude.{refl};
    ghost use Rattle.sql_store.specs.Groups.{unbegun};
    ghost use Rattle.sql_store.specs.Store.{left_one, left_start, clean_if_open};

    fn clock(&mut self) -> Result<Option<ClockRow>, StoreFault> {
        counted(
            &mut self.failures,
            &mut self.group,
            kept::clock(&mut self.db),
        )
    }

    fn carrier(&mut self, spid: Spid) -> Result<bool, StoreFault> {
        counted(
            &mut self.failures,
            &mut self.group,
            kept::carrier(&mut self.db, spid),
        )
    }

    fn lrn(&mut self, lrn: Lrn) -> Result<Option<Spid>, StoreFault> {
        counted(
            &mut self.failures,
            &mut self.group,
            lookups::lrn(&mut self.db, lrn),
        )
    }

    fn code(&mut self, code: CodeId) -> Result<Option<Spid>, StoreFault> {
        counted(
            &mut self.failures,
            &mut self.group,
            lookups::code(&mut self.db, code),
        )
    }

    fn block(&mut self, block: BlockId) -> Result<Option<BlockRow>, StoreFault> {
        counted(
            &mut self.failures,
            &mut self.group,
            lookups::block(&mut self.db, block),
        )
    }

    fn window_set(&mut self, number: u16) -> Result<Option<Windows>, StoreFault> {
        counted(
            &mut self.failures,
            &mut self.group,
            lookups::window_set(&mut self.db, number),
        )
    }

    fn version(&mut self, id: u64) -> Result<Option<VersionRow>, StoreFault> {
        counted(
            &mut self.failures,
            &mut self.group,
            lookups::version(&mut self.db, id),
        )
    }

    fn version_in_force(&mut self, subject: Subject) -> Result<Option<NumberedRow>, StoreFault> {
        counted(
            &mut self.failures,
            &mut self.group,
            lookups::version_in_force(&mut self.db, subject),
        )
    }

    fn open_version(&mut self, subject: Subject) -> Result<Option<NumberedRow>, StoreFault> {
        counted(
            &mut self.failures,
            &mut self.group,
            lookups::open_version(&mut self.db, subject),
        )
    }

    fn least_due(&mut self, now: Minute) -> Result<Option<NumberedRow>, StoreFault> {
        counted(
            &mut self.failures,
            &mut self.group,
            kept::least_due(&mut self.db, now),
        )
    }

    fn broadcast(&mut self, key: BroadcastKey) -> Result<Option<Broadcast>, StoreFault> {
        counted(
            &mut self.failures,
            &mut self.group,
            lookups::broadcast(&mut self.db, key),
        )
    }

    fn waits_about(
        &mut self,
        spid: Spid,
        subject: Subject,
    ) -> Result<Few<DownloadKey>, StoreFault> {
        counted(
            &mut self.failures,
            &mut self.group,
            lists::waits_about(&mut self.db, spid, subject),
        )
    }

    fn waits(&mut self, spid: Spid) -> Result<Vec<Subject>, StoreFault> {
        counted(
            &mut self.failures,
            &mut self.group,
            lists::waits(&mut self.db, spid),
        )
    }

    fn front(&mut self, spid: Spid, many: usize) -> Result<Vec<Download>, StoreFault> {
        counted(
            &mut self.failures,
            &mut self.group,
            queue::front(&mut self.db, spid, many),
        )
    }

    fn waiters(&mut self, minute: Minute, key: BroadcastKey) -> Result<Vec<Spid>, StoreFault> {
        counted(
            &mut self.failures,
            &mut self.group,
            lists::waiters(&mut self.db, minute, key),
        )
    }

    fn is_last_wait(&mut self, wait: WaitKey) -> Result<bool, StoreFault> {
        counted(
            &mut self.failures,
            &mut self.group,
            lists::is_last_wait(&mut self.db, wait),
        )
    }

    fn carriers(&mut self) -> Result<Vec<Spid>, StoreFault> {
        counted(
            &mut self.failures,
            &mut self.group,
            kept::carriers(&mut self.db),
        )
    }

    fn open_broadcasts(&mut self) -> Result<Vec<(BroadcastKey, Broadcast)>, StoreFault> {
        counted(
            &mut self.failures,
            &mut self.group,
            lists::open_broadcasts(&mut self.db),
        )
    }

    fn in_force(&mut self) -> Result<Vec<RoutedRow>, StoreFault> {
        counted(
            &mut self.failures,
            &mut self.group,
            routed::in_force(&mut self.db),
        )
    }

    fn in_block(&mut self, block: BlockId) -> Result<Vec<NumberInUse>, StoreFault> {
        counted(
            &mut self.failures,
            &mut self.group,
            blocks::in_block(&mut self.db, block),
        )
    }

    fn commit(&mut self, changes: &Changes) -> Result<(), StoreFault> {
        let done = match self.group {
            Group::None => commit::commit(&mut self.db, changes),
            Group::Begun => commit::write(&mut self.db, changes),
            Group::Failed(fault) => Err(fault),
        };
        counted(&mut self.failures, &mut self.group, done)
    }

    // Each statement finds its rows by key, so one call would save little.
    fn take_shared(
        &mut self,
        _carrier: Spid,
        _id: u64,
        _attempt: u64,
    ) -> Result<Option<VersionRow>, StoreFault> {
        Ok(None)
    }

    // The first commit begins the transaction, so that a group of look-ups costs nothing.
    fn begin_group(&mut self) -> Result<bool, StoreFault> {
        let is_first = self.group == Group::None;
        if is_first {
            self.group = Group::Begun;
        }
        Ok(is_first)
    }

    fn end_group(&mut self) -> Result<(), StoreFault> {
        match self.group {
            Group::None => Ok(()),
            Group::Begun => {
                let done = commit::end(&mut self.db);
                self.group = Group::None;
                counted(&mut self.failures, &mut self.group, done)
            }
            Group::Failed(fault) => {
                commit::undo(&mut self.db);
                self.group = Group::None;
                Err(report(&mut self.failures, fault))
            }
        }
    }

    fn undo_group(&mut self) -> Result<(), StoreFault> {
        if self.group.has_begun() {
            commit::undo(&mut self.db);
            self.group = Group::None;
        }
        Ok(())
    }

    fn failures(&self) -> u64 {
        self.failures
    }

    ghost leaves_start = { λ s start m inside left. left_start start m left.0 _ inside.2 left.2
        (S.settled s.db.conn.store left.0 inside.1 left.1) };

    ghost leaves_content = { λ s m usable alone left. left_one m left.0 _ _ left.2
        (S.settled s.db.conn.store left.0 usable.1 left.1)
        (s.idle (unbegun s.group (λ begun. alone (_, (begun, usable.1, refl)))) usable.1).same_trees };

    ghost usable_is_honest = { λ s usable. clean_if_open _ _ (S.shut_if_dirty s.db.conn.store) usable.1 };
}
