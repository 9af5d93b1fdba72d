//! A file of which one call fails, as on a disk that is full for a moment.
ghost use Rattle.std.specs.Prelude.{◌≡◌, ◌+◌, ◌-◌, ◌^◌, ◌≤◌, min, false, true, OnErr, OnOk};
ghost use Rattle.sqlite_disk.specs.Disk.{CountsFault};
ghost use Rattle.sqlite_disk.specs.Refusal.{finds_no_room};
ghost use Rattle.sqlite_disk.specs.Tally.{both_counts};

use sqlite_disk::{Disk, Tally};
use std::io;
use std::io::ErrorKind;

/// A file that fails the call after `before` of them, and passes all others on. A write fails for
/// want of room. A sync is counted, but never fails: after a failed one the file is not used.
#[derive(Drop)]
pub struct FlakyFile<D: Disk> {
    inner: D,
    // How many calls it got, and how many before the one that fails.
    calls: u64,
    before: u64,
    failed: u64,
    // How many calls failed for want of room.
    refused: u64,
}

impl<D: Disk> FlakyFile<D> {
    /// Creates a file that passes `before` calls on and fails the next one, unless it is a sync.
    pub fn new(inner: D, before: u64) -> FlakyFile<D> {
        FlakyFile {
            inner,
            calls: 0,
            before,
            failed: 0,
            refused: 0,
        }
    }

    /// Returns the file below.
    pub fn inner(&self) -> &D {
        &self.inner
    }

    /// Returns how many calls it got.
    pub fn calls(&self) -> u64 {
        self.calls
    }

    /// Returns whether a call has failed.
    pub fn has_failed(&self) -> bool {
        self.failed > 0
    }
}

// Counts a call. Returns whether it is the one that fails.
fn count(calls: &mut u64, before: u64) -> bool {
    let is_next = *calls == before;
    *calls = calls.saturating_add(1);
    is_next
}

// Precedes a call. Returns `Err` for the one that fails.
fn fail_next(calls: &mut u64, before: u64, failed: &mut u64) -> io::Result<()>
    ensures faults { CountsFault result failed.old failed.new }
    ensures kind { finds_no_room result ≡ false }
{
    if count(calls, before) {
        *failed = failed.saturating_add(1);
        return Err(io::Error::other("a call fails"));
    }
    Ok(())
}

// Precedes a call that writes. Returns `Err` for the one that fails.
fn refuse_next(calls: &mut u64, before: u64, failed: &mut u64, refused: &mut u64) -> io::Result<()>
    ensures faults { CountsFault result failed.old failed.new }
    ensures kind { OnErr result (finds_no_room result ≡ true) }
    ensures rises { OnErr result (refused.new ≡ min (refused.old + 1) (2 ^ 64 - 1)) }
    ensures stays { OnOk result (refused.new ≡ refused.old) }
{
    if count(calls, before) {
        *failed = failed.saturating_add(1);
        *refused = refused.saturating_add(1);
        return Err(io::Error::from(ErrorKind::StorageFull));
    }
    Ok(())
}

impl<D: Disk> Disk for FlakyFile<D> {
    ghost seen = { λ f. D.Disk.seen f.inner };

    ghost may_leave = { λ f. D.Disk.may_leave f.inner };

    ghost is_usable = { λ f. D.Disk.is_usable f.inner };

    ghost faults = { λ f. D.Disk.faults f.inner + f.failed };

    ghost tally_of = { λ f. both_counts (D.Disk.tally_of f.inner) (record { caught = 0; refused = f.refused }) };

    ghost is_rotten = { λ f. D.Disk.is_rotten f.inner };

    ghost key_of = { λ f. D.Disk.key_of f.inner };

    ghost is_clean = { λ f. D.Disk.is_clean f.inner };

    ghost is_fair = { λ f. D.Disk.is_fair f.inner };

    ghost fair_if_clean = { λ f. D.Disk.fair_if_clean f.inner };

    ghost seen_may_stay = { λ f. D.Disk.seen_may_stay f.inner };

    ghost is_mixing = { λ f. D.Disk.is_mixing f.inner };

    fn mixes(&self) -> bool {
        self.inner.mixes()
    }

    fn key(&self) -> u64 {
        self.inner.key()
    }

    fn tally(&self) -> Tally {
        self.inner.tally().plus(Tally {
            caught: 0,
            refused: self.refused,
        })
    }

    fn may_be_used(&self) -> bool {
        self.inner.may_be_used()
    }

    fn len(&mut self) -> io::Result<usize> {
        fail_next(&mut self.calls, self.before, &mut self.failed)?;
        self.inner.len()
    }

    fn read_at(&mut self, at: usize, buf: &mut [u8]) -> io::Result<()> {
        fail_next(&mut self.calls, self.before, &mut self.failed)?;
        self.inner.read_at(at, buf)
    }

    fn read_checked(&mut self, key: u64, want: u64, at: usize, buf: &mut [u8]) -> io::Result<()> {
        fail_next(&mut self.calls, self.before, &mut self.failed)?;
        self.inner.read_checked(key, want, at, buf)
    }

    fn write_at(&mut self, at: usize, bytes: &[u8]) -> io::Result<()> {
        refuse_next(
            &mut self.calls,
            self.before,
            &mut self.failed,
            &mut self.refused,
        )?;
        self.inner.write_at(at, bytes)
    }

    fn set_len(&mut self, len: usize) -> io::Result<()> {
        refuse_next(
            &mut self.calls,
            self.before,
            &mut self.failed,
            &mut self.refused,
        )?;
        self.inner.set_len(len)
    }

    fn sync(&mut self) -> io::Result<()> {
        count(&mut self.calls, self.before);
        self.inner.sync()
    }
}
