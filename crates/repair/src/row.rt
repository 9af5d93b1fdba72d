//! The rows of a register, in the order in which they are written.
ghost use Rattle.std.specs.Prelude.{◌≡◌, IfNone, IfSome, OnOk};
ghost use Rattle.settle.specs.Changes.{changes_of};
ghost use Rattle.repair.specs.Contents.{IsAbsent, IsPresent, entries_of};
ghost use Rattle.repair.specs.Entries.{changes_with, entry_of, place};

use delivery::Broadcast;
use numbers::{BlockId, CodeId, Lrn, Minute, Spid, Subject};
use settle::{BlockRow, BroadcastKey, Changes, Few, NumberedRow, WaitKey};
use std::alloc::AllocError;
use windows::WindowSet;

/// A row of a table, with its key.
#[derive(Debug, Drop)]
pub enum RegisterRow {
    Carrier(Spid),
    Lrn(Lrn, Spid),
    Code(CodeId, Spid),
    Block(BlockId, BlockRow),
    WindowSet(WindowSet),
    Version(NumberedRow),
    Broadcast(BroadcastKey, Broadcast),
    Wait(WaitKey, Subject),
}

/// All rows of a register.
#[derive(Debug, Drop)]
pub struct RegisterRows {
    pub minute: Minute,
    /// The id of the next version.
    pub next_id: u64,
    /// The number of the present set of windows.
    pub present: u16,
    /// The rows of all tables but the clock's, by table, and within a table by key.
    pub rows: Vec<RegisterRow>,
}

impl RegisterRows {
    /// Returns the present set of windows, or `None` if it is not among the rows.
    pub fn present_set(&self) -> Option<WindowSet>
        ensures some { IfSome result (IsPresent (entries_of self.now.rows.items) self.now.present) }
        ensures none { IfNone result (IsAbsent (entries_of self.now.rows.items) self.now.present) }
    {
        for row in &self.rows {
            if let RegisterRow::WindowSet(set) = row {
                if set.number == self.present {
                    return Some(*set);
                }
            }
        }
        None
    }
}

impl RegisterRow {
    /// Returns where the row is: the number of its table, then its key. No two rows are at one
    /// place.
    pub(crate) fn place(&self) -> [u64; 5]
        ensures { result ≡ place (entry_of self.now) }
    {
        match self {
            RegisterRow::Carrier(spid) => [0, u64::from(spid.number), 0, 0, 0],
            RegisterRow::Lrn(lrn, _) => [1, lrn.number, 0, 0, 0],
            RegisterRow::Code(code, _) => [2, u64::from(code.number), 0, 0, 0],
            RegisterRow::Block(block, _) => [3, u64::from(block.number), 0, 0, 0],
            RegisterRow::WindowSet(set) => [4, u64::from(set.number), 0, 0, 0],
            RegisterRow::Version(version) => [5, version.id, 0, 0, 0],
            RegisterRow::Broadcast(key, _) => [6, key.id, key.attempt, 0, 0],
            RegisterRow::Wait(key, _) => [
                7,
                u64::from(key.carrier.number),
                key.minute.number,
                key.id,
                key.attempt,
            ],
        }
    }

    /// Empties the batch, and stages the row.
    ///
    /// # Errors
    ///
    /// `AllocError` if an allocation fails.
    pub(crate) fn stage(&self, changes: &mut Changes) -> Result<(), AllocError>
        ensures { OnOk result (changes_of changes.new ≡ changes_with (entry_of self.now)) }
    {
        changes.clear();
        match self {
            RegisterRow::Carrier(spid) => changes.carrier = Some(*spid),
            RegisterRow::Lrn(lrn, owner) => changes.lrn = Some((*lrn, *owner)),
            RegisterRow::Code(code, holder) => changes.code = Some((*code, *holder)),
            RegisterRow::Block(block, row) => changes.block = Some((*block, *row)),
            RegisterRow::WindowSet(set) => changes.set = Some(*set),
            RegisterRow::Version(version) => {
                changes.versions = Few::One([(version.id, version.row.copied())]);
            }
            RegisterRow::Broadcast(key, broadcast) => {
                changes.broadcasts = Few::One([(*key, *broadcast)]);
            }
            RegisterRow::Wait(key, subject) => changes.waits.push((*key, *subject))?,
        }
        Ok(())
    }
}
