//! The rows of broadcasts, packed.
//!
//! A packed row takes 20 bytes, a `Broadcast` 64. Fields lie in their order, so the widest are first.
ghost use Rattle.std.specs.Prelude.{◌≡◌, true, false};
ghost use Rattle.settle.specs.Abstraction.{broadcast_row_of};
ghost use Rattle.settle.specs.Sharing.{answered_row};
ghost use Rattle.store.specs.BroadcastRows.{is_open_in, is_acknowledged_in, packed_row_of};

use crate::packed::{packed_routing, packed_subject, routing_at, subject_in};
use crate::short::{Short, ShortMinute};
use delivery::Broadcast;
use model::Action;
use numbers::BlockId;

/// Whether a broadcast is open, and whether some recipient has acknowledged it.
#[derive(Clone, Copy)]
pub enum Progress {
    Unanswered,
    Answered,
    ClosedUnanswered,
    ClosedAnswered,
}

impl Progress {
    fn of(is_open: bool, is_acknowledged: bool) -> Progress
        ensures open { is_open_in result ≡ is_open }
        ensures acknowledged { is_acknowledged_in result ≡ is_acknowledged }
    {
        match (is_open, is_acknowledged) {
            (true, false) => Progress::Unanswered,
            (true, true) => Progress::Answered,
            (false, false) => Progress::ClosedUnanswered,
            (false, true) => Progress::ClosedAnswered,
        }
    }

    fn is_open(self) -> bool
        ensures { result ≡ is_open_in self }
    {
        match self {
            Progress::Unanswered | Progress::Answered => true,
            Progress::ClosedUnanswered | Progress::ClosedAnswered => false,
        }
    }

    fn is_acknowledged(self) -> bool
        ensures { result ≡ is_acknowledged_in self }
    {
        match self {
            Progress::Answered | Progress::ClosedAnswered => true,
            Progress::Unanswered | Progress::ClosedUnanswered => false,
        }
    }

    // Returns the progress after one more acknowledgement.
    fn answered(self) -> Progress
        ensures open { is_open_in result ≡ is_open_in self }
        ensures acknowledged { is_acknowledged_in result ≡ true }
    {
        match self {
            Progress::Unanswered | Progress::Answered => Progress::Answered,
            Progress::ClosedUnanswered | Progress::ClosedAnswered => Progress::ClosedAnswered,
        }
    }
}

/// A broadcast's row, packed.
#[derive(Clone, Copy)]
pub struct PackedBroadcast {
    block: BlockId,
    minute: ShortMinute,
    routing: Short,
    line: u16,
    action: Action,
    progress: Progress,
}

impl PackedBroadcast {
    /// Packs a row.
    pub fn of(row: &Broadcast) -> PackedBroadcast
        ensures { packed_row_of result ≡ broadcast_row_of row.now }
    {
        let (block, line) = packed_subject(row.subject);
        PackedBroadcast {
            block,
            minute: ShortMinute::of(row.minute),
            routing: packed_routing(row.routing),
            line,
            action: row.action,
            progress: Progress::of(row.is_open, row.is_acknowledged),
        }
    }

    /// Marks the broadcast as acknowledged by some recipient.
    pub fn mark(&mut self)
        ensures { packed_row_of self.new ≡ answered_row false (packed_row_of self.old) }
    {
        self.progress = self.progress.answered();
    }

    /// Returns the row, unpacked.
    pub fn unpacked(&self) -> Broadcast
        ensures { broadcast_row_of result ≡ packed_row_of self.now }
    {
        Broadcast {
            minute: self.minute.minute(),
            subject: subject_in(self.block, self.line),
            action: self.action,
            routing: routing_at(self.routing),
            is_open: self.progress.is_open(),
            is_acknowledged: self.progress.is_acknowledged(),
        }
    }
}
