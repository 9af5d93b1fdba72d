//! Rows of queries, with their keys.
ghost use Rattle.std.specs.Prelude.{◌≡◌, ◌<◌, option_map};
ghost use Rattle.version.specs.Abstraction.{windows_of};
ghost use Rattle.sql_rows.specs.Content.{windows_in};

use crate::from_row::FromRow;
use crate::reading::{
    action_at, block_at, bool_at, code_at, lrn_at, minute_at, number_at, number_or_null_at,
    only_at, routing_at, set_number_at, spid_at, subject_at, window_at,
};
use delivery::Broadcast;
use numbers::{BlockId, CodeId, Lrn, Minute, Routing, Spid, Subject};
use settle::{BlockRow, BroadcastKey, WaitKey};
use sqlite::Row;
use windows::{WindowSet, Windows};

impl FromRow for Spid {
    ghost use Rattle.std.specs.Prelude.{ℕ};
    ghost use Rattle.settle.specs.Abstraction.{spid_of};
    ghost use Rattle.sql_rows.specs.Content.{carrier_in};

    ghost Seen = { ℕ × Unit {0} };

    ghost seen = { λ c. (spid_of c, tt) };

    ghost seen_in = { carrier_in };

    fn read(row: &Row) -> Option<Spid> {
        spid_at(row, 0)
    }
}

// A routing number, and the carrier that registered it.
impl FromRow for (Lrn, Spid) {
    ghost use Rattle.std.specs.Prelude.{ℕ};
    ghost use Rattle.settle.specs.Abstraction.{lrn_of, spid_of};
    ghost use Rattle.sql_rows.specs.Content.{keyed, lrn_row_in};

    ghost Seen = { ℕ × ℕ };

    ghost seen = { keyed lrn_of spid_of };

    ghost seen_in = { lrn_row_in };

    fn read(row: &Row) -> Option<(Lrn, Spid)> {
        Some((lrn_at(row, 0)?, spid_at(row, 1)?))
    }
}

// A code, and its holder.
impl FromRow for (CodeId, Spid) {
    ghost use Rattle.std.specs.Prelude.{ℕ};
    ghost use Rattle.settle.specs.Abstraction.{code_of, spid_of};
    ghost use Rattle.sql_rows.specs.Content.{code_row_in, keyed};

    ghost Seen = { ℕ × ℕ };

    ghost seen = { keyed code_of spid_of };

    ghost seen_in = { code_row_in };

    fn read(row: &Row) -> Option<(CodeId, Spid)> {
        Some((code_at(row, 0)?, spid_at(row, 1)?))
    }
}

// A donated block, and its row.
impl FromRow for (BlockId, BlockRow) {
    ghost use Rattle.std.specs.Prelude.{ℕ};
    ghost use Rattle.model.specs.Content.{BlockRow as BlockModel};
    ghost use Rattle.settle.specs.Abstraction.{block_of, block_row_of};
    ghost use Rattle.sql_rows.specs.Content.{block_row_in, keyed};

    ghost Seen = { ℕ × BlockModel };

    ghost seen = { keyed block_of block_row_of };

    ghost seen_in = { block_row_in };

    fn read(row: &Row) -> Option<(BlockId, BlockRow)> {
        let block = block_at(row, 0)?;
        Some((
            block,
            BlockRow {
                donor: spid_at(row, 1)?,
                last: number_or_null_at(row, 2)?,
            },
        ))
    }
}

// A broadcast, and its key.
impl FromRow for (BroadcastKey, Broadcast) {
    ghost use Rattle.model.specs.Content.{BroadcastKey as KeyModel, BroadcastRow as BroadcastModel};
    ghost use Rattle.settle.specs.Abstraction.{broadcast_key_of, broadcast_row_of};
    ghost use Rattle.sql_rows.specs.Content.{broadcast_in, keyed};

    ghost Seen = { KeyModel × BroadcastModel };

    ghost seen = { keyed broadcast_key_of broadcast_row_of };

    ghost seen_in = { broadcast_in };

    fn read(row: &Row) -> Option<(BroadcastKey, Broadcast)> {
        let key = BroadcastKey {
            id: number_at(row, 0)?,
            attempt: number_at(row, 1)?,
        };
        Some((
            key,
            Broadcast {
                minute: minute_at(row, 2)?,
                subject: subject_at(row, 3)?,
                action: action_at(row, 4)?,
                routing: routing_at(row, 5, 6)?,
                is_open: bool_at(row, 7)?,
                is_acknowledged: bool_at(row, 8)?,
            },
        ))
    }
}

// A pending download, and its subject.
impl FromRow for (WaitKey, Subject) {
    ghost use Rattle.model.specs.Content.{WaitKey as KeyModel};
    ghost use Rattle.numbers.specs.Subjects.{Subject as SubjectModel};
    ghost use Rattle.numbers.specs.Abstraction.{subject_of};
    ghost use Rattle.settle.specs.Abstraction.{wait_key_of};
    ghost use Rattle.sql_rows.specs.Content.{keyed, wait_in};

    ghost Seen = { KeyModel × SubjectModel };

    ghost seen = { keyed wait_key_of subject_of };

    ghost seen_in = { wait_in };

    fn read(row: &Row) -> Option<(WaitKey, Subject)> {
        let key = WaitKey {
            carrier: spid_at(row, 0)?,
            minute: minute_at(row, 1)?,
            id: number_at(row, 2)?,
            attempt: number_at(row, 3)?,
        };
        Some((key, subject_at(row, 4)?))
    }
}

// A version's id, and the routing that the version is sending.
impl FromRow for (u64, Routing) {
    ghost use Rattle.std.specs.Prelude.{ℕ};
    ghost use Rattle.numbers.specs.Routings.{Routing as RoutingModel};
    ghost use Rattle.numbers.specs.Abstraction.{routing_of};
    ghost use Rattle.sql_rows.specs.Content.{keyed, next_row_in};

    ghost Seen = { ℕ × RoutingModel };

    ghost seen = { keyed (λ id. id) routing_of };

    ghost seen_in = { next_row_in };

    fn read(row: &Row) -> Option<(u64, Routing)> {
        let id = number_at(row, 0)?;
        match routing_at(row, 1, 2)? {
            Some(routing) => Some((id, routing)),
            None => None,
        }
    }
}

impl FromRow for WindowSet {
    ghost use Rattle.std.specs.Prelude.{ℕ};
    ghost use Rattle.model.specs.Windows.{Windows as WindowsModel};
    ghost use Rattle.version.specs.Abstraction.{windows_of};
    ghost use Rattle.sql_rows.specs.Content.{set_in};

    ghost Seen = { ℕ × WindowsModel };

    ghost seen = { λ s. (s.number, windows_of s.windows) };

    ghost seen_in = { set_in };

    fn read(row: &Row) -> Option<WindowSet> {
        Some(WindowSet {
            number: set_number_at(row, 0)?,
            windows: windows_at(row, 1)?,
        })
    }
}

/// The clock's row as stored, with only the number of the current set of windows.
#[derive(Clone, Copy, Debug, PartialEq, Eq)]
pub struct StoredClock {
    pub minute: Minute,
    pub next_id: u64,
    pub present: u16,
}

// The number of the clock's row, and the row.
impl FromRow for (u64, StoredClock) {
    ghost use Rattle.std.specs.Prelude.{ℕ};
    ghost use Rattle.sql_rows.specs.Clocks.{StoredClock as ClockModel, clock_of};
    ghost use Rattle.sql_rows.specs.Content.{clock_in, keyed};

    ghost Seen = { ℕ × ClockModel };

    ghost seen = { keyed (λ number. number) clock_of };

    ghost seen_in = { clock_in };

    fn read(row: &Row) -> Option<(u64, StoredClock)> {
        let number = only_at(row, 0)?;
        Some((
            number,
            StoredClock {
                minute: minute_at(row, 1)?,
                next_id: number_at(row, 2)?,
                present: set_number_at(row, 3)?,
            },
        ))
    }
}

/// The clock's row in an earlier schema, which has the nine windows.
#[derive(Clone, Copy, Debug, PartialEq, Eq)]
pub struct OldClock {
    pub number: u64,
    pub minute: Minute,
    pub next_id: u64,
    pub windows: Windows,
}

impl FromRow for OldClock {
    ghost use Rattle.std.specs.Prelude.{ℕ};
    ghost use Rattle.model.specs.Content.{ClockRow as ClockModel};
    ghost use Rattle.sql_rows.specs.Clocks.{old_clock_of};
    ghost use Rattle.sql_rows.specs.Content.{old_clock_in};

    ghost Seen = { ℕ × ClockModel };

    ghost seen = { λ c. (c.number, old_clock_of c) };

    ghost seen_in = { old_clock_in };

    fn read(row: &Row) -> Option<OldClock> {
        Some(OldClock {
            number: only_at(row, 0)?,
            minute: minute_at(row, 1)?,
            next_id: number_at(row, 2)?,
            windows: windows_at(row, 3)?,
        })
    }
}

// Reads the nine windows in the columns from `first` on.
fn windows_at(row: &Row, first: usize) -> Option<Windows>
    requires { first < 100 }
    ensures { option_map windows_of result ≡ windows_in first row.now }
{
    Some(Windows {
        initial_concurrence: window_at(row, first)?,
        final_concurrence: window_at(row, first + 1)?,
        conflict_restriction: window_at(row, first + 2)?,
        conflict_resolution: window_at(row, first + 3)?,
        conflict_expiration: window_at(row, first + 4)?,
        cancellation_initial: window_at(row, first + 5)?,
        cancellation_final: window_at(row, first + 6)?,
        pending_retention: window_at(row, first + 7)?,
        broadcast: window_at(row, first + 8)?,
    })
}
