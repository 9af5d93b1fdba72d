//! Parameters of the statements that insert rows. A provider's text is `spid_bytes` of its number.
ghost use Rattle.std.specs.Prelude.{◌≡◌, ◌<◌, ◌≤◌, map, IfSome, IsTrue};
ghost use Rattle.sqlite.specs.Value.{owned};
ghost use Rattle.numbers.specs.Texts.{spid_text};
ghost use Rattle.numbers.specs.Abstraction.{subject_of};
ghost use Rattle.settle.specs.Abstraction.{block_row_of, broadcast_key_of, broadcast_row_of, wait_key_of};
ghost use Rattle.sql_rows.specs.Content.{block_params, broadcast_params, wait_params, clock_params, set_params, next_params, wait_key_params, broadcast_key_params};
ghost use Rattle.numbers.specs.Abstraction.{routing_of};
ghost use Rattle.version.specs.Abstraction.{windows_of};
ghost use Rattle.sql_rows.specs.Clocks.{clock_of};

use crate::keyed::StoredClock;
use crate::values::{action, cic, lrn, minute, number, number_or_null, subject, truth, window};
use delivery::Broadcast;
use numbers::{Routing, Subject};
use settle::{BlockRow, BroadcastKey, WaitKey};
use sqlite::types::ValueRef;
use windows::WindowSet;

/// Returns the columns of a donated block.
pub fn block_params<'a>(block: u64, row: &BlockRow, donor: &'a [u8; 4]) -> [ValueRef<'a>; 3]
    requires small { block < 9223372036854775808 }
    requires last { IfSome row.now.last (λ id. id < 9223372036854775808) }
    requires donor { donor.now ≡ spid_text row.now.donor.number }
    ensures { map owned result ≡ block_params block (block_row_of row.now) }
{
    [
        number(block),
        ValueRef::Text(donor),
        number_or_null(row.last),
    ]
}

/// Returns whether a column can hold the block's last id.
pub fn fits_block(row: &BlockRow) -> bool
    ensures { IsTrue result → IfSome row.now.last (λ id. id < 9223372036854775808) }
{
    match row.last {
        Some(id) => id < 9_223_372_036_854_775_808,
        None => true,
    }
}

/// Returns the columns of a broadcast's key.
pub fn broadcast_key(key: BroadcastKey) -> [ValueRef<'static>; 2]
    requires small { key.id < 9223372036854775808 }
    requires few { key.attempt < 9223372036854775808 }
    ensures { map owned result ≡ broadcast_key_params (broadcast_key_of key) }
{
    [number(key.id), number(key.attempt)]
}

/// Returns the columns of a download's key.
pub fn wait_key<'a>(key: WaitKey, carrier: &'a [u8; 4]) -> [ValueRef<'a>; 4]
    requires small { key.id < 9223372036854775808 }
    requires few { key.attempt < 9223372036854775808 }
    requires carrier { carrier.now ≡ spid_text key.carrier.number }
    ensures { map owned result ≡ wait_key_params (wait_key_of key) }
{
    [
        ValueRef::Text(carrier),
        minute(key.minute),
        number(key.id),
        number(key.attempt),
    ]
}

/// Returns the columns of a broadcast.
pub fn broadcast_params(key: BroadcastKey, broadcast: &Broadcast) -> [ValueRef<'static>; 9]
    requires small { key.id < 9223372036854775808 }
    requires few { key.attempt < 9223372036854775808 }
    ensures { map owned result
        ≡ broadcast_params (broadcast_key_of key) (broadcast_row_of broadcast.now) }
{
    [
        number(key.id),
        number(key.attempt),
        minute(broadcast.minute),
        subject(broadcast.subject),
        action(broadcast.action),
        lrn(broadcast.routing),
        cic(broadcast.routing),
        truth(broadcast.is_open),
        truth(broadcast.is_acknowledged),
    ]
}

/// Returns the columns of a pending download.
pub fn wait_params<'a>(key: WaitKey, of: Subject, carrier: &'a [u8; 4]) -> [ValueRef<'a>; 5]
    requires small { key.id < 9223372036854775808 }
    requires few { key.attempt < 9223372036854775808 }
    requires carrier { carrier.now ≡ spid_text key.carrier.number }
    ensures { map owned result ≡ wait_params (wait_key_of key) (subject_of of) }
{
    [
        ValueRef::Text(carrier),
        minute(key.minute),
        number(key.id),
        number(key.attempt),
        subject(of),
    ]
}

/// Returns the columns of the routing that a version is sending.
pub fn next_params(id: u64, routing: Routing) -> [ValueRef<'static>; 3]
    requires small { id < 9223372036854775808 }
    ensures { map owned result ≡ next_params id (routing_of routing) }
{
    [number(id), lrn(Some(routing)), cic(Some(routing))]
}

/// Returns whether a column can hold this number of a set of windows: 1 to 1,000.
pub fn is_set_number(number: u16) -> bool
    ensures low { IsTrue result → 0 < number }
    ensures high { IsTrue result → number ≤ 1000 }
{
    0 < number && number <= 1000
}

/// Returns the columns of a set of windows.
pub fn set_params(set: &WindowSet) -> [ValueRef<'static>; 10]
    ensures { map owned result ≡ set_params set.now.number (windows_of set.now.windows) }
{
    let windows = &set.windows;
    [
        number(u64::from(set.number)),
        window(windows.initial_concurrence),
        window(windows.final_concurrence),
        window(windows.conflict_restriction),
        window(windows.conflict_resolution),
        window(windows.conflict_expiration),
        window(windows.cancellation_initial),
        window(windows.cancellation_final),
        window(windows.pending_retention),
        window(windows.broadcast),
    ]
}

/// Returns the columns of the clock.
pub fn clock_params(row: &StoredClock) -> [ValueRef<'static>; 4]
    requires few { row.now.next_id < 9223372036854775808 }
    ensures { map owned result ≡ clock_params 0 (clock_of row.now) }
{
    [
        number(0),
        minute(row.minute),
        number(row.next_id),
        number(u64::from(row.present)),
    ]
}
