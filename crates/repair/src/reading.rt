//! Reads the rows of a register by the names of its tables, wherever they are in the file.
//!
//! Not proved: that these are the rows of the file, or that a fault has a cause in it. No clause
//! knows what lies at a path.
ghost use Rattle.std.specs.Prelude.{◌≡◌, option_map};
ghost use Rattle.std.specs.BTreeMap.{get};
ghost use Rattle.std.specs.Ordering.{nat_cmp};
ghost use Rattle.numbers.specs.Abstraction.{routing_of, subject_of};
ghost use Rattle.version.specs.Abstraction.{windows_of};
ghost use Rattle.settle.specs.Abstraction.{block_of, block_row_of, broadcast_key_of, broadcast_row_of, code_of, lrn_of, spid_of, wait_key_of};
ghost use Rattle.sql_rows.specs.Versions.{modified_to, rerouted};
ghost use Rattle.repair.specs.Entries.{Block, Broadcast as BroadcastEntry, Carrier, Code, Entry, Lrn as LrnEntry, Wait, WindowSet as SetEntry, entry_of};

use crate::row::{RegisterRow, RegisterRows};
use delivery::Broadcast;
use model::{Send, Status};
use numbers::{BlockId, CodeId, Lrn, Routing, Spid, Subject};
use settle::{BlockRow, BroadcastKey, NumberedRow, StoreFault, VersionRow, WaitKey};
use sql_rows::{Fault, FromRow, StoredClock, Table};
use sqlite::{Alter, Connection, Rows, Unknown};
use std::alloc::Global;
use std::collections::BTreeMap;
use std::fs::File;
use std::io::Read;
use version::Version;
use windows::WindowSet;

// What an SQLite database begins with.
const MAGIC: &[u8; 16] = b"SQLite format 3\0";

// A value read from a row of a table, which is the row.
trait ReadRow: FromRow + Drop {
    ghost entry: { Self → Entry };

    fn into_row(self) -> RegisterRow
        ensures { entry_of result ≡ Self.entry self };
}

impl ReadRow for Spid {
    ghost entry = { λ c. Carrier (spid_of c) };

    fn into_row(self) -> RegisterRow {
        RegisterRow::Carrier(self)
    }
}

impl ReadRow for (Lrn, Spid) {
    ghost entry = { λ p. LrnEntry (lrn_of p.0) (spid_of p.1) };

    fn into_row(self) -> RegisterRow {
        RegisterRow::Lrn(self.0, self.1)
    }
}

impl ReadRow for (CodeId, Spid) {
    ghost entry = { λ p. Code (code_of p.0) (spid_of p.1) };

    fn into_row(self) -> RegisterRow {
        RegisterRow::Code(self.0, self.1)
    }
}

impl ReadRow for (BlockId, BlockRow) {
    ghost entry = { λ p. Block (block_of p.0) (block_row_of p.1) };

    fn into_row(self) -> RegisterRow {
        RegisterRow::Block(self.0, self.1)
    }
}

impl ReadRow for WindowSet {
    ghost entry = { λ s. SetEntry s.number (windows_of s.windows) };

    fn into_row(self) -> RegisterRow {
        RegisterRow::WindowSet(self)
    }
}

impl ReadRow for (BroadcastKey, Broadcast) {
    ghost entry = { λ p. BroadcastEntry (broadcast_key_of p.0) (broadcast_row_of p.1) };

    fn into_row(self) -> RegisterRow {
        RegisterRow::Broadcast(self.0, self.1)
    }
}

impl ReadRow for (WaitKey, Subject) {
    ghost entry = { λ p. Wait (wait_key_of p.0) (subject_of p.1) };

    fn into_row(self) -> RegisterRow {
        RegisterRow::Wait(self.0, self.1)
    }
}

// Returns the next row, if there is one. A row that cannot be read is a fault of the device.
fn next_read<T: FromRow, S: Alter>(rows: &mut Rows<'_, S>) -> Result<Option<T>, Fault> {
    rows.advance()?;
    let Some(row) = rows.get() else {
        return Ok(None);
    };
    match T::read(row) {
        Some(item) => Ok(Some(item)),
        None => Err(Fault::Device),
    }
}

// Appends the rows of a table.
fn read_table<T: ReadRow, S: Alter>(
    conn: &mut Connection<S>,
    table: Table,
    rows: &mut Vec<RegisterRow>,
) -> Result<(), Fault> {
    let mut found = conn.query(table.all_text(), &[])?;
    for _ in 0..usize::MAX {
        let Some(item) = next_read::<T, S>(&mut found)? else {
            return Ok(());
        };
        rows.push(item.into_row())?;
    }
    Err(Fault::Device)
}

// Reads the routings that versions send, by the ids of the versions.
fn read_routings<S: Alter>(
    alloc: Global,
    conn: &mut Connection<S>,
) -> Result<BTreeMap<u64, Routing>, Fault> {
    let mut routings = BTreeMap::new(alloc);
    let mut found = conn.query(Table::NextRouting.all_text(), &[])?;
    for _ in 0..usize::MAX {
        let Some((id, routing)) = next_read::<(u64, Routing), S>(&mut found)? else {
            return Ok(routings);
        };
        routings.insert(id, routing)?;
    }
    Err(Fault::Device)
}

// Returns the version's row as sending a modify to this routing.
fn modified_to(row: VersionRow, routing: Routing) -> VersionRow
    ensures { result ≡ modified_to (routing_of routing) row }
{
    VersionRow {
        version: Version {
            status: Status::from(Send::Modify(routing)),
            ..row.version
        },
        deadline: row.deadline,
        is_in_force: row.is_in_force,
        is_open: row.is_open,
    }
}

// Returns the version with the routing that it sends, which has a table of its own.
fn with_routing(found: NumberedRow, routings: &BTreeMap<u64, Routing>) -> NumberedRow
    ensures id { result.id ≡ found.id }
    ensures row { result.row ≡ rerouted (option_map routing_of (get nat_cmp routings.now found.id)) found.row }
{
    match found.row.version.status {
        Status::SendingModify { .. } => match routings.get(&found.id) {
            Some(routing) => NumberedRow {
                id: found.id,
                row: modified_to(found.row, *routing),
            },
            None => found,
        },
        _ => found,
    }
}

// Appends the versions.
fn read_versions<S: Alter>(
    conn: &mut Connection<S>,
    routings: &BTreeMap<u64, Routing>,
    rows: &mut Vec<RegisterRow>,
) -> Result<(), Fault> {
    let mut found = conn.query(Table::Version.all_text(), &[])?;
    for _ in 0..usize::MAX {
        let Some(version) = next_read::<NumberedRow, S>(&mut found)? else {
            return Ok(());
        };
        rows.push(RegisterRow::Version(with_routing(version, routings)))?;
    }
    Err(Fault::Device)
}

// Reads the only row of the clock's table.
fn read_clock<S: Alter>(conn: &mut Connection<S>) -> Result<StoredClock, Fault> {
    let mut found = conn.query(Table::Clock.all_text(), &[])?;
    let Some((_, clock)) = next_read::<(u64, StoredClock), S>(&mut found)? else {
        return Err(Fault::Device);
    };
    match next_read::<(u64, StoredClock), S>(&mut found)? {
        None => Ok(clock),
        Some(_) => Err(Fault::Device),
    }
}

// Checks that a table of the earlier formats has no row.
fn check_empty<S: Alter>(conn: &mut Connection<S>, table: Table) -> Result<(), Fault> {
    let mut found = conn.query(table.all_text(), &[])?;
    found.advance()?;
    match found.get() {
        None => Ok(()),
        Some(_) => Err(Fault::Device),
    }
}

// Appends the rows of the tables that name no version.
fn read_registry<S: Alter>(
    conn: &mut Connection<S>,
    rows: &mut Vec<RegisterRow>,
) -> Result<(), Fault> {
    read_table::<Spid, S>(conn, Table::Carrier, rows)?;
    read_table::<(Lrn, Spid), S>(conn, Table::Lrn, rows)?;
    read_table::<(CodeId, Spid), S>(conn, Table::Code, rows)?;
    read_table::<(BlockId, BlockRow), S>(conn, Table::Block, rows)?;
    read_table::<WindowSet, S>(conn, Table::WindowSet, rows)
}

// Appends the rows of versions, broadcasts and pending downloads.
fn read_subjects<S: Alter>(
    alloc: Global,
    conn: &mut Connection<S>,
    rows: &mut Vec<RegisterRow>,
) -> Result<(), Fault> {
    let routings = read_routings(alloc, conn)?;
    read_versions(conn, &routings, rows)?;
    read_table::<(BroadcastKey, Broadcast), S>(conn, Table::Broadcast, rows)?;
    read_table::<(WaitKey, Subject), S>(conn, Table::Wait, rows)
}

// Reads all rows of a database, in the order in which they are written.
fn read_rows<S: Alter>(alloc: Global, conn: &mut Connection<S>) -> Result<RegisterRows, Fault> {
    check_empty(conn, Table::OldVersion)?;
    check_empty(conn, Table::OldClock)?;
    let clock = read_clock(conn)?;
    let mut rows = Vec::new(alloc);
    read_registry(conn, &mut rows)?;
    read_subjects(alloc, conn, &mut rows)?;
    rows.sort_unstable_by_key(|row| row.place());
    Ok(RegisterRows {
        minute: clock.minute,
        next_id: clock.next_id,
        present: clock.present,
        rows,
    })
}

// Returns whether a file begins as a database does. Opening any other could make it one.
fn is_database(rt: &HostRuntime, path: &str) -> bool {
    let Ok(mut file) = File::open(rt, path) else {
        return false;
    };
    let mut head = [0; 16];
    matches!(file.read_exact(&mut head), Ok(())) && head == *MAGIC
}

/// Reads all rows of the register in the file at `path`, whose tables have the names and columns of
/// the present format, in any places. Keeps them in memory. Creates no file but the log of an
/// existing one, and changes no row.
///
/// A routing in `next_routing` whose version sends no modify is left out, as are other tables.
///
/// Not proved: that these are the rows of the file.
///
/// # Errors
///
/// - `Storage` if there is no database, another program has it open, a table or a column is missing,
///   a row cannot be read, a table of an earlier format has a row, or the clock's row is missing; or
///   if the device failed.
/// - `NoMemory` if an allocation fails.
pub fn read_file(rt: &HostRuntime, path: &str) -> Result<RegisterRows, StoreFault> {
    if !is_database(rt, path) {
        return Err(StoreFault::Storage);
    }
    match Connection::open_from(rt, path, false, Unknown) {
        Ok(mut conn) => match read_rows(rt.alloc(), &mut conn) {
            Ok(rows) => Ok(rows),
            Err(fault) => Err(StoreFault::from(fault)),
        },
        Err((error, _left)) => Err(StoreFault::from(Fault::from(error))),
    }
}
