//! Finds a row that cannot be read.
ghost use Rattle.std.specs.Prelude.{◌≡◌, is_some};
ghost use Rattle.diagnosis.specs.Readable.{is_readable, table_name};

use crate::cause::Cause;
use crate::reason::Reason;
use delivery::Broadcast;
use numbers::{BlockId, CodeId, Lrn, Routing, Spid, Subject};
use settle::{BlockRow, BroadcastKey, NumberedRow, WaitKey};
use sql_rows::{FromRow, OldClock, OldVersion, StoredClock, Table};
use sqlite::types::ValueRef;
use sqlite::{Alter, Connection, Error, Row, Rows};
use std::alloc::{AllocError, Global};
use windows::WindowSet;

/// The tables of the present format, those of the earlier formats last.
pub(crate) const TABLES: [Table; 12] = [
    Table::Carrier,
    Table::Lrn,
    Table::Code,
    Table::Block,
    Table::Version,
    Table::Broadcast,
    Table::Wait,
    Table::Clock,
    Table::NextRouting,
    Table::WindowSet,
    Table::OldVersion,
    Table::OldClock,
];

/// Returns the name of a table.
pub(crate) fn table_name(table: Table) -> &'static str
    ensures { result.now ≡ table_name table }
{
    match table {
        Table::Carrier => "carrier",
        Table::Lrn => "lrn",
        Table::Code => "code",
        Table::Block => "block",
        Table::OldVersion => "version",
        Table::Broadcast => "broadcast",
        Table::Wait => "wait",
        Table::OldClock => "clock",
        Table::NextRouting => "next_routing",
        Table::WindowSet => "window_set",
        Table::Version => "version2",
        Table::Clock => "clock2",
    }
}

fn reads<T: FromRow + Drop>(row: &Row) -> bool
    ensures { result ≡ is_some (T.seen_in row.now) }
{
    T::read(row).is_some()
}

// Returns whether a row of a table can be read. The present format has no row in a table of an
// earlier one.
fn is_readable(table: Table, row: &Row) -> bool
    ensures { result ≡ is_readable table row.now }
{
    match table {
        Table::Carrier => reads::<Spid>(row),
        Table::Lrn => reads::<(Lrn, Spid)>(row),
        Table::Code => reads::<(CodeId, Spid)>(row),
        Table::Block => reads::<(BlockId, BlockRow)>(row),
        Table::Version => reads::<NumberedRow>(row),
        Table::Broadcast => reads::<(BroadcastKey, Broadcast)>(row),
        Table::Wait => reads::<(WaitKey, Subject)>(row),
        Table::Clock => reads::<(u64, StoredClock)>(row),
        Table::NextRouting => reads::<(u64, Routing)>(row),
        Table::WindowSet => reads::<WindowSet>(row),
        Table::OldVersion | Table::OldClock => false,
    }
}

// Returns the text of a row's first column.
fn key_of(alloc: Global, row: &Row) -> Result<String, AllocError> {
    match row.get_ref(0) {
        Ok(ValueRef::Int(number)) => format!(in alloc; "{number}"),
        Ok(ValueRef::Text(bytes)) => {
            let mut text = String::new(alloc);
            text.push_str(str::from_utf8(bytes).unwrap_or("?"))?;
            Ok(text)
        }
        _ => format!(in alloc; "NULL"),
    }
}

// Returns a row that cannot be read as a cause.
fn cause_of_row(alloc: Global, table: Table, row: &Row) -> Result<Cause, AllocError> {
    let name = table_name(table);
    match table {
        Table::OldVersion | Table::OldClock => Ok(Cause::OldRow { table: name }),
        _ => Ok(Cause::Row {
            table: name,
            key: key_of(alloc, row)?,
        }),
    }
}

// Returns the first of the rows of a table that cannot be read.
fn unread_among<S: Alter>(
    alloc: Global,
    rows: &mut Rows<'_, S>,
    table: Table,
) -> Result<Option<Cause>, Error> {
    for _ in 0..usize::MAX {
        rows.advance()?;
        let Some(row) = rows.get() else {
            return Ok(None);
        };
        if !is_readable(table, row) {
            return Ok(Some(cause_of_row(alloc, table, row)?));
        }
    }
    Ok(None)
}

// Returns the first row of a table that cannot be read.
fn unread_in<S: Alter>(
    alloc: Global,
    conn: &mut Connection<S>,
    table: Table,
) -> Result<Option<Cause>, Error> {
    let mut rows = conn.query(table.all_text(), &[])?;
    unread_among(alloc, &mut rows, table)
}

/// Returns the first row of the present format that cannot be read.
pub(crate) fn unread_row<S: Alter>(
    alloc: Global,
    conn: &mut Connection<S>,
) -> Result<Option<Cause>, Error> {
    for table in TABLES {
        if let Some(cause) = unread_in(alloc, conn, table)? {
            return Ok(Some(cause));
        }
    }
    Ok(None)
}

// Returns the number in the first column of the only row, if there is one.
fn number_in<S: Alter>(
    conn: &mut Connection<S>,
    text: &str,
    params: &[ValueRef<'_>],
) -> Result<Option<i64>, Error> {
    match conn.query_row(text, params) {
        Ok(row) => Ok(Some(row.get(0)?)),
        Err(Error::QueryReturnedNoRows) => Ok(None),
        Err(error) => Err(error),
    }
}

/// Returns why rows that can all be read are refused: the clock's row or its set is missing.
pub(crate) fn reason_of_clock<S: Alter>(conn: &mut Connection<S>) -> Result<Reason, Error> {
    let Some(present) = number_in(conn, "SELECT present FROM clock2", &[])? else {
        return Ok(Reason::NotBegun);
    };
    let text = "SELECT number FROM window_set WHERE number = ?1";
    match number_in(conn, text, &[ValueRef::Int(present)])? {
        Some(_) => Ok(Reason::Unknown),
        None => Ok(Reason::NoSet),
    }
}
