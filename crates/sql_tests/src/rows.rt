//! Rows of a register's tables, and the schema of its file, as a text.
use sqlite::types::ValueRef;
use sqlite::{Alter, Connection, Row};
use std::alloc::Global;
use std::io::Write;

/// The schema, and each table in the order of its key.
pub static QUERIES: [&str; 13] = [
    "SELECT type, name, tbl_name, sql FROM sqlite_schema",
    "SELECT * FROM carrier ORDER BY spid",
    "SELECT * FROM lrn ORDER BY lrn",
    "SELECT * FROM code ORDER BY code",
    "SELECT * FROM block ORDER BY block",
    "SELECT * FROM version ORDER BY id",
    "SELECT * FROM broadcast ORDER BY id, attempt",
    "SELECT * FROM wait ORDER BY spid, minute, id, attempt",
    "SELECT * FROM clock ORDER BY one",
    "SELECT * FROM next_routing ORDER BY id",
    "SELECT * FROM window_set ORDER BY number",
    "SELECT * FROM version2 ORDER BY id",
    "SELECT * FROM clock2 ORDER BY one",
];

/// How many of the queries are for the tables of the present format, and of each older one.
pub const FORMATS: [usize; 3] = [13, 10, 9];

fn add_value(value: ValueRef<'_>, text: &mut Vec<u8>) -> Option<()> {
    match value {
        ValueRef::Null => write!(text, "NULL|").ok(),
        ValueRef::Int(number) => write!(text, "{number}|").ok(),
        ValueRef::Real(_) => write!(text, "real|").ok(),
        ValueRef::Text(bytes) => add_bytes(b"'", bytes, text),
        ValueRef::Blob(bytes) => add_bytes(b"x", bytes, text),
    }
}

// Appends a value. Its first byte distinguishes a text from other bytes.
fn add_bytes(tag: &[u8], bytes: &[u8], text: &mut Vec<u8>) -> Option<()> {
    text.extend_from_slice(tag).ok()?;
    text.extend_from_slice(bytes).ok()?;
    text.extend_from_slice(b"|").ok()
}

fn add_row(row: &Row, text: &mut Vec<u8>) -> Option<()> {
    for place in 0..row.column_count() {
        add_value(row.get_ref(place).ok()?, text)?;
    }
    text.extend_from_slice(b"\n").ok()
}

// Appends the result of a query to a text, one line for each row.
fn append_result<S: Alter>(
    conn: &mut Connection<S>,
    query: &str,
    text: &mut Vec<u8>,
) -> Option<()> {
    let rows = conn.query_all(query, &[]).ok()?;
    for row in &rows {
        add_row(row, text)?;
    }
    Some(())
}

/// Returns the result of each of these queries.
pub fn rows_of<S: Alter>(
    alloc: Global,
    conn: &mut Connection<S>,
    queries: &[&str],
) -> Option<Vec<u8>> {
    let mut text = Vec::new(alloc);
    for query in queries {
        text.extend_from_slice(query.as_bytes()).ok()?;
        text.extend_from_slice(b"\n").ok()?;
        append_result(conn, *query, &mut text)?;
    }
    Some(text)
}
