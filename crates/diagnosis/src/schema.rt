//! Finds the first part of a schema that departs from a register's.
use crate::cause::{Cause, Departure, Part};
use crate::reason::Reason;
use sqlite_schema::schema::{Column, Index, Schema, Table, View};
use std::alloc::{AllocError, Global};

// A part of a schema with a name.
trait Named {
    fn name(&self) -> &[u8];

    // Returns whether another part of this name has the same type and rules.
    fn is_like(&self, other: &Self) -> bool;
}

impl Named for Column {
    fn name(&self) -> &[u8] {
        self.name.as_slice()
    }

    fn is_like(&self, other: &Column) -> bool {
        self.kind == other.kind
            && self.is_strict == other.is_strict
            && self.not_null == other.not_null
    }
}

impl Named for Index {
    fn name(&self) -> &[u8] {
        self.name.as_slice()
    }

    fn is_like(&self, other: &Index) -> bool {
        self.columns.as_slice() == other.columns.as_slice() && self.is_unique == other.is_unique
    }
}

impl Named for Table {
    fn name(&self) -> &[u8] {
        self.name.as_slice()
    }

    fn is_like(&self, other: &Table) -> bool {
        self.key == other.key
            && self.primary.as_slice() == other.primary.as_slice()
            && self.uniques.len() == other.uniques.len()
            && self.checks.roots.len() == other.checks.roots.len()
            && self.references.len() == other.references.len()
            && self.is_counted == other.is_counted
    }
}

// Returns the part of this name.
fn part_named<'a, T: Named>(parts: &'a [T], name: &[u8]) -> Option<&'a T> {
    parts.iter().find(|part| part.name() == name)
}

// Returns the first part that has no namesake among the others.
fn unmatched<'a, T: Named>(parts: &'a [T], others: &[T]) -> Option<&'a T> {
    parts
        .iter()
        .find(|part| part_named(others, part.name()).is_none())
}

// Returns the first part that is not like its namesake among the others.
fn unlike<'a, T: Named>(parts: &'a [T], others: &[T]) -> Option<&'a T> {
    parts.iter().find(|part| match part_named(others, part.name()) {
        Some(other) => !part.is_like(other),
        None => false,
    })
}

// Returns the first departure of named parts from those that are wanted.
fn departure_among<'a, T: Named>(
    listed: &'a [T],
    wanted: &'a [T],
) -> Option<(Departure, &'a [u8])> {
    if let Some(part) = unmatched(wanted, listed) {
        return Some((Departure::Missing, part.name()));
    }
    if let Some(part) = unmatched(listed, wanted) {
        return Some((Departure::Added, part.name()));
    }
    let part = unlike(listed, wanted)?;
    Some((Departure::Changed, part.name()))
}

// Returns a name as text.
fn text_of(alloc: Global, name: &[u8]) -> Result<String, AllocError> {
    let mut text = String::new(alloc);
    text.push_str(str::from_utf8(name).unwrap_or("?"))?;
    Ok(text)
}

// Returns the departure of a part as a cause.
fn cause_of(
    alloc: Global,
    part: Part,
    departure: Departure,
    name: &[u8],
) -> Result<Cause, AllocError> {
    Ok(Cause::Schema {
        departure,
        part,
        name: text_of(alloc, name)?,
    })
}

// Returns the first departure of the columns of a table from those that are wanted.
fn column_cause(
    alloc: Global,
    listed: &Table,
    wanted: &Table,
) -> Result<Option<Cause>, AllocError> {
    let found = departure_among(listed.columns.as_slice(), wanted.columns.as_slice());
    let Some((departure, column)) = found else {
        return Ok(None);
    };
    let mut name = text_of(alloc, wanted.name())?;
    name.push_str(".")?;
    name.push_str(str::from_utf8(column).unwrap_or("?"))?;
    Ok(Some(Cause::Schema {
        departure,
        part: Part::Column,
        name,
    }))
}

// Returns the first departure of the columns of tables from those that are wanted.
fn columns_cause(
    alloc: Global,
    listed: &[Table],
    wanted: &[Table],
) -> Result<Option<Cause>, AllocError> {
    for table in wanted {
        if let Some(found) = part_named(listed, table.name()) {
            if let Some(cause) = column_cause(alloc, found, table)? {
                return Ok(Some(cause));
            }
        }
    }
    Ok(None)
}

// Returns the first departure of parts, if there is one, as a cause.
fn parts_cause<T: Named>(
    alloc: Global,
    part: Part,
    listed: &[T],
    wanted: &[T],
) -> Result<Option<Cause>, AllocError> {
    match departure_among(listed, wanted) {
        Some((departure, name)) => Ok(Some(cause_of(alloc, part, departure, name)?)),
        None => Ok(None),
    }
}

// Returns the first departure of a schema that has only tables and indexes.
fn listed_cause(
    alloc: Global,
    listed: &Schema,
    wanted: &Schema,
) -> Result<Option<Cause>, AllocError> {
    let tables = listed.tables.as_slice();
    let wanted_tables = wanted.tables.as_slice();
    if let Some(cause) = columns_cause(alloc, tables, wanted_tables)? {
        return Ok(Some(cause));
    }
    if let Some(cause) = parts_cause(alloc, Part::Table, tables, wanted_tables)? {
        return Ok(Some(cause));
    }
    parts_cause(
        alloc,
        Part::Index,
        listed.indexes.as_slice(),
        wanted.indexes.as_slice(),
    )
}

// Returns whether a table of the present format is among these.
fn has_present_table(tables: &[Table]) -> bool {
    part_named(tables, b"version2").is_some()
        || part_named(tables, b"clock2").is_some()
        || part_named(tables, b"window_set").is_some()
}

// Returns whether the tables are those of an earlier format, by their names.
fn are_earlier(tables: &[Table]) -> bool {
    part_named(tables, b"version").is_some()
        && part_named(tables, b"clock").is_some()
        && !has_present_table(tables)
}

// Returns the first part that is neither a table nor an index, rather than a table that it binds.
fn foreign_part(views: &[View]) -> Option<&View> {
    match views.iter().find(|view| !view.is_bound) {
        Some(view) => Some(view),
        None => views.first(),
    }
}

/// Returns the first departure of a schema from the one that is wanted.
pub(crate) fn schema_cause(
    alloc: Global,
    listed: &Schema,
    wanted: &Schema,
) -> Result<Option<Cause>, AllocError> {
    if let Some(view) = foreign_part(listed.views.as_slice()) {
        let cause = cause_of(alloc, Part::Other, Departure::Added, view.name.as_slice())?;
        return Ok(Some(cause));
    }
    let tables = listed.tables.as_slice();
    if tables.is_empty() {
        return Ok(Some(Cause::Plain(Reason::Empty)));
    }
    if are_earlier(tables) {
        return Ok(Some(Cause::Plain(Reason::Earlier)));
    }
    listed_cause(alloc, listed, wanted)
}

/// Returns whether the tables have the same places in both files.
pub(crate) fn have_moved(listed: &Schema, wanted: &Schema) -> bool {
    listed.tables.as_slice().iter().any(|table| {
        match part_named(wanted.tables.as_slice(), table.name()) {
            Some(other) => table.tree != other.tree,
            None => false,
        }
    })
}
