//! The tables and indexes of a register's file, as values, and the check of a schema against them.
//!
//! A schema is a list of steps: the first version, and what each later version added. A table keeps
//! its place once it is created, so the trees keep their numbers.
ghost use Rattle.std.specs.Prelude.{◌≡◌, map, ◌++◌, IsTrue, IfSome};
ghost use Rattle.sqlite_value.specs.Keys.{plain};
ghost use Rattle.sql_rows.specs.Tables.{a_table, the_schema};
ghost use Rattle.sql_rows.specs.Migration.{schema_of};
ghost use Rattle.sql_store.specs.Wanted.{column_of, table_of, index_of, tables_of, indexes_of, schema_by};

use sql_rows::SchemaVersion;
use sqlite_items::Items;
use sqlite_schema::schema::{Column, Index, Kind, Schema, Table};
use sqlite_value::keys::{Collation, Order};
use sqlite_value::value::Value;

/// A column that a table must have.
#[derive(Clone, Copy)]
pub(crate) struct WantedColumn<'a> {
    name: &'a [u8],
    kind: Kind,
    not_null: bool,
}

/// A table that a file must have, with no rules but its keys.
#[derive(Clone, Copy)]
pub(crate) struct WantedTable<'a> {
    tree: u32,
    name: &'a [u8],
    /// The column that is the row's number, if there is one.
    key: Option<usize>,
    primary: &'a [usize],
    uniques: &'a [&'a [usize]],
    columns: &'a [WantedColumn<'a>],
}

/// An index that a file must have.
#[derive(Clone, Copy)]
pub(crate) struct WantedIndex<'a> {
    tree: u32,
    name: &'a [u8],
    table: u32,
    columns: &'a [usize],
    is_unique: bool,
}

/// The tables and indexes that a schema version adds to the version before.
#[derive(Clone, Copy)]
pub(crate) struct Added<'a> {
    tables: &'a [WantedTable<'a>],
    indexes: &'a [WantedIndex<'a>],
}

macro_rules! number {
    ($name:literal) => {
        WantedColumn {
            name: $name,
            kind: Kind::Integer,
            not_null: true,
        }
    };
}

macro_rules! number_or_null {
    ($name:literal) => {
        WantedColumn {
            name: $name,
            kind: Kind::Integer,
            not_null: false,
        }
    };
}

macro_rules! text {
    ($name:literal) => {
        WantedColumn {
            name: $name,
            kind: Kind::Text,
            not_null: true,
        }
    };
}

macro_rules! text_or_null {
    ($name:literal) => {
        WantedColumn {
            name: $name,
            kind: Kind::Text,
            not_null: false,
        }
    };
}

// A table whose first column is the row's number.
macro_rules! numbered {
    ($tree:literal, $name:literal, $uniques:expr, $columns:expr) => {
        WantedTable {
            tree: $tree,
            name: $name,
            key: Some(0),
            primary: &[0],
            uniques: $uniques,
            columns: $columns,
        }
    };
}

// A table with a key of its first columns.
macro_rules! keyed {
    ($tree:literal, $name:literal, $key:expr, $columns:expr) => {
        WantedTable {
            tree: $tree,
            name: $name,
            key: None,
            primary: $key,
            uniques: &[$key],
            columns: $columns,
        }
    };
}

macro_rules! unique {
    ($tree:literal, $name:literal, $table:literal, $columns:expr) => {
        WantedIndex {
            tree: $tree,
            name: $name,
            table: $table,
            columns: $columns,
            is_unique: true,
        }
    };
}

macro_rules! rising {
    ($tree:literal, $name:literal, $table:literal, $columns:expr) => {
        WantedIndex {
            tree: $tree,
            name: $name,
            table: $table,
            columns: $columns,
            is_unique: false,
        }
    };
}

// The columns of the clock's row or of a set: these, then the nine windows.
macro_rules! with_windows {
    ($($column:expr),*) => {
        &[
            $($column,)*
            number!(b"initial_concurrence"),
            number!(b"final_concurrence"),
            number!(b"conflict_restriction"),
            number!(b"conflict_resolution"),
            number!(b"conflict_expiration"),
            number!(b"cancellation_initial"),
            number!(b"cancellation_final"),
            number!(b"pending_retention"),
            number!(b"broadcast"),
        ]
    };
}

// The columns of a version, then these.
macro_rules! of_version {
    ($($column:expr),*) => {
        &[
            number_or_null!(b"id"),
            number!(b"subject"),
            text!(b"old"),
            text!(b"new"),
            number!(b"due"),
            number_or_null!(b"lrn"),
            number_or_null!(b"cic"),
            number_or_null!(b"old_at"),
            number_or_null!(b"new_at"),
            text!(b"status"),
            text!(b"sends"),
            number!(b"since"),
            number!(b"attempt"),
            number_or_null!(b"release"),
            number!(b"spent"),
            number!(b"protective"),
            text_or_null!(b"cancelled_by"),
            number_or_null!(b"deadline"),
            number!(b"holds"),
            number!(b"opens"),
            $($column,)*
        ]
    };
}

/// The first schema version, before modify.
const FIRST: Added<'static> = Added {
    tables: &[
        keyed!(0, b"carrier", &[1], &[text!(b"spid")]),
        numbered!(2, b"lrn", &[], &[number_or_null!(b"lrn"), text!(b"spid")]),
        numbered!(3, b"code", &[], &[number_or_null!(b"code"), text!(b"spid")]),
        numbered!(
            4,
            b"block",
            &[],
            &[
                number_or_null!(b"block"),
                text!(b"donor"),
                number_or_null!(b"last"),
            ]
        ),
        numbered!(5, b"version", &[&[19], &[20]], of_version!()),
        keyed!(
            8,
            b"broadcast",
            &[1, 2],
            &[
                number!(b"id"),
                number!(b"attempt"),
                number!(b"minute"),
                number!(b"subject"),
                text!(b"action"),
                number_or_null!(b"lrn"),
                number_or_null!(b"cic"),
                number!(b"open"),
                number!(b"any"),
            ]
        ),
        keyed!(
            10,
            b"wait",
            &[1, 2, 3, 4],
            &[
                text!(b"spid"),
                number!(b"minute"),
                number!(b"id"),
                number!(b"attempt"),
                number!(b"subject"),
            ]
        ),
        numbered!(
            12,
            b"clock",
            &[],
            with_windows!(
                number_or_null!(b"one"),
                number!(b"now"),
                number!(b"next_id")
            )
        ),
    ],
    indexes: &[
        unique!(1, b"sqlite_autoindex_carrier_1", 0, &[1]),
        unique!(6, b"sqlite_autoindex_version_1", 5, &[19]),
        unique!(7, b"sqlite_autoindex_version_2", 5, &[20]),
        unique!(9, b"sqlite_autoindex_broadcast_1", 8, &[1, 2]),
        unique!(11, b"sqlite_autoindex_wait_1", 10, &[1, 2, 3, 4]),
        rising!(13, b"version_deadline", 5, &[18]),
        rising!(14, b"wait_subject", 10, &[5, 1]),
        rising!(15, b"wait_broadcast", 10, &[3, 4]),
    ],
};

/// The step to modify: the routing of a version that sends a modify.
const MODIFY: Added<'static> = Added {
    tables: &[numbered!(
        16,
        b"next_routing",
        &[],
        &[
            number_or_null!(b"id"),
            number!(b"lrn"),
            number_or_null!(b"cic"),
        ]
    )],
    indexes: &[],
};

/// The step to the present schema: sets of windows, and the set of the clock and of each version.
/// The tables `version` and `clock` of the first version have no rows in it.
const SETS: Added<'static> = Added {
    tables: &[
        numbered!(
            17,
            b"window_set",
            &[],
            with_windows!(number_or_null!(b"number"))
        ),
        numbered!(
            18,
            b"version2",
            &[&[19], &[20]],
            of_version!(number!(b"held"))
        ),
        numbered!(
            21,
            b"clock2",
            &[],
            &[
                number_or_null!(b"one"),
                number!(b"now"),
                number!(b"next_id"),
                number!(b"present"),
            ]
        ),
    ],
    indexes: &[
        unique!(19, b"sqlite_autoindex_version2_1", 18, &[19]),
        unique!(20, b"sqlite_autoindex_version2_2", 18, &[20]),
        rising!(22, b"version2_deadline", 18, &[18]),
    ],
};

fn is_plain(order: &Order) -> bool
    ensures { IsTrue result → order.now ≡ plain }
{
    order.digits == 0
}

fn are_places(places: &Items<usize>, wanted: &[usize]) -> bool
    ensures { IsTrue result → places.now ≡ wanted.now }
{
    places.as_slice() == wanted
}

// Returns whether the unique keys have these columns, in ascending order.
fn are_keys(keys: &[Items<usize>], orders: &[Order], wanted: &[&[usize]]) -> bool
    ensures keys { IsTrue result → keys.now ≡ map (λ places. places.now) wanted.now }
    ensures orders { IsTrue result → orders.now ≡ map (λ places. plain) wanted.now }
{
    match (keys, orders, wanted) {
        ([], [], []) => true,
        ([key, keys @ ..], [order, orders @ ..], [first, wanted @ ..]) => are_places(key, first)
            && is_plain(order)
            && are_keys(keys, orders, wanted),
        _ => false,
    }
}

// Returns whether a table has no rules but its keys.
fn has_no_rules(table: &Table) -> bool
    ensures { IsTrue result → table.now ≡ a_table table.now.tree table.now.name
        table.now.columns table.now.key table.now.primary table.now.uniques table.now.orders }
{
    table.checks.roots.is_empty()
        && table.references.is_empty()
        && table.computed.is_empty()
        && table.stamps.places.is_empty()
        && table.stamps.terms.roots.is_empty()
        && table.stamps.formats.is_empty()
        && !table.is_counted
}

// A table, index or column that a file must have, as its schema lists it.
trait Wanted<T> {
    ghost listed: { Self → T };

    fn is(&self, item: &T) -> bool
        ensures { IsTrue result → item.now ≡ listed self.now };
}

impl Wanted<Column> for WantedColumn<'_> {
    ghost listed = { column_of };

    fn is(&self, column: &Column) -> bool {
        column.name.as_slice() == self.name
            && column.kind == self.kind
            && column.is_strict
            && column.not_null == self.not_null
            && matches!(column.default, Value::Null)
            && matches!(column.collation, Collation::Binary)
    }
}

// Returns the items after these in the schema's list, if it begins with them.
fn behind<'a, T, W: Wanted<T>>(listed: &'a [T], wanted: &[W]) -> Option<&'a [T]>
    ensures { IfSome result (λ more. listed.now ≡ map W.listed wanted.now ++ more.now) }
{
    match (listed, wanted) {
        (more, []) => Some(more),
        ([item, listed @ ..], [first, wanted @ ..]) => {
            if first.is(item) {
                behind(listed, wanted)
            } else {
                None
            }
        }
        _ => None,
    }
}

fn are_columns(columns: &[Column], wanted: &[WantedColumn<'_>]) -> bool
    ensures { IsTrue result → columns.now ≡ map column_of wanted.now }
{
    matches!(behind(columns, wanted), Some([]))
}

impl Wanted<Table> for WantedTable<'_> {
    ghost listed = { table_of };

    fn is(&self, table: &Table) -> bool {
        table.tree == self.tree
            && table.name.as_slice() == self.name
            && table.key == self.key
            && table.primary.as_slice() == self.primary
            && are_keys(
                table.uniques.as_slice(),
                table.orders.as_slice(),
                self.uniques,
            )
            && are_columns(table.columns.as_slice(), self.columns)
            && has_no_rules(table)
    }
}

impl Wanted<Index> for WantedIndex<'_> {
    ghost listed = { index_of };

    fn is(&self, index: &Index) -> bool {
        index.name.as_slice() == self.name
            && index.tree == self.tree
            && index.table == self.table
            && index.columns.as_slice() == self.columns
            && is_plain(&index.order)
            && index.is_unique == self.is_unique
    }
}

// Returns whether these are the tables and indexes of all steps.
fn are_of(tables: &[Table], indexes: &[Index], steps: &[Added<'_>]) -> bool
    ensures tables { IsTrue result → tables.now ≡ tables_of steps.now }
    ensures indexes { IsTrue result → indexes.now ≡ indexes_of steps.now }
{
    let [first, steps @ ..] = steps else {
        return tables.is_empty() && indexes.is_empty();
    };
    match (behind(tables, first.tables), behind(indexes, first.indexes)) {
        (Some(tables), Some(indexes)) => are_of(tables, indexes, steps),
        _ => false,
    }
}

fn is_by(schema: &Schema, steps: &[Added<'_>]) -> bool
    ensures { IsTrue result → schema.now ≡ schema_by steps.now }
{
    are_of(schema.tables.as_slice(), schema.indexes.as_slice(), steps) && schema.views.is_empty()
}

/// Returns whether the schema is the present one of a register's file.
pub(crate) fn is_ours(schema: &Schema) -> bool
    ensures { IsTrue result → schema.now ≡ the_schema }
{
    is_by(schema, &[FIRST, MODIFY, SETS])
}

/// Returns the earlier schema version that this schema has, if it is one.
pub(crate) fn schema_version_of(schema: &Schema) -> Option<SchemaVersion>
    ensures { IfSome result (λ f. schema.now ≡ schema_of f) }
{
    if is_by(schema, &[FIRST]) {
        Some(SchemaVersion::First)
    } else if is_by(schema, &[FIRST, MODIFY]) {
        Some(SchemaVersion::Modify)
    } else {
        None
    }
}
