//! Reads everything in force.
ghost use Rattle.std.specs.Prelude.{◌≡◌, false, IsTrue, IfOk, is_ok, map, option_map};
ghost use Rattle.std.specs.List.{filter_map};
ghost use Rattle.std.specs.List.Sorted.{IsPermutation, IsStrictlySortedBy};
ghost use Rattle.std.specs.Ordering.{nat_cmp, on};
ghost use Rattle.sqlite.specs.Held.{state};
ghost use Rattle.numbers.specs.Abstraction.{key_of};
ghost use Rattle.settle.specs.Reads.{AreInForce};
ghost use Rattle.sql_store.specs.Routed.{routed_in, routed_model};
ghost use Rattle.sql_store.specs.Store.{HasStoreTables, HasQueried, content_at};

use crate::database::Database;
use crate::select::find_all;
use delivery::RoutedRow;
use settle::{NumberedRow, VersionRow};
use sql_rows::{Fault, Query, number};
use sqlite::Alter;
use std::alloc::Global;

// The greatest number that a column holds; above the number of each subject.
const HIGHEST: u64 = 9_223_372_036_854_775_807;

// Returns the routing of the version's subject, if the version is in force and has one.
fn routed(row: &VersionRow) -> Option<RoutedRow>
    ensures { option_map routed_model result ≡ routed_in row.now }
{
    Some(RoutedRow {
        subject: row.holds()?,
        routing: row.version.routing?,
    })
}

fn routed_rows(alloc: Global, found: &[NumberedRow]) -> Result<Vec<RoutedRow>, Fault>
    ensures { IfOk result (λ rows.
        map routed_model rows.items ≡ filter_map (λ v. routed_in v.row) found.now) }
{
    let mut rows = Vec::new(alloc);
    for version in found {
        if let Some(row) = routed(&version.row) {
            rows.push(row)?;
        }
    }
    Ok(rows)
}

fn put_in_order_by_subject(rows: &mut Vec<RoutedRow>)
    ensures { IsPermutation rows.old.items rows.new.items }
{
    rows.sort_unstable_by_key(|row| row.subject);
}

fn rise(rows: &[RoutedRow]) -> bool
    ensures { IsTrue result → IsStrictlySortedBy (on (λ r. key_of r.subject) nat_cmp) rows.now }
{
    let mut at = 1;
    while at < rows.len() {
        if rows[at - 1].subject >= rows[at].subject {
            return false;
        }
        at += 1;
    }
    true
}

/// Returns every version in force that has a routing, ordered by subject.
pub(crate) fn in_force<S: Alter>(db: &mut Database<S>) -> Result<Vec<RoutedRow>, Fault>
    ensures value { IsTrue (state S.Store db.new.conn).is_open
        → IfOk result (λ rows. AreInForce (content_at (state S.Store db.old.conn)) rows.items) }
    ensures queried { HasQueried (state S.Store db.old.conn) (state S.Store db.new.conn) (is_ok result) }
{
    let params = [number(0), number(HIGHEST)];
    let found: Vec<NumberedRow> = find_all(db, Query::InForceAmong, &params)?;
    let mut rows = routed_rows(*found.allocator(), found.as_slice())?;
    put_in_order_by_subject(&mut rows);
    if !rise(rows.as_slice()) {
        return Err(Fault::Device);
    }
    Ok(rows)
}
