//! Finds the numbers of a block that are in use.
ghost use Rattle.std.specs.Prelude.{◌≡◌, ◌++◌, false, IsTrue, IfOk, is_ok, map, option_map};
ghost use Rattle.std.specs.List.{filter_map};
ghost use Rattle.sqlite.specs.Held.{state};
ghost use Rattle.settle.specs.Reads.{AreInBlock};
ghost use Rattle.settle.specs.Abstraction.{block_of};
ghost use Rattle.sql_store.specs.Blocks.{AreNumbers, is_listed, number_by, number_in_use, number_of_tn, query_by};
ghost use Rattle.sql_store.specs.Store.{HasStoreTables, HasQueried, content_at};

use crate::database::Database;
use crate::order::put_in_order;
use crate::select::find_all;
use numbers::{BlockId, Subject, Tn};
use settle::{NumberedRow, VersionRow};
use sql_rows::{Fault, Query, number};
use sqlite::Alter;
use std::alloc::Global;
use version::NumberInUse;

/// The column that finds a number's version.
#[derive(Clone, Copy)]
enum Role {
    InForce,
    Open,
}

impl Role {
    fn query(self) -> Query
        ensures { result ≡ query_by self }
    {
        match self {
            Role::InForce => Query::InForceAmong,
            Role::Open => Query::OpenAmong,
        }
    }

    fn number(self, row: &VersionRow) -> Option<Tn>
        ensures { option_map number_of_tn result ≡ number_by self row.now }
    {
        let subject = match self {
            Role::InForce => row.holds(),
            Role::Open => row.opens(),
        };
        match subject {
            Some(Subject::Number(tn)) => Some(tn),
            _ => None,
        }
    }
}

fn numbers_of(alloc: Global, role: Role, found: &[NumberedRow]) -> Result<Vec<Tn>, Fault>
    ensures { IfOk result (λ tns.
        map number_of_tn tns.items ≡ filter_map (λ v. number_by role v.row) found.now) }
{
    let mut tns = Vec::new(alloc);
    for version in found {
        if let Some(tn) = role.number(&version.row) {
            tns.push(tn)?;
        }
    }
    Ok(tns)
}

// Returns the numbers of the block that have a version in this role.
fn numbers<S: Alter>(db: &mut Database<S>, role: Role, block: BlockId) -> Result<Vec<Tn>, Fault>
    ensures value { IsTrue (state S.Store db.new.conn).is_open
        → IfOk result (λ tns. AreNumbers (content_at (state S.Store db.old.conn)) role
        (block_of block) tns.items) }
    ensures queried { HasQueried (state S.Store db.old.conn) (state S.Store db.new.conn) (is_ok result) }
{
    let first = u64::from(block.number) * 1000;
    let params = [number(first), number(first + 999)];
    let found: Vec<NumberedRow> = find_all(db, role.query(), &params)?;
    let tns = numbers_of(*found.allocator(), role, found.as_slice())?;
    Ok(tns)
}

fn both(alloc: Global, first: &[Tn], second: &[Tn]) -> Result<Vec<Tn>, Fault>
    ensures { IfOk result (λ tns. tns.items ≡ first.now ++ second.now) }
{
    let mut tns = Vec::new(alloc);
    tns.extend_from_slice(first)?;
    tns.extend_from_slice(second)?;
    Ok(tns)
}

fn is_listed(tns: &[Tn], tn: Tn) -> bool
    ensures { result ≡ is_listed tns.now tn }
{
    tns.iter().any(|listed| listed.number == tn.number)
}

fn in_use(
    alloc: Global,
    tns: &[Tn],
    in_force: &[Tn],
    opened: &[Tn],
) -> Result<Vec<NumberInUse>, Fault>
    ensures { IfOk result (λ numbers.
        numbers.items ≡ map (number_in_use in_force.now opened.now) tns.now) }
{
    let mut numbers = Vec::with_capacity(alloc, tns.len())?;
    for tn in tns {
        numbers.push(NumberInUse {
            tn: *tn,
            is_in_force: is_listed(in_force, *tn),
            is_open: is_listed(opened, *tn),
        })?;
    }
    Ok(numbers)
}

/// Returns the numbers of `block` that have a version in force or an open one, ascending, and which
/// of the two each has. There are at most a thousand.
pub(crate) fn in_block<S: Alter>(
    db: &mut Database<S>,
    block: BlockId,
) -> Result<Vec<NumberInUse>, Fault>
    ensures value { IsTrue (state S.Store db.new.conn).is_open
        → IfOk result (λ numbers. AreInBlock (content_at (state S.Store db.old.conn))
        (block_of block) numbers.items) }
    ensures queried { HasQueried (state S.Store db.old.conn) (state S.Store db.new.conn) (is_ok result) }
{
    let in_force = numbers(db, Role::InForce, block)?;
    let opened = numbers(db, Role::Open, block)?;
    let alloc = *in_force.allocator();
    let mut tns = both(alloc, in_force.as_slice(), opened.as_slice())?;
    put_in_order(&mut tns);
    let numbers = in_use(
        alloc,
        tns.as_slice(),
        in_force.as_slice(),
        opened.as_slice(),
    )?;
    Ok(numbers)
}
