//! Finds the numbers of a block that are in use.
ghost use Rattle.std.specs.Prelude.{◌≡◌, IfOk, map, option_map};
ghost use Rattle.std.specs.Ordering.{on, nat_cmp};
ghost use Rattle.std.specs.BTreeMap.{IsOrdered};
ghost use Rattle.std.specs.FinMap.{get};
ghost use Rattle.numbers.specs.Abstraction.{subject_of};
ghost use Rattle.settle.specs.Reads.{AreInBlock};
ghost use Rattle.settle.specs.Abstraction.{block_of};
ghost use Rattle.store.specs.Tables.{content_of, subject_version_of, AreIndexed};
ghost use Rattle.store.specs.BlockRows.{lowest, highest, tn_of, own_number, number_in_force, and_open, marks_of, AreMarks, number_in_use};

use crate::keys::SubjectVersion;
use crate::reads::open_version;
use crate::tables::Tables;
use numbers::{BlockId, Line, Subject, Tn};
use std::alloc::{AllocError, Global};
use std::collections::BTreeMap;
use version::NumberInUse;

/// Whether a number has a version in force and an open one.
#[derive(Clone, Copy)]
pub struct Marks {
    pub is_in_force: bool,
    pub is_open: bool,
}

// Returns the least key that a version of the block's numbers can have.
fn lowest(block: BlockId) -> SubjectVersion
    ensures { subject_version_of result ≡ lowest block.number }
{
    SubjectVersion::of(Subject::Number(block.tn(Line { number: 0 })), 0)
}

// Returns the greatest key that a version of the block's numbers can have.
fn highest(block: BlockId) -> SubjectVersion
    ensures { subject_version_of result ≡ highest block.number }
{
    SubjectVersion::of(Subject::Number(block.tn(Line { number: 999 })), u64::MAX)
}

// Returns the subject's number, if it is a number of the block.
fn own_number(block: BlockId, subject: Subject) -> Option<Tn>
    ensures { option_map tn_of result ≡ own_number block.number (subject_of subject) }
{
    match subject {
        Subject::Number(tn) if tn.block() == block => Some(tn),
        _ => None,
    }
}

// Returns the number of the block that the version with this id holds, if it holds one.
fn number_in_force(tables: &Tables, block: BlockId, id: u64) -> Option<Tn>
    ensures { option_map tn_of result
        ≡ number_in_force block.number (get (content_of tables.now).versions id) }
{
    own_number(block, tables.versions.get(id)?.holds()?)
}

// Returns the marks of a number with an open version added.
fn and_open(known: Option<Marks>) -> Marks
    ensures { result ≡ and_open known }
{
    Marks {
        is_in_force: known.is_some_and(|marks| marks.is_in_force),
        is_open: true,
    }
}

// Returns the marks of each number of the block that is in use.
fn marks_in_use(
    alloc: Global,
    tables: &Tables,
    block: BlockId,
) -> Result<BTreeMap<Tn, Marks>, AllocError>
    requires { AreIndexed tables.now }
    ensures { IfOk result (λ numbers.
        AreMarks (content_of tables.now) block.number (marks_of numbers)) }
{
    let mut numbers = BTreeMap::new(alloc);
    for (key, _) in tables.holds.keys.range(lowest(block)..=highest(block)) {
        if let Some(tn) = number_in_force(tables, block, key.id) {
            let marks = Marks {
                is_in_force: true,
                is_open: false,
            };
            let _ = numbers.insert(tn, marks)?;
        }
    }
    for line in tables.opens.lines_of(block) {
        let tn = block.tn(*line);
        if open_version(tables, Subject::Number(tn)).is_some() {
            let marks = and_open(numbers.get(&tn).copied());
            let _ = numbers.insert(tn, marks)?;
        }
    }
    Ok(numbers)
}

// Returns the numbers with their marks, ascending.
fn ascending(alloc: Global, numbers: &BTreeMap<Tn, Marks>) -> Result<Vec<NumberInUse>, AllocError>
    ensures { IfOk result (λ found. (found.items ≡ map number_in_use numbers.now.entries)
        × IsOrdered (on tn_of nat_cmp) numbers.now) }
{
    let mut found = Vec::new(alloc);
    for (tn, marks) in numbers.iter() {
        found.push(NumberInUse {
            tn: *tn,
            is_in_force: marks.is_in_force,
            is_open: marks.is_open,
        })?;
    }
    Ok(found)
}

/// Returns the numbers of `block` that have a version in force or an open one, ascending, and which
/// of the two each has.
pub fn in_block(
    alloc: Global,
    tables: &Tables,
    block: BlockId,
) -> Result<Vec<NumberInUse>, AllocError>
    requires { AreIndexed tables.now }
    ensures { IfOk result
        (λ numbers. AreInBlock (content_of tables.now) (block_of block) numbers.items) }
{
    let numbers = marks_in_use(alloc, tables, block)?;
    ascending(alloc, &numbers)
}
