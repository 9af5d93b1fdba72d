//! What is known of the rows between calls, and the look-ups that it answers.
ghost use Rattle.std.specs.Prelude.{◌≡◌, ◌==◌, false, IsTrue, IfOk, None, Some, is_ok, is_some, option_map};
ghost use Rattle.std.specs.FinMap.{get};
ghost use Rattle.std.specs.Global.{Vec};
ghost use Rattle.std.specs.List.{list_any};
ghost use Rattle.sqlite.specs.Held.{state};
ghost use Rattle.settle.specs.Abstraction.{clock_row_of, spid_of};
ghost use Rattle.settle.specs.Changes.{changes_of, clock_after};
ghost use Rattle.settle.specs.Lists.{items_of};
ghost use Rattle.settle.specs.Settling.{has_come};
ghost use Rattle.settle.specs.Reads.{AreCarriers, IsLeastDue};
ghost use Rattle.sql_store.specs.Kept.{IsKnownAfter, nothing};
ghost use Rattle.sql_store.specs.Store.{HasQueried, content_at};

use crate::database::Database;
use crate::{lists, lookups};
use numbers::{Minute, Spid};
use settle::{Changes, ClockRow, NumberedRow, VersionRow};
use sql_rows::Fault;
use sqlite::Alter;
use std::alloc::{AllocError, Global};
use std::mem;

/// Facts about the rows that most requests ask for. Each is known from its first reading until a
/// commit changes it or a call fails.
#[derive(Drop)]
pub(crate) struct Kept {
    /// The clock's row.
    pub(crate) clock: Option<ClockRow>,
    /// All registered carriers, ascending. A register has at most a hundred.
    pub(crate) carriers: Option<Vec<Spid>>,
    /// A minute at which no deadline has come.
    pub(crate) quiet: Option<Minute>,
}

impl Kept {
    /// Creates facts of which none is known.
    pub(crate) fn none() -> Kept
        ensures { result ≡ nothing }
    {
        Kept {
            clock: None,
            carriers: None,
            quiet: None,
        }
    }

    /// Returns the facts, and forgets them.
    pub(crate) fn take(&mut self) -> Kept
        ensures value { result ≡ self.old }
        ensures after { self.new ≡ nothing }
    {
        mem::replace(self, Kept::none())
    }

    /// Returns the facts that hold after the changes. `row` is the clock's row before them.
    pub(crate) fn after(self, changes: &Changes, row: Option<ClockRow>) -> Kept
        ensures { IsKnownAfter (changes_of changes.now) row self result }
    {
        let Kept {
            clock: _,
            carriers,
            quiet,
        } = self;
        Kept {
            clock: clock_after(changes, row),
            carriers: carriers_after(changes, carriers),
            quiet: quiet_after(changes, quiet),
        }
    }
}

// Returns the clock's row after the changes. `row` is the row before them.
fn clock_after(changes: &Changes, row: Option<ClockRow>) -> Option<ClockRow>
    ensures { option_map clock_row_of result ≡ clock_after (changes_of changes.now).clock
        (changes_of changes.now).set (option_map clock_row_of row) }
{
    match (changes.clock, changes.set) {
        (None, None) => row,
        (Some(moved), Some(set)) => Some(ClockRow {
            minute: moved.minute,
            next_id: moved.next_id,
            present: set,
        }),
        (Some(moved), None) => Some(ClockRow {
            minute: moved.minute,
            next_id: moved.next_id,
            present: row?.present,
        }),
        (None, Some(set)) => Some(ClockRow {
            present: set,
            ..row?
        }),
    }
}

// Returns whether the deadline of the row has come.
fn is_due(row: &VersionRow, now: Minute) -> bool
    ensures { result ≡ has_come row.now.deadline now.number }
{
    match row.deadline {
        None => false,
        Some(deadline) => deadline <= now,
    }
}

// Returns whether the deadline of some row has come.
fn has_due(rows: &[(u64, VersionRow)], now: Minute) -> bool
    ensures { result ≡ list_any (λ p. has_come p.1.deadline now.number) rows.now }
{
    rows.iter().any(|(_, row)| is_due(row, now))
}

// Returns the carriers, if the changes register none.
fn carriers_after(changes: &Changes, carriers: Option<Vec<Spid>>) -> Option<Vec<Spid>>
    ensures { (all : Vec Spid) → result ≡ Some all → (carriers ≡ Some all)
        × (changes.now.carrier ≡ None) }
{
    match changes.carrier {
        None => carriers,
        Some(_) => None,
    }
}

// Returns the minute at which no deadline had come, if none has come in the rows that are written.
fn quiet_after(changes: &Changes, quiet: Option<Minute>) -> Option<Minute>
    ensures { (minute : Minute) → result ≡ Some minute → (quiet ≡ Some minute)
        × (list_any (λ p. has_come p.1.deadline minute.number) (items_of changes.now.versions)
        ≡ false) }
{
    match quiet {
        Some(minute) if !has_due(changes.versions.as_slice(), minute) => Some(minute),
        _ => None,
    }
}

/// Returns the clock's row, if it has been written. Reads it only if it is not kept.
pub(crate) fn clock<S: Alter>(db: &mut Database<S>) -> Result<Option<ClockRow>, Fault>
    ensures value { IsTrue (state S.Store db.new.conn).is_open
        → IfOk result (λ o. option_map clock_row_of o ≡ (content_at (state S.Store
        db.old.conn)).clock) }
    ensures queried { HasQueried (state S.Store db.old.conn) (state S.Store db.new.conn) (is_ok result) }
{
    if let Some(row) = db.kept.clock {
        return Ok(Some(row));
    }
    let found = lookups::clock(db)?;
    db.kept.clock = found;
    Ok(found)
}

fn is_among(carriers: &[Spid], spid: Spid) -> bool
    ensures { result ≡ list_any (λ c. c.number == spid.number) carriers.now }
{
    carriers.iter().any(|carrier| *carrier == spid)
}

/// Returns whether `spid` is a registered carrier. Reads the carriers only if they are not kept.
pub(crate) fn carrier<S: Alter>(db: &mut Database<S>, spid: Spid) -> Result<bool, Fault>
    ensures value { IsTrue (state S.Store db.new.conn).is_open
        → IfOk result (λ found. found ≡ is_some (get (content_at (state S.Store
        db.old.conn)).carriers (spid_of spid))) }
    ensures queried { HasQueried (state S.Store db.old.conn) (state S.Store db.new.conn) (is_ok result) }
{
    if let Some(all) = &db.kept.carriers {
        return Ok(is_among(all.as_slice(), spid));
    }
    let all = lists::carriers(db)?;
    let is_registered = is_among(all.as_slice(), spid);
    db.kept.carriers = Some(all);
    Ok(is_registered)
}

fn copied(alloc: Global, carriers: &[Spid]) -> Result<Vec<Spid>, AllocError>
    ensures { IfOk result (λ all. all.items ≡ carriers.now) }
{
    let mut all = Vec::with_capacity(alloc, carriers.len())?;
    all.extend_from_slice(carriers)?;
    Ok(all)
}

/// Returns all registered carriers, ascending. Reads them only if they are not kept.
pub(crate) fn carriers<S: Alter>(db: &mut Database<S>) -> Result<Vec<Spid>, Fault>
    ensures value { IsTrue (state S.Store db.new.conn).is_open
        → IfOk result (λ carriers. AreCarriers (content_at (state S.Store db.old.conn))
        carriers.items) }
    ensures queried { HasQueried (state S.Store db.old.conn) (state S.Store db.new.conn) (is_ok result) }
{
    if let Some(all) = &db.kept.carriers {
        let all = copied(*all.allocator(), all.as_slice())?;
        return Ok(all);
    }
    let found = lists::carriers(db)?;
    let all = copied(*found.allocator(), found.as_slice())?;
    db.kept.carriers = Some(found);
    Ok(all)
}

/// Returns the version with the earliest deadline, if that minute is not after `now`. Reads it only
/// if it is not known that no deadline has come.
pub(crate) fn least_due<S: Alter>(
    db: &mut Database<S>,
    now: Minute,
) -> Result<Option<NumberedRow>, Fault>
    ensures value { IsTrue (state S.Store db.new.conn).is_open
        → IfOk result (IsLeastDue (content_at (state S.Store db.old.conn)) now.number) }
    ensures queried { HasQueried (state S.Store db.old.conn) (state S.Store db.new.conn) (is_ok result) }
{
    if let Some(quiet) = db.kept.quiet {
        if now <= quiet {
            return Ok(None);
        }
    }
    let found = lookups::least_due(db, now)?;
    if found.is_none() {
        db.kept.quiet = Some(now);
    }
    Ok(found)
}
