//! Keeps the subjects of the versions that were read, to find two versions of one subject.
ghost use Rattle.std.specs.Prelude.{◌≡◌, ◌+◌, Some, IfOk, OnOk, option_and_then, if◌then◌else◌};
ghost use Rattle.std.specs.FinMap.{get};
ghost use Rattle.numbers.specs.declared.ported.Subject.{Subject as SubjectImpl};
ghost use Rattle.model.specs.Content.{ClockRow as ClockModel, Content};
ghost use Rattle.invariants.specs.Flaws.{Judges};
ghost use Rattle.invariants.specs.Seen.{AreAllSeen, holder_of, is_subject};

use crate::flaw::Flaw;
use numbers::Subject;
use settle::VersionRow;
use std::alloc::{AllocError, Global};
use std::collections::BTreeMap;

/// The versions in force and the open ones, of those that were read, by subject.
#[derive(Drop)]
pub(crate) struct Seen {
    pub(crate) holds: BTreeMap<Subject, u64>,
    pub(crate) opens: BTreeMap<Subject, u64>,
}

// Adds the subject of a version, if there is one. Returns the version that had the subject before.
fn add_subject(
    ids: &mut BTreeMap<Subject, u64>,
    subject: Option<Subject>,
    id: u64,
) -> Result<Option<u64>, AllocError>
    ensures before { IfOk result (λ other. other ≡ option_and_then (holder_of ids.old) subject) }
    ensures added { OnOk result ((s : SubjectImpl) → holder_of ids.new s
        ≡ if is_subject subject s then Some id else holder_of ids.old s) }
{
    let Some(subject) = subject else {
        return Ok(None);
    };
    Ok(ids.insert(subject, id)?)
}

impl Seen {
    /// Creates the subjects of no versions.
    pub(crate) fn new(alloc: Global) -> Seen
        ensures { (c : Content) → AreAllSeen c 0 result }
    {
        Seen {
            holds: BTreeMap::new(alloc),
            opens: BTreeMap::new(alloc),
        }
    }

    /// Adds the version with the next id. Returns a flaw if a version of its subject is in force
    /// beside it, or open.
    ///
    /// # Errors
    ///
    /// `AllocError` if an allocation fails.
    pub(crate) fn add(&mut self, id: u64, row: &VersionRow) -> Result<Option<Flaw>, AllocError>
        ensures { (c : Content) (clock : ClockModel) → get c.versions id ≡ Some row.now
            → AreAllSeen c id self.old
            → IfOk result (Judges c clock (AreAllSeen c (id + 1) self.new)) }
    {
        if let Some(other) = add_subject(&mut self.holds, row.holds(), id)? {
            return Ok(Some(Flaw::InForce { id, other }));
        }
        if let Some(other) = add_subject(&mut self.opens, row.opens(), id)? {
            return Ok(Some(Flaw::Open { id, other }));
        }
        Ok(None)
    }
}
