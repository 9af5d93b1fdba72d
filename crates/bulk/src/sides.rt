//! The three sides of an audit for each subject.
ghost use Rattle.std.specs.Prelude.{◌≡◌, ◌⊎◌, false, true, None, Err, IfErr, IfOk, OnOk, if◌then◌else◌, option_map, Some};
ghost use Rattle.std.specs.BTreeMap.{IsOrdered};
ghost use Rattle.std.specs.Ordering.{nat_cmp, on};
ghost use Rattle.numbers.specs.Subjects.{subject_eq};
ghost use Rattle.numbers.specs.Abstraction.{key_of, routing_of, subject_of};
ghost use Rattle.numbers.specs.declared.ported.Subject.{Subject as SubjectImpl};
ghost use Rattle.bulk.specs.Audits.{AreDistinct, subjects_in};
ghost use Rattle.bulk.specs.Findings.{finding_of, same_routing};
ghost use Rattle.bulk.specs.declared.finding.Finding.TheVariants.{Different};
ghost use Rattle.bulk.specs.Sides.{found_in, found_of, routed_after, sides_at, waiting_after};

use crate::fault::FaultKind;
use crate::finding::{Finding, SubjectFinding};
use crate::watching::RowWatcher;
use delivery::RoutedRow;
use numbers::{Routing, Subject};
use std::alloc::{AllocError, Global};
use std::collections::BTreeMap;

/// A subject on the three sides of an audit.
#[derive(Clone, Copy, Debug, PartialEq, Eq)]
pub struct Sides {
    /// The routing in force.
    pub in_force: Option<Routing>,
    /// The routing in the copy.
    pub copied: Option<Routing>,
    /// Whether a download of the subject is pending for the carrier.
    pub is_waiting: bool,
}

const NO_SIDES: Sides = Sides {
    in_force: None,
    copied: None,
    is_waiting: false,
};

// Returns the finding on a subject with these routings in force and in the copy, if they differ.
fn difference(routing: &Routing, copy: &Routing) -> Option<Finding>
    ensures { result ≡ if same_routing (routing_of routing.now) (routing_of copy.now) then None
        else Some Different }
{
    if routing == copy {
        None
    } else {
        Some(Finding::Different)
    }
}

// Returns the finding on a subject without pending downloads, if there is one.
fn routed_finding(in_force: Option<Routing>, copied: Option<Routing>) -> Option<Finding>
    ensures { result
        ≡ finding_of false (option_map routing_of in_force) (option_map routing_of copied) }
{
    match in_force {
        Some(routing) => match copied {
            Some(copy) => difference(&routing, &copy),
            None => Some(Finding::Missing),
        },
        None => match copied {
            Some(_) => Some(Finding::Extra),
            None => None,
        },
    }
}

impl Sides {
    /// Returns the finding on the subject, if there is one.
    pub fn finding(&self) -> Option<Finding>
        ensures { result ≡ found_of self.now }
    {
        if self.is_waiting {
            Some(Finding::Waiting)
        } else {
            routed_finding(self.in_force, self.copied)
        }
    }
}

fn sides_of(all: &BTreeMap<Subject, Sides>, subject: Subject) -> Sides
    ensures { result ≡ sides_at all.now subject }
{
    all.get(&subject).copied().unwrap_or(NO_SIDES)
}

// Sets the sides of a subject.
fn set_sides(
    all: &mut BTreeMap<Subject, Sides>,
    subject: Subject,
    sides: Sides,
) -> Result<(), AllocError>
    ensures set { OnOk result ((s : SubjectImpl) → sides_at all.new s
        ≡ if subject_eq (subject_of subject) (subject_of s) then sides else sides_at all.old s) }
{
    all.insert(subject, sides)?;
    Ok(())
}

/// Adds the versions in force to the sides.
pub fn add_in_force(all: &mut BTreeMap<Subject, Sides>, rows: &[RoutedRow]) -> Result<(), FaultKind>
    ensures added { OnOk result ((s : SubjectImpl) → sides_at all.new s
        ≡ record (sides_at all.old s) {
          in_force = routed_after rows.now s (sides_at all.old s).in_force;
        }) }
    ensures memory { IfErr result (λ kind. kind ≡ FaultKind.NoMemory) }
{
    for row in rows {
        let mut sides = sides_of(all, row.subject);
        sides.in_force = Some(row.routing);
        set_sides(all, row.subject, sides)?;
    }
    Ok(())
}

/// Adds the subjects with pending downloads to the sides.
pub fn add_waiting(
    all: &mut BTreeMap<Subject, Sides>,
    subjects: &[Subject],
) -> Result<(), FaultKind>
    ensures added { OnOk result ((s : SubjectImpl) → sides_at all.new s
        ≡ record (sides_at all.old s) {
          is_waiting = waiting_after subjects.now s (sides_at all.old s).is_waiting;
        }) }
    ensures memory { IfErr result (λ kind. kind ≡ FaultKind.NoMemory) }
{
    for subject in subjects {
        let mut sides = sides_of(all, *subject);
        sides.is_waiting = true;
        set_sides(all, *subject, sides)?;
    }
    Ok(())
}

/// Creates sides from the entries of a copy. Fails with `BadFile` if a subject occurs twice, and
/// notes the subject with the watcher.
pub fn copy_sides<N: RowWatcher>(
    alloc: Global,
    entries: &[RoutedRow],
    watcher: &mut N,
) -> Result<BTreeMap<Subject, Sides>, FaultKind>
    ensures added { IfOk result (λ all. (s : SubjectImpl) → sides_at all s
        ≡ record { in_force = None; copied = routed_after entries.now s None; is_waiting = false }) }
    ensures distinct { OnOk result (AreDistinct (subjects_in entries.now)) }
    ensures duplicate { result ≡ Err FaultKind.BadFile → ¬ (AreDistinct (subjects_in entries.now)) }
    ensures kinds { IfErr result
        (λ kind. (kind ≡ FaultKind.BadFile) ⊎ (kind ≡ FaultKind.NoMemory)) }
{
    let mut all = BTreeMap::new(alloc);
    for entry in entries {
        let mut sides = sides_of(&all, entry.subject);
        if sides.copied.is_some() {
            watcher.duplicate(entry.subject);
            return Err(FaultKind::BadFile);
        }
        sides.copied = Some(entry.routing);
        set_sides(&mut all, entry.subject, sides)?;
    }
    Ok(all)
}

/// Returns the findings on all subjects, ordered by subject.
pub fn findings_in(
    alloc: Global,
    all: &BTreeMap<Subject, Sides>,
) -> Result<Vec<SubjectFinding>, AllocError>
    ensures found { IfOk result (λ findings. findings.items ≡ found_in all.now.entries) }
    ensures ordered { OnOk result (IsOrdered (on key_of nat_cmp) all.now) }
{
    let mut findings = Vec::new(alloc);
    for (subject, sides) in all {
        if let Some(finding) = sides.finding() {
            findings.push(SubjectFinding {
                subject: *subject,
                finding,
            })?;
        }
    }
    Ok(findings)
}
