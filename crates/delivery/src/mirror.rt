//! A carrier's copy of what is in force.
ghost use Rattle.std.specs.Prelude.{◌≡◌, ◌≢◌, map, None, option_map, IfOk, OnOk, OnErr};
ghost use Rattle.numbers.specs.Abstraction.{routing_of, subject_of};
ghost use Rattle.numbers.specs.declared.ported.Subject.{Subject as SubjectImpl};
ghost use Rattle.model.specs.declared.words.Action.TheVariants.{Delete};
ghost use Rattle.model.specs.Copies.{copy_after_download, copy_of_rows, routing_left};
ghost use Rattle.delivery.specs.Mirrors.{routing_in_copy, download_of, in_force_of};

use crate::download::Download;
use model::Action;
use numbers::{Routing, Subject};
use std::alloc::{AllocError, Global};
use std::collections::BTreeMap;

/// A subject in force, and its routing.
#[derive(Clone, Copy, Debug, PartialEq, Eq)]
pub struct RoutedRow {
    pub subject: Subject,
    pub routing: Routing,
}

/// A carrier's copy of what is in force, which routes calls without asking the register.
///
/// It starts with the rows that the carrier's registration returned. After that, each download that
/// the carrier acknowledges is applied, in order.
#[derive(Drop)]
pub struct Mirror {
    alloc: Global,
    routings: BTreeMap<Subject, Routing>,
}

// Returns a map of these rows. Of two rows of one subject the later one counts.
fn routings_of(alloc: Global, rows: &[RoutedRow]) -> Result<BTreeMap<Subject, Routing>, AllocError>
    ensures { IfOk result (λ routings. (s : SubjectImpl)
        → routing_in_copy routings s ≡ copy_of_rows (map in_force_of rows.now) (subject_of s)) }
{
    let mut routings = BTreeMap::new(alloc);
    for row in rows {
        let _ = routings.insert(row.subject, row.routing)?;
    }
    Ok(routings)
}

// Returns the routing that the download leaves in a copy.
fn routing_left(download: &Download) -> Option<Routing>
    ensures { option_map routing_of result
        ≡ routing_left download.now.action (option_map routing_of download.now.routing) }
{
    match download.action {
        Action::Create | Action::Modify => download.routing,
        Action::Delete => None,
    }
}

impl Mirror {
    /// Creates an empty copy.
    pub fn new(alloc: Global) -> Mirror
        ensures { (s : SubjectImpl) → routing_in_copy result.routings s ≡ None }
    {
        Mirror {
            alloc,
            routings: BTreeMap::new(alloc),
        }
    }

    /// Replaces the copy with these rows, which the carrier's registration returned. Of two rows of
    /// one subject the later one counts.
    ///
    /// # Errors
    ///
    /// `AllocError` if an allocation fails; the copy is then unchanged.
    pub fn start(&mut self, rows: &[RoutedRow]) -> Result<(), AllocError>
        ensures started { OnOk result ((s : SubjectImpl)
            → routing_in_copy self.new.routings s ≡ copy_of_rows (map in_force_of rows.now)
            (subject_of s)) }
        ensures same { OnErr result (self.new ≡ self.old) }
    {
        self.routings = routings_of(self.alloc, rows)?;
        Ok(())
    }

    /// Applies a download: a create or a modify sets the routing of its subject, a delete removes
    /// it, whatever routing it carries.
    ///
    /// # Errors
    ///
    /// `AllocError` if an allocation fails; the copy is then unchanged. A delete does not fail.
    pub fn apply(&mut self, download: &Download) -> Result<(), AllocError>
        ensures applied { OnOk result ((s : SubjectImpl)
            → routing_in_copy self.new.routings s
            ≡ copy_after_download (download_of download.now) (subject_of s)
            (routing_in_copy self.old.routings s)) }
        ensures same { OnErr result ((s : SubjectImpl)
            → routing_in_copy self.new.routings s ≡ routing_in_copy self.old.routings s) }
        ensures delete { OnErr result (download.now.action ≢ Delete) }
    {
        match routing_left(download) {
            Some(routing) => {
                let _ = self.routings.insert(download.subject, routing)?;
            }
            None => {
                let _ = self.routings.remove(&download.subject);
            }
        }
        Ok(())
    }

    /// Returns the routing of the subject in this copy, if it has one. Allocates nothing.
    pub fn get(&self, subject: Subject) -> Option<Routing>
        ensures { option_map routing_of result ≡ routing_in_copy self.now.routings subject }
    {
        self.routings.get(&subject).copied()
    }
}
