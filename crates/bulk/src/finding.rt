//! The findings of an audit.
ghost use Rattle.std.specs.Prelude.{◌≡◌, ◌≤◌, length};
ghost use Rattle.bulk.specs.Findings.{finding_name};

use numbers::Subject;

/// What an audit finds of a subject.
#[derive(Clone, Copy, Debug, PartialEq, Eq)]
pub enum Finding {
    /// A download of the subject is pending for the carrier, so its copy may differ.
    Waiting,
    /// The subject is in force, and not in the copy.
    Missing,
    /// The subject is in the copy, and not in force.
    Extra,
    /// The copy routes the subject differently.
    Different,
}

/// One finding of an audit.
#[derive(Clone, Copy, Debug, PartialEq, Eq)]
pub struct SubjectFinding {
    pub subject: Subject,
    pub finding: Finding,
}

impl Finding {
    /// Returns the name in an audit's file.
    pub fn name(self) -> &'static str
        ensures name { result.now ≡ finding_name self }
        ensures len { length result.now ≤ 9 }
    {
        match self {
            Finding::Waiting => "waiting",
            Finding::Missing => "missing",
            Finding::Extra => "extra",
            Finding::Different => "different",
        }
    }
}
