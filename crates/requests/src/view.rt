//! Views of versions, and answers to queries.
ghost use Rattle.std.specs.Prelude.{◌≡◌, List};
ghost use Rattle.numbers.specs.Abstraction.{subject_of};
ghost use Rattle.model.specs.State.{State, view_of as view_in};
ghost use Rattle.model.specs.Versions.{Broadcast};
ghost use Rattle.version.specs.Abstraction.{version_of, windows_of};
ghost use Rattle.requests.specs.Calls.{view_of};

use numbers::{Minute, Routing};
use version::{Phase, Version};
use windows::Windows;

/// A version as shown to a caller.
#[derive(Clone, Copy, Debug, PartialEq, Eq)]
pub struct VersionView {
    pub id: u64,
    pub version: Version,
    pub phase: Option<Phase>,
}

impl VersionView {
    /// Returns the view of a version at `minute`. `windows` are those of the set that it holds.
    pub fn of(id: u64, version: &Version, minute: Minute, windows: &Windows) -> VersionView
        ensures { (st : State) (broadcasts : List Broadcast) → st.now ≡ minute.number
            → view_of result
            ≡ view_in st (record {
              subject = subject_of version.now.subject;
              version = version_of id broadcasts (windows_of windows.now) version.now;
            }) }
    {
        VersionView {
            id,
            version: *version,
            phase: version.phase(minute, windows),
        }
    }
}

/// The answer to a query by number: its code is not open, or the routing of its calls, if it has
/// one.
#[derive(Clone, Copy, Debug, PartialEq, Eq)]
pub enum Answer {
    Closed,
    Open(Option<Routing>),
}

/// The ids of a number's version in force and of its open version, if it has them.
#[derive(Clone, Copy, Debug, PartialEq, Eq)]
pub struct Ids {
    pub in_force: Option<u64>,
    pub opened: Option<u64>,
}
