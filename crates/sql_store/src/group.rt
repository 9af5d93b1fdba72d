//! A group of commits.
ghost use Rattle.std.specs.Prelude.{◌≡◌};
ghost use Rattle.sql_store.specs.Groups.{has_begun};

use sql_rows::Fault;

/// How far a group of commits is.
#[derive(Clone, Copy, Debug, PartialEq, Eq)]
pub(crate) enum Group {
    /// None has begun, or the last one has ended.
    None,
    /// One has begun.
    Begun,
    /// One has begun, and this was the first fault inside it.
    Failed(Fault),
}

impl Group {
    /// Returns whether a group has begun, and not ended.
    pub(crate) fn has_begun(self) -> bool
        ensures { result ≡ has_begun self }
    {
        !matches!(self, Group::None)
    }
}
