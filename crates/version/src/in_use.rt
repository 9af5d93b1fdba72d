//! Numbers of a block that are in use.
use numbers::Tn;

/// A number, and whether it has a version in force and an open one.
#[derive(Clone, Copy, Debug, PartialEq, Eq)]
pub struct NumberInUse {
    pub tn: Tn,
    pub is_in_force: bool,
    pub is_open: bool,
}
