//! The requests to a register.
use requests::Command;

/// A caller's command, or a carrier's acknowledgement.
#[derive(Clone, Copy, Debug)]
pub enum Request<'a> {
    Command(&'a Command),
    /// The acknowledgement of an attempt of a version.
    Acknowledge { id: u64, attempt: u64 },
}
