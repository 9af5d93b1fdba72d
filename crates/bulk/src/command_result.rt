//! The result of a command in a bulk file.
use model::Refusal;

/// The result of a command: the id of the version shown, or the refusal.
#[derive(Clone, Copy, Debug, PartialEq, Eq)]
pub enum CommandResult {
    Version(u64),
    Refused(Refusal),
}
