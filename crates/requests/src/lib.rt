//! The calls of a register, and its replies.
#![tactic(auto)]

mod call;
mod view;

pub use call::{Call, Command, Reply};
pub use view::{Answer, Ids, VersionView};
