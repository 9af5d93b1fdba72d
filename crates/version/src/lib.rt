//! Subscription versions: the effects of commands, acknowledgements and deadlines on each.
#![tactic(auto)]

mod acknowledgement;
mod activation;
mod cancellation;
mod command;
mod conflict;
mod create;
mod deadline;
mod disconnect;
mod firing;
mod in_use;
mod modify;
mod phase;
mod version;

pub use command::{CommandFacts, Transition, VersionCommand};
pub use create::{Create, CreateFacts, Created, Creator};
pub use in_use::NumberInUse;
pub use phase::Phase;
pub use version::{FIRST_ID, ID_LIMIT, Version};
