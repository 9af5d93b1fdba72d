//! Pooling of blocks: donations, assignments and releases, and which carrier serves a number.
#![tactic(auto)]

mod assignment;
mod donation;
mod facts;
mod releasing;
mod service;

pub use assignment::Assignment;
pub use donation::{Donation, Plan};
pub use facts::BlockFacts;
pub use releasing::release;
pub use service::{Server, ServingFacts, serving};
