//! Why a file is refused as a register's: examines the file after the refusal.
//!
//! Not proved: that the cause is the file's. No clause knows what lies at a path.
#![tactic(auto)]

mod cause;
mod examine;
mod reason;
mod rows;
mod schema;

pub use cause::{Cause, Departure, Part};
pub use examine::{cause_at, cause_of_moved, reason_of_plain_file};
pub use reason::Reason;
