//! Judges the invariants that the rows of every register keep.
#![tactic(auto)]

mod columns;
mod downloads;
mod finding;
mod flaw;
mod seen;
mod versions;

pub use finding::find_flaw;
pub use flaw::Flaw;
