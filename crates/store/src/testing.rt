//! Test doubles: stores over another store. No production program uses them.

pub mod commit_counter;
pub mod flaky;
