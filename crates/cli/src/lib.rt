//! The clearinghouse as a program: parses and executes command lines, and serves a port.
//!
//! The register is in memory or in a file. The program `npacd` only calls `run`.
#![tactic(auto)]

mod checking;
mod copying;
mod explaining;
mod fault;
mod listening;
mod opening_reporter;
mod over_file;
mod progress;
mod repairing;
mod reporting;
mod row_reporter;
mod row_words;
mod running;
mod showing;
mod snapshot;
mod windows_text;
mod writing_page;

pub use fault::Fault;
pub use listening::listen;
pub use reporting::report_usage;
pub use running::{feed, feed_at, run};
