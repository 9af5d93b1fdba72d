//! Bulk files, exports and audits: files of comma-separated values.
#![tactic(auto)]

mod asking;
mod auditing;
mod command_result;
mod copy;
mod copy_mistake;
mod digits;
mod exporting;
mod fault;
mod fields;
mod file;
mod finding;
mod line;
mod making;
mod mistake;
mod range;
mod request;
mod rows;
mod running;
mod sides;
mod watching;
mod writing;

pub use auditing::{audit, audit_watched};
pub use command_result::CommandResult;
pub use exporting::{export, export_watched};
pub use fault::{BulkFault, FaultKind};
pub use fields::read_request;
pub use file::{run_file, run_noting_refusals, run_watched};
pub use finding::{Finding, SubjectFinding};
pub use mistake::{Column, Expected, RowMistake, mistake_in};
pub use range::Numbers;
pub use request::{ActionName, BulkRequest, Operation};
pub use watching::{BadRow, RowWatcher, Unwatched};
