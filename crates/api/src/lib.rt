//! The clearinghouse over HTTP: messages from any reader, answers to any writer.
#![tactic(auto)]

mod call;
mod executor;
mod laws;
mod listener;
mod query;
mod reply;
mod serving;
mod tally;
mod tick;

pub use executor::{Executed, Executor, Lost, Progress, TurnLimit};
pub use http_messages::{MessageFault, parse_is_unique};
pub use json_api::body_asks_once;
pub use laws::{message_step_is_deterministic, storage_reports_failure, uris_need_no_escape};
pub use listener::{MachineMinutes, minute_of, serve_connections, serve_next};
pub use serving::{End, Fault, NoTicks, Options, Served, Ticks, serve};
pub use tally::Tally;
