//! Reads HTTP/1.1 messages from any reader and writes texts to any writer.
#![tactic(auto)]

mod arrived;
mod fault;
mod head;
mod laws;
mod message;
mod next;
mod paths;
mod plain;
mod read_buffer;
mod send;
mod start;

pub use arrived::{Arrived, next_arrived};
pub use fault::MessageFault;
pub use head::read_number;
pub use laws::parse_is_unique;
pub use message::{NextMessage, Request};
pub use next::{NextFault, next_message};
pub use paths::{BlockPath, Method, Route, VersionPath, allows_method, offered_route, router};
pub use read_buffer::ReadBuffer;
pub use send::{Unsent, send_all, send_whole};
pub use start::after;
