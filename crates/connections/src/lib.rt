//! Serves the connections of a port: moves bytes between their sockets and a hub.
#![tactic(auto)]

mod acceptor;
mod log;
mod server;
mod socket;

pub use server::{ServerFault, Service, serve_many};
