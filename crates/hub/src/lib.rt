//! Many connections on one thread, without sockets and without a clock.
#![tactic(auto)]

mod byte_queue;
mod client;
mod connection;
mod feeding;
mod hub;
mod limits;
mod member;
mod schedule;

pub use client::Client;
pub use connection::{Connection, Phase};
pub use feeding::{FeedFault, feed};
pub use hub::Hub;
pub use limits::{Limits, Wait};
pub use member::{Ending, Member, Stage};
pub use schedule::{Event, ScheduledEvent, play};
