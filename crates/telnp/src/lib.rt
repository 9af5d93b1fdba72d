//! Tel URIs with number portability parameters, and the answers to queries by them.
//!
//! A tel URI is a text of RFC 3966, such as `tel:+1-201-555-0123`, here with a global number. RFC
//! 4694 adds `npdi` (the number has been looked up), `rn` (the routing number) and `cic` (a
//! carrier's identification code). `TelUri::read` allocates nothing and returns spans of the text;
//! `TelUri::write_answer` writes the text with what a look-up has found.
#![tactic(auto)]

mod answer;
mod bytes;
mod fault;
mod number;
mod parameter;
mod parameters;
mod part;
mod text;
mod uri;

pub use answer::answers_are_in_order;
pub use fault::TelFault;
pub use parameter::Parameter;
pub use parameters::Parameters;
pub use uri::{TelUri, faults_are_in_order, tel_uris_are_read};
