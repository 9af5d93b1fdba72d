//! Values of a register of ported telephone numbers, and their texts.
//!
//! Telephone numbers, central office codes, thousands-blocks, lines, routing numbers, carrier
//! identification codes, providers and minutes. Each is a number with its validity rule in a ghost
//! field, so every value is valid. Each has exactly one text: `read` parses it without allocating,
//! and `write` appends it.
#![tactic(auto)]

mod block_id;
mod cic;
mod code_id;
mod digits;
mod line;
mod lrn;
mod minute;
mod ported;
mod spid;
mod tn;

pub use block_id::BlockId;
pub use cic::Cic;
pub use code_id::CodeId;
pub use digits::last_digits;
pub use line::Line;
pub use lrn::Lrn;
pub use minute::Minute;
pub use ported::{Routing, Subject, subjects_in_order_of_texts};
pub use spid::Spid;
pub use tn::Tn;
