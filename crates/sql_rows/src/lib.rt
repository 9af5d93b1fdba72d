//! The rows of a register in an SQL database: the schema, the texts of all statements, and the
//! values of rows as read and written.
#![tactic(auto)]

mod fault;
mod from_row;
mod keyed;
mod migration;
mod params;
mod reading;
mod statement;
mod values;
mod version_row;

pub use fault::Fault;
pub use from_row::{FromRow, all, sole};
pub use keyed::{OldClock, StoredClock};
pub use migration::{NewTable, OldTable, SchemaVersion, index_text};
pub use params::{
    block_params, broadcast_key, broadcast_params, clock_params, fits_block, is_set_number,
    next_params, set_params, wait_key, wait_params,
};
pub use statement::{Query, Table};
pub use values::{minute, number, spid_bytes, subject, text, truth};
pub use version_row::{OldVersion, fits, version_params};
