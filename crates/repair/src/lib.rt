//! Copies the rows of a register's file whose tables have moved into a new file.
#![tactic(auto)]

mod order;
mod reading;
mod row;
mod writing;

pub use reading::read_file;
pub use row::{RegisterRow, RegisterRows};
pub use writing::write_rows;
