//! The store over SQL: the rows of a register in the tables of a file, or of a database in memory.
#![tactic(auto)]

mod blocks;
mod change;
mod commit;
mod database;
mod file;
mod file_fault;
mod group;
mod kept;
mod lists;
mod lookups;
mod migration;
mod once;
mod opening;
mod opening_watcher;
mod order;
mod queue;
mod refused;
mod routed;
mod rows;
mod schema;
mod select;
mod store;
mod through;
mod transaction;
mod whole;

pub use file::{StoreAt, Unopened, UnopenedAt, find_file};
pub use file_fault::FileFault;
pub use opening_watcher::{OpeningWatcher, Unwatched};
pub use refused::Refused;
pub use store::SqlStore;
