//! Tests files of commands, exports and audits.
mod allocation_failures;
mod fixture;
mod flushes;
mod io_faults;
mod storage;
