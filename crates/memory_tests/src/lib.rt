//! The proved tests: what stories cannot test, and each function of the lower crates once.
#![tactic(auto)]

#[cfg(test)]
mod allocation_failures;
#[cfg(test)]
mod commands;
#[cfg(test)]
mod copies;
#[cfg(test)]
mod executing;
#[cfg(test)]
mod failed_firings;
#[cfg(test)]
mod faulty_io;
#[cfg(test)]
mod files;
#[cfg(test)]
mod fixture;
#[cfg(test)]
mod flushing;
#[cfg(test)]
mod io_faults;
#[cfg(test)]
mod large_messages;
#[cfg(test)]
mod laws;
#[cfg(test)]
mod limits;
#[cfg(test)]
mod listeners;
#[cfg(test)]
mod many_broadcasts;
#[cfg(test)]
mod numbers_tests;
#[cfg(test)]
mod opening;
#[cfg(test)]
mod over_flaky;
#[cfg(test)]
mod probing;
#[cfg(test)]
mod refusals;
#[cfg(test)]
mod retries;
#[cfg(test)]
mod settling;
#[cfg(test)]
mod stores;
#[cfg(test)]
mod supplied_minutes;
#[cfg(test)]
mod telnp_tests;
#[cfg(test)]
mod windows_tests;
