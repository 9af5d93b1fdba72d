//! Tests of a register in a file: what a stop or a failure at each call of the files leaves.
#![tactic(auto)]

#[cfg(test)]
mod crashes;
#[cfg(test)]
mod crashes_in_histories;
#[cfg(test)]
mod files;
#[cfg(test)]
mod flaky_file;
#[cfg(test)]
mod messages;
#[cfg(test)]
mod operations;
#[cfg(test)]
mod protective_number;
#[cfg(test)]
mod reference;
#[cfg(test)]
mod rows;
#[cfg(test)]
mod scenarios;
#[cfg(test)]
mod states;
#[cfg(test)]
mod window_sets;
#[cfg(test)]
mod worked_histories;
