//! The command line of the program: declares it for `clap`, and parses its words.
#![tactic(auto)]

mod arguments;
mod command;
mod options;
pub mod parse;

pub use arguments::words_of;
