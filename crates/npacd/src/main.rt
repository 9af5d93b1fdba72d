//! The clearinghouse as a program: passes the words, the input and the outputs of the process to
//! the library `cli`, which does everything else.
//!
//! The program's contracts are those of `feed`, `parse`, `run` and `serve_next`.
#![tactic(auto)]

pub use api::serve_next;
use cli::report_usage;
pub use cli::{feed, run};
pub use command_line::parse;
use command_line::words_of;
use std::io;
use std::process::ExitCode;

fn main(rt: HostRuntime) -> ExitCode {
    let mut writer = io::writer(&rt);
    let stderr = rt.stderr();
    let mut errors = io::writer(&stderr);
    ExitCode::from(match words_of(&rt) {
        Ok(words) => run(
            &rt,
            words.as_slice(),
            &mut rt.reader(),
            &mut writer,
            &mut errors,
        ),
        Err(usage) => report_usage(&mut writer, &mut errors, &usage),
    })
}
