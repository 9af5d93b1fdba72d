//! Reads the words of the program's command line.
ghost use Rattle.std.specs.Prelude.{◌≡◌, IfErr, codes, string_bytes};
ghost use Rattle.std.specs.IoError.{error_kind};
ghost use Rattle.command_line.specs.Usage.{IsMistake};

use crate::parse::{Usage, mistake, no_memory};
use std::alloc::Global;
use std::env::Env;
use std::io::ErrorKind;
use std::{env, io};

// Returns the usage error for words that could not be read.
fn no_words(alloc: Global, error: &io::Error) -> Usage
    ensures status { IsMistake result.status }
    ensures text { result.status ≡ 2
        → string_bytes result.text ≡ codes "error: an argument is not UTF-8\n" }
    ensures memory { error_kind error.now ≡ ErrorKind.OutOfMemory → result.status ≡ 3 }
{
    match error.kind() {
        ErrorKind::OutOfMemory => no_memory(alloc),
        _ => mistake(alloc, "error: an argument is not UTF-8\n"),
    }
}

/// Returns the words of the command line, starting with the program's name.
///
/// # Errors
///
/// A text for the user with exit status 2 if a word is not UTF-8; exit status 3 if an allocation
/// fails.
pub fn words_of<T: Env + AllocGlobal>(rt: &T) -> Result<Vec<String>, Usage>
    ensures status { IfErr result (λ usage. IsMistake usage.status) }
    ensures text { IfErr result (λ usage. usage.status ≡ 2
        → string_bytes usage.text ≡ codes "error: an argument is not UTF-8\n") }
{
    let words = match env::args(rt) {
        Ok(words) => words,
        Err(error) => return Err(no_words(rt.alloc(), &error)),
    };
    match words.collect(rt.alloc()) {
        Ok(words) => Ok(words),
        Err(_) => Err(no_memory(rt.alloc())),
    }
}
