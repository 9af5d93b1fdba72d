//! Plays the stories in the files that the command line names, and prints the responses.
//!
//! Serves each file to a new register in memory, whole and byte by byte, and to one over a
//! database, and prints failures of either store. Plays each message by message too, with messages
//! that are cut, with stores that fail, and in groups of commits, unless it runs files of commands.
//! Prints what is answered differently than it should be.
//!
//! With `--each` before the files, cuts each message and fails each call, and prints how many there
//! are; without it skips some, for the time of the gate. A file has the bytes of one connection, or
//! of several with a byte 30 between them; after a byte 29 it has a file in place of a connection.
//! The windows are those of `w.toml`.
#![tactic(auto)]

mod cuts;
mod fault;
mod groups;
mod played_story;
mod store_faults;
mod story;

use cuts::{count_cuts, first_wrong_cut, has_malformed_message};
use fault::Fault;
use groups::{first_wrong_failure, first_wrong_size};
use played_story::PlayedStory;
use std::io::Write;
use std::rt::{Env, Files};
use std::{env, fs, io};
use store_faults::{StoreCalls, StoreKind, SweepResult, find_store_calls};
use story::{new_register, play, play_stored};
use windows::Windows;

fn read_windows<T: Files + AllocGlobal>(rt: &T) -> Result<Windows, Fault> {
    let text = fs::read_to_string(rt, "w.toml")?;
    Ok(Windows::from_toml(rt.alloc(), text.as_str())?)
}

// Prints the responses of a register over a database, if they differ from `output`, and how often
// its store failed, if it did.
fn print_stored<T: AllocGlobal + Print>(
    rt: &T,
    windows: &Windows,
    name: &str,
    story: &[u8],
    output: &[u8],
) -> Result<(), Fault> {
    let (stored, failures) = play_stored(rt.alloc(), windows, story)?;
    let mut out = io::writer(rt);
    if stored.as_slice() != output {
        writeln!(out, "story {name}, from a database")?;
        out.write_all(&stored)?;
    }
    if failures > 0 {
        writeln!(out, "story {name}, {failures} failures of the database")?;
    }
    Ok(())
}

// How thoroughly a story is played message by message.
#[derive(Clone, Copy, Debug, PartialEq, Eq)]
enum Thoroughness {
    // As much as the time of the gate allows.
    Sampled,
    // With each call of the database failing and each message cut, and their numbers printed.
    Exhaustive,
}

// A story with more messages is played over a database with only each 31st call failing.
const FEW_MESSAGES: usize = 11;

const DATABASE_STRIDE: u64 = 31;

// A story with more bytes is played over memory with only each seventh call failing.
const FEW_BYTES: usize = 100_000;

const MEMORY_STRIDE: u64 = 7;

// Over a database in groups of commits, only each 127th call fails.
const GROUP_STRIDE: u64 = 127;

impl Thoroughness {
    // Returns how many calls in groups of commits lie between one that fails and the next.
    fn group_stride(self) -> u64 {
        match self {
            Thoroughness::Sampled => GROUP_STRIDE,
            Thoroughness::Exhaustive => 1,
        }
    }

    // Returns how many calls lie between one that fails and the next.
    fn stride(self, kind: StoreKind, played: &PlayedStory) -> u64 {
        match kind {
            StoreKind::Memory if self == Thoroughness::Sampled && played.size() > FEW_BYTES =>
                MEMORY_STRIDE,
            StoreKind::Database if self == Thoroughness::Sampled && played.len() > FEW_MESSAGES =>
                DATABASE_STRIDE,
            _ => 1,
        }
    }
}

fn kind_name(kind: StoreKind) -> &'static str {
    match kind {
        StoreKind::Memory => "memory",
        StoreKind::Database => "the database",
    }
}

// Prints the call of a store after which a message was answered differently than it should be, if
// one was.
fn print_failing<T: AllocGlobal + Print>(
    rt: &T,
    windows: &Windows,
    name: &str,
    calls: &StoreCalls<'_>,
    thoroughness: Thoroughness,
    kind: StoreKind,
) -> Result<(), Fault> {
    let store_name = kind_name(kind);
    let stride = thoroughness.stride(kind, calls.played);
    let mut out = io::writer(rt);
    match calls.sweep(rt.alloc(), windows, kind, stride)? {
        SweepResult::Consistent(0) => writeln!(out, "story {name}, no call of {store_name}")?,
        SweepResult::Consistent(count) if thoroughness == Thoroughness::Exhaustive => {
            writeln!(out, "story {name}, {count} calls of {store_name}")?;
        }
        SweepResult::Consistent(_) => {}
        SweepResult::Mismatch(before) => {
            writeln!(
                out,
                "story {name}, a failure of {store_name} after {before}"
            )?;
        }
    }
    Ok(())
}

// Prints the message that is answered differently than it should be when it is cut, if one is.
fn print_cuts<T: AllocGlobal + Print>(
    rt: &T,
    windows: &Windows,
    name: &str,
    played: &PlayedStory,
    thoroughness: Thoroughness,
) -> Result<(), Fault> {
    if thoroughness == Thoroughness::Sampled && !has_malformed_message(played) {
        return Ok(());
    }
    let mut register = new_register(rt.alloc(), windows)?;
    let mut out = io::writer(rt);
    if let Some(cut) = first_wrong_cut(rt.alloc(), &mut register, played) {
        writeln!(
            out,
            "story {name}, message {} cut after {}",
            cut.message, cut.place
        )?;
    } else if thoroughness == Thoroughness::Exhaustive {
        writeln!(out, "story {name}, {} cuts", count_cuts(played))?;
    }
    Ok(())
}

// Prints what differs when the story is played in groups of commits.
fn print_groups<T: AllocGlobal + Print>(
    rt: &T,
    windows: &Windows,
    name: &str,
    played: &PlayedStory,
    thoroughness: Thoroughness,
) -> Result<(), Fault> {
    let mut out = io::writer(rt);
    if let Some(size) = first_wrong_size(rt.alloc(), windows, played)? {
        writeln!(out, "story {name}, in groups of {size}")?;
    }
    let stride = thoroughness.group_stride();
    if let Some(before) = first_wrong_failure(rt.alloc(), windows, played, stride)? {
        writeln!(out, "story {name}, a failure in a group after {before}")?;
    }
    Ok(())
}

// Prints what differs when the story is played message by message.
fn print_messages<T: AllocGlobal + Print>(
    rt: &T,
    windows: &Windows,
    name: &str,
    played: &PlayedStory,
    thoroughness: Thoroughness,
) -> Result<(), Fault> {
    if played.has_file() {
        return Ok(());
    }
    print_cuts(rt, windows, name, played, thoroughness)?;
    print_groups(rt, windows, name, played, thoroughness)?;
    let Some(calls) = find_store_calls(rt.alloc(), windows, played)? else {
        let mut out = io::writer(rt);
        writeln!(out, "story {name}, a store that fails always")?;
        return Ok(());
    };
    for kind in [StoreKind::Memory, StoreKind::Database] {
        print_failing(rt, windows, name, &calls, thoroughness, kind)?;
    }
    Ok(())
}

// Prints a story's name and its responses, and its responses byte by byte if they differ.
fn print_story<T: Files + AllocGlobal + Print>(
    rt: &T,
    windows: &Windows,
    name: &str,
    thoroughness: Thoroughness,
) -> Result<(), Fault> {
    let story = fs::read(rt, name)?;
    let (output, failures) = play(rt.alloc(), windows, &story, usize::MAX)?;
    let (again, more_failures) = play(rt.alloc(), windows, &story, 1)?;
    let mut out = io::writer(rt);
    writeln!(out, "story {name}")?;
    out.write_all(&output)?;
    if again != output {
        writeln!(out, "story {name}, byte by byte")?;
        out.write_all(&again)?;
    }
    if failures > 0 || more_failures > 0 {
        writeln!(out, "story {name}, failures of memory")?;
    }
    print_stored(rt, windows, name, &story, &output)?;
    let played = PlayedStory::of(rt.alloc(), windows, &story)?;
    if played.output != output {
        writeln!(out, "story {name}, message by message")?;
        out.write_all(&played.output)?;
    }
    print_messages(rt, windows, name, &played, thoroughness)
}

fn words_of<T: AllocGlobal + Env>(rt: &T) -> io::Result<Vec<String>> {
    let words = env::args(rt)?.collect(rt.alloc())?;
    Ok(words)
}

fn print_all<T: Files + AllocGlobal + Print + Env>(rt: &T) -> Result<(), Fault> {
    let windows = read_windows(rt)?;
    let mut thoroughness = Thoroughness::Sampled;
    for name in words_of(rt)?.iter().skip(1) {
        if name.as_str() == "--each" {
            thoroughness = Thoroughness::Exhaustive;
        } else {
            print_story(rt, &windows, name.as_str(), thoroughness)?;
        }
    }
    Ok(())
}

fn main(rt: HostRuntime) -> Result<(), Fault> {
    print_all(&rt)
}
