//! Tests a stop at each call of the database file and of its log during messages, and a failure of
//! each call during groups. What is left opens as the register before the messages or after them.
use crate::files::{Calls, FileBytes, UNLIMITED, copy_files, new_files, run_failing};
use crate::messages::{Output, is_unavailable};
use crate::operations::{
    LARGE_CACHE, Operation, SMALL_CACHE, WITH_CHECKPOINTS, WITHOUT_CHECKPOINTS, with_database,
};
use crate::reference::{Reference, is_valid, reference_run};
use crate::scenarios::{BLOCKS, GROUPS, LARGE_GROUPS, MIGRATIONS, PORTS, RELEASES, Scenario};
use crate::states::{JudgedFiles, allowed_states, are_all_reached, crash_images, find_state};
use sqlite::Options;
use sqlite_disk::Crash;
use std::alloc::Global;

/// How messages go wrong: with the number of calls of a file before it stops or fails, or without.
pub type Mismatch = (&'static str, u64);

// What happens to a call of a file.
#[derive(Clone, Copy)]
enum Trouble {
    // It fails, and so does each later call of the file.
    Stop,
    // It fails, and no later call does.
    Failure,
}

// The file that is in trouble.
#[derive(Clone, Copy)]
enum BadFile {
    Log,
    Database,
}

impl BadFile {
    fn name(self) -> &'static str {
        match self {
            BadFile::Log => "the log",
            BadFile::Database => "the database",
        }
    }

    // Returns the calls before the trouble, if this file gets `count` and the other has none.
    fn after(self, count: u64) -> Calls {
        match self {
            BadFile::Log => Calls {
                log: count,
                ..UNLIMITED
            },
            BadFile::Database => Calls {
                db: count,
                ..UNLIMITED
            },
        }
    }

    fn count(self, calls: Calls) -> u64 {
        match self {
            BadFile::Log => calls.log,
            BadFile::Database => calls.db,
        }
    }
}

// Sends the messages to files that stop. Returns the output, if there is one, and what may be left.
fn run_until_stop(
    alloc: Global,
    before: &FileBytes,
    operation: Operation<'_>,
    options: Options,
    calls: Calls,
) -> Option<(Option<Output>, [FileBytes; 5])> {
    let files = new_files(alloc, before, calls)?;
    let (output, mut files) = with_database(alloc, files, options, operation);
    let (log, db) = (files.log.inner(), files.db.inner());
    let written = copy_files(alloc, log.bytes(), db.bytes())?;
    files.log.crash();
    files.db.crash();
    let (log, db) = (files.log.inner(), files.db.inner());
    let synced = copy_files(alloc, log.bytes(), db.bytes())?;
    Some((output, crash_images(alloc, &written, &synced)?))
}

// Stops the files. Returns whether the messages were repeated, which they never are, if all that
// may be left is allowed.
fn stop(
    alloc: Global,
    reference: &Reference,
    scenario: &Scenario<'_>,
    options: Options,
    calls: Calls,
    judged: &mut Vec<JudgedFiles>,
) -> Option<bool> {
    let operation = Operation::Send(scenario.messages);
    let (output, images) = run_until_stop(alloc, &reference.before, operation, options, calls)?;
    let (least, most) = allowed_states(reference, &output)?;
    for file_bytes in images {
        let state = find_state(alloc, reference, scenario, file_bytes, judged)?;
        if state < least || most < state {
            return None;
        }
    }
    Some(false)
}

// Fails one call of the files. Returns whether the messages of the group were repeated for that, if
// they were answered as without a failure, or with `storage`, and executed accordingly.
fn fail_once(
    alloc: Global,
    reference: &Reference,
    scenario: &Scenario<'_>,
    options: Options,
    calls: Calls,
    judged: &mut Vec<JudgedFiles>,
) -> Option<bool> {
    let operation = Operation::Send(scenario.messages);
    let run = run_failing(alloc, &reference.before, options, operation, calls)?;
    let is_executed = run.output.text == reference.text;
    let is_shut = run.has_failed && is_unavailable(&run.output.text);
    let state = find_state(alloc, reference, scenario, run.file_bytes, judged)?;
    let is_found = state.checked_add(1) == Some(reference.states.len());
    let is_allowed = run.output.lasts != run.has_failed && (is_executed || is_shut);
    (is_allowed && is_found == is_executed).then_some(is_executed && run.has_failed)
}

// Sends the messages with each call of the files in trouble. Returns whether they were repeated, or
// the first mismatch.
fn try_each_call(
    alloc: Global,
    reference: &Reference,
    scenario: &Scenario<'_>,
    options: Options,
    trouble: Trouble,
    judged: &mut Vec<JudgedFiles>,
) -> Result<bool, Mismatch> {
    let mut is_repeated = false;
    for file in [BadFile::Log, BadFile::Database] {
        let first = if scenario.is_opening_stopped {
            0
        } else {
            file.count(reference.calls_to_open)
        };
        for count in first..file.count(reference.calls_to_end) {
            let calls = file.after(count);
            let repeated = match trouble {
                Trouble::Stop => stop(alloc, reference, scenario, options, calls, judged),
                Trouble::Failure => fail_once(alloc, reference, scenario, options, calls, judged),
            };
            match repeated {
                Some(repeated) => is_repeated = is_repeated || repeated,
                None => return Err((file.name(), count)),
            }
        }
    }
    Ok(is_repeated)
}

/// Stops the files at each of their calls during the messages, and lets each call fail if they are
/// a group. Returns the first mismatch with the run without a stop. Messages that change no row may
/// call no file.
pub fn mismatch_from(
    alloc: Global,
    reference: &Reference,
    scenario: &Scenario<'_>,
    options: Options,
) -> Option<Mismatch> {
    let mut judged = Vec::new(alloc);
    let trouble = Trouble::Stop;
    if let Err(mismatch) = try_each_call(
        alloc,
        reference,
        scenario,
        options,
        trouble,
        &mut judged,
    ) {
        return Some(mismatch);
    }
    let count = reference.states.len();
    if count > 1 && !are_all_reached(count, &judged) {
        return Some(("a state that is not reached", 0));
    }
    if !scenario.messages.is_grouped {
        return None;
    }
    let trouble = Trouble::Failure;
    match try_each_call(alloc, reference, scenario, options, trouble, &mut judged) {
        Ok(true) => None,
        Ok(false) => Some(("no group that is repeated", 0)),
        Err(mismatch) => Some(mismatch),
    }
}

// Returns the first scenario that goes wrong with one of these options, and how.
fn first_mismatch(
    alloc: Global,
    scenarios: &[Scenario<'static>],
    all_options: &[Options],
) -> Option<(&'static str, Mismatch)> {
    for scenario in scenarios {
        for options in all_options {
            let Some(reference) = reference_run(alloc, scenario, *options) else {
                return Some((scenario.name, ("no run without a stop", 0)));
            };
            if is_valid(&reference, scenario) != Some(true) {
                return Some((scenario.name, ("a wrong run without a stop", 0)));
            }
            if let Some(mismatch) = mismatch_from(alloc, &reference, scenario, *options) {
                return Some((scenario.name, mismatch));
            }
        }
    }
    None
}

#[test]
fn requests_about_ports_that_are_stopped(rt: HostRuntime) {
    let all_options = [WITHOUT_CHECKPOINTS, WITH_CHECKPOINTS];
    assert_eq!(rt; first_mismatch(rt.alloc(), &PORTS, &all_options), None);
}

#[test]
fn requests_about_blocks_and_windows_that_are_stopped(rt: HostRuntime) {
    let all_options = [WITHOUT_CHECKPOINTS, WITH_CHECKPOINTS];
    assert_eq!(rt; first_mismatch(rt.alloc(), &BLOCKS, &all_options), None);
}

#[test]
fn releases_that_are_stopped(rt: HostRuntime) {
    let all_options = [WITHOUT_CHECKPOINTS, WITH_CHECKPOINTS];
    assert_eq!(rt; first_mismatch(rt.alloc(), &RELEASES, &all_options), None);
}

#[test]
fn small_groups(rt: HostRuntime) {
    let all_options = [WITHOUT_CHECKPOINTS, LARGE_CACHE];
    assert_eq!(rt; first_mismatch(rt.alloc(), &GROUPS, &all_options), None);
}

#[test]
fn large_groups(rt: HostRuntime) {
    let all_options = [WITHOUT_CHECKPOINTS, LARGE_CACHE];
    assert_eq!(rt;
        first_mismatch(rt.alloc(), &LARGE_GROUPS, &all_options),
        None
    );
}

// The disk is full in the middle of the group, too.
#[test]
fn a_group_that_is_written_before_its_end(rt: HostRuntime) {
    assert_eq!(rt;
        first_mismatch(rt.alloc(), &GROUPS[2..], &[SMALL_CACHE]),
        None
    );
}

#[test]
fn migrations_that_are_stopped(rt: HostRuntime) {
    assert_eq!(rt;
        first_mismatch(rt.alloc(), &MIGRATIONS, &[WITHOUT_CHECKPOINTS]),
        None
    );
}
