//! What a stop leaves of the files, and which state of a run that is.
use crate::files::{FileBytes, copy_bytes, copy_files, rows_in, run_in, send_in};
use crate::messages::{Output, is_unavailable};
use crate::operations::{Operation, WITHOUT_CHECKPOINTS};
use crate::reference::Reference;
use crate::scenarios::Scenario;
use std::alloc::Global;

/// Bytes that were left, and their state.
#[derive(Drop)]
pub struct JudgedFiles {
    file_bytes: FileBytes,
    state: usize,
}

// Returns the bytes with the first half of what was written, and the rest as it was.
fn tear(alloc: Global, written: &[u8], synced: &[u8]) -> Option<Vec<u8>> {
    let mut first = 0usize;
    for (byte, other) in written.iter().zip(synced.iter()) {
        if *byte != *other {
            break;
        }
        first = first.saturating_add(1);
    }
    let middle = first.saturating_add(written.len().saturating_sub(first) / 2);
    let mut bytes = copy_bytes(alloc, written.get(..middle)?)?;
    if let Some(rest) = synced.get(middle..) {
        bytes.extend_from_slice(rest).ok()?;
    }
    Some(bytes)
}

/// Returns what may be left of both files. If the program died, it is all that was written. If the
/// machine did, it is what was synced, or more of one of them, or a part of what was written to the
/// log.
pub fn crash_images(
    alloc: Global,
    written: &FileBytes,
    synced: &FileBytes,
) -> Option<[FileBytes; 5]> {
    let torn_log = tear(alloc, &written.log, &synced.log)?;
    Some([
        copy_files(alloc, &written.log, &written.db)?,
        copy_files(alloc, &synced.log, &synced.db)?,
        copy_files(alloc, &written.log, &synced.db)?,
        copy_files(alloc, &synced.log, &written.db)?,
        copy_files(alloc, &torn_log, &synced.db)?,
    ])
}

/// Returns the first and the last state that may be found after such an output. Without one, the
/// register was not opened.
pub fn allowed_states(reference: &Reference, output: &Option<Output>) -> Option<(usize, usize)> {
    let last = reference.states.len().checked_sub(1)?;
    match output {
        None => Some((0, reference.opened)),
        Some(output) if !output.lasts => Some((0, last)),
        Some(output) if output.text == reference.text => Some((last, last)),
        Some(output) if is_unavailable(&output.text) => Some((0, last)),
        Some(_) => None,
    }
}

/// Returns the first of the states that has these rows.
pub fn state_with_rows(states: &[Vec<u8>], rows: &[u8]) -> Option<usize> {
    for state in 0..states.len() {
        if states.get(state)?.as_slice() == rows {
            return Some(state);
        }
    }
    None
}

// Returns whether the register continues. If the messages were not executed, they are answered as
// in the run without a stop, and else the next message is. Then the rows are those of that run.
fn is_continued(
    alloc: Global,
    reference: &Reference,
    scenario: &Scenario<'_>,
    file_bytes: &FileBytes,
    state: usize,
) -> Option<bool> {
    let last = reference.states.len().checked_sub(1)?;
    if last > 0 && state == last {
        let next = send_in(
            alloc,
            file_bytes,
            WITHOUT_CHECKPOINTS,
            &[&[scenario.next_request]],
        )?;
        let rows = rows_in(alloc, &next.file_bytes)?;
        return Some(next.output.text == reference.next_text && rows == reference.next_rows);
    }
    let operation = Operation::Send(scenario.messages);
    let run = run_in(alloc, file_bytes, WITHOUT_CHECKPOINTS, operation)?;
    let rows = rows_in(alloc, &run.file_bytes)?;
    Some(run.output.text == reference.text && rows == *reference.states.get(last)?)
}

// Returns the state of these bytes, if they have been judged.
fn known_state(judged: &[JudgedFiles], file_bytes: &FileBytes) -> Option<usize> {
    for other in judged {
        if other.file_bytes.log == file_bytes.log && other.file_bytes.db == file_bytes.db {
            return Some(other.state);
        }
    }
    None
}

/// Returns the state of these bytes, if the register continues from it. Most stops leave the same
/// bytes, which are judged once.
pub fn find_state(
    alloc: Global,
    reference: &Reference,
    scenario: &Scenario<'_>,
    file_bytes: FileBytes,
    judged: &mut Vec<JudgedFiles>,
) -> Option<usize> {
    if let Some(state) = known_state(judged, &file_bytes) {
        return Some(state);
    }
    let rows = rows_in(alloc, &file_bytes)?;
    let state = state_with_rows(&reference.states, &rows)?;
    if !is_continued(alloc, reference, scenario, &file_bytes, state)? {
        return None;
    }
    judged.push(JudgedFiles { file_bytes, state }).ok()?;
    Some(state)
}

/// Returns whether each of the first `count` states was found.
pub fn are_all_reached(count: usize, judged: &[JudgedFiles]) -> bool {
    for state in 0..count {
        let mut is_reached = false;
        for other in judged {
            is_reached = is_reached || other.state == state;
        }
        if !is_reached {
            return false;
        }
    }
    true
}
