//! Runs of messages without a stop.
use crate::files::{Calls, FileBytes, Run, copy_files, files_after, rows_in, run_in, send_in};
use crate::messages::Requests;
use crate::operations::{Operation, WITHOUT_CHECKPOINTS};
use crate::scenarios::Scenario;
use crate::states::state_with_rows;
use sqlite::Options;
use std::alloc::Global;

/// A run without a stop.
#[derive(Drop)]
pub struct Reference {
    /// The bytes of both files before the messages, and afterwards.
    pub before: FileBytes,
    pub after: FileBytes,
    /// The rows before, those after a migration, and those after each commit.
    pub states: Vec<Vec<u8>>,
    /// The last of the states that opening the register may leave.
    pub opened: usize,
    /// Whether each message was accepted.
    pub is_accepted: bool,
    /// The responses, and the next message's response and rows.
    pub text: Vec<u8>,
    pub next_text: Vec<u8>,
    pub next_rows: Vec<u8>,
    /// How many calls the files get until the register is open, and until the messages are
    /// answered.
    pub calls_to_open: Calls,
    pub calls_to_end: Calls,
}

// Returns the bytes after statements that bring files to an older format.
fn with_statements(alloc: Global, present: &FileBytes, statements: &[&str]) -> Option<FileBytes> {
    let mut file_bytes = copy_files(alloc, &present.log, &present.db)?;
    for text in statements {
        let operation = Operation::Statements(*text);
        let run = run_in(alloc, &file_bytes, WITHOUT_CHECKPOINTS, operation)?;
        if !run.output.is_accepted {
            return None;
        }
        file_bytes = run.file_bytes;
    }
    Some(file_bytes)
}

// Appends the rows after each step to the states.
fn add_steps(
    alloc: Global,
    file_bytes: &FileBytes,
    steps: Requests<'_>,
    states: &mut Vec<Vec<u8>>,
) -> Option<()> {
    let mut file_bytes = copy_files(alloc, &file_bytes.log, &file_bytes.db)?;
    for step in steps {
        let run = send_in(alloc, &file_bytes, WITHOUT_CHECKPOINTS, &[&[*step]])?;
        states.push(rows_in(alloc, &run.file_bytes)?).ok()?;
        file_bytes = run.file_bytes;
    }
    Some(())
}

// Returns the rows before the messages, those after a migration, those after each step, and those
// after the messages if they differ.
fn states_of(
    alloc: Global,
    scenario: &Scenario<'_>,
    before: &FileBytes,
    present: &FileBytes,
    after: &FileBytes,
) -> Option<Vec<Vec<u8>>> {
    let mut states = Vec::new(alloc);
    states.push(rows_in(alloc, before)?).ok()?;
    if !scenario.older_format.is_empty() {
        states.push(rows_in(alloc, present)?).ok()?;
    }
    add_steps(alloc, present, scenario.steps, &mut states)?;
    let rows = rows_in(alloc, after)?;
    if *states.last()? != rows {
        states.push(rows).ok()?;
    }
    Some(states)
}

// Sends the messages to files in the scenario's format, in a group if they have one.
//
// Returns `None` unless the responses and the rows are those of files in the present format, with a
// commit for each message.
fn run_messages(
    alloc: Global,
    scenario: &Scenario<'_>,
    before: &FileBytes,
    present: &FileBytes,
    options: Options,
) -> Option<Run> {
    let wanted = send_in(alloc, present, options, scenario.messages.batches)?;
    let run = run_in(alloc, before, options, Operation::Send(scenario.messages))?;
    let is_same = rows_in(alloc, &run.file_bytes)? == rows_in(alloc, &wanted.file_bytes)?;
    let is_answered = run.output.text == wanted.output.text && run.output.lasts;
    (is_same && is_answered).then_some(run)
}

/// Sends the messages of a scenario after its setup, which left these bytes.
pub fn reference_of(
    alloc: Global,
    present: &FileBytes,
    scenario: &Scenario<'_>,
    options: Options,
) -> Option<Reference> {
    let before = with_statements(alloc, present, scenario.older_format)?;
    let run = run_messages(alloc, scenario, &before, present, options)?;
    let states = states_of(alloc, scenario, &before, present, &run.file_bytes)?;
    let opening = send_in(alloc, &before, options, &[])?;
    let next_batches: [Requests<'_>; 1] = [&[scenario.next_request]];
    let next = send_in(alloc, &run.file_bytes, WITHOUT_CHECKPOINTS, &next_batches)?;
    Some(Reference {
        before,
        after: run.file_bytes,
        states,
        opened: usize::from(!scenario.older_format.is_empty()),
        is_accepted: run.output.is_accepted,
        text: run.output.text,
        next_text: next.output.text,
        next_rows: rows_in(alloc, &next.file_bytes)?,
        calls_to_open: opening.calls,
        calls_to_end: run.calls,
    })
}

/// Runs a scenario without a stop.
pub fn reference_run(
    alloc: Global,
    scenario: &Scenario<'_>,
    options: Options,
) -> Option<Reference> {
    let present = files_after(alloc, scenario.setup, options)?;
    reference_of(alloc, &present, scenario, options)
}

/// Returns whether each message was accepted, each commit makes another state, and the next message
/// changes nothing.
pub fn is_valid(reference: &Reference, scenario: &Scenario<'_>) -> Option<bool> {
    let states = &reference.states;
    for state in 0..states.len() {
        if state_with_rows(states, states.get(state)?)? != state {
            return Some(false);
        }
    }
    let count = scenario.steps.len().saturating_add(2);
    let is_unchanged = reference.next_rows == *states.last()?;
    Some(reference.is_accepted && states.len() == count && is_unchanged)
}
