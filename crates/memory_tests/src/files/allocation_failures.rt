//! Tests allocation failures in runs, exports and audits. The same tests run with each allocation
//! refused in turn.
//!
//! A run that meets one reports it: its lines are whole, their commands were executed and no
//! others, and another run continues there. An export or an audit that meets one writes nothing,
//! and the next is whole.
use crate::files::fixture::{
    CASES, FileCase, MemoryRegister, Preparation, Task, has_lines, prepared_register, write_file,
};
use crate::retries::buffer_with_retry;
use bulk::FaultKind;
use std::alloc::Global;

const CAPACITY: usize = 1024;

fn prepared_with_retry(alloc: Global, preparation: Preparation) -> Option<MemoryRegister> {
    match prepared_register(alloc, preparation) {
        Some(register) => Some(register),
        None => prepared_register(alloc, preparation),
    }
}

// Does what is to be done with a file, and returns how many of these lines are written after the
// header, if all are or an allocation failed.
fn count_written(
    alloc: Global,
    register: &mut MemoryRegister,
    case: &FileCase,
    lines: &[&str],
) -> Option<usize> {
    let mut buffer = buffer_with_retry(alloc, CAPACITY)?;
    let written = write_file(
        alloc,
        register,
        case.task,
        case.file.as_bytes(),
        &mut buffer,
    );
    let all = lines.len().saturating_sub(1);
    let count = match written {
        Ok(rows) if rows as usize == all => all,
        Err(fault) if fault.kind == FaultKind::NoMemory => fault.rows as usize,
        _ => return None,
    };
    let is_run = match case.task {
        Task::Run => true,
        Task::Export | Task::Audit(_) => false,
    };
    let are_lines = (is_run || written.is_ok())
        && has_lines(&buffer, lines.get(..count.saturating_add(1))?);
    if are_lines || (count == 0 && buffer.is_empty()) {
        Some(count)
    } else {
        None
    }
}

// Returns whether a file that meets an allocation failure is whole the next time.
fn is_recovered_in(alloc: Global, register: &mut MemoryRegister, case: &FileCase) -> Option<bool> {
    let all = case.lines.len().saturating_sub(1);
    let first = count_written(alloc, register, case, case.lines)?;
    let lines = case.again.get(first).copied().unwrap_or(case.lines);
    let next = count_written(alloc, register, case, lines)?;
    Some(first == all || next == all)
}

fn is_recovered(alloc: Global, case: &FileCase) -> Option<bool> {
    let mut register = prepared_with_retry(alloc, case.preparation)?;
    is_recovered_in(alloc, &mut register, case)
}

// Returns the first file that is written differently.
fn first_wrong_file(alloc: Global) -> Option<usize> {
    for (place, case) in CASES.iter().enumerate() {
        if is_recovered(alloc, case) != Some(true) {
            return Some(place);
        }
    }
    None
}

#[test]
fn a_file_with_an_allocation_failure(rt: HostRuntime) {
    assert_eq!(rt; first_wrong_file(rt.alloc()), None);
}
