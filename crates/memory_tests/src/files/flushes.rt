//! Tests that each row of a report, an export and an audit is flushed before the next is written,
//! and that only flushed rows are counted.
use crate::files::fixture::{
    CASES, FileCase, MemoryRegister, is_written_again, prepared_register, write_file,
};
use bulk::{BulkFault, FaultKind};
use std::alloc::Global;
use std::io;
use std::io::{ErrorKind, Write};

// A writer that marks each flush with a bar. After `flushes_left` flushes, each fails.
#[derive(Drop)]
struct FlushMarker {
    text: Vec<u8>,
    flushes_left: usize,
}

impl Write for FlushMarker {
    fn write(&mut self, buf: &[u8]) -> io::Result<usize> {
        self.text.write(buf)
    }

    fn flush(&mut self) -> io::Result<()> {
        if self.flushes_left == 0 {
            return Err(ErrorKind::StorageFull.into());
        }
        self.flushes_left -= 1;
        self.text.write_all(b"|")
    }
}

// Returns what a writer has that flushes so often: the lines, each but the last with a bar.
fn marked_text(alloc: Global, lines: &[&str], flushes: usize) -> Option<String> {
    let mut text = String::new(alloc);
    for (index, line) in lines.iter().enumerate() {
        text.push_str(line).ok()?;
        if index == flushes {
            return Some(text);
        }
        text.push_str("|").ok()?;
    }
    Some(text)
}

// Returns the result with a writer that flushes so often. The first line is the header.
fn result_after(lines: &[&str], flushes: usize) -> Result<u64, BulkFault> {
    if flushes < lines.len() {
        Err(BulkFault {
            kind: FaultKind::Write,
            rows: flushes.saturating_sub(1) as u64,
        })
    } else {
        Ok(lines.len().saturating_sub(1) as u64)
    }
}

// Returns whether a file is written like this by a writer that flushes so often. No command is
// executed after a line that is not flushed.
fn is_flushed_in(
    alloc: Global,
    register: &mut MemoryRegister,
    case: &FileCase,
    flushes: usize,
) -> Option<bool> {
    let expected = marked_text(alloc, case.lines, flushes)?;
    let mut writer = FlushMarker {
        text: Vec::new(alloc),
        flushes_left: flushes,
    };
    let written = write_file(
        alloc,
        register,
        case.task,
        case.file.as_bytes(),
        &mut writer,
    );
    let is_written = writer.text.as_slice() == expected.as_bytes();
    let is_counted = written == result_after(case.lines, flushes);
    let executed = flushes.min(case.lines.len().saturating_sub(1));
    Some(is_written && is_counted && is_written_again(alloc, register, case, executed)?)
}

fn is_flushed(alloc: Global, case: &FileCase, flushes: usize) -> Option<bool> {
    let mut register = prepared_register(alloc, case.preparation)?;
    is_flushed_in(alloc, &mut register, case, flushes)
}

// Returns the first file, and number of flushes, that is written differently.
fn first_wrong_flush(alloc: Global) -> Option<(usize, usize)> {
    for (place, case) in CASES.iter().enumerate() {
        for flushes in 0..=4 {
            if is_flushed(alloc, case, flushes) != Some(true) {
                return Some((place, flushes));
            }
        }
    }
    None
}

#[test]
fn each_row_is_flushed_before_the_next(rt: HostRuntime) {
    assert_eq!(rt; first_wrong_flush(rt.alloc()), None);
}
