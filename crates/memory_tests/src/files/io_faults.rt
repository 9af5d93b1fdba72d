//! Tests files that are cut, hostile ones among them, readers and writers that fail in mid-file, and
//! readers that return a byte at a time.
use crate::faulty_io::{ChunkedReader, LimitedWriter, MAX_CHUNK};
use crate::files::fixture::{
    CASES, FileCase, HEADER, MemoryRegister, Preparation, REPORT_HEADER, Task, is_written_again,
    prepared_register, write_file,
};
use bulk::{BulkFault, FaultKind, run_file};
use std::alloc::Global;

// A row of a file of commands, its line of the report, and its line if it is cut.
type Row = (&'static [u8], &'static str, &'static str);

// Three commands, and a bad row: a quote inside a field, a byte that is not UTF-8, and a quote that
// opens a field and never closes, so that its row is the rest of the file.
static FILES: [&[Row]; 4] = [
    &[
        (
            b"AAAA,subscriptionVersionNewSP-Create,2025331234,BBBB,AAAA,100,2025440000,,\n",
            "1,2025331234,ok,1\n",
            "1,,bad_row,\n",
        ),
        (
            b"CCCC,subscriptionVersionNewSP-Create,2025331234,BBBB,CCCC,100,2025550000,,\n",
            "2,2025331234,busy,\n",
            "2,,bad_row,\n",
        ),
        (
            b"BBBB,subscriptionVersionOldSP-Create,2025331234,BBBB,AAAA,100,,,yes\n",
            "3,2025331234,ok,1\n",
            "3,,bad_row,\n",
        ),
    ],
    &[
        (
            b"AA\"AA,subscriptionVersionCancel,2025331234,,,,,,\n",
            "1,,bad_row,\n",
            "1,,bad_row,\n",
        ),
        (
            b"DDDD,subscriptionVersionCancel,2025331234,,,,,,\n",
            "2,2025331234,unknown_carrier,\n",
            "2,,bad_row,\n",
        ),
    ],
    &[
        (
            b"AA\xffA,subscriptionVersionCancel,2025331234,,,,,,\n",
            "1,,bad_row,\n",
            "1,,bad_row,\n",
        ),
        (
            b"DDDD,subscriptionVersionCancel,2025331234,,,,,,\n",
            "2,2025331234,unknown_carrier,\n",
            "2,,bad_row,\n",
        ),
    ],
    &[(
        b"\"AAAA,subscriptionVersionCancel,2025331234,,,,,,\nDDDD,subscriptionVersionCancel,2025331234,,,,,,\n",
        "1,,bad_row,\n",
        "1,,bad_row,\n",
    )],
];

fn fault_after(kind: FaultKind, rows: usize) -> Result<u64, BulkFault> {
    Err(BulkFault {
        kind,
        rows: rows as u64,
    })
}

// A report, and the result of the run.
#[derive(Drop)]
struct Expected {
    report: String,
    run_result: Result<u64, BulkFault>,
}

// Returns the report of a file that ends at a place, or whose reader fails there. If it ends, a row
// that lacks only its line feed is whole; a row that is cut is bad. If its reader fails, only the
// rows before are reported.
fn expected_at(alloc: Global, rows: &[Row], place: usize, fails: bool) -> Option<Expected> {
    let mut report = String::new(alloc);
    let reached = if fails {
        place
    } else {
        place.saturating_add(1)
    };
    if reached < HEADER.len() {
        let kind = if fails {
            FaultKind::Read
        } else {
            FaultKind::BadHeader
        };
        return Some(Expected {
            report,
            run_result: fault_after(kind, 0),
        });
    }
    report.push_str(REPORT_HEADER).ok()?;
    let mut start = HEADER.len();
    let mut count = 0usize;
    for (row, whole, cut) in rows {
        let end = start.saturating_add(row.len());
        if reached >= end {
            report.push_str(whole).ok()?;
            count = count.saturating_add(1);
        } else if !fails && place > start {
            report.push_str(cut).ok()?;
            count = count.saturating_add(1);
        }
        start = end;
    }
    Some(Expected {
        report,
        run_result: if fails {
            fault_after(FaultKind::Read, count)
        } else {
            Ok(count as u64)
        },
    })
}

// Returns whether a file has the expected report if it is read in pieces of this size and ends at a
// place, or its reader fails there.
fn is_reported(
    alloc: Global,
    rows: &[Row],
    file: &[u8],
    chunk_size: usize,
    fails: bool,
) -> Option<bool> {
    let expected = expected_at(alloc, rows, file.len(), fails)?;
    let mut register = prepared_register(alloc, Preparation::Carriers)?;
    let reader = ChunkedReader::new(file, chunk_size, fails);
    let mut output = Vec::new(alloc);
    let run_result = run_file(alloc, &mut register, reader, &mut output);
    let is_same = output.as_slice() == expected.report.as_bytes();
    Some(is_same && run_result == expected.run_result)
}

fn file_of(alloc: Global, rows: &[Row]) -> Option<Vec<u8>> {
    let mut file = Vec::new(alloc);
    file.extend_from_slice(HEADER.as_bytes()).ok()?;
    for (row, _, _) in rows {
        file.extend_from_slice(row).ok()?;
    }
    Some(file)
}

// Returns the first place with another report of a file that ends there, or whose reader fails
// there if the file is to be read with failures.
fn first_wrong_read(alloc: Global, rows: &[Row], with_faults: bool) -> Option<Option<usize>> {
    let file = file_of(alloc, rows)?;
    for place in 0..=file.len() {
        let part = file.get(..place)?;
        let is_whole = is_reported(alloc, rows, part, MAX_CHUNK, false) == Some(true);
        let is_by_bytes = is_reported(alloc, rows, part, 1, false) == Some(true);
        let is_fault = !with_faults
            || is_reported(alloc, rows, part, MAX_CHUNK, true) == Some(true);
        if !is_whole || !is_by_bytes || !is_fault {
            return Some(Some(place));
        }
    }
    Some(None)
}

// Returns the first file with a wrong place.
fn first_wrong_file(alloc: Global) -> Option<usize> {
    for (index, rows) in FILES.iter().enumerate() {
        if first_wrong_read(alloc, rows, index == 0) != Some(None) {
            return Some(index);
        }
    }
    None
}

#[test]
fn cut_files_are_run_up_to_the_cut(rt: HostRuntime) {
    assert_eq!(rt; first_wrong_file(rt.alloc()), None);
}

// Returns these lines as one text.
fn text_of(alloc: Global, lines: &[&str]) -> Option<String> {
    let mut text = String::new(alloc);
    for line in lines {
        text.push_str(line).ok()?;
    }
    Some(text)
}

// Returns how many whole lines after the header these bytes hold.
fn count_lines_within(lines: &[&str], capacity: usize) -> usize {
    let mut end = 0usize;
    let mut count = 0usize;
    for line in lines {
        end = end.saturating_add(line.len());
        if end > capacity {
            break;
        }
        count = count.saturating_add(1);
    }
    count.saturating_sub(1)
}

// Returns whether a writer that takes `capacity` bytes has as many of what is written, and a whole
// line is counted. A command more is executed than there are whole lines, if the header is whole.
fn is_cut_written_in(
    alloc: Global,
    register: &mut MemoryRegister,
    case: &FileCase,
    capacity: usize,
) -> Option<bool> {
    let text = text_of(alloc, case.lines)?;
    let whole = count_lines_within(case.lines, capacity);
    let is_cut = capacity < text.len();
    let expected = if is_cut {
        fault_after(FaultKind::Write, whole)
    } else {
        Ok(whole as u64)
    };
    let reader = ChunkedReader::new(case.file.as_bytes(), 1, false);
    let mut writer = LimitedWriter::new(alloc, capacity);
    let written = write_file(alloc, register, case.task, reader, &mut writer);
    let is_prefix = writer.bytes.as_slice() == text.as_bytes().get(..capacity)?;
    let is_header_whole = capacity >= case.lines.first()?.len();
    let executed = whole.saturating_add(usize::from(is_cut && is_header_whole));
    let is_again = is_written_again(alloc, register, case, executed)?;
    Some(written == expected && is_prefix && is_again)
}

fn is_cut_written(alloc: Global, case: &FileCase, capacity: usize) -> Option<bool> {
    let mut register = prepared_register(alloc, case.preparation)?;
    is_cut_written_in(alloc, &mut register, case, capacity)
}

// Returns the first file, and limit of its writer, that is written differently.
fn first_wrong_write(alloc: Global) -> Option<(usize, usize)> {
    for (place, case) in CASES.iter().enumerate() {
        let mut length = 0usize;
        for line in case.lines {
            length = length.saturating_add(line.len());
        }
        for capacity in 0..length.saturating_add(1) {
            if is_cut_written(alloc, case, capacity) != Some(true) {
                return Some((place, capacity));
            }
        }
    }
    None
}

#[test]
fn a_writer_that_fails_leaves_whole_lines(rt: HostRuntime) {
    assert_eq!(rt; first_wrong_write(rt.alloc()), None);
}

const COPY: &str = "subject,lrn,cic\n2025331234,2025550000,\n2025339999,2025330000,\n";

// Returns whether the audit of a copy whose reader fails at a place writes nothing.
fn is_audit_refused(alloc: Global, place: usize) -> Option<bool> {
    let reader = ChunkedReader::new(COPY.as_bytes().get(..place)?, MAX_CHUNK, true);
    let mut output = Vec::new(alloc);
    let mut register = prepared_register(alloc, Preparation::Port)?;
    let written = write_file(
        alloc,
        &mut register,
        Task::Audit("AAAA"),
        reader,
        &mut output,
    );
    Some(written == fault_after(FaultKind::Read, 0) && output.is_empty())
}

// Returns the first place with another audit.
fn first_wrong_audit(alloc: Global) -> Option<usize> {
    for place in 0..=COPY.len() {
        if is_audit_refused(alloc, place) != Some(true) {
            return Some(place);
        }
    }
    None
}

#[test]
fn an_audit_whose_reader_fails_writes_nothing(rt: HostRuntime) {
    assert_eq!(rt; first_wrong_audit(rt.alloc()), None);
}
