//! Tests failing devices in runs, exports and audits: each call of the store fails, once or from
//! then on.
//!
//! A run that meets the failure reports `Storage`: its lines are whole, their commands were
//! executed and no others. Over the mended store, the rest of the file is answered as if nothing
//! had failed. An export or an audit that meets it writes nothing, and the next is whole.
use crate::files::fixture::{
    HEADER, MODIFIES, MODIFIES_REPORT, PORTS, PORTS_REPORT, Preparation, REPORT_HEADER, Task,
    prepared_register, write_file,
};
use crate::fixture::open_register;
use crate::over_flaky::{Commits, Failure, RegisterTask, over_flaky};
use bulk::{BulkFault, FaultKind};
use register::Register;
use settle::Store;
use std::alloc::Global;
use std::cell::Cell;
use store::Failing;

// A register, what is done with a file, what is written, and the result.
#[derive(Clone, Copy)]
struct Case {
    preparation: Preparation,
    task: Task,
    file: &'static str,
    text: &'static str,
    result: Result<u64, BulkFault>,
    // The rest of the file after each number of executed commands, with its report; empty if each
    // row has one line.
    rests: &'static [(&'static str, &'static str)],
}

// ---- files of commands

// The third number is in force, and another port of it is open. A disconnect takes the version in
// force; a cancel takes the open one, or the one in force if no other is open.
const RETURNS: &str =
    "caller,action,subject,old,new,due,lrn,cic,flag\nCCCC,subscriptionVersionNewSP-Create,2025331003,AAAA,CCCC,0,2025550000,,\nAAAA,subscriptionVersionDisconnect,2025331003,,,,,,\nCCCC,subscriptionVersionCancel,2025331003,,,,,,\nAAAA,subscriptionVersionCancel,2025331003,,,,,,\nAAAA,subscriptionVersionDisconnect,2025331003,,,,,,\nAAAA,subscriptionVersionDisconnect,2025331003,,,,,,\n";

// The report of those returns.
const RETURNS_REPORT: &str =
    "row,subject,result,id\n1,2025331003,ok,4\n2,2025331003,busy,\n3,2025331003,ok,4\n4,2025331003,wrong_status,\n5,2025331003,ok,3\n6,2025331003,wrong_status,\n";

// Two commands on two numbers each.
const RANGES: &str =
    "caller,action,subject,old,new,due,lrn,cic,flag\nAAAA,subscriptionVersionNewSP-Create,2025331234-2025331235,BBBB,AAAA,100,2025440000,0288,\nAAAA,subscriptionVersionCancel,2025331234-2025331235,,,,,,\n";

// The report of those ranges.
const RANGES_REPORT: &str =
    "row,subject,result,id\n1,2025331234,ok,1\n1,2025331235,ok,2\n2,2025331234,ok,1\n2,2025331235,ok,2\n";

// Three creates of one number, the second for another new provider; and ranges.
static COMMANDS: [Case; 4] = [
    Case {
        preparation: Preparation::Carriers,
        task: Task::Run,
        file: "caller,action,subject,old,new,due,lrn,cic,flag\nAAAA,subscriptionVersionNewSP-Create,2025331234,BBBB,AAAA,100,2025440000,,\nCCCC,subscriptionVersionNewSP-Create,2025331234,BBBB,CCCC,100,2025550000,,\nBBBB,subscriptionVersionOldSP-Create,2025331234,BBBB,AAAA,100,,,yes\n",
        text: "row,subject,result,id\n1,2025331234,ok,1\n2,2025331234,busy,\n3,2025331234,ok,1\n",
        result: Ok(3),
        rests: &[],
    },
    Case {
        preparation: Preparation::Ports,
        task: Task::Run,
        file: MODIFIES,
        text: MODIFIES_REPORT,
        result: Ok(5),
        rests: &[],
    },
    Case {
        preparation: Preparation::Modifies,
        task: Task::Run,
        file: RETURNS,
        text: RETURNS_REPORT,
        result: Ok(6),
        rests: &[],
    },
    Case {
        preparation: Preparation::Carriers,
        task: Task::Run,
        file: RANGES,
        text: RANGES_REPORT,
        result: Ok(4),
        rests: &[
            (RANGES, RANGES_REPORT),
            (
                "caller,action,subject,old,new,due,lrn,cic,flag\nAAAA,subscriptionVersionNewSP-Create,2025331235,BBBB,AAAA,100,2025440000,0288,\nAAAA,subscriptionVersionCancel,2025331234-2025331235,,,,,,\n",
                "row,subject,result,id\n1,2025331235,ok,2\n2,2025331234,ok,1\n2,2025331235,ok,2\n",
            ),
            (
                "caller,action,subject,old,new,due,lrn,cic,flag\nAAAA,subscriptionVersionCancel,2025331234-2025331235,,,,,,\n",
                "row,subject,result,id\n1,2025331234,ok,1\n1,2025331235,ok,2\n",
            ),
            (
                "caller,action,subject,old,new,due,lrn,cic,flag\nAAAA,subscriptionVersionCancel,2025331235,,,,,,\n",
                "row,subject,result,id\n1,2025331235,ok,2\n",
            ),
        ],
    },
];

static PORTS_RUN: Case = Case {
    preparation: Preparation::Carriers,
    task: Task::Run,
    file: PORTS,
    text: PORTS_REPORT,
    result: Ok(22),
    rests: &[],
};

// Files with bad rows. Some make no call.
static BAD_ROWS: [Case; 8] = [
    Case {
        preparation: Preparation::Carriers,
        task: Task::Run,
        file: "caller,action,subject,old,new,due,lrn,cic,flag\n",
        text: "row,subject,result,id\n",
        result: Ok(0),
        rests: &[],
    },
    Case {
        preparation: Preparation::Carriers,
        task: Task::Run,
        file: "\u{feff}caller,action,subject,old,new,due,lrn,cic,flag\r\nAAAA,subscriptionVersionActivate,2025331234,,,,,,\r\n",
        text: "row,subject,result,id\n1,2025331234,not_found,\n",
        result: Ok(1),
        rests: &[],
    },
    Case {
        preparation: Preparation::Carriers,
        task: Task::Run,
        file: "caller,action,subject,old,new,due,lrn,cic,flag\nAAAA,subscriptionVersionCancel,2025331234-2025331233,,,,,,\nAAAA,subscriptionVersionCancel,2025331000-2025332000,,,,,,\nAAAA,subscriptionVersionCancel,2025339999-2025340000,,,,,,\n",
        text: "row,subject,result,id\n1,,bad_row,\n2,,bad_row,\n3,,bad_row,\n",
        result: Ok(3),
        rests: &[],
    },
    Case {
        preparation: Preparation::Carriers,
        task: Task::Run,
        file: "caller,action,subject,old,new,due,lrn,cic,flag\nAA\"AA,subscriptionVersionCancel,2025331234,,,,,,\nDDDD,subscriptionVersionCancel,2025331234,,,,,,\n",
        text: "row,subject,result,id\n1,,bad_row,\n2,2025331234,unknown_carrier,\n",
        result: Ok(2),
        rests: &[],
    },
    Case {
        preparation: Preparation::Carriers,
        task: Task::Run,
        file: "caller,action,subject,old,new,due,lrn,cic,flag\n\"AAAA,subscriptionVersionCancel,2025331234,,,,,,\nDDDD,subscriptionVersionCancel,2025331234,,,,,,\n",
        text: "row,subject,result,id\n1,,bad_row,\n",
        result: Ok(1),
        rests: &[],
    },
    Case {
        preparation: Preparation::Carriers,
        task: Task::Run,
        file: "caller,action,subject,old,new,due,lrn,cic,flag\nAAAA,subscriptionVersionCancel,2025331234,,,,,\n\nNPAC,subscriptionVersionCancel,2025331234,,,,,,\n",
        text: "row,subject,result,id\n1,,bad_row,\n2,2025331234,unknown_carrier,\n",
        result: Ok(2),
        rests: &[],
    },
    Case {
        preparation: Preparation::Carriers,
        task: Task::Run,
        file: "caller,action,subject,old,new,due,lrn,cic,flag\nAAAA,subscriptionVersionActivate,2025331234,,,5,,,\nAAAA,subscriptionVersionDisconnect,2025331234,,,5,,,\nBBBB,subscriptionVersionOldSP-Create,2025331234,BBBB,AAAA,0,,,maybe\n",
        text: "row,subject,result,id\n1,,bad_row,\n2,2025331234,not_found,\n3,,bad_row,\n",
        result: Ok(3),
        rests: &[],
    },
    Case {
        preparation: Preparation::Carriers,
        task: Task::Run,
        file: "caller,action,subject,old,new,due,lrn,cic,flag\nBBBB,subscriptionVersionOldSP-Create,2025331234,BBBB,AAAA,0,,,no\nBBBB,subscriptionVersionOldSP-Create,2025331234,BBBB,AAAA,0,,,yes\nBBBB,subscriptionVersionModify,2025331234,,,,,,\n",
        text: "row,subject,result,id\n1,2025331234,too_late,\n2,2025331234,ok,1\n3,,bad_row,\n",
        result: Ok(3),
        rests: &[],
    },
];

// ---- exports and audits

const UNKNOWN_CARRIER: Result<u64, BulkFault> = Err(BulkFault {
    kind: FaultKind::UnknownCarrier,
    rows: 0,
});

const BAD_HEADER: Result<u64, BulkFault> = Err(BulkFault {
    kind: FaultKind::BadHeader,
    rows: 0,
});

const BAD_FILE: Result<u64, BulkFault> = Err(BulkFault {
    kind: FaultKind::BadFile,
    rows: 0,
});

// Exports, and audits of a number that is in force at 2025440000, whose download is pending for
// CCCC.
static WRITINGS: [Case; 23] = [
    Case {
        preparation: Preparation::Carriers,
        task: Task::Export,
        file: "",
        text: "subject,lrn,cic\n",
        result: Ok(0),
        rests: &[],
    },
    Case {
        preparation: Preparation::Port,
        task: Task::Export,
        file: "",
        text: "subject,lrn,cic\n2025331234,2025440000,\n",
        result: Ok(1),
        rests: &[],
    },
    Case {
        preparation: Preparation::Pool,
        task: Task::Export,
        file: "",
        text: "subject,lrn,cic\n2025337,2025550000,\n2025337001,2025330000,\n2025337002,2025330000,\n",
        result: Ok(3),
        rests: &[],
    },
    Case {
        preparation: Preparation::Port,
        task: Task::Audit("AAAA"),
        file: "subject,lrn,cic\n2025331234,2025550000,\n2025339999,2025330000,\n",
        text: "subject,finding\n2025331234,different\n2025339999,extra\n",
        result: Ok(2),
        rests: &[],
    },
    Case {
        preparation: Preparation::Port,
        task: Task::Audit("AAAA"),
        file: "subject,lrn,cic\n2025339999,2025330000,\n2025331234,2025550000,\n",
        text: "subject,finding\n2025331234,different\n2025339999,extra\n",
        result: Ok(2),
        rests: &[],
    },
    Case {
        preparation: Preparation::Port,
        task: Task::Audit("AAAA"),
        file: "\u{feff}subject,lrn,cic\r\n2025331234,2025440000,\r\n",
        text: "subject,finding\n",
        result: Ok(0),
        rests: &[],
    },
    Case {
        preparation: Preparation::Port,
        task: Task::Audit("AAAA"),
        file: "subject,lrn,cic\n2025331234,2025440000,0288\n",
        text: "subject,finding\n2025331234,different\n",
        result: Ok(1),
        rests: &[],
    },
    Case {
        preparation: Preparation::Port,
        task: Task::Audit("AAAA"),
        file: "subject,lrn,cic\n",
        text: "subject,finding\n2025331234,missing\n",
        result: Ok(1),
        rests: &[],
    },
    Case {
        preparation: Preparation::Port,
        task: Task::Audit("AAAA"),
        file: "subject,lrn,cic\n2025331,2025440000,\n",
        text: "subject,finding\n2025331,extra\n2025331234,missing\n",
        result: Ok(2),
        rests: &[],
    },
    Case {
        preparation: Preparation::Port,
        task: Task::Audit("CCCC"),
        file: "subject,lrn,cic\n",
        text: "subject,finding\n2025331234,waiting\n",
        result: Ok(1),
        rests: &[],
    },
    Case {
        preparation: Preparation::Port,
        task: Task::Audit("CCCC"),
        file: "subject,lrn,cic\n2025331234,2025550000,\n2025331233,2025330000,\n",
        text: "subject,finding\n2025331233,extra\n2025331234,waiting\n",
        result: Ok(2),
        rests: &[],
    },
    Case {
        preparation: Preparation::Port,
        task: Task::Audit("CCCC"),
        file: "subject,lrn,cic\n2025331234,2025440000,\n",
        text: "subject,finding\n2025331234,waiting\n",
        result: Ok(1),
        rests: &[],
    },
    Case {
        preparation: Preparation::Port,
        task: Task::Audit("DDDD"),
        file: "subject,lrn,cic\n",
        text: "",
        result: UNKNOWN_CARRIER,
        rests: &[],
    },
    Case {
        preparation: Preparation::Port,
        task: Task::Audit("NPAC"),
        file: "",
        text: "",
        result: UNKNOWN_CARRIER,
        rests: &[],
    },
    Case {
        preparation: Preparation::Port,
        task: Task::Audit("AAAA"),
        file: "",
        text: "",
        result: BAD_HEADER,
        rests: &[],
    },
    Case {
        preparation: Preparation::Port,
        task: Task::Audit("AAAA"),
        file: "subject,lrn\n",
        text: "",
        result: BAD_HEADER,
        rests: &[],
    },
    Case {
        preparation: Preparation::Port,
        task: Task::Audit("AAAA"),
        file: "subject,lrn,cic\n2025331234,2025440000\n",
        text: "",
        result: BAD_FILE,
        rests: &[],
    },
    Case {
        preparation: Preparation::Port,
        task: Task::Audit("AAAA"),
        file: "subject,lrn,cic\n2025331234,2025440000,,\n",
        text: "",
        result: BAD_FILE,
        rests: &[],
    },
    Case {
        preparation: Preparation::Port,
        task: Task::Audit("AAAA"),
        file: "subject,lrn,cic\n202533123,2025440000,\n",
        text: "",
        result: BAD_FILE,
        rests: &[],
    },
    Case {
        preparation: Preparation::Port,
        task: Task::Audit("AAAA"),
        file: "subject,lrn,cic\n2025331234,202544000,\n",
        text: "",
        result: BAD_FILE,
        rests: &[],
    },
    Case {
        preparation: Preparation::Port,
        task: Task::Audit("AAAA"),
        file: "subject,lrn,cic\n2025331234,2025440000,288\n",
        text: "",
        result: BAD_FILE,
        rests: &[],
    },
    Case {
        preparation: Preparation::Port,
        task: Task::Audit("AAAA"),
        file: "subject,lrn,cic\n2025331234,2025440000,\n2025339999,2025330000,\n2025331234,2025440000,\n",
        text: "",
        result: BAD_FILE,
        rests: &[],
    },
    Case {
        preparation: Preparation::Port,
        task: Task::Audit("AAAA"),
        file: "subject,lrn,cic\n2025331234-2025331235,2025440000,\n",
        text: "",
        result: BAD_FILE,
        rests: &[],
    },
];

// Returns the end of the first `count` lines.
fn end_of_lines(text: &str, count: usize) -> usize {
    let mut lines = 0;
    for (place, byte) in text.bytes().enumerate() {
        if lines == count {
            return place;
        }
        if byte == b'\n' {
            lines = lines.saturating_add(1);
        }
    }
    text.len()
}

// Returns the file of the rows after the first `executed`.
fn rest_of_file(alloc: Global, file: &str, executed: usize) -> Option<String> {
    let mut rest = String::new(alloc);
    rest.push_str(HEADER).ok()?;
    let start = end_of_lines(file, executed.saturating_add(1));
    rest.push_str(file.get(start..)?).ok()?;
    Some(rest)
}

// Returns the report of the rows after the first `executed`, which are counted from 1.
fn rest_of_report(alloc: Global, report: &str, executed: usize) -> Option<String> {
    let mut rest = String::new(alloc);
    rest.push_str(REPORT_HEADER).ok()?;
    for (index, line) in report.lines().skip(executed.saturating_add(1)).enumerate() {
        let row = index.saturating_add(1);
        let (_, answer) = line.split_once(",")?;
        let text = format!(in alloc; "{row},{answer}\n").ok()?;
        rest.push_str(text.as_str()).ok()?;
    }
    Some(rest)
}

// Does what is to be done with a file. Returns how many lines were written after the header if the
// device failed; an export or an audit has then written nothing.
fn lines_until_failure<S: Store>(
    alloc: Global,
    register: &mut Register<S>,
    case: &Case,
) -> Option<Option<usize>> {
    let mut output = Vec::new(alloc);
    let written = write_file(
        alloc,
        register,
        case.task,
        case.file.as_bytes(),
        &mut output,
    );
    if written == case.result && output.as_slice() == case.text.as_bytes() {
        return Some(None);
    }
    let BulkFault {
        kind: FaultKind::Storage,
        rows,
    } = written.err()?
    else {
        return None;
    };
    let executed = rows as usize;
    let end = match case.task {
        Task::Run => end_of_lines(case.text, executed.saturating_add(1)),
        Task::Export | Task::Audit(_) => 0,
    };
    if output.as_slice() == case.text.as_bytes().get(..end)? && (end > 0 || executed == 0) {
        Some(Some(executed))
    } else {
        None
    }
}

// Returns whether a file is run with this report, a line for each command.
fn is_whole_run<S: Store>(
    alloc: Global,
    register: &mut Register<S>,
    file: &str,
    report: &str,
) -> bool {
    let mut output = Vec::new(alloc);
    let count = report.lines().count().saturating_sub(1) as u64;
    let written = write_file(alloc, register, Task::Run, file.as_bytes(), &mut output);
    written == Ok(count) && output.as_slice() == report.as_bytes()
}

// Returns whether the rest of a file is written as if nothing had failed: all of an export or an
// audit.
fn is_rest_written<S: Store>(
    alloc: Global,
    register: &mut Register<S>,
    case: &Case,
    executed: usize,
) -> Option<bool> {
    match case.task {
        Task::Run => {}
        Task::Export | Task::Audit(_) => {
            return Some(lines_until_failure(alloc, register, case) == Some(None));
        }
    }
    if let Some((file, report)) = case.rests.get(executed) {
        return Some(is_whole_run(alloc, register, file, report));
    }
    let file = rest_of_file(alloc, case.file, executed)?;
    let report = rest_of_report(alloc, case.text, executed)?;
    Some(is_whole_run(alloc, register, file.as_str(), report.as_str()))
}

// What became of a file whose store fails.
#[derive(Clone, Copy)]
enum Outcome {
    // It was written before a call failed.
    Whole,
    // A call failed once, and then the rest was written.
    Continued,
    // The calls fail from the one after this many commands on.
    Stopped(usize),
}

// A file, and how its store fails.
#[derive(Drop)]
struct Writing<'a> {
    alloc: Global,
    case: &'a Case,
    failing: Failing,
}

impl RegisterTask for Writing<'_> {
    type Output = Outcome;

    fn run<S: Store>(&mut self, register: &mut Register<S>) -> Option<Outcome> {
        let Some(executed) = lines_until_failure(self.alloc, register, self.case)? else {
            return Some(Outcome::Whole);
        };
        match self.failing {
            Failing::Once => is_rest_written(self.alloc, register, self.case, executed)?.then_some(
                Outcome::Continued,
            ),
            Failing::Always => {
                lines_until_failure(self.alloc, register, self.case)??;
                Some(Outcome::Stopped(executed))
            }
        }
    }
}

// Returns whether the call number `before` + 1 failed, and the rest was written over the mended
// store.
fn is_failure_reported(alloc: Global, case: &Case, failure: Failure) -> Option<bool> {
    let (requested, committed) = (Cell::new(0), Cell::new(0));
    let commits = Commits {
        requested: &requested,
        committed: &committed,
    };
    let mut task = Writing {
        alloc,
        case,
        failing: failure.failing,
    };
    let store = prepared_register(alloc, case.preparation)?.close();
    let (outcome, store) = over_flaky(alloc, store, failure, commits, &mut task)?;
    match outcome {
        Outcome::Whole => Some(false),
        Outcome::Continued => Some(true),
        Outcome::Stopped(executed) => {
            let mut mended = open_register(alloc, store)?;
            is_rest_written(alloc, &mut mended, case, executed)?.then_some(true)
        }
    }
}

// Returns how many calls failed, each in a run of its own.
fn count_failures(alloc: Global, case: &Case, failing: Failing) -> Option<u64> {
    let mut failures = 0u64;
    for before in 1..u64::MAX {
        if !is_failure_reported(alloc, case, Failure { before, failing })? {
            return Some(failures);
        }
        failures = failures.saturating_add(1);
    }
    None
}

// Returns the first case that is written differently, or with fewer failing calls than `least`.
// As many must fail once as from then on.
fn first_wrong_case(alloc: Global, cases: &[Case], least: u64) -> Option<usize> {
    for (place, case) in cases.iter().enumerate() {
        let once = count_failures(alloc, case, Failing::Once);
        let always = count_failures(alloc, case, Failing::Always);
        match (once, always) {
            (Some(once), Some(always)) if once == always && once >= least => {}
            _ => return Some(place),
        }
    }
    None
}

#[test]
fn a_run_may_fail_at_each_call(rt: HostRuntime) {
    assert_eq!(rt; first_wrong_case(rt.alloc(), &COMMANDS, 1), None);
}

#[test]
fn the_ports_may_fail_once_at_each_call(rt: HostRuntime) {
    let failures = count_failures(rt.alloc(), &PORTS_RUN, Failing::Once);
    assert!(rt; failures.unwrap_or(0) > 0);
}

#[test]
fn the_ports_may_fail_from_each_call_on(rt: HostRuntime) {
    let failures = count_failures(rt.alloc(), &PORTS_RUN, Failing::Always);
    assert!(rt; failures.unwrap_or(0) > 0);
}

#[test]
fn a_run_with_bad_rows_may_fail_at_each_call(rt: HostRuntime) {
    assert_eq!(rt; first_wrong_case(rt.alloc(), &BAD_ROWS, 0), None);
}

#[test]
fn an_export_or_an_audit_may_fail_at_each_call(rt: HostRuntime) {
    assert_eq!(rt; first_wrong_case(rt.alloc(), &WRITINGS, 1), None);
}
