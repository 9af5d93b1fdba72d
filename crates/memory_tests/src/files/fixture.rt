//! What a register has before a file, for these tests, and what is done with a file.
use crate::fixture::{Exchange, are_accepted, new_register};
use bulk::{BulkFault, FaultKind, audit, export, run_file};
use numbers::Spid;
use register::Register;
use settle::Store;
use std::alloc::Global;
use std::io::{Read, Write};
use store::MemoryStore;

/// The register of these tests.
pub type MemoryRegister = Register<MemoryStore>;

// What prepares a register.
#[derive(Clone, Copy)]
enum Step {
    // These rows are served.
    Serves(&'static [Exchange<'static>]),
    // This file of commands is run.
    Runs(&'static str),
}

/// What a register has before a file.
#[derive(Clone, Copy)]
pub enum Preparation {
    /// Three carriers.
    Carriers,
    /// The ports, and their acknowledgements.
    Ports,
    /// Besides, the modifies, and their acknowledgements.
    Modifies,
    /// 2025331234 in force at 2025440000, which CCCC has not acknowledged.
    Port,
    /// A block with two numbers in force.
    Pool,
}

/// What is done with a file.
#[derive(Clone, Copy)]
pub enum Task {
    /// The commands of the file are run.
    Run,
    /// What is in force is exported; the file is empty.
    Export,
    /// The file is the copy of this carrier, which is audited.
    Audit(&'static str),
}

// Three carriers, each with a routing number, and a code that BBBB holds.
static OPENING: [Exchange<'static>; 7] = [
    ("NPAC", "/carriers", r#"{"spid":"AAAA"}"#, ""),
    ("NPAC", "/carriers", r#"{"spid":"BBBB"}"#, ""),
    ("NPAC", "/carriers", r#"{"spid":"CCCC"}"#, ""),
    ("AAAA", "/lrns", r#"{"lrn":"2025440000"}"#, ""),
    ("BBBB", "/lrns", r#"{"lrn":"2025330000"}"#, ""),
    ("CCCC", "/lrns", r#"{"lrn":"2025550000"}"#, ""),
    ("NPAC", "/codes", r#"{"code":"202533","spid":"BBBB"}"#, ""),
];

/// At minute 0, the first number's port is created, disputed and cancelled by the new provider, the
/// second's is cancelled by the old one, and the third's is activated.
pub const PORTS: &str =
    "caller,action,subject,old,new,due,lrn,cic,flag\nBBBB,subscriptionVersionOldSP-Create,2025331001,BBBB,AAAA,100,,,yes\nBBBB,subscriptionVersionOldSP-Create,2025331001,BBBB,AAAA,100,,,yes\nAAAA,subscriptionVersionNewSP-Create,2025331001,BBBB,AAAA,100,2025440000,,\nAAAA,subscriptionVersionNewSP-Create,2025331001,BBBB,AAAA,100,2025440000,,\nAAAA,subscriptionVersionActivate,2025331001,,,,,,\nBBBB,subscriptionVersionConflict,2025331001,,,,,,\nBBBB,subscriptionVersionConflict,2025331001,,,,,,\nAAAA,subscriptionVersionRemoveFromConflict,2025331001,,,,,,\nBBBB,subscriptionVersionRemoveFromConflict,2025331001,,,,,,\nCCCC,subscriptionVersionCancel,2025331001,,,,,,\nAAAA,subscriptionVersionCancel,2025331001,,,,,,\nAAAA,subscriptionVersionNewSP-CancellationAcknowledge,2025331001,,,,,,\nBBBB,subscriptionVersionOldSP-CancellationAcknowledge,2025331001,,,,,,\nBBBB,subscriptionVersionOldSP-CancellationAcknowledge,2025331001,,,,,,\nAAAA,subscriptionVersionNewSP-Create,2025331002,BBBB,AAAA,0,2025440000,,\nBBBB,subscriptionVersionOldSP-Create,2025331002,BBBB,AAAA,0,,,yes\nBBBB,subscriptionVersionCancel,2025331002,,,,,,\nAAAA,subscriptionVersionNewSP-CancellationAcknowledge,2025331002,,,,,,\nAAAA,subscriptionVersionNewSP-Create,2025331003,BBBB,AAAA,0,2025440000,,\nBBBB,subscriptionVersionOldSP-Create,2025331003,BBBB,AAAA,0,,,yes\nAAAA,subscriptionVersionActivate,2025331003,,,,,,\nAAAA,subscriptionVersionDisconnect,2025331003,,,,,,\n";

/// The report of those ports.
pub const PORTS_REPORT: &str =
    "row,subject,result,id\n1,2025331001,ok,1\n2,2025331001,busy,\n3,2025331001,ok,1\n4,2025331001,busy,\n5,2025331001,before_due,\n6,2025331001,ok,1\n7,2025331001,wrong_status,\n8,2025331001,too_early,\n9,2025331001,ok,1\n10,2025331001,not_yours,\n11,2025331001,ok,1\n12,2025331001,not_yours,\n13,2025331001,ok,1\n14,2025331001,not_found,\n15,2025331002,ok,2\n16,2025331002,ok,2\n17,2025331002,ok,2\n18,2025331002,ok,2\n19,2025331003,ok,3\n20,2025331003,ok,3\n21,2025331003,ok,3\n22,2025331003,not_found,\n";

/// The third number is in force. Its routing is modified to a routing number of another carrier, by
/// another carrier, without a version in force, correctly, and once more.
pub const MODIFIES: &str =
    "caller,action,subject,old,new,due,lrn,cic,flag\nAAAA,subscriptionVersionModify,2025331003,,,,2025550000,,\nCCCC,subscriptionVersionModify,2025331003,,,,2025440000,,\nAAAA,subscriptionVersionModify,2025331001,,,,2025440000,,\nAAAA,subscriptionVersionModify,2025331003,,,,2025440000,0288,\nAAAA,subscriptionVersionModify,2025331003,,,,2025440000,,\n";

/// The report of those modifies.
pub const MODIFIES_REPORT: &str =
    "row,subject,result,id\n1,2025331003,bad_lrn,\n2,2025331003,not_yours,\n3,2025331001,not_found,\n4,2025331003,ok,3\n5,2025331003,wrong_status,\n";

const PORT_FILE: &str =
    "caller,action,subject,old,new,due,lrn,cic,flag\nAAAA,subscriptionVersionNewSP-Create,2025331234,BBBB,AAAA,0,2025440000,,\nBBBB,subscriptionVersionOldSP-Create,2025331234,BBBB,AAAA,0,,,yes\nAAAA,subscriptionVersionActivate,2025331234,,,,,,\n";

static PORT: [Step; 2] = [
    Step::Runs(PORT_FILE),
    Step::Serves(&[
        (
            "AAAA",
            "/downloads/acknowledge",
            r#"{"attempt":1,"id":1}"#,
            "",
        ),
        (
            "BBBB",
            "/downloads/acknowledge",
            r#"{"attempt":1,"id":1}"#,
            "",
        ),
        ("NPAC", "/clock", r#"{"minute":15}"#, ""),
    ]),
];

const ACTIVATION: &str =
    "caller,action,subject,old,new,due,lrn,cic,flag\nBBBB,subscriptionVersionActivate,2025337002,,,,,,\n";

// BBBB donates a block with two numbers in use. The second is sent again after no carrier
// acknowledged it. Then the block is assigned to CCCC.
static POOL: [Step; 3] = [
    Step::Serves(&[
        (
            "BBBB",
            "/blocks/donate",
            r#"{"block":"2025337","lrn":"2025330000","used":["001","002"]}"#,
            "",
        ),
        (
            "AAAA",
            "/downloads/acknowledge",
            r#"{"attempt":1,"id":1}"#,
            "",
        ),
        (
            "BBBB",
            "/downloads/acknowledge",
            r#"{"attempt":1,"id":1}"#,
            "",
        ),
        (
            "CCCC",
            "/downloads/acknowledge",
            r#"{"attempt":1,"id":1}"#,
            "",
        ),
        ("NPAC", "/clock", r#"{"minute":20}"#, ""),
    ]),
    Step::Runs(ACTIVATION),
    Step::Serves(&[
        (
            "AAAA",
            "/downloads/acknowledge",
            r#"{"attempt":2,"id":2}"#,
            "",
        ),
        (
            "BBBB",
            "/downloads/acknowledge",
            r#"{"attempt":2,"id":2}"#,
            "",
        ),
        (
            "CCCC",
            "/downloads/acknowledge",
            r#"{"attempt":2,"id":2}"#,
            "",
        ),
        (
            "NPAC",
            "/blocks/assign",
            r#"{"block":"2025337","holder":"CCCC","lrn":"2025550000"}"#,
            "",
        ),
        (
            "AAAA",
            "/downloads/acknowledge",
            r#"{"attempt":1,"id":3}"#,
            "",
        ),
        (
            "BBBB",
            "/downloads/acknowledge",
            r#"{"attempt":1,"id":3}"#,
            "",
        ),
        (
            "CCCC",
            "/downloads/acknowledge",
            r#"{"attempt":1,"id":3}"#,
            "",
        ),
    ]),
];

static WITH_MODIFIES: [Step; 4] = [
    Step::Runs(PORTS),
    Step::Serves(&[
        (
            "AAAA",
            "/downloads/acknowledge",
            r#"{"attempt":1,"id":3}"#,
            "",
        ),
        (
            "BBBB",
            "/downloads/acknowledge",
            r#"{"attempt":1,"id":3}"#,
            "",
        ),
        (
            "CCCC",
            "/downloads/acknowledge",
            r#"{"attempt":1,"id":3}"#,
            "",
        ),
    ]),
    Step::Runs(MODIFIES),
    Step::Serves(&[
        (
            "AAAA",
            "/downloads/acknowledge",
            r#"{"attempt":2,"id":3}"#,
            "",
        ),
        (
            "BBBB",
            "/downloads/acknowledge",
            r#"{"attempt":2,"id":3}"#,
            "",
        ),
        (
            "CCCC",
            "/downloads/acknowledge",
            r#"{"attempt":2,"id":3}"#,
            "",
        ),
    ]),
];

fn steps_of(preparation: Preparation) -> &'static [Step] {
    match preparation {
        Preparation::Carriers => &[],
        Preparation::Ports => &WITH_MODIFIES[..2],
        Preparation::Modifies => &WITH_MODIFIES,
        Preparation::Port => &PORT,
        Preparation::Pool => &POOL,
    }
}

fn is_step_done(alloc: Global, register: &mut MemoryRegister, step: Step) -> Option<bool> {
    match step {
        Step::Serves(exchanges) => are_accepted(alloc, register, exchanges),
        Step::Runs(file) => {
            let mut output = Vec::new(alloc);
            Some(run_file(alloc, register, file.as_bytes(), &mut output).is_ok())
        }
    }
}

// Registers the carriers, and takes these steps. Returns whether all succeed.
fn are_steps_done(alloc: Global, register: &mut MemoryRegister, steps: &[Step]) -> bool {
    if are_accepted(alloc, register, &OPENING) != Some(true) {
        return false;
    }
    for step in steps {
        if is_step_done(alloc, register, *step) != Some(true) {
            return false;
        }
    }
    true
}

/// Returns a register that is prepared like this.
pub fn prepared_register(alloc: Global, preparation: Preparation) -> Option<MemoryRegister> {
    let mut register = new_register(alloc)?;
    if are_steps_done(alloc, &mut register, steps_of(preparation)) {
        Some(register)
    } else {
        None
    }
}

/// Does this with the file of a reader, and returns how many lines were written after the header.
pub fn write_file<S: Store, R: Read + Drop, W: Write>(
    alloc: Global,
    register: &mut Register<S>,
    task: Task,
    reader: R,
    writer: &mut W,
) -> Result<u64, BulkFault> {
    match task {
        Task::Run => run_file(alloc, register, reader, writer),
        Task::Export => export(alloc, register, writer),
        Task::Audit(name) => match Spid::read(name) {
            Some(carrier) => audit(alloc, register, carrier, reader, writer),
            None => Err(BulkFault {
                kind: FaultKind::UnknownCarrier,
                rows: 0,
            }),
        },
    }
}

/// The header of a file of commands.
pub const HEADER: &str = "caller,action,subject,old,new,due,lrn,cic,flag\n";

/// The header of its report.
pub const REPORT_HEADER: &str = "row,subject,result,id\n";

/// A register, what is done with a file, the lines of what is written, and what is written after
/// each number of executed commands if the file is run again; the same lines for an export and an
/// audit.
pub struct FileCase {
    pub preparation: Preparation,
    pub task: Task,
    pub file: &'static str,
    pub lines: &'static [&'static str],
    pub again: &'static [&'static [&'static str]],
}

impl FileCase {
    /// Returns the lines that are written if the file is run again after some executed commands.
    pub fn lines_after(&self, executed: usize) -> Option<&'static [&'static str]> {
        if self.again.is_empty() {
            return Some(self.lines);
        }
        self.again.get(executed).copied()
    }
}

/// Three commands, an export and an audit.
pub static CASES: [FileCase; 4] = [
    FileCase {
        preparation: Preparation::Carriers,
        task: Task::Run,
        file: "caller,action,subject,old,new,due,lrn,cic,flag\nAAAA,subscriptionVersionNewSP-Create,2025331234,BBBB,AAAA,100,2025440000,,\nCCCC,subscriptionVersionNewSP-Create,2025331234,BBBB,CCCC,100,2025550000,,\nBBBB,subscriptionVersionOldSP-Create,2025331234,BBBB,AAAA,100,,,yes\n",
        lines: &[
            REPORT_HEADER,
            "1,2025331234,ok,1\n",
            "2,2025331234,busy,\n",
            "3,2025331234,ok,1\n",
        ],
        again: &[
            &[
                REPORT_HEADER,
                "1,2025331234,ok,1\n",
                "2,2025331234,busy,\n",
                "3,2025331234,ok,1\n",
            ],
            &[
                REPORT_HEADER,
                "1,2025331234,busy,\n",
                "2,2025331234,busy,\n",
                "3,2025331234,ok,1\n",
            ],
            &[
                REPORT_HEADER,
                "1,2025331234,busy,\n",
                "2,2025331234,busy,\n",
                "3,2025331234,ok,1\n",
            ],
            &[
                REPORT_HEADER,
                "1,2025331234,busy,\n",
                "2,2025331234,busy,\n",
                "3,2025331234,busy,\n",
            ],
        ],
    },
    FileCase {
        preparation: Preparation::Port,
        task: Task::Export,
        file: "",
        lines: &["subject,lrn,cic\n", "2025331234,2025440000,\n"],
        again: &[],
    },
    FileCase {
        preparation: Preparation::Pool,
        task: Task::Export,
        file: "",
        lines: &[
            "subject,lrn,cic\n",
            "2025337,2025550000,\n",
            "2025337001,2025330000,\n",
            "2025337002,2025330000,\n",
        ],
        again: &[],
    },
    FileCase {
        preparation: Preparation::Port,
        task: Task::Audit("AAAA"),
        file: "subject,lrn,cic\n2025331234,2025550000,\n2025339999,2025330000,\n",
        lines: &[
            "subject,finding\n",
            "2025331234,different\n",
            "2025339999,extra\n",
        ],
        again: &[],
    },
];

/// Returns whether the bytes are these lines.
pub fn has_lines(bytes: &[u8], lines: &[&str]) -> bool {
    let mut rest = bytes;
    for line in lines {
        match rest.strip_prefix(line.as_bytes()) {
            Some(after) => rest = after,
            None => return false,
        }
    }
    rest.is_empty()
}

/// Returns whether the file is answered like this if it is read again, after the first `executed`
/// of its commands.
pub fn is_written_again(
    alloc: Global,
    register: &mut MemoryRegister,
    case: &FileCase,
    executed: usize,
) -> Option<bool> {
    let lines = case.lines_after(executed)?;
    let mut output = Vec::new(alloc);
    let written = write_file(
        alloc,
        register,
        case.task,
        case.file.as_bytes(),
        &mut output,
    );
    let rows = lines.len().saturating_sub(1) as u64;
    Some(written == Ok(rows) && has_lines(&output, lines))
}
