//! The faults of a command line, with their names and exit statuses.
ghost use Rattle.std.specs.Prelude.{◌≡◌};
ghost use Rattle.cli.specs.Faults.{exit_status, fault_name};

use api::MessageFault;
use bulk::FaultKind;
use register::OpenFault;
use windows::WindowFault;

/// Why the execution of a command line failed.
#[derive(Clone, Copy, PartialEq, Eq, Debug)]
pub enum Fault {
    /// The windows file is not valid.
    Windows(WindowFault),
    /// The register could not be opened.
    Open(OpenFault),
    /// A message was refused.
    Message(MessageFault),
    /// A file of a subcommand could not be read or written to its end.
    File(FaultKind),
    /// A row of a file of commands was refused.
    RowsRefused,
    /// The port could not be opened.
    Listen,
    /// A read failed.
    Read,
    /// A write failed.
    Write,
    /// An allocation failed.
    NoMemory,
}

impl Fault {
    /// Returns the name on standard error.
    pub fn name(self) -> &'static str
        ensures { result.now ≡ fault_name self }
    {
        match self {
            Fault::Windows(fault) => fault.name(),
            Fault::Open(OpenFault::WindowsDiffer) => "windows_differ",
            Fault::Open(OpenFault::Storage) => "storage",
            Fault::Open(OpenFault::NoMemory) | Fault::NoMemory => "no_memory",
            Fault::Message(fault) => fault.name(),
            Fault::File(kind) => kind.name(),
            Fault::RowsRefused => "rows_refused",
            Fault::Listen => "listen",
            Fault::Read => "read",
            Fault::Write => "write",
        }
    }

    /// Returns the exit status: 1 if a file or a message was refused, 3 if the machine failed.
    pub fn status(self) -> u8
        ensures { result ≡ exit_status self }
    {
        match self {
            Fault::Windows(WindowFault::NoMemory)
            | Fault::Open(OpenFault::Storage | OpenFault::NoMemory)
            | Fault::File(
                FaultKind::Storage | FaultKind::NoMemory | FaultKind::Read | FaultKind::Write,
            )
            | Fault::Listen
            | Fault::Read
            | Fault::Write
            | Fault::NoMemory => 3,
            Fault::Windows(_)
            | Fault::Open(OpenFault::WindowsDiffer)
            | Fault::Message(_)
            | Fault::RowsRefused
            | Fault::File(FaultKind::BadHeader | FaultKind::BadFile | FaultKind::UnknownCarrier) =>
                1,
        }
    }
}
