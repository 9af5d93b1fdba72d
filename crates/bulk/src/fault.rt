//! The faults that end the reading or writing of a file early.
ghost use Rattle.std.specs.Prelude.{◌≡◌};
ghost use Rattle.bulk.specs.Faults.{kind_name};

use std::alloc::AllocError;

/// The kind of a fault.
#[derive(Clone, Copy, Debug, PartialEq, Eq)]
pub enum FaultKind {
    /// The first row is not the header of the file's format.
    BadHeader,
    /// A row of a copy is not a row of an export, or its subject occurs twice.
    BadFile,
    /// The carrier is not registered.
    UnknownCarrier,
    /// The store's device failed.
    Storage,
    /// An allocation failed.
    NoMemory,
    /// The reader failed.
    Read,
    /// The writer failed.
    Write,
}

impl FaultKind {
    /// Returns the name that a program reports.
    pub fn name(self) -> &'static str
        ensures { result.now ≡ kind_name self }
    {
        match self {
            FaultKind::BadHeader => "bad_header",
            FaultKind::BadFile => "bad_file",
            FaultKind::UnknownCarrier => "unknown_carrier",
            FaultKind::Storage => "storage",
            FaultKind::NoMemory => "no_memory",
            FaultKind::Read => "read",
            FaultKind::Write => "write",
        }
    }
}

impl From<AllocError> for FaultKind {
    ghost use Rattle.bulk.specs.declared.fault.FaultKind.TheVariants.{NoMemory};

    ghost from_gives = { λ _ kind. kind ≡ NoMemory };

    fn from(_error: AllocError) -> FaultKind {
        FaultKind::NoMemory
    }
}

/// What failed, and how many rows had been flushed in full, without the header.
#[derive(Clone, Copy, Debug, PartialEq, Eq)]
pub struct BulkFault {
    pub kind: FaultKind,
    pub rows: u64,
}

impl BulkFault {
    /// Creates a fault before the first row.
    pub fn at_start(kind: FaultKind) -> BulkFault
        ensures kind { result.kind ≡ kind }
        ensures rows { result.rows ≡ 0 }
    {
        BulkFault { kind, rows: 0 }
    }
}
