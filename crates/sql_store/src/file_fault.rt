//! The faults of opening a file.
ghost use Rattle.std.specs.Prelude.{◌≡◌};

use settle::StoreFault;
use sql_rows::Fault;

/// Why a file could not be opened.
#[derive(Clone, Copy, Debug, PartialEq, Eq)]
pub enum FileFault {
    /// The file has an earlier schema and was created with other windows.
    WindowsDiffer,
    /// The device failed, the file is not a register's, or a row of it cannot be read.
    Storage,
    /// An allocation failed.
    NoMemory,
}

impl From<Fault> for FileFault {
    ghost use Rattle.sql_store.specs.Faults.{file_fault_of};

    ghost from_gives = { λ fault refused. refused ≡ file_fault_of fault };

    fn from(fault: Fault) -> FileFault {
        match fault {
            Fault::Device => FileFault::Storage,
            Fault::Memory => FileFault::NoMemory,
        }
    }
}

impl From<StoreFault> for FileFault {
    ghost use Rattle.sql_store.specs.Faults.{opening_fault_of};

    ghost from_gives = { λ fault refused. refused ≡ opening_fault_of fault };

    fn from(fault: StoreFault) -> FileFault {
        match fault {
            StoreFault::Storage => FileFault::Storage,
            StoreFault::NoMemory => FileFault::NoMemory,
        }
    }
}
