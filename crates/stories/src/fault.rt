//! Faults that stop the stories.
use register::OpenFault;
use settle::StoreFault;
use std::alloc::AllocError;
use std::io;
use windows::WindowFault;

/// Why the stories were not played to their end.
#[derive(Debug, Drop)]
pub enum Fault {
    Io(io::Error),
    Memory,
    Open(OpenFault),
    Store(StoreFault),
    Windows(WindowFault),
    Serving(api::Fault),
}

impl From<io::Error> for Fault {
    fn from(error: io::Error) -> Fault {
        Fault::Io(error)
    }
}

impl From<AllocError> for Fault {
    fn from(_refused: AllocError) -> Fault {
        Fault::Memory
    }
}

impl From<OpenFault> for Fault {
    fn from(fault: OpenFault) -> Fault {
        Fault::Open(fault)
    }
}

impl From<StoreFault> for Fault {
    fn from(fault: StoreFault) -> Fault {
        Fault::Store(fault)
    }
}

impl From<WindowFault> for Fault {
    fn from(fault: WindowFault) -> Fault {
        Fault::Windows(fault)
    }
}

impl From<api::Fault> for Fault {
    fn from(fault: api::Fault) -> Fault {
        Fault::Serving(fault)
    }
}
