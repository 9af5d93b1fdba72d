//! Refusals of a call, and their numbers.
ghost use Rattle.std.specs.Prelude.{◌≡◌};
ghost use Rattle.model.specs.RefusalNumbers.{number_of};
ghost use Rattle.model.specs.declared.refusal.Refusal.TheVariants.{NoMemory};

use std::alloc::{AllocError, AllocFailed};

/// Why a call is refused. If several reasons hold, the one with the least number is answered.
/// `Storage` and `NoMemory` may replace any answer.
#[derive(Clone, Copy, Debug, PartialEq, Eq)]
pub enum Refusal {
    UnknownCarrier = 1,
    NotAdmin = 2,
    UnknownCode = 3,
    CarrierTaken = 4,
    CodeTaken = 5,
    LrnTaken = 6,
    BadLrn = 7,
    InPool = 8,
    WrongOld = 9,
    NotFound = 10,
    NotYours = 11,
    Busy = 12,
    WrongStatus = 13,
    DuePast = 14,
    DueMismatch = 15,
    NotConcurred = 16,
    BeforeDue = 17,
    ConflictSpent = 18,
    TooLate = 19,
    TooEarly = 20,
    Protected = 21,
    Contaminated = 22,
    OpenPorts = 23,
    BlockTaken = 24,
    NotQueued = 25,
    OutOfOrder = 26,
    ClockBack = 27,
    Full = 28,
    Storage = 29,
    NoMemory = 30,
}

impl Refusal {
    /// Returns the number that orders refusals, and that an answer carries.
    pub fn number(self) -> u8
        ensures { result ≡ number_of self }
    {
        self as u8
    }
}

impl From<AllocError> for Refusal {
    ghost from_gives = { λ _ refusal. refusal ≡ NoMemory };

    fn from(_refused: AllocError) -> Refusal {
        Refusal::NoMemory
    }
}

impl<T: Drop> From<AllocFailed<T>> for Refusal {
    ghost from_gives = { λ _ refusal. refusal ≡ NoMemory };

    fn from(_refused: AllocFailed<T>) -> Refusal {
        Refusal::NoMemory
    }
}
