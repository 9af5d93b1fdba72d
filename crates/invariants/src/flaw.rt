//! The flaws of rows, and their words.
ghost use Rattle.std.specs.Prelude.{◌≡◌, IfOk, string_bytes};
ghost use Rattle.numbers.specs.Texts.{spid_text};
ghost use Rattle.invariants.specs.Words.{download_words, flaw_words};

use numbers::Spid;
use std::alloc::{AllocError, Global};

/// What the rows of a file have that those of no register have. A bare number is a version's id.
#[derive(Clone, Copy, Debug, PartialEq, Eq)]
pub enum Flaw {
    /// No row has this id, which was given to a version.
    Gap(u64),
    /// A row has this id, which is 0 or the next id.
    Stranger(u64),
    /// The version holds a set of windows that does not exist.
    Set(u64),
    /// The version entered its status after the clock's minute.
    Since(u64),
    /// The version's deadline is another than the one of its status and windows.
    Deadline(u64),
    /// The version is stored as in force and its status is not, or the other way round.
    Holds(u64),
    /// The version is stored as open and its status is not, or the other way round.
    Opens(u64),
    /// The version is sending, and its attempt has no such open broadcast.
    Sending(u64),
    /// The version is of a block whose row names no version of the block from it on.
    Block(u64),
    /// Two versions in force have one subject.
    InForce { id: u64, other: u64 },
    /// Two open versions have one subject.
    Open { id: u64, other: u64 },
    /// A download is pending for the carrier, and has no such broadcast.
    Download { spid: Spid, id: u64, attempt: u64 },
}

// Returns the name of a carrier.
fn name_of(alloc: Global, spid: Spid) -> Result<String, AllocError>
    ensures { IfOk result (λ text. string_bytes text ≡ spid_text spid.number) }
{
    let mut name = String::new(alloc);
    spid.write(&mut name)?;
    Ok(name)
}

// Returns the words for a download without its broadcast.
fn download_words(alloc: Global, carrier: &str, id: u64, attempt: u64) -> Result<String, AllocError>
    ensures { IfOk result (λ text. string_bytes text ≡ download_words carrier.now id attempt) }
{
    format!(in alloc;
        "attempt {attempt} of version {id} is pending for {carrier}, but was not sent so"
    )
}

impl Flaw {
    /// Returns the flaw in words.
    ///
    /// # Errors
    ///
    /// `AllocError` if an allocation fails.
    pub fn words(&self, alloc: Global) -> Result<String, AllocError>
        ensures { IfOk result (λ text. string_bytes text ≡ flaw_words self.now) }
    {
        match *self {
            Flaw::Gap(id) => format!(in alloc; "version {id} is missing"),
            Flaw::Stranger(id) => format!(in alloc; "version {id} has an id that none has yet"),
            Flaw::Set(id) => format!(in alloc;
                "version {id} holds a set of windows that is missing"
            ),
            Flaw::Since(id) => format!(in alloc;
                "version {id} entered its status after the minute"
            ),
            Flaw::Deadline(id) => format!(in alloc;
                "version {id} has another deadline than by its windows"
            ),
            Flaw::Holds(id) => format!(in alloc; "version {id} has a wrong value in holds"),
            Flaw::Opens(id) => format!(in alloc; "version {id} has a wrong value in opens"),
            Flaw::Sending(id) => format!(in alloc; "version {id} is sending without its broadcast"),
            Flaw::Block(id) => format!(in alloc; "version {id} is not under its block"),
            Flaw::InForce { id, other } => {
                format!(in alloc; "versions {id} and {other} are in force for one subject")
            }
            Flaw::Open { id, other } => format!(in alloc;
                "versions {id} and {other} are open for one subject"
            ),
            Flaw::Download { spid, id, attempt } => {
                let carrier = name_of(alloc, spid)?;
                download_words(alloc, carrier.as_str(), id, attempt)
            }
        }
    }
}
