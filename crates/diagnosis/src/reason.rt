//! The reasons for a refusal that name no part of the file.
ghost use Rattle.std.specs.Prelude.{◌≡◌};
ghost use Rattle.diagnosis.specs.Words.{reason_words};

use sqlite::{Error, ErrorCode};
use std::io;
use std::io::ErrorKind;

/// A reason for a refusal that names no part of the file.
#[derive(Clone, Copy, Debug, PartialEq, Eq)]
pub enum Reason {
    Missing,
    NoPermission,
    NotAFile,
    SecondName,
    Journal,
    InUse,
    NoLog,
    Empty,
    NotADatabase,
    Damaged,
    Unsound,
    DeviceFailed,
    NoRoom,
    NoMemory,
    Earlier,
    Moved,
    NotBegun,
    NoSet,
    Unknown,
}

impl Reason {
    /// Returns the reason in words, whose subject is the file.
    pub fn words(self) -> &'static str
        ensures { result.now ≡ reason_words self }
    {
        match self {
            Reason::Missing => "there is no such file or folder",
            Reason::NoPermission => "this user may not read and write it",
            Reason::NotAFile => "it is a folder or a device",
            Reason::SecondName => "it has a second name, a hard link",
            Reason::Journal => "a journal lies beside it: open it with sqlite3 first",
            Reason::InUse => "another program has it open",
            Reason::NoLog => "its log, with -wal after its name, cannot be opened or made",
            Reason::Empty => "it is empty, or has no tables",
            Reason::NotADatabase => "it is no SQLite database",
            Reason::Damaged => "it is damaged, or the log beside it is damaged or another file's",
            Reason::Unsound => "its schema cannot be read, or its rows break a rule of the schema",
            Reason::DeviceFailed => "the device failed",
            Reason::NoRoom => "the disk is full",
            Reason::NoMemory => "an allocation failed",
            Reason::Earlier => "it has an earlier format, which a command with --windows migrates",
            Reason::Moved => "its tables have other root pages, as after a VACUUM",
            Reason::NotBegun => "the table clock2 has no row",
            Reason::NoSet => "the table window_set has no row for the present set",
            Reason::Unknown => "no reason is found now",
        }
    }
}

impl From<io::Error> for Reason {
    fn from(error: io::Error) -> Reason {
        match error.kind() {
            ErrorKind::NotFound | ErrorKind::NotADirectory | ErrorKind::FilesystemLoop => {
                Reason::Missing
            }
            ErrorKind::PermissionDenied | ErrorKind::ReadOnlyFilesystem => Reason::NoPermission,
            ErrorKind::IsADirectory | ErrorKind::Unsupported => Reason::NotAFile,
            ErrorKind::OutOfMemory => Reason::NoMemory,
            _ => Reason::DeviceFailed,
        }
    }
}

impl From<Error> for Reason {
    fn from(error: Error) -> Reason {
        match error {
            Error::SqliteFailure(ErrorCode::DatabaseBusy) => Reason::InUse,
            Error::SqliteFailure(ErrorCode::CannotOpen) => Reason::NoLog,
            Error::SqliteFailure(ErrorCode::DatabaseCorrupt) => Reason::Damaged,
            Error::SqliteFailure(ErrorCode::NotADatabase) => Reason::Unsound,
            Error::SqliteFailure(ErrorCode::DiskFull) => Reason::NoRoom,
            Error::SqliteFailure(ErrorCode::OutOfMemory) => Reason::NoMemory,
            _ => Reason::DeviceFailed,
        }
    }
}
