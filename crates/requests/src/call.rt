//! Calls of a register, and its replies.
use crate::view::{Ids, VersionView};
use delivery::{Download, RoutedRow};
use numbers::{BlockId, CodeId, Line, Lrn, Minute, Routing, Spid, Tn};
use pool::Assignment;
use version::{Create, VersionCommand};
use windows::Windows;

/// A call of a register, without its caller.
#[derive(Debug, Drop)]
pub enum Call {
    Command(Command),
    /// A carrier's acknowledgement of an attempt of a version.
    Acknowledge { id: u64, attempt: u64 },
    /// A query for the version with an id.
    Version { id: u64 },
    /// A query for the ids of a number's versions.
    Number { tn: Tn },
    /// A query for the first `count` downloads of a carrier's queue.
    Downloads { count: usize },
    /// A move of the clock to a minute.
    Clock { minute: Minute },
}

/// A caller's command.
#[derive(Debug, Drop)]
pub enum Command {
    /// The registration of a carrier, by the administrator.
    RegisterCarrier {
        spid: Spid,
    },
    /// The registration of a routing number, by its carrier.
    RegisterRoutingNumber {
        lrn: Lrn,
    },
    /// The opening of a code for its holder, by the administrator.
    OpenCode {
        code: CodeId,
        spid: Spid,
    },
    /// A provider's create of a port.
    Create(Create),
    /// A provider's command on a version.
    OnVersion {
        id: u64,
        command: VersionCommand,
    },
    /// The donation of a block to the pool by a carrier, with the lines of it that are in use.
    Donate {
        block: BlockId,
        used: Vec<Line>,
        /// The routing of calls for the used numbers.
        routing: Routing,
    },
    /// The assignment of a donated block to a carrier, by the administrator.
    Assign(Assignment),
    /// The return of a block to the pool, by its holder or the administrator.
    Release {
        block: BlockId,
    },
    /// A new set of windows, from the administrator.
    SetWindows {
        windows: Windows,
    },
}

/// The reply to an accepted call.
#[derive(Debug, Drop)]
pub enum Reply {
    /// The carrier, and its first rows: everything in force, ordered by subject.
    Registered { spid: Spid, rows: Vec<RoutedRow> },
    /// The routing number, and its carrier.
    RoutingNumberRegistered { lrn: Lrn, spid: Spid },
    /// The code, and its holder.
    CodeOpened { code: CodeId, spid: Spid },
    /// The version after the call.
    Shown(VersionView),
    /// The donated block, and the ids of the versions of its used numbers, ascending by number.
    Donated { block: BlockId, ids: Vec<u64> },
    /// The ids of a number's versions.
    Found(Ids),
    /// The first downloads of the caller's queue.
    Fetched(Vec<Download>),
    /// The current minute.
    Moved(Minute),
    /// The current minute, and the number of the new set of windows.
    WindowsSet { now: Minute, number: u16 },
}
