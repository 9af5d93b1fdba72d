//! Actions, sends, sides, statuses and outcomes of subscription versions.
ghost use Rattle.std.specs.Prelude.{◌≡◌, option_map};
ghost use Rattle.model.specs.Changes.{action_of};
ghost use Rattle.model.specs.Statuses.{sent_by};
ghost use Rattle.model.specs.Abstraction.{send_of, status_of};

use numbers::{Cic, Lrn, Minute, Routing};

/// What a broadcast does to a carrier's copy: it adds a routing, removes it, or replaces it.
#[derive(Clone, Copy, Debug, PartialEq, Eq)]
pub enum Action {
    Create,
    Delete,
    Modify,
}

/// What a version sends. A modify carries a routing, which becomes the version's when the broadcast
/// closes with an acknowledgement.
#[derive(Clone, Copy, Debug, PartialEq, Eq)]
pub enum Send {
    Create,
    Delete,
    Modify(Routing),
}

impl Send {
    /// Returns what the broadcast does to a carrier's copy.
    pub fn action(self) -> Action
        ensures { result ≡ action_of (send_of self) }
    {
        match self {
            Send::Create => Action::Create,
            Send::Delete => Action::Delete,
            Send::Modify(_) => Action::Modify,
        }
    }
}

/// A provider's side of a port.
#[derive(Clone, Copy, Debug, PartialEq, Eq)]
pub enum Side {
    OldProvider,
    NewProvider,
}

/// The ten statuses of a subscription version (NPAC requirements). A cancel-pending version knows
/// which side cancelled it, and a disconnect-pending one its release minute. Sending is one status
/// with a variant for each `Send`: a `Send` inside it, with the routing of a modify, would make
/// each status half as large again.
#[derive(Clone, Copy, Debug, PartialEq, Eq)]
pub enum Status {
    Pending,
    Conflict,
    CancelPending(Side),
    SendingCreate,
    SendingDelete,
    SendingModify { cic: Option<Cic>, lrn: Lrn },
    Active,
    PartialFailure,
    Failed,
    DisconnectPending(Minute),
    Old,
    Canceled,
}

impl Status {
    /// Returns what a version with this status sends, if anything.
    pub fn sends(self) -> Option<Send>
        ensures { option_map send_of result ≡ sent_by (status_of self) }
    {
        match self {
            Status::SendingCreate => Some(Send::Create),
            Status::SendingDelete => Some(Send::Delete),
            Status::SendingModify { cic, lrn } => Some(Send::Modify(Routing { lrn, cic })),
            _ => None,
        }
    }
}

/// Converts a send to the status of a version that sends it.
impl From<Send> for Status {
    ghost use Rattle.std.specs.Prelude.{◌≡◌};
    ghost use Rattle.model.specs.Statuses.{Sending};
    ghost use Rattle.model.specs.Abstraction.{send_of, status_of};

    ghost from_gives = { λ send status. status_of status ≡ Sending (send_of send) };

    fn from(send: Send) -> Status {
        match send {
            Send::Create => Status::SendingCreate,
            Send::Delete => Status::SendingDelete,
            Send::Modify(Routing { lrn, cic }) => Status::SendingModify { cic, lrn },
        }
    }
}

/// The outcome of a broadcast: open, or closed with the acknowledgements of all, some or none of
/// its recipients.
#[derive(Clone, Copy, Debug, PartialEq, Eq)]
pub enum Outcome {
    Open,
    AllAcknowledged,
    SomeAcknowledged,
    NoneAcknowledged,
}
