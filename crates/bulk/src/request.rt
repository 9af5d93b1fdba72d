//! The requests of a bulk file's rows.
ghost use Rattle.std.specs.Prelude.{◌≡◌};
ghost use Rattle.bulk.specs.Requests.{action_name};

use crate::range::Numbers;
use numbers::{Minute, Spid};
use version::{Creator, VersionCommand};

/// An action, by its name in the NPAC interface.
#[derive(Clone, Copy, Debug, PartialEq, Eq)]
pub enum ActionName {
    OldProviderCreate,
    NewProviderCreate,
    Activate,
    PutInConflict,
    RemoveFromConflict,
    Cancel,
    OldProviderCancellationAcknowledge,
    NewProviderCancellationAcknowledge,
    Disconnect,
    ModifyRouting,
}

/// What is done with a number.
#[derive(Clone, Copy, Debug, PartialEq, Eq)]
pub enum Operation {
    /// A create of a port by a provider.
    Create {
        old_provider: Spid,
        new_provider: Spid,
        /// The earliest minute of the port's activation.
        due: Minute,
        creator: Creator,
    },
    /// A provider's command on a version of the number.
    OnVersion(VersionCommand),
}

/// What a caller requests for each of some numbers.
#[derive(Clone, Copy, Debug, PartialEq, Eq)]
pub struct BulkRequest {
    pub caller: Spid,
    pub numbers: Numbers,
    pub operation: Operation,
}

impl ActionName {
    /// All actions.
    pub const ALL: [ActionName; 10] = [
        ActionName::OldProviderCreate,
        ActionName::NewProviderCreate,
        ActionName::Activate,
        ActionName::PutInConflict,
        ActionName::RemoveFromConflict,
        ActionName::Cancel,
        ActionName::OldProviderCancellationAcknowledge,
        ActionName::NewProviderCancellationAcknowledge,
        ActionName::Disconnect,
        ActionName::ModifyRouting,
    ];

    /// Returns the name in a bulk file.
    #[tactic(auto, unfolding(crate::specs::Requests::action_name))]
    pub fn name(self) -> &'static str
        ensures { result.now ≡ action_name self }
    {
        match self {
            ActionName::OldProviderCreate => "subscriptionVersionOldSP-Create",
            ActionName::NewProviderCreate => "subscriptionVersionNewSP-Create",
            ActionName::Activate => "subscriptionVersionActivate",
            ActionName::PutInConflict => "subscriptionVersionConflict",
            ActionName::RemoveFromConflict => "subscriptionVersionRemoveFromConflict",
            ActionName::Cancel => "subscriptionVersionCancel",
            ActionName::OldProviderCancellationAcknowledge => {
                "subscriptionVersionOldSP-CancellationAcknowledge"
            }
            ActionName::NewProviderCancellationAcknowledge => {
                "subscriptionVersionNewSP-CancellationAcknowledge"
            }
            ActionName::Disconnect => "subscriptionVersionDisconnect",
            ActionName::ModifyRouting => "subscriptionVersionModify",
        }
    }
}
