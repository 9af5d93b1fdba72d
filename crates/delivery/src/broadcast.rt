//! Broadcasts: attempts of versions, as sent to the carriers.
ghost use Rattle.std.specs.Prelude.{◌≡◌, ℕ, List, Some, option_map};
ghost use Rattle.numbers.specs.Subjects.{Subject as SubjectModel};
ghost use Rattle.numbers.specs.Abstraction.{routing_of, subject_of};
ghost use Rattle.model.specs.Versions.{Broadcast as BroadcastModel};
ghost use Rattle.model.specs.Content.{stored_broadcast};
ghost use Rattle.delivery.specs.Broadcasts.{after_acknowledgement, new_broadcast, broadcast_row, outcome_after, outcome_while_pending, row_of};

use model::{Action, Outcome};
use numbers::{Minute, Routing, Subject};

/// An attempt of a version, as sent to every carrier. It is open until its last recipient
/// acknowledges it or its window ends. A create and a modify have the new routing; a delete has
/// none.
#[derive(Clone, Copy, Debug, PartialEq, Eq)]
pub struct Broadcast {
    /// The minute of sending.
    pub minute: Minute,
    pub subject: Subject,
    pub action: Action,
    pub routing: Option<Routing>,
    pub is_open: bool,
    /// Whether some recipient has acknowledged it.
    pub is_acknowledged: bool,
}

impl Broadcast {
    /// Creates a broadcast that is open and that no carrier has acknowledged.
    pub fn send(
        minute: Minute,
        subject: Subject,
        action: Action,
        routing: Option<Routing>,
    ) -> Broadcast
        ensures { (attempt : ℕ) (all_carriers : List ℕ)
            → Some (row_of result)
            ≡ stored_broadcast (subject_of subject)
            (new_broadcast attempt minute.number action (option_map routing_of routing)
            all_carriers) }
    {
        Broadcast {
            minute,
            subject,
            action,
            routing,
            is_open: true,
            is_acknowledged: false,
        }
    }

    /// Returns the broadcast after another acknowledgement. The last one closes it.
    pub fn acknowledged(&self, is_last: bool) -> Broadcast
        ensures { (s : SubjectModel) (b : BroadcastModel) (c : ℕ)
            → row_of self.now ≡ broadcast_row s b
            → row_of result ≡ broadcast_row s (after_acknowledgement c is_last b) }
    {
        Broadcast {
            is_open: self.is_open && !is_last,
            is_acknowledged: true,
            ..*self
        }
    }

    /// Returns the outcome; `is_last` says that no recipient is left. A broadcast that was closed
    /// before stays partly acknowledged.
    pub fn outcome(&self, is_last: bool) -> Outcome
        ensures { result ≡ outcome_after is_last (outcome_while_pending self.now.is_open) }
    {
        if self.is_open {
            if is_last {
                Outcome::AllAcknowledged
            } else {
                Outcome::Open
            }
        } else {
            Outcome::SomeAcknowledged
        }
    }
}
