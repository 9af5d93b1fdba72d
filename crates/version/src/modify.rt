//! Modifies: the provider changes the routing of a ported number.
ghost use Rattle.std.specs.Prelude.{◌≡◌, ◌&&◌, not, IfOk};
ghost use Rattle.numbers.specs.Abstraction.{routing_of, subject_of};
ghost use Rattle.delivery.specs.Refused.{refusal_in};
ghost use Rattle.model.specs.Windows.{Windows};
ghost use Rattle.model.specs.OnVersion.{is_number};
ghost use Rattle.version.specs.Abstraction.{model_with_windows, set_of};
ghost use Rattle.version.specs.Commands.{modifying, own_refusal, IsTransition};

use crate::{CommandFacts, Transition, Version};
use model::{Refusal, Send, Status};
use numbers::{Minute, Routing, Spid, Subject};
use windows::WindowSet;

// Returns whether a number's version would get the routing number of another carrier. The routing
// number of a block's version is not tested.
fn is_lrn_bad(version: &Version, is_lrn_good: bool) -> bool
    ensures { result ≡ (is_number (subject_of version.now.subject) && not is_lrn_good) }
{
    matches!(version.subject, Subject::Number(_)) && !is_lrn_good
}

impl Version {
    // Decides the modify by the version's provider: it sends the modify, and keeps its routing
    // until that closes.
    //
    // Refusals, in order: `BadLrn` if the routing number is not its provider's; `NotYours` if the
    // caller is not its provider; `Busy` if the subject has an open version; `WrongStatus` if it is
    // not active; `Full` if no attempt is left.
    pub(crate) fn modified(
        &self,
        caller: Spid,
        facts: CommandFacts,
        routing: Routing,
        minute: Minute,
        present: &WindowSet,
    ) -> Result<Transition, Refusal>
        ensures refusal { (w windows : Windows)
            → refusal_in result
            ≡ own_refusal w minute.number caller.number facts
            (modifying (routing_of routing)) (subject_of self.now.subject)
            (model_with_windows windows self.now) }
        ensures step { IfOk result
            (IsTransition (set_of present.now) caller.number minute.number
            (modifying (routing_of routing))
            self.now) }
    {
        if is_lrn_bad(self, facts.is_lrn_good) {
            return Err(Refusal::BadLrn);
        }
        if caller.number != self.new_provider.number {
            return Err(Refusal::NotYours);
        }
        if facts.is_another_open {
            return Err(Refusal::Busy);
        }
        if !matches!(self.status, Status::Active) {
            return Err(Refusal::WrongStatus);
        }
        if self.is_sent_too_often() {
            return Err(Refusal::Full);
        }
        Ok(Transition {
            version: self.sending(Send::Modify(routing), minute, present),
            sends: Some(Send::Modify(routing)),
        })
    }
}
