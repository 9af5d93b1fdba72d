//! Assignments: the administrator gives a donated block to a carrier.
ghost use Rattle.std.specs.Prelude.{◌≡◌, IfOk};
ghost use Rattle.delivery.specs.Refused.{refusal_in};
ghost use Rattle.model.specs.History.{CommandRequest};
ghost use Rattle.model.specs.State.{State};
ghost use Rattle.model.specs.Refusals.{refusal, RequestFrom};
ghost use Rattle.model.specs.Conditions.{holds_of, takes_block};
ghost use Rattle.version.specs.Abstraction.{model_of, set_of};
ghost use Rattle.pool.specs.Facts.{carrier_number};
ghost use Rattle.pool.specs.Assignments.{assignment_refusal, command_of, IsAssigned};
ghost use Rattle.pool.specs.Blocks.{IsBlockCommandIn};

use crate::facts::BlockFacts;
use model::{Refusal, Status};
use numbers::{BlockId, Minute, Routing, Spid, Subject};
use version::{ID_LIMIT, Version};
use windows::WindowSet;

/// An assignment of a donated block to a carrier, its holder, which then serves those of its
/// numbers that are not ported.
#[derive(Clone, Copy, Debug, PartialEq, Eq)]
pub struct Assignment {
    pub block: BlockId,
    pub holder: Spid,
    /// The routing of calls for the block's numbers.
    pub routing: Routing,
}

// Returns whether a carrier has the block, or is getting it or giving it back.
fn is_taken(last: &Option<Version>) -> bool
    ensures { result ≡ holds_of (λ v. takes_block (model_of v).status) last.now }
{
    match last {
        Some(version) => matches!(
            version.status,
            Status::SendingCreate
                | Status::SendingDelete
                | Status::SendingModify { .. }
                | Status::Active
                | Status::PartialFailure
        ),
        None => false,
    }
}

impl Assignment {
    // Returns the block's version from its donor, sending its first create.
    fn version(&self, donor: Spid, minute: Minute, present: &WindowSet) -> Version
        ensures { IsAssigned (set_of present.now) minute.number self.now (Some donor.number)
            result }
    {
        Version {
            subject: Subject::Block(self.block),
            old_provider: donor,
            new_provider: self.holder,
            due: minute,
            routing: Some(self.routing),
            old_at: None,
            new_at: None,
            status: Status::SendingCreate,
            since: minute,
            held: present.number,
            attempt: 1,
            is_conflict_spent: false,
            is_protective: false,
        }
    }

    /// Decides the assignment by `caller`: returns the block's version, whose id is
    /// `facts.next_id`.
    ///
    /// The holder must be a registered carrier, which is not tested. If `facts` are those of the
    /// block in a state, the refusal is the state's.
    ///
    /// # Errors
    ///
    /// The first that holds: `NotAdmin` if the caller is not the administrator; `UnknownCode` if
    /// the block's code is not open; `BadLrn` if the routing number is not the holder's; `NotFound`
    /// if the block is not donated; `OpenPorts` if one of its numbers is being ported; `BlockTaken`
    /// if its last version is sending, active or a partial failure; `Full` if no id is left.
    pub fn made(
        &self,
        caller: Spid,
        facts: &BlockFacts<'_>,
        minute: Minute,
        present: &WindowSet,
    ) -> Result<Version, Refusal>
        ensures refusal { refusal_in result ≡ assignment_refusal caller.number facts.now }
        ensures state { (st : State)
            → IsBlockCommandIn st caller.number self.now.block.number (command_of self.now)
            facts.now
            → refusal_in result
            ≡ refusal st (RequestFrom caller.number (CommandRequest (command_of self.now))) }
        ensures made { IfOk result
            (IsAssigned (set_of present.now) minute.number self.now
            (carrier_number facts.now.donor)) }
    {
        if caller.number != Spid::NPAC.number {
            return Err(Refusal::NotAdmin);
        }
        if facts.code_holder.is_none() {
            return Err(Refusal::UnknownCode);
        }
        if !facts.is_lrn_good {
            return Err(Refusal::BadLrn);
        }
        let Some(donor) = facts.donor else {
            return Err(Refusal::NotFound);
        };
        if facts.has_open_port() {
            return Err(Refusal::OpenPorts);
        }
        if is_taken(&facts.last) {
            return Err(Refusal::BlockTaken);
        }
        if facts.next_id >= ID_LIMIT {
            return Err(Refusal::Full);
        }
        Ok(self.version(donor, minute, present))
    }
}
