//! Releases: a block is given back to the pool.
ghost use Rattle.std.specs.Prelude.{◌≡◌, ℕ, List, IfOk};
ghost use Rattle.delivery.specs.Refused.{refusal_in};
ghost use Rattle.model.specs.Commands.{Release};
ghost use Rattle.model.specs.History.{CommandRequest};
ghost use Rattle.model.specs.State.{State};
ghost use Rattle.model.specs.Refusals.{refusal, RequestFrom};
ghost use Rattle.version.specs.Abstraction.{set_of};
ghost use Rattle.pool.specs.Blocks.{IsBlockCommandIn};
ghost use Rattle.pool.specs.Releases.{is_others, release_refusal, IsReleased};

use crate::facts::BlockFacts;
use model::{Refusal, Send, Status};
use numbers::{Minute, Spid};
use version::{Transition, Version};
use windows::WindowSet;

// Returns whether the caller is neither the administrator nor the version's new provider.
fn is_others(version: &Version, caller: Spid) -> bool
    ensures { result ≡ is_others caller.number version.now }
{
    caller.number != Spid::NPAC.number && caller.number != version.new_provider.number
}

/// Decides the release of a block by `caller`, its holder or the administrator: the block's last
/// version sends a delete, its next attempt.
///
/// After that closes with an acknowledgement, no carrier serves the block's numbers that are not
/// ported. If `facts` are those of a block in a state, the refusal is the state's.
///
/// # Errors
///
/// The first that holds: `UnknownCode` if the block's code is not open; `NotFound` if it is not
/// donated or was never assigned; `NotYours` if the caller is neither its last version's new
/// provider nor the administrator; `WrongStatus` if that version is not active; `OpenPorts` if a
/// number of the block is being ported; `Full` if no attempt is left.
pub fn release(
    caller: Spid,
    facts: &BlockFacts<'_>,
    minute: Minute,
    present: &WindowSet,
) -> Result<Transition, Refusal>
    ensures refusal { refusal_in result ≡ release_refusal caller.number facts.now }
    ensures state { (st : State) (block : ℕ)
        → IsBlockCommandIn st caller.number block (Release block) facts.now
        → refusal_in result
        ≡ refusal st (RequestFrom caller.number (CommandRequest (Release block))) }
    ensures released { IfOk result (IsReleased (set_of present.now) minute.number facts.now.last) }
{
    if facts.code_holder.is_none() {
        return Err(Refusal::UnknownCode);
    }
    if facts.donor.is_none() {
        return Err(Refusal::NotFound);
    }
    let Some(version) = facts.last else {
        return Err(Refusal::NotFound);
    };
    if is_others(&version, caller) {
        return Err(Refusal::NotYours);
    }
    if !matches!(version.status, Status::Active) {
        return Err(Refusal::WrongStatus);
    }
    if facts.has_open_port() {
        return Err(Refusal::OpenPorts);
    }
    if version.is_sent_too_often() {
        return Err(Refusal::Full);
    }
    Ok(Transition {
        version: version.sending(Send::Delete, minute, present),
        sends: Some(Send::Delete),
    })
}
