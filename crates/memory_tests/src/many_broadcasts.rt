//! Tests a newcomer among very many open broadcasts.
//!
//! Work for each open broadcast or for each row of a commit must be done in loops: nested calls
//! would overflow the stack here.
use crate::commands::{create_of, execute, routing_to};
use crate::fixture::{FIRST_PORT, are_answered, new_register};
use model::Status;
use numbers::{Minute, Spid, Tn};
use register::Register;
use requests::{Command, Reply};
use std::alloc::Global;
use store::MemoryStore;
use version::{Create, Creator, VersionCommand};

/// The number of versions that are sent and not acknowledged.
const COUNT: u64 = 200_000;

// Creates the port of a number from both sides and activates it. The first number of a code opens
// the code.
fn send_version(register: &mut Register<MemoryStore>, id: u64) -> Option<()> {
    let tn = Tn::new(id.saturating_add(2_025_399_999))?;
    let routing = routing_to("2025440000")?;
    let concur = create_of(tn, Minute::ZERO)?;
    let (old, new) = (concur.old_provider, concur.new_provider);
    if id % 10_000 == 1 {
        let code = tn.code();
        execute(register, Spid::NPAC, Command::OpenCode { code, spid: old })?;
    }
    let create = Create {
        creator: Creator::NewProvider { routing },
        ..concur
    };
    execute(register, new, Command::Create(create))?;
    execute(register, old, Command::Create(concur))?;
    let command = VersionCommand::Activate;
    execute(register, new, Command::OnVersion { id, command })
}

// Sends all versions, one after the other, after the messages that open the register.
fn send_all(alloc: Global, register: &mut Register<MemoryStore>) -> Option<()> {
    if !are_answered(alloc, register, &FIRST_PORT[..5])? {
        return None;
    }
    for id in 1..=COUNT {
        send_version(register, id)?;
    }
    Some(())
}

// Registers a newcomer, which acknowledges every version. Returns how many are still sending.
fn count_acknowledged_in(register: &mut Register<MemoryStore>) -> Option<u64> {
    let spid = Spid::read("CCCC")?;
    execute(register, Spid::NPAC, Command::RegisterCarrier { spid })?;
    let mut sending = 0u64;
    for id in 1..=COUNT {
        let Reply::Shown(view) = register.acknowledge(spid, id, 1).ok()? else {
            return None;
        };
        if view.version.status == Status::SendingCreate {
            sending = sending.saturating_add(1);
        }
    }
    Some(sending)
}

fn count_acknowledged(alloc: Global) -> Option<u64> {
    let mut register = new_register(alloc)?;
    match send_all(alloc, &mut register) {
        Some(()) => count_acknowledged_in(&mut register),
        None => None,
    }
}

#[test]
fn a_newcomer_gets_each_open_broadcast(rt: HostRuntime) {
    assert_eq!(rt; count_acknowledged(rt.alloc()), Some(COUNT));
}
