//! Commands and routings that the tests share.
use crate::fixture::{FIRST_PORT, are_answered};
use numbers::{Lrn, Minute, Routing, Spid, Tn};
use register::Register;
use requests::Command;
use settle::Store;
use std::alloc::Global;
use version::{Create, Creator};

/// Returns a routing without a carrier's identification code.
pub fn routing_to(lrn: &str) -> Option<Routing> {
    Some(Routing {
        lrn: Lrn::read(lrn)?,
        cic: None,
    })
}

/// Returns the old provider's create of the port of a number from BBBB to AAAA.
pub fn create_of(tn: Tn, due: Minute) -> Option<Create> {
    Some(Create {
        tn,
        old_provider: Spid::read("BBBB")?,
        new_provider: Spid::read("AAAA")?,
        due,
        creator: Creator::OldProvider { authorized: true },
    })
}

/// Executes a command of a caller, which must be accepted.
pub fn execute<S: Store>(register: &mut Register<S>, caller: Spid, command: Command) -> Option<()> {
    match register.do_it(caller, &command) {
        Ok(_) => Some(()),
        Err(_) => None,
    }
}

/// Opens the register as the first port does. Then the old provider creates `count` versions, one
/// each `interval` minutes, for 2025331000 and the next numbers. They are due at 300, and their
/// windows end 120 minutes after each. Last, moves the clock to `end`.
pub fn add_creates<S: Store>(
    alloc: Global,
    register: &mut Register<S>,
    (count, interval, end): (u64, u64, u64),
) -> Option<()> {
    if !are_answered(alloc, register, &FIRST_PORT[..5])? {
        return None;
    }
    let due = Minute::new(300)?;
    for number in 0..count {
        register
            .clock(Minute::new(number.saturating_mul(interval))?)
            .ok()?;
        let create = create_of(Tn::new(number.saturating_add(2_025_331_000))?, due)?;
        execute(register, create.old_provider, Command::Create(create))?;
    }
    register.clock(Minute::new(end)?).ok()?;
    Some(())
}
