//! Tests `full` at the greatest ids and attempts, which no story reaches, and which refusal is then
//! the least.
use crate::commands::routing_to;
use model::{Refusal, Status};
use numbers::{BlockId, Line, Minute, Spid, Subject, Tn};
use pool::{Assignment, BlockFacts, Donation, release};
use std::alloc::Global;
use version::{CommandFacts, ID_LIMIT, NumberInUse, Version, VersionCommand};
use windows::{Window, WindowSet, Windows};

const DAY: Window = Window { minutes: 1440 };

// The current windows.
const PRESENT: WindowSet = WindowSet {
    number: 2,
    windows: Windows {
        initial_concurrence: DAY,
        final_concurrence: DAY,
        conflict_restriction: DAY,
        conflict_resolution: DAY,
        conflict_expiration: DAY,
        cancellation_initial: DAY,
        cancellation_final: DAY,
        pending_retention: DAY,
        broadcast: DAY,
    },
};

// Returns a version of a block of AAAA's at this attempt, in this status since 650.
fn version_at(attempt: u64, status: Status) -> Option<Version> {
    Some(Version {
        subject: Subject::Block(BlockId::read("2025337")?),
        old_provider: Spid::read("BBBB")?,
        new_provider: Spid::read("AAAA")?,
        due: Minute::ZERO,
        routing: Some(routing_to("2025440000")?),
        old_at: None,
        new_at: None,
        status,
        since: Minute::new(650)?,
        held: 1,
        attempt,
        is_conflict_spent: false,
        is_protective: false,
    })
}

// What is wrong with a modify, from the least refusal to the greatest. Of 32 ways to be wrong,
// those with the bit of a refusal are wrong by it.
static MODIFIES: [(Refusal, usize); 5] = [
    (Refusal::BadLrn, 1),
    (Refusal::NotYours, 2),
    (Refusal::Busy, 4),
    (Refusal::WrongStatus, 8),
    (Refusal::Full, 16),
];

// Returns the refusal of a modify that is wrong in this way, if it is refused.
fn modify_refusal(mistakes: usize) -> Option<Option<Refusal>> {
    let has = |bit: usize| mistakes & bit != 0;
    let status = if has(8) {
        Status::PartialFailure
    } else {
        Status::Active
    };
    let attempt = if has(16) { ID_LIMIT - 1 } else { ID_LIMIT - 2 };
    let version = Version {
        subject: Subject::Number(Tn::read("2025331234")?),
        ..version_at(attempt, status)?
    };
    let facts = CommandFacts {
        is_another_open: has(4),
        is_lrn_good: !has(1),
    };
    let caller = if has(2) {
        version.old_provider
    } else {
        version.new_provider
    };
    let routing = routing_to("2025440001")?;
    let transition = version.commanded(
        VersionCommand::ModifyRouting { routing },
        caller,
        facts,
        Minute::new(5004)?,
        &PRESENT.windows,
        &PRESENT,
    );
    Some(transition.err())
}

// Returns the first way with another refusal than the least.
fn first_wrong_modify() -> Option<usize> {
    for mistakes in 0..32 {
        let mut least = None;
        for (refusal, bit) in &MODIFIES {
            if least.is_none() && mistakes & *bit != 0 {
                least = Some(*refusal);
            }
        }
        if modify_refusal(mistakes) != Some(least) {
            return Some(mistakes);
        }
    }
    None
}

// A command on a block.
#[derive(Clone, Copy)]
enum Kind {
    // The donation of this many lines.
    Donation(u64),
    Assignment,
    // The release of AAAA's block by its holder, at this attempt.
    Release(u64),
}

// A command, whether the block is donated, whether a number of it is being ported, the id of the
// next version, and the refusal. Ids and attempts are below 2^40.
type BlockCase = (Kind, bool, bool, u64, Option<Refusal>);

static BLOCK_CASES: [BlockCase; 8] = [
    (Kind::Donation(2), false, false, ID_LIMIT - 2, None),
    (
        Kind::Donation(3),
        false,
        false,
        ID_LIMIT - 2,
        Some(Refusal::Full),
    ),
    (
        Kind::Donation(3),
        true,
        false,
        ID_LIMIT - 2,
        Some(Refusal::BlockTaken),
    ),
    (Kind::Assignment, true, false, ID_LIMIT - 1, None),
    (Kind::Assignment, true, false, ID_LIMIT, Some(Refusal::Full)),
    (Kind::Release(ID_LIMIT - 2), true, false, 41, None),
    (
        Kind::Release(ID_LIMIT - 1),
        true,
        false,
        41,
        Some(Refusal::Full),
    ),
    (
        Kind::Release(ID_LIMIT - 1),
        true,
        true,
        41,
        Some(Refusal::OpenPorts),
    ),
];

// Returns the first `count` lines of a block.
fn lines(alloc: Global, count: u64) -> Option<Vec<Line>> {
    let first = BlockId::read("2025337")?.tn(Line::read("000")?).number;
    let mut lines = Vec::new(alloc);
    for line in 0..count {
        lines.push(Tn::new(first.checked_add(line)?)?.line()).ok()?;
    }
    Some(lines)
}

// Returns the refusal of a command, if it is refused.
fn refusal_of(alloc: Global, kind: Kind, facts: &BlockFacts<'_>) -> Option<Option<Refusal>> {
    let block = BlockId::read("2025337")?;
    let (holder, donor) = (Spid::read("AAAA")?, Spid::read("BBBB")?);
    let routing = routing_to("2025440000")?;
    let minute = Minute::new(800)?;
    match kind {
        Kind::Donation(count) => {
            let used = lines(alloc, count)?;
            let donation = Donation {
                block,
                used: &used,
                routing,
            };
            Some(donation.plan(alloc, donor, facts, minute, &PRESENT).err())
        }
        Kind::Assignment => {
            let assignment = Assignment {
                block,
                holder,
                routing,
            };
            Some(assignment.made(Spid::NPAC, facts, minute, &PRESENT).err())
        }
        Kind::Release(_) => Some(release(holder, facts, minute, &PRESENT).err()),
    }
}

// Returns whether a command is refused as it should be.
fn is_refused(alloc: Global, row: &BlockCase) -> Option<bool> {
    let (kind, is_donated, is_ported, next_id, expected) = *row;
    let donor = Spid::read("BBBB")?;
    let ported = [NumberInUse {
        tn: BlockId::read("2025337")?.tn(Line::read("500")?),
        is_in_force: false,
        is_open: true,
    }];
    let facts = BlockFacts {
        code_holder: Some(donor),
        is_lrn_good: true,
        donor: if is_donated { Some(donor) } else { None },
        last: match kind {
            Kind::Release(attempt) => version_at(attempt, Status::Active),
            _ => None,
        },
        numbers: ported.get(..usize::from(is_ported))?,
        next_id,
    };
    Some(refusal_of(alloc, kind, &facts)? == expected)
}

// Returns the first command on a block that is refused differently.
fn first_wrong_command(alloc: Global) -> Option<usize> {
    for (place, row) in BLOCK_CASES.iter().enumerate() {
        if is_refused(alloc, row) != Some(true) {
            return Some(place);
        }
    }
    None
}

#[test]
fn the_greatest_ids_and_attempts_are_full(rt: HostRuntime) {
    let wrong = (first_wrong_modify(), first_wrong_command(rt.alloc()));
    assert_eq!(rt; wrong, (None, None));
}
