//! Tests commits, each read, and an acknowledgement in one call. They also run with each allocation
//! refused in turn: a commit that is refused leaves every read unchanged, and succeeds the second
//! time.
use crate::fixture::{FIRST_PORT, are_answered, new_register};
use delivery::Broadcast;
use model::{Action, Status};
use numbers::{BlockId, CodeId, Lrn, Minute, Routing, Spid, Subject, Tn};
use settle::{BlockRow, BroadcastKey, Changes, Few, Store, VersionRow, WaitKey};
use std::alloc::Global;
use store::MemoryStore;
use version::Version;
use windows::{Window, WindowSet, Windows};

const WINDOWS: Windows = Windows {
    initial_concurrence: Window { minutes: 540 },
    final_concurrence: Window { minutes: 540 },
    conflict_restriction: Window { minutes: 1080 },
    conflict_resolution: Window { minutes: 360 },
    conflict_expiration: Window { minutes: 43_200 },
    cancellation_initial: Window { minutes: 540 },
    cancellation_final: Window { minutes: 540 },
    pending_retention: Window { minutes: 43_200 },
    broadcast: Window { minutes: 15 },
};

#[derive(Clone, Copy)]
struct Sample {
    carrier: Spid,
    lrn: Lrn,
    code: CodeId,
    block: BlockId,
    subject: Subject,
}

fn make_sample() -> Option<Sample> {
    Some(Sample {
        carrier: Spid::read("A001")?,
        lrn: Lrn::read("2025440000")?,
        code: CodeId::read("202533")?,
        block: BlockId::read("2025337")?,
        subject: Subject::Number(Tn::read("2025331234")?),
    })
}

// Returns the row of an active version, which has a deadline, and is in force if its id is 1.
fn version_row(sample: &Sample, id: u64, deadline: Option<u64>) -> VersionRow {
    let version = Version {
        subject: sample.subject,
        old_provider: sample.carrier,
        new_provider: sample.carrier,
        due: Minute::ZERO,
        routing: Some(Routing {
            lrn: sample.lrn,
            cic: None,
        }),
        old_at: None,
        new_at: None,
        status: Status::Active,
        since: Minute::ZERO,
        held: 1,
        attempt: 1,
        is_conflict_spent: false,
        is_protective: false,
    };
    VersionRow {
        version,
        deadline: deadline.and_then(Minute::new),
        is_in_force: id == 1,
        is_open: false,
    }
}

const KEY: BroadcastKey = BroadcastKey { id: 1, attempt: 1 };

// Returns the key of a carrier's download of the first version.
fn wait_of(carrier: Spid, attempt: u64) -> WaitKey {
    WaitKey {
        carrier,
        minute: Minute::ZERO,
        id: KEY.id,
        attempt,
    }
}

// The id of a version, and its deadline.
type Deadline = (u64, Option<u64>);

static FIRST_DEADLINES: [Deadline; 4] = [(1, Some(30)), (2, Some(10)), (3, Some(20)), (4, None)];

// The second version loses its deadline, and a fifth is added.
static NEXT_DEADLINES: [Deadline; 2] = [(2, None), (5, Some(40))];

// Returns changes with these versions, and with these attempts of the first, sent to the carrier.
fn changes_of(
    alloc: Global,
    sample: &Sample,
    deadlines: &[Deadline],
    attempts: &[u64],
) -> Option<Changes> {
    let mut versions = Vec::new(alloc);
    for (id, deadline) in deadlines {
        versions
            .push((*id, version_row(sample, *id, *deadline)))
            .ok()?;
    }
    let mut broadcasts = Vec::new(alloc);
    let mut changes = Changes::none(alloc);
    for attempt in attempts {
        let key = BroadcastKey {
            id: KEY.id,
            attempt: *attempt,
        };
        let sent = Broadcast::send(Minute::ZERO, sample.subject, Action::Create, None);
        broadcasts.push((key, sent)).ok()?;
        let wait = wait_of(sample.carrier, *attempt);
        changes.waits.push((wait, sample.subject)).ok()?;
    }
    changes.versions = Few::Many(versions);
    changes.broadcasts = Few::Many(broadcasts);
    Some(changes)
}

// Returns the first changes, with a row of each kind besides.
fn first_changes(alloc: Global, sample: &Sample, attempts: &[u64]) -> Option<Changes> {
    let row = BlockRow {
        donor: sample.carrier,
        last: None,
    };
    let changes = changes_of(alloc, sample, &FIRST_DEADLINES, attempts)?;
    Some(Changes {
        carrier: Some(sample.carrier),
        lrn: Some((sample.lrn, sample.carrier)),
        code: Some((sample.code, sample.carrier)),
        block: Some((sample.block, row)),
        set: Some(WindowSet {
            number: 1,
            windows: WINDOWS,
        }),
        ..changes
    })
}

// Returns whether there is a clock, and a carrier, a routing number, a code and a block with the
// sample's keys, and the first set of windows.
fn registry_checks(store: &mut MemoryStore, sample: &Sample) -> Option<[bool; 6]> {
    Some([
        store.clock().ok()?.is_some(),
        store.carrier(sample.carrier).ok()?,
        store.lrn(sample.lrn).ok()? == Some(sample.carrier),
        store.code(sample.code).ok()? == Some(sample.carrier),
        store.block(sample.block).ok()?.is_some(),
        store.window_set(1).ok()? == Some(WINDOWS),
    ])
}

// Returns whether there is a version by id, in force and open, and a broadcast, and whether another
// carrier's download would be the last.
fn version_checks(store: &mut MemoryStore, sample: &Sample) -> Option<[bool; 5]> {
    let another = wait_of(Spid::read("B001")?, KEY.attempt);
    Some([
        store.version(1).ok()?.is_some(),
        store.version_in_force(sample.subject).ok()?.is_some(),
        store.open_version(sample.subject).ok()?.is_some(),
        store.broadcast(KEY).ok()?.is_some(),
        store.is_last_wait(another).ok()?,
    ])
}

// Returns whether `count` downloads of the sample are pending for its carrier, with consecutive
// attempts from the first on.
fn are_waits_about(store: &mut MemoryStore, sample: &Sample, count: usize) -> Option<bool> {
    let about = store.waits_about(sample.carrier, sample.subject).ok()?;
    let mut next: u64 = 1;
    for download in about.as_slice() {
        if download.attempt != next {
            return Some(false);
        }
        next = next.saturating_add(1);
    }
    Some(about.as_slice().len() == count)
}

// Returns how many rows the lists have with a row for each download: the first downloads of the
// carrier, and the open broadcasts.
fn download_counts(store: &mut MemoryStore, sample: &Sample) -> Option<[usize; 2]> {
    let first = store.front(sample.carrier, 10).ok()?.len();
    let broadcasts = store.open_broadcasts().ok()?.len();
    Some([first, broadcasts])
}

// Returns how many rows each other list has.
fn list_counts(store: &mut MemoryStore, sample: &Sample) -> Option<[usize; 5]> {
    let block = BlockId::read("2025331")?;
    let waits = store.waits(sample.carrier).ok()?.len();
    let waiters = store.waiters(Minute::ZERO, KEY).ok()?.len();
    let carriers = store.carriers().ok()?.len();
    let in_force = store.in_force().ok()?.len();
    let in_block = store.in_block(block).ok()?.len();
    Some([waits, waiters, carriers, in_force, in_block])
}

// Returns whether the reads are right after a commit with `count` downloads, or none.
fn are_reads_expected(store: &mut MemoryStore, sample: &Sample, count: usize) -> Option<bool> {
    let is_done = count > 0;
    let registered = registry_checks(store, sample)?;
    let ported = version_checks(store, sample)?;
    let are_rows = registered == [false, is_done, is_done, is_done, is_done, is_done];
    let are_versions = ported == [is_done, is_done, false, is_done, !is_done];
    let are_lists = download_counts(store, sample)? == [count; 2]
        && list_counts(store, sample)? == [usize::from(is_done); 5];
    let are_waits = are_waits_about(store, sample, count)?;
    Some(are_rows && are_versions && are_lists && are_waits && store.failures() == 0)
}

// Commits, and checks the reads. After a refused commit nothing is read, and the next commit must be
// made.
fn are_first_committed(
    store: &mut MemoryStore,
    sample: &Sample,
    changes: &Changes,
) -> Option<bool> {
    let count = changes.waits.len();
    if store.commit(changes).is_ok() {
        return are_reads_expected(store, sample, count);
    }
    let is_unchanged = are_reads_expected(store, sample, 0)?;
    let is_made = store.commit(changes).is_ok();
    Some(is_unchanged && is_made && are_reads_expected(store, sample, count)?)
}

// Returns the id of the version with the least deadline, if that is not after `now`.
fn least_due(store: &mut MemoryStore, now: u64) -> Option<Option<u64>> {
    let least = store.least_due(Minute::new(now)?).ok()?;
    Some(least.map(|version| version.id))
}

// Commits the next changes. Returns whether the least deadline is right before and after: none is
// due at 9, and the second version is from 10 on. A refused commit must be made the second time.
fn are_next_committed(store: &mut MemoryStore, changes: &Changes) -> Option<bool> {
    let is_second = least_due(store, 9)?.is_none() && least_due(store, 10)? == Some(2);
    let is_made = store.commit(changes).is_ok()
        || (least_due(store, 1000)? == Some(2) && store.commit(changes).is_ok());
    Some(is_second && is_made && least_due(store, 1000)? == Some(3))
}

fn are_committed(alloc: Global, attempts: &[u64]) -> Option<bool> {
    let sample = make_sample()?;
    let first = first_changes(alloc, &sample, attempts)?;
    let next = changes_of(alloc, &sample, &NEXT_DEADLINES, &[])?;
    let mut store = MemoryStore::new(alloc);
    let is_first = are_first_committed(&mut store, &sample, &first)?;
    Some(is_first && are_next_committed(&mut store, &next)?)
}

static ATTEMPTS: [&[u64]; 4] = [&[1], &[2, 1], &[3, 1, 2], &[5, 3, 1, 4, 2]];

// Returns the first result, or the second if an allocation of the test or of a read was refused.
fn with_retry(first: Option<bool>, second: Option<bool>) -> Option<bool> {
    match first {
        None => second,
        result => result,
    }
}

// Returns the first row with another result.
fn first_wrong_row(alloc: Global) -> Option<usize> {
    for (index, attempts) in ATTEMPTS.iter().enumerate() {
        let first = are_committed(alloc, attempts);
        if with_retry(first, are_committed(alloc, attempts)) != Some(true) {
            return Some(index);
        }
    }
    None
}

// Returns a store after a version was sent to two carriers.
fn store_with_broadcast(alloc: Global) -> Option<MemoryStore> {
    let mut register = new_register(alloc)?;
    match are_answered(alloc, &mut register, &FIRST_PORT[..8]) {
        Some(true) => Some(register.close()),
        _ => None,
    }
}

fn is_taken(store: &mut MemoryStore, carrier: &str, id: u64) -> Option<bool> {
    let taken = store.take_shared(Spid::read(carrier)?, id, KEY.attempt);
    Some(taken.ok()?.is_some())
}

// Returns whether each acknowledgement is taken, in turn: of a carrier that is not registered, of a
// version that is not there, of a shared download, whether its broadcast says so then, of the same
// one again, and of the last one.
fn turns(store: &mut MemoryStore) -> Option<[bool; 6]> {
    Some([
        is_taken(store, "CCCC", 1)?,
        is_taken(store, "AAAA", 2)?,
        is_taken(store, "AAAA", 1)?,
        store.broadcast(KEY).ok()??.is_acknowledged,
        is_taken(store, "AAAA", 1)?,
        is_taken(store, "BBBB", 1)?,
    ])
}

fn are_turns_expected(alloc: Global) -> Option<bool> {
    let mut store = store_with_broadcast(alloc)?;
    Some(turns(&mut store)? == [false, false, true, true, false, false])
}

#[test]
fn commits_and_reads(rt: HostRuntime) {
    let alloc = rt.alloc();
    let taken = with_retry(are_turns_expected(alloc), are_turns_expected(alloc));
    assert_eq!(rt; (first_wrong_row(alloc), taken), (None, Some(true)));
}
