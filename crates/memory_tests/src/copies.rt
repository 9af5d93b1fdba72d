//! Tests carriers' copies, which start with the rows of a registration and follow what is fetched.
use crate::commands::routing_to;
use crate::fixture::{Exchange, FIRST_PORT, are_accepted, new_register};
use delivery::Mirror;
use numbers::{Spid, Subject, Tn};
use register::Register;
use requests::{Command, Reply};
use std::alloc::Global;
use store::MemoryStore;

// What is done to a copy, or shown of it.
#[derive(Clone, Copy)]
enum Turn {
    // This many rows of the first port are served.
    Ports(usize),
    // The number is given back and ported again.
    Returns,
    // A port is sent at 400.
    Sends,
    // These rows are served.
    Serves(&'static [Exchange<'static>]),
    // The carrier is registered, and its copy starts with this many rows.
    Registers(usize),
    // This many downloads are pending.
    Awaits(usize),
    // The carrier applies its next download and acknowledges it.
    Follows,
    // This is the number's routing in the copy; the empty text for none.
    Has(&'static str),
}

// The number is given back at 10, which only one carrier acknowledges in time, and is ported again
// at 30.
static RETURNED_AND_PORTED: [Exchange<'static>; 7] = [
    ("NPAC", "/clock", r#"{"minute":10}"#, ""),
    ("AAAA", "/subscriptionVersionDisconnect", r#"{"id":1}"#, ""),
    (
        "AAAA",
        "/downloads/acknowledge",
        r#"{"attempt":2,"id":1}"#,
        "",
    ),
    ("NPAC", "/clock", r#"{"minute":30}"#, ""),
    (
        "AAAA",
        "/subscriptionVersionNewSP-Create",
        r#"{"due":30,"lrn":"2025440000","new":"AAAA","old":"BBBB","tn":"2025331234"}"#,
        "",
    ),
    (
        "BBBB",
        "/subscriptionVersionOldSP-Create",
        r#"{"authorized":true,"due":30,"new":"AAAA","old":"BBBB","tn":"2025331234"}"#,
        "",
    ),
    ("AAAA", "/subscriptionVersionActivate", r#"{"id":2}"#, ""),
];

// A third carrier. A port is sent at 400, and only the new provider acknowledges it: the broadcast
// closes at 415.
static SENT_AT_400: [Exchange<'static>; 6] = [
    ("NPAC", "/carriers", r#"{"spid":"CCCC"}"#, ""),
    (
        "AAAA",
        "/subscriptionVersionNewSP-Create",
        r#"{"due":100,"lrn":"2025440000","new":"AAAA","old":"BBBB","tn":"2025331234"}"#,
        "",
    ),
    (
        "BBBB",
        "/subscriptionVersionOldSP-Create",
        r#"{"authorized":true,"due":100,"new":"AAAA","old":"BBBB","tn":"2025331234"}"#,
        "",
    ),
    ("NPAC", "/clock", r#"{"minute":400}"#, ""),
    ("AAAA", "/subscriptionVersionActivate", r#"{"id":1}"#, ""),
    (
        "AAAA",
        "/downloads/acknowledge",
        r#"{"attempt":1,"id":1}"#,
        "",
    ),
];

// The copies of the old provider and of newcomers: after the port, as a broadcast has closed, and a
// minute before.
static COPIES: [(&str, &[Turn]); 4] = [
    (
        "BBBB",
        &[
            Turn::Ports(9),
            Turn::Awaits(1),
            Turn::Follows,
            Turn::Awaits(0),
            Turn::Has("2025440000"),
            Turn::Returns,
            Turn::Awaits(2),
            Turn::Follows,
            Turn::Has(""),
            Turn::Follows,
            Turn::Has("2025440000"),
        ],
    ),
    (
        "CCCC",
        &[
            Turn::Ports(10),
            Turn::Registers(1),
            Turn::Has("2025440000"),
            Turn::Returns,
            Turn::Follows,
            Turn::Has(""),
            Turn::Follows,
            Turn::Has("2025440000"),
        ],
    ),
    (
        "DDDD",
        &[
            Turn::Ports(5),
            Turn::Sends,
            Turn::Serves(&[("NPAC", "/clock", r#"{"minute":415}"#, "")]),
            Turn::Registers(1),
            Turn::Awaits(0),
            Turn::Has("2025440000"),
            // The other two acknowledge it late, and the number is given back at 420.
            Turn::Serves(&[
                (
                    "BBBB",
                    "/downloads/acknowledge",
                    r#"{"attempt":1,"id":1}"#,
                    "",
                ),
                (
                    "CCCC",
                    "/downloads/acknowledge",
                    r#"{"attempt":1,"id":1}"#,
                    "",
                ),
                ("NPAC", "/clock", r#"{"minute":420}"#, ""),
                ("AAAA", "/subscriptionVersionDisconnect", r#"{"id":1}"#, ""),
            ]),
            Turn::Awaits(1),
            Turn::Follows,
            Turn::Has(""),
        ],
    ),
    (
        "DDDD",
        &[
            Turn::Ports(5),
            Turn::Sends,
            Turn::Serves(&[("NPAC", "/clock", r#"{"minute":414}"#, "")]),
            Turn::Registers(0),
            Turn::Has(""),
            Turn::Awaits(1),
            Turn::Follows,
            Turn::Has("2025440000"),
        ],
    ),
];

// Registers a newcomer, and starts its copy. Returns how many rows that has.
fn start_copy(
    register: &mut Register<MemoryStore>,
    spid: Spid,
    copy: &mut Mirror,
) -> Option<usize> {
    let command = Command::RegisterCarrier { spid };
    match register.do_it(Spid::NPAC, &command).ok()? {
        Reply::Registered { spid: _, rows } => {
            copy.start(&rows).ok()?;
            Some(rows.len())
        }
        _ => None,
    }
}

// Applies the carrier's next download to its copy, and acknowledges it.
fn follow_download(
    register: &mut Register<MemoryStore>,
    spid: Spid,
    copy: &mut Mirror,
) -> Option<()> {
    let downloads = register.fetch(spid, 1).ok()?;
    let next = downloads.first()?;
    copy.apply(next).ok()?;
    register.acknowledge(spid, next.id, next.attempt).ok()?;
    Some(())
}

// Returns whether the carrier fetches this many downloads, and none if it asks for none.
fn has_pending(register: &mut Register<MemoryStore>, spid: Spid, count: usize) -> Option<bool> {
    let none = register.fetch(spid, 0).ok()?.len();
    let all = register.fetch(spid, 10).ok()?.len();
    Some((none, all) == (0, count))
}

fn has_routing(copy: &Mirror, lrn: &str) -> Option<bool> {
    let subject = Subject::Number(Tn::read("2025331234")?);
    Some(copy.get(subject) == routing_to(lrn))
}

// Returns whether a turn is as it should be.
fn is_turn_right(
    alloc: Global,
    register: &mut Register<MemoryStore>,
    spid: Spid,
    copy: &mut Mirror,
    turn: Turn,
) -> Option<bool> {
    match turn {
        Turn::Ports(count) => are_accepted(alloc, register, FIRST_PORT.get(..count)?),
        Turn::Returns => are_accepted(alloc, register, &RETURNED_AND_PORTED),
        Turn::Sends => are_accepted(alloc, register, &SENT_AT_400),
        Turn::Serves(exchanges) => are_accepted(alloc, register, exchanges),
        Turn::Registers(rows) => Some(start_copy(register, spid, copy)? == rows),
        Turn::Awaits(count) => has_pending(register, spid, count),
        Turn::Follows => follow_download(register, spid, copy).map(|_| true),
        Turn::Has(lrn) => has_routing(copy, lrn),
    }
}

// Returns the first turn that is not as it should be.
fn first_wrong_turn(alloc: Global, name: &str, turns: &[Turn]) -> Option<usize> {
    let Some(spid) = Spid::read(name) else {
        return Some(0);
    };
    let Some(mut register) = new_register(alloc) else {
        return Some(0);
    };
    let mut copy = Mirror::new(alloc);
    for (place, turn) in turns.iter().enumerate() {
        if is_turn_right(alloc, &mut register, spid, &mut copy, *turn) != Some(true) {
            return Some(place);
        }
    }
    None
}

// Returns the first copy with a wrong turn, and that turn.
fn first_wrong_copy(alloc: Global) -> Option<(usize, usize)> {
    for (place, (name, turns)) in COPIES.iter().enumerate() {
        if let Some(turn) = first_wrong_turn(alloc, name, turns) {
            return Some((place, turn));
        }
    }
    None
}

#[test]
fn copies_follow_a_number(rt: HostRuntime) {
    assert_eq!(rt; first_wrong_copy(rt.alloc()), None);
}
