//! Tests opening a store again, with its own windows and with others.
use crate::fixture::{Exchange, FIRST_PORT, WINDOWS, are_answered, new_register};
use model::Refusal;
use numbers::Spid;
use register::{OpenFault, Register};
use requests::{Command, Reply};
use std::alloc::Global;
use store::MemoryStore;
use windows::Windows;

// The port's number is routed, and a carrier that registers gets its one row.
static AFTERWARDS: [Exchange<'static>; 2] = [
    (
        "AAAA",
        "/query",
        r#"{"uri":"tel:+12025331234"}"#,
        r#"{"uri":"tel:+12025331234;npdi;rn=+12025440000"}"#,
    ),
    (
        "NPAC",
        "/carriers",
        r#"{"spid":"CCCC"}"#,
        r#"{"rows":[{"cic":null,"lrn":"2025440000","subject":"2025331234"}],"spid":"CCCC"}"#,
    ),
];

// The administrator sets the other windows.
static OTHER_WINDOWS_SET: [Exchange<'static>; 1] = [(
    "NPAC",
    "/windows",
    r#"{"broadcast":16,"cancellation_final":60,"cancellation_initial":60,"conflict_expiration":1000,"conflict_resolution":120,"conflict_restriction":30,"final_concurrence":60,"initial_concurrence":60,"pending_retention":500}"#,
    r#"{"now":0,"set":2}"#,
)];

// Returns the windows of the tests with another one for the broadcast.
fn other_windows(alloc: Global) -> Option<Windows> {
    let text = WINDOWS
        .replace(alloc, "broadcast = 15", "broadcast = 16")
        .ok()?;
    Windows::from_toml(alloc, text.as_str()).ok()
}

// Returns a store that has served the first port, and then these rows.
fn served_store(alloc: Global, exchanges: &[Exchange<'_>]) -> Option<MemoryStore> {
    let mut register = new_register(alloc)?;
    let is_ported = are_answered(alloc, &mut register, &FIRST_PORT) == Some(true);
    if is_ported && are_answered(alloc, &mut register, exchanges) == Some(true) {
        Some(register.close())
    } else {
        None
    }
}

// Returns whether a store is refused to open with the wrong windows, and works on with the right
// ones.
fn is_reopened(
    alloc: Global,
    store: MemoryStore,
    wrong: &Windows,
    right: &Windows,
) -> Option<bool> {
    let (store, fault) = Register::open(alloc, store, wrong).err()?;
    let mut register = Register::open(alloc, store, right).ok()?;
    let is_answered = are_answered(alloc, &mut register, &AFTERWARDS) == Some(true);
    Some(is_answered && fault == OpenFault::WindowsDiffer)
}

// Returns whether a store is opened again with the windows that it was created with, and with those
// that were set since.
fn are_reopened(alloc: Global) -> Option<[bool; 2]> {
    let first = Windows::from_toml(alloc, WINDOWS).ok()?;
    let other = other_windows(alloc)?;
    Some([
        is_reopened(alloc, served_store(alloc, &[])?, &other, &first)?,
        is_reopened(
            alloc,
            served_store(alloc, &OTHER_WINDOWS_SET)?,
            &first,
            &other,
        )?,
    ])
}

#[test]
fn a_store_is_opened_with_its_present_windows(rt: HostRuntime) {
    assert_eq!(rt; are_reopened(rt.alloc()), Some([true; 2]));
}

// Sets windows until a refusal. Returns how often that succeeded, and why the administrator and
// another caller are refused then.
fn count_sets_in(
    register: &mut Register<MemoryStore>,
    command: &Command,
) -> Option<(u16, [Refusal; 2])> {
    for count in 1..2000u16 {
        match register.do_it(Spid::NPAC, command) {
            Ok(Reply::WindowsSet { now: _, number }) if number == count.saturating_add(1) => {}
            Ok(_) => return None,
            Err(refusal) => {
                let other = register.do_it(Spid::read("AAAA")?, command).err()?;
                return Some((count, [refusal, other]));
            }
        }
    }
    None
}

fn count_sets(alloc: Global) -> Option<(u16, [Refusal; 2])> {
    let command = Command::SetWindows {
        windows: Windows::from_toml(alloc, WINDOWS).ok()?,
    };
    let mut register = new_register(alloc)?;
    match are_answered(alloc, &mut register, &FIRST_PORT) {
        Some(true) => count_sets_in(&mut register, &command),
        _ => None,
    }
}

#[test]
fn a_thousand_sets_are_the_most(rt: HostRuntime) {
    let expected = Some((1000, [Refusal::Full, Refusal::NotAdmin]));
    assert_eq!(rt; count_sets(rt.alloc()), expected);
}
