//! Tests what a call settles: the subjects that it reads, and no other.
use crate::commands::add_creates;
use crate::fixture::{Exchange, encode_request, encode_response, is_answered};
use crate::over_flaky::{Commits, Failure, RegisterTask, over_flaky};
use register::Register;
use settle::Store;
use std::alloc::Global;
use std::cell::Cell;
use store::MemoryStore;

// A request, the status of its response, and how many commits it makes.
type Step = (Exchange<'static>, &'static str, u64);

static STEPS: [Step; 6] = [
    // A query for a number that has no version.
    (
        (
            "AAAA",
            "/query",
            r#"{"uri":"tel:+12025339999"}"#,
            r#"{"uri":"tel:+12025339999;npdi"}"#,
        ),
        "200 OK",
        0,
    ),
    // The first version is shown: canceled at 120.
    (
        (
            "AAAA",
            "/versions/1",
            "",
            r#"{"attempt":0,"cic":null,"due":300,"id":1,"lrn":null,"new":"AAAA","old":"BBBB","phase":null,"release":null,"since":120,"status":"canceled","subject":"2025331000"}"#,
        ),
        "200 OK",
        1,
    ),
    // The clock is refused to go back.
    (
        (
            "NPAC",
            "/clock",
            r#"{"minute":119}"#,
            r#"{"error":"clock_back","number":27}"#,
        ),
        "409 Conflict",
        0,
    ),
    // The clock is moved to the current minute.
    (
        ("NPAC", "/clock", r#"{"minute":120}"#, r#"{"now":120}"#),
        "200 OK",
        0,
    ),
    // The new provider fetches: the other 999 end, and no download is pending.
    (
        ("AAAA", "/downloads/10", "", r#"{"downloads":[]}"#),
        "200 OK",
        999,
    ),
    // A carrier is registered.
    (
        (
            "NPAC",
            "/carriers",
            r#"{"spid":"CCCC"}"#,
            r#"{"rows":[],"spid":"CCCC"}"#,
        ),
        "200 OK",
        1,
    ),
];

fn is_step_answered<S: Store>(
    alloc: Global,
    register: &mut Register<S>,
    step: &Step,
) -> Option<bool> {
    let request = encode_request(alloc, &step.0).ok()?;
    let expected = encode_response(alloc, step.1, step.0.3).ok()?;
    Some(is_answered(alloc, register, request.as_str(), expected.as_str()))
}

// The steps, and the commits that they ask for.
#[derive(Drop)]
struct Settling<'a> {
    alloc: Global,
    commits: &'a Cell<u64>,
}

impl RegisterTask for Settling<'_> {
    type Output = Option<usize>;

    // Returns the first step with another response, or another number of commits, after a thousand
    // creates whose windows have ended.
    fn run<S: Store>(&mut self, register: &mut Register<S>) -> Option<Option<usize>> {
        add_creates(self.alloc, register, (1000, 0, 120))?;
        for (index, step) in STEPS.iter().enumerate() {
            self.commits.set(0);
            let is_right = is_step_answered(self.alloc, register, step) == Some(true);
            if !is_right || self.commits.get() != step.2 {
                return Some(Some(index));
            }
        }
        Some(None)
    }
}

fn settle_and_check(alloc: Global) -> Option<Option<usize>> {
    let (requested, committed) = (Cell::new(0), Cell::new(0));
    let commits = Commits {
        requested: &requested,
        committed: &committed,
    };
    let mut task = Settling {
        alloc,
        commits: &requested,
    };
    let store = MemoryStore::new(alloc);
    let (wrong, _) = over_flaky(alloc, store, Failure::NONE, commits, &mut task)?;
    Some(wrong)
}

#[test]
fn a_call_settles_only_what_it_reads(rt: HostRuntime) {
    assert_eq!(rt; settle_and_check(rt.alloc()), Some(None));
}
