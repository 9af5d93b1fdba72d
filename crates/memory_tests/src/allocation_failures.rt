//! Tests allocation failures in a carrier's copy and in the answer to a query. The same tests run
//! with each allocation refused in turn.
//!
//! A copy that meets one is unchanged. An answer that meets one has written only its beginning. Both
//! succeed the second time.
use crate::commands::routing_to;
use delivery::{Download, Mirror, RoutedRow};
use model::Action;
use numbers::{Cic, Lrn, Minute, Routing, Subject, Tn};
use std::alloc::{AllocError, Global};
use telnp::TelUri;

// More numbers than a copy has room for without another allocation.
const COUNT: usize = 200;

// Returns the number of 202533 with this line.
fn subject_of(line: usize) -> Option<Subject> {
    Some(Subject::Number(Tn::new((line as u64).saturating_add(2_025_331_000))?))
}

// Returns whether the first `count` numbers have this routing in the copy, and the others have none.
fn has_copied(copy: &Mirror, count: usize, routing: Option<Routing>) -> bool {
    for line in 0..COUNT {
        let expected = if line < count { routing } else { None };
        match subject_of(line) {
            Some(subject) if copy.get(subject) == expected => {}
            _ => return false,
        }
    }
    true
}

// Starts an empty copy with the first three numbers.
fn is_started(copy: &mut Mirror, routing: Routing) -> Option<bool> {
    let rows = [
        RoutedRow {
            subject: subject_of(0)?,
            routing,
        },
        RoutedRow {
            subject: subject_of(1)?,
            routing,
        },
        RoutedRow {
            subject: subject_of(2)?,
            routing,
        },
    ];
    let is_first = copy.start(&rows).is_ok();
    let is_unchanged = is_first || has_copied(copy, 0, None);
    Some(is_unchanged && (is_first || copy.start(&rows).is_ok()))
}

// Applies a download of a number to a copy of the first `count` numbers. A delete may carry a
// routing, and takes no memory.
fn is_applied(
    copy: &mut Mirror,
    line: usize,
    action: Action,
    count: usize,
    routing: Routing,
) -> Option<bool> {
    let download = Download {
        id: 1,
        attempt: 1,
        minute: Minute::ZERO,
        subject: subject_of(line)?,
        action,
        routing: if action == Action::Create || line % 2 == 0 {
            Some(routing)
        } else {
            None
        },
    };
    let is_first = copy.apply(&download).is_ok();
    let is_unchanged = is_first || has_copied(copy, count, Some(routing));
    let may_fail = action == Action::Create;
    Some(is_unchanged && (is_first || (may_fail && copy.apply(&download).is_ok())))
}

// Applies creates of all numbers but the first three, and deletes of all, the last first. Then the
// copy starts again, with three numbers and with none.
fn is_copy_followed_in(copy: &mut Mirror, routing: Routing) -> Option<bool> {
    let mut is_right = is_started(copy, routing)? && has_copied(copy, 3, Some(routing));
    for line in 3..COUNT {
        is_right = is_right && is_applied(copy, line, Action::Create, line, routing)?;
    }
    is_right = is_right && has_copied(copy, COUNT, Some(routing));
    for count in 0..COUNT {
        let line = COUNT.saturating_sub(count).saturating_sub(1);
        is_right = is_right
            && is_applied(copy, line, Action::Delete, line, routing)?
            && has_copied(copy, line, Some(routing));
    }
    let is_again = is_started(copy, routing)? && copy.start(&[]).is_ok();
    Some(is_right && is_again && has_copied(copy, 0, None))
}

fn is_copy_followed(alloc: Global) -> Option<bool> {
    let routing = routing_to("2025330000")?;
    let mut copy = Mirror::new(alloc);
    is_copy_followed_in(&mut copy, routing)
}

// A URI with parameters, one without, and one that says that it has been looked up; each with its
// answer.
static ANSWERS: [(&str, &str); 3] = [
    (
        "TEL:+1(202)533-1234;zz=1;a=1;ext=5",
        "tel:+1(202)533-1234;ext=5;a=1;cic=+10288;npdi;rn=+12025440000;zz=1",
    ),
    (
        "tel:+12025331234",
        "tel:+12025331234;cic=+10288;npdi;rn=+12025440000",
    ),
    (
        "tel:+1-202-533-1234;rn=+12020000000;npdi",
        "tel:+1-202-533-1234;rn=+12020000000;npdi",
    ),
];

fn write_answer(alloc: Global, text: &str, out: &mut String) -> Option<Result<(), AllocError>> {
    let routing = Routing {
        lrn: Lrn::read("2025440000")?,
        cic: Some(Cic::read("0288")?),
    };
    let uri = TelUri::read(text).ok()?;
    Some(uri.write_answer(alloc, Some(routing), out))
}

// Returns whether the answer is written, at the first or the second attempt.
fn is_answered(alloc: Global, text: &str, answer: &str) -> Option<bool> {
    let mut first = String::new(alloc);
    if write_answer(alloc, text, &mut first)?.is_ok() {
        return Some(first.as_str() == answer);
    }
    let mut second = String::new(alloc);
    let is_written = write_answer(alloc, text, &mut second)?.is_ok();
    Some(answer.starts_with(first.as_str()) && is_written && second.as_str() == answer)
}

// Returns the first URI that is answered differently.
fn first_wrong_answer(alloc: Global) -> Option<usize> {
    for (place, (text, answer)) in ANSWERS.iter().enumerate() {
        if is_answered(alloc, text, answer) != Some(true) {
            return Some(place);
        }
    }
    None
}

#[test]
fn copies_and_answers_with_an_allocation_failure(rt: HostRuntime) {
    let found = (is_copy_followed(rt.alloc()), first_wrong_answer(rt.alloc()));
    assert_eq!(rt; found, (Some(true), None));
}
