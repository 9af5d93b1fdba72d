//! Tests a stop at each call of the database file and of its log during each request of three
//! worked histories. Whatever the machine leaves of them continues the history.
use crate::crashes::{Mismatch, mismatch_from};
use crate::files::{FileBytes, files_after};
use crate::messages::{Exchange, Exchanges, Messages, Request, encode_response};
use crate::operations::LARGE_CACHE;
use crate::reference::reference_of;
use crate::scenarios::Scenario;
use crate::worked_histories::{FAILED_NUMBER, History, PLANNED_RELEASE, PORT};
use std::alloc::Global;

// A query that changes nothing, whatever happened before.
const UNPORTED_QUERY: Request<'static> = ("NPAC", "/query", r#"{"uri":"tel:+12025339999"}"#);

// A request, and how it goes wrong.
type WrongRequest = (Request<'static>, Mismatch);

// Executes an exchange and, if asked, stops the files during it. Returns the files after it.
fn after_exchange(
    alloc: Global,
    before: &FileBytes,
    exchange: &Exchange<'static>,
    next_request: Request<'static>,
    is_stopped: bool,
) -> Result<FileBytes, Mismatch> {
    let (request, status, body) = *exchange;
    let batch = [request];
    let batches = [batch.as_slice()];
    let messages = Messages {
        batches: &batches,
        is_grouped: false,
    };
    let scenario = Scenario {
        name: "",
        setup: &[],
        older_format: &[],
        is_opening_stopped: false,
        steps: &[],
        messages,
        next_request,
    };
    let Some(reference) = reference_of(alloc, before, &scenario, LARGE_CACHE) else {
        return Err(("no run without a stop", 0));
    };
    match encode_response(alloc, status, body) {
        Ok(response) if reference.text.as_slice() == response.as_bytes() => {}
        _ => return Err(("another response", 0)),
    }
    let mismatch = if is_stopped {
        mismatch_from(alloc, &reference, &scenario, LARGE_CACHE)
    } else {
        None
    };
    match mismatch {
        None => Ok(reference.after),
        Some(mismatch) => Err(mismatch),
    }
}

// Executes the exchanges of a part. Returns the files after it.
fn after_part(
    alloc: Global,
    file_bytes: FileBytes,
    part: Exchanges<'static>,
    is_stopped: bool,
) -> Result<FileBytes, WrongRequest> {
    let mut files = file_bytes;
    for (place, exchange) in part.iter().enumerate() {
        let next_request = match part.get(place.saturating_add(1)) {
            Some(next) => next.0,
            None => UNPORTED_QUERY,
        };
        match after_exchange(alloc, &files, exchange, next_request, is_stopped) {
            Ok(after) => files = after,
            Err(mismatch) => return Err((exchange.0, mismatch)),
        }
    }
    Ok(files)
}

// Executes a history, and stops the files during each request of its own. Returns the first request
// that goes wrong.
fn first_wrong_request(alloc: Global, history: &History<'static>) -> Option<WrongRequest> {
    let Some(opened) = files_after(alloc, &[], LARGE_CACHE) else {
        return Some((UNPORTED_QUERY, ("no new register", 0)));
    };
    let mut files = opened;
    for (parts, is_stopped) in [(history.before, false), (history.parts, true)] {
        for part in parts {
            match after_part(alloc, files, *part, is_stopped) {
                Ok(after) => files = after,
                Err(wrong) => return Some(wrong),
            }
        }
    }
    None
}

#[test]
fn a_port_that_is_stopped(rt: HostRuntime) {
    assert_eq!(rt; first_wrong_request(rt.alloc(), &PORT), None);
}

#[test]
fn a_planned_release_and_the_next_port_that_are_stopped(rt: HostRuntime) {
    assert_eq!(rt; first_wrong_request(rt.alloc(), &PLANNED_RELEASE), None);
}

#[test]
fn a_failed_number_of_a_block_that_is_stopped(rt: HostRuntime) {
    assert_eq!(rt; first_wrong_request(rt.alloc(), &FAILED_NUMBER), None);
}
