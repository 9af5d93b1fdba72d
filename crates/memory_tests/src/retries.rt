//! Tests the first port with one allocation failure: a message that met it is sent again.
//!
//! `rt try --test --fail-alloc N` runs it with its N-th allocation refused; `bench/run
//! refused-memory` does the same to the built program, for every N.
use crate::fixture::{
    Exchange, FIRST_PORT, Transcript, new_register, served_to_end, transcript_of,
};
use api::{Fault, NoTicks, Options, serve};
use register::Register;
use std::alloc::Global;
use store::MemoryStore;

const NO_MEMORY: &str =
    "HTTP/1.1 503 Service Unavailable\r\ncontent-type: application/json\r\ncontent-length: 33\r\n\r\n{\"error\":\"no_memory\",\"number\":30}";

// The response to a message: right, or an allocation failure without any effect.
#[derive(Clone, Copy)]
enum SendOutcome {
    Answered,
    NoMemory,
    Wrong,
}

fn send(
    alloc: Global,
    register: &mut Register<MemoryStore>,
    transcript: &Transcript,
    responses: &mut Vec<u8>,
) -> SendOutcome {
    responses.clear();
    let options = Options { clock_route: true };
    let mut reader = transcript.requests.as_bytes();
    let served = serve(
        alloc,
        register,
        &mut NoTicks,
        &options,
        &mut reader,
        responses,
    );
    if served == served_to_end(1) && responses.as_slice() == transcript.responses.as_bytes() {
        return SendOutcome::Answered;
    }
    let is_refused = served == served_to_end(1) && responses.as_slice() == NO_MEMORY.as_bytes();
    if is_refused || (served == Err(Fault::Memory(0)) && responses.is_empty()) {
        return SendOutcome::NoMemory;
    }
    SendOutcome::Wrong
}

fn open_with_retry(alloc: Global) -> Option<Register<MemoryStore>> {
    match new_register(alloc) {
        Some(register) => Some(register),
        None => new_register(alloc),
    }
}

/// Returns a buffer with this capacity, at the first or the second attempt.
pub fn buffer_with_retry(alloc: Global, capacity: usize) -> Option<Vec<u8>> {
    match Vec::with_capacity(alloc, capacity) {
        Ok(buffer) => Some(buffer),
        Err(_) => Vec::with_capacity(alloc, capacity).ok(),
    }
}

// Sends a row, and sends it again if an allocation failed.
fn send_with_retry(
    alloc: Global,
    register: &mut Register<MemoryStore>,
    exchange: &Exchange<'_>,
    responses: &mut Vec<u8>,
) -> Option<SendOutcome> {
    let transcript = match transcript_of(alloc, exchange) {
        Ok(transcript) => transcript,
        Err(_) => transcript_of(alloc, exchange).ok()?,
    };
    match send(alloc, register, &transcript, responses) {
        SendOutcome::NoMemory => Some(send(alloc, register, &transcript, responses)),
        outcome => Some(outcome),
    }
}

// Returns whether each row of the first port is answered, at the first or the second attempt.
fn are_all_answered(
    alloc: Global,
    register: &mut Register<MemoryStore>,
    responses: &mut Vec<u8>,
) -> bool {
    for exchange in &FIRST_PORT {
        match send_with_retry(alloc, register, exchange, responses) {
            Some(SendOutcome::Answered) => {}
            _ => return false,
        }
    }
    true
}

fn are_all_answered_with_retry(alloc: Global) -> Option<bool> {
    let mut responses = buffer_with_retry(alloc, 4096)?;
    let mut register = open_with_retry(alloc)?;
    Some(are_all_answered(alloc, &mut register, &mut responses))
}

#[test]
fn a_refused_message_may_be_sent_again(rt: HostRuntime) {
    assert_eq!(rt; are_all_answered_with_retry(rt.alloc()), Some(true));
}
