//! Tests the messages of a story, cut after each of their bytes.
use crate::played_story::{PlayedStory, head_length};
use crate::story::{Pieces, serve_connection};
use register::Register;
use std::alloc::Global;
use store::MemoryStore;

/// The place of a cut after which a message is answered differently than it should be.
#[derive(Clone, Copy, Debug, PartialEq, Eq)]
pub struct Cut {
    pub message: usize,
    pub place: usize,
}

// The number of leading bytes after which a longer message is cut.
const MAX_CUTS: usize = 10_000;

// The least number of bytes of empty lines that count as no head.
const EMPTY_LINES_LIMIT: usize = 8192;

const BAD_HEAD: &[u8] =
    b"HTTP/1.1 400 Bad Request\r\ncontent-type: application/json\r\ncontent-length: 32\r\n\r\n{\"error\":\"bad_head\",\"number\":45}";

const TOO_LARGE: &[u8] =
    b"HTTP/1.1 413 Payload Too Large\r\ncontent-type: application/json\r\ncontent-length: 33\r\n\r\n{\"error\":\"too_large\",\"number\":44}";

const CUT_BODY: &[u8] =
    b"HTTP/1.1 400 Bad Request\r\ncontent-type: application/json\r\ncontent-length: 32\r\n\r\n{\"error\":\"cut_body\",\"number\":46}";

// The responses, how many messages they are to, and how the connection ends.
type ExpectedEnd = (&'static [u8], u64, &'static str);

// Returns whether bytes are only empty lines, few enough to be ignored at the end of the input.
fn are_ignored(bytes: &[u8]) -> bool {
    let mut is_after_return = false;
    for byte in bytes {
        match (is_after_return, *byte) {
            (_, b'\n') => is_after_return = false,
            (false, b'\r') => is_after_return = true,
            _ => return false,
        }
    }
    !is_after_return && bytes.len() < EMPTY_LINES_LIMIT
}

// Returns the expected response to a prefix of a message, from the end of its head and from the
// response to the whole message. The head is judged once it is whole, and then the length that it
// gives.
fn expected_end(prefix: &[u8], head: Option<usize>, response: &[u8]) -> ExpectedEnd {
    let has_head = match head {
        Some(head) => head <= prefix.len(),
        None => false,
    };
    if are_ignored(prefix) {
        (b"", 0, "input")
    } else if !has_head || response == BAD_HEAD {
        (BAD_HEAD, 1, "bad_head")
    } else if response == TOO_LARGE {
        (TOO_LARGE, 1, "too_large")
    } else {
        (CUT_BODY, 1, "cut_body")
    }
}

fn is_cut_answered(
    alloc: Global,
    register: &mut Register<MemoryStore>,
    prefix: &[u8],
    expected: ExpectedEnd,
) -> bool {
    let mut responses = Vec::new(alloc);
    let (count, ending) = serve_connection(alloc, register, Pieces::whole(prefix), &mut responses);
    (responses.as_slice(), count, ending) == expected
}

// Returns the first byte after which a message, if cut, is answered differently than it should be.
fn first_wrong_place(
    alloc: Global,
    register: &mut Register<MemoryStore>,
    played: &PlayedStory,
    message: usize,
) -> Option<usize> {
    let bytes = played.message(message);
    let head = head_length(bytes);
    for place in 0..bytes.len().min(MAX_CUTS) {
        let prefix = bytes.split_at(place).0;
        let expected = expected_end(prefix, head, played.response(message));
        if !is_cut_answered(alloc, register, prefix, expected) {
            return Some(place);
        }
    }
    None
}

/// Returns the first cut of a message of the story that is answered differently than it should be.
/// After all its cuts each message is sent whole.
pub fn first_wrong_cut(
    alloc: Global,
    register: &mut Register<MemoryStore>,
    played: &PlayedStory,
) -> Option<Cut> {
    for message in 0..played.len() {
        if let Some(place) = first_wrong_place(alloc, register, played, message) {
            return Some(Cut { message, place });
        }
        if !played.has_same_responses(alloc, register, message, message.saturating_add(1)) {
            let place = played.message(message).len();
            return Some(Cut { message, place });
        }
    }
    None
}

/// Returns how many cuts there are.
pub fn count_cuts(played: &PlayedStory) -> usize {
    let mut count = 0usize;
    for message in 0..played.len() {
        count = count.saturating_add(played.message(message).len().min(MAX_CUTS));
    }
    count
}

/// Returns whether the story has a message that is refused for its form.
pub fn has_malformed_message(played: &PlayedStory) -> bool {
    for message in 0..played.len() {
        let response = played.response(message);
        if response.starts_with(b"HTTP/1.1 400 ") || response.starts_with(b"HTTP/1.1 413 ") {
            return true;
        }
    }
    false
}
