//! Tests messages that are too large for a story's file.
use crate::fixture::{
    encode_request, encode_response, is_answered, new_register, serve_reader, served_to_end,
};
use api::{End, Fault, Served};
use register::Register;
use std::alloc::{AllocError, Global};
use store::MemoryStore;

// A text before and after copies of one character, and the status and the body of the response.
struct LargeQuery {
    prefix: &'static str,
    filler: char,
    count: usize,
    suffix: &'static str,
    status: &'static str,
    response: &'static str,
}

const QUERY: &str = r#"{"uri":"tel:+12025331234"}"#;

// The largest body, of 1,048,576 bytes: the number of a code that is not open is answered by its own text. And a URI of
// a million semicolons.
static QUERIES: [LargeQuery; 2] = [
    LargeQuery {
        prefix: "",
        filler: ' ',
        count: 1_048_550,
        suffix: QUERY,
        status: "200 OK",
        response: QUERY,
    },
    LargeQuery {
        prefix: r#"{"uri":""#,
        filler: ';',
        count: 1_000_000,
        suffix: r#""}"#,
        status: "400 Bad Request",
        response: r#"{"error":"too_long","number":36}"#,
    },
];

// Returns the administrator's query.
fn message_of(alloc: Global, query: &LargeQuery) -> Result<String, AllocError> {
    let mut text = String::from_str(alloc, query.prefix)?;
    for _ in 0..query.count {
        text.push(query.filler)?;
    }
    text.push_str(query.suffix)?;
    encode_request(alloc, &("NPAC", "/query", text.as_str(), ""))
}

// A message is cut after each of its first `CUTS` bytes.
const CUTS: usize = 10_000;

const BAD_HEAD: &str = r#"{"error":"bad_head","number":45}"#;

const CUT_BODY: &str = r#"{"error":"cut_body","number":46}"#;

// Returns why an unreadable message was refused, or "" if it was not.
fn refusal_name(served: Result<Served, Fault>) -> &'static str {
    match served {
        Ok(
            Served {
                count: 1,
                end: End::Refused(fault),
            },
        ) => fault.name(),
        _ => "",
    }
}

// Returns whether a prefix of a message is refused in this way.
fn is_cut_refused(
    alloc: Global,
    register: &mut Register<MemoryStore>,
    prefix: &[u8],
    (name, body): (&str, &str),
) -> Option<bool> {
    let expected = encode_response(alloc, "400 Bad Request", body).ok()?;
    let mut reader = prefix;
    let (responses, served) = serve_reader(alloc, register, &mut reader);
    if prefix.is_empty() {
        return Some(responses.is_empty() && served == served_to_end(0));
    }
    Some(responses.as_slice() == expected.as_bytes() && refusal_name(served) == name)
}

// Returns the first wrong cut of a message, in its head or after it.
fn first_wrong_cut(
    alloc: Global,
    register: &mut Register<MemoryStore>,
    message: &str,
) -> Option<usize> {
    let head = message
        .find("\r\n\r\n")
        .map_or(0, |line| line.saturating_add(4));
    for place in 0..CUTS {
        let expected = if place < head {
            ("bad_head", BAD_HEAD)
        } else {
            ("cut_body", CUT_BODY)
        };
        let prefix = message.as_bytes().get(..place).unwrap_or(&[]);
        if is_cut_refused(alloc, register, prefix, expected) != Some(true) {
            return Some(place);
        }
    }
    None
}

// Returns whether a query is answered, and its cuts are refused.
fn is_query_answered(alloc: Global, query: &LargeQuery) -> Option<bool> {
    let message = message_of(alloc, query).ok()?;
    let response = encode_response(alloc, query.status, query.response).ok()?;
    let mut register = new_register(alloc)?;
    Some(
        is_answered(alloc, &mut register, message.as_str(), response.as_str())
            && first_wrong_cut(alloc, &mut register, message.as_str()).is_none(),
    )
}

// Returns the first query that is answered differently, whole or cut.
fn first_wrong_query(alloc: Global) -> Option<usize> {
    for (place, query) in QUERIES.iter().enumerate() {
        if is_query_answered(alloc, query) != Some(true) {
            return Some(place);
        }
    }
    None
}

#[test]
fn large_messages_are_answered_or_refused(rt: HostRuntime) {
    assert_eq!(rt; first_wrong_query(rt.alloc()), None);
}
