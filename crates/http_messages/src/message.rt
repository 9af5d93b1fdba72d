//! The parts of an input: messages, and what is refused in place of one.
ghost use Rattle.std.specs.Prelude.{◌≡◌, ℕ, ◌≤◌, List, length, IfOk, IfErr};
ghost use Rattle.numbers.specs.Spids.{is_spid_character};
ghost use Rattle.httparse.specs.Grammar.{RequestHead};
ghost use Rattle.httparse.specs.Spans.{IsRequestAt, IsRequestWithin};
ghost use Rattle.http_messages.specs.Parsing.{IsCaller, IsNamed, IsRequestOf, RefusesHead};
ghost use Rattle.http_messages.specs.Fields.{IsFound, IsFoundWithin};
ghost use Rattle.http_messages.specs.Table.{table};

use crate::fault::MessageFault;
use crate::head::{Occurrence, read_head};
use crate::paths::{Method, Route, method_of, route_of};
use httparse::spans::{HeaderSpan, RequestSpans};
use matchit::Router;
use numbers::Spid;

/// The greatest length of a body, in bytes.
pub const BODY_LIMIT: u64 = 1_048_576;

/// What the head of a message asks.
#[derive(Clone, Copy, Debug)]
pub struct Request {
    /// The length of the body.
    pub length: usize,
    /// The path, if it is one of the interface's.
    pub route: Option<Route>,
    pub method: Method,
    /// The caller, if `x-spid` occurs once and names one.
    pub caller: Option<Spid>,
    /// Whether the answer is the last of the connection.
    pub closes: bool,
}

/// The next part of the input: a message, or the fault that refuses it.
#[derive(Clone, Copy, Debug)]
pub enum NextMessage {
    Message(Request),
    Refused(MessageFault),
}

// Returns whether a provider may have the byte.
fn is_spid_byte(byte: u8) -> bool
    ensures { result ≡ is_spid_character byte }
{
    matches!(byte, b'A'..=b'Z' | b'0'..=b'9')
}

// Returns the provider that the bytes name. Reads them as they are, because most heads name one.
pub(crate) fn parse_spid(value: &[u8]) -> Option<Spid>
    ensures { IsNamed value.now result }
{
    match value {
        [a, b, c, d]
            if is_spid_byte(*a) && is_spid_byte(*b) && is_spid_byte(*c) && is_spid_byte(*d) => {
            Some(Spid {
                number: u32::from_be_bytes([*a, *b, *c, *d]),
            })
        }
        _ => None,
    }
}

// Returns the provider that a field names, if the field occurs once.
fn caller_of(buf: &[u8], found: Occurrence) -> Option<Spid>
    requires { IsFoundWithin (length buf.now) found }
    ensures { (values : List (List ℕ)) → IsFound buf.now found values → IsCaller values result }
{
    match found {
        Occurrence::Once(span) => parse_spid(span.of(buf)),
        Occurrence::Absent | Occurrence::Twice => None,
    }
}

/// Returns what the head in the buffered bytes asks. `BadHead` precedes `TooLarge`.
pub(crate) fn request_of(
    buf: &[u8],
    headers: &[HeaderSpan],
    spans: &RequestSpans,
    router: &Router<Route>,
) -> Result<Request, MessageFault>
    requires within { IsRequestWithin buf.now headers.now spans.now }
    requires router { router.now ≡ table }
    ensures small { IfOk result (λ request. request.length ≤ 1048576) }
    ensures asks { (h : RequestHead) → IsRequestAt buf.now headers.now spans.now h
        → IfOk result (IsRequestOf h) }
    ensures refuses { (h : RequestHead) → IsRequestAt buf.now headers.now spans.now h
        → IfErr result (RefusesHead h) }
{
    let Some(head) = read_head(buf, headers, spans) else {
        return Err(MessageFault::BadHead);
    };
    if head.body > BODY_LIMIT {
        return Err(MessageFault::TooLarge);
    }
    Ok(Request {
        route: route_of(router, spans.path.of(buf)),
        method: method_of(spans.method.of(buf)),
        caller: caller_of(buf, head.caller),
        length: head.body as usize,
        closes: head.closes,
    })
}
