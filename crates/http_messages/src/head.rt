//! Parses the head of a message.

ghost use Rattle.std.specs.Prelude.{◌≡◌, ℕ, ◌≤◌, ◌<◌, List, length, drop, map, IfSome, IsTrue, ◌↔◌, ◌==◌, ◌++◌};
ghost use Rattle.std.specs.List.{list_any};
ghost use Rattle.std.specs.Prelude.{All};
ghost use Rattle.std.specs.Str.{bytes_eq};
ghost use Rattle.httparse.specs.Grammar.{RequestHead, HasNoRequest, ReadsRequest, print_request, LineEnd, print_blank};
ghost use Rattle.httparse.specs.Spans.{IsHeaderWithin, IsRequestAt, IsRequestWithin, header_bytes, RequestOverflows};
ghost use Rattle.http_messages.specs.Fields.{lower, values_in, IsFound, IsFoundWithin, number_of};
ghost use Rattle.http_messages.specs.Head.{IsHeadParse, IsHeadOf, HasHead, IsBlank};

use httparse::Status;
use httparse::spans::{HeaderSpan, RequestSpans, Span, parse_request};

/// How often a field occurs.
#[derive(Clone, Copy, Debug)]
pub enum Occurrence {
    Absent,
    Once(Span),
    Twice,
}

/// What the bytes read so far begin with.
#[derive(Clone, Copy, Debug)]
pub enum HeadParse {
    Head(RequestSpans),
    /// No head of at most 64 fields, however the bytes continue.
    Bad,
    /// No whole head yet.
    More,
}

/// Parses the head at the start of `buf`, if it is whole.
pub fn parse_head(buf: &[u8], headers: &mut [HeaderSpan]) -> HeadParse
    requires room { length headers.old ≡ 64 }
    requires short { length buf.now ≤ 8192 }
    ensures { IsHeadParse buf.now headers.new result }
{
    match parse_request(buf, headers) {
        Ok(Status::Complete(spans)) => HeadParse::Head(spans),
        Ok(Status::Partial) => HeadParse::More,
        Err(_) => HeadParse::Bad,
    }
}

// Returns whether a field has this name, ignoring case. Most names are written in lower case, and
// `starts_with` compares those many bytes at once.
fn is_name(own: &[u8], name: &[u8]) -> bool
    requires { lower name.now ≡ name.now }
    ensures { IsTrue result ↔ (lower own.now ≡ name.now) }
{
    if own.len() != name.len() {
        return false;
    }
    own.starts_with(name) || own.eq_ignore_ascii_case(name)
}

/// Returns how often a field with this name occurs.
#[tactic(auto, using(crate::proofs::FieldLemmas::found_within))]
pub fn find_field(buf: &[u8], headers: &[HeaderSpan], name: &[u8]) -> Occurrence
    requires within { All (IsHeaderWithin (length buf.now)) headers.now }
    requires lower { lower name.now ≡ name.now }
    ensures found { IsFound buf.now result
        (values_in name.now (map (header_bytes buf.now) headers.now)) }
    ensures within { IsFoundWithin (length buf.now) result }
{
    let mut found = Occurrence::Absent;
    for header in headers {
        if is_name(header.name.of(buf), name) {
            found = match found {
                Occurrence::Absent => Occurrence::Once(header.value),
                _ => Occurrence::Twice,
            };
        }
    }
    found
}

/// Returns the number that 1 to 19 digits write, or `None` for other bytes.
pub fn read_number(value: &[u8]) -> Option<u64>
    ensures { result ≡ number_of value.now }
{
    if value.is_empty() || value.len() > 19 {
        return None;
    }
    let mut n = 0u64;
    for b in value {
        if !b.is_ascii_digit() {
            return None;
        }
        n = n * 10 + u64::from(*b - b'0');
    }
    Some(n)
}

/// Returns whether some field with this name has this value, ignoring case.
pub fn has_field(buf: &[u8], headers: &[HeaderSpan], name: &[u8], value: &[u8]) -> bool
    requires within { All (IsHeaderWithin (length buf.now)) headers.now }
    requires lower { lower name.now ≡ name.now }
    requires lower_value { lower value.now ≡ value.now }
    ensures { result
        ≡ list_any (λ v. bytes_eq (lower v) value.now)
        (values_in name.now (map (header_bytes buf.now) headers.now)) }
{
    for header in headers {
        if header.name.of(buf).eq_ignore_ascii_case(name)
            && header.value.of(buf).eq_ignore_ascii_case(value)
        {
            return true;
        }
    }
    false
}

/// The parts of a head that the engine reads.
#[derive(Clone, Copy, Debug)]
pub struct Head {
    pub method: Span,
    pub target: Span,
    /// The length of the body.
    pub body: u64,
    pub caller: Occurrence,
    /// Whether the answer is the last of the connection.
    pub closes: bool,
    /// The length of the head.
    pub len: usize,
}

/// Reads the fields of a head. Returns `None` if they are refused.
pub fn read_head(buf: &[u8], headers: &[HeaderSpan], spans: &RequestSpans) -> Option<Head>
    requires { IsRequestWithin buf.now headers.now spans.now }
    ensures head { (h : RequestHead) → IsRequestAt buf.now headers.now spans.now h
        → IsHeadOf buf.now h result }
    ensures within { IfSome result (λ head. IsFoundWithin (length buf.now) head.caller) }
{
    let fields = &headers[..spans.headers];
    let Occurrence::Absent = find_field(buf, fields, b"transfer-encoding") else {
        return None;
    };
    let body = match find_field(buf, fields, b"content-length") {
        Occurrence::Absent => 0,
        Occurrence::Once(value) => read_number(value.of(buf))?,
        Occurrence::Twice => return None,
    };
    Some(Head {
        method: spans.method,
        target: spans.path,
        body,
        caller: find_field(buf, fields, b"x-spid"),
        closes: spans.version == 0 || has_field(buf, fields, b"connection", b"close"),
        len: spans.len,
    })
}
