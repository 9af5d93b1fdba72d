//! Reads the next message of bytes that have arrived.
ghost use Rattle.std.specs.Prelude.{◌≡◌, ℕ, ◌≤◌, List, length};
ghost use Rattle.httparse.specs.Grammar.{HasNoRequest};
ghost use Rattle.http_messages.specs.Arrived.{HasArrived, IsStart};
ghost use Rattle.http_messages.specs.Blank.{is_blank};
ghost use Rattle.http_messages.specs.Plain.{IsHeadIn};
ghost use Rattle.http_messages.specs.Table.{table};

use crate::fault::MessageFault;
use crate::head::{HeadParse, parse_head};
use crate::message::{Request, request_of};
use crate::paths::Route;
use crate::plain::plain_head;
use crate::read_buffer::HEAD_LIMIT;
use httparse::spans::HeaderSpan;
use matchit::Router;

/// What the bytes that have arrived begin with.
#[derive(Clone, Copy, Debug)]
pub enum Arrived {
    /// A whole message: a head of this length, and its body.
    Message { request: Request, head: usize },
    /// What is refused in place of a message.
    Refused(MessageFault),
    /// The input has ended, and only empty lines are left of it.
    Nothing,
    /// A part of a message, or nothing yet. It stays so with fewer than `wanted` bytes.
    Part { wanted: usize },
}

// Returns whether the bytes are empty lines only.
fn are_empty_lines(bytes: &[u8]) -> bool
    ensures { result ≡ is_blank bytes.now }
{
    let mut after_cr = false;
    for b in bytes {
        if *b == b'\n' {
            after_cr = false;
        } else if *b == b'\r' && !after_cr {
            after_cr = true;
        } else {
            return false;
        }
    }
    !after_cr
}

// Returns what bytes without a whole head are.
fn without_head(start: &[u8], has_ended: bool) -> Arrived
    ensures { (input : List ℕ) → IsStart input start.now → HasNoRequest start.now
        → HasArrived input has_ended result }
{
    if start.len() == HEAD_LIMIT {
        return Arrived::Refused(MessageFault::BadHead);
    }
    if !has_ended {
        return Arrived::Part {
            wanted: start.len() + 1,
        };
    }
    if are_empty_lines(start) {
        Arrived::Nothing
    } else {
        Arrived::Refused(MessageFault::BadHead)
    }
}

// Returns what bytes with a whole head are: a message if its body has arrived too.
fn with_head(input: &[u8], has_ended: bool, request: Request, head: usize) -> Arrived
    requires head { IsHeadIn input.now request head }
    requires short { head ≤ 8192 }
    requires small { request.length ≤ 1048576 }
    ensures { HasArrived input.now has_ended result }
{
    let whole = head + request.length;
    if whole <= input.len() {
        Arrived::Message { request, head }
    } else if has_ended {
        Arrived::Refused(MessageFault::CutBody)
    } else {
        Arrived::Part { wanted: whole }
    }
}

/// Returns what `input` begins with, the bytes that have arrived. `has_ended` says that no more
/// will.
///
/// Reads a head that is whole, and no byte of its body. A caller that waits for `wanted` bytes
/// before it asks again has each head read at most twice once it is whole.
pub fn next_arrived(
    input: &[u8],
    has_ended: bool,
    headers: &mut [HeaderSpan],
    router: &Router<Route>,
) -> Arrived
    requires room { length headers.old ≡ 64 }
    requires router { router.now ≡ table }
    ensures room { length headers.new ≡ 64 }
    ensures arrived { HasArrived input.now has_ended result }
{
    let start = &input[..input.len().min(HEAD_LIMIT)];
    if let Some((request, head)) = plain_head(start, router) {
        return with_head(input, has_ended, request, head);
    }
    let spans = match parse_head(start, headers) {
        HeadParse::Head(spans) => spans,
        HeadParse::Bad => return Arrived::Refused(MessageFault::BadHead),
        HeadParse::More => return without_head(start, has_ended),
    };
    let request = match request_of(start, headers, &spans, router) {
        Ok(request) => request,
        Err(fault) => return Arrived::Refused(fault),
    };
    with_head(input, has_ended, request, spans.len)
}
