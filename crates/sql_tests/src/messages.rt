//! Requests to a register, and its responses.
use api::{NoTicks, Options, serve};
use register::Register;
use settle::Store;
use std::alloc::{AllocError, Global};
use windows::Windows;

/// The caller, path and body of a request. Without a body it is a GET.
pub type Request<'a> = (&'a str, &'a str, &'a str);

/// Requests, in order.
pub type Requests<'a> = &'a [Request<'a>];

/// A message, and the status and the body of its response.
pub type Exchange<'a> = (Request<'a>, &'a str, &'a str);

/// Exchanges, in order.
pub type Exchanges<'a> = &'a [Exchange<'a>];

/// Batches of requests to a register.
#[derive(Clone, Copy)]
pub struct Messages<'a> {
    pub batches: &'a [Requests<'a>],
    /// Whether all are executed in one group of commits. If it does not last, each is sent again,
    /// and gets a commit of its own.
    pub is_grouped: bool,
}

/// What an operation returns.
#[derive(Drop)]
pub struct Output {
    /// The responses to its messages, or the rows that it read.
    pub text: Vec<u8>,
    /// Whether each message was accepted.
    pub is_accepted: bool,
    /// Whether its group of commits lasts, if it has one.
    pub lasts: bool,
}

impl Output {
    /// The output of an operation without a group.
    pub fn of(text: Vec<u8>, is_accepted: bool) -> Output {
        Output {
            text,
            is_accepted,
            lasts: true,
        }
    }
}

// Returns the bytes of a request.
fn encode_request(alloc: Global, request: &Request<'_>) -> Result<String, AllocError> {
    let (caller, path, body) = *request;
    if body.is_empty() {
        return format!(in alloc; "GET {path} HTTP/1.1\r\nx-spid: {caller}\r\n\r\n");
    }
    let length = body.len();
    format!(in alloc;
        "POST {path} HTTP/1.1\r\nx-spid: {caller}\r\ncontent-length: {length}\r\n\r\n{body}"
    )
}

/// Returns the bytes of a response.
pub fn encode_response(alloc: Global, status: &str, body: &str) -> Result<String, AllocError> {
    let kind = "application/json";
    let length = body.len();
    format!(in alloc;
        "HTTP/1.1 {status}\r\ncontent-type: {kind}\r\ncontent-length: {length}\r\n\r\n{body}"
    )
}

/// Returns whether responses say that the store's device failed.
pub fn is_unavailable(responses: &[u8]) -> bool {
    responses.starts_with(b"HTTP/1.1 503 ")
        && responses.ends_with(b"{\"error\":\"storage\",\"number\":29}")
}

// Returns a register's response to a request.
fn send<S: Store>(
    alloc: Global,
    register: &mut Register<S>,
    request: &Request<'_>,
) -> Option<Vec<u8>> {
    let encoded = encode_request(alloc, request).ok()?;
    let mut response = Vec::new(alloc);
    let options = Options { clock_route: true };
    let reader = &mut encoded.as_bytes();
    serve(
        alloc,
        register,
        &mut NoTicks,
        &options,
        reader,
        &mut response,
    )
    .ok()?;
    Some(response)
}

// Sends batches of requests.
fn send_each<S: Store>(
    alloc: Global,
    register: &mut Register<S>,
    batches: &[Requests<'_>],
) -> Option<Output> {
    let mut text = Vec::new(alloc);
    let mut is_accepted = true;
    for requests in batches {
        for request in *requests {
            let response = send(alloc, register, request)?;
            is_accepted = is_accepted && response.starts_with(b"HTTP/1.1 200 ");
            text.extend_from_slice(&response).ok()?;
        }
    }
    Some(Output::of(text, is_accepted))
}

// Sends batches of requests in one group of commits. If it does not last, sends them again, each
// with a commit of its own.
fn send_group<S: Store>(
    alloc: Global,
    register: &mut Register<S>,
    batches: &[Requests<'_>],
) -> Option<Output> {
    let is_begun = register.begin_group() == Ok(true);
    let output = send_each(alloc, register, batches)?;
    if register.end_group().is_ok() && is_begun {
        return Some(output);
    }
    let repeated = send_each(alloc, register, batches)?;
    Some(Output {
        lasts: false,
        ..repeated
    })
}

/// Opens a register over a store, and sends it messages. Returns their output, and the store
/// afterwards.
pub fn send_messages<S: Store>(
    alloc: Global,
    store: S,
    windows: &Windows,
    messages: Messages<'_>,
) -> (Option<Output>, S) {
    match Register::open(alloc, store, windows) {
        Ok(mut register) => {
            let output = if messages.is_grouped {
                send_group(alloc, &mut register, messages.batches)
            } else {
                send_each(alloc, &mut register, messages.batches)
            };
            (output, register.close())
        }
        Err((store, _fault)) => (None, store),
    }
}
