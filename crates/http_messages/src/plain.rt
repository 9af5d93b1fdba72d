//! Reads heads that are written plainly.
ghost use Rattle.std.specs.Prelude.{◌≡◌, ◌<◌, ◌≤◌, ◌++◌, IfSome, Some, length, true};
ghost use Rattle.std.specs.List.{list_all};
ghost use Rattle.http_messages.specs.Plain.{IsCallerThen, IsHeadAt, IsLengthAndEnd, IsNumberThen, IsPathThen, IsPostThen, IsRouteThen, is_visible};
ghost use Rattle.http_messages.specs.Table.{path_of, table};

use crate::message::{BODY_LIMIT, Request, parse_spid};
use crate::paths::{Method, Route, VersionPath, route_of};
use crate::start::after;
use matchit::Router;
use numbers::Spid;

// Returns whether all bytes are visible ones of ASCII.
fn are_visible(bytes: &[u8]) -> bool
    ensures { result ≡ list_all is_visible bytes.now }
{
    bytes.iter().all(|b| *b > b' ' && *b < 127)
}

// Splits what follows the method into the path, and what follows `x-spid: `.
fn path_then(bytes: &[u8]) -> Option<(&[u8], &[u8])>
    ensures { IfSome result (λ found. IsPathThen bytes.now found.0.now found.1.now) }
{
    let end = bytes.iter().position(|b| *b == b' ')?;
    let path = &bytes[..end];
    let rest = after(&bytes[end..], b" HTTP/1.1\r\nx-spid: ")?;
    if path.is_empty() || !are_visible(path) {
        return None;
    }
    Some((path, rest))
}

// Returns `route` and what follows `x-spid: `, if the bytes begin with `path`.
#[inline(always)]
fn fixed_route_then<'a, const N: usize>(
    bytes: &'a [u8],
    path: &[u8; N],
    route: Route,
) -> Option<(&'a [u8], Route)>
    requires route { path_of path.now ≡ Some route }
    requires some { 0 < length path.now }
    requires visible { list_all is_visible path.now ≡ true }
    ensures { IfSome result (λ found. IsRouteThen bytes.now (Some found.1) found.0.now) }
{
    let rest = after(after(bytes, path)?, b" HTTP/1.1\r\nx-spid: ")?;
    Some((rest, route))
}

// Returns the route of one of the paths that begin with `/subscriptionVersion`, except the two of
// acknowledged cancellations, and what follows `x-spid: `. Two letters tell the paths apart.
#[inline(always)]
#[tactic(auto, unfolding(crate::specs::Table::path_of))]
fn version_route_then(bytes: &[u8]) -> Option<(&[u8], Route)>
    ensures { IfSome result (λ found. IsRouteThen bytes.now (Some found.1) found.0.now) }
{
    match bytes.get(20..22)? {
        [b'N', _] => fixed_route_then(
            bytes,
            b"/subscriptionVersionNewSP-Create",
            Route::NewProviderCreate,
        ),
        [b'O', _] => fixed_route_then(
            bytes,
            b"/subscriptionVersionOldSP-Create",
            Route::OldProviderCreate,
        ),
        [b'A', _] => fixed_route_then(
            bytes,
            b"/subscriptionVersionActivate",
            Route::OnVersion(VersionPath::Activate),
        ),
        [b'C', b'o'] => fixed_route_then(
            bytes,
            b"/subscriptionVersionConflict",
            Route::OnVersion(VersionPath::PutInConflict),
        ),
        [b'C', _] => fixed_route_then(
            bytes,
            b"/subscriptionVersionCancel",
            Route::OnVersion(VersionPath::Cancel),
        ),
        [b'R', _] => fixed_route_then(
            bytes,
            b"/subscriptionVersionRemoveFromConflict",
            Route::OnVersion(VersionPath::RemoveFromConflict),
        ),
        [b'D', _] => fixed_route_then(
            bytes,
            b"/subscriptionVersionDisconnect",
            Route::OnVersion(VersionPath::Disconnect),
        ),
        [b'M', _] => fixed_route_then(
            bytes,
            b"/subscriptionVersionModify",
            Route::OnVersion(VersionPath::ModifyRouting),
        ),
        _ => None,
    }
}

// Returns the route of one of the paths that most messages have, and what follows `x-spid: `.
#[inline(always)]
#[tactic(auto, unfolding(crate::specs::Table::path_of))]
fn frequent_route_then(bytes: &[u8]) -> Option<(&[u8], Route)>
    ensures { IfSome result (λ found. IsRouteThen bytes.now (Some found.1) found.0.now) }
{
    match bytes {
        [b'/', b'q', ..] => fixed_route_then(bytes, b"/query", Route::Query),
        [b'/', b'd', ..] => fixed_route_then(bytes, b"/downloads/acknowledge", Route::Acknowledge),
        [b'/', b's', ..] => version_route_then(bytes),
        _ => None,
    }
}

// Returns the route of any path, and what follows `x-spid: `.
#[inline(never)]
fn any_route_then<'a>(bytes: &'a [u8], router: &Router<Route>) -> Option<(&'a [u8], Option<Route>)>
    requires { router.now ≡ table }
    ensures { IfSome result (λ found. IsRouteThen bytes.now found.1 found.0.now) }
{
    let (path, rest) = path_then(bytes)?;
    Some((rest, route_of(router, path)))
}

// Splits what follows `x-spid: ` into the caller and the rest.
fn caller_then(bytes: &[u8]) -> Option<(Spid, &[u8])>
    ensures { IfSome result (λ found. IsCallerThen bytes.now found.0 found.1.now) }
{
    if bytes.len() < 4 {
        return None;
    }
    let caller = parse_spid(&bytes[..4])?;
    Some((caller, &bytes[4..]))
}

// The most digits that are read of a body's length: those of `BODY_LIMIT`.
const MOST_DIGITS: usize = 7;

// Splits off the number that the first digits write. Reads no more than `MOST_DIGITS`.
fn number_then(bytes: &[u8]) -> Option<(u64, &[u8])>
    ensures { IfSome result (λ found. IsNumberThen bytes.now found.0 found.1.now) }
{
    let most = bytes.len().min(MOST_DIGITS);
    let mut n = 0u64;
    let mut at = 0;
    'digits: while at < most {
        let b = bytes[at];
        if !b.is_ascii_digit() {
            break;
        }
        n = n * 10 + u64::from(b - b'0');
        at += 1;
    }
    if at == 0 {
        return None;
    }
    Some((n, &bytes[at..]))
}

// Splits what follows the caller into the length of the body and what follows the head.
fn length_and_end(bytes: &[u8]) -> Option<(u64, &[u8])>
    ensures { IfSome result (λ found. IsLengthAndEnd bytes.now found.0 found.1.now) }
{
    let (size, end) = number_then(after(bytes, b"\r\ncontent-length: ")?)?;
    let rest = after(end, b"\r\n\r\n")?;
    Some((size, rest))
}

// Reads a head that begins with `POST ` from what follows `x-spid: ` on.
// Inlined: a route is then not moved through memory.
#[inline(always)]
fn post_from(bytes: &[u8], named: &[u8], route: Option<Route>) -> Option<(Request, usize)>
    requires { IsPostThen bytes.now route named.now }
    ensures head { IfSome result (λ found. IsHeadAt bytes.now found.0 found.1) }
    ensures within { IfSome result (λ found. found.1 ≤ length bytes.now) }
    ensures small { IfSome result (λ found. found.0.length ≤ 1048576) }
{
    let (caller, more) = caller_then(named)?;
    let (size, rest) = length_and_end(more)?;
    if size > BODY_LIMIT {
        return None;
    }
    let request = Request {
        route,
        method: Method::Post,
        caller: Some(caller),
        length: size as usize,
        closes: false,
    };
    Some((request, bytes.len() - rest.len()))
}

// Reads a head that begins with `POST `.
fn plain_post(bytes: &[u8], router: &Router<Route>) -> Option<(Request, usize)>
    requires { router.now ≡ table }
    ensures head { IfSome result (λ found. IsHeadAt bytes.now found.0 found.1) }
    ensures within { IfSome result (λ found. found.1 ≤ length bytes.now) }
    ensures small { IfSome result (λ found. found.0.length ≤ 1048576) }
{
    let path = after(bytes, b"POST ")?;
    match frequent_route_then(path) {
        Some((named, route)) => post_from(bytes, named, Some(route)),
        None => {
            let (named, route) = any_route_then(path, router)?;
            post_from(bytes, named, route)
        }
    }
}

// Reads a head that begins with `GET `.
fn plain_get(bytes: &[u8], router: &Router<Route>) -> Option<(Request, usize)>
    requires { router.now ≡ table }
    ensures head { IfSome result (λ found. IsHeadAt bytes.now found.0 found.1) }
    ensures within { IfSome result (λ found. found.1 ≤ length bytes.now) }
    ensures small { IfSome result (λ found. found.0.length ≤ 1048576) }
{
    let (named, route) = any_route_then(after(bytes, b"GET ")?, router)?;
    let (caller, more) = caller_then(named)?;
    let rest = after(more, b"\r\n\r\n")?;
    let request = Request {
        route,
        method: Method::Get,
        caller: Some(caller),
        length: 0,
        closes: false,
    };
    Some((request, bytes.len() - rest.len()))
}

/// Reads a head that is written plainly: the method POST or GET, HTTP/1.1, `x-spid` with a
/// provider, and for POST `content-length`, in lower case, with one space before each value.
/// Returns what it asks and its length, or `None` for any other bytes.
#[inline(always)]
pub fn plain_head(bytes: &[u8], router: &Router<Route>) -> Option<(Request, usize)>
    requires { router.now ≡ table }
    ensures head { IfSome result (λ found. IsHeadAt bytes.now found.0 found.1) }
    ensures within { IfSome result (λ found. found.1 ≤ length bytes.now) }
    ensures small { IfSome result (λ found. found.0.length ≤ 1048576) }
{
    match bytes {
        [b'P', ..] => plain_post(bytes, router),
        [b'G', ..] => plain_get(bytes, router),
        _ => None,
    }
}
