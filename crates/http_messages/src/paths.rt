//! The paths of the interface, and the router that finds them.
ghost use Rattle.std.specs.Prelude.{◌≡◌, Some, IfOk, IfErr, OnOk};
ghost use Rattle.matchit.specs.Rows.{RowsOf};
ghost use Rattle.matchit.specs.Router.{RouteOf};
ghost use Rattle.http_messages.specs.declared.paths.Route.{Route as RouteImpl};
ghost use Rattle.matchit.specs.declared.error.InsertError.TheVariants.{OutOfMemory};
ghost use Rattle.std.specs.List.{list_all};
ghost use Rattle.http_messages.specs.Table.{table, paths, all_placed, texts_of, path_among, path_of, numbered_path, number_after, number_in, is_part_byte, is_part as is_one_part, method_of as method_model, allows_method as takes_method, offered_route};

use crate::head::read_number;
use matchit::{InsertError, Router};
use std::alloc::Global;

/// The method of a message.
#[derive(Clone, Copy, Debug, PartialEq, Eq)]
pub enum Method {
    Get,
    Post,
    Other,
}

/// The paths of commands on a version.
#[derive(Clone, Copy, Debug, PartialEq, Eq)]
pub enum VersionPath {
    Activate,
    PutInConflict,
    RemoveFromConflict,
    Cancel,
    OldProviderCancellationAcknowledge,
    NewProviderCancellationAcknowledge,
    Disconnect,
    ModifyRouting,
}

/// The paths of commands on a block.
#[derive(Clone, Copy, Debug, PartialEq, Eq)]
pub enum BlockPath {
    Assign,
    Donate,
    Release,
}

/// A path of the interface.
#[derive(Clone, Copy, Debug, PartialEq, Eq)]
pub enum Route {
    Carriers,
    Clock,
    RoutingNumbers,
    Codes,
    OldProviderCreate,
    NewProviderCreate,
    OnVersion(VersionPath),
    OnBlock(BlockPath),
    Acknowledge,
    Query,
    /// Setting the windows.
    Windows,
    /// A version, by its id. `None` unless the path's last part is a number below 2^40 without
    /// leading zeros.
    Version(Option<u64>),
    /// A telephone number, by its digits. `None` unless the path's last part is such a number.
    Number(Option<u64>),
    /// How many of the caller's first downloads are asked. `None` unless the path's last part is
    /// such a number.
    Downloads(Option<u64>),
}

/// Returns the method that a head names.
pub fn method_of(name: &[u8]) -> Method
    ensures { result ≡ method_model name.now }
{
    if name == b"POST".as_slice() {
        return Method::Post;
    }
    if name == b"GET".as_slice() {
        return Method::Get;
    }
    Method::Other
}

/// Returns whether the path has this method: GET for paths that end in a number, POST for all
/// others.
pub fn allows_method(route: Route, method: Method) -> bool
    ensures { result ≡ takes_method route method }
{
    match route {
        Route::Version(_) | Route::Number(_) | Route::Downloads(_) => matches!(method, Method::Get),
        Route::Carriers
        | Route::Clock
        | Route::RoutingNumbers
        | Route::Codes
        | Route::OldProviderCreate
        | Route::NewProviderCreate
        | Route::OnVersion(_)
        | Route::OnBlock(_)
        | Route::Acknowledge
        | Route::Query
        | Route::Windows => matches!(method, Method::Post),
    }
}

/// Returns `route`, except `Route::Clock` if `clock` is false.
pub fn offered_route(route: Option<Route>, clock: bool) -> Option<Route>
    ensures { result ≡ offered_route clock route }
{
    match route {
        Some(Route::Clock) if !clock => None,
        _ => route,
    }
}

// The constant paths.
const PATHS: [(&str, Route); 20] = [
    ("/carriers", Route::Carriers),
    ("/clock", Route::Clock),
    ("/lrns", Route::RoutingNumbers),
    ("/codes", Route::Codes),
    ("/subscriptionVersionOldSP-Create", Route::OldProviderCreate),
    ("/subscriptionVersionNewSP-Create", Route::NewProviderCreate),
    (
        "/subscriptionVersionActivate",
        Route::OnVersion(VersionPath::Activate),
    ),
    (
        "/subscriptionVersionConflict",
        Route::OnVersion(VersionPath::PutInConflict),
    ),
    (
        "/subscriptionVersionRemoveFromConflict",
        Route::OnVersion(VersionPath::RemoveFromConflict),
    ),
    (
        "/subscriptionVersionCancel",
        Route::OnVersion(VersionPath::Cancel),
    ),
    (
        "/subscriptionVersionOldSP-CancellationAcknowledge",
        Route::OnVersion(VersionPath::OldProviderCancellationAcknowledge),
    ),
    (
        "/subscriptionVersionNewSP-CancellationAcknowledge",
        Route::OnVersion(VersionPath::NewProviderCancellationAcknowledge),
    ),
    (
        "/subscriptionVersionDisconnect",
        Route::OnVersion(VersionPath::Disconnect),
    ),
    (
        "/subscriptionVersionModify",
        Route::OnVersion(VersionPath::ModifyRouting),
    ),
    ("/blocks/assign", Route::OnBlock(BlockPath::Assign)),
    ("/blocks/donate", Route::OnBlock(BlockPath::Donate)),
    ("/blocks/release", Route::OnBlock(BlockPath::Release)),
    ("/downloads/acknowledge", Route::Acknowledge),
    ("/query", Route::Query),
    ("/windows", Route::Windows),
];

// Inserts these paths into a router, in order. The router must have a place for all of them.
fn insert_paths(router: &mut Router<Route>, paths: &[(&str, Route)]) -> Result<(), InsertError>
    ensures paths { (rows : RowsOf (RouteOf RouteImpl))
        → all_placed (texts_of paths.now) router.old ≡ Some rows
        → OnOk result (router.new ≡ rows) }
    ensures memory { (rows : RowsOf (RouteOf RouteImpl))
        → all_placed (texts_of paths.now) router.old ≡ Some rows
        → IfErr result (λ e. e ≡ OutOfMemory) }
{
    for (path, route) in paths.iter() {
        router.insert(path, *route)?;
    }
    Ok(())
}

/// Creates the router of the constant paths, for `next_message`.
///
/// # Errors
///
/// `InsertError::OutOfMemory` if an allocation fails.
pub fn router(alloc: Global) -> Result<Router<Route>, InsertError>
    ensures paths { IfOk result (λ r. r ≡ table) }
    ensures memory { IfErr result (λ e. e ≡ OutOfMemory) }
{
    let mut router = Router::new(alloc);
    insert_paths(&mut router, PATHS.as_slice())?;
    Ok(router)
}

// Returns the route of a constant path.
fn fixed_route_of(router: &Router<Route>, target: &[u8]) -> Option<Route>
    requires { router.now ≡ table }
    ensures { result ≡ path_among paths target.now }
{
    match str::from_utf8(target) {
        Ok(text) => match router.at(text) {
            Ok(found) => Some(*found.value),
            Err(_) => None,
        },
        Err(_) => None,
    }
}

// Returns whether no byte is a slash or a question mark.
fn are_part_bytes(part: &[u8]) -> bool
    ensures { result ≡ list_all is_part_byte part.now }
{
    part.iter().all(|b| *b != b'/' && *b != b'?')
}

// Returns whether the bytes are one part of a path.
fn is_part(part: &[u8]) -> bool
    ensures { result ≡ is_one_part part.now }
{
    if part.is_empty() {
        return false;
    }
    are_part_bytes(part)
}

// Returns the number below 2^40 that a part writes in digits, without leading zeros.
#[tactic(auto, unfolding(crate::specs::Table::number_in))]
fn number_of_part(part: &[u8]) -> Option<u64>
    ensures { result ≡ number_in part.now }
{
    if part.len() > 1 && part.starts_with(b"0") {
        return None;
    }
    read_number(part).filter(|n| *n < 1 << 40)
}

// Returns what follows `prefix`, if it is one part of a path: its number, or `None` inside.
#[tactic(auto, unfolding(crate::specs::Table::number_after))]
fn number_after(target: &[u8], prefix: &[u8]) -> Option<Option<u64>>
    ensures { result ≡ number_after prefix.now target.now }
{
    let part = target.strip_prefix(prefix)?;
    if !is_part(part) {
        return None;
    }
    Some(number_of_part(part))
}

// Returns the route of a path that ends in a number.
fn numbered_route_of(target: &[u8]) -> Option<Route>
    ensures { result ≡ numbered_path target.now }
{
    if let Some(id) = number_after(target, b"/versions/") {
        return Some(Route::Version(id));
    }
    if let Some(number) = number_after(target, b"/numbers/") {
        return Some(Route::Number(number));
    }
    let count = number_after(target, b"/downloads/")?;
    Some(Route::Downloads(count))
}

/// Returns the route of a message's target, if it is a path. Compares bytes and decodes nothing.
#[tactic(auto, unfolding(crate::specs::Table::path_of))]
pub fn route_of(router: &Router<Route>, target: &[u8]) -> Option<Route>
    requires { router.now ≡ table }
    ensures { result ≡ path_of target.now }
{
    match fixed_route_of(router, target) {
        Some(route) => Some(route),
        None => numbered_route_of(target),
    }
}
