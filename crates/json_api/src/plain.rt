//! Reads the bodies of the most frequent messages where they are written plainly: the keys in
//! order, no space, and no escape.
ghost use Rattle.std.specs.Prelude.{◌≡◌, ◌<◌, ◌^◌, IfSome, None, Some, codes, true};
ghost use Rattle.numbers.specs.Digits.{IsTn, IsLrn};
ghost use Rattle.numbers.specs.Spids.{IsSpid};
ghost use Rattle.numbers.specs.Texts.{lrn_text, spid_text, tn_text};
ghost use Rattle.serde_json.specs.Data.{Data};
ghost use Rattle.serde_json.specs.Find.{get as get_in};
ghost use Rattle.requests.specs.Calls.{called_of};
ghost use Rattle.version.specs.Commands.{command_model};
ghost use Rattle.json_api.specs.Forms.{HasVersionCommand, IsTextOf, RegisterCall, UriQuery};
ghost use Rattle.json_api.specs.Plain.{ArePortTexts, IsAsked, IsPort, IsValueAfter};
ghost use Rattle.json_api.specs.declared.flat.Scalar.TheVariants.{Flag as FlagValue, Text as TextValue, Whole as WholeValue};

use crate::flat::Scalar;
use crate::scan::{scalar_at, text_at, whole_at};
use http_messages::{Route, VersionPath, after};
use numbers::{Lrn, Minute, Routing, Spid, Tn};
use requests::{Call, Command};
use version::{Create, Creator, VersionCommand};

// Ids, attempts and minutes are below 2^40.
const LIMIT: u64 = 1 << 40;

// Returns whether the bytes are the end of an object.
fn is_end(bytes: &[u8]) -> bool
    ensures { result ≡ true → bytes.now ≡ codes "}" }
{
    bytes == b"}".as_slice()
}

// Reads the text after `key`, if the bytes begin with that. Returns it and the bytes after it.
#[inline(always)]
fn text_after<'a, const N: usize>(bytes: &'a [u8], key: &[u8; N]) -> Option<(&'a str, &'a [u8])>
    ensures { IfSome result
        (λ found. IsValueAfter bytes.now key.now (TextValue found.0) found.1.now) }
{
    let (text, rest) = text_at(after(bytes, key)?)?;
    Some((text, rest))
}

// Reads the whole number below 2^40 after `key`.
#[inline(always)]
fn whole_after<'a, const N: usize>(bytes: &'a [u8], key: &[u8; N]) -> Option<(u64, &'a [u8])>
    ensures value { IfSome result
        (λ found. IsValueAfter bytes.now key.now (WholeValue found.0) found.1.now) }
    ensures small { IfSome result (λ found. found.0 < 2 ^ 40) }
{
    let (number, rest) = whole_at(after(bytes, key)?)?;
    if number < LIMIT {
        Some((number, rest))
    } else {
        None
    }
}

// Reads the Boolean after `key`.
#[inline(always)]
fn flag_after<'a, const N: usize>(bytes: &'a [u8], key: &[u8; N]) -> Option<(bool, &'a [u8])>
    ensures { IfSome result
        (λ found. IsValueAfter bytes.now key.now (FlagValue found.0) found.1.now) }
{
    match scalar_at(after(bytes, key)?)? {
        (Scalar::Flag(flag), rest) => Some((flag, rest)),
        _ => None,
    }
}

/// Returns the URI that the body of a query asks for, if it is written plainly: in bytes, without
/// spaces and escapes. `None` does not imply that it asks nothing.
//
// Not inlined: in its caller, each step of the loop over the text would also clear the results of
// the other calls.
#[inline(never)]
pub fn plain_query(body: &[u8]) -> Option<&str>
    ensures { IfSome result (λ uri. IsAsked Route.Query body.now (UriQuery uri.now)) }
{
    let (uri, rest) = text_after(body, b"{\"uri\":")?;
    if !is_end(rest) {
        return None;
    }
    Some(uri)
}

/// Returns the call that the body of an acknowledgement asks for, if it is written plainly: with the
/// keys in order and without spaces. `None` does not imply that it asks nothing.
// Inlined: a call is large, and each return moves it.
#[inline(always)]
pub fn plain_acknowledgement(body: &[u8]) -> Option<Call>
    ensures { IfSome result
        (λ call. IsAsked Route.Acknowledge body.now (RegisterCall (called_of call))) }
{
    let (attempt, rest) = whole_after(body, b"{\"attempt\":")?;
    let (id, rest) = whole_after(rest, b",\"id\":")?;
    if !is_end(rest) {
        return None;
    }
    Some(Call::Acknowledge { id, attempt })
}

// Reads the texts of the providers and of the number, which end the body of a create.
fn port_texts(bytes: &[u8]) -> Option<(&str, &str, &str)>
    ensures { IfSome result (λ found. ArePortTexts bytes.now found.0 found.1 found.2) }
{
    let (new, rest) = text_after(bytes, b",\"new\":")?;
    let (old, rest) = text_after(rest, b",\"old\":")?;
    let (tn, rest) = text_after(rest, b",\"tn\":")?;
    if !is_end(rest) {
        return None;
    }
    Some((new, old, tn))
}

// Reads the provider that a text names.
fn spid_of(text: &str) -> Option<Spid>
    ensures { IfSome result (λ spid. IsTextOf IsSpid spid_text (Some text.now) spid.number) }
{
    Spid::read(text)
}

// Reads the telephone number that a text names.
fn tn_of(text: &str) -> Option<Tn>
    ensures { IfSome result (λ tn. IsTextOf IsTn tn_text (Some text.now) tn.number) }
{
    Tn::read(text)
}

// Reads the routing number that a text names.
fn lrn_of(text: &str) -> Option<Lrn>
    ensures { IfSome result (λ lrn. IsTextOf IsLrn lrn_text (Some text.now) lrn.number) }
{
    Lrn::read(text)
}

// Reads the end of the body of a create.
fn port_at(bytes: &[u8], due: u64, creator: Creator) -> Option<Create>
    ensures port { IfSome result (λ c. IsPort bytes.now c.tn.number c.old_provider.number
        c.new_provider.number) }
    ensures rest { IfSome result (λ c. (c.due.number ≡ due) × (c.creator ≡ creator)) }
{
    let (new, old, tn) = port_texts(bytes)?;
    Some(Create {
        tn: tn_of(tn)?,
        old_provider: spid_of(old)?,
        new_provider: spid_of(new)?,
        due: Minute::new(due)?,
        creator,
    })
}

// Reads the body of a create by the old provider.
// Inlined: a call is large, and each return moves it.
#[inline(always)]
fn plain_old_provider_create(body: &[u8]) -> Option<Call>
    ensures { IfSome result
        (λ call. IsAsked Route.OldProviderCreate body.now (RegisterCall (called_of call))) }
{
    let (authorized, rest) = flag_after(body, b"{\"authorized\":")?;
    let (due, rest) = whole_after(rest, b",\"due\":")?;
    let create = port_at(rest, due, Creator::OldProvider { authorized })?;
    Some(Call::Command(Command::Create(create)))
}

// Reads the body of a create by the new provider, without a carrier identification code.
// Inlined: a call is large, and each return moves it.
#[inline(always)]
fn plain_new_provider_create(body: &[u8]) -> Option<Call>
    ensures { IfSome result
        (λ call. IsAsked Route.NewProviderCreate body.now (RegisterCall (called_of call))) }
{
    let (due, rest) = whole_after(body, b"{\"due\":")?;
    let (lrn, rest) = text_after(rest, b",\"lrn\":")?;
    let routing = Routing {
        lrn: lrn_of(lrn)?,
        cic: None,
    };
    let create = port_at(rest, due, Creator::NewProvider { routing })?;
    Some(Call::Command(Command::Create(create)))
}

// Returns the command of a path whose body has only an id.
fn bare_command(path: VersionPath) -> Option<VersionCommand>
    ensures { IfSome result (λ command. (d : Data) → get_in (codes "release") d ≡ None
        → HasVersionCommand path d (command_model command)) }
{
    match path {
        VersionPath::Activate => Some(VersionCommand::Activate),
        VersionPath::PutInConflict => Some(VersionCommand::PutInConflict),
        VersionPath::RemoveFromConflict => Some(VersionCommand::RemoveFromConflict),
        VersionPath::Cancel => Some(VersionCommand::Cancel),
        VersionPath::OldProviderCancellationAcknowledge => {
            Some(VersionCommand::OldProviderCancellationAcknowledge)
        }
        VersionPath::NewProviderCancellationAcknowledge => {
            Some(VersionCommand::NewProviderCancellationAcknowledge)
        }
        VersionPath::Disconnect => Some(VersionCommand::Disconnect { release: None }),
        VersionPath::ModifyRouting => None,
    }
}

// Reads the body of a command on a version that has only an id.
// Inlined: a call is large, and each return moves it.
#[inline(always)]
fn plain_command(path: VersionPath, body: &[u8]) -> Option<Call>
    ensures { IfSome result
        (λ call. IsAsked (Route.OnVersion path) body.now (RegisterCall (called_of call))) }
{
    let (id, rest) = whole_after(body, b"{\"id\":")?;
    let command = bare_command(path)?;
    if !is_end(rest) {
        return None;
    }
    Some(Call::Command(Command::OnVersion { id, command }))
}

/// Returns the call that a body asks for on a route, if it is that of a create or of a command on a
/// version, and written plainly: in bytes, with the keys in order and without spaces and escapes.
/// `None` does not imply that it asks nothing.
// Inlined: a call is large, and each return moves it.
#[inline(always)]
pub fn plain_call(route: Route, body: &[u8]) -> Option<Call>
    ensures { IfSome result (λ call. IsAsked route body.now (RegisterCall (called_of call))) }
{
    match route {
        Route::OldProviderCreate => plain_old_provider_create(body),
        Route::NewProviderCreate => plain_new_provider_create(body),
        Route::OnVersion(path) => plain_command(path, body),
        _ => None,
    }
}
