//! The forms of request bodies: JSON objects with the keys of their route and no others.
ghost use Rattle.std.specs.Prelude.{◌≡◌, ℕ, List, IfOk, IfSome, IfNone, Option, option_map, codes, map, Some, true};
ghost use Rattle.serde_json.specs.View.{view};
ghost use Rattle.numbers.specs.declared.cic.Cic.{Cic as CicImpl};
ghost use Rattle.numbers.specs.declared.minute.Minute.{Minute as MinuteImpl};
ghost use Rattle.model.specs.Commands.{Command as CommandModel, VersionCommand as VersionCommandModel};
ghost use Rattle.requests.specs.Calls.{command_of as command_model};
ghost use Rattle.windows.specs.declared.window.Window.{Window as WindowImpl};
ghost use Rattle.version.specs.Abstraction.{windows_of};
ghost use Rattle.model.specs.Windows.{Windows as WindowsModel};
ghost use Rattle.pool.specs.Donations.{lines_of as lines_model};
ghost use Rattle.version.specs.Commands.{command_model as version_command_model};
ghost use Rattle.json_api.specs.Forms.{ApiCall as ApiCallModel, AsksOnce, api_call_model as asked_model, json_of, keys, whole, HasSpid, HasTn, HasLrn, HasCode, HasCic, HasBlock, HasUsed, HasRelease, HasPort, HasWindows, window as window_model, HasVersionCommand, HasBlockCommand, HasCommand, HasValues, HasForm, version_keys, block_keys};

use crate::fields::Fields;
use crate::used::lines_of;
use http_messages::{BlockPath, Route, VersionPath};
use numbers::{BlockId, Cic, CodeId, Line, Lrn, Minute, Routing, Spid, Tn};
use pool::Assignment;
use requests::{Call, Command};
use serde_json::{Category, Value};
use std::alloc::{AllocError, Global};
use version::{Create, Creator, VersionCommand};
use windows::{Window, Windows};

/// What a message asks: a call of the register, or the routing for the number of a URI.
#[derive(Debug, Drop)]
pub enum ApiCall<'a> {
    /// A call of the register.
    Call(Call),
    /// A query by this URI.
    Uri(&'a str),
}

#[tactic(auto, unfolding(crate::specs::Forms::whole))]
fn minute_at<F: Fields>(fields: &F, key: &str) -> Option<Minute>
    ensures { option_map (λ (m : MinuteImpl). m.number) result
        ≡ whole key.now (F.value fields.now) }
{
    Minute::new(fields.whole(key)?)
}

#[tactic(auto, using(crate::proofs::FormLemmas::no_text, crate::proofs::FormLemmas::other_text))]
fn spid_at<F: Fields>(fields: &F, key: &str) -> Option<Spid>
    ensures some { IfSome result (λ spid. HasSpid key.now (F.value fields.now) spid.number) }
    ensures none { IfNone result ((n : ℕ) → ¬ (HasSpid key.now (F.value fields.now) n)) }
{
    Spid::read(fields.text(key)?)
}

#[tactic(auto, using(crate::proofs::FormLemmas::no_text, crate::proofs::FormLemmas::other_text))]
fn tn_at<F: Fields>(fields: &F) -> Option<Tn>
    ensures some { IfSome result (λ tn. HasTn (F.value fields.now) tn.number) }
    ensures none { IfNone result ((n : ℕ) → ¬ (HasTn (F.value fields.now) n)) }
{
    Tn::read(fields.text("tn")?)
}

#[tactic(auto, using(crate::proofs::FormLemmas::no_text, crate::proofs::FormLemmas::other_text))]
fn lrn_at<F: Fields>(fields: &F) -> Option<Lrn>
    ensures some { IfSome result (λ lrn. HasLrn (F.value fields.now) lrn.number) }
    ensures none { IfNone result ((n : ℕ) → ¬ (HasLrn (F.value fields.now) n)) }
{
    Lrn::read(fields.text("lrn")?)
}

#[tactic(auto, using(crate::proofs::FormLemmas::no_text, crate::proofs::FormLemmas::other_text))]
fn code_at<F: Fields>(fields: &F) -> Option<CodeId>
    ensures some { IfSome result (λ code. HasCode (F.value fields.now) code.number) }
    ensures none { IfNone result ((n : ℕ) → ¬ (HasCode (F.value fields.now) n)) }
{
    CodeId::read(fields.text("code")?)
}

#[tactic(auto, using(crate::proofs::FormLemmas::no_text, crate::proofs::FormLemmas::other_text))]
fn block_at<F: Fields>(fields: &F) -> Option<BlockId>
    ensures some { IfSome result (λ block. HasBlock (F.value fields.now) block.number) }
    ensures none { IfNone result ((n : ℕ) → ¬ (HasBlock (F.value fields.now) n)) }
{
    BlockId::read(fields.text("block")?)
}

#[tactic(auto, using(crate::proofs::FormLemmas::no_text, crate::proofs::FormLemmas::other_text))]
fn given_cic_at<F: Fields>(fields: &F) -> Option<Cic>
    ensures some { IfSome result (λ cic. HasCic (F.value fields.now) (Some cic.number)) }
    ensures none { IfNone result ((n : ℕ) → ¬ (HasCic (F.value fields.now) (Some n))) }
{
    Cic::read(fields.text("cic")?)
}

// Reads a carrier identification code, which may be missing or null.
fn cic_at<F: Fields>(fields: &F) -> Option<Option<Cic>>
    ensures some { IfSome result (λ cic. HasCic (F.value fields.now)
        (option_map (λ (c : CicImpl). c.number) cic)) }
    ensures none { IfNone result ((cic : Option ℕ) → ¬ (HasCic (F.value fields.now) cic)) }
{
    if fields.is_left_out("cic") {
        return Some(None);
    }
    Some(Some(given_cic_at(fields)?))
}

fn routing_at<F: Fields>(fields: &F) -> Option<Routing>
    ensures some { IfSome result (λ r. HasLrn (F.value fields.now) r.lrn.number
        × HasCic (F.value fields.now) (option_map (λ (c : CicImpl). c.number) r.cic)) }
    ensures none { IfNone result ((lrn : ℕ) (cic : Option ℕ) → HasLrn (F.value fields.now) lrn
        → ¬ (HasCic (F.value fields.now) cic)) }
{
    Some(Routing {
        lrn: lrn_at(fields)?,
        cic: cic_at(fields)?,
    })
}

// Returns the keys of a command on a version.
fn version_keys_of(path: VersionPath) -> &'static [&'static str]
    ensures { map (λ s. s.now) result.now ≡ version_keys path }
{
    match path {
        VersionPath::Disconnect => &["id", "release"],
        VersionPath::ModifyRouting => &["cic", "id", "lrn"],
        _ => &["id"],
    }
}

// Returns the keys of a command on a block.
fn block_keys_of(path: BlockPath) -> &'static [&'static str]
    ensures { map (λ s. s.now) result.now ≡ block_keys path }
{
    match path {
        BlockPath::Assign => &["block", "cic", "holder", "lrn"],
        BlockPath::Donate => &["block", "cic", "lrn", "used"],
        BlockPath::Release => &["block"],
    }
}

// Returns the keys of a route's body.
fn keys_of(route: Route) -> &'static [&'static str]
    ensures { map (λ s. s.now) result.now ≡ keys route }
{
    match route {
        Route::Carriers => &["spid"],
        Route::RoutingNumbers => &["lrn"],
        Route::Codes => &["code", "spid"],
        Route::OldProviderCreate => &["authorized", "due", "new", "old", "tn"],
        Route::NewProviderCreate => &["cic", "due", "lrn", "new", "old", "tn"],
        Route::OnVersion(path) => version_keys_of(path),
        Route::OnBlock(path) => block_keys_of(path),
        Route::Acknowledge => &["attempt", "id"],
        Route::Query => &["uri"],
        Route::Clock => &["minute"],
        Route::Windows => &[
            "broadcast",
            "cancellation_final",
            "cancellation_initial",
            "conflict_expiration",
            "conflict_resolution",
            "conflict_restriction",
            "final_concurrence",
            "initial_concurrence",
            "pending_retention",
        ],
        Route::Version(_) | Route::Number(_) | Route::Downloads(_) => &[],
    }
}

// Reads the providers and the due minute of a create.
fn create_by<F: Fields>(fields: &F, creator: Creator) -> Option<Create>
    ensures some { IfSome result (λ c. HasPort (F.value fields.now)
        c.tn.number c.old_provider.number c.new_provider.number c.due.number
        × (c.creator ≡ creator)) }
    ensures none { IfNone result ((tn old_provider new_provider due : ℕ)
        → ¬ (HasPort (F.value fields.now) tn old_provider new_provider due)) }
{
    Some(Create {
        tn: tn_at(fields)?,
        old_provider: spid_at(fields, "old")?,
        new_provider: spid_at(fields, "new")?,
        due: minute_at(fields, "due")?,
        creator,
    })
}

fn old_provider_create<F: Fields>(fields: &F) -> Option<Command>
    ensures some { IfSome result (λ c. HasCommand Route.OldProviderCreate (F.value fields.now)
        (command_model c)) }
    ensures none { IfNone result ((c : CommandModel)
        → ¬ (HasCommand Route.OldProviderCreate (F.value fields.now) c)) }
{
    let authorized = fields.flag("authorized")?;
    let creator = Creator::OldProvider { authorized };
    Some(Command::Create(create_by(fields, creator)?))
}

fn new_provider_create<F: Fields>(fields: &F) -> Option<Command>
    ensures some { IfSome result (λ c. HasCommand Route.NewProviderCreate (F.value fields.now)
        (command_model c)) }
    ensures none { IfNone result ((c : CommandModel)
        → ¬ (HasCommand Route.NewProviderCreate (F.value fields.now) c)) }
{
    let routing = routing_at(fields)?;
    let creator = Creator::NewProvider { routing };
    Some(Command::Create(create_by(fields, creator)?))
}

fn open_code<F: Fields>(fields: &F) -> Option<Command>
    ensures some { IfSome result (λ c. HasCommand Route.Codes (F.value fields.now)
        (command_model c)) }
    ensures none { IfNone result ((c : CommandModel)
        → ¬ (HasCommand Route.Codes (F.value fields.now) c)) }
{
    Some(Command::OpenCode {
        code: code_at(fields)?,
        spid: spid_at(fields, "spid")?,
    })
}

fn register_carrier<F: Fields>(fields: &F) -> Option<Command>
    ensures some { IfSome result (λ c. HasCommand Route.Carriers (F.value fields.now)
        (command_model c)) }
    ensures none { IfNone result ((c : CommandModel)
        → ¬ (HasCommand Route.Carriers (F.value fields.now) c)) }
{
    Some(Command::RegisterCarrier {
        spid: spid_at(fields, "spid")?,
    })
}

fn register_routing_number<F: Fields>(fields: &F) -> Option<Command>
    ensures some { IfSome result (λ c. HasCommand Route.RoutingNumbers (F.value fields.now)
        (command_model c)) }
    ensures none { IfNone result ((c : CommandModel)
        → ¬ (HasCommand Route.RoutingNumbers (F.value fields.now) c)) }
{
    Some(Command::RegisterRoutingNumber {
        lrn: lrn_at(fields)?,
    })
}

// Reads the minute of the release, which may be missing or null.
fn release_at<F: Fields>(fields: &F) -> Option<Option<Minute>>
    ensures some { IfSome result (λ release. HasRelease (F.value fields.now)
        (option_map (λ (m : MinuteImpl). m.number) release)) }
    ensures none { IfNone result ((release : Option ℕ)
        → ¬ (HasRelease (F.value fields.now) release)) }
{
    if fields.is_left_out("release") {
        return Some(None);
    }
    Some(Some(minute_at(fields, "release")?))
}

fn version_command<F: Fields>(path: VersionPath, fields: &F) -> Option<VersionCommand>
    ensures some { IfSome result (λ c. HasVersionCommand path (F.value fields.now)
        (version_command_model c)) }
    ensures none { IfNone result ((c : VersionCommandModel)
        → ¬ (HasVersionCommand path (F.value fields.now) c)) }
{
    match path {
        VersionPath::Activate => Some(VersionCommand::Activate),
        VersionPath::PutInConflict => Some(VersionCommand::PutInConflict),
        VersionPath::RemoveFromConflict => Some(VersionCommand::RemoveFromConflict),
        VersionPath::Cancel => Some(VersionCommand::Cancel),
        VersionPath::OldProviderCancellationAcknowledge => {
            Some(VersionCommand::OldProviderCancellationAcknowledge)
        }
        VersionPath::NewProviderCancellationAcknowledge => {
            Some(VersionCommand::NewProviderCancellationAcknowledge)
        }
        VersionPath::Disconnect => {
            let release = release_at(fields)?;
            Some(VersionCommand::Disconnect { release })
        }
        VersionPath::ModifyRouting => {
            let routing = routing_at(fields)?;
            Some(VersionCommand::ModifyRouting { routing })
        }
    }
}

fn on_version<F: Fields>(path: VersionPath, fields: &F) -> Option<Command>
    ensures some { IfSome result (λ c. HasCommand (Route.OnVersion path) (F.value fields.now)
        (command_model c)) }
    ensures none { IfNone result ((c : CommandModel)
        → ¬ (HasCommand (Route.OnVersion path) (F.value fields.now) c)) }
{
    Some(Command::OnVersion {
        id: fields.whole("id")?,
        command: version_command(path, fields)?,
    })
}

// Reads the lines in use of a donated block.
fn used_at<F: Fields>(alloc: Global, fields: &F) -> Result<Option<Vec<Line>>, AllocError>
    ensures some { IfOk result (λ read. IfSome read (λ used.
        HasUsed (F.value fields.now) (lines_model used.items))) }
    ensures none { IfOk result (λ read. IfNone read ((used : List ℕ)
        → ¬ (HasUsed (F.value fields.now) used))) }
{
    match fields.items("used") {
        Some(values) => lines_of(alloc, values),
        None => Ok(None),
    }
}

fn donation<F: Fields>(alloc: Global, fields: &F) -> Result<Option<Command>, AllocError>
    ensures some { IfOk result (λ read. IfSome read (λ c.
        HasBlockCommand BlockPath.Donate (F.value fields.now) (command_model c))) }
    ensures none { IfOk result (λ read. IfNone read ((c : CommandModel)
        → ¬ (HasBlockCommand BlockPath.Donate (F.value fields.now) c))) }
{
    let Some(block) = block_at(fields) else {
        return Ok(None);
    };
    let Some(routing) = routing_at(fields) else {
        return Ok(None);
    };
    let Some(used) = used_at(alloc, fields)? else {
        return Ok(None);
    };
    Ok(Some(Command::Donate {
        block,
        used,
        routing,
    }))
}

fn assignment<F: Fields>(fields: &F) -> Option<Command>
    ensures some { IfSome result (λ c. HasBlockCommand BlockPath.Assign (F.value fields.now)
        (command_model c)) }
    ensures none { IfNone result ((c : CommandModel)
        → ¬ (HasBlockCommand BlockPath.Assign (F.value fields.now) c)) }
{
    Some(Command::Assign(Assignment {
        block: block_at(fields)?,
        holder: spid_at(fields, "holder")?,
        routing: routing_at(fields)?,
    }))
}

fn release<F: Fields>(fields: &F) -> Option<Command>
    ensures some { IfSome result (λ c. HasBlockCommand BlockPath.Release (F.value fields.now)
        (command_model c)) }
    ensures none { IfNone result ((c : CommandModel)
        → ¬ (HasBlockCommand BlockPath.Release (F.value fields.now) c)) }
{
    Some(Command::Release {
        block: block_at(fields)?,
    })
}

fn on_block<F: Fields>(
    alloc: Global,
    path: BlockPath,
    fields: &F,
) -> Result<Option<Command>, AllocError>
    ensures some { IfOk result (λ read. IfSome read (λ c.
        HasBlockCommand path (F.value fields.now) (command_model c))) }
    ensures none { IfOk result (λ read. IfNone read ((c : CommandModel)
        → ¬ (HasBlockCommand path (F.value fields.now) c))) }
{
    match path {
        BlockPath::Assign => Ok(assignment(fields)),
        BlockPath::Donate => donation(alloc, fields),
        BlockPath::Release => Ok(release(fields)),
    }
}

// Reads a window: a whole number of minutes from 1 to 525,600.
#[tactic(auto, unfolding(crate::specs::Forms::window))]
fn window_at<F: Fields>(fields: &F, key: &str) -> Option<Window>
    ensures { option_map (λ (w : WindowImpl). w.minutes) result
        ≡ window_model key.now (F.value fields.now) }
{
    match u32::try_from(fields.whole(key)?) {
        Ok(minutes) if minutes >= 1 && minutes <= 525_600 => Some(Window { minutes }),
        _ => None,
    }
}

fn windows_at<F: Fields>(fields: &F) -> Option<Windows>
    ensures some { IfSome result (λ w. HasWindows (F.value fields.now) (windows_of w)) }
    ensures none { IfNone result ((w : WindowsModel) → ¬ (HasWindows (F.value fields.now) w)) }
{
    Some(Windows {
        initial_concurrence: window_at(fields, "initial_concurrence")?,
        final_concurrence: window_at(fields, "final_concurrence")?,
        conflict_restriction: window_at(fields, "conflict_restriction")?,
        conflict_resolution: window_at(fields, "conflict_resolution")?,
        conflict_expiration: window_at(fields, "conflict_expiration")?,
        cancellation_initial: window_at(fields, "cancellation_initial")?,
        cancellation_final: window_at(fields, "cancellation_final")?,
        pending_retention: window_at(fields, "pending_retention")?,
        broadcast: window_at(fields, "broadcast")?,
    })
}

fn set_windows<F: Fields>(fields: &F) -> Option<Command>
    ensures some { IfSome result (λ c. HasCommand Route.Windows (F.value fields.now)
        (command_model c)) }
    ensures none { IfNone result ((c : CommandModel)
        → ¬ (HasCommand Route.Windows (F.value fields.now) c)) }
{
    Some(Command::SetWindows {
        windows: windows_at(fields)?,
    })
}

fn command_of<F: Fields>(
    alloc: Global,
    route: Route,
    fields: &F,
) -> Result<Option<Command>, AllocError>
    ensures some { IfOk result (λ read. IfSome read (λ c.
        HasCommand route (F.value fields.now) (command_model c))) }
    ensures none { IfOk result (λ read. IfNone read ((c : CommandModel)
        → ¬ (HasCommand route (F.value fields.now) c))) }
{
    match route {
        Route::Carriers => Ok(register_carrier(fields)),
        Route::RoutingNumbers => Ok(register_routing_number(fields)),
        Route::Codes => Ok(open_code(fields)),
        Route::OldProviderCreate => Ok(old_provider_create(fields)),
        Route::NewProviderCreate => Ok(new_provider_create(fields)),
        Route::OnVersion(path) => Ok(on_version(path, fields)),
        Route::OnBlock(path) => on_block(alloc, path, fields),
        Route::Windows => Ok(set_windows(fields)),
        Route::Acknowledge
        | Route::Query
        | Route::Clock
        | Route::Version(_)
        | Route::Number(_)
        | Route::Downloads(_) => Ok(None),
    }
}

fn acknowledgement_of<F: Fields>(fields: &F) -> Option<ApiCall<'_>>
    ensures some { IfSome result (λ asked. HasValues Route.Acknowledge (F.value fields.now)
        (asked_model asked)) }
    ensures none { IfNone result ((asked : ApiCallModel)
        → ¬ (HasValues Route.Acknowledge (F.value fields.now) asked)) }
{
    Some(ApiCall::Call(Call::Acknowledge {
        id: fields.whole("id")?,
        attempt: fields.whole("attempt")?,
    }))
}

fn query_of<F: Fields>(fields: &F) -> Option<ApiCall<'_>>
    ensures some { IfSome result (λ asked. HasValues Route.Query (F.value fields.now)
        (asked_model asked)) }
    ensures none { IfNone result ((asked : ApiCallModel)
        → ¬ (HasValues Route.Query (F.value fields.now) asked)) }
{
    Some(ApiCall::Uri(fields.text("uri")?))
}

fn clock_of<F: Fields>(fields: &F) -> Option<ApiCall<'_>>
    ensures some { IfSome result (λ asked. HasValues Route.Clock (F.value fields.now)
        (asked_model asked)) }
    ensures none { IfNone result ((asked : ApiCallModel)
        → ¬ (HasValues Route.Clock (F.value fields.now) asked)) }
{
    Some(ApiCall::Call(Call::Clock {
        minute: minute_at(fields, "minute")?,
    }))
}

// Returns what the values of an object ask on a route.
fn values_of<F: Fields>(
    alloc: Global,
    route: Route,
    fields: &F,
) -> Result<Option<ApiCall<'_>>, AllocError>
    ensures some { IfOk result (λ read. IfSome read (λ asked.
        HasValues route (F.value fields.now) (asked_model asked))) }
    ensures none { IfOk result (λ read. IfNone read ((asked : ApiCallModel)
        → ¬ (HasValues route (F.value fields.now) asked))) }
{
    match route {
        Route::Acknowledge => Ok(acknowledgement_of(fields)),
        Route::Query => Ok(query_of(fields)),
        Route::Clock => Ok(clock_of(fields)),
        _ => match command_of(alloc, route, fields)? {
            Some(command) => Ok(Some(ApiCall::Call(Call::Command(command)))),
            None => Ok(None),
        },
    }
}

/// States that a body asks at most one thing.
pub fn body_asks_once()
    ensures { AsksOnce }
{}

/// Returns what a body asks on a route, or `None` if it does not have the route's form.
///
/// # Errors
///
/// `AllocError` if there is no memory for the lines of a donation, the only part of a form that is
/// allocated.
pub fn api_call_of<F: Fields>(
    alloc: Global,
    route: Route,
    fields: &F,
) -> Result<Option<ApiCall<'_>>, AllocError>
    ensures some { IfOk result (λ read. IfSome read (λ asked.
        HasForm route (F.value fields.now) (asked_model asked))) }
    ensures none { IfOk result (λ read. IfNone read ((asked : ApiCallModel)
        → ¬ (HasForm route (F.value fields.now) asked))) }
{
    if !fields.has_only(keys_of(route)) {
        return Ok(None);
    }
    values_of(alloc, route, fields)
}
