//! Parses the fields of a bulk file's rows.
ghost use Rattle.std.specs.Prelude.{◌≡◌, ◌≢◌, IsUtf8, ℕ, List, IfSome, IfNone, ◌∷◌, [], length};
ghost use Rattle.std.specs.Prelude.{Bool, Option, find, IsTrue, ◌↔◌};
ghost use Rattle.std.specs.Prelude.{◌++◌, ℕ};
ghost use Rattle.csv.specs.Records.{fields_of};
ghost use Rattle.version.specs.declared.create.Creator.{Creator as CreatorImpl};
ghost use Rattle.version.specs.declared.command.VersionCommand.{VersionCommand as VersionCommandImpl};
ghost use Rattle.numbers.specs.declared.cic.Cic.{Cic as CicImpl};
ghost use Rattle.numbers.specs.declared.minute.Minute.{Minute as MinuteImpl};
ghost use Rattle.bulk.specs.Requests.{action_name, command_action, create_action, action_of, Names, flag_text, optional_cic, optional_minute, create_fields, release_field, operation_fields, EncodesRequest, ParsesRow, header};
ghost use Rattle.bulk.specs.declared.request.ActionName.TheVariants.{OldProviderCreate, NewProviderCreate, ModifyRouting};
ghost use Rattle.bulk.specs.Fields.{is_action, actions, all_fields, last_fields, six_fields};
ghost use Rattle.bulk.specs.declared.range.Numbers.{Numbers as NumbersImpl};
ghost use Rattle.bulk.specs.declared.request.Operation.TheVariants.{OnVersion};
ghost use Rattle.bulk.specs.declared.request.Operation.{Operation as OperationImpl};
ghost use Rattle.bulk.specs.declared.request.ActionName.{ActionName as ActionNameImpl};
ghost use Rattle.numbers.specs.Digits.{IsTn, IsLrn, IsCic, IsMinute};
ghost use Rattle.numbers.specs.Spids.{IsSpid};
ghost use Rattle.numbers.specs.Texts.{spid_text, tn_text, lrn_text, cic_text, minute_text};

use crate::range::Numbers;
use crate::request::{ActionName, BulkRequest, Operation};
use csv::ByteRecord;
use numbers::{Cic, Lrn, Minute, Routing, Spid, Tn};
use version::{Creator, VersionCommand};

/// The number of fields of a row.
pub const FIELD_COUNT: usize = 9;

/// The nine fields of a row.
#[derive(Clone, Copy, Debug)]
pub struct Fields<'a> {
    pub caller: &'a [u8],
    pub action: &'a [u8],
    pub subject: &'a [u8],
    pub old_provider: &'a [u8],
    pub new_provider: &'a [u8],
    pub due: &'a [u8],
    pub lrn: &'a [u8],
    pub cic: &'a [u8],
    pub flag: &'a [u8],
}

fn has_field_count(row: &ByteRecord) -> bool
    ensures { IsTrue result ↔ (length (fields_of row.now) ≡ 9) }
{
    row.len() == FIELD_COUNT
}

impl Fields<'_> {
    /// Returns the fields of a row with nine fields.
    #[tactic(auto, using(crate::proofs::FieldLemmas::missing_field))]
    pub fn of(row: &ByteRecord) -> Option<Fields<'_>>
        ensures some { IfSome result (λ fields. fields_of row.now ≡ all_fields fields) }
        ensures none { IfNone result (length (fields_of row.now) ≢ 9) }
    {
        if !has_field_count(row) {
            return None;
        }
        Some(Fields {
            caller: row.get(0)?,
            action: row.get(1)?,
            subject: row.get(2)?,
            old_provider: row.get(3)?,
            new_provider: row.get(4)?,
            due: row.get(5)?,
            lrn: row.get(6)?,
            cic: row.get(7)?,
            flag: row.get(8)?,
        })
    }
}

/// Returns the field as a text, if it is UTF-8.
pub fn text_in(field: &[u8]) -> Option<&str>
    ensures some { IfSome result (λ text. text.now ≡ field.now) }
    ensures none { IfNone result (¬ (IsUtf8 field.now)) }
{
    str::from_utf8(field).ok()
}

/// Returns the SPID in a field.
pub fn spid_in(field: &[u8]) -> Option<Spid>
    ensures some { IfSome result (λ spid. field.now ≡ spid_text spid.number) }
    ensures none { IfNone result ((n : ℕ) → IsSpid n → field.now ≢ spid_text n) }
{
    Spid::read(text_in(field)?)
}

/// Returns the telephone number in a field.
pub fn tn_in(field: &[u8]) -> Option<Tn>
    ensures some { IfSome result (λ tn. field.now ≡ tn_text tn.number) }
    ensures none { IfNone result ((n : ℕ) → IsTn n → field.now ≢ tn_text n) }
{
    Tn::read(text_in(field)?)
}

/// Returns the LRN in a field.
pub fn lrn_in(field: &[u8]) -> Option<Lrn>
    ensures some { IfSome result (λ lrn. field.now ≡ lrn_text lrn.number) }
    ensures none { IfNone result ((n : ℕ) → IsLrn n → field.now ≢ lrn_text n) }
{
    Lrn::read(text_in(field)?)
}

fn cic_in(field: &[u8]) -> Option<Cic>
    ensures some { IfSome result (λ cic. field.now ≡ cic_text cic.number) }
    ensures none { IfNone result ((n : ℕ) → IsCic n → field.now ≢ cic_text n) }
{
    Cic::read(text_in(field)?)
}

/// Returns the minute in a field.
pub fn minute_in(field: &[u8]) -> Option<Minute>
    ensures some { IfSome result (λ minute. field.now ≡ minute_text minute.number) }
    ensures none { IfNone result ((n : ℕ) → IsMinute n → field.now ≢ minute_text n) }
{
    Minute::read(text_in(field)?)
}

fn is_named(field: &[u8], action: ActionName) -> bool
    ensures { result ≡ is_action field.now action }
{
    field == action.name().as_bytes()
}

fn first_named(field: &[u8]) -> Option<ActionName>
    ensures { result ≡ find (is_action field.now) actions }
{
    ActionName::ALL
        .iter()
        .copied()
        .find(|action| is_named(field, *action))
}

/// Returns the action that a field names.
pub fn action_in(field: &[u8]) -> Option<ActionName>
    ensures some { IfSome result (λ action. field.now ≡ action_name action) }
    ensures none { IfNone result ((action : ActionNameImpl) → field.now ≢ action_name action) }
{
    first_named(field)
}

// Splits a range at the hyphen after ten characters. Returns the parts before and after it.
fn split_range(field: &[u8]) -> Option<(&[u8], &[u8])>
    ensures some { IfSome result (λ parts. (length parts.0.now ≡ 10)
        × (field.now ≡ parts.0.now ++ 45 ∷ parts.1.now)) }
    ensures none { IfNone result ((before behind : List ℕ) → length before ≡ 10
        → field.now ≢ before ++ 45 ∷ behind) }
{
    if field.len() > 10 && field[10] == b'-' {
        Some((&field[..10], &field[11..]))
    } else {
        None
    }
}

fn range_in(field: &[u8]) -> Option<Numbers>
    ensures some { IfSome result (λ numbers.
        field.now ≡ tn_text numbers.first.number ++ 45 ∷ tn_text numbers.last.number) }
    ensures none { IfNone result ((numbers : NumbersImpl)
        → field.now ≢ tn_text numbers.first.number ++ 45 ∷ tn_text numbers.last.number) }
{
    let (first, last) = split_range(field)?;
    Numbers::new(tn_in(first)?, tn_in(last)?)
}

/// Returns the numbers that a field names: one, or a range.
pub fn numbers_in(field: &[u8]) -> Option<Numbers>
    ensures some { IfSome result (Names field.now) }
    ensures none { IfNone result ((numbers : NumbersImpl) → ¬ (Names field.now numbers)) }
{
    match tn_in(field) {
        Some(tn) => Numbers::new(tn, tn),
        None => range_in(field),
    }
}

/// Returns the flag in a field.
pub fn flag_in(field: &[u8]) -> Option<bool>
    ensures some { IfSome result (λ flag. field.now ≡ flag_text flag) }
    ensures none { IfNone result ((flag : Bool) → field.now ≢ flag_text flag) }
{
    if field == "yes".as_bytes() {
        Some(true)
    } else if field == "no".as_bytes() {
        Some(false)
    } else {
        None
    }
}

/// Returns the carrier identification code in a field, or `None` inside if the field is empty.
pub fn optional_cic_in(field: &[u8]) -> Option<Option<Cic>>
    ensures some { IfSome result (λ cic. field.now ≡ optional_cic cic) }
    ensures none { IfNone result ((cic : Option CicImpl) → field.now ≢ optional_cic cic) }
{
    if field.is_empty() {
        return Some(None);
    }
    Some(Some(cic_in(field)?))
}

/// Returns the minute in a field, or `None` inside if the field is empty.
pub fn optional_minute_in(field: &[u8]) -> Option<Option<Minute>>
    ensures some { IfSome result (λ minute. field.now ≡ optional_minute minute) }
    ensures none { IfNone result ((minute : Option MinuteImpl)
        → field.now ≢ optional_minute minute) }
{
    if field.is_empty() {
        return Some(None);
    }
    Some(Some(minute_in(field)?))
}

#[tactic(auto, using(crate::proofs::Wishes::no_command))]
fn version_command_in(action: ActionName, due: &[u8]) -> Option<VersionCommand>
    requires { action ≢ ModifyRouting }
    ensures some { IfSome result (λ command. (command_action command ≡ action)
        × (due.now ≡ release_field command)) }
    ensures none { IfNone result ((command : VersionCommandImpl) → command_action command ≡ action
        → due.now ≢ release_field command) }
{
    if action == ActionName::Disconnect {
        return Some(VersionCommand::Disconnect {
            release: optional_minute_in(due)?,
        });
    }
    if !due.is_empty() {
        return None;
    }
    match action {
        ActionName::Activate => Some(VersionCommand::Activate),
        ActionName::PutInConflict => Some(VersionCommand::PutInConflict),
        ActionName::RemoveFromConflict => Some(VersionCommand::RemoveFromConflict),
        ActionName::Cancel => Some(VersionCommand::Cancel),
        ActionName::OldProviderCancellationAcknowledge => {
            Some(VersionCommand::OldProviderCancellationAcknowledge)
        }
        ActionName::NewProviderCancellationAcknowledge => {
            Some(VersionCommand::NewProviderCancellationAcknowledge)
        }
        ActionName::OldProviderCreate
        | ActionName::NewProviderCreate
        | ActionName::Disconnect
        | ActionName::ModifyRouting => None,
    }
}

// Returns the old provider's part of a create. The fields lrn and cic must be empty.
fn authorization_in(fields: &Fields) -> Option<Creator>
    ensures some { IfSome result (λ creator. (create_action creator ≡ OldProviderCreate)
        × (last_fields fields.now ≡ create_fields creator)) }
    ensures none { IfNone result ((creator : CreatorImpl)
        → create_action creator ≡ OldProviderCreate
        → last_fields fields.now ≢ create_fields creator) }
{
    if !fields.lrn.is_empty() || !fields.cic.is_empty() {
        return None;
    }
    Some(Creator::OldProvider {
        authorized: flag_in(fields.flag)?,
    })
}

// Returns the new provider's part of a create. The field flag must be empty.
fn routing_in(fields: &Fields) -> Option<Creator>
    ensures some { IfSome result (λ creator. (create_action creator ≡ NewProviderCreate)
        × (last_fields fields.now ≡ create_fields creator)) }
    ensures none { IfNone result ((creator : CreatorImpl)
        → create_action creator ≡ NewProviderCreate
        → last_fields fields.now ≢ create_fields creator) }
{
    if !fields.flag.is_empty() {
        return None;
    }
    let routing = Routing {
        lrn: lrn_in(fields.lrn)?,
        cic: optional_cic_in(fields.cic)?,
    };
    Some(Creator::NewProvider { routing })
}

// Returns the create with the part of its last fields.
fn create_in(fields: &Fields, creator: Creator) -> Option<Operation>
    requires { last_fields fields.now ≡ create_fields creator }
    ensures some { IfSome result (λ operation. (action_of operation ≡ create_action creator)
        × (six_fields fields.now ≡ operation_fields operation)) }
    ensures none { IfNone result ((operation : OperationImpl)
        → action_of operation ≡ create_action creator
        → six_fields fields.now ≢ operation_fields operation) }
{
    Some(Operation::Create {
        old_provider: spid_in(fields.old_provider)?,
        new_provider: spid_in(fields.new_provider)?,
        due: minute_in(fields.due)?,
        creator,
    })
}

// Returns whether all fields after the subject are empty, except perhaps due.
fn has_only_due(fields: &Fields) -> bool
    ensures { IsTrue result
        ↔ (six_fields fields.now ≡ [] ∷ [] ∷ fields.now.due.now ∷ [] ∷ [] ∷ [] ∷ []) }
{
    fields.old_provider.is_empty()
        && fields.new_provider.is_empty()
        && fields.lrn.is_empty()
        && fields.cic.is_empty()
        && fields.flag.is_empty()
}

// Returns whether all fields after the subject are empty, except perhaps lrn and cic.
fn has_only_routing(fields: &Fields) -> bool
    ensures { IsTrue result
        ↔ (six_fields fields.now ≡ [] ∷ [] ∷ [] ∷ fields.now.lrn.now ∷ fields.now.cic.now ∷ [] ∷
        []) }
{
    fields.old_provider.is_empty()
        && fields.new_provider.is_empty()
        && fields.due.is_empty()
        && fields.flag.is_empty()
}

// Returns a modify. Only the fields lrn and cic may have content.
fn modify_in(fields: &Fields) -> Option<Operation>
    ensures some { IfSome result (λ operation. (action_of operation ≡ ModifyRouting)
        × (six_fields fields.now ≡ operation_fields operation)) }
    ensures none { IfNone result ((command : VersionCommandImpl)
        → command_action command ≡ ModifyRouting
        → six_fields fields.now ≢ operation_fields (OnVersion command)) }
{
    if !has_only_routing(fields) {
        return None;
    }
    let routing = Routing {
        lrn: lrn_in(fields.lrn)?,
        cic: optional_cic_in(fields.cic)?,
    };
    Some(Operation::OnVersion(VersionCommand::ModifyRouting { routing }))
}

fn command_in(fields: &Fields, action: ActionName) -> Option<Operation>
    requires { action ≢ ModifyRouting }
    ensures some { IfSome result (λ operation. (action_of operation ≡ action)
        × (six_fields fields.now ≡ operation_fields operation)) }
    ensures none { IfNone result ((command : VersionCommandImpl) → command_action command ≡ action
        → six_fields fields.now ≢ operation_fields (OnVersion command)) }
{
    let command = version_command_in(action, fields.due)?;
    if has_only_due(fields) {
        Some(Operation::OnVersion(command))
    } else {
        None
    }
}

fn operation_in(fields: &Fields, action: ActionName) -> Option<Operation>
    ensures some { IfSome result (λ operation. (action_of operation ≡ action)
        × (six_fields fields.now ≡ operation_fields operation)) }
    ensures none { IfNone result ((operation : OperationImpl) → action_of operation ≡ action
        → six_fields fields.now ≢ operation_fields operation) }
{
    match action {
        ActionName::OldProviderCreate => create_in(fields, authorization_in(fields)?),
        ActionName::NewProviderCreate => create_in(fields, routing_in(fields)?),
        ActionName::ModifyRouting => modify_in(fields),
        _ => command_in(fields, action),
    }
}

/// Parses a row as a request. Returns `None` for a bad row, which has one of these:
/// - another number of fields;
/// - an unknown action;
/// - a subject that is neither a number nor a range of at most a thousand numbers of one code;
/// - another field that is invalid, or empty or filled against the rules of the action.
pub fn read_request(row: &ByteRecord) -> Option<BulkRequest>
    ensures { ParsesRow (fields_of row.now) result }
{
    let fields = Fields::of(row)?;
    let action = action_in(fields.action)?;
    Some(BulkRequest {
        caller: spid_in(fields.caller)?,
        numbers: numbers_in(fields.subject)?,
        operation: operation_in(&fields, action)?,
    })
}

/// Returns whether a field is this text.
pub fn is_text(field: &[u8], text: &str) -> bool
    ensures { IsTrue result ↔ (field.now ≡ text.now) }
{
    field == text.as_bytes()
}

#[tactic(auto, unfolding(crate::specs::Requests::header))]
fn are_names(fields: &Fields) -> bool
    ensures { IsTrue result ↔ (all_fields fields.now ≡ header) }
{
    is_text(fields.caller, "caller")
        && is_text(fields.action, "action")
        && is_text(fields.subject, "subject")
        && is_text(fields.old_provider, "old")
        && is_text(fields.new_provider, "new")
        && is_text(fields.due, "due")
        && is_text(fields.lrn, "lrn")
        && is_text(fields.cic, "cic")
        && is_text(fields.flag, "flag")
}

/// Returns whether a row is the header of a bulk file.
pub fn is_header(row: &ByteRecord) -> bool
    ensures { IsTrue result ↔ (fields_of row.now ≡ header) }
{
    match Fields::of(row) {
        Some(fields) => are_names(&fields),
        None => false,
    }
}
