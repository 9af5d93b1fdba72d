//! Values of rows as parameters of statements.
ghost use Rattle.std.specs.Prelude.{◌≡◌, ◌<◌, pos, negsuc, option_map, IfSome};
ghost use Rattle.sqlite.specs.declared.types.Value.TheVariants.{Int, Text};
ghost use Rattle.sqlite.specs.Value.{owned};
ghost use Rattle.sqlite.specs.Values.{or_null};
ghost use Rattle.numbers.specs.Texts.{spid_text};
ghost use Rattle.numbers.specs.Abstraction.{subject_of, routing_of, minute_of};
ghost use Rattle.model.specs.Abstraction.{status_of};
ghost use Rattle.sql_rows.specs.Values.{number_value, subject_number, subject_value, bool_value, lrn_value, cic_of, cic_value, status_word, action_word, sends_word, release_value, by_value, found_value};

use model::{Action, Side, Status};
use numbers::{Cic, Minute, Routing, Subject};
use sqlite::types::ValueRef;
use windows::Window;

/// Returns a number as an integer.
pub fn number(n: u64) -> ValueRef<'static>
    requires { n < 9223372036854775808 }
    ensures { owned result ≡ Int (pos n) }
{
    ValueRef::Int(n as i64)
}

/// Returns a minute as an integer.
pub fn minute(minute: Minute) -> ValueRef<'static>
    ensures { owned result ≡ number_value minute.number }
{
    number(minute.number)
}

pub fn number_or_null(number: Option<u64>) -> ValueRef<'static>
    requires { IfSome number (λ n. n < 9223372036854775808) }
    ensures { owned result ≡ or_null number_value number }
{
    match number {
        Some(n) => ValueRef::Int(n as i64),
        None => ValueRef::Null,
    }
}

pub fn window(window: Window) -> ValueRef<'static>
    ensures { owned result ≡ number_value window.minutes }
{
    number(u64::from(window.minutes))
}

pub fn minute_or_null(minute: Option<Minute>) -> ValueRef<'static>
    ensures { owned result ≡ or_null number_value (option_map minute_of minute) }
{
    match minute {
        Some(minute) => number(minute.number),
        None => ValueRef::Null,
    }
}

pub fn subject_number(subject: Subject) -> u64
    ensures value { result ≡ subject_number (subject_of subject) }
    ensures small { result < 9223372036854775808 }
{
    match subject {
        Subject::Number(tn) => tn.number,
        Subject::Block(block) => u64::from(block.number),
    }
}

/// Returns a subject as an integer: the seven digits of a block, or the ten of a number.
pub fn subject(subject: Subject) -> ValueRef<'static>
    ensures { owned result ≡ subject_value (subject_of subject) }
{
    number(subject_number(subject))
}

/// Returns the value of a subject column for a row that is not found by it. It is neither a
/// subject's number nor another row's value, so the column is unique without `NULL`.
pub fn not_found(id: u64) -> i64
    requires { id < 9223372036854775808 }
    ensures { result ≡ negsuc id }
{
    -1 - id as i64
}

/// Returns the value of a subject column: the subject if the row is found by it.
pub fn found(id: u64, given: Option<Subject>) -> ValueRef<'static>
    requires { id < 9223372036854775808 }
    ensures { owned result ≡ found_value id (option_map subject_of given) }
{
    match given {
        Some(given) => subject(given),
        None => ValueRef::Int(not_found(id)),
    }
}

/// Returns the four bytes of a provider, the highest first.
pub fn spid_bytes(number: u32) -> [u8; 4]
    ensures { result ≡ spid_text number }
{
    number.to_be_bytes()
}

/// Returns the bytes as a text.
pub fn text<'a>(bytes: &'a [u8; 4]) -> ValueRef<'a>
    ensures { owned result ≡ Text bytes.now }
{
    ValueRef::Text(bytes)
}

/// Returns 0 for false and 1 for true.
pub fn truth(is: bool) -> ValueRef<'static>
    ensures { owned result ≡ bool_value is }
{
    if is {
        ValueRef::Int(1)
    } else {
        ValueRef::Int(0)
    }
}

pub fn lrn(routing: Option<Routing>) -> ValueRef<'static>
    ensures { owned result ≡ lrn_value (option_map routing_of routing) }
{
    match routing {
        Some(routing) => number(routing.lrn.number),
        None => ValueRef::Null,
    }
}

fn cic_or_null(cic: Option<Cic>) -> ValueRef<'static>
    ensures { owned result ≡ cic_of (option_map (λ (c : Cic). c.number) cic) }
{
    match cic {
        Some(cic) => number(u64::from(cic.number)),
        None => ValueRef::Null,
    }
}

pub fn cic(routing: Option<Routing>) -> ValueRef<'static>
    ensures { owned result ≡ cic_value (option_map routing_of routing) }
{
    match routing {
        Some(routing) => cic_or_null(routing.cic),
        None => ValueRef::Null,
    }
}

pub fn status(status: Status) -> ValueRef<'static>
    ensures { owned result ≡ Text (status_word (status_of status)) }
{
    match status {
        Status::Pending => ValueRef::Text(b"pending"),
        Status::Conflict => ValueRef::Text(b"conflict"),
        Status::CancelPending(_) => ValueRef::Text(b"cancel-pending"),
        Status::SendingCreate | Status::SendingDelete | Status::SendingModify { .. } => {
            ValueRef::Text(b"sending")
        }
        Status::Active => ValueRef::Text(b"active"),
        Status::PartialFailure => ValueRef::Text(b"partial-failure"),
        Status::Failed => ValueRef::Text(b"failed"),
        Status::DisconnectPending(_) => ValueRef::Text(b"disconnect-pending"),
        Status::Old => ValueRef::Text(b"old"),
        Status::Canceled => ValueRef::Text(b"canceled"),
    }
}

pub fn action(action: Action) -> ValueRef<'static>
    ensures { owned result ≡ Text (action_word action) }
{
    match action {
        Action::Create => ValueRef::Text(b"create"),
        Action::Delete => ValueRef::Text(b"delete"),
        Action::Modify => ValueRef::Text(b"modify"),
    }
}

pub fn sends(status: Status) -> ValueRef<'static>
    ensures { owned result ≡ Text (sends_word (status_of status)) }
{
    match status.sends() {
        Some(send) => action(send.action()),
        None => ValueRef::Text(b"none"),
    }
}

pub fn release(status: Status) -> ValueRef<'static>
    ensures { owned result ≡ release_value (status_of status) }
{
    match status {
        Status::DisconnectPending(release) => number(release.number),
        _ => ValueRef::Null,
    }
}

pub fn cancelled_by(status: Status) -> ValueRef<'static>
    ensures { owned result ≡ by_value (status_of status) }
{
    match status {
        Status::CancelPending(Side::OldProvider) => ValueRef::Text(b"old"),
        Status::CancelPending(Side::NewProvider) => ValueRef::Text(b"new"),
        _ => ValueRef::Null,
    }
}
