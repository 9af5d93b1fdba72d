//! Reads stored values as values of rows. A value that is not of its column's type reads as `None`.
ghost use Rattle.std.specs.Prelude.{◌≡◌, ◌<◌, ◌+◌, ◌*◌, option_map, IfSome};
ghost use Rattle.sqlite.specs.Order.{column};
ghost use Rattle.sqlite.specs.Ops.{is_null};
ghost use Rattle.numbers.specs.Abstraction.{subject_of, routing_of, minute_of};
ghost use Rattle.numbers.specs.Spids.{is_spid_character};
ghost use Rattle.settle.specs.Abstraction.{spid_of, lrn_of, code_of, block_of};
ghost use Rattle.model.specs.Abstraction.{send_of, status_of};
ghost use Rattle.sql_rows.specs.Values.{number_in, minute_in, lrn_in, code_from, code_in, block_from, block_in, cic_in, bool_in, subject_from, subject_in, spid_from, spid_in, found_in, is_int, only_in, window_in, set_number_in, or_null_in, is_word, action_in, send_in, side_in, status_in, routing_in};

use crate::values::{not_found, subject_number};
use model::{Action, Send, Side, Status};
use numbers::{BlockId, Cic, CodeId, Lrn, Minute, Routing, Spid, Subject, Tn};
use sqlite::Row;
use sqlite::types::ValueRef;
use windows::Window;

pub fn number_at(row: &Row, at: usize) -> Option<u64>
    ensures value { result ≡ number_in (column row.now at) }
    ensures small { IfSome result (λ n. n < 9223372036854775808) }
{
    match row.get_ref(at) {
        Ok(ValueRef::Int(n)) => u64::try_from(n).ok(),
        _ => None,
    }
}

pub fn minute_at(row: &Row, at: usize) -> Option<Minute>
    ensures { option_map minute_of result ≡ minute_in (column row.now at) }
{
    let number = number_at(row, at)?;
    if number < 1_099_511_627_776 {
        Some(Minute { number })
    } else {
        None
    }
}

pub fn is_null(row: &Row, at: usize) -> bool
    ensures { result ≡ is_null (column row.now at) }
{
    matches!(row.get_ref(at), Ok(ValueRef::Null) | Err(_))
}

pub fn number_or_null_at(row: &Row, at: usize) -> Option<Option<u64>>
    ensures { result ≡ or_null_in number_in (column row.now at) }
{
    if is_null(row, at) {
        return Some(None);
    }
    Some(Some(number_at(row, at)?))
}

pub fn minute_or_null_at(row: &Row, at: usize) -> Option<Option<Minute>>
    ensures { option_map (option_map minute_of) result ≡ or_null_in minute_in (column row.now at) }
{
    if is_null(row, at) {
        return Some(None);
    }
    Some(Some(minute_at(row, at)?))
}

pub fn window_at(row: &Row, at: usize) -> Option<Window>
    ensures { option_map (λ (w : Window). w.minutes) result ≡ window_in (column row.now at) }
{
    let number = number_at(row, at)?;
    if 0 < number && number <= 525_600 {
        Some(Window {
            minutes: number as u32,
        })
    } else {
        None
    }
}

/// Reads the number of a set of windows: 1 to 1,000.
pub fn set_number_at(row: &Row, at: usize) -> Option<u16>
    ensures { result ≡ set_number_in (column row.now at) }
{
    let number = number_at(row, at)?;
    if 0 < number && number <= 1000 {
        Some(number as u16)
    } else {
        None
    }
}

pub fn bool_at(row: &Row, at: usize) -> Option<bool>
    ensures { result ≡ bool_in (column row.now at) }
{
    let number = number_at(row, at)?;
    if number < 1 {
        Some(false)
    } else if number < 2 {
        Some(true)
    } else {
        None
    }
}

fn subject_from(number: u64) -> Option<Subject>
    ensures { option_map subject_of result ≡ subject_from number }
{
    if number < 10_000_000 {
        if 2 <= number / 1_000_000 && 2 <= number / 1000 % 10 {
            Some(Subject::Block(BlockId {
                number: number as u32,
            }))
        } else {
            None
        }
    } else if number < 10_000_000_000
        && 2 <= number / 1_000_000_000
        && 2 <= number / 1_000_000 % 10
    {
        Some(Subject::Number(Tn { number }))
    } else {
        None
    }
}

pub fn subject_at(row: &Row, at: usize) -> Option<Subject>
    ensures { option_map subject_of result ≡ subject_in (column row.now at) }
{
    subject_from(number_at(row, at)?)
}

fn is_int(row: &Row, at: usize, number: i64) -> bool
    ensures { result ≡ is_int number (column row.now at) }
{
    match row.get_ref(at) {
        Ok(ValueRef::Int(n)) => n == number,
        _ => false,
    }
}

/// Reads the number of the only row of its table, which is 0.
pub fn only_at(row: &Row, at: usize) -> Option<u64>
    ensures { result ≡ only_in (column row.now at) }
{
    if is_int(row, at, 0) { Some(0) } else { None }
}

/// Reads whether the row with the id is found by its subject in this column. The column has the
/// subject if so, and otherwise `not_found(id)`.
pub fn found_at(row: &Row, at: usize, id: u64, subject: Subject) -> Option<bool>
    requires { id < 9223372036854775808 }
    ensures { result ≡ found_in id (subject_of subject) (column row.now at) }
{
    if is_int(row, at, not_found(id)) {
        Some(false)
    } else if is_int(row, at, subject_number(subject) as i64) {
        Some(true)
    } else {
        None
    }
}

fn is_character(byte: u8) -> bool
    ensures { result ≡ is_spid_character byte }
{
    matches!(byte, b'A'..=b'Z' | b'0'..=b'9')
}

// Returns the number made of four bytes, `a` the highest.
fn number_of(a: u8, b: u8, c: u8, d: u8) -> u32
    ensures { result ≡ a * 16777216 + b * 65536 + c * 256 + d }
{
    u32::from_be_bytes([a, b, c, d])
}

fn spid_from(bytes: &[u8]) -> Option<Spid>
    ensures { option_map spid_of result ≡ spid_from bytes.now }
{
    match bytes {
        [a, b, c, d]
            if is_character(*a) && is_character(*b) && is_character(*c) && is_character(*d) => {
            Some(Spid {
                number: number_of(*a, *b, *c, *d),
            })
        }
        _ => None,
    }
}

pub fn spid_at(row: &Row, at: usize) -> Option<Spid>
    ensures { option_map spid_of result ≡ spid_in (column row.now at) }
{
    match row.get_ref(at) {
        Ok(ValueRef::Text(bytes)) => spid_from(bytes),
        _ => None,
    }
}

fn is_word(row: &Row, at: usize, word: &[u8]) -> bool
    ensures { result ≡ is_word word.now (column row.now at) }
{
    match row.get_ref(at) {
        Ok(ValueRef::Text(bytes)) => bytes == word,
        _ => false,
    }
}

pub fn action_at(row: &Row, at: usize) -> Option<Action>
    ensures { result ≡ action_in (column row.now at) }
{
    if is_word(row, at, b"create") {
        Some(Action::Create)
    } else if is_word(row, at, b"delete") {
        Some(Action::Delete)
    } else if is_word(row, at, b"modify") {
        Some(Action::Modify)
    } else {
        None
    }
}

// Reads what a version with the routing `own` sends. A modify is read as one to `own`.
fn send_at(row: &Row, at: usize, own: Option<Routing>) -> Option<Send>
    ensures { option_map send_of result
        ≡ send_in (option_map routing_of own) (column row.now at) }
{
    if is_word(row, at, b"create") {
        return Some(Send::Create);
    }
    if is_word(row, at, b"delete") {
        return Some(Send::Delete);
    }
    if is_word(row, at, b"modify") {
        return Some(Send::Modify(own?));
    }
    None
}

fn side_at(row: &Row, at: usize) -> Option<Side>
    ensures { result ≡ side_in (column row.now at) }
{
    if is_word(row, at, b"old") {
        Some(Side::OldProvider)
    } else if is_word(row, at, b"new") {
        Some(Side::NewProvider)
    } else {
        None
    }
}

/// Reads a status from four columns, of a version with the routing `own`.
pub fn status_at(
    row: &Row,
    at: usize,
    sends: usize,
    release: usize,
    by: usize,
    own: Option<Routing>,
) -> Option<Status>
    ensures { option_map status_of result ≡ status_in (option_map routing_of own)
        (column row.now at) (column row.now sends) (column row.now release) (column row.now by) }
{
    if is_word(row, at, b"pending") {
        return Some(Status::Pending);
    }
    if is_word(row, at, b"conflict") {
        return Some(Status::Conflict);
    }
    if is_word(row, at, b"cancel-pending") {
        return Some(Status::CancelPending(side_at(row, by)?));
    }
    if is_word(row, at, b"sending") {
        return Some(Status::from(send_at(row, sends, own)?));
    }
    if is_word(row, at, b"active") {
        return Some(Status::Active);
    }
    if is_word(row, at, b"partial-failure") {
        return Some(Status::PartialFailure);
    }
    if is_word(row, at, b"failed") {
        return Some(Status::Failed);
    }
    if is_word(row, at, b"disconnect-pending") {
        return Some(Status::DisconnectPending(minute_at(row, release)?));
    }
    if is_word(row, at, b"old") {
        return Some(Status::Old);
    }
    if is_word(row, at, b"canceled") {
        return Some(Status::Canceled);
    }
    None
}

pub fn lrn_at(row: &Row, at: usize) -> Option<Lrn>
    ensures { option_map lrn_of result ≡ lrn_in (column row.now at) }
{
    let number = number_at(row, at)?;
    if number < 10_000_000_000 {
        Some(Lrn { number })
    } else {
        None
    }
}

fn code_from(number: u64) -> Option<CodeId>
    ensures { option_map code_of result ≡ code_from number }
{
    if number < 1_000_000 && 2 <= number / 100_000 && 2 <= number / 100 % 10 {
        Some(CodeId {
            number: number as u32,
        })
    } else {
        None
    }
}

pub fn code_at(row: &Row, at: usize) -> Option<CodeId>
    ensures { option_map code_of result ≡ code_in (column row.now at) }
{
    code_from(number_at(row, at)?)
}

fn block_from(number: u64) -> Option<BlockId>
    ensures { option_map block_of result ≡ block_from number }
{
    if number < 10_000_000 && 2 <= number / 1_000_000 && 2 <= number / 1000 % 10 {
        Some(BlockId {
            number: number as u32,
        })
    } else {
        None
    }
}

pub fn block_at(row: &Row, at: usize) -> Option<BlockId>
    ensures { option_map block_of result ≡ block_in (column row.now at) }
{
    block_from(number_at(row, at)?)
}

fn cic_at(row: &Row, at: usize) -> Option<Cic>
    ensures { option_map (λ (c : Cic). c.number) result ≡ cic_in (column row.now at) }
{
    let number = number_at(row, at)?;
    if number < 10_000 {
        Some(Cic {
            number: number as u16,
        })
    } else {
        None
    }
}

fn cic_or_null_at(row: &Row, at: usize) -> Option<Option<Cic>>
    ensures { option_map (option_map (λ (c : Cic). c.number)) result ≡ or_null_in cic_in (column
        row.now at) }
{
    if is_null(row, at) {
        return Some(None);
    }
    Some(Some(cic_at(row, at)?))
}

pub fn routing_at(row: &Row, lrn: usize, cic: usize) -> Option<Option<Routing>>
    ensures { option_map (option_map routing_of) result ≡ routing_in (column row.now lrn) (column
        row.now cic) }
{
    if is_null(row, lrn) {
        return Some(None);
    }
    Some(Some(Routing {
        lrn: lrn_at(row, lrn)?,
        cic: cic_or_null_at(row, cic)?,
    }))
}
