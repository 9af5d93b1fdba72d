//! Reads a carrier's copy: a file in the format of an export.
ghost use Rattle.std.specs.Prelude.{◌≡◌, ◌≢◌, ◌⊎◌, ◌↔◌, ◌∷◌, [], ℕ, IsTrue, IfSome, IfNone, IfOk, IfErr, List, OnOk, length};
ghost use Rattle.csv.specs.Records.{fields_of};
ghost use Rattle.numbers.specs.Digits.{IsBlock, IsTn};
ghost use Rattle.numbers.specs.Texts.{block_text, lrn_text, subject_text};
ghost use Rattle.numbers.specs.Abstraction.{subject_of};
ghost use Rattle.numbers.specs.declared.ported.Subject.{Subject as SubjectImpl};
ghost use Rattle.delivery.specs.declared.mirror.RoutedRow.{RoutedRow as RoutedRowImpl};
ghost use Rattle.bulk.specs.Audits.{AreEntries, HasNoEntry, IsEntry, IsNoEntry, IsNotRead, copy_header};
ghost use Rattle.bulk.specs.Faults.{IsUnread};
ghost use Rattle.bulk.specs.Rows.{Row, HasRows, IsPlain};

use crate::copy_mistake::{copy_header_mistake_in, entry_mistake_in};
use crate::fault::FaultKind;
use crate::fields::{is_text, lrn_in, optional_cic_in, text_in, tn_in};
use crate::rows::{first_row, next_row};
use crate::watching::{RowWatcher, note_mistake};
use csv::{ByteRecord, Reader};
use delivery::RoutedRow;
use numbers::{BlockId, Routing, Subject};
use std::alloc::Global;
use std::io::Read;

/// The number of fields of a row.
pub const FIELD_COUNT: usize = 3;

/// The fields of a row.
#[derive(Clone, Copy, Debug)]
pub struct EntryFields<'a> {
    pub subject: &'a [u8],
    pub lrn: &'a [u8],
    pub cic: &'a [u8],
}

fn has_entry_count(row: &ByteRecord) -> bool
    ensures { IsTrue result ↔ (length (fields_of row.now) ≡ 3) }
{
    row.len() == FIELD_COUNT
}

/// Returns the fields of a row with three fields.
#[tactic(auto, using(crate::proofs::FieldLemmas::missing_field))]
pub fn entry_fields(row: &ByteRecord) -> Option<EntryFields<'_>>
    ensures some { IfSome result (λ fields.
        fields_of row.now ≡ fields.subject.now ∷ fields.lrn.now ∷ fields.cic.now ∷ []) }
    ensures none { IfNone result (length (fields_of row.now) ≢ 3) }
{
    if !has_entry_count(row) {
        return None;
    }
    Some(EntryFields {
        subject: row.get(0)?,
        lrn: row.get(1)?,
        cic: row.get(2)?,
    })
}

fn block_in(field: &[u8]) -> Option<BlockId>
    ensures some { IfSome result (λ block. field.now ≡ block_text block.number) }
    ensures none { IfNone result ((n : ℕ) → IsBlock n → field.now ≢ block_text n) }
{
    BlockId::read(text_in(field)?)
}

/// Returns the number or the block in a field.
pub fn subject_in(field: &[u8]) -> Option<Subject>
    ensures some { IfSome result (λ subject. field.now ≡ subject_text (subject_of subject)) }
    ensures none { IfNone result ((subject : SubjectImpl)
        → field.now ≢ subject_text (subject_of subject)) }
{
    match tn_in(field) {
        Some(tn) => Some(Subject::Number(tn)),
        None => Some(Subject::Block(block_in(field)?)),
    }
}

// Returns the entry that a row encodes, if it is one.
fn entry_in(row: &ByteRecord) -> Option<RoutedRow>
    ensures some { IfSome result (IsEntry (fields_of row.now)) }
    ensures none { IfNone result (IsNoEntry (fields_of row.now)) }
{
    let fields = entry_fields(row)?;
    Some(RoutedRow {
        subject: subject_in(fields.subject)?,
        routing: Routing {
            lrn: lrn_in(fields.lrn)?,
            cic: optional_cic_in(fields.cic)?,
        },
    })
}

#[tactic(auto, unfolding(crate::specs::Audits::copy_header))]
fn are_copy_names(fields: &EntryFields) -> bool
    ensures { IsTrue result ↔ (fields.now.subject.now ∷ fields.now.lrn.now ∷ fields.now.cic.now
        ∷ [] ≡ copy_header) }
{
    is_text(fields.subject, "subject") && is_text(fields.lrn, "lrn") && is_text(fields.cic, "cic")
}

/// Returns whether a row is the header of a copy.
pub fn is_copy_header(row: &ByteRecord) -> bool
    ensures { IsTrue result ↔ (fields_of row.now ≡ copy_header) }
{
    match entry_fields(row) {
        Some(fields) => are_copy_names(&fields),
        None => false,
    }
}

// Reads the header of a copy.
fn read_copy_header<R: Read, N: RowWatcher>(
    alloc: Global,
    reader: &mut Reader<R>,
    watcher: &mut N,
) -> Result<(), FaultKind>
    requires { IsPlain reader.old }
    ensures plain { OnOk result (IsPlain reader.new) }
    ensures header { OnOk result ((rows : List Row) → HasRows R.remaining reader.old rows
        → (others : List Row) × (rows ≡ copy_header ∷ others)
        × HasRows R.remaining reader.new others) }
    ensures other { IfErr result (λ kind. ((kind ≡ FaultKind.BadHeader)
        × ((rows : List Row) → HasRows R.remaining reader.old rows
        → (others : List Row) → rows ≢ copy_header ∷ others))
        ⊎ IsUnread kind) }
{
    let row = first_row(alloc, reader)?;
    if is_copy_header(&row) {
        Ok(())
    } else {
        note_mistake(watcher, 0, &row, copy_header_mistake_in(&row));
        Err(FaultKind::BadHeader)
    }
}

// Returns the entry that a row encodes, and notes the row with the watcher.
fn watched_entry<N: RowWatcher>(number: u64, row: &ByteRecord, watcher: &mut N) -> Option<RoutedRow>
    ensures some { IfSome result (IsEntry (fields_of row.now)) }
    ensures none { IfNone result (IsNoEntry (fields_of row.now)) }
{
    watcher.row(number);
    let entry = entry_in(row);
    if entry.is_none() {
        note_mistake(watcher, number, row, entry_mistake_in(row));
    }
    entry
}

// The most rows of a copy.
const MOST_ROWS: u64 = 1 << 50;

// Reads the rows after the header.
fn read_entries<R: Read, N: RowWatcher>(
    alloc: Global,
    reader: &mut Reader<R>,
    watcher: &mut N,
) -> Result<Vec<RoutedRow>, FaultKind>
    requires { IsPlain reader.old }
    ensures entries { IfOk result (λ entries. (rows : List Row)
        → HasRows R.remaining reader.old rows → AreEntries rows entries.items) }
    ensures other { IfErr result (λ kind. ((kind ≡ FaultKind.BadFile)
        × ((rows : List Row) → HasRows R.remaining reader.old rows → HasNoEntry rows))
        ⊎ IsUnread kind) }
{
    let mut entries = Vec::new(alloc);
    let mut raw = ByteRecord::new(alloc);
    for row in 1..MOST_ROWS {
        match next_row(reader, &mut raw) {
            Ok(true) => match watched_entry(row, &raw, watcher) {
                Some(entry) => match entries.push(entry) {
                    Ok(()) => {}
                    Err(_) => return Err(FaultKind::NoMemory),
                },
                None => return Err(FaultKind::BadFile),
            },
            Ok(false) => return Ok(entries),
            Err(kind) => return Err(kind),
        }
    }
    Err(FaultKind::NoMemory)
}

/// Reads a copy: the header `subject,lrn,cic`, then the routing of each subject, in any order. Does
/// not detect duplicate subjects. Notes each row with the watcher, and again if it is bad.
///
/// # Errors
///
/// - `BadHeader` if the first row is not the header.
/// - `BadFile` if another row is not an entry.
/// - `Read` if the reader fails, `NoMemory` if an allocation fails.
pub fn read_copy<R: Read, N: RowWatcher>(
    alloc: Global,
    reader: &mut Reader<R>,
    watcher: &mut N,
) -> Result<Vec<RoutedRow>, FaultKind>
    requires { IsPlain reader.old }
    ensures copy { IfOk result (λ entries. (rows : List Row)
        → HasRows R.remaining reader.old rows
        → (others : List Row) × (rows ≡ copy_header ∷ others) × AreEntries others entries.items) }
    ensures other { IfErr result (λ kind. (rows : List Row)
        → HasRows R.remaining reader.old rows → IsNotRead kind rows) }
    ensures kinds { IfErr result (λ kind. kind ≢ FaultKind.Storage) }
{
    read_copy_header(alloc, reader, watcher)?;
    read_entries(alloc, reader, watcher)
}
