//! Finds the mistakes of a copy's rows.
ghost use Rattle.std.specs.Prelude.{◌≡◌, ◌≢◌, IfNone, IfSome};
ghost use Rattle.csv.specs.Records.{fields_of};
ghost use Rattle.delivery.specs.declared.mirror.RoutedRow.{RoutedRow as RoutedRowImpl};
ghost use Rattle.bulk.specs.Audits.{IsEntry, IsNoEntry, copy_header};
ghost use Rattle.bulk.specs.CopyMistakes.{HasCopyMistake, IsRowAs, entry_wants, header_wants};

use crate::copy::{FIELD_COUNT, entry_fields};
use crate::mistake::{Column, Expected, RowMistake, is_as};
use csv::ByteRecord;

/// What is expected of the three columns of a copy.
#[derive(Clone, Copy, Debug, PartialEq, Eq)]
pub struct EntryWants {
    pub subject: Expected,
    pub lrn: Expected,
    pub cic: Expected,
}

/// What is expected of the header.
const HEADER: EntryWants = EntryWants {
    subject: Expected::Name,
    lrn: Expected::Name,
    cic: Expected::Name,
};

/// What is expected of an entry.
const ENTRY: EntryWants = EntryWants {
    subject: Expected::Subject,
    lrn: Expected::Lrn,
    cic: Expected::CicIfAny,
};

// Returns the mistake of a row: another number of fields than three, or the first field that is not
// as wanted.
fn mistake_of(row: &ByteRecord, wants: EntryWants) -> Option<RowMistake<'_>>
    ensures some { IfSome result (HasCopyMistake wants (fields_of row.now)) }
    ensures none { IfNone result (IsRowAs wants (fields_of row.now)) }
{
    let Some(fields) = entry_fields(row) else {
        return Some(RowMistake::FieldCount {
            found: row.len(),
            expected: FIELD_COUNT,
        });
    };
    if !is_as(Column::Subject, wants.subject, fields.subject) {
        return Some(RowMistake::Field {
            column: Column::Subject,
            field: fields.subject,
            expected: wants.subject,
        });
    }
    if !is_as(Column::Lrn, wants.lrn, fields.lrn) {
        return Some(RowMistake::Field {
            column: Column::Lrn,
            field: fields.lrn,
            expected: wants.lrn,
        });
    }
    if !is_as(Column::Cic, wants.cic, fields.cic) {
        return Some(RowMistake::Field {
            column: Column::Cic,
            field: fields.cic,
            expected: wants.cic,
        });
    }
    None
}

/// Returns the mistake of a copy's row, or `None` if the row encodes an entry: another number of
/// fields than three, or the first field that is not as expected.
pub fn entry_mistake_in(row: &ByteRecord) -> Option<RowMistake<'_>>
    ensures some { IfSome result (λ mistake. HasCopyMistake entry_wants (fields_of row.now) mistake
        × IsNoEntry (fields_of row.now)) }
    ensures none { IfNone result ((entry : RoutedRowImpl) × IsEntry (fields_of row.now) entry) }
{
    mistake_of(row, ENTRY)
}

/// Returns the mistake of a copy's first row, or `None` if the row is the header: another number of
/// fields than three, or the first column with another name.
pub fn copy_header_mistake_in(row: &ByteRecord) -> Option<RowMistake<'_>>
    ensures some { IfSome result (λ mistake. HasCopyMistake header_wants (fields_of row.now) mistake
        × (fields_of row.now ≢ copy_header)) }
    ensures none { IfNone result (fields_of row.now ≡ copy_header) }
{
    mistake_of(row, HEADER)
}
