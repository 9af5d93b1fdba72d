//! Finds the mistakes of rows: which field is not as its column wants.
ghost use Rattle.std.specs.Prelude.{◌≡◌, ◌≢◌, ◌↔◌, IfNone, IfSome, IsTrue, None, Some};
ghost use Rattle.csv.specs.Records.{fields_of};
ghost use Rattle.bulk.specs.Mistakes.{HasHeaderMistake, HasMistake, IsAs, cic_wanted, column_name, due_wanted, field_in, flag_wanted, lrn_wanted, provider_wanted, wanted, wanted_by};
ghost use Rattle.bulk.specs.Requests.{EncodesRequest, ParsesRow, header};
ghost use Rattle.bulk.specs.declared.mistake.Column.{Column as ColumnImpl};
ghost use Rattle.bulk.specs.declared.request.BulkRequest.{BulkRequest as BulkRequestImpl};

use crate::copy::subject_in;
use crate::fields::{
    FIELD_COUNT, Fields, action_in, flag_in, is_text, lrn_in, minute_in, numbers_in,
    optional_cic_in, optional_minute_in, spid_in,
};
use crate::request::ActionName;
use csv::ByteRecord;

/// A column of a bulk file. A copy has three of them: the subject, the LRN and the CIC.
#[derive(Clone, Copy, Debug, PartialEq, Eq)]
pub enum Column {
    Caller,
    Action,
    Subject,
    OldProvider,
    NewProvider,
    Due,
    Lrn,
    Cic,
    Flag,
}

/// What a field should be.
#[derive(Clone, Copy, Debug, PartialEq, Eq)]
pub enum Expected {
    /// The name of its column.
    Name,
    /// The name of an action.
    Action,
    Carrier,
    /// A telephone number, or a range of at most a thousand numbers of one code.
    Numbers,
    /// A telephone number or a block.
    Subject,
    Minute,
    MinuteIfAny,
    Lrn,
    CicIfAny,
    /// `yes` or `no`.
    Flag,
    Nothing,
}

/// A mistake of a row.
#[derive(Clone, Copy, Debug)]
pub enum RowMistake<'a> {
    /// The row has another number of fields than is expected.
    FieldCount {
        found: usize,
        expected: usize,
    },
    /// The field in this column is not as expected.
    Field {
        column: Column,
        field: &'a [u8],
        expected: Expected,
    },
}

impl Column {
    /// Returns the name in the header.
    pub fn name(self) -> &'static str
        ensures { result.now ≡ column_name self }
    {
        match self {
            Column::Caller => "caller",
            Column::Action => "action",
            Column::Subject => "subject",
            Column::OldProvider => "old",
            Column::NewProvider => "new",
            Column::Due => "due",
            Column::Lrn => "lrn",
            Column::Cic => "cic",
            Column::Flag => "flag",
        }
    }
}

// Returns what an action wants of the columns old and new.
fn provider_wanted(action: ActionName) -> Expected
    ensures { result ≡ provider_wanted action }
{
    match action {
        ActionName::OldProviderCreate | ActionName::NewProviderCreate => Expected::Carrier,
        _ => Expected::Nothing,
    }
}

fn due_wanted(action: ActionName) -> Expected
    ensures { result ≡ due_wanted action }
{
    match action {
        ActionName::OldProviderCreate | ActionName::NewProviderCreate => Expected::Minute,
        ActionName::Disconnect => Expected::MinuteIfAny,
        _ => Expected::Nothing,
    }
}

fn lrn_wanted(action: ActionName) -> Expected
    ensures { result ≡ lrn_wanted action }
{
    match action {
        ActionName::NewProviderCreate | ActionName::ModifyRouting => Expected::Lrn,
        _ => Expected::Nothing,
    }
}

fn cic_wanted(action: ActionName) -> Expected
    ensures { result ≡ cic_wanted action }
{
    match action {
        ActionName::NewProviderCreate | ActionName::ModifyRouting => Expected::CicIfAny,
        _ => Expected::Nothing,
    }
}

fn flag_wanted(action: ActionName) -> Expected
    ensures { result ≡ flag_wanted action }
{
    match action {
        ActionName::OldProviderCreate => Expected::Flag,
        _ => Expected::Nothing,
    }
}

// Returns what a row of this action wants of a column.
fn wanted_by(action: ActionName, column: Column) -> Expected
    ensures { result ≡ wanted_by action column }
{
    match column {
        Column::Caller => Expected::Carrier,
        Column::Action => Expected::Action,
        Column::Subject => Expected::Numbers,
        Column::OldProvider | Column::NewProvider => provider_wanted(action),
        Column::Due => due_wanted(action),
        Column::Lrn => lrn_wanted(action),
        Column::Cic => cic_wanted(action),
        Column::Flag => flag_wanted(action),
    }
}

// Returns what a row of this action wants of a column, or for none what the header wants.
fn wanted(action: Option<ActionName>, column: Column) -> Expected
    ensures { result ≡ wanted action column }
{
    match action {
        Some(action) => wanted_by(action, column),
        None => Expected::Name,
    }
}

/// Returns whether a field of the column is as expected.
pub fn is_as(column: Column, expected: Expected, field: &[u8]) -> bool
    ensures { IsTrue result ↔ IsAs column expected field.now }
{
    match expected {
        Expected::Name => is_text(field, column.name()),
        Expected::Action => action_in(field).is_some(),
        Expected::Carrier => spid_in(field).is_some(),
        Expected::Numbers => numbers_in(field).is_some(),
        Expected::Subject => subject_in(field).is_some(),
        Expected::Minute => minute_in(field).is_some(),
        Expected::MinuteIfAny => optional_minute_in(field).is_some(),
        Expected::Lrn => lrn_in(field).is_some(),
        Expected::CicIfAny => optional_cic_in(field).is_some(),
        Expected::Flag => flag_in(field).is_some(),
        Expected::Nothing => field.is_empty(),
    }
}

// Returns the field in a column.
fn field_in<'a>(fields: &Fields<'a>, column: Column) -> &'a [u8]
    ensures { result.now ≡ field_in fields.now column }
{
    match column {
        Column::Caller => fields.caller,
        Column::Action => fields.action,
        Column::Subject => fields.subject,
        Column::OldProvider => fields.old_provider,
        Column::NewProvider => fields.new_provider,
        Column::Due => fields.due,
        Column::Lrn => fields.lrn,
        Column::Cic => fields.cic,
        Column::Flag => fields.flag,
    }
}

// Returns whether the field in a column is as a row of this action wants, or for none the header.
fn fits(fields: &Fields<'_>, action: Option<ActionName>, column: Column) -> bool
    ensures { IsTrue result ↔ IsAs column (wanted action column) (field_in fields.now column) }
{
    is_as(column, wanted(action, column), field_in(fields, column))
}

// Returns the first column whose field is not as wanted.
fn first_misfit(fields: &Fields<'_>, action: Option<ActionName>) -> Option<Column>
    ensures some { IfSome result (λ column.
        ¬ (IsAs column (wanted action column) (field_in fields.now column))) }
    ensures none { IfNone result ((column : ColumnImpl)
        → IsAs column (wanted action column) (field_in fields.now column)) }
{
    if !fits(fields, action, Column::Caller) {
        Some(Column::Caller)
    } else if !fits(fields, action, Column::Action) {
        Some(Column::Action)
    } else if !fits(fields, action, Column::Subject) {
        Some(Column::Subject)
    } else if !fits(fields, action, Column::OldProvider) {
        Some(Column::OldProvider)
    } else if !fits(fields, action, Column::NewProvider) {
        Some(Column::NewProvider)
    } else if !fits(fields, action, Column::Due) {
        Some(Column::Due)
    } else if !fits(fields, action, Column::Lrn) {
        Some(Column::Lrn)
    } else if !fits(fields, action, Column::Cic) {
        Some(Column::Cic)
    } else if !fits(fields, action, Column::Flag) {
        Some(Column::Flag)
    } else {
        None
    }
}

/// Returns the mistake of a bulk file's row, or `None` if the row encodes a request. The mistake is
/// another number of fields than nine, an unknown action, or the first field that is not as its
/// action wants.
pub fn mistake_in(row: &ByteRecord) -> Option<RowMistake<'_>>
    ensures some { IfSome result (λ mistake. HasMistake (fields_of row.now) mistake
        × ParsesRow (fields_of row.now) None) }
    ensures none { IfNone result ((request : BulkRequestImpl)
        × EncodesRequest (fields_of row.now) request) }
{
    let Some(fields) = Fields::of(row) else {
        return Some(RowMistake::FieldCount {
            found: row.len(),
            expected: FIELD_COUNT,
        });
    };
    let Some(action) = action_in(fields.action) else {
        return Some(RowMistake::Field {
            column: Column::Action,
            field: fields.action,
            expected: Expected::Action,
        });
    };
    let column = first_misfit(&fields, Some(action))?;
    Some(RowMistake::Field {
        column,
        field: field_in(&fields, column),
        expected: wanted_by(action, column),
    })
}

/// Returns the mistake of a bulk file's first row, or `None` if the row is the header: another
/// number of fields than nine, or the first column with another name.
#[tactic(auto, using(crate::proofs::Mistaken::not_nine))]
pub fn header_mistake_in(row: &ByteRecord) -> Option<RowMistake<'_>>
    ensures some { IfSome result (λ mistake. HasHeaderMistake (fields_of row.now) mistake
        × (fields_of row.now ≢ header)) }
    ensures none { IfNone result (fields_of row.now ≡ header) }
{
    let Some(fields) = Fields::of(row) else {
        return Some(RowMistake::FieldCount {
            found: row.len(),
            expected: FIELD_COUNT,
        });
    };
    let column = first_misfit(&fields, None)?;
    Some(RowMistake::Field {
        column,
        field: field_in(&fields, column),
        expected: Expected::Name,
    })
}
