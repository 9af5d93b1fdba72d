//! Words for rows of files that are refused.
ghost use Rattle.std.specs.Prelude.{◌≡◌, ◌++◌, IfOk, OnOk, map, string_bytes, take};
ghost use Rattle.cli.specs.RowWords.{duplicate_words, expected_words, mistake_words, row_name, shown_byte, shown_field};

use bulk::{Expected, RowMistake};
use numbers::Subject;
use std::alloc::{AllocError, Global};

// How many bytes of a field are shown.
const SHOWN: usize = 40;

// Returns the character that shows a byte: itself if it is printable ASCII, otherwise `?`.
fn shown_byte(byte: u8) -> char
    ensures { result ≡ shown_byte byte }
{
    if byte >= 32 && byte < 127 {
        char::from(byte)
    } else {
        '?'
    }
}

// Appends the characters that show these bytes.
fn push_shown(text: &mut String, bytes: &[u8]) -> Result<(), AllocError>
    ensures { OnOk result
        (string_bytes text.new ≡ string_bytes text.old ++ map shown_byte bytes.now) }
{
    for byte in bytes {
        text.push(shown_byte(*byte))?;
    }
    Ok(())
}

// Returns the first bytes of a field, at most as many as are shown.
fn shown_part(field: &[u8]) -> &[u8]
    ensures { result.now ≡ take 40 field.now }
{
    if field.len() > SHOWN {
        &field[..SHOWN]
    } else {
        field
    }
}

// Returns the text that shows a field: printable ASCII, cut after forty bytes.
fn shown_field(alloc: Global, field: &[u8]) -> Result<String, AllocError>
    ensures { IfOk result (λ text. string_bytes text ≡ shown_field field.now) }
{
    let mut text = String::new(alloc);
    if field.is_empty() {
        text.push_str("empty")?;
        return Ok(text);
    }
    push_shown(&mut text, shown_part(field))?;
    if field.len() > SHOWN {
        text.push_str("...")?;
    }
    Ok(text)
}

// Returns the words for what is expected of a field.
fn expected_words(expected: Expected) -> &'static str
    ensures { result.now ≡ expected_words expected }
{
    match expected {
        Expected::Name => "the name of the column is expected",
        Expected::Action => "an action is expected, as subscriptionVersionActivate",
        Expected::Carrier => "four capital letters or digits are expected",
        Expected::Numbers => {
            "a number is expected, of ten digits, the first and the fourth 2 to 9, or a range of one code"
        }
        Expected::Subject =>
            "a number of ten digits or a block of seven is expected, the first and the fourth 2 to 9",
        Expected::Minute => "a minute is expected, in digits without leading zeros",
        Expected::MinuteIfAny => {
            "a minute is expected, in digits without leading zeros, or nothing"
        }
        Expected::Lrn => "ten digits are expected",
        Expected::CicIfAny => "four digits are expected, or nothing",
        Expected::Flag => "yes or no is expected",
        Expected::Nothing => "nothing is expected here of this action",
    }
}

/// Returns the words for a mistake of a row.
///
/// # Errors
///
/// `AllocError` if an allocation fails.
pub(crate) fn mistake_words(alloc: Global, mistake: &RowMistake<'_>) -> Result<String, AllocError>
    ensures { IfOk result (λ text. string_bytes text ≡ mistake_words mistake.now) }
{
    match *mistake {
        RowMistake::FieldCount { found, expected } => {
            format!(in alloc; "fields are {found}: {expected} are expected")
        }
        RowMistake::Field {
            column,
            field,
            expected,
        } => {
            let name = column.name();
            let text = shown_field(alloc, field)?;
            let text = text.as_str();
            let words = expected_words(expected);
            format!(in alloc; "{name} is {text}: {words}")
        }
    }
}

/// Returns the name of a row: the header, or the row's number, and the line of the file where it
/// begins.
///
/// # Errors
///
/// `AllocError` if an allocation fails.
pub(crate) fn row_name(alloc: Global, row: u64, line: Option<u64>) -> Result<String, AllocError>
    ensures { IfOk result (λ text. string_bytes text ≡ row_name row line) }
{
    match (row, line) {
        (0, _) => format!(in alloc; "the header"),
        (_, Some(line)) => format!(in alloc; "row {row}, line {line}"),
        (_, None) => format!(in alloc; "row {row}"),
    }
}

/// Returns the words for a subject that a copy has in two rows.
///
/// # Errors
///
/// `AllocError` if an allocation fails.
pub(crate) fn duplicate_words(alloc: Global, subject: Subject) -> Result<String, AllocError>
    ensures { IfOk result (λ text. string_bytes text ≡ duplicate_words subject) }
{
    match subject {
        Subject::Number(tn) => {
            let number = tn.number;
            format!(in alloc; "the number {number} is in two rows")
        }
        Subject::Block(block) => {
            let number = block.number;
            format!(in alloc; "the block {number} is in two rows")
        }
    }
}
