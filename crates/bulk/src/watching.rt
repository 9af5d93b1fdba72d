//! Watches the rows of files while they are read or written.
ghost use Rattle.std.specs.Prelude.{◌≡◌};
ghost use Rattle.csv.specs.Records.{text_of};
ghost use Rattle.std.specs.List.{list_any};
ghost use Rattle.bulk.specs.Mistakes.{is_line_end};

use crate::mistake::RowMistake;
use csv::ByteRecord;
use numbers::Subject;

/// A row that is refused for its fields.
#[derive(Clone, Copy, Debug)]
pub struct BadRow<'a> {
    /// The row's number: 0 is the header, 1 the first row after it.
    pub row: u64,
    /// The line of the file where the row begins, counted from 1, if it is known.
    pub line: Option<u64>,
    /// Whether a field has more than one line, as after a lost quote.
    pub has_line_end: bool,
    pub mistake: RowMistake<'a>,
}

/// What watches the rows of a file. No contract depends on it.
pub trait RowWatcher {
    /// Notes that a row begins, or was written. The first after the header has the number 1.
    fn row(&mut self, row: u64);

    /// Notes a row that is refused for its fields.
    fn bad_row(&mut self, bad: &BadRow<'_>);

    /// Notes a subject that a copy has in two rows.
    fn duplicate(&mut self, subject: Subject);
}

/// The watcher that ignores each row.
#[derive(Clone, Copy, Debug)]
pub struct Unwatched;

impl RowWatcher for Unwatched {
    fn row(&mut self, _row: u64) {}

    fn bad_row(&mut self, _bad: &BadRow<'_>) {}

    fn duplicate(&mut self, _subject: Subject) {}
}

// Returns whether a byte of a row's fields ends a line.
fn has_line_end(raw: &ByteRecord) -> bool
    ensures { result ≡ list_any is_line_end (text_of raw.now) }
{
    raw.as_slice()
        .iter()
        .any(|byte| *byte == b'\n' || *byte == b'\r')
}

/// Notes a row with the watcher if it has a mistake.
pub fn note_mistake<N: RowWatcher>(
    watcher: &mut N,
    row: u64,
    raw: &ByteRecord,
    mistake: Option<RowMistake<'_>>,
) {
    if let Some(mistake) = mistake {
        watcher.bad_row(&BadRow {
            row,
            line: raw.position().map(|position| position.line()),
            has_line_end: has_line_end(raw),
            mistake,
        });
    }
}
