//! Explains refused rows and shows progress while a file is read or written.
ghost use Rattle.std.specs.Prelude.{◌≡◌, None, false};
ghost use Rattle.cli.specs.RowWords.{bad_row_name};

use crate::explaining::{append_explanation, text_of};
use crate::progress::Progress;
use crate::row_words::{duplicate_words, mistake_words, row_name};
use bulk::{BadRow, FaultKind, RowWatcher};
use command_line::parse::CommandLine;
use numbers::Subject;
use std::alloc::AllocError;

const LOST_QUOTE: &str = "a field has more than one line: a quote may be lost, and rows with it";

/// Explains the refused rows of a file, and shows progress, as the command line says.
#[derive(Clone, Copy)]
pub(crate) struct RowReporter<'a> {
    rt: &'a HostRuntime,
    // The path of the file to which explanations are appended, `-` for standard error, or `None`.
    explain: Option<&'a str>,
    // The name under which a refused row is explained.
    bad_row: &'static str,
    progress: Progress<'a>,
}

impl<'a> RowReporter<'a> {
    /// Creates the reporter for a command line. Refused rows are explained under the name `bad_row`.
    pub fn new(
        rt: &'a HostRuntime,
        line: &CommandLine<'a>,
        bad_row: &'static str,
    ) -> RowReporter<'a>
        ensures explain { result.explain ≡ line.now.explain }
        ensures bad_row { result.bad_row ≡ bad_row.entry }
        ensures quiet { line.now.progress ≡ false → result.progress.shown_at ≡ None }
    {
        RowReporter {
            rt,
            explain: line.explain,
            bad_row,
            progress: Progress::new(rt, line),
        }
    }

    // Returns the name under which a row with this number is explained.
    fn bad_row_name(&self, row: u64) -> &'static str
        ensures { result.now ≡ bad_row_name self.now.bad_row.now row }
    {
        match row {
            0 => FaultKind::BadHeader.name(),
            _ => self.bad_row,
        }
    }

    // Explains a refused row in the file at `path`. Warns if a field has more than one line.
    fn explain_row(&self, path: &str, bad: &BadRow<'_>) -> Result<(), AllocError> {
        let alloc = self.rt.alloc();
        let name = self.bad_row_name(bad.row);
        let about = row_name(alloc, bad.row, bad.line)?;
        let words = mistake_words(alloc, &bad.mistake)?;
        append_explanation(self.rt, path, name, about.as_str(), words);
        if bad.has_line_end {
            let words = text_of(alloc, LOST_QUOTE)?;
            append_explanation(self.rt, path, name, about.as_str(), words);
        }
        Ok(())
    }

    // Explains a subject that a copy has in two rows.
    fn explain_duplicate(&self, path: &str, subject: Subject) -> Result<(), AllocError> {
        let words = duplicate_words(self.rt.alloc(), subject)?;
        append_explanation(self.rt, path, self.bad_row, "the rows", words);
        Ok(())
    }
}

impl RowWatcher for RowReporter<'_> {
    fn row(&mut self, row: u64) {
        self.progress.show(row);
    }

    fn bad_row(&mut self, bad: &BadRow<'_>) {
        if let Some(path) = self.explain {
            let _explained = self.explain_row(path, bad);
        }
    }

    fn duplicate(&mut self, subject: Subject) {
        if let Some(path) = self.explain {
            let _explained = self.explain_duplicate(path, subject);
        }
    }
}
