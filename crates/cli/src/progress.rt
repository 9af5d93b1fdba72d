//! Shows how many rows of a file were read or written so far.
ghost use Rattle.std.specs.Prelude.{◌≡◌, ◌+◌, ◌≤◌, ◌↔◌, IfOk, IsTrue, None, false, string_bytes};
ghost use Rattle.std.specs.Duration.{as_nanos};
ghost use Rattle.cli.specs.RowWords.{progress_line};

use crate::explaining::append_line;
use command_line::parse::CommandLine;
use std::alloc::{AllocError, Global};
use std::time::{Clock, Duration};

// Returns whether a second has passed from `last` to `now`.
fn has_second_passed(last: Duration, now: Duration) -> bool
    ensures { IsTrue result ↔ (as_nanos last + 1_000_000_000 ≤ as_nanos now) }
{
    match now.checked_sub(last) {
        Some(passed) => passed.as_secs() >= 1,
        None => false,
    }
}

// Returns the line that shows this number of rows.
fn progress_line(alloc: Global, rows: u64) -> Result<String, AllocError>
    ensures { IfOk result (λ line. string_bytes line ≡ progress_line rows) }
{
    format!(in alloc; "npacd: {rows} rows\n")
}

/// Shows the rows so far on standard error, a second apart, if the command line says so.
#[derive(Clone, Copy)]
pub(crate) struct Progress<'a> {
    rt: &'a HostRuntime,
    // The clock's time of the last line, at first of the beginning, or `None` if no progress is
    // shown.
    shown_at: Option<Duration>,
}

impl<'a> Progress<'a> {
    /// Creates the progress of a command line. Its first second begins now.
    pub fn new(rt: &'a HostRuntime, line: &CommandLine<'_>) -> Progress<'a>
        ensures quiet { line.now.progress ≡ false → result.shown_at ≡ None }
    {
        let shown_at = if line.progress {
            rt.monotonic().ok()
        } else {
            None
        };
        Progress { rt, shown_at }
    }

    // Shows the rows so far, if a second has passed since the last line.
    fn show_after(&mut self, last: Duration, rows: u64) {
        let Ok(now) = self.rt.monotonic() else {
            return;
        };
        if !has_second_passed(last, now) {
            return;
        }
        self.shown_at = Some(now);
        if let Ok(line) = progress_line(self.rt.alloc(), rows) {
            append_line(self.rt, "-", line.as_str());
        }
    }

    /// Shows the rows so far, if progress is shown and a second has passed since the last line.
    pub fn show(&mut self, rows: u64) {
        if let Some(last) = self.shown_at {
            self.show_after(last, rows);
        }
    }
}
