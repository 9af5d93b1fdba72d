//! Shows progress while a file is opened or migrated.
ghost use Rattle.std.specs.Prelude.{◌≡◌, None, false};

use crate::progress::Progress;
use command_line::parse::CommandLine;
use sql_store::OpeningWatcher;

/// Counts the rows of a file while it is opened or migrated, and shows progress, as the command line
/// says.
#[derive(Clone, Copy)]
pub(crate) struct OpeningReporter<'a> {
    progress: Progress<'a>,
    // How often a row was read, copied or deleted.
    rows: u64,
}

impl<'a> OpeningReporter<'a> {
    /// Creates the reporter for a command line.
    pub fn new(rt: &'a HostRuntime, line: &CommandLine<'_>) -> OpeningReporter<'a>
        ensures quiet { line.now.progress ≡ false → result.progress.shown_at ≡ None }
        ensures none { result.rows ≡ 0 }
    {
        OpeningReporter {
            progress: Progress::new(rt, line),
            rows: 0,
        }
    }
}

impl OpeningWatcher for OpeningReporter<'_> {
    fn row(&mut self) {
        self.rows = self.rows.saturating_add(1);
        self.progress.show(self.rows);
    }
}
