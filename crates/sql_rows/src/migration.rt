//! Migration of files with earlier schemas.
ghost use Rattle.std.specs.Prelude.{◌≡◌};
ghost use Rattle.sql_rows.specs.Migration.{clear_text, create_text, index_text};

/// The earlier schemas of files.
#[derive(Clone, Copy, Debug, PartialEq, Eq)]
pub enum SchemaVersion {
    /// The schema without modifies.
    First,
    /// The schema with modifies, but without sets of windows.
    Modify,
}

/// The tables that an earlier schema lacks, in the order of their creation.
#[derive(Clone, Copy, Debug, PartialEq, Eq)]
pub enum NewTable {
    NextRouting,
    WindowSet,
    Version,
    Clock,
}

impl NewTable {
    /// Returns the text that creates the table.
    pub fn create_text(self) -> &'static str
        ensures { result.now ≡ create_text self }
    {
        match self {
            NewTable::NextRouting => {
                "CREATE TABLE next_routing (id INTEGER PRIMARY KEY, lrn INTEGER NOT NULL, cic \
                 INTEGER) STRICT"
            }
            NewTable::WindowSet => {
                "CREATE TABLE window_set (number INTEGER PRIMARY KEY, initial_concurrence \
                 INTEGER NOT NULL, final_concurrence INTEGER NOT NULL, conflict_restriction \
                 INTEGER NOT NULL, conflict_resolution INTEGER NOT NULL, conflict_expiration \
                 INTEGER NOT NULL, cancellation_initial INTEGER NOT NULL, cancellation_final \
                 INTEGER NOT NULL, pending_retention INTEGER NOT NULL, broadcast INTEGER NOT \
                 NULL) STRICT"
            }
            NewTable::Version => {
                "CREATE TABLE version2 (id INTEGER PRIMARY KEY, subject INTEGER NOT NULL, old \
                 TEXT NOT NULL, new TEXT NOT NULL, due INTEGER NOT NULL, lrn INTEGER, cic \
                 INTEGER, old_at INTEGER, new_at INTEGER, status TEXT NOT NULL, sends TEXT NOT \
                 NULL, since INTEGER NOT NULL, attempt INTEGER NOT NULL, release INTEGER, \
                 spent INTEGER NOT NULL, protective INTEGER NOT NULL, cancelled_by TEXT, \
                 deadline INTEGER, holds INTEGER NOT NULL UNIQUE, opens INTEGER NOT NULL \
                 UNIQUE, held INTEGER NOT NULL) STRICT"
            }
            NewTable::Clock => {
                "CREATE TABLE clock2 (one INTEGER PRIMARY KEY, now INTEGER NOT NULL, next_id \
                 INTEGER NOT NULL, present INTEGER NOT NULL) STRICT"
            }
        }
    }
}

/// Returns the text that creates the index of versions by deadline, after all tables.
pub fn index_text() -> &'static str
    ensures { result.now ≡ index_text }
{
    "CREATE INDEX version2_deadline ON version2 (deadline)"
}

/// The tables of earlier schemas that a migration empties.
#[derive(Clone, Copy, Debug, PartialEq, Eq)]
pub enum OldTable {
    Version,
    Clock,
}

impl OldTable {
    /// Returns the text that deletes all rows of the table.
    pub fn clear_text(self) -> &'static str
        ensures { result.now ≡ clear_text self }
    {
        match self {
            OldTable::Version => "DELETE FROM version",
            OldTable::Clock => "DELETE FROM clock",
        }
    }
}
