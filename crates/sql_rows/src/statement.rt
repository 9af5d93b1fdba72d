//! The texts of all statements. A connection caches the last 64 of them after parsing.
ghost use Rattle.std.specs.Prelude.{◌≡◌};
ghost use Rattle.std.specs.Prelude.{option_map};
ghost use Rattle.sql_rows.specs.Statements.{all_text, delete_text, insert_text, query_text, replace_text};

/// The tables of a register's file.
#[derive(Clone, Copy, Debug, PartialEq, Eq)]
pub enum Table {
    Carrier,
    Lrn,
    Code,
    Block,
    /// The versions of an earlier schema. Empty in a file with the current one.
    OldVersion,
    Broadcast,
    Wait,
    /// The clock of an earlier schema. Empty in a file with the current one.
    OldClock,
    NextRouting,
    WindowSet,
    Version,
    Clock,
}

impl Table {
    /// Returns the text that deletes the row with a key. The parameters are the columns of the key.
    pub fn delete_text(self) -> &'static str
        ensures { result.now ≡ delete_text self }
    {
        match self {
            Table::Carrier => "DELETE FROM carrier WHERE spid = ?1",
            Table::Lrn => "DELETE FROM lrn WHERE lrn = ?1",
            Table::Code => "DELETE FROM code WHERE code = ?1",
            Table::Block => "DELETE FROM block WHERE block = ?1",
            Table::OldVersion => "DELETE FROM version WHERE id = ?1",
            Table::Broadcast => "DELETE FROM broadcast WHERE id = ?1 AND attempt = ?2",
            Table::Wait => {
                "DELETE FROM wait WHERE spid = ?1 AND minute = ?2 AND id = ?3 AND attempt = \
                 ?4"
            }
            Table::OldClock => "DELETE FROM clock WHERE one = ?1",
            Table::NextRouting => "DELETE FROM next_routing WHERE id = ?1",
            Table::WindowSet => "DELETE FROM window_set WHERE number = ?1",
            Table::Version => "DELETE FROM version2 WHERE id = ?1",
            Table::Clock => "DELETE FROM clock2 WHERE one = ?1",
        }
    }

    /// Returns the text that selects all rows, each with its columns.
    pub fn all_text(self) -> &'static str
        ensures { result.now ≡ all_text self }
    {
        match self {
            Table::Carrier => "SELECT spid FROM carrier",
            Table::Lrn => "SELECT lrn, spid FROM lrn",
            Table::Code => "SELECT code, spid FROM code",
            Table::Block => "SELECT block, donor, last FROM block",
            Table::OldVersion => {
                "SELECT id, subject, old, new, due, lrn, cic, old_at, new_at, status, sends, \
                 since, attempt, release, spent, protective, cancelled_by, deadline, holds, \
                 opens FROM version"
            }
            Table::Broadcast => {
                "SELECT id, attempt, minute, subject, action, lrn, cic, open, any FROM \
                 broadcast"
            }
            Table::Wait => "SELECT spid, minute, id, attempt, subject FROM wait",
            Table::NextRouting => "SELECT id, lrn, cic FROM next_routing",
            Table::OldClock => {
                "SELECT one, now, next_id, initial_concurrence, final_concurrence, \
                 conflict_restriction, conflict_resolution, conflict_expiration, \
                 cancellation_initial, cancellation_final, pending_retention, broadcast FROM \
                 clock"
            }
            Table::WindowSet => {
                "SELECT number, initial_concurrence, final_concurrence, conflict_restriction, \
                 conflict_resolution, conflict_expiration, cancellation_initial, \
                 cancellation_final, pending_retention, broadcast FROM window_set"
            }
            Table::Version => {
                "SELECT id, subject, old, new, due, lrn, cic, old_at, new_at, status, sends, \
                 since, attempt, release, spent, protective, cancelled_by, deadline, holds, \
                 opens, held FROM version2"
            }
            Table::Clock => "SELECT one, now, next_id, present FROM clock2",
        }
    }

    /// Returns the text that inserts a row. The parameters are its columns.
    pub fn insert_text(self) -> &'static str
        ensures { result.now ≡ insert_text self }
    {
        match self {
            Table::Carrier => "INSERT INTO carrier (spid) VALUES (?1)",
            Table::Lrn => "INSERT INTO lrn (lrn, spid) VALUES (?1, ?2)",
            Table::NextRouting => "INSERT INTO next_routing (id, lrn, cic) VALUES (?1, ?2, ?3)",
            Table::Code => "INSERT INTO code (code, spid) VALUES (?1, ?2)",
            Table::Block => "INSERT INTO block (block, donor, last) VALUES (?1, ?2, ?3)",
            Table::OldVersion => {
                "INSERT INTO version (id, subject, old, new, due, lrn, cic, old_at, new_at, \
                 status, sends, since, attempt, release, spent, protective, cancelled_by, \
                 deadline, holds, opens) VALUES (?1, ?2, ?3, ?4, ?5, ?6, ?7, ?8, ?9, ?10, \
                 ?11, ?12, ?13, ?14, ?15, ?16, ?17, ?18, ?19, ?20)"
            }
            Table::Broadcast => {
                "INSERT INTO broadcast (id, attempt, minute, subject, action, lrn, cic, open, \
                 any) VALUES (?1, ?2, ?3, ?4, ?5, ?6, ?7, ?8, ?9)"
            }
            Table::Wait => {
                "INSERT INTO wait (spid, minute, id, attempt, subject) VALUES (?1, ?2, ?3, \
                 ?4, ?5)"
            }
            Table::OldClock => {
                "INSERT INTO clock (one, now, next_id, initial_concurrence, \
                 final_concurrence, conflict_restriction, conflict_resolution, \
                 conflict_expiration, cancellation_initial, cancellation_final, \
                 pending_retention, broadcast) VALUES (?1, ?2, ?3, ?4, ?5, ?6, ?7, ?8, ?9, \
                 ?10, ?11, ?12)"
            }
            Table::WindowSet => {
                "INSERT INTO window_set (number, initial_concurrence, final_concurrence, \
                 conflict_restriction, conflict_resolution, conflict_expiration, \
                 cancellation_initial, cancellation_final, pending_retention, broadcast) \
                 VALUES (?1, ?2, ?3, ?4, ?5, ?6, ?7, ?8, ?9, ?10)"
            }
            Table::Version => {
                "INSERT INTO version2 (id, subject, old, new, due, lrn, cic, old_at, new_at, \
                 status, sends, since, attempt, release, spent, protective, cancelled_by, \
                 deadline, holds, opens, held) VALUES (?1, ?2, ?3, ?4, ?5, ?6, ?7, ?8, ?9, \
                 ?10, ?11, ?12, ?13, ?14, ?15, ?16, ?17, ?18, ?19, ?20, ?21)"
            }
            Table::Clock => {
                "INSERT INTO clock2 (one, now, next_id, present) VALUES (?1, ?2, ?3, ?4)"
            }
        }
    }

    /// Returns the text that inserts a row in place of the one with its key. The parameters are
    /// its columns.
    ///
    /// Returns `None` for a table with further unique columns, where the statement could delete
    /// other rows too, and for the tables of an earlier schema.
    pub fn replace_text(self) -> Option<&'static str>
        ensures { option_map (λ s. s.now) result ≡ replace_text self }
    {
        let text = match self {
            Table::Carrier => "INSERT OR REPLACE INTO carrier (spid) VALUES (?1)",
            Table::Lrn => "INSERT OR REPLACE INTO lrn (lrn, spid) VALUES (?1, ?2)",
            Table::NextRouting => {
                "INSERT OR REPLACE INTO next_routing (id, lrn, cic) VALUES (?1, ?2, ?3)"
            }
            Table::Code => "INSERT OR REPLACE INTO code (code, spid) VALUES (?1, ?2)",
            Table::Block => {
                "INSERT OR REPLACE INTO block (block, donor, last) VALUES (?1, ?2, ?3)"
            }
            Table::Broadcast => {
                "INSERT OR REPLACE INTO broadcast (id, attempt, minute, subject, action, lrn, \
                 cic, open, any) VALUES (?1, ?2, ?3, ?4, ?5, ?6, ?7, ?8, ?9)"
            }
            Table::Wait => {
                "INSERT OR REPLACE INTO wait (spid, minute, id, attempt, subject) VALUES (?1, \
                 ?2, ?3, ?4, ?5)"
            }
            Table::WindowSet => {
                "INSERT OR REPLACE INTO window_set (number, initial_concurrence, \
                 final_concurrence, conflict_restriction, conflict_resolution, \
                 conflict_expiration, cancellation_initial, cancellation_final, \
                 pending_retention, broadcast) VALUES (?1, ?2, ?3, ?4, ?5, ?6, ?7, ?8, ?9, \
                 ?10)"
            }
            Table::Clock => {
                "INSERT OR REPLACE INTO clock2 (one, now, next_id, present) VALUES (?1, ?2, \
                 ?3, ?4)"
            }
            Table::OldVersion | Table::OldClock | Table::Version => return None,
        };
        Some(text)
    }
}

/// A query of a file.
#[derive(Clone, Copy, Debug, PartialEq, Eq)]
pub enum Query {
    /// The carrier with a SPID.
    CarrierNamed,
    /// The routing number.
    LrnNumbered,
    /// The code.
    CodeNumbered,
    /// The donated block.
    BlockNumbered,
    /// The clock's row, whose number is 0.
    ClockNumbered,
    /// The set of windows with a number.
    WindowSetNumbered,
    /// The routing that the version with an id is sending.
    NextRoutingNumbered,
    /// The version with an id.
    VersionNumbered,
    /// The version with an id, in the table of the earlier schemas.
    OldVersionNumbered,
    /// A subject's version in force.
    VersionInForce,
    /// A subject's open version.
    VersionOpen,
    /// The version with the least deadline, if that has come.
    VersionDue,
    /// The broadcast of an attempt of a version.
    BroadcastKeyed,
    /// All rows of a table.
    All(Table),
    /// All broadcasts that are open, or all that are not.
    BroadcastsByOpen,
    /// A subject's downloads that are pending for a carrier.
    WaitsAbout,
    /// All downloads that are pending for a carrier.
    WaitsFor,
    /// The first downloads that are pending for a carrier, up to a count.
    WaitsFirst,
    /// All pending downloads of a broadcast.
    WaitsOf,
    /// The broadcast's download that is pending for another carrier than this one, if there is one.
    WaitOfAnother,
    /// The versions in force of the numbers from one to another.
    InForceAmong,
    /// The open versions of the numbers from one to another.
    OpenAmong,
}

impl Query {
    /// Returns the text of the query. Its columns are those of the table, in their order.
    pub fn text(self) -> &'static str
        ensures { result.now ≡ query_text self }
    {
        match self {
            Query::CarrierNamed => "SELECT spid FROM carrier WHERE spid = ?1",
            Query::LrnNumbered => "SELECT lrn, spid FROM lrn WHERE lrn = ?1",
            Query::CodeNumbered => "SELECT code, spid FROM code WHERE code = ?1",
            Query::BlockNumbered => "SELECT block, donor, last FROM block WHERE block = ?1",
            Query::NextRoutingNumbered => "SELECT id, lrn, cic FROM next_routing WHERE id = ?1",
            Query::ClockNumbered => {
                "SELECT one, now, next_id, present FROM clock2 WHERE one = ?1"
            }
            Query::WindowSetNumbered => {
                "SELECT number, initial_concurrence, final_concurrence, conflict_restriction, \
                 conflict_resolution, conflict_expiration, cancellation_initial, \
                 cancellation_final, pending_retention, broadcast FROM window_set WHERE number \
                 = ?1"
            }
            Query::VersionNumbered => {
                "SELECT id, subject, old, new, due, lrn, cic, old_at, new_at, status, sends, \
                 since, attempt, release, spent, protective, cancelled_by, deadline, holds, \
                 opens, held FROM version2 WHERE id = ?1"
            }
            Query::OldVersionNumbered => {
                "SELECT id, subject, old, new, due, lrn, cic, old_at, new_at, status, sends, \
                 since, attempt, release, spent, protective, cancelled_by, deadline, holds, \
                 opens FROM version WHERE id = ?1"
            }
            Query::VersionInForce => {
                "SELECT id, subject, old, new, due, lrn, cic, old_at, new_at, status, sends, \
                 since, attempt, release, spent, protective, cancelled_by, deadline, holds, \
                 opens, held FROM version2 WHERE holds = ?1"
            }
            Query::VersionOpen => {
                "SELECT id, subject, old, new, due, lrn, cic, old_at, new_at, status, sends, \
                 since, attempt, release, spent, protective, cancelled_by, deadline, holds, \
                 opens, held FROM version2 WHERE opens = ?1"
            }
            Query::VersionDue => {
                "SELECT id, subject, old, new, due, lrn, cic, old_at, new_at, status, sends, \
                 since, attempt, release, spent, protective, cancelled_by, deadline, holds, \
                 opens, held FROM version2 WHERE deadline >= 0 AND deadline <= ?1 ORDER BY deadline \
                 LIMIT 1"
            }
            Query::BroadcastKeyed => {
                "SELECT id, attempt, minute, subject, action, lrn, cic, open, any FROM \
                 broadcast WHERE id = ?1 AND attempt = ?2"
            }
            Query::All(table) => table.all_text(),
            Query::BroadcastsByOpen => {
                "SELECT id, attempt, minute, subject, action, lrn, cic, open, any FROM \
                 broadcast WHERE open = ?1"
            }
            Query::WaitsAbout => {
                "SELECT spid, minute, id, attempt, subject FROM wait WHERE subject = ?1 AND \
                 spid = ?2"
            }
            Query::WaitsFor => {
                "SELECT spid, minute, id, attempt, subject FROM wait WHERE spid = ?1"
            }
            Query::WaitsFirst => {
                "SELECT spid, minute, id, attempt, subject FROM wait WHERE spid = ?1 ORDER BY \
                 minute, id, attempt LIMIT ?2"
            }
            Query::WaitsOf => {
                "SELECT spid, minute, id, attempt, subject FROM wait WHERE id = ?1 AND \
                 attempt = ?2"
            }
            Query::WaitOfAnother => {
                "SELECT spid, minute, id, attempt, subject FROM wait WHERE id = ?3 AND \
                 attempt = ?4 AND minute = ?2 AND spid <> ?1 LIMIT 1"
            }
            Query::InForceAmong => {
                "SELECT id, subject, old, new, due, lrn, cic, old_at, new_at, status, sends, \
                 since, attempt, release, spent, protective, cancelled_by, deadline, holds, \
                 opens, held FROM version2 WHERE holds >= ?1 AND holds <= ?2"
            }
            Query::OpenAmong => {
                "SELECT id, subject, old, new, due, lrn, cic, old_at, new_at, status, sends, \
                 since, attempt, release, spent, protective, cancelled_by, deadline, holds, \
                 opens, held FROM version2 WHERE opens >= ?1 AND opens <= ?2"
            }
        }
    }
}
