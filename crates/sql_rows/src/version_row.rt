//! Reads and writes the rows of versions.
ghost use Rattle.std.specs.Prelude.{◌≡◌, ◌<◌, map, option_map, Some, IsTrue};
ghost use Rattle.sqlite.specs.Value.{owned};
ghost use Rattle.numbers.specs.Texts.{spid_text};
ghost use Rattle.model.specs.Abstraction.{status_of};
ghost use Rattle.version.specs.Abstraction.{routings_of};
ghost use Rattle.sql_rows.specs.Versions.{version_with, version_entry, version_row, version_params, bare, is_routed_while_modified};

use crate::from_row::FromRow;
use crate::params::is_set_number;
use crate::reading::{
    bool_at, found_at, minute_at, minute_or_null_at, number_at, routing_at, set_number_at, spid_at,
    status_at, subject_at,
};
use crate::values::{
    cancelled_by, cic, found, lrn, minute, minute_or_null, number, release, sends, status, subject,
    truth,
};
use model::Status;
use settle::{NumberedRow, VersionRow};
use sqlite::Row;
use sqlite::types::ValueRef;
use version::Version;

impl FromRow for NumberedRow {
    ghost use Rattle.std.specs.Prelude.{ℕ};
    ghost use Rattle.model.specs.Content.{VersionRow as Seen};
    ghost use Rattle.sql_rows.specs.Versions.{version_in};

    ghost Seen = { ℕ × Seen };

    ghost seen = { λ v. (v.id, v.row) };

    ghost seen_in = { version_in };

    fn read(row: &Row) -> Option<NumberedRow> {
        version_at(row, set_number_at(row, 20))
    }
}

/// A version of an earlier schema, which holds set 1.
#[derive(Debug, Drop)]
pub struct OldVersion {
    pub version: NumberedRow,
}

impl FromRow for OldVersion {
    ghost use Rattle.std.specs.Prelude.{ℕ};
    ghost use Rattle.model.specs.Content.{VersionRow as Seen};
    ghost use Rattle.sql_rows.specs.Versions.{old_version_in};

    ghost Seen = { ℕ × Seen };

    ghost seen = { λ v. (v.version.id, v.version.row) };

    ghost seen_in = { old_version_in };

    fn read(row: &Row) -> Option<OldVersion> {
        Some(OldVersion {
            version: version_at(row, Some(1))?,
        })
    }
}

// Reads a version from its columns, given the number of the set of windows that it holds.
fn version_at(row: &Row, held: Option<u16>) -> Option<NumberedRow>
    ensures { option_map (λ (v : NumberedRow). (v.id, v.row)) result ≡ version_with held row.now }
{
    let id = number_at(row, 0)?;
    let subject = subject_at(row, 1)?;
    let routing = routing_at(row, 5, 6)?;
    Some(NumberedRow {
        id,
        row: VersionRow {
            version: Version {
                subject,
                old_provider: spid_at(row, 2)?,
                new_provider: spid_at(row, 3)?,
                due: minute_at(row, 4)?,
                routing,
                old_at: minute_or_null_at(row, 7)?,
                new_at: minute_or_null_at(row, 8)?,
                status: status_at(row, 9, 10, 13, 16, routing)?,
                since: minute_at(row, 11)?,
                held: held?,
                attempt: number_at(row, 12)?,
                is_conflict_spent: bool_at(row, 14)?,
                is_protective: bool_at(row, 15)?,
            },
            deadline: minute_or_null_at(row, 17)?,
            is_in_force: found_at(row, 18, id, subject)?,
            is_open: found_at(row, 19, id, subject)?,
        },
    })
}

// Returns whether the version has a routing if it is sending a modify.
fn is_routed_while_modified(version: &Version) -> bool
    ensures { result
        ≡ is_routed_while_modified (routings_of version.now.routing)
        (status_of version.now.status) }
{
    match version.status {
        Status::SendingModify { .. } => version.routing.is_some(),
        _ => true,
    }
}

/// Returns whether the row can be stored: the id, the attempt and the number of the set fit their
/// columns, and a version that is sending a modify has a routing. Any other value fits its column.
pub fn fits(id: u64, row: &VersionRow) -> bool
    ensures small { IsTrue result → id < 9223372036854775808 }
    ensures few { IsTrue result → row.now.attempt < 9223372036854775808 }
    ensures back { IsTrue result → version_entry (version_row id row.now)
        ≡ Some (id, bare row.now) }
{
    id < 9_223_372_036_854_775_808
        && row.version.attempt < 9_223_372_036_854_775_808
        && is_set_number(row.version.held)
        && is_routed_while_modified(&row.version)
}

/// Returns the parameters of the statement that inserts the version. `old` and `new` are the
/// providers' texts.
pub fn version_params<'a>(
    id: u64,
    row: &VersionRow,
    old: &'a [u8; 4],
    new: &'a [u8; 4],
) -> [ValueRef<'a>; 21]
    requires small { id < 9223372036854775808 }
    requires few { row.now.attempt < 9223372036854775808 }
    requires old { old.now ≡ spid_text row.now.old_provider }
    requires new { new.now ≡ spid_text row.now.new_provider }
    ensures { map owned result ≡ version_params id row.now }
{
    let version = &row.version;
    [
        number(id),
        subject(version.subject),
        ValueRef::Text(old),
        ValueRef::Text(new),
        minute(version.due),
        lrn(version.routing),
        cic(version.routing),
        minute_or_null(version.old_at),
        minute_or_null(version.new_at),
        status(version.status),
        sends(version.status),
        minute(version.since),
        number(version.attempt),
        release(version.status),
        truth(version.is_conflict_spent),
        truth(version.is_protective),
        cancelled_by(version.status),
        minute_or_null(row.deadline),
        found(id, row.holds()),
        found(id, row.opens()),
        number(u64::from(version.held)),
    ]
}
