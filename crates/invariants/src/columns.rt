//! Judges the columns of one version.
ghost use Rattle.std.specs.Prelude.{◌≡◌, ◌≤◌, Some};
ghost use Rattle.std.specs.FinMap.{get};
ghost use Rattle.model.specs.Abstraction.{send_of};
ghost use Rattle.model.specs.Content.{ClockRow as ClockModel, Content};
ghost use Rattle.delivery.specs.Broadcasts.{row_of as broadcast_row_of};
ghost use Rattle.numbers.specs.Abstraction.{subject_of};
ghost use Rattle.settle.specs.Reads.{Reflects};
ghost use Rattle.std.specs.Prelude.{option_map};
ghost use Rattle.version.specs.Abstraction.{minutes_of, windows_of};
ghost use Rattle.invariants.specs.Flaws.{Judges};
ghost use Rattle.invariants.specs.Sound.{AreColumnsSound, HoldsByStatus, IsOfBroadcast, IsSent, OpensByStatus, deadline_by};

use crate::flaw::Flaw;
use delivery::Broadcast;
use model::Send;
use numbers::{Minute, Subject};
use settle::VersionRow;
use windows::Windows;

fn is_same_minute(first: Option<Minute>, second: Option<Minute>) -> bool
    ensures { Reflects result (minutes_of first ≡ minutes_of second) }
{
    match (first, second) {
        (Some(first), Some(second)) => first.number == second.number,
        (None, None) => true,
        _ => false,
    }
}

fn is_same_subject(first: Subject, second: Subject) -> bool
    ensures { Reflects result (subject_of first ≡ subject_of second) }
{
    match (first, second) {
        (Subject::Number(first), Subject::Number(second)) => first.number == second.number,
        (Subject::Block(first), Subject::Block(second)) => first.number == second.number,
        _ => false,
    }
}

fn has_deadline(row: &VersionRow, windows: &Windows) -> bool
    ensures { Reflects result (row.now.deadline ≡ deadline_by (windows_of windows.now) row.now) }
{
    is_same_minute(row.deadline, row.version.deadline(windows))
}

fn holds_by_status(row: &VersionRow) -> bool
    ensures { Reflects result (HoldsByStatus row.now) }
{
    row.is_in_force == row.version.is_in_force()
}

fn opens_by_status(row: &VersionRow) -> bool
    ensures { Reflects result (OpensByStatus row.now) }
{
    row.is_open == row.version.is_open()
}

/// Returns the first flaw of the columns that follow from others: when the version entered its
/// status, its deadline by these windows, `holds` and `opens`.
pub(crate) fn column_flaw(now: Minute, id: u64, row: &VersionRow, windows: &Windows) -> Option<Flaw>
    ensures { (c : Content) (clock : ClockModel) → clock.minute ≡ now.number
        → get c.versions id ≡ Some row.now → get c.sets row.now.held ≡ Some (windows_of windows.now)
        → Judges c clock (AreColumnsSound c clock row.now) result }
{
    if row.version.since.number > now.number {
        Some(Flaw::Since(id))
    } else if !has_deadline(row, windows) {
        Some(Flaw::Deadline(id))
    } else if !holds_by_status(row) {
        Some(Flaw::Holds(id))
    } else if !opens_by_status(row) {
        Some(Flaw::Opens(id))
    } else {
        None
    }
}

/// Returns whether the broadcast is open, and is what the version sends since its minute.
pub(crate) fn is_sent(row: &VersionRow, send: Send, broadcast: Option<Broadcast>) -> bool
    ensures { Reflects result
        (IsSent row.now (send_of send) (option_map broadcast_row_of broadcast)) }
{
    let Some(broadcast) = broadcast else {
        return false;
    };
    broadcast.is_open
        && broadcast.minute.number == row.version.since.number
        && broadcast.action == send.action()
        && is_same_subject(broadcast.subject, row.version.subject)
}

/// Returns whether the broadcast was sent at this minute and is about this subject.
pub(crate) fn is_of_broadcast(
    minute: Minute,
    subject: Subject,
    broadcast: Option<Broadcast>,
) -> bool
    ensures { Reflects result
        (IsOfBroadcast minute.number (subject_of subject) (option_map broadcast_row_of broadcast)) }
{
    match broadcast {
        Some(broadcast) => {
            broadcast.minute.number == minute.number && is_same_subject(broadcast.subject, subject)
        }
        None => false,
    }
}
