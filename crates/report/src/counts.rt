//! Counts versions by status, by the hour in which their timers end, and by day.
ghost use Rattle.std.specs.Prelude.{◌≡◌, Some, option_map};
ghost use Rattle.numbers.specs.Abstraction.{minute_of};
ghost use Rattle.model.specs.Abstraction.{status_of};
ghost use Rattle.report.specs.Counts.{AddsAt, AddsRow, day_if_active, day_if_old, days_before, hour_after, place_of_status};

use model::Status;
use numbers::Minute;
use settle::VersionRow;

/// The number of statuses.
pub const STATUSES: usize = 10;

/// The number of places by hour: ended, each of the next 24 hours, and later.
pub const HOURS: usize = 26;

/// The number of places by day: the clock's day, each of the 13 days before it, and earlier.
pub const DAYS: usize = 15;

const MINUTES_OF_DAY: u64 = 1440;

/// How many versions there are at each place of four lists.
#[derive(Clone, Copy, Debug, PartialEq, Eq)]
pub struct VersionCounts {
    /// All versions, by status: pending, conflict, cancel-pending, sending, active,
    /// partial-failure, failed, disconnect-pending, old and canceled.
    pub by_status: [u64; STATUSES],
    /// Those with a timer, by the hour in which it ends: first those that have ended.
    pub by_hour: [u64; HOURS],
    /// Those that are active or partial-failure, by the day since when they are.
    pub active: [u64; DAYS],
    /// Those that are old, by the day since when they are.
    pub became_old: [u64; DAYS],
}

// Returns the place of a status in the counts.
fn place_of(status: Status) -> usize
    ensures { result ≡ place_of_status (status_of status) }
{
    match status {
        Status::Pending => 0,
        Status::Conflict => 1,
        Status::CancelPending(_) => 2,
        Status::SendingCreate | Status::SendingDelete | Status::SendingModify { .. } => 3,
        Status::Active => 4,
        Status::PartialFailure => 5,
        Status::Failed => 6,
        Status::DisconnectPending(_) => 7,
        Status::Old => 8,
        Status::Canceled => 9,
    }
}

// Returns the hour after `now` in which a timer ends: 0 if it has ended, 25 if after 24 hours.
fn hour_after(now: Minute, deadline: Minute) -> usize
    ensures { result ≡ hour_after now.number deadline.number }
{
    let minutes = deadline.number.saturating_sub(now.number);
    ((minutes + 59) / 60).min(25) as usize
}

// Returns how many days before the day of `now` a minute lies, at most 14.
fn days_before(now: Minute, minute: Minute) -> usize
    ensures { result ≡ days_before now.number minute.number }
{
    let day = now.number / MINUTES_OF_DAY;
    day.saturating_sub(minute.number / MINUTES_OF_DAY).min(14) as usize
}

// Returns the day if a version with this status is active or partial-failure.
fn day_if_active(status: Status, day: usize) -> Option<usize>
    ensures { result ≡ day_if_active (status_of status) day }
{
    matches!(status, Status::Active | Status::PartialFailure).then_some(day)
}

// Returns the day if a version with this status is old.
fn day_if_old(status: Status, day: usize) -> Option<usize>
    ensures { result ≡ day_if_old (status_of status) day }
{
    matches!(status, Status::Old).then_some(day)
}

// Returns the hour after `now` of a deadline, if there is one.
fn hour_of(now: Minute, deadline: Option<Minute>) -> Option<usize>
    ensures { result ≡ option_map (hour_after now.number) (option_map minute_of deadline) }
{
    match deadline {
        Some(deadline) => Some(hour_after(now, deadline)),
        None => None,
    }
}

// Adds one at a place, if there is one.
fn add(counts: &mut [u64], place: Option<usize>)
    ensures { AddsAt place counts.old counts.new }
{
    let Some(place) = place else {
        return;
    };
    if place < counts.len() {
        counts[place] = counts[place].saturating_add(1);
    }
}

impl VersionCounts {
    /// The counts of no version.
    pub const NONE: VersionCounts = VersionCounts {
        by_status: [0; STATUSES],
        by_hour: [0; HOURS],
        active: [0; DAYS],
        became_old: [0; DAYS],
    };

    /// Adds a version as it is at minute `now`.
    pub(crate) fn add(&mut self, now: Minute, row: &VersionRow)
        ensures { AddsRow now.number row.now self.old self.new }
    {
        let version = &row.version;
        let day = days_before(now, version.since);
        add(&mut self.by_status, Some(place_of(version.status)));
        add(&mut self.by_hour, hour_of(now, row.deadline));
        add(&mut self.active, day_if_active(version.status, day));
        add(&mut self.became_old, day_if_old(version.status, day));
    }
}
