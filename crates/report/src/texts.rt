//! Writes counts, times and periods as texts.
ghost use Rattle.std.specs.Prelude.{◌≡◌, ◌/◌, IfSome, pos};
ghost use Rattle.jiff_core.specs.Date.{epoch_day};

use jiff_core::civil::Date;
use numbers::Minute;
use std::alloc::AllocError;
use std::fmt::Write;

const MINUTES_OF_DAY: u64 = 1440;

/// Returns the date of a minute that is counted from 1970-01-01 00:00 UTC. Returns `None` if the
/// date is after the year 9999.
pub fn date_of(minute: Minute) -> Option<Date>
    ensures { IfSome result (λ date. epoch_day date ≡ pos (minute.number / 1440)) }
{
    Date::from_unix_epoch_day((minute.number / MINUTES_OF_DAY) as i64).ok()
}

/// Appends the date of a minute, as 2026-11-29. After the year 9999 it is the number of the day.
pub(crate) fn push_date(out: &mut String, minute: Minute) -> Result<(), AllocError> {
    match date_of(minute) {
        Some(date) => {
            let (year, month, day) = (date.year, date.month, date.day);
            write!(out, "{year:04}-{month:02}-{day:02}")
        }
        None => {
            let day = minute.number / MINUTES_OF_DAY;
            write!(out, "day {day}")
        }
    }
}

/// Appends a minute as an element `time`, as 2026-11-29 07:52.
pub(crate) fn push_time(out: &mut String, minute: Minute) -> Result<(), AllocError> {
    let hour = minute.number % MINUTES_OF_DAY / 60;
    let rest = minute.number % 60;
    out.push_str("<time>")?;
    push_date(out, minute)?;
    write!(out, " {hour:02}:{rest:02}</time>")
}

/// Appends a count, with a comma before each third digit.
pub(crate) fn push_count(out: &mut String, count: u64) -> Result<(), AllocError> {
    let (millions, thousands, ones) = (count / 1_000_000, count / 1000 % 1000, count % 1000);
    if millions > 0 {
        return write!(out, "{millions},{thousands:03},{ones:03}");
    }
    if thousands > 0 {
        return write!(out, "{thousands},{ones:03}");
    }
    write!(out, "{ones}")
}

/// Appends a period in minutes, with its two largest units.
pub(crate) fn push_period(out: &mut String, minutes: u64) -> Result<(), AllocError> {
    let (days, hours) = (minutes / MINUTES_OF_DAY, minutes % MINUTES_OF_DAY / 60);
    let rest = minutes % 60;
    if days > 0 {
        return write!(out, "{days} d {hours} h");
    }
    if hours > 0 {
        return write!(out, "{hours} h {rest} min");
    }
    write!(out, "{rest} min")
}
