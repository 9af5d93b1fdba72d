//! Makes the charts of a register's figures.
use crate::carriers::CarrierFigures;
use crate::chart::{Bar, Chart};
use crate::counts::VersionCounts;
use crate::figures::Figures;
use crate::texts::{push_date, push_period, push_time};
use numbers::Minute;
use settle::ClockRow;
use std::alloc::{AllocError, Global};
use std::fmt::Write;

/// The statuses, in the order of their counts.
const STATUS_NAMES: [&str; 10] = [
    "pending",
    "conflict",
    "cancel-pending",
    "sending",
    "active",
    "partial-failure",
    "failed",
    "disconnect-pending",
    "old",
    "canceled",
];

// Creates a bar with a label, and without notes and further cells.
fn bar(alloc: Global, label: String, count: u64) -> Bar {
    Bar {
        label,
        count,
        note: String::new(alloc),
        cells: String::new(alloc),
        is_late: false,
        is_rest: false,
    }
}

/// Returns how long the carrier's first download has been pending, in minutes, if one is.
pub(crate) fn age_of(clock: &ClockRow, carrier: &CarrierFigures) -> Option<u64> {
    match carrier.oldest {
        Some(sent) => Some(clock.minute.number.saturating_sub(sent.number)),
        None => None,
    }
}

/// Returns whether the carrier's first download is pending for longer than a broadcast's window.
pub(crate) fn is_late(clock: &ClockRow, carrier: &CarrierFigures) -> bool {
    match age_of(clock, carrier) {
        Some(age) => age > u64::from(clock.present.windows.broadcast.minutes),
        None => false,
    }
}

// Returns the bar of a carrier: how much is pending, and for how long.
fn carrier_bar(
    alloc: Global,
    clock: &ClockRow,
    carrier: &CarrierFigures,
) -> Result<Bar, AllocError> {
    let mut label = String::new(alloc);
    carrier.spid.write(&mut label)?;
    let mut made = bar(alloc, label, carrier.pending as u64);
    made.is_late = is_late(clock, carrier);
    let Some(sent) = carrier.oldest else {
        made.cells.push_str("<td>none</td><td></td><td></td>")?;
        return Ok(made);
    };
    let age = clock.minute.number.saturating_sub(sent.number);
    made.note.push_str(", ")?;
    push_period(&mut made.note, age)?;
    made.cells.push_str("<td>")?;
    push_time(&mut made.cells, sent)?;
    made.cells.push_str("</td><td>")?;
    push_period(&mut made.cells, age)?;
    let state = if made.is_late { "late" } else { "in time" };
    write!(made.cells, "</td><td>{state}</td>")?;
    Ok(made)
}

/// Returns the chart of the downloads pending for each carrier.
pub(crate) fn carriers_chart(
    alloc: Global,
    figures: &Figures,
) -> Result<Chart<'static>, AllocError> {
    let mut bars = Vec::new(alloc);
    for carrier in &figures.carriers {
        bars.push(carrier_bar(alloc, &figures.clock, carrier)?)?;
    }
    Ok(Chart {
        id: "carriers",
        title: "Downloads pending",
        about: "Numbers and blocks with a download that the carrier has not acknowledged, and \
            for how long the oldest is pending. A carrier is late once that is longer than a \
            broadcast's window.",
        label: "Carrier",
        headers: &["Pending", "Oldest sent (UTC)", "Pending for", "State"],
        bars,
    })
}

// Returns the label of a place by hour.
fn hour_label(alloc: Global, place: usize) -> Result<String, AllocError> {
    match place {
        0 => format!(in alloc; "already ended"),
        1 => format!(in alloc; "within 1 h"),
        25 => format!(in alloc; "after 24 h"),
        _ => {
            let before = place.saturating_sub(1);
            format!(in alloc; "{before} to {place} h")
        }
    }
}

/// Returns the chart of the timers that end, by hour.
pub(crate) fn hours_chart(
    alloc: Global,
    counts: &VersionCounts,
) -> Result<Chart<'static>, AllocError> {
    let mut bars = Vec::new(alloc);
    for (place, count) in counts.by_hour.iter().enumerate() {
        let mut made = bar(alloc, hour_label(alloc, place)?, *count);
        made.is_late = place == 0 && *count > 0;
        made.is_rest = place == 25;
        bars.push(made)?;
    }
    Ok(Chart {
        id: "windows",
        title: "Windows that end",
        about: "Versions whose status ends without a command, by the hour. One that has already \
            ended takes effect when a message next reads the number.",
        label: "Ends",
        headers: &["Versions"],
        bars,
    })
}

/// Returns the chart of the versions by status.
pub(crate) fn status_chart(
    alloc: Global,
    counts: &VersionCounts,
) -> Result<Chart<'static>, AllocError> {
    let mut bars = Vec::new(alloc);
    for (name, count) in STATUS_NAMES.iter().zip(counts.by_status.iter()) {
        let name = *name;
        let label = format!(in alloc; "{name}")?;
        bars.push(bar(alloc, label, *count))?;
    }
    Ok(Chart {
        id: "statuses",
        title: "Versions by status",
        about: "All versions that the register has, as their rows say.",
        label: "Status",
        headers: &["Versions"],
        bars,
    })
}

// Returns the label of a place by day: its date.
fn day_label(alloc: Global, now: Minute, place: usize) -> Result<String, AllocError> {
    let mut label = String::new(alloc);
    let before = (place as u64).saturating_mul(1440);
    match Minute::new(now.number.saturating_sub(before)) {
        Some(minute) if place < 14 => push_date(&mut label, minute)?,
        _ => label.push_str("earlier")?,
    }
    Ok(label)
}

/// Returns the chart of the ports a day.
pub(crate) fn days_chart(
    alloc: Global,
    now: Minute,
    counts: &VersionCounts,
) -> Result<Chart<'static>, AllocError> {
    let mut bars = Vec::new(alloc);
    let days = counts.active.iter().zip(counts.became_old.iter());
    for (place, (active, old)) in days.enumerate() {
        let mut made = bar(alloc, day_label(alloc, now, place)?, *active);
        made.is_rest = place == 14;
        let old = *old;
        write!(made.cells, "<td>{old}</td>")?;
        bars.push(made)?;
    }
    Ok(Chart {
        id: "days",
        title: "Ports a day",
        about: "A row knows only since when its version has its status. So a bar counts the \
            versions that are active or partial-failure now, by the day since when they are; a \
            modify starts again. The table also counts those that are old, by their day.",
        label: "Day (UTC)",
        headers: &["Active since", "Old since"],
        bars,
    })
}
