//! Writes the life of a number: its versions on a line of time, and what happened when.
use crate::figures::Figures;
use crate::life::{Life, Sent};
use crate::texts::push_time;
use model::{Action, Status};
use numbers::{Minute, Spid};
use settle::NumberedRow;
use std::alloc::{AllocError, Global};
use std::fmt::Write;

// What happened to a version at a minute, or will.
#[derive(Debug, Drop)]
struct Moment {
    minute: Minute,
    text: String,
}

fn status_name(status: Status) -> &'static str {
    match status {
        Status::Pending => "pending",
        Status::Conflict => "conflict",
        Status::CancelPending(_) => "cancel-pending",
        Status::SendingCreate => "sending a create",
        Status::SendingDelete => "sending a delete",
        Status::SendingModify { .. } => "sending a modify",
        Status::Active => "active",
        Status::PartialFailure => "partial-failure",
        Status::Failed => "failed",
        Status::DisconnectPending(_) => "disconnect-pending",
        Status::Old => "old",
        Status::Canceled => "canceled",
    }
}

fn action_name(action: Action) -> &'static str {
    match action {
        Action::Create => "create",
        Action::Delete => "delete",
        Action::Modify => "modify",
    }
}

// Adds a moment of a version.
fn add(
    alloc: Global,
    moments: &mut Vec<Moment>,
    minute: Option<Minute>,
    id: u64,
    what: &str,
) -> Result<(), AllocError> {
    let Some(minute) = minute else {
        return Ok(());
    };
    let text = format!(in alloc; "version {id}: {what}")?;
    Ok(moments.push(Moment { minute, text })?)
}

// Adds the moments of a version.
fn add_version(
    alloc: Global,
    moments: &mut Vec<Moment>,
    found: &NumberedRow,
) -> Result<(), AllocError> {
    let version = &found.row.version;
    let id = found.id;
    add(
        alloc,
        moments,
        version.old_at,
        id,
        "create of the old provider",
    )?;
    add(
        alloc,
        moments,
        version.new_at,
        id,
        "create of the new provider",
    )?;
    add(alloc, moments, Some(version.due), id, "due")?;
    let status = status_name(version.status);
    let since = format!(in alloc; "{status} since then")?;
    add(alloc, moments, Some(version.since), id, since.as_str())?;
    add(alloc, moments, found.row.deadline, id, "the window ends")
}

// Appends the carriers for which a broadcast is pending.
fn push_pending(out: &mut String, pending: &[Spid]) -> Result<(), AllocError> {
    if pending.is_empty() {
        return out.push_str(", pending for no carrier");
    }
    out.push_str(", pending for")?;
    for spid in pending {
        out.push_str(" ")?;
        spid.write(out)?;
    }
    Ok(())
}

// Adds the moment when a broadcast was sent.
fn add_sent(alloc: Global, moments: &mut Vec<Moment>, sent: &Sent) -> Result<(), AllocError> {
    let action = action_name(sent.broadcast.action);
    let attempt = sent.key.attempt;
    let mut what = format!(in alloc; "attempt {attempt} sent, a {action}")?;
    push_pending(&mut what, sent.pending.as_slice())?;
    add(
        alloc,
        moments,
        Some(sent.broadcast.minute),
        sent.key.id,
        what.as_str(),
    )
}

// Returns the moments of a life, earliest first.
fn moments_of(alloc: Global, life: &Life) -> Result<Vec<Moment>, AllocError> {
    let mut moments = Vec::new(alloc);
    for version in &life.versions {
        add_version(alloc, &mut moments, version)?;
    }
    for sent in &life.sent {
        add_sent(alloc, &mut moments, sent)?;
    }
    moments.sort_by_key(|moment| moment.minute)?;
    Ok(moments)
}

// A stretch of time, of at least a minute.
#[derive(Clone, Copy, Debug)]
struct Span {
    first: u64,
    last: u64,
}

impl Span {
    // Appends how far a minute is from the beginning, in percent.
    fn push_place(&self, out: &mut String, minute: u64) -> Result<(), AllocError> {
        let length = u128::from(self.last.saturating_sub(self.first).max(1));
        let from = u128::from(minute.min(self.last).saturating_sub(self.first));
        let tenths = from * 1000 / length;
        let (whole, tenth) = (tenths / 10, tenths % 10);
        write!(out, "{whole}.{tenth}%")
    }
}

// Returns when a version began: the earliest minute that its row knows.
fn beginning(found: &NumberedRow) -> u64 {
    let version = &found.row.version;
    let mut first = version.since.number;
    if let Some(minute) = version.old_at {
        first = first.min(minute.number);
    }
    if let Some(minute) = version.new_at {
        first = first.min(minute.number);
    }
    first
}

// Returns when a version ended, or the minute until which it is known to last.
fn ending(found: &NumberedRow, now: u64) -> u64 {
    match (found.row.version.status, found.row.deadline) {
        (Status::Old | Status::Canceled, _) => found.row.version.since.number,
        (_, Some(deadline)) => deadline.number.max(now),
        (_, None) => now,
    }
}

// Returns the stretch of time of the versions, up to `now` at least.
fn span_of(versions: &[NumberedRow], now: u64) -> Span {
    let mut span = Span {
        first: now,
        last: now,
    };
    for version in versions {
        span.first = span.first.min(beginning(version));
        span.last = span.last.max(ending(version, now));
    }
    span
}

// Appends a version's line of time.
fn push_version(
    out: &mut String,
    place: usize,
    span: Span,
    now: u64,
    found: &NumberedRow,
) -> Result<(), AllocError> {
    let top = place.saturating_mul(40);
    let (id, status) = (found.id, status_name(found.row.version.status));
    write!(out, "<svg y=\"{top}\"><text y=\"14\">version {id}, ")?;
    found.row.version.old_provider.write(out)?;
    out.push_str(" to ")?;
    found.row.version.new_provider.write(out)?;
    write!(out, ": {status}</text><line y1=\"26\" y2=\"26\" x1=\"")?;
    span.push_place(out, beginning(found))?;
    out.push_str("\" x2=\"")?;
    span.push_place(out, ending(found, now))?;
    out.push_str("\"/><circle cy=\"26\" r=\"5\" cx=\"")?;
    span.push_place(out, found.row.version.since.number)?;
    out.push_str("\"/></svg>\n")
}

// Appends the versions' lines of time, one under the other.
fn push_lines(out: &mut String, life: &Life, now: u64) -> Result<(), AllocError> {
    let height = life.versions.len().saturating_mul(40);
    let span = span_of(life.versions.as_slice(), now);
    write!(
        out,
        "<svg class=\"chart life\" role=\"img\" height=\"{height}\" aria-label=\"Lines of time: a \
        list follows\">\n"
    )?;
    for (place, version) in life.versions.iter().enumerate() {
        push_version(out, place, span, now, version)?;
    }
    out.push_str("</svg>\n<ol id=\"life-list\">\n")
}

/// Appends the life of the number, if one is given.
pub(crate) fn push_life(
    alloc: Global,
    out: &mut String,
    figures: &Figures,
) -> Result<(), AllocError> {
    let life = &figures.life;
    let Some(number) = life.number else {
        return Ok(());
    };
    out.push_str("<section aria-labelledby=\"life\"><h2 id=\"life\">Number ")?;
    number.write(out)?;
    out.push_str("</h2>\n")?;
    if life.versions.is_empty() {
        return out.push_str("<p>The register has no version of it.</p></section>\n");
    }
    push_lines(out, life, figures.clock.minute.number)?;
    for moment in moments_of(alloc, life)? {
        out.push_str("<li>")?;
        push_time(out, moment.minute)?;
        let text = moment.text.as_str();
        write!(out, " {text}</li>\n")?;
    }
    out.push_str("</ol></section>\n")
}
