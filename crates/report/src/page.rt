//! Writes the page of a register's figures.
ghost use Rattle.std.specs.Prelude.{IfOk, OnErr, OnOk, string_bytes};
ghost use Rattle.report.specs.Page.{AppendsPage, AppendsPart, IsPage};

use crate::chart::push_chart;
use crate::charts::{carriers_chart, days_chart, hours_chart, is_late, status_chart};
use crate::figures::Figures;
use crate::moments::push_life;
use crate::style::STYLE;
use crate::texts::{push_count, push_period, push_time};
use http_messages::send_all;
use std::alloc::{AllocError, Global};
use std::fmt::Write;
use std::io;

// Appends the head of the page, and when its figures are from.
fn push_head(out: &mut String, figures: &Figures) -> Result<(), AllocError> {
    out.push_str("<head>\n<meta charset=\"utf-8\">\n")?;
    out.push_str("<meta name=\"viewport\" content=\"width=device-width, initial-scale=1\">\n")?;
    out.push_str("<title>Register of ported numbers: report</title>\n<style>\n")?;
    out.push_str(STYLE)?;
    out.push_str("</style>\n</head>\n<body>\n<header><h1>Register of ported numbers</h1>\n")?;
    out.push_str("<p>As of ")?;
    push_time(out, figures.clock.minute)?;
    let minute = figures.clock.minute.number;
    write!(
        out,
        " UTC, the last minute of the register's clock (minute {minute}).</p></header>\n<main>\n"
    )
}

// Returns the sum of counts.
fn sum_of(counts: &[u64]) -> u64 {
    let mut sum: u64 = 0;
    for count in counts {
        sum = sum.saturating_add(*count);
    }
    sum
}

// Appends a large number with its name.
fn push_number(out: &mut String, name: &str, number: u64, is_late: bool) -> Result<(), AllocError> {
    let class = if is_late { " class=\"late\"" } else { "" };
    write!(out, "<div{class}><dt>{name}</dt><dd>")?;
    push_count(out, number)?;
    out.push_str("</dd></div>\n")
}

// Returns the number of carriers that are late.
fn late_of(figures: &Figures) -> u64 {
    let mut late: u64 = 0;
    for carrier in &figures.carriers {
        if is_late(&figures.clock, carrier) {
            late = late.saturating_add(1);
        }
    }
    late
}

// Appends which carriers are late.
fn push_late(out: &mut String, figures: &Figures) -> Result<(), AllocError> {
    out.push_str("<p class=\"verdict late\">Late:")?;
    for carrier in &figures.carriers {
        if is_late(&figures.clock, carrier) {
            out.push_str(" ")?;
            carrier.spid.write(out)?;
        }
    }
    out.push_str(". A download is pending for longer than the window of a broadcast, ")?;
    push_period(
        out,
        u64::from(figures.clock.present.windows.broadcast.minutes),
    )?;
    out.push_str(".</p>\n")
}

// Appends whether anything is stuck, what ends soon, and the largest numbers.
fn push_glance(out: &mut String, figures: &Figures) -> Result<(), AllocError> {
    let late = late_of(figures);
    let counts = &figures.versions;
    let [ended, first, ..] = counts.by_hour;
    let day = sum_of(counts.by_hour.get(1..25).unwrap_or(&[]));
    out.push_str("<section aria-labelledby=\"glance\"><h2 id=\"glance\">At a glance</h2>\n")?;
    if late > 0 {
        push_late(out, figures)?;
    } else {
        out.push_str("<p class=\"verdict\">No carrier is late.</p>\n")?;
    }
    out.push_str("<dl>\n")?;
    push_number(out, "Carriers late", late, late > 0)?;
    push_number(out, "Windows that ended", ended, ended > 0)?;
    push_number(out, "End within 1 hour", first, false)?;
    push_number(out, "End within 24 hours", day, false)?;
    push_number(out, "Versions", sum_of(&counts.by_status), false)?;
    push_number(out, "Carriers", figures.carriers.len() as u64, false)?;
    out.push_str("</dl></section>\n")
}

// Returns what is in the element `html`.
fn inside(alloc: Global, figures: &Figures) -> Result<String, AllocError> {
    let mut page = String::new(alloc);
    let out = &mut page;
    push_head(out, figures)?;
    push_glance(out, figures)?;
    push_life(alloc, out, figures)?;
    out.push_str("<div class=\"charts\">\n")?;
    push_chart(out, &carriers_chart(alloc, figures)?)?;
    push_chart(out, &hours_chart(alloc, &figures.versions)?)?;
    push_chart(out, &status_chart(alloc, &figures.versions)?)?;
    let days = days_chart(alloc, figures.clock.minute, &figures.versions)?;
    push_chart(out, &days)?;
    out.push_str("</div>\n</main>\n</body>\n")?;
    Ok(page)
}

/// Returns the page of these figures: HTML without scripts, with a chart and a table each for the
/// downloads pending, the windows that end, the versions by status, and the ports a day, and with
/// the life of the number if one is given.
///
/// # Errors
///
/// `AllocError` if an allocation fails.
pub fn page_text(alloc: Global, figures: &Figures) -> Result<String, AllocError>
    ensures { IfOk result (λ text. IsPage (string_bytes text)) }
{
    let inside = inside(alloc, figures)?;
    format!(in alloc; "<!DOCTYPE html>\n<html lang=\"en\">\n{inside}</html>\n")
}

/// Why a page was not written.
#[derive(Clone, Copy, Debug, PartialEq, Eq)]
pub enum PageFault {
    /// A write failed.
    Write,
    /// An allocation failed.
    NoMemory,
}

/// Writes the page of these figures, as `page_text` returns it, and flushes.
///
/// # Errors
///
/// - `NoMemory` if an allocation fails; nothing is written.
/// - `Write` if the writer fails; a prefix of the page may be written.
pub fn write_page<W: io::Write>(
    alloc: Global,
    figures: &Figures,
    writer: &mut W,
) -> Result<(), PageFault>
    ensures ok { OnOk result (AppendsPage (W.contents writer.old) (W.contents writer.new)) }
    ensures err { OnErr result (AppendsPart (W.contents writer.old) (W.contents writer.new)) }
{
    let Ok(text) = page_text(alloc, figures) else {
        return Err(PageFault::NoMemory);
    };
    match send_all(writer, text.as_bytes(), true) {
        Ok(()) => Ok(()),
        Err(_) => Err(PageFault::Write),
    }
}
