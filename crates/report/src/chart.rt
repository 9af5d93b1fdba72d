//! Writes charts of horizontal bars, each with its table.
use crate::texts::push_count;
use std::alloc::AllocError;
use std::fmt::Write;

/// One bar of a chart, and the row of its table.
#[derive(Debug, Drop)]
pub struct Bar {
    pub label: String,
    pub count: u64,
    /// What follows the label beside the bar.
    pub note: String,
    /// The further cells of the row, as elements `td`.
    pub cells: String,
    /// Whether the bar stands out.
    pub is_late: bool,
    /// Whether only the number is shown: the rest, which would dwarf the others.
    pub is_rest: bool,
}

/// A chart, its title, and the headers of its table.
#[derive(Debug, Drop)]
pub struct Chart<'a> {
    /// The id of the section.
    pub id: &'a str,
    pub title: &'a str,
    /// What is counted, in a sentence or two.
    pub about: &'a str,
    /// The first header: what the labels are.
    pub label: &'a str,
    /// The further headers, the first that of the counts.
    pub headers: &'a [&'a str],
    pub bars: Vec<Bar>,
}

// The distance of two bars, in pixels.
const DISTANCE: usize = 22;

// Returns the count that the length of a bar shows.
fn shown_of(bar: &Bar) -> u64 {
    if bar.is_rest { 0 } else { bar.count }
}

// Returns the length of a count's bar, in tenths of a percent of the chart's width: at most 500 if
// `most` is the largest count.
fn tenths_of(count: u64, most: u64) -> u128 {
    u128::from(count) * 500 / u128::from(most.max(1))
}

// Appends a bar, of at most half of the chart's width.
fn push_bar(out: &mut String, place: usize, bar: &Bar, most: u64) -> Result<(), AllocError> {
    let top = place.saturating_mul(DISTANCE);
    let tenths = tenths_of(shown_of(bar), most);
    let (whole, tenth) = (tenths / 10, tenths % 10);
    let class = if bar.is_late { "late" } else { "bar" };
    let (label, note) = (bar.label.as_str(), bar.note.as_str());
    write!(
        out,
        "<svg y=\"{top}\" class=\"{class}\"><text y=\"15\">{label}{note}</text><svg x=\"124\">"
    )?;
    write!(
        out,
        "<rect y=\"4\" width=\"{whole}.{tenth}%\" height=\"14\"/>"
    )?;
    write!(out, "<text x=\"{whole}.{tenth}%\" dx=\"6\" y=\"15\">")?;
    push_count(out, bar.count)?;
    out.push_str("</text></svg></svg>\n")
}

// Returns the largest count, without the rest.
fn most_of(bars: &[Bar]) -> u64 {
    let mut most = 0;
    for bar in bars {
        most = shown_of(bar).max(most);
    }
    most
}

fn push_bars(out: &mut String, title: &str, bars: &[Bar]) -> Result<(), AllocError> {
    let height = bars.len().saturating_mul(DISTANCE);
    let most = most_of(bars);
    write!(
        out,
        "<svg class=\"chart\" role=\"img\" height=\"{height}\" aria-label=\"{title}: a table \
        follows\">\n"
    )?;
    for (place, bar) in bars.iter().enumerate() {
        push_bar(out, place, bar, most)?;
    }
    out.push_str("</svg>\n")
}

fn push_row(out: &mut String, bar: &Bar) -> Result<(), AllocError> {
    let (label, cells) = (bar.label.as_str(), bar.cells.as_str());
    write!(out, "<tr><th scope=\"row\">{label}</th><td>")?;
    push_count(out, bar.count)?;
    write!(out, "</td>{cells}</tr>\n")
}

fn push_table(out: &mut String, chart: &Chart<'_>) -> Result<(), AllocError> {
    let (id, title, label) = (chart.id, chart.title, chart.label);
    write!(
        out,
        "<details><summary>{title}: table</summary>\n<table id=\"{id}-table\"><thead><tr>"
    )?;
    write!(out, "<th scope=\"col\">{label}</th>")?;
    for header in chart.headers {
        let header = *header;
        write!(out, "<th scope=\"col\">{header}</th>")?;
    }
    out.push_str("</tr></thead><tbody>\n")?;
    for bar in &chart.bars {
        push_row(out, bar)?;
    }
    out.push_str("</tbody></table></details>\n")
}

/// Appends a section with a chart and its table.
pub(crate) fn push_chart(out: &mut String, chart: &Chart<'_>) -> Result<(), AllocError> {
    let (id, title, about) = (chart.id, chart.title, chart.about);
    write!(
        out,
        "<section aria-labelledby=\"{id}\"><h2 id=\"{id}\">{title}</h2>\n\
        <p class=\"about\">{about}</p>\n"
    )?;
    push_bars(out, title, chart.bars.as_slice())?;
    push_table(out, chart)?;
    out.push_str("</section>\n")
}
