//! Writes a set of windows as a windows file.
ghost use Rattle.std.specs.Prelude.{◌≡◌, ◌++◌, IfOk, OnOk, string_bytes};
ghost use Rattle.cli.specs.WindowsText.{ReadsAs, comment_line, set_text, window_line};

use std::alloc::{AllocError, Global};
use windows::{Window, WindowSet};

// Appends the line of a window.
fn push_window(
    alloc: Global,
    text: &mut String,
    name: &str,
    window: Window,
) -> Result<(), AllocError>
    ensures { OnOk result (string_bytes text.new
        ≡ string_bytes text.old ++ window_line name.now window.minutes) }
{
    let minutes = window.minutes;
    let line = format!(in alloc; "{name} = {minutes}\n")?;
    text.push_str(line.as_str())
}

// Returns the comment with the number of a set.
fn comment(alloc: Global, number: u16) -> Result<String, AllocError>
    ensures { IfOk result (λ line. string_bytes line ≡ comment_line number) }
{
    format!(in alloc; "# Set {number}\n")
}

/// Returns the text of a windows file that defines the windows of a set: a comment with the set's
/// number, and then a line for each window.
///
/// # Errors
///
/// `AllocError` if an allocation fails.
pub(crate) fn set_text(alloc: Global, set: &WindowSet) -> Result<String, AllocError>
    ensures text { IfOk result (λ text. string_bytes text ≡ set_text set.now.number set.now.windows) }
    ensures reads { IfOk result (λ text. ReadsAs (string_bytes text) set.now.windows) }
{
    let windows = &set.windows;
    let mut text = comment(alloc, set.number)?;
    let t = &mut text;
    push_window(alloc, t, "initial_concurrence", windows.initial_concurrence)?;
    push_window(alloc, t, "final_concurrence", windows.final_concurrence)?;
    push_window(
        alloc,
        t,
        "conflict_restriction",
        windows.conflict_restriction,
    )?;
    push_window(alloc, t, "conflict_resolution", windows.conflict_resolution)?;
    push_window(alloc, t, "conflict_expiration", windows.conflict_expiration)?;
    push_window(
        alloc,
        t,
        "cancellation_initial",
        windows.cancellation_initial,
    )?;
    push_window(alloc, t, "cancellation_final", windows.cancellation_final)?;
    push_window(alloc, t, "pending_retention", windows.pending_retention)?;
    push_window(alloc, t, "broadcast", windows.broadcast)?;
    Ok(text)
}
