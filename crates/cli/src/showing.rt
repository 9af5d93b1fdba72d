//! Writes the present windows of a file.
ghost use Rattle.std.specs.Prelude.{◌≡◌, ◌≢◌, IfErr, IfOk, OnOk};
ghost use Rattle.cli.specs.Faults.{IsOfShowing};
ghost use Rattle.cli.specs.Showing.{HasPresent, ShowsPresent};

use crate::fault::Fault;
use crate::over_file::{StoreTask, over_existing};
use crate::windows_text::set_text;
use http_messages::send_all;
use register::OpenFault;
use settle::Store;
use sql_store::Unwatched;
use std::alloc::Global;
use std::io::Write;
use windows::WindowSet;

// Returns the present set of a store. A store without a clock's row has none, and is refused with
// `Storage`.
pub(crate) fn present_set<S: Store>(store: &mut S) -> Result<WindowSet, OpenFault>
    ensures value { S.IsUsable store.new → IfOk result (HasPresent (S.content store.old)) }
    ensures same { S.IsUsable store.new → S.content store.new ≡ S.content store.old }
    ensures fault { IfErr result (λ fault. fault ≢ OpenFault.WindowsDiffer) }
{
    match store.clock()? {
        Some(row) => Ok(row.present),
        None => Err(OpenFault::Storage),
    }
}

// Writes the present set of a store as a windows file.
fn show_present<S: Store, W: Write>(
    alloc: Global,
    store: &mut S,
    writer: &mut W,
) -> Result<(), Fault>
    ensures shows { S.IsUsable store.new → OnOk result
        (ShowsPresent (S.content store.old) (W.contents writer.old) (W.contents writer.new)) }
    ensures same { S.IsUsable store.new → S.content store.new ≡ S.content store.old }
    ensures fault { IfErr result IsOfShowing }
{
    let set = match present_set(store) {
        Ok(set) => set,
        Err(fault) => return Err(Fault::Open(fault)),
    };
    let Ok(text) = set_text(alloc, &set) else {
        return Err(Fault::NoMemory);
    };
    match send_all(writer, text.as_bytes(), true) {
        Ok(()) => Ok(()),
        Err(_) => Err(Fault::Write),
    }
}

// Writes the present set.
#[derive(Drop)]
struct WindowsTask<'a, W> {
    writer: &'a mut W,
}

impl<W: Write> StoreTask for WindowsTask<'_, W> {
    type Output = ();

    ghost may_end = { λ _. IsOfShowing };

    fn run<S: Store>(&mut self, rt: &HostRuntime, mut store: S) -> (S, Result<(), Fault>) {
        let shown = show_present(rt.alloc(), &mut store, self.writer);
        (store, shown)
    }
}

/// Writes the present windows of the register in the file at `path` as a windows file, with their
/// number in a comment. Creates no file, and changes no row.
///
/// # Errors
///
/// - `Open(Storage)` if there is no file, the file has an earlier format or no clock's row, or as
///   for `SqlStore::existing_at`. Nothing is written, except if closing the file fails.
/// - `Open(NoMemory)` or `NoMemory` if an allocation fails.
/// - `Write` if the writer fails. A prefix may be written.
pub(crate) fn show_windows<W: Write>(
    rt: &HostRuntime,
    path: &str,
    writer: &mut W,
) -> Result<(), Fault>
    ensures { IfErr result IsOfShowing }
{
    over_existing(rt, path, &mut Unwatched, &mut WindowsTask { writer })
}
