//! Writes a page about a file.
ghost use Rattle.std.specs.Prelude.{◌≡◌, IfErr};
ghost use Rattle.cli.specs.Faults.{IsOfShowing};

use crate::fault::Fault;
use crate::over_file::{StoreTask, over_existing};
use numbers::Tn;
use register::OpenFault;
use report::{Figures, PageFault, write_page};
use settle::Store;
use sql_store::Unwatched;
use std::alloc::Global;
use std::fs;
use std::fs::File;
use std::rt::Files;

// Returns the figures of a store, with the life of a number if it is given.
fn figures_of<S: Store>(alloc: Global, store: &mut S, number: Option<Tn>) -> Result<Figures, Fault>
    ensures { IfErr result IsOfShowing }
{
    match Figures::read(alloc, store, number) {
        Ok(figures) => Ok(figures),
        Err(fault) => Err(Fault::Open(OpenFault::from(fault))),
    }
}

// Reads the figures, with the life of a number if it is given.
#[derive(Drop)]
struct FiguresTask {
    number: Option<Tn>,
}

impl StoreTask for FiguresTask {
    type Output = Figures;

    ghost may_end = { λ _. IsOfShowing };

    fn run<S: Store>(&mut self, rt: &HostRuntime, mut store: S) -> (S, Result<Figures, Fault>) {
        let figures = figures_of(rt.alloc(), &mut store, self.number);
        (store, figures)
    }
}

// Returns the figures of the register in a file, and closes the file.
fn figures_at(rt: &HostRuntime, path: &str, number: Option<Tn>) -> Result<Figures, Fault>
    ensures { IfErr result IsOfShowing }
{
    over_existing(rt, path, &mut Unwatched, &mut FiguresTask { number })
}

// Writes the page to a new file, or in place of the file at `path`.
fn write_part<T: Files + AllocGlobal>(rt: &T, path: &str, figures: &Figures) -> Result<(), Fault>
    ensures { IfErr result IsOfShowing }
{
    let Ok(mut file) = File::create(rt, path) else {
        return Err(Fault::Write);
    };
    match write_page(rt.alloc(), figures, &mut file) {
        Ok(()) => Ok(()),
        Err(PageFault::Write) => Err(Fault::Write),
        Err(PageFault::NoMemory) => Err(Fault::NoMemory),
    }
}

// Writes the page to the file at `part`, and renames that.
fn write_renamed<T: Files + AllocGlobal>(
    rt: &T,
    part: &str,
    path: &str,
    figures: &Figures,
) -> Result<(), Fault>
    ensures { IfErr result IsOfShowing }
{
    write_part(rt, part, figures)?;
    match fs::rename(rt, part, path) {
        Ok(()) => Ok(()),
        Err(_) => Err(Fault::Write),
    }
}

// Writes the page by way of a file with `.part` after its name. If that fails, what is at `path`
// stays as it was, and the part is removed if it can be.
fn replace_page<T: Files + AllocGlobal>(rt: &T, path: &str, figures: &Figures) -> Result<(), Fault>
    ensures { IfErr result IsOfShowing }
{
    let Ok(part) = format!(in rt.alloc(); "{path}.part") else {
        return Err(Fault::NoMemory);
    };
    match write_renamed(rt, part.as_str(), path, figures) {
        Ok(()) => Ok(()),
        Err(fault) => {
            drop(fs::remove_file(rt, part.as_str()));
            Err(fault)
        }
    }
}

/// Writes a page about the register in the file at `db` to the file at `to`, with the life of
/// `number` if it is given. Creates no database, and changes no row.
///
/// # Errors
///
/// The file at `to` stays as it was.
/// - `Open` as `windows` does, and if a row cannot be read.
/// - `NoMemory` if an allocation fails.
/// - `Write` if the page cannot be written or renamed.
pub(crate) fn write_report(
    rt: &HostRuntime,
    db: &str,
    to: &str,
    number: Option<Tn>,
) -> Result<(), Fault>
    ensures { IfErr result IsOfShowing }
{
    let figures = figures_at(rt, db, number)?;
    replace_page(rt, to, &figures)
}
