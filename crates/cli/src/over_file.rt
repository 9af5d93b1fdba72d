//! Works over the store in a file.
//!
//! A call that needs a file to be a store takes a minute to prove, again in each function. So only
//! `over_open` makes such calls, and `feed_at` for its contract.
ghost use Rattle.std.specs.Prelude.{◌⊎◌, IfErr};
ghost use Rattle.cli.specs.Faults.{IsOfOpening};
ghost use Rattle.cli.specs.declared.fault.Fault.{Fault as FaultImpl};

use crate::fault::Fault;
use crate::running::{close, open_fault};
use settle::Store;
use sql_store::{OpeningWatcher, SqlStore, StoreAt};
use sqlite::Unknown;

/// What is done with the store in a file.
pub(crate) trait StoreTask {
    /// What it returns.
    type Output: Drop;

    // The faults that it may end with.
    ghost may_end: { Self → FaultImpl → Type 0 };

    /// Does it, and returns the store.
    fn run<S: Store>(&mut self, rt: &HostRuntime, store: S) -> (S, Result<Self::Output, Fault>)
        ensures { IfErr result.1 (may_end self.old) };
}

/// Works over the store in an open file, and closes the file.
pub(crate) fn over_open<T: StoreTask>(
    rt: &HostRuntime,
    store: StoreAt<Unknown>,
    task: &mut T,
) -> Result<T::Output, Fault>
    ensures { IfErr result (λ fault. T.may_end task.old fault ⊎ IsOfOpening fault) }
{
    let (store, done) = task.run(rt, store);
    let closed = close(store);
    let output = done?;
    closed?;
    Ok(output)
}

/// Opens the existing file at `path`, works over its store, and closes it. Notes each row of the
/// file with `watcher` while it is opened.
pub(crate) fn over_existing<N: OpeningWatcher, T: StoreTask>(
    rt: &HostRuntime,
    path: &str,
    watcher: &mut N,
    task: &mut T,
) -> Result<T::Output, Fault>
    ensures { IfErr result (λ fault. T.may_end task.old fault ⊎ IsOfOpening fault) }
{
    let store = SqlStore::existing_at(rt, path, Unknown, watcher).map_err(open_fault)?;
    over_open(rt, store, task)
}
