//! Reads the current versions of a number and of its block.
ghost use Rattle.settle.specs.StoreContract.{IsAnswer, IsReadOnly};
ghost use Rattle.std.specs.Prelude.{Err, ◌≡◌, ◌≤◌, IfOk, option_map};
ghost use Rattle.numbers.specs.Digits.{block_of};
ghost use Rattle.numbers.specs.Subjects.{Number, Block};
ghost use Rattle.numbers.specs.Abstraction.{subject_of};
ghost use Rattle.register.specs.Serving.{AreServingFacts, IsVersionInForce, IsOpened, is_released};

use model::Status;
use numbers::{Subject, Tn};
use pool::ServingFacts;
use settle::{Store, StoreFault};
use version::Version;

/// The versions of a number and of its block that are in force or open.
#[derive(Clone, Copy, Debug)]
pub struct CurrentVersions {
    pub in_force: Option<Version>,
    /// The open version with its id.
    pub opened: Option<(u64, Version)>,
    pub block_in_force: Option<Version>,
}

fn in_force<S: Store>(store: &mut S, subject: Subject) -> Result<Option<Version>, StoreFault>
    ensures value { S.IsUsable store.new
        → IfOk result (IsVersionInForce (S.content store.old) (subject_of subject)) }
    ensures read_only { IsReadOnly S.StoreModel
        store.old store.new (IsAnswer result) (result ≡ Err StoreFault.Storage) }
{
    match store.version_in_force(subject)? {
        None => Ok(None),
        Some(found) => Ok(Some(found.row.version)),
    }
}

fn opened<S: Store>(store: &mut S, subject: Subject) -> Result<Option<(u64, Version)>, StoreFault>
    ensures value { S.IsUsable store.new
        → IfOk result (IsOpened (S.content store.old) (subject_of subject)) }
    ensures read_only { IsReadOnly S.StoreModel
        store.old store.new (IsAnswer result) (result ≡ Err StoreFault.Storage) }
{
    match store.open_version(subject)? {
        None => Ok(None),
        Some(found) => Ok(Some((found.id, found.row.version))),
    }
}

impl CurrentVersions {
    /// Reads the current versions of a number and of its block.
    pub fn read<S: Store>(store: &mut S, tn: Tn) -> Result<CurrentVersions, StoreFault>
        ensures in_force { S.IsUsable store.new
            → IfOk result (λ current. IsVersionInForce (S.content store.old) (Number tn.number)
            current.in_force) }
        ensures opened { S.IsUsable store.new
            → IfOk result (λ current. IsOpened (S.content store.old) (Number tn.number) current.opened) }
        ensures block { S.IsUsable store.new → IfOk result
            (λ current. IsVersionInForce (S.content store.old) (Block (block_of tn.number))
            current.block_in_force) }
        ensures read_only { IsReadOnly S.StoreModel store.old store.new
            (IsAnswer result) (result ≡ Err StoreFault.Storage) }
    {
        Ok(CurrentVersions {
            in_force: in_force(store, Subject::Number(tn))?,
            opened: opened(store, Subject::Number(tn))?,
            block_in_force: in_force(store, Subject::Block(tn.block()))?,
        })
    }

    /// Returns whether the block's version in force sends a delete.
    pub fn is_block_released(&self) -> bool
        ensures { result ≡ is_released self.now.block_in_force }
    {
        match &self.block_in_force {
            None => false,
            Some(version) => matches!(version.status, Status::SendingDelete),
        }
    }
}

// Returns the version without its id.
fn version_of(opened: Option<(u64, Version)>) -> Option<Version>
    ensures { result ≡ option_map (λ e. e.1) opened }
{
    match opened {
        None => None,
        Some((_, version)) => Some(version),
    }
}

/// Reads the facts that decide who serves a number.
pub fn serving_facts<S: Store>(
    store: &mut S,
    tn: Tn,
    current: &CurrentVersions,
) -> Result<ServingFacts, StoreFault>
    ensures value { S.IsUsable store.new
        → IfOk result (AreServingFacts (S.content store.old) tn.number current.now.in_force
        (option_map (λ e. e.1) current.now.opened) current.now.block_in_force) }
    ensures read_only { IsReadOnly S.StoreModel
        store.old store.new (IsAnswer result) (result ≡ Err StoreFault.Storage) }
{
    let is_donated = store.block(tn.block())?.is_some();
    let code_holder = store.code(tn.code())?;
    Ok(ServingFacts {
        in_force: current.in_force,
        opened: version_of(current.opened),
        is_donated,
        block_in_force: current.block_in_force,
        code_holder,
    })
}
