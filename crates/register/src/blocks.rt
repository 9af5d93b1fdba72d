//! Reads the state of a block and its numbers, for commands on blocks.
ghost use Rattle.settle.specs.StoreContract.{IsAnswer, IsAvailable, IsReadOnly, ReportsStorage};
ghost use Rattle.settle.specs.Abstraction.{clock_row_of};
ghost use Rattle.std.specs.Prelude.{◌≡◌, Err, IfOk, OnOk, IfErr, option_map};
ghost use Rattle.register.specs.Blocks.{IsLast, IsRowThere, IsBlockFound, IsBlockLookupRefused, IsBlockRead, AreBlockFacts, last_id};

use model::Refusal;
use numbers::{BlockId, Spid};
use pool::BlockFacts;
use settle::{BlockRow, ClockRow, Store, StoreFault};
use version::{NumberInUse, Version};

/// What the registry and the rows say of a block.
#[derive(Drop)]
pub struct BlockRead {
    /// The carrier that holds the block's code.
    pub code_holder: Option<Spid>,
    /// The block's row, if the block is donated.
    pub row: Option<BlockRow>,
    /// The version that was made last of the block, with its id.
    pub last: Option<(u64, Version)>,
    /// The block's numbers that have a version in force or an open one.
    pub numbers: Vec<NumberInUse>,
}

impl BlockRead {
    // Returns the donor of the block.
    fn donor(&self) -> Option<Spid>
        ensures { result ≡ option_map (λ row. row.donor) self.now.row }
    {
        match self.row {
            None => None,
            Some(row) => Some(row.donor),
        }
    }

    // Returns the version that was made last of the block.
    fn last(&self) -> Option<Version>
        ensures { result ≡ option_map (λ e. e.1) self.now.last }
    {
        match self.last {
            None => None,
            Some((_, version)) => Some(version),
        }
    }

    /// Returns the facts that a command on the block needs.
    pub fn facts(&self, is_lrn_good: bool, next_id: u64) -> BlockFacts<'_>
        ensures { AreBlockFacts self.now is_lrn_good next_id result }
    {
        BlockFacts {
            code_holder: self.code_holder,
            is_lrn_good,
            donor: self.donor(),
            last: self.last(),
            numbers: &self.numbers,
            next_id,
        }
    }
}

// Returns the version with this id, if an id is given.
fn last_made<S: Store>(store: &mut S, id: Option<u64>) -> Result<Option<(u64, Version)>, StoreFault>
    ensures value { S.IsUsable store.new → IfOk result (IsLast (S.content store.old) id) }
    ensures read_only { IsReadOnly S.StoreModel store.old store.new (IsAnswer result)
        (S.IsUsable store.new × IsRowThere (S.content store.old) id
        × (result ≡ Err StoreFault.Storage)) }
{
    let Some(id) = id else {
        return Ok(None);
    };
    let Some(row) = store.version(id)? else {
        return Err(StoreFault::Storage);
    };
    Ok(Some((id, row.version)))
}

// Returns the id of the version that was made last of a block.
fn last_id(row: Option<BlockRow>) -> Option<u64>
    ensures { result ≡ last_id row }
{
    match row {
        None => None,
        Some(row) => row.last,
    }
}

/// Reads the state of a block.
pub fn read_block<S: Store>(store: &mut S, block: BlockId) -> Result<BlockRead, StoreFault>
    ensures value { S.IsUsable store.new
        → IfOk result (IsBlockRead (S.content store.old) block.number) }
    ensures read_only { IsReadOnly S.StoreModel store.old store.new (IsAnswer result)
        (ReportsStorage (S.IsUsable store.new) (S.content store.old)
        (result ≡ Err StoreFault.Storage)) }
{
    let code_holder = store.code(block.code())?;
    let row = store.block(block)?;
    let last = last_made(store, last_id(row))?;
    let numbers = store.in_block(block)?;
    Ok(BlockRead {
        code_holder,
        row,
        last,
        numbers,
    })
}

/// A block that a caller names, with the clock's row.
#[derive(Drop)]
pub struct BlockFound {
    pub clock: ClockRow,
    pub read: BlockRead,
}

/// Reads the block that a caller names.
///
/// # Errors
///
/// `UnknownCarrier` if `is_known` is false: a carrier of the command is not known.
pub fn find_block<S: Store>(
    store: &mut S,
    is_known: bool,
    block: BlockId,
) -> Result<BlockFound, Refusal>
    ensures found { S.IsUsable store.new
        → IfOk result (λ found. IsBlockFound (S.content store.old) is_known block.number
        (clock_row_of found.clock) found.read) }
    ensures refused { S.IsUsable store.new → IfErr result (IsBlockLookupRefused is_known) }
    ensures open { OnOk result (S.HasHonestDevice store.new → S.IsUsable store.new) }
    ensures read_only { IsReadOnly S.StoreModel store.old store.new (IsAvailable result)
        (ReportsStorage (S.IsUsable store.new) (S.content store.old)
        (result ≡ Err Refusal.Storage)) }
{
    if !is_known {
        return Err(Refusal::UnknownCarrier);
    }
    let Some(clock) = store.clock()? else {
        return Err(Refusal::Storage);
    };
    let read = read_block(store, block)?;
    Ok(BlockFound { clock, read })
}
