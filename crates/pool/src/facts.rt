//! Facts about a block.
ghost use Rattle.std.specs.Prelude.{◌≡◌};
ghost use Rattle.std.specs.List.{list_any};
ghost use Rattle.pool.specs.Facts.{has_open_port, is_in_force, is_open_port};

use numbers::{Spid, Tn};
use version::{NumberInUse, Version};

/// What the registry and the rows say of a block, for a command of a registered caller.
#[derive(Clone, Copy, Debug)]
pub struct BlockFacts<'a> {
    /// The holder of the block's code, if the code is open.
    pub code_holder: Option<Spid>,
    /// Whether the routing number, if the command has one, is that of the carrier to receive the
    /// calls: the donor of a donation, the holder of an assignment.
    pub is_lrn_good: bool,
    /// The donor of the block, if it is donated.
    pub donor: Option<Spid>,
    /// The block's last version.
    pub last: Option<Version>,
    /// The block's numbers that have a version in force or an open one, without duplicates.
    pub numbers: &'a [NumberInUse],
    /// The id of the next version.
    pub next_id: u64,
}

// Returns whether a number is being ported: it has an open version and none in force.
fn is_open_port(number: &NumberInUse) -> bool
    ensures { result ≡ is_open_port number.now }
{
    number.is_open && !number.is_in_force
}

impl BlockFacts<'_> {
    // Returns whether a number of the block is being ported.
    pub(crate) fn has_open_port(&self) -> bool
        ensures { result ≡ has_open_port self.now.numbers.now }
    {
        self.numbers.iter().any(|number| is_open_port(number))
    }

    // Returns whether this number has a version in force.
    pub(crate) fn is_in_force(&self, tn: Tn) -> bool
        ensures { result ≡ list_any (is_in_force tn.number) self.now.numbers.now }
    {
        self.numbers.iter().any(|number| number.is_in_force && tn.number == number.tn.number)
    }
}
