//! Decides which carrier serves a number.
ghost use Rattle.std.specs.Prelude.{◌≡◌, ℕ};
ghost use Rattle.model.specs.Conditions.{is_the};
ghost use Rattle.model.specs.State.{is_served_by, serving, State};
ghost use Rattle.pool.specs.Facts.{carrier_number};
ghost use Rattle.pool.specs.Serving.{carrier_of, server_of, served_by_code, serving_of, ServingFactsMatch};

use numbers::Spid;
use version::Version;

/// The server of a number, and what makes it so.
#[derive(Clone, Copy, Debug, PartialEq, Eq)]
pub enum Server {
    /// The new provider of the number's version in force, or of its open protective one.
    Version(Spid),
    /// The holder of its block.
    Block(Spid),
    /// No carrier: its block is donated and has no holder.
    Pool,
    /// The holder of its code, if the code is open.
    Code(Option<Spid>),
}

/// What the registry and the rows say of a number and its block.
#[derive(Clone, Copy, Debug)]
pub struct ServingFacts {
    /// The number's version in force.
    pub in_force: Option<Version>,
    /// The number's open version.
    pub opened: Option<Version>,
    /// Whether the block is donated.
    pub is_donated: bool,
    /// The block's version in force.
    pub block_in_force: Option<Version>,
    /// The holder of the number's code, if the code is open.
    pub code_holder: Option<Spid>,
}

impl Server {
    /// Returns the carrier that serves the number, if one does.
    pub fn carrier(&self) -> Option<Spid>
        ensures carrier { carrier_number result ≡ carrier_of (server_of self.now) }
        ensures serves { (c : ℕ)
            → is_the c (carrier_number result) ≡ is_served_by c (server_of self.now) }
    {
        match *self {
            Server::Version(carrier) | Server::Block(carrier) => Some(carrier),
            Server::Pool => None,
            Server::Code(holder) => holder,
        }
    }
}

// Returns the server by the number's block or code.
fn server_by_block(facts: &ServingFacts) -> Server
    ensures { server_of result ≡ served_by_code facts.now }
{
    if !facts.is_donated {
        return Server::Code(facts.code_holder);
    }
    match facts.block_in_force {
        Some(version) => Server::Block(version.new_provider),
        None => Server::Pool,
    }
}

/// Returns the server of a number, by the first of these that applies:
///
/// - the new provider of its version in force;
/// - the new provider of its open version, if that is protective;
/// - the holder of its block, or none, if the block is donated;
/// - the holder of its code, or none.
pub fn serving(facts: &ServingFacts) -> Server
    ensures server { server_of result ≡ serving_of facts.now }
    ensures state { (st : State) (n : ℕ)
        → ServingFactsMatch st n facts.now → server_of result ≡ serving st n }
{
    server_by_version(facts)
}

// Returns the server by a version of the number, or by its block or code.
fn server_by_version(facts: &ServingFacts) -> Server
    ensures { server_of result ≡ serving_of facts.now }
{
    match (&facts.in_force, &facts.opened) {
        (Some(version), _) => Server::Version(version.new_provider),
        (None, Some(version)) if version.is_protective => Server::Version(version.new_provider),
        _ => server_by_block(facts),
    }
}
