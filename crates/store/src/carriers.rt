//! The registered carriers, in their order.
ghost use Rattle.std.specs.Prelude.{◌≡◌, Some, None, IfOk, IfErr, OnOk, OnErr, is_some, map, not};
ghost use Rattle.std.specs.FinMap.{get, empty, keys};
ghost use Rattle.settle.specs.Abstraction.{spid_of};
ghost use Rattle.store.specs.Carriers.{registered_in, AreAscending, IsPlaceFor};
ghost use Rattle.store.specs.Maps.{set};

use numbers::Spid;
use std::alloc::{AllocError, Global};
use std::marker::Model;

/// The registered carriers, ascending by their numbers.
///
/// Each request looks up a carrier, and few requests register one.
#[derive(Drop)]
pub struct Carriers {
    all: Vec<Spid>,
}

impl Model for Carriers {
    ghost use Rattle.std.specs.Ordering.{nat_cmp};
    ghost use Rattle.std.specs.FinMap.{FinMap};
    ghost use Rattle.store.specs.Carriers.{coded_carriers, registered_in, AreAscending};

    ghost Value = { FinMap nat_cmp (Unit {0}) };

    ghost coded = { coded_carriers };

    ghost view = { λ c. registered_in c.all.items };

    ghost invariant = { λ c. AreAscending c.all.items };
}

// Returns the place of the carrier with this number, or the place where it belongs.
fn place_of(all: &[Spid], number: u32) -> Result<usize, usize>
    requires { AreAscending all.now }
    ensures found { OnOk result (get (registered_in all.now) number ≡ Some tt) }
    ensures absent { OnErr result (get (registered_in all.now) number ≡ None) }
    ensures place { IfErr result (IsPlaceFor all.now number) }
{
    all.binary_search_by_key(&number, |each| each.number)
}

// Returns whether a carrier with this number is in the list.
// Looks at each of them, since nothing foretells where a search turns or ends.
fn is_listed(all: &[Spid], number: u32) -> bool
    ensures { result ≡ is_some (get (registered_in all.now) number) }
{
    let mut is_listed = false;
    for each in all {
        is_listed |= each.number == number;
    }
    is_listed
}

impl Carriers {
    /// Creates an empty list of carriers.
    pub fn new(alloc: Global) -> Carriers
        ensures { result ≡ empty }
    {
        Carriers {
            all: Vec::new(alloc),
        }
    }

    /// Returns whether the carrier is registered.
    pub fn contains(&self, carrier: Spid) -> bool
        ensures { result ≡ is_some (get self.now (spid_of carrier)) }
    {
        is_listed(&self.all, carrier.number)
    }

    /// Returns all carriers, ascending.
    pub fn as_slice(&self) -> &[Spid]
        ensures { map spid_of result.now ≡ keys self.now }
    {
        &self.all
    }

    /// Adds the carrier, and returns whether it was absent. Changes nothing if an allocation fails.
    pub fn add(&mut self, carrier: Spid) -> Result<bool, AllocError>
        ensures absent { IfOk result (λ is_new. is_new
            ≡ not (is_some (get self.old (spid_of carrier)))) }
        ensures ok { OnOk result (self.new ≡ set self.old (spid_of carrier) (Some tt)) }
        ensures err { OnErr result (self.new ≡ self.old) }
    {
        match place_of(&self.all, carrier.number) {
            Ok(_) => Ok(false),
            Err(place) => {
                self.all.insert(place, carrier)?;
                Ok(true)
            }
        }
    }

    /// Removes the carrier, if it is there.
    pub fn remove(&mut self, carrier: Spid)
        ensures { self.new ≡ set self.old (spid_of carrier) None }
    {
        self.all.retain(|each| carrier.number != each.number);
    }
}
