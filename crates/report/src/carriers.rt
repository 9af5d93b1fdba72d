//! Reads what is pending for each carrier.
ghost use Rattle.std.specs.Prelude.{◌≡◌, IfOk};
ghost use Rattle.report.specs.Carriers.{DescribeCarriers, DescribesCarrier};

use numbers::{Minute, Spid};
use settle::{Store, StoreFault};
use std::alloc::Global;

/// The downloads that are pending for a carrier.
#[derive(Clone, Copy, Debug, PartialEq, Eq)]
pub struct CarrierFigures {
    pub spid: Spid,
    /// How many numbers and blocks have a download pending.
    pub pending: usize,
    /// The minute of sending of the first download in the carrier's queue.
    pub oldest: Option<Minute>,
}

// Reads the figures of a carrier.
fn read_carrier<S: Store>(store: &mut S, spid: Spid) -> Result<CarrierFigures, StoreFault>
    ensures spid { IfOk result (λ figures. figures.spid ≡ spid) }
    ensures value { S.IsUsable store.new → IfOk result (DescribesCarrier (S.content store.old)) }
    ensures same { S.IsUsable store.new
        → S.IsUsable store.old × (S.content store.new ≡ S.content store.old) }
{
    let pending = store.waits(spid)?.len();
    let downloads = store.front(spid, 1)?;
    Ok(CarrierFigures {
        spid,
        pending,
        oldest: downloads.first().map(|download| download.minute),
    })
}

/// Reads the figures of all registered carriers, ascending.
///
/// # Errors
///
/// The store's, or `NoMemory` if an allocation fails.
pub(crate) fn read_carriers<S: Store>(
    alloc: Global,
    store: &mut S,
) -> Result<Vec<CarrierFigures>, StoreFault>
    ensures value { S.IsUsable store.new
        → IfOk result (λ figures. DescribeCarriers (S.content store.old) figures.items) }
    ensures same { S.IsUsable store.new
        → S.IsUsable store.old × (S.content store.new ≡ S.content store.old) }
{
    let carriers = store.carriers()?;
    let mut figures = Vec::new(alloc);
    for spid in &carriers {
        let carrier = read_carrier(store, *spid)?;
        match figures.push(carrier) {
            Ok(()) => {}
            Err(_) => return Err(StoreFault::NoMemory),
        }
    }
    Ok(figures)
}
