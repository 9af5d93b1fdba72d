//! Looks up the version that a caller names.
ghost use Rattle.settle.specs.StoreContract.{IsAnswer, IsAvailable, IsReadOnly};
ghost use Rattle.std.specs.Prelude.{◌≡◌, Err, IfOk, IfErr, OnOk, is_some};
ghost use Rattle.std.specs.FinMap.{get};
ghost use Rattle.model.specs.Conditions.{is_the};
ghost use Rattle.settle.specs.Abstraction.{clock_row_of};
ghost use Rattle.register.specs.Looking.{AreHeld, HasHeldSet, HasSet, IsLookedUp, IsLookupRefused};
ghost use Rattle.version.specs.Abstraction.{windows_of};

use model::Refusal;
use numbers::{Lrn, Spid};
use settle::{ClockRow, Store, StoreFault, VersionRow};
use windows::Windows;

/// A version that a caller names, with the clock's row.
#[derive(Drop)]
pub struct LookedUp {
    pub clock: ClockRow,
    pub row: VersionRow,
    /// The windows of the set that the version holds.
    pub held: Windows,
}

/// Looks up the version that a caller names.
///
/// # Errors
///
/// `UnknownCarrier` if `is_known` is false: the caller is not known. Then `NotFound` if no version
/// has the id.
#[inline(always)]
pub fn look_up<S: Store>(store: &mut S, is_known: bool, id: u64) -> Result<LookedUp, Refusal>
    ensures found { S.IsUsable store.new → IfOk result
        (λ found. IsLookedUp (S.content store.old) is_known id (clock_row_of found.clock) found.row
        (windows_of found.held)) }
    ensures refused { S.IsUsable store.new
        → IfErr result (IsLookupRefused (S.content store.old) is_known id) }
    ensures read_only { IsReadOnly S.StoreModel store.old store.new (IsAvailable result)
        (S.IsUsable store.new × HasHeldSet (S.content store.old) id
        × (result ≡ Err Refusal.Storage)) }
{
    if !is_known {
        return Err(Refusal::UnknownCarrier);
    }
    let Some(clock) = store.clock()? else {
        return Err(Refusal::Storage);
    };
    let Some(row) = store.version(id)? else {
        return Err(Refusal::NotFound);
    };
    let held = held_windows(store, &clock, row.version.held)?;
    Ok(LookedUp { clock, row, held })
}

/// Looks up the version that a carrier names.
///
/// # Errors
///
/// `UnknownCarrier` if the carrier is not registered, then `NotFound` if no version has the id.
#[inline(always)]
pub fn look_up_for<S: Store>(store: &mut S, carrier: Spid, id: u64) -> Result<LookedUp, Refusal>
    ensures found { S.IsUsable store.new
        → IfOk result (λ found. IsLookedUp (S.content store.old)
        (is_some (get (S.content store.old).carriers carrier.number)) id
        (clock_row_of found.clock) found.row (windows_of found.held)) }
    ensures refused { S.IsUsable store.new
        → IfErr result (IsLookupRefused (S.content store.old)
        (is_some (get (S.content store.old).carriers carrier.number)) id) }
    ensures read_only { IsReadOnly S.StoreModel store.old store.new (IsAvailable result)
        (S.IsUsable store.new × HasHeldSet (S.content store.old) id
        × (result ≡ Err Refusal.Storage)) }
    // A shut store answers no look-up.
    ensures open { OnOk result (S.HasHonestDevice store.new → S.IsUsable store.new) }
{
    let is_carrier = store.carrier(carrier)?;
    look_up(store, is_carrier, id)
}

/// Returns the windows of the set that a version holds: the present set, or an earlier one.
#[inline(always)]
pub fn held_windows<S: Store>(
    store: &mut S,
    clock: &ClockRow,
    held: u16,
) -> Result<Windows, StoreFault>
    ensures value { S.IsUsable store.new → IfOk result
        (λ windows. AreHeld (S.content store.old) (clock_row_of clock.now) held
        (windows_of windows)) }
    ensures read_only { IsReadOnly S.StoreModel store.old store.new (IsAnswer result)
        (S.IsUsable store.new × HasSet (S.content store.old) (clock_row_of clock.now) held
        × (result ≡ Err StoreFault.Storage)) }
{
    if held == clock.present.number {
        return Ok(clock.present.windows);
    }
    match store.window_set(held)? {
        Some(windows) => Ok(windows),
        None => Err(StoreFault::Storage),
    }
}

/// Returns whether the routing number is registered and the carrier's.
pub fn is_lrn_of<S: Store>(store: &mut S, lrn: Lrn, carrier: Spid) -> Result<bool, StoreFault>
    ensures value { S.IsUsable store.new → IfOk result
        (λ good. good ≡ is_the carrier.number (get (S.content store.old).lrns lrn.number)) }
    ensures read_only { IsReadOnly S.StoreModel
        store.old store.new (IsAnswer result) (result ≡ Err StoreFault.Storage) }
{
    match store.lrn(lrn)? {
        None => Ok(false),
        Some(owner) => Ok(carrier.number == owner.number),
    }
}
