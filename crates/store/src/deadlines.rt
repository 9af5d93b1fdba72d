//! The index that finds versions by their deadlines.
ghost use Rattle.std.specs.Prelude.{◌≡◌, ◌≢◌, ◌<◌, Some, IfSome, IfNone, OnOk, true, false, length, is_some, take, []};
ghost use Rattle.std.proofs.Props.{props};
ghost use Rattle.std.specs.Ordering.{nat_cmp};
ghost use Rattle.std.specs.BTreeMap as tree;
ghost use Rattle.store.specs.DueRows.{DueVersion as DueVersionModel, due_version_of, due_in, ids_due, HasDue, KeepsDue, KeepsOtherDue, KeepsIds, KeepsOtherIds, TakesLast, TakesLastDue, IsLeastMinute, KeepsFirst};

use crate::keys::DueVersion;
use std::alloc::{AllocError, Global};
use std::collections::BTreeMap;

/// The versions with a deadline: for each minute, by its number, their ids, the earliest added first.
///
/// A deadline that was the last to be added to its minute is deleted at once, as most are. Any other
/// stays until its minute comes.
#[derive(Drop)]
pub struct Deadlines {
    alloc: Global,
    /// The ids of each minute's versions.
    pub ids: BTreeMap<u64, Vec<u64>>,
    /// No key has an earlier minute. Mostly it is after the present one, and then nothing is due.
    pub least: u64,
    ghost is_least: { IsLeastMinute (due_in ids) least } by { Prim.hlevel props },
}

// Takes the id from the list if it is the last one.
fn take_last(ids: &mut Vec<u64>, id: u64)
    ensures others { KeepsOtherIds ids.old.items ids.new.items id }
    ensures adds { KeepsIds ids.new.items ids.old.items }
    ensures last { TakesLast ids.old.items ids.new.items id }
{
    let last = ids.as_slice().last().copied();
    if last == Some(id) {
        let _ = ids.pop();
    }
}

// Adds the key. Changes nothing if an allocation fails.
#[inline(never)]
fn add_id(
    ids: &mut BTreeMap<u64, Vec<u64>>,
    alloc: Global,
    key: DueVersion,
) -> Result<(), AllocError>
    ensures there { OnOk result (due_in ids.new (due_version_of key) ≡ true) }
    ensures keeps { KeepsDue (due_in ids.old) (due_in ids.new) }
    ensures adds { KeepsOtherDue (due_in ids.new) (due_in ids.old) (Some key) }
{
    if let Some(own) = ids.get_mut(&key.minute.number) {
        own.push(key.id)?;
        return Ok(());
    }
    let mut own = Vec::new(alloc);
    own.push(key.id)?;
    match ids.insert(key.minute.number, own) {
        Ok(_) => Ok(()),
        Err(_) => Err(AllocError),
    }
}

// Deletes the key if it was the last to be added to its minute.
#[inline(never)]
fn remove_id(ids: &mut BTreeMap<u64, Vec<u64>>, key: DueVersion)
    ensures others { (q : DueVersionModel) → due_in ids.old q ≡ true → due_version_of key ≢ q
        → due_in ids.new q ≡ true }
    ensures adds { KeepsDue (due_in ids.new) (due_in ids.old) }
    ensures last { TakesLast (ids_due ids.old key.minute.number) (ids_due ids.new key.minute.number)
        key.id }
{
    if let Some(own) = ids.get_mut(&key.minute.number) {
        take_last(own, key.id);
    }
}

// Deletes the ids of a minute after the first `count`.
fn truncate_ids(ids: &mut BTreeMap<u64, Vec<u64>>, minute: u64, count: usize)
    ensures kept { KeepsFirst ids.old ids.new minute count }
    ensures adds { KeepsDue (due_in ids.new) (due_in ids.old) }
    ensures own { ids_due ids.new minute ≡ take count (ids_due ids.old minute) }
{
    if let Some(own) = ids.get_mut(&minute) {
        own.truncate(count);
    }
}

impl Deadlines {
    /// Creates an empty index.
    pub fn new(alloc: Global) -> Deadlines
        ensures { (k : DueVersionModel) → due_in result.ids k ≡ false }
    {
        Deadlines {
            alloc,
            ids: BTreeMap::new(alloc),
            least: u64::MAX,
        }
    }

    /// Returns the least minute of the index, and its ids.
    pub fn first(&self) -> Option<(u64, &[u64])>
        ensures least { IfSome result (λ found. IsLeastMinute (due_in self.now.ids) found.0) }
        ensures ids { IfSome result (λ found. found.1.now ≡ ids_due self.now.ids found.0) }
        ensures there { IfSome result
            (λ found. is_some (tree.get nat_cmp self.now.ids found.0) ≡ true) }
        ensures none { IfNone result ((q : DueVersionModel) → due_in self.now.ids q ≡ false) }
    {
        match self.ids.first_key_value() {
            None => None,
            Some((minute, ids)) => Some((*minute, ids.as_slice())),
        }
    }

    /// Takes note that no key has an earlier minute than this one.
    pub fn raise(&mut self, minute: u64)
        requires { IsLeastMinute (due_in self.old.ids) minute }
        ensures same { self.new.ids ≡ self.old.ids }
        ensures least { self.new.least ≡ minute }
    {
        self.least = minute;
    }

    /// Adds the key, if there is one. Changes nothing if an allocation fails.
    pub fn put(&mut self, key: Option<DueVersion>) -> Result<(), AllocError>
        ensures there { OnOk result (HasDue (due_in self.new.ids) key) }
        ensures keeps { KeepsDue (due_in self.old.ids) (due_in self.new.ids) }
        ensures adds { KeepsOtherDue (due_in self.new.ids) (due_in self.old.ids) key }
    {
        match key {
            None => Ok(()),
            Some(key) => {
                self.least = self.least.min(key.minute.number);
                add_id(&mut self.ids, self.alloc, key)
            }
        }
    }

    /// Deletes the key, if there is one and it was the last to be added to its minute.
    pub fn delete(&mut self, key: Option<DueVersion>)
        ensures others { KeepsOtherDue (due_in self.old.ids) (due_in self.new.ids) key }
        ensures adds { KeepsDue (due_in self.new.ids) (due_in self.old.ids) }
        ensures last { TakesLastDue self.old.ids self.new.ids key }
    {
        if let Some(key) = key {
            remove_id(&mut self.ids, key);
        }
    }

    /// Deletes the ids of a minute after the first `count`.
    pub fn truncate(&mut self, minute: u64, count: usize)
        ensures kept { KeepsFirst self.old.ids self.new.ids minute count }
        ensures adds { KeepsDue (due_in self.new.ids) (due_in self.old.ids) }
        ensures own { ids_due self.new.ids minute ≡ take count (ids_due self.old.ids minute) }
    {
        truncate_ids(&mut self.ids, minute, count);
    }

    /// Deletes a minute with all its ids.
    pub fn remove(&mut self, minute: u64)
        ensures rest { KeepsFirst self.old.ids self.new.ids minute 0 }
        ensures adds { KeepsDue (due_in self.new.ids) (due_in self.old.ids) }
        ensures own { ids_due self.new.ids minute ≡ [] }
        ensures fewer { is_some (tree.get nat_cmp self.old.ids minute) ≡ true
            → tree.btree_map_len self.new.ids < tree.btree_map_len self.old.ids }
    {
        let _ = self.ids.remove(&minute);
    }
}
