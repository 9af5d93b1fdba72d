//! The order of the pending broadcasts.
ghost use Rattle.std.specs.Prelude.{◌≡◌, [], true, false, OnOk, OnErr};
ghost use Rattle.store.specs.WaitRows.{Download};
ghost use Rattle.store.specs.QueueRows.{queue_key_of, has_key, KeepsKeys, KeepsOtherKeys};

use delivery::DownloadKey;
use std::alloc::{AllocError, Global};
use std::collections::BTreeMap;

/// The keys of the pending broadcasts, in the order of queues.
///
/// A new key is put in its place only when a queue is read, or when another key is deleted before
/// it. Most broadcasts are answered before that, the last one first. If an allocation then fails, a
/// deleted key may stay; a queue skips it.
#[derive(Drop)]
pub struct QueueOrder {
    /// The keys in their places.
    pub sorted: BTreeMap<DownloadKey, ()>,
    /// The other keys, the earliest added first.
    pub recent: Vec<DownloadKey>,
}

impl QueueOrder {
    /// Creates an empty order.
    pub fn new(alloc: Global) -> QueueOrder
        ensures { (d : Download) → has_key result d ≡ false }
    {
        QueueOrder {
            sorted: BTreeMap::new(alloc),
            recent: Vec::new(alloc),
        }
    }

    /// Adds a key. Changes nothing if an allocation fails.
    pub fn put(&mut self, key: DownloadKey) -> Result<(), AllocError>
        ensures there { OnOk result (has_key self.new (queue_key_of key) ≡ true) }
        ensures keeps { KeepsKeys (has_key self.old) (has_key self.new) }
        ensures adds { KeepsOtherKeys (queue_key_of key) (has_key self.new) (has_key self.old) }
        ensures refused { OnErr result (KeepsKeys (has_key self.new) (has_key self.old)) }
    {
        self.recent.push(key)?;
        Ok(())
    }

    /// Puts each key in its place. If an allocation fails, it may do so with some only.
    pub fn sort(&mut self) -> Result<(), AllocError>
        ensures sorted { OnOk result (self.new.recent.items ≡ []) }
        ensures keeps { KeepsKeys (has_key self.old) (has_key self.new) }
        ensures adds { KeepsKeys (has_key self.new) (has_key self.old) }
    {
        for key in &self.recent {
            let _ = self.sorted.insert(*key, ())?;
        }
        self.recent.clear();
        Ok(())
    }

    /// Deletes a key. If an allocation fails, it may stay.
    pub fn delete(&mut self, key: DownloadKey)
        ensures keeps { KeepsOtherKeys (queue_key_of key) (has_key self.old) (has_key self.new) }
        ensures adds { KeepsKeys (has_key self.new) (has_key self.old) }
    {
        if self.recent.as_slice().last().copied() == Some(key) {
            let _ = self.recent.pop();
            return;
        }
        let _ = self.sort();
        let _ = self.sorted.remove(&key);
    }
}
