//! Bytes that are added at the end and taken from the start.
ghost use Rattle.std.specs.Prelude.{◌≡◌, ◌≤◌, [], ◌++◌, drop, vec_len, OnOk, OnErr};

use std::alloc::{AllocError, Global};

// An empty queue keeps at most this capacity.
const KEPT_CAPACITY: usize = 16_384;

/// A queue of bytes: those of `bytes` from `start` on.
#[derive(Drop)]
pub struct ByteQueue {
    pub bytes: Vec<u8>,
    pub start: usize,
    alloc: Global,
    ghost within: { start ≤ vec_len bytes },
}

impl ByteQueue {
    /// Creates an empty queue.
    pub fn new(alloc: Global) -> ByteQueue
        ensures { drop result.start result.bytes.items ≡ [] }
    {
        ByteQueue {
            bytes: Vec::new(alloc),
            start: 0,
            alloc,
        }
    }

    /// Returns the bytes.
    pub fn as_slice(&self) -> &[u8]
        ensures { result.now ≡ drop self.now.start self.now.bytes.items }
    {
        &self.bytes[self.start..]
    }

    /// Removes all bytes, and frees a large buffer.
    pub fn clear(&mut self)
        ensures start { self.new.start ≡ 0 }
        ensures bytes { self.new.bytes.items ≡ [] }
    {
        self.start = 0;
        if self.bytes.capacity() > KEPT_CAPACITY {
            self.bytes = Vec::new(self.alloc);
        } else {
            self.bytes.clear();
        }
    }

    // Moves the bytes to the start of `bytes`.
    fn move_to_start(&mut self)
        ensures start { self.new.start ≡ 0 }
        ensures bytes { self.new.bytes.items ≡ drop self.old.start self.old.bytes.items }
    {
        if self.start > 0 {
            self.bytes.drain(..self.start);
            self.start = 0;
        }
    }

    /// Adds bytes at the end.
    ///
    /// # Errors
    ///
    /// `AllocError` if an allocation fails. Nothing is added.
    pub fn add(&mut self, bytes: &[u8]) -> Result<(), AllocError>
        ensures added { OnOk result (drop self.new.start self.new.bytes.items
            ≡ drop self.old.start self.old.bytes.items ++ bytes.now) }
        ensures refused { OnErr result (drop self.new.start self.new.bytes.items
            ≡ drop self.old.start self.old.bytes.items) }
    {
        self.move_to_start();
        self.bytes.extend_from_slice(bytes)
    }

    /// Takes `count` bytes from the start, or all if there are fewer.
    pub fn take(&mut self, count: usize)
        ensures { drop self.new.start self.new.bytes.items
            ≡ drop count (drop self.old.start self.old.bytes.items) }
    {
        if count < self.bytes.len() - self.start {
            self.start += count;
        } else {
            self.clear();
        }
    }
}
