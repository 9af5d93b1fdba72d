//! A buffer of the bytes that were read and not yet consumed.
ghost use Rattle.std.specs.Prelude.{◌≡◌, ◌≢◌, ℕ, ◌≤◌, ◌<◌, vec_len, IfOk, OnOk, OnErr, Ok, Err, true, false, List, [], ◌++◌, take, length, drop, max, ◌+◌};
ghost use Rattle.std.specs.Io.KnownBytes.{Keeps, IsAtEnd};

use crate::next::NextFault;
use std::alloc::{AllocError, Global};
use std::io;
use std::io::Read;

mod reads;

/// The most bytes of a head, with the empty lines before it.
pub const HEAD_LIMIT: usize = 8192;

/// Bytes read and not yet consumed: `bytes` from `start` to `filled`.
#[derive(Drop)]
pub struct ReadBuffer {
    bytes: Vec<u8>,
    start: usize,
    filled: usize,
    ghost begins: { start ≤ filled },
    ghost fits: { filled ≤ vec_len bytes },
    ghost size: { 8192 ≤ vec_len bytes },
}

impl ReadBuffer {
    ghost use Rattle.http_messages.specs.ReadBuffer.{buffered_bytes, remaining_input};

    /// Creates an empty buffer for a head of up to 8,192 bytes.
    ///
    /// # Errors
    ///
    /// `AllocError` if the allocation fails.
    pub fn new(alloc: Global) -> Result<ReadBuffer, AllocError>
        ensures empty { IfOk result (λ buffer. buffered_bytes buffer ≡ []) }
    {
        let bytes = vec![in alloc; 0; HEAD_LIMIT]?;
        Ok(ReadBuffer {
            bytes,
            start: 0,
            filled: 0,
        })
    }

    /// Returns the buffered bytes.
    pub fn buffered(&self) -> &[u8]
        ensures { result.now ≡ buffered_bytes self.now }
    {
        &self.bytes[self.start..self.filled]
    }

    // Returns the number of buffered bytes.
    fn len(&self) -> usize
        ensures { result ≡ length (buffered_bytes self.now) }
    {
        self.filled - self.start
    }

    /// Discards the first `n` buffered bytes. Moves `start` and no byte.
    pub fn discard(&mut self, n: usize)
        requires { n ≤ length (buffered_bytes self.old) }
        ensures { buffered_bytes self.new ≡ drop n (buffered_bytes self.old) }
    {
        self.start += n;
        if self.start == self.filled {
            self.start = 0;
            self.filled = 0;
        }
    }

    // Makes the buffer hold up to `most` bytes.
    fn reserve(&mut self, most: usize) -> Result<(), AllocError>
        ensures buffered { buffered_bytes self.new ≡ buffered_bytes self.old }
        ensures capacity { OnOk result (most ≤ vec_len self.new.bytes) }
    {
        if self.bytes.len() < most {
            self.bytes.resize(most, 0)?;
        }
        Ok(())
    }

    // Moves the buffered bytes to the start of `bytes`.
    fn move_to_start(&mut self)
        ensures size { vec_len self.new.bytes ≡ vec_len self.old.bytes }
        ensures buffered { buffered_bytes self.new ≡ buffered_bytes self.old }
        ensures start { self.new.start ≡ 0 }
    {
        if self.start > 0 {
            self.bytes.copy_within(self.start..self.filled, 0);
            self.filled -= self.start;
            self.start = 0;
        }
    }

    // Reads once, to after the buffered bytes, until at most `most` are buffered. Reads 0 bytes only
    // at the end of the input.
    fn fill<R: Read>(&mut self, reader: &mut R, most: usize) -> io::Result<usize>
        requires below { length (buffered_bytes self.old) < most }
        requires capacity { most ≤ vec_len self.old.bytes }
        ensures size { vec_len self.new.bytes ≡ vec_len self.old.bytes }
        ensures input { Keeps (remaining_input self.old (R.remaining reader.old))
            (remaining_input self.new (R.remaining reader.new)) }
        ensures grows { IfOk result (λ n. (more : List ℕ) × (length more ≡ n)
            × (buffered_bytes self.new ≡ buffered_bytes self.old ++ more)) }
        ensures most { length (buffered_bytes self.new) ≤ most }
        ensures end { result ≡ Ok 0 → IsAtEnd (R.remaining reader.new) }
        ensures same { OnErr result (buffered_bytes self.new ≡ buffered_bytes self.old) }
    {
        self.move_to_start();
        let filled = self.filled;
        let n = reads::read_at(reader, &mut self.bytes, filled, most)?;
        self.filled = filled + n;
        Ok(n)
    }

    /// Reads until `wanted` bytes are buffered. Returns whether the input ended before. Buffers at
    /// most 8,192 bytes, or `wanted` if that is more.
    ///
    /// # Errors
    ///
    /// `Read` if the reader fails, `Memory` if the buffer cannot grow. `Memory` precedes `Read`.
    pub(crate) fn read_until<R: Read>(
        &mut self,
        reader: &mut R,
        wanted: usize,
    ) -> Result<bool, NextFault>
        requires few { length (buffered_bytes self.old) < wanted }
        ensures input { Keeps (remaining_input self.old (R.remaining reader.old))
            (remaining_input self.new (R.remaining reader.new)) }
        ensures grows { (more : List ℕ)
            × (buffered_bytes self.new ≡ buffered_bytes self.old ++ more) }
        ensures most { length (buffered_bytes self.new) ≤ max 8192 wanted }
        ensures enough { result ≡ Ok false → wanted ≤ length (buffered_bytes self.new) }
        ensures ended { result ≡ Ok true → IsAtEnd (R.remaining reader.new) }
        ensures capacity { result ≢ Err NextFault.Memory → wanted ≤ vec_len self.new.bytes }
        ensures failed { result ≡ Err NextFault.Read → length (buffered_bytes self.new) < wanted }
        ensures unread { result ≡ Err NextFault.Memory
            → (buffered_bytes self.new ≡ buffered_bytes self.old)
            × (R.remaining reader.new ≡ R.remaining reader.old) }
    {
        let most = wanted.max(HEAD_LIMIT);
        if self.reserve(most).is_err() {
            return Err(NextFault::Memory);
        }
        'reads: while self.len() < wanted {
            match self.fill(reader, most) {
                Ok(0) => return Ok(true),
                Ok(_) => {}
                Err(_) => return Err(NextFault::Read),
            }
        }
        Ok(false)
    }
}
