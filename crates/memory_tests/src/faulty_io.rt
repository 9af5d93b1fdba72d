//! Readers and writers that fail or are interrupted, for the tests.
use std::alloc::Global;
use std::io;
use std::io::{ErrorKind, Read, Write};

/// The most bytes at once of a reader or a writer without a smaller limit.
pub const MAX_CHUNK: usize = 8192;

/// Which calls are interrupted.
#[derive(Clone, Copy)]
pub enum Interruptions {
    None,
    /// This call, and then every other one.
    Now,
    /// The next call, and then every other one.
    Next,
}

impl Interruptions {
    // Returns whether this call is interrupted.
    fn is_now(&mut self) -> bool {
        match *self {
            Interruptions::None => false,
            Interruptions::Now => {
                *self = Interruptions::Next;
                true
            }
            Interruptions::Next => {
                *self = Interruptions::Now;
                false
            }
        }
    }
}

/// A reader that returns its bytes, at most `chunk_size` at once, and then ends or fails.
#[derive(Drop)]
pub struct ChunkedReader<'a> {
    pub rest: &'a [u8],
    pub chunk_size: usize,
    pub fails_at_end: bool,
    pub interruptions: Interruptions,
}

impl<'a> ChunkedReader<'a> {
    /// Creates a reader that is not interrupted.
    pub fn new(rest: &'a [u8], chunk_size: usize, fails_at_end: bool) -> ChunkedReader<'a> {
        ChunkedReader {
            rest,
            chunk_size,
            fails_at_end,
            interruptions: Interruptions::None,
        }
    }
}

impl Read for ChunkedReader<'_> {
    fn read(&mut self, buf: &mut [u8]) -> io::Result<usize> {
        if self.interruptions.is_now() {
            return Err(ErrorKind::Interrupted.into());
        }
        if self.rest.is_empty() && self.fails_at_end {
            return Err(ErrorKind::ConnectionReset.into());
        }
        let count = buf.len().min(self.chunk_size);
        self.rest.read(&mut buf[..count])
    }
}

/// A writer that takes `capacity` bytes, at most `chunk_size` at once, and then fails.
#[derive(Drop)]
pub struct LimitedWriter {
    pub bytes: Vec<u8>,
    pub capacity: usize,
    pub chunk_size: usize,
    pub interruptions: Interruptions,
}

impl LimitedWriter {
    /// Creates a writer that is not interrupted.
    pub fn new(alloc: Global, capacity: usize) -> LimitedWriter {
        LimitedWriter {
            bytes: Vec::new(alloc),
            capacity,
            chunk_size: MAX_CHUNK,
            interruptions: Interruptions::None,
        }
    }
}

impl Write for LimitedWriter {
    fn write(&mut self, buf: &[u8]) -> io::Result<usize> {
        if self.interruptions.is_now() {
            return Err(ErrorKind::Interrupted.into());
        }
        let room = self.capacity.min(self.chunk_size);
        let count = buf.len().min(room);
        if count == 0 {
            return Err(ErrorKind::StorageFull.into());
        }
        self.capacity = self.capacity.saturating_sub(count);
        self.bytes.write(&buf[..count])
    }

    fn flush(&mut self) -> io::Result<()> {
        if self.interruptions.is_now() {
            Err(ErrorKind::Interrupted.into())
        } else {
            Ok(())
        }
    }
}
