//! Tests a waiting client: responses are flushed before more input is read, and those to messages
//! sent at once are flushed once.
use crate::fixture::{new_register, served_to_end};
use crate::io_faults::{Story, story_of_first_port};
use api::{NoTicks, Options, serve};
use register::Register;
use std::alloc::Global;
use std::cell::Cell;
use std::io;
use std::io::{ErrorKind, Read, Write};
use store::MemoryStore;

// A client that sends a text in two pieces. A server that reads on before enough responses are
// flushed would wait forever, and is refused.
#[derive(Drop)]
struct Client<'a> {
    first: &'a [u8],
    second: &'a [u8],
    due_after_first: usize,
    due_after_both: usize,
    flushed: &'a Cell<usize>,
}

impl Read for Client<'_> {
    fn read(&mut self, buf: &mut [u8]) -> io::Result<usize> {
        if !self.first.is_empty() {
            return self.first.read(buf);
        }
        let due = if self.second.is_empty() {
            self.due_after_both
        } else {
            self.due_after_first
        };
        if self.flushed.get() < due {
            return Err(ErrorKind::TimedOut.into());
        }
        self.second.read(buf)
    }
}

// A writer that keeps its bytes, and notes how many were flushed, and how often.
#[derive(Drop)]
struct FlushRecorder<'a> {
    bytes: Vec<u8>,
    flushed: &'a Cell<usize>,
    flushes: &'a Cell<u64>,
}

impl Write for FlushRecorder<'_> {
    fn write(&mut self, buf: &[u8]) -> io::Result<usize> {
        self.bytes.write(buf)
    }

    fn flush(&mut self) -> io::Result<()> {
        self.flushed.set(self.bytes.len());
        self.flushes.set(self.flushes.get().saturating_add(1));
        Ok(())
    }
}

// Returns how often the responses are flushed to a client that sends the first port cut at `place`,
// if they are right.
fn count_flushes_in(
    alloc: Global,
    register: &mut Register<MemoryStore>,
    story: &Story,
    place: usize,
) -> Option<u64> {
    let requests = story.transcript.requests.as_bytes();
    let (first, second) = requests.split_at_checked(place)?;
    let (flushed, flushes) = (Cell::new(0), Cell::new(0));
    let mut client = Client {
        first,
        second,
        due_after_first: story.response_length_at(place)?,
        due_after_both: story.transcript.responses.len(),
        flushed: &flushed,
    };
    let mut writer = FlushRecorder {
        bytes: Vec::new(alloc),
        flushed: &flushed,
        flushes: &flushes,
    };
    let options = Options { clock_route: true };
    let reader = &mut client;
    let served = serve(alloc, register, &mut NoTicks, &options, reader, &mut writer);
    let is_same = writer.bytes.as_slice() == story.transcript.responses.as_bytes();
    if is_same && served == served_to_end(11) {
        Some(flushes.get())
    } else {
        None
    }
}

fn count_flushes_at(alloc: Global, story: &Story, place: usize) -> Option<u64> {
    let mut register = new_register(alloc)?;
    count_flushes_in(alloc, &mut register, story, place)
}

// Returns how often the responses to the whole first port are flushed, and the first cut of it with
// other responses.
fn flushes_and_wrong_cut(alloc: Global) -> Option<(u64, Option<usize>)> {
    let story = story_of_first_port(alloc)?;
    let flushes = count_flushes_at(alloc, &story, 0)?;
    for place in 0..story.transcript.requests.len() {
        if count_flushes_at(alloc, &story, place).is_none() {
            return Some((flushes, Some(place)));
        }
    }
    Some((flushes, None))
}

#[test]
fn a_waiting_client_gets_its_responses(rt: HostRuntime) {
    assert_eq!(rt; flushes_and_wrong_cut(rt.alloc()), Some((1, None)));
}
