//! Tests readers and writers that fail in mid-stream, and ones that are interrupted before each
//! byte: the responses before, and the state after.
use crate::faulty_io::{ChunkedReader, Interruptions, LimitedWriter, MAX_CHUNK};
use crate::fixture::{
    FIRST_PORT, Transcript, has_responses, new_register, served_to_end, transcript_of,
};
use api::{Fault, NoTicks, Options, Served, serve};
use register::Register;
use std::alloc::{AllocError, Global};
use store::MemoryStore;

/// The requests and responses of the first port, and where the first 0, 1 and so on of each end.
#[derive(Drop)]
pub struct Story {
    pub transcript: Transcript,
    request_ends: Vec<usize>,
    response_ends: Vec<usize>,
}

impl Story {
    fn add_first_port(&mut self, alloc: Global) -> Result<(), AllocError> {
        self.request_ends.push(0)?;
        self.response_ends.push(0)?;
        for exchange in &FIRST_PORT {
            self.transcript.add(&transcript_of(alloc, exchange)?)?;
            self.request_ends.push(self.transcript.requests.len())?;
            self.response_ends.push(self.transcript.responses.len())?;
        }
        Ok(())
    }

    /// Returns how many bytes the responses have to all messages that end at or before a place.
    pub fn response_length_at(&self, place: usize) -> Option<usize> {
        let count = count_ends_until(&self.request_ends, place);
        self.response_ends.get(count).copied()
    }
}

/// Returns the first port.
pub fn story_of_first_port(alloc: Global) -> Option<Story> {
    let mut story = Story {
        transcript: Transcript::new(alloc),
        request_ends: Vec::new(alloc),
        response_ends: Vec::new(alloc),
    };
    story.add_first_port(alloc).ok()?;
    Some(story)
}

// Returns how many of the ends after the first are at or before a place.
fn count_ends_until(ends: &[usize], place: usize) -> usize {
    let mut count = 0usize;
    for end in ends {
        if *end > place {
            break;
        }
        count = count.saturating_add(1);
    }
    count.saturating_sub(1)
}

// How the first port is sent and answered: the responses, the end, and how many messages are
// executed.
#[derive(Drop)]
struct Exchanged<'a> {
    reader: ChunkedReader<'a>,
    writer: LimitedWriter,
    responses: &'a str,
    end: Result<Served, Fault>,
    executed: usize,
}

// A reader fails at a place: whole messages are answered.
fn read_fault_at(alloc: Global, story: &Story, place: usize) -> Option<Exchanged<'_>> {
    let executed = count_ends_until(&story.request_ends, place);
    let requests = story.transcript.requests.as_bytes().get(..place)?;
    let end = story.response_length_at(place)?;
    Some(Exchanged {
        reader: ChunkedReader::new(requests, MAX_CHUNK, true),
        writer: LimitedWriter::new(alloc, usize::MAX),
        responses: story.transcript.responses.get(..end)?,
        end: Err(Fault::Read(executed as u64)),
        executed,
    })
}

// A writer fails at a place: the message with the cut response is executed.
fn write_fault_at(alloc: Global, story: &Story, place: usize) -> Option<Exchanged<'_>> {
    let whole = count_ends_until(&story.response_ends, place);
    let requests = story.transcript.requests.as_bytes();
    Some(Exchanged {
        reader: ChunkedReader::new(requests, MAX_CHUNK, false),
        writer: LimitedWriter::new(alloc, place),
        responses: story.transcript.responses.get(..place)?,
        end: Err(Fault::Write(whole as u64)),
        executed: whole.saturating_add(1),
    })
}

// Both are interrupted before each byte: all is answered.
fn interrupted(alloc: Global, story: &Story) -> Exchanged<'_> {
    Exchanged {
        reader: ChunkedReader {
            rest: story.transcript.requests.as_bytes(),
            chunk_size: 1,
            fails_at_end: false,
            interruptions: Interruptions::Now,
        },
        writer: LimitedWriter {
            bytes: Vec::new(alloc),
            capacity: usize::MAX,
            chunk_size: 1,
            interruptions: Interruptions::Now,
        },
        responses: story.transcript.responses.as_str(),
        end: served_to_end(FIRST_PORT.len() as u64),
        executed: FIRST_PORT.len(),
    }
}

// Returns whether the first port is answered like this.
fn is_served_as(
    alloc: Global,
    register: &mut Register<MemoryStore>,
    exchanged: Exchanged<'_>,
) -> bool {
    let mut reader = exchanged.reader;
    let mut writer = exchanged.writer;
    let options = Options { clock_route: true };
    let served = serve(
        alloc,
        register,
        &mut NoTicks,
        &options,
        &mut reader,
        &mut writer,
    );
    let responses = writer.bytes.as_slice();
    served == exchanged.end && responses == exchanged.responses.as_bytes()
}

// Returns whether, besides, the messages that were not executed are answered normally afterwards.
fn is_answered_in(
    alloc: Global,
    register: &mut Register<MemoryStore>,
    story: &Story,
    exchanged: Exchanged<'_>,
) -> Option<bool> {
    let executed = exchanged.executed;
    let is_served = is_served_as(alloc, register, exchanged);
    let start = *story.request_ends.get(executed)?;
    let requests = story.transcript.requests.get(start..)?;
    let start = *story.response_ends.get(executed)?;
    let responses = story.transcript.responses.get(start..)?;
    let end = served_to_end(FIRST_PORT.len().saturating_sub(executed) as u64);
    let is_continued = has_responses(alloc, register, &mut requests.as_bytes(), responses, end);
    Some(is_served && is_continued)
}

// Returns whether it is so with a new register.
fn is_answered(alloc: Global, story: &Story, exchanged: Option<Exchanged<'_>>) -> Option<bool> {
    let exchanged = exchanged?;
    let mut register = new_register(alloc)?;
    is_answered_in(alloc, &mut register, story, exchanged)
}

// Returns the first place where a failing reader or writer is answered differently, or 0 if
// interrupted ones are.
fn first_wrong_place(alloc: Global) -> Option<Option<usize>> {
    let story = story_of_first_port(alloc)?;
    if is_answered(alloc, &story, Some(interrupted(alloc, &story))) != Some(true) {
        return Some(Some(0));
    }
    for place in 0..story.transcript.requests.len() {
        if is_answered(alloc, &story, read_fault_at(alloc, &story, place)) != Some(true) {
            return Some(Some(place));
        }
    }
    for place in 0..story.transcript.responses.len() {
        if is_answered(alloc, &story, write_fault_at(alloc, &story, place)) != Some(true) {
            return Some(Some(place));
        }
    }
    Some(None)
}

// A reader's fault leaves whole messages, a writer's one message more, an interruption all.
#[test]
fn faults_leave_whole_messages(rt: HostRuntime) {
    assert_eq!(rt; first_wrong_place(rt.alloc()), Some(None));
}
