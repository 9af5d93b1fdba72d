//! Tests that the messages that have arrived are executed, at every cut of the first port.
use crate::fixture::{FIRST_PORT, Transcript, new_register, transcript_of_all};
use api::{End, Executed, Executor, MessageFault, NoTicks, Options, Progress, TurnLimit};
use register::Register;
use std::alloc::Global;
use store::MemoryStore;

const NO_LIMIT: TurnLimit = TurnLimit {
    messages: u64::MAX,
    output: usize::MAX,
};

// A register, what executes its messages, and their responses.
#[derive(Drop)]
struct Execution {
    executor: Executor,
    register: Register<MemoryStore>,
    output: Vec<u8>,
}

impl Execution {
    fn new(alloc: Global) -> Option<Execution> {
        Some(Execution {
            executor: Executor::new(alloc).ok()?,
            register: new_register(alloc)?,
            output: Vec::new(alloc),
        })
    }

    // Executes messages at the start of these bytes.
    fn execute(&mut self, (input, has_ended, limit): (&[u8], bool, TurnLimit)) -> Option<Executed> {
        let options = Options { clock_route: true };
        let executed = self.executor.execute(
            &mut self.register,
            &mut NoTicks,
            &options,
            input,
            has_ended,
            limit,
            &mut self.output,
        );
        executed.ok()
    }

    // Returns whether the messages that are whole at this cut are executed, and then the others.
    fn are_executed(&mut self, input: &[u8], place: usize) -> Option<bool> {
        let arrived = input.get(..place)?;
        let first = self.execute((arrived, false, NO_LIMIT))?;
        let left = input.get(first.consumed..)?;
        let second = self.execute((left, true, NO_LIMIT))?;
        let held = place.checked_sub(first.consumed)?;
        let wants_more = match first.progress {
            Progress::Wants { wanted } => wanted > held,
            Progress::Paused | Progress::Ended(_) => false,
        };
        Some(
            wants_more
                && second.consumed == left.len()
                && second.progress == Progress::Ended(End::Input)
                && first.count.checked_add(second.count)? == 11,
        )
    }
}

fn are_executed_at(alloc: Global, transcript: &Transcript, place: usize) -> Option<bool> {
    let mut execution = Execution::new(alloc)?;
    let are_executed = execution.are_executed(transcript.requests.as_bytes(), place)?;
    Some(are_executed && execution.output.as_slice() == transcript.responses.as_bytes())
}

// Returns the first cut that changes what is executed.
fn first_wrong_cut(alloc: Global) -> Option<Option<usize>> {
    let transcript = transcript_of_all(alloc, &FIRST_PORT)?;
    for place in 0..transcript.requests.len() {
        if are_executed_at(alloc, &transcript, place) != Some(true) {
            return Some(Some(place));
        }
    }
    Some(None)
}

const TWO_CARRIERS: &str = "POST /carriers HTTP/1.1\r\nx-spid: NPAC\r\ncontent-length: 15\r\n\r\n\
    {\"spid\":\"AAAA\"}POST /carriers HTTP/1.1\r\nx-spid: NPAC\r\nconnection: close\r\n\
    content-length: 15\r\n\r\n{\"spid\":\"BBBB\"}GARBAGE";

// An input, the limit, what is done, and the length of the responses.
type Row<'a> = (&'a str, TurnLimit, Executed, usize);

// Execution pauses after the first carrier, whose message has 76 bytes: it is the only one, or its
// response has 96 bytes. It ends after the last message, and nothing after that is executed. What is
// refused is not consumed.
static ROWS: [Row<'static>; 5] = [
    (
        TWO_CARRIERS,
        TurnLimit {
            messages: 1,
            output: usize::MAX,
        },
        Executed {
            count: 1,
            consumed: 76,
            progress: Progress::Paused,
        },
        96,
    ),
    (
        TWO_CARRIERS,
        TurnLimit {
            messages: 9,
            output: 95,
        },
        Executed {
            count: 1,
            consumed: 76,
            progress: Progress::Paused,
        },
        96,
    ),
    (
        TWO_CARRIERS,
        NO_LIMIT,
        Executed {
            count: 2,
            consumed: 171,
            progress: Progress::Ended(End::Closed),
        },
        192,
    ),
    (
        TWO_CARRIERS,
        TurnLimit {
            messages: 9,
            output: 96,
        },
        Executed {
            count: 2,
            consumed: 171,
            progress: Progress::Ended(End::Closed),
        },
        192,
    ),
    (
        "GARBAGE",
        NO_LIMIT,
        Executed {
            count: 1,
            consumed: 0,
            progress: Progress::Ended(End::Refused(MessageFault::BadHead)),
        },
        112,
    ),
];

// Executes messages of the whole input within the limit. Returns what was done, and the length of
// the responses.
fn executed_of(alloc: Global, input: &str, limit: TurnLimit) -> Option<(Executed, usize)> {
    let mut execution = Execution::new(alloc)?;
    let executed = execution.execute((input.as_bytes(), true, limit))?;
    Some((executed, execution.output.len()))
}

// Returns the first row that is executed differently.
fn first_wrong_row(alloc: Global) -> Option<usize> {
    for (place, (input, limit, executed, length)) in ROWS.iter().enumerate() {
        if executed_of(alloc, input, *limit) != Some((*executed, *length)) {
            return Some(place);
        }
    }
    None
}

#[test]
fn whole_messages_are_executed(rt: HostRuntime) {
    let wrong = (first_wrong_cut(rt.alloc()), first_wrong_row(rt.alloc()));
    assert_eq!(rt; wrong, (Some(None), None));
}
