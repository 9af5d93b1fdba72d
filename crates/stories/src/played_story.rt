//! A story, message by message.
use crate::fault::Fault;
use crate::story::{BREAK, FILE, Pieces, new_register, serve_connection, write_end};
use register::Register;
use settle::Store;
use std::alloc::Global;
use store::MemoryStore;
use windows::Windows;

const END_OF_HEAD: &[u8] = b"\r\n\r\n";

// A message and its response.
#[derive(Clone, Copy)]
struct PlayedMessage {
    // Where its bytes end among those of the story, with the unread ones after it.
    request_end: usize,
    // Where its response ends among those of the story.
    response_end: usize,
    // How many bytes it has.
    length: usize,
    // Whether its connection ends after it.
    ends_connection: bool,
}

/// The messages and the responses of a story.
#[derive(Drop)]
pub struct PlayedStory {
    requests: Vec<u8>,
    responses: Vec<u8>,
    messages: Vec<PlayedMessage>,
    /// The responses, with a line after those of each connection, as the whole connections have
    /// them.
    pub output: Vec<u8>,
}

/// Returns where the head of the first message ends, if it does.
pub fn head_length(bytes: &[u8]) -> Option<usize> {
    for start in 0..bytes.len() {
        if bytes.split_at(start).1.starts_with(END_OF_HEAD) {
            return Some(start + END_OF_HEAD.len());
        }
    }
    None
}

// Returns the number after the colon of a line, if the line is that of the body's length.
fn length_in(line: &str) -> Option<usize> {
    let (name, value) = line.split_once(':')?;
    if name == "content-length" {
        value.trim().parse::<usize>().ok()
    } else {
        None
    }
}

// Returns how many bytes the body has, as the head gives them.
fn body_length(head: &[u8]) -> usize {
    match str::from_utf8(head) {
        Ok(text) => text.split("\r\n").find_map(length_in).unwrap_or(0),
        Err(_) => 0,
    }
}

// Splits off the first message. Bytes without a head are one message.
fn cut(bytes: &[u8]) -> (&[u8], &[u8]) {
    match head_length(bytes) {
        None => (bytes, &[]),
        Some(head) => {
            let head = head.min(bytes.len());
            let body = body_length(bytes.split_at(head).0);
            bytes.split_at(head.saturating_add(body).min(bytes.len()))
        }
    }
}

impl PlayedStory {
    fn new(alloc: Global) -> PlayedStory {
        PlayedStory {
            requests: Vec::new(alloc),
            responses: Vec::new(alloc),
            messages: Vec::new(alloc),
            output: Vec::new(alloc),
        }
    }

    // Adds a message, with the rest of its connection, and its response. Returns how many messages
    // were answered, and how serving ended.
    fn add(
        &mut self,
        alloc: Global,
        register: &mut Register<MemoryStore>,
        message: &[u8],
        rest: &[u8],
    ) -> Result<(u64, &'static str), Fault> {
        let mut response = Vec::new(alloc);
        let (count, ending) = serve_connection(
            alloc,
            register,
            Pieces::whole(message),
            &mut response,
        );
        let is_read_on = ending == "input";
        self.requests
            .extend_from_slice(if is_read_on { message } else { rest })?;
        self.responses.extend_from_slice(&response)?;
        self.output.extend_from_slice(&response)?;
        let message = PlayedMessage {
            request_end: self.requests.len(),
            response_end: self.responses.len(),
            length: message.len(),
            ends_connection: !is_read_on || message.len() == rest.len(),
        };
        match self.messages.push(message) {
            Ok(()) => Ok((count, ending)),
            Err(_refused) => Err(Fault::Memory),
        }
    }

    // Adds the messages of a connection.
    fn add_connection(
        &mut self,
        alloc: Global,
        register: &mut Register<MemoryStore>,
        connection: &[u8],
    ) -> Result<(), Fault> {
        let mut rest = connection;
        let mut all = 0u64;
        let mut ending = "input";
        for _ in 0..connection.len() {
            if rest.is_empty() || ending != "input" {
                break;
            }
            let (message, after) = cut(rest);
            let (count, end) = self.add(alloc, register, message, rest)?;
            all = all.saturating_add(count);
            ending = end;
            rest = after;
        }
        write_end(&mut self.output, all, ending)?;
        Ok(())
    }

    /// Plays a story, each message on a connection of its own.
    pub fn of(alloc: Global, windows: &Windows, story: &[u8]) -> Result<PlayedStory, Fault> {
        let mut register = new_register(alloc, windows)?;
        let mut played = PlayedStory::new(alloc);
        for connection in story.split(|byte| *byte == BREAK) {
            played.add_connection(alloc, &mut register, connection)?;
        }
        Ok(played)
    }

    /// Returns how many messages there are.
    pub fn len(&self) -> usize {
        self.messages.len()
    }

    /// Returns whether a file takes the place of a connection.
    pub fn has_file(&self) -> bool {
        self.requests.contains(&FILE)
    }

    /// Returns how many bytes the messages have.
    pub fn size(&self) -> usize {
        self.requests.len()
    }

    // Returns where the bytes of the first `count` messages end, and their responses.
    fn ends_of(&self, count: usize) -> (usize, usize) {
        let last = match count.checked_sub(1) {
            Some(last) => self.messages.get(last),
            None => None,
        };
        match last {
            Some(message) => (message.request_end, message.response_end),
            None => (0, 0),
        }
    }

    // Returns the bytes of the messages from `from` to before `to`.
    fn requests_between(&self, from: usize, to: usize) -> &[u8] {
        let range = self.ends_of(from).0..self.ends_of(to).0;
        self.requests.get(range).unwrap_or(&[])
    }

    /// Returns the responses to these messages.
    pub fn responses_between(&self, from: usize, to: usize) -> &[u8] {
        let range = self.ends_of(from).1..self.ends_of(to).1;
        self.responses.get(range).unwrap_or(&[])
    }

    /// Returns the response to a message.
    pub fn response(&self, place: usize) -> &[u8] {
        self.responses_between(place, place.saturating_add(1))
    }

    /// Returns the bytes of a message, without the unread ones after it.
    pub fn message(&self, place: usize) -> &[u8] {
        let bytes = self.requests_between(place, place.saturating_add(1));
        match self.messages.get(place) {
            Some(message) => bytes.get(..message.length).unwrap_or(bytes),
            None => bytes,
        }
    }

    fn ends_connection(&self, place: usize) -> bool {
        match self.messages.get(place) {
            Some(message) => message.ends_connection,
            None => false,
        }
    }

    /// Returns a register's responses to the messages from `from` to before `to`, on as few
    /// connections as possible.
    pub fn serve_between<S: Store>(
        &self,
        alloc: Global,
        register: &mut Register<S>,
        from: usize,
        to: usize,
    ) -> Vec<u8> {
        let mut responses = Vec::new(alloc);
        let mut first = from;
        for place in from..to {
            let next = place.saturating_add(1);
            if next == to || self.ends_connection(place) {
                let connection = Pieces::whole(self.requests_between(first, next));
                serve_connection(alloc, register, connection, &mut responses);
                first = next;
            }
        }
        responses
    }

    /// Returns whether a register answers these messages as the story does.
    pub fn has_same_responses<S: Store>(
        &self,
        alloc: Global,
        register: &mut Register<S>,
        from: usize,
        to: usize,
    ) -> bool {
        let responses = self.serve_between(alloc, register, from, to);
        responses.as_slice() == self.responses_between(from, to)
    }
}
