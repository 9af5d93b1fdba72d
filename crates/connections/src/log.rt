//! The log: a line for each connection that has ended, and for each failure of the device.
use crate::socket::Peer;
use api::Tally;
use hub::Ending;
use std::alloc::{AllocError, Global};
use std::io::Write;
use std::time::Duration;

// Returns the word that the log has for how a connection ended.
fn name(ending: Ending) -> &'static str {
    match ending {
        Ending::Ended => "ended",
        Ending::Closed => "closed",
        Ending::Refused => "refused",
        Ending::Idle => "idle",
        Ending::Message => "message",
        Ending::Sending => "sending",
        Ending::Broken => "broken",
        Ending::NoMemory => "no_memory",
        Ending::Storage => "storage",
    }
}

// Returns the callers, separated by commas: `+` is for further ones, `-` for none.
fn callers(alloc: Global, tally: &Tally) -> Result<String, AllocError> {
    let mut text = String::new(alloc);
    for caller in tally.callers.iter().flatten() {
        if !text.is_empty() {
            text.push(',')?;
        }
        caller.write(&mut text)?;
    }
    if tally.has_more {
        text.push_str(",+")?;
    }
    if text.is_empty() {
        text.push('-')?;
    }
    Ok(text)
}

// Returns the line of a connection that is closed at `now`.
fn line(alloc: Global, peer: &Peer, now: Duration) -> Result<String, AllocError> {
    let tally = peer.tally();
    let spids = callers(alloc, tally)?;
    let open_for = peer.open_for(now);
    let seconds = open_for.as_secs();
    let millis = open_for.subsec_millis();
    format!(in alloc;
        "connection={} peer={} spids={spids} messages={} refusals={} \
         seconds={seconds}.{millis:03} end={}\n",
        peer.peer.number,
        peer.peer.address,
        tally.messages,
        tally.refusals,
        name(peer.ending().unwrap_or(Ending::Broken))
    )
}

// Writes a line, if there is memory for it and the writer takes it.
fn write<L: Write>(line: Result<String, AllocError>, log: &mut L) {
    if let Ok(line) = line {
        let _ = log.write_all(line.as_bytes());
    }
}

/// Writes the line of a connection that has ended.
pub fn log_connection<L: Write>(alloc: Global, peer: &Peer, now: Duration, log: &mut L) {
    write(line(alloc, peer, now), log);
}

/// Writes that the device failed while messages of a connection were executed: for the
/// `failures`-th time since the store was opened.
pub fn log_failure<L: Write>(alloc: Global, number: u64, failures: u64, log: &mut L) {
    write(
        format!(in alloc; "storage connection={number} failures={failures}\n"),
        log,
    );
}
