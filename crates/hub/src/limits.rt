//! How many connections are open at once, how long each may take, and how many messages share a
//! commit.
ghost use Rattle.std.specs.Prelude.{◌≡◌};
ghost use Rattle.hub.specs.Waits.{AreLimits, limit_of};

use std::time::Duration;

/// What a connection waits for.
#[derive(Clone, Copy, Debug, PartialEq, Eq)]
pub enum Wait {
    /// The first byte of the next message.
    Idle,
    /// The rest of a message.
    Message,
    /// Bytes that the client takes.
    Sending,
    /// The end of the input, which is discarded.
    Discarding,
}

/// How many connections are open at once, how long each may wait, and how many messages share a
/// commit.
#[derive(Clone, Copy, Debug, PartialEq, Eq)]
pub struct Limits {
    pub at_once: usize,
    /// The most messages in a group of commits. With 1, each commits by itself.
    pub group: u64,
    /// From the first byte of a message to its last.
    pub message: Duration,
    /// Between messages.
    pub idle: Duration,
    /// Between messages, while all places are taken and another connection waits for one.
    pub idle_when_full: Duration,
    /// Until the client takes further bytes.
    pub sending: Duration,
    /// Until the client ends its input, after the last response was sent.
    pub discarding: Duration,
}

impl Limits {
    /// Returns limits for `at_once` connections, where at most `group` messages share a commit, with
    /// seconds for a message, between messages, and until further bytes are taken. Between messages
    /// it is 1 second while another connection waits. Input is discarded for 2 seconds.
    pub fn new(at_once: usize, group: u64, message: u64, idle: u64, sending: u64) -> Limits
        ensures { AreLimits at_once group message idle 1 sending 2 result }
    {
        Limits {
            at_once,
            group,
            message: Duration::from_secs(message),
            idle: Duration::from_secs(idle),
            idle_when_full: Duration::from_secs(1),
            sending: Duration::from_secs(sending),
            discarding: Duration::from_secs(2),
        }
    }

    /// Returns how long a connection may wait so.
    pub fn limit(&self, wait: Wait) -> Duration
        ensures { result ≡ limit_of self.now wait }
    {
        match wait {
            Wait::Idle => self.idle,
            Wait::Message => self.message,
            Wait::Sending => self.sending,
            Wait::Discarding => self.discarding,
        }
    }
}
