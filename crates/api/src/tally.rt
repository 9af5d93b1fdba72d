//! Counts the executed messages, for a log.
use numbers::Spid;

/// How many callers a tally names at most.
pub const CALLERS: usize = 4;

/// What was executed: how many messages, how many of them were refused, and who called.
#[derive(Clone, Copy, Debug, PartialEq, Eq)]
pub struct Tally {
    /// The responses.
    pub messages: u64,
    /// The responses with a status other than 200.
    pub refusals: u64,
    /// The first callers, each once.
    pub callers: [Option<Spid>; CALLERS],
    /// Whether others called too.
    pub has_more: bool,
}

impl Tally {
    /// The tally before the first message.
    pub const EMPTY: Tally = Tally {
        messages: 0,
        refusals: 0,
        callers: [None; CALLERS],
        has_more: false,
    };

    // Adds a caller, unless it is known.
    fn add_caller(&mut self, caller: Spid) {
        for place in 0..CALLERS {
            if self.callers[place].is_none() {
                self.callers[place] = Some(caller);
                return;
            }
            if self.callers[place] == Some(caller) {
                return;
            }
        }
        self.has_more = true;
    }

    // Counts a response, and its message's caller.
    pub(crate) fn note(&mut self, caller: Option<Spid>, response: &[u8]) {
        self.messages = self.messages.saturating_add(1);
        // The status follows `HTTP/1.1 `.
        if response.get(9) != Some(&b'2') {
            self.refusals = self.refusals.saturating_add(1);
        }
        if let Some(caller) = caller {
            self.add_caller(caller);
        }
    }
}
