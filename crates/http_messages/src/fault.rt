//! Faults of a message that is not executed.
ghost use Rattle.std.specs.Prelude.{◌≡◌, ◌≤◌, length};
ghost use Rattle.http_messages.specs.Faults.{message_name};

/// Why a message was not executed. The value is the fault's number.
#[derive(Clone, Copy, Debug, PartialEq, Eq)]
pub enum MessageFault {
    BadRequest = 41,
    NoPath = 42,
    BadMethod = 43,
    TooLarge = 44,
    BadHead = 45,
    CutBody = 46,
}

impl MessageFault {
    /// Returns the fault's name as the answer writes it.
    pub fn name(self) -> &'static str
        ensures text { result.now ≡ message_name self }
        ensures short { length result.now ≤ 16 }
    {
        match self {
            MessageFault::BadRequest => "bad_request",
            MessageFault::NoPath => "no_path",
            MessageFault::BadMethod => "bad_method",
            MessageFault::TooLarge => "too_large",
            MessageFault::BadHead => "bad_head",
            MessageFault::CutBody => "cut_body",
        }
    }
}
