//! The failures that a response reports instead of a reply, with their names, numbers and statuses.
ghost use Rattle.std.specs.Prelude.{◌≡◌, ◌≤◌, length};
ghost use Rattle.model.specs.declared.refusal.Refusal.TheVariants.{NoMemory};
ghost use Rattle.json_api.specs.declared.fault.Failure.TheVariants.{Refused, Uri, Message};
ghost use Rattle.telnp.specs.Faults.{fault_name};
ghost use Rattle.http_messages.specs.Faults.{message_status};
ghost use Rattle.json_api.specs.Response.{IsAnswered};
ghost use Rattle.json_api.specs.Failures.{failure_name, failure_number, failure_status, fault_number, refusal_name, refusal_status};

use http_messages::MessageFault;
use model::Refusal;
use std::alloc::AllocError;
use telnp::TelFault;

/// Why a message got no reply: the register refused it, or its URI or the message has a fault.
#[derive(Clone, Copy, Debug, PartialEq, Eq)]
pub enum Failure {
    /// A refusal of the register.
    Refused(Refusal),
    /// A fault of a query's URI.
    Uri(TelFault),
    /// A fault of the message.
    Message(MessageFault),
}

impl From<Refusal> for Failure {
    ghost from_gives = { λ refusal failure. failure ≡ Refused refusal };

    fn from(refusal: Refusal) -> Failure {
        Failure::Refused(refusal)
    }
}

impl From<AllocError> for Failure {
    ghost from_gives = { λ _ failure. failure ≡ Refused NoMemory };

    fn from(_refused: AllocError) -> Failure {
        Failure::Refused(Refusal::NoMemory)
    }
}

impl From<TelFault> for Failure {
    ghost from_gives = { λ fault failure. failure ≡ Uri fault };

    fn from(fault: TelFault) -> Failure {
        Failure::Uri(fault)
    }
}

impl From<MessageFault> for Failure {
    ghost from_gives = { λ fault failure. failure ≡ Message fault };

    fn from(fault: MessageFault) -> Failure {
        Failure::Message(fault)
    }
}

fn name_of(refusal: Refusal) -> &'static str
    ensures text { result.now ≡ refusal_name refusal }
    ensures short { length result.now ≤ 16 }
{
    match refusal {
        Refusal::UnknownCarrier => "unknown_carrier",
        Refusal::NotAdmin => "not_admin",
        Refusal::UnknownCode => "unknown_code",
        Refusal::CarrierTaken => "carrier_taken",
        Refusal::CodeTaken => "code_taken",
        Refusal::LrnTaken => "lrn_taken",
        Refusal::BadLrn => "bad_lrn",
        Refusal::InPool => "in_pool",
        Refusal::WrongOld => "wrong_old",
        Refusal::NotFound => "not_found",
        Refusal::NotYours => "not_yours",
        Refusal::Busy => "busy",
        Refusal::WrongStatus => "wrong_status",
        Refusal::DuePast => "due_past",
        Refusal::DueMismatch => "due_mismatch",
        Refusal::NotConcurred => "not_concurred",
        Refusal::BeforeDue => "before_due",
        Refusal::ConflictSpent => "conflict_spent",
        Refusal::TooLate => "too_late",
        Refusal::TooEarly => "too_early",
        Refusal::Protected => "protected",
        Refusal::Contaminated => "contaminated",
        Refusal::OpenPorts => "open_ports",
        Refusal::BlockTaken => "block_taken",
        Refusal::NotQueued => "not_queued",
        Refusal::OutOfOrder => "out_of_order",
        Refusal::ClockBack => "clock_back",
        Refusal::Full => "full",
        Refusal::Storage => "storage",
        Refusal::NoMemory => "no_memory",
    }
}

#[tactic(auto, using(crate::proofs::TelNames::short_name))]
fn name_of_uri_fault(fault: TelFault) -> &'static str
    ensures text { result.now ≡ fault_name fault }
    ensures short { length result.now ≤ 16 }
{
    fault.name()
}

fn number_of_uri_fault(fault: TelFault) -> u8
    ensures { result ≡ fault_number fault }
{
    match fault {
        TelFault::NotTel => 31,
        TelFault::BadNumber => 32,
        TelFault::BadParameter => 33,
        TelFault::ParameterTwice => 34,
        TelFault::LocalNumber => 35,
        TelFault::TooLong => 36,
    }
}

fn status_of(refusal: Refusal) -> u16
    ensures value { result ≡ refusal_status refusal }
    ensures answered { IsAnswered result }
{
    match refusal {
        Refusal::UnknownCarrier | Refusal::NotAdmin | Refusal::NotYours => 403,
        Refusal::UnknownCode | Refusal::NotFound | Refusal::NotQueued => 404,
        Refusal::Full | Refusal::Storage | Refusal::NoMemory => 503,
        _ => 409,
    }
}

fn status_of_message(fault: MessageFault) -> u16
    ensures value { result ≡ message_status fault }
    ensures answered { IsAnswered result }
{
    match fault {
        MessageFault::NoPath => 404,
        MessageFault::BadMethod => 405,
        MessageFault::TooLarge => 413,
        MessageFault::BadRequest | MessageFault::BadHead | MessageFault::CutBody => 400,
    }
}

impl Failure {
    /// Returns the name on the wire.
    pub fn name(self) -> &'static str
        ensures text { result.now ≡ failure_name self }
        ensures short { length result.now ≤ 16 }
    {
        match self {
            Failure::Refused(refusal) => name_of(refusal),
            Failure::Uri(fault) => name_of_uri_fault(fault),
            Failure::Message(fault) => fault.name(),
        }
    }

    /// Returns the number on the wire.
    pub(crate) fn number(self) -> u8
        ensures { result ≡ failure_number self }
    {
        match self {
            Failure::Refused(refusal) => refusal.number(),
            Failure::Uri(fault) => number_of_uri_fault(fault),
            Failure::Message(fault) => fault as u8,
        }
    }

    /// Returns the HTTP status of the response.
    pub fn status(self) -> u16
        ensures value { result ≡ failure_status self }
        ensures answered { IsAnswered result }
    {
        match self {
            Failure::Refused(refusal) => status_of(refusal),
            Failure::Uri(_) => 400,
            Failure::Message(fault) => status_of_message(fault),
        }
    }
}
