//! The rows of versions, packed.
//!
//! A packed row takes 68 bytes, a `VersionRow` 152. Fields lie in their order: what a query reads
//! comes first, and mostly lies in one line of the processor's cache. None has eight bytes at once,
//! so that the tag of an `Option` takes four only. A missing minute, code or routing is a number
//! beyond all others.
ghost use Rattle.std.specs.Prelude.{◌≡◌, option_map};
ghost use Rattle.numbers.specs.Abstraction.{minute_of, routing_of, subject_of};
ghost use Rattle.model.specs.Abstraction.{status_of};
ghost use Rattle.numbers.specs.declared.cic.Cic.{Cic};
ghost use Rattle.store.specs.PackedRows.{cic_at, minute_at, routing_at, status_at, subject_in};
ghost use Rattle.store.specs.Ranks.{subject_at};
ghost use Rattle.store.specs.ShortNumbers.{short_of};
ghost use Rattle.version.specs.Acknowledging.{is_sending};

use crate::keys::Rank;
use crate::short::{Short, ShortMinute, Truths, Wide};
use model::{Side, Status};
use numbers::{BlockId, Cic, Line, Lrn, Minute, Routing, Spid, Subject};
use settle::VersionRow;
use std::marker::Model;
use version::Version;

// The line of a whole block.
const WHOLE_BLOCK: u16 = 1000;

// The number of a missing minute.
const NO_MINUTE: u64 = Minute::LIMIT;

// The number of a missing carrier identification code.
const NO_CIC: u64 = 10_000;

// A routing's number is its LRN's by this factor, plus its code's.
const CICS: u64 = 1 << 14;

// The number of a missing routing.
const NO_ROUTING: u64 = 10_000_000_000 * CICS;

/// A status without the routing or the minute that is part of some.
#[derive(Clone, Copy)]
pub enum Kind {
    Pending,
    Conflict,
    CancelledByOld,
    CancelledByNew,
    SendingCreate,
    SendingDelete,
    SendingModify,
    Active,
    PartialFailure,
    Failed,
    DisconnectPending,
    Old,
    Canceled,
}

/// A version's row, packed.
#[derive(Drop)]
pub struct PackedRow {
    block: BlockId,
    routing: Short,
    line: u16,
    held: u16,
    kind: Kind,
    // Whether its conflict is spent, whether it is protective, in force, and open.
    truths: Truths,
    attempt: Wide,
    old_provider: Spid,
    new_provider: Spid,
    deadline: Short,
    // The routing or the minute that is part of the status.
    detail: Short,
    due: ShortMinute,
    since: ShortMinute,
    old_at: Short,
    new_at: Short,
}

impl Model for PackedRow {
    ghost use Rattle.model.specs.Content.{VersionRow as Row};
    ghost use Rattle.store.specs.PackedRows.{row_in};

    ghost Value = { Row };

    ghost view = { row_in };
}

fn packed_minute(minute: Option<Minute>) -> Short
    ensures { minute_at (short_of result) ≡ option_map minute_of minute }
{
    match minute {
        None => Short::of(NO_MINUTE),
        Some(minute) => Short::of(minute.number),
    }
}

fn minute_at(number: Short) -> Option<Minute>
    ensures { option_map minute_of result ≡ minute_at (short_of number) }
{
    Minute::new(number.number())
}

/// Returns the number of a routing, or that of a missing one.
pub fn packed_routing(routing: Option<Routing>) -> Short
    ensures { routing_at (short_of result) ≡ option_map routing_of routing }
{
    match routing {
        None => Short::of(NO_ROUTING),
        Some(Routing { lrn, cic: None }) => Short::of(lrn.number * CICS + NO_CIC),
        Some(
            Routing {
                lrn,
                cic: Some(cic),
            },
        ) => Short::of(lrn.number * CICS + u64::from(cic.number)),
    }
}

fn cic_at(number: u64) -> Option<Cic>
    ensures { option_map (λ (c : Cic). c.number) result ≡ cic_at number }
{
    if number < NO_CIC {
        Some(Cic {
            number: number as u16,
        })
    } else {
        None
    }
}

/// Returns the routing of a number, unless the number is that of a missing routing.
pub fn routing_at(number: Short) -> Option<Routing>
    ensures { option_map routing_of result ≡ routing_at (short_of number) }
{
    let number = number.number();
    let lrn = number / CICS;
    if lrn < 10_000_000_000 {
        Some(Routing {
            lrn: Lrn { number: lrn },
            cic: cic_at(number % CICS),
        })
    } else {
        None
    }
}

/// Returns the block of a subject, and the line of a number, or a line that no number has.
pub fn packed_subject(subject: Subject) -> (BlockId, u16)
    ensures { subject_in result.0.number result.1 ≡ subject_of subject }
{
    match subject {
        Subject::Number(tn) => (tn.block(), tn.line().number),
        Subject::Block(block) => (block, WHOLE_BLOCK),
    }
}

/// Returns the subject that was packed.
pub fn subject_in(block: BlockId, line: u16) -> Subject
    ensures { subject_of result ≡ subject_in block.number line }
{
    if line < WHOLE_BLOCK {
        Subject::Number(block.tn(Line { number: line }))
    } else {
        Subject::Block(block)
    }
}

// Returns the kind of a status, and the routing or the minute that is part of it.
fn packed_status(status: Status) -> (Kind, Short)
    ensures { status_at result.0 (short_of result.1) ≡ status_of status }
{
    match status {
        Status::Pending => (Kind::Pending, Short::ZERO),
        Status::Conflict => (Kind::Conflict, Short::ZERO),
        Status::CancelPending(Side::OldProvider) => (Kind::CancelledByOld, Short::ZERO),
        Status::CancelPending(Side::NewProvider) => (Kind::CancelledByNew, Short::ZERO),
        Status::SendingCreate => (Kind::SendingCreate, Short::ZERO),
        Status::SendingDelete => (Kind::SendingDelete, Short::ZERO),
        Status::SendingModify { cic, lrn } => (
            Kind::SendingModify,
            packed_routing(Some(Routing { lrn, cic })),
        ),
        Status::Active => (Kind::Active, Short::ZERO),
        Status::PartialFailure => (Kind::PartialFailure, Short::ZERO),
        Status::Failed => (Kind::Failed, Short::ZERO),
        Status::DisconnectPending(minute) => { (Kind::DisconnectPending, Short::of(minute.number)) }
        Status::Old => (Kind::Old, Short::ZERO),
        Status::Canceled => (Kind::Canceled, Short::ZERO),
    }
}

#[inline(always)]
fn status_at(kind: Kind, detail: Short) -> Status
    ensures { status_of result ≡ status_at kind (short_of detail) }
{
    match kind {
        Kind::Pending => Status::Pending,
        Kind::Conflict => Status::Conflict,
        Kind::CancelledByOld => Status::CancelPending(Side::OldProvider),
        Kind::CancelledByNew => Status::CancelPending(Side::NewProvider),
        Kind::SendingCreate => Status::SendingCreate,
        Kind::SendingDelete => Status::SendingDelete,
        Kind::SendingModify => match routing_at(detail) {
            None => Status::Old,
            Some(Routing { lrn, cic }) => Status::SendingModify { cic, lrn },
        },
        Kind::Active => Status::Active,
        Kind::PartialFailure => Status::PartialFailure,
        Kind::Failed => Status::Failed,
        Kind::DisconnectPending => match minute_at(detail) {
            None => Status::Old,
            Some(minute) => Status::DisconnectPending(minute),
        },
        Kind::Old => Status::Old,
        Kind::Canceled => Status::Canceled,
    }
}

impl PackedRow {
    /// Packs a row.
    pub fn of(row: &VersionRow) -> PackedRow
        ensures { result ≡ row.now }
    {
        let version = &row.version;
        let (block, line) = packed_subject(version.subject);
        let (kind, detail) = packed_status(version.status);
        PackedRow {
            attempt: Wide::of(version.attempt),
            old_provider: version.old_provider,
            new_provider: version.new_provider,
            block,
            due: ShortMinute::of(version.due),
            since: ShortMinute::of(version.since),
            old_at: packed_minute(version.old_at),
            new_at: packed_minute(version.new_at),
            deadline: packed_minute(row.deadline),
            routing: packed_routing(version.routing),
            detail,
            line,
            held: version.held,
            kind,
            truths: Truths::of(
                version.is_conflict_spent,
                version.is_protective,
                row.is_in_force,
                row.is_open,
            ),
        }
    }

    /// Returns a copy of the row, unpacked.
    // Inlined: a row is large, and each return moves it.
    #[inline(always)]
    pub fn copied(&self) -> VersionRow
        ensures { result ≡ self.now }
    {
        VersionRow {
            version: Version {
                subject: self.subject(),
                old_provider: self.old_provider,
                new_provider: self.new_provider,
                due: self.due.minute(),
                routing: self.routing(),
                old_at: minute_at(self.old_at),
                new_at: minute_at(self.new_at),
                status: status_at(self.kind, self.detail),
                since: self.since.minute(),
                attempt: self.attempt.number(),
                held: self.held,
                is_conflict_spent: self.truths.first(),
                is_protective: self.truths.second(),
            },
            deadline: self.deadline(),
            is_in_force: self.truths.third(),
            is_open: self.truths.fourth(),
        }
    }

    fn subject(&self) -> Subject
        ensures { subject_of result ≡ self.now.subject }
    {
        subject_in(self.block, self.line)
    }

    /// Returns the subject's place in the order of subjects.
    pub fn rank(&self) -> Rank
        ensures { subject_at result ≡ self.now.subject }
    {
        let block = u64::from(self.block.number) * 1001;
        Rank {
            number: if self.line < WHOLE_BLOCK {
                block + 1 + u64::from(self.line)
            } else {
                block
            },
        }
    }

    /// Returns whether the version has been broadcast and awaits the answers.
    pub fn is_sending(&self) -> bool
        ensures { result ≡ is_sending self.now.status }
    {
        match self.kind {
            Kind::SendingCreate | Kind::SendingDelete => true,
            Kind::SendingModify => routing_at(self.detail).is_some(),
            Kind::Pending
            | Kind::Conflict
            | Kind::CancelledByOld
            | Kind::CancelledByNew
            | Kind::Active
            | Kind::PartialFailure
            | Kind::Failed
            | Kind::DisconnectPending
            | Kind::Old
            | Kind::Canceled => false,
        }
    }

    /// Returns the subject if the version is in force.
    pub fn holds(&self) -> Option<Subject>
        ensures { option_map subject_of result ≡ self.now.holds }
    {
        if self.truths.third() {
            Some(self.subject())
        } else {
            None
        }
    }

    /// Returns the subject's place if the version is in force.
    pub fn held_rank(&self) -> Option<Rank>
        ensures { option_map subject_at result ≡ self.now.holds }
    {
        let is_in_force = self.truths.third();
        if is_in_force { Some(self.rank()) } else { None }
    }

    /// Returns the subject if the version is open.
    pub fn opens(&self) -> Option<Subject>
        ensures { option_map subject_of result ≡ self.now.opens }
    {
        if self.truths.fourth() {
            Some(self.subject())
        } else {
            None
        }
    }

    /// Returns the subject's place if the version is open.
    pub fn open_rank(&self) -> Option<Rank>
        ensures { option_map subject_at result ≡ self.now.opens }
    {
        let is_open = self.truths.fourth();
        if is_open { Some(self.rank()) } else { None }
    }

    /// Returns the routing.
    pub fn routing(&self) -> Option<Routing>
        ensures { option_map routing_of result ≡ self.now.routing }
    {
        routing_at(self.routing)
    }

    /// Returns the minute when the status ends without a command, if there is one.
    pub fn deadline(&self) -> Option<Minute>
        ensures { option_map minute_of result ≡ self.now.deadline }
    {
        minute_at(self.deadline)
    }
}
