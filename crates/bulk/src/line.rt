//! Writes lines of files into reserved memory.
ghost use Rattle.std.specs.Prelude.{◌≡◌, ◌+◌, ◌≤◌, ◌++◌, ◌∷◌, [], string_bytes, string_len, string_capacity, IfErr, IfOk, OnOk, OnErr, Some, false, true, length, codes, decimal, ◌||◌};
ghost use Rattle.bulk.specs.Making.{is_refusal, outcome_line};
ghost use Rattle.bulk.specs.Report.{report_line};
ghost use Rattle.std.specs.Io.KnownBytes.{Appends};
ghost use Rattle.delivery.specs.Mirrors.{in_force_of};
ghost use Rattle.http_messages.specs.Sending.{AppendsPrefix};
ghost use Rattle.numbers.specs.Texts.{subject_text};
ghost use Rattle.numbers.specs.Abstraction.{routing_of, subject_of};
ghost use Rattle.bulk.specs.Exports.{in_force_line, routing_fields};
ghost use Rattle.bulk.specs.Findings.{finding_line};

use crate::command_result::CommandResult;
use crate::digits::put_digits;
use crate::fault::FaultKind;
use crate::finding::SubjectFinding;
use crate::writing::InLine;
use delivery::RoutedRow;
use http_messages::send_all;
use json_api::{Failure, put, put_number};
use numbers::{Routing, Subject, Tn};
use std::alloc::{AllocError, Global};
use std::io::Write;

/// The most bytes of a line.
pub const LINE_CAPACITY: usize = 128;

/// A line being written.
#[derive(Drop)]
pub struct LineBuffer {
    pub text: String,
    /// Whether a line of a bad row or of a refusal was written.
    pub has_refusal: bool,
    pub ghost room: { 128 ≤ string_capacity text },
}

// Inlined too, because each row has a subject.
#[inline(always)]
fn put_subject(out: &mut String, subject: Subject)
    requires { string_len out.old + 10 ≤ string_capacity out.old }
    ensures bytes { string_bytes out.new
        ≡ string_bytes out.old ++ subject_text (subject_of subject) }
    ensures len { string_len out.new ≤ string_len out.old + 10 }
    ensures capacity { string_capacity out.old ≤ string_capacity out.new }
{
    match subject {
        Subject::Number(tn) => put_digits::<10>(out, tn.number),
        Subject::Block(block) => put_digits::<7>(out, u64::from(block.number)),
    }
}

fn put_routing(out: &mut String, routing: &Routing)
    requires { string_len out.old + 15 ≤ string_capacity out.old }
    ensures bytes { string_bytes out.new
        ≡ string_bytes out.old ++ routing_fields (Some (routing_of routing.now)) }
    ensures len { string_len out.new ≤ string_len out.old + 15 }
    ensures capacity { string_capacity out.old ≤ string_capacity out.new }
{
    put_digits::<10>(out, routing.lrn.number);
    put(out, ",");
    if let Some(cic) = routing.cic {
        put_digits::<4>(out, u64::from(cic.number));
    }
}

impl LineBuffer {
    /// Reserves memory for the longest line.
    ///
    /// # Errors
    ///
    /// `AllocError` if the allocation fails.
    pub fn new(alloc: Global) -> Result<LineBuffer, AllocError>
        ensures { IfOk result (λ line. line.has_refusal ≡ false) }
    {
        Ok(LineBuffer {
            text: String::with_capacity(alloc, LINE_CAPACITY)?,
            has_refusal: false,
        })
    }

    /// Writes the first line of a file.
    pub fn set_first(&mut self, header: &str)
        requires { length header.now ≤ 127 }
        ensures text { string_bytes self.new.text ≡ header.now ++ 10 ∷ [] }
        ensures refusal { self.new.has_refusal ≡ self.old.has_refusal }
    {
        self.text.clear();
        put(&mut self.text, header);
        put(&mut self.text, "\n");
    }

    /// Writes the row of a subject in force.
    pub fn set_in_force(&mut self, row: &RoutedRow)
        ensures { string_bytes self.new.text ≡ in_force_line (in_force_of row.now) }
    {
        self.text.clear();
        put_subject(&mut self.text, row.subject);
        put(&mut self.text, ",");
        put_routing(&mut self.text, &row.routing);
        put(&mut self.text, "\n");
    }

    /// Writes the row of a finding.
    pub fn set_finding(&mut self, found: &SubjectFinding)
        ensures { string_bytes self.new.text ≡ finding_line found.now }
    {
        self.text.clear();
        put_subject(&mut self.text, found.subject);
        put(&mut self.text, ",");
        put(&mut self.text, found.finding.name());
        put(&mut self.text, "\n");
    }

    // Writes a row's number and a comma.
    fn set_row(&mut self, row: u64)
        ensures bytes { string_bytes self.new.text ≡ decimal row ++ 44 ∷ [] }
        ensures len { string_len self.new.text ≤ 21 }
        ensures refusal { self.new.has_refusal ≡ self.old.has_refusal }
    {
        self.text.clear();
        put_number(&mut self.text, row);
        put(&mut self.text, ",");
    }

    /// Writes the report's line for a bad row.
    pub fn set_bad(&mut self, row: u64)
        ensures text { string_bytes self.new.text ≡ report_line row [] (codes "bad_row") [] }
        ensures refusal { self.new.has_refusal ≡ true }
    {
        self.has_refusal = true;
        self.set_row(row);
        put(&mut self.text, ",bad_row,\n");
    }

    /// Writes the report's line for a command on a number.
    pub fn set_outcome(&mut self, row: u64, tn: Tn, outcome: CommandResult)
        ensures text { string_bytes self.new.text ≡ outcome_line row tn.number outcome }
        ensures refusal { self.new.has_refusal ≡ self.old.has_refusal || is_refusal outcome }
    {
        self.set_row(row);
        put_subject(&mut self.text, Subject::Number(tn));
        match outcome {
            CommandResult::Version(id) => {
                put(&mut self.text, ",ok,");
                put_number(&mut self.text, id);
            }
            CommandResult::Refused(refusal) => {
                self.has_refusal = true;
                put(&mut self.text, ",");
                put(&mut self.text, Failure::Refused(refusal).name());
                put(&mut self.text, ",");
            }
        }
        put(&mut self.text, "\n");
    }

    /// Sends the line to `writer`, and flushes.
    ///
    /// Not proved: that it flushes.
    pub fn send<W: Write>(&self, writer: &mut W) -> Result<(), FaultKind>
        ensures ok { OnOk result
            (Appends (W.contents writer.old) (W.contents writer.new) (string_bytes self.now.text)) }
        ensures err { OnErr result (AppendsPrefix (W.contents writer.old) (W.contents writer.new)
            (string_bytes self.now.text)) }
        ensures kind { IfErr result (λ kind. kind ≡ FaultKind.Write) }
    {
        match send_all(writer, self.text.as_bytes(), true) {
            Ok(()) => Ok(()),
            Err(_) => Err(FaultKind::Write),
        }
    }
}

impl InLine for RoutedRow {
    ghost text = { λ row. in_force_line (in_force_of row) };

    fn put_in(&self, line: &mut LineBuffer) {
        line.set_in_force(self);
    }
}

impl InLine for SubjectFinding {
    ghost text = { finding_line };

    fn put_in(&self, line: &mut LineBuffer) {
        line.set_finding(self);
    }
}
