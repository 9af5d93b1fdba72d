//! Writes the text that answers a query.

ghost use Rattle.std.specs.Prelude.{◌≡◌, ◌≤◌, ◌++◌, [], OnOk, IfOk, codes, length, option_map, position, string_bytes, string_capacity};
ghost use Rattle.std.specs.List.{position_or_len};
ghost use Rattle.numbers.specs.declared.cic.Cic.{Cic as CicImpl};
ghost use Rattle.numbers.specs.Texts.{lrn_text};
ghost use Rattle.numbers.specs.Abstraction.{routing_of};
ghost use Rattle.telnp.specs.Answer.{goes_before, is_kept, kept, placed, all_placed, added_carrier, answer_parameters, Extends};
ghost use Rattle.telnp.specs.Faults.{parts};
ghost use Rattle.telnp.specs.Laws.{AnswersAreInOrder};
ghost use Rattle.telnp.specs.Uri.{written};
ghost use Rattle.telnp.specs.Abstraction.{part_text, part_texts};

use crate::parameter::name_of;
use crate::parameters::has_name;
use crate::part::Part;
use crate::text::same_name;
use crate::uri::TelUri;
use numbers::{Cic, Lrn, Routing};
use std::alloc::{AllocError, Global};

impl TelUri<'_> {
    ghost use Rattle.std.specs.Prelude.{◌≡◌, ◌≤◌, ◌++◌, OnOk, option_map, string_bytes, string_capacity};
    ghost use Rattle.numbers.specs.Abstraction.{routing_of};
    ghost use Rattle.telnp.specs.Answer.{answer_text, Extends};
    ghost use Rattle.telnp.specs.Abstraction.{uri_of};

    /// Appends the answer to a query by this URI, given the routing that the look-up found, if any.
    ///
    /// A text with `npdi` is appended unchanged. Any other gets `npdi`, which says that the number
    /// has been looked up, and with a routing `rn`, and `cic` if the text has none, each with the
    /// country code 1. Its own `rn` and `rn-context` are left out (RFC 4694, section 5); other
    /// parameters stay as written. `ext`, `isub` and `phone-context` come first, then all others by
    /// name in lower case (RFC 3966, section 3).
    ///
    /// # Errors
    ///
    /// `AllocError` if an allocation fails; a prefix of the answer may have been appended.
    pub fn write_answer(
        &self,
        alloc: Global,
        routing: Option<Routing>,
        out: &mut String,
    ) -> Result<(), AllocError>
        ensures ok { OnOk result (string_bytes out.new
            ≡ string_bytes out.old
            ++ answer_text (uri_of self.now) (option_map routing_of routing)) }
        ensures kept { Extends (string_bytes out.old) (string_bytes out.new) }
        ensures capacity { string_capacity out.old ≤ string_capacity out.new }
    {
        if self.has_npdi() {
            return out.push_str(self.text);
        }
        out.push_str("tel:")?;
        out.push_str(self.number)?;
        match self.parameters {
            None => write_added(routing, out),
            Some(parameters) => {
                let parts = answer_parts(alloc, parameters, routing)?;
                write_parts(out, parts.as_slice())
            }
        }
    }
}

fn write_routing_number(lrn: Lrn, out: &mut String) -> Result<(), AllocError>
    ensures ok { OnOk result (string_bytes out.new
        ≡ string_bytes out.old ++ codes ";npdi;rn=+1" ++ lrn_text lrn.number) }
    ensures kept { Extends (string_bytes out.old) (string_bytes out.new) }
    ensures capacity { string_capacity out.old ≤ string_capacity out.new }
{
    out.push_str(";npdi;rn=+1")?;
    lrn.write(out)
}

fn write_carrier(cic: Option<Cic>, out: &mut String) -> Result<(), AllocError>
    ensures ok { OnOk result (string_bytes out.new
        ≡ string_bytes out.old
        ++ written (added_carrier [] (option_map (λ (c : CicImpl). c.number) cic))) }
    ensures kept { Extends (string_bytes out.old) (string_bytes out.new) }
    ensures capacity { string_capacity out.old ≤ string_capacity out.new }
{
    let Some(cic) = cic else {
        return Ok(());
    };
    out.push_str(";cic=+1")?;
    cic.write(out)
}

// Appends what the answer adds, in order, to a text without parameters.
fn write_added(routing: Option<Routing>, out: &mut String) -> Result<(), AllocError>
    ensures ok { OnOk result (string_bytes out.new
        ≡ string_bytes out.old
        ++ written (answer_parameters [] (option_map routing_of routing))) }
    ensures kept { Extends (string_bytes out.old) (string_bytes out.new) }
    ensures capacity { string_capacity out.old ≤ string_capacity out.new }
{
    let Some(routing) = routing else {
        return out.push_str(";npdi");
    };
    write_carrier(routing.cic, out)?;
    write_routing_number(routing.lrn, out)
}

// Returns the parameters of the answer, in order, to a text with these parameters.
fn answer_parts<'a>(
    alloc: Global,
    parameters: &'a str,
    routing: Option<Routing>,
) -> Result<Vec<Part<'a>>, AllocError>
    ensures { IfOk result (λ answered. part_texts answered.items
        ≡ answer_parameters (parts 59 parameters.now) (option_map routing_of routing)) }
{
    let mut sorted = Vec::new(alloc);
    place_kept(&mut sorted, parameters)?;
    place(&mut sorted, Part::Npdi)?;
    if let Some(routing) = routing {
        place(&mut sorted, Part::RoutingNumber(routing.lrn))?;
        if let Some(cic) = routing.cic
            && !has_name("cic", parameters)
        {
            place(&mut sorted, Part::Carrier(cic))?;
        }
    }
    Ok(sorted)
}

// Returns whether a query's parameter is kept: all except `rn` and `rn-context`.
fn is_kept(part: &str) -> bool
    ensures { result ≡ is_kept part.now }
{
    let name = name_of(part);
    !(same_name(name, "rn") || same_name(name, "rn-context"))
}

// Inserts each parameter that is kept.
fn place_kept<'a>(sorted: &mut Vec<Part<'a>>, parameters: &'a str) -> Result<(), AllocError>
    ensures { OnOk result (part_texts sorted.new.items
        ≡ all_placed (part_texts sorted.old.items) (kept (parts 59 parameters.now))) }
{
    for part in parameters.split(';') {
        if is_kept(part) {
            place(sorted, Part::Written(part))?;
        }
    }
    Ok(())
}

fn first_after(sorted: &[Part], part: &Part) -> Option<usize>
    ensures { result ≡ position (λ q. goes_before (part_text part.now) (part_text q)) sorted.now }
{
    sorted.iter().position(|q| part.goes_before(q))
}

// Returns the index to insert the parameter at: before the first that it goes before.
fn place_of(sorted: &[Part], part: &Part) -> usize
    ensures place { result
        ≡ position_or_len (λ q. goes_before (part_text part.now) (part_text q)) sorted.now }
    ensures within { result ≤ length sorted.now }
{
    match first_after(sorted, part) {
        Some(place) => place,
        None => sorted.len(),
    }
}

fn place<'a>(sorted: &mut Vec<Part<'a>>, part: Part<'a>) -> Result<(), AllocError>
    ensures { OnOk result (part_texts sorted.new.items
        ≡ placed (part_text part.entry) (part_texts sorted.old.items)) }
{
    let place = place_of(sorted.as_slice(), &part);
    sorted.insert(place, part)?;
    Ok(())
}

// Appends each parameter after a `;`.
fn write_parts(out: &mut String, parts: &[Part]) -> Result<(), AllocError>
    ensures ok { OnOk result
        (string_bytes out.new ≡ string_bytes out.old ++ written (part_texts parts.now)) }
    ensures kept { Extends (string_bytes out.old) (string_bytes out.new) }
    ensures capacity { string_capacity out.old ≤ string_capacity out.new }
{
    for part in parts {
        out.push(';')?;
        part.write(out)?;
    }
    Ok(())
}

/// States that the parameters of an answer are those kept, each as written, and those added, in
/// order: `ext`, `isub` and `phone-context` first, then all others by name in lower case.
pub fn answers_are_in_order()
    ensures { AnswersAreInOrder }
{}
