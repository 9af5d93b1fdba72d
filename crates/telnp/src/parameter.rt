//! Reads one parameter of a tel URI.

ghost use Rattle.std.specs.Prelude.{◌≡◌};
ghost use Rattle.std.specs.List.{list_all};
ghost use Rattle.telnp.specs.Bytes.{is_name_byte};
ghost use Rattle.telnp.specs.Grammar.{is_name, is_value, is_value_rest, wanted_after, requires_value, is_valued, is_parameter, parameter_of, name_of};
ghost use Rattle.telnp.specs.Abstraction.{parameter_model};

use crate::bytes::{is_hex, is_name_byte, is_value_byte};
use crate::text::{cut_at, same_name};

/// A parameter of a tel URI: its name in its original case, and the value after the first `=`, if
/// it has one. Both are spans of the text.
#[derive(Clone, Copy, Debug)]
pub struct Parameter<'a> {
    pub name: &'a str,
    pub value: Option<&'a str>,
}

/// Returns the parameter in a text that has no `;`.
pub fn parameter_of(part: &str) -> Parameter<'_>
    ensures { parameter_model result ≡ parameter_of part.now }
{
    match cut_at(part, '=') {
        None => Parameter {
            name: part,
            value: None,
        },
        Some((name, value)) => Parameter {
            name,
            value: Some(value),
        },
    }
}

/// Returns the name of a parameter.
pub fn name_of(part: &str) -> &str
    ensures { result.now ≡ name_of part.now }
{
    match cut_at(part, '=') {
        None => part,
        Some((name, _)) => name,
    }
}

fn are_of_name(bytes: &[u8]) -> bool
    ensures { result ≡ list_all is_name_byte bytes.now }
{
    bytes.iter().all(|b| is_name_byte(*b))
}

fn is_name(name: &[u8]) -> bool
    ensures { result ≡ is_name name.now }
{
    !name.is_empty() && are_of_name(name)
}

// Returns how many hexadecimal digits must follow byte `b`, if it is allowed after a byte that
// `wanted` of them must follow.
fn wanted_after(wanted: u8, b: u8) -> Option<u8>
    ensures { result ≡ wanted_after wanted b }
{
    if wanted > 0 {
        if is_hex(b) { Some(wanted - 1) } else { None }
    } else if b == b'%' {
        Some(2)
    } else if is_value_byte(b) {
        Some(0)
    } else {
        None
    }
}

fn is_value(value: &[u8]) -> bool
    ensures { result ≡ is_value value.now }
{
    let mut wanted = 0;
    for b in value {
        match wanted_after(wanted, *b) {
            Some(next) => wanted = next,
            None => return false,
        }
    }
    wanted == 0 && !value.is_empty()
}

fn requires_value(name: &str) -> bool
    ensures { result ≡ requires_value name.now }
{
    same_name(name, "rn")
        || same_name(name, "cic")
        || same_name(name, "rn-context")
        || same_name(name, "cic-context")
}

/// Returns whether a text that has no `;` has the form of a parameter.
pub fn is_parameter(part: &str) -> bool
    ensures { result ≡ is_parameter part.now }
{
    match cut_at(part, '=') {
        None => is_name(part.as_bytes()) && !requires_value(part),
        Some((name, value)) => {
            is_name(name.as_bytes()) && is_value(value.as_bytes()) && !same_name(name, "npdi")
        }
    }
}
