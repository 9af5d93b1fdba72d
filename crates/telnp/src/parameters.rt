//! Reads the parameters of a tel URI, separated by semicolons.

ghost use Rattle.std.specs.Prelude.{◌≡◌, ◌∷◌, [], ◌<◌, length, IfSome};
ghost use Rattle.std.specs.List.{list_all};
ghost use Rattle.std.specs.Option.{option_map_or};
ghost use Rattle.telnp.specs.Grammar.{is_parameter, has_name, times, has_repetition};
ghost use Rattle.telnp.specs.Faults.{fault_in_parts, parts};

use crate::fault::TelFault;
use crate::parameter::{Parameter, is_parameter, name_of, parameter_of};
use crate::text::{cut_at, same_name};

fn are_parameters(parameters: &str) -> bool
    ensures { result ≡ list_all is_parameter (parts 59 parameters.now) }
{
    parameters.split(';').all(|part| is_parameter(part))
}

/// Returns whether one of the parameters has this name, ignoring case.
pub fn has_name(name: &str, parameters: &str) -> bool
    ensures { result ≡ has_name name.now (parts 59 parameters.now) }
{
    parameters
        .split(';')
        .any(|part| same_name(name_of(part), name))
}

// Returns the first parameter, and the text of the others if there are any.
fn first_part(parameters: &str) -> (&str, Option<&str>)
    ensures parts { parts 59 parameters.now
        ≡ result.0.now ∷ option_map_or (λ r. parts 59 r.now) result.1 [] }
    ensures shorter { IfSome result.1 (λ r. length r.now < length parameters.now) }
{
    match cut_at(parameters, ';') {
        None => (parameters, None),
        Some((first, others)) => (first, Some(others)),
    }
}

// Returns how many parameters have this name, ignoring case.
fn times(name: &str, parameters: &str) -> usize
    ensures { result ≡ times name.now (parts 59 parameters.now) }
{
    parameters
        .split(';')
        .filter(|part| same_name(name_of(*part), name))
        .count()
}

fn has_repetition(parameters: &str) -> bool
    ensures { result ≡ has_repetition (parts 59 parameters.now) }
{
    parameters
        .split(';')
        .any(|part| times(name_of(part), parameters) > 1)
}

/// Returns the fault of the parameters, if they have one.
pub fn parameters_fault(parameters: &str) -> Option<TelFault>
    ensures { result ≡ fault_in_parts (parts 59 parameters.now) }
{
    if !are_parameters(parameters) {
        Some(TelFault::BadParameter)
    } else if has_repetition(parameters) {
        Some(TelFault::ParameterTwice)
    } else {
        None
    }
}

/// An iterator over the parameters of a tel URI, in the order of the text.
#[derive(Clone, Copy)]
pub struct Parameters<'a> {
    pub(crate) rest: Option<&'a str>,
}

impl<'a> Iterator for Parameters<'a> {
    ghost use Rattle.std.specs.Iterator.{YieldsFirstBy, item_count};
    ghost use Rattle.telnp.specs.Abstraction.{parameter_model, parameters_left};

    type Item = Parameter<'a>;

    ghost next_gives = { YieldsFirstBy parameter_model parameters_left };

    ghost remaining = { item_count parameters_left };

    fn next(&mut self) -> Option<Parameter<'a>> {
        let (first, others) = first_part(self.rest?);
        self.rest = others;
        Some(parameter_of(first))
    }
}
