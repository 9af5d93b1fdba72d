//! Tel URIs and their parts.

ghost use Rattle.std.specs.Prelude.{◌≡◌, [], IfSome, option_map};
ghost use Rattle.std.specs.Option.{option_map_or};
ghost use Rattle.telnp.specs.Faults.{fault_in_parts, rest_of, number_of, parameter_parts, parts};
ghost use Rattle.telnp.specs.Abstraction.{uri_of};
ghost use Rattle.telnp.specs.Numbers.{HasTn};
ghost use Rattle.telnp.specs.Plain.{IsPlain};
ghost use Rattle.telnp.specs.Laws.{FaultsAreInOrder, TelUrisAreRead};

use crate::fault::TelFault;
use crate::number::{are_digits, number_fault, tn_in};
use crate::parameters::{Parameters, has_name, parameters_fault};
use crate::text::{cut_at, same_name};
use numbers::Tn;

/// A tel URI with a global number (RFC 3966, section 3), with its number part and its parameters.
/// It borrows the text.
#[derive(Clone, Copy)]
pub struct TelUri<'a> {
    pub(crate) text: &'a str,
    pub(crate) number: &'a str,
    pub(crate) parameters: Option<&'a str>,
}

/// The most bytes that a text may have.
const LONGEST: usize = 2048;

impl<'a> TelUri<'a> {
    ghost use Rattle.std.specs.Prelude.{ℕ, map, codes, IfSome, IfNone, IfOk, IfErr, Some};
    ghost use Rattle.numbers.specs.Digits.{IsTn};
    ghost use Rattle.telnp.specs.Faults.{fault_of, IsRead};
    ghost use Rattle.telnp.specs.Grammar.{has_name, parameter_of};
    ghost use Rattle.telnp.specs.Numbers.{HasTn};
    ghost use Rattle.telnp.specs.Uri.{IsTelUri};
    ghost use Rattle.telnp.specs.Abstraction.{parts_in, parameters_left};

    /// Parses a tel URI. Allocates nothing.
    ///
    /// The text is `tel:` in either case, a number part up to the first `;`, and a parameter after
    /// each `;`. The number part is `+` with digits and the separators `-`, `.`, `(` and `)`. A
    /// parameter is a name, and a value after `=` if it has one (RFC 3966, section 3); `npdi` has
    /// none, and `rn`, `cic` and their contexts have one (RFC 4694, section 4).
    ///
    /// # Errors
    ///
    /// The first of: `TooLong` above 2,048 bytes, `NotTel`, `LocalNumber` or `BadNumber` for the
    /// number part, `BadParameter` for the form of any parameter, `ParameterTwice`.
    #[tactic(auto, using(crate::proofs::PlainLemmas::read_of_plain, crate::proofs::PlainLemmas::text_of_plain, crate::proofs::Wholes::uri_from_read))]
    pub fn read(text: &'a str) -> Result<TelUri<'a>, TelFault>
        ensures text { IfOk result (λ u. (uri_of u).text ≡ text.now) }
        ensures parts { IfOk result (λ u. IsRead text.now (uri_of u).number (uri_of u).parameters) }
        ensures uri { IfOk result (λ u. IsTelUri text.now (uri_of u).number (uri_of u).parameters) }
        ensures fault { IfErr result (λ f. fault_of text.now ≡ Some f) }
    {
        if let Some(uri) = plain_uri(text) {
            return Ok(uri);
        }
        if text.len() > LONGEST {
            return Err(TelFault::TooLong);
        }
        let Some(rest) = after_scheme(text) else {
            return Err(TelFault::NotTel);
        };
        let (number, parameters) = number_and_parameters(rest);
        if let Some(fault) = number_fault(number.as_bytes()) {
            return Err(fault);
        }
        match optional_fault(parameters) {
            Some(fault) => Err(fault),
            None => Ok(TelUri {
                text,
                number,
                parameters,
            }),
        }
    }

    /// Returns whether the URI has `npdi`, which says that the number has already been looked up
    /// (RFC 4694, section 5).
    pub fn has_npdi(&self) -> bool
        ensures { result ≡ has_name (codes "npdi") (uri_of self.now).parameters }
    {
        self.has_parameter("npdi")
    }

    /// Returns the telephone number, if the digits of the number part are the country code 1 and
    /// ten digits of a valid number.
    pub fn tn(&self) -> Option<Tn>
        ensures some { IfSome result (λ tn. HasTn (uri_of self.now).number tn.number) }
        ensures none { IfNone result ((n : ℕ) → IsTn n → ¬ (HasTn (uri_of self.now).number n)) }
    {
        match plain_tn(self.number) {
            Some(tn) => Some(tn),
            None => tn_in(self.number.as_bytes()),
        }
    }

    /// Returns the parameters in the order of the text, each with its name and value as written.
    pub fn parameters(&self) -> Parameters<'a>
        ensures { parameters_left result ≡ map parameter_of (uri_of self.now).parameters }
    {
        Parameters {
            rest: self.parameters,
        }
    }

    /// Returns whether a parameter has this name, ignoring case.
    pub(crate) fn has_parameter(&self, name: &str) -> bool
        ensures { result ≡ has_name name.now (uri_of self.now).parameters }
    {
        match self.parameters {
            None => false,
            Some(parameters) => has_name(name, parameters),
        }
    }
}

// Returns the URI of a text that is `tel:+1` and ten digits, as most are.
fn plain_uri(text: &str) -> Option<TelUri<'_>>
    ensures { IfSome result (λ u. IsPlain text.now (uri_of u)) }
{
    let digits = text.as_bytes().strip_prefix(b"tel:+1")?;
    if digits.len() != 10 || !are_digits(digits) {
        return None;
    }
    let (_, number) = text.split_at_checked(4)?;
    Some(TelUri {
        text,
        number,
        parameters: None,
    })
}

// Returns the telephone number of a number part that is `+1` and its ten digits, as most are.
fn plain_tn(number: &str) -> Option<Tn>
    ensures { IfSome result (λ tn. HasTn number.now tn.number) }
{
    let (prefix, digits) = number.split_at_checked(2)?;
    if prefix == "+1" {
        Tn::read(digits)
    } else {
        None
    }
}

// Returns the rest of a text after `tel:`, if it begins with that.
fn after_scheme(text: &str) -> Option<&str>
    ensures { option_map (λ s. s.now) result ≡ rest_of text.now }
{
    match cut_at(text, ':') {
        None => None,
        Some((scheme, rest)) => if same_name(scheme, "tel") {
            Some(rest)
        } else {
            None
        },
    }
}

fn number_and_parameters(rest: &str) -> (&str, Option<&str>)
    ensures number { result.0.now ≡ number_of rest.now }
    ensures parameters { option_map_or (λ r. parts 59 r.now) result.1 []
        ≡ parameter_parts rest.now }
{
    match cut_at(rest, ';') {
        None => (rest, None),
        Some((number, parameters)) => (number, Some(parameters)),
    }
}

fn optional_fault(parameters: Option<&str>) -> Option<TelFault>
    ensures { result ≡ fault_in_parts (option_map_or (λ r. parts 59 r.now) parameters.entry []) }
{
    match parameters {
        None => None,
        Some(parameters) => parameters_fault(parameters),
    }
}

/// States that each text of the grammar is read: it has no fault, and its parts are those of the
/// grammar.
pub fn tel_uris_are_read()
    ensures { TelUrisAreRead }
{}

/// States that each fault is reported exactly in the order of tests.
pub fn faults_are_in_order()
    ensures { FaultsAreInOrder }
{}
