//! One parameter of an answer.

ghost use Rattle.std.specs.Prelude.{◌≡◌, ◌∷◌};
ghost use Rattle.std.specs.Cmp.Lexicographic.{slice_cmp};
ghost use Rattle.std.specs.Ordering.{nat_cmp};
ghost use Rattle.telnp.specs.Answer.{rank};
ghost use Rattle.telnp.specs.Grammar.{lower};

use crate::parameter::name_of;
use crate::text::{compare_names, same_name};
use numbers::{Cic, Lrn};
use std::alloc::AllocError;
use std::cmp::Ordering;

/// A parameter of an answer: one of the query's as written there, or one that is added.
#[derive(Clone, Copy)]
pub enum Part<'a> {
    Written(&'a str),
    Npdi,
    RoutingNumber(Lrn),
    Carrier(Cic),
}

impl<'a> Part<'a> {
    ghost use Rattle.std.specs.Prelude.{◌≡◌, ◌≤◌, ◌++◌, OnOk, string_bytes, string_capacity};
    ghost use Rattle.telnp.specs.Answer.{goes_before, Extends};
    ghost use Rattle.telnp.specs.Grammar.{name_of};
    ghost use Rattle.telnp.specs.Abstraction.{part_text};

    // Returns the parameter's name.
    fn name(&self) -> &str
        ensures { result.now ≡ name_of (part_text self.now) }
    {
        match self {
            Part::Written(text) => name_of(*text),
            Part::Npdi => "npdi",
            Part::RoutingNumber(_) => "rn",
            Part::Carrier(_) => "cic",
        }
    }

    /// Returns whether this parameter comes before another.
    pub fn goes_before(&self, other: &Part) -> bool
        ensures { result ≡ goes_before (part_text self.now) (part_text other.now) }
    {
        order_of(self.name(), other.name()) == Ordering::Less
    }

    /// Appends the parameter without a leading `;`.
    ///
    /// # Errors
    ///
    /// `AllocError` if an allocation fails; a prefix of the parameter may have been appended.
    pub fn write(&self, out: &mut String) -> Result<(), AllocError>
        ensures ok { OnOk result
            (string_bytes out.new ≡ string_bytes out.old ++ part_text self.now) }
        ensures kept { Extends (string_bytes out.old) (string_bytes out.new) }
        ensures capacity { string_capacity out.old ≤ string_capacity out.new }
    {
        match self {
            Part::Written(text) => out.push_str(*text),
            Part::Npdi => out.push_str("npdi"),
            Part::RoutingNumber(lrn) => {
                out.push_str("rn=+1")?;
                lrn.write(out)
            }
            Part::Carrier(cic) => {
                out.push_str("cic=+1")?;
                cic.write(out)
            }
        }
    }
}

// Returns the rank of a name: `ext`, `isub` and `phone-context` first, then all others.
fn rank(name: &str) -> u8
    ensures { result ≡ rank name.now }
{
    if same_name(name, "ext") {
        0
    } else if same_name(name, "isub") {
        1
    } else if same_name(name, "phone-context") {
        2
    } else {
        3
    }
}

// Compares the names of two parameters by their order in an answer.
fn order_of(a: &str, b: &str) -> Ordering
    ensures { result ≡ slice_cmp nat_cmp (rank a.now ∷ lower a.now) (rank b.now ∷ lower b.now) }
{
    rank(a).cmp(&rank(b)).then(compare_names(a, b))
}
