//! Subjects of porting (numbers and blocks), and their routing.

ghost use Rattle.std.specs.Prelude.{◌≡◌, ◌+◌, ◌≤◌, ◌++◌, IsOk, OnOk, OnErr, string_bytes, string_len, string_capacity};
ghost use Rattle.numbers.specs.Texts.{subject_text, AreInOrderOfTexts};
ghost use Rattle.numbers.specs.Abstraction.{key_of, subject_of};

use crate::{BlockId, Cic, Lrn, Tn};
use std::alloc::AllocError;
use std::cmp::Ordering;

/// A subject of porting: a number, or a whole block.
///
/// Its text is the ten digits of the number or the seven of the block. Subjects are ordered by the
/// bytes of their texts, so a block comes just before its numbers.
#[derive(Clone, Copy, Debug)]
pub enum Subject {
    Number(Tn),
    Block(BlockId),
}

/// The routing of calls for a ported number: a location routing number, and the carrier's
/// identification code if it has one.
#[derive(Clone, Copy, Debug, PartialEq, Eq)]
pub struct Routing {
    pub lrn: Lrn,
    pub cic: Option<Cic>,
}

impl Subject {
    /// Appends the ten digits of the number, or the seven of the block.
    ///
    /// # Errors
    ///
    /// `AllocError` if an allocation fails; `out` is then unchanged.
    pub fn write(&self, out: &mut String) -> Result<(), AllocError>
        ensures ok { OnOk result
            (string_bytes out.new ≡ string_bytes out.old ++ subject_text (subject_of self.now)) }
        ensures err { OnErr result (string_bytes out.new ≡ string_bytes out.old) }
        ensures capacity { string_capacity out.old ≤ string_capacity out.new }
        ensures len { string_len out.new ≤ string_len out.old + 10 }
        ensures succeeds { string_len out.old + 10 ≤ string_capacity out.old → IsOk result }
    {
        match self {
            Subject::Number(tn) => tn.write(out),
            Subject::Block(block) => block.write(out),
        }
    }

    // Returns a number that orders subjects as their texts do.
    fn key(&self) -> u64
        ensures { result ≡ key_of self.now }
    {
        match self {
            Subject::Number(tn) => {
                let number = tn.number;
                number / 1000 * 1001 + 1 + number % 1000
            }
            Subject::Block(block) => u64::from(block.number) * 1001,
        }
    }
}

impl PartialEq for Subject {
    ghost use Rattle.std.specs.Prelude.{◌==◌};
    ghost use Rattle.std.proofs.Common.{rules};
    ghost use Rattle.std.specs.Cmp.Rules.{comparing};
    ghost use Rattle.std.specs.Ordering.{on};
    ghost use Rattle.numbers.specs.Abstraction.{key_of};

    ghost eq = { on key_of ◌==◌ };

    ghost laws = { Prim.search (comparing, rules) };

    fn eq(&self, other: &Subject) -> bool {
        self.key() == other.key()
    }
}

impl Eq for Subject {
    ghost use Rattle.std.proofs.Common.{rules};
    ghost use Rattle.std.specs.Cmp.Rules.{comparing};

    ghost laws = { Prim.search (comparing, rules) };
}

impl Ord for Subject {
    ghost use Rattle.std.proofs.Common.{rules};
    ghost use Rattle.std.specs.Cmp.Rules.{comparing};
    ghost use Rattle.std.specs.Ordering.{nat_cmp, on};
    ghost use Rattle.numbers.specs.Abstraction.{key_of};

    ghost cmp = { on key_of nat_cmp };

    ghost total = { Prim.search (comparing, rules) };

    ghost matches_partial_cmp = { Prim.search (comparing, rules) };

    ghost matches_eq = { Prim.search (comparing, rules) };

    fn cmp(&self, other: &Subject) -> Ordering {
        self.key().cmp(&other.key())
    }
}

impl PartialOrd for Subject {
    ghost use Rattle.std.proofs.Common.{rules};
    ghost use Rattle.std.specs.Cmp.{partial_order_from_own_ties};
    ghost use Rattle.std.specs.Cmp.Rules.{comparing};
    ghost use Rattle.std.specs.Ordering.{nat_cmp, on, as_partial_cmp};
    ghost use Rattle.numbers.specs.Abstraction.{key_of};

    ghost partial_cmp = { as_partial_cmp (on key_of nat_cmp) };

    ghost laws = { partial_order_from_own_ties (Prim.search (comparing, rules))
        (Prim.search (comparing, rules)) };

    fn partial_cmp(&self, other: &Subject) -> Option<Ordering> {
        Some(self.cmp(other))
    }
}

/// States that two subjects compare as the bytes of their texts do.
#[tactic(auto, using(crate::proofs::SubjectOrder::in_order_of_texts))]
pub fn subjects_in_order_of_texts()
    ensures { AreInOrderOfTexts }
{}
