//! Location routing numbers.

ghost use Rattle.std.specs.Prelude.{◌≡◌, ◌≢◌, ℕ, ◌+◌, ◌≤◌, ◌++◌, IfSome, IfNone, IsOk, OnOk, OnErr, string_bytes, string_len, string_capacity};
ghost use Rattle.numbers.specs.Digits.{IsLrn};
ghost use Rattle.numbers.specs.Texts.{lrn_text};

use crate::digits::{read_digits, write_digits};
use std::alloc::AllocError;

/// A location routing number: ten digits that route calls for a ported number to the switch that
/// serves it.
///
/// It is the parameter `rn` of RFC 4694 without its country code.
#[derive(Clone, Copy, Debug, PartialEq, Eq, PartialOrd, Ord)]
pub struct Lrn {
    pub number: u64,
    pub ghost valid: { IsLrn number },
}

impl Lrn {
    /// Parses a location routing number. Returns `None` if `text` is not ten digits.
    pub fn read(text: &str) -> Option<Self>
        ensures some { IfSome result (λ value. text.now ≡ lrn_text value.number) }
        ensures none { IfNone result ((n : ℕ) → IsLrn n → text.now ≢ lrn_text n) }
    {
        let number = read_digits(text, 10)?;
        Some(Lrn { number })
    }

    /// Appends the ten digits.
    ///
    /// # Errors
    ///
    /// `AllocError` if an allocation fails; `out` is then unchanged.
    pub fn write(&self, out: &mut String) -> Result<(), AllocError>
        ensures ok { OnOk result
            (string_bytes out.new ≡ string_bytes out.old ++ lrn_text self.now.number) }
        ensures err { OnErr result (string_bytes out.new ≡ string_bytes out.old) }
        ensures capacity { string_capacity out.old ≤ string_capacity out.new }
        ensures len { string_len out.new ≤ string_len out.old + 10 }
        ensures succeeds { string_len out.old + 10 ≤ string_capacity out.old → IsOk result }
    {
        write_digits::<10>(self.number, out)
    }
}
