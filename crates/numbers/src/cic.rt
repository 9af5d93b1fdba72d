//! Carrier identification codes.

ghost use Rattle.std.specs.Prelude.{◌≡◌, ◌≢◌, ℕ, ◌+◌, ◌≤◌, ◌++◌, IfSome, IfNone, IsOk, OnOk, OnErr, string_bytes, string_len, string_capacity};
ghost use Rattle.numbers.specs.Digits.{IsCic};
ghost use Rattle.numbers.specs.Texts.{cic_text};

use crate::digits::{read_digits, write_digits};
use std::alloc::AllocError;

/// A carrier identification code: four digits, 0000 to 9999.
///
/// It is the parameter `cic` of RFC 4694 without its country code.
#[derive(Clone, Copy, Debug, PartialEq, Eq, PartialOrd, Ord)]
pub struct Cic {
    pub number: u16,
    pub ghost valid: { IsCic number },
}

impl Cic {
    /// Parses a carrier identification code. Returns `None` if `text` is not four digits.
    pub fn read(text: &str) -> Option<Self>
        ensures some { IfSome result (λ value. text.now ≡ cic_text value.number) }
        ensures none { IfNone result ((n : ℕ) → IsCic n → text.now ≢ cic_text n) }
    {
        let number = read_digits(text, 4)?;
        Some(Cic {
            number: number as u16,
        })
    }

    /// Appends the four digits.
    ///
    /// # Errors
    ///
    /// `AllocError` if an allocation fails; `out` is then unchanged.
    pub fn write(&self, out: &mut String) -> Result<(), AllocError>
        ensures ok { OnOk result
            (string_bytes out.new ≡ string_bytes out.old ++ cic_text self.now.number) }
        ensures err { OnErr result (string_bytes out.new ≡ string_bytes out.old) }
        ensures capacity { string_capacity out.old ≤ string_capacity out.new }
        ensures len { string_len out.new ≤ string_len out.old + 4 }
        ensures succeeds { string_len out.old + 4 ≤ string_capacity out.old → IsOk result }
    {
        write_digits::<4>(u64::from(self.number), out)
    }
}
