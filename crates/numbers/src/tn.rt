//! Telephone numbers.

ghost use Rattle.std.specs.Prelude.{◌≡◌, ◌≢◌, ℕ, ◌+◌, ◌≤◌, ◌++◌, IfSome, IfNone, IsOk, OnOk, OnErr, string_bytes, string_len, string_capacity};
ghost use Rattle.numbers.specs.Digits.{IsTn, code_of, block_of, line_of};
ghost use Rattle.numbers.specs.Texts.{tn_text};

use crate::block_id::BlockId;
use crate::code_id::CodeId;
use crate::digits::{read_digits, write_digits};
use crate::line::Line;
use std::alloc::AllocError;

/// A telephone number of the North American Numbering Plan: the ten digits after the country code 1
/// of an international number (ITU-T E.164).
///
/// It has an area code of three digits, a central office code of three, and four more digits. Both
/// codes begin with 2 to 9.
#[derive(Clone, Copy, Debug, PartialEq, Eq, PartialOrd, Ord)]
pub struct Tn {
    pub number: u64,
    pub ghost valid: { IsTn number },
}

impl Tn {
    /// Returns the telephone number with these ten digits. Returns `None` if `number` has more than
    /// ten digits, or its first or fourth digit is not 2 to 9.
    pub fn new(number: u64) -> Option<Self>
        ensures some { IfSome result (λ value. value.number ≡ number) }
        ensures none { IfNone result (¬ (IsTn number)) }
    {
        if number < 10_000_000_000 && number / 1_000_000_000 >= 2 && number / 1_000_000 % 10 >= 2 {
            Some(Tn { number })
        } else {
            None
        }
    }

    /// Parses a telephone number. Returns `None` if `text` is not ten digits, the first and the
    /// fourth 2 to 9.
    pub fn read(text: &str) -> Option<Self>
        ensures some { IfSome result (λ value. text.now ≡ tn_text value.number) }
        ensures none { IfNone result ((n : ℕ) → IsTn n → text.now ≢ tn_text n) }
    {
        Tn::new(read_digits(text, 10)?)
    }

    /// Appends the ten digits.
    ///
    /// # Errors
    ///
    /// `AllocError` if an allocation fails; `out` is then unchanged.
    pub fn write(&self, out: &mut String) -> Result<(), AllocError>
        ensures ok { OnOk result
            (string_bytes out.new ≡ string_bytes out.old ++ tn_text self.now.number) }
        ensures err { OnErr result (string_bytes out.new ≡ string_bytes out.old) }
        ensures capacity { string_capacity out.old ≤ string_capacity out.new }
        ensures len { string_len out.new ≤ string_len out.old + 10 }
        ensures succeeds { string_len out.old + 10 ≤ string_capacity out.old → IsOk result }
    {
        write_digits::<10>(self.number, out)
    }

    /// Returns the central office code of the number: its first six digits.
    pub fn code(self) -> CodeId
        ensures { result.number ≡ code_of self.number }
    {
        CodeId {
            number: (self.number / 10000) as u32,
        }
    }

    /// Returns the thousands-block of the number: its first seven digits.
    pub fn block(self) -> BlockId
        ensures { result.number ≡ block_of self.number }
    {
        BlockId {
            number: (self.number / 1000) as u32,
        }
    }

    /// Returns the last three digits, which identify the number within its block.
    pub fn line(self) -> Line
        ensures { result.number ≡ line_of self.number }
    {
        Line {
            number: (self.number % 1000) as u16,
        }
    }
}
