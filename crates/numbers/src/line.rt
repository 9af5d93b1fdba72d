//! Lines: the last three digits of telephone numbers.

ghost use Rattle.std.specs.Prelude.{◌≡◌, ◌≢◌, ℕ, ◌+◌, ◌≤◌, ◌++◌, IfSome, IfNone, IsOk, OnOk, OnErr, string_bytes, string_len, string_capacity};
ghost use Rattle.numbers.specs.Digits.{IsLine};
ghost use Rattle.numbers.specs.Texts.{line_text};

use crate::digits::{read_digits, write_digits};
use std::alloc::AllocError;

/// The last three digits of a telephone number, 000 to 999, which identify it within its block.
#[derive(Clone, Copy, Debug, PartialEq, Eq, PartialOrd, Ord)]
pub struct Line {
    pub number: u16,
    pub ghost valid: { IsLine number },
}

impl Line {
    /// Parses a line. Returns `None` if `text` is not three digits.
    pub fn read(text: &str) -> Option<Self>
        ensures some { IfSome result (λ value. text.now ≡ line_text value.number) }
        ensures none { IfNone result ((n : ℕ) → IsLine n → text.now ≢ line_text n) }
    {
        let number = read_digits(text, 3)?;
        Some(Line {
            number: number as u16,
        })
    }

    /// Appends the three digits.
    ///
    /// # Errors
    ///
    /// `AllocError` if an allocation fails; `out` is then unchanged.
    pub fn write(&self, out: &mut String) -> Result<(), AllocError>
        ensures ok { OnOk result
            (string_bytes out.new ≡ string_bytes out.old ++ line_text self.now.number) }
        ensures err { OnErr result (string_bytes out.new ≡ string_bytes out.old) }
        ensures capacity { string_capacity out.old ≤ string_capacity out.new }
        ensures len { string_len out.new ≤ string_len out.old + 3 }
        ensures succeeds { string_len out.old + 3 ≤ string_capacity out.old → IsOk result }
    {
        write_digits::<3>(u64::from(self.number), out)
    }
}
