//! Central office codes, the unit of number assignment.

ghost use Rattle.std.specs.Prelude.{◌≡◌, ◌≢◌, ℕ, ◌+◌, ◌≤◌, ◌++◌, IfSome, IfNone, IsOk, OnOk, OnErr, string_bytes, string_len, string_capacity};
ghost use Rattle.numbers.specs.Digits.{IsCode};
ghost use Rattle.numbers.specs.Texts.{code_text};

use crate::digits::{read_digits, write_digits};
use std::alloc::AllocError;

/// A central office code with its area code, the unit in the assignment of numbers to a carrier:
/// the first six digits of its ten thousand telephone numbers. Its first and fourth digits are 2 to
/// 9.
///
/// See the INC's central office code guidelines.
#[derive(Clone, Copy, Debug, PartialEq, Eq, PartialOrd, Ord)]
pub struct CodeId {
    pub number: u32,
    pub ghost valid: { IsCode number },
}

impl CodeId {
    /// Parses a code. Returns `None` if `text` is not six digits, the first and the fourth 2 to 9.
    pub fn read(text: &str) -> Option<Self>
        ensures some { IfSome result (λ value. text.now ≡ code_text value.number) }
        ensures none { IfNone result ((n : ℕ) → IsCode n → text.now ≢ code_text n) }
    {
        let number = read_digits(text, 6)?;
        if number / 100_000 >= 2 && number / 100 % 10 >= 2 {
            Some(CodeId {
                number: number as u32,
            })
        } else {
            None
        }
    }

    /// Appends the six digits.
    ///
    /// # Errors
    ///
    /// `AllocError` if an allocation fails; `out` is then unchanged.
    pub fn write(&self, out: &mut String) -> Result<(), AllocError>
        ensures ok { OnOk result
            (string_bytes out.new ≡ string_bytes out.old ++ code_text self.now.number) }
        ensures err { OnErr result (string_bytes out.new ≡ string_bytes out.old) }
        ensures capacity { string_capacity out.old ≤ string_capacity out.new }
        ensures len { string_len out.new ≤ string_len out.old + 6 }
        ensures succeeds { string_len out.old + 6 ≤ string_capacity out.old → IsOk result }
    {
        write_digits::<6>(u64::from(self.number), out)
    }
}
