//! Thousands-blocks, the unit of number pooling.

ghost use Rattle.std.specs.Prelude.{◌≡◌, ◌≢◌, ℕ, ◌+◌, ◌≤◌, ◌++◌, IfSome, IfNone, IsOk, OnOk, OnErr, string_bytes, string_len, string_capacity};
ghost use Rattle.numbers.specs.Digits.{IsBlock, block_code_of, number_in};
ghost use Rattle.numbers.specs.Texts.{block_text};

use crate::code_id::CodeId;
use crate::digits::{read_digits, write_digits};
use crate::line::Line;
use crate::tn::Tn;
use std::alloc::AllocError;

/// A thousands-block, the unit of number pooling: the first seven digits of its thousand telephone
/// numbers. Its first and fourth digits are 2 to 9.
///
/// See the INC's thousands-block pooling guidelines.
#[derive(Clone, Copy, Debug, PartialEq, Eq, PartialOrd, Ord)]
pub struct BlockId {
    pub number: u32,
    pub ghost valid: { IsBlock number },
}

impl BlockId {
    /// Parses a block. Returns `None` if `text` is not seven digits, the first and the fourth 2 to
    /// 9.
    pub fn read(text: &str) -> Option<Self>
        ensures some { IfSome result (λ value. text.now ≡ block_text value.number) }
        ensures none { IfNone result ((n : ℕ) → IsBlock n → text.now ≢ block_text n) }
    {
        let number = read_digits(text, 7)?;
        if number / 1_000_000 >= 2 && number / 1000 % 10 >= 2 {
            Some(BlockId {
                number: number as u32,
            })
        } else {
            None
        }
    }

    /// Appends the seven digits.
    ///
    /// # Errors
    ///
    /// `AllocError` if an allocation fails; `out` is then unchanged.
    pub fn write(&self, out: &mut String) -> Result<(), AllocError>
        ensures ok { OnOk result
            (string_bytes out.new ≡ string_bytes out.old ++ block_text self.now.number) }
        ensures err { OnErr result (string_bytes out.new ≡ string_bytes out.old) }
        ensures capacity { string_capacity out.old ≤ string_capacity out.new }
        ensures len { string_len out.new ≤ string_len out.old + 7 }
        ensures succeeds { string_len out.old + 7 ≤ string_capacity out.old → IsOk result }
    {
        write_digits::<7>(u64::from(self.number), out)
    }

    /// Returns the central office code of the block: its first six digits.
    pub fn code(self) -> CodeId
        ensures { result.number ≡ block_code_of self.number }
    {
        CodeId {
            number: self.number / 10,
        }
    }

    /// Returns the number of the block whose last three digits are `line`.
    pub fn tn(self, line: Line) -> Tn
        ensures { result.number ≡ number_in self.number line.number }
    {
        Tn {
            number: u64::from(self.number) * 1000 + u64::from(line.number),
        }
    }
}
