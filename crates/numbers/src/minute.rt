//! Minutes of the register's clock.

ghost use Rattle.std.specs.Prelude.{◌≡◌, ◌≢◌, ℕ, ◌+◌, ◌^◌, ◌<◌, ◌≤◌, ◌++◌, ◌↔◌, IsTrue, IsSome, IfSome, IfNone, IsOk, OnOk, OnErr, decimal, string_bytes, string_len, string_capacity};
ghost use Rattle.numbers.specs.Digits.{IsMinute};
ghost use Rattle.numbers.specs.Texts.{minute_text};

use itoa::Buffer;
use std::alloc::AllocError;

/// A minute of the register's clock: the whole minutes since minute 0, below 2^40.
#[derive(Clone, Copy, Debug, PartialEq, Eq, PartialOrd, Ord)]
pub struct Minute {
    pub number: u64,
    pub ghost valid: { IsMinute number },
}

impl Minute {
    /// The exclusive upper limit of minutes, 2^40.
    pub const LIMIT: u64 = 1 << 40;

    /// The first minute.
    pub const ZERO: Minute = Minute { number: 0 };

    /// Returns the minute with this number. Returns `None` if `number` is not below `LIMIT`.
    pub fn new(number: u64) -> Option<Self>
        ensures valid { IsSome result ↔ (number < 2 ^ 40) }
        ensures value { IfSome result (λ minute. minute.number ≡ number) }
    {
        if number < Self::LIMIT {
            Some(Minute { number })
        } else {
            None
        }
    }

    /// Parses a minute in decimal. Returns `None` if `text` has a sign, has a leading zero (other
    /// than `0` itself), is not a number, or is not below `LIMIT`.
    pub fn read(text: &str) -> Option<Self>
        ensures some { IfSome result (λ value. text.now ≡ minute_text value.number) }
        ensures none { IfNone result ((n : ℕ) → IsMinute n → text.now ≢ minute_text n) }
    {
        match text.parse::<u64>() {
            Ok(number) if number < Self::LIMIT && is_text_of(text, number) => {
                Some(Minute { number })
            }
            _ => None,
        }
    }

    /// Appends the minute in decimal, at most thirteen digits.
    ///
    /// # Errors
    ///
    /// `AllocError` if an allocation fails; `out` is then unchanged.
    pub fn write(&self, out: &mut String) -> Result<(), AllocError>
        ensures ok { OnOk result
            (string_bytes out.new ≡ string_bytes out.old ++ minute_text self.now.number) }
        ensures err { OnErr result (string_bytes out.new ≡ string_bytes out.old) }
        ensures capacity { string_capacity out.old ≤ string_capacity out.new }
        ensures len { string_len out.new ≤ string_len out.old + 13 }
        ensures succeeds { string_len out.old + 13 ≤ string_capacity out.old → IsOk result }
    {
        out.push_str(Buffer::new().format(self.number))
    }
}

// Returns whether `text` is `number` in decimal, without sign or leading zeros.
fn is_text_of(text: &str, number: u64) -> bool
    ensures { IsTrue result ↔ (text.now ≡ decimal number) }
{
    text == Buffer::new().format(number)
}
