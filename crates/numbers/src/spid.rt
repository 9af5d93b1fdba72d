//! Service providers.

ghost use Rattle.std.specs.Prelude.{◌≡◌, ◌≢◌, ℕ, ◌+◌, ◌*◌, ◌≤◌, ◌++◌, IfSome, IfNone, IsOk, OnOk, OnErr, string_bytes, string_len, string_capacity};
ghost use Rattle.numbers.specs.Spids.{IsSpid, is_spid_character};
ghost use Rattle.numbers.specs.Texts.{spid_text};

use crate::digits::write_bytes;
use std::alloc::AllocError;

/// A service provider, known by its identifier (SPID) at the number portability administration
/// center (NPAC): four characters, each A to Z or 0 to 9.
///
/// `number` holds the four bytes, the first as the highest.
#[derive(Clone, Copy, Debug, PartialEq, Eq, PartialOrd, Ord)]
pub struct Spid {
    pub number: u32,
    pub ghost valid: { IsSpid number },
}

impl Spid {
    /// The administrator, which is not a carrier.
    pub const NPAC: Spid = Spid {
        number: 0x4e50_4143,
    };

    /// Parses a provider. Returns `None` if `text` is not four characters, each A to Z or 0 to 9.
    pub fn read(text: &str) -> Option<Self>
        ensures some { IfSome result (λ value. text.now ≡ spid_text value.number) }
        ensures none { IfNone result ((n : ℕ) → IsSpid n → text.now ≢ spid_text n) }
    {
        match text.as_bytes() {
            [a, b, c, d]
                if is_character(*a) && is_character(*b) && is_character(*c) && is_character(*d) => {
                Some(Spid {
                    number: number_of(*a, *b, *c, *d),
                })
            }
            _ => None,
        }
    }

    /// Appends the four characters.
    ///
    /// # Errors
    ///
    /// `AllocError` if an allocation fails; `out` is then unchanged.
    pub fn write(&self, out: &mut String) -> Result<(), AllocError>
        ensures ok { OnOk result
            (string_bytes out.new ≡ string_bytes out.old ++ spid_text self.now.number) }
        ensures err { OnErr result (string_bytes out.new ≡ string_bytes out.old) }
        ensures capacity { string_capacity out.old ≤ string_capacity out.new }
        ensures len { string_len out.new ≤ string_len out.old + 4 }
        ensures succeeds { string_len out.old + 4 ≤ string_capacity out.old → IsOk result }
    {
        write_bytes(&bytes_of(self.number), out)
    }
}

// Returns whether `byte` is a capital letter or a digit.
fn is_character(byte: u8) -> bool
    ensures { result ≡ is_spid_character byte }
{
    matches!(byte, b'A'..=b'Z' | b'0'..=b'9')
}

// Returns the number made of four bytes, `a` the highest.
fn number_of(a: u8, b: u8, c: u8, d: u8) -> u32
    ensures { result ≡ a * 16777216 + b * 65536 + c * 256 + d }
{
    u32::from_be_bytes([a, b, c, d])
}

// Returns the four bytes of `number`, the highest first.
fn bytes_of(number: u32) -> [u8; 4]
    ensures { result ≡ spid_text number }
{
    number.to_be_bytes()
}
