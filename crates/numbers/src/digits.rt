//! Reads and writes texts of a fixed number of decimal digits.

ghost use Rattle.std.specs.Prelude.{◌≡◌, ◌≢◌, ℕ, ◌+◌, ◌/◌, ◌%◌, ◌^◌, ◌<◌, ◌≤◌, ◌++◌, IfSome, IfNone, IsOk, OnOk, OnErr, IsUtf8, length, string_bytes, string_len, string_capacity};
ghost use Rattle.numbers.specs.Texts.{digits_of};

use std::alloc::AllocError;

// The two digits of each number below 100.
static PAIRS: [u8; 200] = *b"\
    0001020304050607080910111213141516171819\
    2021222324252627282930313233343536373839\
    4041424344454647484950515253545556575859\
    6061626364656667686970717273747576777879\
    8081828384858687888990919293949596979899";

/// Parses a text of exactly `width` decimal digits. Returns `None` if it is not one.
pub fn read_digits(text: &str, width: usize) -> Option<u64>
    requires { width ≤ 18 }
    ensures some { IfSome result (λ n. (n < 10 ^ width) × (text.now ≡ digits_of width n)) }
    ensures none { IfNone result ((n : ℕ) → text.now ≢ digits_of width n) }
{
    if text.len() != width {
        return None;
    }
    let mut number: u64 = 0;
    for byte in text.as_bytes() {
        if !byte.is_ascii_digit() {
            return None;
        }
        number = number * 10 + u64::from(*byte - b'0');
    }
    Some(number)
}

// Returns the two digits of a number below 100. A look-up takes less time than two divisions by ten.
#[inline(always)]
fn pair(number: u64) -> (u8, u8)
    requires { number < 100 }
    ensures { result ≡ (48 + number / 10, 48 + number % 10) }
{
    let place = number as usize * 2;
    (PAIRS[place], PAIRS[place + 1])
}

/// Returns the last `N` decimal digits of a number, with leading zeros.
#[inline(always)]
pub fn last_digits<const N: usize>(number: u64) -> [u8; N]
    ensures { result ≡ digits_of N number }
{
    let mut digits = [b'0'; N];
    let mut left = number;
    let mut place = N;
    // Four at a time need the fewest divisions.
    'fours: while place > 3 {
        let four = left % 10_000;
        let upper = pair(four / 100);
        let lower = pair(four % 100);
        digits[place - 1] = lower.1;
        digits[place - 2] = lower.0;
        digits[place - 3] = upper.1;
        digits[place - 4] = upper.0;
        left /= 10_000;
        place -= 4;
    }
    'pairs: while place > 1 {
        let (tens, ones) = pair(left % 100);
        digits[place - 1] = ones;
        digits[place - 2] = tens;
        left /= 100;
        place -= 2;
    }
    if place > 0 {
        digits[place - 1] = b'0' + (left % 10) as u8;
    }
    digits
}

/// Appends the last `N` decimal digits of `number`, with leading zeros.
///
/// # Errors
///
/// `AllocError` if an allocation fails; `out` is then unchanged.
pub fn write_digits<const N: usize>(number: u64, out: &mut String) -> Result<(), AllocError>
    requires { N ≤ 18 }
    ensures ok { OnOk result
        (string_bytes out.new ≡ string_bytes out.old ++ digits_of N number) }
    ensures err { OnErr result (string_bytes out.new ≡ string_bytes out.old) }
    ensures capacity { string_capacity out.old ≤ string_capacity out.new }
    ensures len { string_len out.new ≤ string_len out.old + N }
    ensures succeeds { string_len out.old + N ≤ string_capacity out.old → IsOk result }
{
    write_bytes(&last_digits::<N>(number), out)
}

/// Appends the bytes of a text.
///
/// # Errors
///
/// `AllocError` if an allocation fails; `out` is then unchanged.
pub fn write_bytes(text: &[u8], out: &mut String) -> Result<(), AllocError>
    requires { IsUtf8 text.now }
    ensures ok { OnOk result (string_bytes out.new ≡ string_bytes out.old ++ text.now) }
    ensures err { OnErr result (string_bytes out.new ≡ string_bytes out.old) }
    ensures capacity { string_capacity out.old ≤ string_capacity out.new }
    ensures len { string_len out.new ≤ string_len out.old + length text.now }
    ensures succeeds { string_len out.old + length text.now ≤ string_capacity out.old
        → IsOk result }
{
    // Safe: the premise says that the bytes are UTF-8.
    out.push_str(unsafe { str::from_utf8_unchecked(text) })
}
