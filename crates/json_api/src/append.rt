//! Appends texts and numbers to strings with reserved memory, which cannot fail.
ghost use Rattle.std.specs.Prelude.{◌≡◌, ◌+◌, ◌<◌, ◌≤◌, ◌++◌, length, decimal, string_bytes, string_len, string_capacity};
ghost use Rattle.numbers.specs.Texts.{block_text, digits_of, spid_text};

use numbers::{BlockId, CodeId, Lrn, Minute, Spid};

/// Appends a text.
pub fn put(out: &mut String, text: &str)
    requires { string_len out.old + length text.now ≤ string_capacity out.old }
    ensures bytes { string_bytes out.new ≡ string_bytes out.old ++ text.now }
    ensures len { string_len out.new ≡ string_len out.old + length text.now }
    ensures capacity { string_capacity out.old ≤ string_capacity out.new }
{
    match out.push_str(text) {
        Ok(()) => {}
        Err(_) => unreachable!(),
    }
}

// Appends a number below ten as one digit.
fn put_digit(out: &mut String, digit: u8)
    requires digit { digit < 10 }
    requires fits { string_len out.old + 20 ≤ string_capacity out.old }
    ensures bytes { string_bytes out.new ≡ string_bytes out.old ++ decimal digit }
    ensures len { string_len out.new ≤ string_len out.old + 20 }
    ensures capacity { string_capacity out.old ≤ string_capacity out.new }
{
    match out.push(char::from(b'0' + digit)) {
        Ok(()) => {}
        Err(_) => unreachable!(),
    }
}

/// Appends a number in decimal, of at most 20 digits.
pub fn put_number(out: &mut String, number: u64)
    requires { string_len out.old + 20 ≤ string_capacity out.old }
    ensures bytes { string_bytes out.new ≡ string_bytes out.old ++ decimal number }
    ensures len { string_len out.new ≤ string_len out.old + 20 }
    ensures capacity { string_capacity out.old ≤ string_capacity out.new }
{
    // Most numbers have one digit; skip the buffer.
    if number < 10 {
        return put_digit(out, number as u8);
    }
    put(out, itoa::Buffer::new().format(number))
}

/// Appends a minute in decimal.
pub fn put_minute(out: &mut String, minute: Minute)
    requires { string_len out.old + 20 ≤ string_capacity out.old }
    ensures bytes { string_bytes out.new ≡ string_bytes out.old ++ decimal minute.number }
    ensures len { string_len out.new ≤ string_len out.old + 20 }
    ensures capacity { string_capacity out.old ≤ string_capacity out.new }
{
    put_number(out, minute.number)
}

/// Appends the four characters of a SPID.
pub fn put_spid(out: &mut String, spid: Spid)
    requires { string_len out.old + 4 ≤ string_capacity out.old }
    ensures bytes { string_bytes out.new ≡ string_bytes out.old ++ spid_text spid.number }
    ensures len { string_len out.new ≤ string_len out.old + 4 }
    ensures capacity { string_capacity out.old ≤ string_capacity out.new }
{
    match spid.write(out) {
        Ok(()) => {}
        Err(_) => unreachable!(),
    }
}

/// Appends the ten digits of an LRN.
pub fn put_lrn(out: &mut String, lrn: Lrn)
    requires { string_len out.old + 10 ≤ string_capacity out.old }
    ensures bytes { string_bytes out.new ≡ string_bytes out.old ++ digits_of 10 lrn.number }
    ensures len { string_len out.new ≤ string_len out.old + 10 }
    ensures capacity { string_capacity out.old ≤ string_capacity out.new }
{
    match lrn.write(out) {
        Ok(()) => {}
        Err(_) => unreachable!(),
    }
}

/// Appends the six digits of a code.
pub fn put_code(out: &mut String, code: CodeId)
    requires { string_len out.old + 6 ≤ string_capacity out.old }
    ensures bytes { string_bytes out.new ≡ string_bytes out.old ++ digits_of 6 code.number }
    ensures len { string_len out.new ≤ string_len out.old + 6 }
    ensures capacity { string_capacity out.old ≤ string_capacity out.new }
{
    match code.write(out) {
        Ok(()) => {}
        Err(_) => unreachable!(),
    }
}

/// Appends the seven digits of a block.
pub fn put_block(out: &mut String, block: BlockId)
    requires { string_len out.old + 7 ≤ string_capacity out.old }
    ensures bytes { string_bytes out.new ≡ string_bytes out.old ++ block_text block.number }
    ensures len { string_len out.new ≤ string_len out.old + 7 }
    ensures capacity { string_capacity out.old ≤ string_capacity out.new }
{
    match block.write(out) {
        Ok(()) => {}
        Err(_) => unreachable!(),
    }
}
