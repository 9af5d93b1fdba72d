//! Reads the number part of a tel URI.

ghost use Rattle.std.specs.Prelude.{◌≡◌, ◌≢◌, ◌||◌, ℕ, not, length, IfSome, IfNone};
ghost use Rattle.std.specs.List.{list_all, list_any};
ghost use Rattle.numbers.specs.Digits.{IsTn};
ghost use Rattle.numbers.specs.Texts.{tn_text};
ghost use Rattle.telnp.specs.Bytes.{is_digit, is_hex, is_local_mark, is_separator};
ghost use Rattle.telnp.specs.Grammar.{is_global, is_local};
ghost use Rattle.telnp.specs.Faults.{fault_in_number};
ghost use Rattle.telnp.specs.Numbers.{digits_in, HasTn};

use crate::bytes::{is_digit, is_hex, is_local_mark, is_separator};
use crate::fault::TelFault;
use numbers::Tn;

/// Returns whether all bytes are digits.
pub fn are_digits(bytes: &[u8]) -> bool
    ensures { result ≡ list_all is_digit bytes.now }
{
    bytes.iter().all(|b| is_digit(*b))
}

fn has_digit(bytes: &[u8]) -> bool
    ensures { result ≡ list_any is_digit bytes.now }
{
    bytes.iter().any(|b| is_digit(*b))
}

fn are_of_global(bytes: &[u8]) -> bool
    ensures { result ≡ list_all (λ d. is_digit d || is_separator d) bytes.now }
{
    bytes.iter().all(|b| is_digit(*b) || is_separator(*b))
}

fn is_global(number: &[u8]) -> bool
    ensures { result ≡ is_global number.now }
{
    match number {
        [] => false,
        [first, rest @ ..] => *first == b'+' && are_of_global(rest) && has_digit(rest),
    }
}

fn are_of_local(bytes: &[u8]) -> bool
    ensures { result ≡ list_all (λ d. is_hex d || is_local_mark d || is_separator d) bytes.now }
{
    bytes
        .iter()
        .all(|b| is_hex(*b) || is_local_mark(*b) || is_separator(*b))
}

fn has_local_byte(bytes: &[u8]) -> bool
    ensures { result ≡ list_any (λ d. not (is_separator d)) bytes.now }
{
    bytes.iter().any(|b| !is_separator(*b))
}

fn is_local(number: &[u8]) -> bool
    ensures { result ≡ is_local number.now }
{
    are_of_local(number) && has_local_byte(number)
}

/// Returns the fault of a number part, or `None` if it is a global number.
pub fn number_fault(number: &[u8]) -> Option<TelFault>
    ensures { result ≡ fault_in_number number.now }
{
    if is_global(number) {
        None
    } else if is_local(number) {
        Some(TelFault::LocalNumber)
    } else {
        Some(TelFault::BadNumber)
    }
}

// Returns the digits among the bytes, if there are eleven.
fn eleven_digits(number: &[u8]) -> Option<[u8; 11]>
    ensures some { IfSome result (λ digits. digits_in number.now ≡ digits) }
    ensures none { IfNone result (length (digits_in number.now) ≢ 11) }
{
    let mut digits = [b'0'; 11];
    let mut count = 0;
    for byte in number {
        if is_digit(*byte) {
            if count == digits.len() {
                return None;
            }
            digits[count] = *byte;
            count += 1;
        }
    }
    if count == digits.len() {
        Some(digits)
    } else {
        None
    }
}

// Parses the bytes as a telephone number.
fn read_tn(digits: &[u8]) -> Option<Tn>
    ensures some { IfSome result (λ tn. digits.now ≡ tn_text tn.number) }
    ensures none { IfNone result ((n : ℕ) → IsTn n → digits.now ≢ tn_text n) }
{
    match str::from_utf8(digits) {
        Ok(text) => Tn::read(text),
        Err(_) => None,
    }
}

/// Returns the telephone number after the country code 1, if the digits of the number part are
/// these eleven.
pub fn tn_in(number: &[u8]) -> Option<Tn>
    ensures some { IfSome result (λ tn. HasTn number.now tn.number) }
    ensures none { IfNone result ((n : ℕ) → IsTn n → ¬ (HasTn number.now n)) }
{
    let Some(digits) = eleven_digits(number) else {
        return None;
    };
    match digits.as_slice() {
        [b'1', rest @ ..] => read_tn(rest),
        _ => None,
    }
}
