//! Writes texts from their end to their start, in memory on the stack.
//!
//! The digits of a number are found from the last to the first, so they are written in place.
ghost use Rattle.std.specs.Prelude.{◌≡◌, ◌+◌, ◌<◌, ◌≤◌, ◌^◌, ◌++◌, [], length, decimal, IsUtf8};
ghost use Rattle.numbers.specs.Texts.{cic_text, digits_of, lrn_text, spid_text, subject_text};
ghost use Rattle.numbers.specs.Abstraction.{subject_of};

use itoa::write_digits;
use numbers::{Cic, Lrn, Minute, Spid, Subject, last_digits};
use std::marker::Model;

/// The end of a text of at most `N` bytes, as far as it is written.
#[derive(Drop)]
pub(crate) struct Tail<const N: usize> {
    bytes: [u8; N],
    start: usize,
}

impl<const N: usize> Model for Tail<N> {
    ghost use Rattle.std.specs.Prelude.{ℕ, List, ◌≡◌, ◌≤◌, drop, true};
    ghost use Rattle.std.specs.Str.{is_utf8};

    ghost Value = { List ℕ };

    ghost view = { λ t. drop t.start t.bytes };

    ghost invariant = { λ t. (t.start ≤ N) × (is_utf8 (drop t.start t.bytes) ≡ true) };
}

impl<const N: usize> Tail<N> {
    /// Starts at the end of a text.
    pub(crate) fn new() -> Tail<N>
        ensures { result ≡ [] }
    {
        Tail {
            bytes: [0; N],
            start: N,
        }
    }

    /// Returns the tail.
    pub(crate) fn as_str(&self) -> &str
        ensures { result.now ≡ self.now }
    {
        let all = &self.bytes[..];
        // The invariant says that the bytes are UTF-8.
        unsafe { str::from_utf8_unchecked(&all[self.start..]) }
    }

    // Writes bytes before the tail. Inlined, so that a few moves copy a constant text.
    #[inline(always)]
    fn prepend_bytes(&mut self, text: &[u8])
        requires fits { length self.old + length text.now ≤ N }
        requires utf8 { IsUtf8 text.now }
        ensures text { self.new ≡ text.now ++ self.old }
        ensures len { length self.new ≡ length self.old + length text.now }
    {
        let end = self.start;
        let start = end - text.len();
        let all = &mut self.bytes[..];
        all[start..end].copy_from_slice(text);
        self.start = start;
    }

    /// Writes a text before the tail.
    #[inline(always)]
    pub(crate) fn prepend(&mut self, text: &str)
        requires { length self.old + length text.now ≤ N }
        ensures text { self.new ≡ text.now ++ self.old }
        ensures len { length self.new ≡ length self.old + length text.now }
    {
        self.prepend_bytes(text.as_bytes());
    }

    // Writes a number in decimal before the tail.
    fn prepend_decimal(&mut self, number: u64)
        requires { length self.old + length (decimal number) ≤ N }
        ensures text { self.new ≡ decimal number ++ self.old }
        ensures len { length self.new ≡ length self.old + length (decimal number) }
    {
        self.start = write_digits(number, &mut self.bytes, self.start);
    }

    /// Writes a number in decimal, of at most 20 digits, before the tail.
    pub(crate) fn prepend_number(&mut self, number: u64)
        requires { length self.old + 20 ≤ N }
        ensures text { self.new ≡ decimal number ++ self.old }
        ensures len { length self.new ≤ length self.old + 20 }
    {
        self.prepend_decimal(number);
    }

    /// Writes a minute in decimal, of at most 13 digits, before the tail.
    pub(crate) fn prepend_minute(&mut self, minute: Minute)
        requires { length self.old + 13 ≤ N }
        ensures text { self.new ≡ decimal minute.number ++ self.old }
        ensures len { length self.new ≤ length self.old + 13 }
    {
        self.prepend_decimal(minute.number);
    }

    // Writes the last `W` digits of a number, with leading zeros, before the tail.
    #[inline(always)]
    fn prepend_digits<const W: usize>(&mut self, number: u64)
        requires width { W ≤ 18 }
        requires fits { length self.old + W ≤ N }
        ensures text { self.new ≡ digits_of W number ++ self.old }
        ensures len { length self.new ≡ length self.old + W }
    {
        self.prepend_bytes(&last_digits::<W>(number));
    }

    /// Writes the ten digits of an LRN before the tail.
    pub(crate) fn prepend_lrn(&mut self, lrn: Lrn)
        requires { length self.old + 10 ≤ N }
        ensures text { self.new ≡ lrn_text lrn.number ++ self.old }
        ensures len { length self.new ≡ length self.old + 10 }
    {
        self.prepend_digits::<10>(lrn.number);
    }

    /// Writes the four digits of a CIC before the tail.
    pub(crate) fn prepend_cic(&mut self, cic: Cic)
        requires { length self.old + 4 < N }
        ensures text { self.new ≡ cic_text cic.number ++ self.old }
        ensures len { length self.new ≡ length self.old + 4 }
    {
        self.prepend_digits::<4>(u64::from(cic.number));
    }

    /// Writes the four characters of a SPID before the tail.
    pub(crate) fn prepend_spid(&mut self, spid: Spid)
        requires { length self.old + 4 ≤ N }
        ensures text { self.new ≡ spid_text spid.number ++ self.old }
        ensures len { length self.new ≡ length self.old + 4 }
    {
        self.prepend_bytes(&spid.number.to_be_bytes());
    }

    /// Writes the digits of a subject, ten of a number or seven of a block, before the tail.
    // Inlined: each view of a version passes here.
    #[inline(always)]
    pub(crate) fn prepend_subject(&mut self, subject: Subject)
        requires { length self.old + 10 < N }
        ensures text { self.new ≡ subject_text (subject_of subject) ++ self.old }
        ensures len { length self.new ≤ length self.old + 10 }
    {
        match subject {
            Subject::Number(tn) => self.prepend_digits::<10>(tn.number),
            Subject::Block(block) => self.prepend_digits::<7>(u64::from(block.number)),
        }
    }
}
