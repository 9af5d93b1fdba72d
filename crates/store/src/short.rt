//! Numbers and truths in as few bytes as they need, and with no more than four bytes at once.
ghost use Rattle.std.specs.Prelude.{◌≡◌, ◌<◌, ◌^◌, ◌/◌, cond};
ghost use Rattle.numbers.specs.Abstraction.{minute_of};
ghost use Rattle.numbers.specs.Digits.{IsMinute};
ghost use Rattle.store.specs.ShortNumbers.{short_of, wide_of, is_odd};

use numbers::Minute;

/// A number below 2^48, in six bytes.
#[derive(Clone, Copy)]
pub struct Short {
    low: u16,
    middle: u16,
    high: u16,
}

impl Short {
    /// The least number.
    pub const ZERO: Short = Short {
        low: 0,
        middle: 0,
        high: 0,
    };

    /// Packs a number.
    pub fn of(number: u64) -> Short
        requires { number < 2 ^ 48 }
        ensures { short_of result ≡ number }
    {
        Short {
            low: (number % 65_536) as u16,
            middle: (number / 65_536 % 65_536) as u16,
            high: (number / 65_536 / 65_536) as u16,
        }
    }

    /// Returns the number.
    pub fn number(self) -> u64
        ensures { result ≡ short_of self }
    {
        u64::from(self.low) + 65_536 * (u64::from(self.middle) + 65_536 * u64::from(self.high))
    }
}

/// A minute, in six bytes.
#[derive(Clone, Copy)]
pub struct ShortMinute {
    number: Short,
    ghost valid: { IsMinute (short_of number) },
}

impl ShortMinute {
    /// Packs a minute.
    pub fn of(minute: Minute) -> ShortMinute
        ensures { short_of result.number ≡ minute_of minute }
    {
        ShortMinute {
            number: Short::of(minute.number),
        }
    }

    /// Returns the minute.
    pub fn minute(self) -> Minute
        ensures { minute_of result ≡ short_of self.number }
    {
        Minute {
            number: self.number.number(),
        }
    }
}

/// Any number, in two parts of four bytes.
#[derive(Clone, Copy)]
pub struct Wide {
    low: u32,
    high: u32,
}

impl Wide {
    /// Packs a number.
    pub fn of(number: u64) -> Wide
        ensures { wide_of result ≡ number }
    {
        Wide {
            low: (number % 4_294_967_296) as u32,
            high: (number / 4_294_967_296) as u32,
        }
    }

    /// Returns the number.
    pub fn number(self) -> u64
        ensures { result ≡ wide_of self }
    {
        u64::from(self.low) + 4_294_967_296 * u64::from(self.high)
    }
}

fn bit(truth: bool) -> u8
    ensures { result ≡ cond truth 1 0 }
{
    if truth { 1 } else { 0 }
}

/// Four truths, in one byte.
#[derive(Clone, Copy)]
pub struct Truths {
    number: u8,
}

impl Truths {
    /// Packs four truths.
    pub fn of(first: bool, second: bool, third: bool, fourth: bool) -> Truths
        ensures first { is_odd result.number ≡ first }
        ensures second { is_odd (result.number / 2) ≡ second }
        ensures third { is_odd (result.number / 4) ≡ third }
        ensures fourth { is_odd (result.number / 8) ≡ fourth }
    {
        Truths {
            number: bit(first) + 2 * bit(second) + 4 * bit(third) + 8 * bit(fourth),
        }
    }

    /// Returns the first truth.
    pub fn first(self) -> bool
        ensures { result ≡ is_odd self.number }
    {
        self.number % 2 == 1
    }

    /// Returns the second truth.
    pub fn second(self) -> bool
        ensures { result ≡ is_odd (self.number / 2) }
    {
        self.number / 2 % 2 == 1
    }

    /// Returns the third truth.
    pub fn third(self) -> bool
        ensures { result ≡ is_odd (self.number / 4) }
    {
        self.number / 4 % 2 == 1
    }

    /// Returns the fourth truth.
    pub fn fourth(self) -> bool
        ensures { result ≡ is_odd (self.number / 8) }
    {
        self.number / 8 % 2 == 1
    }
}
