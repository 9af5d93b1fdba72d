//! The numbers that a row names.
ghost use Rattle.std.specs.Prelude.{◌≡◌, ◌≤◌, IfSome, IfNone};
ghost use Rattle.bulk.specs.Numbers.{AreNumbers};

use numbers::Tn;

/// The most numbers of a row.
const MOST: u64 = 1000;

/// At most a thousand numbers of one code, from the first to the last.
#[derive(Clone, Copy, Debug, PartialEq, Eq)]
pub struct Numbers {
    pub first: Tn,
    pub last: Tn,
    pub ghost valid: { AreNumbers first.number last.number },
}

impl Numbers {
    /// Creates the range from `first` to `last`. Returns `None` if they are of two codes, `last` is
    /// below `first`, or there are more than a thousand numbers.
    pub fn new(first: Tn, last: Tn) -> Option<Numbers>
        ensures some { IfSome result (λ numbers. (numbers.first ≡ first) × (numbers.last ≡ last)) }
        ensures none { IfNone result (¬ (AreNumbers first.number last.number)) }
    {
        let is_one_code = last.code().number == first.code().number;
        if is_one_code && first.number <= last.number && last.number < first.number + MOST {
            Some(Numbers { first, last })
        } else {
            None
        }
    }

    /// Returns the telephone number with these digits.
    pub fn at(&self, number: u64) -> Tn
        requires from { self.now.first.number ≤ number }
        requires to { number ≤ self.now.last.number }
        ensures { result.number ≡ number }
    {
        Tn { number }
    }
}
