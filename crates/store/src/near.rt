//! A hash map that keeps the keys of neighbouring numbers together.
ghost use Rattle.std.specs.Prelude.{◌≡◌};
ghost use Rattle.store.specs.NearHashes.{near_hash, number_in};

use std::collections::HashMap;
use std::hash::{BuildHasherDefault, Hasher};

// What spreads 32 numbers at a time over a map: 2^64 divided by the golden ratio, as multiplicative
// hashing has it (D. E. Knuth, The Art of Computer Programming, 6.4).
const SPREAD: u64 = 0x9e37_79b9_7f4a_7c15;

/// A hash map by numbers.
///
/// Numbers that differ only in their last three bits have hashes of one group of the map's index,
/// and the next eight numbers mostly have those of the next group. Neighbours are often looked up one
/// after the other, and then find the group in the cache. The hash has no secret: its keys are
/// subjects, and ids that the register gives.
pub type NearMap<K, V> = HashMap<K, V, BuildHasherDefault<NearHasher>>;

/// Hashes the number that was written last. Takes only numbers of 64 bits: any other write counts
/// as one of 0.
#[derive(Clone, Copy)]
pub struct NearHasher {
    number: u64,
}

impl Default for NearHasher {
    ghost is_default = { λ hasher. hasher.number ≡ 0 };

    fn default() -> NearHasher {
        NearHasher { number: 0 }
    }
}

impl Hasher for NearHasher {
    ghost write = { λ hasher bytes. record { number = number_in bytes } };

    ghost finish = { λ hasher. near_hash hasher.number };

    #[inline(always)]
    fn finish(&self) -> u64 {
        let spread = (self.number / 32).wrapping_mul(SPREAD) >> 34 << 2;
        (spread + self.number / 8 % 4) ^ (self.number % 8) << 29
    }

    fn write(&mut self, bytes: &[u8]) {
        self.number = match bytes {
            [a, b, c, d, e, f, g, h] => u64::from_le_bytes([*a, *b, *c, *d, *e, *f, *g, *h]),
            _ => 0,
        };
    }

    #[inline(always)]
    fn write_u64(&mut self, number: u64) {
        self.number = number;
    }
}
