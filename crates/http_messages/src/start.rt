//! Splits a constant text off the start of bytes.
ghost use Rattle.std.specs.Prelude.{◌≡◌, ◌≢◌, ◌↔◌, ℕ, ◌++◌, List, IfNone, IfSome, true};

// Returns whether two words are the same: compares them as numbers, in one instruction.
#[inline(always)]
fn are_same_words(word: &[u8; 8], other: &[u8; 8]) -> bool
    ensures { result ≡ true ↔ (word.now ≡ other.now) }
{
    u64::from_le_bytes(*word) == u64::from_le_bytes(*other)
}

// Returns whether two texts are the same.
// Compares eight bytes at a time, and at last the last eight. Where one text is a constant, each
// eight take two instructions.
#[inline(always)]
fn are_same<const N: usize>(text: &[u8; N], other: &[u8; N]) -> bool
    ensures { result ≡ true ↔ (text.now ≡ other.now) }
{
    let Some((_, end)) = text.split_last_chunk::<8>() else {
        return *text == *other;
    };
    let Some((_, other_end)) = other.split_last_chunk::<8>() else {
        return false;
    };
    let mut left: &[u8] = text;
    let mut right: &[u8] = other;
    'words: while let Some((word, more)) = left.split_first_chunk::<8>() {
        let Some((other_word, others)) = right.split_first_chunk::<8>() else {
            return false;
        };
        if are_same_words(word, other_word) {
            left = more;
            right = others;
        } else {
            return false;
        }
    }
    are_same_words(end, other_end)
}

/// Returns what follows `start`, if the bytes begin with it.
///
/// Compares as many bytes as `start` has, which is a constant, so that a few instructions do it.
#[inline(always)]
pub fn after<'a, const N: usize>(bytes: &'a [u8], start: &[u8; N]) -> Option<&'a [u8]>
    ensures some { IfSome result (λ rest. bytes.now ≡ start.now ++ rest.now) }
    ensures none { IfNone result ((rest : List ℕ) → bytes.now ≢ start.now ++ rest) }
{
    let (first, rest) = bytes.split_first_chunk::<N>()?;
    if are_same(first, start) {
        Some(rest)
    } else {
        None
    }
}
