//! Cuts a text at an ASCII mark, and compares names.

ghost use Rattle.std.specs.Prelude.{◌≡◌, ◌<◌, option_map};
ghost use Rattle.std.specs.Cmp.Lexicographic.{slice_cmp};
ghost use Rattle.std.specs.Ordering.{nat_cmp};
ghost use Rattle.telnp.specs.Grammar.{cut, lower, same_name};

use std::cmp::Ordering;

/// Returns the text before and after the first `mark`, if there is one.
pub fn cut_at(text: &str, mark: char) -> Option<(&str, &str)>
    requires { mark < 128 }
    ensures { option_map (λ p. (p.0.now, p.1.now)) result ≡ cut mark text.now }
{
    text.split_once(mark)
}

/// Returns whether two names are equal, ignoring the case of ASCII letters.
pub fn same_name(a: &str, b: &str) -> bool
    ensures { result ≡ same_name a.now b.now }
{
    a.eq_ignore_ascii_case(b)
}

/// Compares two names in lower case, byte by byte.
pub fn compare_names(a: &str, b: &str) -> Ordering
    ensures { result ≡ slice_cmp nat_cmp (lower a.now) (lower b.now) }
{
    a.as_bytes()
        .iter()
        .map(|x| x.to_ascii_lowercase())
        .cmp(b.as_bytes().iter().map(|y| y.to_ascii_lowercase()))
}
