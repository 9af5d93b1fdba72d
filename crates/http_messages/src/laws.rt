//! The law of the messages of an input.
ghost use Rattle.std.specs.Prelude.{◌≡◌, ℕ, List};
ghost use Rattle.http_messages.specs.Parsing.{Parsed, ParsesAs};

/// States that an input parses in one way only.
pub fn parse_is_unique()
    ensures { (input : List ℕ) (a b : Parsed) → ParsesAs input a → ParsesAs input b → a ≡ b }
{}
