//! Reads lists of lines.
ghost use Rattle.std.specs.Prelude.{◌≡◌, ℕ, List, IfOk, IfSome, IfNone};
ghost use Rattle.serde_json.specs.View.{view, items_view};
ghost use Rattle.pool.specs.Donations.{lines_of as lines_model};
ghost use Rattle.json_api.specs.Forms.{IsLineText, AreLineTexts};

use numbers::Line;
use serde_json::Value;
use std::alloc::{AllocError, Global};

// Returns the line whose text a value is, if it is one.
#[tactic(auto, using(crate::proofs::FormLemmas::no_text, crate::proofs::FormLemmas::other_text))]
fn line_of(value: &Value) -> Option<Line>
    ensures some { IfSome result (λ line. IsLineText (view value.now) line.number) }
    ensures none { IfNone result ((n : ℕ) → ¬ (IsLineText (view value.now) n)) }
{
    Line::read(value.as_str()?)
}

/// Returns the lines whose texts the values are, in order, or `None` if a value is not the text of
/// a line.
pub(crate) fn lines_of(alloc: Global, values: &[Value]) -> Result<Option<Vec<Line>>, AllocError>
    ensures some { IfOk result (λ read. IfSome read (λ lines.
        AreLineTexts (items_view values.now) (lines_model lines.items))) }
    ensures none { IfOk result (λ read. IfNone read ((lines : List ℕ)
        → ¬ (AreLineTexts (items_view values.now) lines))) }
{
    let mut lines = Vec::with_capacity(alloc, values.len())?;
    for value in values {
        let Some(line) = line_of(value) else {
            return Ok(None);
        };
        lines.push(line)?;
    }
    Ok(Some(lines))
}
