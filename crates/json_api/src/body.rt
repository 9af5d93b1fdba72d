//! Parses bodies of any JSON as trees.
ghost use Rattle.std.specs.Prelude.{◌≡◌, IfOk, option_map};
ghost use Rattle.serde_json.specs.Read.{read as read_text};
ghost use Rattle.serde_json.specs.View.{view};
ghost use Rattle.json_api.specs.Forms.{json_of};

use serde_json::{Category, Value};
use std::alloc::{AllocError, Global};

// Parses a text as a JSON tree. Returns `None` if it is not JSON.
fn tree(alloc: Global, text: &str) -> Result<Option<Value>, AllocError>
    ensures { IfOk result (λ read. option_map view read ≡ read_text text.now) }
{
    match Value::from_str(alloc, text) {
        Ok(value) => Ok(Some(value)),
        Err(e) => match e.classify() {
            Category::Memory => Err(AllocError),
            _ => Ok(None),
        },
    }
}

/// Parses a body as a JSON tree. Returns `None` if it is not JSON.
///
/// Allocates the tree; try `Flat::read` first.
///
/// # Errors
///
/// `AllocError` if an allocation fails.
#[cold]
#[inline(never)]
pub fn json(alloc: Global, body: &[u8]) -> Result<Option<Value>, AllocError>
    ensures { IfOk result (λ read. option_map view read ≡ json_of body.now) }
{
    let Ok(text) = str::from_utf8(body) else {
        return Ok(None);
    };
    tree(alloc, text)
}
