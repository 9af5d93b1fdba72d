//! Reads the members of a JSON object by their keys.
ghost use Rattle.std.specs.Prelude.{◌≡◌, option_map, map, string_bytes};
ghost use Rattle.std.specs.List.{list_any, list_all};
ghost use Rattle.std.specs.Str.{bytes_eq};
ghost use Rattle.std.specs.BTreeMap.{keys as keys_in};
ghost use Rattle.serde_json.specs.Data.{Data};
ghost use Rattle.serde_json.specs.Find.{get};
ghost use Rattle.serde_json.specs.View.{items_view};
ghost use Rattle.json_api.specs.Forms.{only_keys, whole, text, flag, items, is_left_out as is_missing};

use serde_json::{Map, Value};
use std::alloc::Global;

/// A JSON value whose members are read by key.
pub trait Fields {
    // The JSON value that it represents.
    ghost value: { Self → Data };

    /// Returns the whole number below 2^40 under `key`, if there is one.
    fn whole(&self, key: &str) -> Option<u64>
        ensures { result ≡ whole key.now (value self.now) };

    /// Returns the text under `key`, if there is one.
    fn text(&self, key: &str) -> Option<&str>
        ensures { option_map (λ s. s.now) result ≡ text key.now (value self.now) };

    /// Returns the Boolean under `key`, if there is one.
    fn flag(&self, key: &str) -> Option<bool>
        ensures { result ≡ flag key.now (value self.now) };

    /// Returns the items of the array under `key`, if there is one.
    fn items(&self, key: &str) -> Option<&[Value]>
        ensures { option_map (λ s. items_view s.now) result ≡ items key.now (value self.now) };

    /// Returns whether `key` is missing, or has the value null.
    fn is_left_out(&self, key: &str) -> bool
        ensures { result ≡ is_missing (get key.now (value self.now)) };

    /// Returns whether the value is an object without keys other than `allowed`.
    fn has_only(&self, allowed: &[&str]) -> bool
        ensures { result ≡ only_keys (map (λ s. s.now) allowed.now) (value self.now) };
}

// Returns whether `key` is one of `allowed`.
pub(crate) fn is_one_of(key: &str, allowed: &[&str]) -> bool
    ensures { result ≡ list_any (λ s. bytes_eq key.now s.now) allowed.now }
{
    allowed.iter().any(|s| key == *s)
}

// Returns whether each key of a map is one of `allowed`.
fn are_known(members: &Map<String, Value>, allowed: &[&str]) -> bool
    ensures { result ≡ list_all (λ k. list_any (λ s. bytes_eq (string_bytes k) s.now) allowed.now)
        (keys_in members.now) }
{
    members.keys().all(|k| is_one_of(k.as_str(), allowed))
}

impl Fields for Value {
    ghost use Rattle.serde_json.specs.View.{view};

    ghost value = { view };

    #[tactic(auto, unfolding(crate::specs::Forms::whole))]
    fn whole(&self, key: &str) -> Option<u64> {
        self.get(key)
            .and_then(Value::as_u64)
            .filter(|n| *n < 1 << 40)
    }

    #[tactic(auto, unfolding(crate::specs::Forms::text))]
    fn text(&self, key: &str) -> Option<&str> {
        self.get(key)?.as_str()
    }

    #[tactic(auto, unfolding(crate::specs::Forms::flag))]
    fn flag(&self, key: &str) -> Option<bool> {
        self.get(key)?.as_bool()
    }

    #[tactic(auto, unfolding(crate::specs::Forms::items))]
    fn items(&self, key: &str) -> Option<&[Value]> {
        Some(self.get(key)?.as_array()?.as_slice())
    }

    fn is_left_out(&self, key: &str) -> bool {
        match self.get(key) {
            None => true,
            Some(given) => given.is_null(),
        }
    }

    fn has_only(&self, allowed: &[&str]) -> bool {
        match self.as_object() {
            None => false,
            Some(members) => are_known(members, allowed),
        }
    }
}
