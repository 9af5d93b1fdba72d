//! Appends lists with commas between their items.
ghost use Rattle.std.specs.Prelude.{◌≡◌, ℕ, List, ◌+◌, ◌*◌, ◌≤◌, ◌++◌, length, codes, string_bytes, string_len, string_capacity};
ghost use Rattle.std.specs.List.{flat_map};
ghost use Rattle.json_api.specs.Texts.{listed};

use crate::append::put;

/// An item of a list.
pub(crate) trait Item {
    // Its text.
    ghost text: { Self → List ℕ };
    // The most bytes of its text.
    ghost max_len: { ℕ };

    /// Appends the text.
    fn put(&self, out: &mut String)
        requires { string_len out.old + max_len ≤ string_capacity out.old }
        ensures bytes { string_bytes out.new ≡ string_bytes out.old ++ text self.now }
        ensures len { string_len out.new ≤ string_len out.old + max_len }
        ensures capacity { string_capacity out.old ≤ string_capacity out.new };
}

// Appends a comma and an item.
fn put_next<T: Item>(out: &mut String, item: &T)
    requires { string_len out.old + (T.max_len + 1) ≤ string_capacity out.old }
    ensures bytes { string_bytes out.new ≡ string_bytes out.old ++ (codes "," ++ T.text item.now) }
    ensures len { string_len out.new ≤ string_len out.old + (T.max_len + 1) }
    ensures capacity { string_capacity out.old ≤ string_capacity out.new }
{
    put(out, ",");
    item.put(out);
}

// Appends the items after the first, each with a comma before it.
fn put_rest<T: Item>(out: &mut String, items: &[T])
    requires { string_len out.old + length items.now * (T.max_len + 1) ≤ string_capacity out.old }
    ensures bytes { string_bytes out.new
        ≡ string_bytes out.old ++ flat_map (λ i. codes "," ++ T.text i) items.now }
    ensures len { string_len out.new ≤ string_len out.old + length items.now * (T.max_len + 1) }
    ensures capacity { string_capacity out.old ≤ string_capacity out.new }
{
    for item in items {
        put_next(out, item);
    }
}

/// Appends the items, with a comma between two. Needs memory for the longest text of each, and one
/// byte more.
pub(crate) fn put_list<T: Item>(out: &mut String, items: &[T])
    requires { string_len out.old + length items.now * (T.max_len + 1) ≤ string_capacity out.old }
    ensures bytes { string_bytes out.new ≡ string_bytes out.old ++ listed T.text items.now }
    ensures len { string_len out.new ≤ string_len out.old + length items.now * (T.max_len + 1) }
    ensures capacity { string_capacity out.old ≤ string_capacity out.new }
{
    if let Some((first, rest)) = items.split_first() {
        first.put(out);
        put_rest(out, rest);
    }
}
