//! Sorts lists.
ghost use Rattle.std.specs.Prelude.{◌≡◌};
ghost use Rattle.std.specs.List.Sorted.{IsStrictlySortedBy};
ghost use Rattle.sqlite_rules.specs.Lists.{Has};

use std::cmp::Ordering;

/// Sorts the items in ascending order, and removes duplicates.
pub(crate) fn put_in_order<T: Ord + Drop>(items: &mut Vec<T>)
    ensures rises { IsStrictlySortedBy T.cmp items.new.items }
    ensures only { (x : T) → Has items.new.items x → Has items.old.items x }
    ensures each { (x : T) → Has items.old.items x
        → (y : T) × Has items.new.items y × (T.cmp x y ≡ Ordering.Equal) }
{
    items.sort_unstable();
    items.dedup();
}
