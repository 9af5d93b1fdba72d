//! Lists that are usually short.
ghost use Rattle.std.specs.Prelude.{◌≡◌, ◌++◌, ◌∷◌, [], OnOk, OnErr};
ghost use Rattle.std.specs.Option.{option_to_list};
ghost use Rattle.settle.specs.Lists.{items_of};

use std::alloc::{AllocError, Global};

/// A list that allocates nothing while it has at most two items.
#[derive(Debug, Drop)]
pub enum Few<T> {
    Empty,
    One([T; 1]),
    Two([T; 2]),
    Many(Vec<T>),
}

impl<T> Few<T> {
    /// Creates a list of those of `first` and `second` that are `Some`, in this order.
    pub fn of(first: Option<T>, second: Option<T>) -> Few<T>
        ensures { items_of result ≡ option_to_list first ++ option_to_list second }
    {
        match first {
            None => match second {
                None => Few::Empty,
                Some(item) => Few::One([item]),
            },
            Some(first) => match second {
                None => Few::One([first]),
                Some(second) => Few::Two([first, second]),
            },
        }
    }

    /// Deletes all items.
    pub fn clear(&mut self)
    where
        T: Drop,
        ensures { items_of self.new ≡ [] }
    {
        match self {
            // An empty list is left as it is: writing it costs as much as writing two items.
            Few::Empty => {}
            _ => *self = Few::Empty,
        }
    }

    /// Returns the items in order.
    pub fn as_slice(&self) -> &[T]
        ensures { result.now ≡ items_of self.now }
    {
        match self {
            Few::Empty => &[],
            Few::One(item) => item.as_slice(),
            Few::Two(items) => items.as_slice(),
            Few::Many(items) => items.as_slice(),
        }
    }
}

impl<T: Copy + Drop> Few<T> {
    /// Appends `item`. The first two items need no allocation.
    ///
    /// # Errors
    ///
    /// `AllocError` if an allocation fails; the items then stay as they are.
    pub fn push(&mut self, alloc: Global, item: T) -> Result<(), AllocError>
        ensures ok { OnOk result (items_of self.new ≡ items_of self.old ++ item ∷ []) }
        ensures err { OnErr result (items_of self.new ≡ items_of self.old) }
    {
        match self {
            Few::Empty => *self = Few::One([item]),
            Few::One(items) => *self = Few::Two([items[0], item]),
            Few::Two(items) => {
                let mut all = Vec::with_capacity(alloc, 4)?;
                all.push(items[0])?;
                all.push(items[1])?;
                all.push(item)?;
                *self = Few::Many(all);
            }
            Few::Many(items) => items.push(item)?,
        }
        Ok(())
    }
}
