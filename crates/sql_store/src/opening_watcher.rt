//! Watches the rows of a file while it is opened or migrated.

/// What watches the rows of a file while it is opened or migrated. No contract depends on it.
pub trait OpeningWatcher {
    /// Notes that a row was read, copied or deleted.
    fn row(&mut self);
}

/// The watcher that ignores each row.
#[derive(Clone, Copy, Debug)]
pub struct Unwatched;

impl OpeningWatcher for Unwatched {
    fn row(&mut self) {}
}
