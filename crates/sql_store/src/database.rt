//! The connection to a database that has the store's tables.
ghost use Rattle.std.specs.Prelude.{◌≡◌, IsTrue};
ghost use Rattle.sqlite.specs.Held.{state};
ghost use Rattle.sql_store.specs.Kept.{AreKept, are_kept};
ghost use Rattle.sql_store.specs.Store.{HasStoreTables, ours_if_open};

use crate::kept::Kept;
use sqlite::{Alter, Connection};

/// A connection to a database with the store's tables, in a transaction or between two.
pub(crate) struct Database<S: Alter> {
    pub(crate) conn: Connection<S>,
    pub(crate) kept: Kept,
    ghost ours: { IsTrue (state S.Store conn).is_open → HasStoreTables (state S.Store conn) } by { ours_if_open _ },
    ghost are_kept: { AreKept (state S.Store conn) kept } by { are_kept _ _ },
}

impl<S: Alter> Database<S> {
    /// Takes a connection. Nothing has been read yet.
    pub(crate) fn of(conn: Connection<S>) -> Database<S>
        requires ours { IsTrue (state S.Store conn).is_open → HasStoreTables (state S.Store conn) }
        ensures { result.conn ≡ conn }
    {
        Database {
            conn,
            kept: Kept::none(),
        }
    }
}
