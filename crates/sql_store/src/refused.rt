//! What is returned with the fault if a database is refused.
ghost use Rattle.std.specs.Prelude.{◌≡◌, IsTrue};
ghost use Rattle.sqlite.specs.Tree.{Trees};
ghost use Rattle.sqlite_trees.specs.View.{IsClean};
ghost use Rattle.sql_store.specs.Refusal.{IsLeftClean, may_leave_of, trees_of};

use sqlite::{Alter, Connection};

/// The refused database: as a connection, or as the storage under it.
#[derive(Drop)]
pub enum Refused<S: Alter> {
    Connection(Connection<S>),
    Store(S),
}

impl<S: Alter + Drop> Refused<S> {
    /// Returns the database without the connection, as the last commit left it.
    pub fn into_store(self) -> S
        ensures kept { IsClean (S.Store.view result) → IsTrue (S.Store.view result).is_open
            → (S.Store.view result).trees ≡ trees_of S.Store self }
        ensures honest { IsClean (S.Store.view result) → IsLeftClean S.Store self }
        ensures crash { (db : Trees) → S.Store.recovers result db → may_leave_of S.Store self db }
    {
        match self {
            Refused::Connection(conn) => conn.into_store(),
            Refused::Store(store) => store,
        }
    }
}
