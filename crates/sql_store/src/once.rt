//! The uniqueness of keys, by the database's own rules.
ghost use Rattle.std.specs.Prelude.{IsTrue};
ghost use Rattle.sqlite.specs.Held.{state};
ghost use Rattle.sql_rows.specs.Once.{HasUniqueKeys};
ghost use Rattle.sql_store.specs.Store.{HasStoreTables};

use sqlite::{Alter, Connection};

/// Does nothing: the rules of the schema keep each key unique. A list that is read by other columns
/// than those of the key depends on it. No contract of a query says that the rows obey the rules, so
/// a proof learns it from a call of `schema`.
pub(crate) fn keys_are_unique<S: Alter>(conn: &Connection<S>)
    requires { IsTrue (state S.Store conn.now).is_open → HasStoreTables (state S.Store conn.now) }
    ensures { IsTrue (state S.Store conn.now).is_open
        → HasUniqueKeys (state S.Store conn.now).now.trees }
{
    let _schema = conn.schema();
}
