//! Runs queries.
ghost use Rattle.std.specs.Prelude.{◌≡◌, false, [], IsTrue, IfOk, is_ok, map, option_map};
ghost use Rattle.sqlite.specs.Held.{state};
ghost use Rattle.sqlite.specs.Values.{bound};
ghost use Rattle.sqlite.specs.Query.{IsAnswer};
ghost use Rattle.sqlite.specs.Program.{overlay};
ghost use Rattle.sql_rows.specs.Statements.{query_of};
ghost use Rattle.sql_store.specs.Store.{HasStoreTables, HasQueried};
ghost use Rattle.sql_rows.specs.Found.{IsListAnswer, IsSoleAnswer};
ghost use Rattle.sql_rows.specs.Once.{HasUniqueKeys};

use crate::database::Database;
use crate::once::keys_are_unique;
use sql_rows::{Fault, FromRow, Query, all, sole};
use sqlite::types::ValueRef;
use sqlite::{Alter, Row};

/// Returns the rows that answer a query.
pub(crate) fn select<S: Alter>(
    db: &mut Database<S>,
    query: Query,
    params: &[ValueRef<'_>],
) -> Result<Vec<Row>, Fault>
    ensures value { IsTrue (state S.Store db.new.conn).is_open
        → IfOk result (λ rows.
        IsAnswer (query_of query) (overlay (state S.Store db.old.conn).now.trees []) (bound params.now)
        rows.items) }
    ensures queried { HasQueried (state S.Store db.old.conn) (state S.Store db.new.conn) (is_ok result) }
{
    // A failure may shut the connection, which then answers nothing.
    let kept = db.kept.take();
    let rows = db.conn.query_all(query.text(), params)?;
    db.kept = kept;
    Ok(rows)
}

/// Returns the only row that answers a query, if there is one.
pub(crate) fn find<T: FromRow, S: Alter>(
    db: &mut Database<S>,
    query: Query,
    params: &[ValueRef<'_>],
) -> Result<Option<T>, Fault>
    ensures value { IsTrue (state S.Store db.new.conn).is_open
        → IfOk result (λ o.
        IsSoleAnswer query T.seen_in (state S.Store db.old.conn).now.trees (bound params.now)
        (option_map T.seen o)) }
    ensures queried { HasQueried (state S.Store db.old.conn) (state S.Store db.new.conn) (is_ok result) }
{
    let rows = select(db, query, params)?;
    let found = sole(rows.as_slice())?;
    Ok(found)
}

/// Returns the rows that answer a query, each read. A row that cannot be read is a fault of the
/// device.
pub(crate) fn find_all<T: FromRow + Drop, S: Alter>(
    db: &mut Database<S>,
    query: Query,
    params: &[ValueRef<'_>],
) -> Result<Vec<T>, Fault>
    ensures value { IsTrue (state S.Store db.new.conn).is_open
        → IfOk result (λ items.
        IsListAnswer query T.seen_in (state S.Store db.old.conn).now.trees (bound params.now)
        (map T.seen items.items)) }
    ensures once { IsTrue (state S.Store db.new.conn).is_open
        → HasUniqueKeys (state S.Store db.old.conn).now.trees }
    ensures queried { HasQueried (state S.Store db.old.conn) (state S.Store db.new.conn) (is_ok result) }
{
    keys_are_unique(&db.conn);
    let rows = select(db, query, params)?;
    let items = all(*rows.allocator(), rows.as_slice())?;
    Ok(items)
}
