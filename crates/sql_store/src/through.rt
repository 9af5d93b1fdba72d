//! Reads the rows of a table one at a time, so that no table is held in memory.
ghost use Rattle.std.specs.Prelude.{◌≡◌, ◌⊎◌, ℕ, false, [], List, IsTrue, IfOk, OnErr, OnOk, option_map};
ghost use Rattle.sqlite.specs.Given.{HasGiven, IsPlain};
ghost use Rattle.sqlite.specs.Held.{state};
ghost use Rattle.sqlite.specs.Listing.{understood};
ghost use Rattle.sqlite.specs.Order.{Row as RowModel};
ghost use Rattle.sqlite.specs.State.{HasCleanDisk, IsRolledBack, IsUnchanged, Survives};
ghost use Rattle.sql_rows.specs.Statements.{all_text};
ghost use Rattle.sql_store.specs.Through.{HasReadAll, ReadsOn, BlankMeansNone, IsOnlyRead};

use crate::opening_watcher::OpeningWatcher;
use sql_rows::{Fault, FromRow, Query, Table};
use sqlite::{Alter, Connection, Rows};

/// Returns the next row, read, if there is one. A row that cannot be read is a fault of the device.
pub(crate) fn next_read<T: FromRow, S: Alter>(rows: &mut Rows<'_, S>) -> Result<Option<T>, Fault>
    ensures same_reference { rows.new.conn.ghost_name ≡ rows.old.conn.ghost_name }
    ensures reads { HasCleanDisk (state S.Store rows.new.conn.now) → IfOk result (λ o.
        (sql : List ℕ) (given : List RowModel) → HasGiven S.Store sql [] rows.old.conn.now given
        → ReadsOn S.Store T.seen_in sql rows.old.conn.now rows.new.conn.now given
        (option_map T.seen o)) }
    ensures same { HasCleanDisk (state S.Store rows.new.conn.now) → OnOk result
        (IsUnchanged (state S.Store rows.old.conn.now) (state S.Store rows.new.conn.now)) }
    ensures err { HasCleanDisk (state S.Store rows.new.conn.now) → OnErr result
        (IsUnchanged (state S.Store rows.old.conn.now) (state S.Store rows.new.conn.now)
        ⊎ IsRolledBack (state S.Store rows.old.conn.now) (state S.Store rows.new.conn.now)) }
    ensures mode { rows.old.conn.now.in_transaction ≡ false
        → rows.new.conn.now.in_transaction ≡ false }
    ensures survives { Survives (state S.Store rows.old.conn.now)
        (state S.Store rows.new.conn.now) (λ _. ⊥) }
{
    rows.advance()?;
    let Some(row) = rows.get() else {
        return Ok(None);
    };
    match T::read(row) {
        Some(item) => Ok(Some(item)),
        None => Err(Fault::Device),
    }
}

// Reads the rows that are left, and notes each with `watcher`. Returns whether there were none.
fn read_rows<T: FromRow + Drop, S: Alter, N: OpeningWatcher>(
    rows: &mut Rows<'_, S>,
    watcher: &mut N,
) -> Result<bool, Fault>
    ensures same_reference { rows.new.conn.ghost_name ≡ rows.old.conn.ghost_name }
    ensures all { HasCleanDisk (state S.Store rows.new.conn.now) → IfOk result (λ blank.
        (sql : List ℕ) → IsPlain (understood (state S.Store rows.old.conn.now).now.schema sql)
        → HasGiven S.Store sql [] rows.old.conn.now []
        → HasReadAll T.seen_in sql (state S.Store rows.old.conn.now)
        (state S.Store rows.new.conn.now) (BlankMeansNone blank)) }
    ensures err { HasCleanDisk (state S.Store rows.new.conn.now) → OnErr result
        (IsOnlyRead S.Store rows.old.conn.now rows.new.conn.now
        ⊎ IsRolledBack (state S.Store rows.old.conn.now) (state S.Store rows.new.conn.now)) }
    ensures mode { rows.old.conn.now.in_transaction ≡ false
        → rows.new.conn.now.in_transaction ≡ false }
    ensures survives { Survives (state S.Store rows.old.conn.now)
        (state S.Store rows.new.conn.now) (λ _. ⊥) }
{
    let mut blank = true;
    'rows: for _ in 0..usize::MAX {
        let Some(_item) = next_read::<T, S>(rows)? else {
            return Ok(blank);
        };
        blank = false;
        watcher.row();
    }
    Err(Fault::Device)
}

/// Reads every row of a table, and notes each with `watcher`. Returns whether the table has none.
pub(crate) fn read_table<T: FromRow + Drop, S: Alter, N: OpeningWatcher>(
    conn: &mut Connection<S>,
    table: Table,
    watcher: &mut N,
) -> Result<bool, Fault>
    requires plain { IsTrue (state S.Store conn.old).is_open
        → IsPlain (understood (state S.Store conn.old).now.schema (all_text table)) }
    ensures all { HasCleanDisk (state S.Store conn.new) → IfOk result (λ blank.
        HasReadAll T.seen_in (all_text table) (state S.Store conn.old)
        (state S.Store conn.new) (BlankMeansNone blank)) }
    ensures err { HasCleanDisk (state S.Store conn.new) → OnErr result
        (IsUnchanged (state S.Store conn.old) (state S.Store conn.new)
        ⊎ IsRolledBack (state S.Store conn.old) (state S.Store conn.new)) }
    ensures mode { conn.old.in_transaction ≡ false → conn.new.in_transaction ≡ false }
    ensures survives { Survives (state S.Store conn.old) (state S.Store conn.new) (λ _. ⊥) }
{
    let mut rows = conn.query(Query::All(table).text(), &[])?;
    read_rows::<T, S, N>(&mut rows, watcher)
}
