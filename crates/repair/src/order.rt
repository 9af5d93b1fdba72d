//! Checks the order of rows.
ghost use Rattle.std.specs.Prelude.{IsTrue};
ghost use Rattle.repair.specs.Contents.{entries_of};
ghost use Rattle.repair.specs.Order.{AreAscending};

use crate::row::RegisterRow;

/// Returns whether the rows are ascending by table and key, so that no two have one key.
pub(crate) fn are_ascending(rows: &[RegisterRow]) -> bool
    ensures { IsTrue result → AreAscending (entries_of rows.now) }
{
    for i in 1..rows.len() {
        if rows[i - 1].place().cmp(&rows[i].place()).is_ge() {
            return false;
        }
    }
    true
}
