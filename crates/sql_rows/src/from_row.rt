//! Reads values from the rows of a query.
ghost use Rattle.std.specs.Prelude.{◌≡◌, Option, option_map, IfOk, map};
ghost use Rattle.sqlite.specs.Order.{Row as RowModel};
ghost use Rattle.sql_rows.specs.Found.{AreRead, IsSole};

use crate::fault::Fault;
use sqlite::Row;
use std::alloc::Global;

/// A value read from a row of a query.
pub trait FromRow: Sized {
    // The model of the value.
    ghost Seen: { Type 0 };

    ghost seen: { Self → Seen };

    // The model of the value in a row, if the row can be read.
    ghost seen_in: { RowModel → Option Seen };

    /// Reads the value. Returns `None` if a column has no value of its type.
    fn read(row: &Row) -> Option<Self>
        ensures { option_map seen result ≡ seen_in row.now };
}

/// Returns the value of the only row, or `None` if there is no row.
///
/// # Errors
///
/// `Device` if there is more than one row, or the row cannot be read.
pub fn sole<T: FromRow>(rows: &[Row]) -> Result<Option<T>, Fault>
    ensures { IfOk result (λ o. IsSole T.seen_in rows.now (option_map T.seen o)) }
{
    match rows {
        [] => Ok(None),
        [row] => match T::read(row) {
            Some(value) => Ok(Some(value)),
            None => Err(Fault::Device),
        },
        _ => Err(Fault::Device),
    }
}

/// Returns the values of the rows, in their order.
///
/// # Errors
///
/// `Device` if a row cannot be read; `Memory` if an allocation fails.
pub fn all<T: FromRow + Drop>(alloc: Global, rows: &[Row]) -> Result<Vec<T>, Fault>
    ensures { IfOk result (λ items. AreRead T.seen_in rows.now (map T.seen items.items)) }
{
    let mut items = Vec::with_capacity(alloc, rows.len())?;
    for row in rows {
        let Some(item) = T::read(row) else {
            return Err(Fault::Device);
        };
        items.push(item)?;
    }
    Ok(items)
}
