//! Reads the figures of a register from its rows.
ghost use Rattle.std.specs.Prelude.{◌≡◌, ◌++◌, ◌∷◌, [], IfOk, OnOk};
ghost use Rattle.report.specs.Figures.{AreFigures, number_of};
ghost use Rattle.report.specs.Counts.{AreCounts};
ghost use Rattle.report.specs.Life.{AreVersionsOf};

use crate::carriers::{CarrierFigures, read_carriers};
use crate::counts::VersionCounts;
use crate::life::{Life, is_of, read_sent};
use numbers::Tn;
use settle::{ClockRow, NumberedRow, Store, StoreFault, VersionRow};
use std::alloc::{AllocError, Global};

/// What a register's rows show, as of its clock's row.
///
/// The rows may lag: a version whose timer has ended keeps its status until a message reads it.
#[derive(Debug, Drop)]
pub struct Figures {
    pub clock: ClockRow,
    pub versions: VersionCounts,
    /// Of each registered carrier, ascending.
    pub carriers: Vec<CarrierFigures>,
    /// Of the number that was asked for.
    pub life: Life,
}

// Appends a version's row.
fn push_row(rows: &mut Vec<NumberedRow>, id: u64, row: VersionRow) -> Result<(), AllocError>
    ensures { OnOk result (rows.new.items ≡ rows.old.items ++ record { id = id; row = row } ∷ []) }
{
    Ok(rows.push(NumberedRow { id, row })?)
}

// Reads all versions: counts them, and returns those of the number.
fn read_versions<S: Store>(
    alloc: Global,
    store: &mut S,
    clock: &ClockRow,
    number: Option<Tn>,
) -> Result<(VersionCounts, Vec<NumberedRow>), StoreFault>
    ensures counts { S.IsUsable store.new → IfOk result
        (λ r. AreCounts (S.content store.old) clock.now.minute.number clock.now.next_id r.0) }
    ensures found { S.IsUsable store.new → IfOk result (λ r.
        AreVersionsOf (S.content store.old) (number_of number) clock.now.next_id r.1.items) }
    ensures same { S.IsUsable store.new
        → S.IsUsable store.old × (S.content store.new ≡ S.content store.old) }
{
    let mut counts = VersionCounts::NONE;
    let mut found = Vec::new(alloc);
    for id in 0..clock.next_id {
        if let Some(row) = store.version(id)? {
            counts.add(clock.minute, &row);
            if is_of(number, row.version.subject) {
                push_row(&mut found, id, row)?;
            }
        }
    }
    Ok((counts, found))
}

impl Figures {
    /// Reads the figures, and the life of `number` if it is given. Reads each version with an id
    /// below the clock row's next id once, and changes nothing.
    ///
    /// # Errors
    ///
    /// The store's. `Storage` also if there is no clock's row, `NoMemory` also if an allocation
    /// fails.
    pub fn read<S: Store>(
        alloc: Global,
        store: &mut S,
        number: Option<Tn>,
    ) -> Result<Figures, StoreFault>
        ensures figures { S.IsUsable store.new
            → IfOk result (AreFigures (S.content store.old) number) }
        ensures same { S.IsUsable store.new
            → S.IsUsable store.old × (S.content store.new ≡ S.content store.old) }
    {
        let Some(clock) = store.clock()? else {
            return Err(StoreFault::Storage);
        };
        let carriers = read_carriers(alloc, store)?;
        let (versions, found) = read_versions(alloc, store, &clock, number)?;
        let sent = read_sent(alloc, store, found.as_slice())?;
        Ok(Figures {
            clock,
            versions,
            carriers,
            life: Life {
                number,
                versions: found,
                sent,
            },
        })
    }
}
