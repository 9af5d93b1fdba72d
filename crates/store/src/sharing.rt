//! Acknowledges a download that is pending for other carriers too, in one call.
ghost use Rattle.settle.specs.Abstraction.{spid_of};
ghost use Rattle.settle.specs.Sharing.{TakesSharedOrNone};
ghost use Rattle.store.specs.Tables.{content_of, AreIndexed};

use crate::keys::BroadcastId;
use crate::tables::Tables;
use numbers::Spid;
use settle::VersionRow;

/// Deletes the carrier's download of the version's attempt, marks its broadcast as acknowledged and
/// returns the version. Returns `None` and changes nothing unless
/// - the carrier is registered, and the version has been broadcast and awaits the answers;
/// - the broadcast is the only pending one of the version's subject;
/// - the broadcast is pending for the carrier, and for another registered carrier too.
// Inlined: a row is large, and each return moves it.
#[inline(always)]
pub fn take_shared(tables: &mut Tables, carrier: Spid, id: u64, attempt: u64) -> Option<VersionRow>
    requires { AreIndexed tables.old }
    ensures taken { TakesSharedOrNone (content_of tables.old) (content_of tables.new)
        (spid_of carrier) id attempt result }
    ensures indexed { AreIndexed tables.new }
{
    let row = tables.versions.get(id)?;
    if !row.is_sending() {
        return None;
    }
    if !tables.carriers.contains(carrier) {
        return None;
    }
    let broadcast = tables.broadcasts.get_mut(&BroadcastId { id, attempt })?;
    let _ = tables
        .waits
        .take_shared(&tables.carriers, row.rank(), carrier, id, attempt)?;
    broadcast.mark();
    Some(row.copied())
}
