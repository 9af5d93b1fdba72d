//! The versions in force.
ghost use Rattle.std.specs.Prelude.{◌≡◌, ◌≢◌, ◌<◌, ◌/◌, ◌%◌, ℕ, [], IfNone, OnOk};
ghost use Rattle.std.proofs.Props.{props};
ghost use Rattle.std.specs.Ordering.{on};
ghost use Rattle.std.specs.BTreeMap.{ContainsKey};
ghost use Rattle.numbers.specs.Abstraction.{subject_of};
ghost use Rattle.store.specs.Maps.{Has, Lacks, Keeps, KeepsOthers};
ghost use Rattle.store.specs.Ranks.{subject_at};
ghost use Rattle.store.specs.HeldRows.{HaveLast, hint_at, subject_version_of, subject_version_cmp};
ghost use Rattle.store.specs.declared.keys.SubjectVersion.{SubjectVersion as SubjectVersionImpl};

use crate::indexes::{delete_key, put_key};
use crate::keys::{Rank, SubjectVersion};
use crate::near::NearMap;
use numbers::Subject;
use std::alloc::{AllocError, Global};
use std::collections::BTreeMap;
use std::hash::BuildHasherDefault;

// How many ranks share a row of ids.
const NEIGHBOURS: usize = 16;

// Returns the row of ids of a rank, and the place in it.
#[inline(always)]
fn place_of(rank: Rank) -> (u64, usize)
    ensures row { result.0 ≡ rank.number / 16 }
    ensures place { result.1 ≡ rank.number % 16 }
    ensures inside { result.1 < 16 }
{
    (rank.number / 16, (rank.number % 16) as usize)
}

// Returns how a row notes an id: the id itself if four bytes hold it, else the greatest number, and
// the version is found by its subject's keys. 0 notes no id.
fn hint_of(id: u64) -> u32
    ensures { result ≢ 0 }
{
    match u32::try_from(id) {
        Ok(id) if id > 0 => id,
        _ => u32::MAX,
    }
}

// Writes down that the version is the last of its subject.
fn note_last(
    last: &mut NearMap<u64, [u32; NEIGHBOURS]>,
    version: SubjectVersion,
) -> Result<(), AllocError>
    ensures noted { OnOk result (hint_at last.new.entries version.rank.number ≢ 0) }
    ensures keeps { (rank : ℕ) → hint_at last.old.entries rank ≢ 0
        → hint_at last.new.entries rank ≢ 0 }
{
    let (row, place) = place_of(version.rank);
    let mut ids = last.get(&row).copied().unwrap_or([0; NEIGHBOURS]);
    ids[place] = hint_of(version.id);
    let _ = last.insert(row, ids)?;
    Ok(())
}

/// The versions in force by their subjects, and for each subject the last version that came into
/// force, found by a hash.
///
/// The last version is a hint: it may not be in force any more. A subject without one has no
/// version in force. The ids of neighbours share an entry, so that the hash has few keys, and most
/// of it stays in the cache.
#[derive(Drop)]
pub struct Holds {
    /// The versions in the order of their subjects.
    pub keys: BTreeMap<SubjectVersion, ()>,
    /// The ids of the last versions: a row for each 16 ranks, by the number of the first over 16.
    pub last: NearMap<u64, [u32; NEIGHBOURS]>,
    ghost have_last: { HaveLast keys last.entries } by { Prim.hlevel props },
}

impl Holds {
    /// Creates an empty index.
    pub fn new(alloc: Global) -> Holds
        ensures { result.keys.entries ≡ [] }
    {
        Holds {
            keys: BTreeMap::new(alloc),
            last: NearMap::with_hasher(alloc, BuildHasherDefault::new()),
        }
    }

    /// Returns the id of the last version that came into force for the subject, or `None` if no
    /// version of it is in force.
    #[inline(always)]
    pub fn last(&self, subject: Subject) -> Option<u64>
        ensures { IfNone result ((k : SubjectVersionImpl) → subject_at k.rank ≡ subject_of subject
            → ContainsKey (on subject_version_of subject_version_cmp) self.now.keys k → ⊥) }
    {
        let (row, place) = place_of(Rank::of(subject));
        match self.last.get(&row)?[place] {
            0 => None,
            id => Some(u64::from(id)),
        }
    }

    /// Adds the key, if there is one.
    pub fn put(&mut self, key: Option<SubjectVersion>) -> Result<(), AllocError>
        ensures there { OnOk result
            (Has (on subject_version_of subject_version_cmp) self.new.keys key) }
        ensures keeps { Keeps (on subject_version_of subject_version_cmp) self.old.keys
            self.new.keys }
    {
        let Some(held) = key else {
            return Ok(());
        };
        note_last(&mut self.last, held)?;
        put_key(&mut self.keys, key)
    }

    /// Deletes the key, if there is one.
    pub fn delete(&mut self, key: Option<SubjectVersion>)
        ensures others { KeepsOthers (on subject_version_of subject_version_cmp) self.old.keys
            self.new.keys key }
        ensures gone { Lacks (on subject_version_of subject_version_cmp) self.new.keys key }
    {
        if key.is_some() {
            delete_key(&mut self.keys, key);
        }
    }
}
