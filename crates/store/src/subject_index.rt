//! An index of versions by their subjects.
ghost use Rattle.std.specs.Prelude.{◌≡◌, ℕ, true, false, OnOk, OnErr, option_map};
ghost use Rattle.std.proofs.Props.{props};
ghost use Rattle.numbers.specs.Abstraction.{key_of};
ghost use Rattle.numbers.specs.Digits.{block_of, line_of};
ghost use Rattle.numbers.specs.Subjects.{Number};
ghost use Rattle.store.specs.HeldRows.{SubjectVersion as SubjectVersionModel, subject_version_of};
ghost use Rattle.store.specs.Ranks.{subject_at};
ghost use Rattle.store.specs.SubjectRows.{has_id, ids_at, versions_of, has_line, lines_of, is_lined, AreLined, IsKey, IsIdSet, HasKey, LacksKey, KeepsKeys, KeepsOtherKeys};

use crate::keys::{Rank, SubjectVersion};
use crate::near::NearMap;
use numbers::{BlockId, Line, Subject};
use std::alloc::{AllocError, Global};
use std::collections::{BTreeMap, HashMap};
use std::hash::BuildHasherDefault;

/// The ids of a subject's versions. Most subjects have one, so that more are boxed.
#[derive(Drop)]
pub enum Ids {
    One(u64),
    More(Box<BTreeMap<u64, ()>>),
}

impl Ids {
    // Adds an id. Changes nothing if an allocation fails.
    fn add(&mut self, alloc: Global, id: u64) -> Result<(), AllocError>
        ensures ok { OnOk result (IsIdSet (has_id self.old) (has_id self.new) id true) }
        ensures err { OnErr result ((q : ℕ) → has_id self.new q ≡ has_id self.old q) }
    {
        match self {
            Ids::One(own) => {
                if *own != id {
                    let mut more = BTreeMap::new(alloc);
                    let _ = more.insert(*own, ())?;
                    let _ = more.insert(id, ())?;
                    *self = Ids::More(Box::new(alloc, more)?);
                }
            }
            Ids::More(more) => {
                let _ = more.insert(id, ())?;
            }
        }
        Ok(())
    }

    // Deletes an id if another one stays. Returns whether none stays.
    fn remove(&mut self, id: u64) -> bool
        ensures others { result ≡ false → IsIdSet (has_id self.old) (has_id self.new) id false }
        ensures none { result ≡ true → IsIdSet (has_id self.old) (λ _. false) id false }
    {
        match self {
            Ids::One(own) => *own == id,
            Ids::More(more) => {
                let _ = more.remove(&id);
                more.is_empty()
            }
        }
    }
}

// ---- ids

// Adds the version. Changes nothing if an allocation fails.
#[inline(never)]
fn add_id(ids: &mut NearMap<u64, Ids>, alloc: Global, key: SubjectVersion) -> Result<(), AllocError>
    ensures ok { OnOk result
        (IsKey (versions_of ids.old.entries) (versions_of ids.new.entries)
        (subject_version_of key) true) }
    ensures err { OnErr result
        ((q : SubjectVersionModel) → versions_of ids.new.entries q
        ≡ versions_of ids.old.entries q) }
{
    if let Some(own) = ids.get_mut(&key.rank.number) {
        return own.add(alloc, key.id);
    }
    match ids.insert(key.rank.number, Ids::One(key.id)) {
        Ok(_) => Ok(()),
        Err(_) => Err(AllocError),
    }
}

// Deletes the version.
#[inline(never)]
fn remove_id(ids: &mut NearMap<u64, Ids>, key: SubjectVersion)
    ensures { IsKey (versions_of ids.old.entries) (versions_of ids.new.entries)
        (subject_version_of key) false }
{
    if let Some(own) = ids.get_mut(&key.rank.number) {
        if own.remove(key.id) {
            let _ = ids.remove(&key.rank.number);
        }
    }
}

// ---- lines

// Adds the line to an ascending list, if the list does not have it. Changes nothing if an allocation
// fails.
fn insert_line(lines: &mut Vec<Line>, line: Line) -> Result<(), AllocError>
    ensures there { OnOk result (has_line lines.new.items line.number ≡ true) }
    ensures keeps { (l : ℕ) → has_line lines.old.items l ≡ true
        → has_line lines.new.items l ≡ true }
{
    if let Err(place) = lines.binary_search(&line) {
        lines.insert(place, line)?;
    }
    Ok(())
}

// Adds the line of the number at the place, if a number is at it, to its block's list. Changes
// nothing if an allocation fails.
#[inline(never)]
fn add_line(
    lines: &mut HashMap<u64, Vec<Line>>,
    alloc: Global,
    rank: Rank,
) -> Result<(), AllocError>
    ensures there { OnOk result ((n : ℕ) → subject_at rank ≡ Number n
        → is_lined lines.new.entries (block_of n) (line_of n) ≡ true) }
    ensures keeps { (b l : ℕ) → is_lined lines.old.entries b l ≡ true
        → is_lined lines.new.entries b l ≡ true }
{
    let Some((block, line)) = rank.line() else {
        return Ok(());
    };
    if let Some(own) = lines.get_mut(&block) {
        return insert_line(own, line);
    }
    let mut own = Vec::new(alloc);
    own.push(line)?;
    match lines.insert(block, own) {
        Ok(_) => Ok(()),
        Err(_) => Err(AllocError),
    }
}

/// The versions of subjects, found by a hash, and for each block the lines of its numbers that have
/// a version.
///
/// A line stays when its number's last version is deleted.
#[derive(Drop)]
pub struct SubjectIndex {
    alloc: Global,
    /// The ids of each subject's versions, by the number of the subject's rank.
    pub ids: NearMap<u64, Ids>,
    /// The lines of each block by the block's number. They ascend, so that a search finds one that is
    /// there.
    pub lines: HashMap<u64, Vec<Line>>,
    ghost are_lined: { AreLined (versions_of ids.entries) lines.entries } by { Prim.hlevel props },
}

impl SubjectIndex {
    /// Creates an empty index.
    pub fn new(alloc: Global) -> SubjectIndex
        ensures { (k : SubjectVersionModel) → versions_of result.ids.entries k ≡ false }
    {
        SubjectIndex {
            alloc,
            ids: NearMap::with_hasher(alloc, BuildHasherDefault::new()),
            lines: HashMap::new(alloc),
        }
    }

    /// Returns the ids of the subject's versions, or `None` if it has none.
    pub fn ids_of(&self, subject: Subject) -> Option<&Ids>
        ensures { option_map (λ ids. ids.now) result
            ≡ ids_at self.now.ids.entries (key_of subject) }
    {
        self.ids.get(&Rank::of(subject).number)
    }

    /// Returns the lines of the block's numbers that have or had a version.
    pub fn lines_of(&self, block: BlockId) -> &[Line]
        ensures { result.now ≡ lines_of self.now.lines.entries block.number }
    {
        match self.lines.get(&u64::from(block.number)) {
            None => &[],
            Some(lines) => lines.as_slice(),
        }
    }

    /// Adds the key, if there is one. If an allocation fails, the index has the same keys.
    pub fn put(&mut self, key: Option<SubjectVersion>) -> Result<(), AllocError>
        ensures there { OnOk result (HasKey (versions_of self.new.ids.entries) key) }
        ensures keeps { KeepsKeys (versions_of self.old.ids.entries) (versions_of self.new.ids.entries) }
        ensures adds { KeepsOtherKeys (versions_of self.new.ids.entries) (versions_of self.old.ids.entries) key }
    {
        let Some(key) = key else {
            return Ok(());
        };
        add_line(&mut self.lines, self.alloc, key.rank)?;
        add_id(&mut self.ids, self.alloc, key)
    }

    /// Deletes the key, if there is one.
    pub fn delete(&mut self, key: Option<SubjectVersion>)
        ensures others { KeepsOtherKeys (versions_of self.old.ids.entries) (versions_of self.new.ids.entries) key }
        ensures adds { KeepsKeys (versions_of self.new.ids.entries) (versions_of self.old.ids.entries) }
        ensures gone { LacksKey (versions_of self.new.ids.entries) key }
    {
        if let Some(key) = key {
            remove_id(&mut self.ids, key);
        }
    }
}
