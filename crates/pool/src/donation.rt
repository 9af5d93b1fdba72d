//! Donations: a carrier gives a block to the pool.
ghost use Rattle.std.specs.Prelude.{◌≡◌, ◌≢◌, ◌+◌, ◌≤◌, nat_lt, filter, length, map, None, Some, IfOk, IfErr, OnOk};
ghost use Rattle.std.specs.BTreeSet.{keys};
ghost use Rattle.model.specs.Conditions.{limit};
ghost use Rattle.delivery.specs.Refused.{refusal_in};
ghost use Rattle.model.specs.RefusalNumbers.{number_of};
ghost use Rattle.model.specs.declared.refusal.Refusal.TheVariants.{NoMemory};
ghost use Rattle.model.specs.History.{CommandRequest};
ghost use Rattle.model.specs.State.{State};
ghost use Rattle.model.specs.Refusals.{first_refusal, refusal, RequestFrom};
ghost use Rattle.numbers.specs.Subjects.{Number};
ghost use Rattle.version.specs.Abstraction.{set_of};
ghost use Rattle.pool.specs.Blocks.{IsBlockCommandIn, NumbersMatch};
ghost use Rattle.pool.specs.Donations.{command_of, donation_refusal, donor_tests, is_contaminated, is_named, is_unnamed, is_unprotected, numbers_in, tests_by, tn_subject, used_by, AreProtective, IsPlanned, IsProtective, IsRefusedAs};

use crate::facts::BlockFacts;
use model::{Refusal, Status};
use numbers::{BlockId, Line, Minute, Routing, Spid, Subject, Tn};
use std::alloc::{AllocError, Global};
use std::collections::BTreeSet;
use version::{ID_LIMIT, Version};
use windows::WindowSet;

// The most numbers of a block that may be in use when it is donated.
const MOST_IN_USE: usize = 100;

/// A donation of a block to the pool, with the lines of it that are in use.
///
/// By the thousands-block guidelines of the ATIS Industry Numbering Committee (INC), a block may be
/// donated while at most ten percent of its numbers are in use. These are first ported to the donor
/// itself.
#[derive(Clone, Copy, Debug)]
pub struct Donation<'a> {
    pub block: BlockId,
    /// The lines in use, in any order. Duplicates count once.
    pub used: &'a [Line],
    /// The routing of calls for the used numbers.
    pub routing: Routing,
}

/// The effect of a donation.
#[derive(Debug, Drop)]
pub struct Plan {
    /// The protective versions with their ids, ascending by number. Each sends its create.
    pub versions: Vec<(u64, Version)>,
}

// Checks whether the caller may donate a block of this code with this routing.
fn check_donor(caller: Spid, facts: &BlockFacts<'_>) -> Result<(), Refusal>
    ensures { refusal_in result ≡ first_refusal (donor_tests caller.number facts.now) }
{
    let Some(holder) = facts.code_holder else {
        return Err(Refusal::UnknownCode);
    };
    if !facts.is_lrn_good {
        return Err(Refusal::BadLrn);
    }
    if caller.number != holder.number {
        return Err(Refusal::NotYours);
    }
    Ok(())
}

// Returns whether the number is among the used ones.
fn is_named(used: &BTreeSet<Tn>, tn: Tn) -> bool
    ensures { result ≡ is_named used.now tn }
{
    used.contains(&tn)
}

// Returns how many numbers in force are not among the used ones.
fn count_unnamed(used: &BTreeSet<Tn>, facts: &BlockFacts<'_>) -> usize
    ensures { result ≡ length (filter (is_unnamed used.now) facts.now.numbers.now) }
{
    facts
        .numbers
        .iter()
        .filter(|number| number.is_in_force && !is_named(used, number.tn))
        .count()
}

// Returns whether both together are more than `MOST_IN_USE`.
fn are_too_many(named: usize, others: usize) -> bool
    ensures { result ≡ nat_lt 100 (named + others) }
{
    named > MOST_IN_USE || others > MOST_IN_USE - named
}

// Returns whether too many numbers of the block are in use for a donation.
fn is_contaminated(used: &BTreeSet<Tn>, facts: &BlockFacts<'_>) -> bool
    ensures { result ≡ is_contaminated (numbers_in used.now) facts.now }
{
    are_too_many(used.len(), count_unnamed(used, facts))
}

// Returns whether too few ids are left for `versions` new versions.
fn is_past_the_last_id(next_id: u64, versions: usize) -> bool
    ensures { result ≡ nat_lt limit (next_id + versions) }
{
    next_id.saturating_add(versions as u64) > ID_LIMIT
}

// Returns the used numbers that have no version in force.
fn unprotected_numbers(
    alloc: Global,
    used: &BTreeSet<Tn>,
    facts: &BlockFacts<'_>,
) -> Result<Vec<Tn>, AllocError>
    ensures { IfOk result
        (λ made. made.items ≡ filter (is_unprotected facts.now) (keys used.now)) }
{
    used.iter()
        .filter(|tn| !facts.is_in_force(**tn))
        .copied()
        .collect(alloc)
}

// Checks whether a block with these used numbers may be donated, with `versions` new versions.
fn check_block(used: &BTreeSet<Tn>, versions: usize, facts: &BlockFacts<'_>) -> Result<(), Refusal>
    ensures { refusal_in result
        ≡ first_refusal (tests_by (numbers_in used.now) versions facts.now) }
{
    if is_contaminated(used, facts) {
        return Err(Refusal::Contaminated);
    }
    if facts.has_open_port() {
        return Err(Refusal::OpenPorts);
    }
    if facts.donor.is_some() {
        return Err(Refusal::BlockTaken);
    }
    if is_past_the_last_id(facts.next_id, versions) {
        return Err(Refusal::Full);
    }
    Ok(())
}

impl Donation<'_> {
    // Returns the used numbers.
    fn used_numbers(&self, alloc: Global) -> Result<BTreeSet<Tn>, AllocError>
        ensures { IfOk result (λ used. numbers_in used ≡ used_by self.now) }
    {
        let mut used = BTreeSet::new(alloc);
        for line in self.used {
            let _ = used.insert(self.block.tn(*line))?;
        }
        Ok(used)
    }

    // Returns the version that protects a used number for its donor, sending its first create.
    fn protective_version(
        &self,
        donor: Spid,
        tn: Tn,
        minute: Minute,
        present: &WindowSet,
    ) -> Version
        ensures { IsProtective (set_of present.now) donor.number minute.number self.now
            (Number tn.number) result }
    {
        Version {
            subject: Subject::Number(tn),
            old_provider: donor,
            new_provider: donor,
            due: minute,
            routing: Some(self.routing),
            old_at: None,
            new_at: None,
            status: Status::SendingCreate,
            since: minute,
            held: present.number,
            attempt: 1,
            is_conflict_spent: false,
            is_protective: true,
        }
    }

    // Returns the protective versions of these numbers, with ids from `first_id` on.
    fn versions(
        &self,
        alloc: Global,
        donor: Spid,
        numbers: &[Tn],
        first_id: u64,
        minute: Minute,
        present: &WindowSet,
    ) -> Result<Vec<(u64, Version)>, AllocError>
        requires ids { first_id + length numbers.now ≤ limit }
        ensures { IfOk result (λ versions.
            AreProtective (set_of present.now) donor.number minute.number self.now first_id
            (map tn_subject numbers.now) versions.items) }
    {
        let mut versions = Vec::with_capacity(alloc, numbers.len())?;
        let mut id = first_id;
        for tn in numbers {
            versions.push((id, self.protective_version(donor, *tn, minute, present)))?;
            id += 1;
        }
        Ok(versions)
    }

    /// Decides the donation by `caller`, a registered carrier: returns a protective version for
    /// each used number without a version in force, ascending by number, with ids from
    /// `facts.next_id` on.
    ///
    /// If `facts` are those of the block in a state, any refusal other than `NoMemory` is the
    /// state's.
    ///
    /// # Errors
    ///
    /// `NoMemory` if an allocation fails; otherwise the first that holds: `UnknownCode` if the
    /// block's code is not open; `BadLrn` if the routing number is not the caller's; `NotYours` if
    /// the caller does not hold the code; `Contaminated` if more than a hundred numbers are used or
    /// in force; `OpenPorts` if a number is being ported; `BlockTaken` if the block is already
    /// donated; `Full` if too few ids are left.
    pub fn plan(
        &self,
        alloc: Global,
        caller: Spid,
        facts: &BlockFacts<'_>,
        minute: Minute,
        present: &WindowSet,
    ) -> Result<Plan, Refusal>
        ensures accepted { OnOk result
            (donation_refusal caller.number self.now facts.now ≡ None) }
        ensures refused { IfErr result (λ refusal. refusal ≢ NoMemory
            → donation_refusal caller.number self.now facts.now ≡ Some (number_of refusal)) }
        ensures state { (st : State)
            → IsBlockCommandIn st caller.number self.now.block.number (command_of self.now)
            facts.now
            → NumbersMatch st self.now.block.number facts.now.numbers.now
            → IsRefusedAs
            (refusal st (RequestFrom caller.number (CommandRequest (command_of self.now)))) result }
        ensures planned { IfOk result (λ plan.
            IsPlanned (set_of present.now) caller.number minute.number self.now facts.now
            plan.versions.items) }
    {
        check_donor(caller, facts)?;
        let used = self.used_numbers(alloc)?;
        let made = unprotected_numbers(alloc, &used, facts)?;
        check_block(&used, made.len(), facts)?;
        Ok(Plan {
            versions: self.versions(alloc, caller, &made, facts.next_id, minute, present)?,
        })
    }
}
