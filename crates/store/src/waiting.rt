//! The subject of one broadcast, and the carriers for which it is pending.
ghost use Rattle.std.specs.Prelude.{◌≡◌, ◌==◌, ◌++◌, ◌∷◌, [], Some, IfOk, IfSome, OnOk, OnErr, not, filter, option_map};
ghost use Rattle.std.specs.List.{list_any};
ghost use Rattle.std.specs.Option.{option_to_list};
ghost use Rattle.numbers.specs.Abstraction.{subject_of};
ghost use Rattle.numbers.specs.declared.spid.Spid.{Spid};
ghost use Rattle.store.specs.PackedRows.{subject_in};
ghost use Rattle.store.specs.WaitRows.{subject_of_row, spids_of, waiting_of, awaited, is_another, is_shared, IsFirst, IsAdded, IsWithout};
ghost use Rattle.store.specs.Runs.{carriers_in};

use crate::carriers::Carriers;
use crate::packed::{packed_subject, subject_in};
use numbers::{BlockId, Spid, Subject};
use settle::WaitKey;
use std::alloc::{AllocError, Global};

// The number of carriers that a row gets room for with its third one, so that most rows grow once.
const MANY: usize = 16;

/// A broadcast's subject, and the carriers that still have to acknowledge it in the order in which
/// they were added, in 16 bytes.
///
/// Up to two carriers need no memory beside the row. More are boxed, since a broadcast is seldom
/// pending for more of them for long. The subject is packed into a line and the number of its
/// block. Fields lie in their order, so the line is beside the variant's tag.
#[derive(Drop)]
pub enum Waiting {
    Nobody(u16, BlockId),
    One(u16, BlockId, [Spid; 1]),
    Two(u16, BlockId, [Spid; 2]),
    Many(u16, BlockId, Box<Vec<Spid>>),
}

/// Returns whether the carrier is among `carriers`.
pub fn is_among(carrier: Spid, carriers: &[Spid]) -> bool
    ensures { result ≡ list_any (λ (k : Spid). carrier.number == k.number) carriers.now }
{
    carriers.iter().any(|each| carrier.number == each.number)
}

/// Returns whether a registered carrier other than `own` is among `carriers`.
pub fn is_another_registered(registered: &Carriers, own: Spid, carriers: &[Spid]) -> bool
    ensures { result ≡ list_any (is_another registered.now own) carriers.now }
{
    carriers
        .iter()
        .any(|each| *each != own && registered.contains(*each))
}

// Returns the carrier unless it is `removed`.
fn other(removed: Spid, carrier: Spid) -> Option<Spid>
    ensures { option_to_list result
        ≡ filter (λ (k : Spid). not (removed.number == k.number)) (carrier ∷ []) }
{
    if removed.number == carrier.number {
        None
    } else {
        Some(carrier)
    }
}

// Returns the carriers, if there are at most two.
fn at_most_two(carriers: &[Spid]) -> Option<(Option<Spid>, Option<Spid>)>
    ensures { IfSome result (λ few. option_to_list few.0 ++ option_to_list few.1 ≡ carriers.now) }
{
    match carriers {
        [] => Some((None, None)),
        [only] => Some((Some(*only), None)),
        [first, second] => Some((Some(*first), Some(*second))),
        _ => None,
    }
}

// Creates the row of a packed subject with those of `first` and `second` that are `Some`, in this
// order.
fn with_few(line: u16, block: BlockId, first: Option<Spid>, second: Option<Spid>) -> Waiting
    ensures subject { subject_of_row result ≡ subject_in block.number line }
    ensures carriers { spids_of result ≡ option_to_list first ++ option_to_list second }
{
    match first {
        None => match second {
            None => Waiting::Nobody(line, block),
            Some(carrier) => Waiting::One(line, block, [carrier]),
        },
        Some(first) => match second {
            None => Waiting::One(line, block, [first]),
            Some(second) => Waiting::Two(line, block, [first, second]),
        },
    }
}

// Removes a carrier. If at most two stay, frees the memory beside the row.
fn remove_carrier(carrier: Spid, row: &mut Waiting)
    ensures subject { subject_of_row row.new ≡ subject_of_row row.old }
    ensures carriers { spids_of row.new
        ≡ filter (λ (k : Spid). not (carrier.number == k.number)) (spids_of row.old) }
{
    let (line, block) = row.place();
    match row {
        Waiting::Nobody(_, _) => {}
        Waiting::One(_, _, own) => {
            *row = with_few(line, block, other(carrier, own[0]), None);
        }
        Waiting::Two(_, _, own) => {
            *row = with_few(line, block, other(carrier, own[0]), other(carrier, own[1]));
        }
        Waiting::Many(_, _, all) => {
            all.retain(|each| carrier.number != each.number);
            if let Some((first, second)) = at_most_two(all.as_slice()) {
                *row = with_few(line, block, first, second);
            }
        }
    }
}

// Adds a carrier. Changes nothing if an allocation fails.
fn push_carrier(alloc: Global, carrier: Spid, row: &mut Waiting) -> Result<(), AllocError>
    ensures subject { subject_of_row row.new ≡ subject_of_row row.old }
    ensures ok { OnOk result (spids_of row.new ≡ spids_of row.old ++ carrier ∷ []) }
    ensures err { OnErr result (spids_of row.new ≡ spids_of row.old) }
{
    let (line, block) = row.place();
    match row {
        Waiting::Nobody(_, _) => *row = Waiting::One(line, block, [carrier]),
        Waiting::One(_, _, own) => *row = Waiting::Two(line, block, [own[0], carrier]),
        Waiting::Two(_, _, own) => {
            let mut many = Vec::with_capacity(alloc, MANY)?;
            many.push(own[0])?;
            many.push(own[1])?;
            many.push(carrier)?;
            *row = Waiting::Many(line, block, Box::new(alloc, many)?);
        }
        Waiting::Many(_, _, all) => all.push(carrier)?,
    }
    Ok(())
}

// Returns the carriers of the downloads, in order.
fn carriers_in(alloc: Global, downloads: &[(WaitKey, Subject)]) -> Result<Vec<Spid>, AllocError>
    ensures { IfOk result (λ carriers. carriers.items ≡ carriers_in downloads.now) }
{
    let mut carriers = Vec::with_capacity(alloc, downloads.len())?;
    for (key, _) in downloads {
        carriers.push(key.carrier)?;
    }
    Ok(carriers)
}

impl Waiting {
    /// Creates the row of a broadcast that is pending for the carriers of all `downloads`.
    pub fn of_all(
        alloc: Global,
        subject: Subject,
        downloads: &[(WaitKey, Subject)],
    ) -> Result<Waiting, AllocError>
        ensures subject { IfOk result (λ row. subject_of_row row ≡ subject_of subject) }
        ensures carriers { IfOk result (λ row. spids_of row ≡ carriers_in downloads.now) }
    {
        let (block, line) = packed_subject(subject);
        match downloads {
            [] => Ok(Waiting::Nobody(line, block)),
            [(only, _)] => Ok(Waiting::One(line, block, [only.carrier])),
            [(first, _), (second, _)] => {
                Ok(Waiting::Two(line, block, [first.carrier, second.carrier]))
            }
            _ => {
                let all = carriers_in(alloc, downloads)?;
                Ok(Waiting::Many(line, block, Box::new(alloc, all)?))
            }
        }
    }

    /// Creates the row of a broadcast that is pending for one carrier.
    pub fn of(carrier: Spid, subject: Subject) -> Waiting
        ensures { IsFirst carrier.number (subject_of subject) (waiting_of result) }
    {
        let (block, line) = packed_subject(subject);
        Waiting::One(line, block, [carrier])
    }

    // Returns the packed subject.
    fn place(&self) -> (u16, BlockId)
        ensures { subject_in result.1.number result.0 ≡ subject_of_row self.now }
    {
        match self {
            Waiting::Nobody(line, block)
            | Waiting::One(line, block, _)
            | Waiting::Two(line, block, _)
            | Waiting::Many(line, block, _) => (*line, *block),
        }
    }

    /// Returns the carriers in order.
    pub fn carriers(&self) -> &[Spid]
        ensures { result.now ≡ spids_of self.now }
    {
        match self {
            Waiting::Nobody(_, _) => &[],
            Waiting::One(_, _, own) => own.as_slice(),
            Waiting::Two(_, _, own) => own.as_slice(),
            Waiting::Many(_, _, all) => all.as_slice(),
        }
    }

    /// Returns the broadcast's subject.
    pub fn subject(&self) -> Subject
        ensures { subject_of result ≡ subject_of_row self.now }
    {
        let (line, block) = self.place();
        subject_in(block, line)
    }

    /// Returns the subject if the broadcast is pending for the carrier.
    pub fn subject_for(&self, carrier: Spid) -> Option<Subject>
        ensures { option_map subject_of result
            ≡ awaited (Some (waiting_of self.now)) carrier.number }
    {
        if is_among(carrier, self.carriers()) {
            Some(self.subject())
        } else {
            None
        }
    }

    /// Returns whether the broadcast is pending for the carrier and for another registered one.
    pub fn is_shared(&self, registered: &Carriers, carrier: Spid) -> bool
        ensures { result ≡ is_shared registered.now carrier (spids_of self.now) }
    {
        let carriers = self.carriers();
        is_among(carrier, carriers) && is_another_registered(registered, carrier, carriers)
    }

    /// Adds a carrier, and returns the subject if the carrier was there already. A broadcast has
    /// one subject, so another one is refused like a failed allocation.
    pub fn add(
        &mut self,
        alloc: Global,
        carrier: Spid,
        subject: Subject,
    ) -> Result<Option<Subject>, AllocError>
        ensures before { IfOk result (λ before. option_map subject_of before
            ≡ awaited (Some (waiting_of self.old)) carrier.number) }
        ensures added { IfOk result
            (λ before. IsAdded carrier.number (subject_of subject) (waiting_of self.old)
            (waiting_of self.new)) }
        ensures refused { OnErr result (waiting_of self.new ≡ waiting_of self.old) }
    {
        if self.subject() != subject {
            return Err(AllocError);
        }
        let before = self.subject_for(carrier);
        if before.is_none() {
            push_carrier(alloc, carrier, self)?;
        }
        Ok(before)
    }

    /// Removes a carrier.
    pub fn take(&mut self, carrier: Spid)
        ensures { IsWithout carrier.number (waiting_of self.old) (waiting_of self.new) }
    {
        remove_carrier(carrier, self);
    }
}
