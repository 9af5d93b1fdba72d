//! Asks the register what bulk files, exports and audits need.
ghost use Rattle.std.specs.Prelude.{◌≡◌, ◌⊎◌, ◌↔◌, true, false, IfOk, IfErr, Err, map};
ghost use Rattle.delivery.specs.Mirrors.{in_force_of};
ghost use Rattle.model.specs.declared.refusal.Refusal.TheVariants.{Storage, UnknownCarrier};
ghost use Rattle.model.specs.State.{State, all_in_force, is_carrier};
ghost use Rattle.register.specs.Refinement.{Refines};
ghost use Rattle.settle.specs.StoreContract.{PreservesStore, ReportsStorage};
ghost use Rattle.requests.specs.Calls.{command_of};
ghost use Rattle.numbers.specs.Abstraction.{subject_of};
ghost use Rattle.bulk.specs.Faults.{IsAvailableKind, IsUnavailableKind};
ghost use Rattle.bulk.specs.Findings.{awaited};
ghost use Rattle.bulk.specs.Report.{command_for, id_taken, in_force_id, open_id};

use crate::fault::FaultKind;
use crate::request::Operation;
use delivery::RoutedRow;
use model::Refusal;
use numbers::{Spid, Subject, Tn};
use register::Register;
use requests::{Command, Ids};
use settle::Store;
use version::{Create, VersionCommand};

/// The id that no version has.
const NO_ID: u64 = 0;

// Returns the fault of a call that the machine never refuses.
fn kind_of(refusal: Refusal) -> FaultKind
    ensures storage { (result ≡ FaultKind.Storage) ↔ (refusal ≡ Storage) }
    ensures unavailable { IsUnavailableKind result }
{
    match refusal {
        Refusal::Storage => FaultKind::Storage,
        _ => FaultKind::NoMemory,
    }
}

/// Returns everything in force, ordered by subject.
pub fn rows_in_force<S: Store>(register: &mut Register<S>) -> Result<Vec<RoutedRow>, FaultKind>
    ensures rows { IfOk result (λ rows. S.IsUsable register.new.store → (st : State)
        → Refines (S.content register.old.store) st
        → map in_force_of rows.items ≡ all_in_force st) }
    ensures kept { S.IsUsable register.new.store → (st : State)
        → Refines (S.content register.old.store) st → Refines (S.content register.new.store) st }
    ensures unavailable { IfErr result IsUnavailableKind }
    ensures preserves { PreservesStore S.StoreModel register.old.store register.new.store
        (IfErr result IsAvailableKind) (ReportsStorage (S.IsUsable register.new.store) (S.content register.old.store)
        (result ≡ Err FaultKind.Storage)) }
{
    match register.in_force() {
        Ok(rows) => Ok(rows),
        Err(refusal) => Err(kind_of(refusal)),
    }
}

// Returns the fault of a call that the machine refuses only for an unknown carrier.
fn kind_for(refusal: Refusal) -> FaultKind
    ensures storage { (result ≡ FaultKind.Storage) ↔ (refusal ≡ Storage) }
    ensures unknown { result ≡ FaultKind.UnknownCarrier → refusal ≡ UnknownCarrier }
    ensures kinds { IsUnavailableKind result ⊎ (result ≡ FaultKind.UnknownCarrier) }
{
    match refusal {
        Refusal::UnknownCarrier => FaultKind::UnknownCarrier,
        _ => kind_of(refusal),
    }
}

/// Returns the subjects with downloads pending for `carrier`, ascending, without duplicates.
///
/// # Errors
///
/// `UnknownCarrier` if the carrier is not registered; `Storage` and `NoMemory`.
pub fn subjects_waiting<S: Store>(
    register: &mut Register<S>,
    carrier: Spid,
) -> Result<Vec<Subject>, FaultKind>
    ensures subjects { IfOk result (λ subjects. S.IsUsable register.new.store → (st : State)
        → Refines (S.content register.old.store) st
        → (map subject_of subjects.items ≡ awaited st carrier.number)
        × (is_carrier st carrier.number ≡ true)) }
    ensures unknown { result ≡ Err FaultKind.UnknownCarrier → S.IsUsable register.new.store
        → (st : State) → Refines (S.content register.old.store) st
        → is_carrier st carrier.number ≡ false }
    ensures kept { S.IsUsable register.new.store → (st : State)
        → Refines (S.content register.old.store) st → Refines (S.content register.new.store) st }
    ensures kinds { IfErr result (λ kind. IsUnavailableKind kind ⊎ (kind
        ≡ FaultKind.UnknownCarrier)) }
    ensures preserves { PreservesStore S.StoreModel register.old.store register.new.store
        (IfErr result IsAvailableKind) (ReportsStorage (S.IsUsable register.new.store) (S.content register.old.store)
        (result ≡ Err FaultKind.Storage)) }
{
    match register.waiting(carrier) {
        Ok(subjects) => Ok(subjects),
        Err(refusal) => Err(kind_for(refusal)),
    }
}

// Returns the ids of a number's versions.
fn ids_of<S: Store>(register: &mut Register<S>, tn: Tn) -> Result<Ids, FaultKind>
    ensures ids { IfOk result (λ ids. S.IsUsable register.new.store → (st : State)
        → Refines (S.content register.old.store) st
        → (ids.in_force ≡ in_force_id st tn.number) × (ids.opened ≡ open_id st tn.number)) }
    ensures kept { S.IsUsable register.new.store → (st : State)
        → Refines (S.content register.old.store) st → Refines (S.content register.new.store) st }
    ensures unavailable { IfErr result IsUnavailableKind }
    ensures preserves { PreservesStore S.StoreModel register.old.store register.new.store
        (IfErr result IsAvailableKind) (ReportsStorage (S.IsUsable register.new.store) (S.content register.old.store)
        (result ≡ Err FaultKind.Storage)) }
{
    match register.ids(tn) {
        Ok(ids) => Ok(ids),
        Err(refusal) => Err(kind_of(refusal)),
    }
}

// Returns the id of the version that a command applies to.
fn id_taken(command: VersionCommand, ids: &Ids) -> u64
    ensures { result ≡ id_taken command ids.now.in_force ids.now.opened }
{
    let taken = match command {
        VersionCommand::Disconnect { .. } | VersionCommand::ModifyRouting { .. } => ids.in_force,
        _ => ids.opened.or(ids.in_force),
    };
    taken.unwrap_or(NO_ID)
}

/// Returns the command for an operation on a number. A command on a version applies to the open
/// version, or else to the one in force; a disconnect and a modify apply to the one in force.
pub fn command_for<S: Store>(
    register: &mut Register<S>,
    tn: Tn,
    operation: &Operation,
) -> Result<Command, FaultKind>
    ensures command { IfOk result (λ command. S.IsUsable register.new.store → (st : State)
        → Refines (S.content register.old.store) st
        → command_of command ≡ command_for st tn.number operation.now) }
    ensures kept { S.IsUsable register.new.store → (st : State)
        → Refines (S.content register.old.store) st → Refines (S.content register.new.store) st }
    ensures unavailable { IfErr result IsUnavailableKind }
    ensures preserves { PreservesStore S.StoreModel register.old.store register.new.store
        (IfErr result IsAvailableKind) (ReportsStorage (S.IsUsable register.new.store) (S.content register.old.store)
        (result ≡ Err FaultKind.Storage)) }
{
    match operation {
        Operation::Create {
            old_provider,
            new_provider,
            due,
            creator,
        } => Ok(Command::Create(Create {
            tn,
            old_provider: *old_provider,
            new_provider: *new_provider,
            due: *due,
            creator: *creator,
        })),
        Operation::OnVersion(command) => {
            let ids = ids_of(register, tn)?;
            Ok(Command::OnVersion {
                id: id_taken(*command, &ids),
                command: *command,
            })
        }
    }
}
