//! Executes the commands of a bulk file.
ghost use Rattle.std.specs.Prelude.{◌≡◌, ◌↔◌, true, false, nat_lt, IfOk, IfErr, OnOk, OnErr, Err, string_bytes};
ghost use Rattle.model.specs.Machine.{Refused, out, next};
ghost use Rattle.model.specs.History.{CommandRequest};
ghost use Rattle.model.specs.State.{State};
ghost use Rattle.model.specs.Refusals.{RequestFrom};
ghost use Rattle.model.specs.RefusalNumbers.{number_of};
ghost use Rattle.model.specs.declared.refusal.Refusal.TheVariants.{Storage as StorageRefusal};
ghost use Rattle.bulk.specs.declared.fault.FaultKind.TheVariants.{Storage};
ghost use Rattle.requests.specs.Calls.{command_of, reply_of};
ghost use Rattle.register.specs.Refinement.{Refines};
ghost use Rattle.settle.specs.StoreContract.{PreservesStore, ReportsStorage};
ghost use Rattle.bulk.specs.Faults.{IsAvailableKind, IsUnavailableKind};
ghost use Rattle.bulk.specs.Making.{IsCommandReply, IsResultOf, is_of_number};
ghost use Rattle.bulk.specs.Noting.{NotesLine};
ghost use Rattle.bulk.specs.Report.{CommandTask, input_for, line_of, next_state};

use crate::asking::command_for;
use crate::command_result::CommandResult;
use crate::fault::FaultKind;
use crate::line::LineBuffer;
use crate::request::Operation;
use model::Refusal;
use numbers::{Spid, Tn};
use register::Register;
use requests::{Command, Reply};
use settle::Store;

// Returns the result of a reply. The reply to a create or to a command on a version is a version.
fn outcome_of_reply(reply: Reply) -> Result<CommandResult, FaultKind>
    ensures outcome { IfOk result (λ outcome. IsResultOf outcome (reply_of reply)) }
    ensures other { OnErr result (¬ (IsCommandReply (reply_of reply))) }
    ensures kind { IfErr result (λ kind. kind ≡ FaultKind.NoMemory) }
{
    match reply {
        Reply::Shown(view) => Ok(CommandResult::Version(view.id)),
        _ => Err(FaultKind::NoMemory),
    }
}

// Returns the result of a refusal, if it is one of the machine's.
fn outcome_of_refusal(refusal: Refusal) -> Result<CommandResult, FaultKind>
    ensures outcome { IfOk result (λ outcome. (nat_lt (number_of refusal) 29 ≡ true)
        × IsResultOf outcome (Refused (number_of refusal))) }
    ensures other { OnErr result (nat_lt (number_of refusal) 29 ≡ false) }
    ensures kind { IfErr result IsUnavailableKind }
    ensures storage { (result ≡ Err Storage) ↔ (refusal ≡ StorageRefusal) }
{
    match refusal {
        Refusal::Storage => Err(FaultKind::Storage),
        Refusal::NoMemory => Err(FaultKind::NoMemory),
        _ => Ok(CommandResult::Refused(refusal)),
    }
}

// Executes a create or a command on a version.
fn execute_command<S: Store>(
    register: &mut Register<S>,
    caller: Spid,
    command: &Command,
) -> Result<CommandResult, FaultKind>
    ensures outcome { IfOk result (λ outcome. S.IsUsable register.new.store → (st : State)
        → Refines (S.content register.old.store) st
        → IsResultOf outcome
        (out st (RequestFrom caller.number (CommandRequest (command_of command.now))))
        × Refines (S.content register.new.store)
        (next st (RequestFrom caller.number (CommandRequest (command_of command.now))))) }
    ensures kept { OnErr result (S.IsUsable register.new.store → (st : State)
        → Refines (S.content register.old.store) st
        → is_of_number (command_of command.now) ≡ true
        → Refines (S.content register.new.store) st) }
    ensures unavailable { IfErr result IsUnavailableKind }
    ensures preserves { PreservesStore S.StoreModel register.old.store register.new.store
        (IfErr result IsAvailableKind) (ReportsStorage (S.IsUsable register.new.store) (S.content register.old.store)
        (result ≡ Err FaultKind.Storage)) }
{
    match register.do_it(caller, command) {
        Ok(reply) => outcome_of_reply(reply),
        Err(refusal) => outcome_of_refusal(refusal),
    }
}

// Executes an operation on a number.
fn execute_operation<S: Store>(
    register: &mut Register<S>,
    caller: Spid,
    tn: Tn,
    operation: &Operation,
) -> Result<CommandResult, FaultKind>
    ensures outcome { IfOk result (λ outcome. S.IsUsable register.new.store → (st : State)
        → Refines (S.content register.old.store) st
        → IsResultOf outcome (out st (input_for st caller.number tn.number operation.now))
        × Refines (S.content register.new.store)
        (next st (input_for st caller.number tn.number operation.now))) }
    ensures kept { OnErr result (S.IsUsable register.new.store → (st : State)
        → Refines (S.content register.old.store) st → Refines (S.content register.new.store) st) }
    ensures unavailable { IfErr result IsUnavailableKind }
    ensures preserves { PreservesStore S.StoreModel register.old.store register.new.store
        (IfErr result IsAvailableKind) (ReportsStorage (S.IsUsable register.new.store) (S.content register.old.store)
        (result ≡ Err FaultKind.Storage)) }
{
    let command = command_for(register, tn, operation)?;
    execute_command(register, caller, &command)
}

/// Executes an operation on a number, and writes the report's line for it. On an error, the state
/// is unchanged.
pub fn execute<S: Store>(
    register: &mut Register<S>,
    line: &mut LineBuffer,
    row: u64,
    caller: Spid,
    tn: Tn,
    operation: &Operation,
) -> Result<(), FaultKind>
    ensures executed { OnOk result (S.IsUsable register.new.store → (st : State)
        → Refines (S.content register.old.store) st
        → (string_bytes line.new.text ≡ line_of st (CommandTask row caller.number tn.number
        operation.now))
        × Refines (S.content register.new.store)
        (next_state st (CommandTask row caller.number tn.number operation.now))) }
    ensures noted { OnOk result (NotesLine (string_bytes line.new.text) line.old.has_refusal
        line.new.has_refusal) }
    ensures kept { OnErr result (S.IsUsable register.new.store → (st : State)
        → Refines (S.content register.old.store) st → Refines (S.content register.new.store) st) }
    ensures unavailable { IfErr result IsUnavailableKind }
    ensures preserves { PreservesStore S.StoreModel register.old.store register.new.store
        (IfErr result IsAvailableKind) (ReportsStorage (S.IsUsable register.new.store) (S.content register.old.store)
        (result ≡ Err FaultKind.Storage)) }
{
    let outcome = execute_operation(register, caller, tn, operation)?;
    line.set_outcome(row, tn, outcome);
    Ok(())
}
