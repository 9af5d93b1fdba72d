//! Moves the clock before a message.
ghost use Rattle.std.specs.Prelude.{◌≤◌, option_map, IfErr, OnOk};
ghost use Rattle.numbers.specs.declared.minute.Minute.{Minute as MinuteImpl};
ghost use Rattle.model.specs.State.{State};
ghost use Rattle.register.specs.Refinement.{Refines};
ghost use Rattle.json_api.specs.Failures.{failure_text};
ghost use Rattle.settle.specs.StoreContract.{AddsOnlyCrashStates, IsAvailable, PreservesStore};
ghost use Rattle.api.specs.Crashes.{LeavesTick};
ghost use Rattle.api.specs.Step.{IsTickUnavailable, ticked};

use json_api::Failure;
use model::Refusal;
use numbers::Minute;
use register::Register;
use settle::Store;

/// Moves the clock to the minute `tick`, if one is supplied. Ignores a minute below the present
/// one.
pub fn move_clock<S: Store>(register: &mut Register<S>, tick: Option<Minute>) -> Result<(), Refusal>
    ensures preserves { PreservesStore S.StoreModel register.old.store
        register.new.store (IsAvailable result) ⊥ }
    ensures left { AddsOnlyCrashStates S.StoreModel register.old.store register.new.store
        (λ m. S.IsUsable register.old.store × LeavesTick (S.content register.old.store) m
        (option_map (λ (minute : MinuteImpl). minute.number) tick)) }
    ensures moved { OnOk result (S.IsUsable register.new.store → (st : State)
        → Refines (S.content register.old.store) st
        → Refines (S.content register.new.store)
        (ticked st (option_map (λ (m : MinuteImpl). m.number) tick))) }
    ensures unavailable { IfErr result (λ refusal. S.IsUsable register.new.store → (st : State)
        → Refines (S.content register.old.store) st
        → IsTickUnavailable (S.failed register.old.store) (S.failed register.new.store) st
        (option_map (λ (m : MinuteImpl). m.number) tick)
        (failure_text (Failure.Refused refusal)) st
        × Refines (S.content register.new.store) st) }
{
    let Some(minute) = tick else {
        return Ok(());
    };
    let Err(refusal) = register.clock(minute) else {
        return Ok(());
    };
    match refusal {
        Refusal::ClockBack => Ok(()),
        _ => Err(refusal),
    }
}
