//! Stages the rows of a version after a command.
ghost use Rattle.std.specs.Prelude.{◌≡◌, Err, None, OnOk};
ghost use Rattle.std.specs.FinMap.{keys};
ghost use Rattle.numbers.specs.Abstraction.{subject_of};
ghost use Rattle.version.specs.Commands.{sends_model};
ghost use Rattle.version.specs.Abstraction.{windows_of, model_with_windows};
ghost use Rattle.settle.specs.Changes.{changes_of as changes_model, no_changes};
ghost use Rattle.settle.specs.StoreContract.{IsAnswer, IsReadOnly};
ghost use Rattle.settle.specs.Sending.{version_changes};
ghost use Rattle.settle.specs.Transition.{transition_changes};

use crate::changes::Changes;
use crate::few::Few;
use crate::rows::{ClockRow, VersionRow};
use crate::sending::begin_sending;
use crate::store::{Store, StoreFault};
use version::{Transition, Version};
use windows::Windows;

// Stages the version's row only.
fn put_alone(changes: &mut Changes, id: u64, version: &Version, windows: &Windows)
    requires { changes_model changes.old ≡ no_changes }
    ensures { changes_model changes.new
        ≡ version_changes id (subject_of version.now.subject)
        (model_with_windows (windows_of windows.now) version.now) None }
{
    changes.versions = Few::One([(id, VersionRow::of(version, windows))]);
}

/// Stages the rows of a transition: the version's own row and, if it sends, its broadcast and one
/// pending download for each carrier.
///
/// # Errors
///
/// `Storage` if the device fails, `NoMemory` if an allocation fails.
pub fn stage_transition<S: Store>(
    store: &mut S,
    changes: &mut Changes,
    id: u64,
    step: &Transition,
    clock: &ClockRow,
) -> Result<(), StoreFault>
    requires { changes_model changes.old ≡ no_changes }
    ensures value { S.IsUsable store.new
        → OnOk result (changes_model changes.new
        ≡ transition_changes id clock.now.minute.number
        (sends_model step.now.sends) (subject_of step.now.version.subject)
        (model_with_windows (windows_of clock.now.present.windows) step.now.version)
        (keys (S.content store.old).carriers)) }
    ensures read_only { IsReadOnly S.StoreModel
        store.old store.new (IsAnswer result) (result ≡ Err StoreFault.Storage) }
{
    let version = &step.version;
    let windows = &clock.present.windows;
    let Some(send) = step.sends else {
        put_alone(changes, id, version, windows);
        return Ok(());
    };
    let all_carriers = store.carriers()?;
    begin_sending(
        changes,
        id,
        version,
        send,
        clock.minute,
        windows,
        &all_carriers,
    )?;
    Ok(())
}
