//! Downloads pending for a carrier.
ghost use Rattle.std.specs.Prelude.{◌≡◌, ℕ, List, IfOk, Some, find};
ghost use Rattle.delivery.specs.Refused.{refusal_in};
ghost use Rattle.delivery.specs.Queues.{AreKeysOf, has_earlier, is_behind, is_earlier, is_key, key_refusal, queue_refusal};
ghost use Rattle.numbers.specs.Subjects.{Subject as SubjectModel};
ghost use Rattle.model.specs.State.{Download as DownloadModel};

use model::{Action, Refusal};
use numbers::{Minute, Routing, Subject};

/// A broadcast as a carrier receives it: a create or a modify with the new routing, or a delete.
#[derive(Clone, Copy, Debug, PartialEq, Eq)]
pub struct Download {
    /// The version's id.
    pub id: u64,
    pub attempt: u64,
    /// The minute of sending.
    pub minute: Minute,
    pub subject: Subject,
    pub action: Action,
    pub routing: Option<Routing>,
}

/// The key of a download: its broadcast's minute, its version's id and its attempt. Keys order a
/// carrier's queue.
#[derive(Clone, Copy, Debug, PartialEq, Eq, PartialOrd, Ord)]
pub struct DownloadKey {
    pub minute: Minute,
    pub id: u64,
    pub attempt: u64,
}

fn is_key(key: &DownloadKey, id: u64, attempt: u64) -> bool
    ensures { result ≡ is_key id attempt key.now }
{
    key.id == id && key.attempt == attempt
}

fn is_earlier(first: &DownloadKey, second: &DownloadKey) -> bool
    ensures { result ≡ is_earlier first.now second.now }
{
    first.minute.number < second.minute.number
        || (first.minute.number == second.minute.number
            && (first.id < second.id || (first.id == second.id && first.attempt < second.attempt)))
}

fn has_earlier(pending: &[DownloadKey], key: &DownloadKey) -> bool
    ensures { result ≡ has_earlier pending.now key.now }
{
    pending.iter().any(|earlier| is_earlier(earlier, key))
}

fn is_behind(pending: &[DownloadKey], id: u64, attempt: u64) -> bool
    ensures { result ≡ is_behind pending.now id attempt }
{
    pending.iter().any(|key| is_key(key, id, attempt) && has_earlier(pending, key))
}

fn find_key(pending: &[DownloadKey], id: u64, attempt: u64) -> Option<DownloadKey>
    ensures { result ≡ find (is_key id attempt) pending.now }
{
    pending.iter().copied().find(|key| is_key(key, id, attempt))
}

#[tactic(auto, using(crate::proofs::Queues::any_found))]
fn acknowledged_key(pending: &[DownloadKey], id: u64, attempt: u64) -> Result<DownloadKey, Refusal>
    ensures refusal { refusal_in result ≡ key_refusal pending.now id attempt }
    ensures found { IfOk result (λ key. find (is_key id attempt) pending.now ≡ Some key) }
{
    let Some(found) = find_key(pending, id, attempt) else {
        return Err(Refusal::NotQueued);
    };
    if is_behind(pending, id, attempt) {
        return Err(Refusal::OutOfOrder);
    }
    Ok(found)
}

/// Decides whether a carrier may acknowledge an attempt of a version, and returns the download's
/// key.
///
/// `pending` are the downloads of the version's subject that are pending for the carrier.
///
/// # Errors
///
/// `NotQueued` if no such download is pending; then `OutOfOrder` if an earlier one of the subject
/// is.
pub fn may_acknowledge(
    pending: &[DownloadKey],
    id: u64,
    attempt: u64,
) -> Result<DownloadKey, Refusal>
    ensures refusal { (subject : SubjectModel) (downloads : List DownloadModel)
        → AreKeysOf subject pending.now downloads
        → refusal_in result ≡ queue_refusal downloads id attempt }
    ensures of_keys { refusal_in result ≡ key_refusal pending.now id attempt }
    ensures found { IfOk result (λ key. find (is_key id attempt) pending.now ≡ Some key) }
{
    acknowledged_key(pending, id, attempt)
}
