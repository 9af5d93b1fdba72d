//! Runs of downloads: of one broadcast and one subject, with ascending carriers.
ghost use Rattle.std.specs.Prelude.{◌≡◌, ◌≤◌, length};
ghost use Rattle.std.specs.Ordering.{eq_by_cmp};
ghost use Rattle.numbers.specs.Abstraction.{subject_of};
ghost use Rattle.settle.specs.Abstraction.{wait_key_of};
ghost use Rattle.store.specs.Runs.{is_next, run_length};
ghost use Rattle.store.specs.WaitRows.{download_cmp, download_of};

use crate::keys::is_subject;
use numbers::Subject;
use settle::WaitKey;

// Returns whether both downloads are of one broadcast.
fn is_same_broadcast(first: WaitKey, second: WaitKey) -> bool
    ensures { result ≡ eq_by_cmp download_cmp (download_of (wait_key_of first))
        (download_of (wait_key_of second)) }
{
    first.minute.number == second.minute.number
        && first.id == second.id
        && first.attempt == second.attempt
}

// Returns whether the download `next` is of the broadcast of `first` and of its subject, and its
// carrier's number is `from` or more.
fn is_next(first: WaitKey, subject: Subject, from: u64, next: WaitKey, own: Subject) -> bool
    ensures { result ≡ is_next (download_of (wait_key_of first)) (subject_of subject) from
        (next, own) }
{
    from <= u64::from(next.carrier.number)
        && is_same_broadcast(first, next)
        && is_subject(Some(subject), own)
}

/// Returns how many of the downloads, from the first one on, are of the broadcast of `first` and of
/// its subject, with ascending carriers.
pub fn run_length(first: WaitKey, subject: Subject, downloads: &[(WaitKey, Subject)]) -> usize
    ensures inside { result ≤ length downloads.now }
    ensures length { result ≡ run_length (download_of (wait_key_of first)) (subject_of subject) 0
        downloads.now }
{
    let mut from = 0;
    let mut count = 0;
    for (key, own) in downloads {
        if !is_next(first, subject, from, *key, *own) {
            return count;
        }
        from = u64::from(key.carrier.number) + 1;
        count += 1;
    }
    count
}
