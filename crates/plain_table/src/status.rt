//! The status of a key.
ghost use Rattle.std.specs.Prelude.{◌≡◌, ◌≤◌, length};
ghost use Rattle.word36.specs.declared.sizes.TheConstants.{MOST_REQUESTS};
ghost use Rattle.lock_queue.specs.Queue.{wants_at};
ghost use Rattle.lock_queue.specs.StatusWords.{first_level, status_of};

use lock_queue::steps::{is_granted, level_in, names_key, with_owner, with_waiter};
use lock_queue::{Key, Level, Request, Status};

/// The level of the first want of the key.
fn level_at(requests: &[Request], key: &Key) -> Option<Level>
    ensures { result ≡ first_level (wants_at requests.now key.now) }
{
    for r in requests {
        if let Some(level) = level_in(r.wants.as_slice(), key) {
            return Some(level);
        }
    }
    None
}

/// The status of a key, for the job that asks. The walk begins at the list's end, so that it meets the first
/// owner last.
#[tactic(auto, using(lock_queue::proofs::StatusLaws::status_with_owner, lock_queue::proofs::StatusLaws::status_with_waiter))]
pub fn status_at(requests: &[Request], key: &Key, job: u8) -> Status
    requires { length requests.now ≤ MOST_REQUESTS }
    ensures { result ≡ status_of requests.now key.now job }
{
    let mut status = Status {
        owns: false,
        waits: false,
        exclusive: false,
        level: level_at(requests, key).unwrap_or(Level::new(0)),
        first_owner: None,
        owner_count: 0,
        waiter_count: 0,
        amount: 0,
    };
    for i in (0..requests.len()).rev() {
        let r = &requests[i];
        if names_key(r.wants.as_slice(), key) {
            status = if is_granted(&requests[..i], r) {
                with_owner(status, r, key, job)
            } else {
                with_waiter(status, r, job)
            };
        }
    }
    status
}
