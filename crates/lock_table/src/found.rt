//! The look-ups of a call's keys.
ghost use Rattle.std.specs.Prelude.{◌≡◌, ◌≤◌, ◌<◌, ℕ, length, slice_index_or};
ghost use Rattle.lock_queue.specs.Queue.{names};
ghost use Rattle.lock_queue.specs.Unused.{unused_want};
ghost use Rattle.key_queues.specs.Hashes.{hash_of};
ghost use Rattle.lock_table.specs.Arrivals.{no_found};

use arrayvec::ArrayVec;
use key_queues::Found;
use lock_queue::{Key, Want};
use word36::LOCKS_A_CALL;

/// The look-ups of a call's keys, in the order of its wants.
pub type FoundKeys = ArrayVec<Found, LOCKS_A_CALL>;

/// Whether one of some wants is of a key. `found` has the look-ups of the wants, `hash` is that of the key: keys are
/// compared only where their hashes are the same.
#[tactic(auto, using(crate::proofs::Numbers::other_hash))]
pub fn is_named(wants: &[Want], found: &[Found], key: &Key, hash: u16) -> bool
    requires long { length wants.now ≤ length found.now }
    requires hashes { (j : ℕ) → j < length wants.now
        → (slice_index_or found.now j no_found).hash ≡ hash_of (slice_index_or wants.now j unused_want).key }
    requires hash { hash ≡ hash_of key.now }
    ensures { result ≡ names wants.now key.now }
{
    for (i, w) in wants.iter().enumerate() {
        if found[i].hash == hash && w.key.is_same(key) {
            return true;
        }
    }
    false
}
