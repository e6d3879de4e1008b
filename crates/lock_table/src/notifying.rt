//! How a grant is marked as notified.
ghost use Rattle.std.specs.Prelude.{◌≡◌, ℕ, List, true};
ghost use Rattle.lock_queue.specs.Jobs.{as_notified, job_notified};
ghost use Rattle.key_queues.specs.States.{IsTable};
ghost use Rattle.key_queues.specs.Tables.{is_there};
ghost use Rattle.key_queues.specs.declared.lock.Lock.{Lock as LockView};
ghost use Rattle.key_queues.specs.Stores.{entry_at};
ghost use Rattle.lock_table.specs.TableStates.{state_of};
ghost use Rattle.lock_table.specs.Whole.{AreRight, IsWhole, requests_in};

use crate::readings::first_pending;
use key_queues::Store;

/// Marks the grant of the request in a slot as notified.
pub fn set_notified<const REQS: usize>(store: &mut Store<REQS>, p: u16)
    requires { is_there p store.old.order ≡ true }
    ensures whole { (size : ℕ) (locks : List LockView) → IsWhole size store.old locks → IsWhole size store.new locks }
    ensures order { store.new.order ≡ store.old.order }
    ensures request { (entry_at store.new p).request ≡ as_notified (entry_at store.old p).request }
    ensures others { (x : ℕ) → (x ≡ p → ⊥) → (entry_at store.new x).request ≡ (entry_at store.old x).request }
{
    store.set_notified(p);
}

/// Marks the pending request of a job as notified: its first interrupt request that is granted and not notified.
pub fn mark_notified<const REQS: usize>(store: &mut Store<REQS>, job: u8)
    requires { AreRight store.old }
    ensures whole { (size : ℕ) (locks : List LockView) → IsWhole size store.old locks → IsWhole size store.new locks }
    ensures requests { (locks : List LockView) → IsTable (state_of store.old locks)
        → requests_in store.new ≡ job_notified (requests_in store.old) job }
{
    if let Some(p) = first_pending(store, job) {
        set_notified(store, p);
    }
}
