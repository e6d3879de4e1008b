//! Locks in use, the slots whose requests want their keys, and the wants of those.
ghost use Rattle.std.specs.Prelude.{◌≡◌, ◌<◌, ◌≤◌, ◌==◌, length, slice_index, true};
ghost use Rattle.std.specs.List.{position_or_len};
ghost use Rattle.word36.specs.declared.sizes.TheConstants.{JOBS};
ghost use Rattle.key_queues.specs.Locks.{lock_at};
ghost use Rattle.key_queues.specs.States.{IsTable, in_use};
ghost use Rattle.key_queues.specs.Tables.{slots_at};
ghost use Rattle.key_queues.specs.Stores.{Stored, entry_at};
ghost use Rattle.key_queues.specs.Tables.{is_there};
ghost use Rattle.lock_table.specs.TableStates.{state_of, queued_want};
ghost use Rattle.lock_table.specs.Reads.{request_at};

use key_queues::{Keys, Lock, Store, want_in};
use lock_queue::{Key, Want};

/// A lock in use, by its number.
pub fn lock_of<const REQS: usize>(keys: &Keys<REQS>, n: u16) -> &Lock
    requires { in_use (lock_at keys.now n).queue ≡ true }
    ensures { result.now ≡ lock_at keys.now n }
{
    &keys.locks()[n as usize]
}

/// The slots of the requests with a want of a key, in order of arrival.
pub fn slots_of<'a, const REQS: usize>(keys: &'a Keys<REQS>, key: &Key) -> &'a [u16]
    ensures few { length result.now ≤ JOBS }
    ensures slots { (s : Stored) → IsTable (state_of s keys.now)
        → result.now ≡ slots_at (request_at s) s.order key.now }
{
    match keys.find(key) {
        Some(n) => lock_of(keys, n).queue.as_slice(),
        None => &[],
    }
}

/// The want of a slot in a queue.
pub fn queued_want<const REQS: usize>(store: &Store<REQS>, p: u16, n: u16) -> &Want
    requires present { is_there p store.now.order ≡ true }
    requires within { position_or_len (λ m. m == n) (entry_at store.now p).queues.items < length (request_at store.now p).wants.items }
    ensures { result.now ≡ queued_want store.now p n }
{
    let f = store.get(p);
    want_in(f.queues.as_slice(), f.request.wants.as_slice(), n)
}

/// The first want of the queue of a lock in use.
pub fn first_want<'a, const REQS: usize>(
    store: &'a Store<REQS>,
    keys: &Keys<REQS>,
    n: u16,
) -> &'a Want
    requires table { IsTable (state_of store.now keys.now) }
    requires in_use { in_use (lock_at keys.now n).queue ≡ true }
    ensures { result.now ≡ queued_want store.now (slice_index (lock_at keys.now n).queue.slots 0) n }
{
    queued_want(store, lock_of(keys, n).queue.slot(0), n)
}
