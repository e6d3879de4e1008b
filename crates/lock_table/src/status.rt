//! The status of a key.
ghost use Rattle.std.specs.Prelude.{◌≡◌};
ghost use Rattle.key_queues.specs.States.{IsTable};
ghost use Rattle.key_queues.specs.Tables.{slots_at};
ghost use Rattle.lock_queue.specs.StatusWords.{level_of, status_of};
ghost use Rattle.lock_table.specs.TableStates.{state_of};
ghost use Rattle.lock_table.specs.Reads.{MarksGrants, request_at};
ghost use Rattle.lock_table.specs.Whole.{requests_in};

use crate::queues::slots_of;
use key_queues::{Keys, Store};
use lock_queue::steps::{level_in, with_owner, with_waiter};
use lock_queue::{Key, Level, Status};

/// The level of the first want of a key; these are the slots whose requests want it.
fn level_at<const REQS: usize>(store: &Store<REQS>, slots: &[u16], key: &Key) -> Level
    requires { slots.now ≡ slots_at (request_at store.now) store.now.order key.now }
    ensures { result ≡ level_of (requests_in store.now) key.now }
{
    if slots.is_empty() {
        return Level::new(0);
    }
    let first = &store.get(slots[0]).request;
    level_in(first.wants.as_slice(), key).unwrap_or(Level::new(0))
}

/// The status of a key, for the job that asks. The walk begins at the queue's end, so that it meets the first owner
/// last.
pub fn status_of<const REQS: usize>(
    store: &Store<REQS>,
    keys: &Keys<REQS>,
    key: &Key,
    job: u8,
) -> Status
    requires table { IsTable (state_of store.now keys.now) }
    requires marks { MarksGrants store.now }
    ensures { result ≡ status_of (requests_in store.now) key.now job }
{
    let slots = slots_of(keys, key);
    let mut status = Status {
        owns: false,
        waits: false,
        exclusive: false,
        level: level_at(store, slots, key),
        first_owner: None,
        owner_count: 0,
        waiter_count: 0,
        amount: 0,
    };
    for i in (0..slots.len()).rev() {
        let f = store.get(slots[i]);
        status = if f.granted {
            with_owner(status, &f.request, key, job)
        } else {
            with_waiter(status, &f.request, job)
        };
    }
    status
}
