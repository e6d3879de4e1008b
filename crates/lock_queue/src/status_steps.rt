//! What one owner or one waiter adds to the status of a key.
ghost use Rattle.std.specs.Prelude.{◌≡◌, ◌+◌, ◌^◌, ◌<◌, ◌≤◌, length, filter, sum_by};
ghost use Rattle.std.specs.List.{list_any};
ghost use Rattle.word36.specs.declared.sizes.TheConstants.{LOCKS_A_CALL};
ghost use Rattle.lock_queue.specs.Keys.{same_key};
ghost use Rattle.lock_queue.specs.Queue.{amount_of};
ghost use Rattle.lock_queue.specs.StatusSteps.{most_taken, with_owner, with_waiter};
ghost use Rattle.lock_queue.specs.StatusWords.{is_exclusive};

use crate::among_wants::is_pooled;
use crate::{Key, Request, Status, Want};

/// How much these wants of the key take of their pools. Keys are compared last.
fn amount_at(wants: &[Want], key: &Key) -> u32
    requires { length wants.now ≤ LOCKS_A_CALL }
    ensures value { result ≡ sum_by amount_of (filter (λ w. same_key w.key key.now) wants.now) }
    ensures below { result ≤ most_taken }
{
    let mut amount = 0;
    for w in wants {
        if let Some(pool) = w.pool
            && w.key == *key
        {
            amount += pool.amount();
        }
    }
    amount
}

fn is_exclusive(w: &Want) -> bool
    ensures { result ≡ is_exclusive w.now }
{
    !w.shared && !is_pooled(w)
}

fn is_exclusive_at(wants: &[Want], key: &Key) -> bool
    ensures { result ≡ list_any is_exclusive (filter (λ w. same_key w.key key.now) wants.now) }
{
    for w in wants {
        if is_exclusive(w) && w.key == *key {
            return true;
        }
    }
    false
}

/// The status with one more owner, in front of the others.
pub fn with_owner(rest: Status, r: &Request, key: &Key, job: u8) -> Status
    requires count { rest.owner_count < 2 ^ 15 }
    requires amount { rest.amount + most_taken < 2 ^ 32 }
    ensures value { result ≡ with_owner key.now job r.now rest }
    ensures amount { result.amount ≤ rest.amount + most_taken }
{
    let wants = r.wants.as_slice();
    Status {
        owns: r.job == job || rest.owns,
        exclusive: is_exclusive_at(wants, key) || rest.exclusive,
        first_owner: Some(r.job),
        owner_count: rest.owner_count + 1,
        amount: amount_at(wants, key) + rest.amount,
        ..rest
    }
}

/// The status with one more waiter, in front of the others.
pub fn with_waiter(rest: Status, r: &Request, job: u8) -> Status
    requires { rest.waiter_count < 2 ^ 15 }
    ensures { result ≡ with_waiter job r.now rest }
{
    Status {
        waits: r.job == job || rest.waits,
        waiter_count: rest.waiter_count + 1,
        ..rest
    }
}
