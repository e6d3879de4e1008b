//! The holdings of a table: which job owns which lock, or waits for it.
ghost use Rattle.std.specs.Prelude.{◌≡◌, ◌++◌, map, OnOk, IfOk};
ghost use Rattle.lock_queue.specs.Queue.{amount_of};
ghost use Rattle.lock_bars.specs.Holds.{hold_of, holds_of, same_hold};

use lock_queue::{Group, Key, LockTable, Request, Want};
use std::alloc::{AllocError, Global};

/// A holding: a job that owns a lock or waits for it.
#[derive(Drop)]
pub struct Hold {
    /// The job, 1 to 63.
    pub job: u8,
    /// The lock.
    pub key: Key,
    /// Whether others who share may own it at the same time.
    pub shared: bool,
    /// The group among which it is shared, or 0 where it is not.
    pub group: Group,
    /// How much of a pool, or 0 where the lock is not a pool.
    pub amount: u32,
    /// Whether the job owns it, and does not wait for it.
    pub owns: bool,
}

/// How much of its pool a want takes, or 0 where its lock is not a pool.
fn amount_of(want: &Want) -> u32
    ensures { result ≡ amount_of want.now }
{
    match want.pool {
        Some(pool) => pool.amount(),
        None => 0,
    }
}

impl Hold {
    /// The holding of a job by one of its wants.
    fn of(job: u8, owns: bool, want: &Want) -> Self
        ensures { result ≡ hold_of job owns want.now }
    {
        Hold {
            job,
            key: want.key,
            shared: want.shared,
            group: want.group,
            amount: amount_of(want),
            owns,
        }
    }

    /// Whether the same job has the same part of the same lock in the same way.
    pub fn is_same(&self, other: &Hold) -> bool
        ensures { result ≡ same_hold self.now other.now }
    {
        self.job == other.job
            && self.key == other.key
            && self.amount == other.amount
            && self.shared == other.shared
            && self.group == other.group
            && self.owns == other.owns
    }

    /// A copy of the hold.
    pub fn copied(&self) -> Self
        ensures { result ≡ self.now }
    {
        Hold {
            job: self.job,
            key: self.key,
            shared: self.shared,
            group: self.group,
            amount: self.amount,
            owns: self.owns,
        }
    }
}

/// Adds a holding for each want of a request.
fn push_holds(holds: &mut Vec<Hold>, request: &Request, owns: bool) -> Result<(), AllocError>
    ensures { OnOk result (holds.new.items ≡ holds.old.items ++ map (hold_of request.now.job owns) request.now.wants.items) }
{
    let job = request.job;
    for want in request.wants.as_slice() {
        holds.push(Hold::of(job, owns, want))?;
    }
    Ok(())
}

/// The holdings of a table: of each request, in order of arrival, one for each lock that it asks for.
pub fn holds_in<L: LockTable>(alloc: Global, table: &L) -> Result<Vec<Hold>, AllocError>
    ensures { IfOk result (λ holds. holds.items ≡ holds_of (L.requests table.now)) }
{
    let mut holds = Vec::new(alloc);
    for i in 0..table.len() {
        push_holds(&mut holds, table.request(i), table.granted(i))?;
    }
    Ok(holds)
}
