//! Calls on the queue from plain data.
ghost use Rattle.std.specs.Prelude.{◌≡◌, ◌<◌, ◌++◌, ◌∷◌, [], length, nat_le, IsTrue};
ghost use Rattle.word36.specs.declared.sizes.TheConstants.{LOCKS_A_CALL};
ghost use Rattle.std.specs.List.{list_all};
ghost use Rattle.lock_queue.specs.WellFormed.{names_locks, shares_rightly, all_share_rightly};

use lock_queue::{
    Asking, EnqueueKind, Group, Key, Level, LockCall, Name, Pool, RequestId, Scope, UserCode, Want,
    Wants,
};
use word36::MOST_REQUESTS;

/// A quota that no table can hold more requests than.
pub const ANY_QUOTA: u16 = MOST_REQUESTS as u16 + 1;

/// A lock that is asked for: a user code of all jobs, and its level.
#[derive(Clone, Copy)]
pub enum Lock {
    /// For oneself.
    Alone(u32, u8),
    /// With others who share.
    Shared(u32, u8),
    /// With others who share in the same group: its code, and the group. Its level is 0.
    Grouped(u32, u16),
    /// For oneself, and the rule of rising levels is not asked of it.
    Bypassing(u32, u8),
    /// Of a pool: its code, its size, and how much of it. Its level is 0.
    OfPool(u32, u32, u32),
}

/// The locks of a call.
#[derive(Clone, Copy)]
pub enum Locks {
    One(Lock),
    Two(Lock, Lock),
}

/// A call on the queue.
#[derive(Clone, Copy)]
pub enum Call {
    /// ENQ. of this kind, functions 0 to 2, with an id.
    Asks(EnqueueKind, u16, Locks),
    /// ENQ. function 2 with an id, of a job that cannot be interrupted.
    AsksUnarmed(u16, Locks),
    /// ENQ. of this kind with an id, of a job that has this quota, and cannot be interrupted.
    AsksWithin(u16, EnqueueKind, u16, Locks),
    /// ENQ. function 3.
    Changes(Locks),
    /// DEQ. function 0.
    GivesUp(Locks),
    /// DEQ. function 1.
    GivesUpAll,
    /// DEQ. function 2.
    GivesUpId(u16),
}

/// A user code of all jobs.
pub fn key(code: u32) -> Key {
    Key {
        scope: Scope::All,
        name: Name::Code(UserCode::new(u64::from(code))),
    }
}

/// A want for oneself.
pub fn alone(code: u32, level: u8) -> Want
    ensures { IsTrue (shares_rightly result) }
{
    Want {
        key: key(code),
        shared: false,
        group: Group::new(0),
        bypass: false,
        level: Level::new(u16::from(level)),
        pool: None,
    }
}

/// The want of a lock.
fn want(lock: Lock) -> Want
    ensures { IsTrue (shares_rightly result) }
{
    match lock {
        Lock::Alone(code, level) => alone(code, level),
        Lock::Shared(code, level) => Want {
            key: key(code),
            shared: true,
            group: Group::new(0),
            bypass: false,
            level: Level::new(u16::from(level)),
            pool: None,
        },
        Lock::Grouped(code, group) => Want {
            key: key(code),
            shared: true,
            group: Group::new(u32::from(group)),
            bypass: false,
            level: Level::new(0),
            pool: None,
        },
        Lock::Bypassing(code, level) => Want {
            key: key(code),
            shared: false,
            group: Group::new(0),
            bypass: true,
            level: Level::new(u16::from(level)),
            pool: None,
        },
        Lock::OfPool(code, size, amount) => Want {
            key: key(code),
            shared: false,
            group: Group::new(0),
            bypass: false,
            level: Level::new(0),
            pool: Pool::new(size, amount),
        },
    }
}

/// Adds a want to fewer than 16. The prover follows `push` of a want only where its name is looked at.
pub fn add(wants: &mut Wants, want: Want)
    requires { length wants.old.items < LOCKS_A_CALL }
    ensures { wants.new.items ≡ wants.old.items ++ want ∷ [] }
{
    let _name = &want.key.name;
    wants.push(want);
}

/// The wants of one lock.
pub fn one(want: Want) -> Wants
    requires { IsTrue (shares_rightly want) }
    ensures some { IsTrue (nat_le 1 (length result.items)) }
    ensures right { IsTrue (list_all shares_rightly result.items) }
{
    let mut wants = Wants::new();
    add(&mut wants, want);
    wants
}

/// The wants of a call.
fn wants(locks: Locks) -> Wants
    ensures some { IsTrue (nat_le 1 (length result.items)) }
    ensures right { IsTrue (list_all shares_rightly result.items) }
{
    match locks {
        Locks::One(lock) => one(want(lock)),
        Locks::Two(first, second) => {
            let mut wants = Wants::new();
            add(&mut wants, want(first));
            add(&mut wants, want(second));
            wants
        }
    }
}

/// The call.
pub fn lock_call(call: Call) -> LockCall
    ensures named { IsTrue (names_locks result) }
    ensures unshared { IsTrue (all_share_rightly result) }
{
    match call {
        Call::Asks(kind, id, locks) => LockCall::Enqueue {
            asking: Asking {
                kind,
                id: RequestId::new(u32::from(id)),
                armed: true,
                quota: ANY_QUOTA,
            },
            wants: wants(locks),
        },
        Call::AsksUnarmed(id, locks) => LockCall::Enqueue {
            asking: Asking {
                kind: EnqueueKind::Interrupt,
                id: RequestId::new(u32::from(id)),
                armed: false,
                quota: ANY_QUOTA,
            },
            wants: wants(locks),
        },
        Call::AsksWithin(quota, kind, id, locks) => LockCall::Enqueue {
            asking: Asking {
                kind,
                id: RequestId::new(u32::from(id)),
                armed: false,
                quota,
            },
            wants: wants(locks),
        },
        Call::Changes(locks) => LockCall::Modify(wants(locks)),
        Call::GivesUp(locks) => LockCall::DequeueNamed(wants(locks)),
        Call::GivesUpAll => LockCall::DequeueAll,
        Call::GivesUpId(id) => LockCall::DequeueId(RequestId::new(u32::from(id))),
    }
}
