//! Room for the call of a line. A call has room for 16 locks, too much to move for every line of a script. So each call is
//! filled in where it stays, and the line's command borrows it.
ghost use Rattle.std.specs.Prelude.{◌≡◌, option_map};
ghost use Rattle.queue_script.specs.Borrowed.{filled, owned_call, lent_by};
ghost use Rattle.queue_script.specs.Commands.{request_call, change_call, release_call, release_all_call, release_id_call};
ghost use Rattle.queue_script.specs.Locks.{locks_of, call_wants};
ghost use Rattle.lock_queue.specs.declared.call.LockCall.TheVariants.{DequeueId};
ghost use Rattle.lock_queue.specs.declared.terms.BlockUse.TheVariants.{Named};

use crate::call_wants::read_wants;
use crate::locks::StoreOutcome;
use crate::options::next_half;
use lock_queue::{Asking, BlockUse, EnqueueKind, LockCall, Refusal, RequestId, Wants};
use script_io::Parts;
use word36::MOST_REQUESTS;

/// The quota of a job in a script: more requests than any table holds, so that no call is refused for it.
pub const QUOTA: u16 = MOST_REQUESTS as u16 + 1;

/// What the items of a call spell.
#[derive(Clone, Copy)]
pub enum ReadCall<'a> {
    /// No call: one of them is no lock, say.
    NoCall,
    /// This call.
    Call(&'a LockCall),
    /// A call that is refused before it is made.
    Refused(Refusal),
}

/// A call of each kind that names locks, one that names none, and the locks of a STAT.
#[derive(Drop)]
pub struct CallRoom {
    request: LockCall,
    change: LockCall,
    release: LockCall,
    other: LockCall,
    keys: Wants,
}

impl CallRoom {
    /// Empty room.
    pub fn new() -> Self {
        CallRoom {
            request: LockCall::DequeueAll,
            change: LockCall::DequeueAll,
            release: LockCall::DequeueAll,
            other: LockCall::DequeueAll,
            keys: Wants::new(),
        }
    }

    /// A request for the locks that the items spell, or why it is refused.
    #[inline(always)]
    pub fn request(
        &mut self,
        kind: EnqueueKind,
        id: RequestId,
        job: u8,
        items: Parts<'_>,
    ) -> ReadCall<'_>
        ensures { owned_call result ≡ request_call kind id job items.entry }
    {
        match fill_request(&mut self.request, kind, id, job, items) {
            StoreOutcome::NoLock => ReadCall::NoCall,
            StoreOutcome::Stored => ReadCall::Call(&self.request),
            StoreOutcome::Refused(refusal) => ReadCall::Refused(refusal),
        }
    }

    /// A change of the locks that the items spell, or why it is refused.
    pub fn change(&mut self, job: u8, items: Parts<'_>) -> ReadCall<'_>
        ensures { owned_call result ≡ change_call job items.entry }
    {
        match fill_change(&mut self.change, job, items) {
            StoreOutcome::NoLock => ReadCall::NoCall,
            StoreOutcome::Stored => ReadCall::Call(&self.change),
            StoreOutcome::Refused(refusal) => ReadCall::Refused(refusal),
        }
    }

    /// The release of the locks that the items spell, or why it is refused.
    #[inline(always)]
    pub fn release(&mut self, job: u8, items: Parts<'_>) -> ReadCall<'_>
        ensures { owned_call result ≡ release_call job items.entry }
    {
        match fill_release(&mut self.release, job, items) {
            StoreOutcome::NoLock => ReadCall::NoCall,
            StoreOutcome::Stored => ReadCall::Call(&self.release),
            StoreOutcome::Refused(refusal) => ReadCall::Refused(refusal),
        }
    }

    /// The release of all requests; no call if an item is left.
    pub fn release_all(&mut self, items: Parts<'_>) -> ReadCall<'_>
        ensures { owned_call result ≡ release_all_call items.entry }
    {
        if !items.is_empty() {
            return ReadCall::NoCall;
        }
        self.other = LockCall::DequeueAll;
        ReadCall::Call(&self.other)
    }

    /// The release of the requests of the id that the one item spells.
    pub fn release_id(&mut self, mut items: Parts<'_>) -> ReadCall<'_>
        ensures { owned_call result ≡ release_id_call items.entry }
    {
        let Some(id) = next_half(&mut items) else {
            return ReadCall::NoCall;
        };
        if !items.is_empty() {
            return ReadCall::NoCall;
        }
        fill_id(&mut self.other, RequestId::new(id));
        ReadCall::Call(&self.other)
    }

    /// The locks that the items spell, or why they are refused; None if an item is no lock.
    pub fn keys(&mut self, job: u8, items: Parts<'_>) -> Option<Result<&Wants, Refusal>>
        ensures { lent_by result ≡ option_map (call_wants job Named) (locks_of items.entry) }
    {
        match read_wants(items, job, BlockUse::Named, &mut self.keys) {
            StoreOutcome::NoLock => None,
            StoreOutcome::Stored => Some(Ok(&self.keys)),
            StoreOutcome::Refused(refusal) => Some(Err(refusal)),
        }
    }
}

/// Fills in the release of an id. If the call was one before, only the id is written.
fn fill_id(call: &mut LockCall, id: RequestId)
    ensures { call.new ≡ DequeueId id }
{
    match call {
        LockCall::DequeueId(held) => *held = id,
        _ => *call = LockCall::DequeueId(id),
    }
}

/// Fills in a request over another call.
#[inline(never)]
fn replace_by_request(
    call: &mut LockCall,
    kind: EnqueueKind,
    id: RequestId,
    job: u8,
    items: Parts<'_>,
) -> StoreOutcome
    ensures { filled result call.new ≡ request_call kind id job items.entry }
{
    let mut wants = Wants::new();
    let answer = read_wants(items, job, BlockUse::Full, &mut wants);
    *call = LockCall::Enqueue {
        asking: Asking {
            kind,
            id,
            armed: true,
            quota: QUOTA,
        },
        wants,
    };
    answer
}

/// Fills in a change over another call.
#[inline(never)]
fn replace_by_change(call: &mut LockCall, job: u8, items: Parts<'_>) -> StoreOutcome
    ensures { filled result call.new ≡ change_call job items.entry }
{
    let mut wants = Wants::new();
    let answer = read_wants(items, job, BlockUse::Named, &mut wants);
    *call = LockCall::Modify(wants);
    answer
}

/// Fills in a release over another call.
#[inline(never)]
fn replace_by_release(call: &mut LockCall, job: u8, items: Parts<'_>) -> StoreOutcome
    ensures { filled result call.new ≡ release_call job items.entry }
{
    let mut wants = Wants::new();
    let answer = read_wants(items, job, BlockUse::Named, &mut wants);
    *call = LockCall::DequeueNamed(wants);
    answer
}

/// Fills in a request for the locks that the items spell, or returns why it is refused.
#[inline(always)]
fn fill_request(
    call: &mut LockCall,
    kind: EnqueueKind,
    id: RequestId,
    job: u8,
    items: Parts<'_>,
) -> StoreOutcome
    ensures { filled result call.new ≡ request_call kind id job items.entry }
{
    match call {
        LockCall::Enqueue { asking, wants } => {
            asking.kind = kind;
            asking.id = id;
            asking.armed = true;
            asking.quota = QUOTA;
            read_wants(items, job, BlockUse::Full, wants)
        }
        _ => replace_by_request(call, kind, id, job, items),
    }
}

/// Fills in a change of the locks that the items spell, or returns why it is refused.
fn fill_change(call: &mut LockCall, job: u8, items: Parts<'_>) -> StoreOutcome
    ensures { filled result call.new ≡ change_call job items.entry }
{
    match call {
        LockCall::Modify(wants) => read_wants(items, job, BlockUse::Named, wants),
        _ => replace_by_change(call, job, items),
    }
}

/// Fills in the release of the locks that the items spell, or returns why it is refused.
#[inline(always)]
fn fill_release(call: &mut LockCall, job: u8, items: Parts<'_>) -> StoreOutcome
    ensures { filled result call.new ≡ release_call job items.entry }
{
    match call {
        LockCall::DequeueNamed(wants) => read_wants(items, job, BlockUse::Named, wants),
        _ => replace_by_release(call, job, items),
    }
}
