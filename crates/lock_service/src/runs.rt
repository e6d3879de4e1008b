//! Calls as values. Tables that are handed the same ones agree.
ghost use Rattle.std.specs.Prelude.{◌≡◌, length};
ghost use Rattle.lock_service.specs.Runs.{effect_of, list_after, answers_to};
ghost use Rattle.lock_service.specs.Served.{shown, requests_of};

use crate::locks::Locks;
use crate::spelling::LockTerms;
use lock_queue::Woken;
use std::mem;

/// A call of the service as a value, with its job.
#[derive(Clone, Copy)]
pub enum ServiceCall<'a> {
    /// `Locks::enqueue`.
    Enqueue {
        job: u8,
        kind: u32,
        id: u32,
        quota: u16,
        terms: &'a [LockTerms],
    },
    /// `Locks::modify`.
    Modify(u8, &'a [LockTerms]),
    /// `Locks::dequeue`.
    Dequeue(u8, &'a [LockTerms]),
    /// `Locks::dequeue_all`.
    DequeueAll(u8),
    /// `Locks::dequeue_id`.
    DequeueId(u8, u32),
    /// `Locks::release`.
    Release(u8),
    /// `Locks::withdraw`.
    Withdraw(u64),
}

/// What a call returned, and the grants that it made.
#[derive(Drop)]
pub struct Answer {
    pub code: u32,
    pub grants: Woken,
}

impl Locks {
    /// Makes a call.
    pub fn make(&mut self, call: &ServiceCall<'_>) -> u32
        ensures { shown self.new result ≡ effect_of call.now (requests_of self.old) }
    {
        match *call {
            ServiceCall::Enqueue {
                job,
                kind,
                id,
                quota,
                terms,
            } => self.enqueue(job, kind, id, quota, terms),
            ServiceCall::Modify(job, terms) => self.modify(job, terms),
            ServiceCall::Dequeue(job, terms) => self.dequeue(job, terms),
            ServiceCall::DequeueAll(job) => self.dequeue_all(job),
            ServiceCall::DequeueId(job, id) => self.dequeue_id(job, id),
            ServiceCall::Release(job) => self.release(job),
            ServiceCall::Withdraw(jobs) => self.withdraw(jobs),
        }
    }

    /// Makes a list of calls, one after the other, and writes the answer to each.
    pub fn run_calls(&mut self, calls: &[ServiceCall<'_>], answers: &mut [Answer])
        requires positions { length calls.now ≡ length answers.old }
        ensures list { requests_of self.new ≡ list_after (requests_of self.old) calls.now }
        ensures answers { answers.new ≡ answers_to (requests_of self.old) calls.now }
    {
        for (i, call) in calls.iter().enumerate() {
            let code = self.make(call);
            answers[i] = Answer {
                code,
                grants: mem::replace(&mut self.woken, Woken::new()),
            };
        }
    }
}

/// Two tables that show the same list of requests, and are handed the same calls, give the same answers, make the same
/// grants, and show the same list afterwards: however each keeps its requests, and whatever each was asked before.
pub fn tables_agree(
    one: &mut Locks,
    other: &mut Locks,
    calls: &[ServiceCall<'_>],
    answers: &mut [Answer],
    others: &mut [Answer],
)
    requires same { requests_of one.old ≡ requests_of other.old }
    requires positions { (length calls.now ≡ length answers.old) × (length calls.now ≡ length others.old) }
    ensures run { (requests_of one.new ≡ list_after (requests_of one.old) calls.now) × (answers.new ≡ answers_to (requests_of one.old) calls.now) }
    ensures list { requests_of one.new ≡ requests_of other.new }
    ensures answers { answers.new ≡ others.new }
{
    one.run_calls(calls, answers);
    other.run_calls(calls, others);
}
