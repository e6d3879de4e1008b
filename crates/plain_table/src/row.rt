//! A row of requests, in slots that are all made at the start.
ghost use Rattle.std.specs.Prelude.{◌≡◌, ◌<◌, ◌≤◌, [], ◌∷◌, ◌++◌};
ghost use Rattle.std.specs.Prelude.{◌-◌, length, IfOk, IsTrue, map, take, remove};
ghost use Rattle.std.specs.List.{list_all};
ghost use Rattle.word36.specs.declared.sizes.TheConstants.{LOCKS_A_CALL};
ghost use Rattle.lock_queue.specs.Dequeues.{with_wants, without_keys_of};
ghost use Rattle.lock_queue.specs.Enqueues.{request_of};
ghost use Rattle.lock_queue.specs.Jobs.{job_notified};
ghost use Rattle.lock_queue.specs.WellFormed.{is_in_range};

use crate::dequeues::remove_keys_of;
use crate::jobs::mark_notified;
use lock_queue::steps::{write_like, write_request};
use lock_queue::{Asking, Request, Want, Wants};
use std::alloc::{AllocError, Global};
use std::marker::Model;

/// Requests in order of arrival, in the first of as many slots as there may be requests. The slots are made
/// at the start and written over, want by want, so that nothing large is filled or copied for a request of
/// few locks.
#[derive(Drop)]
pub struct Row<const REQS: usize> {
    slots: Vec<Request>,
    count: usize,
}

impl<const REQS: usize> Model for Row<REQS> {
    ghost use Rattle.std.specs.Prelude.{◌≡◌, ◌≤◌, List, length, take};
    ghost use Rattle.lock_queue.specs.declared.request.Request.{Request as RequestView};

    ghost Value = { List RequestView };

    ghost view = { λ r. take r.count r.slots.items };

    ghost invariant = { λ r. (length r.slots.items ≡ REQS) × (r.count ≤ REQS) };
}

impl<const REQS: usize> Row<REQS> {
    /// An empty row.
    pub fn new(alloc: Global) -> Result<Self, AllocError>
        ensures { IfOk result (λ row. row ≡ []) }
    {
        let mut slots = Vec::with_capacity(alloc, REQS)?;
        for _ in 0..REQS {
            slots.push(Request::default())?;
        }
        Ok(Row { slots, count: 0 })
    }

    /// The requests.
    pub fn as_slice(&self) -> &[Request]
        ensures value { result.now ≡ self.now }
        ensures few { length result.now ≤ REQS }
    {
        &self.slots.as_slice()[..self.count]
    }

    /// Removes all requests.
    pub fn clear(&mut self)
        ensures { self.new ≡ [] }
    {
        self.count = 0;
    }

    /// Appends a request of these wants.
    pub fn push(&mut self, job: u8, asking: &Asking, notified: bool, wants: &Wants)
        requires { length self.old < REQS }
        ensures value { self.new ≡ self.old ++ request_of job asking.now notified wants.now ∷ [] }
        ensures few { length wants.now.items ≤ LOCKS_A_CALL }
        ensures range { IsTrue (list_all is_in_range wants.now.items) }
    {
        write_request(&mut self.slots[self.count], job, asking, notified, wants);
        self.count += 1;
    }

    /// Appends a request like another, but with these wants.
    pub fn push_like(&mut self, r: &Request, wants: &Wants)
        requires { length self.old < REQS }
        ensures { self.new ≡ self.old ++ with_wants r.now wants.now.items ∷ [] }
    {
        write_like(&mut self.slots[self.count], r, wants);
        self.count += 1;
    }

    /// Removes the request at a position; those behind it move up.
    pub fn remove(&mut self, i: usize)
        requires { i < length self.old }
        ensures value { self.new ≡ remove self.old i }
        ensures few { length self.new ≤ REQS }
    {
        close_gap(self.slots.as_mut_slice(), self.count, i);
        self.count -= 1;
    }

    /// Removes the wants of the named keys from the job's requests.
    pub fn remove_keys_of(&mut self, job: u8, named: &[Want])
        ensures { self.new ≡ map (without_keys_of job named.now) self.old }
    {
        remove_keys_in_front(self.slots.as_mut_slice(), self.count, job, named);
    }

    /// Marks the pending request of a job as notified.
    pub fn mark_notified(&mut self, job: u8)
        ensures value { self.new ≡ job_notified self.old job }
        ensures few { length self.new ≤ REQS }
    {
        mark_front_notified(self.slots.as_mut_slice(), self.count, job);
    }
}

/// Moves those of the first `count` requests up that stand behind a position.
fn close_gap(slots: &mut [Request], count: usize, i: usize)
    requires there { i < count }
    requires front { count ≤ length slots.old }
    ensures { take (count - 1) slots.new ≡ remove (take count slots.old) i }
{
    rotate_end(&mut slots[..count], i);
}

/// Moves the request at a position to the end; those behind it move up.
fn rotate_end(requests: &mut [Request], i: usize)
    requires { i < length requests.old }
    ensures { take (length requests.old - 1) requests.new ≡ remove requests.old i }
{
    requests[i..].rotate_left(1);
}

/// Removes the wants of the named keys from those of the first `count` requests that are the job's.
fn remove_keys_in_front(slots: &mut [Request], count: usize, job: u8, named: &[Want])
    requires { count ≤ length slots.old }
    ensures { take count slots.new ≡ map (without_keys_of job named.now) (take count slots.old) }
{
    remove_keys_of(&mut slots[..count], job, named);
}

/// Marks the pending request of a job among the first `count` requests as notified.
fn mark_front_notified(slots: &mut [Request], count: usize, job: u8)
    requires { count ≤ length slots.old }
    ensures { take count slots.new ≡ job_notified (take count slots.old) job }
{
    mark_notified(&mut slots[..count], job);
}
