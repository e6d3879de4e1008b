//! The queue of one key.
ghost use Rattle.std.specs.Prelude.{◌≡◌, ◌≤◌, ◌<◌, ◌+◌, ◌-◌, ◌^◌, ◌==◌, [], ℕ};
ghost use Rattle.std.specs.Prelude.{Option, true, if◌then◌else◌, length, min, slice_index, take};
ghost use Rattle.std.specs.List.{position_or_len, remove};
ghost use Rattle.word36.specs.declared.sizes.TheConstants.{JOBS};
ghost use Rattle.lock_queue.specs.Queue.{amount_of};
ghost use Rattle.key_queues.specs.Tables.{is_counted};
ghost use Rattle.key_queues.specs.Locks.{want_in, without_slot};
ghost use Rattle.key_queues.specs.Kept.{IsQueueOf, admitted, appended, counting, fits_last, fits_next, no_queue};

use arrayvec::ArrayVec;
use lock_queue::{Group, Want};
use std::marker::Model;
use word36::JOBS;

/// How many wants of a key there may be: at most one of each job.
const WANTS: usize = JOBS as usize;

/// The wants of a key, by the slots of their requests, in order of arrival. The first ones of them fit, and
/// the others do not.
#[derive(Drop)]
pub struct Queue {
    slots: ArrayVec<u16, WANTS>,
    /// How many fit, as far as that is counted.
    fitting: usize,
    /// What those take of the pool.
    taken: u32,
    /// Whether those are shared, where they are of no pool, and in which group.
    shared: bool,
    group: Group,
}

impl Model for Queue {
    ghost use Rattle.std.specs.Prelude.{◌≤◌, ◌<◌, ◌^◌, length};
    ghost use Rattle.word36.specs.declared.sizes.TheConstants.{JOBS};
    ghost use Rattle.key_queues.specs.Kept.{KeptQueue};

    ghost Value = { KeptQueue };

    ghost view = { λ q. record { slots = q.slots.items; fitting = q.fitting; taken = q.taken; shared = q.shared; group = q.group } };

    ghost invariant = { λ q. (q.fitting ≤ length q.slots.items) × (length q.slots.items ≤ JOBS) × (q.taken < 2 ^ 18) };
}

/// What a want takes of its pool.
fn amount(w: &Want) -> u32
    ensures { result ≡ amount_of w.now }
{
    match w.pool {
        Some(pool) => pool.amount(),
        None => 0,
    }
}

/// The position of a number in a list, or the list's length.
pub fn index_of(list: &[u16], n: u16) -> usize
    ensures { result ≡ position_or_len (λ m. m == n) list.now }
{
    for (i, m) in list.iter().enumerate() {
        if *m == n {
            return i;
        }
    }
    list.len()
}

/// That of a request's wants which is in a queue; `queues` has the queue of each.
pub fn want_in<'a>(queues: &[u16], wants: &'a [Want], n: u16) -> &'a Want
    requires { position_or_len (λ m. m == n) queues.now < length wants.now }
    ensures { result.now ≡ want_in queues.now wants.now n }
{
    &wants[index_of(queues, n)]
}

/// Removes the i-th number of a list; those behind it move up.
pub fn remove_at<const N: usize>(list: &mut ArrayVec<u16, N>, i: usize)
    requires { i < length list.old.items }
    ensures { list.new.items ≡ remove list.old.items i }
{
    let numbers = list.as_mut_slice();
    for k in i..numbers.len() - 1 {
        numbers[k] = numbers[k + 1];
    }
    let _ = list.pop();
}

impl Queue {
    /// An empty queue.
    pub fn new() -> Self
        ensures value { result ≡ no_queue }
        ensures queue { (size : Option ℕ) → IsQueueOf size [] result }
    {
        Queue {
            slots: ArrayVec::new(),
            fitting: 0,
            taken: 0,
            shared: false,
            group: Group::new(0),
        }
    }

    /// Empties the queue.
    pub fn clear(&mut self)
        ensures { self.new ≡ no_queue }
    {
        self.slots.clear();
        self.fitting = 0;
        self.taken = 0;
        self.shared = false;
        self.group = Group::new(0);
    }

    /// The slots.
    pub fn as_slice(&self) -> &[u16]
        ensures value { result.now ≡ self.now.slots }
        ensures few { length result.now ≤ JOBS }
    {
        self.slots.as_slice()
    }

    /// How many wants are counted: the first ones, which fit.
    pub fn fitting(&self) -> usize
        ensures value { result ≡ self.now.fitting }
        ensures most { result ≤ length self.now.slots }
    {
        self.fitting
    }

    /// The i-th slot.
    pub fn slot(&self, i: usize) -> u16
        requires { i < length self.now.slots }
        ensures { result ≡ slice_index self.now.slots i }
    {
        self.slots[i]
    }

    /// Whether the want of a slot is counted.
    #[inline(always)]
    pub fn counts(&self, slot: u16) -> bool
        ensures { result ≡ is_counted self.now slot }
    {
        index_of(&self.slots.as_slice()[..self.fitting], slot) < self.fitting
    }

    /// Whether a want of the key fits behind those that are counted, as the next one.
    fn fits_next(&self, w: &Want) -> bool
        ensures value { result ≡ fits_next self.now w.now w.now.pool }
        ensures room { result ≡ true → self.now.taken + amount_of w.now < 2 ^ 18 }
    {
        match w.pool {
            Some(pool) => self.taken + pool.amount() <= pool.size(),
            None => self.fitting == 0 || self.shared && w.shared && self.group == w.group,
        }
    }

    /// Whether a want of the key fits behind all wants of the queue.
    pub fn fits_last(&self, w: &Want) -> bool
        ensures { result ≡ fits_last self.now w.now }
    {
        self.fitting == self.slots.len() && self.fits_next(w)
    }

    /// Appends a want of the key, of the request in a slot, and counts it where it fits.
    pub fn append(&mut self, slot: u16, w: &Want)
        requires { length self.old.slots < JOBS }
        ensures { self.new ≡ appended self.old slot w.now }
    {
        let all_fit = self.fitting == self.slots.len();
        self.slots.push(slot);
        if all_fit {
            self.let_in(w);
        }
    }

    /// Removes the want of a slot, which is in the queue. Wants that fit now are left to `let_in`.
    pub fn give_up(&mut self, slot: u16, w: &Want)
        requires { position_or_len (λ m. m == slot) self.old.slots < length self.old.slots }
        ensures { self.new ≡ without_slot self.old slot w.now }
    {
        let i = index_of(self.slots.as_slice(), slot);
        remove_at(&mut self.slots, i);
        if i < self.fitting {
            self.fitting -= 1;
            self.taken = self.taken.saturating_sub(amount(w));
        }
    }

    /// Counts the first want that is not counted yet, if it fits; true if it does. `w` is that want.
    pub fn let_in(&mut self, w: &Want) -> bool
        requires { self.old.fitting < length self.old.slots }
        ensures value { result ≡ fits_next self.old w.now w.now.pool }
        ensures after { self.new ≡ (if result then admitted self.old w.now else self.old) }
    {
        let fits = self.fits_next(w);
        if fits {
            self.fitting += 1;
            self.taken += amount(w);
            self.shared = w.shared;
            self.group = w.group;
        }
        fits
    }

    /// Counts the first k wants, but no more than before; `first`, the first of them, says whether they are shared,
    /// and their group. Further wants that fit are left to `let_in`.
    pub fn recount(&mut self, k: usize, first: &Want)
        ensures { self.new ≡ counting self.old (min k self.old.fitting) first.now }
    {
        self.fitting = k.min(self.fitting);
        self.shared = first.shared;
        self.group = first.group;
    }
}
