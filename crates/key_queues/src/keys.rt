//! The locks of a table, which are found by the hashes of their keys.
ghost use Rattle.std.specs.Prelude.{IfOk, IfSome, None, ◌≡◌, ◌<◌, ◌≤◌, ◌*◌, ◌^◌, ◌==◌};
ghost use Rattle.std.specs.Prelude.{[], ℕ, true, false, if◌then◌else◌, length, min, slice_get};
ghost use Rattle.std.specs.List.{All, list_all, list_any, position_or_len};
ghost use Rattle.word36.specs.declared.sizes.TheConstants.{JOBS, LOCKS_A_CALL, MOST_REQUESTS};
ghost use Rattle.key_queues.specs.Found.{IsEntered, IsFound, IsSpare};
ghost use Rattle.key_queues.specs.Hashes.{hash_of};
ghost use Rattle.key_queues.specs.Kept.{admitted, counting, fits_last, fits_next};
ghost use Rattle.key_queues.specs.Locks.{lock_at, with_queue, without_slot};
ghost use Rattle.key_queues.specs.LockUse.{is_free, in_use_for};
ghost use Rattle.key_queues.specs.Tables.{is_counted};

use crate::buckets::{Bucket, no_buckets};
use crate::hash::{HASHES, hash_of};
use crate::{Found, Lock};
use lock_queue::{Key, Want};
use std::alloc::{AllocError, Global};
use std::marker::Model;
use word36::LOCKS_A_CALL;

/// The locks of a table by their numbers. One in use is found by the hash of its key, in a bucket. The free
/// list has numbers of locks that became free; some may be in use again. No memory is taken after `new`.
#[derive(Drop)]
pub struct Keys<const REQS: usize> {
    locks: Vec<Lock>,
    /// A bucket for each hash.
    buckets: Vec<Bucket>,
    /// The free list.
    free: Vec<u16>,
}

impl<const REQS: usize> Model for Keys<REQS> {
    ghost use Rattle.std.specs.Prelude.{List, vec_capacity};
    ghost use Rattle.key_queues.specs.declared.lock.Lock.{Lock as LockView};
    ghost use Rattle.key_queues.specs.Found.{IsKeyed};

    ghost Value = { List LockView };

    ghost view = { λ k. k.locks.items };

    ghost invariant = { λ k. IsKeyed REQS k.locks.items (vec_capacity k.locks) k.buckets.items };
}

/// The number of the lock in use of a key, looked for among all locks.
#[cold]
fn find_in_use(locks: &[Lock], key: &Key) -> Option<u16>
    requires { length locks.now ≤ 2 ^ 16 }
    ensures found { IfSome result (λ n. in_use_for key.now (lock_at locks.now n) ≡ true) }
    ensures none { result ≡ None → list_any (in_use_for key.now) locks.now ≡ false }
{
    for (i, lock) in locks.iter().enumerate() {
        if lock.in_use_for(key) {
            return Some(i as u16);
        }
    }
    None
}

/// The number of the first free lock, or how many locks there are.
fn first_free(locks: &[Lock]) -> usize
    ensures { result ≡ position_or_len is_free locks.now }
{
    for (i, lock) in locks.iter().enumerate() {
        if lock.is_free() {
            return i;
        }
    }
    locks.len()
}

impl<const REQS: usize> Keys<REQS> {
    /// No locks, and memory for all that `REQS` requests may name. There are at most 1,024 requests.
    pub fn new(alloc: Global) -> Result<Self, AllocError>
        requires { REQS ≤ MOST_REQUESTS }
        ensures { IfOk result (λ keys. keys ≡ []) }
    {
        Ok(Keys {
            free: Vec::with_capacity(alloc, LOCKS_A_CALL * REQS)?,
            locks: Vec::with_capacity(alloc, LOCKS_A_CALL * REQS)?,
            buckets: no_buckets(alloc, HASHES)?,
        })
    }

    /// The locks.
    pub fn locks(&self) -> &[Lock]
        ensures { result.now ≡ self.now }
    {
        self.locks.as_slice()
    }

    /// The hash of a key, and the number of its lock in use.
    #[inline(always)]
    pub fn look_up(&self, key: &Key) -> Found
        ensures { IsFound self.now key.now result }
    {
        let hash = hash_of(key);
        Found {
            hash,
            number: self.find_at(hash, key),
        }
    }

    /// The number of the lock in use of a key.
    #[inline(always)]
    pub fn find(&self, key: &Key) -> Option<u16>
        ensures found { IfSome result (λ n. in_use_for key.now (lock_at self.now n) ≡ true) }
        ensures none { result ≡ None → (n : ℕ) → in_use_for key.now (lock_at self.now n) ≡ false }
    {
        self.look_up(key).number
    }

    /// The number of the lock in use of a key with this hash.
    #[inline(always)]
    fn find_at(&self, hash: u16, key: &Key) -> Option<u16>
        requires { hash ≡ hash_of key.now }
        ensures found { IfSome result (λ n. in_use_for key.now (lock_at self.now n) ≡ true) }
        ensures none { result ≡ None → (n : ℕ) → in_use_for key.now (lock_at self.now n) ≡ false }
    {
        let bucket = &self.buckets[hash as usize];
        for n in bucket.numbers.as_slice() {
            if self.locks[*n as usize].in_use_for(key) {
                return Some(*n);
            }
        }
        if !bucket.crowded {
            return None;
        }
        find_in_use(self.locks.as_slice(), key)
    }

    /// The number of a free lock: the last of the free list, if it is free still; else that of a new lock,
    /// as long as there is memory for one; else the first free one.
    fn take_free(&mut self) -> u16
        requires { LOCKS_A_CALL * REQS ≤ length self.old → list_any is_free self.old ≡ true }
        ensures { IsSpare self.old self.new result }
    {
        if let Some(n) = self.free.pop() {
            if (n as usize) < self.locks.len() && self.locks[n as usize].is_free() {
                return n;
            }
        }
        let n = self.locks.len();
        if n < LOCKS_A_CALL * REQS {
            self.locks.push_reserved(Lock::unused());
            n as u16
        } else {
            first_free(self.locks.as_slice()) as u16
        }
    }

    /// Appends the want of the request in a slot to the queue of its key, which has room for it. `found` is
    /// the look-up of that key. A key without a lock in use gets a free one, of which there is one where all
    /// locks are made. Returns the number of the key's lock.
    pub fn enter(&mut self, p: u16, w: &Want, found: Found) -> u16
        requires number { IsFound self.old w.now.key found }
        requires room { LOCKS_A_CALL * REQS ≤ length self.old → list_any is_free self.old ≡ true }
        requires few { (n : ℕ) → in_use_for w.now.key (lock_at self.old n) ≡ true
            → length (lock_at self.old n).queue.slots < JOBS }
        ensures { IsEntered self.old self.new p w.now result }
    {
        if let Some(n) = found.number {
            self.locks[n as usize].queue.append(p, w);
            return n;
        }
        let n = self.take_free();
        self.locks[n as usize].begin(p, w, found.hash);
        self.buckets[found.hash as usize].put(n);
        n
    }

    /// Whether a want fits behind all wants in the queue of its key, of which `found` is the look-up. Where no
    /// lock is in use for it, it fits.
    #[inline(always)]
    pub fn fits_last(&self, w: &Want, found: Found) -> bool
        requires { IsFound self.now w.now.key found }
        ensures found { IfSome found.number (λ n. result ≡ fits_last (lock_at self.now n).queue w.now) }
        ensures none { found.number ≡ None → result ≡ true }
    {
        match found.number {
            Some(n) => self.locks[n as usize].queue.fits_last(w),
            None => true,
        }
    }

    /// Counts the first want of a queue that is not counted yet, if it fits; true if it does. There is one.
    pub fn let_in(&mut self, n: u16, w: &Want) -> bool
        requires lock { n < length self.old }
        requires next { (lock_at self.old n).queue.fitting < length (lock_at self.old n).queue.slots }
        ensures value { result ≡ fits_next (lock_at self.old n).queue w.now w.now.pool }
        ensures after { self.new ≡ (if result
            then with_queue self.old n (admitted (lock_at self.old n).queue w.now)
            else self.old) }
    {
        self.locks[n as usize].queue.let_in(w)
    }

    /// Counts the first k wants of a queue, but no more than before; `first`, the first of them, says whether they
    /// are shared, and their group. Further wants that fit are left to `let_in`.
    pub fn recount(&mut self, n: u16, k: usize, first: &Want)
        requires { n < length self.old }
        ensures { self.new ≡ with_queue self.old n
            (counting (lock_at self.old n).queue (min k (lock_at self.old n).queue.fitting) first.now) }
    {
        self.locks[n as usize].queue.recount(k, first);
    }

    /// Removes the want of a slot from a queue, in which it is. Wants that fit now are left to `let_in`.
    pub fn leave_queue(&mut self, n: u16, p: u16, w: &Want)
        requires lock { n < length self.old }
        requires slot { position_or_len (λ m. m == p) (lock_at self.old n).queue.slots
            < length (lock_at self.old n).queue.slots }
        ensures { self.new ≡ with_queue self.old n (without_slot (lock_at self.old n).queue p w.now) }
    {
        self.locks[n as usize].queue.give_up(p, w);
    }

    /// Frees a lock whose queue is empty: takes it out of its bucket, and puts its number on the free list.
    pub fn free_if_unused(&mut self, n: u16)
        requires { n < length self.old }
        ensures { self.new ≡ self.old }
    {
        let lock = &self.locks[n as usize];
        if lock.is_free() {
            self.buckets[lock.hash as usize].take_out(n);
            if self.free.len() < self.free.capacity() {
                let _ = self.free.push(n);
            }
        }
    }

    /// Whether each of these queues counts the want of a slot.
    pub fn all_count(&self, queues: &[u16], p: u16) -> bool
        requires { All (λ n. n < length self.now) queues.now }
        ensures { result ≡ list_all (λ n. is_counted (lock_at self.now n).queue p) queues.now }
    {
        let locks = self.locks();
        for n in queues {
            if !locks[*n as usize].queue.counts(p) {
                return false;
            }
        }
        true
    }

    /// The slot of the first want of a queue that is not counted yet, if there is one.
    pub fn next_slot(&self, n: u16) -> Option<u16>
        requires { n < length self.now }
        ensures { result ≡ slice_get (lock_at self.now n).queue.slots (lock_at self.now n).queue.fitting }
    {
        let queue = &self.locks[n as usize].queue;
        queue.as_slice().get(queue.fitting()).copied()
    }

    /// Whether a queue is empty.
    pub fn is_empty(&self, n: u16) -> bool
        requires { n < length self.now }
        ensures { result ≡ (length (lock_at self.now n).queue.slots == 0) }
    {
        let left = &self.locks[n as usize];
        left.is_free()
    }
}
