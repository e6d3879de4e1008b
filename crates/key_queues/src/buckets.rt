//! The numbers of locks in use, by the hashes of their keys.
ghost use Rattle.std.specs.Prelude.{IfOk, ◌≡◌, ◌<◌, ℕ, length};
ghost use Rattle.key_queues.specs.Found.{bucket_at, no_bucket, numbered, without_number};

use crate::index_of;
use crate::queue::remove_at;
use arrayvec::ArrayVec;
use std::alloc::{AllocError, Global};

/// How many numbers a bucket has room for.
const ROOM: usize = 4;

/// The numbers of locks in use whose keys have one hash. A bucket that had no room for one is crowded.
#[derive(Drop)]
pub struct Bucket {
    /// The numbers, four at most.
    pub numbers: ArrayVec<u16, ROOM>,
    /// Whether there was no room for one.
    pub crowded: bool,
}

impl Bucket {
    /// Puts a number in; where there is no room the bucket becomes crowded instead.
    pub fn put(&mut self, n: u16)
        ensures { self.new ≡ numbered self.old n }
    {
        if self.numbers.is_full() {
            self.crowded = true;
        } else {
            self.numbers.push(n);
        }
    }

    /// Takes a number out, if it is there.
    pub fn take_out(&mut self, n: u16)
        ensures { self.new ≡ without_number self.old n }
    {
        let i = index_of(self.numbers.as_slice(), n);
        if i < self.numbers.len() {
            remove_at(&mut self.numbers, i);
        }
    }
}

/// A number of empty buckets.
pub fn no_buckets(alloc: Global, count: usize) -> Result<Vec<Bucket>, AllocError>
    ensures long { IfOk result (λ buckets. length buckets.items ≡ count) }
    ensures none { IfOk result (λ buckets. (h : ℕ) → bucket_at buckets.items h ≡ no_bucket) }
{
    let mut buckets = Vec::with_capacity(alloc, count)?;
    for _ in 0..count {
        buckets.push_reserved(Bucket {
            numbers: ArrayVec::new(),
            crowded: false,
        });
    }
    Ok(buckets)
}
