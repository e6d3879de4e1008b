//! A lock: what a table keeps of a key.
ghost use Rattle.std.specs.Prelude.{◌≡◌};
ghost use Rattle.key_queues.specs.Hashes.{hash_of};
ghost use Rattle.key_queues.specs.Kept.{appended, no_queue};
ghost use Rattle.key_queues.specs.Locks.{unused_lock};
ghost use Rattle.key_queues.specs.LockUse.{fresh_lock, is_free, in_use_for};

use crate::Queue;
use lock_queue::{Key, Name, Scope, UserCode, Want};

/// A key, its hash, the size of its pool, if it is one, and its queue. It is in use where its queue has wants,
/// and else free: then it may become the lock of another key.
#[derive(Drop)]
pub struct Lock {
    /// The key.
    pub key: Key,
    /// The hash of the key.
    pub hash: u16,
    /// The size of the pool, if its wants are of one.
    pub size: Option<u32>,
    /// The queue of the wants of the key.
    pub queue: Queue,
}

impl Lock {
    /// A free lock.
    pub(crate) fn unused() -> Self
        ensures { result ≡ unused_lock }
    {
        Lock {
            key: Key {
                scope: Scope::All,
                name: Name::Code(UserCode::new(0)),
            },
            hash: 0,
            size: None,
            queue: Queue::new(),
        }
    }

    /// Whether it is in use and of a key.
    pub(crate) fn in_use_for(&self, key: &Key) -> bool
        ensures { result ≡ in_use_for key.now self.now }
    {
        !self.is_free() && self.key.is_same(key)
    }

    /// Whether it is free.
    pub(crate) fn is_free(&self) -> bool
        ensures { result ≡ is_free self.now }
    {
        self.queue.as_slice().is_empty()
    }

    /// Becomes the lock of a want's key, which has this hash. Its queue is that want alone, of the request in
    /// slot `p`.
    pub(crate) fn begin(&mut self, p: u16, w: &Want, hash: u16)
        requires { hash ≡ hash_of w.now.key }
        ensures { self.new ≡ record (fresh_lock w.now) { queue = appended no_queue p w.now } }
    {
        self.key = w.key;
        self.hash = hash;
        self.size = match &w.pool {
            Some(pool) => Some(pool.size()),
            None => None,
        };
        self.queue.clear();
        self.queue.append(p, w);
    }
}
