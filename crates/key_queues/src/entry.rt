//! An entry: a request as the table keeps it.
ghost use Rattle.std.specs.Prelude.{◌≡◌, ◌<◌, length};
ghost use Rattle.std.specs.List.{remove};
ghost use Rattle.lock_queue.specs.Jobs.{is_blocking};
ghost use Rattle.key_queues.specs.Entries.{arrived, unused_entry};
ghost use Rattle.key_queues.specs.Stores.{is_blocked};

use arrayvec::ArrayVec;
use lock_queue::{Asking, EnqueueKind, Request};
use word36::LOCKS_A_CALL;

/// Whether a job waits for such a request.
pub fn is_blocking(kind: EnqueueKind) -> bool
    ensures { result ≡ is_blocking kind }
{
    matches!(kind, EnqueueKind::Blocking)
}

/// Removes the k-th element of a list. It is mostly the last, and then none is moved.
pub fn take_out<T: Default + Drop, const N: usize>(list: &mut ArrayVec<T, N>, k: usize)
    requires { k < length list.old.items }
    ensures { list.new.items ≡ remove list.old.items k }
{
    if k == list.len() - 1 {
        let _ = list.pop();
    } else {
        let _ = list.remove(k);
    }
}

/// A request, the queues of its wants, and whether it is granted.
#[derive(Drop)]
pub struct Entry {
    /// The request.
    pub request: Request,
    /// For each of its wants the number of the lock in whose queue the want is.
    pub queues: ArrayVec<u16, LOCKS_A_CALL>,
    /// Whether it is granted.
    pub granted: bool,
}

impl Entry {
    /// The entry in a spare box.
    pub fn unused() -> Self
        ensures { result ≡ unused_entry }
    {
        Entry {
            request: Request::default(),
            queues: ArrayVec::new(),
            granted: false,
        }
    }

    /// Becomes the entry of a request that arrives, of which no want is entered yet.
    pub fn begin(&mut self, job: u8, asking: &Asking, notified: bool)
        ensures { self.new ≡ arrived job asking.now notified }
    {
        self.request.job = job;
        self.request.id = asking.id;
        self.request.kind = asking.kind;
        self.request.notified = notified;
        self.request.wants.clear();
        self.queues.clear();
        self.granted = false;
    }

    /// Whether its job waits for it.
    pub fn is_blocked(&self) -> bool
        ensures { result ≡ is_blocked self.now }
    {
        is_blocking(self.request.kind) && !self.granted
    }
}
