//! The requests for locks, one by one and copied.
ghost use Rattle.std.specs.Prelude.{◌≡◌, ◌<◌, Some, IfOk, length, slice_get};
ghost use Rattle.lock_queue.specs.StatusWords.{status_of};

use crate::whole_machine::Machine;
use lock_queue::{Key, LockTable, Request, Status};
use std::alloc::{AllocError, Global};
use wait_graph::requests_in;

impl Machine {
    /// How many requests there are.
    pub fn request_count(&self) -> usize
        ensures { result ≡ length self.now.world.requests }
    {
        self.locks().len()
    }

    /// The request at a position of the list, from 0 on.
    pub fn request(&self, i: usize) -> &Request
        requires { i < length self.now.world.requests }
        ensures { slice_get self.now.world.requests i ≡ Some result.now }
    {
        self.locks().request(i)
    }

    /// Copies of the requests, in order of arrival.
    pub fn requests(&self, alloc: Global) -> Result<Vec<Request>, AllocError>
        ensures { IfOk result (λ requests. requests.items ≡ self.now.world.requests) }
    {
        requests_in(alloc, self.locks())
    }

    /// The status of a lock, as a job sees it.
    pub fn status(&self, key: &Key, job: u8) -> Status
        ensures { result ≡ status_of self.now.world.requests key.now job }
    {
        self.locks().status(key, job)
    }
}
