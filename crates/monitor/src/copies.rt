//! Copies of the requests that are not granted.
ghost use Rattle.std.specs.Prelude.{◌≡◌, if◌then◌else◌, [], IfOk};
ghost use Rattle.machine.specs.Waits.{ungranted};

use core_store::CoreStore;
use lock_queue::steps::write_like;
use lock_queue::{LockTable, Request};
use std::alloc::{AllocError, Global};
use uuo_calls::World;

/// A copy of a request, which its table only lends.
pub fn copied(r: &Request) -> Request
    ensures { result ≡ r.now }
{
    let mut copy = Request::default();
    write_like(&mut copy, r, &r.wants);
    copy
}

/// Copies of the requests of a table that are not granted, in order of arrival.
#[inline(never)]
pub fn ungranted_in<L: LockTable>(alloc: Global, table: &L) -> Result<Vec<Request>, AllocError>
    ensures { IfOk result (λ requests. requests.items ≡ ungranted (L.requests table.now)) }
{
    let mut requests = Vec::new(alloc);
    for i in 0..table.len() {
        let is_granted = table.granted(i);
        let r = table.request(i);
        if !is_granted {
            requests.push(copied(r))?;
        }
    }
    Ok(requests)
}

/// Copies of the requests of a world that are not granted, if they are wanted.
#[inline(always)]
pub(crate) fn ungranted_if<L: LockTable, C: CoreStore>(
    alloc: Global,
    wanted: bool,
    world: &World<L, C>,
) -> Result<Vec<Request>, AllocError>
    ensures { IfOk result (λ v. v.items ≡ (if wanted then ungranted world.now.requests else [])) }
{
    if wanted {
        ungranted_in(alloc, &world.locks)
    } else {
        Ok(Vec::new(alloc))
    }
}
