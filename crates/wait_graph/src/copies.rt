//! Copies of the requests of a table.
ghost use Rattle.std.specs.Prelude.{◌≡◌, IfOk};

use lock_queue::steps::write_like;
use lock_queue::{LockTable, Request};
use std::alloc::{AllocError, Global};

/// A copy of a request, which its table only lends.
fn copied(r: &Request) -> Request
    ensures { result ≡ r.now }
{
    let mut copy = Request::default();
    write_like(&mut copy, r, &r.wants);
    copy
}

/// The requests of a table, in order of arrival.
pub fn requests_in<L: LockTable>(alloc: Global, table: &L) -> Result<Vec<Request>, AllocError>
    ensures { IfOk result (λ requests. requests.items ≡ L.requests table.now) }
{
    let mut requests = Vec::new(alloc);
    for i in 0..table.len() {
        requests.push(copied(table.request(i)))?;
    }
    Ok(requests)
}
