//! Requests for locks.
ghost use Rattle.std.specs.Prelude.{◌≡◌};
ghost use Rattle.std.specs.Cmp.Lexicographic.{pointwise};
ghost use Rattle.kept_parts.specs.Requests.{kind_number, pool_numbers, request_numbers, same_want, want_numbers};

use crate::slots::flag;
use lock_queue::{EnqueueKind, Pool, Request, Want};
use std::hash::{Hash, Hasher};
use std::marker::Model;

/// A request for locks.
#[derive(Drop)]
pub struct KeptRequest {
    /// The request.
    pub request: Request,
}

impl Model for KeptRequest {
    ghost use Rattle.lock_queue.specs.declared.request.Request.{Request as RequestView};

    ghost Value = { RequestView };

    ghost view = { λ r. r.request };
}

/// A number for what a request does if it is not granted at once.
fn kind_number(kind: EnqueueKind) -> u32
    ensures { result ≡ kind_number kind }
{
    match kind {
        EnqueueKind::Blocking => 0,
        EnqueueKind::AtOnce => 1,
        EnqueueKind::Interrupt => 2,
    }
}

/// Three numbers for the amount of a pool, if a want is for one.
fn pool_numbers(pool: &Option<Pool>) -> [u32; 3]
    ensures { result ≡ pool_numbers pool.now }
{
    match pool {
        None => [0, 0, 0],
        Some(pool) => [1, pool.size(), pool.amount()],
    }
}

/// The numbers of a want, but for its key.
fn want_numbers(w: &Want) -> [u32; 7]
    ensures { result ≡ want_numbers w.now }
{
    let pool = pool_numbers(&w.pool);
    [
        flag(w.shared),
        w.group.number(),
        flag(w.bypass),
        u32::from(w.level.number()),
        pool[0],
        pool[1],
        pool[2],
    ]
}

/// Whether two wants are the same.
fn is_same_want(a: &Want, b: &Want) -> bool
    ensures { result ≡ same_want a.now b.now }
{
    a.key.is_same(&b.key) && want_numbers(a) == want_numbers(b)
}

/// Whether two lists of wants are the same.
fn are_same_wants(a: &[Want], b: &[Want]) -> bool
    ensures { result ≡ pointwise same_want a.now b.now }
{
    if a.len() != b.len() {
        return false;
    }
    for i in 0..a.len() {
        if !is_same_want(&a[i], &b[i]) {
            return false;
        }
    }
    true
}

/// The numbers of a request, but for its wants.
fn request_numbers(r: &Request) -> [u32; 4]
    ensures { result ≡ request_numbers r.now }
{
    [
        u32::from(r.job),
        r.id.number(),
        kind_number(r.kind),
        flag(r.notified),
    ]
}

impl PartialEq for KeptRequest {
    ghost use Rattle.std.specs.Cmp.{partial_equiv_from_equiv};
    ghost use Rattle.kept_parts.specs.SameRequests.{same_request, same_request-equiv};

    ghost eq = { same_request };

    ghost laws = { partial_equiv_from_equiv same_request-equiv };

    fn eq(&self, other: &KeptRequest) -> bool {
        request_numbers(&self.request) == request_numbers(&other.request)
            && are_same_wants(
                self.request.wants.as_slice(),
                other.request.wants.as_slice(),
            )
    }
}

impl Eq for KeptRequest {
    ghost use Rattle.kept_parts.specs.SameRequests.{same_request-equiv};

    ghost laws = { same_request-equiv };
}

impl Hash for KeptRequest {
    ghost use Rattle.kept_parts.specs.SameRequests.{request_writes, same_request-fed};

    ghost hash_input = { request_writes };

    ghost respects_eq = { same_request-fed };

    fn hash<H: Hasher>(&self, state: &mut H) {
        self.request.job.hash(state);
        self.request.id.number().hash(state);
        flag(self.request.notified).hash(state);
    }
}
