//! The requests of a desk in the order of their normal form.
ghost use Rattle.std.specs.Prelude.{◌≡◌, ◌≤◌, ◌<◌, IfOk, length};
ghost use Rattle.std.specs.List.{All, list_any};
ghost use Rattle.lock_queue.specs.Queue.{names};
ghost use Rattle.lock_order_laws.specs.Normal.{normal};
ghost use Rattle.lock_order_laws.specs.Swaps.{may_pass};
ghost use Rattle.lockcheck_orders.specs.Placing.{in_order, place_in, request_at};

use crate::desk::Desk;
use lock_queue::steps::names_key;
use lock_queue::{Request, Want};
use std::alloc::{AllocError, Global};

/// Whether a key of the first wants is one of the second.
fn is_some_named(wants: &[Want], others: &[Want]) -> bool
    ensures { result ≡ list_any (λ w. names others.now w.key) wants.now }
{
    wants.iter().any(|w| names_key(others, &w.key))
}

/// Whether two neighbours may change places.
fn may_pass(r: &Request, s: &Request) -> bool
    ensures { result ≡ may_pass r.now s.now }
{
    r.job != s.job && !is_some_named(r.wants.as_slice(), s.wants.as_slice())
}

/// The place among some requests, which are in order, of one that comes behind them: all by their positions.
fn place(desk: &Desk, order: &[usize], q: usize) -> usize
    requires there { q < length desk.now }
    requires within { All (λ i. i < length desk.now) order.now }
    ensures place { result ≡ place_in (request_at desk.now q) (in_order desk.now order.now) }
    ensures few { result ≤ length order.now }
{
    let r = desk.request(q);
    let mut place = order.len();
    let mut j = order.len();
    while j > 0 {
        j -= 1;
        let s = desk.request(order[j]);
        if !may_pass(r, s) {
            return place;
        }
        if r.job < s.job {
            place = j;
        }
    }
    place
}

/// The positions of the requests in the order of their normal form.
pub fn normal_order(alloc: Global, desk: &Desk) -> Result<Vec<usize>, AllocError>
    ensures order { IfOk result (λ order. in_order desk.now order.items ≡ normal desk.now) }
    ensures within { IfOk result (λ order. All (λ i. i < length desk.now) order.items) }
{
    let mut order = Vec::with_capacity(alloc, desk.len())?;
    for i in 0..desk.len() {
        let place = place(desk, order.as_slice(), i);
        order.insert(place, i)?;
    }
    Ok(order)
}
