//! Which want of a request does not fit, and who stands in its way.
ghost use Rattle.std.specs.Prelude.{◌≡◌, ◌++◌, IfOk, OnOk};
ghost use Rattle.lock_reasons.specs.Reasons.{first_unfit};
ghost use Rattle.lock_reasons.specs.Ways.{in_the_way, is_met, way_of};

use crate::meetings::Present;
use lock_queue::steps::{agree, is_fitting, is_pooled};
use lock_queue::{Request, Want};
use std::alloc::{AllocError, Global};

/// The first of these wants that does not fit behind the requests.
pub fn first_unfit(requests: &[Request], wants: &[Want]) -> Option<Want>
    ensures { result ≡ first_unfit requests.now wants.now }
{
    for w in wants {
        if !is_fitting(requests, w) {
            return Some(w.copied());
        }
    }
    None
}

/// Whether a want in the queue is of the same key, and stands in the way of a want.
fn is_met(w: &Want, v: &Want) -> bool
    ensures { result ≡ is_met w.now v.now }
{
    v.key == w.key && (is_pooled(v) || !agree(v, w))
}

/// Adds the wants of a request that stand in the way of a want.
fn push_in_the_way(way: &mut Vec<Present>, w: &Want, r: &Request) -> Result<(), AllocError>
    ensures { OnOk result (way.new.items ≡ way.old.items ++ in_the_way w.now r.now) }
{
    for v in r.wants.as_slice() {
        if !is_met(w, v) {
            continue;
        }
        way.push(Present {
            job: r.job,
            id: r.id,
            want: v.copied(),
        })?;
    }
    Ok(())
}

/// The wants in the queue that stand in the way of a want which does not fit behind them, in order of arrival: those of
/// its key that are of a pool, or do not share the lock with it.
pub fn way_of(alloc: Global, requests: &[Request], w: &Want) -> Result<Vec<Present>, AllocError>
    ensures { IfOk result (λ way. way.items ≡ way_of requests.now w.now) }
{
    let mut way = Vec::new(alloc);
    for r in requests {
        push_in_the_way(&mut way, w, r)?;
    }
    Ok(way)
}
