//! The grants that a call made, read off the marks.
ghost use Rattle.std.specs.Prelude.{◌≡◌, ◌≤◌, length, true};
ghost use Rattle.word36.specs.declared.sizes.TheConstants.{MOST_REQUESTS};
ghost use Rattle.key_queues.specs.Tables.{AreDistinct, is_there};
ghost use Rattle.lock_queue.specs.Grants.{grant_of};
ghost use Rattle.lock_table.specs.Raised.{grants_marked, is_raised};

use crate::flips::Flips;
use key_queues::Store;
use lock_queue::Woken;
use lock_queue::steps::{grant_of, is_notified_of};

/// Whether the request in a slot became granted, and its job is notified of it.
fn is_raised<const REQS: usize>(store: &Store<REQS>, flips: &Flips<REQS>, p: u16) -> bool
    requires { is_there p store.now.order ≡ true }
    ensures { result ≡ is_raised store.now flips.now p }
{
    let f = store.get(p);
    flips.is_marked(p) && f.granted && is_notified_of(f.request.kind)
}

/// Fills in the grants of the marked slots whose jobs are notified, in order of arrival. Where at most one flag flipped,
/// no walk is made.
pub fn fill_woken<const REQS: usize>(store: &Store<REQS>, flips: &Flips<REQS>, woken: &mut Woken)
    requires few { length store.now.order ≤ MOST_REQUESTS }
    requires once { AreDistinct store.now.order }
    ensures { woken.new.items ≡ grants_marked store.now flips.now }
{
    woken.clear();
    if flips.none() {
        return;
    }
    if let Some(p) = flips.only() {
        if store.contains(p) && is_raised(store, flips, p) {
            woken.push(grant_of(&store.get(p).request));
        }
        return;
    }
    for p in store.order() {
        if is_raised(store, flips, *p) {
            woken.push(grant_of(&store.get(*p).request));
        }
    }
}
