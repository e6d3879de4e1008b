//! Requests that leave as a whole.
ghost use Rattle.std.specs.Prelude.{◌≡◌, ◌≤◌, filter, length};
ghost use Rattle.std.specs.List.{list_any};
ghost use Rattle.word36.specs.declared.sizes.TheConstants.{MOST_REQUESTS};
ghost use Rattle.lock_table.specs.Whole.{AreRight};
ghost use Rattle.lock_table.specs.Departures.{LeavesWhere, is_chosen, is_leaver_at, may_be_leavers};
ghost use Rattle.lock_table.specs.Tables.{AreFlipped, IsRight};

use crate::readings::own_slots;
use crate::table::Table;
use arrayvec::ArrayVec;
use key_queues::{Entry, Store};
use lock_queue::RequestId;
use lock_queue::steps::is_among;
use word36::MOST_REQUESTS;

/// The slots of requests that leave.
pub type Leaving = ArrayVec<u16, MOST_REQUESTS>;

/// Which requests leave as a whole.
#[derive(Clone, Copy)]
pub enum Leavers {
    /// All.
    All,
    /// Those of a job.
    Job(u8),
    /// Those of a job with an id.
    Id(u8, RequestId),
    /// Those by which a job waits.
    Waiter(u8),
    /// Those by which some jobs wait: job `j` where bit 2^j is set.
    Waiters(u64),
}

/// Whether a request leaves, of those that `may_be_leavers` gives.
fn is_chosen(who: &Leavers, f: &Entry) -> bool
    ensures { result ≡ is_chosen who.now f.now }
{
    match *who {
        Leavers::All | Leavers::Job(_) => true,
        Leavers::Id(_, id) => f.request.id == id,
        Leavers::Waiter(_) => f.is_blocked(),
        Leavers::Waiters(jobs) => is_among(jobs, f.request.job) && f.is_blocked(),
    }
}

/// The slots of the requests that may leave: a job's, or all.
fn may_be_leavers<'a, const REQS: usize>(store: &'a Store<REQS>, who: &Leavers) -> &'a [u16]
    requires { AreRight store.now }
    ensures { result.now ≡ may_be_leavers store.now who.now }
{
    match *who {
        Leavers::All | Leavers::Waiters(_) => store.order(),
        Leavers::Job(job) | Leavers::Id(job, _) | Leavers::Waiter(job) => own_slots(store, job),
    }
}

/// Writes the slots of the requests that leave, in order of arrival.
fn gather<const REQS: usize>(leaving: &mut Leaving, store: &Store<REQS>, who: &Leavers)
    requires right { AreRight store.now }
    requires few { length store.now.order ≤ MOST_REQUESTS }
    ensures { leaving.new.items ≡ filter (is_leaver_at store.now who.now) store.now.order }
{
    leaving.clear();
    for p in may_be_leavers(store, who) {
        if is_chosen(who, store.get(*p)) {
            leaving.push(*p);
        }
    }
}

impl<const REQS: usize> Table<REQS> {
    /// Requests leave as a whole, with all of their wants. True if there were any.
    pub fn release(&mut self, leaving: &mut Leaving, who: &Leavers) -> bool
        requires whole { IsRight REQS self.old }
        requires small { REQS ≤ MOST_REQUESTS }
        ensures whole { IsRight REQS self.new }
        ensures some { result ≡ list_any (is_leaver_at self.old.store who.now) self.old.store.order }
        ensures left { LeavesWhere self.old.store self.new.store (is_leaver_at self.old.store who.now) }
        ensures flips { AreFlipped self.old self.new }
    {
        gather(leaving, &self.store, who);
        self.leave_all(leaving.as_slice());
        !leaving.is_empty()
    }
}
