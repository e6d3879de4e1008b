//! How a request arrives.
ghost use Rattle.std.specs.Prelude.{◌≡◌, ◌≤◌, ◌<◌, ◌+◌, ◌++◌, ◌∷◌, ℕ};
ghost use Rattle.std.specs.Prelude.{true, false, [], None, IsTrue, length, nat_le};
ghost use Rattle.std.specs.List.{list_all};
ghost use Rattle.word36.specs.declared.sizes.TheConstants.{JOBS};
ghost use Rattle.lock_queue.specs.declared.request.EnqueueKind.TheVariants.{AtOnce};
ghost use Rattle.lock_queue.specs.Enqueues.{enqueue, enqueue_fault, request_of, with_arrival};
ghost use Rattle.lock_queue.specs.Outcomes.{first_refusal};
ghost use Rattle.lock_queue.specs.Queue.{fits, granted};
ghost use Rattle.lock_queue.specs.WellFormed.{is_in_range, shares_rightly};
ghost use Rattle.key_queues.specs.Tables.{is_there};
ghost use Rattle.key_queues.specs.Stores.{entry_at};
ghost use Rattle.key_queues.specs.States.{IsTable};
ghost use Rattle.lock_table.specs.Arrivals.{AdmitsFrom, AreFound, IsArriving, SameRequests};
ghost use Rattle.lock_table.specs.Tables.{IsRight, requests, state};

use crate::found::FoundKeys;
use crate::notifying::set_notified;
use crate::refusals::refusal_of_enqueue;
use crate::steps::renew;
use crate::table::Table;
use key_queues::{Found, Keys, Store};
use lock_queue::{Asking, EnqueueKind, LockReply, Refusal, Want, Wants};

/// All wants are in range, as their types have it. The calls do nothing; their contracts say so.
fn are_in_range(wants: &[Want])
    ensures { IsTrue (list_all is_in_range wants.now) }
{
    for w in wants {
        let _ = w.level.copied();
        if let Some(pool) = &w.pool {
            let _ = pool.copied();
        }
    }
}

/// Enters the wants of the latest request, one by one.
fn enter_all<const REQS: usize>(
    store: &mut Store<REQS>,
    keys: &mut Keys<REQS>,
    p: u16,
    wants: &[Want],
    found: &[Found],
)
    requires arriving { IsArriving store.old keys.old p wants.now 0 }
    requires long { length found.now ≡ length wants.now }
    requires found { AreFound 0 keys.old wants.now found.now }
    requires few { length store.old.order ≤ REQS }
    ensures arriving { IsArriving store.new keys.new p wants.now (length wants.now) }
    ensures same { SameRequests store.old store.new p }
{
    for k in 0..wants.len() {
        let w = &wants[k];
        let n = keys.enter(p, w, found[k]);
        store.push_want(p, w, n);
    }
}

impl<const REQS: usize> Table<REQS> {
    /// Whether a request is refused since its job would not wait for it (ENQ. function 1), and not all of its wants fit
    /// behind the present ones. No rule refuses the wants beside the present ones of their keys.
    fn is_turned_away(&self, asking: &Asking, wants: &[Want], found: &[Found]) -> bool
        requires table { IsTable (state self.now) }
        requires long { length found.now ≡ length wants.now }
        requires found { AreFound 0 self.now.keys wants.now found.now }
        requires admits { AdmitsFrom 0 self.now.keys wants.now }
        ensures away { result ≡ true → (asking.now.kind ≡ AtOnce) × (list_all (fits (requests self.now)) wants.now ≡ false) }
        ensures stays { result ≡ false → asking.now.kind ≡ AtOnce → list_all (fits (requests self.now)) wants.now ≡ true }
    {
        if !matches!(asking.kind, EnqueueKind::AtOnce) {
            return false;
        }
        are_in_range(wants);
        for (k, w) in wants.iter().enumerate() {
            if !self.keys.fits_last(w, found[k]) {
                return true;
            }
        }
        false
    }

    /// Enters a request that no rule refuses, behind the others. Its wants come last in the queues of their keys, and it
    /// is granted where all of them fit behind the requests before it. Returns its slot.
    fn arrive(&mut self, job: u8, asking: &Asking, wants: &Wants, found: &[Found]) -> u16
        requires whole { IsRight REQS self.old }
        requires job { (1 ≤ job) × (job ≤ JOBS) }
        requires some { IsTrue (nat_le 1 (length wants.now.items)) }
        requires unshared { IsTrue (list_all shares_rightly wants.now.items) }
        requires passed { first_refusal (enqueue_fault (requests self.old) job) [] wants.now.items ≡ None }
        requires few { length self.old.store.order < REQS }
        requires long { length found.now ≡ length wants.now.items }
        requires found { AreFound 0 self.old.keys wants.now.items found.now }
        ensures whole { IsRight REQS self.new }
        ensures requests { requests self.new ≡ with_arrival (requests self.old) job asking.now false wants.now }
        ensures granted { (entry_at self.new.store result).granted
            ≡ granted (with_arrival (requests self.old) job asking.now false wants.now) (length (requests self.old)) }
        ensures out { is_there result self.old.store.order ≡ false }
        ensures order { self.new.store.order ≡ self.old.store.order ++ result ∷ [] }
        ensures request { (entry_at self.new.store result).request ≡ request_of job asking.now false wants.now }
        ensures others { (x : ℕ) → (x ≡ result → ⊥)
            → (entry_at self.new.store x).request ≡ (entry_at self.old.store x).request }
    {
        are_in_range(wants.as_slice());
        let p = self.store.insert(job, asking, false);
        enter_all(&mut self.store, &mut self.keys, p, wants.as_slice(), found);
        let _ = renew(&mut self.store, &self.keys, p);
        p
    }

    /// A job asks for locks. The answer notifies it of a grant at once, so no interrupt does so later. A request that
    /// does not wait is entered only where it is granted.
    pub fn enqueue(&mut self, job: u8, asking: &Asking, wants: &Wants) -> LockReply
        requires whole { IsRight REQS self.old }
        requires job { (1 ≤ job) × (job ≤ JOBS) }
        requires some { IsTrue (nat_le 1 (length wants.now.items)) }
        requires unshared { IsTrue (list_all shares_rightly wants.now.items) }
        ensures whole { IsRight REQS self.new }
        ensures requests { requests self.new ≡ (enqueue REQS (requests self.old) job asking.now wants.now).requests }
        ensures reply { result ≡ (enqueue REQS (requests self.old) job asking.now wants.now).reply }
    {
        let asked = wants.as_slice();
        let mut found = FoundKeys::new();
        if let Some(refusal) = refusal_of_enqueue(
            &self.store,
            &self.keys,
            job,
            asking,
            asked,
            &mut found,
        ) {
            return LockReply::Refused(refusal);
        }
        let found = found.as_slice();
        if self.is_turned_away(asking, asked, found) {
            return LockReply::Refused(Refusal::NotGranted);
        }
        let p = self.arrive(job, asking, wants, found);
        match (self.store.get(p).granted, asking.kind) {
            (true, EnqueueKind::Interrupt) => {
                set_notified(&mut self.store, p);
                LockReply::Granted
            }
            (true, _) => LockReply::Granted,
            (false, EnqueueKind::Blocking) => LockReply::Queued,
            (false, EnqueueKind::AtOnce) => LockReply::Refused(Refusal::NotGranted),
            (false, EnqueueKind::Interrupt) => LockReply::Refused(Refusal::NotGranted),
        }
    }
}
