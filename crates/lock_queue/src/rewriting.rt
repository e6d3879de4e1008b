//! How a request is written over another, and how its wants are changed or removed.
ghost use Rattle.std.specs.Prelude.{◌≡◌, ◌≤◌, IsTrue, length, map};
ghost use Rattle.std.specs.List.{list_all};
ghost use Rattle.word36.specs.declared.sizes.TheConstants.{LOCKS_A_CALL};
ghost use Rattle.lock_queue.specs.Changes.{changed_group, changed_want};
ghost use Rattle.lock_queue.specs.Dequeues.{with_wants, without_keys};
ghost use Rattle.lock_queue.specs.Enqueues.{request_of};
ghost use Rattle.lock_queue.specs.WellFormed.{is_in_range};

use crate::among_wants::names_key;
use crate::{Asking, Group, Request, Want, Wants};

/// Writes these wants over those of the target.
fn write_wants(target: &mut Wants, wants: &Wants)
    ensures value { target.new ≡ wants.now }
    ensures few { length wants.now.items ≤ LOCKS_A_CALL }
    ensures range { IsTrue (list_all is_in_range wants.now.items) }
{
    target.clear();
    for w in wants.as_slice() {
        target.push(w.copied());
    }
}

/// Writes a request over the target.
pub fn write_request(target: &mut Request, job: u8, asking: &Asking, notified: bool, wants: &Wants)
    ensures value { target.new ≡ request_of job asking.now notified wants.now }
    ensures few { length wants.now.items ≤ LOCKS_A_CALL }
    ensures range { IsTrue (list_all is_in_range wants.now.items) }
{
    target.job = job;
    target.id = asking.id;
    target.kind = asking.kind;
    target.notified = notified;
    write_wants(&mut target.wants, wants);
}

/// Writes a request like `r`, but with these wants, over the target.
pub fn write_like(target: &mut Request, r: &Request, wants: &Wants)
    ensures { target.new ≡ with_wants r.now wants.now.items }
{
    target.job = r.job;
    target.id = r.id;
    target.kind = r.kind;
    target.notified = r.notified;
    write_wants(&mut target.wants, wants);
}

/// The group of a want that a change makes shared or exclusive: its own where it is so already, and else
/// group 0.
pub fn changed_group(shared: bool, w: &Want) -> Group
    ensures { result ≡ changed_group shared w.now }
{
    match (shared, w.shared) {
        (true, true) | (false, false) => w.group,
        (true, false) | (false, true) => Group::new(0),
    }
}

/// The want as the change of its key makes it, shared or exclusive; the want itself where no change is of
/// its key.
fn changed_want(changes: &[Want], w: &Want) -> Want
    ensures { result ≡ changed_want changes.now w.now }
{
    for c in changes {
        if w.key == c.key {
            let mut changed = *w;
            changed.group = changed_group(c.shared, w);
            changed.shared = c.shared;
            return changed;
        }
    }
    *w
}

/// The wants, each as the change of its key makes it, if there is one.
pub fn changed_wants(changes: &[Want], wants: &Wants) -> Wants
    ensures { result.items ≡ map (changed_want changes.now) wants.now.items }
{
    let mut changed = Wants::new();
    for w in wants.as_slice() {
        changed.push(changed_want(changes, w));
    }
    changed
}

/// Removes the wants of the named keys from a request.
pub fn remove_keys(r: &mut Request, named: &[Want])
    ensures { r.new ≡ without_keys named.now r.old }
{
    r.wants.retain(|w| !names_key(named, &w.key));
}
