//! Laws: functions without a body, each with a fact about what is read of the service.
ghost use Rattle.std.specs.Prelude.{◌≡◌, Ok, Some, IsTrue, IfSome, slice_get};
ghost use Rattle.lock_queue.specs.WellFormed.{shares_rightly};
ghost use Rattle.lock_queue.specs.declared.terms.BlockUse.TheVariants.{Full};
ghost use Rattle.lock_service.specs.ReadBack.{spells, read_again};
ghost use Rattle.lock_service.specs.Readings.{shown_want, want_in};
ghost use Rattle.lock_service.specs.Served.{requests_of};
ghost use Rattle.lock_service.specs.Spelled.{want_of};

use crate::locks::Locks;
use lock_queue::{LockTable, Name, Want};

/// The name that is read from what is shown of a name is that name.
fn name_is_read_back(name: &Name)
    ensures { read_again name.now ≡ Some name.now }
{
    match name {
        Name::Text(text) => {
            let text = text.as_str();
            let _bytes = text.as_bytes();
        }
        Name::Code(code) => {
            let _number = code.number();
        }
    }
}

/// A want that a table may have, shown and asked for by a job that spells its name, is the same want.
fn want_is_read_back(want: &Want, job: u8)
    requires right { IsTrue (shares_rightly want.now) }
    requires spelled { IsTrue (spells job want.now.key.scope) }
    ensures { want_of Full job (shown_want want.now) ≡ Ok want.now }
{
    let _copy = want.copied();
    let _group = want.group.copied();
    name_is_read_back(&want.key.name);
}

impl Locks {
    /// What `want` writes can be asked for again, and is the same want. A name that a job has for itself is asked for
    /// by that job.
    pub fn want_can_be_asked_for(&self, i: usize, k: usize, job: u8)
        requires spelled { IfSome (want_in (slice_get (requests_of self.now) i) k) (λ w. IsTrue (spells job w.key.scope)) }
        ensures { IfSome (want_in (slice_get (requests_of self.now) i) k) (λ w. want_of Full job (shown_want w) ≡ Ok w) }
    {
        if i >= self.table.len() {
            return;
        }
        let request = self.table.request(i);
        if k >= request.wants.len() {
            return;
        }
        want_is_read_back(&request.wants[k], job);
    }
}
