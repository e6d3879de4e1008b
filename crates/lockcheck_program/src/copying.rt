//! Copies of calls. A call that was read stands in room that the next line is read into.
ghost use Rattle.std.specs.Prelude.{◌≡◌};

use lock_queue::{LockCall, Wants};

fn copied_wants(wants: &Wants) -> Wants
    ensures { result ≡ wants.now }
{
    let mut copy = Wants::new();
    for want in wants.as_slice() {
        copy.push(*want);
    }
    copy
}

/// A copy of a call.
pub fn copied_call(call: &LockCall) -> LockCall
    ensures { result ≡ call.now }
{
    match call {
        LockCall::Enqueue { asking, wants } => LockCall::Enqueue {
            asking: *asking,
            wants: copied_wants(wants),
        },
        LockCall::Modify(wants) => LockCall::Modify(copied_wants(wants)),
        LockCall::DequeueNamed(wants) => LockCall::DequeueNamed(copied_wants(wants)),
        LockCall::DequeueAll => LockCall::DequeueAll,
        LockCall::DequeueId(id) => LockCall::DequeueId(*id),
    }
}
