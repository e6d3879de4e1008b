//! Room for the locks of a call.

ghost use Rattle.std.specs.Prelude.{◌≡◌, Result};
ghost use Rattle.lock_queue.specs.declared.refusal.Refusal.{Refusal as RefusalView};
ghost use Rattle.call_block.specs.declared.block.Block.{Block};
ghost use Rattle.uuo_calls.specs.LockRows.{with_block, limit_with, limit_in, entering, changing, naming};

use lock_queue::{Asking, EnqueueKind, LockCall, RequestId, Wants};

/// Room for the locks of a block, which all calls use one after another: for 16 locks, too much to be made
/// anew in each call. What a call leaves in it means nothing to the next one.
#[derive(Drop)]
pub struct CallRoom {
    /// Room of a call that enters a request.
    pub(crate) entering: LockCall,
    /// Room of a call that changes the wants that it names, or gives them up.
    pub(crate) naming: LockCall,
    /// Room of ENQC.
    pub(crate) enquiring: Wants,
}

impl CallRoom {
    /// Empty room.
    pub fn new() -> Self {
        CallRoom {
            entering: LockCall::Enqueue {
                asking: Asking {
                    kind: EnqueueKind::Blocking,
                    id: RequestId::new(0),
                    armed: false,
                    quota: 0,
                },
                wants: Wants::new(),
            },
            naming: LockCall::DequeueNamed(Wants::new()),
            enquiring: Wants::new(),
        }
    }
}

/// Turns a call into one that enters a request. A block gives its locks later: until then it keeps those
/// that it has, if it was such a call already.
#[inline(always)]
pub(crate) fn make_entering(call: &mut LockCall, kind: EnqueueKind, armed: bool, quota: u16)
    ensures call { (block : Result Block RefusalView) → with_block call.new block ≡ entering kind armed quota block }
    ensures limit { (block : Result Block RefusalView) → limit_with call.new block ≡ limit_in block }
{
    match call {
        LockCall::Enqueue { asking, .. } => {
            asking.kind = kind;
            asking.armed = armed;
            asking.quota = quota;
        }
        _ => {
            *call = LockCall::Enqueue {
                asking: Asking {
                    kind,
                    id: RequestId::new(0),
                    armed,
                    quota,
                },
                wants: Wants::new(),
            };
        }
    }
}

/// Turns a call into one that changes wants. A block gives its locks later.
#[inline(always)]
pub(crate) fn make_changing(call: &mut LockCall)
    ensures { (block : Result Block RefusalView) → with_block call.new block ≡ changing block }
{
    if !matches!(call, LockCall::Modify(_)) {
        *call = LockCall::Modify(Wants::new());
    }
}

/// Turns a call into one that gives up wants. A block gives its locks later.
#[inline(always)]
pub(crate) fn make_naming(call: &mut LockCall)
    ensures { (block : Result Block RefusalView) → with_block call.new block ≡ naming block }
{
    if !matches!(call, LockCall::DequeueNamed(_)) {
        *call = LockCall::DequeueNamed(Wants::new());
    }
}
