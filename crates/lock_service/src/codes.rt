//! What a call returns, as a number: 1 to 18 are the codes of the table's refusals.
ghost use Rattle.std.specs.Prelude.{◌≡◌};
ghost use Rattle.lock_service.specs.Effects.{reply_code};

use lock_queue::LockReply;

/// The job owns what it asked for, or the change or release is made. Of a question: no.
pub const OK: u32 = 0;
/// The job waits for its request. Of a question: yes.
pub const WAITS: u32 = 32;
/// The job waits for an earlier request, so the call is not made.
pub const BUSY: u32 = 33;
/// No job has this number: they are numbered from 1 to 63.
pub const BAD_JOB: u32 = 34;
/// The handle has no table. When a table is made: the handle has one already.
pub const NO_TABLE: u32 = 35;
/// There is no memory for a table.
pub const NO_MEMORY: u32 = 36;

/// There is no request, want or grant at this place: the code of `NotPresent`.
pub const NOT_THERE: u32 = 12;

/// A reply as a number.
pub fn reply_code(reply: LockReply) -> u32
    ensures { result ≡ reply_code reply }
{
    match reply {
        LockReply::Granted | LockReply::Done => OK,
        LockReply::Queued => WAITS,
        LockReply::Refused(refusal) => u32::from(refusal.code()),
    }
}
