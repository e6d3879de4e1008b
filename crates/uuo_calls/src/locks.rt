//! ENQ. and DEQ.

ghost use Rattle.std.specs.Prelude.{◌≡◌, ◌<◌, is_some, IsTrue, OnOk};
ghost use Rattle.core_store.specs.Cores.{IsJob, core_of};
ghost use Rattle.call_block.specs.Blocks.{block_at};
ghost use Rattle.lock_queue.specs.WellFormed.{names_locks, all_share_rightly};
ghost use Rattle.lock_queue.specs.Calls.{outcome_of};
ghost use Rattle.lock_queue.specs.declared.call.LockCall.TheVariants.{DequeueAll, DequeueId};
ghost use Rattle.uuo_calls.specs.LockRows.{filled, limit_read, limit_with, with_block, enq_asks, enq_limit, deq_asks, asked, answered};
ghost use Rattle.uuo_calls.specs.CallState.{ac_of};

use crate::blocks::block_kept;
use crate::returns::{refuse, skip};
use crate::room::{CallRoom, make_changing, make_entering, make_naming};
use core_store::CoreStore;
use job_sched::{Job, Wait};
use ka_state::{Accumulator, CoreWords, JobMemory, Regs};
use lock_queue::{BlockUse, EnqueueKind, LockCall, LockReply, LockTable, Refusal, RequestId};
use word36::{Address, Word};

/// The answer of a lock call.
#[derive(Clone, Copy, Debug)]
struct Answer {
    /// The answer of the lock table, or why the table was not asked.
    reply: LockReply,
    /// How many ticks the job waits at most, where its request is queued, 0 for no limit.
    limit: u32,
}

/// The answer of a call by which the job does not wait.
fn at_once(reply: LockReply) -> Answer
    ensures reply { result.reply ≡ reply }
    ensures limit { result.limit ≡ 0 }
{
    Answer { reply, limit: 0 }
}

/// Which block a lock call reads.
#[derive(Clone, Copy, Debug)]
struct BlockToRead {
    /// What the call does with the locks of the block.
    block_use: BlockUse,
    /// Where the block is.
    address: Address,
    /// The number of the job.
    number: u8,
}

/// Fills in the locks of a call that names some, and the id of a request, from a block, and returns the
/// limit of that request's wait. The locks are filled in where they stand: a call has room for 16, too much
/// to be moved.
#[inline(always)]
fn fill_call<M: JobMemory>(
    call: &mut LockCall,
    block: BlockToRead,
    regs: &Regs,
    memory: &mut M,
) -> Result<u32, Refusal>
    ensures call { filled result call.new
        ≡ with_block call.old (block_at regs.now.ac (M.words memory.old) block.address block.number block.block_use) }
    ensures limit { limit_read result
        ≡ limit_with call.old (block_at regs.now.ac (M.words memory.old) block.address block.number block.block_use) }
    ensures named { OnOk result (IsTrue (names_locks call.new)) }
    ensures unshared { OnOk result (IsTrue (all_share_rightly call.new)) }
    ensures same { memory.new ≡ memory.old }
{
    let BlockToRead {
        block_use,
        address,
        number,
    } = block;
    match call {
        LockCall::Enqueue { asking, wants } => {
            let head = block_kept(regs, memory, address, number, block_use, wants)?;
            asking.id = head.id;
            Ok(head.limit)
        }
        LockCall::Modify(wants) => {
            block_kept(regs, memory, address, number, block_use, wants)?;
            Ok(0)
        }
        LockCall::DequeueNamed(wants) => {
            block_kept(regs, memory, address, number, block_use, wants)?;
            Ok(0)
        }
        LockCall::DequeueAll | LockCall::DequeueId(_) => Ok(0),
    }
}

/// Makes a call with the locks of a block.
#[inline(always)]
fn call_on_block<L: LockTable, M: JobMemory>(
    call: &mut LockCall,
    block: BlockToRead,
    regs: &Regs,
    memory: &mut M,
    locks: &mut L,
) -> Answer
    requires number { IsJob block.number }
    ensures reply { result.reply
        ≡ (asked L.REQS (L.requests locks.old) block.number
        (with_block call.old (block_at regs.now.ac (M.words memory.old) block.address block.number block.block_use))).reply }
    ensures limit { result.limit
        ≡ limit_with call.old (block_at regs.now.ac (M.words memory.old) block.address block.number block.block_use) }
    ensures requests { L.requests locks.new
        ≡ (asked L.REQS (L.requests locks.old) block.number
        (with_block call.old (block_at regs.now.ac (M.words memory.old) block.address block.number block.block_use))).requests }
    ensures same { memory.new ≡ memory.old }
{
    let number = block.number;
    match fill_call(call, block, regs, memory) {
        Ok(limit) => Answer {
            reply: locks.call(number, call),
            limit,
        },
        Err(refusal) => at_once(LockReply::Refused(refusal)),
    }
}

/// What a job's ENQ. says, beside its block.
#[derive(Clone, Copy, Debug)]
struct EnqCall {
    /// The number of the job.
    number: u8,
    /// The call's AC: the function, and the address of the block.
    word: Word,
    /// Whether the job has an interrupt vector.
    armed: bool,
    /// How many requests the job may have.
    quota: u16,
}

/// Makes a call of ENQ. The left half of AC is the function, the right half the block's address. Function 0
/// alone lets the job wait.
fn enqueue<L: LockTable, M: JobMemory>(
    enq: EnqCall,
    regs: &Regs,
    memory: &mut M,
    locks: &mut L,
    room: &mut CallRoom,
) -> Answer
    requires number { IsJob enq.number }
    ensures reply { result.reply
        ≡ (asked L.REQS (L.requests locks.old) enq.number
        (enq_asks regs.now.ac (M.words memory.old) enq.number enq.word enq.armed enq.quota)).reply }
    ensures limit { result.limit ≡ enq_limit regs.now.ac (M.words memory.old) enq.number enq.word }
    ensures requests { L.requests locks.new
        ≡ (asked L.REQS (L.requests locks.old) enq.number
        (enq_asks regs.now.ac (M.words memory.old) enq.number enq.word enq.armed enq.quota)).requests }
    ensures same { memory.new ≡ memory.old }
{
    let EnqCall {
        number,
        word,
        armed,
        quota,
    } = enq;
    let address = Address::new(word.right());
    let kind = match word.left() {
        0 => {
            let call = &mut room.entering;
            make_entering(call, EnqueueKind::Blocking, armed, quota);
            let block = BlockToRead {
                block_use: BlockUse::Blocking,
                address,
                number,
            };
            return call_on_block(call, block, regs, memory, locks);
        }
        1 => EnqueueKind::AtOnce,
        2 => EnqueueKind::Interrupt,
        3 => {
            let call = &mut room.naming;
            make_changing(call);
            let block = BlockToRead {
                block_use: BlockUse::Named,
                address,
                number,
            };
            let answer = call_on_block(call, block, regs, memory, locks);
            return at_once(answer.reply);
        }
        _ => return at_once(LockReply::Refused(Refusal::NoFunction)),
    };
    let call = &mut room.entering;
    make_entering(call, kind, armed, quota);
    let block = BlockToRead {
        block_use: BlockUse::Full,
        address,
        number,
    };
    let answer = call_on_block(call, block, regs, memory, locks);
    at_once(answer.reply)
}

/// Lets a job go on with the answer of its lock call. A job whose request is queued waits; its wait keeps the
/// limit and the AC field of the call, to refuse the call in that AC where the limit ends.
fn go_on_with(job: &mut Job, ac: Accumulator, answer: Answer)
    ensures { job.new ≡ answered job.old ac answer.limit answer.reply }
{
    match answer.reply {
        LockReply::Granted | LockReply::Done => skip(job),
        LockReply::Queued => {
            skip(job);
            job.wait = Wait::Queue(answer.limit, ac.number());
        }
        LockReply::Refused(refusal) => refuse(job, ac, refusal.code()),
    }
}

/// ENQ. with function 0 to 3 in the left half of AC and the address of a block in its right half.
///
/// Codes: 1 not granted at once (functions 1 and 2), 2 another function, 3 to 8 for the block, 9 to 11
/// for what its locks ask for, 12 and 13 for a change, 14 for a full queue, 15 for want of a vector, 16
/// where the job has as many requests as its quota. A job that waits is refused with 17 where its limit
/// ends before the grant. Nothing of the job changes but its PC, its wait, and its AC where it is refused; its
/// core stays the same.
pub(crate) fn enq<L: LockTable, C: CoreStore>(
    number: u8,
    job: &mut Job,
    ac: Accumulator,
    locks: &mut L,
    cores: &mut C,
    room: &mut CallRoom,
) -> LockReply
    requires number { IsJob number }
    ensures reply { result
        ≡ (asked L.REQS (L.requests locks.old) number
        (enq_asks job.old.regs.ac (core_of (C.meaning cores.old) number) number (ac_of job.old ac)
        (is_some job.old.interrupts.vector) job.old.quota)).reply }
    ensures job { job.new
        ≡ answered job.old ac (enq_limit job.old.regs.ac (core_of (C.meaning cores.old) number) number (ac_of job.old ac))
        (asked L.REQS (L.requests locks.old) number
        (enq_asks job.old.regs.ac (core_of (C.meaning cores.old) number) number (ac_of job.old ac)
        (is_some job.old.interrupts.vector) job.old.quota)).reply }
    ensures requests { L.requests locks.new
        ≡ (asked L.REQS (L.requests locks.old) number
        (enq_asks job.old.regs.ac (core_of (C.meaning cores.old) number) number (ac_of job.old ac)
        (is_some job.old.interrupts.vector) job.old.quota)).requests }
    ensures cores { C.meaning cores.new ≡ C.meaning cores.old }
{
    let word = job.regs.ac[ac.index()];
    let armed = job.interrupts.vector.is_some();
    let words = cores.window(number);
    let mut window = CoreWords { words };
    let quota = job.quota;
    let enq = EnqCall {
        number,
        word,
        armed,
        quota,
    };
    let answer = enqueue(enq, &job.regs, &mut window, locks, room);
    go_on_with(job, ac, answer);
    answer.reply
}

/// Gives up all that a job wants or owns, as DEQ. 1 does.
fn give_up_all<L: LockTable>(number: u8, locks: &mut L) -> LockReply
    requires number { IsJob number }
    ensures reply { result ≡ (outcome_of L.REQS (L.requests locks.old) number DequeueAll).reply }
    ensures requests { L.requests locks.new ≡ (outcome_of L.REQS (L.requests locks.old) number DequeueAll).requests }
{
    locks.call(number, &LockCall::DequeueAll)
}

/// Gives up all requests of an id of a job, as DEQ. 2 does.
fn give_up_id<L: LockTable>(id: RequestId, number: u8, locks: &mut L) -> LockReply
    requires number { IsJob number }
    ensures reply { result ≡ (outcome_of L.REQS (L.requests locks.old) number (DequeueId id)).reply }
    ensures requests { L.requests locks.new ≡ (outcome_of L.REQS (L.requests locks.old) number (DequeueId id)).requests }
{
    locks.call(number, &LockCall::DequeueId(id))
}

/// Makes a call of DEQ. The left half of AC is the function, the right half the block's address or an id.
fn dequeue<L: LockTable, M: JobMemory>(
    regs: &Regs,
    memory: &mut M,
    number: u8,
    word: Word,
    locks: &mut L,
    room: &mut CallRoom,
) -> LockReply
    requires number { IsJob number }
    ensures reply { result ≡ (asked L.REQS (L.requests locks.old) number (deq_asks regs.now.ac (M.words memory.old) number word)).reply }
    ensures requests { L.requests locks.new
        ≡ (asked L.REQS (L.requests locks.old) number (deq_asks regs.now.ac (M.words memory.old) number word)).requests }
    ensures same { memory.new ≡ memory.old }
{
    let right = word.right();
    match word.left() {
        0 => {
            let call = &mut room.naming;
            make_naming(call);
            let block = BlockToRead {
                block_use: BlockUse::Named,
                address: Address::new(right),
                number,
            };
            call_on_block(call, block, regs, memory, locks).reply
        }
        1 => give_up_all(number, locks),
        2 => give_up_id(RequestId::new(right), number, locks),
        _ => LockReply::Refused(Refusal::NoFunction),
    }
}

/// DEQ. with function 0 to 2 in the left half of AC, and in its right half the address of a block, or for
/// function 2 an id.
///
/// Codes: 2 another function, 3 to 8 for the block, 12 where the job has no such want or request. Nothing of
/// the job changes but its PC, and its AC where it is refused.
pub(crate) fn deq<L: LockTable, C: CoreStore>(
    number: u8,
    job: &mut Job,
    ac: Accumulator,
    locks: &mut L,
    cores: &mut C,
    room: &mut CallRoom,
) -> LockReply
    requires number { IsJob number }
    ensures reply { result
        ≡ (asked L.REQS (L.requests locks.old) number
        (deq_asks job.old.regs.ac (core_of (C.meaning cores.old) number) number (ac_of job.old ac))).reply }
    ensures job { job.new
        ≡ answered job.old ac 0
        (asked L.REQS (L.requests locks.old) number
        (deq_asks job.old.regs.ac (core_of (C.meaning cores.old) number) number (ac_of job.old ac))).reply }
    ensures requests { L.requests locks.new
        ≡ (asked L.REQS (L.requests locks.old) number
        (deq_asks job.old.regs.ac (core_of (C.meaning cores.old) number) number (ac_of job.old ac))).requests }
    ensures cores { C.meaning cores.new ≡ C.meaning cores.old }
{
    let word = job.regs.ac[ac.index()];
    let words = cores.window(number);
    let mut window = CoreWords { words };
    let reply = dequeue(&job.regs, &mut window, number, word, locks, room);
    go_on_with(job, ac, at_once(reply));
    reply
}
