//! ENQC. 0, and the refusal of what is no function of ENQC.

ghost use Rattle.std.specs.Prelude.{◌≡◌, ◌<◌, ◌≤◌, ◌+◌, ◌*◌, ◌%◌, ◌^◌, length, Ok, Err, OnOk};
ghost use Rattle.core_store.specs.Cores.{IsJob, core_of, with_core};
ghost use Rattle.arrayvec.specs.ArrayVec.{array_vec_len};
ghost use Rattle.word36.specs.declared.sizes.TheConstants.{LOCKS_A_CALL};
ghost use Rattle.word36.specs.Words.{right_half};
ghost use Rattle.uuo_calls.specs.Asked.{status_reply};
ghost use Rattle.uuo_calls.specs.CallState.{ac_of};
ghost use Rattle.call_block.specs.Blocks.{wants_read_as};
ghost use Rattle.uuo_calls.specs.StatusRow.{answers_at, Memory, stored, status_words, enqc_asks, with_room, stored_or_refused, status_told};

use crate::blocks::block_kept;
use crate::returns::{refused, skip};
use crate::room::CallRoom;
use core_store::CoreStore;
use job_sched::Job;
use ka_state::{Accumulator, CoreWords, JobMemory, Regs, are_legal_kept, store};
use lock_queue::{BlockUse, LockReply, LockTable, Refusal, Want, Wants};
use word36::{Address, Word};

/// How many words the status of one lock has.
const STATUS_WORDS: u32 = 3;

/// Stores three words, one after the other.
fn store_three<M: JobMemory>(regs: &mut Regs, memory: &mut M, to: u32, words: [Word; 3])
    requires { to < 2 ^ 20 }
    ensures stored { record { regs = regs.new; core = M.words memory.new }
        ≡ stored (record { regs = regs.old; core = M.words memory.old }) to words }
    ensures place { M.place memory.new ≡ M.place memory.old }
{
    store(regs, memory, to, words[0]);
    store(regs, memory, to + 1, words[1]);
    store(regs, memory, to + 2, words[2]);
}

/// Stores the status of each key, as the job sees it.
fn store_status<L: LockTable, M: JobMemory>(
    number: u8,
    regs: &mut Regs,
    memory: &mut M,
    to: u32,
    wants: &[Want],
    locks: &L,
)
    requires to { to < 2 ^ 18 }
    requires few { length wants.now ≤ LOCKS_A_CALL }
    ensures stored { record { regs = regs.new; core = M.words memory.new }
        ≡ stored (record { regs = regs.old; core = M.words memory.old }) to
        (status_words (L.requests locks.now) number wants.now) }
    ensures place { M.place memory.new ≡ M.place memory.old }
{
    let mut address = to;
    for want in wants {
        let status = locks.status(&want.key, number);
        store_three(regs, memory, address, status.words());
        address += STATUS_WORDS;
    }
}

/// Fills in the wants that ENQC. 0 names, or returns the refusal: also where an address of the answer is not
/// legal.
fn enqc_asks<M: JobMemory>(
    regs: &Regs,
    memory: &mut M,
    number: u8,
    word: Word,
    to: u32,
    wants: &mut Wants,
) -> Result<(), Refusal>
    requires { to < 2 ^ 18 }
    ensures wants { wants_read_as result wants.new
        ≡ with_room (M.words memory.old) to (enqc_asks regs.now.ac (M.words memory.old) number word) }
    ensures few { OnOk result (array_vec_len wants.new ≤ LOCKS_A_CALL) }
    ensures same { memory.new ≡ memory.old }
{
    if word.left() != 0 {
        return Err(Refusal::NoFunction);
    }
    let address = Address::new(word.right());
    block_kept(regs, memory, address, number, BlockUse::Named, wants)?;
    let count = STATUS_WORDS * wants.len() as u32;
    if !are_legal_kept(memory, to, count) {
        return Err(Refusal::BadBlock);
    }
    Ok(())
}

/// Stores the answer, and skips, or refuses the call.
fn store_or_refuse<L: LockTable, M: JobMemory>(
    number: u8,
    job: &mut Job,
    ac: Accumulator,
    memory: &mut M,
    to: u32,
    asks: Result<(), Refusal>,
    wants: &Wants,
    locks: &L,
) -> LockReply
    requires to { to < 2 ^ 18 }
    requires few { OnOk asks (array_vec_len wants.now ≤ LOCKS_A_CALL) }
    ensures reply { result ≡ status_reply (wants_read_as asks wants.now) }
    ensures stored_or_refused { record { job = job.new; core = M.words memory.new }
        ≡ stored_or_refused (L.requests locks.now) number ac to job.old (M.words memory.old) (wants_read_as asks wants.now) }
    ensures place { M.place memory.new ≡ M.place memory.old }
{
    match asks {
        Ok(()) => {
            store_status(number, &mut job.regs, memory, to, wants.as_slice(), locks);
            skip(job);
            LockReply::Done
        }
        Err(refusal) => refused(job, ac, refusal),
    }
}

/// ENQC. 0: stores the status of the locks of a block, three words each, from the address in the right half of
/// AC+1 on. Any other function is refused here.
pub(crate) fn tell_status<L: LockTable, C: CoreStore>(
    number: u8,
    job: &mut Job,
    ac: Accumulator,
    locks: &L,
    cores: &mut C,
    room: &mut CallRoom,
) -> LockReply
    requires number { IsJob number }
    ensures reply { result
        ≡ status_reply (with_room (core_of (C.meaning cores.old) number) (answers_at job.old ac)
        (enqc_asks job.old.regs.ac (core_of (C.meaning cores.old) number) number (ac_of job.old ac))) }
    ensures job { job.new ≡ (status_told (L.requests locks.now) number ac job.old (core_of (C.meaning cores.old) number)).job }
    ensures cores { C.meaning cores.new
        ≡ with_core (C.meaning cores.old) number
        (status_told (L.requests locks.now) number ac job.old (core_of (C.meaning cores.old) number)).core }
{
    let word = job.regs.ac[ac.index()];
    let to = job.regs.ac[ac.next().index()].right();
    let words = cores.window(number);
    let mut window = CoreWords { words };
    let wants = &mut room.enquiring;
    let asks = enqc_asks(&job.regs, &mut window, number, word, to, wants);
    store_or_refuse(number, job, ac, &mut window, to, asks, wants, locks)
}
