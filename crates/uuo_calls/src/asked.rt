//! What a lock call asks of the queue, read before it is performed.

ghost use Rattle.std.specs.Prelude.{◌≡◌, None};
ghost use Rattle.job_sched.specs.Tables.{job_at};
ghost use Rattle.core_store.specs.Cores.{IsJob, core_of};
ghost use Rattle.uuo_calls.specs.Asked.{asked_if, asked_in, asked_with, block_if, block_in, block_read, block_use, block_with, lock_service};
ghost use Rattle.uuo_calls.specs.Services.{service_of};

use crate::call::MonitorCall;
use crate::service::{Service, service_of};
use call_block::{Block, BlockHead, fill_block};
use core_store::CoreStore;
use job_sched::{Job, JobTable};
use ka_state::{Accumulator, CoreWords, ReadMemory, Regs};
use lock_queue::{BlockUse, Refusal, Wants};
use std::marker::Model;
use word36::{Address, Word};

/// The lock calls.
#[derive(Clone, Copy)]
pub enum LockService {
    /// ENQ.
    Enq,
    /// DEQ.
    Deq,
    /// ENQC.
    Enqc,
}

/// What a lock call asks, but for the block that it reads.
#[derive(Clone, Copy)]
pub struct Asked {
    /// Which call it is.
    pub service: LockService,
    /// The number of its AC.
    pub ac: u8,
    /// The word in its AC: the function, and what it names.
    pub word: Word,
}

/// Room for the block of one lock call, or for the block's first refusal. A caller lends it, so that what is
/// handed over for each turn of a job has no place for 16 locks.
#[derive(Drop)]
pub struct BlockRoom {
    /// The block's head or its refusal; `None` where no block was read.
    head: Option<Result<BlockHead, Refusal>>,
    /// The wants of the block; they mean nothing without a head.
    wants: Wants,
}

impl Model for BlockRoom {
    ghost use Rattle.uuo_calls.specs.Asked.{ReadBlock, block_held};

    ghost Value = { ReadBlock };

    ghost view = { λ r. block_held r.head r.wants };
}

impl BlockRoom {
    /// Room without a block.
    pub fn new() -> Self
        ensures { result ≡ None }
    {
        BlockRoom {
            head: None,
            wants: Wants::new(),
        }
    }

    /// Leaves no block in the room.
    #[inline(always)]
    pub fn clear(&mut self)
        ensures { self.new ≡ None }
    {
        self.head = None;
    }

    /// Takes the block out, or its refusal, if there is one.
    pub fn take(&mut self) -> Option<Result<Block, Refusal>>
        ensures block { result ≡ self.old }
        ensures empty { self.new ≡ None }
    {
        let wants = std::mem::replace(&mut self.wants, Wants::new());
        match self.head.take() {
            Some(Ok(BlockHead { id, limit })) => Some(Ok(Block { id, limit, wants })),
            Some(Err(refusal)) => Some(Err(refusal)),
            None => None,
        }
    }

    /// Reads the block that a lock call reads, if it reads one.
    #[inline(never)]
    fn read<M: ReadMemory>(
        &mut self,
        regs: &Regs,
        memory: &mut M,
        number: u8,
        word: Word,
        used: Option<BlockUse>,
    )
        ensures block { self.new ≡ block_read regs.now.ac (M.words memory.old) number word used }
        ensures same { memory.new ≡ memory.old }
    {
        self.head = match used {
            Some(used) => Some(fill_block(
                regs,
                memory,
                Address::new(word.right()),
                number,
                used,
                &mut self.wants,
            )),
            None => None,
        };
    }
}

/// Which lock call a call is, if it is one.
fn lock_service(service: Service) -> Option<LockService>
    ensures { result ≡ lock_service service }
{
    match service {
        Service::Enq => Some(LockService::Enq),
        Service::Deq => Some(LockService::Deq),
        Service::Enqc => Some(LockService::Enqc),
        _ => None,
    }
}

/// What the block of a lock call with this function is there for, if the call reads a block.
fn block_use(service: LockService, function: u32) -> Option<BlockUse>
    ensures { result ≡ block_use service function }
{
    match (service, function) {
        (LockService::Enq, 0) => Some(BlockUse::Blocking),
        (LockService::Enq, 1 | 2) => Some(BlockUse::Full),
        (_, 0) | (LockService::Enq, 3) => Some(BlockUse::Named),
        _ => None,
    }
}

/// What a job asks by a lock call with this AC field; its block is left in `room`.
fn asked_with<M: ReadMemory>(
    number: u8,
    ac: Accumulator,
    job: &Job,
    memory: &mut M,
    service: LockService,
    room: &mut BlockRoom,
) -> Asked
    ensures asked { result ≡ asked_with ac job.now service }
    ensures block { room.new ≡ block_with number ac job.now (M.words memory.old) service }
    ensures same { memory.new ≡ memory.old }
{
    let word = job.regs.ac[ac.index()];
    let used = block_use(service, word.left());
    room.read(&job.regs, memory, number, word, used);
    Asked {
        service,
        ac: ac.number(),
        word,
    }
}

/// What a job with this memory asks of the lock queue by a call that it is about to make, if it is a lock call; its
/// block is left in `room`.
pub fn asked_by<M: ReadMemory>(
    number: u8,
    call: MonitorCall,
    job: &Job,
    memory: &mut M,
    room: &mut BlockRoom,
) -> Option<Asked>
    ensures asked { result ≡ asked_if call.ac job.now (lock_service (service_of call.kind call.ac call.e)) }
    ensures block { room.new
        ≡ block_if number call.ac job.now (M.words memory.old) (lock_service (service_of call.kind call.ac call.e)) }
    ensures same { memory.new ≡ memory.old }
{
    let MonitorCall { kind, ac, e } = call;
    match lock_service(service_of(kind, ac, e)) {
        Some(service) => Some(asked_with(number, ac, job, memory, service, room)),
        None => {
            room.clear();
            None
        }
    }
}

/// What a job of a table asks of the lock queue by a call that it is about to make, if it is a lock call; its
/// block is left in `room`.
pub(crate) fn asked_in<C: CoreStore>(
    number: u8,
    call: MonitorCall,
    table: &JobTable,
    cores: &mut C,
    room: &mut BlockRoom,
) -> Option<Asked>
    requires number { IsJob number }
    ensures asked { result ≡ asked_in call (job_at table.now.jobs number) }
    ensures block { room.new ≡ block_in number call (C.meaning cores.old) (job_at table.now.jobs number) }
    ensures cores { C.meaning cores.new ≡ C.meaning cores.old }
{
    match table.job(number) {
        Some(job) => {
            let words = cores.window(number);
            let mut window = CoreWords { words };
            asked_by(number, call, job, &mut window, room)
        }
        None => {
            room.clear();
            None
        }
    }
}
