//! What the next instruction of a job comes to, found without executing it.
ghost use Rattle.std.specs.Prelude.{◌≡◌, Some};
ghost use Rattle.core_store.specs.Cores.{IsJob, core_of};
ghost use Rattle.job_sched.specs.Tables.{job_at};
ghost use Rattle.uuo_calls.specs.Performed.{World};
ghost use Rattle.machine.specs.Next.{asked_next, block_next};

use core_store::CoreStore;
use job_sched::Job;
use ka_cpu::next_call;
use ka_state::ReadMemory;
use std::marker::Model;
use uuo_calls::{Asked, BlockRoom, MonitorCall, asked_by};
use word36::{BLOCK_WORDS, Word};

/// The words of a job's core, read where the store keeps them.
#[derive(Drop)]
pub struct JobWords<'a, C: CoreStore> {
    /// The core of all jobs.
    cores: &'a C,
    /// The number of the job.
    number: u8,
}

impl<'a, C: CoreStore> Model for JobWords<'a, C> {
    ghost use Rattle.std.specs.Prelude.{ℕ, List};
    ghost use Rattle.core_store.specs.Cores.{IsJob, core_of};

    ghost Value = { List ℕ };

    ghost view = { λ s. core_of (C.meaning s.cores.now) s.number };

    ghost invariant = { λ s. IsJob s.number };
}

impl<'a, C: CoreStore> JobWords<'a, C> {
    /// The core of a job.
    pub fn new(cores: &'a C, number: u8) -> Self
        requires { IsJob number }
        ensures { result ≡ core_of (C.meaning cores.now) number }
    {
        JobWords { cores, number }
    }
}

impl<'a, C: CoreStore> ReadMemory for JobWords<'a, C> {
    ghost words = { λ s. s };

    fn size(&self) -> usize {
        self.cores.blocks(self.number) as usize * BLOCK_WORDS
    }

    fn read(&self, a: u32) -> Option<Word> {
        self.cores.read(self.number, a)
    }
}

/// What a job asks of the lock queue by its next instruction, if that is a lock call; the block that it reads is left in
/// `room`.
pub(crate) fn asked_next<C: CoreStore>(
    n: u8,
    job: &Job,
    cores: &C,
    room: &mut BlockRoom,
) -> Option<Asked>
    requires { IsJob n }
    ensures asked { (w : World) → w.cores ≡ C.meaning cores.now → job_at w.table.jobs n ≡ Some job.now → result ≡ asked_next w n }
    ensures block { (w : World) → w.cores ≡ C.meaning cores.now → job_at w.table.jobs n ≡ Some job.now → room.new ≡ block_next w n }
{
    let mut memory = JobWords::new(cores, n);
    match next_call(&job.regs, &memory) {
        Some(found) => {
            let call = MonitorCall {
                kind: found.0,
                ac: found.1,
                e: found.2,
            };
            asked_by(n, call, job, &mut memory, room)
        }
        None => {
            room.clear();
            None
        }
    }
}
