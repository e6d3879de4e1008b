//! The world that monitor calls read and change, as one value.
ghost use Rattle.std.specs.Prelude.{◌≡◌, ◌≢◌, [], IsSome};
ghost use Rattle.core_store.specs.Cores.{IsJob, core_of};
ghost use Rattle.job_sched.specs.Tables.{job_at};
ghost use Rattle.uuo_calls.specs.Asked.{asked_of, block_of, reply_to};
ghost use Rattle.uuo_calls.specs.Performed.{Performed, performed, without_job};

use crate::asked::{Asked, BlockRoom, asked_in};
use crate::call::{CallEnd, MonitorCall};
use crate::calls::{perform, remove_job};
use crate::room::CallRoom;
use core_store::CoreStore;
use job_sched::{JobTable, TimeOfDay};
use lock_queue::LockTable;
use std::marker::Model;
use tty_lines::Lines;
use word36::{DATA_WORDS, Word};

/// What monitor calls read and change: the jobs, their terminal lines, their requests for locks, their core,
/// and the words that they share.
#[derive(Drop)]
pub struct World<L: LockTable, C: CoreStore> {
    /// The jobs, which of them is current, and what is left of its quantum.
    pub table: JobTable,
    /// The characters that are typed and put out at each line.
    pub lines: Lines,
    /// The lock table, with the requests of all jobs.
    pub locks: L,
    /// The core of each job.
    pub cores: C,
    /// The words that all jobs share.
    pub shared: [Word; DATA_WORDS],
    /// Room for the locks of a call.
    pub room: CallRoom,
}

impl<L: LockTable, C: CoreStore> Model for World<L, C> {
    ghost use Rattle.uuo_calls.specs.Performed.{World};

    ghost Value = { World };

    ghost view = { λ w. record {
      size = L.REQS;
      table = w.table;
      lines = w.lines;
      requests = L.requests w.locks;
      cores = C.meaning w.cores;
      shared = w.shared;
    } };
}

impl<L: LockTable, C: CoreStore> World<L, C> {
    /// What a job asks of the lock queue by a call that it is about to make, if it is a lock call. The block that
    /// it reads, or the block's first refusal, is left in `room`.
    pub fn asked(&mut self, number: u8, call: MonitorCall, room: &mut BlockRoom) -> Option<Asked>
        requires { IsJob number }
        ensures asked { result ≡ asked_of self.old number call }
        ensures block { room.new ≡ block_of self.old number call }
        ensures same { self.new ≡ self.old }
    {
        asked_in(number, call, &self.table, &mut self.cores, room)
    }

    /// Performs a monitor call of a job, as the function `perform` does.
    #[inline(always)]
    pub fn perform(&mut self, number: u8, call: MonitorCall, time: TimeOfDay) -> CallEnd
        requires number { IsJob number }
        requires there { IsSome (job_at self.old.table.jobs number) }
        requires core { core_of self.old.cores number ≢ [] }
        ensures performed { record { world = self.new; outcome = result.outcome } ≡ performed self.old time number call }
        ensures reply { result.reply ≡ reply_to self.old number call }
    {
        perform(
            number,
            call,
            &mut self.table,
            &mut self.lines,
            &mut self.locks,
            &mut self.cores,
            &mut self.shared,
            &mut self.room,
            time,
        )
    }

    /// Takes a job away, as LOGOUT does.
    #[inline(always)]
    pub fn remove_job(&mut self, number: u8)
        requires { IsJob number }
        ensures { self.new ≡ without_job self.old number }
    {
        remove_job(number, &mut self.table, &mut self.locks, &mut self.cores);
    }
}
