//! Slots of jobs.
ghost use Rattle.std.specs.Prelude.{◌≡◌};
ghost use Rattle.kept_parts.specs.Slots.{flag, job_numbers, same_job, same_slot, slot_digest, slot_pc, stop_number, vector_number, wait_numbers};

use crate::digests::digest;
use job_sched::{Job, Stop, Wait};
use std::hash::{Hash, Hasher};
use word36::{Address, Word};

/// The slot of a job, and the address of its last turn.
#[derive(Clone, Copy)]
pub struct KeptSlot {
    /// The job, without its core, if it is there.
    pub slot: Option<Job>,
    /// The address of its last turn.
    pub last: Address,
}

pub(crate) fn flag(b: bool) -> u32
    ensures { result ≡ flag b }
{
    if b { 1 } else { 0 }
}

/// A number for the reason why a job is stopped, if it is.
fn stop_number(stop: Option<Stop>) -> u32
    ensures { result ≡ stop_number stop }
{
    match stop {
        None => 9,
        Some(stop) => u32::from(stop.code()),
    }
}

/// Three numbers for what a job waits for.
fn wait_numbers(wait: Wait) -> [u32; 3]
    ensures { result ≡ wait_numbers wait }
{
    match wait {
        Wait::None => [0, 0, 0],
        Wait::Sleep(ticks) => [1, ticks, 0],
        Wait::Char => [2, 0, 0],
        Wait::Line => [3, 0, 0],
        Wait::Room(places) => [4, u32::from(places), 0],
        Wait::Queue(limit, ac) => [5, limit, u32::from(ac)],
    }
}

/// A number for the address of a job's vector, if it has one.
fn vector_number(vector: Option<Address>) -> u32
    ensures { result ≡ vector_number vector }
{
    match vector {
        None => 0,
        Some(vector) => vector.number() + 1,
    }
}

/// The numbers of a job, but for its accumulators.
fn job_numbers(job: &Job) -> [u32; 15]
    ensures { result ≡ job_numbers job.now }
{
    let wait = wait_numbers(job.wait);
    [
        u32::from(job.line.number()),
        job.start.number(),
        job.regs.pc.number(),
        flag(job.regs.flags.overflow),
        flag(job.regs.flags.carry0),
        flag(job.regs.flags.carry1),
        flag(job.regs.flags.no_divide),
        stop_number(job.stop),
        wait[0],
        wait[1],
        wait[2],
        vector_number(job.interrupts.vector),
        flag(job.interrupts.on),
        flag(job.interrupts.in_progress),
        u32::from(job.quota),
    ]
}

/// Whether two jobs are the same.
fn is_same_job(a: &Job, b: &Job) -> bool
    ensures { result ≡ same_job a.now b.now }
{
    job_numbers(a) == job_numbers(b) && a.regs.ac == b.regs.ac
}

/// Whether two slots are the same.
fn is_same_slot(a: &Option<Job>, b: &Option<Job>) -> bool
    ensures { result ≡ same_slot a.now b.now }
{
    match (a, b) {
        (Some(a), Some(b)) => is_same_job(a, b),
        (None, None) => true,
        (None, Some(_)) | (Some(_), None) => false,
    }
}

/// A number for what is in a slot, by which it is found.
fn slot_digest(slot: &Option<Job>) -> u64
    ensures { result ≡ slot_digest slot.now }
{
    match slot {
        Some(job) => digest(&job.regs.ac),
        None => 0,
    }
}

/// The address of a job.
fn slot_pc(slot: &Option<Job>) -> u32
    ensures { result ≡ slot_pc slot.now }
{
    match slot {
        Some(job) => job.regs.pc.number(),
        None => 0,
    }
}

impl PartialEq for KeptSlot {
    ghost use Rattle.std.specs.Cmp.{partial_equiv_from_equiv};
    ghost use Rattle.kept_parts.specs.SameSlots.{same_kept, same_kept-equiv};

    ghost eq = { same_kept };

    ghost laws = { partial_equiv_from_equiv same_kept-equiv };

    fn eq(&self, other: &KeptSlot) -> bool {
        self.last.number() == other.last.number() && is_same_slot(&self.slot, &other.slot)
    }
}

impl Eq for KeptSlot {
    ghost use Rattle.kept_parts.specs.SameSlots.{same_kept-equiv};

    ghost laws = { same_kept-equiv };
}

impl Hash for KeptSlot {
    ghost use Rattle.kept_parts.specs.SameSlots.{kept_writes, same_kept-fed};

    ghost hash_input = { kept_writes };

    ghost respects_eq = { same_kept-fed };

    fn hash<H: Hasher>(&self, state: &mut H) {
        self.last.number().hash(state);
        slot_pc(&self.slot).hash(state);
        slot_digest(&self.slot).hash(state);
    }
}
