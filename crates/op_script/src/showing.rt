//! SHOW, EXAMINE and DATA: commands that show the machine.
ghost use Rattle.std.specs.Prelude.{◌≡◌, ◌++◌, IfOk, OnOk, slice_index};
ghost use Rattle.queue_script.specs.QueueScripts.{show_text};
ghost use Rattle.queue_script.specs.WaitPairs.{waits_text};
ghost use Rattle.machine.specs.Views.{job_view};
ghost use Rattle.op_script.specs.Printing.{job_line, word_line};
ghost use Rattle.op_script.specs.RunScripts.{jobs_text, examined_text};
ghost use Rattle.op_script.specs.Undone.{going_on, unexamined};

use crate::line_ends::{LineEnd, Undone};
use crate::printing::{push_address, push_job, push_refused, push_word_line};
use core_store::CoreStore;
use lock_queue::LockTable;
use monitor::{RefusedEvent, System};
use queue_script::{push_requests, push_waits};
use std::alloc::AllocError;
use word36::{JOBS, Word};

/// Adds the line of a job, if it is there.
fn push_job_of<L: LockTable, C: CoreStore>(
    out: &mut Vec<u8>,
    machine: &System<L, C>,
    n: u8,
) -> Result<(), AllocError>
    ensures { OnOk result (out.new.items ≡ out.old.items ++ job_line n (job_view machine.now.world n)) }
{
    match machine.job(n) {
        Some(job) => push_job(out, n, &job),
        None => Ok(()),
    }
}

/// Adds the lines of all jobs.
#[tactic(auto, using(std::proofs::Common::append_assoc))]
pub fn push_jobs<L: LockTable, C: CoreStore>(
    out: &mut Vec<u8>,
    machine: &System<L, C>,
) -> Result<(), AllocError>
    ensures { OnOk result (out.new.items ≡ out.old.items ++ jobs_text machine.now) }
{
    for n in 1..JOBS + 1 {
        push_job_of(out, machine, n)?;
    }
    out.extend_from_slice(b"END\n")?;
    Ok(())
}

/// Adds the requests.
pub fn push_locks<L: LockTable, C: CoreStore>(
    out: &mut Vec<u8>,
    machine: &System<L, C>,
) -> Result<(), AllocError>
    ensures { OnOk result (out.new.items ≡ out.old.items ++ show_text machine.now.world.requests) }
{
    push_requests(out, machine.locks())
}

/// Adds who waits for whom.
pub fn push_waiting<L: LockTable, C: CoreStore>(
    out: &mut Vec<u8>,
    machine: &System<L, C>,
) -> Result<(), AllocError>
    ensures { OnOk result (out.new.items ≡ out.old.items ++ waits_text machine.now.world.requests) }
{
    push_waits(out, machine.locks())
}

/// Adds the word at an address of a job.
pub fn push_examined<L: LockTable, C: CoreStore>(
    out: &mut Vec<u8>,
    machine: &System<L, C>,
    job: u8,
    address: u32,
) -> Result<LineEnd, AllocError>
    ensures text { OnOk result (out.new.items ≡ out.old.items ++ examined_text machine.now job address) }
    ensures end { IfOk result (λ end. end ≡ going_on (unexamined machine.now job address)) }
{
    if machine.job(job).is_none() {
        push_refused(out, RefusedEvent::NoSuchJob)?;
        return Ok(LineEnd::behind(Some(RefusedEvent::NoSuchJob)));
    }
    let word = machine.peek(job, address);
    push_address(out, address, word)?;
    let undone = if word.is_some() {
        None
    } else {
        Some(Undone::NoWord)
    };
    Ok(LineEnd {
        ending: None,
        undone,
    })
}

/// Adds a word that all jobs share.
pub fn push_data_word<L: LockTable, C: CoreStore>(
    out: &mut Vec<u8>,
    machine: &System<L, C>,
    i: u16,
) -> Result<(), AllocError>
    ensures { OnOk result (out.new.items ≡ out.old.items ++ word_line (slice_index machine.now.world.shared i)) }
{
    let word = machine.data_word(usize::from(i)).unwrap_or(Word::new(0));
    push_word_line(out, word)
}
