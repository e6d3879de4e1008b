//! A round of a job, the output of which is taken at once.
ghost use Rattle.std.specs.Prelude.{◌≡◌, ◌≢◌, ◌-◌, ◌++◌, [], IsSome, OnOk, Some, length};
ghost use Rattle.core_store.specs.Cores.{IsJob, core_of};
ghost use Rattle.job_sched.specs.Tables.{job_at};
ghost use Rattle.job_sched.specs.declared.job.Job.{Job as JobView};
ghost use Rattle.job_order_laws.specs.Places.{turn};
ghost use Rattle.word36.specs.declared.sizes.TheConstants.{TAKEN_AT_ONCE};
ghost use Rattle.tty_lines.specs.Rings.{output_of, with_output};
ghost use Rattle.job_order_laws.specs.Turned.{emptied};

use core_store::CoreStore;
use job_sched::TimeOfDay;
use lock_queue::LockTable;
use monitor::run_job;
use std::alloc::AllocError;
use tty_lines::{Char7, LineNumber, Lines};
use uuo_calls::World;
use word36::{OUTPUT_RING, TAKEN_AT_ONCE};

/// Moves the first characters of a line's output to the end of a text.
fn take_some(lines: &mut Lines, line: LineNumber, text: &mut Vec<Char7>) -> Result<(), AllocError>
    ensures text { OnOk result (text.new.items ++ output_of lines.new line ≡ text.old.items ++ output_of lines.old line) }
    ensures lines { OnOk result (with_output lines.new line [] ≡ with_output lines.old line []) }
    ensures fewer { OnOk result (length (output_of lines.new line) ≡ length (output_of lines.old line) - TAKEN_AT_ONCE) }
{
    let Ok(taken) = lines.taken(line.number(), TAKEN_AT_ONCE) else {
        return Ok(());
    };
    text.extend_from_slice(taken.as_slice())?;
    Ok(())
}

/// Moves what is in the output of a line to the end of a text.
fn take_output(lines: &mut Lines, line: LineNumber, text: &mut Vec<Char7>) -> Result<(), AllocError>
    ensures text { OnOk result (text.new.items ≡ text.old.items ++ output_of lines.old line) }
    ensures lines { OnOk result (lines.new ≡ with_output lines.old line []) }
{
    if lines.room(line) == OUTPUT_RING {
        return Ok(());
    }
    for _ in 0..OUTPUT_RING / TAKEN_AT_ONCE {
        take_some(lines, line, text)?;
    }
    Ok(())
}

/// The same of a line of a world.
fn take_off<L: LockTable, C: CoreStore>(
    world: &mut World<L, C>,
    line: LineNumber,
    text: &mut Vec<Char7>,
) -> Result<(), AllocError>
    ensures text { OnOk result (text.new.items ≡ text.old.items ++ output_of world.old.lines line) }
    ensures world { OnOk result (world.new ≡ emptied line world.old) }
{
    take_output(&mut world.lines, line, text)
}

/// Runs a job for one round, at midnight. Its output goes to the end of a text.
pub(crate) fn run_and_take<L: LockTable, C: CoreStore>(
    world: &mut World<L, C>,
    n: u8,
    text: &mut Vec<Char7>,
) -> Result<(), AllocError>
    requires number { IsJob n }
    requires there { IsSome (job_at world.old.table.jobs n) }
    requires core { core_of world.old.cores n ≢ [] }
    ensures world { OnOk result ((j : JobView) → job_at world.old.table.jobs n ≡ Some j → world.new ≡ emptied j.line (turn world.old 0 n)) }
    ensures text { OnOk result ((j : JobView) → job_at world.old.table.jobs n ≡ Some j
        → text.new.items ≡ text.old.items ++ output_of (turn world.old 0 n).lines j.line) }
{
    let Some(job) = world.table.job(n) else {
        return Ok(());
    };
    let line = job.line;
    run_job(world, n, TimeOfDay::new(0));
    take_off(world, line, text)
}
