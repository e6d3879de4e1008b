//! What WAITS writes: who waits for whom, and the jobs in circles.
ghost use Rattle.std.specs.Prelude.{◌≡◌, ◌++◌, ◌<◌, ◌≤◌, OnOk};
ghost use Rattle.std.specs.List.{flat_map};
ghost use Rattle.lock_queue.specs.Waits.{jobs};
ghost use Rattle.wait_graph.specs.Pairs.{MarksWaiters, pair_in};
ghost use Rattle.queue_script.specs.WaitPairs.{pair_line, waits_text, pairs_text, circle_job, circle_jobs, or_none};

use lock_queue::LockTable;
use script_io::push_decimal;
use std::alloc::AllocError;
use wait_graph::{JobMarks, NUMBERS, PAIRS, PairTable, fill_pairs, leading_to, waiting_jobs};

/// Adds `j FOR k`, where the job j waits for the job k.
#[tactic(auto, using(std::proofs::Common::append_assoc))]
fn push_pair(
    out: &mut Vec<u8>,
    pairs: &PairTable,
    job: usize,
    other: usize,
) -> Result<(), AllocError>
    requires job { job < NUMBERS }
    requires other { other < NUMBERS }
    ensures { OnOk result (out.new.items ≡ out.old.items ++ pair_line (pair_in pairs.now) job other) }
{
    if pairs[NUMBERS * job + other] {
        push_decimal(out, job)?;
        out.extend_from_slice(b" FOR ")?;
        push_decimal(out, other)?;
        out.push(b'\n')?;
    }
    Ok(())
}

/// Adds a line for each job that a job waits for. No pair of a job that does not wait is looked at.
fn push_pairs_of(
    out: &mut Vec<u8>,
    pairs: &PairTable,
    waiting: &JobMarks,
    job: usize,
) -> Result<(), AllocError>
    requires marked { MarksWaiters waiting.now (pair_in pairs.now) }
    requires job { job < NUMBERS }
    ensures { OnOk result (out.new.items ≡ out.old.items ++ flat_map (pair_line (pair_in pairs.now) job) jobs) }
{
    if !waiting[job] {
        return Ok(());
    }
    for other in 1..NUMBERS {
        push_pair(out, pairs, job, other)?;
    }
    Ok(())
}

/// Adds the lines of all pairs.
fn push_pairs(out: &mut Vec<u8>, pairs: &PairTable, waiting: &JobMarks) -> Result<(), AllocError>
    requires { MarksWaiters waiting.now (pair_in pairs.now) }
    ensures { OnOk result (out.new.items ≡ out.old.items ++ pairs_text (pair_in pairs.now)) }
{
    for job in 1..NUMBERS {
        push_pairs_of(out, pairs, waiting, job)?;
    }
    Ok(())
}

/// Adds a job if a walk leads from it back to it. No walk leads from a job that does not wait.
#[tactic(auto, using(std::proofs::Common::append_assoc))]
fn push_circle_job(
    out: &mut Vec<u8>,
    pairs: &PairTable,
    waiting: &JobMarks,
    job: usize,
) -> Result<(), AllocError>
    requires marked { MarksWaiters waiting.now (pair_in pairs.now) }
    requires job { (1 ≤ job) × (job < NUMBERS) }
    ensures { OnOk result (out.new.items ≡ out.old.items ++ circle_job (pair_in pairs.now) job) }
{
    if !waiting[job] {
        return Ok(());
    }
    let leading = leading_to(pairs, waiting, job);
    if leading[job] {
        out.push(b' ')?;
        push_decimal(out, job)?;
    }
    Ok(())
}

/// Adds the jobs from which a walk leads back.
fn push_circle_jobs(
    out: &mut Vec<u8>,
    pairs: &PairTable,
    waiting: &JobMarks,
) -> Result<(), AllocError>
    requires { MarksWaiters waiting.now (pair_in pairs.now) }
    ensures { OnOk result (out.new.items ≡ out.old.items ++ circle_jobs (pair_in pairs.now)) }
{
    for job in 1..NUMBERS {
        push_circle_job(out, pairs, waiting, job)?;
    }
    Ok(())
}

/// Adds the jobs from which a walk leads back, or ` NONE`.
fn push_circle(out: &mut Vec<u8>, pairs: &PairTable, waiting: &JobMarks) -> Result<(), AllocError>
    requires { MarksWaiters waiting.now (pair_in pairs.now) }
    ensures { OnOk result (out.new.items ≡ out.old.items ++ or_none (circle_jobs (pair_in pairs.now))) }
{
    let before = out.len();
    push_circle_jobs(out, pairs, waiting)?;
    if out.len() == before {
        out.extend_from_slice(b" NONE")?;
    }
    Ok(())
}

/// Adds who waits for whom, and the jobs from which a walk leads back. The table is asked once which
/// jobs wait.
#[tactic(auto, using(std::proofs::Common::append_assoc))]
#[inline(never)]
pub fn push_waits<L: LockTable>(out: &mut Vec<u8>, table: &L) -> Result<(), AllocError>
    ensures { OnOk result (out.new.items ≡ out.old.items ++ waits_text (L.requests table.now)) }
{
    let waiting = waiting_jobs(table);
    let mut pairs = [false; PAIRS];
    fill_pairs(&mut pairs, table, &waiting);
    push_pairs(out, &pairs, &waiting)?;
    out.extend_from_slice(b"CIRCLE")?;
    push_circle(out, &pairs, &waiting)?;
    out.push(b'\n')?;
    Ok(())
}
