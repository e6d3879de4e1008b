//! Tables with an entry for each two jobs.
ghost use Rattle.std.specs.Prelude.{◌≡◌, ◌<◌, ◌≤◌, ◌+◌, ◌*◌, ◌/◌, ◌%◌, ℕ, false, length, slice_index_or};
ghost use Rattle.lock_queue.specs.Jobs.{is_waiting_job, waits_for};
ghost use Rattle.lock_queue.specs.Waits.{waits_hard_for};
ghost use Rattle.wait_graph.specs.Pairs.{MarksWaiters, Tells, pair_in};

use crate::in_the_way::waits_hard_for;
use lock_queue::{LockTable, Request};
use word36::JOBS;

/// One more than the largest job's number.
pub const NUMBERS: usize = JOBS as usize + 1;

/// The number of entries of a table of pairs.
pub const PAIRS: usize = NUMBERS * NUMBERS;

/// Something of each two jobs, such as whether one waits for the other: entry `NUMBERS * j + k` says it
/// of the jobs j and k.
pub type PairTable = [bool; PAIRS];

/// A mark for each job's number, such as whether the job waits.
pub type JobMarks = [bool; NUMBERS];

/// Which jobs wait.
pub fn waiting_jobs<L: LockTable>(table: &L) -> JobMarks
    ensures { (j : ℕ) → j < NUMBERS → slice_index_or result j false ≡ is_waiting_job (L.requests table.now) j }
{
    let mut waiting = [false; NUMBERS];
    for job in 0..NUMBERS {
        waiting[job] = table.is_waiting(job as u8);
    }
    waiting
}

/// Fills in the row of a job: for which jobs it waits.
fn fill_row<L: LockTable>(pairs: &mut PairTable, table: &L, job: usize)
    requires { job < NUMBERS }
    ensures size { length pairs.new ≡ PAIRS }
    ensures own { (k : ℕ) → k < NUMBERS → slice_index_or pairs.new (NUMBERS * job + k) false ≡ waits_for (L.requests table.now) job k }
    ensures before { (i : ℕ) → i < NUMBERS * job → slice_index_or pairs.new i false ≡ slice_index_or pairs.old i false }
    ensures behind { (i : ℕ) → NUMBERS * job + NUMBERS ≤ i → slice_index_or pairs.new i false ≡ slice_index_or pairs.old i false }
{
    for other in 0..NUMBERS {
        pairs[NUMBERS * job + other] = table.waits_for(job as u8, other as u8);
    }
}

/// Fills in an empty table of who waits for whom. `waiting` has the jobs that wait; the lock table is
/// asked about no other job.
#[inline(always)]
pub fn fill_pairs<L: LockTable>(pairs: &mut PairTable, table: &L, waiting: &JobMarks)
    requires empty { (i : ℕ) → slice_index_or pairs.old i false ≡ false }
    requires waiting { (j : ℕ) → j < NUMBERS → slice_index_or waiting.now j false ≡ is_waiting_job (L.requests table.now) j }
    ensures marked { MarksWaiters waiting.now (pair_in pairs.new) }
    ensures pairs { (i : ℕ) → i < PAIRS → slice_index_or pairs.new i false ≡ waits_for (L.requests table.now) (i / NUMBERS) (i % NUMBERS) }
{
    for job in 0..NUMBERS {
        if waiting[job] {
            fill_row(pairs, table, job);
        }
    }
}

/// The table of who waits for whom. `waiting` has the jobs that wait; the lock table is asked about no
/// other job.
pub fn pair_table<L: LockTable>(table: &L, waiting: &JobMarks) -> PairTable
    requires { (j : ℕ) → j < NUMBERS → slice_index_or waiting.now j false ≡ is_waiting_job (L.requests table.now) j }
    ensures marked { MarksWaiters waiting.now (pair_in result) }
    ensures pairs { (i : ℕ) → i < PAIRS → slice_index_or result i false ≡ waits_for (L.requests table.now) (i / NUMBERS) (i % NUMBERS) }
{
    let mut pairs = [false; PAIRS];
    fill_pairs(&mut pairs, table, waiting);
    pairs
}

/// The table of who waits for an owner.
pub fn hard_table(requests: &[Request]) -> PairTable
    ensures { Tells result (waits_hard_for requests.now) }
{
    let mut pairs = [false; PAIRS];
    for i in 0..PAIRS {
        pairs[i] = waits_hard_for(requests, (i / NUMBERS) as u8, (i % NUMBERS) as u8);
    }
    pairs
}
