//! Who waits for whom.
ghost use Rattle.std.specs.Prelude.{◌≡◌, ◌<◌, ◌/◌, ◌%◌, ℕ, false, slice_index_or};
ghost use Rattle.lock_queue.specs.Jobs.{is_waiting_job, waits_for};
ghost use Rattle.wait_graph.specs.Pairs.{MarksWaiters, pair_in};

use crate::whole_machine::Machine;
use wait_graph::{JobMarks, NUMBERS, PAIRS, PairTable, pair_table, waiting_jobs};

impl Machine {
    /// Marks the jobs that wait.
    pub fn waiting_jobs(&self) -> JobMarks
        ensures { (j : ℕ) → j < NUMBERS → slice_index_or result j false ≡ is_waiting_job self.now.world.requests j }
    {
        waiting_jobs(self.locks())
    }

    /// The table of who waits for whom, where `waiting` marks the jobs that wait.
    pub fn pair_table(&self, waiting: &JobMarks) -> PairTable
        requires { (j : ℕ) → j < NUMBERS → slice_index_or waiting.now j false ≡ is_waiting_job self.now.world.requests j }
        ensures marked { MarksWaiters waiting.now (pair_in result) }
        ensures pairs { (i : ℕ) → i < PAIRS
            → slice_index_or result i false ≡ waits_for self.now.world.requests (i / NUMBERS) (i % NUMBERS) }
    {
        pair_table(self.locks(), waiting)
    }
}
