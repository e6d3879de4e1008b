//! Jobs that go on as long as nobody can notice it.
ghost use Rattle.std.specs.Prelude.{◌≡◌, ◌≤◌, ◌<◌, ◌&&◌, if◌then◌else◌, Some, None, OnOk, IfOk};
ghost use Rattle.core_store.specs.Cores.{IsJob};
ghost use Rattle.word36.specs.declared.sizes.TheConstants.{JOBS};
ghost use Rattle.job_moves.specs.Moves.{IsAwake, alone, is_clear, is_clear_of, next, settled};

use crate::turns::Turns;
use core_store::CoreStore;
use lock_queue::LockTable;
use std::alloc::AllocError;

impl<L: LockTable, C: CoreStore> Turns<L, C> {
    /// Lets a job take its turns up to the next that others can notice, at most `most`.
    fn settle_job(&mut self, n: u8, most: u32) -> Result<(), AllocError>
        requires number { IsJob n }
        requires awake { IsAwake self.old }
        ensures alone { OnOk result (self.new ≡ alone most n self.old) }
        ensures awake { OnOk result (IsAwake self.new) }
    {
        for _ in 0..most {
            if !self.is_quiet(n) {
                return Ok(());
            }
            self.take_turn_at_once(n)?;
        }
        Ok(())
    }

    /// Lets jobs 1 to `count` do so, one after the other.
    pub fn settle(&mut self, count: u8, most: u32) -> Result<(), AllocError>
        requires count { count ≤ JOBS }
        requires awake { IsAwake self.old }
        ensures settled { OnOk result (self.new ≡ settled most count self.old) }
        ensures awake { OnOk result (IsAwake self.new) }
    {
        for k in 0..count {
            self.settle_job(k + 1, most)?;
        }
        Ok(())
    }

    /// Whether something is clear, and a job too.
    fn is_clear_with(&self, clear: bool, n: u8) -> bool
        requires { IsJob n }
        ensures { result ≡ (clear && is_clear_of self.now n) }
    {
        clear && self.is_clear_of(n)
    }

    /// Whether the moves of a settled state can be made: no limit counts for one of jobs 1 to `count`, and the next turn of
    /// each that can take one is noticed and does not ask for the time of day.
    pub fn is_clear(&self, count: u8) -> bool
        requires { count ≤ JOBS }
        ensures { result ≡ is_clear count self.now }
    {
        let mut clear = true;
        for k in 0..count {
            clear = self.is_clear_with(clear, k + 1);
        }
        clear
    }

    /// Makes a move, if it may be made: job k + 1 takes its turn, and jobs 1 to `count` settle. Whether it was made.
    pub fn make_move(&mut self, count: u8, most: u32, k: u8) -> Result<bool, AllocError>
        requires count { count ≤ JOBS }
        requires job { k < count }
        requires awake { IsAwake self.old }
        ensures made { IfOk result (λ made. next most count self.old k ≡ if made then Some self.new else None) }
        ensures awake { OnOk result (IsAwake self.new) }
    {
        if !self.is_clear(count) {
            return Ok(false);
        }
        if !self.can_run(k + 1) {
            return Ok(false);
        }
        self.take_turn_at_once(k + 1)?;
        self.settle(count, most)?;
        Ok(true)
    }
}
