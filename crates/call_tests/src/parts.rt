//! What is done with the single parts of a machine, and what is seen of them.

use crate::locks::{BLOCK, DEQ, ENQ, ENQC};
use crate::machine::{Machine, SKIPPED};
use crate::rows::Lock;
use core_store::CoreStore;
use job_sched::{TICKS_A_DAY, TimeOfDay};
use lock_queue::LockTable;
use tty_lines::{Char7, LineNumber};
use word36::{JOBS, LINES};

/// The calls of locks.
static LOCK_CALLS: [u32; 3] = [ENQ, DEQ, ENQC];

impl Machine {
    /// Lets so many ticks of the day have gone by.
    pub fn set_day(&mut self, ticks: u32) {
        if ticks < TICKS_A_DAY {
            self.time = TimeOfDay::new(ticks);
        }
    }

    /// How many blocks a job has.
    pub fn blocks(&self, n: u8) -> u32 {
        if n == 0 || n > JOBS {
            return 0;
        }
        self.cores.blocks(n)
    }

    /// Stores a block of at most 16 locks in a job's core.
    pub fn put_block(&mut self, n: u8, at: usize, id: u64, locks: &[Lock]) {
        if at > 0o2000 || locks.len() > 16 {
            return;
        }
        let count = locks.len() as u64;
        self.store(n, at, &[count * 0o1_000003 + 2, id]);
        for (i, lock) in locks.iter().enumerate() {
            if i < 16 {
                self.store(n, at + 2 + 3 * i, lock);
            }
        }
    }

    /// Makes an ENQ. 1 of job 1, by a block of one lock at 300 octal with the id 1; the PC and AC 1.
    pub fn ask_for(&mut self, lock: Lock) -> (u32, u64) {
        self.put_block(1, BLOCK, 1, &[lock]);
        self.ask(1, ENQ, 0o1_000300)
    }

    /// Makes such an ENQ. 1 of this user code, which bypasses the order of levels; the PC and AC 1.
    pub fn ask_bypassing(&mut self, code: u64) -> (u32, u64) {
        self.ask_for([0o200000_777777, 0o500000_000000 | code, 0])
    }

    /// Makes such ENQ. 1 of the user codes below a number. Whether each is granted, and adds one request.
    pub fn fills(&mut self, count: usize) -> bool {
        for i in 0..count {
            if self.ask_bypassing(i as u64) != (SKIPPED, 0o1_000300) || self.requests() != i + 1 {
                return false;
            }
        }
        true
    }

    /// Whether ENQ., DEQ. and ENQC. of job 1 with this word in AC 1 each leave this PC and AC 1.
    pub fn lock_calls(&mut self, word: u64, answer: (u32, u64)) -> bool {
        for call in &LOCK_CALLS {
            if self.ask(1, *call, word) != answer {
                return false;
            }
        }
        true
    }

    /// Types characters A at line 0, one by one. Whether job 1 is ready behind the last of so many, and behind none
    /// before.
    pub fn is_ready_behind(&mut self, count: u32) -> bool {
        for i in 1..=count {
            self.type_in(b"A");
            if self.is_ready(1) != (i == count) {
                return false;
            }
        }
        true
    }

    /// How many requests there are.
    pub fn requests(&self) -> usize {
        self.locks.len()
    }

    /// Whether the request of this position in the order of arrival is there and granted.
    pub fn is_granted(&self, i: usize) -> bool {
        i < self.locks.len() && self.locks.granted(i)
    }

    /// The id of the grant that a job is yet to be notified of.
    pub fn pending(&self, n: u8) -> Option<u32> {
        let id = self.locks.pending(n)?;
        Some(id.number())
    }

    /// Overflow and No Divide of a job.
    pub fn two_flags(&self, n: u8) -> (bool, bool) {
        let flags = self.flags(n);
        (flags.overflow, flags.no_divide)
    }

    /// Whether the interrupts of a job are on, if it has a vector.
    pub fn switch(&self, n: u8) -> Option<bool> {
        let interrupts = self.interrupts(n);
        match interrupts.vector {
            Some(_) => Some(interrupts.on),
            None => None,
        }
    }

    /// Steps of the scheduler, each followed by a tick: whether these jobs run, 0 for none.
    pub fn turns(&mut self, quantum: u8, jobs: &[u8]) -> bool {
        for job in jobs {
            if self.step(quantum) != *job {
                return false;
            }
            self.tick();
        }
        true
    }

    /// Types CTRL-C at a line.
    pub fn break_at(&mut self, line: u8) {
        if line < LINES {
            self.table.break_at(LineNumber::new(line));
        }
    }

    /// Types a text at line 0.
    pub fn type_in(&mut self, text: &[u8]) {
        for c in text {
            let _ = self.lines.typed(0, Char7::low_bits(u64::from(*c)));
        }
    }

    /// Puts so many characters X in the output of line 0, each by itself.
    pub fn put_out(&mut self, count: u32) {
        for _ in 0..count {
            let _ = self.lines.put(LineNumber::new(0), &[Char7::new(b'X')]);
        }
    }

    /// Clears the input of line 0.
    pub fn clear_input(&mut self) {
        self.lines.clear_input(LineNumber::new(0));
    }

    /// Clears the output of line 0.
    pub fn clear_output(&mut self) {
        self.lines.clear_output(LineNumber::new(0));
    }

    /// How many characters more the output of line 0 can hold.
    pub fn room(&self) -> usize {
        self.lines.room(LineNumber::new(0))
    }

    /// Whether the next characters that line 0 puts out, at most so many, are these.
    pub fn takes(&mut self, most: usize, text: &[u8]) -> bool {
        let Ok(taken) = self.lines.taken(0, most) else {
            return false;
        };
        let taken = taken.as_slice();
        taken.len() == text.len() && taken.iter().zip(text).all(|(c, b)| c.number() == *b)
    }
}
