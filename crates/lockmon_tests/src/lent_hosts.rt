//! Hosts over lent bytes, which are interrupted, pass few bytes at once, and fail at a chosen call.
ghost use Rattle.std.specs.Prelude.{◌≡◌, ◌+◌, ◌<◌, ◌≤◌, ◌++◌, length, take, Some};

use script_io::{HostFault, ReadOnce, WriteOnce};

/// How each call of a host ends.
#[derive(Clone, Copy, Debug)]
pub struct Plan {
    /// How many bytes a call passes at most.
    pub most: usize,
    /// How many calls are interrupted before each that is not.
    pub every: u64,
    /// How many are interrupted before the next that is not.
    pub interruptions: u64,
    /// How many calls pass before the one that fails.
    pub calls_left: u64,
}

impl Plan {
    ghost use Rattle.lockmon_tests.specs.LentHosts.{call_of, plan_after};

    /// Each call passes at most `most` bytes; `every` interrupted calls come before each that passes; after `calls` calls that
    /// pass, one fails.
    pub fn new(most: usize, every: u64, calls: u64) -> Self
        ensures most { result.most ≡ most }
        ensures every { result.every ≡ every }
        ensures interruptions { result.interruptions ≡ every }
        ensures calls { result.calls_left ≡ calls }
    {
        Plan {
            most,
            every,
            interruptions: every,
            calls_left: calls,
        }
    }

    /// How the next call ends: the most bytes that it passes, or a fault.
    fn next(&mut self) -> Result<usize, HostFault>
        ensures answer { result ≡ call_of self.old }
        ensures after { self.new ≡ plan_after self.old }
    {
        if self.interruptions > 0 {
            self.interruptions -= 1;
            return Err(HostFault::Interrupted);
        }
        if self.calls_left == 0 {
            return Err(HostFault::Other);
        }
        self.calls_left -= 1;
        self.interruptions = self.every;
        Ok(self.most)
    }
}

/// The bytes of a slice, given by a plan.
#[derive(Drop)]
pub struct LentReader<'a> {
    /// The bytes to come.
    pub rest: &'a [u8],
    /// How the next calls end.
    pub plan: Plan,
    ghost some: { 0 < plan.most },
}

impl<'a> ReadOnce for LentReader<'a> {
    ghost use Rattle.lockmon_tests.specs.LentHosts.{LentReads};

    ghost to_come = { λ s. Some s.rest.now };

    ghost answers = { LentReads };

    fn read_once(&mut self, piece: &mut [u8]) -> Result<usize, HostFault> {
        let most = self.plan.next()?;
        let n = piece.len().min(most).min(self.rest.len());
        let (front, rest) = self.rest.split_at(n);
        piece[..n].copy_from_slice(front);
        self.rest = rest;
        Ok(n)
    }
}

/// Room for bytes in a slice, taken by a plan.
#[derive(Drop)]
pub struct LentWriter<'a> {
    /// The bytes that were written, and room for more.
    pub room: &'a mut [u8],
    /// How many bytes were written.
    pub len: usize,
    /// How the next calls end.
    pub plan: Plan,
    ghost within: { len ≤ length room.now },
}

impl<'a> LentWriter<'a> {
    /// Nothing is written yet; there is room for as many bytes as the slice has.
    pub fn new(room: &'a mut [u8], plan: Plan) -> Self
        ensures len { result.len ≡ 0 }
        ensures room { length result.room.now ≡ length room.old }
        ensures plan { result.plan ≡ plan }
    {
        LentWriter { room, len: 0, plan }
    }

    /// The bytes that were written.
    pub fn as_slice(&self) -> &[u8]
        ensures { ⟦<LentWriter<'a> as WriteOnce>⟧.written self.now ≡ Some result.now }
    {
        &self.room[..self.len]
    }
}

impl<'a> WriteOnce for LentWriter<'a> {
    ghost use Rattle.lockmon_tests.specs.LentHosts.{LentWrites};

    ghost written = { λ s. Some (take s.len s.room.now) };

    ghost answers = { LentWrites };

    fn write_once(&mut self, piece: &[u8]) -> Result<usize, HostFault> {
        let most = self.plan.next()?;
        let n = piece.len().min(most).min(self.room.len() - self.len);
        put(self.room, self.len, &piece[..n]);
        self.len += n;
        Ok(n)
    }
}

/// Copies the bytes to position `at`.
fn put(room: &mut [u8], at: usize, bytes: &[u8])
    requires { at + length bytes.now ≤ length room.old }
    ensures { take (at + length bytes.now) room.new ≡ take at room.old ++ bytes.now }
{
    for (i, byte) in bytes.iter().enumerate() {
        room[at + i] = *byte;
    }
}
