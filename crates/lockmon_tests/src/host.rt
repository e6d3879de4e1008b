//! Ports of the host that are interrupted, pass few bytes at once, take none, or fail.

ghost use Rattle.std.specs.Prelude.{◌≤◌, IfOk, length};

use crate::lent_hosts::{LentReader, LentWriter, Plan};
use queue_script::serve_queue;
use script_io::{HostIn, HostOut, ServeError};
use std::io;
use std::io::{ErrorKind, Read, Write};

const SCRIPT: &[u8] = b"ENQ 1 0 1 X\nENQ 2 0 2 X\nSTAT 2 X\nDEQ 1 0 X\n";

const TEXT: &[u8] = b"OK\nWAIT\n140000,,000001 000001,,000001 000000,,000000\nOK\nGRANT 2 2\n";

/// More calls than a test makes.
const MANY: u64 = 1_000_000;

/// A port of the host that passes bytes by threes, is interrupted before each of them, and fails in
/// the end where its field says so.
#[derive(Drop)]
struct Unsteady {
    rest: &'static [u8],
    interrupted: bool,
    failure: Option<ErrorKind>,
}

impl Unsteady {
    fn new(rest: &'static [u8], failure: Option<ErrorKind>) -> Self {
        Unsteady {
            rest,
            interrupted: false,
            failure,
        }
    }

    /// How many bytes the next call passes.
    fn pass(&mut self, most: usize) -> io::Result<usize>
        ensures { IfOk result (λ n. (n ≤ most) × (n ≤ length self.new.rest.now)) }
    {
        self.interrupted = !self.interrupted;
        if self.interrupted {
            return Err(io::Error::from(ErrorKind::Interrupted));
        }
        if self.rest.is_empty() {
            if let Some(kind) = self.failure {
                return Err(io::Error::from(kind));
            }
        }
        Ok(most.min(3).min(self.rest.len()))
    }
}

impl Read for Unsteady {
    fn read(&mut self, piece: &mut [u8]) -> io::Result<usize> {
        let count = self.pass(piece.len())?;
        let (front, rest) = self.rest.split_at(count);
        piece[..count].copy_from_slice(front);
        self.rest = rest;
        Ok(count)
    }
}

impl Write for Unsteady {
    fn write(&mut self, bytes: &[u8]) -> io::Result<usize> {
        let count = self.pass(bytes.len())?;
        self.rest = &self.rest[count..];
        Ok(count)
    }

    fn flush(&mut self) -> io::Result<()> {
        Ok(())
    }
}

#[test]
fn interrupted_reads_are_made_again(rt: HostRuntime) {
    for (failure, answer) in [
        (None, Ok(())),
        (Some(ErrorKind::Other), Err(ServeError::Read)),
    ] {
        let mut room = [0u8; 256];
        let mut reader = HostIn::new(Unsteady::new(SCRIPT, failure));
        let mut writer = HostOut::over(LentWriter::new(&mut room, Plan::new(100, 0, MANY)));
        assert_eq!(rt; serve_queue(rt.alloc(), &mut reader, &mut writer), answer);
        assert_eq!(rt; writer.host.as_slice(), TEXT);
    }
}

#[test]
fn interrupted_writes_are_made_again(rt: HostRuntime) {
    // The writer has room for the whole text, or for a part of it.
    for (room, failure, answer) in [
        (TEXT, None, Ok(())),
        (TEXT, Some(ErrorKind::Other), Ok(())),
        (&TEXT[..20], Some(ErrorKind::Other), Err(ServeError::Write)),
        (&TEXT[..20], None, Err(ServeError::Write)),
    ] {
        let mut reader = HostIn::over(script_by(100, 0, MANY));
        let mut writer = HostOut::new(Unsteady::new(room, failure));
        assert_eq!(rt; serve_queue(rt.alloc(), &mut reader, &mut writer), answer);
    }
}

/// Hosts that pass so many bytes at once, behind so many calls that are interrupted.
const PLANS: [(usize, u64); 3] = [(1, 2), (3, 1), (100, 0)];

/// How many calls pass so many bytes, and report the end or find all passed.
fn calls_for(length: usize, most: usize) -> u64 {
    let most = most.max(1);
    length.div_ceil(most) as u64
}

/// The bytes of the script, by a plan.
fn script_by(most: usize, every: u64, calls: u64) -> LentReader<'static> {
    LentReader {
        rest: SCRIPT,
        plan: Plan::new(most.max(1), every, calls),
    }
}

#[test]
fn hosts_are_asked_until_they_answer(rt: HostRuntime) {
    for (most, every) in PLANS {
        let mut room = [0u8; 256];
        let mut reader = HostIn::over(script_by(most, every, MANY));
        let plan = Plan::new(most, every, MANY);
        let mut writer = HostOut::over(LentWriter::new(&mut room, plan));
        let answer = serve_queue(rt.alloc(), &mut reader, &mut writer);
        assert_eq!(rt; answer, Ok(()));
        assert_eq!(rt; writer.host.as_slice(), TEXT);
        // The last read finds the end.
        let reads = calls_for(SCRIPT.len(), most).saturating_add(1);
        let tries = reads.saturating_mul(every.saturating_add(1));
        assert_eq!(rt; reader.reads_left, (1u64 << 63).saturating_sub(tries));
    }
}
