//! Ports over hosts: std's readers and writers, or any other.
ghost use Rattle.std.specs.Prelude.{◌≡◌, ◌^◌, ◌<◌, ◌↔◌, IsTrue, IsErr, false, length};
ghost use Rattle.std.specs.Io.{ReadsAtMost, WritesAtMost};
ghost use Rattle.std.specs.Io.KnownBytes.{ReadConsumes, WriteAppends};
ghost use Rattle.script_io.specs.Hosts.{AsksForBytes, AsksToTake, ReadsAgain, WritesAgain};
ghost use Rattle.script_io.specs.Ports.{Reads, Writes};

use crate::host_fault::HostFault;
use crate::hosts::{ReadOnce, StdReader, StdWriter, WriteOnce};
use crate::ports::{ByteIn, ByteOut, Failed};
use std::io::{Read, Write};

/// The most calls of a reader, and the most of a writer for each write.
const MOST_TRIES: u64 = 1 << 63;

/// Whether a call was interrupted, so that it is to be made again.
fn is_interrupted(answer: &Result<usize, HostFault>) -> bool
    ensures { IsTrue result ↔ (answer.now ≡ Err HostFault.Interrupted) }
{
    matches!(answer, Err(HostFault::Interrupted))
}

/// Reads, and reads again while the host is interrupted and tries are left.
fn read_retrying<H: ReadOnce>(
    host: &mut H,
    tries: &mut u64,
    piece: &mut [u8],
) -> Result<usize, HostFault>
    requires { 0 < tries.old }
    ensures bound { ReadsAtMost result piece.new }
    ensures bytes { ReadConsumes (H.to_come host.old) (H.to_come host.new) result piece.new }
    ensures again { ReadsAgain H.answers host.old host.new tries.old tries.new result piece.new }
{
    'tries: loop {
        *tries -= 1;
        let answer = host.read_once(piece);
        if *tries == 0 || !is_interrupted(&answer) {
            return answer;
        }
    }
}

/// Writes, and writes again while the host is interrupted and tries are left.
fn write_retrying<H: WriteOnce>(host: &mut H, most: u64, piece: &[u8]) -> Result<usize, HostFault>
    requires { 0 < most }
    ensures bound { WritesAtMost result piece.now }
    ensures bytes { WriteAppends (H.written host.old) (H.written host.new) result piece.now }
    ensures again { WritesAgain H.answers host.old host.new most result piece.now }
{
    let mut tries = most;
    'tries: loop {
        tries -= 1;
        let answer = host.write_once(piece);
        if tries == 0 || !is_interrupted(&answer) {
            return answer;
        }
    }
}

/// A reader over a host. A read that was interrupted is made again; any read after the first 2^63 fails.
#[derive(Drop)]
pub struct HostIn<H: Drop> {
    /// The host.
    pub host: H,
    /// How many calls of it are left.
    pub reads_left: u64,
    failed: bool,
}

impl<R: Read + Drop> HostIn<StdReader<R>> {
    /// The bytes of this reader.
    pub fn new(inner: R) -> Self
        ensures bytes { ⟦<HostIn<StdReader<R>> as ByteIn>⟧.to_come result ≡ R.remaining inner }
        ensures few { ⟦<HostIn<StdReader<R>> as ByteIn>⟧.reads_left result ≡ 2 ^ 63 }
        ensures sound { ⟦<HostIn<StdReader<R>> as ByteIn>⟧.has_failed result ≡ false }
    {
        HostIn::over(StdReader { inner })
    }
}

impl<H: ReadOnce + Drop> HostIn<H> {
    /// The bytes of this host.
    pub fn over(host: H) -> Self
        ensures bytes { ⟦<HostIn<H> as ByteIn>⟧.to_come result ≡ H.to_come host }
        ensures few { ⟦<HostIn<H> as ByteIn>⟧.reads_left result ≡ 2 ^ 63 }
        ensures sound { ⟦<HostIn<H> as ByteIn>⟧.has_failed result ≡ false }
        ensures host { result.host ≡ host }
        ensures reads { result.reads_left ≡ 2 ^ 63 }
    {
        HostIn {
            host,
            reads_left: MOST_TRIES,
            failed: false,
        }
    }
}

impl<H: ReadOnce + Drop> ByteIn for HostIn<H> {
    ghost to_come = { λ s. H.to_come s.host };

    ghost reads_left = { λ s. s.reads_left };

    ghost has_failed = { λ s. s.failed };

    fn read(&mut self, piece: &mut [u8]) -> Result<usize, Failed>
        requires room { 0 < length piece.old }
        requires sound { ⟦<HostIn<H> as ByteIn>⟧.has_failed self.old ≡ false }
        ensures reads { Reads (⟦<HostIn<H> as ByteIn>⟧.to_come self.old) (⟦<HostIn<H> as ByteIn>⟧.to_come self.new)
            (⟦<HostIn<H> as ByteIn>⟧.reads_left self.old) (⟦<HostIn<H> as ByteIn>⟧.reads_left self.new)
            (⟦<HostIn<H> as ByteIn>⟧.has_failed self.new) result piece.new }
        ensures asks { 0 < self.old.reads_left → AsksForBytes H.answers self.old.host self.new.host
            self.old.reads_left self.new.reads_left result piece.new }
        ensures spent { self.old.reads_left ≡ 0 → IsErr result × (self.new.host ≡ self.old.host) }
    {
        if self.reads_left > 0 {
            match read_retrying(&mut self.host, &mut self.reads_left, piece) {
                Ok(count) => return Ok(count),
                Err(_) => {}
            }
        }
        self.failed = true;
        Err(Failed)
    }
}

/// A writer over a host. A write that was interrupted is made again; a write that takes no byte is a failure.
#[derive(Drop)]
pub struct HostOut<H: Drop> {
    /// The host.
    pub host: H,
    failed: bool,
}

impl<W: Write + Drop> HostOut<StdWriter<W>> {
    /// A port that writes to this writer.
    pub fn new(inner: W) -> Self
        ensures bytes { ⟦<HostOut<StdWriter<W>> as ByteOut>⟧.written result ≡ W.contents inner }
        ensures sound { ⟦<HostOut<StdWriter<W>> as ByteOut>⟧.has_failed result ≡ false }
    {
        HostOut::over(StdWriter { inner })
    }
}

impl<H: WriteOnce + Drop> HostOut<H> {
    /// A port that writes to this host.
    pub fn over(host: H) -> Self
        ensures bytes { ⟦<HostOut<H> as ByteOut>⟧.written result ≡ H.written host }
        ensures sound { ⟦<HostOut<H> as ByteOut>⟧.has_failed result ≡ false }
        ensures host { result.host ≡ host }
    {
        HostOut {
            host,
            failed: false,
        }
    }
}

impl<H: WriteOnce + Drop> ByteOut for HostOut<H> {
    ghost written = { λ s. H.written s.host };

    ghost has_failed = { λ s. s.failed };

    fn write(&mut self, piece: &[u8]) -> Result<usize, Failed>
        requires some { 0 < length piece.now }
        requires sound { ⟦<HostOut<H> as ByteOut>⟧.has_failed self.old ≡ false }
        ensures writes { Writes (⟦<HostOut<H> as ByteOut>⟧.written self.old) (⟦<HostOut<H> as ByteOut>⟧.written self.new)
            (⟦<HostOut<H> as ByteOut>⟧.has_failed self.new) result piece.now }
        ensures asks { AsksToTake H.answers self.old.host self.new.host (2 ^ 63) result piece.now }
    {
        match write_retrying(&mut self.host, MOST_TRIES, piece) {
            Ok(count) if count > 0 => Ok(count),
            _ => {
                self.failed = true;
                Err(Failed)
            }
        }
    }
}
