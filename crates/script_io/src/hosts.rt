//! Hosts: what ports read from and write to, one call at a time.
ghost use Rattle.std.specs.Prelude.{◌≡◌, ◌↔◌, ℕ, List, Option, Result};
ghost use Rattle.std.specs.Io.{ReadsAtMost, WritesAtMost};
ghost use Rattle.std.specs.Io.KnownBytes.{ReadConsumes, WriteAppends};
ghost use Rattle.std.specs.IoError.{error_kind};
ghost use Rattle.script_io.specs.declared.host_fault.HostFault.{HostFault as HostFaultView};

use crate::host_fault::HostFault;
use std::io;
use std::io::{ErrorKind, Read, Write};

/// A host to read from.
pub trait ReadOnce {
    /// The bytes to come, where they are known.
    ghost to_come: { Self → Option (List ℕ) };

    /// Which calls are possible: the host before it, its answer, the piece and the host after it.
    ghost answers: { Self → Result ℕ HostFaultView → List ℕ → Self → Type 0 };

    /// One call: reads into a piece, and returns how many bytes it read.
    fn read_once(&mut self, piece: &mut [u8]) -> Result<usize, HostFault>
        ensures bound { ReadsAtMost result piece.new }
        ensures bytes { ReadConsumes (to_come self.old) (to_come self.new) result piece.new }
        ensures answers { answers self.old result piece.new self.new };
}

/// A host to write to.
pub trait WriteOnce {
    /// The bytes that were written, where they are known.
    ghost written: { Self → Option (List ℕ) };

    /// Which calls are possible: the host before it, the piece, its answer and the host after it.
    ghost answers: { Self → List ℕ → Result ℕ HostFaultView → Self → Type 0 };

    /// One call: writes a beginning of a piece, and returns how many bytes that is.
    fn write_once(&mut self, piece: &[u8]) -> Result<usize, HostFault>
        ensures bound { WritesAtMost result piece.now }
        ensures bytes { WriteAppends (written self.old) (written self.new) result piece.now }
        ensures answers { answers self.old piece.now result self.new };
}

/// What failed of a call, by the kind of its error.
fn fault_of(error: io::Error) -> HostFault
    ensures { (result ≡ HostFault.Interrupted) ↔ (error_kind error ≡ ErrorKind.Interrupted) }
{
    if error.kind() == ErrorKind::Interrupted {
        HostFault::Interrupted
    } else {
        HostFault::Other
    }
}

/// A reader of std as a host. Nothing is said of what it answers.
#[derive(Drop)]
pub struct StdReader<R: Drop> {
    /// The reader.
    pub inner: R,
}

impl<R: Read + Drop> ReadOnce for StdReader<R> {
    ghost to_come = { λ s. R.remaining s.inner };

    ghost answers = { λ _ _ _ _. Unit {0} };

    fn read_once(&mut self, piece: &mut [u8]) -> Result<usize, HostFault> {
        self.inner.read(piece).map_err(fault_of)
    }
}

/// A writer of std as a host. Nothing is said of what it answers.
#[derive(Drop)]
pub struct StdWriter<W: Drop> {
    /// The writer.
    pub inner: W,
}

impl<W: Write + Drop> WriteOnce for StdWriter<W> {
    ghost written = { λ s. W.contents s.inner };

    ghost answers = { λ _ _ _ _. Unit {0} };

    fn write_once(&mut self, piece: &[u8]) -> Result<usize, HostFault> {
        self.inner.write(piece).map_err(fault_of)
    }
}
