//! Ports: where a script is read from and its transcript written to.
ghost use Rattle.std.specs.Prelude.{◌≡◌, ◌<◌, ℕ, Bool, false, List, length, Option};
ghost use Rattle.script_io.specs.Ports.{Reads, Writes, WritesAll};

/// A port failed; nothing more is known.
#[derive(Clone, Copy, PartialEq, Eq, Debug, Drop)]
pub struct Failed;

/// A port to read from, in pieces.
pub trait ByteIn {
    /// The bytes to come, where they are known.
    ghost to_come: { Self → Option (List ℕ) };

    /// The most reads that can still return bytes.
    ghost reads_left: { Self → ℕ };

    /// Whether a read has failed.
    ghost has_failed: { Self → Bool };

    /// Reads into a piece, and returns how many bytes it read. 0 for a piece with room is the end of the input.
    fn read(&mut self, piece: &mut [u8]) -> Result<usize, Failed>
        requires room { 0 < length piece.old }
        requires sound { has_failed self.old ≡ false }
        ensures reads { Reads (to_come self.old) (to_come self.new) (reads_left self.old)
            (reads_left self.new) (has_failed self.new) result piece.new };
}

/// A port to write to, in pieces.
pub trait ByteOut {
    /// The bytes that were written, where they are known.
    ghost written: { Self → Option (List ℕ) };

    /// Whether a write has failed.
    ghost has_failed: { Self → Bool };

    /// Writes a beginning of a piece, at least one byte, and returns how many bytes that is.
    fn write(&mut self, piece: &[u8]) -> Result<usize, Failed>
        requires some { 0 < length piece.now }
        requires sound { has_failed self.old ≡ false }
        ensures writes { Writes (written self.old) (written self.new) (has_failed self.new) result piece.now };
}

/// Writes all of the bytes, or a beginning of them if the port fails.
pub fn write_all<W: ByteOut>(writer: &mut W, bytes: &[u8]) -> Result<(), Failed>
    requires { W.has_failed writer.old ≡ false }
    ensures { WritesAll (W.written writer.old) (W.written writer.new) (W.has_failed writer.new) result bytes.now }
{
    let mut at = 0;
    while at < bytes.len() {
        at += writer.write(&bytes[at..])?;
    }
    Ok(())
}
