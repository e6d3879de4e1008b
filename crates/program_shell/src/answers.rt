//! An output for whole texts.
ghost use Rattle.std.specs.Prelude.{◌≡◌, false, true, IsErr};
ghost use Rattle.script_io.specs.Ports.{WritesAll};

use script_io::{ByteOut, Failed, write_all};

/// An output that takes whole texts, and nothing more once it has failed.
#[derive(Drop)]
pub struct Answers<W: ByteOut + Drop> {
    inner: W,
    is_closed: bool,
    /// Whether the last line that was written is whole, or none was.
    is_line_whole: bool,
    ghost sound: { is_closed ≡ false → W.has_failed inner ≡ false },
}

impl<W: ByteOut + Drop> Answers<W> {
    /// Writes to this port.
    pub fn new(inner: W) -> Self
        requires { W.has_failed inner ≡ false }
    {
        Answers {
            inner,
            is_closed: false,
            is_line_whole: true,
        }
    }

    /// Writes all of these bytes. Fails where the port fails now, or failed before.
    pub fn write(&mut self, bytes: &[u8]) -> Result<(), Failed>
        ensures closed { self.old.is_closed ≡ true → IsErr result × (self.new.inner ≡ self.old.inner) }
        ensures written { self.old.is_closed ≡ false
            → WritesAll (W.written self.old.inner) (W.written self.new.inner) (W.has_failed self.new.inner) result bytes.now }
    {
        if self.is_closed {
            return Err(Failed);
        }
        let written = write_all(&mut self.inner, bytes);
        self.is_closed = written.is_err();
        if let Some(last) = bytes.last() {
            self.is_line_whole = *last == b'\n';
        }
        written
    }

    /// Whether the last line that was written is whole, or none was.
    pub fn is_line_whole(&self) -> bool {
        self.is_line_whole
    }
}
