//! A reader that keeps the lines in which a refused one is found.
ghost use Rattle.std.specs.Prelude.{◌≡◌, ◌<◌, ◌++◌, [], false, length, take, IfOk, OnErr};
ghost use Rattle.script_io.specs.Ports.{Reads};
ghost use Rattle.command_line.specs.Keeping.{IsEndOf};

use crate::lines::{Language, Lines};
use script_io::{ByteIn, Failed};
use std::alloc::Global;

/// A reader that keeps the lines that it gave and that may still be at fault.
#[derive(Drop)]
pub struct KeptIn<R: Drop> {
    inner: R,
    /// The lines.
    pub lines: Lines,
}

impl<R: ByteIn + Drop> KeptIn<R> {
    /// The bytes that this reader gives, written in a language.
    pub fn new(alloc: Global, language: Language, inner: R) -> Self
        ensures bytes { ⟦<KeptIn<R> as ByteIn>⟧.to_come result ≡ R.to_come inner }
        ensures few { ⟦<KeptIn<R> as ByteIn>⟧.reads_left result ≡ R.reads_left inner }
        ensures sound { ⟦<KeptIn<R> as ByteIn>⟧.has_failed result ≡ R.has_failed inner }
        ensures nothing { result.lines ≡ [] }
    {
        KeptIn {
            inner,
            lines: Lines::new(alloc, language),
        }
    }
}

impl<R: ByteIn + Drop> ByteIn for KeptIn<R> {
    ghost to_come = { λ s. R.to_come s.inner };

    ghost reads_left = { λ s. R.reads_left s.inner };

    ghost has_failed = { λ s. R.has_failed s.inner };

    fn read(&mut self, piece: &mut [u8]) -> Result<usize, Failed>
        requires room { 0 < length piece.old }
        requires sound { ⟦<KeptIn<R> as ByteIn>⟧.has_failed self.old ≡ false }
        ensures reads { Reads (⟦<KeptIn<R> as ByteIn>⟧.to_come self.old) (⟦<KeptIn<R> as ByteIn>⟧.to_come self.new)
            (⟦<KeptIn<R> as ByteIn>⟧.reads_left self.old) (⟦<KeptIn<R> as ByteIn>⟧.reads_left self.new)
            (⟦<KeptIn<R> as ByteIn>⟧.has_failed self.new) result piece.new }
        ensures kept { IfOk result (λ n. IsEndOf (self.old.lines ++ take n piece.new) self.new.lines) }
        ensures same { OnErr result (self.new.lines ≡ self.old.lines) }
    {
        let count = self.inner.read(piece)?;
        self.lines.push(&piece[..count]);
        Ok(count)
    }
}
