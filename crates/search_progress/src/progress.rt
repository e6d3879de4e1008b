//! Reports how far a long search is.
ghost use Rattle.std.specs.Prelude.{◌≡◌, ◌||◌, ◌++◌, decimal, false, not};
ghost use Rattle.search_progress.specs.declared.progress.TheConstants.{EACH};
ghost use Rattle.search_progress.specs.Lines.{GetsAll, Tells, is_silent, next_line, progress_line};
ghost use Rattle.script_io.specs.Ports.{WritesAll};

use itoa::Buffer;
use script_io::{ByteOut, Failed, write_all};
use state_search::Watch;

/// After how many more states the next line is written.
const EACH: usize = 50_000;

/// Reports how many states a long search has met, and of how many of them the moves are still to be made.
#[derive(Drop)]
pub struct Progress<W: ByteOut + Drop> {
    inner: W,
    /// The words with which each line begins: the name of the program.
    head: &'static [u8],
    /// Whether nothing is written: it is not wanted, or the port failed.
    is_closed: bool,
    /// The number of states at which the next line is written.
    next: usize,
    ghost sound: { is_closed ≡ false → W.has_failed inner ≡ false },
}

/// Writes some words and then a number.
fn write_number<W: ByteOut>(out: &mut W, words: &[u8], number: usize) -> Result<(), Failed>
    requires { W.has_failed out.old ≡ false }
    ensures { WritesAll (W.written out.old) (W.written out.new) (W.has_failed out.new) result (words.now ++ decimal number) }
{
    write_all(out, words)?;
    let mut buffer = Buffer::new();
    write_all(out, buffer.format(number).as_bytes())
}

/// Writes the line on `met` states that are met, of which `done` are done. It takes no memory, of which a long search may have
/// none left.
fn write_line<W: ByteOut>(out: &mut W, head: &[u8], met: usize, done: usize) -> Result<(), Failed>
    requires { W.has_failed out.old ≡ false }
    ensures { WritesAll (W.written out.old) (W.written out.new) (W.has_failed out.new) result (progress_line head.now met done) }
{
    write_number(out, head, met)?;
    write_number(out, b" states met, ", met.saturating_sub(done))?;
    write_all(out, b" waiting\n")
}

impl<W: ByteOut + Drop> Progress<W> {
    /// Reports to this port, if reports are wanted, in lines that begin with `head`.
    pub fn new(inner: W, head: &'static [u8], is_wanted: bool) -> Self
        requires { W.has_failed inner ≡ false }
        ensures written { W.written result.inner ≡ W.written inner }
        ensures head { result.head.now ≡ head.now }
        ensures closed { result.is_closed ≡ not is_wanted }
        ensures next { result.next ≡ EACH }
    {
        Progress {
            inner,
            head,
            is_closed: !is_wanted,
            next: EACH,
        }
    }

    /// Writes the line, and closes if the port fails.
    fn report(&mut self, met: usize, done: usize)
        requires { self.old.is_closed ≡ false }
        ensures next { self.new.next ≡ self.old.next }
        ensures head { self.new.head ≡ self.old.head }
        ensures written { GetsAll (W.written self.old.inner) (W.written self.new.inner) self.new.is_closed
            (progress_line self.old.head.now met done) }
        ensures closed { self.new.is_closed ≡ W.has_failed self.new.inner }
    {
        let written = write_line(&mut self.inner, self.head, met, done);
        self.is_closed = written.is_err();
    }
}

impl<W: ByteOut + Drop> Watch for Progress<W> {
    ghost Looks = { λ old new met done.
        Tells (is_silent old.is_closed old.next met) (W.written old.inner) (W.written new.inner) new.is_closed
        (progress_line old.head.now met done)
        × (new.head ≡ old.head)
        × (new.next ≡ next_line (is_silent old.is_closed old.next met) old.next met)
        × (new.is_closed ≡ (old.is_closed || W.has_failed new.inner)) };

    fn look(&mut self, met: usize, done: usize) {
        if self.is_closed || met < self.next {
            return;
        }
        self.next = met.saturating_add(EACH);
        self.report(met, done);
    }
}
