//! Scripts of lines.
ghost use Rattle.std.specs.Prelude.{◌≡◌, ◌==◌, ◌+◌, ◌-◌, ◌^◌, ◌<◌, ◌≤◌};
ghost use Rattle.std.specs.Prelude.{◌++◌, ℕ, List, [], ◌∷◌, Some, None, false, true, All};
ghost use Rattle.std.specs.Prelude.{IsTrue, ◌↔◌, length, take, drop, is_some, OnOk, IfOk, IfSome, MatchOption};
ghost use Rattle.std.specs.Str.Lines.{lines};
ghost use Rattle.script_io.specs.Lines.{is_no_newline};
ghost use Rattle.script_io.specs.Transcripts.{Transcript, after, closed, unless_ended, unless_ended-same};

use crate::line_forms::without_return;
use crate::sessions::Session;
use arrayvec::ArrayVec;
use memchr::memchr;
use std::alloc::AllocError;

/// The most characters of a line, without the LF and the CR before it.
pub const LINE_LENGTH: usize = 256;

/// A line may have this many bytes with the CR that is dropped.
const LINE_ROOM: usize = LINE_LENGTH + 1;

/// What a script's lines do.
pub trait LineService {
    /// The ways in which scripts of its language end.
    type Ending: Copy;

    /// The rest of the transcript: what is still written, and how the script ends, if so many lines were taken and these lines
    /// are all that follow.
    ghost follow_lines: { Self → ℕ → List (List ℕ) → Transcript Self.Ending };

    /// Takes the line of this number, and appends its output. Returns an ending if the script ends there.
    fn take_line(
        &mut self,
        number: u128,
        line: &[u8],
        out: &mut Vec<u8>,
    ) -> Result<Option<Self::Ending>, AllocError>
        requires { 0 < number }
        ensures { IfOk result (λ ending. (more : List (List ℕ)) →
            after out.old.items (follow_lines self.old (number - 1) (line.now ∷ more))
            ≡ after out.new.items (unless_ended ending (follow_lines self.new number more))) };

    /// Refuses the line of this number, which is too long, whatever it says: appends its output, and returns how the script
    /// ends.
    fn refuse_line(&mut self, number: u128, out: &mut Vec<u8>) -> Result<Self::Ending, AllocError>
        requires { 0 < number }
        ensures { IfOk result (λ ending. (line : List ℕ) (more : List (List ℕ)) → LINE_LENGTH < length line →
            after out.old.items (follow_lines self.old (number - 1) (line ∷ more)) ≡ closed out.new.items ending) };

    /// Ends the input: appends the output, and returns how the script ends.
    fn end_lines(&mut self, number: u128, out: &mut Vec<u8>) -> Result<Self::Ending, AllocError>
        requires { number + 1 < 2 ^ 128 }
        ensures { IfOk result (λ ending. after out.old.items (follow_lines self.old number []) ≡ closed out.new.items ending) };
}

/// The bytes of a line that is not whole yet.
#[derive(Drop)]
struct LineBuffer {
    bytes: ArrayVec<u8, LINE_ROOM>,
    ghost no_newline: { All is_no_newline bytes.items },
}

impl LineBuffer {
    fn new() -> Self
        ensures { result.bytes.items ≡ [] }
    {
        LineBuffer {
            bytes: ArrayVec::new(),
        }
    }

    /// Appends bytes of the line if there is room for them; false if there is not.
    fn extend(&mut self, bytes: &[u8]) -> bool
        requires { All is_no_newline bytes.now }
        ensures room { IsTrue result ↔ (length self.old.bytes.items + length bytes.now ≤ 257) }
        ensures added { result ≡ true → self.new.bytes.items ≡ self.old.bytes.items ++ bytes.now }
        ensures same { result ≡ false → self.new ≡ self.old }
    {
        self.bytes.try_extend_from_slice(bytes).is_ok()
    }

    fn clear(&mut self)
        ensures { self.new.bytes.items ≡ [] }
    {
        self.bytes.clear();
    }
}

/// A script of lines, of which some bytes have been read.
#[derive(Drop)]
pub struct LineSession<S: LineService + Drop> {
    service: S,
    /// How many whole lines have been read.
    number: u128,
    /// The bytes of the next line so far.
    line: LineBuffer,
    ending: Option<S::Ending>,
}

impl<S: LineService + Drop> LineSession<S> {
    /// A script of which nothing has been read.
    pub fn new(service: S) -> Self
        ensures fresh { (bytes : List ℕ)
            → ⟦<LineSession<S> as Session>⟧.follow result bytes ≡ S.follow_lines service 0 (lines bytes) }
        ensures count { ⟦<LineSession<S> as Session>⟧.count result ≡ 0 }
    {
        LineSession {
            service,
            number: 0,
            line: LineBuffer::new(),
            ending: None,
        }
    }

    /// Takes a whole line, no bytes of which were kept.
    fn take_whole(&mut self, line: &[u8], out: &mut Vec<u8>) -> Result<(), AllocError>
        requires room { self.old.number + 1 < 2 ^ 128 }
        requires goes_on { self.old.ending ≡ None }
        requires empty { self.old.line.bytes.items ≡ [] }
        requires no_newline { All is_no_newline line.now }
        ensures number { self.new.number ≡ self.old.number + 1 }
        ensures follows { OnOk result ((more : List ℕ) →
            after out.old.items (⟦<LineSession<S> as Session>⟧.follow self.old (line.now ++ 10 ∷ more))
            ≡ after out.new.items (⟦<LineSession<S> as Session>⟧.follow self.new more)) }
    {
        self.number += 1;
        let line = without_return(line);
        hand_over(&mut self.service, self.number, line, out, &mut self.ending)
    }

    /// Takes the kept line, which is whole.
    fn take_kept(&mut self, out: &mut Vec<u8>) -> Result<(), AllocError>
        requires room { self.old.number + 1 < 2 ^ 128 }
        requires goes_on { self.old.ending ≡ None }
        ensures number { self.new.number ≡ self.old.number + 1 }
        ensures follows { OnOk result ((more : List ℕ) →
            after out.old.items (⟦<LineSession<S> as Session>⟧.follow self.old (10 ∷ more))
            ≡ after out.new.items (⟦<LineSession<S> as Session>⟧.follow self.new more)) }
    {
        self.number += 1;
        let buffer = &self.line;
        let line = without_return(buffer.bytes.as_slice());
        hand_over(&mut self.service, self.number, line, out, &mut self.ending)?;
        self.line.clear();
        Ok(())
    }

    /// Refuses the line, which is too long with the next bytes, whatever follows.
    fn refuse_line(&mut self, out: &mut Vec<u8>) -> Result<(), AllocError>
        requires room { self.old.number + 1 < 2 ^ 128 }
        requires goes_on { self.old.ending ≡ None }
        ensures number { self.new.number ≡ self.old.number + 1 }
        ensures ended { OnOk result (is_some self.new.ending ≡ true) }
        ensures follows { OnOk result ((bytes more : List ℕ) → All is_no_newline bytes
            → 257 < length self.old.line.bytes.items + length bytes →
            after out.old.items (⟦<LineSession<S> as Session>⟧.follow self.old (bytes ++ more))
            ≡ after out.new.items (⟦<LineSession<S> as Session>⟧.follow self.new more)) }
    {
        self.number += 1;
        match self.service.refuse_line(self.number, out) {
            Ok(ending) => self.ending = Some(ending),
            Err(error) => return Err(error),
        }
        Ok(())
    }

    /// Keeps bytes of a line that is not whole, or refuses the line if they are too many.
    fn keep(&mut self, bytes: &[u8], out: &mut Vec<u8>) -> Result<(), AllocError>
        requires room { self.old.number + 1 < 2 ^ 128 }
        requires goes_on { self.old.ending ≡ None }
        requires no_newline { All is_no_newline bytes.now }
        ensures number { self.new.number ≤ self.old.number + 1 }
        ensures same { OnOk result (is_some self.new.ending ≡ false → self.new.number ≡ self.old.number) }
        ensures follows { OnOk result ((more : List ℕ) →
            after out.old.items (⟦<LineSession<S> as Session>⟧.follow self.old (bytes.now ++ more))
            ≡ after out.new.items (⟦<LineSession<S> as Session>⟧.follow self.new more)) }
    {
        if self.line.extend(bytes) {
            return Ok(());
        }
        self.refuse_line(out)
    }

    /// Takes the last bytes of a line.
    fn end_line(&mut self, bytes: &[u8], out: &mut Vec<u8>) -> Result<(), AllocError>
        requires room { self.old.number + 1 < 2 ^ 128 }
        requires goes_on { self.old.ending ≡ None }
        requires no_newline { All is_no_newline bytes.now }
        ensures number { self.new.number ≤ self.old.number + 1 }
        ensures follows { OnOk result ((more : List ℕ) →
            after out.old.items (⟦<LineSession<S> as Session>⟧.follow self.old (bytes.now ++ 10 ∷ more))
            ≡ after out.new.items (⟦<LineSession<S> as Session>⟧.follow self.new more)) }
    {
        if self.line.bytes.is_empty() {
            return self.take_whole(bytes, out);
        }
        self.keep(bytes, out)?;
        if self.ending.is_some() {
            return Ok(());
        }
        self.take_kept(out)
    }
}

impl<S: LineService + Drop> Session for LineSession<S> {
    type Ending = S::Ending;

    ghost follow = { λ s bytes. unless_ended s.ending (S.follow_lines s.service s.number (lines (s.line.bytes.items ++ bytes))) };

    ghost has_ended = { λ s. is_some s.ending };

    ghost count = { λ s. s.number };

    fn has_ended(&self) -> bool {
        self.ending.is_some()
    }

    fn feed(&mut self, bytes: &[u8], out: &mut Vec<u8>) -> Result<usize, AllocError> {
        if self.ending.is_some() {
            return Ok(bytes.len());
        }
        match find_newline(bytes) {
            Some(end) => {
                self.end_line(&bytes[..end], out)?;
                Ok(end + 1)
            }
            None => {
                self.keep(bytes, out)?;
                Ok(bytes.len())
            }
        }
    }

    fn finish(&mut self, out: &mut Vec<u8>) -> Result<S::Ending, AllocError> {
        match self.ending {
            Some(ending) => return Ok(ending),
            None => {}
        }
        if self.line.bytes.is_empty() {
            return self.service.end_lines(self.number, out);
        }
        self.number += 1;
        let buffer = &self.line;
        let line = buffer.bytes.as_slice();
        hand_over(&mut self.service, self.number, line, out, &mut self.ending)?;
        match self.ending {
            None => self.service.end_lines(self.number, out),
            Some(ending) => Ok(ending),
        }
    }

    ghost ends = { λ s a b h. unless_ended-same s.ending _ _ h };
}

/// Hands a service the line of this number, and notes how the script ends if it ends there. The answer is read in this one
/// function, so that it need not pass through memory.
#[inline(never)]
fn hand_over<S: LineService>(
    service: &mut S,
    number: u128,
    line: &[u8],
    out: &mut Vec<u8>,
    ending: &mut Option<S::Ending>,
) -> Result<(), AllocError>
    requires number { 0 < number }
    requires goes_on { ending.old ≡ None }
    ensures { OnOk result ((more : List (List ℕ)) →
        after out.old.items (S.follow_lines service.old (number - 1) (line.now ∷ more))
        ≡ after out.new.items (unless_ended ending.new (S.follow_lines service.new number more))) }
{
    if let Some(told) = service.take_line(number, line, out)? {
        *ending = Some(told);
    }
    Ok(())
}

/// The position of the first LF.
fn find_newline(bytes: &[u8]) -> Option<usize>
    ensures within { IfSome result (λ i. i < length bytes.now) }
    ensures parted { MatchOption result (All is_no_newline bytes.now)
        (λ i. All is_no_newline (take i bytes.now) × (bytes.now ≡ take i bytes.now ++ 10 ∷ drop (i + 1) bytes.now)) }
{
    memchr(b'\n', bytes)
}
