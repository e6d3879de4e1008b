//! All terminal lines.

ghost use Rattle.std.specs.Prelude.{◌≡◌, ◌≤◌, ◌<◌, ◌+◌, ◌-◌, ◌++◌, ◌∷◌, [], length, drop, min, nat_lt, slice_get, IfOk, OnOk, OnErr};
ghost use Rattle.tty_lines.specs.Rings.{IsLines, all_clear, input_of, output_of, with_input};
ghost use Rattle.tty_lines.specs.Rings.{with_output, room_of, holds_line, typing, putting, taking};

use crate::line::Line;
use crate::{Char7, LineError, LineNumber, TakenText};
use std::alloc::{AllocError, Global};
use std::marker::Model;
use word36::{INPUT_RING, LINES, OUTPUT_RING, TAKEN_AT_ONCE};

/// The terminal lines 0 to 63, each with the characters that were typed at it and not yet read, at
/// most 128, and those that were put out at it and not yet taken, at most 512.
///
/// Only `new` takes memory. A call that is refused changes nothing.
#[derive(Drop)]
pub struct Lines {
    lines: Vec<Line>,
}

impl Model for Lines {
    ghost use Rattle.std.specs.Prelude.{List};
    ghost use Rattle.tty_lines.specs.Rings.{Rings, IsLines};

    ghost Value = { List Rings };

    ghost view = { λ s. s.lines.items };

    ghost invariant = { λ s. IsLines s.lines.items };
}

impl Lines {
    /// Lines without characters.
    pub fn new(alloc: Global) -> Result<Lines, AllocError>
        ensures { IfOk result (λ lines. lines ≡ all_clear) }
    {
        let mut lines = Vec::with_capacity(alloc, LINES as usize)?;
        for _ in 0..LINES {
            lines.push(Line::new(alloc)?)?;
        }
        Ok(Lines { lines })
    }

    /// Puts a character that is typed last in a line's input. `NoLine` where there is no such line,
    /// `Full` where 128 characters wait there.
    pub fn typed(&mut self, line: u8, c: Char7) -> Result<(), LineError>
        ensures answer { result ≡ typing self.old line }
        ensures ok { OnOk result (self.new ≡ with_input self.old line (input_of self.old line ++ c ∷ [])) }
        ensures err { OnErr result (self.new ≡ self.old) }
        ensures lines { IsLines self.old }
    {
        let Some(ring) = self.lines.get_mut(line as usize) else {
            return Err(LineError::NoLine);
        };
        if ring.typed_count() >= INPUT_RING {
            return Err(LineError::Full);
        }
        ring.push_input(c);
        Ok(())
    }

    /// Takes the first character of a line's input, if there is one.
    pub fn get(&mut self, line: LineNumber) -> Option<Char7>
        ensures value { result ≡ slice_get (input_of self.old line) 0 }
        ensures rest { self.new ≡ with_input self.old line (drop 1 (input_of self.old line)) }
        ensures lines { IsLines self.old }
    {
        self.lines[line.number() as usize].pop_input()
    }

    /// Puts a whole text last in a line's output. `Full` where more than 512 characters would wait
    /// there, and then none of it is put.
    pub fn put(&mut self, line: LineNumber, text: &[Char7]) -> Result<(), LineError>
        ensures answer { result ≡ putting self.old line (length text.now) }
        ensures ok { OnOk result (self.new ≡ with_output self.old line (output_of self.old line ++ text.now)) }
        ensures err { OnErr result (self.new ≡ self.old) }
        ensures lines { IsLines self.old }
    {
        let ring = &mut self.lines[line.number() as usize];
        if text.len() > ring.room() {
            return Err(LineError::Full);
        }
        ring.push_output(text);
        Ok(())
    }

    /// Takes the first characters of a line's output: at most `n`, and at most 64. `NoLine` where
    /// there is no such line.
    pub fn taken(&mut self, line: u8, n: usize) -> Result<TakenText, LineError>
        ensures answer { result ≡ taking self.old line n }
        ensures ok { OnOk result (self.new ≡ with_output self.old line (drop (min n TAKEN_AT_ONCE) (output_of self.old line))) }
        ensures err { OnErr result (self.new ≡ self.old) }
        ensures lines { IsLines self.old }
    {
        let Some(ring) = self.lines.get_mut(line as usize) else {
            return Err(LineError::NoLine);
        };
        Ok(ring.pop_output(n))
    }

    /// How many more characters fit a line's output.
    pub fn room(&self, line: LineNumber) -> usize
        ensures value { result ≡ room_of self.now line }
        ensures whole { result + length (output_of self.now line) ≡ OUTPUT_RING }
        ensures lines { IsLines self.now }
    {
        self.lines[line.number() as usize].room()
    }

    /// Whether a character waits in a line's input.
    pub fn has_char(&self, line: LineNumber) -> bool
        ensures { result ≡ nat_lt 0 (length (input_of self.now line)) }
    {
        self.lines[line.number() as usize].typed_count() > 0
    }

    /// Whether a line's input has a break character, or no more characters fit it.
    pub fn has_line(&self, line: LineNumber) -> bool
        ensures { result ≡ holds_line (input_of self.now line) }
    {
        self.lines[line.number() as usize].has_line()
    }

    /// Forgets the characters of a line's input.
    pub fn clear_input(&mut self, line: LineNumber)
        ensures input { self.new ≡ with_input self.old line [] }
        ensures lines { IsLines self.old }
    {
        self.lines[line.number() as usize].clear_input();
    }

    /// Forgets the characters of a line's output.
    pub fn clear_output(&mut self, line: LineNumber)
        ensures output { self.new ≡ with_output self.old line [] }
        ensures lines { IsLines self.old }
    {
        self.lines[line.number() as usize].clear_output();
    }

    /// Forgets all characters, as a restart does.
    pub fn clear(&mut self)
        ensures { self.new ≡ all_clear }
    {
        let rings = self.lines.as_mut_slice();
        for ring in rings.iter_mut() {
            ring.clear_input();
            ring.clear_output();
        }
    }
}
