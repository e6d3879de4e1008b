//! One terminal line.

ghost use Rattle.std.specs.Prelude.{◌≡◌, ◌≤◌, ◌<◌, ◌+◌, ◌-◌, ◌++◌, ◌∷◌, [], length};
ghost use Rattle.std.specs.Prelude.{take, drop, min, nat_lt, slice_get, IfOk, IsOk, OnOk, OnErr, ◌↔◌};
ghost use Rattle.std.specs.List.{list_any};
ghost use Rattle.tty_lines.specs.Breaks.{is_break};
ghost use Rattle.tty_lines.specs.Rings.{no_characters, holds_line};

use crate::{Char7, TakenText};
use circular_buffer::HeapCircularBuffer;
use std::alloc::{AllocError, Global};
use std::marker::Model;
use word36::{INPUT_RING, OUTPUT_RING, TAKEN_AT_ONCE};

/// The two rings of a terminal line.
#[derive(Drop)]
pub(crate) struct Line {
    input: HeapCircularBuffer<Char7>,
    output: HeapCircularBuffer<Char7>,
}

impl Model for Line {
    ghost use Rattle.std.specs.Prelude.{◌≡◌, ◌≤◌, length};
    ghost use Rattle.word36.specs.declared.sizes.TheConstants.{INPUT_RING, OUTPUT_RING};
    ghost use Rattle.tty_lines.specs.Rings.{Rings};

    ghost Value = { Rings };

    ghost view = { λ l. record { input = l.input.items; output = l.output.items } };

    ghost invariant = { λ l. (l.input.capacity ≡ INPUT_RING)
        × (l.output.capacity ≡ OUTPUT_RING)
        × (length l.input.items ≤ INPUT_RING)
        × (length l.output.items ≤ OUTPUT_RING) };
}

impl Line {
    /// A line without characters.
    pub(crate) fn new(alloc: Global) -> Result<Line, AllocError>
        ensures { IfOk result (λ l. l ≡ no_characters) }
    {
        Ok(Line {
            input: HeapCircularBuffer::with_capacity(alloc, INPUT_RING)?,
            output: HeapCircularBuffer::with_capacity(alloc, OUTPUT_RING)?,
        })
    }

    /// How many characters wait in the input.
    pub(crate) fn typed_count(&self) -> usize
        ensures value { result ≡ length self.now.input }
        ensures within { result ≤ INPUT_RING }
    {
        self.input.len()
    }

    /// How many more characters fit the output.
    pub(crate) fn room(&self) -> usize
        ensures { result + length self.now.output ≡ OUTPUT_RING }
    {
        OUTPUT_RING - self.output.len()
    }

    /// Whether a break character waits in the input.
    fn has_break(&self) -> bool
        ensures { result ≡ list_any is_break self.now.input }
    {
        self.input.iter().any(|c| c.is_break())
    }

    /// Whether the input may be read as a line.
    pub(crate) fn has_line(&self) -> bool
        ensures { result ≡ holds_line self.now.input }
    {
        self.has_break() || self.input.len() >= INPUT_RING
    }

    /// Puts a character last in the input.
    pub(crate) fn push_input(&mut self, c: Char7)
        requires { length self.old.input < INPUT_RING }
        ensures { self.new ≡ record self.old { input = self.old.input ++ c ∷ [] } }
    {
        self.input.push_back(c);
    }

    /// Takes the first character of the input.
    pub(crate) fn pop_input(&mut self) -> Option<Char7>
        ensures value { result ≡ slice_get self.old.input 0 }
        ensures rest { self.new ≡ record self.old { input = drop 1 self.old.input } }
    {
        self.input.pop_front()
    }

    /// Puts a text last in the output. One character, as most texts are, is put without a copy of slices.
    pub(crate) fn push_output(&mut self, text: &[Char7])
        requires { length self.old.output + length text.now ≤ OUTPUT_RING }
        ensures { self.new ≡ record self.old { output = self.old.output ++ text.now } }
    {
        match text {
            [only] => {
                self.output.push_back(*only);
            }
            _ => self.output.extend_from_slice(text),
        }
    }

    /// Takes the first characters of the output, at most `n` and at most 64.
    pub(crate) fn pop_output(&mut self, n: usize) -> TakenText
        ensures value { result ≡ take (min n TAKEN_AT_ONCE) self.old.output }
        ensures rest { self.new ≡ record self.old { output = drop (min n TAKEN_AT_ONCE) self.old.output } }
    {
        let mut space = [Char7::new(0); TAKEN_AT_ONCE];
        let count = self.output.read_into(&mut space[..n.min(TAKEN_AT_ONCE)]);
        TakenText::of_first(space, count)
    }

    /// Forgets the input.
    pub(crate) fn clear_input(&mut self)
        ensures { self.new ≡ record self.old { input = [] } }
    {
        self.input.clear();
    }

    /// Forgets the output.
    pub(crate) fn clear_output(&mut self)
        ensures { self.new ≡ record self.old { output = [] } }
    {
        self.output.clear();
    }
}
