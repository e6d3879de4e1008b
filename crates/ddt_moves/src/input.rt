//! The lines of a file that are typed where a job waits for characters.

ghost use Rattle.std.specs.Prelude.{◌≡◌, ◌+◌, [], IfOk, IfSome, OnOk, is_some, length, nat_lt};
ghost use Rattle.ddt_timeline.specs.Views.{history, whole_entries};
ghost use Rattle.ddt_moves.specs.Input.{first_line, is_left, line_at, next_line, next_start, next_typed, text_of};
ghost use Rattle.ddt_moves.specs.Input.{typed_before, typed_of, typed_with};

use crate::terminals::type_line;
use ddt_timeline::Timeline;
use run_facts::target_of;
use std::alloc::{AllocError, Global};

/// The lines of a file, of which some were typed.
///
/// Which line is next follows from what has happened to the machine: where it is put back before a line was typed, that line
/// is typed once more.
#[derive(Drop)]
pub struct InputLines {
    text: Vec<u8>,
    /// The lines that were typed, the first one first.
    typed: Vec<Typed>,
}

/// A line that was typed.
#[derive(Clone, Copy)]
struct Typed {
    /// How many entries had happened behind it.
    happened: usize,
    /// The position of the next line in the text.
    next: usize,
}

/// The text before the first LF.
fn first_line(text: &[u8]) -> &[u8]
    ensures { result.now ≡ first_line text.now }
{
    for (i, byte) in text.iter().enumerate() {
        if *byte == b'\n' {
            return &text[..i];
        }
    }
    text
}

/// The line that begins at a position of a text, without its LF or CR LF, and the position of the next line; `None` at the end
/// of the text.
pub fn line_from(text: &[u8], start: usize) -> Option<(&[u8], usize)>
    ensures left { is_some result ≡ nat_lt start (length text.now) }
    ensures line { IfSome result (λ found. found.0.now ≡ line_at text.now start) }
    ensures next { IfSome result (λ found. found.1 ≡ next_line text.now start) }
{
    let rest = text.get(start..)?;
    if rest.is_empty() {
        return None;
    }
    let line = first_line(rest);
    let next = start.saturating_add(line.len()).saturating_add(1);
    match line {
        [front @ .., b'\r'] => Some((front, next)),
        _ => Some((line, next)),
    }
}

impl InputLines {
    /// No lines.
    pub fn none(alloc: Global) -> Self
        ensures text { text_of result ≡ [] }
        ensures typed { typed_of result ≡ [] }
    {
        InputLines::new(alloc, Vec::new(alloc))
    }

    /// The lines of a text.
    pub fn new(alloc: Global, text: Vec<u8>) -> Self
        ensures text { text_of result ≡ text.items }
        ensures typed { typed_of result ≡ [] }
    {
        InputLines {
            text,
            typed: Vec::new(alloc),
        }
    }

    /// The position of the next line, where so many entries have happened.
    fn next_start(&self, happened: usize) -> usize
        ensures { result ≡ next_start self.now happened }
    {
        let mut start = 0;
        for typed in self.typed.as_slice() {
            if typed.happened <= happened {
                start = typed.next;
            }
        }
        start
    }

    /// Whether a line is left, where so many entries have happened.
    pub fn is_left(&self, happened: usize) -> bool
        ensures { result ≡ is_left self.now happened }
    {
        self.next_start(happened) < self.text.len()
    }

    /// Forgets the lines that were not typed where so many entries have happened. What was ahead there is forgotten as soon as
    /// something else happens, and these lines with it.
    pub fn forget(&mut self, happened: usize)
        ensures text { text_of self.new ≡ text_of self.old }
        ensures typed { typed_of self.new ≡ typed_before happened (typed_of self.old) }
    {
        let mut kept = 0usize;
        for typed in self.typed.as_slice() {
            if typed.happened <= happened {
                kept = kept.saturating_add(1);
            }
        }
        self.typed.truncate(kept);
    }

    /// Types the next line of the text, where so many terminal lines have jobs; false where none is left.
    pub fn type_next(&mut self, timeline: &mut Timeline, lines: u8) -> Result<bool, AllocError>
        ensures left { IfOk result (λ typed. typed ≡ is_left self.old (length (whole_entries timeline.old))) }
        ensures happened { OnOk result (history timeline.new
            ≡ next_typed lines self.old (length (whole_entries timeline.old)) (history timeline.old)) }
        ensures text { text_of self.new ≡ text_of self.old }
        ensures typed { OnOk result (typed_of self.new
            ≡ typed_with self.old (length (whole_entries timeline.old)) (length (whole_entries timeline.new))) }
    {
        let happened = timeline.happened();
        let start = self.next_start(happened);
        let Some((line, next)) = line_from(self.text.as_slice(), start) else {
            return Ok(false);
        };
        let target = target_of(lines, line);
        type_line(timeline, target.line, target.text)?;
        let typed = Typed {
            happened: timeline.happened(),
            next,
        };
        self.typed.push(typed)?;
        Ok(true)
    }
}
