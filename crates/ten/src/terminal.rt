//! What jobs type out.
ghost use Rattle.std.specs.Prelude.{◌≡◌, ◌++◌, [], false};
ghost use Rattle.program_shell.specs.Texts.{Adds};
ghost use Rattle.ten.specs.Terminals.{flushed, held_behind, line_text, written_at};
ghost use Rattle.ten.specs.Writing.{Writes};

use arrayvec::ArrayVec;
use program_shell::PendingText;
use tty_lines::Char7;

/// With several terminals, a longer line is written in pieces of this length.
const WIDTH: usize = 256;

/// A terminal line, with what its job typed out and was not yet written.
#[derive(Drop)]
pub struct Terminal {
    /// Its number, 0 to 62.
    pub line: u8,
    /// Whether each line is written with this number in front.
    is_numbered: bool,
    /// The beginning of a line, which is not whole yet.
    partial: ArrayVec<u8, WIDTH>,
}

impl Terminal {
    /// A terminal line where nothing was typed out. It is one of several, or the only one.
    pub fn new(line: u8, is_numbered: bool) -> Self
        ensures line { result.line ≡ line }
        ensures numbered { result.is_numbered ≡ is_numbered }
        ensures empty { result.partial.items ≡ [] }
    {
        Terminal {
            line,
            is_numbered,
            partial: ArrayVec::new(),
        }
    }

    /// Adds a character to the line, and the line to the output if it is whole or long.
    fn add_character(&mut self, byte: u8, output: &mut PendingText)
        ensures written { Adds output.old output.new (written_at self.old.is_numbered self.old.line self.old.partial.items byte) }
        ensures held { self.new.partial.items ≡ held_behind self.old.is_numbered self.old.partial.items byte }
        ensures line { self.new.line ≡ self.old.line }
        ensures numbered { self.new.is_numbered ≡ self.old.is_numbered }
    {
        let is_whole = self.is_numbered && byte == b'\n';
        if !is_whole {
            let _ = self.partial.try_push(byte);
        }
        if is_whole || self.partial.is_full() {
            self.end_line(output);
        }
    }

    /// Adds characters to the output as they come or, with several terminals, line by line.
    pub fn print(&mut self, text: &[Char7], output: &mut PendingText)
        ensures { Writes self.old self.new output.old output.new text.now }
    {
        for character in text {
            self.add_character(character.number(), output);
        }
        if !self.is_numbered {
            self.end_line(output);
        }
    }

    /// Adds what there is of a line that is not whole, and ends it.
    pub fn flush(&mut self, output: &mut PendingText)
        ensures written { Adds output.old output.new (flushed self.old.is_numbered self.old.line self.old.partial.items) }
        ensures held { self.new.partial.items ≡ [] }
        ensures line { self.new.line ≡ self.old.line }
        ensures numbered { self.new.is_numbered ≡ self.old.is_numbered }
    {
        if !self.partial.is_empty() {
            self.end_line(output);
        }
    }

    /// Adds the line, with its number and an end where there are several terminals.
    fn end_line(&mut self, output: &mut PendingText)
        ensures written { Adds output.old output.new (line_text self.old.is_numbered self.old.line self.old.partial.items) }
        ensures held { self.new.partial.items ≡ [] }
        ensures line { self.new.line ≡ self.old.line }
        ensures numbered { self.new.is_numbered ≡ self.old.is_numbered }
    {
        if self.is_numbered {
            output.say_number("", u64::from(self.line), ": ");
            output.add(self.partial.as_slice());
            output.end_line();
        } else {
            output.add(self.partial.as_slice());
        }
        self.partial.clear();
    }
}
