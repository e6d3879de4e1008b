//! What is listed, and the uses of names.

use macro_operations::Pseudo;
use std::alloc::{AllocError, Global};
use word36::Word;

/// Which expanded lines are listed.
#[derive(Clone, Copy, PartialEq, Eq)]
enum Mode {
    Words,
    All,
    None,
}

/// A row of the listing: a place, a word, or both.
#[derive(Clone, Copy)]
pub struct Row {
    /// The line of the source, or the number of the expanded line.
    pub of: usize,
    /// Whether it is that of an expanded line.
    pub expanded: bool,
    /// The place.
    pub place: Option<u32>,
    /// The word.
    pub word: Option<Word>,
}

/// A line of a text that was put in front.
#[derive(Clone, Copy)]
pub struct Expanded {
    /// The line of the source that it follows.
    pub line: u32,
    /// How many texts it is in.
    pub depth: u32,
    /// The first of its characters.
    pub start: usize,
    /// The character behind the last.
    pub end: usize,
    /// Whether it is listed where it gives words.
    pub is_shown: bool,
    /// Whether it is listed in any case.
    pub is_all: bool,
}

/// A use of a name.
#[derive(Clone, Copy)]
pub struct Use {
    /// The name in SIXBIT.
    pub name: u64,
    /// The line of the source.
    pub line: u32,
    /// Whether it is defined there.
    pub defined: bool,
}

/// What is listed.
#[derive(Drop)]
pub struct Listing {
    /// The rows in order.
    pub rows: Vec<Row>,
    /// The expanded lines in order.
    pub expanded: Vec<Expanded>,
    /// Their characters.
    pub characters: Vec<u8>,
    /// The first and the last lines that are not listed.
    pub hidden: Vec<(u32, u32)>,
    /// The uses of names.
    pub uses: Vec<Use>,
    /// Names that PURGE named.
    pub purged: Vec<u64>,
    /// The lines of the source that have constants of floating point.
    pub floats: Vec<u32>,
    /// The line with END.
    pub last: u32,
    mode: Mode,
    hidden_from: Option<u32>,
    is_open: bool,
    entry: usize,
}

impl Listing {
    /// Nothing so far.
    pub fn new(alloc: Global) -> Listing {
        Listing {
            rows: Vec::new(alloc),
            expanded: Vec::new(alloc),
            characters: Vec::new(alloc),
            hidden: Vec::new(alloc),
            uses: Vec::new(alloc),
            purged: Vec::new(alloc),
            floats: Vec::new(alloc),
            last: 0,
            mode: Mode::Words,
            hidden_from: None,
            is_open: false,
            entry: 0,
        }
    }

    /// Forgets all, as a pass begins.
    pub fn begin(&mut self) {
        self.rows.clear();
        self.expanded.clear();
        self.characters.clear();
        self.hidden.clear();
        self.uses.clear();
        self.purged.clear();
        self.floats.clear();
        self.last = 0;
        self.mode = Mode::Words;
        self.hidden_from = None;
        self.is_open = false;
        self.entry = 0;
    }

    /// Notes a use of a name, or that it is defined.
    pub fn note(&mut self, name: u64, line: u32, defined: bool) -> Result<(), AllocError> {
        self.uses.push(Use {
            name,
            line,
            defined,
        })?;
        Ok(())
    }

    /// Notes that a line has a constant of floating point.
    pub fn float(&mut self, line: u32) -> Result<(), AllocError> {
        self.floats.push(line)?;
        Ok(())
    }

    /// A character of a text that was put in front is read.
    pub fn character(&mut self, line: u32, depth: u32, character: u8) -> Result<(), AllocError> {
        if !self.is_open {
            self.open(line, depth)?;
            self.is_open = true;
        }
        if character == b'\n' {
            self.is_open = false;
            return Ok(());
        }
        self.characters.push(character)?;
        let end = self.characters.len();
        if let Some(last) = self.expanded.as_mut_slice().last_mut() {
            last.end = end;
        }
        Ok(())
    }

    fn open(&mut self, line: u32, depth: u32) -> Result<(), AllocError> {
        let start = self.characters.len();
        let is_shown = self.mode != Mode::None && self.hidden_from.is_none();
        self.expanded.push(Expanded {
            line,
            depth,
            start,
            end: start,
            is_shown,
            is_all: self.mode == Mode::All,
        })?;
        Ok(())
    }

    /// A text is put in front: the line that is read is parted there.
    pub fn part(&mut self) {
        self.is_open = false;
    }

    /// A statement begins.
    pub fn statement(&mut self) {
        let count = self.expanded.len();
        self.entry = if self.is_open {
            count.saturating_sub(1)
        } else {
            count
        };
    }

    /// A row of a statement that begins in so many texts.
    pub fn row(
        &mut self,
        line: u32,
        texts: u32,
        place: Option<u32>,
        word: Option<Word>,
    ) -> Result<(), AllocError> {
        if texts == 0 {
            self.rows.push(Row {
                of: line as usize,
                expanded: false,
                place,
                word,
            })?;
            return Ok(());
        }
        if self.entry >= self.expanded.len() {
            self.open(line, texts)?;
        }
        let of = self.entry.min(self.expanded.len().saturating_sub(1));
        self.rows.push(Row {
            of,
            expanded: true,
            place,
            word,
        })?;
        Ok(())
    }

    /// LIST, XLIST, LALL, SALL and XALL on a line.
    pub fn set(&mut self, pseudo: Pseudo, line: u32) -> Result<(), AllocError> {
        match pseudo {
            Pseudo::Xlist => {
                if self.hidden_from.is_none() {
                    self.hidden_from = Some(line.saturating_add(1));
                }
            }
            Pseudo::List => {
                if let Some(from) = self.hidden_from {
                    self.hidden.push((from, line))?;
                }
                self.hidden_from = None;
            }
            Pseudo::Lall => self.mode = Mode::All,
            Pseudo::Sall => self.mode = Mode::None,
            _ => self.mode = Mode::Words,
        }
        Ok(())
    }

    /// END is on this line.
    pub fn end(&mut self, line: u32) -> Result<(), AllocError> {
        self.last = line;
        if let Some(from) = self.hidden_from {
            self.hidden.push((from, line))?;
        }
        Ok(())
    }
}
