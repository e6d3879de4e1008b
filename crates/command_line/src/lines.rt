//! The lines of an input that may still be at fault.
ghost use Rattle.std.specs.Prelude.{◌≡◌, ◌≤◌, ◌++◌, [], drop, length, OnOk};
ghost use Rattle.command_line.specs.Keeping.{IsEndOf};

use machine::Config;
use memchr::{memchr, memrchr};
use op_script::head_of;
use script_io::without_return;
use std::alloc::{AllocError, Global};
use std::marker::Model;

/// How many bytes are kept before finished lines are dropped.
const KEPT: usize = 65536;

/// The room that is taken at first: for the bytes that are kept and the next that are read, so that it need not grow
/// while a script runs.
const ROOM: usize = KEPT + KEPT / 2;

/// How many bytes are copied at once. For so few the C library takes vector instructions; more it copies by one
/// string instruction, which counts as an instruction for each byte where instructions are counted.
const COPIED: usize = 1024;

/// How many bytes are searched together for line feeds: so few that the number of line feeds fits a byte, and many
/// are counted in one step.
const COUNTED: usize = 128;

/// What a script or a source is written in.
#[derive(Clone, Copy, PartialEq, Eq, Debug)]
pub enum Language {
    /// A script of `lockmon queue`.
    Queue,
    /// A script of `lockmon run`, in which sources stand between ASSEMBLE and ENDASM.
    Run,
    /// A source of `lockmon asm`.
    Asm,
}

/// The last lines of an input. In a script, lines that can no longer be at fault are dropped from time to time; a
/// source is kept whole. Once there is no memory, nothing is kept any more.
#[derive(Drop)]
pub struct Lines {
    language: Language,
    bytes: Vec<u8>,
    /// How many lines were dropped.
    dropped: u64,
    /// How many bytes are kept before lines are dropped.
    limit: usize,
    is_lost: bool,
    /// The machine that the first line names, if that was dropped.
    head: Option<Config>,
}

impl Model for Lines {
    ghost use Rattle.std.specs.Prelude.{ℕ, List};

    ghost Value = { List ℕ };

    ghost view = { λ s. s.bytes.items };
}

impl Lines {
    /// No lines yet. Where there is no memory for their room now, it is asked for again when lines come.
    pub fn new(alloc: Global, language: Language) -> Self
        ensures { result ≡ [] }
    {
        let bytes = match Vec::with_capacity(alloc, ROOM) {
            Ok(bytes) => bytes,
            Err(_) => Vec::new(alloc),
        };
        Lines {
            language,
            bytes,
            dropped: 0,
            limit: KEPT,
            is_lost: false,
            head: None,
        }
    }

    /// What they are written in.
    pub fn language(&self) -> Language {
        self.language
    }

    /// The lines that are kept, with their ends.
    pub fn as_bytes(&self) -> &[u8] {
        self.bytes.as_slice()
    }

    /// How many lines were dropped before these.
    pub fn dropped(&self) -> u64 {
        self.dropped
    }

    /// Whether lines are missing for want of memory.
    pub fn is_lost(&self) -> bool {
        self.is_lost
    }

    /// The machine on which the script is to be obeyed by its first line, if that names one.
    pub fn head(&self) -> Option<Config> {
        if self.dropped > 0 {
            return self.head;
        }
        head_of(line_at(self.bytes.as_slice(), 1)?)
    }

    /// Adds bytes.
    pub fn push(&mut self, bytes: &[u8])
        ensures { IsEndOf (self.old ++ bytes.now) self.new }
    {
        self.drop_finished();
        if self.is_lost || append(&mut self.bytes, bytes).is_err() {
            self.is_lost = true;
            self.bytes.clear();
        }
    }

    /// Drops the lines that no fault can be in, where there are many bytes.
    fn drop_finished(&mut self)
        ensures { IsEndOf self.old self.new }
    {
        if self.bytes.len() < self.limit {
            return;
        }
        self.head = self.head();
        let finished = finished(self.language, self.bytes.as_slice());
        let count = finished.length.min(self.bytes.len());
        drop_front(&mut self.bytes, count);
        self.dropped = self.dropped.saturating_add(finished.lines);
        self.limit = self.bytes.len().saturating_mul(2).max(KEPT);
    }

    /// The line of this number, if it is kept.
    pub fn line(&self, number: u128) -> Option<&[u8]> {
        let bytes = self.bytes.as_slice();
        line_at(bytes, number.checked_sub(u128::from(self.dropped))?)
    }
}

/// Adds bytes, some at a time.
fn append(bytes: &mut Vec<u8>, more: &[u8]) -> Result<(), AllocError>
    ensures { OnOk result (bytes.new.items ≡ bytes.old.items ++ more.now) }
{
    let mut rest = more;
    while !rest.is_empty() {
        let count = rest.len().min(COPIED);
        bytes.extend_from_slice(&rest[..count])?;
        rest = &rest[count..];
    }
    Ok(())
}

/// Drops so many bytes of the front. Those behind them, mostly a part of one line, move up.
fn drop_front(bytes: &mut Vec<u8>, count: usize)
    requires { count ≤ length bytes.old.items }
    ensures { bytes.new.items ≡ drop count bytes.old.items }
{
    let left = bytes.len() - count;
    bytes.copy_within(count.., 0);
    bytes.truncate(left);
}

/// A position between two lines.
#[derive(Clone, Copy, Default)]
struct Position {
    /// How many bytes stand before it.
    length: usize,
    /// How many lines do.
    lines: u64,
}

/// The first line, without its line end, and what stands behind it; None where no line ends.
fn split_line(bytes: &[u8]) -> Option<(&[u8], &[u8])> {
    let end = memchr(b'\n', bytes)?;
    Some((without_return(&bytes[..end]), &bytes[end + 1..]))
}

/// The line of this number, counted from 1; the last may have no line end.
fn line_at(bytes: &[u8], number: u128) -> Option<&[u8]> {
    let mut rest = bytes;
    let mut left = number;
    for _ in 0..=bytes.len() {
        left = left.checked_sub(1)?;
        match split_line(rest) {
            Some((line, behind)) => {
                if left == 0 {
                    return Some(line);
                }
                rest = behind;
            }
            None if left == 0 && !rest.is_empty() => return Some(rest),
            None => return None,
        }
    }
    None
}

/// The bytes behind a position.
fn behind(bytes: &[u8], position: Position) -> &[u8] {
    &bytes[position.length.min(bytes.len())..]
}

/// The next line behind a position, and the position behind that line.
fn next_line(bytes: &[u8], position: Position) -> Option<(&[u8], Position)> {
    let rest = behind(bytes, position);
    let (line, more) = split_line(rest)?;
    let next = Position {
        length: bytes.len().saturating_sub(more.len()),
        lines: position.lines.saturating_add(1),
    };
    Some((line, next))
}

/// Whether a line begins a source.
fn is_assemble(line: &[u8]) -> bool {
    line.starts_with(b"ASSEMBLE ".as_slice())
}

/// The number of line feeds in these bytes.
fn line_feeds(bytes: &[u8]) -> u64 {
    let mut count: u64 = 0;
    for part in bytes.chunks(COUNTED) {
        let mut found: u8 = 0;
        for byte in part {
            found = found.wrapping_add(u8::from(*byte == b'\n'));
        }
        count = count.wrapping_add(u64::from(found));
    }
    count
}

/// The position behind the last whole line.
fn behind_whole_lines(bytes: &[u8]) -> Position {
    let Some(end) = memrchr(b'\n', bytes) else {
        return Position::default();
    };
    let whole = &bytes[..=end];
    Position {
        length: whole.len(),
        lines: line_feeds(whole),
    }
}

/// The position before which no fault can be any more: the last that is behind a whole line and in no source.
fn finished(language: Language, bytes: &[u8]) -> Position {
    match language {
        Language::Asm => Position::default(),
        Language::Queue => behind_whole_lines(bytes),
        Language::Run => behind_sources(bytes),
    }
}

/// The last position that is behind a whole line and in no source.
fn behind_sources(bytes: &[u8]) -> Position {
    let mut done = Position::default();
    let mut position = done;
    let mut in_source = false;
    for _ in 0..=bytes.len() {
        let Some((line, next)) = next_line(bytes, position) else {
            return done;
        };
        if !in_source && is_assemble(line) {
            in_source = true;
        } else if in_source && line == b"ENDASM".as_slice() {
            in_source = false;
        }
        position = next;
        if !in_source {
            done = position;
        }
    }
    done
}
