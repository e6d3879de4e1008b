//! Terminal lines at their limits.

use crate::terminal_lines::Act::{
    ClearsInput, ClearsOutput, Gets, GetsLetters, HasChar, HasLine, PutsLetters, PutsTwo, Room,
    Takes, TypesLetters,
};
use crate::terminal_lines::Row::{At, NoLine, Restarts, Types};
use std::alloc::{AllocError, Global};
use std::process::Abort;
use tty_lines::{Char7, LineError, LineNumber, Lines};
use word36::{LINES, OUTPUT_RING};

/// Something that is done with the lines and what it answers.
enum Row {
    /// A character is typed at a line of this number, or why it is not.
    Types(u8, u8, Result<(), LineError>),
    /// There is no line of this number, from which anything could be taken.
    NoLine(u8),
    /// Something is done at a line, or seen of it.
    At(u8, Act),
    /// At each line a character is typed and five letters are put out; then all is cleared, and nothing is there.
    Restarts,
}

/// Something that is done at a line, or seen of it. Letters are A, B, C and so on, round again after 26.
enum Act {
    /// So many letters are typed one by one: a character is there behind each, and a line is not before it.
    TypesLetters(usize),
    /// The oldest so many characters that were typed are letters.
    GetsLetters(usize),
    /// The oldest character that was typed, if there is one.
    Gets(Option<u8>),
    /// Whether there is a character.
    HasChar(bool),
    /// Whether there is a line.
    HasLine(bool),
    /// A text of so many letters is put out.
    PutsLetters(usize),
    /// A text of two characters is put out, or why it is not.
    PutsTwo(Result<(), LineError>),
    /// At most so many characters are taken from the output: the letters from a position on, so many.
    Takes(usize, usize, usize),
    /// So many places of the output are free.
    Room(usize),
    ClearsInput,
    ClearsOutput,
}

/// The rows of a table, and its name.
struct Table {
    name: &'static str,
    rows: &'static [Row],
}

/// The letter at a position.
fn letter(i: usize) -> Char7 {
    Char7::new((i % 26) as u8 + b'A')
}

/// A text of so many letters.
fn letters(alloc: Global, count: usize) -> Result<Vec<Char7>, AllocError> {
    let mut text = Vec::new(alloc);
    for i in 0..count {
        text.push(letter(i))?;
    }
    Ok(text)
}

/// Whether so many letters can be typed, a character is there behind each, and a line is not before it.
fn types_letters(lines: &mut Lines, line: LineNumber, count: usize) -> bool {
    for i in 0..count {
        let has_line = lines.has_line(line);
        if has_line || lines.typed(line.number(), letter(i)).is_err() || !lines.has_char(line) {
            return false;
        }
    }
    true
}

/// Whether the oldest so many characters that were typed are letters.
fn gets_letters(lines: &mut Lines, line: LineNumber, count: usize) -> bool {
    for i in 0..count {
        if lines.get(line) != Some(letter(i)) {
            return false;
        }
    }
    true
}

/// Whether a character is this one, or there is none.
fn is_character(c: Option<Char7>, wanted: Option<u8>) -> bool {
    match (c, wanted) {
        (Some(c), Some(wanted)) => c.number() == wanted,
        (None, None) => true,
        _ => false,
    }
}

/// Whether a text of so many letters can be put out.
fn puts_letters(lines: &mut Lines, alloc: Global, line: LineNumber, count: usize) -> bool {
    match letters(alloc, count) {
        Ok(text) => lines.put(line, text.as_slice()).is_ok(),
        Err(_) => false,
    }
}

/// Whether so many letters from a position on are taken where at most so many are asked for.
fn takes(lines: &mut Lines, line: LineNumber, most: usize, from: usize, count: usize) -> bool {
    let Ok(taken) = lines.taken(line.number(), most) else {
        return false;
    };
    for (i, c) in taken.as_slice().iter().enumerate() {
        if *c != letter(from.saturating_add(i)) {
            return false;
        }
    }
    taken.as_slice().len() == count
}

/// Whether something is at each line, and nothing once all is cleared.
fn restarts(lines: &mut Lines, alloc: Global) -> bool {
    for number in 0..LINES {
        let line = LineNumber::new(number);
        if lines.typed(number, Char7::new(0o12)).is_err() || !puts_letters(lines, alloc, line, 5) {
            return false;
        }
    }
    lines.clear();
    for number in 0..LINES {
        let line = LineNumber::new(number);
        if lines.has_char(line) || lines.room(line) != OUTPUT_RING {
            return false;
        }
    }
    true
}

impl Act {
    /// Whether it holds of a line.
    fn holds(&self, lines: &mut Lines, alloc: Global, line: LineNumber) -> bool {
        match self {
            Act::TypesLetters(count) => types_letters(lines, line, *count),
            Act::GetsLetters(count) => gets_letters(lines, line, *count),
            Act::Gets(wanted) => is_character(lines.get(line), *wanted),
            Act::HasChar(there) => lines.has_char(line) == *there,
            Act::HasLine(there) => lines.has_line(line) == *there,
            Act::PutsLetters(count) => puts_letters(lines, alloc, line, *count),
            Act::PutsTwo(answer) => {
                lines.put(line, &[Char7::new(b'?'), Char7::new(b'!')]) == *answer
            }
            Act::Takes(most, from, count) => takes(lines, line, *most, *from, *count),
            Act::Room(count) => lines.room(line) == *count,
            Act::ClearsInput => {
                lines.clear_input(line);
                true
            }
            Act::ClearsOutput => {
                lines.clear_output(line);
                true
            }
        }
    }
}

impl Row {
    /// Whether the row holds of lines.
    fn holds(&self, lines: &mut Lines, alloc: Global) -> bool {
        match self {
            Row::Types(line, c, answer) => {
                lines.typed(*line, Char7::low_bits(u64::from(*c))) == *answer
            }
            Row::NoLine(line) => {
                LineNumber::try_new(*line).is_none()
                    && matches!(lines.taken(*line, 1), Err(LineError::NoLine))
            }
            Row::At(line, act) => match LineNumber::try_new(*line) {
                Some(line) => act.holds(lines, alloc, line),
                None => false,
            },
            Row::Restarts => restarts(lines, alloc),
        }
    }
}

/// Walks the rows of a table on new lines: each must hold.
fn walk(rt: &impl Abort, alloc: Global, table: &Table) {
    let mut lines = Lines::new(alloc).expect(rt, "memory for the lines");
    for (i, row) in table.rows.iter().enumerate() {
        assert!(rt; row.holds(&mut lines, alloc), "{}, row {i}", table.name);
    }
}

const FULL: Result<(), LineError> = Err(LineError::Full);

const NO_LINE: Result<(), LineError> = Err(LineError::NoLine);

static TABLES: [Table; 6] = [
    // A full ring may be read.
    Table {
        name: "input_holds_128_characters_in_order",
        rows: &[
            At(3, TypesLetters(128)),
            At(3, HasLine(true)),
            Types(3, b'!', FULL),
            At(2, HasChar(false)),
            At(4, HasChar(false)),
            At(3, GetsLetters(128)),
            At(3, Gets(None)),
        ],
    },
    Table {
        name: "break_in_the_middle_makes_a_line",
        rows: &[
            Types(0, b'H', Ok(())),
            Types(0, b'I', Ok(())),
            Types(0, 0o12, Ok(())),
            Types(0, b'?', Ok(())),
            At(0, HasLine(true)),
            At(0, Gets(Some(b'H'))),
            At(0, HasLine(true)),
            At(0, Gets(Some(b'I'))),
            At(0, HasLine(true)),
            At(0, Gets(Some(0o12))),
            At(0, HasLine(false)),
            At(0, Gets(Some(b'?'))),
            Types(0, 0o33, Ok(())),
            At(0, HasLine(true)),
            At(0, ClearsInput),
            At(0, HasChar(false)),
            At(0, HasLine(false)),
        ],
    },
    Table {
        name: "text_is_put_whole_or_not_at_all",
        rows: &[
            At(LINES - 1, PutsLetters(511)),
            At(LINES - 1, PutsTwo(FULL)),
            At(LINES - 1, Room(1)),
            At(LINES - 1, Takes(1, 0, 1)),
            At(LINES - 1, PutsTwo(Ok(()))),
            At(LINES - 1, Room(0)),
            At(LINES - 1, PutsLetters(0)),
            At(LINES - 1, ClearsOutput),
            At(LINES - 1, Room(OUTPUT_RING)),
        ],
    },
    Table {
        name: "at_most_64_characters_are_taken",
        rows: &[
            At(0, PutsLetters(200)),
            At(0, Takes(0, 0, 0)),
            At(0, Takes(1, 0, 1)),
            At(0, Takes(64, 1, 64)),
            At(0, Takes(65, 65, 64)),
            At(0, Takes(usize::MAX, 129, 64)),
            At(0, Takes(64, 193, 7)),
            At(0, Takes(9, 200, 0)),
        ],
    },
    Table {
        name: "other_lines_are_refused",
        rows: &[
            Types(LINES - 1, b'X', Ok(())),
            At(LINES - 1, Gets(Some(b'X'))),
            Types(LINES, b'X', NO_LINE),
            NoLine(LINES),
            Types(u8::MAX, b'X', NO_LINE),
            NoLine(u8::MAX),
        ],
    },
    Table {
        name: "restart_forgets_all",
        rows: &[Restarts],
    },
];

#[test]
fn tables_hold(rt: HostRuntime) {
    for table in &TABLES {
        walk(&rt, rt.alloc(), table);
    }
    assert_eq!(rt; (LineError::NoLine.code(), LineError::Full.code()), (1, 2));
}

#[test]
fn six_characters_end_a_line(rt: HostRuntime) {
    let breaks = [0o7, 0o12, 0o13, 0o14, 0o32, 0o33];
    for number in 0..0o200u8 {
        let is_break = Char7::new(number).is_break();
        assert_eq!(rt; is_break, breaks.contains(&number), "at {number}");
    }
}

#[test]
fn characters_have_seven_bits(rt: HostRuntime) {
    assert!(rt; is_character(Char7::try_new(0o177), Some(127)));
    assert!(rt; Char7::try_new(0o200).is_none());
    assert_eq!(rt; Char7::low_bits(0o400_000_000_301).number(), b'A');
}
