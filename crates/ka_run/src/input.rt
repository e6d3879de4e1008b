//! Lines of the input.

ghost use Rattle.std.specs.Prelude.{◌<◌, ◌^◌, IfSome};

use ka_state::{Flags, flags_of};
use word36::{ADDRESSES, Address, MOST_BLOCKS, Word};

/// One line of the input.
#[derive(Clone, Copy)]
pub enum Line {
    /// Nothing, or a comment.
    Blank,
    /// The flags at the start.
    Flags(Flags),
    /// The PC at the start.
    Pc(Address),
    /// The number of blocks of core.
    Size(u32),
    /// A word, after its address.
    Word(u32, Word),
    /// The PC at the start, behind the words.
    Start(Address),
}

/// A number in octal, below 2 ^ 36.
fn read_octal(text: &str) -> Option<u64>
    ensures { IfSome result (λ n. n < 2 ^ 36) }
{
    let mut number = 0u64;
    if text.is_empty() {
        return None;
    }
    for b in text.as_bytes() {
        if *b < b'0' || *b > b'7' || number >= 1 << 33 {
            return None;
        }
        number = number * 8 + (*b - b'0') as u64;
    }
    Some(number)
}

/// An address in octal, below 2 ^ 18.
fn read_address(text: &str) -> Option<Address> {
    let number = read_octal(text)?;
    if number < u64::from(ADDRESSES) {
        Some(Address::new(number as u32))
    } else {
        None
    }
}

/// A word in octal: up to twelve digits, or two halves of up to six with two commas between them.
fn read_word(text: &str) -> Option<Word> {
    match text.split_once(',') {
        None => Some(Word::new(read_octal(text)?)),
        Some((left, rest)) => {
            let right = rest.strip_prefix(",")?;
            Some(Word::join(read_address(left)?.number(), read_address(right)?.number()))
        }
    }
}

/// The flags of the left half of a PC word.
fn read_flags(text: &str) -> Option<Flags> {
    let half = read_address(text)?.number();
    Some(flags_of(Word::join(half, 0)))
}

/// A number of blocks, in decimal.
fn read_size(text: &str) -> Option<u32> {
    let blocks = text.parse::<u32>().ok()?;
    if blocks >= 1 && blocks <= MOST_BLOCKS {
        Some(blocks)
    } else {
        None
    }
}

/// What a line says, or None where it is not right.
pub fn read_line(line: &str) -> Option<Line> {
    let text = match line.split_once(';') {
        Some((text, _)) => text,
        None => line,
    };
    let text = text.trim();
    if text.is_empty() {
        return Some(Line::Blank);
    }
    let (first, rest) = text.split_once(' ')?;
    let second = rest.trim();
    match first {
        "flags" => Some(Line::Flags(read_flags(second)?)),
        "pc" => Some(Line::Pc(read_address(second)?)),
        "size" => Some(Line::Size(read_size(second)?)),
        "START" => Some(Line::Start(read_address(second)?)),
        _ => {
            let address = read_address(first)?.number();
            Some(Line::Word(address, read_word(second)?))
        }
    }
}
