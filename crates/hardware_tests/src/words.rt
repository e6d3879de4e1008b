//! Words, addresses and their texts.

use std::process::Abort;
use word36::{Address, Word, octal_half, octal_text, sixbit};

/// The halves of a word.
type Halves = (u32, u32);

/// The word of the least value.
const LEAST: Halves = (0o400000, 0);

/// The word of the greatest value.
const GREATEST: Halves = (0o377777, 0o777777);

/// The word of all ones.
const ONES: Halves = (0o777777, 0o777777);

const ZERO: Halves = (0, 0);

const ONE: Halves = (0, 1);

/// A word that is made of others, or of a number.
enum Made {
    /// Of the low bits of a number.
    LowBits(u64),
    /// Its halves have changed places.
    Swapped(Halves),
    /// It has another left half.
    WithLeft(Halves, u32),
    /// It has another right half.
    WithRight(Halves, u32),
    And(Halves, Halves),
    Or(Halves, Halves),
    Xor(Halves, Halves),
    Not(Halves),
}

/// What holds of a word, an address, a number or a name; what is wanted comes last.
enum Row {
    /// The text of a word.
    Text(Halves, &'static str),
    /// The text of an address, and of the half that is its number.
    PlaceText(u32, &'static str),
    /// No address has this number.
    NoPlace(u32),
    /// The address so many behind an address.
    Plus(u32, u32, u32),
    /// The text of a number, without leading zeros.
    Digits(u64, &'static str),
    /// The word that a name is packed in, if it is one.
    Packed(&'static [u8], Option<Halves>),
    /// A word has these halves.
    Parts(Halves),
    /// The halves of a word that is made.
    Makes(Made, Halves),
    /// The value of a word, which is the word of that value.
    Value(Halves, i64),
    /// No word has this value.
    NoValue(i64),
    /// The sum of two words and a carry, and the carries out of bits 0 and 1.
    Sum(Halves, Halves, bool, Halves, (bool, bool)),
}

/// The word of two halves.
fn word(halves: Halves) -> Word {
    Word::join(halves.0 & 0o777_777, halves.1 & 0o777_777)
}

/// Whether an address and the half that is its number have this text.
fn is_place(number: u32, text: &str) -> bool {
    match Address::try_new(number) {
        Some(address) => {
            address.octal().as_str() == text && octal_half(address.number()).as_str() == text
        }
        None => false,
    }
}

/// Whether the address so many behind an address has this number.
fn leads_to(number: u32, more: u32, behind: u32) -> bool {
    match Address::try_new(number) {
        Some(address) => address.plus(more & 0o777_777).number() == behind,
        None => false,
    }
}

/// Whether a name is packed in this word; in none, where it is no name.
fn is_packed(name: &[u8], halves: Option<Halves>) -> bool {
    match (sixbit(name), halves) {
        (Some(packed), Some(halves)) => packed == word(halves),
        (None, None) => true,
        _ => false,
    }
}

/// Whether a word has this value and is the word of it.
fn has_value(word: Word, value: i64) -> bool {
    word.signed() == value
        && word.is_negative() == (value < 0)
        && Word::from_signed(value) == Some(word)
}

/// Whether two words and a carry have this sum and these carries.
fn adds_up(a: Word, b: Word, carry: bool, sum: Halves, carries: (bool, bool)) -> bool {
    a.sum(b, carry).halves() == sum && a.carries(b, carry) == carries
}

impl Made {
    /// The word that is made.
    fn word(&self) -> Word {
        match self {
            Made::LowBits(number) => Word::low_bits(*number),
            Made::Swapped(a) => word(*a).swapped(),
            Made::WithLeft(a, left) => word(*a).with_left(*left & 0o777_777),
            Made::WithRight(a, right) => word(*a).with_right(*right & 0o777_777),
            Made::And(a, b) => word(*a).and(word(*b)),
            Made::Or(a, b) => word(*a).or(word(*b)),
            Made::Xor(a, b) => word(*a).xor(word(*b)),
            Made::Not(a) => word(*a).not(),
        }
    }
}

impl Row {
    /// Whether it holds.
    fn holds(&self) -> bool {
        match self {
            Row::Text(halves, text) => word(*halves).octal().as_str() == *text,
            Row::PlaceText(number, text) => is_place(*number, text),
            Row::NoPlace(number) => Address::try_new(*number).is_none(),
            Row::Plus(number, more, behind) => leads_to(*number, *more, *behind),
            Row::Digits(number, text) => octal_text(*number).as_str() == *text,
            Row::Packed(name, halves) => is_packed(name, *halves),
            Row::Parts(halves) => word(*halves).halves() == *halves,
            Row::Makes(made, halves) => made.word().halves() == *halves,
            Row::Value(halves, value) => has_value(word(*halves), *value),
            Row::NoValue(value) => Word::from_signed(*value).is_none(),
            Row::Sum(a, b, carry, sum, carries) => {
                adds_up(word(*a), word(*b), *carry, *sum, *carries)
            }
        }
    }
}

/// The rows of a table, and its name.
struct Table {
    name: &'static str,
    rows: &'static [Row],
}

/// Walks the rows of a table of this name: each must hold.
fn walk(rt: &impl Abort, name: &str, rows: &[Row]) {
    for (i, row) in rows.iter().enumerate() {
        assert!(rt; row.holds(), "{name}, row {i}");
    }
}

/// A word of the table `halves_and_values`.
const WORD: Halves = (0o123456, 0o654321);

/// The words of the four last rows of the table `bits_and_carries`.
const A: Halves = (0o707070, 0o525252);

const B: Halves = (0o770077, 0o252525);

/// All tables but those that have a test of their own.
static TABLES: [Table; 5] = [
    Table {
        name: "words_and_places_are_printed",
        rows: &[
            Row::Text(ZERO, "000000,,000000"),
            Row::Text((0o254000, 0o140), "254000,,000140"),
            Row::Text((0o12, 0o700000), "000012,,700000"),
            Row::Text(ONES, "777777,,777777"),
            Row::PlaceText(0, "000000"),
            Row::PlaceText(0o140, "000140"),
            Row::PlaceText(0o777777, "777777"),
            Row::NoPlace(0o1_000_000),
            Row::Plus(0o777777, 2, 1),
        ],
    },
    Table {
        name: "numbers_are_printed_without_leading_zeros",
        rows: &[
            Row::Digits(0, "0"),
            Row::Digits(7, "7"),
            Row::Digits(8, "10"),
            Row::Digits(0o777, "777"),
            Row::Digits(0o1000, "1000"),
            Row::Digits(1 << 63, "1000000000000000000000"),
            Row::Digits(u64::MAX, "1777777777777777777777"),
        ],
    },
    Table {
        name: "names_are_packed",
        rows: &[
            Row::Packed(b"", Some(ZERO)),
            Row::Packed(b"A", Some((0o410000, 0))),
            Row::Packed(b"LPT0", Some((0o546064, 0o200000))),
            Row::Packed(b"SYSTAT", Some((0o637163, 0o644164))),
            Row::Packed(b"      ", Some(ZERO)),
            Row::Packed(b"______", Some(ONES)),
            Row::Packed(b"LOCKMON", None),
            Row::Packed(b"a", None),
            Row::Packed(b"AB\x60", None),
            Row::Packed(b"\x1F", None),
        ],
    },
    Table {
        name: "halves_and_values",
        rows: &[
            Row::Parts(WORD),
            Row::Makes(Made::Swapped(WORD), (0o654321, 0o123456)),
            Row::Makes(Made::WithLeft(WORD, 0), (0, 0o654321)),
            Row::Makes(Made::WithRight(WORD, 1), (0o123456, 1)),
            Row::Value(LEAST, -0o400_000_000_000),
            Row::Value(ONES, -1),
            Row::Value(ZERO, 0),
            Row::Value(GREATEST, 0o377_777_777_777),
            Row::NoValue(-0o400_000_000_001),
            Row::NoValue(0o400_000_000_000),
            Row::Makes(Made::LowBits(u64::MAX), ONES),
        ],
    },
    Table {
        name: "bits_and_carries",
        rows: &[
            Row::Sum(GREATEST, ONE, false, LEAST, (false, true)),
            Row::Sum(ONES, ONE, false, ZERO, (true, true)),
            Row::Sum(ONES, ZERO, true, ZERO, (true, true)),
            Row::Sum(LEAST, LEAST, false, ZERO, (true, false)),
            Row::Sum(LEAST, LEAST, true, ONE, (true, false)),
            Row::Sum(ONE, ONE, true, (0, 3), (false, false)),
            Row::Makes(Made::And(A, B), (0o700070, 0)),
            Row::Makes(Made::Or(A, B), (0o777077, 0o777777)),
            Row::Makes(Made::Xor(A, B), (0o077007, 0o777777)),
            Row::Makes(Made::Not(A), (0o070707, 0o252525)),
        ],
    },
];

#[test]
fn tables_hold(rt: HostRuntime) {
    for table in &TABLES {
        walk(&rt, table.name, table.rows);
    }
}
