//! Pseudo-operations that give words.

use crate::instructions::{Fields, halves};
use crate::operators::{as_word, or_zero};
use crate::settings::begin_needed;
use mac_text::TextForm;
use macro_faults::Fault;
use macro_names::{Name, sixbit_of, text_of};
use macro_state::{Assembly, Value};
use macro_stream::Place;
use word36::Word;

/// Adds the word of XWD, or that of IOWD: the left half negated, the right half one less. Each half stands with where it begins.
pub fn push_pair(
    state: &mut Assembly,
    left: (Option<Value>, Place),
    right: (Option<Value>, Place),
    is_count: bool,
) {
    let (left_place, right_place) = (left.1, right.1);
    let mut left = or_zero(left.0);
    let mut right = or_zero(right.0);
    if is_count {
        left = difference(state, Value::zero(), left);
        right = difference(state, right, Value::signed(1, false));
    }
    let word = halves(state, (left, left_place), (right, right_place));
    state.push_word(word);
}

/// A value less another.
fn difference(state: &mut Assembly, value: Value, less: Value) -> Value {
    let (Some(one), Some(other)) = (value.number, less.number) else {
        return Value::unknown(false);
    };
    match state.numbers.difference(state.alloc, one, other) {
        Ok(number) => Value {
            number: Some(number),
            placed: false,
        },
        Err(_) => {
            state.out_of_memory();
            Value::unknown(false)
        }
    }
}

/// The size that POINT gives, which begins at a place.
pub fn point_size(state: &mut Assembly, size: Option<Value>, place: Place) -> Option<u64> {
    let Some(number) = state.known(or_zero(size)) else {
        return None;
    };
    if number < 0 || number > 36 {
        state.misfit(place, Fault::PointSize(number));
        return None;
    }
    Some(number as u64)
}

/// The position of POINT's last bit, which begins at a place; where no bit is given it is 36.
fn position_of(state: &mut Assembly, bit: Option<Value>, place: Place) -> Option<u64> {
    let Some(bit) = bit else {
        return Some(36);
    };
    let Some(number) = state.known(bit) else {
        return None;
    };
    if number < 0 || number > 35 {
        state.misfit(place, Fault::PointBit(number));
        return None;
    }
    Some(35u64.saturating_sub(number as u64))
}

/// Adds the word of POINT, whose address has these fields, and whose bit begins at a place.
pub fn push_point(
    state: &mut Assembly,
    size: Option<u64>,
    fields: Fields,
    bit: Option<Value>,
    place: Place,
) {
    let position = position_of(state, bit, place);
    let word = match (size, position) {
        (Some(size), Some(position)) => {
            let high = position.wrapping_mul(64).wrapping_add(size);
            Some(Word::low_bits(high.wrapping_mul(0o100_000_000)))
        }
        _ => None,
    };
    let pointer = Fields::of_word(word, false);
    state.push_word(fields.plus(pointer).word());
}

/// The code of a character of a text; 0 where SIXBIT does not have it.
fn text_code(form: TextForm, character: u8) -> u64 {
    match form {
        TextForm::Ascii | TextForm::Asciz => u64::from(character),
        TextForm::Sixbit => u64::from(sixbit_of(character).unwrap_or(0)),
    }
}

/// ASCII, ASCIZ and SIXBIT: characters from the left, five of 7 bits or six of 6 bits in a word.
pub fn text_words(state: &mut Assembly, form: TextForm, name: Name) {
    let is_sixbit = form == TextForm::Sixbit;
    let mut characters = state.marked_text(name, is_sixbit);
    if form == TextForm::Asciz {
        state.add_to(&mut characters, 0);
    }
    let bits = if is_sixbit { 6 } else { 7 };
    let mut filling = Filling::new();
    for character in &characters {
        let code = text_code(form, *character);
        add_byte(state, &mut filling, Some(code), bits);
    }
    if !characters.is_empty() {
        state.push_word(filling.word());
    }
}

/// A word that is filled with bytes from the left.
#[derive(Clone, Copy)]
pub struct Filling {
    /// The number of the word so far, where it is known.
    word: Option<u64>,
    /// How many bits are free.
    free: u64,
    /// The size of the bytes.
    size: u64,
}

impl Filling {
    /// No bytes.
    pub fn new() -> Filling {
        Filling {
            word: Some(0),
            free: 36,
            size: 0,
        }
    }

    /// The word so far, where it is known.
    pub fn word(self) -> Option<Word> {
        match self.word {
            Some(number) => Some(Word::low_bits(number)),
            None => None,
        }
    }

    /// Sets the size of the bytes that follow, in bits; what the word has so far stays.
    pub fn with_size(self, size: u64) -> Filling {
        Filling { size, ..self }
    }
}

/// Adds a byte; one that does not fit the word begins the next.
fn add_byte(state: &mut Assembly, filling: &mut Filling, byte: Option<u64>, size: u64) {
    if size > filling.free {
        state.push_word(filling.word());
        filling.word = Some(0);
        filling.free = 36;
    }
    filling.free = filling.free.saturating_sub(size);
    filling.word = match (filling.word, byte) {
        (Some(word), Some(byte)) => {
            let moved = macro_values::shift(Word::low_bits(byte), filling.free.min(36) as i64);
            Some(word | moved.number())
        }
        _ => None,
    };
}

/// A value, which begins at a place, as a byte of so many bits.
fn as_byte(state: &mut Assembly, value: Value, size: u64, place: Place) -> Option<u64> {
    let most = (1u64 << size.min(36)).saturating_sub(1);
    let Some(number) = state.known(value) else {
        return None;
    };
    if number.unsigned_abs() > most {
        state.misfit(place, Fault::ByteValue(number, size.min(36) as i64));
        return None;
    }
    Some(number.cast_unsigned() & most)
}

/// The word with a value, which begins at a place, added as a byte; one that does not fit the word begins the next.
pub fn with_byte(state: &mut Assembly, filling: Filling, value: Value, place: Place) -> Filling {
    let mut filling = filling;
    let size = filling.size;
    let byte = as_byte(state, value, size, place);
    add_byte(state, &mut filling, byte, size);
    filling
}

/// Goes on behind the `(` before a size.
pub fn open_size(state: &mut Assembly) {
    state.advance(b'(');
    begin_needed(state);
}

/// The size of bytes, which begins at a place and stands in parentheses.
pub fn size_of_bytes(state: &mut Assembly, size: i64, place: Place) -> u64 {
    if size < 1 || size > 36 {
        state.fail(place, Fault::ByteSize(size));
        return 0;
    }
    state.expect(b')');
    size as u64
}

/// A digit of radix 50.
fn digit50(character: u8) -> u64 {
    match character {
        b'0'..=b'9' => u64::from(character - b'0') + 1,
        b'A'..=b'Z' => u64::from(character - b'A') + 0o13,
        b'.' => 0o45,
        b'$' => 0o46,
        _ => 0o47,
    }
}

/// Adds the word of RADIX50 or SQUOZE, whose code is read, and begins at a place.
pub fn push_radix50(state: &mut Assembly, code: Option<Value>, what: Name, place: Place) {
    let code = as_word(state, or_zero(code), place);
    if !state.eat(b',') {
        state.fail_statement(Fault::Needs(what));
    }
    let name = state.needed_name(what);
    let mut value = 0u64;
    for character in text_of(name).as_slice() {
        value = value.wrapping_mul(0o50).wrapping_add(digit50(*character));
    }
    let word = match code {
        Some(code) => Some(Word::low_bits((code.number() & 0o74) << 30 | value)),
        None => None,
    };
    state.push_word(word);
}

/// Requires the `(` that opens the byte size.
pub fn need_size(state: &mut Assembly, name: Name) {
    if state.blanks() != Some(b'(') {
        state.fail_statement(Fault::Needs(name));
    }
}
