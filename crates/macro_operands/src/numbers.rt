//! Numbers, quoted characters, and bits behind values.

use crate::floats::float_value;
use crate::operators::as_word;
use macro_faults::Fault;
use macro_names::{is_digit, is_name_character, sixbit_of};
use macro_state::{Assembly, Value};
use macro_stream::Place;
use macro_values::shift;

/// The most digits of a number that is told.
const MOST_TOLD: usize = 18;

/// Whether a digit was read that a radix does not have.
fn has_other_digit(digits: &[u8], radix: u8) -> bool {
    for digit in digits {
        if digit.saturating_sub(b'0') >= radix {
            return true;
        }
    }
    false
}

/// The fault of a number with a digit that its radix does not have. The number is read in decimal, as it is written.
fn digits_fault(digits: &[u8], radix: u8) -> Fault {
    if digits.len() > MOST_TOLD {
        return Fault::LongDigits(radix);
    }
    let mut number = 0i64;
    for digit in digits {
        let own = i64::from(digit.saturating_sub(b'0'));
        number = number.saturating_mul(10).saturating_add(own);
    }
    Fault::Digits(number, radix)
}

/// The value in a radix of the digits that were read, which begin at a place. A letter right behind them is told elsewhere.
fn digits_value(state: &mut Assembly, radix: u8, place: Place) -> Value {
    if has_other_digit(state.digits.as_slice(), radix) {
        if !is_letter_next(state) {
            let fault = digits_fault(state.digits.as_slice(), radix);
            state.tell(place, fault);
        }
        return Value::unknown(false);
    }
    let radix = radix.min(10);
    match state
        .numbers
        .of_digits(state.alloc, radix, state.digits.as_slice())
    {
        Ok(number) => Value {
            number: Some(number),
            placed: false,
        },
        Err(_) => {
            state.out_of_memory();
            Value::unknown(false)
        }
    }
}

/// A term of one part: a number, or characters in quotes, which begins with this character.
pub fn plain_value(state: &mut Assembly, next: Option<u8>, place: Place) -> Value {
    match next {
        Some(quote) if quote == b'"' || quote == b'\'' => quoted(state, quote, place),
        Some(digit) if is_digit(digit) => plain_number(state, place),
        Some(_) | None => {
            state.unexpected();
            Value::unknown(false)
        }
    }
}

/// `.`: the place of the statement.
pub fn dot_value(state: &mut Assembly) -> Value {
    state.advance(b'.');
    Value::signed(state.statement_address, true)
}

/// A number that begins with a digit, in the radix of the numbers, or in decimal where `.` stands behind it.
fn plain_number(state: &mut Assembly, place: Place) -> Value {
    state.read_digits();
    let mut radix = state.number_radix;
    match state.peek() {
        Some(b'.') => {
            state.advance(b'.');
            radix = 10;
            match state.peek() {
                Some(digit) if is_digit(digit) => return float_value(state, place),
                Some(b'E' | b'e') => state.fail(place, Fault::FloatForm),
                Some(_) | None => (),
            }
        }
        Some(b'E' | b'e') => state.fail(place, Fault::FloatForm),
        Some(_) | None => (),
    }
    digits_value(state, radix, place)
}

/// A number in digits, which has to be next, in a radix.
pub fn digits_in(state: &mut Assembly, radix: u8, place: Place) -> Value {
    match state.peek() {
        Some(digit) if is_digit(digit) => {
            state.read_digits();
            digits_value(state, radix, place)
        }
        Some(_) | None => {
            state.unexpected();
            Value::unknown(false)
        }
    }
}

/// The radix that a letter behind `^` stands for.
fn radix_of(letter: u8) -> Option<u8> {
    match letter {
        b'D' | b'd' => Some(10),
        b'O' | b'o' => Some(8),
        b'B' | b'b' => Some(2),
        _ => None,
    }
}

/// The radix behind `^`; goes on behind it.
pub fn marked_radix(state: &mut Assembly, place: Place) -> u8 {
    state.advance(b'^');
    let letter = state.peek().unwrap_or(b' ');
    match letter {
        b'F' | b'f' | b'L' | b'l' => state.fail(place, Fault::Scaled),
        _ => match radix_of(letter) {
            Some(radix) => {
                state.advance(letter);
                return radix;
            }
            None => state.unexpected(),
        },
    }
    10
}

/// The radix of a bit number: 10, or what stands behind `^`.
pub fn bit_radix(state: &mut Assembly, place: Place) -> u8 {
    if state.peek() == Some(b'^') {
        return marked_radix(state, place);
    }
    10
}

/// The source position of the next character; blanks are not skipped.
pub fn next_place(state: &mut Assembly) -> Place {
    state.peek();
    state.place()
}

/// Whether `B` and a bit number are next, given the two characters.
fn is_bits(next: u8, second: Option<u8>) -> bool {
    let follows = match second {
        Some(other) => is_digit(other) || other == b'<' || other == b'^',
        None => false,
    };
    (next == b'B' || next == b'b') && follows
}

/// Whether a letter is next that begins no bit number.
fn is_letter_next(state: &mut Assembly) -> bool {
    match state.peek() {
        Some(next) => is_name_character(next) && !is_bits(next, state.second()),
        None => false,
    }
}

/// Goes on behind the `B` of a bit number that is next behind a value; gives its place. None where no bit number is next.
pub fn take_bits(state: &mut Assembly) -> Option<Place> {
    let next = match state.peek() {
        Some(next) if is_name_character(next) => next,
        Some(_) | None => return None,
    };
    if is_letter_next(state) {
        state.fail_here(Fault::ExpectedNumberEnd(next));
        return None;
    }
    let place = state.place();
    state.advance(next);
    Some(place)
}

/// A value with its last bit at this bit. `start` is where the value begins, `place` that of `B`.
pub fn moved(state: &mut Assembly, value: Value, bit: Value, start: Place, place: Place) -> Value {
    match state.peek() {
        Some(next) if is_name_character(next) => { state.fail_here(Fault::ExpectedNumberEnd(next)) }
        Some(_) | None => (),
    }
    let placed = value.placed || bit.placed;
    let word = as_word(state, value, start);
    let Some(bit) = state.known(bit) else {
        return Value::unknown(placed);
    };
    if bit < 0 || bit > 35 {
        state.tell(place, Fault::BitNumber(bit));
        return Value::unknown(placed);
    }
    let word = match word {
        Some(word) => Some(shift(word, 35 - bit)),
        None => None,
    };
    Value::of_word(word, placed)
}

/// The code of a character between quotes; 0 where SIXBIT does not have it.
fn code_of(quote: u8, character: u8) -> i64 {
    if quote == b'"' {
        return i64::from(character);
    }
    i64::from(sixbit_of(character).unwrap_or(0))
}

/// The next character between quotes, of which the first stands at a place; the quote written twice stands for itself. None
/// behind the last.
fn quoted_character(state: &mut Assembly, quote: u8, place: Place) -> Option<u8> {
    let character = match state.peek() {
        None | Some(b'\n') => {
            state.fail(place, Fault::NoQuote(quote));
            return None;
        }
        Some(character) => character,
    };
    if quote == b'\'' && sixbit_of(character).is_none() {
        state.tell(state.place(), Fault::NoSixbit(character));
    }
    state.advance(character);
    if character == quote {
        if state.peek() != Some(quote) {
            return None;
        }
        state.advance(quote);
    }
    Some(character)
}

/// Characters between quotes, right-justified.
fn quoted(state: &mut Assembly, quote: u8, place: Place) -> Value {
    state.advance(quote);
    let (step, most) = if quote == b'"' {
        (128i64, 5)
    } else {
        (64i64, 6)
    };
    let mut value = 0i64;
    let mut count = 0u32;
    for _ in 0..8 {
        let Some(character) = quoted_character(state, quote, place) else {
            break;
        };
        if count >= most {
            state.fail(place, Fault::LongQuote(quote));
            break;
        }
        count = count.saturating_add(1);
        let code = code_of(quote, character);
        value = value.wrapping_mul(step).wrapping_add(code);
    }
    if count == 0 {
        state.fail(place, Fault::EmptyQuote);
    }
    Value::signed(value, false)
}
