//! Constants of floating point.

use float_words::{FloatFault, decimal_float};
use macro_faults::Fault;
use macro_names::{is_digit, is_name_character};
use macro_state::{Assembly, Value};
use macro_stream::Place;
use word36::Word;

/// Reads the digits that are next behind those that were read; gives how many there are.
fn read_fraction(state: &mut Assembly) -> usize {
    let before = state.digits.len();
    for _ in 0..u64::MAX {
        match state.peek() {
            Some(digit) if is_digit(digit) => {
                let done = state.digits.push(digit).is_ok();
                state.kept(done);
                state.advance(digit);
            }
            Some(_) | None => break,
        }
    }
    state.digits.len().saturating_sub(before)
}

/// Reads the sign that is next, if one is; gives whether it is `-`.
fn read_sign(state: &mut Assembly) -> bool {
    match state.peek() {
        Some(sign) if sign == b'+' || sign == b'-' => {
            state.advance(sign);
            sign == b'-'
        }
        Some(_) | None => false,
    }
}

/// Reads the digits of a power of ten, of which one at least has to be next.
fn read_power(state: &mut Assembly) -> i64 {
    let mut power = 0i64;
    let mut has_digit = false;
    for _ in 0..u64::MAX {
        match state.peek() {
            Some(digit) if is_digit(digit) => {
                has_digit = true;
                let own = i64::from(digit.saturating_sub(b'0'));
                power = power.saturating_mul(10).saturating_add(own);
                state.advance(digit);
            }
            Some(_) | None => break,
        }
    }
    if !has_digit {
        state.unexpected();
    }
    power
}

/// Reads `E` and a power of ten, if they are next; gives 0 where they are not.
fn read_exponent(state: &mut Assembly) -> i64 {
    match state.peek() {
        Some(letter) if letter == b'E' || letter == b'e' => {
            state.advance(letter);
            let is_negative = read_sign(state);
            let power = read_power(state);
            if is_negative {
                power.saturating_neg()
            } else {
                power
            }
        }
        Some(_) | None => 0,
    }
}

/// The value of the digits that were read, times a power of ten.
fn value_of(state: &mut Assembly, exponent: i64, place: Place) -> Value {
    match decimal_float(state.alloc, state.digits.as_slice(), exponent) {
        Ok(Ok(word)) => return Value::of_word(Some(Word::low_bits(word)), false),
        Ok(Err(FloatFault::TooLarge)) => state.tell(place, Fault::FloatTooLarge),
        Ok(Err(FloatFault::TooSmall)) => state.tell(place, Fault::FloatTooSmall),
        Err(_) => state.out_of_memory(),
    }
    Value::unknown(false)
}

/// A constant of floating point, whose digits before the point were read and begin at a place, and whose fraction is next. No bit
/// number may stand behind it.
pub fn float_value(state: &mut Assembly, place: Place) -> Value {
    let digits = read_fraction(state);
    let exponent = read_exponent(state).saturating_sub_unsigned(digits as u64);
    match state.peek() {
        Some(next) if is_name_character(next) => { state.fail_here(Fault::ExpectedNumberEnd(next)) }
        Some(_) | None => (),
    }
    if state.pass == 2 {
        let done = state.listing.float(place.line).is_ok();
        state.kept(done);
    }
    value_of(state, exponent, place)
}
