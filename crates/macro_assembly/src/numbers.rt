//! Numbers with their radix, and bits behind values.

use crate::steps::{ExpressionStep, Step, Work};
use crate::terms::open;
use macro_operands::{bit_radix, digits_in, moved, next_place, or_zero, swap_radix, take_bits};
use macro_state::{Assembly, Value};
use macro_stream::Place;

/// Numbers have a radix until the steps before it are done.
pub fn with_radix(state: &mut Assembly, work: &mut Work, radix: u8) {
    let kept = swap_radix(state, radix);
    work.push(state, Step::Expression(ExpressionStep::Radix(kept)))
}

/// Reads digits in a radix, or an expression in `< >` in it.
pub fn radix_value(state: &mut Assembly, work: &mut Work, radix: u8, place: Place) {
    if state.peek() == Some(b'<') {
        with_radix(state, work, radix);
        return open(state, work, b'<');
    }
    let value = digits_in(state, radix, place);
    work.give(Some(value))
}

/// Reads `B` and a bit number behind the value, which begins at `start`, if they are there.
pub fn bits(state: &mut Assembly, work: &mut Work, start: Place) {
    let Some(place) = take_bits(state) else {
        return;
    };
    let number = next_place(state);
    let radix = bit_radix(state, number);
    let step = ExpressionStep::BitNumber {
        value: or_zero(work.value()),
        start,
        place,
    };
    work.push(state, Step::Expression(step));
    radix_value(state, work, radix, number)
}

/// Moves a value to the bit whose number is read.
pub fn bit_number(state: &mut Assembly, work: &mut Work, value: Value, start: Place, place: Place) {
    let bit = or_zero(work.value());
    let value = moved(state, value, bit, start, place);
    work.give(Some(value))
}
