//! Terms: names, brackets, literals.

use crate::calls::call;
use crate::numbers::{bits, radix_value};
use crate::steps::{BracketStep, ExpressionStep, Step, Work};
use macro_operands::{dot_value, marked_radix, plain_value};
use macro_reading::{macro_in_operand, name_value, next_name, open_bracket, open_literal};
use macro_state::Assembly;

/// Reads a term.
pub fn term(state: &mut Assembly, work: &mut Work) {
    let Some((name, place)) = next_name(state) else {
        return plain_term(state, work);
    };
    match macro_in_operand(state, name, place) {
        Some(index) => {
            work.push(state, Step::Expression(ExpressionStep::Term));
            call(state, work, name, index, place)
        }
        None => {
            let value = name_value(state, name, place);
            work.give(Some(value))
        }
    }
}

/// Reads a term that is no name.
fn plain_term(state: &mut Assembly, work: &mut Work) {
    let next = state.peek();
    let place = state.place();
    let bits_behind = Step::Expression(ExpressionStep::Bits(place));
    match next {
        Some(b'[') => {
            let literal = open_literal(state);
            work.push(state, Step::Bracket(BracketStep::Literal(literal)))
        }
        Some(b'.') => work.give(Some(dot_value(state))),
        Some(b'<') => {
            work.push(state, bits_behind);
            open(state, work, b'<')
        }
        Some(b'^') => {
            let radix = marked_radix(state, place);
            work.push(state, bits_behind);
            radix_value(state, work, radix, place)
        }
        _ => {
            let value = plain_value(state, next, place);
            work.give(Some(value));
            bits(state, work, place)
        }
    }
}

/// Opens a bracket, which is next, and reads what it holds: a value, or a statement of one word.
pub fn open(state: &mut Assembly, work: &mut Work, bracket: u8) {
    let statement = open_bracket(state, bracket);
    let close = BracketStep::Close { bracket, statement };
    work.push(state, Step::Bracket(close));
    work.push(state, Step::Bracket(BracketStep::Inside))
}
