//! Values with operators between them.

use crate::steps::{ExpressionStep, LeftSide, Step, Work};
use crate::terms::term;
use macro_operands::{
    Infix, apply_signs, combined, is_value_next, or_zero, read_signs, start_of_value, strength,
    take_operator,
};
use macro_state::Assembly;
use macro_stream::Place;

/// Reads an expression, or nothing.
pub fn optional(state: &mut Assembly, work: &mut Work) {
    if is_value_next(state) {
        sum(state, work)
    } else {
        work.give(None)
    }
}

/// Reads an expression.
pub fn sum(state: &mut Assembly, work: &mut Work) {
    let start = start_of_value(state);
    operand(state, work, start, 0)
}

/// Reads a term with its signs, and the operators behind it that bind at least so strongly.
fn operand(state: &mut Assembly, work: &mut Work, start: Place, least: u8) {
    let signs = read_signs(state);
    let behind = ExpressionStep::Behind {
        start,
        least,
        signs,
    };
    work.push(state, Step::Expression(behind));
    term(state, work)
}

/// Goes on behind a term. Its signs are those behind the first `signs` that are kept.
pub fn read_after_term(
    state: &mut Assembly,
    work: &mut Work,
    start: Place,
    least: u8,
    signs: usize,
) {
    let value = apply_signs(state, or_zero(work.value()), signs);
    let left = LeftSide {
        value,
        start,
        least,
    };
    operators(state, work, left)
}

/// The next operator that takes this left side, if one is next. Those of one strength go from left to right.
fn operators(state: &mut Assembly, work: &mut Work, left: LeftSide) {
    let Some(between) = take_operator(state, left.least) else {
        return work.give_from(left.value, left.start);
    };
    let place = start_of_value(state);
    let right = ExpressionStep::RightSide {
        left,
        between,
        place,
    };
    work.push(state, Step::Expression(right));
    operand(state, work, place, strength(between).saturating_add(1))
}

/// Goes on behind the right side of an operator, which begins at `place`.
pub fn right_side(
    state: &mut Assembly,
    work: &mut Work,
    left: LeftSide,
    between: Infix,
    place: Place,
) {
    let right = or_zero(work.value());
    let value = combined(state, between, (left.value, left.start), (right, place));
    operators(state, work, LeftSide { value, ..left })
}
