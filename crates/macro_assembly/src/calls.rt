//! Calls of macros, conditions and repetitions.

use crate::operators::optional;
use crate::steps::{CallStep, ExpressionStep, OpenCall, Step, Work};
use macro_names::Name;
use macro_operands::{begin_needed, or_zero, start_of_value};
use macro_operations::Pseudo;
use macro_reading::{
    argument_count, argument_text, begin_digits, begin_text, called_macro, end_digits,
    is_digits_argument, needs_number, next_argument, plain_condition, push_argument, with_number,
};
use macro_state::Assembly;
use macro_stream::Place;

/// Calls a macro: reads its arguments, and puts its body in front of what follows.
pub fn call(state: &mut Assembly, work: &mut Work, name: Name, index: usize, place: Place) {
    let called = called_macro(state, name, index, place);
    let body = CallStep::Body {
        name,
        called,
        place,
        given: argument_count(state),
    };
    work.push(state, Step::Call(body));
    if called.count > 0 {
        let in_parentheses = state.eat(b'(');
        let open = OpenCall {
            name,
            place,
            in_parentheses,
        };
        argument(state, work, open)
    }
}

/// Reads an argument of a call: a text, or behind `\` an expression, whose digits it is.
fn argument(state: &mut Assembly, work: &mut Work, open: OpenCall) {
    work.push(state, Step::Call(CallStep::Argument(open)));
    if is_digits_argument(state) {
        let (start, statement) = begin_digits(state, open.place);
        let digits = CallStep::Digits {
            name: open.name,
            start,
            statement,
        };
        work.push(state, Step::Call(digits));
        work.push(state, Step::Expression(ExpressionStep::Begin))
    } else {
        let text = argument_text(state, open.name, open.in_parentheses);
        push_argument(state, text)
    }
}

/// Keeps the digits of a value as an argument.
pub fn digits(state: &mut Assembly, work: &mut Work, name: Name, start: Place, statement: Place) {
    let digits = end_digits(state, or_zero(work.value()), name, start, statement);
    push_argument(state, digits)
}

/// Goes on behind an argument.
pub fn behind_argument(state: &mut Assembly, work: &mut Work, open: OpenCall) {
    if next_argument(state, open.in_parentheses, open.place) {
        argument(state, work, open)
    }
}

/// A condition, a repetition or COMMENT.
pub fn condition(state: &mut Assembly, work: &mut Work, pseudo: Pseudo, name: Name) {
    begin_text(state);
    if !needs_number(pseudo) {
        return plain_condition(state, pseudo, name);
    }
    begin_needed(state);
    let place = start_of_value(state);
    let number = CallStep::Number {
        pseudo,
        name,
        place,
    };
    work.push(state, Step::Call(number));
    optional(state, work)
}

/// Goes on behind the number of a condition or a repetition.
pub fn behind_number(
    state: &mut Assembly,
    work: &mut Work,
    pseudo: Pseudo,
    name: Name,
    place: Place,
) {
    with_number(state, pseudo, name, work.value(), place)
}
