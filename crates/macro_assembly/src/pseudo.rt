//! Pseudo-operations that give no words.

use crate::brackets::read_bracket_content;
use crate::elements::decimal;
use crate::operators::optional;
use crate::steps::{StatementStep, Step, Work};
use macro_names::Name;
use macro_operands::{begin_needed, set_radix};
use macro_operations::Pseudo;
use macro_reading::{
    define_operation, operation_name, plain_directive, takes_value, value_directive,
};
use macro_state::Assembly;
use macro_stream::Place;

/// Carries out a pseudo-operation that gives no words, or keeps places. `place` is that of the statement.
pub fn directive(
    state: &mut Assembly,
    work: &mut Work,
    pseudo: Pseudo,
    name: Name,
    place: Place,
    in_literal: bool,
) {
    if pseudo == Pseudo::Opdef {
        opdef(state, work, name, place)
    } else if pseudo == Pseudo::Radix {
        begin_needed(state);
        work.push(state, Step::Statement(StatementStep::Radix(name)));
        decimal(state, work)
    } else if takes_value(pseudo) {
        begin_needed(state);
        state.end_begun = state.end_begun || pseudo == Pseudo::End;
        let step = StatementStep::Directive {
            pseudo,
            name,
            in_literal,
        };
        work.push(state, Step::Statement(step));
        optional(state, work)
    } else {
        plain_directive(state, pseudo, name)
    }
}

/// OPDEF.
fn opdef(state: &mut Assembly, work: &mut Work, what: Name, place: Place) {
    let name = operation_name(state, what);
    let step = StatementStep::Defined { name, what, place };
    work.push(state, Step::Statement(step));
    read_bracket_content(state, work)
}

/// Defines an operation, whose word is read.
pub fn defined(state: &mut Assembly, work: &mut Work, name: Name, what: Name, place: Place) {
    let start = work.start();
    define_operation(state, work.value(), name, what, place, start)
}

/// Sets the radix, which is read.
pub fn radix(state: &mut Assembly, work: &mut Work, name: Name) {
    let start = work.start();
    set_radix(state, work.value(), name, start)
}

/// Carries out a pseudo-operation whose value is read.
pub fn with_value(
    state: &mut Assembly,
    work: &mut Work,
    pseudo: Pseudo,
    name: Name,
    in_literal: bool,
) {
    let start = work.start();
    value_directive(state, pseudo, name, work.value(), in_literal, start)
}
