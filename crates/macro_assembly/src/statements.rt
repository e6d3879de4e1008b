//! Labels, assignments and statements.

use crate::brackets::read_bracket_content;
use crate::calls::{call, condition};
use crate::elements::data_words;
use crate::instructions::{instruction, word};
use crate::pseudo::directive;
use crate::steps::{StatementStep, Step, Work};
use macro_names::Name;
use macro_operands::start_of_value;
use macro_operations::Pseudo;
use macro_reading::{
    Begun, Meant, add_value, assign_value, begin_statement, is_condition, read_beginning,
    read_equals, refuse_in_literal,
};
use macro_state::Assembly;
use macro_stream::Place;

/// Reads a label or a statement, which is next.
pub fn read_item(state: &mut Assembly, work: &mut Work, in_literal: bool) {
    let place = begin_statement(state, in_literal);
    let end = Step::Statement(StatementStep::End { in_literal });
    match read_beginning(state, place, in_literal) {
        Begun::Label => (),
        Begun::Assigned(name) => {
            work.push(state, end);
            assignment(state, work, name, place)
        }
        Begun::Value | Begun::Named(_, Meant::Value) => {
            work.push(state, end);
            value_statement(state, work)
        }
        Begun::Named(_, Meant::Operation(operation)) => {
            work.push(state, end);
            instruction(state, work, operation)
        }
        Begun::Named(name, Meant::Macro(index)) => call(state, work, name, index, place),
        Begun::Named(name, Meant::Pseudo(pseudo)) => pseudo_statement(
            state, work, pseudo, name, place, in_literal,
        ),
    }
}

/// Reads a pseudo-operation. Behind a condition or a repetition the line goes on as at the beginning of a statement.
fn pseudo_statement(
    state: &mut Assembly,
    work: &mut Work,
    pseudo: Pseudo,
    name: Name,
    place: Place,
    in_literal: bool,
) {
    if is_condition(pseudo) {
        return condition(state, work, pseudo, name);
    }
    let end = StatementStep::End { in_literal };
    work.push(state, Step::Statement(end));
    if in_literal {
        state.end_begun = state.end_begun || pseudo == Pseudo::End;
        refuse_in_literal(state, pseudo, name);
    }
    if !data_words(state, work, pseudo, name) {
        directive(state, work, pseudo, name, place, in_literal);
    }
}

/// Reads a statement that is a word.
fn value_statement(state: &mut Assembly, work: &mut Work) {
    let place = start_of_value(state);
    work.push(state, Step::Statement(StatementStep::Word(place)));
    word(state, work)
}

/// Adds the word that is the statement.
pub fn add_word(state: &mut Assembly, work: &mut Work, place: Place) {
    add_value(state, work.value(), place)
}

/// Reads an assignment, whose name is read.
fn assignment(state: &mut Assembly, work: &mut Work, name: Name, place: Place) {
    let start = read_equals(state, name, place);
    let step = StatementStep::Assigned { name, place, start };
    work.push(state, Step::Statement(step));
    read_bracket_content(state, work)
}

/// Assigns the value, which is read.
pub fn assigned(state: &mut Assembly, work: &mut Work, name: Name, place: Place, start: Place) {
    assign_value(state, name, place, work.value(), start)
}
