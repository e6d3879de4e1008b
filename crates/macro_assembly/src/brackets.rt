//! What brackets hold.

use crate::calls::{call, condition};
use crate::elements::data_words;
use crate::instructions::{instruction, word};
use crate::statements::read_item;
use crate::steps::{BracketStep, Step, Work};
use macro_names::Name;
use macro_operations::Pseudo;
use macro_reading::{
    Meant, OpenLiteral, begin_inner, close_bracket, close_literal, is_condition, meant_in_brackets,
    next_in_literal, single_word, word_count,
};
use macro_state::Assembly;
use macro_stream::Place;

/// Reads what is in a bracket: a value or a one-word statement; gives `None` if it is empty.
pub fn read_bracket_content(state: &mut Assembly, work: &mut Work) {
    let place = begin_inner(state);
    if !state.is_name_next() {
        return word(state, work);
    }
    let name = state.name();
    match meant_in_brackets(state, name, place) {
        Meant::Value => word(state, work),
        Meant::Macro(index) => {
            work.push(state, Step::Bracket(BracketStep::Inside));
            call(state, work, name, index, place)
        }
        Meant::Operation(operation) => {
            expect_word(state, work, name, place);
            instruction(state, work, operation)
        }
        Meant::Pseudo(pseudo) => pseudo_word(state, work, pseudo, name, place),
    }
}

/// The statement that is read next is to give one word, which then is the value.
fn expect_word(state: &mut Assembly, work: &mut Work, name: Name, place: Place) {
    let first = word_count(state);
    let step = BracketStep::OneWord { first, name, place };
    work.push(state, Step::Bracket(step))
}

/// Reads the word of a pseudo-operation; behind a condition or a repetition what follows begins again.
fn pseudo_word(state: &mut Assembly, work: &mut Work, pseudo: Pseudo, name: Name, place: Place) {
    if is_condition(pseudo) {
        work.push(state, Step::Bracket(BracketStep::Inside));
        return condition(state, work, pseudo, name);
    }
    expect_word(state, work, name, place);
    data_words(state, work, pseudo, name);
}

/// The one word of a statement, behind so many others.
pub fn one_word(state: &mut Assembly, work: &mut Work, first: usize, name: Name, place: Place) {
    let value = single_word(state, first, name, place);
    work.give(Some(value))
}

/// Closes a bracket.
pub fn close(state: &mut Assembly, work: &mut Work, bracket: u8, statement: Place) {
    let value = close_bracket(state, bracket, work.value(), statement);
    work.give(Some(value))
}

/// Reads the next statement of a literal, or closes it: its place, where this pass knows it.
pub fn read_literal(state: &mut Assembly, work: &mut Work, open: OpenLiteral) {
    if next_in_literal(state, open.place) {
        work.push(state, Step::Bracket(BracketStep::Literal(open)));
        return read_item(state, work, true);
    }
    let value = close_literal(state, open);
    work.give(Some(value))
}
