//! Takes the steps of a statement.

use crate::brackets::{close, one_word, read_bracket_content, read_literal};
use crate::calls::{behind_argument, behind_number, digits};
use crate::elements::{
    add_byte, add_element, add_pair, add_radix50, behind_address, behind_left, behind_size,
    with_size,
};
use crate::instructions::{
    add_instruction, behind_operand, finish_indexed_word, index, read_after_base, read_after_first,
    right_half, with_accumulator,
};
use crate::numbers::{bit_number, bits};
use crate::operators::{read_after_term, right_side, sum};
use crate::pseudo::{defined, radix, with_value};
use crate::statements::{add_word, assigned, read_item};
use crate::steps::{
    BracketStep, CallStep, DataStep, ExpressionStep, StatementStep, Step, WordStep, Work,
};
use crate::terms::term;
use macro_operands::{push_point, swap_radix};
use macro_reading::{put_body, statement_end};
use macro_state::Assembly;

/// Reads a label or a statement, which is next, and carries it out.
pub fn carry_out(state: &mut Assembly, work: &mut Work) {
    read_item(state, work, false);
    for _ in 0..u64::MAX {
        match work.next() {
            Some(step) => take(state, work, step),
            None => break,
        }
    }
}

/// Takes a step.
fn take(state: &mut Assembly, work: &mut Work, step: Step) {
    match step {
        Step::Expression(step) => take_expression(state, work, step),
        Step::Bracket(step) => take_bracket(state, work, step),
        Step::Word(step) => take_word(state, work, step),
        Step::Data(step) => take_data(state, work, step),
        Step::Statement(step) => take_statement(state, work, step),
        Step::Call(step) => take_call(state, work, step),
    }
}

fn take_expression(state: &mut Assembly, work: &mut Work, step: ExpressionStep) {
    match step {
        ExpressionStep::Begin => sum(state, work),
        ExpressionStep::Term => term(state, work),
        ExpressionStep::Behind {
            start,
            least,
            signs,
        } => read_after_term(state, work, start, least, signs),
        ExpressionStep::RightSide {
            left,
            between,
            place,
        } => right_side(state, work, left, between, place),
        ExpressionStep::Bits(place) => bits(state, work, place),
        ExpressionStep::BitNumber {
            value,
            start,
            place,
        } => bit_number(state, work, value, start, place),
        ExpressionStep::Radix(kept) => {
            swap_radix(state, kept);
        }
    }
}

fn take_bracket(state: &mut Assembly, work: &mut Work, step: BracketStep) {
    match step {
        BracketStep::Inside => read_bracket_content(state, work),
        BracketStep::OneWord { first, name, place } => one_word(state, work, first, name, place),
        BracketStep::Close { bracket, statement } => close(state, work, bracket, statement),
        BracketStep::Literal(open) => read_literal(state, work, open),
    }
}

fn take_word(state: &mut Assembly, work: &mut Work, step: WordStep) {
    match step {
        WordStep::First { start, indirect } => read_after_first(state, work, start, indirect),
        WordStep::RightHalf { left, start } => right_half(state, work, left, start),
        WordStep::Indexed { base, placed } => finish_indexed_word(state, work, base, placed),
        WordStep::Base { indirect } => read_after_base(state, work, indirect),
        WordStep::Index(base) => index(state, work, base),
        WordStep::Operand {
            takes_address,
            is_device,
            place,
        } => behind_operand(state, work, takes_address, is_device, place),
        WordStep::Accumulator(accumulator) => with_accumulator(work, accumulator),
        WordStep::Instruction(own) => add_instruction(state, work, own),
    }
}

fn take_data(state: &mut Assembly, work: &mut Work, step: DataStep) {
    match step {
        DataStep::Element(place) => add_element(state, work, place),
        DataStep::Left { is_count } => behind_left(state, work, is_count),
        DataStep::Right {
            left,
            start,
            is_count,
        } => add_pair(state, work, left, start, is_count),
        DataStep::PointSize => behind_size(state, work),
        DataStep::PointAddress(size) => behind_address(state, work, size),
        DataStep::PointBit { size, fields } => {
            let start = work.start();
            push_point(state, size, fields, work.value(), start)
        }
        DataStep::ByteSize { filling, name } => with_size(state, work, filling, name),
        DataStep::Byte { filling, name } => add_byte(state, work, filling, name),
        DataStep::Code(name) => add_radix50(state, work, name),
    }
}

fn take_statement(state: &mut Assembly, work: &mut Work, step: StatementStep) {
    match step {
        StatementStep::End { in_literal } => statement_end(state, in_literal),
        StatementStep::Word(place) => add_word(state, work, place),
        StatementStep::Assigned { name, place, start } => assigned(state, work, name, place, start),
        StatementStep::Defined { name, what, place } => defined(state, work, name, what, place),
        StatementStep::Radix(name) => radix(state, work, name),
        StatementStep::Directive {
            pseudo,
            name,
            in_literal,
        } => with_value(state, work, pseudo, name, in_literal),
    }
}

fn take_call(state: &mut Assembly, work: &mut Work, step: CallStep) {
    match step {
        CallStep::Digits {
            name,
            start,
            statement,
        } => digits(state, work, name, start, statement),
        CallStep::Argument(call) => behind_argument(state, work, call),
        CallStep::Body {
            name,
            called,
            place,
            given,
        } => put_body(state, name, called, place, given),
        CallStep::Number {
            pseudo,
            name,
            place,
        } => behind_number(state, work, pseudo, name, place),
    }
}
