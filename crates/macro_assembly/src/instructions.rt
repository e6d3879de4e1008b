//! Words, addresses and instructions.

use crate::operators::optional;
use crate::steps::{Step, WordStep, Work};
use crate::terms::open;
use macro_faults::Fault;
use macro_operands::{
    Fields, address_fields, as_word, eat_comma, eat_commas, eat_indirect, first_fields,
    halves_value, index_bits, is_index_next, or_zero, start_of_value,
};
use macro_operations::Operation;
use macro_state::{Assembly, Value};
use macro_stream::Place;

/// Reads a word: `@address(index)` or two halves; gives `None` if no operand is there.
pub fn word(state: &mut Assembly, work: &mut Work) {
    let start = start_of_value(state);
    let indirect = eat_indirect(state);
    work.push(state, Step::Word(WordStep::First { start, indirect }));
    optional(state, work)
}

/// Goes on behind the first value of a word, which begins at `start`.
pub fn read_after_first(state: &mut Assembly, work: &mut Work, start: Place, indirect: bool) {
    let first = work.value();
    if !indirect && eat_commas(state) {
        let right = WordStep::RightHalf { left: first, start };
        work.push(state, Step::Word(right));
        return optional(state, work);
    }
    let is_indexed = is_index_next(state);
    if !is_indexed && !indirect {
        return work.give(first);
    }
    let value = or_zero(first);
    let placed = value.placed;
    let base = Fields::of_word(as_word(state, value, start), indirect);
    if is_indexed {
        work.push(state, Step::Word(WordStep::Indexed { base, placed }));
        return open(state, work, b'(');
    }
    work.give(Some(Value::of_word(base.word(), placed)))
}

/// Two halves, of which the left one begins at `start`, and the right one is read.
pub fn right_half(state: &mut Assembly, work: &mut Work, left: Option<Value>, start: Place) {
    let right = (work.value(), work.start());
    let value = halves_value(state, (left, start), right);
    work.give(Some(value))
}

/// A word whose index is read.
pub fn finish_indexed_word(state: &mut Assembly, work: &mut Work, base: Fields, placed: bool) {
    let start = work.start();
    let index = index_bits(state, or_zero(work.value()), start);
    let word = base.with_index(index).word();
    work.give(Some(Value::of_word(word, placed)))
}

/// Reads an address part.
pub fn address(state: &mut Assembly, work: &mut Work) {
    let indirect = eat_indirect(state);
    work.push(state, Step::Word(WordStep::Base { indirect }));
    optional(state, work)
}

/// Goes on behind the value of an address.
pub fn read_after_base(state: &mut Assembly, work: &mut Work, indirect: bool) {
    let start = work.start();
    let base = address_fields(state, or_zero(work.value()), indirect, start);
    if is_index_next(state) {
        work.push(state, Step::Word(WordStep::Index(base)));
        return open(state, work, b'(');
    }
    work.give_fields(base)
}

/// The fields of an address whose index is read.
pub fn index(state: &mut Assembly, work: &mut Work, base: Fields) {
    let start = work.start();
    let index = index_bits(state, or_zero(work.value()), start);
    work.give_fields(base.with_index(index))
}

/// Reads the operands of an instruction, whose fields are then added to its word, half by half.
pub fn instruction(state: &mut Assembly, work: &mut Work, operation: Operation) {
    let fields = Fields::of_word(operation.word, false);
    work.push(state, Step::Word(WordStep::Instruction(fields)));
    if operation.accumulator {
        let place = start_of_value(state);
        let step = WordStep::Operand {
            takes_address: operation.address,
            is_device: operation.device,
            place,
        };
        work.push(state, Step::Word(step));
        optional(state, work)
    } else if operation.address {
        address(state, work)
    } else {
        work.give_fields(Fields::none())
    }
}

/// Goes on behind the first operand of an instruction that takes an accumulator or a device: that, or the address.
pub fn behind_operand(
    state: &mut Assembly,
    work: &mut Work,
    takes_address: bool,
    is_device: bool,
    place: Place,
) {
    let first = work.value();
    if eat_comma(state) {
        let fields = first_fields(state, or_zero(first), is_device, place);
        return behind_accumulator(state, work, takes_address, fields);
    }
    if !takes_address {
        if first.is_some() {
            state.fail(place, Fault::NoAddress);
        }
        return work.give_fields(Fields::none());
    }
    if first.is_some() {
        read_after_base(state, work, false)
    } else {
        address(state, work)
    }
}

/// Goes on behind the comma of an accumulator.
fn behind_accumulator(
    state: &mut Assembly,
    work: &mut Work,
    takes_address: bool,
    accumulator: Fields,
) {
    work.push(state, Step::Word(WordStep::Accumulator(accumulator)));
    if takes_address {
        address(state, work)
    } else {
        work.give_fields(Fields::none())
    }
}

/// Adds an accumulator to the fields.
pub fn with_accumulator(work: &mut Work, accumulator: Fields) {
    let fields = work.fields().plus(accumulator);
    work.give_fields(fields)
}

/// Adds the word of an instruction, which has these fields of its own, to those of the statement.
pub fn add_instruction(state: &mut Assembly, work: &mut Work, own: Fields) {
    let fields = work.fields().plus(own);
    state.push_word(fields.word())
}
