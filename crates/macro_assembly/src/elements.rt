//! Pseudo-operations that give words.

use crate::instructions::{address, word};
use crate::numbers::with_radix;
use crate::operators::optional;
use crate::steps::{DataStep, Step, Work};
use macro_faults::Fault;
use macro_names::Name;
use macro_operands::{
    Filling, as_word, is_index_next, need_comma, need_size, number_radix, open_size, or_zero,
    point_size, push_pair, push_point, push_radix50, required, size_of_bytes, text_words,
    with_byte,
};
use macro_operations::Pseudo;
use macro_state::{Assembly, Value};
use macro_stream::Place;

/// Reads what gives words, and adds them. False if this pseudo-operation gives none.
pub fn data_words(state: &mut Assembly, work: &mut Work, pseudo: Pseudo, name: Name) -> bool {
    match pseudo {
        Pseudo::Xwd => pair(state, work, false),
        Pseudo::Iowd => pair(state, work, true),
        Pseudo::Exp => elements(state, work, number_radix(state)),
        Pseudo::Oct => elements(state, work, 8),
        Pseudo::Dec => elements(state, work, 10),
        Pseudo::Point => {
            work.push(state, Step::Data(DataStep::PointSize));
            decimal(state, work)
        }
        Pseudo::Text(text) => text_words(state, text, name),
        Pseudo::Byte => {
            need_size(state, name);
            next_byte(state, work, Filling::new(), name, true)
        }
        Pseudo::Radix50 => {
            work.push(state, Step::Data(DataStep::Code(name)));
            optional(state, work)
        }
        _ => return false,
    }
    true
}

/// XWD and IOWD.
fn pair(state: &mut Assembly, work: &mut Work, is_count: bool) {
    work.push(state, Step::Data(DataStep::Left { is_count }));
    optional(state, work)
}

/// Goes on behind the left half.
pub fn behind_left(state: &mut Assembly, work: &mut Work, is_count: bool) {
    let right = DataStep::Right {
        left: work.value(),
        start: work.start(),
        is_count,
    };
    need_comma(state);
    work.push(state, Step::Data(right));
    optional(state, work)
}

/// Adds the word of two halves, of which the left one begins at `start`.
pub fn add_pair(
    state: &mut Assembly,
    work: &mut Work,
    left: Option<Value>,
    start: Place,
    is_count: bool,
) {
    let right = (work.value(), work.start());
    push_pair(state, (left, start), right, is_count)
}

/// EXP, OCT and DEC: words with commas between them, whose numbers have this radix.
fn elements(state: &mut Assembly, work: &mut Work, radix: u8) {
    with_radix(state, work, radix);
    element(state, work)
}

/// Reads an element.
fn element(state: &mut Assembly, work: &mut Work) {
    state.blanks();
    let place = state.place();
    work.push(state, Step::Data(DataStep::Element(place)));
    word(state, work)
}

/// Adds an element, and reads the next one.
pub fn add_element(state: &mut Assembly, work: &mut Work, place: Place) {
    let word = as_word(state, or_zero(work.value()), place);
    state.push_word(word);
    if state.eat(b',') {
        element(state, work)
    }
}

/// Reads an expression in decimal, or nothing.
pub fn decimal(state: &mut Assembly, work: &mut Work) {
    with_radix(state, work, 10);
    optional(state, work)
}

/// Goes on behind the size of POINT.
pub fn behind_size(state: &mut Assembly, work: &mut Work) {
    let start = work.start();
    let size = point_size(state, work.value(), start);
    need_comma(state);
    work.push(state, Step::Data(DataStep::PointAddress(size)));
    address(state, work)
}

/// Goes on behind the address of POINT.
pub fn behind_address(state: &mut Assembly, work: &mut Work, size: Option<u64>) {
    let fields = work.fields();
    if !state.eat(b',') {
        return push_point(state, size, fields, None, state.statement);
    }
    work.push(state, Step::Data(DataStep::PointBit { size, fields }));
    decimal(state, work)
}

/// Reads the next byte of BYTE or its size, or ends it. Behind a size a byte has no comma before it.
fn next_byte(state: &mut Assembly, work: &mut Work, filling: Filling, name: Name, is_sized: bool) {
    let ends = !is_sized && !is_index_next(state) && !state.eat(b',');
    if ends {
        state.push_word(filling.word());
    } else if is_index_next(state) {
        open_size(state);
        work.push(state, Step::Data(DataStep::ByteSize { filling, name }));
        decimal(state, work)
    } else {
        work.push(state, Step::Data(DataStep::Byte { filling, name }));
        optional(state, work)
    }
}

/// Goes on behind a size of bytes.
pub fn with_size(state: &mut Assembly, work: &mut Work, filling: Filling, name: Name) {
    let start = work.start();
    let size = required(state, work.value(), name, Fault::ByteSize(0), start);
    let size = size_of_bytes(state, size, start);
    next_byte(state, work, filling.with_size(size), name, true)
}

/// Adds a byte.
pub fn add_byte(state: &mut Assembly, work: &mut Work, filling: Filling, name: Name) {
    let start = work.start();
    let filling = with_byte(state, filling, or_zero(work.value()), start);
    next_byte(state, work, filling, name, false)
}

/// Adds the word of RADIX50.
pub fn add_radix50(state: &mut Assembly, work: &mut Work, name: Name) {
    let start = work.start();
    push_radix50(state, work.value(), name, start)
}
