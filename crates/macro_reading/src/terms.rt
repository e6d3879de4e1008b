//! Terms: names, brackets, literals.

use crate::others::other_operation;
use crate::searches::{is_searched, need_external, searched_value};
use crate::statements::is_label_use;
use left_out::left_out;
use macro_faults::Fault;
use macro_names::{Name, is_name_character, text_of};
use macro_operands::or_zero;
use macro_operations::{BuiltIn, Operation, Pseudo, built_in, of_uuosym};
use macro_state::{Assembly, Value};
use macro_stream::{Limit, Place};
use macro_symbols::{Definition, Meaning};
use word36::Word;

/// The value of a symbol.
fn symbol_value(state: &mut Assembly, name: Name, definition: Definition, place: Place) -> Value {
    if definition.multiple {
        state.tell(place, Fault::UseOfDuplicate(name));
    }
    match definition.value {
        Some(value) => Value::signed(value, definition.placed),
        None => {
            not_known(state, name, place);
            Value::unknown(definition.placed)
        }
    }
}

/// What is wrong with a name that stands for nothing here; whether it stands as an operation.
pub fn unknown_name(state: &Assembly, name: Name, is_operation: bool) -> Fault {
    if !state.uuosym && (of_uuosym(name).is_some() || is_searched(name)) {
        return Fault::NotSearched(name);
    }
    if let Some(reason) = left_out(text_of(name).as_slice()) {
        return Fault::LeftOut(name, reason, is_operation);
    }
    if is_operation {
        Fault::Refused(name)
    } else {
        Fault::NotDefined(name)
    }
}

/// A name without a value: the second pass tells of it, and reads on.
fn not_known(state: &mut Assembly, name: Name, place: Place) {
    if state.pass == 2 {
        let fault = unknown_name(state, name, false);
        state.tell(place, fault);
    } else if !state.is_failed() {
        state.missing = Some(name);
    }
}

/// The word of an operation in an operand. None where the name is none.
fn operation_value(name: Name) -> Option<Value> {
    match built_in(name) {
        Some(BuiltIn::Operation(operation)) => Some(Value::of_word(operation.word, false)),
        Some(BuiltIn::Pseudo(_)) | None => None,
    }
}

/// The value of a name that the source gives no value and no meaning.
fn other_value(state: &mut Assembly, name: Name, place: Place) -> Value {
    state.note_use(name, place.line);
    if state.uuosym {
        if let Some(number) = of_uuosym(name) {
            return Value::signed(number.cast_signed(), false);
        }
        if let Some(value) = searched_value(state, name, place) {
            return value;
        }
    }
    if let Some(operation) = other_operation(state, name, place) {
        return Value::of_word(operation.word, false);
    }
    not_known(state, name, place);
    Value::unknown(false)
}

/// The word of an operation that OPDEF made.
fn opdef_value(state: &mut Assembly, name: Name, number: Option<u64>) -> Value {
    match number {
        Some(number) => Value::of_word(Some(Word::low_bits(number)), false),
        None => {
            state.missing = Some(name);
            Value::unknown(false)
        }
    }
}

/// The name that begins a value: one that is read already, or the one that is next behind blanks.
pub fn next_name(state: &mut Assembly) -> Option<(Name, Place)> {
    let held = state.pending_label;
    state.pending_label = None;
    if held.is_some() {
        return held;
    }
    let next = state.blanks();
    let place = state.place();
    if next.is_none() || !state.is_name_next() {
        return None;
    }
    let name = state.name();
    Some((name, place))
}

/// What a name stands for in an operand: a symbol, else an operation. A macro is none.
pub fn name_value(state: &mut Assembly, name: Name, place: Place) -> Value {
    if let Some(definition) = state.symbols.get(name) {
        state.note_use(name, place.line);
        return symbol_value(state, name, definition, place);
    }
    let known = match state.meanings.get(name) {
        Some(Meaning::Opdef(number)) => {
            state.note_use(name, place.line);
            return opdef_value(state, name, number);
        }
        Some(Meaning::Synonym(target)) => {
            state.note_use(name, place.line);
            operation_value(target)
        }
        Some(Meaning::Macro(_)) | None => operation_value(name),
    };
    match known {
        Some(value) => value,
        None => other_value(state, name, place),
    }
}

/// The macro that a name calls, which is then noted.
fn macro_of(state: &mut Assembly, name: Name, place: Place) -> Option<usize> {
    match state.meanings.get(name) {
        Some(Meaning::Macro(index)) => {
            state.note_use(name, place.line);
            Some(index)
        }
        Some(_) | None => None,
    }
}

/// The macro that a name calls in an operand, where the source's symbols go before. `#` may stand behind the name.
pub fn macro_in_operand(state: &mut Assembly, name: Name, place: Place) -> Option<usize> {
    variable_mark(state, name, place);
    if state.symbols.get(name).is_some() {
        return None;
    }
    macro_of(state, name, place)
}

/// `#` behind a name.
fn variable_mark(state: &mut Assembly, name: Name, place: Place) {
    if state.peek() != Some(b'#') {
        return;
    }
    state.advance(b'#');
    if state.peek() == Some(b'#') {
        state.advance(b'#');
        return need_external(state, name, place, true);
    }
    state.use_variable(name)
}

/// Opens a bracket, which is next; gives the statement around.
pub fn open_bracket(state: &mut Assembly, bracket: u8) -> Place {
    if state.in_brackets >= Limit::Brackets.most() {
        state.fail_here(Fault::Limit(Limit::Brackets));
    }
    state.in_brackets = state.in_brackets.saturating_add(1);
    state.advance(bracket);
    state.statement
}

/// Closes a bracket that holds this value, and goes back to the statement around it. An empty `< >` is 0; an empty `( )`
/// is refused.
pub fn close_bracket(
    state: &mut Assembly,
    bracket: u8,
    value: Option<Value>,
    statement: Place,
) -> Value {
    state.statement = statement;
    if bracket == b'<' {
        state.expect(b'>');
    } else {
        if value.is_none() {
            state.unexpected();
        }
        state.expect(b')');
    }
    state.in_brackets = state.in_brackets.saturating_sub(1);
    or_zero(value)
}

/// Begins a statement in brackets, behind blanks.
pub fn begin_inner(state: &mut Assembly) -> Place {
    state.blanks();
    let place = state.place();
    state.statement = place;
    place
}

/// Where the words and labels of a literal begin, and the statement around it.
#[derive(Clone, Copy)]
pub struct OpenLiteral {
    /// The place of its bracket.
    pub place: Place,
    statement: Place,
    first_word: usize,
    first_label: usize,
}

/// Opens a literal, whose bracket is next.
pub fn open_literal(state: &mut Assembly) -> OpenLiteral {
    let place = state.place();
    if state.in_literals >= Limit::Literals.most() {
        state.fail(place, Fault::Limit(Limit::Literals));
    }
    state.in_literals = state.in_literals.saturating_add(1);
    state.advance(b'[');
    OpenLiteral {
        place,
        statement: state.statement,
        first_word: state.words.len(),
        first_label: state.labels.len(),
    }
}

/// Closes a literal: its place, where this pass knows it.
pub fn close_literal(state: &mut Assembly, open: OpenLiteral) -> Value {
    state.statement = open.statement;
    state.in_literals = state.in_literals.saturating_sub(1);
    if state.words.len() <= open.first_word {
        state.fail(open.place, Fault::EmptyLiteral);
    }
    if state.is_failed() {
        return Value::unknown(true);
    }
    state.take_labels(open.first_label, open.first_word);
    state.take_literal(open.first_word)
}

/// Goes on to the next statement of a literal. False where the literal ends; its `]` is read then.
pub fn next_in_literal(state: &mut Assembly, open: Place) -> bool {
    for _ in 0..u64::MAX {
        match state.blanks() {
            None => {
                state.fail(open, Fault::ExpectedAtEnd);
                return false;
            }
            Some(b'\n') => state.advance(b'\n'),
            Some(b';') => state.skip_to(false),
            Some(b']') => {
                state.advance(b']');
                return false;
            }
            Some(_) => return true,
        }
    }
    false
}

/// Whether an operand begins with this character.
fn begins_operand(next: Option<u8>, second: Option<u8>) -> bool {
    match next {
        Some(b'^') => second != Some(b'!'),
        Some(b'<' | b'"' | b'\'' | b'[' | b'@') => true,
        Some(other) => is_name_character(other),
        None => false,
    }
}

/// Holds a name that begins a value. Refuses one with operands, which is no operation.
fn hold_name(state: &mut Assembly, name: Name, place: Place) {
    let next = state.blanks();
    let second = state.second();
    if begins_operand(next, second) {
        let fault = unknown_name(state, name, true);
        state.fail(place, fault);
    }
    state.pending_label = Some((name, place));
}

/// What a name at the beginning of a statement, or in brackets, stands for.
#[derive(Clone, Copy)]
pub enum Meant {
    /// A value that it begins; it is held.
    Value,
    /// The macro of this number.
    Macro(usize),
    /// An instruction.
    Operation(Operation),
    /// A pseudo-operation.
    Pseudo(Pseudo),
}

/// What a name stands for: this operation or, if there is none, one of another machine or another monitor, or else a value.
fn meant_by(state: &mut Assembly, name: Name, place: Place, operation: Option<BuiltIn>) -> Meant {
    match operation {
        Some(BuiltIn::Operation(operation)) => Meant::Operation(operation),
        Some(BuiltIn::Pseudo(pseudo)) => Meant::Pseudo(pseudo),
        None => match other_operation(state, name, place) {
            Some(operation) => Meant::Operation(operation),
            None => {
                hold_name(state, name, place);
                Meant::Value
            }
        },
    }
}

/// What a name stands for in brackets: a symbol of the source goes before all else.
pub fn meant_in_brackets(state: &mut Assembly, name: Name, place: Place) -> Meant {
    if state.is_source_symbol(name) {
        state.pending_label = Some((name, place));
        return Meant::Value;
    }
    if let Some(index) = macro_of(state, name, place) {
        return Meant::Macro(index);
    }
    if state.meanings.get(name).is_some() {
        state.note_use(name, place.line);
    }
    let operation = state.operation_of(name);
    meant_by(state, name, place, operation)
}

/// What a name stands for at the beginning of a statement: a macro, a label, this operation, or else a value.
pub fn meant_at_start(
    state: &mut Assembly,
    name: Name,
    place: Place,
    operation: Option<BuiltIn>,
) -> Meant {
    if let Some(index) = macro_of(state, name, place) {
        return Meant::Macro(index);
    }
    if state.meanings.get(name).is_some() {
        state.note_use(name, place.line);
    } else if is_label_use(state, name) {
        state.pending_label = Some((name, place));
        return Meant::Value;
    }
    meant_by(state, name, place, operation)
}

/// How many words the statement has so far.
pub fn word_count(state: &Assembly) -> usize {
    state.words.len()
}

/// The greatest number of words that is told.
const LAST_COUNT: usize = 0o1_000_000;

/// The one word that a pseudo-operation in brackets gave behind so many words.
pub fn single_word(state: &mut Assembly, first: usize, name: Name, place: Place) -> Value {
    let count = state.words.len().saturating_sub(first);
    let word = state.words.pop();
    match word {
        Some(word) if count == 1 => Value::of_word(word, false),
        Some(_) | None => {
            let words = count.min(LAST_COUNT) as u32;
            state.fail(place, Fault::NotOneWord(name, words));
            Value::unknown(false)
        }
    }
}
