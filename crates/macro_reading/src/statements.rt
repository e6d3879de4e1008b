//! Labels, assignments and statements.

use crate::terms::{Meant, meant_at_start};
use macro_faults::Fault;
use macro_names::Name;
use macro_operands::as_word;
use macro_operations::{BuiltIn, Pseudo};
use macro_state::{Assembly, PoolLabel, Value};
use macro_stream::Place;

/// Whether a statement is not possible in a literal.
fn is_not_in_literal(pseudo: Pseudo) -> bool {
    match pseudo {
        Pseudo::Loc
        | Pseudo::Reloc
        | Pseudo::Phase
        | Pseudo::Dephase
        | Pseudo::End
        | Pseudo::Radix
        | Pseudo::Title
        | Pseudo::Search
        | Pseudo::Lit
        | Pseudo::Var
        | Pseudo::Remark => true,
        _ => false,
    }
}

/// Refuses a statement that is not possible in a literal.
pub fn refuse_in_literal(state: &mut Assembly, pseudo: Pseudo, name: Name) {
    if is_not_in_literal(pseudo) {
        state.fail_statement(Fault::NotInLiteral(name));
    }
}

/// Begins a statement: `.` is its place, unless it stands in a literal.
pub fn begin_statement(state: &mut Assembly, in_literal: bool) -> Place {
    let place = state.place();
    state.statement = place;
    if !in_literal {
        state.statement_address = state.phased();
        state.listing.statement();
    }
    place
}

/// Whether `=` follows a name, which is that of this operation or of none. Behind IRP it looks no further.
fn is_assignment(state: &mut Assembly, operation: &Option<BuiltIn>) -> bool {
    match operation {
        Some(BuiltIn::Pseudo(Pseudo::Irp(_))) => false,
        _ => state.blanks() == Some(b'='),
    }
}

/// Goes on behind the `=`, `==`, and mark of an assignment; gives where its value begins.
pub fn read_equals(state: &mut Assembly, name: Name, place: Place) -> Place {
    state.advance(b'=');
    let is_one = state.peek() != Some(b'=');
    state.skip(b'=');
    state.shown = is_one.then_some(name);
    match state.peek() {
        Some(b':') => state.advance(b':'),
        Some(b'!') => state.advance(b'!'),
        Some(_) | None => (),
    }
    state.note_definition(name, place.line);
    state.blanks();
    state.place()
}

/// Whether a new word is a label of the source that stands here as a word.
pub fn is_label_use(state: &mut Assembly, name: Name) -> bool {
    if !state.is_soft(name) {
        return false;
    }
    match state.blanks() {
        None | Some(b'\n' | b';' | b']' | b'>' | b')' | b'+' | b'-') => true,
        Some(b',') => state.second() == Some(b','),
        Some(_) => false,
    }
}

/// How a statement begins, whose name, if it has one, is read.
#[derive(Clone, Copy)]
pub enum Begun {
    /// By a label, which is defined.
    Label,
    /// By a name that is assigned.
    Assigned(Name),
    /// By a value that is no name.
    Value,
    /// By a name that stands for this.
    Named(Name, Meant),
}

/// Reads the beginning of a statement, or a label.
pub fn read_beginning(state: &mut Assembly, place: Place, in_literal: bool) -> Begun {
    if !state.is_name_next() {
        return Begun::Value;
    }
    let name = state.name();
    if state.peek() == Some(b':') {
        state.advance(b':');
        label(state, name, place, in_literal);
        return Begun::Label;
    }
    let operation = state.operation_of(name);
    if is_assignment(state, &operation) {
        return Begun::Assigned(name);
    }
    Begun::Named(name, meant_at_start(state, name, place, operation))
}

/// The end of a statement.
pub fn statement_end(state: &mut Assembly, in_literal: bool) {
    match state.blanks() {
        None | Some(b'\n' | b';') => (),
        Some(b']') if in_literal => (),
        Some(found) => state.fail_here(Fault::ExpectedEnd(found)),
    }
}

/// A label, whose first colon is read.
fn label(state: &mut Assembly, name: Name, place: Place, in_literal: bool) {
    state.skip(b':');
    state.skip(b'!');
    state.note_definition(name, place.line);
    if in_literal {
        let offset = state.words.len();
        let label = PoolLabel {
            name,
            offset,
            place,
        };
        let done = state.labels.push(label).is_ok();
        state.kept(done);
        return state.define_label(name, place, None);
    }
    let value = state.phased();
    if value < 0 || value > 0o777_777 {
        return state.fail(place, Fault::PlaceRange(value));
    }
    state.define_label(name, place, Some(value));
}

/// A value that is a statement.
pub fn add_value(state: &mut Assembly, value: Option<Value>, place: Place) {
    match value {
        Some(value) => {
            let word = as_word(state, value, place);
            state.push_word(word);
        }
        None => state.unexpected(),
    }
}

/// Assigns the word of a value, which begins at `start`.
fn assign_word(state: &mut Assembly, name: Name, place: Place, value: Value, start: Place) {
    let word = as_word(state, value, start);
    let number = match &word {
        Some(word) => Some(word.signed()),
        None => None,
    };
    state.statement = place;
    state.list_row(None, word);
    state.assign(name, place, number, value.placed);
}

/// Assigns a value, which begins at `start`. A wrong value defines the name as 0, so that its uses are not told too.
pub fn assign_value(
    state: &mut Assembly,
    name: Name,
    place: Place,
    value: Option<Value>,
    start: Place,
) {
    match value {
        Some(value) => assign_word(state, name, place, value, start),
        None => state.unexpected(),
    }
    if state.told || state.pass == 2 && state.is_failed() {
        state.assign_wrong(name, place);
    }
}
