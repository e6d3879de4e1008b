//! Pseudo-operations that give no words.

use crate::calls::define;
use crate::others::other_operation;
use crate::searches::{linking, search, segments};
use crate::terms::unknown_name;
use macro_faults::Fault;
use macro_names::{Name, is_blank};
use macro_operands::{as_word, required, set_phase, set_place};
use macro_operations::{Pseudo, built_in};
use macro_state::{Assembly, Value};
use macro_stream::Place;
use macro_symbols::Meaning;
use script_io::push_escaped;
use word36::Word;

/// Carries out a pseudo-operation that has no expression.
pub fn plain_directive(state: &mut Assembly, pseudo: Pseudo, name: Name) {
    if state.is_failed() {
        return;
    }
    match pseudo {
        Pseudo::Title => state.skip_to(true),
        Pseudo::Remark | Pseudo::Quiet => state.skip_to(false),
        Pseudo::Search => search(state),
        Pseudo::Syn => syn(state, name),
        Pseudo::Purge => purge(state, name),
        Pseudo::Printx => printx(state),
        Pseudo::Define => define(state),
        Pseudo::Extern => linking(state, name),
        Pseudo::Segments => segments(state, name),
        Pseudo::Universal => state.fail_statement(Fault::Universal(name)),
        other => bare_directive(state, other, name),
    }
}

/// Carries out a pseudo-operation that stands alone.
fn bare_directive(state: &mut Assembly, pseudo: Pseudo, name: Name) {
    match pseudo {
        Pseudo::Dephase => state.phase = None,
        Pseudo::Lit => state.place_pool(),
        Pseudo::Var => state.place_variables(),
        Pseudo::Stopi => {
            if !state.stream.stop_rounds() {
                state.fail_statement(Fault::StopiOutside);
            }
        }
        Pseudo::List | Pseudo::Xlist | Pseudo::Lall | Pseudo::Sall | Pseudo::Xall => set_listing(
            state, pseudo,
        ),
        _ => state.fail_statement(Fault::Needs(name)),
    }
}

/// LIST, XLIST, LALL, SALL and XALL.
fn set_listing(state: &mut Assembly, pseudo: Pseudo) {
    if state.pass == 2 {
        let line = state.stream.source_line();
        let done = state.listing.set(pseudo, line).is_ok();
        state.kept(done);
    }
    state.skip_to(false)
}

/// Whether a pseudo-operation has an expression behind it, and gives no words but those of BLOCK.
pub fn takes_value(pseudo: Pseudo) -> bool {
    match pseudo {
        Pseudo::Loc | Pseudo::Reloc | Pseudo::Phase | Pseudo::Block | Pseudo::End => true,
        _ => false,
    }
}

/// Carries out a pseudo-operation whose expression is read, and begins at `start`.
pub fn value_directive(
    state: &mut Assembly,
    pseudo: Pseudo,
    name: Name,
    value: Option<Value>,
    in_literal: bool,
    start: Place,
) {
    match pseudo {
        Pseudo::Loc => set_place(state, value, name, true, start),
        Pseudo::Reloc => set_place(state, value, name, false, start),
        Pseudo::Phase => set_phase(state, value, name, start),
        Pseudo::Block => keep_places(state, value, name, in_literal, start),
        _ => end(state, value, start),
    }
}

/// BLOCK, whose value begins at `start`: keeps places, in a literal as words of 0.
fn keep_places(
    state: &mut Assembly,
    value: Option<Value>,
    name: Name,
    in_literal: bool,
    start: Place,
) {
    let number = required(state, value, name, Fault::Needs(name), start);
    if number < 0 {
        state.fail(start, Fault::BlockSize(number));
    }
    if !in_literal {
        return state.emit_space(number);
    }
    if number <= 0 || number > 0o1_000_000 {
        return state.fail(start, Fault::BlockInLiteral(number));
    }
    for _ in 0..number {
        state.push_word(Some(Word::new(0)));
    }
}

/// Checks, and reports, that nothing follows END.
fn need_line_end(state: &mut Assembly) -> bool {
    match state.blanks() {
        None | Some(b'\n' | b';') => !state.is_failed(),
        Some(found) => {
            state.fail_here(Fault::ExpectedEnd(found));
            false
        }
    }
}

/// Sets the start of the program, whose value begins at a place.
fn set_start(state: &mut Assembly, number: i64, place: Place) {
    if number < 0 || number > 0o777_777 {
        return state.tell(place, Fault::Start(number));
    }
    state.start = number as u32;
}

/// END: the start, whose value begins at a place, then variables and literals.
fn end(state: &mut Assembly, start: Option<Value>, place: Place) {
    if !need_line_end(state) {
        return;
    }
    state.ended = true;
    let line = state.stream.source_line();
    let done = state.listing.end(line).is_ok();
    state.kept(done);
    state.skip_to(false);
    if let Some(value) = start {
        if let Some(number) = state.known(value) {
            set_start(state, number, place);
        }
    }
    if !state.is_failed() {
        state.phase = None;
    }
    state.place_variables();
    state.place_pool()
}

/// The name that OPDEF defines; goes on behind the `[`.
pub fn operation_name(state: &mut Assembly, what: Name) -> Name {
    let name = state.needed_name(what);
    if !state.eat(b'[') {
        state.fail_statement(Fault::Needs(what));
    }
    name
}

/// OPDEF, whose `[` is read: a word, which begins at `start`, is the operation. `place` is that of the statement.
pub fn define_operation(
    state: &mut Assembly,
    value: Option<Value>,
    name: Name,
    what: Name,
    place: Place,
    start: Place,
) {
    if value.is_none() {
        state.fail(place, Fault::Needs(what));
    }
    state.statement = place;
    let word = as_word(state, value.unwrap_or(Value::zero()), start);
    state.expect(b']');
    state.note_definition(name, place.line);
    let number = match word {
        Some(word) => Some(word.number()),
        None => None,
    };
    state.put_meaning(name, Meaning::Opdef(number))
}

/// SYN: the second name is what the first is.
fn syn(state: &mut Assembly, what: Name) {
    state.blanks();
    let of_place = state.place();
    let of = state.needed_name(what);
    let place = state.statement;
    if !state.eat(b',') {
        state.fail(place, Fault::Needs(what));
    }
    let name = state.needed_name(what);
    state.note_use(of, place.line);
    state.note_definition(name, place.line);
    if state.is_failed() {
        return;
    }
    if let Some(meaning) = state.meanings.get(of) {
        return state.put_meaning(name, meaning);
    }
    if built_in(of).is_some() {
        return state.put_meaning(name, Meaning::Synonym(of));
    }
    if let Some(operation) = other_operation(state, of, of_place) {
        let number = operation.word.map(Word::number);
        return state.put_meaning(name, Meaning::Opdef(number));
    }
    same_symbol(state, of, name, of_place)
}

/// SYN of a symbol, which stands at a place: the second name has its value.
fn same_symbol(state: &mut Assembly, of: Name, name: Name, place: Place) {
    match state.symbols.get(of) {
        Some(definition) if definition.multiple => state.tell(place, Fault::UseOfDuplicate(of)),
        Some(definition) if definition.value.is_some() || state.pass == 1 => state.assign(
            name,
            place,
            definition.value,
            definition.placed,
        ),
        Some(_) | None => {
            if state.pass == 1 {
                state.assign(name, place, None, false);
            } else {
                state.tell(place, unknown_name(state, of, false));
            }
        }
    }
}

/// Forgets what a name means, else the symbol of that name.
fn forget(state: &mut Assembly, name: Name) {
    state.note_use(name, state.statement.line);
    if state.is_failed() {
        return;
    }
    if state.pass == 2 {
        let done = state.listing.purged.push(name.sixbit()).is_ok();
        state.kept(done);
    }
    if !state.meanings.remove(name) {
        state.symbols.remove(name);
    }
}

/// PURGE.
fn purge(state: &mut Assembly, what: Name) {
    for _ in 0..u64::MAX {
        let name = state.needed_name(what);
        forget(state, name);
        if !state.eat(b',') {
            break;
        }
    }
}

/// Types a character of PRINTX.
fn type_character(state: &mut Assembly, character: u8) {
    let done = state.typed.push(character).is_ok();
    state.kept(done);
}

/// PRINTX: the rest of the line, without blanks around it. A character that does not print is typed as a backslash and three
/// octal digits, so that no source speaks to a terminal.
fn printx(state: &mut Assembly) {
    state.blanks();
    let mut kept = state.typed.len();
    for _ in 0..u64::MAX {
        match state.peek() {
            None | Some(b'\n') => break,
            Some(character) => {
                if matches!(character, b'\t' | b' ') || character.is_ascii_graphic() {
                    type_character(state, character);
                } else {
                    let done = push_escaped(&mut state.typed, character).is_ok();
                    state.kept(done);
                }
                if !is_blank(character) {
                    kept = state.typed.len();
                }
                state.advance(character);
            }
        }
    }
    if !state.is_failed() {
        state.typed.truncate(kept);
        type_character(state, b'\n');
    }
}
