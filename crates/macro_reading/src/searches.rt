//! The universal file that SEARCH reads, and names that are to be defined elsewhere.

use crate::conditions::entered_text;
use macro_faults::{Fault, Report};
use macro_names::{Name, text_of};
use macro_state::{Assembly, Value};
use macro_stream::{Kind, Place, Range};
use search_files::{MACROS, has_macro, is_file, job_word, number_of};
use word36::Word;

/// Whether the universal file has this name.
pub fn is_searched(name: Name) -> bool {
    let characters = text_of(name);
    number_of(characters.as_slice()).is_some() || has_macro(characters.as_slice())
}

/// Assigns a name the number that it has in the universal file.
fn assign_number(state: &mut Assembly, name: Name, number: u64, place: Place) {
    let number = Word::low_bits(number).signed();
    state.assign(name, place, Some(number), false)
}

/// The number that a name has in the universal file, if it has one. In the second pass it is a symbol of the source from there on,
/// which the cross-reference shows; in the first the source may still define it.
pub fn searched_value(state: &mut Assembly, name: Name, place: Place) -> Option<Value> {
    let Some(number) = number_of(text_of(name).as_slice()) else {
        return None;
    };
    if state.pass == 2 {
        assign_number(state, name, number, place);
    }
    Some(Value::of_word(Some(Word::low_bits(number)), false))
}

/// Whether the source itself gives this name a meaning.
pub fn is_own(state: &Assembly, name: Name) -> bool {
    state.is_soft(name) || state.symbols.get(name).is_some() || state.meanings.get(name).is_some()
}

/// Stores the end of a line, the lines of the universal file that define what the source does not, and then a call of this name, if
/// there is one, with a blank.
fn store_lines(state: &mut Assembly, call: &[u8]) -> Option<Range> {
    let mut text = Vec::new(state.alloc);
    let mut done = true;
    for (name, lines) in &MACROS {
        if !is_own(state, Name::of(name.as_bytes())) {
            done = done
                && text.push(b'\n').is_ok()
                && text.extend_from_slice(lines.as_bytes()).is_ok();
        }
    }
    done = done
        && text.push(b'\n').is_ok()
        && text.extend_from_slice(call).is_ok()
        && text.push(b' ').is_ok();
    state.kept(done);
    let stored = state.stream.store(text.as_slice());
    state.taken(stored)
}

/// Puts the lines of the universal file before the end of the line. Nothing of it is listed.
fn enter_lines(state: &mut Assembly) {
    if let Some(range) = store_lines(state, b"") {
        let top = state.stream.top();
        let entered = state.stream.enter_source(range, top.line, top.column);
        entered_text(state, entered)
    }
}

/// TWOSEG and HISEG, of which the universal file has macros: if it is not read yet, it is now, and the statement is then a call.
/// There are no program sections.
pub fn segments(state: &mut Assembly, name: Name) {
    if state.uuosym || name == Name::of(b".PSECT") {
        return state.fail_statement(Fault::Segments(name));
    }
    state.uuosym = true;
    if let Some(range) = store_lines(state, text_of(name).as_slice()) {
        let arguments = state.stream.top().arguments;
        let spot = Assembly::spot(state.statement);
        let entered = state
            .stream
            .enter(Kind::Macro, name, range, arguments, spot);
        entered_text(state, entered)
    }
}

/// Notes a name of SEARCH. That a file is not here is reported with missing names.
fn note_file(state: &mut Assembly, name: Name, place: Place) {
    if is_file(text_of(name).as_slice()) {
        state.uuosym = true;
    } else if state.pass == 1 {
        let fault = Fault::NoFile(name);
        let done = state.absent_files.push(Report { place, fault }).is_ok();
        state.kept(done);
    }
}

/// SEARCH. Names in parentheses say nothing.
pub fn search(state: &mut Assembly) {
    let was_read = state.uuosym;
    let mut depth = 0usize;
    for _ in 0..u64::MAX {
        let next = state.blanks();
        if state.is_name_next() {
            let place = state.place();
            let name = state.name();
            if depth == 0 {
                note_file(state, name, place);
            }
            continue;
        }
        match next {
            None | Some(b'\n' | b';') => break,
            Some(other) => {
                depth = match other {
                    b'(' => depth.saturating_add(1),
                    b')' => depth.saturating_sub(1),
                    _ => depth,
                };
                state.advance(other);
            }
        }
    }
    if state.uuosym && !was_read && !state.is_failed() {
        enter_lines(state)
    }
}

/// A name of EXTERN, or before `##`: the source defines it, or it is a word that a job keeps of itself, whose address it then is.
/// Another is reported.
pub fn need_external(state: &mut Assembly, name: Name, place: Place, is_mark: bool) {
    if state.symbols.get(name).is_some() {
        return;
    }
    if let Some(number) = job_word(text_of(name).as_slice()) {
        assign_number(state, name, number, place)
    } else if state.pass == 2 {
        state.tell(place, Fault::Linking(name, is_mark))
    }
}

/// EXTERN: names with commas between them.
fn external(state: &mut Assembly, what: Name) {
    for _ in 0..u64::MAX {
        state.blanks();
        let place = state.place();
        let name = state.needed_name(what);
        state.note_use(name, place.line);
        need_external(state, name, place, false);
        if state.is_failed() || !state.eat(b',') {
            break;
        }
    }
}

/// A statement for the linker. What `.REQUEST` and `.TEXT` ask of it gives no words.
pub fn linking(state: &mut Assembly, what: Name) {
    let characters = text_of(what);
    match characters.as_slice() {
        b"EXTERN" => external(state, what),
        b".REQUE" | b".TEXT" => state.skip_to(false),
        _ => state.fail_statement(Fault::Linking(what, false)),
    }
}
