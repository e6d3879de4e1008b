//! Macros and their calls.

use crate::conditions::{count_call, entered_text};
use macro_faults::Fault;
use macro_names::{Name, is_blank};
use macro_operands::{begin_needed, needed};
use macro_state::{Assembly, Value};
use macro_stream::{Kind, Place, Range};
use macro_symbols::{Dummy, MacroDefinition, Meaning};
use macro_values::word_of;

/// DEFINE.
pub fn define(state: &mut Assembly) {
    let what = Name::of(b"DEFINE");
    let name = state.needed_name(what);
    let line = state.statement.line;
    let first = state.dummies.len();
    if state.eat(b'(') {
        read_dummies(state, what, name);
    }
    skip_to_body(state);
    let Some(expanded) = state.expanded(what, name) else {
        return;
    };
    let Some(body) = store_body(state, expanded, first) else {
        return;
    };
    if state.is_failed() {
        return;
    }
    state.note_definition(name, line);
    let count = state.dummies.len().saturating_sub(first);
    let index = state.macros.len();
    let done = state
        .macros
        .push(MacroDefinition { first, count, body })
        .is_ok();
    state.kept(done);
    state.put_meaning(name, Meaning::Macro(index));
}

/// Stores the body of a macro, whose dummies are those from this one on.
fn store_body(state: &mut Assembly, expanded: Range, first: usize) -> Option<Range> {
    let mut names = Vec::new(state.alloc);
    let mut done = true;
    for at in first..state.dummies.len() {
        if let Some(dummy) = state.dummies.as_slice().get(at) {
            done = done && names.push(dummy.name).is_ok();
        }
    }
    state.kept(done);
    let stored = state.stream.store_body(expanded, names.as_slice());
    state.taken(stored)
}

/// Goes on behind commas, comments and line ends before the body.
fn skip_to_body(state: &mut Assembly) {
    for _ in 0..u64::MAX {
        match state.blanks() {
            Some(b',') => state.advance(b','),
            Some(b'\n') => state.advance(b'\n'),
            Some(b';') => state.skip_to(false),
            Some(_) | None => break,
        }
    }
}

/// Gives the last dummy the default that is next.
fn read_default(state: &mut Assembly, what: Name, of: Name) {
    let default = state.expanded(what, of);
    if let Some(last) = state.dummies.as_mut_slice().last_mut() {
        last.default = default;
    }
}

/// Whether a macro has a dummy of this name.
fn has_dummy(dummies: &[Dummy], name: Name) -> bool {
    dummies.iter().any(|dummy| dummy.name == name)
}

/// Adds a dummy with the name that is next, to those from `first` on. A name is created where it begins with this character, `%`.
fn read_dummy(state: &mut Assembly, next: u8, first: usize) {
    let place = state.place();
    let name = state.name();
    if has_dummy(state.dummies.as_slice().get(first..).unwrap_or(&[]), name) {
        state.tell(place, Fault::TwoDummies(name));
    }
    let done = state.dummies.push(Dummy {
        name,
        default: None,
        created: next == b'%',
    });
    let done = done.is_ok();
    state.kept(done);
}

/// The dummies up to and with `)`.
fn read_dummies(state: &mut Assembly, what: Name, of: Name) {
    let first = state.dummies.len();
    for _ in 0..u64::MAX {
        match state.blanks() {
            Some(b')') => return state.advance(b')'),
            Some(b',') => state.advance(b','),
            Some(b'<') if state.dummies.len() > first => read_default(state, what, of),
            Some(next) => {
                if !state.is_name_next() {
                    break;
                }
                read_dummy(state, next, first);
            }
            None => break,
        }
    }
    state.fail_statement(Fault::Needs(what))
}

/// What a dummy stands for in a call.
fn chosen(state: &mut Assembly, dummy: Dummy, given: Option<Range>) -> Option<Range> {
    if given.is_some() {
        return given;
    }
    if dummy.created {
        state.created = state.created.saturating_add(1);
        let stored = state.stream.store_created(state.created);
        return state.taken(stored);
    }
    Some(dummy.default.unwrap_or(Range::empty()))
}

/// The macro of this number, which is called.
pub fn called_macro(
    state: &mut Assembly,
    name: Name,
    index: usize,
    place: Place,
) -> MacroDefinition {
    match state.macros.as_slice().get(index).copied() {
        Some(called) => called,
        None => {
            state.fail(place, Fault::NotDefined(name));
            MacroDefinition {
                first: 0,
                count: 0,
                body: Range::empty(),
            }
        }
    }
}

/// Keeps an argument of a call.
pub fn push_argument(state: &mut Assembly, argument: Option<Range>) {
    let done = state.given.push(argument).is_ok();
    state.kept(done);
}

/// Goes on behind the comma to the next argument of a call. False behind the last; a `(` before them is closed then.
pub fn next_argument(state: &mut Assembly, in_parentheses: bool, place: Place) -> bool {
    match state.peek() {
        Some(b',') => {
            state.advance(b',');
            return true;
        }
        Some(b')') if in_parentheses => state.advance(b')'),
        Some(_) | None => {
            if in_parentheses {
                state.fail(place, Fault::NoParenthesis);
            }
        }
    }
    false
}

/// What the dummies of a macro stand for, where the arguments are those from this one on; the arguments are forgotten.
fn texts_of(state: &mut Assembly, called: MacroDefinition, given: usize) -> Vec<Range> {
    let mut texts = Vec::new(state.alloc);
    for at in 0..called.count {
        let index = called.first.saturating_add(at);
        if let Some(dummy) = state.dummies.as_slice().get(index).copied() {
            let argument = match state.given.as_slice().get(given.saturating_add(at)) {
                Some(argument) => *argument,
                None => None,
            };
            let text = chosen(state, dummy, argument).unwrap_or(Range::empty());
            let done = texts.push(text).is_ok();
            state.kept(done);
        }
    }
    state.given.truncate(given);
    texts
}

/// Puts the body of a macro in front, with the arguments from this one on.
pub fn put_body(
    state: &mut Assembly,
    name: Name,
    called: MacroDefinition,
    place: Place,
    given: usize,
) {
    if state.is_failed() {
        return;
    }
    let texts = texts_of(state, called, given);
    if state.is_failed() || !count_call(state) {
        return;
    }
    state.listing.part();
    let kept = state.stream.keep_arguments(texts.as_slice());
    let Some(arguments) = state.taken(kept) else {
        return;
    };
    let spot = Assembly::spot(place);
    let entered = state
        .stream
        .enter(Kind::Macro, name, called.body, arguments, spot);
    entered_text(state, entered);
}

/// Whether an argument ends before a character, at this depth of brackets.
fn ends_argument(character: u8, depth: i64, in_parentheses: bool) -> bool {
    match character {
        b'\n' => true,
        b';' => !in_parentheses,
        b',' | b']' | b'>' => depth == 0,
        b')' => depth == 0 && in_parentheses,
        _ => false,
    }
}

/// Adds a text in brackets to an argument, without them where no other bracket is open.
fn add_bracketed(state: &mut Assembly, name: Name, depth: i64, text: &mut Vec<u8>) {
    let Some(inner) = state.expanded(name, Name::of_sixbit(0)) else {
        return;
    };
    let characters = state.text(inner);
    if depth > 0 {
        state.add_to(text, b'<');
    }
    let done = text.extend_from_slice(characters.as_slice()).is_ok();
    state.kept(done);
    if depth > 0 {
        state.add_to(text, b'>');
    }
}

/// Adds the character that is next to an argument; gives the depth of brackets behind it.
fn add_character(state: &mut Assembly, character: u8, depth: i64, text: &mut Vec<u8>) -> i64 {
    state.advance(character);
    state.add_to(text, character);
    match character {
        b'(' | b'[' => depth.saturating_add(1),
        b')' | b']' => depth.saturating_sub(1),
        _ => depth,
    }
}

/// One argument; None where nothing is there.
pub fn argument_text(state: &mut Assembly, name: Name, in_parentheses: bool) -> Option<Range> {
    let mut text = Vec::new(state.alloc);
    let mut kept = None;
    let mut depth = 0i64;
    for _ in 0..u64::MAX {
        let character = match state.peek() {
            Some(character) if !ends_argument(character, depth, in_parentheses) => character,
            Some(_) | None => break,
        };
        if character == b'<' {
            add_bracketed(state, name, depth, &mut text);
        } else {
            depth = add_character(state, character, depth, &mut text);
        }
        if !is_blank(character) {
            kept = Some(text.len());
        }
    }
    let Some(length) = kept else {
        return None;
    };
    text.truncate(length);
    let stored = state.stream.store(text.as_slice());
    state.taken(stored)
}

/// How many arguments are read already.
pub fn argument_count(state: &Assembly) -> usize {
    state.given.len()
}

/// Whether an argument begins with `\`, which stands for the digits of a value.
pub fn is_digits_argument(state: &mut Assembly) -> bool {
    state.blanks() == Some(b'\\')
}

/// Goes on behind `\`; gives where the value begins, and the statement around. The statement is now that of the call.
pub fn begin_digits(state: &mut Assembly, place: Place) -> (Place, Place) {
    state.advance(b'\\');
    begin_needed(state);
    state.blanks();
    let start = state.place();
    let statement = state.statement;
    state.statement = place;
    (start, statement)
}

/// The digits of a value's word in the radix, where the value and the statement around are as `begin_digits` gave them.
pub fn end_digits(
    state: &mut Assembly,
    value: Value,
    name: Name,
    start: Place,
    statement: Place,
) -> Option<Range> {
    let number = needed(state, value, name, start);
    state.statement = statement;
    state.blanks();
    let Some(word) = word_of(number) else {
        state.fail(start, Fault::NoWord(Some(number)));
        return None;
    };
    let stored = state.stream.store_digits(word.number(), state.radix);
    state.taken(stored)
}
