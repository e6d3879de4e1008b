//! Conditions and repetitions.

use crate::searches::is_searched;
use macro_faults::Fault;
use macro_names::{Name, is_blank};
use macro_operands::required;
use macro_operations::{Pseudo, Test};
use macro_state::{Assembly, Value};
use macro_stream::{Arguments, Kind, MARK, Place, Range, Rounds, Stop};
use macro_values::word_of;

/// No name.
fn nothing() -> Name {
    Name::of_sixbit(0)
}

/// Whether a test holds of a number.
fn holds(test: Test, number: i64) -> bool {
    match test {
        Test::Equal => number == 0,
        Test::Unequal => number != 0,
        Test::Greater => number > 0,
        Test::NotLess => number >= 0,
        Test::Less => number < 0,
        Test::NotGreater => number <= 0,
    }
}

/// Whether a text has nothing but blanks and line ends.
fn is_empty_text(text: &[u8]) -> bool {
    for character in text {
        if !is_blank(*character) && *character != b'\n' {
            return false;
        }
    }
    true
}

/// Whether it is a condition, a repetition or COMMENT.
pub fn is_condition(pseudo: Pseudo) -> bool {
    match pseudo {
        Pseudo::Repeat | Pseudo::If(_) | Pseudo::Comment | Pseudo::Irp(_) => true,
        Pseudo::IfDefined(_) | Pseudo::IfSame(_) | Pseudo::IfBlank(_) | Pseudo::IfPass(_) => true,
        _ => false,
    }
}

/// A text in brackets is to come.
pub fn begin_text(state: &mut Assembly) {
    if !state.is_failed() {
        state.text_due = true;
    }
}

/// Whether a condition, a repetition or COMMENT needs a number.
pub fn needs_number(pseudo: Pseudo) -> bool {
    match pseudo {
        Pseudo::Repeat | Pseudo::If(_) => true,
        _ => false,
    }
}

/// REPEAT, or a condition of a number, whose value begins at `place`.
pub fn with_number(
    state: &mut Assembly,
    pseudo: Pseudo,
    name: Name,
    value: Option<Value>,
    place: Place,
) {
    let number = required(state, value, name, Fault::Needs(name), place);
    if word_of(number).is_none() {
        state.fail(place, Fault::NoWord(Some(number)));
    }
    if let Pseudo::If(test) = pseudo {
        text_if(state, holds(test, number), name);
    } else {
        repeat(state, name, number);
    }
    end_text(state);
}

/// A text in brackets is no longer to come.
fn end_text(state: &mut Assembly) {
    if !state.is_failed() {
        state.text_due = false;
    }
}

/// A condition or repetition without a number, or COMMENT.
pub fn plain_condition(state: &mut Assembly, pseudo: Pseudo, name: Name) {
    match pseudo {
        Pseudo::Comment => {
            let _text = state.marked_text(name, false);
        }
        Pseudo::Irp(by_character) => elements_of(state, name, by_character),
        Pseudo::IfDefined(wanted) => {
            let is_defined = is_defined(state, name);
            text_if(state, is_defined == wanted, name);
        }
        Pseudo::IfSame(wanted) => {
            let is_same = is_same(state, name);
            text_if(state, is_same == wanted, name);
        }
        Pseudo::IfBlank(wanted) => {
            let text = state.compared(name);
            text_if(state, is_empty_text(text.as_slice()) == wanted, name);
        }
        Pseudo::IfPass(pass) => text_if(state, state.pass == pass, name),
        _ => (),
    }
    end_text(state);
}

/// Whether the name that is next is defined.
fn is_defined(state: &mut Assembly, what: Name) -> bool {
    let name = state.needed_name(what);
    state.note_use(name, state.statement.line);
    state.is_defined(name) || state.uuosym && is_searched(name)
}

/// Whether the two texts that are next are the same.
fn is_same(state: &mut Assembly, what: Name) -> bool {
    let one = state.compared(what);
    state.eat(b',');
    let other = state.compared(what);
    one.as_slice() == other.as_slice()
}

/// The text of a condition: put in front where it holds, else passed over.
fn text_if(state: &mut Assembly, holds: bool, name: Name) {
    state.eat(b',');
    state.blanks();
    let before = state.stream.top();
    let Some((range, arguments)) = state.bracket(name, nothing()) else {
        return;
    };
    if !holds {
        return;
    }
    if !count_call(state) {
        return;
    }
    state.listing.part();
    let entered = if state.stream.named() == 0 {
        let column = before.column.saturating_add(1);
        state.stream.enter_source(range, before.line, column)
    } else {
        let spot = Assembly::spot(state.statement);
        state
            .stream
            .enter(Kind::Condition, name, range, arguments, spot)
    };
    entered_text(state, entered);
}

/// Counts a call, a round or a true condition. False where there are too many.
pub fn count_call(state: &mut Assembly) -> bool {
    let counted = state.stream.count_call();
    state.taken(counted).is_some()
}

/// Takes note of whether a text was put in front.
pub fn entered_text(state: &mut Assembly, entered: Result<(), Stop>) {
    match entered {
        Ok(()) => (),
        Err(stop) => state.stop(stop),
    }
}

/// Puts rounds of a text in front.
fn enter_rounds(state: &mut Assembly, kind: Kind, name: Name, range: Range, rounds: Rounds) {
    state.listing.part();
    let spot = Assembly::spot(state.statement);
    let entered = state.stream.enter_rounds(kind, name, range, rounds, spot);
    entered_text(state, entered);
}

/// REPEAT with its number.
fn repeat(state: &mut Assembly, name: Name, number: i64) {
    state.eat(b',');
    match state.bracket(name, nothing()) {
        Some((range, _)) if number > 0 && !state.is_failed() => {
            let rounds = Rounds::Count(number.unsigned_abs());
            enter_rounds(state, Kind::Repeat, name, range, rounds);
        }
        Some(_) | None => (),
    }
}

/// Goes on behind blanks of the highest text, without looking below it.
fn skip_own_blanks(state: &mut Assembly) {
    for _ in 0..u64::MAX {
        match state.stream.next_item() {
            Some(32 | 9 | 12) => state.stream.skip_item(),
            Some(_) | None => break,
        }
    }
}

/// The dummy of IRP or IRPC, which is next, and its text.
fn dummy_of(state: &mut Assembly, name: Name) -> Option<(u32, Range)> {
    skip_own_blanks(state);
    let in_parentheses = state.stream.next_item() == Some(40);
    if in_parentheses {
        state.advance(b'(');
        skip_own_blanks(state);
    }
    let dummy = match state.stream.next_item() {
        Some(item) if item >= MARK => item - MARK,
        Some(_) | None => {
            state.fail_statement(Fault::IrpOutside(name));
            return None;
        }
    };
    let list = state.stream.argument(state.stream.top().arguments, dummy);
    state.stream.skip_item();
    if in_parentheses {
        state.expect(b')');
    }
    state.eat(b',');
    Some((dummy, list))
}

/// Keeps the elements or the characters of a list: the first, and the one behind the last.
fn keep_list(state: &mut Assembly, list: Range, by_character: bool) -> Option<(usize, usize)> {
    let kept = if by_character {
        state.stream.keep_characters(list)
    } else {
        state.stream.keep_elements(list)
    };
    state.taken(kept)
}

/// The rounds of IRP or IRPC: one for each of the elements, of which there is one at least.
fn rounds_of(
    state: &mut Assembly,
    elements: (usize, usize),
    dummy: u32,
    arguments: Arguments,
) -> Option<Rounds> {
    let (next, end) = elements;
    if next >= end {
        return None;
    }
    let kept = state.stream.keep_outside(arguments);
    match state.taken(kept) {
        Some(outer) => Some(Rounds::List {
            next,
            end,
            dummy,
            outer,
        }),
        None => None,
    }
}

/// IRP and IRPC.
fn elements_of(state: &mut Assembly, name: Name, by_character: bool) {
    let Some((dummy, list)) = dummy_of(state, name) else {
        return;
    };
    let Some((range, arguments)) = state.bracket(name, nothing()) else {
        return;
    };
    let Some(elements) = keep_list(state, list, by_character) else {
        return;
    };
    if let Some(rounds) = rounds_of(state, elements, dummy, arguments) {
        enter_rounds(state, Kind::Elements, name, range, rounds);
    }
}
