//! Sums, products, logical operators, shifts and signs.

ghost use Rattle.std.specs.Prelude.{◌≡◌, ◌||◌, ℤ, Some, None};
ghost use Rattle.std.specs.Option.{option_map};
ghost use Rattle.word36.specs.Words.{signed_value};
ghost use Rattle.macro_values.specs.Numbers.{known_in};
ghost use Rattle.macro_operands.specs.Operands.{word_of_number, operated, IsHalfOf, AreSummed, AreOperated, AreCombined, strength_of};

use macro_faults::Fault;
use macro_names::is_name_character;
use macro_state::{Assembly, Sign, Value};
use macro_stream::Place;
use macro_values::{Operator, operate};
use word36::Word;

/// The value, or 0 for an empty operand.
pub fn or_zero(value: Option<Value>) -> Value {
    match value {
        Some(value) => value,
        None => Value::zero(),
    }
}

/// A value taken as a word.
#[tactic(auto, unfolding(crate::specs::Operands::word_of_number))]
pub fn as_word(state: &mut Assembly, value: Value, place: Place) -> Option<Word>
    ensures word { state.new.failure ≡ None → result ≡ word_of_number (known_in state.old.numbers value.number) }
    ensures failed { state.new.failure ≡ None → state.old.failure ≡ None }
    ensures numbers { state.new.numbers ≡ state.old.numbers }
{
    let Some(number) = value.number else {
        return None;
    };
    match state.numbers.word(state.alloc, number) {
        Ok(Some(word)) => Some(word),
        Ok(None) => {
            let small = state.numbers.small(number);
            state.misfit(place, Fault::NoWord(small));
            None
        }
        Err(_) => {
            state.out_of_memory();
            None
        }
    }
}

/// A value taken as a half of a word or an address.
pub fn as_half(state: &mut Assembly, value: Value, place: Place) -> Option<u32>
    ensures unknown { value.number ≡ None → result ≡ None }
    ensures known { (z : ℤ) → known_in state.old.numbers value.number ≡ Some z → state.new.failure ≡ None → IsHalfOf z result }
{
    let Some(number) = value.number else {
        return None;
    };
    match state.numbers.half(state.alloc, number) {
        Ok(Some(half)) => Some(half),
        Ok(None) => {
            let small = state.numbers.small(number);
            state.misfit(place, Fault::Half(small));
            None
        }
        Err(_) => {
            state.out_of_memory();
            None
        }
    }
}

/// Whether a value begins with this character.
fn begins_value(next: Option<u8>) -> bool {
    match next {
        Some(b'+' | b'-' | b'^' | b'<' | b'"' | b'\'' | b'[') => true,
        Some(other) => is_name_character(other),
        None => false,
    }
}

/// Whether a value is next.
pub fn is_value_next(state: &mut Assembly) -> bool {
    state.pending_label.is_some() || begins_value(state.blanks())
}

/// Where the value begins that is next.
pub fn start_of_value(state: &mut Assembly) -> Place {
    if let Some((_, place)) = state.pending_label {
        return place;
    }
    state.blanks();
    state.place()
}

/// The sum or the difference of two values.
#[tactic(auto, unfolding(crate::specs::Operands::summed_number))]
fn summed(state: &mut Assembly, left: Value, right: Value, is_difference: bool) -> Value
    ensures number { state.new.failure ≡ None
        → AreSummed is_difference state.old.numbers state.new.numbers left.number right.number result.number }
    ensures placed { result.placed ≡ (left.placed || right.placed) }
{
    let placed = left.placed || right.placed;
    let (Some(one), Some(other)) = (left.number, right.number) else {
        return Value::unknown(placed);
    };
    let number = if is_difference {
        state.numbers.difference(state.alloc, one, other)
    } else {
        state.numbers.sum(state.alloc, one, other)
    };
    match number {
        Ok(number) => Value {
            number: Some(number),
            placed,
        },
        Err(_) => {
            state.out_of_memory();
            Value::unknown(placed)
        }
    }
}

/// What an operator on words gives of two words, where both are known.
#[tactic(auto, unfolding(crate::specs::Operands::operated))]
fn worked_out(
    state: &mut Assembly,
    operator: Operator,
    one: Option<Word>,
    other: Option<Word>,
    place: Place,
) -> Option<Word>
    ensures word { option_map signed_value result ≡ operated operator one other }
    ensures failed { state.new.failure ≡ None → state.old.failure ≡ None }
    ensures numbers { state.new.numbers ≡ state.old.numbers }
{
    let (Some(one), Some(other)) = (one, other) else {
        return None;
    };
    let word = operate(operator, one, other);
    if word.is_none() {
        let fault = if operator == Operator::Times {
            Fault::Product
        } else {
            Fault::Quotient
        };
        state.misfit(place, fault);
    }
    word
}

/// What an operator on words gives of two values.
fn applied(
    state: &mut Assembly,
    operator: Operator,
    left: (Value, Place),
    right: (Value, Place),
) -> Value
    ensures number { state.new.failure ≡ None
        → AreOperated operator state.old.numbers state.new.numbers left.0.number right.0.number result.number }
    ensures placed { result.placed ≡ (left.0.placed || right.0.placed) }
{
    let one = as_word(state, left.0, left.1);
    let other = as_word(state, right.0, right.1);
    let word = worked_out(state, operator, one, other, left.1);
    let placed = left.0.placed || right.0.placed;
    Value::of_word(word, placed)
}

/// An operator between two values.
#[derive(Clone, Copy)]
pub enum Infix {
    /// `+`.
    Plus,
    /// `-`.
    Minus,
    /// One that takes words.
    OfWords(Operator),
}

/// How strongly an operator binds: sums least, shifts most.
pub fn strength(between: Infix) -> u8
    ensures { result ≡ strength_of between }
{
    match between {
        Infix::Plus | Infix::Minus => 0,
        Infix::OfWords(Operator::Times | Operator::Over) => 1,
        Infix::OfWords(Operator::And | Operator::Or | Operator::Xor) => 2,
        Infix::OfWords(Operator::Shift) => 3,
    }
}

/// The operator that is next behind blanks, if one is.
fn operator_next(state: &mut Assembly) -> Option<Infix> {
    match state.blanks() {
        Some(b'+') => Some(Infix::Plus),
        Some(b'-') => Some(Infix::Minus),
        Some(b'*') => Some(Infix::OfWords(Operator::Times)),
        Some(b'/') => Some(Infix::OfWords(Operator::Over)),
        Some(b'&') => Some(Infix::OfWords(Operator::And)),
        Some(b'!') => Some(Infix::OfWords(Operator::Or)),
        Some(b'_') => Some(Infix::OfWords(Operator::Shift)),
        Some(b'^') if state.second() == Some(b'!') => Some(Infix::OfWords(Operator::Xor)),
        Some(_) | None => None,
    }
}

/// Goes on behind an operator.
fn skip_operator(state: &mut Assembly) {
    match state.peek() {
        Some(b'^') => {
            state.advance(b'^');
            state.skip(b'!');
        }
        Some(sign) => state.advance(sign),
        None => (),
    }
}

/// The operator that is next behind blanks, if one is that binds at least so strongly; goes on behind it.
pub fn take_operator(state: &mut Assembly, least: u8) -> Option<Infix> {
    match operator_next(state) {
        Some(between) if strength(between) >= least => {
            skip_operator(state);
            Some(between)
        }
        Some(_) | None => None,
    }
}

/// What an operator gives of two values.
#[tactic(auto, unfolding(crate::specs::Operands::combined_number))]
pub fn combined(
    state: &mut Assembly,
    between: Infix,
    left: (Value, Place),
    right: (Value, Place),
) -> Value
    ensures number { state.new.failure ≡ None
        → AreCombined between state.old.numbers state.new.numbers left.0.number right.0.number result.number }
    ensures placed { result.placed ≡ (left.0.placed || right.0.placed) }
{
    match between {
        Infix::Plus => summed(state, left.0, right.0, false),
        Infix::Minus => summed(state, left.0, right.0, true),
        Infix::OfWords(operator) => applied(state, operator, left, right),
    }
}

/// Goes on behind the signs that are next, up to and with `-` or `^-`, which it gives; a `+` says nothing.
fn take_sign(state: &mut Assembly) -> Option<Sign> {
    for _ in 0..u64::MAX {
        if state.pending_label.is_some() {
            break;
        }
        match state.blanks() {
            Some(b'+') => state.advance(b'+'),
            Some(b'-') => {
                state.advance(b'-');
                let place = state.place();
                return Some(Sign {
                    is_not: false,
                    place,
                });
            }
            Some(b'^') if state.second() == Some(b'-') => {
                state.advance(b'^');
                state.skip(b'-');
                let place = state.place();
                return Some(Sign {
                    is_not: true,
                    place,
                });
            }
            Some(_) | None => break,
        }
    }
    None
}

/// Reads the signs that are next; gives how many were kept before them.
pub fn read_signs(state: &mut Assembly) -> usize {
    let first = state.signs.len();
    for _ in 0..u64::MAX {
        let Some(sign) = take_sign(state) else {
            break;
        };
        let done = state.signs.push(sign).is_ok();
        state.kept(done);
    }
    first
}

/// The other sign of a value.
fn negated(state: &mut Assembly, value: Value) -> Value {
    let Some(number) = value.number else {
        return value;
    };
    match state.numbers.negated(state.alloc, number) {
        Ok(number) => Value {
            number: Some(number),
            placed: value.placed,
        },
        Err(_) => {
            state.out_of_memory();
            value
        }
    }
}

/// The word of a value, inverted.
fn inverted(state: &mut Assembly, value: Value, place: Place) -> Value {
    let word = match as_word(state, value, place) {
        Some(word) => Some(word.not()),
        None => None,
    };
    Value::of_word(word, value.placed)
}

/// A value behind the signs from this one on, the last of which is applied first.
pub fn apply_signs(state: &mut Assembly, value: Value, first: usize) -> Value {
    let mut value = value;
    for at in (first..state.signs.len()).rev() {
        if let Some(sign) = state.signs.as_slice().get(at).copied() {
            value = if sign.is_not {
                inverted(state, value, sign.place)
            } else {
                negated(state, value)
            };
        }
    }
    state.signs.truncate(first);
    value
}
