//! Words, addresses and instructions.

ghost use Rattle.std.specs.Prelude.{◌≡◌};
ghost use Rattle.macro_operands.specs.Operands.{added_words};

use crate::operators::{as_half, as_word, or_zero};
use macro_faults::Fault;
use macro_state::{Assembly, Value};
use macro_stream::Place;
use macro_values::add_halves;
use word36::Word;

/// The bit of `@`.
const INDIRECT: u64 = 1 << 22;

/// What is read of an instruction, where it is known, as a number, so that steps can keep it.
#[derive(Clone, Copy)]
pub struct Fields {
    /// The number of its bits as a word.
    bits: Option<u64>,
    /// Whether `@` is there.
    indirect: bool,
}

impl Fields {
    /// Nothing.
    pub fn none() -> Fields {
        Fields {
            bits: Some(0),
            indirect: false,
        }
    }

    /// The bits of a word, and whether `@` is there.
    pub fn of_word(word: Option<Word>, indirect: bool) -> Fields {
        Fields {
            bits: match word {
                Some(word) => Some(word.number()),
                None => None,
            },
            indirect,
        }
    }

    /// The bits as a word.
    fn bits(self) -> Option<Word> {
        match self.bits {
            Some(number) => Some(Word::low_bits(number)),
            None => None,
        }
    }

    /// These fields with the bits of an index added.
    pub fn with_index(self, index: Option<Word>) -> Fields {
        Fields::of_word(added(self.bits(), index), self.indirect)
    }

    /// These fields with the bits of others added, which have no `@`.
    pub fn plus(self, others: Fields) -> Fields {
        Fields::of_word(added(others.bits(), self.bits()), self.indirect)
    }

    /// The word of these fields, with `@` joined in.
    pub fn word(self) -> Option<Word> {
        with_indirect(self.bits(), self.indirect)
    }
}

/// A word with `@` joined in, where it is asked for.
fn with_indirect(word: Option<Word>, indirect: bool) -> Option<Word> {
    match word {
        Some(word) if indirect => Some(word.or(Word::new(INDIRECT))),
        other => other,
    }
}

/// The sum of the halves of two words, where both are known.
#[tactic(auto, unfolding(crate::specs::Operands::added_words))]
fn added(one: Option<Word>, other: Option<Word>) -> Option<Word>
    ensures { result ≡ added_words one other }
{
    match (one, other) {
        (Some(one), Some(other)) => Some(add_halves(one, other)),
        _ => None,
    }
}

/// Two halves as a word, each with where it begins.
pub fn halves(state: &mut Assembly, left: (Value, Place), right: (Value, Place)) -> Option<Word> {
    let left = as_half(state, left.0, left.1);
    let right = as_half(state, right.0, right.1);
    match (left, right) {
        (Some(left), Some(right)) => Some(Word::join(left & 0o777_777, right & 0o777_777)),
        _ => None,
    }
}

/// The value of two halves, each with where it begins.
pub fn halves_value(
    state: &mut Assembly,
    left: (Option<Value>, Place),
    right: (Option<Value>, Place),
) -> Value {
    let word = halves(
        state,
        (or_zero(left.0), left.1),
        (or_zero(right.0), right.1),
    );
    Value::of_word(word, false)
}

/// Whether `,,` is next; if so, goes on behind it.
pub fn eat_commas(state: &mut Assembly) -> bool {
    if state.blanks() != Some(b',') || state.second() != Some(b',') {
        return false;
    }
    state.advance(b',');
    state.skip(b',');
    true
}

/// Whether `@` is next behind blanks; if so, goes on behind it. Before a name that is read none is.
pub fn eat_indirect(state: &mut Assembly) -> bool {
    state.pending_label.is_none() && state.eat(b'@')
}

/// Whether an index is next.
pub fn is_index_next(state: &mut Assembly) -> bool {
    state.blanks() == Some(b'(')
}

/// The bits of an accumulator.
fn accumulator_bits(state: &mut Assembly, value: Value, place: Place) -> Option<Word> {
    let Some(number) = state.known(value) else {
        return None;
    };
    if number < 0 || number > 0o17 {
        state.misfit(place, Fault::Accumulator(number));
        return None;
    }
    Some(Word::low_bits((number as u64) << 23))
}

/// The bits of a device.
fn device_bits(state: &mut Assembly, value: Value, place: Place) -> Option<Word> {
    let Some(number) = state.known(value) else {
        return None;
    };
    if number < 0 || number > 0o774 || number & 3 != 0 {
        state.misfit(place, Fault::Device(number));
        return None;
    }
    Some(Word::low_bits((number as u64) << 24))
}

/// The fields of a device or of an accumulator, which begins at a place.
pub fn first_fields(state: &mut Assembly, value: Value, is_device: bool, place: Place) -> Fields {
    let bits = if is_device {
        device_bits(state, value, place)
    } else {
        accumulator_bits(state, value, place)
    };
    Fields::of_word(bits, false)
}

/// Whether a comma is next, and not two; if so, goes on behind it.
pub fn eat_comma(state: &mut Assembly) -> bool {
    if state.blanks() != Some(b',') || state.second() == Some(b',') {
        return false;
    }
    state.advance(b',');
    true
}

/// Goes on behind a comma, which has to be next behind blanks.
pub fn need_comma(state: &mut Assembly) {
    if !state.eat(b',') {
        state.unexpected();
    }
}

/// The bits of an index, which is given by the word in parentheses, which begins at a place: its halves are swapped.
pub fn index_bits(state: &mut Assembly, value: Value, place: Place) -> Option<Word> {
    let Some(word) = as_word(state, value, place) else {
        return None;
    };
    if word.right() > 0o17 {
        state.misfit(place, Fault::Index(word.right()));
        return None;
    }
    Some(word.swapped())
}

/// The fields of a value as an address, which begins at a place, and whether `@` is there.
pub fn address_fields(state: &mut Assembly, value: Value, indirect: bool, place: Place) -> Fields {
    let bits = match as_half(state, value, place) {
        Some(half) => Some(u64::from(half)),
        None => None,
    };
    Fields { bits, indirect }
}
