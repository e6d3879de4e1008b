//! Values of expressions.

ghost use Rattle.std.specs.Prelude.{◌≡◌, List, ℤ, Some, None, false, pos};
ghost use Rattle.std.specs.Option.{option_map};
ghost use Rattle.word36.specs.Words.{signed_value};
ghost use Rattle.macro_values.specs.Numbers.{known_in};

use crate::state::Assembly;
use macro_values::Number;
use word36::Word;

/// A value of an expression.
#[derive(Clone, Copy)]
pub struct Value {
    /// The number, where this pass knows it.
    pub number: Option<Number>,
    /// Whether a label, a literal or the place is in it.
    pub placed: bool,
}

impl Value {
    /// 0.
    pub fn zero() -> Value
        ensures number { result.number ≡ Some (Number.Small (pos 0)) }
        ensures placed { result.placed ≡ false }
    {
        Value {
            number: Some(Number::Small(0)),
            placed: false,
        }
    }

    /// A number that may be negative, and whether a label or the place is in it.
    pub fn signed(number: i64, placed: bool) -> Value
        ensures number { result.number ≡ Some (Number.Small number) }
        ensures placed { result.placed ≡ placed }
    {
        Value {
            number: Some(Number::Small(number)),
            placed,
        }
    }

    /// A value that this pass does not know.
    pub fn unknown(placed: bool) -> Value
        ensures number { result.number ≡ None }
        ensures placed { result.placed ≡ placed }
    {
        Value {
            number: None,
            placed,
        }
    }

    /// A word, read as signed.
    pub fn of_word(word: Option<Word>, placed: bool) -> Value
        ensures number { (kept : List ℤ) → known_in kept result.number ≡ option_map signed_value word }
        ensures placed { result.placed ≡ placed }
    {
        match word {
            Some(word) => Value::signed(word.signed(), placed),
            None => Value::unknown(placed),
        }
    }
}

impl Assembly {
    /// The number of a value, where it is known. For one beyond 64 bits it is 2^36, which no word holds.
    pub fn known(&self, value: Value) -> Option<i64> {
        match value.number {
            None => None,
            Some(number) => Some(self.numbers.small(number).unwrap_or(0o1_000_000_000_000)),
        }
    }
}
