//! The operators that take words.

ghost use Rattle.std.specs.Prelude.{◌≡◌};
ghost use Rattle.macro_values.specs.Values.{value_of};

use crate::words::{divide, multiply, shift};
use word36::Word;

/// An operator that takes its two values as words (MACRO-10 Assembler Manual).
#[derive(Clone, Copy, PartialEq, Eq)]
pub enum Operator {
    /// `*`.
    Times,
    /// `/`.
    Over,
    /// `&`.
    And,
    /// `!`.
    Or,
    /// `^!`.
    Xor,
    /// `_`.
    Shift,
}

/// What an operator gives of two words. None for a product that no word holds, and for a divisor of 0.
#[tactic(auto, unfolding(crate::specs::Values::value_of))]
pub fn operate(operator: Operator, a: Word, b: Word) -> Option<Word>
    ensures { result ≡ value_of operator a b }
{
    match operator {
        Operator::Times => multiply(a, b),
        Operator::Over => divide(a, b),
        Operator::And => Some(a.and(b)),
        Operator::Or => Some(a.or(b)),
        Operator::Xor => Some(a.xor(b)),
        Operator::Shift => Some(shift(a, b.signed())),
    }
}
