//! What a condition compares.
ghost use Rattle.std.specs.Prelude.{◌≡◌, ◌<◌};
ghost use Rattle.ddt_breakpoints.specs.Conditions.{compares, digit_of, holds_of};

use ka_word::compare;
use word36::Word;

/// How two words are compared, as signed numbers, as CAM compares them.
#[derive(Clone, Copy)]
pub enum Comparison {
    /// The first is less: `<`.
    Less,
    /// They are equal: `=`.
    Equal,
    /// The first is less, or they are equal: `<=`.
    LessOrEqual,
    /// The first is greater, or they are equal: `>=`.
    GreaterOrEqual,
    /// They differ: `<>`.
    NotEqual,
    /// The first is greater: `>`.
    Greater,
}

impl Comparison {
    /// The low digit of the operation of CAM that skips where it holds.
    fn digit(self) -> u32
        ensures digit { result ≡ digit_of self }
        ensures below { result < 8 }
    {
        match self {
            Comparison::Less => 1,
            Comparison::Equal => 2,
            Comparison::LessOrEqual => 3,
            Comparison::GreaterOrEqual => 5,
            Comparison::NotEqual => 6,
            Comparison::Greater => 7,
        }
    }

    /// How it is typed and shown.
    pub fn sign(self) -> &'static str {
        match self {
            Comparison::Less => "<",
            Comparison::Equal => "=",
            Comparison::LessOrEqual => "<=",
            Comparison::GreaterOrEqual => ">=",
            Comparison::NotEqual => "<>",
            Comparison::Greater => ">",
        }
    }

    /// Whether two words compare so.
    fn compares(self, a: Word, b: Word) -> bool
        ensures { result ≡ compares self a b }
    {
        compare(self.digit(), a, b)
    }
}

/// A condition: the word at an address, a register below 20 octal, compares so with a value.
#[derive(Clone, Copy)]
pub struct Condition {
    /// The address, below 2^18.
    pub address: u32,
    /// How the word is compared with the value.
    pub comparison: Comparison,
    /// The value.
    pub value: Word,
}

impl Condition {
    /// Whether it holds of the word at its address; it does not where there is none.
    pub fn holds_of(&self, word: Option<Word>) -> bool
        ensures { result ≡ holds_of self.now word }
    {
        match word {
            Some(word) => self.comparison.compares(word, self.value),
            None => false,
        }
    }
}
