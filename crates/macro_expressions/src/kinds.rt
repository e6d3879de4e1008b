//! Kinds of what stands in an expression.

use macro_values::Operator;

/// An operator between two values.
#[derive(Clone, Copy, PartialEq, Eq)]
pub enum Infix {
    /// `+`.
    Plus,
    /// `-`.
    Minus,
    /// One that takes words.
    OfWords(Operator),
}

/// The sign before a value.
#[derive(Clone, Copy, PartialEq, Eq)]
pub enum SignKind {
    /// `+`.
    Plus,
    /// `-`.
    Minus,
    /// `^-`.
    Not,
    /// None.
    Unsigned,
}

/// How a term begins.
#[derive(Clone, Copy, PartialEq, Eq)]
pub enum Kind {
    /// By a name.
    Name,
    /// By `[`.
    Literal,
    /// By `<`.
    Bracket,
    /// By `.`.
    Here,
    /// By `^`.
    Marked,
    /// By a digit.
    Digits,
    /// By something else.
    Other,
}
