//! Why a source could not be parsed.

ghost use Rattle.std.specs.Prelude.{◌≡◌, ◌≤◌};
ghost use Rattle.mac_text.specs.declared.fault.Fault.TheVariants.{Memory};
ghost use Rattle.mac_text.specs.declared.fault.ParseError.TheVariants as parse_errors;

use std::alloc::{AllocError, AllocFailed};

/// What the grammar wants where something else stands.
#[derive(Clone, Copy, Debug, PartialEq, Eq)]
pub enum Wanted {
    /// Characters of ASCII alone.
    Ascii,
    /// A statement or a comment.
    Statement,
    /// The name of an operation: the name that begins the statement is none, and something stands behind it.
    Operation,
    /// A term of an expression.
    Term,
    /// `D` or `O`, behind `^`.
    Mark,
    /// A number, behind `^D` or `^O`.
    Marked,
    /// A number in decimal.
    Decimal,
    /// The digits of a number in this radix: the word that stands there has others, or letters.
    Digits(u8),
    /// `)`.
    IndexEnd,
    /// A comma and a second value.
    SecondValue,
    /// A comma and an address.
    Address,
    /// A text between two equal characters.
    Text,
    /// Once more the character that begins the text.
    TextEnd,
    /// The bracket that ends the literal that begins there.
    LiteralEnd,
    /// No literal within a literal.
    NoLiteral,
    /// A statement that gives words, in a literal.
    Words,
    /// A text that is not empty, in a literal.
    Characters,
    /// The operands alone that the operation may have: an accumulator or an address, one of them, or none.
    Allowed,
    /// An accumulator, an address or the end of the line.
    Operand,
    /// The end of the line, or what goes on behind a value.
    ValueEnd,
    /// The end of the line.
    LineEnd,
}

/// The first line of a source that is not in the grammar, and why.
#[derive(Clone, Copy, Debug, PartialEq, Eq)]
pub struct SyntaxFault {
    /// The number of the line, counted from 1.
    pub line: usize,
    /// How many bytes of the line stand before the statement, or before that in the literal that is at fault.
    pub statement: usize,
    /// How many bytes of the line stand before what is at fault.
    pub position: usize,
    /// What the grammar wants there.
    pub wanted: Wanted,
}

/// Why a source could not be parsed.
#[derive(Clone, Copy, Debug, PartialEq, Eq)]
pub enum ParseError {
    /// There was no memory.
    Memory,
    /// A line is the first that is not in the grammar.
    Syntax(SyntaxFault),
}

impl From<AllocError> for ParseError {
    ghost from_gives = { λ _ e. e ≡ parse_errors.Memory };

    fn from(_e: AllocError) -> ParseError {
        ParseError::Memory
    }
}

/// Why a part of a line could not be parsed.
#[derive(Clone, Copy, Debug, PartialEq, Eq)]
pub enum Fault {
    /// There was no memory.
    Memory,
    /// It is not in the grammar, which wants this where the reading stopped.
    Syntax(Wanted),
}

impl From<AllocError> for Fault {
    ghost from_gives = { λ _ e. e ≡ Memory };

    fn from(_e: AllocError) -> Fault {
        Fault::Memory
    }
}

impl<T: Drop> From<AllocFailed<T>> for Fault {
    ghost from_gives = { λ _ e. e ≡ Memory };

    fn from(_e: AllocFailed<T>) -> Fault {
        Fault::Memory
    }
}

/// Where the reading of a line stopped.
#[derive(Clone, Copy, Debug, PartialEq, Eq)]
pub struct Stopped {
    /// How many bytes of the line stand before the statement, or before that in a literal.
    pub statement: usize,
    /// How many bytes of the line stand before what is at fault.
    pub position: usize,
}

impl Stopped {
    /// The fault of a line of this number and of `length` bytes. Where no term of a statement was read, a statement is wanted.
    pub fn fault(self, line: usize, length: usize, wanted: Wanted) -> SyntaxFault
        ensures line { result.line ≡ line }
        ensures within { result.position ≤ length }
        ensures order { result.statement ≤ result.position }
    {
        let position = self.position.min(length);
        let wanted = match wanted {
            Wanted::Term if position <= self.statement => Wanted::Statement,
            other => other,
        };
        SyntaxFault {
            line,
            statement: self.statement.min(position),
            position,
            wanted,
        }
    }
}
