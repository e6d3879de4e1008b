//! The statements of a source.

use crate::labels::Labels;
use crate::sequence::Sequence;
use crate::sum::Expression;
use crate::symbol::Symbol;
use whole_numbers::Natural;
use word36::Word;

/// Whether a term is added or taken away.
#[derive(Clone, Copy, Debug, PartialEq, Eq)]
pub enum Sign {
    Plus,
    Minus,
}

/// A term of an expression.
#[derive(Debug, Drop)]
pub enum Term {
    Number(Natural),
    Label(Symbol),
    /// The point: the address of the statement's first word.
    Here,
    /// `[statement]`: the literal of this number among those of its line, counted from 0.
    Literal(usize),
}

/// A term with its sign.
#[derive(Debug, Drop)]
pub struct SignedTerm {
    pub sign: Sign,
    pub term: Term,
}

/// The address part of an instruction: `[@][expression][(expression)]`.
#[derive(Debug, Drop)]
pub struct Operand {
    /// `@` stands before it.
    pub indirect: bool,
    pub address: Option<Expression>,
    /// The register in parentheses.
    pub index: Option<Expression>,
}

/// An instruction or a monitor call.
#[derive(Debug, Drop)]
pub struct Instruction {
    /// The word of the name alone.
    pub word: Word,
    pub accumulator: Option<Expression>,
    pub operand: Operand,
}

/// How a text is packed into words.
#[derive(Clone, Copy, Debug, PartialEq, Eq)]
pub enum TextForm {
    /// Five characters of seven bits a word.
    Ascii,
    /// Five characters of seven bits a word, with a zero character behind the last.
    Asciz,
    /// Six characters of six bits a word.
    Sixbit,
}

/// A statement that gives words.
#[derive(Debug, Drop)]
pub enum Data {
    /// An expression alone.
    Value(Expression),
    /// `left,,right`, and `XWD left,right`.
    Halves(Expression, Expression),
    /// `IOWD count,address`.
    Iowd(Expression, Expression),
    /// `EXP value,value,..`.
    Exp(Sequence<Expression>),
    /// `POINT size,operand[,position]`, its numbers in decimal.
    Point(Natural, Operand, Option<Natural>),
    /// `ASCII`, `ASCIZ` and `SIXBIT` with the characters of their text.
    Text(TextForm, Sequence<u8>),
    /// `BLOCK count`: so many words of 0.
    Block(Expression),
    Instruction(Instruction),
}

/// What stands on a line.
#[derive(Debug, Drop)]
pub enum Statement {
    Data(Data),
    /// `LOC address`.
    Loc(Expression),
    /// `END [start]`.
    End(Option<Expression>),
    /// `RADIX radix`, a number in decimal.
    Radix(Natural),
    /// `TITLE`, `SUBTTL` or `SEARCH`, which give nothing.
    Title,
}

/// A line of a source.
#[derive(Debug, Drop)]
pub struct Line {
    /// The labels at its head, in order.
    pub labels: Labels,
    pub statement: Option<Statement>,
    /// What stands in its literals, in order.
    pub literals: Sequence<Data>,
}

/// The lines of a source up to END, or all where none has END. The first is line 1.
pub type Program = Sequence<Line>;
