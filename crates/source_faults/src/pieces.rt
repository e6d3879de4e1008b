//! The values of a line, and what they have to be.

use crate::values::Limit;
use mac_text::{
    Data, Expression, Line, Operand, Parts, Sign, SignedTerm, Span, Statement, Symbol, Term,
    TextForm, upper_case,
};
use std::alloc::{AllocError, Global};
use whole_numbers::Natural;

/// How a value is found in its line.
#[derive(Clone, Copy)]
pub enum Mark {
    /// An expression stands there.
    Span(Span),
    /// It is written as this number in decimal.
    Number(i64),
    /// It is this character of a text.
    Character(u8),
}

/// A value of a line.
#[derive(Clone, Copy)]
pub struct Piece {
    pub mark: Mark,
    /// The number that it is, where it is made of numbers alone.
    pub number: Option<i64>,
    /// The first of its names that no line defines.
    pub unknown: Option<Symbol>,
    /// Whether it is a statement of its own.
    pub is_statement: bool,
    /// What it has to be.
    pub limit: Limit,
}

impl Piece {
    /// Whether it is known to be outside its limits.
    pub fn is_misfit(&self) -> bool {
        match self.number {
            Some(number) => !self.limit.holds(number),
            None => false,
        }
    }
}

/// The values of a line that are gathered.
#[derive(Drop)]
struct Pieces<'l> {
    lines: &'l [Line],
    pieces: Vec<Piece>,
}

/// A number, or a greater one than any that fits.
fn clamped(number: u64) -> i64 {
    i64::try_from(number).unwrap_or(i64::MAX)
}

/// A number, or a greater one than any that fits.
fn number_in(number: &Natural) -> i64 {
    clamped(number.to_u64().unwrap_or(u64::MAX))
}

/// The sum of some terms, where all are numbers.
fn sum_of(terms: &[SignedTerm]) -> Option<i64> {
    let mut sum = 0i64;
    for term in terms {
        let Term::Number(number) = &term.term else {
            return None;
        };
        let number = number_in(number);
        sum = match term.sign {
            Sign::Plus => sum.saturating_add(number),
            Sign::Minus => sum.saturating_sub(number),
        };
    }
    Some(sum)
}

/// The number of an expression, where it is made of numbers alone.
fn number_of(expression: &Expression) -> Option<i64> {
    match expression.parts() {
        Parts::Number(number) => Some(clamped(number)),
        Parts::Negative(number) => Some(0i64.saturating_sub(clamped(number))),
        Parts::Sum(terms) => sum_of(terms),
        Parts::Label(_) | Parts::Here | Parts::Literal(_) => None,
    }
}

/// Whether a label is one of these.
pub fn has_label(labels: &[Symbol], label: Symbol) -> bool {
    labels.iter().any(|other| other.sixbit() == label.sixbit())
}

/// Whether a line of these has a label.
pub fn is_defined(lines: &[Line], label: Symbol) -> bool {
    lines
        .iter()
        .any(|line| has_label(line.labels.as_slice(), label))
}

/// The first name in some terms that no line defines.
fn unknown_among(lines: &[Line], terms: &[SignedTerm]) -> Option<Symbol> {
    for term in terms {
        if let Term::Label(label) = &term.term {
            if !is_defined(lines, *label) {
                return Some(*label);
            }
        }
    }
    None
}

/// The first name of an expression that no line defines.
fn unknown_in(lines: &[Line], expression: &Expression) -> Option<Symbol> {
    match expression.parts() {
        Parts::Label(label) if !is_defined(lines, label) => Some(label),
        Parts::Sum(terms) => unknown_among(lines, terms),
        _ => None,
    }
}

/// The first character of a text that SIXBIT does not have.
fn no_sixbit(text: &[u8]) -> Option<u8> {
    for c in text {
        let upper = upper_case(*c);
        if upper < b' ' || upper > b'_' {
            return Some(*c);
        }
    }
    None
}

impl Pieces<'_> {
    fn push_sum(&mut self, sum: &Expression, limit: Limit) -> Result<(), AllocError> {
        let piece = Piece {
            mark: Mark::Span(sum.span()),
            number: number_of(sum),
            unknown: unknown_in(self.lines, sum),
            is_statement: false,
            limit,
        };
        self.pieces.push(piece)?;
        Ok(())
    }

    fn push_lone(&mut self, sum: &Expression) -> Result<(), AllocError> {
        let piece = Piece {
            mark: Mark::Span(sum.span()),
            number: number_of(sum),
            unknown: unknown_in(self.lines, sum),
            is_statement: matches!(sum.parts(), Parts::Label(_)),
            limit: Limit::Word,
        };
        self.pieces.push(piece)?;
        Ok(())
    }

    fn push_known(&mut self, mark: Mark, number: i64, limit: Limit) -> Result<(), AllocError> {
        let piece = Piece {
            mark,
            number: Some(number),
            unknown: None,
            is_statement: false,
            limit,
        };
        self.pieces.push(piece)?;
        Ok(())
    }

    fn push_number(&mut self, number: &Natural, limit: Limit) -> Result<(), AllocError> {
        let number = number_in(number);
        self.push_known(Mark::Number(number), number, limit)
    }

    fn push_sixbit(&mut self, text: &[u8]) -> Result<(), AllocError> {
        match no_sixbit(text) {
            Some(c) => self.push_known(Mark::Character(c), i64::from(upper_case(c)), Limit::Sixbit),
            None => Ok(()),
        }
    }

    fn push_some(&mut self, sum: &Option<Expression>, limit: Limit) -> Result<(), AllocError> {
        match sum {
            Some(sum) => self.push_sum(sum, limit),
            None => Ok(()),
        }
    }

    fn push_operand(&mut self, operand: &Operand) -> Result<(), AllocError> {
        self.push_some(&operand.address, Limit::Address)?;
        self.push_some(&operand.index, Limit::Index)
    }

    fn push_pair(&mut self, left: &Expression, right: &Expression) -> Result<(), AllocError> {
        self.push_sum(left, Limit::Half)?;
        self.push_sum(right, Limit::Half)
    }

    fn push_point(
        &mut self,
        size: &Natural,
        operand: &Operand,
        bit: &Option<Natural>,
    ) -> Result<(), AllocError> {
        self.push_number(size, Limit::Size)?;
        self.push_operand(operand)?;
        match bit {
            Some(bit) => self.push_number(bit, Limit::Bit),
            None => Ok(()),
        }
    }

    fn push_values(&mut self, values: &[Expression]) -> Result<(), AllocError> {
        for value in values {
            self.push_sum(value, Limit::Word)?;
        }
        Ok(())
    }

    fn push_data(&mut self, given: &Data) -> Result<(), AllocError> {
        match given {
            Data::Value(value) => self.push_lone(value),
            Data::Halves(left, right) | Data::Iowd(left, right) => self.push_pair(left, right),
            Data::Exp(values) => self.push_values(values.as_slice()),
            Data::Point(size, operand, bit) => self.push_point(size, operand, bit),
            Data::Text(TextForm::Sixbit, text) => self.push_sixbit(text.as_slice()),
            Data::Text(TextForm::Ascii | TextForm::Asciz, _) => Ok(()),
            Data::Block(count) => self.push_sum(count, Limit::Place),
            Data::Instruction(given) => {
                self.push_some(&given.accumulator, Limit::Accumulator)?;
                self.push_operand(&given.operand)
            }
        }
    }

    fn push_statement(&mut self, statement: &Statement) -> Result<(), AllocError> {
        match statement {
            Statement::Data(given) => self.push_data(given),
            Statement::Loc(place) => self.push_sum(place, Limit::Place),
            Statement::End(start) => self.push_some(start, Limit::Start),
            Statement::Radix(radix) => self.push_number(radix, Limit::Radix),
            Statement::Title => Ok(()),
        }
    }
}

/// The values of a line in order, those of its literals last. `lines` are all lines of its source.
pub fn pieces_of(alloc: Global, lines: &[Line], line: &Line) -> Result<Vec<Piece>, AllocError> {
    let mut all = Pieces {
        lines,
        pieces: Vec::new(alloc),
    };
    if let Some(statement) = &line.statement {
        all.push_statement(statement)?;
    }
    for given in line.literals.as_slice() {
        all.push_data(given)?;
    }
    Ok(all.pieces)
}
