//! Expressions: sums of terms.

ghost use Rattle.std.specs.Prelude.{◌≡◌, [], ◌∷◌, ◌++◌, OnOk, IfOk, IfSome};
ghost use Rattle.mac_text.specs.Terms.{alone, many_of, terms_of, terms_in};
ghost use Rattle.mac_text.specs.declared.syntax.Sign.TheVariants.{Plus};
ghost use Rattle.mac_text.specs.declared.syntax.Term.TheVariants.{Number, Label, Here};

use crate::optional::discard;
use crate::symbol::Symbol;
use crate::syntax::{Sign, SignedTerm, Term};
use std::alloc::{AllocError, Global};
use std::marker::Model;
use std::mem;
use whole_numbers::Natural;

/// The sum of its terms, of which there is at least one. A number below 2^64, and a label, the point or a literal that
/// is added, takes no memory where it stands alone.
#[derive(Debug, Drop)]
pub struct Expression {
    terms: Terms,
    span: Span,
}

/// Where an expression stands in its line, with blanks around it: how many bytes stand before it, and before its end.
#[derive(Clone, Copy, Debug, PartialEq, Eq)]
pub struct Span {
    pub from: u32,
    pub until: u32,
}

/// Not yet known.
const NOWHERE: Span = Span { from: 0, until: 0 };

/// The greatest position that is noted.
const MOST: usize = 0xFFFF_FFFF;

#[derive(Debug, Drop)]
enum Terms {
    Number(u64),
    Negative(u64),
    Label(Symbol),
    Here,
    Literal(usize),
    /// Any other terms.
    Many(Box<Many>),
}

/// Terms on the heap.
#[derive(Debug, Drop)]
enum Many {
    Pair([SignedTerm; 2]),
    Sum(Vec<SignedTerm>),
}

impl Many {
    /// The terms in order.
    fn as_slice(&self) -> &[SignedTerm]
        ensures { result.now ≡ many_of self.now }
    {
        match self {
            Many::Pair(terms) => terms.as_slice(),
            Many::Sum(terms) => terms.as_slice(),
        }
    }
}

/// What an expression is made of.
#[derive(Clone, Copy, Debug)]
pub enum Parts<'a> {
    /// A number below 2^64 alone.
    Number(u64),
    /// A number below 2^64 with a minus before it.
    Negative(u64),
    /// A label alone.
    Label(Symbol),
    /// The point alone.
    Here,
    /// The literal of this number alone.
    Literal(usize),
    /// Anything else, term by term.
    Sum(&'a [SignedTerm]),
}

impl Model for Expression {
    ghost use Rattle.std.specs.Prelude.{List};
    ghost use Rattle.mac_text.specs.declared.syntax.SignedTerm.{SignedTerm};

    ghost Value = { List SignedTerm };

    ghost use Rattle.mac_text.specs.Terms.{terms_of};

    ghost view = { λ e. terms_of e.terms };
}

impl Expression {
    /// Its terms.
    pub fn parts(&self) -> Parts<'_>
        ensures { terms_in result ≡ self.now }
    {
        match &self.terms {
            Terms::Number(n) => Parts::Number(*n),
            Terms::Negative(n) => Parts::Negative(*n),
            Terms::Label(label) => Parts::Label(*label),
            Terms::Here => Parts::Here,
            Terms::Literal(at) => Parts::Literal(*at),
            Terms::Many(terms) => Parts::Sum(terms.as_slice()),
        }
    }

    /// Where it stands.
    pub fn span(&self) -> Span {
        self.span
    }

    /// Notes where it stands.
    pub(crate) fn stands(&mut self, from: usize, until: usize)
        ensures { self.new ≡ self.old }
    {
        self.span = Span {
            from: from.min(MOST) as u32,
            until: until.min(MOST) as u32,
        };
    }

    /// A number with its sign.
    pub(crate) fn number(sign: Sign, number: u64) -> Self
        ensures { result ≡ alone sign (Number number) }
    {
        Expression {
            terms: match sign {
                Sign::Plus => Terms::Number(number),
                Sign::Minus => Terms::Negative(number),
            },
            span: NOWHERE,
        }
    }

    /// A label.
    pub(crate) fn label(label: Symbol) -> Self
        ensures { result ≡ alone Plus (Label label) }
    {
        Expression {
            terms: Terms::Label(label),
            span: NOWHERE,
        }
    }

    /// The point.
    pub(crate) fn here() -> Self
        ensures { result ≡ alone Plus Here }
    {
        Expression {
            terms: Terms::Here,
            span: NOWHERE,
        }
    }

    /// The expression of one term.
    pub(crate) fn of(alloc: Global, term: SignedTerm) -> Result<Self, AllocError>
        ensures { IfOk result (λ e. e ≡ term ∷ []) }
    {
        match small(&term) {
            Some(terms) => {
                discard(term);
                Ok(Expression {
                    terms,
                    span: NOWHERE,
                })
            }
            None => {
                let mut terms = Vec::new(alloc);
                terms.push(term)?;
                boxed(alloc, terms)
            }
        }
    }

    /// Puts a term at the end.
    pub(crate) fn push(&mut self, alloc: Global, term: SignedTerm) -> Result<(), AllocError>
        ensures { OnOk result (self.new ≡ self.old ++ term ∷ []) }
    {
        self.terms = match mem::replace(&mut self.terms, Terms::Here) {
            Terms::Number(n) => pair(alloc, Sign::Plus, Term::Number(Natural::from_u64(n)), term)?,
            Terms::Negative(n) => {
                pair(alloc, Sign::Minus, Term::Number(Natural::from_u64(n)), term)?
            }
            Terms::Label(label) => pair(alloc, Sign::Plus, Term::Label(label), term)?,
            Terms::Here => pair(alloc, Sign::Plus, Term::Here, term)?,
            Terms::Literal(at) => pair(alloc, Sign::Plus, Term::Literal(at), term)?,
            Terms::Many(terms) => longer(alloc, Box::into_inner(terms), term)?,
        };
        Ok(())
    }
}

/// Two terms.
fn pair(alloc: Global, sign: Sign, first: Term, second: SignedTerm) -> Result<Terms, AllocError>
    ensures { IfOk result (λ terms. terms_of terms ≡ record { sign = sign; term = first } ∷ second ∷ []) }
{
    let first = SignedTerm { sign, term: first };
    Ok(Terms::Many(Box::new(alloc, Many::Pair([first, second]))?))
}

/// These terms and one more.
fn longer(alloc: Global, terms: Many, last: SignedTerm) -> Result<Terms, AllocError>
    ensures { IfOk result (λ longer. terms_of longer ≡ many_of terms ++ last ∷ []) }
{
    let mut terms = match terms {
        Many::Pair(terms) => Vec::from_array(alloc, terms)?,
        Many::Sum(terms) => terms,
    };
    terms.push(last)?;
    Ok(Terms::Many(Box::new(alloc, Many::Sum(terms))?))
}

/// The expression of these terms.
fn boxed(alloc: Global, terms: Vec<SignedTerm>) -> Result<Expression, AllocError>
    ensures { IfOk result (λ e. e ≡ terms.items) }
{
    Ok(Expression {
        terms: Terms::Many(Box::new(alloc, Many::Sum(terms))?),
        span: NOWHERE,
    })
}

/// The one term of an expression that takes no memory, where it is such a term.
fn small(term: &SignedTerm) -> Option<Terms>
    ensures { IfSome result (λ terms. terms_of terms ≡ term.now ∷ []) }
{
    match (term.sign, &term.term) {
        (Sign::Plus, Term::Number(number)) => Some(Terms::Number(number.to_u64()?)),
        (Sign::Minus, Term::Number(number)) => Some(Terms::Negative(number.to_u64()?)),
        (Sign::Plus, Term::Label(label)) => Some(Terms::Label(*label)),
        (Sign::Plus, Term::Here) => Some(Terms::Here),
        (Sign::Plus, Term::Literal(at)) => Some(Terms::Literal(*at)),
        (Sign::Minus, Term::Label(_) | Term::Here | Term::Literal(_)) => None,
    }
}
