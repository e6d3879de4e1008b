//! Terms.

ghost use Rattle.std.specs.Prelude.{◌≡◌, ◌≤◌, IfSome};
ghost use Rattle.std.specs.Str.{IsAscii};
ghost use Rattle.macro_expressions.specs.Reading.{Gives};
ghost use Rattle.macro_expressions.specs.Values.{radix_of, begins_bits, plain_at, bracket_at, based_at, marked_at, bit_at, bits_behind, name_value, name_at};
ghost use Rattle.macro_expressions.specs.Values.{kind_of, term_of, term_at, ends_in_literal, statements_at, pooled, literal_at};

use crate::characters::{
    begins_name, begins_name_character, begins_with, digits_len, ends_line, is_digit,
};
use crate::fault::{BEYOND, Fault, WRONG};
use crate::kinds::Kind;
use crate::known::Known;
use crate::numbers::{as_natural, as_word};
use crate::operations::operation;
use crate::operators::or_zero;
use crate::reading::Reading;
use mac_text::{Symbol, upper_case};
use macro_values::{Whole, shift};
use word36::Word;

/// What names stand for, and what is read in brackets.
pub trait Around {
    ghost use Rattle.std.specs.Prelude.{◌≡◌, ℤ};
    ghost use Rattle.macro_expressions.specs.Reading.{Gives};
    ghost use Rattle.macro_expressions.specs.Values.{Scope};

    ghost scope: { Self → Scope };

    /// What names stand for.
    fn names(&self) -> &Known<'_>
        ensures { result.now ≡ (scope self.now).names };

    /// A value, or a statement of one word, or nothing, in `< >` and `( )`.
    fn inside(&self, front: &mut Reading<'_>) -> Result<Option<Whole>, Fault>
        ensures { Gives (λ z. (z, front.new)) result ((scope self.now).inside front.old) };

    /// The words of a statement of a literal.
    fn given(&self, front: &mut Reading<'_>) -> Result<Vec<Word>, Fault>
        ensures { Gives (λ words. (words.items, front.new)) result ((scope self.now).given front.old) };
}

/// The value of a name: a symbol's, else the word of an operation.
fn name_value(names: &Known<'_>, name: &[u8]) -> Option<i64>
    requires { IsAscii name.now }
    ensures { result ≡ name_value names.now name.now }
{
    if let Some(value) = names.symbol(Symbol::of(name).sixbit()) {
        return Some(value);
    }
    match operation(name) {
        Some(named) => Some(named.word.signed()),
        None => None,
    }
}

/// The value of a name, which has to be one of a symbol or an operation.
#[tactic(auto, unfolding(crate::specs::Values::name_at))]
fn name<A: Around>(around: &A, front: &mut Reading<'_>) -> Result<Whole, Fault>
    ensures { Gives (λ z. (z, front.new)) result (name_at (A.scope around.now) front.old) }
{
    let word = front.word();
    if around.names().is_macro(word) {
        return Err(BEYOND);
    }
    let Some(value) = name_value(around.names(), word) else {
        return Err(WRONG);
    };
    front.advance(word.len());
    Ok(Whole::from_small(value))
}

/// The radix that a letter behind `^` stands for.
fn radix_of(text: &[u8]) -> Option<u8>
    ensures value { result ≡ radix_of text.now }
    ensures most { IfSome result (λ radix. radix ≤ 10) }
{
    match text {
        [] => None,
        [first, ..] => match upper_case(*first) {
            b'D' => Some(10),
            b'O' => Some(8),
            b'B' => Some(2),
            _ => None,
        },
    }
}

/// Whether a text begins with `B` and a digit, `^` or `<`.
fn begins_bits(text: &[u8]) -> bool
    ensures { result ≡ begins_bits text.now }
{
    match text {
        [first, second, ..] => {
            upper_case(*first) == b'B' && (is_digit(*second) || *second == b'<' || *second == b'^')
        }
        _ => false,
    }
}

/// Digits; with a point behind them they are decimal.
#[tactic(auto, unfolding(crate::specs::Values::plain_at))]
pub fn plain(front: &mut Reading<'_>) -> Result<Whole, Fault>
    ensures { Gives (λ z. (z, front.new)) result (plain_at front.old) }
{
    let rest = front.rest();
    if begins_with(b'.', &rest[digits_len(rest)..]) {
        let value = front.digits(10)?;
        front.step();
        Ok(value)
    } else {
        let radix = front.radix();
        front.digits(radix)
    }
}

/// What `<` and `>` hold, of which the first is read. Nothing is 0.
#[tactic(auto, unfolding(crate::specs::Values::bracket_at))]
pub fn bracket<A: Around>(around: &A, front: &mut Reading<'_>) -> Result<Whole, Fault>
    ensures { Gives (λ z. (z, front.new)) result (bracket_at (A.scope around.now) front.old) }
{
    let value = around.inside(front)?;
    if front.eat(b'>') {
        Ok(or_zero(value))
    } else {
        Err(BEYOND)
    }
}

/// Digits in a radix, or a bracket whose numbers are in it.
#[tactic(auto, unfolding(crate::specs::Values::based_at))]
pub fn based<A: Around>(around: &A, radix: u8, front: &mut Reading<'_>) -> Result<Whole, Fault>
    requires { radix ≤ 10 }
    ensures { Gives (λ z. (z, front.new)) result (based_at (A.scope around.now) radix front.old) }
{
    if !begins_with(b'<', front.rest()) {
        return front.digits(radix);
    }
    front.step();
    let kept = front.swap_radix(radix);
    let value = bracket(around, front)?;
    front.swap_radix(kept);
    Ok(value)
}

/// What stands behind `^`: a letter for a radix, and a number in it.
#[tactic(auto, unfolding(crate::specs::Values::marked_at))]
pub fn marked<A: Around>(around: &A, front: &mut Reading<'_>) -> Result<Whole, Fault>
    ensures { Gives (λ z. (z, front.new)) result (marked_at (A.scope around.now) front.old) }
{
    let Some(radix) = radix_of(front.rest()) else {
        return Err(BEYOND);
    };
    front.step();
    based(around, radix, front)
}

/// The number of a bit, in decimal.
#[tactic(auto, unfolding(crate::specs::Values::bit_at))]
fn bit<A: Around>(around: &A, front: &mut Reading<'_>) -> Result<Whole, Fault>
    ensures { Gives (λ z. (z, front.new)) result (bit_at (A.scope around.now) front.old) }
{
    if begins_with(b'^', front.rest()) {
        front.step();
        marked(around, front)
    } else {
        based(around, 10, front)
    }
}

/// `B` and a bit number right behind a value, if they are there: the value's last bit is that one.
#[tactic(auto, unfolding(crate::specs::Values::bits_behind))]
pub fn bits<A: Around>(around: &A, value: Whole, front: &mut Reading<'_>) -> Result<Whole, Fault>
    ensures { Gives (λ z. (z, front.new)) result (bits_behind (A.scope around.now) value front.old) }
{
    if !begins_bits(front.rest()) {
        return if begins_name_character(front.rest()) {
            Err(BEYOND)
        } else {
            Ok(value)
        };
    }
    front.step();
    let number = bit(around, front)?;
    let place = as_natural(front.alloc(), 35, &number)?;
    let word = as_word(front.alloc(), &value)?;
    if begins_name_character(front.rest()) {
        return Err(BEYOND);
    }
    let by = 35 - place;
    Ok(Whole::from_small(shift(word, i64::from(by)).signed()))
}

/// Whether a statement of a literal ends: at the end of the line, a comment, or the end of the literal.
fn ends_in_literal(front: &Reading<'_>) -> bool
    ensures { result ≡ ends_in_literal front.now }
{
    front.meets(b']') || ends_line(front.behind_blanks())
}

/// Reads the statements of a literal, at most so many, up to its `]`; gives their words behind those that are read.
#[tactic(auto, unfolding(crate::specs::Values::statements_at))]
fn statements<A: Around>(
    around: &A,
    most: u32,
    words: Vec<Word>,
    front: &mut Reading<'_>,
) -> Result<Vec<Word>, Fault>
    ensures { Gives (λ all. (all.items, front.new)) result (statements_at (A.scope around.now) most words.items front.old) }
{
    if most == 0 {
        return Err(BEYOND);
    }
    front.cross_lines();
    if begins_with(b']', front.rest()) {
        front.step();
        return Ok(words);
    }
    let more = around.given(front)?;
    if !ends_in_literal(front) {
        return Err(BEYOND);
    }
    let mut words = words;
    words.extend_from_slice(more.as_slice())?;
    statements(around, most - 1, words, front)
}

/// Puts the words of a literal into the pool, of which there has to be one; gives their place.
fn pool<A: Around>(around: &A, words: &[Word], front: &mut Reading<'_>) -> Result<Whole, Fault>
    ensures { Gives (λ z. (z, front.new)) result (pooled (A.scope around.now) words.now front.old) }
{
    if words.is_empty() {
        return Err(WRONG);
    }
    let mut place = Whole::from_small(around.names().pool_at());
    place.add(front.alloc(), &front.pool_size())?;
    front.push_literal(words)?;
    Ok(place)
}

/// Reads a literal, whose `[` is read; gives its place.
#[tactic(auto, unfolding(crate::specs::Values::literal_at))]
fn literal<A: Around>(around: &A, front: &mut Reading<'_>) -> Result<Whole, Fault>
    ensures { Gives (λ z. (z, front.new)) result (literal_at (A.scope around.now) front.old) }
{
    let words = statements(around, 1000, Vec::new(front.alloc()), front)?;
    pool(around, words.as_slice(), front)
}

/// How a term begins.
fn kind_of(text: &[u8]) -> Kind
    ensures { result ≡ kind_of text.now }
{
    if begins_name(text) {
        return Kind::Name;
    }
    match text {
        [] => Kind::Other,
        [first, ..] => match *first {
            b'0'..=b'9' => Kind::Digits,
            b'[' => Kind::Literal,
            b'<' => Kind::Bracket,
            b'.' => Kind::Here,
            b'^' => Kind::Marked,
            _ => Kind::Other,
        },
    }
}

/// A term of a kind, which is next.
fn term_of<A: Around>(around: &A, kind: Kind, front: &mut Reading<'_>) -> Result<Whole, Fault>
    ensures { Gives (λ z. (z, front.new)) result (term_of (A.scope around.now) kind front.old) }
{
    let value = match kind {
        Kind::Name => return name(around, front),
        Kind::Other => return Err(BEYOND),
        Kind::Here => {
            front.step();
            return Ok(Whole::from_small(around.names().here()));
        }
        Kind::Literal => {
            front.step();
            return literal(around, front);
        }
        Kind::Digits => plain(front)?,
        Kind::Bracket => {
            front.step();
            bracket(around, front)?
        }
        Kind::Marked => {
            front.step();
            marked(around, front)?
        }
    };
    bits(around, value, front)
}

/// A term.
#[tactic(auto, unfolding(crate::specs::Values::term_at))]
pub fn term<A: Around>(around: &A, front: &mut Reading<'_>) -> Result<Whole, Fault>
    ensures { Gives (λ z. (z, front.new)) result (term_at (A.scope around.now) front.old) }
{
    term_of(around, kind_of(front.rest()), front)
}
