//! Words, addresses and instructions.

ghost use Rattle.macro_expressions.specs.Reading.{Gives};
ghost use Rattle.macro_statements.specs.Words.{index_at, word_behind, word_value_at, fields_behind, address_at, address_if, address_behind};
ghost use Rattle.macro_statements.specs.Words.{operands_behind, operands_at, instruction_at};

use crate::words::{
    accumulator_field, as_half, halves, index_of, indexed, instruction_word, with_indirect,
};
use ka_isa::Named;
use macro_expressions::{Around, BEYOND, Fault, Reading, as_natural, as_word, optional, or_zero};
use macro_values::{Whole, add_halves};
use word36::Word;

/// An index: a word in parentheses, its halves swapped; without one, 0.
#[tactic(auto, unfolding(crate::specs::Words::index_at))]
fn index<A: Around>(around: &A, front: &mut Reading<'_>) -> Result<Word, Fault>
    ensures { Gives (λ w. (w, front.new)) result (index_at (A.scope around.now) front.old) }
{
    if !front.meets(b'(') {
        front.skip();
        return Ok(Word::new(0));
    }
    front.eat(b'(');
    let Some(value) = around.inside(front)? else {
        return Err(BEYOND);
    };
    let word = as_word(front.alloc(), &value)?;
    let index = index_of(word)?;
    if front.eat(b')') {
        Ok(index)
    } else {
        Err(BEYOND)
    }
}

/// What comes after the first value of a word.
fn word_behind<A: Around>(
    around: &A,
    indirect: bool,
    first: Option<Whole>,
    front: &mut Reading<'_>,
) -> Result<Option<Whole>, Fault>
    ensures { Gives (λ z. (z, front.new)) result (word_behind (A.scope around.now) indirect first front.old) }
{
    if front.meets_commas() && !indirect {
        front.skip();
        front.step();
        front.step();
        let right = optional(around, front)?;
        let word = halves(front.alloc(), &or_zero(first), &or_zero(right))?;
        Ok(Some(Whole::from_small(word.signed())))
    } else if front.meets(b'(') || indirect {
        let base = as_word(front.alloc(), &or_zero(first))?;
        let index = index(around, front)?;
        let word = with_indirect(indirect, add_halves(base, index));
        Ok(Some(Whole::from_small(word.signed())))
    } else {
        Ok(first)
    }
}

/// A word: an address with `@` and an index, or two halves, or nothing.
#[tactic(auto, unfolding(crate::specs::Words::word_value_at))]
pub fn word_value<A: Around>(around: &A, front: &mut Reading<'_>) -> Result<Option<Whole>, Fault>
    ensures { Gives (λ z. (z, front.new)) result (word_value_at (A.scope around.now) front.old) }
{
    let indirect = front.eat(b'@');
    let first = optional(around, front)?;
    word_behind(around, indirect, first, front)
}

/// The fields of an address whose value is read: whether `@` is there, and address and index as a word.
fn fields_behind<A: Around>(
    around: &A,
    indirect: bool,
    value: &Whole,
    front: &mut Reading<'_>,
) -> Result<(bool, Word), Fault>
    ensures { Gives (λ f. (f, front.new)) result (fields_behind (A.scope around.now) indirect value.now front.old) }
{
    let half = as_half(front.alloc(), value)?;
    let index = index(around, front)?;
    Ok((indirect, indexed(half, index)))
}

/// An address: `@`, a value and an index, each or none.
#[tactic(auto, unfolding(crate::specs::Words::address_at))]
pub fn address<A: Around>(around: &A, front: &mut Reading<'_>) -> Result<(bool, Word), Fault>
    ensures { Gives (λ f. (f, front.new)) result (address_at (A.scope around.now) front.old) }
{
    let indirect = front.eat(b'@');
    let first = optional(around, front)?;
    fields_behind(around, indirect, &or_zero(first), front)
}

fn address_if<A: Around>(
    around: &A,
    takes_address: bool,
    front: &mut Reading<'_>,
) -> Result<(bool, Word), Fault>
    ensures { Gives (λ f. (f, front.new)) result (address_if (A.scope around.now) takes_address front.old) }
{
    if takes_address {
        address(around, front)
    } else {
        Ok((false, Word::new(0)))
    }
}

fn address_behind<A: Around>(
    around: &A,
    first: Option<Whole>,
    front: &mut Reading<'_>,
) -> Result<(bool, Word), Fault>
    ensures { Gives (λ f. (f, front.new)) result (address_behind (A.scope around.now) first front.old) }
{
    match first {
        None => address(around, front),
        Some(value) => fields_behind(around, false, &value, front),
    }
}

/// The operands whose first value is read: with a comma after it, it is the accumulator.
fn operands_behind<A: Around>(
    around: &A,
    takes_address: bool,
    first: Option<Whole>,
    front: &mut Reading<'_>,
) -> Result<(bool, Word), Fault>
    ensures { Gives (λ f. (f, front.new)) result (operands_behind (A.scope around.now) takes_address first front.old) }
{
    if front.meets(b',') && !front.meets_commas() {
        let accumulator = as_natural(front.alloc(), 15, &or_zero(first))?;
        front.eat(b',');
        let fields = address_if(around, takes_address, front)?;
        let bits = add_halves(fields.1, accumulator_field(accumulator));
        Ok((fields.0, bits))
    } else if takes_address {
        address_behind(around, first, front)
    } else if first.is_some() {
        Err(BEYOND)
    } else {
        Ok((false, Word::new(0)))
    }
}

fn operands<A: Around>(
    around: &A,
    takes_accumulator: bool,
    takes_address: bool,
    front: &mut Reading<'_>,
) -> Result<(bool, Word), Fault>
    ensures { Gives (λ f. (f, front.new)) result (operands_at (A.scope around.now) takes_accumulator takes_address front.old) }
{
    if !takes_accumulator {
        return address_if(around, takes_address, front);
    }
    let first = optional(around, front)?;
    operands_behind(around, takes_address, first, front)
}

/// The word of an instruction, whose name is read.
#[tactic(auto, unfolding(crate::specs::Words::instruction_at))]
pub fn instruction<A: Around>(
    around: &A,
    named: Named,
    front: &mut Reading<'_>,
) -> Result<Word, Fault>
    ensures { Gives (λ w. (w, front.new)) result (instruction_at (A.scope around.now) named front.old) }
{
    let fields = operands(around, named.ac, named.addr, front)?;
    Ok(instruction_word(named.word, fields.0, fields.1))
}
