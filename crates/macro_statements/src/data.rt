//! Statements that give words.

ghost use Rattle.std.specs.Prelude.{◌≡◌, ◌≤◌, ◌∷◌, [], IfOk, replicate};
ghost use Rattle.macro_expressions.specs.Reading.{Gives};
ghost use Rattle.macro_statements.specs.Words.{elements_at, elements_in, pair_at, halves_at, count_at, block_at, early_scope, form_words, operation_words, meant_words};
ghost use Rattle.macro_statements.specs.Words.{value_words, words_by, given_at, only_word, single_at, inside_at, meant_at};

use crate::brackets::Ground;
use crate::forms::{Form, Meant, built_in};
use crate::instructions::{instruction, word_value};
use crate::words::halves;
use indexmap::IndexMap;
use ka_isa::Named;
use macro_expansion::{text, with_word};
use macro_expressions::{
    Around, BEYOND, Fault, Known, Reading, WRONG, as_natural, as_word, begins_name, optional,
    or_zero,
};
use macro_values::Whole;
use std::alloc::{AllocError, Global};
use word36::Word;

/// Reads words with commas between them, at most `most`, after those that are read.
#[tactic(auto, unfolding(crate::specs::Words::elements_at))]
fn elements<A: Around>(
    around: &A,
    most: u32,
    words: Vec<Word>,
    front: &mut Reading<'_>,
) -> Result<Vec<Word>, Fault>
    ensures { Gives (λ all. (all.items, front.new)) result (elements_at (A.scope around.now) most words.items front.old) }
{
    if most == 0 {
        return Err(BEYOND);
    }
    let value = word_value(around, front)?;
    let word = as_word(front.alloc(), &or_zero(value))?;
    let words = with_word(words, word)?;
    if front.meets(b',') {
        front.eat(b',');
        elements(around, most - 1, words, front)
    } else {
        Ok(words)
    }
}

/// Words whose numbers are in a radix.
#[tactic(auto, unfolding(crate::specs::Words::elements_in))]
fn elements_in<A: Around>(
    around: &A,
    radix: u8,
    front: &mut Reading<'_>,
) -> Result<Vec<Word>, Fault>
    requires { radix ≤ 10 }
    ensures { Gives (λ all. (all.items, front.new)) result (elements_in (A.scope around.now) radix front.old) }
{
    let kept = front.swap_radix(radix);
    let words = elements(around, 2000, Vec::new(front.alloc()), front)?;
    front.swap_radix(kept);
    Ok(words)
}

/// Two values with a comma between them.
#[tactic(auto, unfolding(crate::specs::Words::pair_at))]
fn pair<A: Around>(around: &A, front: &mut Reading<'_>) -> Result<(Whole, Whole), Fault>
    ensures { Gives (λ pair. ((pair.0, pair.1), front.new)) result (pair_at (A.scope around.now) front.old) }
{
    let left = optional(around, front)?;
    if !front.meets(b',') {
        return Err(BEYOND);
    }
    front.eat(b',');
    let right = optional(around, front)?;
    Ok((or_zero(left), or_zero(right)))
}

/// One word.
fn one_word(alloc: Global, word: Word) -> Result<Vec<Word>, AllocError>
    ensures { IfOk result (λ words. words.items ≡ word ∷ []) }
{
    Vec::from_slice(alloc, &[word])
}

/// XWD: a left half and a right half.
#[tactic(auto, unfolding(crate::specs::Words::halves_at))]
fn halves_word<A: Around>(around: &A, front: &mut Reading<'_>) -> Result<Vec<Word>, Fault>
    ensures { Gives (λ words. (words.items, front.new)) result (halves_at (A.scope around.now) front.old) }
{
    let (left, right) = pair(around, front)?;
    let word = halves(front.alloc(), &left, &right)?;
    Ok(one_word(front.alloc(), word)?)
}

/// IOWD: n words less, and the place before the first.
#[tactic(auto, unfolding(crate::specs::Words::count_at))]
fn count_word<A: Around>(around: &A, front: &mut Reading<'_>) -> Result<Vec<Word>, Fault>
    ensures { Gives (λ words. (words.items, front.new)) result (count_at (A.scope around.now) front.old) }
{
    let (count, place) = pair(around, front)?;
    let mut before = place;
    before.subtract(front.alloc(), &Whole::from_small(1))?;
    let word = halves(front.alloc(), &count.negated(), &before)?;
    Ok(one_word(front.alloc(), word)?)
}

/// So many words of 0.
#[tactic(auto, using(std::proofs::lemmas::List::replicate_more))]
pub fn zeros(alloc: Global, count: u32) -> Result<Vec<Word>, AllocError>
    ensures { IfOk result (λ words. words.items ≡ replicate count 0) }
{
    let mut words = Vec::new(alloc);
    for _ in 0..count {
        words.push(Word::new(0))?;
    }
    Ok(words)
}

/// BLOCK: n words of 0.
#[tactic(auto, unfolding(crate::specs::Words::block_at))]
fn block<A: Around>(around: &A, front: &mut Reading<'_>) -> Result<Vec<Word>, Fault>
    ensures { Gives (λ words. (words.items, front.new)) result (block_at (A.scope around.now) front.old) }
{
    let Some(value) = optional(around, front)? else {
        return Err(BEYOND);
    };
    let count = as_natural(front.alloc(), 0o1_000_000, &value)?;
    Ok(zeros(front.alloc(), count)?)
}

/// BLOCK, whose number depends only on what was defined before it.
fn early_block(names: &Known<'_>, front: &mut Reading<'_>) -> Result<Vec<Word>, Fault>
    ensures { Gives (λ words. (words.items, front.new)) result (block_at (early_scope names.now) front.old) }
{
    let nothing = IndexMap::new(front.alloc());
    let early = Ground {
        names: Known {
            table: &nothing,
            defined: names.defined,
            macros: names.macros,
            here: names.here,
            pool_at: names.pool_at,
        },
    };
    block(&early, front)
}

/// The words of a pseudo-operation, whose name is read, if it gives words.
pub fn form_words<A: Around>(
    around: &A,
    form: Form,
    front: &mut Reading<'_>,
) -> Result<Vec<Word>, Fault>
    ensures { Gives (λ words. (words.items, front.new)) result (form_words (A.scope around.now) form front.old) }
{
    match form {
        Form::Exp => {
            let radix = front.radix();
            elements_in(around, radix, front)
        }
        Form::Oct => elements_in(around, 8, front),
        Form::Dec => elements_in(around, 10, front),
        Form::Xwd => halves_word(around, front),
        Form::Iowd => count_word(around, front),
        Form::Block => early_block(around.names(), front),
        Form::Text(form) => text(form, front),
        _ => Err(BEYOND),
    }
}

/// The word of an instruction, whose name is read.
#[tactic(auto, unfolding(crate::specs::Words::operation_words))]
fn operation_words<A: Around>(
    around: &A,
    named: Named,
    front: &mut Reading<'_>,
) -> Result<Vec<Word>, Fault>
    ensures { Gives (λ words. (words.items, front.new)) result (operation_words (A.scope around.now) named front.old) }
{
    let word = instruction(around, named, front)?;
    Ok(one_word(front.alloc(), word)?)
}

/// The words of an instruction or a pseudo-operation, whose name is read.
fn meant_words<A: Around>(
    around: &A,
    meant: Meant,
    front: &mut Reading<'_>,
) -> Result<Vec<Word>, Fault>
    ensures { Gives (λ words. (words.items, front.new)) result (meant_words (A.scope around.now) meant front.old) }
{
    match meant {
        Meant::Operation(named) => operation_words(around, named, front),
        Meant::Pseudo(form) => form_words(around, form, front),
    }
}

/// The word of a statement that is a value.
#[tactic(auto, unfolding(crate::specs::Words::value_words))]
fn value_words<A: Around>(around: &A, front: &mut Reading<'_>) -> Result<Vec<Word>, Fault>
    ensures { Gives (λ words. (words.items, front.new)) result (value_words (A.scope around.now) front.old) }
{
    let Some(value) = word_value(around, front)? else {
        return Err(BEYOND);
    };
    let word = as_word(front.alloc(), &value)?;
    Ok(one_word(front.alloc(), word)?)
}

/// The words of a statement by what its first name is.
pub fn words_by<A: Around>(
    around: &A,
    meant: Option<Meant>,
    front: &mut Reading<'_>,
) -> Result<Vec<Word>, Fault>
    ensures { Gives (λ words. (words.items, front.new)) result (words_by (A.scope around.now) meant front.old) }
{
    match meant {
        None => value_words(around, front),
        Some(meant) => {
            let len = front.word().len();
            front.advance(len);
            meant_words(around, meant, front)
        }
    }
}

/// The operation or pseudo-operation that is next, if one is.
pub fn meant(front: &Reading<'_>) -> Option<Meant>
    ensures { result ≡ meant_at front.now.rest }
{
    if begins_name(front.rest()) {
        built_in(front.word())
    } else {
        None
    }
}

/// The words of a statement of a literal.
#[tactic(auto, unfolding(crate::specs::Words::given_at))]
pub fn given<A: Around>(around: &A, front: &mut Reading<'_>) -> Result<Vec<Word>, Fault>
    ensures { Gives (λ words. (words.items, front.new)) result (given_at (A.scope around.now) front.old) }
{
    front.skip();
    let meant = meant(front);
    words_by(around, meant, front)
}

/// The one word of a statement.
fn only_word(words: &[Word]) -> Result<Word, Fault>
    ensures { Gives (λ w. w) result (only_word words.now) }
{
    match words {
        [word] => Ok(*word),
        _ => Err(WRONG),
    }
}

/// A statement of one word, whose name is read, as a value.
#[tactic(auto, unfolding(crate::specs::Words::single_at))]
fn single<A: Around>(
    around: &A,
    meant: Meant,
    front: &mut Reading<'_>,
) -> Result<Option<Whole>, Fault>
    ensures { Gives (λ z. (z, front.new)) result (single_at (A.scope around.now) meant front.old) }
{
    let words = meant_words(around, meant, front)?;
    let word = only_word(words.as_slice())?;
    Ok(Some(Whole::from_small(word.signed())))
}

/// What `< >` and `( )` hold: a value, or a statement of one word.
#[tactic(auto, unfolding(crate::specs::Words::inside_at))]
pub fn inside<A: Around>(around: &A, front: &mut Reading<'_>) -> Result<Option<Whole>, Fault>
    ensures { Gives (λ z. (z, front.new)) result (inside_at (A.scope around.now) front.old) }
{
    front.skip();
    match meant(front) {
        None => word_value(around, front),
        Some(meant) => {
            let len = front.word().len();
            front.advance(len);
            single(around, meant, front)
        }
    }
}
