//! Values that are known by what was defined before them.

ghost use Rattle.std.specs.Prelude.{◌≡◌, ◌≤◌, IfOk};
ghost use Rattle.macro_expressions.specs.Reading.{Gives};
ghost use Rattle.macro_meaning.specs.Meaning.{early_value, early_word, early_natural, is_read, within_word, sure_number};

use crate::scopes::{Table, inside_next, value_next};
use crate::walk::Walk;
use macro_expressions::{BEYOND, Fault, Reading, WRONG, as_natural};
use macro_values::Whole;
use std::alloc::{AllocError, Global};

/// The least number that a word can be written as.
const LEAST: i64 = -0o400_000_000_000;

/// The greatest.
const MOST: i64 = 0o777_777_777_777;

/// An expression, if one comes next, only by what was defined so far; and the rest.
#[tactic(auto, unfolding(crate::specs::Meaning::early_value))]
fn early_value<'a>(walk: &Walk<'_>, front: &Reading<'a>) -> Result<(Option<Whole>, &'a [u8]), Fault>
    ensures { Gives (λ x. (x.0, x.1.now)) result (early_value walk.now front.now) }
{
    let nothing = Table::new(front.alloc());
    let mut copy = Reading::new(front.alloc(), front.radix(), front.rest());
    let value = value_next(&nothing, walk, &mut copy)?;
    if copy.take_pool().is_empty() {
        Ok((value, copy.rest()))
    } else {
        Err(WRONG)
    }
}

/// A number up to `most`, only by what was defined so far; and the rest.
#[tactic(auto, unfolding(crate::specs::Meaning::early_natural))]
pub fn early_natural<'a>(
    most: u32,
    walk: &Walk<'_>,
    front: &Reading<'a>,
) -> Result<(u32, &'a [u8]), Fault>
    ensures value { Gives (λ x. (x.0, x.1.now)) result (early_natural most walk.now front.now) }
    ensures most { IfOk result (λ x. x.0 ≤ most) }
{
    let (value, rest) = early_value(walk, front)?;
    let Some(value) = value else {
        return Err(BEYOND);
    };
    Ok((as_natural(front.alloc(), most, &value)?, rest))
}

/// What brackets would hold, only by what was defined so far; and the rest.
#[tactic(auto, unfolding(crate::specs::Meaning::early_word))]
fn early_word<'a>(walk: &Walk<'_>, front: &Reading<'a>) -> Result<(Option<Whole>, &'a [u8]), Fault>
    ensures { Gives (λ x. (x.0, x.1.now)) result (early_word walk.now front.now) }
{
    let nothing = Table::new(front.alloc());
    let mut copy = Reading::new(front.alloc(), front.radix(), front.rest());
    let value = inside_next(&nothing, walk, &mut copy)?;
    if copy.take_pool().is_empty() {
        Ok((value, copy.rest()))
    } else {
        Err(WRONG)
    }
}

/// Whether what brackets would hold is known by what was defined so far.
pub fn is_early(walk: &Walk<'_>, front: &Reading<'_>) -> Result<bool, AllocError>
    ensures { IfOk result (λ is. is ≡ is_read (early_word walk.now front.now)) }
{
    match early_word(walk, front) {
        Ok(_) => Ok(true),
        Err(Fault::Stopped(_)) => Ok(false),
        Err(Fault::Memory) => Err(AllocError),
    }
}

/// A number that a word can be written as.
fn within_word(alloc: Global, number: &Whole) -> Result<i64, Fault>
    ensures { Gives (λ z. z) result (within_word number.now) }
{
    match number.small(alloc)? {
        Some(small) if small >= LEAST && small <= MOST => Ok(small),
        _ => Err(WRONG),
    }
}

/// Such a number, which is the same whatever the table has; and the rest.
#[tactic(auto, unfolding(crate::specs::Meaning::sure_number))]
pub fn sure_number<'a>(walk: &Walk<'_>, front: &Reading<'a>) -> Result<(i64, &'a [u8]), Fault>
    ensures { Gives (λ x. (x.0, x.1.now)) result (sure_number walk.now front.now) }
{
    if !walk.is_sure() {
        return Err(BEYOND);
    }
    let (value, rest) = early_value(walk, front)?;
    let Some(value) = value else {
        return Err(BEYOND);
    };
    Ok((within_word(front.alloc(), &value)?, rest))
}
