//! Signs and operators.

ghost use Rattle.std.specs.Prelude.{◌≡◌, ◌≤◌, ℤ, length, pos, unwrap_or, Some, None, IfSome};
ghost use Rattle.mac_text.specs.Scan.{after_blanks};
ghost use Rattle.macro_expressions.specs.Reading.{Reader, Gives, skipped, without};
ghost use Rattle.macro_expressions.specs.Values.{sign_of, infix_of, infix_length, infix_at, strength_of, level_at, more_at};

use crate::fault::Fault;
use crate::kinds::{Infix, SignKind};
use crate::numbers::combined;
use crate::reading::Reading;
use macro_values::{Operator, Whole};

/// A value, 0 where nothing is there.
pub fn or_zero(value: Option<Whole>) -> Whole
    ensures { result ≡ unwrap_or value (pos 0) }
{
    match value {
        Some(value) => value,
        None => Whole::from_small(0),
    }
}

/// The sign that a text begins with.
pub fn sign_of(text: &[u8]) -> SignKind
    ensures { result ≡ sign_of text.now }
{
    match text {
        [b'+', ..] => SignKind::Plus,
        [b'-', ..] => SignKind::Minus,
        [b'^', b'-', ..] => SignKind::Not,
        _ => SignKind::Unsigned,
    }
}

/// The operator that a text begins with.
pub fn infix_of(text: &[u8]) -> Option<Infix>
    ensures value { result ≡ infix_of text.now }
    ensures within { IfSome result (λ between. infix_length between ≤ length text.now) }
{
    match text {
        [b'+', ..] => Some(Infix::Plus),
        [b'-', ..] => Some(Infix::Minus),
        [b'*', ..] => Some(Infix::OfWords(Operator::Times)),
        [b'/', ..] => Some(Infix::OfWords(Operator::Over)),
        [b'&', ..] => Some(Infix::OfWords(Operator::And)),
        [b'!', ..] => Some(Infix::OfWords(Operator::Or)),
        [b'_', ..] => Some(Infix::OfWords(Operator::Shift)),
        [b'^', b'!', ..] => Some(Infix::OfWords(Operator::Xor)),
        _ => None,
    }
}

/// How many characters an operator has.
fn infix_length(between: Infix) -> usize
    ensures { result ≡ infix_length between }
{
    match between {
        Infix::OfWords(Operator::Xor) => 2,
        _ => 1,
    }
}

/// How strongly an operator binds.
pub fn strength(between: Infix) -> u8
    ensures { result ≡ strength_of between }
{
    match between {
        Infix::Plus | Infix::Minus => 0,
        Infix::OfWords(Operator::Times | Operator::Over) => 1,
        Infix::OfWords(Operator::And | Operator::Or | Operator::Xor) => 2,
        Infix::OfWords(Operator::Shift) => 3,
    }
}

/// The operator of a strength that comes next; goes on behind it.
pub fn take_infix(level: u8, front: &mut Reading<'_>) -> Option<Infix>
    ensures value { result ≡ infix_at level (after_blanks front.old.rest) }
    ensures untaken { result ≡ None → front.new ≡ front.old }
    ensures taken { IfSome result (λ between. front.new ≡ without (infix_length between) (skipped front.old)) }
{
    let between = infix_of(front.behind_blanks())?;
    if strength(between) != level {
        return None;
    }
    front.skip();
    front.advance(infix_length(between));
    Some(between)
}

/// What an operator stands between.
pub trait Operand {
    ghost use Rattle.std.specs.Prelude.{ℤ};
    ghost use Rattle.macro_expressions.specs.Reading.{Reader, Gives};

    ghost reads: { Self → Reader ℤ };

    /// Reads it.
    fn read(&self, front: &mut Reading<'_>) -> Result<Whole, Fault>
        ensures { Gives (λ z. (z, front.new)) result (reads self.now front.old) };
}

/// The operators of one strength, with what stands between them.
#[derive(Drop)]
pub struct Level<O> {
    /// How strongly they bind.
    pub strength: u8,
    /// What stands between them.
    pub operand: O,
}

impl<O: Operand> Operand for Level<O> {
    ghost reads = { λ l. level_at l.strength (O.reads l.operand) };

    #[tactic(auto, unfolding(crate::specs::Values::level_at))]
    fn read(&self, front: &mut Reading<'_>) -> Result<Whole, Fault> {
        let first = self.operand.read(front)?;
        more(
            self.strength,
            &self.operand,
            first,
            front.rest().len(),
            front,
        )
    }
}

/// Reads the operators of a level behind a value, at most so many, from left to right.
fn more<O: Operand>(
    level: u8,
    operand: &O,
    first: Whole,
    most: usize,
    front: &mut Reading<'_>,
) -> Result<Whole, Fault>
    ensures { Gives (λ z. (z, front.new)) result (more_at (O.reads operand.now) level most first front.old) }
{
    let mut left = first;
    for _ in 0..most {
        let Some(between) = take_infix(level, front) else {
            return Ok(left);
        };
        let right = operand.read(front)?;
        left = combined(front.alloc(), between, left, right)?;
    }
    Ok(left)
}
