//! Expressions.

ghost use Rattle.std.specs.Prelude.{◌≡◌};
ghost use Rattle.macro_expressions.specs.Reading.{Gives};
ghost use Rattle.macro_expressions.specs.Values.{unary_at, expression_at, begins_expression, optional_at};

use crate::characters::begins_name_character;
use crate::fault::{BEYOND, Fault};
use crate::kinds::SignKind;
use crate::numbers::into_word;
use crate::operators::{Level, Operand, sign_of};
use crate::reading::Reading;
use crate::terms::{Around, term};
use macro_values::Whole;

/// A term with its signs, at most so many.
#[tactic(auto, unfolding(crate::specs::Values::unary_at))]
fn unary<A: Around>(around: &A, most: u32, front: &mut Reading<'_>) -> Result<Whole, Fault>
    ensures { Gives (λ z. (z, front.new)) result (unary_at (A.scope around.now) most front.old) }
{
    if most == 0 {
        return Err(BEYOND);
    }
    front.skip();
    match sign_of(front.rest()) {
        SignKind::Unsigned => term(around, front),
        SignKind::Plus => {
            front.step();
            unary(around, most - 1, front)
        }
        SignKind::Minus => {
            front.step();
            let value = unary(around, most - 1, front)?;
            Ok(value.negated())
        }
        SignKind::Not => {
            front.step();
            front.step();
            let value = unary(around, most - 1, front)?;
            let word = into_word(front.alloc(), value)?;
            Ok(Whole::from_small(word.not().signed()))
        }
    }
}

/// A term with its signs, as an operand.
#[derive(Drop)]
struct SignedTerm<'a, A> {
    around: &'a A,
}

impl<A: Around> Operand for SignedTerm<'_, A> {
    ghost reads = { λ u. unary_at (A.scope u.around.now) 100 };

    fn read(&self, front: &mut Reading<'_>) -> Result<Whole, Fault> {
        unary(self.around, 100, front)
    }
}

/// An expression.
#[tactic(auto, unfolding(crate::specs::Values::expression_at))]
fn expression<A: Around>(around: &A, front: &mut Reading<'_>) -> Result<Whole, Fault>
    ensures { Gives (λ z. (z, front.new)) result (expression_at (A.scope around.now) front.old) }
{
    let shift = Level {
        strength: 3,
        operand: SignedTerm { around },
    };
    let logical = Level {
        strength: 2,
        operand: shift,
    };
    let product = Level {
        strength: 1,
        operand: logical,
    };
    let sum = Level {
        strength: 0,
        operand: product,
    };
    sum.read(front)
}

/// Whether a text begins with an expression.
fn begins_expression(text: &[u8]) -> bool
    ensures { result ≡ begins_expression text.now }
{
    match text {
        [b'+' | b'-' | b'^' | b'<' | b'"' | b'\'' | b'[', ..] => true,
        _ => begins_name_character(text),
    }
}

/// An expression, if one comes next.
#[tactic(auto, unfolding(crate::specs::Values::optional_at))]
pub fn optional<A: Around>(around: &A, front: &mut Reading<'_>) -> Result<Option<Whole>, Fault>
    ensures { Gives (λ z. (z, front.new)) result (optional_at (A.scope around.now) front.old) }
{
    front.skip();
    if begins_expression(front.rest()) {
        let value = expression(around, front)?;
        Ok(Some(value))
    } else {
        Ok(None)
    }
}
