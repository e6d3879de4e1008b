//! Brackets, one inside another.

use crate::data::{given, inside};
use macro_expressions::{Around, BEYOND, Fault, Known, Reading};
use macro_values::Whole;
use word36::Word;

/// Names with which no more brackets are judged.
#[derive(Drop)]
pub struct Ground<'a> {
    /// The meanings of names.
    pub names: Known<'a>,
}

impl Around for Ground<'_> {
    ghost use Rattle.macro_statements.specs.Words.{ground_scope};

    ghost scope = { λ g. ground_scope g.names };

    fn names(&self) -> &Known<'_> {
        &self.names
    }

    fn inside(&self, _front: &mut Reading<'_>) -> Result<Option<Whole>, Fault> {
        Err(BEYOND)
    }

    fn given(&self, _front: &mut Reading<'_>) -> Result<Vec<Word>, Fault> {
        Err(BEYOND)
    }
}

/// Names with one more bracket around.
#[derive(Drop)]
pub struct Deeper<A> {
    /// The names and what may be read in the bracket.
    pub deeper: A,
}

impl<A: Around> Around for Deeper<A> {
    ghost use Rattle.macro_statements.specs.Words.{deeper_scope};

    ghost scope = { λ d. deeper_scope (A.scope d.deeper) };

    fn names(&self) -> &Known<'_> {
        self.deeper.names()
    }

    fn inside(&self, front: &mut Reading<'_>) -> Result<Option<Whole>, Fault> {
        inside(&self.deeper, front)
    }

    fn given(&self, front: &mut Reading<'_>) -> Result<Vec<Word>, Fault> {
        given(&self.deeper, front)
    }
}

/// Four brackets, one inside another, are judged.
pub type Brackets<'a> = Deeper<Deeper<Deeper<Deeper<Ground<'a>>>>>;
