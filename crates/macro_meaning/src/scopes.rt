//! What a statement reads by the names that it may use.

ghost use Rattle.std.specs.Prelude.{◌≡◌};
ghost use Rattle.macro_expressions.specs.Reading.{Gives};
ghost use Rattle.macro_expressions.specs.Values.{optional_at};
ghost use Rattle.macro_statements.specs.Words.{form_words, words_by, inside_at};
ghost use Rattle.macro_meaning.specs.Meaning.{names_of, scope_of};

use crate::walk::Walk;
use indexmap::IndexMap;
use macro_expressions::{Fault, Reading, optional};
use macro_statements::{Brackets, Deeper, Form, Ground, Meant, form_words, inside, words_by};
use macro_values::Whole;
use word36::Word;

/// The last values of all symbols.
pub type Table = IndexMap<u64, i64>;

/// What a statement may name, and what its brackets hold.
fn around<'a>(table: &'a Table, walk: &'a Walk<'_>) -> Brackets<'a>
    ensures { result.deeper.deeper.deeper.deeper.names ≡ names_of table.now.entries walk.now }
{
    let names = walk.known(table);
    Deeper {
        deeper: Deeper {
            deeper: Deeper {
                deeper: Deeper {
                    deeper: Ground { names },
                },
            },
        },
    }
}

/// An expression, if one comes next.
pub fn value_next(
    table: &Table,
    walk: &Walk<'_>,
    front: &mut Reading<'_>,
) -> Result<Option<Whole>, Fault>
    ensures { Gives (λ z. (z, front.new)) result (optional_at (scope_of table.now.entries walk.now) front.old) }
{
    optional(&around(table, walk), front)
}

/// The words of a pseudo-operation, whose name is read, if it gives words.
pub fn data_next(
    table: &Table,
    form: Form,
    walk: &Walk<'_>,
    front: &mut Reading<'_>,
) -> Result<Vec<Word>, Fault>
    ensures { Gives (λ words. (words.items, front.new)) result (form_words (scope_of table.now.entries walk.now) form front.old) }
{
    form_words(&around(table, walk), form, front)
}

/// The words of a statement by what its first name is.
pub fn words_next(
    table: &Table,
    meant: Option<Meant>,
    walk: &Walk<'_>,
    front: &mut Reading<'_>,
) -> Result<Vec<Word>, Fault>
    ensures { Gives (λ words. (words.items, front.new)) result (words_by (scope_of table.now.entries walk.now) meant front.old) }
{
    words_by(&around(table, walk), meant, front)
}

/// What brackets would hold: a value, or a statement of one word.
pub fn inside_next(
    table: &Table,
    walk: &Walk<'_>,
    front: &mut Reading<'_>,
) -> Result<Option<Whole>, Fault>
    ensures { Gives (λ z. (z, front.new)) result (inside_at (scope_of table.now.entries walk.now) front.old) }
{
    inside(&around(table, walk), front)
}
